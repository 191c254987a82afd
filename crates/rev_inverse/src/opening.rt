//! A store is opened, with nothing in it.
ghost use Rattle.std.specs.Prelude.{◌≡◌, ◌⊎◌, ◌≤◌, ℕ, ◌+◌, ◌*◌, IfOk, IfErr, None, Ok, Some, length};
ghost use Rattle.rev_classes.specs.Limits.{class_sizes, fault_of};
ghost use Rattle.rev_classes.specs.declared.ConfigFault.TheVariants.{Memory};
ghost use Rattle.rev_model.specs.State.{per_page, IsClass};
ghost use Rattle.rev_model.specs.Sound.{Sound};
ghost use Rattle.rev_pages.specs.State.{no_pages};
ghost use Rattle.rev_queues.specs.QueueState.{empty_queues};
ghost use Rattle.rev_index.specs.Index.{empty_index};
ghost use Rattle.rev_inverse.specs.Empty.{empty_globals, empty_state};

use crate::moves::COUNTERS;
use crate::parts::{Parts, Shelf};
use crate::store::Store;
use rev_classes::{ClassTable, Config, ConfigFault};
use rev_index::Index;
use rev_model::{Globals, Settings};
use rev_pages::Pages;
use rev_queues::Queues;
use std::alloc::{AllocError, Allocator};
use std::collections::VecDeque;

// Clock, cas number, flush, mover and settings of a store that is opened (the shares and factors are memcached's own).
fn first_globals(config: &Config) -> Globals
    ensures { result ≡ empty_globals config.entry.now }
{
    let settings = Settings {
        hot_share: 20,
        warm_share: 40,
        hot_factor: 200,
        warm_factor: 2000,
        temp_ttl: config.temp_ttl,
    };
    Globals {
        clock: config.now,
        last_cas: 0,
        flush_limit: 0,
        flush: None,
        mover: None,
        settings,
    }
}

// Both, or why there is no second.
fn both<P: Drop, Q>(one: P, other: Result<Q, AllocError>) -> Result<(P, Q), AllocError>
    ensures { IfOk result (λ p. (p.0 ≡ one) × (other ≡ Ok p.1)) }
{
    match other {
        Ok(other) => Ok((one, other)),
        Err(refused) => Err(refused),
    }
}

fn open_pages<A: Allocator + Clone>(
    alloc: &A,
    config: &Config,
    table: &ClassTable,
) -> Result<Pages<A>, AllocError>
    requires pages { config.now.pages ≤ 4096 }
    ensures { IfOk result (λ p. p ≡ no_pages (length table.entry.now.sizes + 1) (config.entry.now.pages + 62)) }
{
    Pages::open(alloc.clone()?, config, table)
}

fn open_queues<A: Allocator + Clone>(
    alloc: &A,
    config: &Config,
    table: &ClassTable,
) -> Result<Queues<A>, AllocError>
    requires pages { config.now.pages ≤ 4096 }
    ensures { IfOk result (λ q. q ≡ empty_queues (length table.entry.now.sizes) config.entry.now.pages) }
{
    Queues::open(alloc.clone()?, config, table)
}

fn open_index<A: Allocator + Clone>(
    alloc: &A,
    config: &Config,
    table: &ClassTable,
) -> Result<Index<A>, AllocError>
    requires pages { config.now.pages ≤ 4096 }
    requires power { config.now.hash_power ≤ 20 }
    ensures { IfOk result (λ i. i ≡ empty_index (config.entry.now.pages + 62)) }
{
    Index::open(alloc.clone()?, config, table)
}

// The three parts without pages.
fn open_parts<A: Allocator + Clone>(
    alloc: &A,
    config: &Config,
    table: &ClassTable,
) -> Result<(Pages<A>, Queues<A>, Index<A>), AllocError>
    requires pages { config.now.pages ≤ 4096 }
    requires power { config.now.hash_power ≤ 20 }
    ensures pages { IfOk result (λ p. p.0 ≡ no_pages (length table.entry.now.sizes + 1) (config.entry.now.pages + 62)) }
    ensures queues { IfOk result (λ p. p.1 ≡ empty_queues (length table.entry.now.sizes) config.entry.now.pages) }
    ensures index { IfOk result (λ p. p.2 ≡ empty_index (config.entry.now.pages + 62)) }
{
    let pages = open_pages(alloc, config, table)?;
    let (pages, queues) = both(pages, open_queues(alloc, config, table))?;
    let ((pages, queues), index) = both((pages, queues), open_index(alloc, config, table))?;
    Ok((pages, queues, index))
}

impl<A: Allocator + Clone> Store<A> {
    /// A store without pages and items. All that it will ever need is reserved here, but for the slots of pages, which
    /// `parts` takes, and more buckets for the index, which `widen` takes.
    ///
    /// The fault is the first limit that the configuration breaks. `Memory` comes only where it breaks none.
    pub fn open(alloc: A, config: Config) -> Result<Store<A>, ConfigFault>
        ensures ok { IfOk result (λ store. store ≡ empty_state config) }
        ensures sound { IfOk result (λ store. Sound store) }
        ensures limits { IfOk result (λ store. fault_of config ≡ None) }
        ensures err { IfErr result (λ fault. (fault_of config ≡ Some fault) ⊎ ((fault_of config ≡ None) × (fault ≡ Memory))) }
    {
        let table = ClassTable::build(&config)?;
        match Store::over(alloc, &config, table) {
            Ok(store) => Ok(store),
            Err(_) => Err(ConfigFault::Memory),
        }
    }

    // The store over the table of its configuration.
    fn over(alloc: A, config: &Config, table: ClassTable) -> Result<Store<A>, AllocError>
        requires limits { fault_of config.now ≡ None }
        requires table { table ≡ record { page_size = config.now.page_size; sizes = class_sizes config.now } }
        ensures { IfOk result (λ store. store ≡ empty_state config.entry.now) }
    {
        let bump_room = config.bump as usize;
        let bump = VecDeque::with_capacity(alloc.clone()?, bump_room)?;
        let counters = vec![in alloc.clone()?; 0; COUNTERS * (table.last() + 1)]?;
        let (pages, queues, index) = open_parts(&alloc, config, &table)?;
        Ok(Store {
            pages,
            queues,
            index,
            bump,
            counters,
            globals: first_globals(config),
            table,
            page_limit: config.pages as usize,
            bump_room,
            alloc,
        })
    }

    /// The slots for a page of a class, which `Change::Lay` takes. This, `widen` and `open` are all that takes memory.
    pub fn parts(&self, class: usize) -> Result<Parts<A>, AllocError>
        requires class { IsClass self.now.fixed class }
        ensures { IfOk result (λ parts. parts ≡ per_page self.now.fixed class) }
    {
        let shelf = self.shelf()?;
        let count = self.table.per_page(class) as u16;
        let pages = rev_pages::slots(self.alloc.clone()?, count)?;
        let queues = rev_queues::slots(self.alloc.clone()?, count)?;
        let index = rev_index::slots(self.alloc.clone()?, count)?;
        Ok(shelf.fill(pages, queues, index))
    }

    /// Gives the index more buckets where they hold many keys each and there is memory for more. No value and no answer
    /// depends on how many there are.
    pub fn widen(&mut self)
        ensures { self.new ≡ self.old }
    {
        self.index.widen(&self.alloc);
    }

    /// Gives the memory back that more buckets took: the index has those that it began with. `widen` gives it more only
    /// where an eighth of the keys has come or gone. The answer is whether there were more. It takes no memory. No
    /// value and no answer of the store depends on how many there are.
    pub fn narrow(&mut self) -> bool
        ensures { self.new ≡ self.old }
    {
        self.index.narrow()
    }

    /// Memory for what a page leaves when `Change::Lift` lifts it.
    ///
    /// Err: a growth was refused.
    pub fn shelf(&self) -> Result<Shelf<A>, AllocError> {
        Shelf::new(self.alloc.clone()?)
    }

    /// The allocator of the store, once more.
    pub fn alloc(&self) -> Result<A, AllocError> {
        self.alloc.clone()
    }
}
