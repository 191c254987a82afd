//! Which item a chunk holds, and in which chunk a key is.
ghost use Rattle.std.specs.Prelude.{◌≡◌, ◌<◌, ◌+◌, ℕ, List, None, Some, IfSome, IfOk, ◌≤◌, length, slice_index, slice_set};
ghost use Rattle.std.specs.Option.{option_copied, option_map};
ghost use Rattle.std.specs.FinMap as map;
ghost use Rattle.rev_items.specs.Plain.{PlainItem};
ghost use Rattle.rev_model.specs.declared.ChunkRef.{ChunkRef as ChunkOf};
ghost use Rattle.rev_model.specs.Chunk.{HasSlot};
ghost use Rattle.rev_model.specs.Move.{put_at, touched, touched_of};
ghost use Rattle.rev_model.specs.Words.{header_of};
ghost use Rattle.rev_index.specs.Index.{PlainIndex, bound, unbound, empty_index};

use crate::chains::{ChainLink, Chains};
use crate::growth::{enter, fit_buckets, restore};
use crate::item_table::ItemTable;
use crate::making::empty_chains;
use crate::parts::Slots;
use crate::seek::seek;
use crate::sizing::KeyRange;
use rev_classes::{ClassTable, Config, MAX_CLASSES};
use rev_items::{Item, Key};
use rev_model::{ChunkRef, ItemHeader, Touched};
use std::alloc::{AllocError, Allocator};
use std::marker::Model;

/// What each chunk holds, and the chunk of each key.
#[derive(Drop)]
pub struct Index<A: Allocator> {
    chains: Chains<A>,
    items: ItemTable<A>,
    // the ends of the buckets that the index began with, while there are more in their place: for `narrow` alone
    first_ends: Option<Vec<ChainLink, A>>,
    // how many keys are bound, for `widen` alone
    bound: usize,
    // for how many keys the buckets are enough, or all that can be had for now: for `widen` alone, too
    enough_for: KeyRange,
}

impl<A: Allocator> Model for Index<A> {
    ghost use Rattle.std.specs.Coded.{codes};
    ghost use Rattle.rev_model.specs.Codes.{coded_contents, coded_keys};
    ghost use Rattle.rev_index.specs.Index.{PlainIndex, index_of, IsChained};

    ghost Value = { PlainIndex };

    ghost coded = { Prim.hlevel (codes, coded_contents, coded_keys) };

    ghost view = { λ s. index_of s.chains.ends.items s.chains.links s.items };

    ghost invariant = { λ s. IsChained s.chains.ends.items s.chains.links s.items };
}

// What is read of an item without its bytes.
fn header_of<A: Allocator>(item: &Item<A>) -> ItemHeader
    ensures { result ≡ header_of item.now }
{
    ItemHeader {
        flags: item.flags(),
        moment: item.moment(),
        time: item.time(),
        cas: item.cas(),
        bits: item.bits(),
    }
}

impl<A: Allocator> Index<A> {
    /// The chunk of a key.
    pub fn find<B: Allocator>(&self, key: &Key<B>) -> Option<ChunkRef>
        ensures { result ≡ map.get self.now.keys key.now }
    {
        let bucket = self.chains.bucket(key.hash());
        seek(&self.chains, &self.items, bucket, key)
    }

    /// Gives the key of a chunk's item that chunk. It takes no memory.
    pub fn bind(&mut self, chunk: ChunkRef)
        // the chunk has an item, whose key is not bound
        requires { (i : PlainItem) × (map.get self.old.content chunk ≡ Some i)
            × (map.get self.old.keys i.key ≡ None) }
        ensures { let item = map.get self.old.content chunk in
            self.new ≡ record self.old { keys = bound chunk item self.old.keys } }
    {
        enter(&mut self.chains, &self.items, chunk);
        self.bound = self.bound.wrapping_add(1);
    }

    /// Takes the key of a chunk's item out. It takes no memory.
    pub fn unbind(&mut self, chunk: ChunkRef)
        // the chunk has an item, whose key leads to the chunk
        requires { (i : PlainItem) × (map.get self.old.content chunk ≡ Some i)
            × (map.get self.old.keys i.key ≡ Some chunk) }
        ensures { let item = map.get self.old.content chunk in
            self.new ≡ record self.old { keys = unbound item self.old.keys } }
    {
        self.chains.remove(chunk);
        self.bound = self.bound.wrapping_sub(1);
    }

    /// What a chunk holds: nothing too where its page or its slot is not there.
    pub fn item(&self, chunk: ChunkRef) -> Option<&Item<A>>
        ensures { option_copied result ≡ map.get self.now.content chunk }
    {
        self.items.item(chunk)
    }

    /// What a chunk holds, without the bytes of key and data.
    pub fn header(&self, chunk: ChunkRef) -> Option<ItemHeader>
        ensures { result ≡ option_map header_of (map.get self.now.content chunk) }
    {
        match self.item(chunk) {
            Some(item) => Some(header_of(item)),
            None => None,
        }
    }

    /// Exchanges what a chunk holds, and gives what it held. It takes no memory.
    pub fn fill(&mut self, chunk: ChunkRef, item: Option<Item<A>>) -> Option<Item<A>>
        requires slot { HasSlot self.old.slots chunk }
        // a key that leads to the chunk is that of its new item too
        requires bound { (k : List ℕ) → map.get self.old.keys k ≡ Some chunk
            → (i : PlainItem) × (item ≡ Some i) × (i.key ≡ k) }
        ensures before { result ≡ map.get self.old.content chunk }
        ensures after { self.new ≡ record self.old { content = put_at self.old.content chunk item } }
    {
        self.items.replace(chunk, item)
    }

    /// Exchanges bits, time and moment of a chunk's item, and gives the old ones. It takes no memory.
    pub fn touch(&mut self, chunk: ChunkRef, to: Touched) -> Touched
        requires { (i : PlainItem) × (map.get self.old.content chunk ≡ Some i) }
        ensures before { IfSome (map.get self.old.content chunk) (λ i. result ≡ touched_of i) }
        ensures after { let item = option_map (touched to) (map.get self.old.content chunk) in
            self.new ≡ record self.old { content = put_at self.old.content chunk item } }
    {
        self.items.touch(chunk, to)
    }

    /// Gives a page its slots. It takes no memory.
    pub fn lay(&mut self, page: u16, slots: Slots<A>)
        requires page { page < length self.old.slots }
        requires empty { slice_index self.old.slots page ≡ 0 }
        ensures { self.new ≡ record self.old { slots = slice_set self.old.slots page slots } }
    {
        let Slots { items, links } = slots;
        self.chains.links.lay(page, links);
        self.items.lay(page, items);
    }

    /// Takes the slots of a page out, of which none has an item. It takes no memory.
    pub fn lift(&mut self, page: u16) -> Slots<A>
        requires there { 0 < slice_index self.old.slots page }
        requires empty { (x : ChunkOf) → x.page ≡ page → map.get self.old.content x ≡ None }
        ensures count { result ≡ slice_index self.old.slots page }
        ensures after { self.new ≡ record self.old { slots = slice_set self.old.slots page 0 } }
    {
        let links = self.chains.links.lift(page);
        let items = self.items.lift(page);
        Slots { items, links }
    }

    /// Gives the memory of grown buckets back: the index has those that it began with once more, and `widen` gives it
    /// more only where an eighth of the keys has come or gone. The answer is whether it had grown. It takes no memory,
    /// and time in the number of keys and buckets. Nothing that is seen of the index depends on its buckets.
    pub fn narrow(&mut self) -> bool
        ensures { self.new ≡ self.old }
    {
        let Some(ends) = self.first_ends.take() else {
            return false;
        };
        self.enough_for = KeyRange::around(self.bound);
        restore(&mut self.chains, &self.items, ends)
    }
}

impl<A: Allocator + Clone> Index<A> {
    /// No items and no keys, in 2^hash_power buckets, over a table of pages without slots: as many as the limit, and
    /// 62 more, since each class may take one page beyond it.
    ///
    /// The one error is that there is no memory.
    pub fn open(alloc: A, config: &Config, _table: &ClassTable) -> Result<Index<A>, AllocError>
        requires pages { config.now.pages ≤ 4096 }
        requires power { config.now.hash_power ≤ 20 }
        ensures { IfOk result (λ s. s ≡ empty_index (config.entry.now.pages + 62)) }
    {
        let pages = config.pages as usize + MAX_CLASSES;
        let chains = empty_chains(alloc.clone()?, pages, config.hash_power)?;
        let items = ItemTable::open(alloc, pages)?;
        let enough_for = KeyRange::fitting(chains.ends.len());
        Ok(Index {
            chains,
            items,
            first_ends: None,
            bound: 0,
            enough_for,
        })
    }

    /// Gives the index four times as many buckets where they hold more than two keys each, on average, and 2^20 are not
    /// exceeded. Those that it began with are kept aside. Where memory is refused it stays as it is until an eighth of
    /// the keys has come or gone; a growth that was put off so is made at once, however many times four are wanted by
    /// then. Nothing that is seen of the index depends on its buckets.
    pub fn widen(&mut self, alloc: &A)
        ensures { self.new ≡ self.old }
    {
        if !self.enough_for.contains(self.bound) {
            self.enough_for = fit_buckets(
                &mut self.chains,
                &self.items,
                &mut self.first_ends,
                self.bound,
                alloc,
            );
        }
    }
}
