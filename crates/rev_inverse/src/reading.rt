//! What can be read of a store.
ghost use Rattle.std.specs.Prelude.{◌≡◌, ℕ, ◌<◌, length, slice_get, Option, None, Some, MatchOption, true};
ghost use Rattle.std.specs.Option.{option_copied, option_map};
ghost use Rattle.rev_model.specs.Chunk.{same_chunk, same_entry};
ghost use Rattle.rev_model.specs.Lists.{has, has_after, before};
ghost use Rattle.rev_model.specs.State.{WellFormed, free_of, queue_of, counter_of, owner_of, item_at, find, IsClass};
ghost use Rattle.rev_model.specs.Words.{first, tail, bytes, header_of, queue_with};
ghost use Rattle.rev_model.specs.Pull.{lowest_page, owns_page};
ghost use Rattle.rev_model.specs.declared.Queue.{Queue as QueueOf};
ghost use Rattle.rev_inverse.specs.Reading.{next_after};

use crate::moves::{COUNTERS, number};
use crate::store::Store;
use crate::uncounted::{
    before_entry, behind_entry, behind_free, front_free, head_entry, queue_bytes, tail_chunk,
};
use rev_classes::ClassTable;
use rev_items::{Item, Key};
use rev_model::{BumpEntry, ChunkRef, Counter, Entry, Globals, ItemHeader, Queue};
use std::alloc::Allocator;
use std::marker::Brand;
use std::sync::ledger::Blank;

impl<A: Allocator> Store<A> {
    /// Clock, cas number, flush, mover and settings.
    pub fn globals(&self) -> Globals
        ensures { result ≡ self.now.globals }
    {
        self.globals
    }

    /// How many pages there may be before classes that own one have to evict, 1 to 4096, and how many entries the bump
    /// queue holds, 1 to 4096.
    pub fn limits(&self) -> (usize, usize)
        ensures { result ≡ (self.now.fixed.limit, self.now.fixed.bump_room) }
    {
        (self.page_limit, self.bump_room)
    }

    /// The slab classes.
    pub fn table(&self) -> &ClassTable
        ensures { result.now ≡ record { page_size = self.now.fixed.page_size; sizes = self.now.fixed.sizes } }
    {
        &self.table
    }

    /// How many pages were made.
    pub fn made(&self) -> usize
        ensures { result ≡ length self.now.owner }
    {
        self.pages.made()
    }

    /// The class of a page, 0 for the pool.
    pub fn owner(&self, page: usize) -> usize
        requires { page < length self.now.owner }
        ensures { result ≡ owner_of self.now page }
    {
        self.pages.owner(page)
    }

    /// The lowest page of a class, or of the pool.
    pub fn lowest_page(&self, class: usize) -> Option<u16>
        ensures { result ≡ lowest_page self.now class }
    {
        self.pages.lowest_page(class)
    }

    /// Whether a class owns a page.
    pub fn owns_page(&self, class: usize) -> bool
        ensures { result ≡ owns_page self.now class }
    {
        self.pages.owns_page(class)
    }

    /// The chunk in front of a class's free list.
    pub fn front(&self, class: usize) -> Option<ChunkRef>
        requires well { WellFormed self.now }
        requires class { IsClass self.now.fixed class }
        ensures { result ≡ first (free_of self.now class) }
    {
        front_free::<A, Brand>(&self.pages, class, Blank::new(1))
    }

    /// The chunk in front of a class's free list, or the one behind another.
    pub fn free_at(&self, class: usize, behind: Option<ChunkRef>) -> Option<ChunkRef>
        requires well { WellFormed self.now }
        requires class { IsClass self.now.fixed class }
        requires there { has_after same_chunk behind (free_of self.now class) ≡ true }
        ensures { result ≡ next_after same_chunk behind (free_of self.now class) }
    {
        match behind {
            None => front_free::<A, Brand>(&self.pages, class, Blank::new(1)),
            Some(chunk) => behind_free::<A, Brand>(&self.pages, class, chunk, Blank::new(1)),
        }
    }

    /// The last chunk of a queue; a mark is passed over.
    pub fn tail(&self, class: usize, queue: Queue) -> Option<ChunkRef>
        requires well { WellFormed self.now }
        requires class { IsClass self.now.fixed class }
        ensures { result ≡ tail (queue_of self.now class queue) }
    {
        tail_chunk::<A, Brand>(&self.queues, class, queue, Blank::new(1))
    }

    /// The entry of a queue that stands before another, towards the head.
    pub fn before(&self, class: usize, queue: Queue, entry: Entry) -> Option<Entry>
        requires well { WellFormed self.now }
        requires class { IsClass self.now.fixed class }
        requires there { has same_entry entry (queue_of self.now class queue) ≡ true }
        ensures { result ≡ before same_entry entry (queue_of self.now class queue) }
    {
        before_entry::<A, Brand>(&self.queues, class, queue, entry, Blank::new(1))
    }

    /// The head of a queue, or the entry behind another.
    pub fn queue_entry(&self, class: usize, queue: Queue, behind: Option<Entry>) -> Option<Entry>
        requires well { WellFormed self.now }
        requires class { IsClass self.now.fixed class }
        requires there { has_after same_entry behind (queue_of self.now class queue) ≡ true }
        ensures { result ≡ next_after same_entry behind (queue_of self.now class queue) }
    {
        match behind {
            None => head_entry::<A, Brand>(&self.queues, class, queue, Blank::new(1)),
            Some(entry) => behind_entry::<A, Brand>(
                &self.queues,
                class,
                queue,
                entry,
                Blank::new(1),
            ),
        }
    }

    /// Whether a mark stands in a queue.
    pub fn has_mark(&self, class: usize, queue: Queue) -> bool
        requires well { WellFormed self.now }
        requires class { IsClass self.now.fixed class }
        ensures { result ≡ has same_entry Entry.Mark (queue_of self.now class queue) }
    {
        self.queues.has_mark(class, queue)
    }

    /// The queue of a class that a chunk stands in.
    pub fn queue_with(&self, class: usize, chunk: ChunkRef) -> Queue
        requires well { WellFormed self.now }
        requires class { IsClass self.now.fixed class }
        requires there { (q : QueueOf) × (has same_entry (Entry.Chunk chunk) (queue_of self.now class q) ≡ true) }
        ensures { result ≡ queue_with self.now class chunk }
    {
        self.queues.queue_with(class, chunk)
    }

    /// The bytes of a queue: the footprints of its items together.
    pub fn bytes(&self, class: usize, queue: Queue) -> u64
        requires well { WellFormed self.now }
        requires class { IsClass self.now.fixed class }
        ensures { result ≡ bytes self.now class queue }
    {
        queue_bytes::<A, Brand>(&self.queues, class, queue, Blank::new(1))
    }

    /// The chunk that a key leads to.
    pub fn find(&self, key: &Key<A>) -> Option<ChunkRef>
        ensures { result ≡ find self.now key.now }
    {
        self.index.find(key)
    }

    /// What a chunk holds.
    pub fn content(&self, chunk: ChunkRef) -> Option<&Item<A>>
        ensures { option_copied result ≡ item_at self.now chunk }
    {
        self.index.item(chunk)
    }

    /// What is read of a chunk's item without its bytes.
    pub fn header(&self, chunk: ChunkRef) -> Option<ItemHeader>
        ensures { result ≡ option_map header_of (item_at self.now chunk) }
    {
        self.index.header(chunk)
    }

    /// The item of a key, and its chunk.
    pub fn item(&self, key: &Key<A>) -> Option<(ChunkRef, &Item<A>)>
        requires well { WellFormed self.now }
        ensures { MatchOption result (find self.now key.now ≡ None) (λ p. (find self.now key.now ≡ Some p.0) × (item_at self.now p.0 ≡ Some p.1.now)) }
    {
        let chunk = self.index.find(key)?;
        let item = self.index.item(chunk)?;
        Some((chunk, item))
    }

    /// A counter of a class.
    pub fn counter(&self, class: usize, counter: Counter) -> u64
        requires well { WellFormed self.now }
        requires class { IsClass self.now.fixed class }
        ensures { result ≡ counter_of self.now class counter }
    {
        let _count = self.counters.len();
        self.counters[COUNTERS * class + number(counter)]
    }

    /// How many entries the bump queue has.
    pub fn bump_len(&self) -> usize
        ensures { result ≡ length self.now.bump }
    {
        self.bump.len()
    }

    /// An entry of the bump queue, from 0 for the oldest.
    pub fn bump_at(&self, i: usize) -> Option<BumpEntry>
        ensures { result ≡ slice_get self.now.bump i }
    {
        self.bump.get(i).copied()
    }
}
