//! Reads and changes of free lists and queues where nobody counts the cells that they reach.

ghost use Rattle.std.specs.Prelude.{◌≡◌, ℕ, ◌<◌, [], length, slice_get, slice_index_or, slice_set, true, false};
ghost use Rattle.rev_links.specs.Neighbours.{behind_of};
ghost use Rattle.rev_model.specs.Chunk.{same_chunk, same_entry, HasSlot, EntryHasSlot};
ghost use Rattle.rev_model.specs.Lists.{has, without, before, insert, has_after};
ghost use Rattle.rev_model.specs.State.{queue_place};
ghost use Rattle.rev_model.specs.Words.{first, tail};
ghost use Rattle.rev_queues.specs.Entries.{footprints, insert_entry, last_of, queued_with, without_entry};
ghost use Rattle.rev_queues.specs.QueueState.{line, IsGone};

use rev_links::Ticks;
use rev_model::{ChunkRef, Entry, Queue};
use rev_pages::Pages;
use rev_queues::Queues;
use std::alloc::Allocator;
use std::sync::ledger::{Blank, Ledger};

pub fn front_free<A: Allocator, L: Ledger>(
    pages: &Pages<A>,
    class: usize,
    blank: Blank,
) -> Option<ChunkRef>
    requires name { blank.name ≡ L.name }
    requires parts { blank.parts ≡ L.parts }
    requires some { 0 < L.parts }
    requires class { class < length pages.now.free }
    ensures { result ≡ first (slice_index_or pages.now.free class []) }
{
    let mut ticks = Ticks::<L>::start(blank);
    pages.front(class, &mut ticks)
}

pub fn behind_free<A: Allocator, L: Ledger>(
    pages: &Pages<A>,
    class: usize,
    chunk: ChunkRef,
    blank: Blank,
) -> Option<ChunkRef>
    requires name { blank.name ≡ L.name }
    requires parts { blank.parts ≡ L.parts }
    requires some { 0 < L.parts }
    requires class { class < length pages.now.free }
    requires there { has same_chunk chunk (slice_index_or pages.now.free class []) ≡ true }
    ensures { result ≡ behind_of same_chunk chunk (slice_index_or pages.now.free class []) }
{
    let mut ticks = Ticks::<L>::start(blank);
    pages.behind(class, chunk, &mut ticks)
}

pub fn take_free<A: Allocator, L: Ledger>(
    pages: &mut Pages<A>,
    class: usize,
    chunk: ChunkRef,
    blank: Blank,
) -> Option<ChunkRef>
    requires name { blank.name ≡ L.name }
    requires parts { blank.parts ≡ L.parts }
    requires some { 0 < L.parts }
    requires class { class < length pages.old.free }
    requires there { has same_chunk chunk (slice_index_or pages.old.free class []) ≡ true }
    ensures before { result ≡ before same_chunk chunk (slice_index_or pages.old.free class []) }
    ensures after { pages.new ≡ record pages.old { free = slice_set pages.old.free class (without same_chunk chunk (slice_index_or pages.old.free class [])) } }
{
    let mut ticks = Ticks::<L>::start(blank);
    pages.take(class, chunk, &mut ticks)
}

pub fn put_free<A: Allocator, L: Ledger>(
    pages: &mut Pages<A>,
    class: usize,
    chunk: ChunkRef,
    after: Option<ChunkRef>,
    blank: Blank,
)
    requires name { blank.name ≡ L.name }
    requires parts { blank.parts ≡ L.parts }
    requires some { 0 < L.parts }
    requires class { class < length pages.old.free }
    requires slot { HasSlot pages.old.slots chunk }
    requires nowhere { (c : ℕ) → has same_chunk chunk (slice_index_or pages.old.free c []) ≡ false }
    requires after { has_after same_chunk after (slice_index_or pages.old.free class []) ≡ true }
    ensures { pages.new ≡ record pages.old { free = slice_set pages.old.free class (insert same_chunk chunk after (slice_index_or pages.old.free class [])) } }
{
    let mut ticks = Ticks::<L>::start(blank);
    pages.put_after(class, chunk, after, &mut ticks);
}

pub fn tail_chunk<A: Allocator, L: Ledger>(
    queues: &Queues<A>,
    class: usize,
    queue: Queue,
    blank: Blank,
) -> Option<ChunkRef>
    requires name { blank.name ≡ L.name }
    requires parts { blank.parts ≡ L.parts }
    requires some { 0 < L.parts }
    requires place { queue_place class queue < length queues.now.queues }
    ensures { result ≡ tail (line queues.now class queue) }
{
    let mut ticks = Ticks::<L>::start(blank);
    queues.tail(class, queue, &mut ticks)
}

pub fn last_entry<A: Allocator, L: Ledger>(
    queues: &Queues<A>,
    class: usize,
    queue: Queue,
    blank: Blank,
) -> Option<Entry>
    requires name { blank.name ≡ L.name }
    requires parts { blank.parts ≡ L.parts }
    requires some { 0 < L.parts }
    requires place { queue_place class queue < length queues.now.queues }
    ensures { result ≡ last_of (line queues.now class queue) }
{
    let mut ticks = Ticks::<L>::start(blank);
    queues.last(class, queue, &mut ticks)
}

pub fn head_entry<A: Allocator, L: Ledger>(
    queues: &Queues<A>,
    class: usize,
    queue: Queue,
    blank: Blank,
) -> Option<Entry>
    requires name { blank.name ≡ L.name }
    requires parts { blank.parts ≡ L.parts }
    requires some { 0 < L.parts }
    requires place { queue_place class queue < length queues.now.queues }
    ensures { result ≡ slice_get (line queues.now class queue) 0 }
{
    let mut ticks = Ticks::<L>::start(blank);
    queues.head(class, queue, &mut ticks)
}

pub fn before_entry<A: Allocator, L: Ledger>(
    queues: &Queues<A>,
    class: usize,
    queue: Queue,
    entry: Entry,
    blank: Blank,
) -> Option<Entry>
    requires name { blank.name ≡ L.name }
    requires parts { blank.parts ≡ L.parts }
    requires some { 0 < L.parts }
    requires place { queue_place class queue < length queues.now.queues }
    requires there { has same_entry entry (line queues.now class queue) ≡ true }
    ensures { result ≡ before same_entry entry (line queues.now class queue) }
{
    let mut ticks = Ticks::<L>::start(blank);
    queues.before(class, queue, entry, &mut ticks)
}

pub fn behind_entry<A: Allocator, L: Ledger>(
    queues: &Queues<A>,
    class: usize,
    queue: Queue,
    entry: Entry,
    blank: Blank,
) -> Option<Entry>
    requires name { blank.name ≡ L.name }
    requires parts { blank.parts ≡ L.parts }
    requires some { 0 < L.parts }
    requires place { queue_place class queue < length queues.now.queues }
    requires there { has same_entry entry (line queues.now class queue) ≡ true }
    ensures { result ≡ behind_of same_entry entry (line queues.now class queue) }
{
    let mut ticks = Ticks::<L>::start(blank);
    queues.behind(class, queue, entry, &mut ticks)
}

pub fn queue_bytes<A: Allocator, L: Ledger>(
    queues: &Queues<A>,
    class: usize,
    queue: Queue,
    blank: Blank,
) -> u64
    requires name { blank.name ≡ L.name }
    requires parts { blank.parts ≡ L.parts }
    requires some { 0 < L.parts }
    requires place { queue_place class queue < length queues.now.queues }
    ensures { result ≡ footprints (slice_index_or queues.now.queues (queue_place class queue) []) }
{
    let mut ticks = Ticks::<L>::start(blank);
    queues.bytes(class, queue, &mut ticks)
}

pub fn take_entry<A: Allocator, L: Ledger>(
    queues: &mut Queues<A>,
    class: usize,
    queue: Queue,
    entry: Entry,
    blank: Blank,
) -> Option<Entry>
    requires name { blank.name ≡ L.name }
    requires parts { blank.parts ≡ L.parts }
    requires some { 0 < L.parts }
    requires place { queue_place class queue < length queues.old.queues }
    requires there { has same_entry entry (line queues.old class queue) ≡ true }
    ensures before { result ≡ before same_entry entry (line queues.old class queue) }
    ensures after { queues.new ≡ record queues.old { queues = slice_set queues.old.queues (queue_place class queue) (without_entry entry (slice_index_or queues.old.queues (queue_place class queue) [])) } }
{
    let mut ticks = Ticks::<L>::start(blank);
    queues.take(class, queue, entry, &mut ticks)
}

pub fn put_entry<A: Allocator, L: Ledger>(
    queues: &mut Queues<A>,
    class: usize,
    queue: Queue,
    entry: Entry,
    after: Option<Entry>,
    footprint: u32,
    blank: Blank,
)
    requires name { blank.name ≡ L.name }
    requires parts { blank.parts ≡ L.parts }
    requires some { 0 < L.parts }
    requires place { queue_place class queue < length queues.old.queues }
    requires slot { EntryHasSlot queues.old.slots entry }
    requires gone { IsGone queues.old.queues (queue_place class queue) entry }
    requires after { has_after same_entry after (line queues.old class queue) ≡ true }
    ensures { queues.new ≡ record queues.old { queues = slice_set queues.old.queues (queue_place class queue) (insert_entry (queued_with entry footprint) after (slice_index_or queues.old.queues (queue_place class queue) [])) } }
{
    let mut ticks = Ticks::<L>::start(blank);
    queues.put_after(class, queue, entry, after, footprint, &mut ticks);
}
