//! Single moves of the plain model on the tables: chunks, items, counters, what stands once.
ghost use Rattle.std.specs.Prelude.{◌≡◌, ℕ, ◌+◌, ◌<◌, ◌≤◌, length};
ghost use Rattle.rev_model.specs.State.{WellFormed, free_of, item_at, counter_of, counter_number};
ghost use Rattle.rev_model.specs.Chunk.{same_chunk};
ghost use Rattle.rev_model.specs.Lists.{before};
ghost use Rattle.rev_model.specs.Move as plain;
ghost use Rattle.rev_model.specs.Move.{moved, reverse, Possible, retouched, back_of, out_of};
ghost use Rattle.rev_model.specs.declared.GlobalPart.TheVariants as part;
ghost use Rattle.rev_model.specs.declared.Listed.TheVariants as listed;
ghost use Rattle.rev_model.specs.declared.Placed.TheVariants as placed;
ghost use Rattle.rev_model.specs.Words.{weight};

use crate::store::Store;
use crate::uncounted::{put_entry, put_free, take_entry, take_free};
use rev_items::Item;
use rev_model::{
    BumpEntry, ChunkRef, Counter, Entry, Listed, Mover, Placed, Settings, Timing, Touched,
};
use std::alloc::Allocator;
use std::marker::Brand;
use std::mem;
use std::sync::ledger::Blank;

/// How many counters each class has.
pub(crate) const COUNTERS: usize = 7;

// The place of a counter among those of its class.
pub(crate) fn number(counter: Counter) -> usize
    ensures { result ≡ counter_number counter }
{
    match counter {
        Counter::Evicted => 0,
        Counter::Reclaimed => 1,
        Counter::CrawlerReclaimed => 2,
        Counter::OutOfMemory => 3,
        Counter::MovesToCold => 4,
        Counter::MovesToWarm => 5,
        Counter::MovesWithinLru => 6,
    }
}

impl<A: Allocator> Store<A> {
    // The bytes that an entry counts in its queue.
    pub(crate) fn footprint(&self, entry: Entry) -> u32
        ensures { result ≡ weight self.now.content entry }
    {
        match entry {
            Entry::Chunk(chunk) => match self.index.item(chunk) {
                Some(item) => item.footprint() as u32,
                None => 0,
            },
            Entry::Mark => 0,
        }
    }

    #[inline(always)]
    pub(crate) fn take(&mut self, at: Listed) -> Placed
        requires well { WellFormed self.old }
        requires possible { Possible (plain.Takes at) self.old }
        ensures state { self.new ≡ moved (plain.Takes at) self.old }
        ensures reverse { plain.Puts result ≡ reverse (plain.Takes at) self.old }
    {
        match at {
            Listed::InFree(class, chunk) => {
                let before = take_free::<A, Brand>(&mut self.pages, class, chunk, Blank::new(1));
                Placed::ToFree(class, chunk, before)
            }
            Listed::InQueue(class, queue, entry) => {
                let before = take_entry::<A, Brand>(
                    &mut self.queues,
                    class,
                    queue,
                    entry,
                    Blank::new(1),
                );
                Placed::ToQueue(class, queue, entry, before)
            }
        }
    }

    #[inline(always)]
    pub(crate) fn put(&mut self, at: Placed) -> Listed
        requires well { WellFormed self.old }
        requires possible { Possible (plain.Puts at) self.old }
        ensures state { self.new ≡ moved (plain.Puts at) self.old }
        ensures reverse { plain.Takes result ≡ reverse (plain.Puts at) self.old }
    {
        match at {
            Placed::ToFree(class, chunk, after) => {
                put_free::<A, Brand>(&mut self.pages, class, chunk, after, Blank::new(1));
                Listed::InFree(class, chunk)
            }
            Placed::ToQueue(class, queue, entry, after) => {
                let footprint = self.footprint(entry);
                put_entry::<A, Brand>(
                    &mut self.queues,
                    class,
                    queue,
                    entry,
                    after,
                    footprint,
                    Blank::new(1),
                );
                Listed::InQueue(class, queue, entry)
            }
        }
    }

    // A chunk leaves its free list. The answer is what it stood behind.
    #[inline(always)]
    pub(crate) fn take_from_free(&mut self, class: usize, chunk: ChunkRef) -> Option<ChunkRef>
        requires well { WellFormed self.old }
        requires possible { Possible (plain.Takes (listed.InFree class chunk)) self.old }
        ensures state { self.new ≡ moved (plain.Takes (listed.InFree class chunk)) self.old }
        ensures ahead { result ≡ before same_chunk chunk (free_of self.old class) }
    {
        take_free::<A, Brand>(&mut self.pages, class, chunk, Blank::new(1))
    }

    // A chunk enters a free list, behind another or in front.
    #[inline(always)]
    pub(crate) fn put_to_free(&mut self, class: usize, chunk: ChunkRef, after: Option<ChunkRef>)
        requires well { WellFormed self.old }
        requires possible { Possible (plain.Puts (placed.ToFree class chunk after)) self.old }
        ensures state { self.new ≡ moved (plain.Puts (placed.ToFree class chunk after)) self.old }
    {
        put_free::<A, Brand>(&mut self.pages, class, chunk, after, Blank::new(1));
    }

    pub(crate) fn fill(&mut self, chunk: ChunkRef, item: Option<Item<A>>) -> Option<Item<A>>
        requires well { WellFormed self.old }
        requires possible { Possible (plain.Fills chunk item) self.old }
        ensures state { self.new ≡ moved (plain.Fills chunk item) self.old }
        ensures before { result ≡ item_at self.old chunk }
    {
        self.index.fill(chunk, item)
    }

    pub(crate) fn touch(&mut self, chunk: ChunkRef, next: Touched) -> Touched
        requires well { WellFormed self.old }
        requires possible { Possible (plain.Touches chunk next) self.old }
        ensures state { self.new ≡ moved (plain.Touches chunk next) self.old }
        ensures before { result ≡ retouched next (item_at self.old chunk) }
    {
        self.index.touch(chunk, next)
    }

    pub(crate) fn bind(&mut self, chunk: ChunkRef)
        requires well { WellFormed self.old }
        requires possible { Possible (plain.Binds chunk) self.old }
        ensures state { self.new ≡ moved (plain.Binds chunk) self.old }
    {
        self.index.bind(chunk);
    }

    pub(crate) fn unbind(&mut self, chunk: ChunkRef)
        requires well { WellFormed self.old }
        requires possible { Possible (plain.Unbinds chunk) self.old }
        ensures state { self.new ≡ moved (plain.Unbinds chunk) self.old }
    {
        self.index.unbind(chunk);
    }

    pub(crate) fn count(&mut self, class: usize, counter: Counter, value: u64) -> u64
        requires well { WellFormed self.old }
        requires possible { Possible (plain.Counts class counter value) self.old }
        ensures state { self.new ≡ moved (plain.Counts class counter value) self.old }
        ensures before { result ≡ counter_of self.old class counter }
    {
        let _count = self.counters.len();
        let place = COUNTERS * class + number(counter);
        mem::replace(&mut self.counters[place], value)
    }

    pub(crate) fn set_last_cas(&mut self, next: u64) -> u64
        ensures state { self.new ≡ moved (plain.Sets (part.LastCas next)) self.old }
        ensures before { result ≡ self.old.globals.last_cas }
    {
        mem::replace(&mut self.globals.last_cas, next)
    }

    pub(crate) fn set_timing(&mut self, next: Timing) -> Timing
        ensures state { self.new ≡ moved (plain.Sets (part.Timing next)) self.old }
        ensures before { plain.Sets (part.Timing result) ≡ reverse (plain.Sets (part.Timing next)) self.old }
    {
        let globals = &mut self.globals;
        let before = Timing {
            clock: globals.clock,
            flush_limit: globals.flush_limit,
            flush: globals.flush,
        };
        globals.clock = next.clock;
        globals.flush_limit = next.flush_limit;
        globals.flush = next.flush;
        before
    }

    pub(crate) fn set_mover(&mut self, next: Option<Mover>) -> Option<Mover>
        ensures state { self.new ≡ moved (plain.Sets (part.Mover next)) self.old }
        ensures before { result ≡ self.old.globals.mover }
    {
        mem::replace(&mut self.globals.mover, next)
    }

    pub(crate) fn set_settings(&mut self, next: Settings) -> Settings
        ensures state { self.new ≡ moved (plain.Sets (part.Settings next)) self.old }
        ensures before { result ≡ self.old.globals.settings }
    {
        mem::replace(&mut self.globals.settings, next)
    }

    pub(crate) fn bump_in(&mut self, entry: BumpEntry)
        requires well { WellFormed self.old }
        requires possible { Possible (plain.BumpsIn entry) self.old }
        ensures state { self.new ≡ moved (plain.BumpsIn entry) self.old }
    {
        match self.bump.push_back(entry) {
            Ok(()) => {}
            Err(_) => unreachable!(),
        }
    }

    pub(crate) fn bump_front(&mut self, entry: BumpEntry)
        requires well { WellFormed self.old }
        requires possible { Possible (plain.BumpsFront entry) self.old }
        ensures state { self.new ≡ moved (plain.BumpsFront entry) self.old }
    {
        match self.bump.push_front(entry) {
            Ok(()) => {}
            Err(_) => unreachable!(),
        }
    }

    pub(crate) fn bump_back(&mut self) -> BumpEntry
        requires well { WellFormed self.old }
        requires possible { Possible plain.BumpsBack self.old }
        ensures state { self.new ≡ moved plain.BumpsBack self.old }
        ensures before { plain.BumpsIn result ≡ back_of self.old.bump }
    {
        match self.bump.pop_back() {
            Some(entry) => entry,
            None => unreachable!(),
        }
    }

    pub(crate) fn bump_out(&mut self) -> BumpEntry
        requires well { WellFormed self.old }
        requires possible { Possible plain.BumpsOut self.old }
        ensures state { self.new ≡ moved plain.BumpsOut self.old }
        ensures before { plain.BumpsFront result ≡ out_of self.old.bump }
    {
        match self.bump.pop_front() {
            Some(entry) => entry,
            None => unreachable!(),
        }
    }
}
