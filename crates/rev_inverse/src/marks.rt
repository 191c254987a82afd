//! The crawler's marks enter and leave the queues of classes.
ghost use Rattle.std.specs.Prelude.{◌≡◌, ℕ, ◌+◌, ◌*◌, ◌<◌, ◌≤◌, ◌++◌, ◌∷◌, [], length, true, false};
ghost use Rattle.rev_model.specs.Chunk.{same_entry};
ghost use Rattle.rev_model.specs.Lists.{has, distinct};
ghost use Rattle.rev_model.specs.State.{WellFormed, queue_of, queue_place, queue_number, IsClass};
ghost use Rattle.rev_model.specs.Move as plain;
ghost use Rattle.rev_model.specs.Move.{moved, Possible, with_queue, front, names};

use crate::store::Store;
use crate::uncounted::{last_entry, put_entry, take_entry};
use rev_model::{ClassSet, Entry, Queue};
use std::alloc::Allocator;
use std::marker::Brand;
use std::sync::ledger::Blank;

// The queue of a number.
fn queue_at(number: usize) -> Queue
    requires { number < 4 }
    ensures { queue_number result ≡ number }
{
    match number {
        0 => Queue::Hot,
        1 => Queue::Warm,
        2 => Queue::Cold,
        _ => Queue::Temp,
    }
}

impl<A: Allocator> Store<A> {
    // Whether a set names a class.
    fn is_named(&self, set: ClassSet, class: usize) -> bool
        requires class { IsClass self.now.fixed class }
        ensures { result ≡ names self.now set class }
    {
        let _last = self.table.last();
        match set {
            ClassSet::All => true,
            ClassSet::These(bits) => (bits >> class) % 2 == 1,
        }
    }

    // A mark enters a queue at its tail.
    fn mark(&mut self, class: usize, queue: Queue)
        requires place { queue_place class queue < length self.old.queues }
        requires none { has same_entry Entry.Mark (queue_of self.old class queue) ≡ false }
        requires apart { distinct same_entry (queue_of self.old class queue) ≡ true }
        ensures { self.new ≡ with_queue self.old class queue (queue_of self.old class queue ++ Entry.Mark ∷ []) }
    {
        let last = last_entry::<A, Brand>(&self.queues, class, queue, Blank::new(1));
        put_entry::<A, Brand>(
            &mut self.queues,
            class,
            queue,
            Entry::Mark,
            last,
            0,
            Blank::new(1),
        );
    }

    // The mark leaves the tail of a queue.
    fn unmark(&mut self, class: usize, queue: Queue)
        requires place { queue_place class queue < length self.old.queues }
        requires end { front (queue_of self.old class queue) ++ Entry.Mark ∷ [] ≡ queue_of self.old class queue }
        requires apart { distinct same_entry (queue_of self.old class queue) ≡ true }
        ensures { self.new ≡ with_queue self.old class queue (front (queue_of self.old class queue)) }
    {
        let _before = take_entry::<A, Brand>(
            &mut self.queues,
            class,
            queue,
            Entry::Mark,
            Blank::new(1),
        );
    }

    pub(crate) fn mark_all(&mut self, set: ClassSet)
        requires well { WellFormed self.old }
        requires possible { Possible (plain.MarksIn set) self.old }
        ensures state { self.new ≡ moved (plain.MarksIn set) self.old }
    {
        let places = 4 * (self.table.last() + 1);
        for place in 4..places {
            let class = place / 4;
            if self.is_named(set, class) {
                self.mark(class, queue_at(place % 4));
            }
        }
    }

    pub(crate) fn unmark_all(&mut self, set: ClassSet)
        requires well { WellFormed self.old }
        requires possible { Possible (plain.MarksOut set) self.old }
        ensures state { self.new ≡ moved (plain.MarksOut set) self.old }
    {
        let places = 4 * (self.table.last() + 1);
        for place in 4..places {
            let class = place / 4;
            if self.is_named(set, class) {
                self.unmark(class, queue_at(place % 4));
            }
        }
    }
}
