//! Changes that are a few moves of the plain model.
ghost use Rattle.std.specs.Prelude.{◌≡◌, [], ◌∷◌, Some};
ghost use Rattle.rev_model.specs.Move as plain;
ghost use Rattle.rev_model.specs.Move.{Fits, turned};
ghost use Rattle.rev_model.specs.State.{WellFormed, item_at, queue_of};
ghost use Rattle.rev_model.specs.Chunk.{same_entry};
ghost use Rattle.rev_model.specs.Lists.{before};
ghost use Rattle.rev_model.specs.declared.Entry.TheVariants as entry;
ghost use Rattle.rev_model.specs.declared.Listed.TheVariants as listed;
ghost use Rattle.rev_model.specs.declared.Placed.TheVariants as placed;
ghost use Rattle.rev_inverse.specs.Changes.{ahead_of};

use crate::store::Store;
use rev_items::Item;
use rev_model::{ChunkRef, Entry, Listed, Placed, Queue};
use std::alloc::Allocator;

// What an entry that is taken from a queue stood behind.
fn ahead(from: Placed) -> Option<Entry>
    ensures { result ≡ ahead_of from }
{
    match from {
        Placed::ToQueue(_, _, _, after) => after,
        Placed::ToFree(_, _, _) => None,
    }
}

impl<A: Allocator> Store<A> {
    // An item enters a chunk, the index and a queue. The answer is what the chunk held.
    #[inline(always)]
    pub(crate) fn enter(
        &mut self,
        class: usize,
        queue: Queue,
        chunk: ChunkRef,
        after: Option<Entry>,
        item: Item<A>,
    ) -> Option<Item<A>>
        requires well { WellFormed self.old }
        requires possible { Fits (plain.Puts (placed.ToQueue class queue (entry.Chunk chunk) after) ∷ plain.Binds chunk ∷ plain.Fills chunk (Some item) ∷ []) self.old }
        ensures state { self.new ≡ (turned (plain.Puts (placed.ToQueue class queue (entry.Chunk chunk) after) ∷ plain.Binds chunk ∷ plain.Fills chunk (Some item) ∷ []) self.old).0 }
        ensures before { result ≡ item_at self.old chunk }
    {
        let under = self.fill(chunk, Some(item));
        self.bind(chunk);
        self.put(Placed::ToQueue(class, queue, Entry::Chunk(chunk), after));
        under
    }

    // An item leaves its queue, the index and its chunk, which then holds `under`. The answer is what it stood behind,
    // and the item.
    #[inline(always)]
    pub(crate) fn leave(
        &mut self,
        class: usize,
        queue: Queue,
        chunk: ChunkRef,
        under: Option<Item<A>>,
    ) -> (Option<Entry>, Item<A>)
        requires well { WellFormed self.old }
        requires possible { Fits (plain.Fills chunk under ∷ plain.Unbinds chunk ∷ plain.Takes (listed.InQueue class queue (entry.Chunk chunk)) ∷ []) self.old }
        ensures state { self.new ≡ (turned (plain.Fills chunk under ∷ plain.Unbinds chunk ∷ plain.Takes (listed.InQueue class queue (entry.Chunk chunk)) ∷ []) self.old).0 }
        ensures ahead { result.0 ≡ before same_entry (entry.Chunk chunk) (queue_of self.old class queue) }
        ensures item { Some result.1 ≡ item_at self.old chunk }
    {
        let from = self.take(Listed::InQueue(class, queue, Entry::Chunk(chunk)));
        self.unbind(chunk);
        match self.fill(chunk, under) {
            Some(item) => (ahead(from), item),
            None => unreachable!(),
        }
    }

    // A chunk goes to another queue of its class, or to another place of its own. The answer is what it stood behind.
    #[inline(always)]
    pub(crate) fn requeue(
        &mut self,
        class: usize,
        from: Queue,
        to: Queue,
        chunk: ChunkRef,
        after: Option<Entry>,
    ) -> Option<Entry>
        requires well { WellFormed self.old }
        requires possible { Fits (plain.Puts (placed.ToQueue class to (entry.Chunk chunk) after) ∷ plain.Takes (listed.InQueue class from (entry.Chunk chunk)) ∷ []) self.old }
        ensures state { self.new ≡ (turned (plain.Puts (placed.ToQueue class to (entry.Chunk chunk) after) ∷ plain.Takes (listed.InQueue class from (entry.Chunk chunk)) ∷ []) self.old).0 }
        ensures ahead { result ≡ before same_entry (entry.Chunk chunk) (queue_of self.old class from) }
    {
        let left = self.take(Listed::InQueue(class, from, Entry::Chunk(chunk)));
        self.put(Placed::ToQueue(class, to, Entry::Chunk(chunk), after));
        ahead(left)
    }
}
