//! The changes of a store: one to four moves of the plain model that go together.
ghost use Rattle.std.specs.Prelude.{◌≡◌, length};
ghost use Rattle.rev_inverse.specs.Seen.{plain_moves};

use crate::parts::{Parts, Shelf};
use rev_items::Item;
use rev_model::{
    BumpEntry, Cause, ChunkRef, ClassSet, Counter, Entry, Form, Listed, Mover, Placed, Queue,
    Settings, Timing, Touched,
};
use std::alloc::Allocator;

/// A change of a store that another one undoes (this project's own set). The first seven are a few moves of the plain
/// model that always go together, each other one is a single move.
#[derive(Drop)]
pub enum Change<A: Allocator> {
    /// An item enters a chunk that is in no list, the index, and its queue, behind an entry or in front.
    Enter {
        queue: Queue,
        /// What removed the item, where this undoes a removal.
        cause: Option<Cause>,
        chunk: ChunkRef,
        class: usize,
        item: Item<A>,
        after: Option<Entry>,
    },
    /// A chunk's item leaves its queue, the index and the chunk.
    Leave {
        queue: Queue,
        /// What removed the item, where this is no undoing.
        cause: Option<Cause>,
        chunk: ChunkRef,
        class: usize,
        /// What the chunk holds from then on, for each step of ours nothing.
        under: Option<Item<A>>,
    },
    /// A new item enters as by `Enter`, and then the last cas number is exchanged.
    Link {
        queue: Queue,
        /// In one byte, since there are few classes: so a change stays as small as the others.
        class: u8,
        chunk: ChunkRef,
        item: Item<A>,
        after: Option<Entry>,
        last_cas: u64,
    },
    /// The last cas number is exchanged, and then an item leaves as by `Leave`.
    Unlink {
        queue: Queue,
        class: u8,
        chunk: ChunkRef,
        under: Option<Item<A>>,
        last_cas: u64,
    },
    /// A chunk leaves its free list, and then an item enters it as by `Enter`.
    Revive {
        queue: Queue,
        /// What removed the item, where this undoes a removal.
        cause: Option<Cause>,
        chunk: ChunkRef,
        class: usize,
        item: Item<A>,
        after: Option<Entry>,
    },
    /// An item leaves as by `Leave`, and then its chunk, empty, enters its free list, behind another or in front.
    Free {
        queue: Queue,
        /// What removed the item, where this is no undoing.
        cause: Option<Cause>,
        chunk: ChunkRef,
        class: usize,
        behind: Option<ChunkRef>,
    },
    /// A chunk goes to another queue of its class, or to another place of its own, behind an entry or in front.
    Requeue {
        class: usize,
        after: Option<Entry>,
        chunk: ChunkRef,
        from: Queue,
        to: Queue,
    },
    /// A chunk leaves its free list, or an entry its queue.
    Take(Listed),
    /// A chunk that is in no list enters a free list, or an entry a queue, behind another or in front.
    Put(Placed),
    /// Bits, time and moment of a chunk's item are exchanged.
    Touch(ChunkRef, Touched),
    /// The item of the first chunk goes to the second, with its place in its queue and in the index.
    Shift(ChunkRef, ChunkRef),
    /// A page gets a class and the slots for its chunks.
    Lay(u16, usize, Parts<A>, Form),
    /// A page loses them, and goes to the pool or away; the shelf takes them up.
    Lift(u16, Form, Shelf<A>),
    /// A counter of a class is exchanged.
    Count(usize, Counter, u64),
    /// The last cas number is exchanged.
    LastCas(u64),
    /// The clock and what a flush goes by are exchanged.
    Timing(Timing),
    /// The page move under way is exchanged.
    Mover(Option<Mover>),
    /// The settings are exchanged.
    Settings(Settings),
    /// An entry enters the bump queue at its back.
    BumpIn(BumpEntry),
    /// The entry at the back leaves.
    BumpBack,
    /// The entry in front leaves.
    BumpOut,
    /// An entry enters in front.
    BumpFront(BumpEntry),
    /// The crawler's mark enters the four queues of each class named, at the tail.
    Marks(ClassSet),
    /// It leaves them.
    Unmarks(ClassSet),
}

impl<A: Allocator> Change<A> {
    /// How many moves of the plain model it is: one to four.
    pub fn count(&self) -> usize
        ensures value { result ≡ length (plain_moves self.now) }
    {
        match self {
            Change::Enter { .. } => 3,
            Change::Leave { .. } => 3,
            Change::Link { .. } => 4,
            Change::Unlink { .. } => 4,
            Change::Revive { .. } => 4,
            Change::Free { .. } => 4,
            Change::Requeue { .. } => 2,
            _ => 1,
        }
    }
}
