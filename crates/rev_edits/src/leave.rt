//! How an item leaves.
ghost use Rattle.std.specs.Prelude.{◌≡◌, ℕ, ◌+◌, ◌<◌, ◌≤◌, ◌++◌, ◌∷◌, [], length, Option, None, Some, true};
ghost use Rattle.rev_items.specs.Plain.{PlainItem};
ghost use Rattle.rev_model.specs.State.{State, WellFormed, item_at, free_of, IsClass};
ghost use Rattle.rev_model.specs.Words.{unlinked, freed, dropped, counted};
ghost use Rattle.rev_model.specs.Sound.{Stands, Loose};
ghost use Rattle.rev_inverse.specs.Leads.{Leads};
ghost use Rattle.rev_model.specs.Track.{removal};
ghost use Rattle.rev_inverse.specs.Telling.{Tells};

use crate::alter::raise;
use crate::moving::change;
use rev_inverse::{Change, Record, Store};
use rev_model::{Cause, ChunkRef, Counter, Placed, Queue};
use std::alloc::Allocator;

/// The item leaves its queue, the index and its chunk: three moves. The cause, if there is one, is noted beside the
/// reverse of the second.
#[inline(always)]
pub fn unlink<A: Allocator>(
    store: &mut Store<A>,
    class: usize,
    queue: Queue,
    chunk: ChunkRef,
    cause: Option<Cause>,
    undo: &mut Record<A>,
)
    requires well { WellFormed store.old }
    requires stands { (i : PlainItem) × Stands store.old class queue chunk i }
    requires room { length undo.old.moves + 3 ≤ undo.old.room }
    ensures state { (i : PlainItem) → item_at store.old chunk ≡ Some i → store.new ≡ unlinked class queue chunk i store.old }
    ensures well { WellFormed store.new }
    ensures leads { Leads undo.old store.old undo.new store.new }
    ensures room { undo.new.room ≡ undo.old.room }
    ensures made { length undo.new.moves ≡ length undo.old.moves + 3 }
    ensures told { Tells undo.old store.old undo.new store.new (removal (item_at store.old chunk) cause) }
{
    let leave = Change::Leave {
        queue,
        cause,
        chunk,
        class,
        under: None,
    };
    store.make(leave, undo);
}

/// A chunk that is in no list and empty goes to the front of its class's free list: one move.
#[inline(always)]
pub fn free<A: Allocator>(store: &mut Store<A>, class: usize, chunk: ChunkRef, undo: &mut Record<A>)
    requires well { WellFormed store.old }
    requires loose { Loose store.old class chunk }
    requires room { length undo.old.moves < undo.old.room }
    ensures state { store.new ≡ freed class chunk store.old }
    ensures well { WellFormed store.new }
    ensures leads { Leads undo.old store.old undo.new store.new }
    ensures room { undo.new.room ≡ undo.old.room }
    ensures made { length undo.new.moves ≡ length undo.old.moves + 1 }
    ensures told { Tells undo.old store.old undo.new store.new [] }
{
    change(store, Change::Put(Placed::ToFree(class, chunk, None)), undo);
}

/// The item leaves, and its chunk is free: four moves.
pub fn drop_item<A: Allocator>(
    store: &mut Store<A>,
    class: usize,
    queue: Queue,
    chunk: ChunkRef,
    cause: Option<Cause>,
    undo: &mut Record<A>,
)
    requires well { WellFormed store.old }
    requires stands { (i : PlainItem) × Stands store.old class queue chunk i }
    requires room { length undo.old.moves + 4 ≤ undo.old.room }
    ensures state { (i : PlainItem) → item_at store.old chunk ≡ Some i → store.new ≡ dropped class queue chunk i store.old }
    ensures well { WellFormed store.new }
    ensures leads { Leads undo.old store.old undo.new store.new }
    ensures room { undo.new.room ≡ undo.old.room }
    ensures made { length undo.new.moves ≡ length undo.old.moves + 4 }
    ensures told { Tells undo.old store.old undo.new store.new (removal (item_at store.old chunk) cause) }
{
    let gone = Change::Free {
        queue,
        cause,
        chunk,
        class,
        behind: None,
    };
    store.make(gone, undo);
}

/// An item leaves, its chunk is free, and a counter is raised: five moves.
#[inline(always)]
pub fn discard<A: Allocator>(
    store: &mut Store<A>,
    class: usize,
    queue: Queue,
    chunk: ChunkRef,
    counter: Counter,
    cause: Cause,
    undo: &mut Record<A>,
)
    requires well { WellFormed store.old }
    requires class { IsClass store.old.fixed class }
    requires stands { (i : PlainItem) × Stands store.old class queue chunk i }
    requires room { length undo.old.moves + 5 ≤ undo.old.room }
    ensures state { (i : PlainItem) → item_at store.old chunk ≡ Some i → store.new ≡ counted class counter (dropped class queue chunk i store.old) }
    ensures well { WellFormed store.new }
    ensures leads { Leads undo.old store.old undo.new store.new }
    ensures room { undo.new.room ≡ undo.old.room }
    ensures made { length undo.new.moves ≡ length undo.old.moves + 5 }
    ensures told { Tells undo.old store.old undo.new store.new (removal (item_at store.old chunk) (Some cause)) }
    ensures freed { 1 ≤ length (free_of store.new class) }
{
    drop_item(store, class, queue, chunk, Some(cause), undo);
    raise(store, class, counter, undo);
}
