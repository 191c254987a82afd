//! How an item that stays is changed, and a counter raised.
ghost use Rattle.std.specs.Prelude.{◌≡◌, ℕ, ◌+◌, ◌<◌, ◌≤◌, ◌++◌, ◌∷◌, [], length, Option, None, Some, true};
ghost use Rattle.std.specs.Option.{option_map};
ghost use Rattle.rev_items.specs.Plain.{PlainItem};
ghost use Rattle.rev_model.specs.State.{State, WellFormed, item_at, queue_of, queue_place, IsClass};
ghost use Rattle.rev_model.specs.Move.{touched};
ghost use Rattle.rev_model.specs.Lists.{has};
ghost use Rattle.rev_model.specs.Chunk.{same_entry};
ghost use Rattle.rev_model.specs.declared.Entry.TheVariants.{Chunk};
ghost use Rattle.rev_model.specs.Words.{counted, headed, with_item, header_of};
ghost use Rattle.rev_model.specs.Pull.{warmed, cooled};
ghost use Rattle.rev_model.specs.Sound.{Stands};
ghost use Rattle.rev_inverse.specs.Leads.{Leads};
ghost use Rattle.rev_inverse.specs.Telling.{Tells};

use crate::moving::change;
use rev_inverse::{Change, Record, Store};
use rev_items::Bits;
use rev_model::{ChunkRef, Counter, ItemHeader, Queue, Touched};
use std::alloc::Allocator;

/// One more of a counter, modulo 2^64: one move.
pub fn raise<A: Allocator>(
    store: &mut Store<A>,
    class: usize,
    counter: Counter,
    undo: &mut Record<A>,
)
    requires well { WellFormed store.old }
    requires class { IsClass store.old.fixed class }
    requires room { length undo.old.moves < undo.old.room }
    ensures state { store.new ≡ counted class counter store.old }
    ensures well { WellFormed store.new }
    ensures leads { Leads undo.old store.old undo.new store.new }
    ensures room { undo.new.room ≡ undo.old.room }
    ensures made { length undo.new.moves ≡ length undo.old.moves + 1 }
    ensures told { Tells undo.old store.old undo.new store.new [] }
{
    let value = store.counter(class, counter).wrapping_add(1);
    change(store, Change::Count(class, counter, value), undo);
}

/// Exchanges bits, time and moment of a chunk's item: one move.
pub fn retouch<A: Allocator>(
    store: &mut Store<A>,
    chunk: ChunkRef,
    next: Touched,
    undo: &mut Record<A>,
)
    requires well { WellFormed store.old }
    requires item { (i : PlainItem) × (item_at store.old chunk ≡ Some i) }
    requires room { length undo.old.moves < undo.old.room }
    ensures state { (i : PlainItem) → item_at store.old chunk ≡ Some i → store.new ≡ with_item chunk (touched next i) store.old }
    ensures well { WellFormed store.new }
    ensures leads { Leads undo.old store.old undo.new store.new }
    ensures room { undo.new.room ≡ undo.old.room }
    ensures made { length undo.new.moves ≡ length undo.old.moves + 1 }
    ensures told { Tells undo.old store.old undo.new store.new [] }
{
    change(store, Change::Touch(chunk, next), undo);
}

/// A chunk goes from a queue of its class to the head of another, or of the same: two moves.
#[inline(always)]
pub fn to_head<A: Allocator>(
    store: &mut Store<A>,
    class: usize,
    from: Queue,
    to: Queue,
    chunk: ChunkRef,
    undo: &mut Record<A>,
)
    requires well { WellFormed store.old }
    requires class { IsClass store.old.fixed class }
    requires there { has same_entry (Chunk chunk) (queue_of store.old class from) ≡ true }
    requires room { length undo.old.moves + 1 < undo.old.room }
    ensures state { store.new ≡ headed class from to chunk store.old }
    ensures well { WellFormed store.new }
    ensures leads { Leads undo.old store.old undo.new store.new }
    ensures room { undo.new.room ≡ undo.old.room }
    ensures made { length undo.new.moves ≡ length undo.old.moves + 2 }
    ensures told { Tells undo.old store.old undo.new store.new [] }
{
    let requeue = Change::Requeue {
        class,
        after: None,
        chunk,
        from,
        to,
    };
    store.make(requeue, undo);
}

/// ACTIVE is cleared, the item goes to WARM's head, and a counter is raised: four moves.
pub fn warm_up<A: Allocator>(
    store: &mut Store<A>,
    class: usize,
    queue: Queue,
    counter: Counter,
    chunk: ChunkRef,
    item: ItemHeader,
    undo: &mut Record<A>,
)
    requires well { WellFormed store.old }
    requires class { IsClass store.old.fixed class }
    requires stands { (i : PlainItem) × Stands store.old class queue chunk i }
    requires item { option_map header_of (item_at store.old chunk) ≡ Some item }
    requires room { length undo.old.moves + 4 ≤ undo.old.room }
    ensures state { (i : PlainItem) → item_at store.old chunk ≡ Some i → store.new ≡ warmed class queue counter chunk i store.old }
    ensures well { WellFormed store.new }
    ensures leads { Leads undo.old store.old undo.new store.new }
    ensures room { undo.new.room ≡ undo.old.room }
    ensures made { length undo.new.moves ≡ length undo.old.moves + 4 }
    ensures told { Tells undo.old store.old undo.new store.new [] }
{
    to_head(store, class, queue, Queue::Warm, chunk, undo);
    let bits = Bits {
        fetched: item.bits.fetched,
        active: false,
    };
    let next = Touched {
        bits,
        time: item.time,
        moment: item.moment,
    };
    retouch(store, chunk, next, undo);
    raise(store, class, counter, undo);
}

/// The item goes to COLD's head, and moves_to_cold is raised: three moves.
#[inline(always)]
pub fn cool<A: Allocator>(
    store: &mut Store<A>,
    class: usize,
    queue: Queue,
    chunk: ChunkRef,
    undo: &mut Record<A>,
)
    requires well { WellFormed store.old }
    requires class { IsClass store.old.fixed class }
    requires stands { (i : PlainItem) × Stands store.old class queue chunk i }
    requires room { length undo.old.moves + 3 ≤ undo.old.room }
    ensures state { store.new ≡ cooled class queue chunk store.old }
    ensures well { WellFormed store.new }
    ensures leads { Leads undo.old store.old undo.new store.new }
    ensures room { undo.new.room ≡ undo.old.room }
    ensures made { length undo.new.moves ≡ length undo.old.moves + 3 }
    ensures told { Tells undo.old store.old undo.new store.new [] }
{
    to_head(store, class, queue, Queue::Cold, chunk, undo);
    raise(store, class, Counter::MovesToCold, undo);
}
