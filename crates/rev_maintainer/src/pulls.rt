//! Pulls.
ghost use Rattle.std.specs.Prelude.{◌≡◌, ℕ, ◌+◌, ◌<◌, ◌≤◌, length, Option, None, Some, true};
ghost use Rattle.std.specs.Option.{option_map};
ghost use Rattle.rev_items.specs.Plain.{PlainItem};
ghost use Rattle.rev_model.specs.State.{State, WellFormed, item_at, free_of, IsClass};
ghost use Rattle.rev_model.specs.Words.{header_of};
ghost use Rattle.rev_model.specs.Pull.{pull_live, pull_item, pull};
ghost use Rattle.rev_model.specs.Sound.{Stands, Sound};
ghost use Rattle.rev_inverse.specs.Leads.{Leads};
ghost use Rattle.rev_inverse.specs.Telling.{Tells};
ghost use Rattle.rev_model.specs.Causes.{live_removals, item_removals, pull_removals};

use crate::reads::{evicts, is_crowded, takes_all};
use rev_edits::alter::{cool, warm_up};
use rev_edits::leave::discard;
use rev_inverse::{Record, Store};
use rev_model::{Cause, ChunkRef, Counter, ItemHeader, Outcome, PullMode, Queue, is_dead};
use std::alloc::Allocator;

/// A pull of a live item of HOT.
fn pull_hot<A: Allocator>(
    store: &mut Store<A>,
    class: usize,
    mode: PullMode,
    chunk: ChunkRef,
    item: ItemHeader,
    undo: &mut Record<A>,
) -> Outcome
    requires well { WellFormed store.old }
    requires class { IsClass store.old.fixed class }
    requires stands { (i : PlainItem) × Stands store.old class Queue.Hot chunk i }
    requires item { option_map header_of (item_at store.old chunk) ≡ Some item }
    requires room { length undo.old.moves + 4 ≤ undo.old.room }
    ensures done { (i : PlainItem) → item_at store.old chunk ≡ Some i → (store.new, result) ≡ pull_live store.old class Queue.Hot mode chunk i }
    ensures well { WellFormed store.new }
    ensures leads { Leads undo.old store.old undo.new store.new }
    ensures room { undo.new.room ≡ undo.old.room }
    ensures made { length undo.new.moves ≤ length undo.old.moves + 4 }
    ensures told { (i : PlainItem) → item_at store.old chunk ≡ Some i → Tells undo.old store.old undo.new store.new (live_removals Queue.Hot mode i) }
{
    if item.bits.active {
        warm_up(
            store,
            class,
            Queue::Hot,
            Counter::MovesToWarm,
            chunk,
            item,
            undo,
        );
        return Outcome::Moved;
    }
    let all = takes_all(mode);
    let crowded = is_crowded(store, class, Queue::Hot, item.time);
    if all || crowded {
        cool(store, class, Queue::Hot, chunk, undo);
        return Outcome::Moved;
    }
    Outcome::Idle
}

/// A pull of a live item of WARM.
fn pull_warm<A: Allocator>(
    store: &mut Store<A>,
    class: usize,
    mode: PullMode,
    chunk: ChunkRef,
    item: ItemHeader,
    undo: &mut Record<A>,
) -> Outcome
    requires well { WellFormed store.old }
    requires class { IsClass store.old.fixed class }
    requires stands { (i : PlainItem) × Stands store.old class Queue.Warm chunk i }
    requires item { option_map header_of (item_at store.old chunk) ≡ Some item }
    requires room { length undo.old.moves + 4 ≤ undo.old.room }
    ensures done { (i : PlainItem) → item_at store.old chunk ≡ Some i → (store.new, result) ≡ pull_live store.old class Queue.Warm mode chunk i }
    ensures well { WellFormed store.new }
    ensures leads { Leads undo.old store.old undo.new store.new }
    ensures room { undo.new.room ≡ undo.old.room }
    ensures made { length undo.new.moves ≤ length undo.old.moves + 4 }
    ensures told { (i : PlainItem) → item_at store.old chunk ≡ Some i → Tells undo.old store.old undo.new store.new (live_removals Queue.Warm mode i) }
{
    if item.bits.active {
        warm_up(
            store,
            class,
            Queue::Warm,
            Counter::MovesWithinLru,
            chunk,
            item,
            undo,
        );
        return Outcome::Moved;
    }
    let crowded = is_crowded(store, class, Queue::Warm, item.time);
    if crowded {
        cool(store, class, Queue::Warm, chunk, undo);
        return Outcome::Moved;
    }
    Outcome::Idle
}

/// A pull of a live item of COLD.
fn pull_cold<A: Allocator>(
    store: &mut Store<A>,
    class: usize,
    mode: PullMode,
    chunk: ChunkRef,
    item: ItemHeader,
    undo: &mut Record<A>,
) -> Outcome
    requires well { WellFormed store.old }
    requires class { IsClass store.old.fixed class }
    requires stands { (i : PlainItem) × Stands store.old class Queue.Cold chunk i }
    requires item { option_map header_of (item_at store.old chunk) ≡ Some item }
    requires room { length undo.old.moves + 5 ≤ undo.old.room }
    ensures done { (i : PlainItem) → item_at store.old chunk ≡ Some i → (store.new, result) ≡ pull_live store.old class Queue.Cold mode chunk i }
    ensures well { WellFormed store.new }
    ensures leads { Leads undo.old store.old undo.new store.new }
    ensures room { undo.new.room ≡ undo.old.room }
    ensures made { length undo.new.moves ≤ length undo.old.moves + 5 }
    ensures few { length undo.new.moves ≤ length undo.old.moves + 4 + length (free_of store.new class) }
    ensures told { (i : PlainItem) → item_at store.old chunk ≡ Some i → Tells undo.old store.old undo.new store.new (live_removals Queue.Cold mode i) }
{
    if evicts(mode) {
        discard(
            store,
            class,
            Queue::Cold,
            chunk,
            Counter::Evicted,
            Cause::Evicted,
            undo,
        );
        return Outcome::Evicted;
    }
    if item.bits.active {
        warm_up(
            store,
            class,
            Queue::Cold,
            Counter::MovesToWarm,
            chunk,
            item,
            undo,
        );
        return Outcome::Moved;
    }
    Outcome::Idle
}

/// A pull of the item of this chunk.
fn pull_item<A: Allocator>(
    store: &mut Store<A>,
    class: usize,
    queue: Queue,
    mode: PullMode,
    chunk: ChunkRef,
    undo: &mut Record<A>,
) -> Outcome
    requires well { WellFormed store.old }
    requires class { IsClass store.old.fixed class }
    requires stands { (i : PlainItem) × Stands store.old class queue chunk i }
    requires room { length undo.old.moves + 5 ≤ undo.old.room }
    ensures done { (store.new, result) ≡ pull_item store.old class queue mode chunk (item_at store.old chunk) }
    ensures well { WellFormed store.new }
    ensures leads { Leads undo.old store.old undo.new store.new }
    ensures room { undo.new.room ≡ undo.old.room }
    ensures made { length undo.new.moves ≤ length undo.old.moves + 5 }
    ensures few { length undo.new.moves ≤ length undo.old.moves + 4 + length (free_of store.new class) }
    ensures told { Tells undo.old store.old undo.new store.new (item_removals store.old queue mode (item_at store.old chunk)) }
{
    match store.header(chunk) {
        None => Outcome::Idle,
        Some(item) => {
            if is_dead(store.globals(), item) {
                discard(
                    store,
                    class,
                    queue,
                    chunk,
                    Counter::Reclaimed,
                    Cause::ReclaimedByPull,
                    undo,
                );
                return Outcome::Reclaimed;
            }
            match queue {
                Queue::Hot => pull_hot(store, class, mode, chunk, item, undo),
                Queue::Warm => pull_warm(store, class, mode, chunk, item, undo),
                Queue::Cold => pull_cold(store, class, mode, chunk, item, undo),
                Queue::Temp => Outcome::Idle,
            }
        }
    }
}

/// A pull: at most five moves.
pub fn pull_queue<A: Allocator>(
    store: &mut Store<A>,
    class: usize,
    queue: Queue,
    mode: PullMode,
    undo: &mut Record<A>,
) -> Outcome
    requires sound { Sound store.old }
    requires class { IsClass store.old.fixed class }
    requires room { length undo.old.moves + 5 ≤ undo.old.room }
    ensures done { (store.new, result) ≡ pull store.old class queue mode }
    ensures sound { Sound store.new }
    ensures leads { Leads undo.old store.old undo.new store.new }
    ensures room { undo.new.room ≡ undo.old.room }
    ensures made { length undo.new.moves ≤ length undo.old.moves + 5 }
    ensures few { length undo.new.moves ≤ length undo.old.moves + 4 + length (free_of store.new class) }
    ensures told { Tells undo.old store.old undo.new store.new (pull_removals store.old class queue mode) }
{
    match store.tail(class, queue) {
        None => Outcome::Idle,
        Some(chunk) => pull_item(store, class, queue, mode, chunk, undo),
    }
}
