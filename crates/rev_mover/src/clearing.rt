//! What becomes of the chunk at the mover's slot.
ghost use Rattle.std.specs.Prelude.{◌≡◌, ℕ, ◌+◌, ◌<◌, ◌≤◌, [], length, Option, None, Some, true};
ghost use Rattle.rev_items.specs.Plain.{PlainItem};
ghost use Rattle.rev_model.specs.Chunk.{same_chunk};
ghost use Rattle.rev_model.specs.Lists.{has, without};
ghost use Rattle.rev_model.specs.State.{State, IsChunkOf, free_of, item_at, IsClass};
ghost use Rattle.rev_model.specs.Move.{with_free};
ghost use Rattle.rev_model.specs.Words.{counted, unlinked, queue_with};
ghost use Rattle.rev_model.specs.Actor.{spare, shifted, cleared};
ghost use Rattle.rev_model.specs.Causes.{cleared_removals};
ghost use Rattle.rev_model.specs.Track.{removal};
ghost use Rattle.rev_model.specs.Sound.{Sound, SoundBut};
ghost use Rattle.rev_inverse.specs.Leads.{Leads};
ghost use Rattle.rev_inverse.specs.Telling.{Tells};
ghost use Rattle.rev_mover.specs.Clearing.{clearing_of, clearing_moves};

use rev_edits::alter::raise;
use rev_edits::leave::unlink;
use rev_edits::moving::change;
use rev_inverse::{Change, Record, Store};
use rev_model::{Cause, ChunkRef, Counter, Listed, Outcome, is_dead};
use std::alloc::Allocator;

/// What an advance does with the chunk at the mover's slot.
#[derive(Clone, Copy)]
pub enum Plan {
    /// A free chunk leaves its list.
    Withdraw,
    /// A dead item leaves.
    Reclaim,
    /// A live item goes to this free chunk of another page.
    Rescue(ChunkRef),
    /// A live item leaves, since there is no such chunk.
    Evict,
}

impl Plan {
    /// How many moves it takes, the mover's own to the next slot among them.
    pub fn moves(self) -> usize
        ensures moves { result ≡ clearing_moves self }
        ensures within { result ≤ 5 }
    {
        match self {
            Plan::Withdraw => 2,
            Plan::Rescue(_) => 3,
            Plan::Reclaim | Plan::Evict => 5,
        }
    }
}

/// The first free chunk of a class that is not of the page. It passes no more chunks than the page has.
fn spare_chunk<A: Allocator>(store: &Store<A>, class: usize, page: u16) -> Option<ChunkRef>
    requires sound { Sound store.now }
    requires class { IsClass store.now.fixed class }
    ensures { result ≡ spare page (free_of store.now class) }
{
    let mut behind = None;
    'chunks: while let Some(chunk) = store.free_at(class, behind) {
        if chunk.page != page {
            return Some(chunk);
        }
        behind = Some(chunk);
    }
    None
}

/// What is to be done with a chunk of a class.
pub fn plan_for<A: Allocator>(store: &Store<A>, class: usize, chunk: ChunkRef) -> Plan
    requires sound { Sound store.now }
    requires class { IsClass store.now.fixed class }
    ensures { result ≡ clearing_of store.now class chunk (item_at store.now chunk) }
{
    match store.header(chunk) {
        None => Plan::Withdraw,
        Some(item) => {
            if is_dead(store.globals(), item) {
                return Plan::Reclaim;
            }
            match spare_chunk(store, class, chunk.page) {
                None => Plan::Evict,
                Some(to) => Plan::Rescue(to),
            }
        }
    }
}

/// A free chunk leaves its list, and is then held by the step: one move.
fn hold<A: Allocator>(store: &mut Store<A>, class: usize, chunk: ChunkRef, undo: &mut Record<A>)
    requires sound { Sound store.old }
    requires class { IsClass store.old.fixed class }
    requires free { has same_chunk chunk (free_of store.old class) ≡ true }
    requires room { length undo.old.moves < undo.old.room }
    ensures state { store.new ≡ with_free store.old class (without same_chunk chunk (free_of store.old class)) }
    ensures sound { SoundBut (Some chunk) store.new }
    ensures leads { Leads undo.old store.old undo.new store.new }
    ensures room { undo.new.room ≡ undo.old.room }
    ensures made { length undo.new.moves ≡ length undo.old.moves + 1 }
    ensures told { Tells undo.old store.old undo.new store.new [] }
{
    change(store, Change::Take(Listed::InFree(class, chunk)), undo);
}

/// The item of a chunk leaves, the chunk is then held by the step, and a counter is raised: four moves.
fn remove<A: Allocator>(
    store: &mut Store<A>,
    class: usize,
    chunk: ChunkRef,
    counter: Counter,
    cause: Cause,
    undo: &mut Record<A>,
)
    requires sound { Sound store.old }
    requires chunk { IsChunkOf store.old.fixed store.old.owner class chunk }
    requires item { (i : PlainItem) × (item_at store.old chunk ≡ Some i) }
    requires room { length undo.old.moves + 4 ≤ undo.old.room }
    ensures state { (i : PlainItem) → item_at store.old chunk ≡ Some i → store.new ≡ counted class counter (unlinked class (queue_with store.old class chunk) chunk i store.old) }
    ensures sound { SoundBut (Some chunk) store.new }
    ensures leads { Leads undo.old store.old undo.new store.new }
    ensures room { undo.new.room ≡ undo.old.room }
    ensures made { length undo.new.moves ≡ length undo.old.moves + 4 }
    ensures told { Tells undo.old store.old undo.new store.new (removal (item_at store.old chunk) (Some cause)) }
{
    let queue = store.queue_with(class, chunk);
    unlink(store, class, queue, chunk, Some(cause), undo);
    raise(store, class, counter, undo);
}

/// The item of a chunk goes to a free chunk of the class, with its place in the queue; its own chunk is then held by
/// the step: two moves.
fn rescue<A: Allocator>(
    store: &mut Store<A>,
    class: usize,
    chunk: ChunkRef,
    to: ChunkRef,
    undo: &mut Record<A>,
)
    requires sound { Sound store.old }
    requires chunk { IsChunkOf store.old.fixed store.old.owner class chunk }
    requires item { (i : PlainItem) × (item_at store.old chunk ≡ Some i) }
    requires free { has same_chunk to (free_of store.old class) ≡ true }
    requires room { length undo.old.moves + 2 ≤ undo.old.room }
    ensures state { (i : PlainItem) → item_at store.old chunk ≡ Some i → store.new ≡ shifted class (queue_with store.old class chunk) chunk to i (with_free store.old class (without same_chunk to (free_of store.old class))) }
    ensures sound { SoundBut (Some chunk) store.new }
    ensures leads { Leads undo.old store.old undo.new store.new }
    ensures room { undo.new.room ≡ undo.old.room }
    ensures made { length undo.new.moves ≡ length undo.old.moves + 2 }
    ensures told { Tells undo.old store.old undo.new store.new [] }
{
    hold(store, class, to, undo);
    change(store, Change::Shift(chunk, to), undo);
}

/// Does what was planned with a chunk of the class, which is then held by the step: all the plan's moves but the last.
pub fn clear<A: Allocator>(
    store: &mut Store<A>,
    class: usize,
    chunk: ChunkRef,
    plan: Plan,
    undo: &mut Record<A>,
) -> Outcome
    requires sound { Sound store.old }
    requires chunk { IsChunkOf store.old.fixed store.old.owner class chunk }
    requires free { item_at store.old chunk ≡ None → has same_chunk chunk (free_of store.old class) ≡ true }
    requires plan { plan ≡ clearing_of store.old class chunk (item_at store.old chunk) }
    requires room { length undo.old.moves + clearing_moves plan ≤ undo.old.room }
    ensures done { (store.new, result) ≡ cleared store.old class chunk (item_at store.old chunk) }
    ensures sound { SoundBut (Some chunk) store.new }
    ensures leads { Leads undo.old store.old undo.new store.new }
    ensures room { undo.new.room ≡ undo.old.room }
    ensures made { length undo.new.moves + 1 ≡ length undo.old.moves + clearing_moves plan }
    ensures told { Tells undo.old store.old undo.new store.new (cleared_removals store.old class chunk (item_at store.old chunk)) }
{
    match plan {
        Plan::Withdraw => {
            hold(store, class, chunk, undo);
            Outcome::Withdrawn
        }
        Plan::Reclaim => {
            remove(
                store,
                class,
                chunk,
                Counter::Reclaimed,
                Cause::ReclaimedByMover,
                undo,
            );
            Outcome::Reclaimed
        }
        Plan::Rescue(to) => {
            rescue(store, class, chunk, to, undo);
            Outcome::Rescued
        }
        Plan::Evict => {
            remove(
                store,
                class,
                chunk,
                Counter::Evicted,
                Cause::EvictedByMover,
                undo,
            );
            Outcome::Evicted
        }
    }
}
