//! A step of the page mover.
ghost use Rattle.std.specs.Prelude.{◌≡◌, ℕ, ◌+◌, ◌<◌, ◌≤◌, [], length, Option, None, Some, IfOk, OnOk, OnErr};
ghost use Rattle.rev_model.specs.State.{State, item_at, per_page};
ghost use Rattle.rev_model.specs.Actor.{cleared, next_slot, advance as advance_of};
ghost use Rattle.rev_model.specs.Causes.{cleared_removals, advance_removals};
ghost use Rattle.rev_model.specs.Sound.{Sound, SoundBut};
ghost use Rattle.rev_model.specs.Move.{LeadsBack};
ghost use Rattle.rev_inverse.specs.Leads.{Leads};
ghost use Rattle.rev_inverse.specs.Telling.{Tells, TellsAll};
ghost use Rattle.rev_mover.specs.Moving.{slot_chunk, next_mover, with_mover, IsLeft};
ghost use Rattle.rev_mover.specs.Clearing.{clearing_of, clearing_moves};

use crate::clearing::{Plan, clear, plan_for};
use crate::finishing::finish;
use rev_edits::moving::change;
use rev_inverse::{Change, Record, Store};
use rev_model::{ChunkRef, Mover, Outcome};
use std::alloc::{AllocError, Allocator};

/// The chunk at the mover's slot, which the step holds, is withdrawn: one move.
fn pass_slot<A: Allocator>(store: &mut Store<A>, mover: Mover, undo: &mut Record<A>)
    requires sound { SoundBut (Some (slot_chunk mover)) store.old }
    requires left { IsLeft store.old mover }
    requires room { length undo.old.moves < undo.old.room }
    ensures state { store.new ≡ with_mover (Some (next_mover mover)) store.old }
    ensures sound { Sound store.new }
    ensures leads { Leads undo.old store.old undo.new store.new }
    ensures room { undo.new.room ≡ undo.old.room }
    ensures made { length undo.new.moves ≡ length undo.old.moves + 1 }
    ensures told { Tells undo.old store.old undo.new store.new [] }
{
    let next = Mover {
        slot: mover.slot + 1,
        ..mover
    };
    change(store, Change::Mover(Some(next)), undo);
}

/// Does what was planned with the chunk at the mover's slot, and goes on to the next.
fn clear_slot<A: Allocator>(
    store: &mut Store<A>,
    mover: Mover,
    plan: Plan,
    undo: &mut Record<A>,
) -> Outcome
    requires sound { Sound store.old }
    requires left { IsLeft store.old mover }
    requires plan { plan ≡ clearing_of store.old mover.src (slot_chunk mover) (item_at store.old (slot_chunk mover)) }
    requires room { length undo.old.moves + clearing_moves plan ≤ undo.old.room }
    ensures done { (store.new, result) ≡ next_slot mover (cleared store.old mover.src (slot_chunk mover) (item_at store.old (slot_chunk mover))) }
    ensures sound { Sound store.new }
    ensures leads { Leads undo.old store.old undo.new store.new }
    ensures room { undo.new.room ≡ undo.old.room }
    ensures made { length undo.new.moves ≡ length undo.old.moves + clearing_moves plan }
    ensures told { Tells undo.old store.old undo.new store.new (cleared_removals store.old mover.src (slot_chunk mover) (item_at store.old (slot_chunk mover))) }
{
    let chunk = ChunkRef {
        page: mover.page,
        slot: mover.slot,
    };
    let outcome = clear(store, usize::from(mover.src), chunk, plan, undo);
    pass_slot(store, mover, undo);
    outcome
}

/// Clears the mover's slot.
///
/// Err: a growth was refused, and the store is as it was.
fn advance_slot<A: Allocator + Clone>(
    store: &mut Store<A>,
    mover: Mover,
) -> Result<(Outcome, Record<A>), AllocError>
    requires sound { Sound store.old }
    requires left { IsLeft store.old mover }
    ensures step { IfOk result (λ p. (store.new, p.0) ≡ next_slot mover (cleared store.old mover.src (slot_chunk mover) (item_at store.old (slot_chunk mover)))) }
    ensures sound { OnOk result (Sound store.new) }
    ensures leads { IfOk result (λ p. LeadsBack p.1.moves store.new store.old) }
    ensures few { IfOk result (λ p. length p.1.moves ≤ 64) }
    ensures err { OnErr result (store.new ≡ store.old) }
    ensures told { IfOk result (λ p. TellsAll p.1 store.new (cleared_removals store.old mover.src (slot_chunk mover) (item_at store.old (slot_chunk mover)))) }
{
    let chunk = ChunkRef {
        page: mover.page,
        slot: mover.slot,
    };
    let plan = plan_for(store, usize::from(mover.src), chunk);
    let mut undo = Record::with_room(store.alloc()?, plan.moves())?;
    let outcome = clear_slot(store, mover, plan, &mut undo);
    Ok((outcome, undo))
}

/// How many slots the page of the move has.
fn slots_of<A: Allocator>(store: &Store<A>, mover: Mover) -> u32
    requires sound { Sound store.now }
    requires mover { store.now.globals.mover ≡ Some mover }
    ensures { result ≡ per_page store.now.fixed mover.src }
{
    store.table().per_page(usize::from(mover.src))
}

/// One step of the page move under way; Idle where there is none. While slots are left it clears one, whose chunk is
/// then in no list: a free chunk leaves its list (Withdrawn), a dead item leaves (Reclaimed), a live one goes to the
/// first free chunk of another page, and keeps its place in its queue (Rescued), or leaves where there is no such chunk
/// (Evicted). After the last slot the page goes to the class that asked for it, or to the pool (Finished). The counters
/// reclaimed and evicted are those of the class that the page is taken from. (memcached's slab page mover; the place
/// kept and the counters are this project's own.)
///
/// Err: a growth was refused, and the store is as it was.
pub fn advance<A: Allocator + Clone>(
    store: &mut Store<A>,
) -> Result<(Outcome, Record<A>), AllocError>
    requires { Sound store.old }
    ensures step { IfOk result (λ p. (store.new, p.0) ≡ advance_of store.old) }
    ensures sound { OnOk result (Sound store.new) }
    ensures leads { IfOk result (λ p. LeadsBack p.1.moves store.new store.old) }
    ensures few { IfOk result (λ p. length p.1.moves ≤ 64) }
    ensures err { OnErr result (store.new ≡ store.old) }
    ensures told { IfOk result (λ p. TellsAll p.1 store.new (advance_removals store.old)) }
{
    match store.globals().mover {
        None => {
            let undo = Record::with_room(store.alloc()?, 0)?;
            Ok((Outcome::Idle, undo))
        }
        Some(mover) => {
            if u32::from(mover.slot) == slots_of(store, mover) {
                finish(store, mover)
            } else {
                advance_slot(store, mover)
            }
        }
    }
}
