//! What a plan is carried out by.
ghost use Rattle.std.specs.Prelude.{◌≡◌, ◌≤◌, length, [], IfOk, OnOk, OnErr};
ghost use Rattle.rev_model.specs.State.{find};
ghost use Rattle.rev_model.specs.Sound.{Sound};
ghost use Rattle.rev_model.specs.Move.{LeadsBack};
ghost use Rattle.rev_model.specs.Causes.{look_removals, rewrite_in_removals};
ghost use Rattle.rev_inverse.specs.Telling.{TellsAll};
ghost use Rattle.rev_commands.specs.Rewriting.{rewritten_in, named};
ghost use Rattle.rev_commands.specs.Drafts.{Drafted, Fits, missed, unchanged, carried, carried_removals};

use crate::look::{REMOVAL_MOVES, lookup_at, removal_moves_at};
use crate::place::place;
use crate::plan::{Draft, Plan};
use rev_inverse::{Record, Store};
use rev_items::Key;
use rev_maintainer::room::plan_room;
use rev_model::{ChunkRef, Outcome};
use rev_requests::StoreVerb;
use std::alloc::{AllocError, Allocator};

/// What the command answers, by what replace answers for the new item.
fn named(outcome: Outcome, missing: Outcome, answer: Outcome) -> Outcome
    ensures { result ≡ named missing answer outcome }
{
    match outcome {
        Outcome::Stored => answer,
        Outcome::NotStored => missing,
        other => other,
    }
}

/// The draft takes the place of the key's item, as replace does it: where making room evicted that item, the new one is
/// not stored, and `missing` is answered. All memory is taken before the first change.
///
/// Err: a growth was refused, and the store is as it was.
fn rewrite<A: Allocator + Clone>(
    store: &mut Store<A>,
    key: &Key<A>,
    found: Option<ChunkRef>,
    draft: Draft<A>,
    missing: Outcome,
) -> Result<(Outcome, Record<A>), AllocError>
    requires sound { Sound store.old }
    requires led { found ≡ find store.old key.now }
    requires drafted { Drafted store.old key.now draft }
    ensures step { IfOk result (λ p. (store.new, p.0) ≡ rewritten_in store.old draft.class key.now draft.item.value draft.item.flags draft.item.moment missing draft.answer) }
    ensures sound { OnOk result (Sound store.new) }
    ensures leads { IfOk result (λ p. LeadsBack p.1.moves store.new store.old) }
    ensures few { IfOk result (λ p. length p.1.moves ≤ 64) }
    ensures err { OnErr result (store.new ≡ store.old) }
    ensures told { IfOk result (λ p. TellsAll p.1 store.new (rewrite_in_removals store.old draft.class key.now)) }
{
    let plan = plan_room(store, draft.class)?;
    let moves = plan.moves + REMOVAL_MOVES + 4;
    let mut undo = Record::with_room(store.alloc()?, moves)?;
    let verb = StoreVerb::Replace;
    let outcome = place(
        store,
        verb,
        draft.class,
        plan.page,
        found,
        draft.item,
        &mut undo,
    );
    Ok((named(outcome, missing, draft.answer), undo))
}

/// The key has no live item: a dead one leaves.
///
/// Err: a growth was refused, and the store is as it was.
fn miss<A: Allocator + Clone>(
    store: &mut Store<A>,
    key: &Key<A>,
    found: Option<ChunkRef>,
    missing: Outcome,
) -> Result<(Outcome, Record<A>), AllocError>
    requires sound { Sound store.old }
    requires led { found ≡ find store.old key.now }
    ensures step { IfOk result (λ p. (store.new, p.0) ≡ missed store.old key.now missing) }
    ensures sound { OnOk result (Sound store.new) }
    ensures leads { IfOk result (λ p. LeadsBack p.1.moves store.new store.old) }
    ensures few { IfOk result (λ p. length p.1.moves ≤ 64) }
    ensures err { OnErr result (store.new ≡ store.old) }
    ensures told { IfOk result (λ p. TellsAll p.1 store.new (look_removals store.old key.now)) }
{
    let mut undo = Record::with_room(store.alloc()?, removal_moves_at(found))?;
    let _none = lookup_at(store, key, found, &mut undo);
    Ok((missing, undo))
}

/// Nothing changes.
///
/// Err: a growth was refused.
fn refuse<A: Allocator + Clone>(
    store: &mut Store<A>,
    outcome: Outcome,
) -> Result<(Outcome, Record<A>), AllocError>
    requires { Sound store.old }
    ensures step { IfOk result (λ p. (store.new, p.0) ≡ unchanged store.old outcome) }
    ensures sound { OnOk result (Sound store.new) }
    ensures leads { IfOk result (λ p. LeadsBack p.1.moves store.new store.old) }
    ensures few { IfOk result (λ p. length p.1.moves ≤ 64) }
    ensures err { OnErr result (store.new ≡ store.old) }
    ensures told { IfOk result (λ p. TellsAll p.1 store.new []) }
{
    let undo = Record::with_room(store.alloc()?, 0)?;
    Ok((outcome, undo))
}

/// Carries the plan out for the item in the chunk `found`, to which the key leads; `missing` is answered where the key
/// has no live item, or loses it to room.
///
/// Err: a growth was refused, and the store is as it was.
pub fn carry_out<A: Allocator + Clone>(
    store: &mut Store<A>,
    key: &Key<A>,
    found: Option<ChunkRef>,
    plan: Plan<A>,
    missing: Outcome,
) -> Result<(Outcome, Record<A>), AllocError>
    requires sound { Sound store.old }
    requires led { found ≡ find store.old key.now }
    requires fits { Fits store.old key.now plan }
    ensures step { IfOk result (λ p. (store.new, p.0) ≡ carried store.old key.now missing plan) }
    ensures sound { OnOk result (Sound store.new) }
    ensures leads { IfOk result (λ p. LeadsBack p.1.moves store.new store.old) }
    ensures few { IfOk result (λ p. length p.1.moves ≤ 64) }
    ensures err { OnErr result (store.new ≡ store.old) }
    ensures told { IfOk result (λ p. TellsAll p.1 store.new (carried_removals store.old key.now plan)) }
{
    match plan {
        Plan::Missing => miss(store, key, found, missing),
        Plan::Refused(outcome) => refuse(store, outcome),
        Plan::Replaced(draft) => rewrite(store, key, found, draft, missing),
    }
}
