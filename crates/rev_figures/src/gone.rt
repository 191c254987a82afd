//! The keys that left at the current node, read off its record.
ghost use Rattle.std.specs.Prelude.{◌≡◌, ◌++◌, IfOk, reverse};
ghost use Rattle.rev_model.specs.State.{State};
ghost use Rattle.rev_model.specs.Track.{removals, same_key};
ghost use Rattle.rev_model.specs.Events.{is_key, stored_key};
ghost use Rattle.rev_requests.specs.Plain.{plain_step};
ghost use Rattle.rev_explain.specs.Readings.{removals_by};
ghost use Rattle.rev_explain.specs.Departures.{departures_in};

use rev_inverse::{Change, RecordRef};
use rev_items::Key;
use rev_model::{Cause, Outcome};
use rev_requests::Step;
use rev_undotree::NodeId;
use std::alloc::{AllocError, Allocator};
use std::marker::Model;

/// A key that left at the step of a node, and why: as rev_explain tells it, but with a key of its own, so that the
/// session may go on.
#[derive(Drop)]
pub struct Gone<A: Allocator> {
    pub node: NodeId,
    pub key: Key<A>,
    pub cause: Cause,
}

impl<A: Allocator> Model for Gone<A> {
    ghost use Rattle.rev_explain.specs.Departures.{PlainDeparture};

    ghost Value = { PlainDeparture };

    ghost view = { λ d. record { node = d.node.0; key = d.key; cause = d.cause } };
}

/// Whether two keys are the same.
fn is_same<A: Allocator>(a: &Key<A>, b: &Key<A>) -> bool
    ensures { result ≡ same_key a.now b.now }
{
    a.is_same(b)
}

/// Whether a step that answered this stored the key.
pub fn has_stored<A: Allocator>(step: &Step<A>, outcome: Outcome, key: &Key<A>) -> bool
    ensures { result ≡ is_key key.now (stored_key (plain_step step.now) outcome) }
{
    match step.stored_key(outcome) {
        Some(stored) => is_same(key, stored),
        None => false,
    }
}

/// Adds what a change of a step's record tells of a key that left, if it does.
fn add_change<A: Allocator + Clone>(
    gone: &mut Vec<Gone<A>, A>,
    node: NodeId,
    step: &Step<A>,
    outcome: Outcome,
    undo: &Change<A>,
    alloc: &A,
) -> Result<(), AllocError>
    ensures { IfOk result (λ _. gone.new.items ≡ gone.old.items ++ departures_in node.0 (plain_step step.now) outcome (removals_by undo.now)) }
{
    let (item, cause) = match undo {
        Change::Enter { item, cause, .. } | Change::Revive { item, cause, .. } => (item, *cause),
        _ => return Ok(()),
    };
    let Some(cause) = cause else {
        return Ok(());
    };
    let key = item.key();
    if has_stored(step, outcome, key) {
        return Ok(());
    }
    let key = key.copy(alloc.clone()?)?;
    gone.push(Gone { node, key, cause })?;
    Ok(())
}

/// Adds the keys that left at a node, the last one first.
pub fn add_gone<A: Allocator + Clone>(
    gone: &mut Vec<Gone<A>, A>,
    node: NodeId,
    step: &Step<A>,
    outcome: Outcome,
    trace: &RecordRef<A>,
    alloc: &A,
) -> Result<(), AllocError>
    ensures { (after : State) → IfOk result (λ _. gone.new.items ≡ gone.old.items ++ reverse (departures_in node.0 (plain_step step.now) outcome (removals trace.now.moves trace.now.notes after))) }
{
    let mut start = trace.len();
    'changes: while start > 0 {
        start -= 1;
        match trace.change(start) {
            None => {}
            Some(undo) => add_change(gone, node, step, outcome, undo, alloc)?,
        }
    }
    Ok(())
}
