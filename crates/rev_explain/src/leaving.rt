//! The keys that left on the way from the root to the current node.
ghost use Rattle.std.specs.Prelude.{◌≡◌, ◌++◌, ◌<◌, ◌⊎◌, length, reverse, true, IfOk, IfSome, IsNone};
ghost use Rattle.rev_model.specs.State.{State};
ghost use Rattle.rev_model.specs.Track.{removals};
ghost use Rattle.rev_requests.specs.Plain.{plain_step};
ghost use Rattle.rev_tree.specs.Machine.{lineage};
ghost use Rattle.rev_tree.specs.Trails.{Trailed};
ghost use Rattle.rev_explain.specs.Readings.{removals_by};
ghost use Rattle.rev_explain.specs.Departures.{departures as departures_of, departures_in, is_enough as enough, at_most, last_of};
ghost use Rattle.rev_explain.specs.Told.{AreTold};
ghost use Rattle.rev_explain.specs.Story.{story as story_of};

use crate::events::Departure;
use crate::explain::has_stored;
use rev_inverse::{Change, RecordRef};
use rev_model::Outcome;
use rev_requests::Step;
use rev_undotree::{NodeId, Session};
use std::alloc::{AllocError, Allocator};

/// Adds what a change of a step's record tells of a key that left, if it does.
fn add_departure<'a, A: Allocator>(
    departures: &mut Vec<Departure<'a, A>, A>,
    node: NodeId,
    step: &Step<A>,
    outcome: Outcome,
    undo: &'a Change<A>,
) -> Result<(), AllocError>
    ensures { IfOk result (λ _. departures.new.items ≡ departures.old.items ++ departures_in node.0 (plain_step step.now) outcome (removals_by undo.now)) }
{
    let (item, cause) = match undo {
        Change::Enter { item, cause, .. } | Change::Revive { item, cause, .. } => (item, *cause),
        _ => return Ok(()),
    };
    let Some(cause) = cause else {
        return Ok(());
    };
    let key = item.key();
    if has_stored(step, outcome, key) {
        return Ok(());
    }
    departures.push(Departure { node, key, cause })?;
    Ok(())
}

/// Adds the keys that left at a node, the last one first.
fn add_departures<'a, A: Allocator>(
    departures: &mut Vec<Departure<'a, A>, A>,
    node: NodeId,
    step: &Step<A>,
    outcome: Outcome,
    trace: &RecordRef<'a, A>,
) -> Result<(), AllocError>
    ensures { (after : State) → IfOk result (λ _. departures.new.items ≡ departures.old.items ++ reverse (departures_in node.0 (plain_step step.now) outcome (removals trace.now.moves trace.now.notes after))) }
{
    let mut start = trace.len();
    'changes: while start > 0 {
        start -= 1;
        match trace.change(start) {
            None => {}
            Some(undo) => add_departure(departures, node, step, outcome, undo)?,
        }
    }
    Ok(())
}

/// Whether there are as many as are wanted.
fn is_enough(count: usize, limit: Option<u32>) -> bool
    ensures { result ≡ enough limit count }
{
    match limit {
        Some(most) => most as usize <= count,
        None => false,
    }
}

/// The node at `depth` of the way to the current node, from 1, unless there are as many as are wanted.
fn next_node<'a, A: Allocator + Clone>(
    session: &'a Session<A>,
    depth: usize,
    count: usize,
    limit: Option<u32>,
) -> Option<(NodeId, &'a Step<A>, Outcome, RecordRef<'a, A>)>
    ensures some { IfSome result (λ x. Trailed session.now depth x.0.0 (plain_step x.1.now) x.2 x.3) }
    ensures above { IfSome result (λ x. 0 < depth) }
    ensures none { IsNone result → (enough limit count ≡ true) ⊎ ((depth ≡ 0) ⊎ (length (lineage session.now.rows session.now.current) < depth)) }
{
    if is_enough(count, limit) || depth == 0 {
        return None;
    }
    session.trail(depth)
}

/// Keeps the first so many.
fn keep<'a, A: Allocator>(departures: &mut Vec<Departure<'a, A>, A>, limit: Option<u32>)
    ensures { departures.new.items ≡ at_most limit departures.old.items }
{
    match limit {
        Some(most) => departures.truncate(most as usize),
        None => {}
    }
}

/// The keys that left on the way from the root to the current node, the last `limit` of them or all: oldest first, and
/// within a node in the order in which they left. A key that its own step stored in the place of the old one has not
/// left. Of each key they are those that its story tells, with their nodes and causes and in the same order: all of
/// them, or the last where there is a limit. So a key stands at most once a node.
///
/// Each record on the way is read once, from the current node up until there are as many as are wanted; none is turned.
/// The list is the store's allocator's.
///
/// Err: a growth of the list was refused.
pub fn departures<'a, A: Allocator + Clone>(
    session: &'a Session<A>,
    limit: Option<u32>,
) -> Result<Vec<Departure<'a, A>, A>, AllocError>
    ensures gone { IfOk result (λ gone. gone.items ≡ last_of limit (departures_of session.now.root session.now.rows session.now.current)) }
    ensures told { IfOk result (λ gone. AreTold limit (story_of session.now.root session.now.rows session.now.current) gone.items) }
{
    let mut departures = Vec::new(session.store().alloc()?);
    let mut depth = session.depth();
    'nodes: while let Some((node, step, outcome, trace)) = next_node(
        session,
        depth,
        departures.len(),
        limit,
    ) {
        add_departures(&mut departures, node, step, outcome, &trace)?;
        depth -= 1;
    }
    keep(&mut departures, limit);
    departures.reverse();
    Ok(departures)
}
