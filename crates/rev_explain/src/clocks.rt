//! The clock along the way from the root.
ghost use Rattle.std.specs.Prelude.{◌≡◌, ◌-◌, ◌≤◌, ℕ, IfSome, IfNone, IsTrue, length};
ghost use Rattle.std.specs.Option.{option_map};
ghost use Rattle.rev_model.specs.State.{State};
ghost use Rattle.rev_model.specs.Move.{turned};
ghost use Rattle.rev_requests.specs.Plain.{plain_step};
ghost use Rattle.rev_inverse.specs.Seen.{plain_moves};
ghost use Rattle.rev_tree.specs.Machine.{lineage};
ghost use Rattle.rev_tree.specs.Rows.{RowsFall};
ghost use Rattle.rev_explain.specs.Readings.{clock_through};
ghost use Rattle.rev_explain.specs.Clocks.{later, time_set as time_of, clock_set as set_by, clock_at as clock_of, Clocked, node_by};

use rev_inverse::{Change, RecordRef};
use rev_model::Outcome;
use rev_requests::{ActorStep, Step};
use rev_undotree::{NodeId, Session};
use std::alloc::Allocator;

/// The clock that a change of a record sets, if it does.
fn clock_in<A: Allocator>(undo: &Change<A>) -> Option<u32>
    ensures { result ≡ clock_through (plain_moves undo.now) }
{
    match undo {
        Change::Timing(timing) => Some(timing.clock),
        _ => None,
    }
}

/// The clock before a step, in seconds, from the step's record and the clock after it.
fn clock_before<A: Allocator>(trace: &RecordRef<A>, clock: u32) -> u32
    ensures { (after : State) → clock ≡ after.globals.clock → result ≡ (turned trace.now.moves after).0.globals.clock }
{
    for i in 0..trace.len() {
        match trace.change(i) {
            None => {}
            Some(undo) => match clock_in(undo) {
                Some(earlier) => return earlier,
                None => {}
            },
        }
    }
    clock
}

/// The clock that a step set that answered this, if it set one.
fn clock_set<A: Allocator>(step: &Step<A>, outcome: Outcome) -> Option<u32>
    ensures { result ≡ set_by (plain_step step.now) outcome }
{
    match (step, outcome) {
        (Step::Actor(ActorStep::Clock(now)), Outcome::Okay) => Some(*now),
        _ => None,
    }
}

/// The clock before and after the step at a depth of the way to the current node, where that step set it.
fn set_at<A: Allocator + Clone>(session: &Session<A>, depth: usize) -> Option<(u32, u32)>
    ensures before { IfSome result (λ set. (clock : ℕ) → Clocked session.now (depth - 1) clock → set.0 ≡ clock) }
    ensures after { IfSome result (λ set. (clock : ℕ) → Clocked session.now depth clock → set.1 ≡ clock) }
    ensures up { IfNone result ((clock : ℕ) → Clocked session.now depth clock → Clocked session.now (depth - 1) clock) }
    ensures down { IfNone result ((clock : ℕ) → depth ≤ length (lineage session.now.rows session.now.current) → Clocked session.now (depth - 1) clock → Clocked session.now depth clock) }
{
    match session.trail(depth) {
        Some((_, step, outcome, trace)) => match clock_set(step, outcome) {
            Some(clock) => Some((clock_before(&trace, clock), clock)),
            None => None,
        },
        None => None,
    }
}

/// The clock at a depth of the way to the current node, the root at 0: the nearest step that set it tells, above or
/// behind, or the current clock where none is behind.
fn clock_on_way<A: Allocator + Clone>(session: &Session<A>, depth: usize) -> u32
    ensures { (clock : ℕ) → Clocked session.now depth clock → result ≡ clock }
{
    let last = session.depth();
    let mut above = depth;
    let mut behind = depth;
    'steps: while behind < last {
        behind += 1;
        match set_at(session, behind) {
            Some((clock, _)) => return clock,
            None => {}
        }
        match set_at(session, above) {
            Some((_, clock)) => return clock,
            None => above = above.saturating_sub(1),
        }
    }
    session.store().globals().clock
}

/// The number of the node at a depth of the way to the current node, that of the root where there is none.
fn number_at<A: Allocator + Clone>(session: &Session<A>, depth: usize) -> u32 {
    match session.trail(depth) {
        Some((node, _, _, _)) => node.0,
        None => 0,
    }
}

/// The last depth of the way to the current node at which a number is at most this: numbers rise on it.
fn depth_by<A: Allocator + Clone>(session: &Session<A>, number: u32) -> usize {
    let mut low = 0;
    let mut high = session.depth();
    'narrow: while low < high {
        let middle = low + (high - low).div_ceil(2);
        if number_at(session, middle) <= number {
            low = middle;
        } else {
            high = middle - 1;
        }
    }
    low
}

/// Whether a node stands at this depth of the way to the current one.
fn is_at<A: Allocator + Clone>(session: &Session<A>, node: NodeId, depth: usize) -> bool
    ensures { IsTrue result → Clocked session.now depth (clock_of session.now.root session.now.rows node.0) }
{
    match session.trail(depth) {
        Some((here, _, _, _)) => here.0 == node.0,
        None => depth == 0 && node.0 == 0,
    }
}

/// The time that a step sets the clock to where it stands earlier, 0 for a step that sets none.
fn time_set<A: Allocator>(step: &Step<A>) -> u32
    ensures { result ≡ time_of (plain_step step.now) }
{
    match step {
        Step::Actor(ActorStep::Clock(now)) => *now,
        _ => 0,
    }
}

/// The later of two times.
fn later(time: u32, other: u32) -> u32
    ensures { result ≡ later time other }
{
    if time < other { other } else { time }
}

/// The clock at a node that is held: the latest time that a step on the way to it set, or the root's clock.
fn clock_by_steps<A: Allocator + Clone>(session: &Session<A>, node: NodeId) -> u32
    ensures { result ≡ clock_of session.now.root session.now.rows node.0 }
{
    let mut clock = 0;
    let mut above = node;
    let mut left = node.0;
    'nodes: while left > 0 {
        match session.row_with_parent(above) {
            Some((parent, step, _)) => {
                clock = later(clock, time_set(step));
                above = parent;
                left -= 1;
            }
            None => left = 0,
        }
    }
    later(clock, clock_on_way(session, 0))
}

/// Whether a step stands on the way to the current node: it shows that parents come in front of their children.
fn has_way<A: Allocator + Clone>(session: &Session<A>) -> bool
    ensures { IsTrue result → RowsFall session.now.rows }
{
    match session.trail(1) {
        Some(_) => true,
        None => false,
    }
}

/// The clock at a node that is held: the last step that set it on the way there tells, or the root.
fn clock_off_way<A: Allocator + Clone>(session: &Session<A>, node: NodeId) -> u32
    requires falls { RowsFall session.now.rows }
    ensures { result ≡ clock_of session.now.root session.now.rows node.0 }
{
    let mut above = node;
    'nodes: while above.0 > 0 {
        match session.row_with_parent(above) {
            Some((parent, step, outcome)) => match clock_set(step, outcome) {
                Some(clock) => return clock,
                None => above = parent,
            },
            None => above = NodeId(0),
        }
    }
    clock_on_way(session, 0)
}

/// The clock after the step of a node that is held, in seconds, or at the root. The nearest step that set it tells: on
/// the way to the current node it is looked for above the node and behind it, and elsewhere above it, and then from the
/// root on. So this takes time in the number of steps up to there, and in the node's depth where the current node is the
/// root. No record is turned, and no memory is taken.
pub fn clock_at<A: Allocator + Clone>(session: &Session<A>, node: NodeId) -> u32
    ensures { result ≡ clock_of session.now.root session.now.rows node.0 }
{
    let depth = depth_by(session, node.0);
    if is_at(session, node, depth) {
        clock_on_way(session, depth)
    } else if has_way(session) {
        clock_off_way(session, node)
    } else {
        clock_by_steps(session, node)
    }
}

/// The last node on the way to the current one, itself and the root included, whose clock is at most `time`, in
/// seconds; none where the root's is later. The records on the way are read from the current node up to the node that
/// is found; none is turned, and no memory is taken.
pub fn node_by_time<A: Allocator + Clone>(session: &Session<A>, time: u32) -> Option<NodeId>
    ensures { option_map (λ n. n.0) result ≡ node_by session.now.root session.now.rows session.now.current time }
{
    let mut clock = session.store().globals().clock;
    let mut depth = session.depth();
    'nodes: while let Some((node, _, _, trace)) = session.trail(depth) {
        if clock <= time {
            return Some(node);
        }
        clock = clock_before(&trace, clock);
        depth -= 1;
    }
    if clock <= time { Some(NodeId(0)) } else { None }
}
