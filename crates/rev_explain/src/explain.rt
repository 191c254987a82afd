//! Why a key is gone, and its story.
ghost use Rattle.std.specs.Prelude.{◌≡◌, ◌==◌, ◌++◌, ◌&&◌, cond, IfOk, Some, None};
ghost use Rattle.rev_model.specs.State.{find, queue_number};
ghost use Rattle.rev_model.specs.Sound.{Sound};
ghost use Rattle.rev_model.specs.Track.{key_place_of, key_change};
ghost use Rattle.rev_model.specs.Events.{is_key, stored_key, event_by};
ghost use Rattle.rev_requests.specs.Plain.{plain_step};
ghost use Rattle.rev_tree.specs.Rows.{at};
ghost use Rattle.rev_explain.specs.Readings.{left_cause};
ghost use Rattle.rev_explain.specs.Story.{told, last_left, story as story_of, why_of};

use crate::events::{Event, EventKind, Why};
use crate::readings::{find_before, find_change, home_of, is_key, note_of};
use rev_inverse::{RecordRef, Store};
use rev_items::Key;
use rev_model::{Cause, ClassQueue, KeyPlace, Outcome, Queue};
use rev_requests::Step;
use rev_undotree::{NodeId, Session};
use std::alloc::{AllocError, Allocator};

/// Where a store holds a key.
fn find_place<A: Allocator>(store: &Store<A>, key: &Key<A>) -> Option<KeyPlace>
    requires { Sound store.now }
    ensures { result ≡ key_place_of store.now key.now }
{
    match store.find(key) {
        Some(chunk) => {
            let class = store.owner(chunk.page as usize);
            let queue = store.queue_with(class, chunk);
            Some(KeyPlace {
                chunk,
                lru: Some(ClassQueue { class, queue }),
            })
        }
        None => None,
    }
}

/// The cause that a step's record notes of a key that is not held after the step, where it was held before.
fn find_left<A: Allocator>(trace: &RecordRef<A>, key: &Key<A>) -> Option<Cause>
    ensures { result ≡ left_cause (key_change key.now None trace.now.moves trace.now.notes) }
{
    match find_change(trace, key, None) {
        Some(change) => match change.leads {
            Some(_) => change.note,
            None => None,
        },
        None => None,
    }
}

/// Where a key that is not held at the current node last left on the way there.
fn find_departure<A: Allocator + Clone>(session: &Session<A>, key: &Key<A>) -> Why
    requires { find (at session.now.root session.now.rows session.now.current) key.now ≡ None }
    ensures { result ≡ last_left Why.Never (story_of session.now.root session.now.rows session.now.current key.now) }
{
    let mut depth = session.last_mention(key, session.depth());
    while let Some((node, _, _, trace)) = session.trail(depth) {
        match find_left(&trace, key) {
            Some(cause) => return Why::Left { node, cause },
            None => {}
        }
        depth = session.last_mention(key, depth - 1);
    }
    Why::Never
}

/// Why a key is not held at the current node: the node on the way from the root at which it last left the index, and
/// the cause. A key whose item is dead is held until something unlinks it. Nodes that cannot matter to the key are
/// passed by, the others are visited at most once; no record is turned, and no memory is taken.
pub fn why<A: Allocator + Clone>(session: &Session<A>, key: &Key<A>) -> Why
    ensures { result ≡ why_of session.now.root session.now.rows session.now.current key.now }
{
    match session.store().find(key) {
        Some(_) => Why::Present,
        None => find_departure(session, key),
    }
}

/// Whether a step that answered this stored the key.
pub fn has_stored<A: Allocator>(step: &Step<A>, outcome: Outcome, key: &Key<A>) -> bool
    ensures { result ≡ is_key key.now (stored_key (plain_step step.now) outcome) }
{
    match step.stored_key(outcome) {
        Some(stored) => is_key(key, stored),
        None => false,
    }
}

/// The event of a key that was held and still is, by its queues before and after the step.
fn find_moved(from: Queue, to: Queue) -> Option<EventKind>
    ensures { result ≡ cond (queue_number from == queue_number to) None (Some (EventKind.Moved from to)) }
{
    if from == to {
        None
    } else {
        Some(EventKind::Moved { from, to })
    }
}

/// The event of a key at a step, from where it was before and is after it.
fn find_event(
    stored: bool,
    before: Option<KeyPlace>,
    after: Option<KeyPlace>,
    cause: Option<Cause>,
) -> Option<EventKind>
    ensures { result ≡ event_by stored before after cause }
{
    if stored {
        let entered = after?.lru?;
        return Some(match before {
            Some(_) => EventKind::Replaced(entered),
            None => EventKind::Stored(entered),
        });
    }
    match (before, after) {
        (None, _) => None,
        (Some(_), None) => cause.map(EventKind::Left),
        (Some(was), Some(is)) => match (was.lru, is.lru) {
            (Some(from), Some(to)) => find_moved(from.queue, to.queue),
            _ => None,
        },
    }
}

/// Adds a node's event, if it has one.
fn add<A: Allocator>(
    events: &mut Vec<Event, A>,
    node: NodeId,
    kind: Option<EventKind>,
) -> Result<(), AllocError>
    ensures { IfOk result (λ _. events.new.items ≡ events.old.items ++ told node.0 kind) }
{
    match kind {
        Some(kind) => {
            events.push(Event { node, kind })?;
            Ok(())
        }
        None => Ok(()),
    }
}

/// What happened to a key on the way from the root to the current node, at most one event a node (this project's own
/// rules). Nodes that cannot matter to the key are passed by, and no record is turned. The list is the store's
/// allocator's.
///
/// Err: a growth of the list was refused.
pub fn story<A: Allocator + Clone>(
    session: &Session<A>,
    key: &Key<A>,
) -> Result<Vec<Event, A>, AllocError>
    ensures { IfOk result (λ events. events.items ≡ story_of session.now.root session.now.rows session.now.current key.now) }
{
    let mut events = Vec::new(session.store().alloc()?);
    let mut place = find_place(session.store(), key);
    let mut depth = session.last_mention(key, session.depth());
    while let Some((node, step, outcome, trace)) = session.trail(depth) {
        let change = find_change(&trace, key, home_of(place));
        let before = find_before(&trace, key, change, place);
        let stored = has_stored(step, outcome, key);
        let kind = find_event(stored, before, place, note_of(change));
        add(&mut events, node, kind)?;
        place = before;
        depth = session.last_mention(key, depth - 1);
    }
    events.reverse();
    Ok(events)
}
