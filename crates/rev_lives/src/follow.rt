//! What an event means for the lives of a key.
ghost use Rattle.std.specs.Prelude.{◌≡◌, Bool, IfOk, OnOk, is_some};
ghost use Rattle.std.specs.Option.{option_map, option_copied};
ghost use Rattle.rev_explain.specs.Story.{story as story_of};
ghost use Rattle.rev_lives.specs.Follow as rule;
ghost use Rattle.rev_life.specs.Alive.{is_dead as is_dead_key, is_alive as is_alive_key};
ghost use Rattle.rev_lives.specs.Told.{facts, state, gone as said_gone, culprit_at, verdict_at as verdict_there};
ghost use Rattle.rev_life.specs.Lives.{plain_culprit, plain_left, plain_key};

use crate::leaving::verdict_at;
use rev_evidence::blame::blame;
use rev_evidence::heard::{connection, gone_by, is_hit, names, role_of, step_number};
use rev_evidence::verdict::{Evidence, Reason, Verdict};
use rev_explain::events::{Event, EventKind};
use rev_explain::story;
use rev_items::Key;
use rev_lead::Role;
use rev_life::alive::{is_alive, is_dead};
use rev_life::life::{Culprit, KeyLives, Left, Moved};
use rev_model::{Cause, ClassQueue};
use rev_pushers::stored::Stored;
use rev_pushers::times::micros;
use rev_replay::heard::Heard;
use rev_undotree::NodeId;
use rev_watch::event::{Event as Logged, Timestamp};
use std::alloc::{AllocError, Allocator};

// The step that pushed a key out, copied.
fn culprit_of<A: Allocator + Copy>(
    alloc: A,
    heard: &Heard<'_, A>,
    node: NodeId,
    cause: Cause,
) -> Result<Option<Culprit<A>>, AllocError>
    ensures { IfOk result (λ culprit. option_map plain_culprit culprit ≡ culprit_at heard.now node.0 cause) }
{
    match blame(heard.session, heard.roles, node, cause) {
        Some(blamed) => Ok(Some(Culprit {
            key: blamed.key.copy(alloc)?,
            connection: connection(heard.event),
            step: step_number(heard.before, blamed.node),
        })),
        None => Ok(None),
    }
}

// The last line before the moment at which the key was gone that names it: the event's own, or the one before.
fn line_before(
    named: Option<Timestamp>,
    is_named: bool,
    time: Timestamp,
    shown: Timestamp,
) -> Option<Timestamp>
    ensures { result ≡ rule.line_of is_named time named shown }
{
    if is_named && micros(time) < micros(shown) {
        Some(time)
    } else {
        named
    }
}

// The line behind which the key left, where that is inferred.
fn after(named: Option<Timestamp>, is_named: bool, time: Timestamp, role: Role) -> Option<Timestamp>
    ensures { result ≡ rule.after_of is_named time named role }
{
    match role {
        Role::Inferred { shown, .. } => line_before(named, is_named, time, shown),
        _ => None,
    }
}

// The line at which the key was gone at the latest, where that is inferred.
fn at_latest(role: Role) -> Option<Timestamp>
    ensures { result ≡ rule.at_latest role }
{
    match role {
        Role::Inferred { shown, .. } => Some(shown),
        _ => None,
    }
}

// The rules took the key out at a node.
fn leave<A: Allocator + Copy>(
    alloc: A,
    key: &mut KeyLives<A>,
    heard: &Heard<'_, A>,
    node: NodeId,
    cause: Cause,
) -> Result<(), AllocError>
    ensures left { (last : Bool) → OnOk result (plain_key key.new ≡ rule.leaves (facts heard.now key.old.key last) (plain_key key.old) node.0 cause (verdict_there heard.now node.0 cause)) }
    ensures same { OnOk result (key.new.key ≡ key.old.key) }
{
    let role = role_of(heard.roles, node);
    match verdict_at(heard, node, cause) {
        None => Ok(()),
        Some(verdict) => {
            let is_named = names(heard.event, &key.key);
            let culprit = culprit_of(alloc, heard, node, cause)?;
            key.end(Left {
                time: heard.time,
                step: step_number(heard.before, node),
                verdict,
                after: after(key.named, is_named, heard.time, role),
                before: at_latest(role),
                culprit,
            })
        }
    }
}

// How a life ends in whose place new data are stored.
fn replaced<A: Allocator>(time: Timestamp, step: u64) -> Left<A>
    ensures { plain_left result ≡ rule.replaced_at time step }
{
    Left {
        time,
        step,
        verdict: Verdict {
            reason: Reason::Replaced,
            evidence: Evidence::Logged,
        },
        after: None,
        before: None,
        culprit: None,
    }
}

// The log stored the key at a node.
fn store<A: Allocator + Copy>(
    alloc: A,
    key: &mut KeyLives<A>,
    heard: &Heard<'_, A>,
    node: NodeId,
    entered: ClassQueue,
    last: bool,
) -> Result<(), AllocError>
    ensures stored { OnOk result (plain_key key.new ≡ rule.stores (facts heard.now key.old.key last) (plain_key key.old) node.0 entered (is_some key.old.held)) }
    ensures same { OnOk result (key.new.key ≡ key.old.key) }
{
    let step = step_number(heard.before, node);
    let over = key.held.is_some();
    key.end(replaced(heard.time, step))?;
    let stored = Stored {
        time: heard.time,
        step,
        class: entered.class,
        connection: connection(heard.event),
        logged: true,
    };
    key.begin(alloc, stored, over, last);
    Ok(())
}

// The key was restored at a node, since the log shows it. A life that has not ended goes on, and one that ended by what
// the log does not say goes on, too: this line shows that it had not ended.
fn restore<A: Allocator + Copy>(
    alloc: A,
    key: &mut KeyLives<A>,
    heard: &Heard<'_, A>,
    node: NodeId,
    entered: ClassQueue,
    last: bool,
)
    ensures restored { plain_key key.new ≡ rule.restores (facts heard.now key.old.key last) (plain_key key.old) node.0 entered }
    ensures same { key.new.key ≡ key.old.key }
{
    key.reopen();
    if key.held.is_some() {
        return;
    }
    let stored = Stored {
        time: heard.time,
        step: step_number(heard.before, node),
        class: entered.class,
        connection: None,
        logged: false,
    };
    key.begin(alloc, stored, false, last);
}

// The key entered the index at a node.
fn enter<A: Allocator + Copy>(
    alloc: A,
    key: &mut KeyLives<A>,
    heard: &Heard<'_, A>,
    node: NodeId,
    entered: ClassQueue,
    last: bool,
) -> Result<(), AllocError>
    ensures entered { OnOk result (plain_key key.new ≡ rule.enters (facts heard.now key.old.key last) (plain_key key.old) node.0 entered (rule.role (facts heard.now key.old.key last) node.0)) }
    ensures same { OnOk result (key.new.key ≡ key.old.key) }
{
    match role_of(heard.roles, node) {
        Role::Restore => {
            restore(alloc, key, heard, node, entered, last);
            Ok(())
        }
        _ => store(alloc, key, heard, node, entered, last),
    }
}

// What a node did to the key.
fn follow_one<A: Allocator + Copy>(
    alloc: A,
    key: &mut KeyLives<A>,
    heard: &Heard<'_, A>,
    event: Event,
    last: bool,
) -> Result<(), AllocError>
    ensures followed { OnOk result (plain_key key.new ≡ rule.follow_kind (facts heard.now key.old.key last) (plain_key key.old) event.node.0 event.kind) }
    ensures same { OnOk result (key.new.key ≡ key.old.key) }
{
    match event.kind {
        EventKind::Stored(entered) => enter(alloc, key, heard, event.node, entered, last),
        EventKind::Replaced(entered) => enter(alloc, key, heard, event.node, entered, last),
        EventKind::Moved { from, to } => key.shift(Moved {
            time: heard.time,
            step: step_number(heard.before, event.node),
            from,
            to,
        }),
        EventKind::Left(cause) => leave(alloc, key, heard, event.node, cause),
    }
}

// What some nodes did to the key, one after another.
fn follow_events<A: Allocator + Copy>(
    alloc: A,
    key: &mut KeyLives<A>,
    heard: &Heard<'_, A>,
    events: &[Event],
    last: bool,
) -> Result<(), AllocError>
    ensures followed { OnOk result (plain_key key.new ≡ rule.follow_all (facts heard.now key.old.key last) (plain_key key.old) events.now) }
    ensures same { OnOk result (key.new.key ≡ key.old.key) }
{
    for event in events {
        follow_one(alloc, key, heard, *event, last)?;
    }
    Ok(())
}

// What the steps of an event did to the key.
fn follow_steps<A: Allocator + Copy>(
    alloc: A,
    key: &mut KeyLives<A>,
    heard: &Heard<'_, A>,
    last: bool,
) -> Result<(), AllocError>
    ensures followed { OnOk result (plain_key key.new ≡ rule.follow_all (facts heard.now key.old.key last) (plain_key key.old) (story_of heard.now.session.now.root heard.now.session.now.rows heard.now.session.now.current key.old.key)) }
    ensures same { OnOk result (key.new.key ≡ key.old.key) }
{
    let events = story(heard.session, &key.key)?;
    follow_events(alloc, key, heard, events.as_slice(), last)
}

// How a life ended, as the line says.
fn said_left<A: Allocator>(
    named: Option<Timestamp>,
    time: Timestamp,
    step: u64,
    verdict: Verdict,
) -> Left<A>
    ensures { plain_left result ≡ rule.said_left_at named time step verdict }
{
    let (after, before) = match verdict.evidence {
        Evidence::Inferred => (named, Some(time)),
        _ => (None, None),
    };
    Left {
        time,
        step,
        verdict,
        after,
        before,
        culprit: None,
    }
}

// What the line says of the loss of the key that it names, which no look-up of the replay finds. The eviction of an
// item that is held and dead waits for the store that needed its chunk, and takes the item out there.
fn gone<A: Allocator + Copy>(heard: &Heard<'_, A>, key: &Key<A>) -> Option<Verdict>
    ensures { result ≡ said_gone (option_copied heard.now.event) (is_dead_key (state heard.now) key.now) }
{
    let dead = is_dead(heard.session, key);
    match heard.event {
        Some(Logged::Eviction { .. }) if dead => None,
        Some(event) => gone_by(event, dead),
        None => None,
    }
}

// What the line says of a key that no look-up of the replay finds.
fn follow_loss<A: Allocator + Copy>(
    key: &mut KeyLives<A>,
    heard: &Heard<'_, A>,
) -> Result<(), AllocError>
    ensures ended { (last : Bool) → OnOk result (plain_key key.new ≡ rule.follow_loss (facts heard.now key.old.key last) (is_alive_key (state heard.now) key.old.key) heard.now.session.now.current (plain_key key.old)) }
    ensures same { OnOk result (key.new.key ≡ key.old.key) }
{
    if is_alive(heard.session, &key.key) {
        return Ok(());
    }
    match gone(heard, &key.key) {
        Some(verdict) => {
            let step = step_number(heard.before, heard.session.current());
            key.end(said_left(key.named, heard.time, step, verdict))
        }
        None => Ok(()),
    }
}

// What the line says that names the key.
fn follow_line<A: Allocator + Copy>(
    key: &mut KeyLives<A>,
    heard: &Heard<'_, A>,
) -> Result<(), AllocError>
    ensures followed { (last : Bool) → OnOk result (plain_key key.new ≡ rule.follow_line (facts heard.now key.old.key last) (is_alive_key (state heard.now) key.old.key) heard.now.session.now.current (plain_key key.old)) }
    ensures same { OnOk result (key.new.key ≡ key.old.key) }
{
    if is_hit(heard.event, heard.own) {
        key.hit(heard.time);
    }
    follow_loss(key, heard)?;
    key.named = Some(heard.time);
    Ok(())
}

/// Follows a key through an event: what each step did to it, in their order, and then what the line says. With `last`
/// only the last life is kept.
///
/// Err: memory was refused.
pub fn follow<A: Allocator + Copy>(
    alloc: A,
    key: &mut KeyLives<A>,
    heard: &Heard<'_, A>,
    last: bool,
) -> Result<(), AllocError>
    ensures followed { OnOk result (plain_key key.new ≡ rule.follow (facts heard.now key.old.key last) (story_of heard.now.session.now.root heard.now.session.now.rows heard.now.session.now.current key.old.key) (is_alive_key (state heard.now) key.old.key) heard.now.session.now.current (plain_key key.old)) }
    ensures same { OnOk result (key.new.key ≡ key.old.key) }
{
    follow_steps(alloc, key, heard, last)?;
    if names(heard.event, &key.key) {
        follow_line(key, heard)
    } else {
        Ok(())
    }
}

/// The server was started anew behind a line of the first time and before one of the second, and the key's life ends.
///
/// Err: memory was refused.
pub fn restart<A: Allocator + Copy>(
    key: &mut KeyLives<A>,
    last: Timestamp,
    first: Timestamp,
    steps: u64,
) -> Result<(), AllocError>
    ensures ended { OnOk result (plain_key key.new ≡ rule.restarted last first steps (plain_key key.old)) }
    ensures same { OnOk result (key.new.key ≡ key.old.key) }
{
    key.end(Left {
        time: first,
        step: steps,
        verdict: Verdict {
            reason: Reason::Restarted,
            evidence: Evidence::Logged,
        },
        after: Some(last),
        before: Some(first),
        culprit: None,
    })
}
