//! The keys that left at an event.
ghost use Rattle.std.specs.Prelude.{◌≡◌, All, IfOk, IfSome, None, map};
ghost use Rattle.std.specs.Option.{option_map, option_copied};
ghost use Rattle.rev_explain.specs.Departures.{departures as departures_of};
ghost use Rattle.rev_lives.specs.Leaving as rule;
ghost use Rattle.rev_lives.specs.Leaving.{with_class};
ghost use Rattle.rev_life.specs.Leaving.{plain_leaving, plain_pusher};
ghost use Rattle.rev_lives.specs.Told.{verdict_at as verdict_there, culprit_at};

use rev_evidence::blame::blame;
use rev_evidence::heard::{connection, has_flushed, named, role_of, said, step_number};
use rev_evidence::verdict::{Evidence, Reason, Said, Verdict, verdict_of};
use rev_explain::departures;
use rev_explain::events::Departure;
use rev_items::Key;
use rev_life::class::class_left;
use rev_life::leaving::{Leaving, Pusher};
use rev_model::Cause;
use rev_replay::heard::Heard;
use rev_undotree::NodeId;
use rev_watch::event::Event;
use std::alloc::{AllocError, Allocator};

// The step that pushed a key out that left at a node.
fn culprit_of<'a, A: Allocator + Copy>(
    heard: &Heard<'a, A>,
    node: NodeId,
    cause: Cause,
) -> Option<Pusher<'a, A>>
    ensures { option_map plain_pusher result ≡ culprit_at heard.now node.0 cause }
{
    match blame(heard.session, heard.roles, node, cause) {
        Some(blamed) => Some(Pusher {
            key: blamed.key,
            connection: connection(heard.event),
            step: step_number(heard.before, blamed.node),
        }),
        None => None,
    }
}

/// What is told of a key that left at a node, with this cause.
pub fn verdict_at<A: Allocator>(heard: &Heard<'_, A>, node: NodeId, cause: Cause) -> Option<Verdict>
    ensures { result ≡ verdict_there heard.now node.0 cause }
{
    let role = role_of(heard.roles, node);
    verdict_of(role, cause, said(heard.event), has_flushed(heard.roles))
}

// What is told of a departure, if anything.
fn told_of<'a, A: Allocator + Copy>(
    heard: &Heard<'a, A>,
    departure: &Departure<'a, A>,
) -> Option<Leaving<'a, A>>
    ensures told { option_map (λ l. with_class None (plain_leaving l)) result ≡ rule.told_of heard.now departure.now }
    ensures class { IfSome result (rule.HasClass heard.now) }
{
    let node = departure.node;
    match verdict_at(heard, node, departure.cause) {
        None => None,
        Some(verdict) => Some(Leaving {
            time: heard.time,
            step: step_number(heard.before, node),
            key: departure.key,
            class: class_left(heard.session, node, departure.key),
            verdict,
            culprit: culprit_of(heard, node, departure.cause),
        }),
    }
}

// What an event says of an item that a storage command's look-up met dead.
fn lapsed_verdict<A: Allocator>(event: Option<&Event<A>>, own: bool) -> Option<Verdict>
    ensures { result ≡ rule.lapsed_verdict (option_copied event.entry) own }
{
    if !own {
        return None;
    }
    match said(event) {
        Said::Expired => Some(Verdict {
            reason: Reason::Expired,
            evidence: Evidence::Logged,
        }),
        Said::Flushed => Some(Verdict {
            reason: Reason::Flushed,
            evidence: Evidence::Logged,
        }),
        Said::Other => None,
    }
}

// What is told so of a key that is still held.
fn lapsed_as<'a, A: Allocator + Copy>(
    heard: &Heard<'a, A>,
    key: &'a Key<A>,
    verdict: Verdict,
) -> Option<Leaving<'a, A>>
    ensures lapsed { option_map (λ l. with_class None (plain_leaving l)) result ≡ rule.lapsed_as heard.now key.now verdict }
    ensures class { IfSome result (rule.HasClass heard.now) }
{
    let store = heard.session.store();
    match store.find(key) {
        Some(chunk) => Some(Leaving {
            time: heard.time,
            step: step_number(heard.before, heard.session.current()),
            key,
            class: Some(store.owner(chunk.page as usize)),
            verdict,
            culprit: None,
        }),
        None => None,
    }
}

// What is told of the key of an event whose look-up is a storage command's, and met its item dead. No step takes it
// out: the command's store takes its place.
fn lapsed<'a, A: Allocator + Copy>(heard: &Heard<'a, A>) -> Option<Leaving<'a, A>>
    ensures lapsed { option_map (λ l. with_class None (plain_leaving l)) result ≡ rule.lapsed heard.now }
    ensures class { IfSome result (rule.HasClass heard.now) }
{
    match lapsed_verdict(heard.event, heard.own) {
        None => None,
        Some(verdict) => match named(heard.event) {
            Some(key) => lapsed_as(heard, key, verdict),
            None => None,
        },
    }
}

// What is told of departures.
fn all_told<'a, A: Allocator + Copy>(
    alloc: A,
    heard: &Heard<'a, A>,
    gone: &[Departure<'a, A>],
) -> Result<Vec<Leaving<'a, A>, A>, AllocError>
    ensures told { IfOk result (λ told. map (λ l. with_class None (plain_leaving l)) told.items ≡ rule.departed heard.now gone.now) }
    ensures classes { IfOk result (λ told. All (rule.HasClass heard.now) told.items) }
{
    let mut told = Vec::new(alloc);
    for departure in gone {
        match told_of(heard, departure) {
            Some(leaving) => told.push(leaving)?,
            None => {}
        }
    }
    Ok(told)
}

/// The keys that left at an event, in the order in which they did; and last that of a storage command whose look-up met
/// its item dead.
///
/// Err: memory was refused.
pub fn leavings<'a, A: Allocator + Copy>(
    alloc: A,
    heard: &Heard<'a, A>,
) -> Result<Vec<Leaving<'a, A>, A>, AllocError>
    ensures told { IfOk result (λ told. map (λ l. with_class None (plain_leaving l)) told.items ≡ rule.leavings heard.now (departures_of heard.now.session.now.root heard.now.session.now.rows heard.now.session.now.current)) }
    ensures classes { IfOk result (λ told. All (rule.HasClass heard.now) told.items) }
{
    let gone = departures(heard.session, None)?;
    let mut told = all_told(alloc, heard, gone.as_slice())?;
    match lapsed(heard) {
        Some(leaving) => told.push(leaving)?,
        None => {}
    }
    Ok(told)
}
