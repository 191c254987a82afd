//! What an event of a log says, and what is told of the steps that were played for it.
ghost use Rattle.std.specs.Prelude.{◌≡◌};
ghost use Rattle.std.specs.Option.{option_copied};
ghost use Rattle.rev_evidence.specs.Heard as rule;

use crate::keys::is_key;
use crate::verdict::{Evidence, Reason, Said, Verdict};
use rev_items::Key;
use rev_lead::Role;
use rev_undotree::NodeId;
use rev_watch::event::{Event, LookUpOutcome, StoreOutcome};
use std::alloc::Allocator;

/// The key that an event names.
pub fn key_in<A: Allocator>(event: &Event<A>) -> Option<&Key<A>>
    ensures { option_copied result ≡ rule.key_in event.now }
{
    match event {
        Event::LookUp { key, .. } => Some(key),
        Event::Store { key, .. } => Some(key),
        Event::Deletion { key, .. } => Some(key),
        Event::Eviction { key, .. } => Some(key),
        _ => None,
    }
}

// The connection of a store: one whose data were too large does not tell.
fn connection_if(outcome: StoreOutcome, connection: i32) -> Option<i32>
    ensures { result ≡ rule.connection_if outcome connection }
{
    match outcome {
        StoreOutcome::TooLarge => None,
        _ => Some(connection),
    }
}

/// The connection of an event, the server's file descriptor, where the line tells it.
pub fn connection_in<A: Allocator>(event: &Event<A>) -> Option<i32>
    ensures { result ≡ rule.connection_in event.now }
{
    match event {
        Event::LookUp { connection, .. } => Some(*connection),
        Event::Store {
            outcome,
            connection,
            ..
        } => connection_if(*outcome, *connection),
        Event::Deletion { connection, .. } => *connection,
        _ => None,
    }
}

// What the outcome of a look-up says of the item.
fn said_of(outcome: LookUpOutcome) -> Said
    ensures { result ≡ rule.said_of outcome }
{
    match outcome {
        LookUpOutcome::Expired => Said::Expired,
        LookUpOutcome::Flushed => Said::Flushed,
        _ => Said::Other,
    }
}

/// What an event says of the item that it looks up.
pub fn said_by<A: Allocator>(event: &Event<A>) -> Said
    ensures { result ≡ rule.said_by event.now }
{
    match event {
        Event::LookUp { outcome, .. } => said_of(*outcome),
        _ => Said::Other,
    }
}

// What a miss says of a key whose item is dead, or that is not there.
fn gone_by_miss(dead: bool) -> Verdict
    ensures { result ≡ rule.gone_by_miss dead }
{
    if dead {
        Verdict {
            reason: Reason::Expired,
            evidence: Evidence::Replayed,
        }
    } else {
        Verdict {
            reason: Reason::Deleted,
            evidence: Evidence::Inferred,
        }
    }
}

// What a look-up that ended so says of a key that is not there, or whose item is dead.
fn gone_by_look_up(outcome: LookUpOutcome, dead: bool) -> Option<Verdict>
    ensures { result ≡ rule.gone_by_look_up outcome dead }
{
    match outcome {
        LookUpOutcome::NotFound => Some(gone_by_miss(dead)),
        LookUpOutcome::Expired => Some(Verdict {
            reason: Reason::Expired,
            evidence: Evidence::Logged,
        }),
        LookUpOutcome::Flushed => Some(Verdict {
            reason: Reason::Flushed,
            evidence: Evidence::Logged,
        }),
        _ => None,
    }
}

/// What an event says of the loss of the key that it names, where it says that no look-up finds it. In the replay the
/// key's item is dead, or it is not there.
pub fn gone_by<A: Allocator>(event: &Event<A>, dead: bool) -> Option<Verdict>
    ensures { result ≡ rule.gone_by event.now dead }
{
    match event {
        Event::LookUp { outcome, .. } => gone_by_look_up(*outcome, dead),
        Event::Eviction { .. } => Some(Verdict {
            reason: Reason::Evicted,
            evidence: Evidence::Logged,
        }),
        Event::Deletion { .. } => Some(Verdict {
            reason: Reason::Deleted,
            evidence: Evidence::Logged,
        }),
        _ => None,
    }
}

// Whether a look-up found its key.
fn is_found(outcome: LookUpOutcome) -> bool
    ensures { result ≡ rule.is_found outcome }
{
    match outcome {
        LookUpOutcome::Found => true,
        _ => false,
    }
}

// Whether an event is a look-up that found its key.
fn finds<A: Allocator>(event: &Event<A>) -> bool
    ensures { result ≡ rule.finds event.now }
{
    match event {
        Event::LookUp { outcome, .. } => is_found(*outcome),
        _ => false,
    }
}

/// The number of a step, where so many were played before; it stays at the most that 64 bits hold.
pub fn step_number(before: u64, node: NodeId) -> u64
    ensures { result ≡ rule.step_number before node.0 }
{
    before.saturating_add(u64::from(node.0))
}

/// The role of a node's step.
pub fn role_of(roles: &[Role], node: NodeId) -> Role
    ensures { result ≡ rule.role_of roles.now node.0 }
{
    if node.0 == 0 {
        return Role::Actor;
    }
    match roles.get(node.0 as usize - 1) {
        Some(role) => *role,
        None => Role::Actor,
    }
}

fn is_flush(role: Role) -> bool
    ensures { result ≡ rule.is_flush role }
{
    match role {
        Role::Flush => true,
        _ => false,
    }
}

/// Whether a step of the event flushed an item.
pub fn has_flushed(roles: &[Role]) -> bool
    ensures { result ≡ rule.has_flushed roles.now }
{
    roles.iter().any(|role| is_flush(*role))
}

/// What the event says of the item that it looks up.
pub fn said<A: Allocator>(event: Option<&Event<A>>) -> Said
    ensures { result ≡ rule.said (option_copied event.entry) }
{
    match event {
        Some(event) => said_by(event),
        None => Said::Other,
    }
}

/// The connection of the event, where it has one.
pub fn connection<A: Allocator>(event: Option<&Event<A>>) -> Option<i32>
    ensures { result ≡ rule.connection (option_copied event.entry) }
{
    match event {
        Some(event) => connection_in(event),
        None => None,
    }
}

/// The key that the event names.
pub fn named<A: Allocator>(event: Option<&Event<A>>) -> Option<&Key<A>>
    ensures { option_copied result ≡ rule.named (option_copied event.entry) }
{
    match event {
        Some(event) => key_in(event),
        None => None,
    }
}

/// Whether the event names the key.
pub fn names<A: Allocator>(event: Option<&Event<A>>, key: &Key<A>) -> bool
    ensures { result ≡ rule.names (option_copied event.entry) key.now }
{
    match named(event) {
        Some(named) => is_key(named, key),
        None => false,
    }
}

/// The hash of the key that the event names.
pub fn key_hash<A: Allocator>(event: Option<&Event<A>>) -> Option<u32>
    ensures { result ≡ rule.key_hash (option_copied event.entry) }
{
    match named(event) {
        Some(key) => Some(key.hash()),
        None => None,
    }
}

/// Whether the event is a client's look-up that found its key, and no storage command's.
pub fn is_hit<A: Allocator>(event: Option<&Event<A>>, own: bool) -> bool
    ensures { result ≡ rule.is_hit (option_copied event.entry) own }
{
    match event {
        Some(event) => finds(event) && !own,
        None => false,
    }
}
