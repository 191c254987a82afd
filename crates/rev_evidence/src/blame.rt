//! Which step pushed a key out.
ghost use Rattle.std.specs.Prelude.{◌≡◌};
ghost use Rattle.std.specs.Option.{option_map, option_copied};
ghost use Rattle.rev_requests.specs.Plain.{plain_step};
ghost use Rattle.rev_evidence.specs.Blame as rule;

use crate::heard::role_of;
use rev_items::Key;
use rev_lead::Role;
use rev_model::Cause;
use rev_requests::{ClientStep, Step};
use rev_undotree::{NodeId, Session};
use std::alloc::Allocator;

/// The step that pushed a key out: the node's number and the key that it names.
#[derive(Drop)]
pub struct Blamed<'a, A: Allocator> {
    pub node: NodeId,
    pub key: &'a Key<A>,
}

/// The key that a step of a client names.
pub fn key_of<A: Allocator>(step: &Step<A>) -> Option<&Key<A>>
    ensures { option_copied result ≡ rule.key_of (plain_step step.now) }
{
    match step {
        Step::Client(client) => match client {
            ClientStep::Store { key, .. } => Some(key),
            ClientStep::Join { key, .. } => Some(key),
            ClientStep::Keyed { key, .. } => Some(key),
            ClientStep::FlushAll { .. } => None,
        },
        Step::Actor(_) => None,
        Step::Tune(_) => None,
    }
}

// Whether a step of this role is the event's own.
fn is_own(role: Role) -> bool
    ensures { result ≡ rule.is_own role }
{
    match role {
        Role::Event => true,
        Role::Evicting => true,
        _ => false,
    }
}

// The key that a node's step names.
fn named_at<'a, A: Allocator + Clone>(session: &'a Session<A>, node: NodeId) -> Option<&'a Key<A>>
    ensures { option_copied result ≡ rule.named_at session.now.rows node.0 }
{
    match session.row(node) {
        Some((step, _)) => key_of(step),
        None => None,
    }
}

// The key that a node's step stored, where it is the event's own.
fn stored_at<'a, A: Allocator + Clone>(
    session: &'a Session<A>,
    roles: &[Role],
    node: NodeId,
) -> Option<&'a Key<A>>
    ensures { option_copied result ≡ rule.stored_at session.now.root session.now.rows roles.now node.0 }
{
    if !is_own(role_of(roles, node)) {
        return None;
    }
    match session.row(node) {
        Some((step, outcome)) => step.stored_key(outcome),
        None => None,
    }
}

// The step of the node itself, where it names a key.
fn itself<'a, A: Allocator + Clone>(session: &'a Session<A>, node: NodeId) -> Option<Blamed<'a, A>>
    ensures { option_map rule.plain_blamed result ≡ rule.blamed_at node.0 (rule.named_at session.now.rows node.0) }
{
    match named_at(session, node) {
        Some(key) => Some(Blamed { node, key }),
        None => None,
    }
}

// The node itself, where the rules evicted the key at it.
fn evictor<'a, A: Allocator + Clone>(
    session: &'a Session<A>,
    node: NodeId,
    cause: Cause,
) -> Option<Blamed<'a, A>>
    ensures { option_map rule.plain_blamed result ≡ rule.evictor session.now.rows cause node.0 }
{
    match cause {
        Cause::Evicted => itself(session, node),
        _ => None,
    }
}

// The event's own store behind the node.
fn store_behind<'a, A: Allocator + Clone>(
    session: &'a Session<A>,
    roles: &[Role],
    node: NodeId,
) -> Option<Blamed<'a, A>>
    ensures { option_map rule.plain_blamed result ≡ rule.store_behind session.now.root session.now.rows roles.now node.0 }
{
    for before in node.0..session.issued() {
        let store = NodeId(before + 1);
        match stored_at(session, roles, store) {
            Some(key) => return Some(Blamed { node: store, key }),
            None => {}
        }
    }
    None
}

/// Which step pushed a key out that left at this node, with this cause: the event's own store behind a delete that
/// stands for an eviction, or the node's own step where the rules evicted the key at a step of the event. None where no
/// step of a client did.
pub fn blame<'a, A: Allocator + Clone>(
    session: &'a Session<A>,
    roles: &[Role],
    node: NodeId,
    cause: Cause,
) -> Option<Blamed<'a, A>>
    ensures { option_map rule.plain_blamed result ≡ rule.blame session.now.root session.now.rows roles.now node.0 cause }
{
    match role_of(roles, node) {
        Role::Eviction => store_behind(session, roles, node),
        Role::Event => evictor(session, node, cause),
        Role::Evicting => evictor(session, node, cause),
        _ => None,
    }
}
