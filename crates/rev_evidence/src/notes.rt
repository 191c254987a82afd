//! What a log says of the nodes of a session that it led.
ghost use Rattle.std.specs.Prelude.{◌≡◌, ◌==◌, ◌&&◌, not, is_some, length, None};
ghost use Rattle.std.specs.Option.{option_copied};
ghost use Rattle.rev_evidence.specs.Notes as rule;

use crate::departed::{Departed, Told};
use crate::sampling::Sampling;
use crate::verdict::{Evidence, Said, Verdict, by_cause, verdict_of};
use rev_items::Key;
use rev_lead::Role;
use rev_model::Cause;
use rev_undotree::NodeId;
use rev_watch::event::Timestamp;
use std::alloc::Allocator;
use std::marker::Model;

/// What a log says at a node of a session: the event for which its step was played.
#[derive(Clone, Copy, PartialEq, Eq)]
pub struct Moment {
    /// When it happened.
    pub time: Timestamp,
    /// What it says of the item that it looks up.
    pub said: Said,
    /// Whether a step of it flushed an item.
    pub flushed: bool,
    /// Its connection, where the line tells it.
    pub connection: Option<i32>,
    /// The hash of the key that it names, where it names one.
    pub key: Option<u32>,
}

/// What a log says of the nodes of a session, that of node 1 first; where the log goes back behind the session's root,
/// which keys left in front of that, and when it was; and of which keys it is, where not all are replayed. A session on
/// a script has none.
#[derive(Drop)]
pub struct LogNotes<A: Allocator> {
    roles: Vec<Role, A>,
    moments: Vec<Moment, A>,
    departed: Option<Departed<A>>,
    since: Option<Timestamp>,
    sampling: Option<Sampling<A>>,
}

impl<A: Allocator> Model for LogNotes<A> {
    ghost use Rattle.std.specs.Coded.{codes};
    ghost use Rattle.rev_evidence.specs.Notes.{PlainNotes};

    ghost Value = { PlainNotes };

    ghost coded = { Prim.hlevel codes };

    ghost view = { λ n. record { roles = n.roles.items; moments = n.moments.items; departed = n.departed; since = n.since; sampling = n.sampling } };
}

// What a list holds for a node, that of node 1 first.
fn of_node<T>(items: &[T], node: NodeId) -> Option<&T>
    ensures { option_copied result ≡ rule.of_node items.now node.0 }
{
    if node.0 == 0 {
        return None;
    }
    items.get(node.0 as usize - 1)
}

// Why a key left at a step of this role, with this cause. What is restored for a key that the log shows pushes another
// one out by the rules alone.
fn verdict_in(role: Role, cause: Cause, moment: Moment) -> Verdict
    ensures { result ≡ rule.verdict_in role cause moment }
{
    match verdict_of(role, cause, moment.said, moment.flushed) {
        Some(verdict) => verdict,
        None => by_cause(role, cause, moment.said, moment.flushed),
    }
}

// Whether the one time is in front of the other.
fn is_before(time: Timestamp, other: Timestamp) -> bool
    ensures { result ≡ rule.is_before time other }
{
    time.seconds < other.seconds
        || (time.seconds == other.seconds && time.microseconds < other.microseconds)
}

// Whether there is a hash, and it is this one.
fn is_hash(key: Option<u32>, hash: u32) -> bool
    ensures { result ≡ rule.is_hash key hash }
{
    match key {
        Some(key) => key == hash,
        None => false,
    }
}

// When a line names a key of this hash, if it does so in front of a time.
fn named_in(hash: u32, time: Timestamp, moment: Option<&Moment>) -> Option<Timestamp>
    ensures { result ≡ rule.named_in hash time (option_copied moment.entry) }
{
    match moment {
        Some(moment) => {
            if is_hash(moment.key, hash) && is_before(moment.time, time) {
                Some(moment.time)
            } else {
                None
            }
        }
        None => None,
    }
}

// When a line of the nodes up to this one last named a key of this hash, in front of a time.
fn last_named(moments: &[Moment], hash: u32, time: Timestamp, node: NodeId) -> Option<Timestamp>
    ensures { result ≡ rule.last_named moments.now hash time node.0 }
{
    let mut nodes = node.0;
    'nodes: while nodes > 0 {
        match named_in(hash, time, of_node(moments, NodeId(nodes))) {
            Some(named) => return Some(named),
            None => nodes -= 1,
        }
    }
    None
}

// When a key left at a step of this role, at the latest.
fn at_latest(role: Role, moment: Moment) -> Timestamp
    ensures { result ≡ rule.at_latest role moment }
{
    match role {
        Role::Inferred { shown, .. } => shown,
        _ => moment.time,
    }
}

// Where that is inferred, behind which time a key of this hash left at a node whose step has this role.
fn behind(
    moments: &[Moment],
    node: NodeId,
    hash: u32,
    role: Role,
    evidence: Evidence,
    moment: Moment,
) -> Option<Timestamp>
    ensures { result ≡ rule.behind moments.now node.0 hash role evidence moment }
{
    match role {
        Role::Inferred { shown, .. } => last_named(moments, hash, shown, node),
        _ => {
            if evidence.is_inferred() {
                Some(moment.time)
            } else {
                None
            }
        }
    }
}

/// What is told of a key of this hash that left at a node, with this cause, by the role of each node's step and what
/// the log says at it, those of node 1 first. None where the log says nothing of the node.
pub fn told_by(
    roles: &[Role],
    moments: &[Moment],
    node: NodeId,
    hash: u32,
    cause: Cause,
) -> Option<Told>
    ensures { result ≡ rule.told_by roles.now moments.now node.0 hash cause }
{
    let role = *of_node(roles, node)?;
    let moment = *of_node(moments, node)?;
    let verdict = verdict_in(role, cause, moment);
    Some(Told {
        verdict,
        time: at_latest(role, moment),
        after: behind(moments, node, hash, role, verdict.evidence, moment),
    })
}

// Whether nothing is said of any node, and nothing goes back behind the root.
fn says_nothing(moments: &[Moment], since: Option<Timestamp>) -> bool
    ensures { result ≡ ((length moments.now == 0) && not (is_some since)) }
{
    moments.is_empty() && since.is_none()
}

impl<A: Allocator + Copy> LogNotes<A> {
    /// No node has a note, and no key left in front of the root.
    pub fn none(alloc: A) -> LogNotes<A>
        ensures { result ≡ rule.no_notes }
    {
        LogNotes {
            roles: Vec::new(alloc),
            moments: Vec::new(alloc),
            departed: None,
            since: None,
            sampling: None,
        }
    }
}

impl<A: Allocator> LogNotes<A> {
    /// The role of each node's step, and what the log says at it, those of node 1 first; and where the log goes back
    /// behind the root, which keys left in front of that, and when it was. All keys are replayed.
    pub fn new(
        roles: Vec<Role, A>,
        moments: Vec<Moment, A>,
        departed: Option<Departed<A>>,
        since: Option<Timestamp>,
    ) -> LogNotes<A>
        ensures { result ≡ record { roles = roles.items; moments = moments.items; departed = departed; since = since; sampling = None } }
    {
        LogNotes {
            roles,
            moments,
            departed,
            since,
            sampling: None,
        }
    }

    /// Only the keys of this sample are replayed, or all where there is none.
    pub fn limit_to(&mut self, sampling: Option<Sampling<A>>)
        ensures { self.new ≡ record self.old { sampling = sampling } }
    {
        self.sampling = sampling;
    }

    /// Whether a key is not replayed, since it is in no sample.
    pub fn is_outside(&self, key: &Key<A>) -> bool
        ensures { result ≡ rule.is_outside self.now key.now }
    {
        match &self.sampling {
            Some(sampling) => !sampling.has(key),
            None => false,
        }
    }

    /// The role of each node's step, that of node 1 first.
    pub fn roles(&self) -> &[Role]
        ensures { result.now ≡ self.now.roles }
    {
        self.roles.as_slice()
    }

    /// Whether the log says nothing of any node, and does not go back behind the root.
    pub fn is_none(&self) -> bool
        ensures { result ≡ rule.is_none self.now }
    {
        says_nothing(self.moments.as_slice(), self.since)
    }

    /// What the log says at a node. None where it says nothing of it.
    pub fn moment(&self, node: NodeId) -> Option<Moment>
        ensures { result ≡ rule.moment_at self.now node.0 }
    {
        match of_node(self.moments.as_slice(), node) {
            Some(moment) => Some(*moment),
            None => None,
        }
    }

    /// What is told of a key that left at a node, with this cause. None where the log says nothing of the node.
    pub fn told_at(&self, node: NodeId, cause: Cause, key: &Key<A>) -> Option<Told>
        ensures { result ≡ rule.told_at self.now node.0 cause key.now }
    {
        told_by(
            self.roles(),
            self.moments.as_slice(),
            node,
            key.hash(),
            cause,
        )
    }

    /// What is told of the last leaving of a key in front of the root, as far as it is remembered.
    pub fn told_before(&self, key: &Key<A>) -> Option<Told>
        ensures { result ≡ rule.told_before self.now key.now }
    {
        match &self.departed {
            Some(departed) => departed.told_of(key),
            None => None,
        }
    }

    /// When the root was, where the log goes back behind it.
    pub fn since(&self) -> Option<Timestamp>
        ensures { result ≡ self.now.since }
    {
        self.since
    }
}
