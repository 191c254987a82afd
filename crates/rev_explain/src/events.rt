//! What is told of a key.
use rev_items::Key;
use rev_model::Cause;
pub use rev_model::EventKind;
use rev_undotree::NodeId;
use std::alloc::Allocator;
use std::marker::Model;

/// What the step of a node did to a key.
#[derive(Clone, Copy, Debug, PartialEq, Eq)]
pub struct Event {
    pub node: NodeId,
    pub kind: EventKind,
}

/// Why a key is not held at the current node.
#[derive(Clone, Copy, Debug, PartialEq, Eq)]
pub enum Why {
    /// It is held, its item dead or alive.
    Present,
    /// It never was on the way from the root.
    Never,
    /// It left the index last at this node.
    Left { node: NodeId, cause: Cause },
}

/// A key that left the index at the step of a node, and why.
#[derive(Drop)]
pub struct Departure<'a, A: Allocator> {
    pub node: NodeId,
    pub key: &'a Key<A>,
    pub cause: Cause,
}

impl<'a, A: Allocator> Model for Departure<'a, A> {
    ghost use Rattle.rev_explain.specs.Departures.{PlainDeparture};

    ghost Value = { PlainDeparture };

    ghost view = { λ d. record { node = d.node.0; key = d.key.now; cause = d.cause } };
}
