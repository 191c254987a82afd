//! What a listener hears: an event of the log, and the steps that were played for it.
use crate::fault::ReplayFault;
use rev_lead::Role;
use rev_undotree::Session;
use rev_watch::event::{Event, Timestamp};
use std::alloc::Allocator;

/// An event, once it was played.
#[derive(Drop)]
pub struct Heard<'a, A: Allocator> {
    /// The event; none where what still waited was played at the end of a server's life.
    pub event: Option<&'a Event<A>>,
    /// Whether it is a look-up that a storage command or a deletion made.
    pub own: bool,
    /// When it happened, or when the last event did.
    pub time: Timestamp,
    /// The steps that were played for it: a node for each, from 1 on. Where a tree is kept, those of the events before
    /// it stand in front of them.
    pub session: &'a Session<A>,
    /// The role of each node, that of node 1 first.
    pub roles: &'a [Role],
    /// How many steps lie in front of the root, over all lives of the server.
    pub before: u64,
}

/// Who is told of each event.
pub trait Listener<A: Allocator> {
    /// An event was played.
    fn heard(&mut self, heard: &Heard<'_, A>) -> Result<(), ReplayFault>;

    /// The server was started anew, behind all events that were heard and before a line of this time; so many steps
    /// were played so far.
    fn restarted(&mut self, at: Timestamp, steps: u64) -> Result<(), ReplayFault>;
}
