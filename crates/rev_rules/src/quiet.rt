//! Who is told of steps, and not of the events that stand for them.
use rev_replay::fault::ReplayFault;
use rev_replay::heard::{Heard, Listener};
use rev_watch::event::Timestamp;
use std::alloc::Allocator;

/// Who is told of each step without its event. Keys that left are told so: a script has no connections.
#[derive(Drop)]
pub struct WithoutEvents<L> {
    pub listener: L,
}

impl<A: Allocator, L: Listener<A>> Listener<A> for WithoutEvents<L> {
    fn heard(&mut self, heard: &Heard<'_, A>) -> Result<(), ReplayFault> {
        self.listener.heard(&Heard {
            event: None,
            own: false,
            time: heard.time,
            session: heard.session,
            roles: heard.roles,
            before: heard.before,
        })
    }

    fn restarted(&mut self, at: Timestamp, steps: u64) -> Result<(), ReplayFault> {
        self.listener.restarted(at, steps)
    }
}
