//! How many nodes a tree of attempts may have.
use crate::classes::DEFAULTS;
use crate::owned::session_over;
use rev_inverse::Store;
use rev_steps::{ActorStep, Step};
use rev_undotree::{PlayFault, Session};
use std::alloc::Global;
use std::process::Abort;

// The most plays that a session accepts.
const NODES: u32 = 1048576;

fn open_session<R: Abort>(rt: &R, alloc: Global) -> Session<Global> {
    let store = Store::open(alloc, DEFAULTS).expect(rt, "no store");
    session_over(rt, alloc, store)
}

// Plays a step, goes back, and takes its node out.
fn come_and_go<R: Abort>(rt: &R, session: &mut Session<Global>) {
    match session.play(Step::Actor(ActorStep::Clock(1))) {
        Ok(played) => {
            session.back().expect(rt, "no way back");
            session.prune(played.node).expect(rt, "not taken out");
        }
        Err(_) => panic!(rt; "a play was refused"),
    }
}

// Why one more play is refused.
fn refusal(session: &mut Session<Global>) -> Option<PlayFault> {
    match session.play(Step::Actor(ActorStep::Clock(1))) {
        Ok(_) => None,
        Err((fault, step)) => {
            drop(step);
            Some(fault)
        }
    }
}

// Uses all numbers up; then a play is refused.
fn use_up<R: Abort>(rt: &R, session: &mut Session<Global>) {
    for _ in 0..NODES {
        come_and_go(rt, session);
    }
    let issued = session.issued();
    assert!(rt;
        issued == NODES && refusal(session) == Some(PlayFault::TooManyNodes),
        "{issued} plays"
    );
}

#[test]
fn numbers_run_out(rt: HostRuntime) {
    let mut session = open_session(&rt, rt.alloc());
    use_up(&rt, &mut session);
    drop(session);
}
