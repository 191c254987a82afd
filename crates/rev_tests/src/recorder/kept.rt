//! What a recording keeps of the session that it was handed: the root, the nodes, and the place where it stood.
ghost use Rattle.rev_model.specs.Sound.{Sound};

use crate::owned::session_over;
use crate::recorder::hands::{ROOT, clock, go_to_root, keyed, play_set, set};
use crate::recorder::openings::{SEAL, SMALL, record};
use rev_inverse::Store;
use rev_items::Key;
use rev_model::Outcome;
use rev_recorder::{Hand, Recorder, Settled};
use rev_requests::{KeyCommand, Step};
use rev_steps::apply;
use rev_undotree::{NodeId, Session};
use std::alloc::Global;
use std::process::Abort;
use std::sync::Wait;

// Nodes before the recording.
const NODES: u32 = 5;

// The step of each node before the recording.
fn step_before<R: Abort>(rt: &R, alloc: Global, node: u32) -> Step<Global> {
    match node {
        1 => clock(50),
        2 => set(rt, alloc, "a"),
        3 => keyed(rt, alloc, KeyCommand::Get, "a"),
        4 => keyed(rt, alloc, KeyCommand::Delete, "a"),
        _ => keyed(rt, alloc, KeyCommand::Get, "a"),
    }
}

// What the steps before the recording answered.
const OUTCOMES: [Outcome; 5] = [
    Outcome::Okay,
    Outcome::Stored,
    Outcome::Hit { len: 1, cas: 2 },
    Outcome::Deleted,
    Outcome::Miss,
];

// Stores an item `r`.
fn hold_root<R: Abort>(rt: &R, alloc: Global, store: &mut Store<Global>)
    requires { Sound store.old }
    ensures { Sound store.new }
{
    let step = set(rt, alloc, "r");
    drop(apply(store, &step).expect(rt, "no memory"));
    drop(step);
}

// A session over a store that holds an item `r`.
fn root_session<R: Abort>(rt: &R, alloc: Global) -> Session<Global> {
    let mut store = Store::open(alloc, SMALL).expect(rt, "no store");
    hold_root(rt, alloc, &mut store);
    session_over(rt, alloc, store)
}

// Plays the node's step.
fn play_before<R: Abort>(rt: &R, alloc: Global, session: &mut Session<Global>, node: u32) {
    let step = step_before(rt, alloc, node);
    match session.play(step) {
        Ok(_) => {}
        Err((fault, _)) => panic!(rt; "node {node}: {fault:?}"),
    }
}

// A session with five nodes that stands at the third.
fn session_before<R: Abort>(rt: &R, alloc: Global) -> Session<Global> {
    let mut session = root_session(rt, alloc);
    for node in 1..=NODES {
        play_before(rt, alloc, &mut session, node);
    }
    session.go(NodeId(3)).expect(rt, "no third node");
    session
}

// Plays two sets, with the root in between.
fn record_calls<R: Wait + Abort>(rt: &R, alloc: Global, recorder: &Recorder, hands: &mut [Hand]) {
    for hand in hands.iter_mut() {
        play_set(rt, alloc, recorder, hand, "b");
        go_to_root(rt, recorder, hand);
        play_set(rt, alloc, recorder, hand, "c");
    }
}

// The session behind a recording.
fn recorded<R: Wait + Abort>(rt: &R, alloc: Global) -> Session<Global> {
    let session = session_before(rt, alloc);
    let (recorder, mut hands) = record(rt, alloc, session, 1, SEAL);
    record_calls(rt, alloc, &recorder, hands.as_mut_slice());
    match recorder.settle(hands) {
        Ok(Settled { session, log }) => {
            drop(log);
            session
        }
        Err(_) => panic!(rt; "hands and log differ"),
    }
}

// Whether the node has this step and the outcome that it was played with.
fn has_row(session: &Session<Global>, node: u32, wanted: &Step<Global>) -> bool {
    match session.row(NodeId(node)) {
        Some((step, outcome)) => step.is_same(wanted)
            && OUTCOMES.iter().nth(node as usize - 1).copied() == Some(outcome),
        None => false,
    }
}

// Whether the node has the step and the outcome that it was played with.
fn is_kept<R: Abort>(rt: &R, alloc: Global, session: &Session<Global>, node: u32) -> bool {
    let wanted = step_before(rt, alloc, node);
    let is_kept = has_row(session, node, &wanted);
    drop(wanted);
    is_kept
}

// Whether the store holds an item of this key.
fn holds<R: Abort>(rt: &R, alloc: Global, session: &Session<Global>, name: &str) -> bool {
    let key = Key::new(alloc, name.as_bytes()).expect(rt, "no key");
    let is_held = session.store().find(&key).is_some();
    drop(key);
    is_held
}

// The nodes of before and those of the recording.
fn look_at_nodes<R: Abort>(rt: &R, alloc: Global, session: &Session<Global>) {
    for node in 1..=NODES {
        assert!(rt; is_kept(rt, alloc, session, node), "node {node}");
    }
    assert!(rt; session.issued() == 7);
    assert!(rt; session.parent(NodeId(6)) == Some(NodeId(3)));
    assert!(rt; session.parent(NodeId(7)) == Some(ROOT));
}

// The store at the root.
fn look_at_root<R: Abort>(rt: &R, alloc: Global, session: &mut Session<Global>) {
    session.go(ROOT).expect(rt, "no root");
    assert!(rt; holds(rt, alloc, session, "r"));
    let globals = session.store().globals();
    assert!(rt; globals.clock == 1 && globals.last_cas == 1);
}

#[test]
fn base_kept(rt: HostRuntime) {
    let mut session = recorded(&rt, rt.alloc());
    look_at_nodes(&rt, rt.alloc(), &session);
    look_at_root(&rt, rt.alloc(), &mut session);
    drop(session);
}
