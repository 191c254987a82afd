//! Each refusal of a recorder, and what it leaves in the hand and in the log.
ghost use Rattle.std.specs.Prelude.{◌≤◌, length};

use crate::recorder::hands::{ROOT, clock, last_call, play, play_clocks};
use crate::recorder::openings::{
    Ending, SEAL, end, end_early, end_with_stranger, open, open_session, record,
};
use rev_recorder::{Call, Hand, RecordFault, Recorder};
use rev_undotree::{NodeId, Session};
use std::alloc::Global;
use std::process::Abort;
use std::sync::Wait;

// The most nodes that a session makes.
const NODES: u32 = 1048576;

// The seal of the recorders whose hands are strange.
const OTHER_SEAL: u64 = 8;

// The hand of a recorder with one player.
fn open_one<R: Abort>(
    rt: &R,
    alloc: Global,
    session: Session<Global>,
    seal: u64,
) -> (Recorder, Hand) {
    let (recorder, mut hands) = record(rt, alloc, session, 1, seal);
    let hand = hands.pop().expect(rt, "no hand");
    drop(hands);
    (recorder, hand)
}

// Ends a recording with one hand.
fn end_one<R: Abort>(rt: &R, alloc: Global, recorder: Recorder, hand: Hand) -> Ending {
    let mut hands = Vec::new(alloc);
    hands.push(hand).expect(rt, "no memory");
    end(recorder, hands)
}

#[test]
fn no_node(rt: HostRuntime) {
    let session = open_session(&rt, rt.alloc());
    let (recorder, mut hand) = open_one(&rt, rt.alloc(), session, SEAL);
    let answer = recorder.go(&rt, &mut hand, NodeId(999999));
    let call = Call::Lost(NodeId(999999));
    assert!(rt; answer.err() == Some(RecordFault::NoNode) && last_call(&hand) == (1, Some(call)));
    let ending = end_one(&rt, rt.alloc(), recorder, hand);
    assert_eq!(rt; ending, Ending::Settled { rows: 1, nodes: 0 });
}

// Plays one more step than the session takes: it is refused with this fault and logged as this call, and the session
// keeps its nodes.
fn refuse_play<R: Wait + Abort>(
    rt: &R,
    alloc: Global,
    session: Session<Global>,
    fault: RecordFault,
    call: Call,
    nodes: u32,
) {
    let (recorder, mut hand) = open_one(rt, alloc, session, SEAL);
    let answer = play(rt, &recorder, &mut hand, clock(1));
    assert!(rt; answer.err() == Some(fault) && last_call(&hand) == (1, Some(call)));
    let ending = end_one(rt, alloc, recorder, hand);
    assert_eq!(rt; ending, Ending::Settled { rows: 1, nodes });
}

// Plays a step of the clock on the session.
fn tick<R: Abort>(rt: &R, session: &mut Session<Global>) {
    match session.play(clock(1)) {
        Ok(_) => {}
        Err((fault, _)) => panic!(rt; "a refused clock: {fault:?}"),
    }
}

// Forks off below each fork, so that a further fork would be the 65th.
fn nest<R: Abort>(rt: &R, session: &mut Session<Global>) {
    tick(rt, session);
    tick(rt, session);
    for _ in 0..64 {
        session.back().expect(rt, "at the root");
        tick(rt, session);
        tick(rt, session);
    }
    session.back().expect(rt, "at the root");
}

// A session with 64 nested forks that stands where one more play is refused.
fn nested_session<R: Abort>(rt: &R, alloc: Global) -> Session<Global> {
    let mut session = open_session(rt, alloc);
    nest(rt, &mut session);
    session
}

#[test]
fn too_deep(rt: HostRuntime) {
    let session = nested_session(&rt, rt.alloc());
    refuse_play(
        &rt,
        rt.alloc(),
        session,
        RecordFault::TooDeep,
        Call::Deep,
        130,
    );
}

// Uses all numbers of nodes up.
fn use_up<R: Abort>(rt: &R, session: &mut Session<Global>) {
    for number in 1..=NODES {
        tick(rt, session);
        session.back().expect(rt, "at the root");
        session.prune(NodeId(number)).expect(rt, "not pruned");
    }
}

// A session that has given out all numbers of nodes.
fn used_session<R: Abort>(rt: &R, alloc: Global) -> Session<Global> {
    let mut session = open_session(rt, alloc);
    use_up(rt, &mut session);
    session
}

#[test]
fn too_many_nodes(rt: HostRuntime) {
    let session = used_session(&rt, rt.alloc());
    refuse_play(
        &rt,
        rt.alloc(),
        session,
        RecordFault::TooManyNodes,
        Call::Many,
        NODES,
    );
}

// The hand of another recorder.
fn stranger<R: Abort>(rt: &R, alloc: Global) -> Hand {
    let session = open_session(rt, alloc);
    let (recorder, hand) = open_one(rt, alloc, session, OTHER_SEAL);
    drop(recorder);
    hand
}

#[test]
fn strange_calls(rt: HostRuntime) {
    let mut hand = stranger(&rt, rt.alloc());
    let (recorder, hands) = open(&rt, rt.alloc(), 1, SEAL);
    let strange = Some(RecordFault::StrangerHand);
    assert!(rt; play(&rt, &recorder, &mut hand, clock(1)).err() == strange);
    assert!(rt; recorder.go(&rt, &mut hand, ROOT).err() == strange);
    assert!(rt; last_call(&hand) == (0, None));
    drop(hand);
    assert_eq!(rt; end(recorder, hands), Ending::Settled { rows: 0, nodes: 0 });
}

// Lets each hand play once.
fn play_each<R: Wait + Abort>(rt: &R, recorder: &Recorder, hands: &mut [Hand]) {
    for hand in hands.iter_mut() {
        play_clocks(rt, recorder, hand, 1);
    }
}

// Tries to end a recording with a strange hand in front of the others, and then ends it without.
fn end_with_and_without<R: Abort>(
    rt: &R,
    alloc: Global,
    recorder: Recorder,
    mut hands: Vec<Hand>,
) -> Ending {
    hands.push(stranger(rt, alloc)).expect(rt, "no memory");
    let (recorder, mut hands) = end_with_stranger(rt, recorder, hands);
    drop(hands.pop());
    end(recorder, hands)
}

#[test]
fn strange_endings(rt: HostRuntime) {
    let (recorder, mut hands) = open(&rt, rt.alloc(), 2, SEAL);
    play_each(&rt, &recorder, hands.as_mut_slice());
    let ending = end_with_and_without(&rt, rt.alloc(), recorder, hands);
    assert_eq!(rt; ending, Ending::Settled { rows: 2, nodes: 2 });
}

// Tries to end a recording with the first hand kept back, and hands all back with that hand last.
fn keep_first_back<R: Abort>(
    rt: &R,
    recorder: Recorder,
    mut hands: Vec<Hand>,
) -> (Recorder, Vec<Hand>)
    requires { 1 ≤ length hands.items }
{
    let kept = hands.remove(0);
    let (recorder, mut hands) = end_early(rt, recorder, hands);
    hands.push(kept).expect(rt, "no memory");
    (recorder, hands)
}

#[test]
fn missing_hands(rt: HostRuntime) {
    let (mut recorder, mut hands) = open(&rt, rt.alloc(), 8, SEAL);
    play_each(&rt, &recorder, hands.as_mut_slice());
    for _ in 0..8 {
        assert!(rt; hands.len() == 8);
        (recorder, hands) = keep_first_back(&rt, recorder, hands);
    }
    assert_eq!(rt; end(recorder, hands), Ending::Settled { rows: 8, nodes: 8 });
}
