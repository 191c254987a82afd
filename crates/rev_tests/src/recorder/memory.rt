//! A request for memory that is refused: `tools/refusals` runs these tests with so little memory that each request of
//! `open`, `go`, `play` and `run_actors` is refused in turn. What was refused is looked at, a ballast is given back,
//! and the same call goes well. With memory enough no request is refused, and a recording is seen to its end.
ghost use Rattle.std.specs.Prelude.{◌≤◌};

use crate::recorder::gates::Open;
use crate::recorder::hands::{ROOT, go_to_root, last_call, play, set};
use crate::recorder::openings::{Ending, SEAL, end, open_session, record};
use rev_recorder::{Hand, RecordFault, Recorder, run_actors};
use rev_requests::Step;
use rev_undotree::Session;
use std::alloc::Global;
use std::process::Abort;
use std::sync::Wait;
use std::thread::Threads;

// Bytes of a ballast: more than all that the calls of a test ask for.
const BALLAST: usize = 1 << 20;

// What is given back where a request was refused, and how often each call was refused.
#[derive(Drop)]
struct Ballast {
    block: Vec<u8>,
    opens: u32,
    goes: u32,
    plays: u32,
    runs: u32,
}

// A ballast. What a test needs beside the calls that it looks at is taken before.
fn make_ballast<R: Abort>(rt: &R, alloc: Global) -> Ballast {
    Ballast {
        block: Vec::with_capacity(alloc, BALLAST).expect(rt, "no ballast"),
        opens: 0,
        goes: 0,
        plays: 0,
        runs: 0,
    }
}

impl Ballast {
    fn give_back(&mut self, alloc: Global) {
        self.block = Vec::new(alloc);
    }
}

// Opens a recorder. A session that is handed back is opened again.
fn open_again<R: Abort>(
    rt: &R,
    alloc: Global,
    session: Session<Global>,
    players: usize,
    ballast: &mut Ballast,
) -> (Recorder, Vec<Hand>)
    requires { (1 ≤ players) × (players ≤ 8) }
{
    match Recorder::open(alloc, session, players, SEAL) {
        Ok(opened) => opened,
        Err((_, session)) => {
            ballast.opens = 1;
            ballast.give_back(alloc);
            match Recorder::open(alloc, session, players, SEAL) {
                Ok(opened) => opened,
                Err(_) => panic!(rt; "no memory, twice"),
            }
        }
    }
}

// Plays a step. A step that is handed back for want of memory is played again, by a hand that is as it was.
fn play_again<R: Wait + Abort>(
    rt: &R,
    alloc: Global,
    recorder: &Recorder,
    hand: &mut Hand,
    step: Step<Global>,
    ballast: &mut Ballast,
) {
    let before = last_call(hand);
    match recorder.play(rt, hand, step) {
        Ok(_) => {}
        Err((RecordFault::Memory, step)) => {
            assert!(rt;
                last_call(hand) == before,
                "a refused play entered the hand"
            );
            ballast.plays = 1;
            ballast.give_back(alloc);
            play(rt, recorder, hand, step).expect(rt, "a play refused again");
        }
        Err((fault, _)) => panic!(rt; "a refused play: {fault:?}"),
    }
}

// Goes to the root. What is refused for want of memory is asked again, by a hand that is as it was.
fn go_again<R: Wait + Abort>(
    rt: &R,
    alloc: Global,
    recorder: &Recorder,
    hand: &mut Hand,
    ballast: &mut Ballast,
) {
    let before = last_call(hand);
    match recorder.go(rt, hand, ROOT) {
        Ok(_) => {}
        Err(RecordFault::Memory) => {
            assert!(rt; last_call(hand) == before, "a refused go entered the hand");
            ballast.goes = 1;
            ballast.give_back(alloc);
            go_to_root(rt, recorder, hand);
        }
        Err(fault) => panic!(rt; "a refused go: {fault:?}"),
    }
}

// Three sets.
fn three_sets<R: Abort>(rt: &R, alloc: Global) -> Vec<Step<Global>> {
    let mut steps = Vec::new(alloc);
    for name in ["a", "b", "c"] {
        steps.push(set(rt, alloc, name)).expect(rt, "no memory");
    }
    steps
}

// Goes to the root before each of the steps and after them, and plays them, each call again where it was refused
// memory.
fn call_again<R: Wait + Abort>(
    rt: &R,
    alloc: Global,
    recorder: &Recorder,
    hand: &mut Hand,
    steps: Vec<Step<Global>>,
    ballast: &mut Ballast,
) {
    go_again(rt, alloc, recorder, hand, ballast);
    for step in steps {
        play_again(rt, alloc, recorder, hand, step, ballast);
        go_again(rt, alloc, recorder, hand, ballast);
    }
}

// One hand after another, each with three steps.
fn call_all_again<R: Wait + Abort>(
    rt: &R,
    alloc: Global,
    recorder: &Recorder,
    hands: &mut [Hand],
    all_steps: Vec<Vec<Step<Global>>>,
    ballast: &mut Ballast,
) {
    let mut next = 0;
    for steps in all_steps {
        if next < hands.len() {
            call_again(rt, alloc, recorder, &mut hands[next], steps, ballast);
            next += 1;
        }
    }
}

// Three sets for each of three hands.
fn steps_of_three<R: Abort>(rt: &R, alloc: Global) -> Vec<Vec<Step<Global>>> {
    let mut all_steps = Vec::new(alloc);
    for _ in 0..3 {
        all_steps
            .push(three_sets(rt, alloc))
            .expect(rt, "no memory");
    }
    all_steps
}

#[test]
fn calls(rt: HostRuntime) {
    let session = open_session(&rt, rt.alloc());
    let steps = steps_of_three(&rt, rt.alloc());
    let mut ballast = make_ballast(&rt, rt.alloc());
    let (recorder, mut hands) = open_again(&rt, rt.alloc(), session, 3, &mut ballast);
    call_all_again(
        &rt,
        rt.alloc(),
        &recorder,
        hands.as_mut_slice(),
        steps,
        &mut ballast,
    );
    ballast.give_back(rt.alloc());
    let ending = end(recorder, hands);
    assert!(rt; ending == Ending::Settled { rows: 21, nodes: 9 });
    let Ballast {
        opens,
        goes,
        plays,
        ..
    } = ballast;
    let _ = println!(rt; "refused: open {opens}, go {goes}, play {plays}");
}

// Takes the hands out of what `run_actors` gives, in order, each of which ended well or was refused memory.
fn hands_of<R: Abort>(
    rt: &R,
    done: Vec<(Hand, Result<(), RecordFault>)>,
    mut hands: Vec<Hand>,
    ballast: &mut Ballast,
) -> Vec<Hand> {
    for (hand, result) in done {
        match result {
            Ok(()) => {}
            Err(RecordFault::Memory) => ballast.plays = 1,
            Err(fault) => panic!(rt; "a refused step: {fault:?}"),
        }
        hands.push(hand).expect(rt, "no memory");
    }
    hands
}

// Runs the hands. Where nothing was started, all is handed back and run again.
fn run_again<R: Threads + Wait + Sync + Abort>(
    rt: &R,
    alloc: Global,
    recorder: &Recorder,
    work: Vec<(Hand, Vec<Step<Global>>)>,
    ballast: &mut Ballast,
) -> Vec<(Hand, Result<(), RecordFault>)> {
    match run_actors(rt, recorder, work, &Open) {
        Ok(done) => done,
        Err((_, work)) => {
            ballast.runs = 1;
            ballast.give_back(alloc);
            match run_actors(rt, recorder, work, &Open) {
                Ok(done) => done,
                Err(_) => panic!(rt; "no memory, twice"),
            }
        }
    }
}

// Each hand with its steps, in a list that has room for them.
fn give_steps<R: Abort>(
    rt: &R,
    hands: Vec<Hand>,
    mut all_steps: Vec<Vec<Step<Global>>>,
    mut work: Vec<(Hand, Vec<Step<Global>>)>,
) -> Vec<(Hand, Vec<Step<Global>>)> {
    for hand in hands {
        let steps = all_steps.pop().expect(rt, "too few steps");
        work.push((hand, steps)).expect(rt, "no memory");
    }
    work
}

// How many calls the hands were told of.
fn calls_of(hands: &[Hand]) -> usize {
    let mut calls = 0usize;
    for hand in hands {
        calls = calls.wrapping_add(hand.entries().len());
    }
    calls
}

#[test]
fn players(rt: HostRuntime) {
    let session = open_session(&rt, rt.alloc());
    let steps = steps_of_three(&rt, rt.alloc());
    let work = Vec::with_capacity(rt.alloc(), 3).expect(&rt, "no memory");
    let room = Vec::with_capacity(rt.alloc(), 3).expect(&rt, "no memory");
    let (recorder, hands) = record(&rt, rt.alloc(), session, 3, SEAL);
    let work = give_steps(&rt, hands, steps, work);
    // (taken last, so that what is asked for behind it finds no memory that was given back)
    let mut ballast = make_ballast(&rt, rt.alloc());
    let done = run_again(&rt, rt.alloc(), &recorder, work, &mut ballast);
    let hands = hands_of(&rt, done, room, &mut ballast);
    ballast.give_back(rt.alloc());
    assert!(rt; hands.len() == 3);
    let calls = calls_of(hands.as_slice());
    assert!(rt; calls <= 9);
    let wanted = Ending::Settled {
        rows: calls,
        nodes: calls as u32,
    };
    assert!(rt; end(recorder, hands) == wanted);
    let Ballast { plays, runs, .. } = ballast;
    let _ = println!(rt; "refused: play {plays}, run {runs}");
}
