//! Hands that play side by side: two threads that meet outside the lock, and one that waits for another's answer.
ghost use Rattle.std.specs.Prelude.{◌≤◌};

use crate::recorder::hands::{clock, set};
use crate::recorder::openings::{Ending, SEAL, end, open};
use rev_recorder::{Gate, Hand, RecordFault, Recorder, run_actors};
use rev_requests::Step;
use std::alloc::Global;
use std::process::Abort;
use std::sync::Wait;
use std::sync::atomic::{AtomicBool, Ordering};
use std::thread;
use std::thread::Threads;

// Turns that are waited for a flag.
const TURNS: u32 = 1000000;

// Steps of each hand.
const STEPS: u32 = 3;

// Waits for the flag, and tells whether it was set in time.
fn await_flag(flag: &AtomicBool) -> bool {
    for _ in 0..TURNS {
        if flag.load(Ordering::SeqCst) {
            return true;
        }
        thread::yield_now();
    }
    false
}

/// Lets every step pass.
pub struct Open;

impl Gate for Open {
    fn before(&self, _player: usize, _index: usize) {}

    fn after(&self, _player: usize, _index: usize) {}
}

// A gate at which one player waits for another.
trait Waits: Gate {
    // Whether the other one did not come in time.
    fn is_missed(&self) -> bool;
}

// Each of two players waits, before its first step, for the other to be about to play its own.
#[derive(Drop)]
struct Meeting {
    first: usize,
    second: usize,
    is_first_here: AtomicBool,
    is_second_here: AtomicBool,
    is_missed: AtomicBool,
}

impl Meeting {
    fn new(first: usize, second: usize) -> Meeting {
        Meeting {
            first,
            second,
            is_first_here: AtomicBool::new(false),
            is_second_here: AtomicBool::new(false),
            is_missed: AtomicBool::new(false),
        }
    }

    // Sets the own flag, and waits for the other's.
    fn meet(&self, own: &AtomicBool, other: &AtomicBool) {
        own.store(true, Ordering::SeqCst);
        if !await_flag(other) {
            self.is_missed.store(true, Ordering::SeqCst);
        }
    }
}

impl Gate for Meeting {
    fn before(&self, player: usize, index: usize) {
        if index == 0 {
            if player == self.first {
                self.meet(&self.is_first_here, &self.is_second_here);
            } else if player == self.second {
                self.meet(&self.is_second_here, &self.is_first_here);
            }
        }
    }

    fn after(&self, _player: usize, _index: usize) {}
}

impl Waits for Meeting {
    fn is_missed(&self) -> bool {
        self.is_missed.load(Ordering::SeqCst)
    }
}

// One player waits, before its first step, until another's first step was answered.
#[derive(Drop)]
struct Answer {
    early: usize,
    late: usize,
    is_answered: AtomicBool,
    is_missed: AtomicBool,
}

impl Answer {
    fn new(early: usize, late: usize) -> Answer {
        Answer {
            early,
            late,
            is_answered: AtomicBool::new(false),
            is_missed: AtomicBool::new(false),
        }
    }
}

impl Gate for Answer {
    fn before(&self, player: usize, index: usize) {
        if index == 0 && player == self.late && !await_flag(&self.is_answered) {
            self.is_missed.store(true, Ordering::SeqCst);
        }
    }

    fn after(&self, player: usize, index: usize) {
        if index == 0 && player == self.early {
            self.is_answered.store(true, Ordering::SeqCst);
        }
    }
}

impl Waits for Answer {
    fn is_missed(&self) -> bool {
        self.is_missed.load(Ordering::SeqCst)
    }
}

// What a hand is to play: a set, and steps of the clock.
fn steps_of_one<R: Abort>(rt: &R, alloc: Global) -> Vec<Step<Global>> {
    let mut steps = Vec::new(alloc);
    steps.push(set(rt, alloc, "a")).expect(rt, "no memory");
    for now in 1..STEPS {
        steps.push(clock(now)).expect(rt, "no memory");
    }
    steps
}

// Each hand with its steps.
fn work_of<R: Abort>(rt: &R, alloc: Global, hands: Vec<Hand>) -> Vec<(Hand, Vec<Step<Global>>)> {
    let mut work = Vec::new(alloc);
    for hand in hands {
        let steps = steps_of_one(rt, alloc);
        work.push((hand, steps)).expect(rt, "no memory");
    }
    work
}

// The hands in the order they came, each of which played all its steps.
fn hands_of<R: Abort>(
    rt: &R,
    alloc: Global,
    done: Vec<(Hand, Result<(), RecordFault>)>,
) -> Vec<Hand> {
    let mut hands = Vec::new(alloc);
    for (hand, result) in done {
        result.expect(rt, "a refused step");
        hands.push(hand).expect(rt, "no memory");
    }
    hands
}

// Runs each hand on a thread.
fn run<R: Threads + Wait + Sync + Abort, G: Gate + Sync>(
    rt: &R,
    recorder: &Recorder,
    work: Vec<(Hand, Vec<Step<Global>>)>,
    gate: &G,
) -> Vec<(Hand, Result<(), RecordFault>)> {
    match run_actors(rt, recorder, work, gate) {
        Ok(done) => done,
        Err(_) => panic!(rt; "no memory"),
    }
}

// Records the steps of so many players side by side.
fn record_all<R: Threads + Wait + Sync + Abort, G: Gate + Sync>(
    rt: &R,
    alloc: Global,
    players: usize,
    gate: &G,
) -> Ending
    requires { (1 ≤ players) × (players ≤ 8) }
{
    let (recorder, hands) = open(rt, alloc, players, SEAL);
    let work = work_of(rt, alloc, hands);
    let done = run(rt, &recorder, work, gate);
    let hands = hands_of(rt, alloc, done);
    end(recorder, hands)
}

// How the recording of so many players ends.
fn all_played(players: usize) -> Ending
    requires { players ≤ 8 }
{
    Ending::Settled {
        rows: players * 3,
        nodes: players as u32 * 3,
    }
}

#[test]
fn no_hands(rt: HostRuntime) {
    let (recorder, hands) = open(&rt, rt.alloc(), 1, SEAL);
    let done = run(&rt, &recorder, Vec::new(rt.alloc()), &Open);
    assert!(rt; done.len() == 0);
    drop(done);
    assert_eq!(rt; end(recorder, hands), Ending::Settled { rows: 0, nodes: 0 });
}

#[test]
fn hands_of_each_number(rt: HostRuntime) {
    for players in 1..=8 {
        let ending = record_all(&rt, rt.alloc(), players, &Open);
        assert_eq!(rt; ending, all_played(players));
    }
}

// So many players record by a gate at which these two wait for one another, or one for the other.
fn try_gate<R: Threads + Wait + Sync + Abort, G: Waits + Sync>(
    rt: &R,
    alloc: Global,
    players: usize,
    pair: (usize, usize),
    gate: &G,
)
    requires { (1 ≤ players) × (players ≤ 8) }
{
    let (first, second) = pair;
    let ending = record_all(rt, alloc, players, gate);
    assert_eq!(rt; ending, all_played(players));
    assert!(rt; !gate.is_missed(), "{first} and {second} of {players}");
}

#[test]
fn gate_meet(rt: HostRuntime) {
    try_gate(&rt, rt.alloc(), 2, (0, 1), &Meeting::new(0, 1));
    for first in 0..7 {
        for second in first + 1..8 {
            let gate = Meeting::new(first, second);
            try_gate(&rt, rt.alloc(), 8, (first, second), &gate);
        }
    }
}

// The late one of so many players waits for the early one's answer.
#[test]
fn gate_answered(rt: HostRuntime) {
    try_gate(&rt, rt.alloc(), 2, (0, 1), &Answer::new(0, 1));
    try_gate(&rt, rt.alloc(), 2, (1, 0), &Answer::new(1, 0));
    for early in 0..8 {
        for late in 0..8 {
            if early != late {
                let gate = Answer::new(early, late);
                try_gate(&rt, rt.alloc(), 8, (early, late), &gate);
            }
        }
    }
}
