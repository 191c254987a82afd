//! Eight hands that call at once: seven play, and one goes to the root amid them.
use crate::recorder::hands::{go_to_root, play_clocks};
use crate::recorder::openings::{Ending, SEAL, end, open};
use rev_recorder::{Hand, Recorder};
use std::process::Abort;
use std::sync::Wait;
use std::thread;
use std::thread::Threads;

// Hands of the recorder.
const PLAYERS: usize = 8;

// Calls of each hand.
const CALLS: u32 = 100;

// Makes the calls of a hand: the third goes to the root with each, the others play.
fn make_calls<R: Wait + Abort>(rt: &R, recorder: &Recorder, hand: &mut Hand) {
    if hand.player() == 2 {
        for _ in 0..CALLS {
            go_to_root(rt, recorder, hand);
        }
    } else {
        play_clocks(rt, recorder, hand, CALLS);
    }
}

// Lets all hands call at once.
fn call_at_once<R: Threads + Wait + Sync + Abort>(rt: &R, recorder: &Recorder, hands: &mut [Hand]) {
    thread::for_each_mut(
        rt,
        hands,
        PLAYERS,
        &|_, hand| { make_calls(rt, recorder, hand) },
    );
}

#[test]
fn go_amid(rt: HostRuntime) {
    let (recorder, mut hands) = open(&rt, rt.alloc(), PLAYERS, SEAL);
    call_at_once(&rt, &recorder, hands.as_mut_slice());
    let ending = end(recorder, hands);
    assert_eq!(rt;
        ending,
        Ending::Settled {
            rows: 800,
            nodes: 700
        }
    );
}
