//! Calls of one hand.
use crate::storing::store_of;
use rev_items::Key;
use rev_recorder::{Call, Hand, Receipt, RecordFault, Recorder};
use rev_requests::{ActorStep, ClientStep, KeyCommand, Payload, Step, StoreVerb};
use rev_undotree::NodeId;
use std::alloc::Global;
use std::process::Abort;
use std::sync::Wait;

/// A step of the clock.
pub fn clock(now: u32) -> Step<Global> {
    Step::Actor(ActorStep::Clock(now))
}

/// A set of one byte.
pub fn set<R: Abort>(rt: &R, alloc: Global, name: &str) -> Step<Global> {
    let key = Key::new(alloc, name.as_bytes()).expect(rt, "no key");
    let mut data = Vec::new(alloc);
    data.push(b'x').expect(rt, "no memory");
    let data = Payload::from_vec(data).expect(rt, "no memory");
    store_of(StoreVerb::Set, key, data)
}

/// A command on a key that brings no data.
pub fn keyed<R: Abort>(rt: &R, alloc: Global, command: KeyCommand, name: &str) -> Step<Global> {
    let key = Key::new(alloc, name.as_bytes()).expect(rt, "no key");
    Step::Client(ClientStep::Keyed { command, key })
}

/// Plays a step. A step that was not played is dropped.
pub fn play<R: Wait>(
    rt: &R,
    recorder: &Recorder,
    hand: &mut Hand,
    step: Step<Global>,
) -> Result<Receipt, RecordFault> {
    match recorder.play(rt, hand, step) {
        Ok(receipt) => Ok(receipt),
        Err((fault, step)) => {
            drop(step);
            Err(fault)
        }
    }
}

/// Plays a set of one byte.
pub fn play_set<R: Wait + Abort>(
    rt: &R,
    alloc: Global,
    recorder: &Recorder,
    hand: &mut Hand,
    name: &str,
) {
    let step = set(rt, alloc, name);
    play(rt, recorder, hand, step).expect(rt, "a refused set");
}

/// Plays so many steps of the clock.
pub fn play_clocks<R: Wait + Abort>(rt: &R, recorder: &Recorder, hand: &mut Hand, count: u32) {
    for _ in 0..count {
        play(rt, recorder, hand, clock(1)).expect(rt, "a refused clock");
    }
}

/// Goes to the root.
pub fn go_to_root<R: Wait + Abort>(rt: &R, recorder: &Recorder, hand: &mut Hand) {
    recorder.go(rt, hand, ROOT).expect(rt, "a refused go");
}

/// The last call that the hand was told of, and how many there were.
pub fn last_call(hand: &Hand) -> (usize, Option<Call>) {
    let entries = hand.entries();
    (
        entries.len(),
        entries.last().map(|entry| entry.receipt.call),
    )
}

/// The root of each session.
pub const ROOT: NodeId = NodeId(0);
