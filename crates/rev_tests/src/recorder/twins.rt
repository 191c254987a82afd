//! Two recorders that were given one seal, which their caller is to prevent: a hand of the one among those of the other
//! is told from the log, and a place is named where it differs.
use crate::recorder::hands::{clock, keyed, play, set};
use crate::recorder::openings::{Ending, SEAL, end, open};
use rev_recorder::{Hand, Recorder};
use rev_requests::KeyCommand;
use rev_undotree::NodeId;
use std::alloc::Global;
use std::process::Abort;
use std::sync::Wait;

// A call of a hand.
#[derive(Clone, Copy)]
enum Ask {
    Clock(u32),
    Set(&'static str),
    Get(&'static str),
    Go(u32),
}

// What the two hands of a recorder call, the first hand first.
struct Calls(&'static [Ask], &'static [Ask]);

struct Case {
    name: &'static str,
    own: Calls,
    // The calls of the twin, whose second hand comes to be settled in the place of the recorder's own.
    foreign: Calls,
    // Where that hand and the log differ.
    place: usize,
}

static CASES: [Case; 11] = [
    Case {
        name: "a call more",
        own: Calls(&[], &[Ask::Clock(1)]),
        foreign: Calls(&[], &[Ask::Clock(1), Ask::Clock(2)]),
        place: 1,
    },
    Case {
        name: "a call less",
        own: Calls(&[], &[Ask::Clock(1), Ask::Clock(2)]),
        foreign: Calls(&[], &[Ask::Clock(1)]),
        place: 1,
    },
    Case {
        name: "no call",
        own: Calls(&[Ask::Clock(1)], &[Ask::Clock(2)]),
        foreign: Calls(&[], &[]),
        place: 1,
    },
    Case {
        name: "no row",
        own: Calls(&[], &[]),
        foreign: Calls(&[], &[Ask::Clock(1)]),
        place: 0,
    },
    Case {
        name: "the other hand's row",
        own: Calls(&[Ask::Clock(1)], &[]),
        foreign: Calls(&[], &[Ask::Clock(1)]),
        place: 0,
    },
    Case {
        name: "an earlier call",
        own: Calls(
            &[Ask::Clock(1), Ask::Clock(1), Ask::Clock(1)],
            &[Ask::Clock(1)],
        ),
        foreign: Calls(
            &[Ask::Clock(1), Ask::Clock(1)],
            &[Ask::Clock(1), Ask::Clock(1)],
        ),
        place: 2,
    },
    Case {
        name: "a later call",
        own: Calls(
            &[Ask::Clock(1), Ask::Clock(1)],
            &[Ask::Clock(1), Ask::Clock(1)],
        ),
        foreign: Calls(
            &[Ask::Clock(1), Ask::Clock(1), Ask::Clock(1)],
            &[Ask::Clock(1)],
        ),
        place: 2,
    },
    Case {
        name: "another step",
        own: Calls(&[], &[Ask::Set("a"), Ask::Set("b")]),
        foreign: Calls(&[], &[Ask::Set("a"), Ask::Set("c")]),
        place: 1,
    },
    Case {
        name: "another outcome",
        own: Calls(&[Ask::Set("a")], &[Ask::Clock(1), Ask::Get("a")]),
        foreign: Calls(&[Ask::Clock(1)], &[Ask::Clock(1), Ask::Get("a")]),
        place: 2,
    },
    Case {
        name: "another node",
        own: Calls(&[Ask::Clock(1)], &[Ask::Clock(1), Ask::Go(1)]),
        foreign: Calls(&[Ask::Clock(1)], &[Ask::Clock(1), Ask::Go(2)]),
        place: 2,
    },
    Case {
        name: "a refusal",
        own: Calls(&[], &[Ask::Go(0)]),
        foreign: Calls(&[], &[Ask::Go(9)]),
        place: 0,
    },
];

// Makes the call, and tells whether it was accepted: a refusal is an answer, too.
fn call<R: Wait + Abort>(
    rt: &R,
    alloc: Global,
    recorder: &Recorder,
    hand: &mut Hand,
    ask: Ask,
) -> bool {
    let step = match ask {
        Ask::Clock(now) => clock(now),
        Ask::Set(name) => set(rt, alloc, name),
        Ask::Get(name) => keyed(rt, alloc, KeyCommand::Get, name),
        Ask::Go(node) => return recorder.go(rt, hand, NodeId(node)).is_ok(),
    };
    play(rt, recorder, hand, step).is_ok()
}

// Makes the calls of a hand.
fn call_all<R: Wait + Abort>(
    rt: &R,
    alloc: Global,
    recorder: &Recorder,
    hand: &mut Hand,
    asks: &[Ask],
) {
    for ask in asks {
        call(rt, alloc, recorder, hand, *ask);
    }
}

// Makes the calls of both hands.
fn call_both<R: Wait + Abort>(
    rt: &R,
    alloc: Global,
    recorder: &Recorder,
    hands: &mut [Hand],
    calls: &Calls,
) {
    let [first, second] = hands else {
        panic!(rt; "not two hands");
    };
    call_all(rt, alloc, recorder, first, calls.0);
    call_all(rt, alloc, recorder, second, calls.1);
}

// The second hand of a recorder whose hands made these calls.
fn foreign_hand<R: Wait + Abort>(rt: &R, alloc: Global, calls: &Calls) -> Hand {
    let (twin, mut hands) = open(rt, alloc, 2, SEAL);
    call_both(rt, alloc, &twin, hands.as_mut_slice(), calls);
    let hand = hands.pop().expect(rt, "no hand");
    drop(hands);
    drop(twin);
    hand
}

// Ends the case's recording with the foreign hand, and with the second hand of its own where that one is kept.
fn end_case<R: Wait + Abort>(rt: &R, alloc: Global, case: &Case, is_kept: bool) -> Ending {
    let foreign = foreign_hand(rt, alloc, &case.foreign);
    let (recorder, mut hands) = open(rt, alloc, 2, SEAL);
    call_both(rt, alloc, &recorder, hands.as_mut_slice(), &case.own);
    if !is_kept {
        drop(hands.pop());
    }
    hands.push(foreign).expect(rt, "no memory");
    end(recorder, hands)
}

#[test]
fn foreign_hands(rt: HostRuntime) {
    for case in &CASES {
        let ending = end_case(&rt, rt.alloc(), case, false);
        let name = case.name;
        let wanted = Ending::Differs {
            player: 1,
            place: case.place,
        };
        assert_eq!(rt; ending, wanted, "{name}");
    }
}

// A hand and its twin that made the same calls.
static SAME: Case = Case {
    name: "the same calls",
    own: Calls(&[Ask::Clock(1)], &[Ask::Set("a"), Ask::Get("a")]),
    foreign: Calls(&[Ask::Clock(1)], &[Ask::Set("a"), Ask::Get("a")]),
    place: 1,
};

#[test]
fn hand_twice(rt: HostRuntime) {
    let ending = end_case(&rt, rt.alloc(), &SAME, true);
    let wanted = Ending::Differs {
        player: 1,
        place: SAME.place,
    };
    assert_eq!(rt; ending, wanted);
    let ending = end_case(&rt, rt.alloc(), &SAME, false);
    assert_eq!(rt; ending, Ending::Settled { rows: 3, nodes: 3 });
}
