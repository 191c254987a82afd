//! Two hands that call in every order: each plays three sets, and one of them goes to the root in between.
use crate::recorder::hands::{go_to_root, play_set};
use crate::recorder::openings::{Ending, SEAL, end, end_early, open};
use rev_recorder::{Hand, Recorder};
use std::alloc::Global;
use std::process::Abort;
use std::sync::Wait;

// Calls of both hands together.
const CALLS: u32 = 7;

// In which order the two hands call.
#[derive(Clone, Copy)]
struct Order {
    // Bit by bit from the lowest: whether the second hand calls.
    second: u32,
    // Which of its four calls the first hand goes to the root with.
    go: u32,
}

// Each order in which the second hand calls three times.
fn orders<R: Abort>(rt: &R, alloc: Global) -> Vec<Order> {
    let mut orders = Vec::new(alloc);
    for second in 0..1u32 << CALLS {
        if second.count_ones() == 3 {
            for go in 0..4 {
                orders.push(Order { second, go }).expect(rt, "no memory");
            }
        }
    }
    orders
}

impl Order {
    // Whether the second hand makes this call.
    fn is_second(self, call: u32) -> bool {
        self.second.wrapping_shr(call) % 2 == 1
    }
}

// Makes the call of the order.
fn make_call<R: Wait + Abort>(
    rt: &R,
    alloc: Global,
    recorder: &Recorder,
    hand: &mut Hand,
    is_go: bool,
) {
    if is_go {
        go_to_root(rt, recorder, hand);
    } else {
        play_set(rt, alloc, recorder, hand, "a");
    }
}

// Makes the calls of the order.
fn make_calls<R: Wait + Abort>(
    rt: &R,
    alloc: Global,
    recorder: &Recorder,
    hands: &mut [Hand],
    order: Order,
) {
    let [first, second] = hands else {
        panic!(rt; "not two hands");
    };
    let mut firsts = 0u32;
    for call in 0..CALLS {
        if order.is_second(call) {
            make_call(rt, alloc, recorder, second, false);
        } else {
            make_call(rt, alloc, recorder, first, firsts == order.go);
            firsts = firsts.wrapping_add(1);
        }
    }
}

// Ends the recording with one of the two hands kept back, and then with both, in this or the other order.
fn end_twice<R: Abort>(
    rt: &R,
    recorder: Recorder,
    mut hands: Vec<Hand>,
    is_turned: bool,
) -> Ending {
    let kept = hands.pop().expect(rt, "no hand");
    let (recorder, mut hands) = end_early(rt, recorder, hands);
    hands.push(kept).expect(rt, "no memory");
    if is_turned {
        hands.reverse();
    }
    end(recorder, hands)
}

fn record_order<R: Wait + Abort>(rt: &R, alloc: Global, order: Order) -> Ending {
    let (recorder, mut hands) = open(rt, alloc, 2, SEAL);
    make_calls(rt, alloc, &recorder, hands.as_mut_slice(), order);
    end_twice(rt, recorder, hands, order.go % 2 == 0)
}

#[test]
fn every_order(rt: HostRuntime) {
    for order in orders(&rt, rt.alloc()) {
        let ending = record_order(&rt, rt.alloc(), order);
        let (second, go) = (order.second, order.go);
        assert_eq!(rt;
            ending,
            Ending::Settled { rows: 7, nodes: 6 },
            "{second} {go}"
        );
    }
}
