//! Look-ups of the nodes that mention a key, beside a plain scan of all that was played.
use crate::classes::DEFAULTS;
use crate::owned::session_over;
use crate::storing::store_of;
use rev_inverse::Store;
use rev_items::Key;
use rev_steps::{Payload, StoreVerb};
use rev_undotree::Session;
use std::alloc::Global;
use std::process::Abort;

// The first three keys have hashes that end with the same twelve bits, so they share a bucket; the last is never set.
const NAMES: [&str; 6] = ["k0", "k350", "k5986", "k1", "k2", "k3"];

/// How many sets an order has, at one in how many depths keys are looked up, and how many such depths there are. The
/// sets' nodes are numbered from 1 on, and lie one below another.
#[derive(Clone, Copy)]
struct Extent {
    sets: usize,
    step: usize,
    depths: usize,
}

const USUAL: Extent = Extent {
    sets: 2401,
    step: 7,
    depths: 344,
};

// Fifty far mentions, so that a look-up passes some that are loose and some that are roots.
const LONG: Extent = Extent {
    sets: 55_000,
    step: 499,
    depths: 111,
};

/// Which key is set at a node.
#[derive(Clone, Copy)]
enum Order {
    /// The first one.
    Hot,
    /// Three of one bucket in turn.
    Turns,
    /// Three of one bucket, each many times one after another.
    Phases,
    /// One, and now and then one of the others.
    Strewn,
    /// Pairs of one, two times at once, and then long nothing of it.
    Pairs,
    /// One that is 1023 and then 1024 nodes back, and one that is 1025 back: just near, and just far.
    Apart,
    /// One that is seldom set, and in the end at each node.
    FarThenNear,
    /// Two that are seldom set, from first to last.
    Far,
}

const ORDERS: [Order; 8] = [
    Order::Hot,
    Order::Turns,
    Order::Phases,
    Order::Strewn,
    Order::Pairs,
    Order::Apart,
    Order::FarThenNear,
    Order::Far,
];

fn extent_of(order: Order) -> Extent {
    match order {
        Order::Far => LONG,
        _ => USUAL,
    }
}

fn set_at(order: Order, node: usize) -> usize {
    match order {
        Order::Hot => 0,
        Order::Turns => node % 3,
        Order::Phases => node / 90 % 3,
        Order::Strewn => { if node % 37 == 0 { node / 37 % 5 } else { 0 } }
        Order::Pairs => { if node % 1100 < 2 { 0 } else { 3 + node % 2 } }
        Order::Apart => match node {
            1 | 1024 | 2048 => 0,
            2 | 1027 => 3,
            _ => 4,
        },
        Order::FarThenNear => {
            if node % 1100 == 0 || node > 2200 {
                0
            } else {
                3 + node % 2
            }
        }
        Order::Far => {
            if node % 1100 == 0 {
                node / 1100 % 5 / 4
            } else {
                3 + node % 2
            }
        }
    }
}

fn key_of<R: Abort>(rt: &R, alloc: Global, place: usize) -> Key<Global> {
    let name = NAMES.get(place).expect(rt, "no such key");
    Key::new(alloc, name.as_bytes()).expect(rt, "no key")
}

fn set<R: Abort>(rt: &R, session: &mut Session<Global>, alloc: Global, place: usize) {
    let data = Payload::from_vec(Vec::new(alloc)).expect(rt, "no memory");
    let step = store_of(StoreVerb::Set, key_of(rt, alloc, place), data);
    match session.play(step) {
        Ok(_) => (),
        Err(_) => panic!(rt; "a set was refused"),
    }
}

// The last node up to `depth` at which the key was set, or 0.
fn last_set(order: Order, place: usize, depth: usize) -> usize {
    (1..depth.saturating_add(1))
        .rev()
        .find(|node| set_at(order, *node) == place)
        .unwrap_or(0)
}

// Each key is looked up at depths up to the last.
fn look_up<R: Abort>(rt: &R, session: &Session<Global>, alloc: Global, order: Order) {
    let extent = extent_of(order);
    for place in 0..NAMES.len() {
        let key = key_of(rt, alloc, place);
        for round in 0..extent.depths {
            let depth = round.saturating_mul(extent.step);
            let found = session.last_mention(&key, depth);
            let wanted = last_set(order, place, depth);
            assert!(rt;
                found == wanted,
                "key {place} up to {depth}: {found} for {wanted}"
            );
        }
    }
}

#[test]
fn mentions_are_found(rt: HostRuntime) {
    let alloc = rt.alloc();
    for order in ORDERS {
        let store = Store::open(alloc, DEFAULTS).expect(&rt, "no store");
        let mut session = session_over(&rt, alloc, store);
        for node in 1..extent_of(order).sets.saturating_add(1) {
            set(&rt, &mut session, alloc, set_at(order, node));
        }
        look_up(&rt, &session, alloc, order);
        drop(session);
    }
}
