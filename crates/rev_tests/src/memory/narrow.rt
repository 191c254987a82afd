//! More buckets than a session began with, in a heap that they help to use up: a play ends as it would without them.

use crate::memory::fixed::played;
use crate::memory::heap::fill;
use crate::memory::parts::SMALL;
use crate::memory::steps::set_of;
use crate::owned::session_over;
use linked_list_allocator::LocalHeap;
use rev_classes::Config;
use rev_inverse::Store;
use rev_undotree::{PlayFault, Session};
use std::alloc::Global;
use std::process::Abort;

// Two to this power buckets are too few for the keys of these tests, and two to that power are enough.
const FEW: u32 = 4;

const ENOUGH: u32 = 10;

// A session of no key over so many buckets.
fn opened<'a, R: Abort>(rt: &R, heap: &'a LocalHeap, hash_power: u32) -> Session<&'a LocalHeap> {
    let config = Config {
        page_size: 16384,
        pages: 64,
        hash_power,
        ..SMALL
    };
    session_over(rt, heap, Store::open(heap, config).expect(rt, "no store"))
}

// Whether there is memory for a set of the key of this number.
fn has_played<'a, R: Abort>(
    rt: &R,
    heap: &'a LocalHeap,
    session: &mut Session<&'a LocalHeap>,
    key: usize,
) -> bool {
    match session.play(set_of(rt, heap, key)) {
        Ok(_) => true,
        Err((PlayFault::Memory, step)) => {
            drop(step);
            false
        }
        Err((fault, _)) => panic!(rt; "a play was refused: {fault}"),
    }
}

// Plays sets of the keys of the numbers below `keys`. The test fails where there is no memory for them.
fn play_sets<'a, R: Abort>(
    rt: &R,
    heap: &'a LocalHeap,
    session: &mut Session<&'a LocalHeap>,
    keys: usize,
) {
    for key in 0..keys {
        assert!(rt; has_played(rt, heap, session, key), "no memory for {key}");
    }
}

// Bytes of a heap in which the keys of a play that is tried take the lesser part.
const BYTES: usize = 131072;

// The fewest keys that are too many for 16 buckets.
const CROWD: usize = 33;

// Whether one more key is set with so many bytes left.
fn is_set_with<R: Abort>(rt: &R, alloc: Global, hash_power: u32, left: usize) -> bool {
    let heap = LocalHeap::new(alloc, BYTES).expect(rt, "no memory");
    let mut session = opened(rt, &heap, hash_power);
    play_sets(rt, &heap, &mut session, CROWD);
    let step = set_of(rt, &heap, CROWD);
    let ballast = fill(rt, alloc, &heap, left);
    let is_set = match session.play(step) {
        Ok(_) => true,
        Err(refused) => {
            drop(refused);
            false
        }
    };
    drop(ballast);
    drop(session);
    is_set
}

// More units of 16 bytes than the play and a growth at 33 keys, of 64 buckets of 16 bytes each, want together.
const UNITS: usize = 512;

// How many bytes the play wants where buckets do not grow.
fn wanted<R: Abort>(rt: &R, alloc: Global) -> usize {
    for units in 0..UNITS {
        let left = 16 * units;
        if is_set_with(rt, alloc, ENOUGH, left) {
            return left;
        }
    }
    panic!(rt; "there was never enough memory")
}

// A growth that is granted takes what the play wants, and gives it back.
#[test]
fn growth_refuses_no_play(rt: HostRuntime) {
    let wanted = wanted(&rt, rt.alloc());
    assert!(rt; 0 < wanted && wanted < 4096, "{wanted} bytes");
    for units in 0..UNITS {
        let left = 16 * units;
        let is_set = is_set_with(&rt, rt.alloc(), FEW, left);
        assert!(rt;
            is_set == (wanted <= left),
            "{left} bytes left, {wanted} wanted"
        );
    }
}

// More steps than a heap of these tests has memory for.
const MANY: u32 = 100000;

// How many steps that take little are played behind the sets with so many bytes left, up to the first that is refused.
fn steps_with<R: Abort>(rt: &R, alloc: Global, hash_power: u32, left: usize) -> u32 {
    let heap = LocalHeap::new(alloc, BYTES).expect(rt, "no memory");
    let mut session = opened(rt, &heap, hash_power);
    play_sets(rt, &heap, &mut session, CROWD);
    let ballast = fill(rt, alloc, &heap, left);
    let steps = played(rt, &mut session, MANY);
    drop(ballast);
    drop(session);
    steps
}

// A session that fills its heap gets as far with a growth at its first step as without.
#[test]
fn growth_costs_no_step(rt: HostRuntime) {
    for left in [160, 960, 1120, 1280, 2240, 4480, 8960, 15840] {
        let few = steps_with(&rt, rt.alloc(), FEW, left);
        let enough = steps_with(&rt, rt.alloc(), ENOUGH, left);
        assert!(rt;
            0 < few && few == enough,
            "{left} bytes left: {few} and {enough} steps"
        );
    }
}
