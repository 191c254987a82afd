//! A heap of which only so many bytes are left, and what is tried on it.
use linked_list_allocator::LocalHeap;
use std::alloc::Global;
use std::process::Abort;

// The heap hands out multiples of so many bytes.
const UNIT: usize = 16;

// Bytes of a heap in which each call of these tests succeeds.
const BYTES: usize = 65536;

/// Blocks that a heap was filled with.
pub type Ballast<'a> = Vec<Vec<u8, &'a LocalHeap>>;

// Holes of a heap that are filled before the filling is given up.
const MOST_HOLES: usize = 100000;

/// Fills a heap but for one hole of `left` bytes. The test fails where it has no such hole.
pub fn fill<'a, R: Abort>(rt: &R, alloc: Global, heap: &'a LocalHeap, left: usize) -> Ballast<'a> {
    let hole: Vec<u8, &LocalHeap> = Vec::with_capacity(heap, left).expect(rt, "no such hole");
    let mut ballast = Vec::new(alloc);
    let mut bytes = heap.free();
    for _ in 0..MOST_HOLES {
        if bytes == 0 {
            break;
        }
        match Vec::with_capacity(heap, bytes) {
            Ok(block) => ballast.push(block).expect(rt, "no memory"),
            Err(_) => bytes /= 2,
        }
    }
    drop(hole);
    ballast
}

/// What is tried on a heap of which fewer bytes are left than it may want.
pub trait Trial {
    /// Tries it on a heap of its own with so many bytes left, looks at what it leaves, and tells whether there was
    /// memory for it.
    fn attempt<R: Abort>(&self, rt: &R, alloc: Global, heap: &LocalHeap, left: usize) -> bool;
}

fn attempt_anew<R: Abort, T: Trial>(rt: &R, alloc: Global, trial: &T, left: usize) -> bool {
    let heap = LocalHeap::new(alloc, BYTES).expect(rt, "no memory");
    trial.attempt(rt, alloc, &heap, left)
}

/// Tries what has this name with no byte left, and then with more and more, up to where there is memory for it. Some
/// attempt must have been refused.
pub fn refuse_in_turn<R: Abort, T: Trial>(rt: &R, alloc: Global, name: &str, trial: &T) {
    for units in 0..BYTES / UNIT {
        if attempt_anew(rt, alloc, trial, units * UNIT) {
            assert!(rt; units > 0, "{name}");
            return;
        }
    }
    panic!(rt; "{name}: there was never enough memory")
}

/// Tries what has this name with no byte left: it wants none.
pub fn want_nothing<R: Abort, T: Trial>(rt: &R, alloc: Global, name: &str, trial: &T) {
    assert!(rt; attempt_anew(rt, alloc, trial, 0), "{name}");
}
