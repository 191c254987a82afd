//! How long keys of each class waited, counted by the number of seconds.
use indexmap::IndexMap;
use std::alloc::{AllocError, Allocator};
use std::hash::{BuildHasherDefault, FoldHasher};

/// So many keys with a number of seconds.
#[derive(Clone, Copy)]
struct Wait {
    seconds: u32,
    keys: u64,
}

/// How many keys of each class waited for each number of seconds. Memory grows with the different numbers of seconds of
/// a class, and not with the keys.
#[derive(Drop)]
pub struct Waits<A: Allocator> {
    alloc: A,
    // by a class's number and the seconds behind it
    keys: IndexMap<u64, u64, BuildHasherDefault<FoldHasher>, A>,
}

// The number of a class with seconds behind it.
fn place_of(class: u8, seconds: u32) -> u64 {
    u64::from(class) * (1 << 32) + u64::from(seconds)
}

// The class and the seconds of such a number.
fn parts_of(place: u64) -> (u64, u32) {
    (place >> 32, (place % (1 << 32)) as u32)
}

// The seconds of the key in the middle of their order, the higher of two.
fn middle(waits: &[Wait], keys: u64) -> Option<u32> {
    let mut passed = 0u64;
    for wait in waits {
        passed = passed.saturating_add(wait.keys);
        if passed > keys / 2 {
            return Some(wait.seconds);
        }
    }
    None
}

impl<A: Allocator + Copy> Waits<A> {
    /// No key waited.
    pub fn new(alloc: A) -> Waits<A> {
        Waits {
            alloc,
            keys: IndexMap::new(alloc),
        }
    }

    /// Counts a key of a class that waited so long.
    ///
    /// Err: a growth was refused.
    pub fn add(&mut self, class: u8, seconds: u32) -> Result<(), AllocError> {
        let place = place_of(class, seconds);
        let keys = self.keys.get(&place).copied().unwrap_or(0);
        self.keys.insert(place, keys.saturating_add(1))?;
        Ok(())
    }

    /// The median of the seconds of a class's keys, the higher of two in the middle; none where no key waited.
    ///
    /// Err: a growth was refused.
    pub fn median(&self, class: u8) -> Result<Option<u32>, AllocError> {
        let mut waits = Vec::new(self.alloc);
        let mut all = 0u64;
        for (place, keys) in self.keys.iter() {
            let (of, seconds) = parts_of(*place);
            if of == u64::from(class) {
                all = all.saturating_add(*keys);
                waits.push(Wait {
                    seconds,
                    keys: *keys,
                })?;
            }
        }
        waits.sort_by_key(|wait| wait.seconds)?;
        Ok(middle(&waits, all))
    }
}
