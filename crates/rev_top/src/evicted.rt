//! The keys that were evicted and not yet asked for again.
//!
//! They are remembered by a hash of 64 bits, up to `MOST_KEYS`: in two halves, of which the older one goes when there
//! is no room. What is remembered is in no contract: it is tested.
use indexmap::IndexMap;
use std::alloc::{AllocError, Allocator};
use std::hash::{BuildHasherDefault, FoldHasher, Hasher};
use std::mem;

/// Up to so many keys are remembered (this project's own figure).
const MOST_KEYS: usize = 1048576;

// The class from which each key was evicted, by the key's hash.
type Half<A> = IndexMap<u64, u32, BuildHasherDefault<FoldHasher>, A>;

/// The keys that were evicted and not yet asked for again.
#[derive(Drop)]
pub struct Evicted<A: Allocator> {
    alloc: A,
    newer: Half<A>,
    older: Half<A>,
}

// The hash of a key.
fn hash_of(key: &[u8]) -> u64 {
    let mut hasher = FoldHasher::default();
    hasher.write(key);
    hasher.finish()
}

impl<A: Allocator + Copy> Evicted<A> {
    /// Nothing was evicted.
    pub fn new(alloc: A) -> Evicted<A> {
        Evicted {
            alloc,
            newer: IndexMap::new(alloc),
            older: IndexMap::new(alloc),
        }
    }

    /// The server was started anew: it holds no key.
    pub fn clear(&mut self) {
        self.newer.clear();
        self.older.clear();
    }

    /// A key was evicted from a class.
    ///
    /// Err: memory was refused.
    pub fn evict(&mut self, key: &[u8], class: u32) -> Result<(), AllocError> {
        if self.newer.len() >= MOST_KEYS / 2 {
            self.older = mem::replace(&mut self.newer, IndexMap::new(self.alloc));
        }
        let hash = hash_of(key);
        self.older.swap_remove(&hash);
        self.newer.insert(hash, class)?;
        Ok(())
    }

    /// A key was asked for, or stored: it is forgotten. The class from which it was evicted, where it was.
    pub fn forget(&mut self, key: &[u8]) -> Option<u32> {
        let hash = hash_of(key);
        match self.newer.swap_remove(&hash) {
            Some(class) => Some(class),
            None => self.older.swap_remove(&hash),
        }
    }
}
