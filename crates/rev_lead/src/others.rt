//! Which keys may have been let go in the place of one that was picked.
use indexmap::IndexMap;
use rev_items::Key;
use rev_log::held_key::{HeldKey, SoughtKey};
use std::alloc::{AllocError, Allocator};
use std::hash::{BuildHasherDefault, FoldHasher};

/// Of how many picked keys the others are kept.
const MOST_PICKED: usize = 1024;

/// Of keys that were picked, those that may have been let go in their place.
#[derive(Drop)]
pub struct Others<A: Allocator> {
    alloc: A,
    picked: IndexMap<HeldKey<A>, Vec<Key<A>, A>, BuildHasherDefault<FoldHasher>, A>,
}

impl<A: Allocator + Copy> Others<A> {
    /// None. No memory is taken.
    pub fn new(alloc: A) -> Others<A> {
        Others {
            alloc,
            picked: IndexMap::new(alloc),
        }
    }

    /// The key was picked, and these were not. Where many were picked, one of them is forgotten.
    pub fn keep(&mut self, key: &Key<A>, others: Vec<Key<A>, A>) -> Result<(), AllocError> {
        if others.is_empty() {
            return Ok(());
        }
        if self.picked.len() >= MOST_PICKED {
            self.picked.swap_remove_index(0);
        }
        self.picked
            .insert(HeldKey::copy_of(self.alloc, key)?, others)?;
        Ok(())
    }

    /// Those that were not picked when this key was.
    pub fn take(&mut self, key: &Key<A>) -> Option<Vec<Key<A>, A>> {
        self.picked.swap_remove(SoughtKey { key })
    }
}
