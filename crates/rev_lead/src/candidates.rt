//! Which keys a server may have let go without a line.
use indexmap::IndexMap;
use rev_items::Key;
use rev_log::held_key::{HeldKey, SoughtKey};
use std::alloc::{AllocError, Allocator};
use std::hash::{BuildHasherDefault, FoldHasher};

/// Classes are numbered below it.
pub const CLASSES: usize = 64;

/// How many keys of a class are kept.
const MOST_HITS: usize = 4096;

type Set<A> = IndexMap<HeldKey<A>, (), BuildHasherDefault<FoldHasher>, A>;

/// Of each class the keys that were hit since the class's last eviction, and of which the log shows no later hit. A
/// delete logs a hit, too, so each of them may have been deleted by it.
#[derive(Drop)]
pub struct Candidates<A: Allocator> {
    alloc: A,
    hits: Vec<Set<A>, A>,
}

impl<A: Allocator + Copy> Candidates<A> {
    /// No keys. Err: memory was refused.
    pub fn new(alloc: A) -> Result<Candidates<A>, AllocError> {
        let mut hits = Vec::with_capacity(alloc, CLASSES)?;
        for _ in 0..CLASSES {
            hits.push(IndexMap::new(alloc))?;
        }
        Ok(Candidates { alloc, hits })
    }

    /// The key of an item of this class was hit. The one that was noted first goes where there are too many.
    pub fn note(&mut self, class: usize, key: &Key<A>) -> Result<(), AllocError> {
        let Some(hits) = self.hits.get_mut(class) else {
            return Ok(());
        };
        if hits.len() >= MOST_HITS {
            hits.swap_remove_index(0);
        }
        hits.insert(HeldKey::copy_of(self.alloc, key)?, ())?;
        Ok(())
    }

    /// Whether the key is one of the class's.
    pub fn has(&self, class: usize, key: &Key<A>) -> bool {
        match self.hits.get(class) {
            Some(hits) => hits.get_index_of(SoughtKey { key }).is_some(),
            None => false,
        }
    }

    /// How many keys of the class there are.
    pub fn len(&self, class: usize) -> usize {
        match self.hits.get(class) {
            Some(hits) => hits.len(),
            None => 0,
        }
    }

    /// The key at this place, from 0.
    pub fn at(&self, class: usize, place: usize) -> Option<&Key<A>> {
        let (held, _) = self.hits.get(class)?.get_index(place)?;
        Some(held.key())
    }

    /// The key may no longer have been deleted.
    pub fn forget(&mut self, class: usize, key: &Key<A>) {
        if let Some(hits) = self.hits.get_mut(class) {
            hits.swap_remove(SoughtKey { key });
        }
    }

    /// The class evicted an item: no other was let go before.
    pub fn clear(&mut self, class: usize) {
        if let Some(hits) = self.hits.get_mut(class) {
            hits.clear();
        }
    }
}
