//! When keys were stored last.
//!
//! Stores are kept of a part of the keys alone, by their hash, so that at most `MOST_STORES` are. What is kept is in no
//! contract: it is tested.
use indexmap::IndexMap;
use rev_inverse::Store;
use rev_items::Key;
use rev_log::held_key::{HeldKey, SoughtKey};
use rev_watch::event::Timestamp;
use std::alloc::{AllocError, Allocator};
use std::hash::{BuildHasherDefault, FoldHasher};

/// Up to so many stores are kept (this project's own figure).
const MOST_STORES: usize = 65536;

/// When keys were stored last.
#[derive(Drop)]
pub struct Births<A: Allocator> {
    alloc: A,
    // of the keys whose hash has no bit of the mask
    stores: IndexMap<HeldKey<A>, Timestamp, BuildHasherDefault<FoldHasher>, A>,
    mask: u32,
}

impl<A: Allocator + Copy> Births<A> {
    /// Nothing was stored.
    pub fn new(alloc: A) -> Births<A> {
        Births {
            alloc,
            stores: IndexMap::new(alloc),
            mask: 0,
        }
    }

    /// The server was started anew: it holds no key.
    pub fn clear(&mut self) {
        self.stores.clear();
        self.mask = 0;
    }

    // Whether the store at a place is to be kept: its key is held, and it is of those whose hash passes.
    fn is_kept(&self, place: usize, store: &Store<A>) -> bool {
        match self.stores.get_index(place) {
            Some((held, _)) => {
                held.key().hash() & self.mask == 0 && store.find(held.key()).is_some()
            }
            None => true,
        }
    }

    // Lets go of the stores that are not to be kept.
    fn sweep(&mut self, store: &Store<A>) {
        for place in (0..self.stores.len()).rev() {
            if !self.is_kept(place, store) {
                self.stores.swap_remove_index(place);
            }
        }
    }

    // Makes room for one more store: first keys that are not held any more go, and then half of those that are.
    fn make_room(&mut self, store: &Store<A>) {
        if self.stores.len() < MOST_STORES {
            return;
        }
        self.sweep(store);
        if self.stores.len() >= MOST_STORES / 2 {
            self.mask = self.mask << 1 | 1;
            self.sweep(store);
        }
    }

    /// A key was stored. The replay's store tells which keys are held.
    ///
    /// Err: memory was refused.
    pub fn stored(
        &mut self,
        key: &Key<A>,
        time: Timestamp,
        store: &Store<A>,
    ) -> Result<(), AllocError> {
        if key.hash() & self.mask != 0 {
            return Ok(());
        }
        self.make_room(store);
        match self.stores.get_mut(SoughtKey { key }) {
            Some(last) => *last = time,
            None => {
                let held = HeldKey::copy_of(self.alloc, key)?;
                self.stores.insert(held, time)?;
            }
        }
        Ok(())
    }

    /// When a key was stored that is held no more, where that is known.
    pub fn take(&mut self, key: &Key<A>) -> Option<Timestamp> {
        self.stores.swap_remove(SoughtKey { key })
    }
}
