//! How long evicted items of a class had lived: the median of the last ones whose store the log shows, now and at each
//! minute of the last hour.
//!
//! Stores are kept of a part of the keys alone, by their hash, so that at most `MOST_STORES` are. What the medians are
//! is in no contract: they are tested.
use crate::pushed::Earlier;
use crate::times::between;
use indexmap::IndexMap;
use rev_inverse::Store;
use rev_items::Key;
use rev_log::held_key::{HeldKey, SoughtKey};
use rev_watch::event::Timestamp;
use std::alloc::{AllocError, Allocator};
use std::hash::{BuildHasherDefault, FoldHasher};

/// Up to so many stores are kept (this project's own figure).
const MOST_STORES: usize = 4096;

/// The median is that of so many evicted items, the last ones (this project's own figure).
const MOST_AGES: usize = 64;

/// So many medians are kept, each the first of a minute (this project's own figure).
const MOST_NOTES: usize = 64;

/// Microseconds of a minute and of an hour.
const MINUTE: u64 = 60000000;

const HOUR: u64 = 3600000000;

// How long evicted items had lived at a moment.
#[derive(Clone, Copy)]
struct Note {
    time: Timestamp,
    median: u64,
}

/// How long evicted items of a class had lived.
#[derive(Drop)]
pub struct Ages<A: Allocator> {
    alloc: A,
    // when an item of a key was stored last; of the keys whose hash has no bit of the mask
    stores: IndexMap<HeldKey<A>, Timestamp, BuildHasherDefault<FoldHasher>, A>,
    mask: u32,
    // how many microseconds the last evicted items had lived
    ages: Vec<u64, A>,
    // which of them is the oldest, where there is no room
    oldest: usize,
    notes: Vec<Note, A>,
}

// How many are below one of them, and how many are not above it.
fn rank_of(ages: &[u64], age: u64) -> (usize, usize) {
    let below = ages.iter().filter(|other| **other < age).count();
    let up_to = ages.iter().filter(|other| **other <= age).count();
    (below, up_to)
}

// The one in the middle, the lower of two.
fn median(ages: &[u64]) -> Option<u64> {
    let middle = ages.len().saturating_sub(1) / 2;
    for age in ages {
        let (below, up_to) = rank_of(ages, *age);
        if below <= middle && middle < up_to {
            return Some(*age);
        }
    }
    None
}

impl<A: Allocator + Copy> Ages<A> {
    /// Nothing was stored.
    pub fn new(alloc: A) -> Ages<A> {
        Ages {
            alloc,
            stores: IndexMap::new(alloc),
            mask: 0,
            ages: Vec::new(alloc),
            oldest: 0,
            notes: Vec::new(alloc),
        }
    }

    // Whether the store at a place is to be kept: its key is held, and it is of those whose hash passes.
    fn is_kept(&self, place: usize, store: &Store<A>) -> bool {
        match self.stores.get_index(place) {
            Some((held, _)) => {
                held.key().hash() & self.mask == 0 && store.find(held.key()).is_some()
            }
            None => true,
        }
    }

    // Lets go of the stores that are not to be kept.
    fn sweep(&mut self, store: &Store<A>) {
        for place in (0..self.stores.len()).rev() {
            if !self.is_kept(place, store) {
                self.stores.swap_remove_index(place);
            }
        }
    }

    // Makes room for one more store: first keys that are not held any more go, and then half of those that are.
    fn make_room(&mut self, store: &Store<A>) {
        if self.stores.len() < MOST_STORES {
            return;
        }
        self.sweep(store);
        if self.stores.len() >= MOST_STORES / 2 {
            self.mask = self.mask << 1 | 1;
            self.sweep(store);
        }
    }

    /// An item of a key was stored.
    ///
    /// Err: memory was refused.
    pub fn stored(
        &mut self,
        key: &Key<A>,
        time: Timestamp,
        store: &Store<A>,
    ) -> Result<(), AllocError> {
        if key.hash() & self.mask != 0 {
            return Ok(());
        }
        self.make_room(store);
        match self.stores.get_mut(SoughtKey { key }) {
            Some(last) => *last = time,
            None => {
                let held = HeldKey::copy_of(self.alloc, key)?;
                self.stores.insert(held, time)?;
            }
        }
        Ok(())
    }

    // Keeps how long an item had lived.
    fn put(&mut self, age: u64) -> Result<(), AllocError> {
        if self.ages.len() < MOST_AGES {
            self.ages.push(age)?;
            return Ok(());
        }
        match self.ages.get_mut(self.oldest) {
            Some(oldest) => *oldest = age,
            None => {}
        }
        self.oldest = if self.oldest < MOST_AGES - 1 {
            self.oldest + 1
        } else {
            0
        };
        Ok(())
    }

    // Whether the median was noted in this minute.
    fn is_noted(&self, time: Timestamp) -> bool {
        match self.notes.last() {
            Some(note) => note.time.seconds / 60 == time.seconds / 60,
            None => false,
        }
    }

    // Notes the median, where it was not noted in this minute.
    fn note(&mut self, time: Timestamp) -> Result<(), AllocError> {
        if self.is_noted(time) {
            return Ok(());
        }
        if self.notes.len() >= MOST_NOTES {
            let _ = self.notes.remove(0);
        }
        match median(self.ages.as_slice()) {
            Some(median) => self.notes.push(Note { time, median })?,
            None => {}
        }
        Ok(())
    }

    /// The item of a key was evicted.
    ///
    /// Err: memory was refused.
    pub fn evicted(&mut self, key: &Key<A>, time: Timestamp) -> Result<(), AllocError> {
        match self.stores.swap_remove(SoughtKey { key }) {
            Some(stored) => {
                self.put(between(stored, time))?;
                self.note(time)
            }
            None => Ok(()),
        }
    }

    /// How many microseconds the last evicted items had lived: the median.
    pub fn lived(&self) -> Option<u64> {
        median(self.ages.as_slice())
    }

    /// The same an hour before a moment, or as far back as it is known, if that is a minute at least.
    pub fn earlier(&self, now: Timestamp) -> Option<Earlier> {
        let mut found = None;
        for note in &self.notes {
            let ago = between(note.time, now);
            if ago >= HOUR || (ago >= MINUTE && found.is_none()) {
                found = Some(Earlier {
                    lived: note.median,
                    ago,
                });
            }
        }
        found
    }
}
