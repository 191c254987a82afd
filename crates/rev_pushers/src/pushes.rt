//! What was stored under each name, a prefix or a connection, and what of it came since a moment.
//!
//! At most `MOST_NAMES` names are counted one by one. Where there are more, one that was not stored since a hand last
//! came by goes for a new one, as in the CLOCK rule, and what was stored under it is counted among the others. The
//! counts are in no contract: they are tested.
use crate::pushed::{Amount, NOTHING, PrefixShare};
use indexmap::IndexMap;
use std::alloc::{AllocError, Allocator};
use std::hash::{BuildHasherDefault, FoldHasher};
use std::mem;

/// Up to so many names are counted one by one (this project's own figure).
const MOST_NAMES: usize = 1024;

/// The largest so many are told (this project's own figure).
const MOST_TOLD: usize = 5;

// A name, and what was stored under it since it has its place.
#[derive(Drop)]
struct Entry<A: Allocator> {
    name: Vec<u8, A>,
    amount: Amount,
    // how many items were counted before it came
    since: u64,
    // whether it was stored since the hand came by
    used: bool,
}

/// What was stored under each name.
#[derive(Drop)]
pub struct Pushes<A: Allocator> {
    alloc: A,
    // the place of each name
    places: IndexMap<Vec<u8, A>, usize, BuildHasherDefault<FoldHasher>, A>,
    entries: Vec<Entry<A>, A>,
    // the place at which a new name looks first, where there is no room
    hand: usize,
    total: Amount,
}

/// What was counted up to a moment.
#[derive(Drop)]
pub struct Start<A: Allocator> {
    // at each place
    amounts: Vec<Amount, A>,
    total: Amount,
}

// What was stored since a moment under the name at a place.
#[derive(Clone, Copy)]
struct Ranked {
    place: usize,
    amount: Amount,
}

impl<A: Allocator> Start<A> {
    /// A moment at which nothing was counted.
    pub fn nothing(alloc: A) -> Start<A> {
        Start {
            amounts: Vec::new(alloc),
            total: NOTHING,
        }
    }
}

// What was stored under a name since a moment, at which this was counted at its place, and in all so many items.
fn since<A: Allocator>(entry: &Entry<A>, before: Option<&Amount>, items: u64) -> Amount {
    match before {
        Some(amount) => {
            if entry.since < items {
                entry.amount.without(*amount)
            } else {
                entry.amount
            }
        }
        None => entry.amount,
    }
}

// Puts one among the largest so far, the largest of which is first.
fn rank<A: Allocator>(ranked: &mut Vec<Ranked, A>, new: Ranked) -> Result<(), AllocError> {
    if new.amount.items == 0 {
        return Ok(());
    }
    let place = ranked
        .iter()
        .position(|other| new.amount.is_above(other.amount));
    match place {
        Some(place) => ranked.insert(place, new)?,
        None => ranked.push(new)?,
    }
    ranked.truncate(MOST_TOLD);
    Ok(())
}

impl<A: Allocator + Copy> Pushes<A> {
    /// Nothing was stored.
    pub fn new(alloc: A) -> Pushes<A> {
        Pushes {
            alloc,
            places: IndexMap::new(alloc),
            entries: Vec::new(alloc),
            hand: 0,
            total: NOTHING,
        }
    }

    // A name under which nothing was stored yet.
    fn entry(&self, name: &[u8]) -> Result<Entry<A>, AllocError> {
        Ok(Entry {
            amount: NOTHING,
            since: self.total.items,
            used: true,
            name: Vec::from_slice(self.alloc, name)?,
        })
    }

    // Notes the place of a name.
    fn note(&mut self, name: &[u8], place: usize) -> Result<(), AllocError> {
        let name = Vec::from_slice(self.alloc, name)?;
        self.places.insert(name, place)?;
        Ok(())
    }

    // Gives a name a place behind the others.
    fn append(&mut self, name: &[u8]) -> Result<usize, AllocError> {
        let place = self.entries.len();
        let entry = self.entry(name)?;
        self.entries.push(entry)?;
        self.note(name, place)?;
        Ok(place)
    }

    // The place at which the hand stands, if its name was not stored since the hand came by. The hand goes on.
    fn next_free(&mut self) -> Option<usize> {
        let place = self.hand;
        self.hand = if place < MOST_NAMES - 1 { place + 1 } else { 0 };
        let entry = self.entries.get_mut(place)?;
        if entry.used {
            entry.used = false;
            None
        } else {
            Some(place)
        }
    }

    // Gives a name the place of another one.
    fn replace(&mut self, name: &[u8], place: usize) -> Result<(), AllocError> {
        let new = self.entry(name)?;
        match self.entries.get_mut(place) {
            Some(entry) => {
                let old = mem::replace(entry, new);
                self.places.swap_remove(old.name.as_slice());
            }
            None => drop(new),
        }
        self.note(name, place)
    }

    // A place for a name that has none, if there is one.
    fn new_place(&mut self, name: &[u8]) -> Result<Option<usize>, AllocError> {
        if self.entries.len() < MOST_NAMES {
            let place = self.append(name)?;
            return Ok(Some(place));
        }
        match self.next_free() {
            Some(place) => {
                self.replace(name, place)?;
                Ok(Some(place))
            }
            None => Ok(None),
        }
    }

    // The place of a name, if there is one for it.
    fn place_of(&mut self, name: &[u8]) -> Result<Option<usize>, AllocError> {
        match self.places.get(name).copied() {
            Some(place) => Ok(Some(place)),
            None => self.new_place(name),
        }
    }

    // Counts an item at a place.
    fn add(&mut self, place: usize, size: u32) {
        match self.entries.get_mut(place) {
            Some(entry) => {
                entry.used = true;
                entry.amount = entry.amount.with(size);
            }
            None => {}
        }
    }

    /// Counts an item of so many bytes that was stored under a name.
    ///
    /// Err: memory was refused.
    pub fn count(&mut self, name: &[u8], size: u32) -> Result<(), AllocError> {
        match self.place_of(name)? {
            Some(place) => self.add(place, size),
            None => {}
        }
        self.total = self.total.with(size);
        Ok(())
    }

    /// What was counted up to now.
    ///
    /// Err: memory was refused.
    pub fn start(&self) -> Result<Start<A>, AllocError> {
        let mut amounts = Vec::with_capacity(self.alloc, self.entries.len())?;
        for entry in &self.entries {
            amounts.push(entry.amount)?;
        }
        Ok(Start {
            amounts,
            total: self.total,
        })
    }

    // The largest since a moment, by their places.
    fn ranked(&self, start: &Start<A>) -> Result<Vec<Ranked, A>, AllocError> {
        let mut ranked = Vec::new(self.alloc);
        for place in 0..self.entries.len() {
            match self.entries.get(place) {
                Some(entry) => {
                    let amount = since(entry, start.amounts.get(place), start.total.items);
                    rank(&mut ranked, Ranked { place, amount })?;
                }
                None => {}
            }
        }
        Ok(ranked)
    }

    // The name at a place, with an amount.
    fn share(&self, ranked: Ranked) -> Result<PrefixShare<A>, AllocError> {
        let name = match self.entries.get(ranked.place) {
            Some(entry) => entry.name.as_slice(),
            None => &[],
        };
        Ok(PrefixShare {
            amount: ranked.amount,
            prefix: Vec::from_slice(self.alloc, name)?,
        })
    }

    /// The names under which most items were stored since a moment, the largest first.
    ///
    /// Err: memory was refused.
    pub fn largest(&self, start: &Start<A>) -> Result<Vec<PrefixShare<A>, A>, AllocError> {
        let ranked = self.ranked(start)?;
        let mut shares = Vec::new(self.alloc);
        for one in &ranked {
            shares.push(self.share(*one)?)?;
        }
        Ok(shares)
    }

    /// What was stored since a moment under other names than these.
    pub fn others(&self, start: &Start<A>, told: &[PrefixShare<A>]) -> Amount {
        let mut rest = self.total.without(start.total);
        for share in told {
            rest = rest.without(share.amount);
        }
        rest
    }
}
