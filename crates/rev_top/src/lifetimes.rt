//! How long what was evicted had lived, for each name and in all.
use crate::sample::Sample;
use crate::table::MOST_NAMES;
use indexmap::IndexMap;
use std::alloc::{AllocError, Allocator};
use std::hash::{BuildHasherDefault, FoldHasher};

/// How long what was evicted had lived, for each name and in all: a sample of the microseconds.
#[derive(Drop)]
pub struct Lifetimes<A: Allocator> {
    alloc: A,
    names: IndexMap<Vec<u8, A>, Sample<A>, BuildHasherDefault<FoldHasher>, A>,
    all: Sample<A>,
}

impl<A: Allocator + Copy> Lifetimes<A> {
    /// Nothing was evicted.
    pub fn new(alloc: A) -> Lifetimes<A> {
        Lifetimes {
            alloc,
            names: IndexMap::new(alloc),
            all: Sample::new(alloc),
        }
    }

    // Gives a name a sample, where there is room.
    fn begin(&mut self, name: &[u8], lived: u64) -> Result<(), AllocError> {
        if self.names.len() >= MOST_NAMES {
            return Ok(());
        }
        let held = Vec::from_slice(self.alloc, name)?;
        let mut sample = Sample::new(self.alloc);
        sample.add(lived)?;
        self.names.insert(held, sample)?;
        Ok(())
    }

    /// What was evicted of a name had lived so long.
    ///
    /// Err: memory was refused.
    pub fn note(&mut self, name: &[u8], lived: u64) -> Result<(), AllocError> {
        self.all.add(lived)?;
        match self.names.get_mut(name) {
            Some(sample) => sample.add(lived),
            None => self.begin(name, lived),
        }
    }

    /// The median of a name, where something of it was evicted whose store the log shows.
    pub fn of(&self, name: &[u8]) -> Option<u64> {
        self.names.get(name)?.median()
    }

    /// The median of all.
    pub fn of_all(&self) -> Option<u64> {
        self.all.median()
    }
}
