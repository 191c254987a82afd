//! The figures of each name: a prefix, or a slab class.
ghost use Rattle.std.specs.Prelude.{◌≡◌, [], List, ℕ, OnOk};
ghost use Rattle.rev_top.specs.Figures.{counted, nothing};
ghost use Rattle.rev_top.specs.Tables as rule;

use crate::facts::Fact;
use crate::figures::{Figures, NOTHING};
use indexmap::IndexMap;
use std::alloc::{AllocError, Allocator};
use std::hash::{BuildHasherDefault, FoldHasher};

/// Up to so many names are told apart (this project's own figure).
pub const MOST_NAMES: usize = 4096;

/// The figures of each name. Where there are more names than are told apart, those that come last are summed.
#[derive(Drop)]
pub struct Table<A: Allocator> {
    alloc: A,
    /// Of each name, in the order in which they came.
    pub rows: IndexMap<Vec<u8, A>, Figures, BuildHasherDefault<FoldHasher>, A>,
    /// Of all names for which there was no room.
    pub others: Figures,
    /// Of all names.
    pub total: Figures,
}

impl<A: Allocator + Copy> Table<A> {
    /// Nothing was counted.
    pub fn new(alloc: A) -> Table<A>
        ensures rows { result.rows.entries ≡ [] }
        ensures others { result.others ≡ nothing }
        ensures total { result.total ≡ nothing }
    {
        Table {
            alloc,
            rows: IndexMap::new(alloc),
            others: NOTHING,
            total: NOTHING,
        }
    }

    // The figures of a name.
    fn get(&self, name: &[u8]) -> Figures
        ensures { result ≡ rule.figures_in self.now.rows.entries name.now }
    {
        match self.rows.get(name) {
            Some(figures) => *figures,
            None => NOTHING,
        }
    }

    // Whether a name is told apart.
    fn has_room(&self, name: &[u8]) -> bool
        ensures { result ≡ rule.has_room self.now.rows.entries name.now }
    {
        self.rows.get(name).is_some() || self.rows.len() < MOST_NAMES
    }

    // Gives a name these figures.
    fn put(&mut self, name: &[u8], figures: Figures) -> Result<(), AllocError>
        ensures rows { OnOk result ((k : List ℕ) → rule.figures_in self.new.rows.entries k ≡ rule.put_in self.old.rows.entries name.now figures k) }
        ensures others { self.new.others ≡ self.old.others }
        ensures total { self.new.total ≡ self.old.total }
    {
        let held = Vec::from_slice(self.alloc, name)?;
        self.rows.insert(held, figures)?;
        Ok(())
    }

    // Counts a fact of a name that is told apart.
    fn count_apart(&mut self, name: &[u8], fact: Fact) -> Result<(), AllocError>
        ensures rows { OnOk result ((k : List ℕ) → rule.figures_in self.new.rows.entries k ≡ rule.put_in self.old.rows.entries name.now (counted fact (rule.figures_in self.old.rows.entries name.now)) k) }
        ensures others { self.new.others ≡ self.old.others }
        ensures total { self.new.total ≡ self.old.total }
    {
        let figures = self.get(name).with(fact);
        self.put(name, figures)
    }

    // Counts a fact of a name.
    fn count(&mut self, name: &[u8], fact: Fact) -> Result<(), AllocError>
        ensures rows { OnOk result ((k : List ℕ) → rule.figures_in self.new.rows.entries k ≡ rule.noted_in self.old.rows.entries name.now fact k) }
        ensures others { self.new.others ≡ rule.others_noted self.old.rows.entries name.now fact self.old.others }
        ensures total { self.new.total ≡ self.old.total }
    {
        if self.has_room(name) {
            self.count_apart(name, fact)
        } else {
            self.others = self.others.with(fact);
            Ok(())
        }
    }

    /// Counts a fact of a name: it is added to the figures of that name alone, or to those of the others where there is
    /// no room for the name; and to the total.
    ///
    /// Err: memory was refused.
    pub fn note(&mut self, name: &[u8], fact: Fact) -> Result<(), AllocError>
        ensures rows { OnOk result ((k : List ℕ) → rule.figures_in self.new.rows.entries k ≡ rule.noted_in self.old.rows.entries name.now fact k) }
        ensures others { OnOk result (self.new.others ≡ rule.others_noted self.old.rows.entries name.now fact self.old.others) }
        ensures total { OnOk result (self.new.total ≡ counted fact self.old.total) }
    {
        self.count(name, fact)?;
        self.total = self.total.with(fact);
        Ok(())
    }
}
