//! What became of the keys of each prefix.
//!
//! That the counts of a prefix are those of all steps is tested, and in no contract.
ghost use Rattle.std.specs.Prelude.{◌≡◌, ◌<◌, ◌==◌, IfSome, IfOk, OnOk, length};
ghost use Rattle.std.specs.List.{position};
ghost use Rattle.std.specs.List.Sorted.{IsPermutation, IsNonDecreasingBy};
ghost use Rattle.rev_figures.specs.Prefixes as rule;

use indexmap::IndexMap;
use std::alloc::{AllocError, Allocator};
use std::hash::{BuildHasherDefault, FoldHasher};

/// Up to so many prefixes are told apart (this project's own figure).
pub const MOST_PREFIXES: usize = 4096;

/// What became of the keys of a prefix. A count stays at the highest number of 64 bits.
#[derive(Clone, Copy)]
pub struct PrefixCounts {
    pub stores: u64,
    /// Look-ups that found an item, and those that found none, whether or not the key ever was there.
    pub hits: u64,
    pub misses: u64,
    /// Keys that were evicted, by a set or the page mover.
    pub evicted: u64,
    /// Keys that left by any other cause.
    pub left: u64,
    /// How many of the evicted were asked for again before the key was stored again.
    pub asked: u64,
}

/// What happened to a key.
#[derive(Clone, Copy)]
pub enum Happened {
    Stored,
    Hit,
    Missed,
    /// It was evicted, by a set or the page mover.
    Evicted,
    /// It left by another cause.
    Left,
    /// It was evicted, and is asked for before it was stored again: for the first time.
    AskedAgain,
}

/// Nothing happened.
pub const NOTHING: PrefixCounts = PrefixCounts {
    stores: 0,
    hits: 0,
    misses: 0,
    evicted: 0,
    left: 0,
    asked: 0,
};

impl PrefixCounts {
    /// The same with one thing more that happened.
    pub fn with(self, happened: Happened) -> PrefixCounts
        ensures { result ≡ rule.counted happened self }
    {
        let mut counts = self;
        match happened {
            Happened::Stored => counts.stores = counts.stores.saturating_add(1),
            Happened::Hit => counts.hits = counts.hits.saturating_add(1),
            Happened::Missed => counts.misses = counts.misses.saturating_add(1),
            Happened::Evicted => counts.evicted = counts.evicted.saturating_add(1),
            Happened::Left => counts.left = counts.left.saturating_add(1),
            Happened::AskedAgain => counts.asked = counts.asked.saturating_add(1),
        }
        counts
    }

    /// Two counts together.
    pub fn plus(self, other: PrefixCounts) -> PrefixCounts
        ensures { result ≡ rule.both self other }
    {
        PrefixCounts {
            stores: self.stores.saturating_add(other.stores),
            hits: self.hits.saturating_add(other.hits),
            misses: self.misses.saturating_add(other.misses),
            evicted: self.evicted.saturating_add(other.evicted),
            left: self.left.saturating_add(other.left),
            asked: self.asked.saturating_add(other.asked),
        }
    }
}

/// A prefix, and what became of its keys.
#[derive(Drop)]
pub struct PrefixRow<A: Allocator> {
    /// Empty for keys without a colon.
    pub prefix: Vec<u8, A>,
    pub counts: PrefixCounts,
}

/// What became of the keys of each prefix.
#[derive(Drop)]
pub struct ByPrefix<A: Allocator> {
    /// The prefix with most evictions stands first, and of those with as many the one with most stores.
    pub rows: Vec<PrefixRow<A>, A>,
    /// What became of the keys of all other prefixes.
    pub others: PrefixCounts,
}

/// The counts of each prefix, as its keys come.
#[derive(Drop)]
pub struct Prefixes<A: Allocator> {
    alloc: A,
    // in the order in which they came
    rows: IndexMap<Vec<u8, A>, PrefixCounts, BuildHasherDefault<FoldHasher>, A>,
    // of all prefixes for which there was no room
    others: PrefixCounts,
}

// The place of the first colon of a key.
fn colon_in(key: &[u8]) -> Option<usize>
    ensures place { result ≡ position (λ b. b == 58) key.now }
    ensures within { IfSome result (λ place. place < length key.now) }
{
    key.iter().position(|byte| *byte == b':')
}

// The front of a key up to a place and with it, and nothing where there is none.
fn cut_behind(key: &[u8], place: Option<usize>) -> &[u8]
    requires { IfSome place (λ p. p < length key.now) }
    ensures { result.now ≡ rule.cut_behind key.now place }
{
    match place {
        Some(place) => &key[..place + 1],
        None => &[],
    }
}

/// The prefix of a key: its bytes up to the first colon and with it, and none where it has no colon.
pub fn prefix_of(key: &[u8]) -> &[u8]
    ensures { result.now ≡ rule.prefix_of key.now }
{
    cut_behind(key, colon_in(key))
}

// Brings rows into order: those with most evictions first, and of those with as many, those with most stores.
fn arrange<A: Allocator>(rows: &mut Vec<PrefixRow<A>, A>) -> Result<(), AllocError>
    ensures same { OnOk result (IsPermutation rows.old.items rows.new.items) }
    ensures falling { OnOk result (IsNonDecreasingBy rule.below_most rows.new.items) }
{
    rows.sort_by_key(|row| u64::MAX - row.counts.stores)?;
    rows.sort_by_key(|row| u64::MAX - row.counts.evicted)?;
    Ok(())
}

impl<A: Allocator + Copy> Prefixes<A> {
    /// Nothing happened.
    pub fn new(alloc: A) -> Prefixes<A> {
        Prefixes {
            alloc,
            rows: IndexMap::new(alloc),
            others: NOTHING,
        }
    }

    // Counts the first thing that happened to a key of a prefix.
    fn begin(&mut self, prefix: &[u8], happened: Happened) -> Result<(), AllocError> {
        if self.rows.len() < MOST_PREFIXES {
            let held = Vec::from_slice(self.alloc, prefix)?;
            self.rows.insert(held, NOTHING.with(happened))?;
        } else {
            self.others = self.others.with(happened);
        }
        Ok(())
    }

    /// Counts what happened to a key.
    ///
    /// Err: a growth was refused.
    pub fn note(&mut self, key: &[u8], happened: Happened) -> Result<(), AllocError> {
        let prefix = prefix_of(key);
        match self.rows.get_mut(prefix) {
            Some(counts) => {
                *counts = counts.with(happened);
                Ok(())
            }
            None => self.begin(prefix, happened),
        }
    }

    /// The rows of all prefixes that are told apart, in order.
    ///
    /// Err: a growth was refused.
    pub fn told(&self) -> Result<ByPrefix<A>, AllocError>
        ensures { IfOk result (λ told. IsNonDecreasingBy rule.below_most told.rows.items) }
    {
        let mut rows = Vec::new(self.alloc);
        for (prefix, counts) in self.rows.iter() {
            rows.push(PrefixRow {
                prefix: Vec::from_slice(self.alloc, prefix)?,
                counts: *counts,
            })?;
        }
        arrange(&mut rows)?;
        Ok(ByPrefix {
            rows,
            others: self.others,
        })
    }
}
