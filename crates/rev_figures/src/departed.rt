//! Keys that left, and are asked for again in the same part of a trace or in a later one. And what became of the keys of
//! each prefix, which is counted in the same pass.
//!
//! That these counts are those of the whole trace in one part is tested, and in no contract.
ghost use Rattle.std.specs.Prelude.{IfOk};
ghost use Rattle.std.specs.List.Sorted.{IsNonDecreasingBy};
ghost use Rattle.rev_figures.specs.Prefixes.{below_most};

use crate::by_class::{NUMBERS, place_of};
use crate::gone::add_gone;
use crate::kinds::command_key;
use crate::path::{Leaving, Path, PathStep, StepKind};
use crate::prefixes::{ByPrefix, Happened, Prefixes};
use crate::tables::is_eviction;
use crate::waits::Waits;
use indexmap::IndexMap;
use rev_items::Key;
use rev_undotree::Session;
use std::alloc::{AllocError, Allocator};
use std::hash::{BuildHasherDefault, FoldHasher};

/// The look-ups that missed keys which had left a class last.
#[derive(Clone, Copy)]
pub struct AskedCounts {
    /// How many they are.
    pub misses: u64,
    /// How many keys were evicted and asked for again before they were stored again.
    pub asked: usize,
}

const NO_ASKED: AskedCounts = AskedCounts {
    misses: 0,
    asked: 0,
};

/// The last leaving of a key that was not stored since, and how many look-ups missed the key: at most 2^32 - 1.
#[derive(Clone, Copy)]
struct LastLeft {
    class: u8,
    second: u32,
    is_evicted: bool,
    asks: u32,
}

/// The keys that left and were not stored since, and how often keys of each class were asked for after they had left.
/// With it what became of the keys of each prefix.
#[derive(Drop)]
pub struct Departed<A: Allocator> {
    alloc: A,
    keys: IndexMap<Vec<u8, A>, LastLeft, BuildHasherDefault<FoldHasher>, A>,
    // by a class's number
    counts: Vec<AskedCounts, A>,
    waits: Waits<A>,
    prefixes: Prefixes<A>,
}

impl AskedCounts {
    // The counts with a look-up more that missed a key, and is the first one of an evicted key, or not.
    fn with_miss(self, is_first: bool) -> AskedCounts {
        AskedCounts {
            misses: self.misses.saturating_add(1),
            asked: if is_first {
                self.asked.saturating_add(1)
            } else {
                self.asked
            },
        }
    }
}

impl<A: Allocator + Copy> Departed<A> {
    /// No key left.
    ///
    /// Err: a growth was refused.
    pub fn new(alloc: A) -> Result<Departed<A>, AllocError> {
        Ok(Departed {
            alloc,
            keys: IndexMap::new(alloc),
            counts: vec![in alloc; NO_ASKED; NUMBERS]?,
            waits: Waits::new(alloc),
            prefixes: Prefixes::new(alloc),
        })
    }

    // A key left.
    fn leave(&mut self, key: &Key<A>, leaving: &Leaving) -> Result<(), AllocError> {
        let bytes = Vec::from_slice(self.alloc, key.bytes())?;
        let is_evicted = is_eviction(leaving.cause);
        self.keys.insert(
            bytes,
            LastLeft {
                class: leaving.class,
                second: leaving.second,
                is_evicted,
                asks: 0,
            },
        )?;
        self.prefixes.note(
            key.bytes(),
            if is_evicted {
                Happened::Evicted
            } else {
                Happened::Left
            },
        )
    }

    // A look-up missed a key.
    fn miss(&mut self, key: &Key<A>, second: u32) -> Result<(), AllocError> {
        let Some(left) = self.keys.get_mut(key.bytes()) else {
            return Ok(());
        };
        if left.asks == u32::MAX {
            return Ok(());
        }
        let is_first = left.is_evicted && left.asks == 0;
        left.asks += 1;
        let (class, after) = (left.class, second.saturating_sub(left.second));
        if let Some(counts) = self.counts.get_mut(place_of(class)) {
            *counts = counts.with_miss(is_first);
        }
        if is_first {
            self.waits.add(class, after)?;
            self.prefixes.note(key.bytes(), Happened::AskedAgain)?;
        }
        Ok(())
    }

    // Notes what a step did with its command's key.
    fn note(&mut self, key: &Key<A>, step: &PathStep) -> Result<(), AllocError> {
        match step.kind {
            StepKind::Miss => {
                self.prefixes.note(key.bytes(), Happened::Missed)?;
                self.miss(key, step.second)
            }
            StepKind::Stored => {
                let _left = self.keys.swap_remove(key.bytes());
                self.prefixes.note(key.bytes(), Happened::Stored)
            }
            StepKind::Hit => self.prefixes.note(key.bytes(), Happened::Hit),
            StepKind::Other => Ok(()),
        }
    }

    /// Reads a part behind those that were read: the way from the session's root to its current node, of which these
    /// are the rows.
    ///
    /// Err: a growth was refused.
    pub fn add(&mut self, session: &Session<A>, part: &Path<A>) -> Result<(), AllocError> {
        let mut rows = part.leavings.iter();
        let mut gone = Vec::new(self.alloc);
        for (place, row) in part.steps.iter().enumerate() {
            let Some((node, step, outcome, trace)) = session.trail(place + 1) else {
                return Ok(());
            };
            gone.clear();
            add_gone(&mut gone, node, step, outcome, &trace, &self.alloc)?;
            gone.reverse();
            for left in &gone {
                if let Some(leaving) = rows.next() {
                    self.leave(&left.key, leaving)?;
                }
            }
            if let Some(key) = command_key(step) {
                self.note(key, row)?;
            }
        }
        Ok(())
    }

    /// The look-ups that missed keys which had left a class last.
    pub fn asked(&self, class: u8) -> AskedCounts {
        match self.counts.get(place_of(class)) {
            Some(counts) => *counts,
            None => NO_ASKED,
        }
    }

    /// The median of the seconds until evicted keys of a class were asked for again; none where none was.
    ///
    /// Err: a growth was refused.
    pub fn asked_after(&self, class: u8) -> Result<Option<u32>, AllocError> {
        self.waits.median(class)
    }

    /// What became of the keys of each prefix.
    ///
    /// Err: a growth was refused.
    pub fn by_prefix(&self) -> Result<ByPrefix<A>, AllocError>
        ensures { IfOk result (λ told. IsNonDecreasingBy below_most told.rows.items) }
    {
        self.prefixes.told()
    }
}

/// What became of the keys of each prefix on the way from a session's root to its current node, of which these are the
/// rows. That the counts are those of all steps is tested, and in no contract.
///
/// Err: a growth was refused.
pub fn by_prefix<A: Allocator + Copy>(
    session: &Session<A>,
    path: &Path<A>,
    alloc: A,
) -> Result<ByPrefix<A>, AllocError>
    ensures { IfOk result (λ told. IsNonDecreasingBy below_most told.rows.items) }
{
    let mut departed = Departed::new(alloc)?;
    departed.add(session, path)?;
    departed.by_prefix()
}
