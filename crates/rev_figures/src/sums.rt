//! Figures of a trace that is read in parts, one behind another.
ghost use Rattle.std.specs.Prelude.{◌≡◌, ◌++◌, ◌<◌, [], ℕ, List, IfOk, OnOk, fold, get_or, length};
ghost use Rattle.std.specs.List.Sorted.{IsNonDecreasingBy};
ghost use Rattle.rev_figures.specs.Classes.{plus};
ghost use Rattle.rev_figures.specs.Prefixes.{below_most};
ghost use Rattle.rev_figures.specs.Sums.{both_causes, both_totals, totals_of, with_lost, step_at, lost_at, AreCounts, IsCounted};
ghost use Rattle.rev_figures.specs.Paths.{path_steps, path_leavings};
ghost use Rattle.rev_figures.specs.declared.path.Leaving.{Leaving};
ghost use Rattle.rev_figures.specs.declared.path.PathStep.{PathStep};
ghost use Rattle.rev_figures.specs.declared.by_class.StepCounts.{StepCounts};

use crate::by_class::{NUMBERS, StepCounts, more, place_of, with_cause, with_step};
use crate::classes::ClassFigures;
use crate::departed::Departed;
use crate::path::{Leaving, PageMove, Path, PathStep, StepKind};
use crate::prefixes::ByPrefix;
use crate::slot_sums::{SlotSum, Slots};
use crate::tables::{
    CauseCounts, NO_CAUSES, Totals, Which, count_all, is_eviction, is_one, last_second,
};
use crate::waits::Waits;
use crate::walk::gather;
use rev_undotree::Session;
use std::alloc::{AllocError, Allocator};

/// What is counted of the keys that left a class, whether or not they were asked for again.
#[derive(Clone, Copy)]
pub struct LostCounts {
    /// By cause.
    pub left: CauseCounts,
    /// How many keys were evicted, by a set or the page mover.
    pub evicted: usize,
    /// Of these, how many had never been hit since they were stored.
    pub unfetched: usize,
}

/// The counts with a key more that left the class.
fn with_lost(counts: LostCounts, leaving: &Leaving) -> LostCounts
    ensures { result ≡ with_lost counts leaving.now }
{
    LostCounts {
        left: with_cause(counts.left, leaving),
        evicted: more(is_one(Which::AllEvicted, leaving), counts.evicted),
        unfetched: more(is_one(Which::Unfetched, leaving), counts.unfetched),
    }
}

/// Counts a step for its class, if the class is counted.
fn count_step(counts: &mut [StepCounts], step: &PathStep)
    ensures wide { length counts.new ≡ length counts.old }
    ensures counts { (c : ℕ) (d : StepCounts) → c < length counts.old → get_or counts.new c d ≡ step_at c (get_or counts.old c d) step.now }
{
    let class = place_of(step.class);
    if class < counts.len() {
        counts[class] = with_step(counts[class], step);
    }
}

/// Counts steps for their classes.
fn count_steps<A: Allocator>(counts: &mut Vec<StepCounts, A>, steps: &[PathStep])
    ensures wide { length counts.new.items ≡ length counts.old.items }
    ensures counts { (c : ℕ) (d : StepCounts) → c < length counts.old.items → get_or counts.new.items c d ≡ fold (step_at c) (get_or counts.old.items c d) steps.now }
{
    for step in steps {
        count_step(counts, step);
    }
}

/// Counts a key that left for its class, if the class is counted.
fn count_leaving(counts: &mut [LostCounts], leaving: &Leaving)
    ensures wide { length counts.new ≡ length counts.old }
    ensures counts { (c : ℕ) (d : LostCounts) → c < length counts.old → get_or counts.new c d ≡ lost_at c (get_or counts.old c d) leaving.now }
{
    let class = place_of(leaving.class);
    if class < counts.len() {
        counts[class] = with_lost(counts[class], leaving);
    }
}

/// Counts keys that left for their classes.
fn count_leavings<A: Allocator>(counts: &mut Vec<LostCounts, A>, leavings: &[Leaving])
    ensures wide { length counts.new.items ≡ length counts.old.items }
    ensures counts { (c : ℕ) (d : LostCounts) → c < length counts.old.items → get_or counts.new.items c d ≡ fold (lost_at c) (get_or counts.old.items c d) leavings.now }
{
    for leaving in leavings {
        count_leaving(counts, leaving);
    }
}

/// Two counts together: at most the highest number of 64 bits.
fn plus(one: usize, other: usize) -> usize
    ensures { result ≡ plus one other }
{
    one.saturating_add(other)
}

/// The counts by cause of two lists of keys together.
pub fn both_causes(one: CauseCounts, other: CauseCounts) -> CauseCounts
    ensures { result ≡ both_causes one other }
{
    CauseCounts {
        evicted: plus(one.evicted, other.evicted),
        evicted_by_mover: plus(one.evicted_by_mover, other.evicted_by_mover),
        reclaimed_by_pull: plus(one.reclaimed_by_pull, other.reclaimed_by_pull),
        reclaimed_by_crawler: plus(one.reclaimed_by_crawler, other.reclaimed_by_crawler),
        reclaimed_by_hit: plus(one.reclaimed_by_hit, other.reclaimed_by_hit),
        reclaimed_by_mover: plus(one.reclaimed_by_mover, other.reclaimed_by_mover),
        deleted: plus(one.deleted, other.deleted),
        dropped_by_failed_set: plus(one.dropped_by_failed_set, other.dropped_by_failed_set),
    }
}

/// Two totals together, with the first second of the one and this last second.
fn both_totals(one: Totals, other: Totals, last_second: u32) -> Totals
    ensures { result ≡ both_totals one other last_second }
{
    Totals {
        steps: plus(one.steps, other.steps),
        hits: plus(one.hits, other.hits),
        misses: plus(one.misses, other.misses),
        stores: plus(one.stores, other.stores),
        left: both_causes(one.left, other.left),
        first_second: one.first_second,
        last_second,
    }
}

/// The totals with those of a part that stands behind what they count.
fn with_part<A: Allocator>(totals: Totals, part: &Path<A>) -> Totals
    ensures { (t : ℕ) (ss : List PathStep) (ls : List Leaving) → totals ≡ totals_of t ss ls → result ≡ totals_of t (ss ++ part.now.steps.items) (ls ++ part.now.leavings.items) }
{
    let last = last_second(totals.last_second, &part.steps);
    both_totals(totals, count_all(part), last)
}

/// No step of a class.
const NO_STEPS: StepCounts = StepCounts { stores: 0, hits: 0 };

/// No key left a class.
const NO_LOST: LostCounts = LostCounts {
    left: NO_CAUSES,
    evicted: 0,
    unfetched: 0,
};

/// What is counted of no rows.
fn no_totals(start: u32) -> Totals
    ensures { result ≡ totals_of start [] [] }
{
    Totals {
        steps: 0,
        hits: 0,
        misses: 0,
        stores: 0,
        left: NO_CAUSES,
        first_second: start,
        last_second: start,
    }
}

/// The clock at the first step that stores or looks up, if one did, or else at the first of these steps that does.
fn first_use(known: Option<u32>, steps: &[PathStep]) -> Option<u32> {
    if known.is_some() {
        return known;
    }
    for step in steps {
        match step.kind {
            StepKind::Stored | StepKind::Hit | StepKind::Miss => return Some(step.second),
            StepKind::Other => {}
        }
    }
    None
}

/// Adds the pages that moved in a part, which stands behind so many steps.
///
/// Err: a growth was refused.
fn add_moves<A: Allocator>(
    moves: &mut Vec<PageMove, A>,
    part: &[PageMove],
    before: usize,
) -> Result<(), AllocError> {
    for moved in part {
        moves.push(PageMove {
            step: before.saturating_add(moved.step),
            ..*moved
        })?;
    }
    Ok(())
}

/// Counts how many seconds evicted keys had been idle.
///
/// Err: a growth was refused.
fn add_idle<A: Allocator + Copy>(
    idle: &mut Waits<A>,
    leavings: &[Leaving],
) -> Result<(), AllocError> {
    for leaving in leavings {
        if is_eviction(leaving.cause) {
            idle.add(leaving.class, leaving.idle)?;
        }
    }
    Ok(())
}

/// What is counted of the steps of a class.
fn steps_of(counts: &[StepCounts], class: u8) -> StepCounts
    ensures { (d : StepCounts) → class < length counts.now → result ≡ get_or counts.now class d }
{
    match counts.get(place_of(class)) {
        Some(counts) => *counts,
        None => NO_STEPS,
    }
}

/// What is counted of the keys that left a class.
fn lost_of(counts: &[LostCounts], class: u8) -> LostCounts
    ensures { (d : LostCounts) → class < length counts.now → result ≡ get_or counts.now class d }
{
    match counts.get(place_of(class)) {
        Some(counts) => *counts,
        None => NO_LOST,
    }
}

/// The figures of a trace that is read in parts, one behind another. Memory does not grow with the steps, but for the
/// keys that left and were not stored since, the pages that moved, and the different numbers of seconds of a class.
#[derive(Drop)]
pub struct Sums<A: Allocator> {
    pub totals: Totals,
    /// What is counted of the steps of each class, by its number.
    pub steps: Vec<StepCounts, A>,
    /// What is counted of the keys that left each class, by its number.
    pub lost: Vec<LostCounts, A>,
    /// A row for each page that moved, with its step in the whole trace.
    pub moves: Vec<PageMove, A>,
    /// The clock at the first step that stores or looks up, in seconds, if there is one.
    pub first_use: Option<u32>,
    slots: Slots<A>,
    departed: Departed<A>,
    idle: Waits<A>,
}

impl<A: Allocator + Copy> Sums<A> {
    /// No part was read. The clock stands at this second.
    ///
    /// Err: a growth was refused.
    pub fn new(start: u32, alloc: A) -> Result<Sums<A>, AllocError>
        ensures totals { IfOk result (λ sums. sums.totals ≡ totals_of start [] []) }
        ensures counts { IfOk result (λ sums. AreCounts [] [] sums.steps.items sums.lost.items) }
    {
        Ok(Sums {
            totals: no_totals(start),
            steps: vec![in alloc; NO_STEPS; NUMBERS]?,
            lost: vec![in alloc; NO_LOST; NUMBERS]?,
            moves: Vec::new(alloc),
            first_use: None,
            slots: Slots::new(alloc),
            departed: Departed::new(alloc)?,
            idle: Waits::new(alloc),
        })
    }

    /// Counts the rows of a part.
    fn count(&mut self, part: &Path<A>)
        ensures totals { (t : ℕ) (ss : List PathStep) (ls : List Leaving) → self.old.totals ≡ totals_of t ss ls → self.new.totals ≡ totals_of t (ss ++ part.now.steps.items) (ls ++ part.now.leavings.items) }
        ensures counts { (ss : List PathStep) (ls : List Leaving) → AreCounts ss ls self.old.steps.items self.old.lost.items → AreCounts (ss ++ part.now.steps.items) (ls ++ part.now.leavings.items) self.new.steps.items self.new.lost.items }
    {
        self.totals = with_part(self.totals, part);
        count_steps(&mut self.steps, &part.steps);
        count_leavings(&mut self.lost, &part.leavings);
    }

    /// Adds a part behind those that were added: the way from the session's root to its current node. The session
    /// stands where it stood.
    ///
    /// Err: a growth was refused.
    pub fn add(&mut self, session: &mut Session<A>) -> Result<(), AllocError>
        ensures stands { session.new ≡ session.old }
        ensures totals { OnOk result ((t : ℕ) (ss : List PathStep) (ls : List Leaving) → self.old.totals ≡ totals_of t ss ls → self.new.totals ≡ totals_of t (ss ++ path_steps session.old.root session.old.rows session.old.current) (ls ++ path_leavings session.old.root session.old.rows session.old.current)) }
        ensures counts { OnOk result ((ss : List PathStep) (ls : List Leaving) → AreCounts ss ls self.old.steps.items self.old.lost.items → AreCounts (ss ++ path_steps session.old.root session.old.rows session.old.current) (ls ++ path_leavings session.old.root session.old.rows session.old.current) self.new.steps.items self.new.lost.items) }
    {
        let part = gather(session)?;
        let before = self.totals.steps;
        self.departed.add(session, &part)?;
        self.slots.add(session, &part, before)?;
        add_moves(&mut self.moves, &part.moves, before)?;
        add_idle(&mut self.idle, &part.leavings)?;
        self.first_use = first_use(self.first_use, &part.steps);
        self.count(&part);
        Ok(())
    }

    /// The slots of the whole trace, the first one first: at most 240, all of the same number of steps but for the last.
    pub fn slots(&self) -> &[SlotSum<A>] {
        self.slots.slots()
    }

    /// What became of the keys of each prefix. That the counts are those of all parts is tested, and in no contract.
    ///
    /// Err: a growth was refused.
    pub fn by_prefix(&self) -> Result<ByPrefix<A>, AllocError>
        ensures { IfOk result (λ told. IsNonDecreasingBy below_most told.rows.items) }
    {
        self.departed.by_prefix()
    }

    /// The figures of a class.
    ///
    /// Err: a growth was refused.
    pub fn figures(&self, class: u8) -> Result<ClassFigures, AllocError>
        ensures { IfOk result (λ figures. (ss : List PathStep) (ls : List Leaving) → AreCounts ss ls self.now.steps.items self.now.lost.items → IsCounted ss ls class figures) }
    {
        let steps = steps_of(&self.steps, class);
        let lost = lost_of(&self.lost, class);
        let asked = self.departed.asked(class);
        Ok(ClassFigures {
            class,
            stores: steps.stores,
            hits: steps.hits,
            misses: asked.misses,
            left: lost.left,
            evicted: lost.evicted,
            unfetched: lost.unfetched,
            asked: asked.asked,
            idle: self.idle.median(class)?,
            asked_after: self.departed.asked_after(class)?,
        })
    }
}
