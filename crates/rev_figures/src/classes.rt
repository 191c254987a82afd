//! The figures of each class.
ghost use Rattle.std.specs.Prelude.{◌≡◌, IfOk, List, Some, length};
ghost use Rattle.rev_figures.specs.Tables.{count_left, waits, IsMedian};
ghost use Rattle.rev_figures.specs.Classes.{step_counts, left_counts, IsFigures, AreFigures};
ghost use Rattle.rev_figures.specs.declared.path.PathStep.{PathStep};

use crate::by_class::{
    LeftCounts, StepCounts, count_left_by_class, count_steps_by_class, place_of,
};
use crate::path::{Leaving, Path};
use crate::tables::{CauseCounts, Which, median_wait};
use std::alloc::{AllocError, Allocator};

/// What became of the keys of a class.
#[derive(Clone, Copy)]
pub struct ClassFigures {
    /// From 1.
    pub class: u8,
    /// Steps that stored a key in it.
    pub stores: usize,
    /// Look-ups that found a key in it.
    pub hits: usize,
    /// Look-ups of a key that was not there and had left this class last: at most 2^64 - 1.
    pub misses: u64,
    /// Keys that left it, by cause.
    pub left: CauseCounts,
    /// How many keys were evicted, by a set or the page mover.
    pub evicted: usize,
    /// Of these, how many had never been hit since they were stored.
    pub unfetched: usize,
    /// Of these, how many were asked for again before the key was stored again.
    pub asked: usize,
    /// The median of the seconds since the evicted were stored or last bumped; none where none was evicted.
    pub idle: Option<u32>,
    /// The median of the seconds until those that were asked for again were; none where none was.
    pub asked_after: Option<u32>,
}

/// The median of the seconds that are told of these keys, so many as are counted: no row is read where there are none.
fn median_of<A: Allocator + Clone>(
    class: u8,
    which: Which,
    count: usize,
    leavings: &[Leaving],
    alloc: &A,
) -> Result<Option<u32>, AllocError>
    requires { count ≡ count_left (Some class) which leavings.now }
    ensures { IfOk result (λ median. IsMedian (waits (Some class) which leavings.now) median) }
{
    if count == 0 {
        return Ok(None);
    }
    median_wait(Some(class), which, leavings, alloc.clone()?)
}

/// The figures of a class of which the rows were counted.
fn figures_of<A: Allocator + Clone>(
    class: u8,
    steps: StepCounts,
    left: LeftCounts,
    leavings: &[Leaving],
    alloc: &A,
) -> Result<ClassFigures, AllocError>
    requires { left ≡ left_counts class leavings.now }
    ensures { (ss : List PathStep) → steps ≡ step_counts class ss → IfOk result (λ figures. IsFigures ss leavings.now class figures) }
{
    let idle = median_of(class, Which::AllEvicted, left.evicted, leavings, alloc)?;
    let asked_after = median_of(class, Which::Asked, left.asked, leavings, alloc)?;
    Ok(ClassFigures {
        class,
        stores: steps.stores,
        hits: steps.hits,
        misses: left.misses,
        left: left.left,
        evicted: left.evicted,
        unfetched: left.unfetched,
        asked: left.asked,
        idle,
        asked_after,
    })
}

/// The figures of the classes from 1 up to a last one, in order. All rows are read once, and those of the keys that
/// left once more for each median. Memory is taken for the seconds of a class's evictions, and given back.
///
/// Err: a growth was refused.
pub fn class_figures<A: Allocator + Clone>(
    path: &Path<A>,
    last: u8,
    alloc: &A,
) -> Result<Vec<ClassFigures, A>, AllocError>
    ensures count { IfOk result (λ rows. length rows.items ≡ last) }
    ensures rows { IfOk result (λ rows. AreFigures path.now.steps.items path.now.leavings.items rows.items) }
{
    let steps = count_steps_by_class(&path.steps, alloc.clone()?)?;
    let left = count_left_by_class(&path.leavings, alloc.clone()?)?;
    let mut rows = Vec::new(alloc.clone()?);
    for before in 0..last {
        let class = before + 1;
        let place = place_of(class);
        rows.push(figures_of(class, steps[place], left[place], &path.leavings, alloc)?)?;
    }
    Ok(rows)
}
