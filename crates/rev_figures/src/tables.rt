//! The tables of a report, counted from the rows of a path.
ghost use Rattle.std.specs.Prelude.{◌≡◌, IfOk, length, map, Some, None};
ghost use Rattle.std.specs.List.{filter};
ghost use Rattle.rev_figures.specs.declared.path.StepKind.TheVariants as kind;
ghost use Rattle.rev_figures.specs.Tables.{cause_number, kind_number, is_of, is_eviction, is_one, is_counted, count_left, cause_counts, is_step, count_steps, wait, waits, IsMedian, last_second};

use crate::path::{Leaving, Path, PathStep, StepKind};
use rev_model::Cause;
use std::alloc::{AllocError, Allocator};

/// How many keys left by each cause.
#[derive(Clone, Copy)]
pub struct CauseCounts {
    pub evicted: usize,
    pub evicted_by_mover: usize,
    pub reclaimed_by_pull: usize,
    pub reclaimed_by_crawler: usize,
    pub reclaimed_by_hit: usize,
    pub reclaimed_by_mover: usize,
    pub deleted: usize,
    pub dropped_by_failed_set: usize,
}

/// What all steps did.
#[derive(Clone, Copy)]
pub struct Totals {
    pub steps: usize,
    /// Look-ups that found an item, and those that found none.
    pub hits: usize,
    pub misses: usize,
    pub stores: usize,
    /// Keys that left, by cause.
    pub left: CauseCounts,
    /// The clock at the root, and after the last step, in seconds.
    pub first_second: u32,
    pub last_second: u32,
}

/// None left.
pub const NO_CAUSES: CauseCounts = CauseCounts {
    evicted: 0,
    evicted_by_mover: 0,
    reclaimed_by_pull: 0,
    reclaimed_by_crawler: 0,
    reclaimed_by_hit: 0,
    reclaimed_by_mover: 0,
    deleted: 0,
    dropped_by_failed_set: 0,
};

/// Which of the keys that left are counted.
#[derive(Clone, Copy)]
pub enum Which {
    /// Those that left by this cause.
    By(Cause),
    /// Those that were evicted, by a set or the page mover.
    AllEvicted,
    /// Those of them that had never been hit.
    Unfetched,
    /// Those of them that were asked for again.
    Asked,
}

/// The number of a cause.
fn cause_number(cause: Cause) -> u8
    ensures { result ≡ cause_number cause }
{
    match cause {
        Cause::Evicted => 0,
        Cause::ReclaimedByPull => 1,
        Cause::ReclaimedByCrawler => 2,
        Cause::ReclaimedByHit => 3,
        Cause::ReclaimedByMover => 4,
        Cause::EvictedByMover => 5,
        Cause::Deleted => 6,
        Cause::DroppedByFailedSet => 7,
    }
}

/// The number of a kind.
pub fn kind_number(kind: StepKind) -> u8
    ensures { result ≡ kind_number kind }
{
    match kind {
        StepKind::Stored => 0,
        StepKind::Hit => 1,
        StepKind::Miss => 2,
        StepKind::Other => 3,
    }
}

/// Whether a class is the one, or any is.
fn is_of(class: Option<u8>, other: u8) -> bool
    ensures { result ≡ is_of class other }
{
    match class {
        Some(class) => class == other,
        None => true,
    }
}

/// Whether a cause is an eviction, by a set or by the page mover.
pub fn is_eviction(cause: Cause) -> bool
    ensures { result ≡ is_eviction cause }
{
    let number = cause_number(cause);
    number == 0 || number == 5
}

/// Whether a key that left is one of these.
pub fn is_one(which: Which, leaving: &Leaving) -> bool
    ensures { result ≡ is_one which leaving.now }
{
    match which {
        Which::By(cause) => cause_number(cause) == cause_number(leaving.cause),
        Which::AllEvicted => is_eviction(leaving.cause),
        Which::Unfetched => is_eviction(leaving.cause) && !leaving.fetched,
        Which::Asked => is_eviction(leaving.cause) && 0 < leaving.asks,
    }
}

/// Whether a key that left is one of these, and left the class.
fn is_counted(class: Option<u8>, which: Which, leaving: &Leaving) -> bool
    ensures { result ≡ is_counted class which leaving.now }
{
    is_of(class, leaving.class) && is_one(which, leaving)
}

/// How many of these keys left the class.
fn count_left(class: Option<u8>, which: Which, leavings: &[Leaving]) -> usize
    ensures { result ≡ count_left class which leavings.now }
{
    leavings
        .iter()
        .filter(|leaving| is_counted(class, which, leaving))
        .count()
}

/// How many keys left the class by each cause.
fn count_causes(class: Option<u8>, leavings: &[Leaving]) -> CauseCounts
    ensures { result ≡ cause_counts class leavings.now }
{
    CauseCounts {
        evicted: count_left(class, Which::By(Cause::Evicted), leavings),
        evicted_by_mover: count_left(class, Which::By(Cause::EvictedByMover), leavings),
        reclaimed_by_pull: count_left(class, Which::By(Cause::ReclaimedByPull), leavings),
        reclaimed_by_crawler: count_left(class, Which::By(Cause::ReclaimedByCrawler), leavings),
        reclaimed_by_hit: count_left(class, Which::By(Cause::ReclaimedByHit), leavings),
        reclaimed_by_mover: count_left(class, Which::By(Cause::ReclaimedByMover), leavings),
        deleted: count_left(class, Which::By(Cause::Deleted), leavings),
        dropped_by_failed_set: count_left(class, Which::By(Cause::DroppedByFailedSet), leavings),
    }
}

/// Whether a step did this with a key of the class.
fn is_step(class: Option<u8>, kind: StepKind, step: &PathStep) -> bool
    ensures { result ≡ is_step class kind step.now }
{
    is_of(class, step.class) && kind_number(kind) == kind_number(step.kind)
}

/// How many steps did this with a key of the class.
fn count_steps(class: Option<u8>, kind: StepKind, steps: &[PathStep]) -> usize
    ensures { result ≡ count_steps class kind steps.now }
{
    steps
        .iter()
        .filter(|step| is_step(class, kind, step))
        .count()
}

/// The seconds that are told of one of these: until it was asked for again, or since it was used.
fn wait(which: Which, leaving: &Leaving) -> u32
    ensures { result ≡ wait which leaving.now }
{
    match which {
        Which::Asked => leaving.asked_after,
        Which::By(_) | Which::AllEvicted | Which::Unfetched => leaving.idle,
    }
}

/// The same of all that left the class.
fn waits<A: Allocator>(
    class: Option<u8>,
    which: Which,
    leavings: &[Leaving],
    alloc: A,
) -> Result<Vec<u32, A>, AllocError>
    ensures { IfOk result (λ seconds. seconds.items ≡ map (wait which) (filter (is_counted class which) leavings.now)) }
{
    leavings
        .iter()
        .filter(|leaving| is_counted(class, which, leaving))
        .map(|leaving| wait(which, leaving))
        .collect(alloc)
}

/// The median of some numbers, the higher of two in the middle; none of none.
fn median<A: Allocator + Clone>(numbers: &mut Vec<u32, A>) -> Result<Option<u32>, AllocError>
    ensures { IfOk result (λ median. IsMedian numbers.old.items median) }
{
    numbers.sort()?;
    Ok(numbers.get(numbers.len() / 2).copied())
}

/// The median of the seconds that are told of these.
pub fn median_wait<A: Allocator + Clone>(
    class: Option<u8>,
    which: Which,
    leavings: &[Leaving],
    alloc: A,
) -> Result<Option<u32>, AllocError>
    ensures { IfOk result (λ median. IsMedian (waits class which leavings.now) median) }
{
    let mut seconds = waits(class, which, leavings, alloc)?;
    median(&mut seconds)
}

/// The clock after the last of these steps, in seconds, or else the root's.
pub fn last_second(start: u32, steps: &[PathStep]) -> u32
    ensures { result ≡ last_second start steps.now }
{
    match steps.last() {
        Some(step) => step.second,
        None => start,
    }
}

/// The totals of a path.
pub fn count_all<A: Allocator>(path: &Path<A>) -> Totals
    ensures steps { result.steps ≡ length path.now.steps.items }
    ensures hits { result.hits ≡ count_steps None kind.Hit path.now.steps.items }
    ensures misses { result.misses ≡ count_steps None kind.Miss path.now.steps.items }
    ensures stores { result.stores ≡ count_steps None kind.Stored path.now.steps.items }
    ensures left { result.left ≡ cause_counts None path.now.leavings.items }
    ensures first { result.first_second ≡ path.now.start }
    ensures last { result.last_second ≡ last_second path.now.start path.now.steps.items }
{
    Totals {
        steps: path.steps.len(),
        hits: count_steps(None, StepKind::Hit, &path.steps),
        misses: count_steps(None, StepKind::Miss, &path.steps),
        stores: count_steps(None, StepKind::Stored, &path.steps),
        left: count_causes(None, &path.leavings),
        first_second: path.start,
        last_second: last_second(path.start, &path.steps),
    }
}
