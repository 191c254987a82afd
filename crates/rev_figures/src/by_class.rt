//! What is counted of each class, in one pass over the rows of a path.
ghost use Rattle.std.specs.Prelude.{◌≡◌, ◌<◌, ◌^◌, ℕ, IfOk, get_or, length};
ghost use Rattle.rev_figures.specs.declared.by_class.LeftCounts.{LeftCounts};
ghost use Rattle.rev_figures.specs.declared.by_class.StepCounts.{StepCounts};
ghost use Rattle.rev_figures.specs.Classes.{more, step_counts, with_step, left_counts, with_cause, with_leaving};

use crate::path::{Leaving, PathStep, StepKind};
use crate::tables::{CauseCounts, NO_CAUSES, Which, is_one, kind_number};
use rev_model::Cause;
use std::alloc::{AllocError, Allocator};

/// How many numbers a class may have.
pub const NUMBERS: usize = 256;

/// What is counted of the steps of a class.
#[derive(Clone, Copy)]
pub struct StepCounts {
    pub stores: usize,
    pub hits: usize,
}

/// What is counted of the keys that left a class.
#[derive(Clone, Copy)]
pub struct LeftCounts {
    pub misses: u64,
    pub left: CauseCounts,
    pub evicted: usize,
    pub unfetched: usize,
    pub asked: usize,
}

/// A count with one more, if there is one.
pub fn more(is_one: bool, count: usize) -> usize
    ensures { result ≡ more is_one count }
{
    if is_one {
        count.saturating_add(1)
    } else {
        count
    }
}

/// The counts with a step of the class more.
pub fn with_step(counts: StepCounts, step: &PathStep) -> StepCounts
    ensures { result ≡ with_step counts step.now }
{
    let number = kind_number(step.kind);
    StepCounts {
        stores: more(kind_number(StepKind::Stored) == number, counts.stores),
        hits: more(kind_number(StepKind::Hit) == number, counts.hits),
    }
}

/// The counts of a cause with one more.
pub fn with_cause(counts: CauseCounts, leaving: &Leaving) -> CauseCounts
    ensures { result ≡ with_cause counts leaving.now }
{
    let is_by = |cause| is_one(Which::By(cause), leaving);
    CauseCounts {
        evicted: more(is_by(Cause::Evicted), counts.evicted),
        evicted_by_mover: more(is_by(Cause::EvictedByMover), counts.evicted_by_mover),
        reclaimed_by_pull: more(is_by(Cause::ReclaimedByPull), counts.reclaimed_by_pull),
        reclaimed_by_crawler: more(
            is_by(Cause::ReclaimedByCrawler),
            counts.reclaimed_by_crawler,
        ),
        reclaimed_by_hit: more(is_by(Cause::ReclaimedByHit), counts.reclaimed_by_hit),
        reclaimed_by_mover: more(is_by(Cause::ReclaimedByMover), counts.reclaimed_by_mover),
        deleted: more(is_by(Cause::Deleted), counts.deleted),
        dropped_by_failed_set: more(
            is_by(Cause::DroppedByFailedSet),
            counts.dropped_by_failed_set,
        ),
    }
}

/// The counts with a key more that left the class.
fn with_leaving(counts: LeftCounts, leaving: &Leaving) -> LeftCounts
    ensures { result ≡ with_leaving counts leaving.now }
{
    LeftCounts {
        misses: counts.misses.saturating_add(u64::from(leaving.asks)),
        left: with_cause(counts.left, leaving),
        evicted: more(is_one(Which::AllEvicted, leaving), counts.evicted),
        unfetched: more(is_one(Which::Unfetched, leaving), counts.unfetched),
        asked: more(is_one(Which::Asked, leaving), counts.asked),
    }
}

/// Where a class is counted.
pub fn place_of(class: u8) -> usize
    ensures value { result ≡ class }
    ensures within { result < 256 }
{
    usize::from(class)
}

/// What is counted of the steps of each class, by its number.
pub fn count_steps_by_class<A: Allocator>(
    steps: &[PathStep],
    alloc: A,
) -> Result<Vec<StepCounts, A>, AllocError>
    requires { length steps.now < 2 ^ 63 }
    ensures count { IfOk result (λ counts. length counts.items ≡ 256) }
    ensures counts { IfOk result (λ counts. (c : ℕ) (d : StepCounts) → c < 256 → get_or counts.items c d ≡ step_counts c steps.now) }
{
    let none = StepCounts { stores: 0, hits: 0 };
    let mut counts = vec![in alloc; none; NUMBERS]?;
    for step in steps {
        let class = place_of(step.class);
        counts[class] = with_step(counts[class], step);
    }
    Ok(counts)
}

/// What is counted of the keys that left each class, by its number.
pub fn count_left_by_class<A: Allocator>(
    leavings: &[Leaving],
    alloc: A,
) -> Result<Vec<LeftCounts, A>, AllocError>
    requires { length leavings.now < 2 ^ 63 }
    ensures count { IfOk result (λ counts. length counts.items ≡ 256) }
    ensures counts { IfOk result (λ counts. (c : ℕ) (d : LeftCounts) → c < 256 → get_or counts.items c d ≡ left_counts c leavings.now) }
{
    let none = LeftCounts {
        misses: 0,
        left: NO_CAUSES,
        evicted: 0,
        unfetched: 0,
        asked: 0,
    };
    let mut counts = vec![in alloc; none; NUMBERS]?;
    for leaving in leavings {
        let class = place_of(leaving.class);
        counts[class] = with_leaving(counts[class], leaving);
    }
    Ok(counts)
}
