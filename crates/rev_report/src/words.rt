//! Words of a report, as a reader sees them.
ghost use Rattle.std.specs.Prelude.{◌≡◌};
ghost use Rattle.rev_report.specs.Cells.{causes_of};

use crate::figures::{ClockKind, Figures};
use rev_figures::{CauseCounts, Path};
use rev_markup::calendar::put_time_of_day;
use rev_markup::units::put_span;
use std::alloc::{AllocError, Global};

/// The causes in the order in which they are told.
pub const CAUSES: [&str; 8] = [
    "evicted",
    "evicted by mover",
    "deleted",
    "dropped by failed set",
    "reclaimed by hit",
    "reclaimed by pull",
    "reclaimed by crawler",
    "reclaimed by mover",
];

/// The fills of the causes, in the same order.
pub const CAUSE_FILLS: [&str; 8] = [
    "url(#c0)", "url(#c1)", "url(#c2)", "url(#c3)", "url(#c4)", "url(#c5)", "url(#c6)", "url(#c7)",
];

/// The numbers of causes, in the same order.
pub fn cause_numbers(left: &CauseCounts) -> [u64; 8]
    ensures { result ≡ causes_of left.now }
{
    [
        left.evicted as u64,
        left.evicted_by_mover as u64,
        left.deleted as u64,
        left.dropped_by_failed_set as u64,
        left.reclaimed_by_hit as u64,
        left.reclaimed_by_pull as u64,
        left.reclaimed_by_crawler as u64,
        left.reclaimed_by_mover as u64,
    ]
}

/// The queues in the order in which they stand on one another.
pub const QUEUES: [&str; 4] = ["HOT", "WARM", "COLD", "TEMP"];

/// The fills of the queues, in the same order.
pub const QUEUE_FILLS: [&str; 4] = ["url(#q0)", "url(#q1)", "url(#q2)", "url(#q3)"];

/// The clock behind so many steps, in seconds.
pub fn second_after(path: &Path<Global>, steps: u64) -> u32 {
    let Some(last) = steps.checked_sub(1) else {
        return path.start;
    };
    match path.steps.get(last as usize) {
        Some(step) => step.second,
        None => path.start,
    }
}

/// The clock along a trace.
#[derive(Clone, Copy)]
pub struct Clock<'a> {
    pub figures: &'a Figures,
}

/// Puts what the clock shows behind so many steps.
pub fn put_clock(out: &mut Vec<u8>, clock: Clock<'_>, steps: u64) -> Result<(), AllocError> {
    let figures = clock.figures;
    let second = figures.second_after(steps).max(figures.begin);
    match figures.clock_kind {
        ClockKind::Unix => put_time_of_day(out, second),
        ClockKind::FromBegin => put_span(out, u64::from(second.saturating_sub(figures.begin))),
    }
}

/// What is told of the clocks below pictures.
pub fn clock_words(kind: ClockKind) -> &'static str {
    match kind {
        ClockKind::Unix => "the time of day in UTC",
        ClockKind::FromBegin => "the clock since its beginning in minutes and seconds",
    }
}
