//! The figures of a session that a report is made of.
ghost use Rattle.std.specs.Prelude.{◌≡◌, ◌+◌, ◌-◌, ◌^◌, min};

use crate::keys::step_of;
use crate::slots::{Slot, rows_at, slots_in_parts, slots_of};
use crate::words::{Clock, cause_numbers, second_after};
use rev_classes::ClassTable;
use rev_comparisons::what_if::Counts;
use rev_figures::{
    ByPrefix, CauseCounts, ClassFigures, PageMove, Path, StepKind, Sums, Totals, by_prefix,
    class_figures, count_all, gather,
};
use rev_undotree::Session;
use std::alloc::{AllocError, Global};

/// What the clock of a trace counts.
#[derive(Clone, Copy, Debug, PartialEq, Eq)]
pub enum ClockKind {
    /// The seconds of the Unix clock, as a server's log has them: a moment is told as its time of day, in UTC.
    Unix,
    /// Seconds of the trace's own: a moment is told as the time since the beginning.
    FromBegin,
}

/// A class that stored a key, lost one, or owns pages at the end.
#[derive(Clone, Copy)]
pub struct ClassRow {
    pub figures: ClassFigures,
    /// Bytes of a chunk.
    pub chunk_size: u32,
    /// How many pages the class owns at the end, and how many bytes its items have.
    pub pages: u64,
    pub bytes: u64,
}

/// What a report tells in numbers.
#[derive(Drop)]
pub struct Figures {
    /// The whole trace, or its last part.
    pub path: Path<Global>,
    /// What was counted of all parts, where the trace was read in some.
    pub parts: Option<Sums<Global>>,
    pub totals: Totals,
    /// The class that lost most keys by eviction stands first.
    pub classes: Vec<ClassRow>,
    /// The prefix that lost most keys by eviction stands first.
    pub prefixes: ByPrefix<Global>,
    /// The parts of the trace, one behind another.
    pub slots: Vec<Slot>,
    /// The clock at the first step that stores or looks up, in seconds.
    pub begin: u32,
    /// What the clock counts.
    pub clock_kind: ClockKind,
}

// The clock at the end of the slot that a step is in, in seconds, of a trace that was read in parts.
fn second_in(parts: &Sums<Global>, steps: u64) -> u32 {
    let slots = parts.slots();
    let place = slots.partition_point(|slot| (slot.to as u64) < steps);
    match slots.get(place) {
        Some(slot) if steps > 0 => slot.second,
        _ => parts.totals.first_second,
    }
}

impl Figures {
    /// The clock along the path.
    pub fn clock(&self) -> Clock<'_> {
        Clock { figures: self }
    }

    /// How many steps stand in front of the path.
    pub fn before(&self) -> usize {
        self.totals.steps.saturating_sub(self.path.steps.len())
    }

    /// The clock behind so many steps, in seconds. In front of the last part it is that at the end of the slot.
    pub fn second_after(&self, steps: u64) -> u32 {
        match steps.checked_sub(self.before() as u64) {
            Some(steps) if steps > 0 => second_after(&self.path, steps),
            _ => match &self.parts {
                Some(parts) => second_in(parts, steps),
                None => self.path.start,
            },
        }
    }

    /// Which step a node of the path is, from 1.
    pub fn step_of(&self, node: u32) -> u64 {
        step_of(&self.path, node).saturating_add(self.before() as u64)
    }

    /// The pages that moved, in order.
    pub fn moves(&self) -> &[PageMove] {
        match &self.parts {
            Some(parts) => parts.moves.as_slice(),
            None => self.path.moves.as_slice(),
        }
    }

    /// How many steps a slot has, but for the last.
    pub fn slot_length(&self) -> u64 {
        match self.slots.first() {
            Some(slot) => slot.to as u64,
            None => self.path.slot_length as u64,
        }
    }
}

/// What the steps of the trace itself did.
pub fn own_counts(figures: &Figures) -> Counts
    ensures hits { result.hits ≡ figures.now.totals.hits }
    ensures misses { result.misses ≡ figures.now.totals.misses }
    ensures evictions { result.evictions ≡ min (figures.now.totals.left.evicted + figures.now.totals.left.evicted_by_mover) (2 ^ 64 - 1) }
{
    let left = &figures.totals.left;
    Counts {
        hits: figures.totals.hits as u64,
        misses: figures.totals.misses as u64,
        evictions: (left.evicted as u64).saturating_add(left.evicted_by_mover as u64),
    }
}

/// The clock along the path, where it goes on.
pub fn clock_of(figures: &Figures) -> Option<Clock<'_>> {
    if figures.totals.last_second > figures.begin {
        Some(figures.clock())
    } else {
        None
    }
}

// The clock at the first step that stores or looks up.
fn begin_of(path: &Path<Global>) -> u32 {
    for step in &path.steps {
        match step.kind {
            StepKind::Stored | StepKind::Hit | StepKind::Miss => return step.second,
            StepKind::Other => {}
        }
    }
    path.start
}

/// How many keys left, by all causes.
pub fn all_left(left: &CauseCounts) -> u64 {
    let mut sum = 0u64;
    for count in &cause_numbers(left) {
        sum = sum.saturating_add(*count);
    }
    sum
}

// How many pages a class owns at the end, and how many bytes its items have.
fn held_at_end(path: &Path<Global>, class: usize) -> (u64, u64) {
    let steps = path.steps.len();
    for row in rows_at(&path.bytes, steps) {
        if row.class == class {
            let warmer = row.hot.saturating_add(row.warm);
            let colder = row.cold.saturating_add(row.temp);
            return (row.pages as u64, warmer.saturating_add(colder));
        }
    }
    (0, 0)
}

// Whether a class stored a key, hit one, or lost one.
fn has_part(figures: &ClassFigures) -> bool {
    figures.stores > 0 || figures.hits > 0 || all_left(&figures.left) > 0
}

// The figures of all classes, in parts.
fn figures_in_parts(
    alloc: Global,
    parts: &Sums<Global>,
    last: u8,
) -> Result<Vec<ClassFigures>, AllocError> {
    let mut figures = Vec::new(alloc);
    for before in 0..last {
        figures.push(parts.figures(before + 1)?)?;
    }
    Ok(figures)
}

// The rows of all classes that have a part in the trace, of which these are the figures and the last part.
fn class_rows(
    alloc: Global,
    all: &[ClassFigures],
    path: &Path<Global>,
    table: &ClassTable,
) -> Result<Vec<ClassRow>, AllocError> {
    let mut rows = Vec::new(alloc);
    for class in 1..=table.last() {
        let Some(figures) = all.get(class - 1) else {
            break;
        };
        let (pages, bytes) = held_at_end(path, class);
        if pages > 0 || has_part(figures) {
            rows.push(ClassRow {
                figures: *figures,
                chunk_size: table.chunk_size(class),
                pages,
                bytes,
            })?;
        }
    }
    rows.sort_by_key(|row| u64::MAX - row.figures.evicted as u64)?;
    Ok(rows)
}

/// The figures of the way from the root to the current node of a session, whose store has this configuration. The
/// session stands where it stood.
pub fn figures_of(
    alloc: Global,
    session: &mut Session<Global>,
    table: &ClassTable,
    clock_kind: ClockKind,
) -> Result<Figures, AllocError>
    ensures { session.new ≡ session.old }
{
    let path = gather(session)?;
    let prefixes = by_prefix(&*session, &path, alloc)?;
    let all = class_figures(&path, table.last() as u8, &alloc)?;
    let classes = class_rows(alloc, &all, &path, table)?;
    let slots = slots_of(alloc, &path)?;
    Ok(Figures {
        totals: count_all(&path),
        classes,
        prefixes,
        slots,
        begin: begin_of(&path),
        clock_kind,
        path,
        parts: None,
    })
}

/// The figures of a trace that was read in parts, of which the session has the last one. It stands where it stood.
pub fn figures_of_parts(
    alloc: Global,
    parts: Sums<Global>,
    session: &mut Session<Global>,
    table: &ClassTable,
    clock_kind: ClockKind,
) -> Result<Figures, AllocError>
    ensures { session.new ≡ session.old }
{
    let path = gather(session)?;
    let prefixes = parts.by_prefix()?;
    let all = figures_in_parts(alloc, &parts, table.last() as u8)?;
    let classes = class_rows(alloc, &all, &path, table)?;
    let slots = slots_in_parts(alloc, &parts)?;
    Ok(Figures {
        totals: parts.totals,
        classes,
        prefixes,
        slots,
        begin: parts.first_use.unwrap_or(parts.totals.first_second),
        clock_kind,
        path,
        parts: Some(parts),
    })
}
