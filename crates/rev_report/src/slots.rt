//! The parts of a trace, one behind another, and what happened in each.
ghost use Rattle.std.specs.Prelude.{◌≡◌, ◌∷◌, [], ℕ, IfOk, Some, length, slice_get};
ghost use Rattle.rev_figures.specs.Slots.{slot_counts, slot_moves};
ghost use Rattle.rev_report.specs.Cells.{causes_of};
ghost use Rattle.rev_report.specs.declared.plot.Column.{Column};

use crate::figures::Figures;
use crate::plot::Column;
use crate::words::cause_numbers;
use rev_figures::{Path, QueueBytes, Sums, left_by_slot, moves_by_slot};
use std::alloc::{AllocError, Global};

/// The most slots of a path.
const MOST_SLOTS: usize = 120;

/// So many steps of a trace, one behind another.
#[derive(Clone, Copy, Debug, PartialEq, Eq)]
pub struct Slot {
    /// How many steps stand before it, and up to its end.
    pub from: usize,
    pub to: usize,
}

/// The slots of a path: all as long as it says, but for the last, which may be shorter.
pub fn slots_of(alloc: Global, path: &Path<Global>) -> Result<Vec<Slot>, AllocError> {
    let steps = path.steps.len();
    let mut slots = Vec::new(alloc);
    for place in 0..MOST_SLOTS {
        let from = path.slot_length.saturating_mul(place);
        if from >= steps {
            break;
        }
        slots.push(Slot {
            from,
            to: from.saturating_add(path.slot_length).min(steps),
        })?;
    }
    Ok(slots)
}

/// The slots of a trace that was read in parts.
pub fn slots_in_parts(alloc: Global, parts: &Sums<Global>) -> Result<Vec<Slot>, AllocError> {
    let mut slots = Vec::new(alloc);
    let mut from = 0;
    for slot in parts.slots() {
        slots.push(Slot { from, to: slot.to })?;
        from = slot.to;
    }
    Ok(slots)
}

fn column(slot: Slot, values: [u64; 8]) -> Column
    ensures from { result.from ≡ slot.from }
    ensures to { result.to ≡ slot.to }
    ensures values { result.values ≡ values }
{
    Column {
        from: slot.from as u64,
        to: slot.to as u64,
        values,
    }
}

/// How many keys left in each slot, by cause: a column for each slot.
pub fn left_columns(
    alloc: Global,
    path: &Path<Global>,
    slots: &[Slot],
) -> Result<Vec<Column>, AllocError>
    ensures count { IfOk result (λ columns. length columns.items ≡ length slots.now) }
    ensures values { IfOk result (λ columns. (i : ℕ) (c : Column) → slice_get columns.items i ≡ Some c → c.values ≡ causes_of (slot_counts path.now.slot_length i path.now.leavings.items)) }
{
    let counts = left_by_slot(path, slots.len(), &alloc)?;
    let mut columns = Vec::new(alloc);
    for place in 0..slots.len() {
        columns.push(column(slots[place], cause_numbers(&counts[place])))?;
    }
    Ok(columns)
}

/// How many pages moved in each slot: a column for each slot.
pub fn move_columns(
    alloc: Global,
    path: &Path<Global>,
    slots: &[Slot],
) -> Result<Vec<Column>, AllocError>
    ensures count { IfOk result (λ columns. length columns.items ≡ length slots.now) }
    ensures values { IfOk result (λ columns. (i : ℕ) (c : Column) → slice_get columns.items i ≡ Some c → c.values ≡ slot_moves path.now.slot_length i path.now.moves.items ∷ 0 ∷ 0 ∷ 0 ∷ 0 ∷ 0 ∷ 0 ∷ 0 ∷ []) }
{
    let counts = moves_by_slot(path, slots.len(), &alloc)?;
    let mut columns = Vec::new(alloc);
    for place in 0..slots.len() {
        columns.push(column(slots[place], [counts[place] as u64, 0, 0, 0, 0, 0, 0, 0]))?;
    }
    Ok(columns)
}

/// The rows behind so many steps, of rows in the order of their steps.
pub fn rows_at(rows: &[QueueBytes], step: usize) -> &[QueueBytes] {
    let first = rows.partition_point(|row| row.step < step);
    let last = rows.partition_point(|row| row.step <= step);
    rows.get(first..last).unwrap_or(&[])
}

// The bytes of a class's queues behind so many steps.
fn bytes_at(rows: &[QueueBytes], class: usize, step: usize) -> [u64; 8] {
    for row in rows_at(rows, step) {
        if row.class == class {
            return [row.hot, row.warm, row.cold, row.temp, 0, 0, 0, 0];
        }
    }
    [0, 0, 0, 0, 0, 0, 0, 0]
}

// The bytes of a class's queues at the end of each slot of a path.
fn queue_columns_of(
    alloc: Global,
    path: &Path<Global>,
    slots: &[Slot],
    class: usize,
) -> Result<Vec<Column>, AllocError> {
    let mut columns = Vec::new(alloc);
    for slot in slots {
        columns.push(column(*slot, bytes_at(&path.bytes, class, slot.to)))?;
    }
    Ok(columns)
}

// The same of a trace that was read in parts.
fn queue_columns_in(
    alloc: Global,
    parts: &Sums<Global>,
    slots: &[Slot],
    class: usize,
) -> Result<Vec<Column>, AllocError> {
    let mut columns = Vec::new(alloc);
    for (slot, sum) in slots.iter().zip(parts.slots()) {
        columns.push(column(*slot, bytes_at(&sum.bytes, class, sum.to)))?;
    }
    Ok(columns)
}

/// The bytes of a class's queues at the end of each slot.
pub fn queue_columns(
    alloc: Global,
    figures: &Figures,
    class: usize,
) -> Result<Vec<Column>, AllocError> {
    match &figures.parts {
        Some(parts) => queue_columns_in(alloc, parts, &figures.slots, class),
        None => queue_columns_of(alloc, &figures.path, &figures.slots, class),
    }
}

// How many keys left in each slot, by cause, of a trace that was read in parts.
fn left_columns_in(
    alloc: Global,
    parts: &Sums<Global>,
    slots: &[Slot],
) -> Result<Vec<Column>, AllocError> {
    let mut columns = Vec::new(alloc);
    for (slot, sum) in slots.iter().zip(parts.slots()) {
        columns.push(column(*slot, cause_numbers(&sum.left)))?;
    }
    Ok(columns)
}

// How many pages moved in each slot, of a trace that was read in parts.
fn move_columns_in(
    alloc: Global,
    parts: &Sums<Global>,
    slots: &[Slot],
) -> Result<Vec<Column>, AllocError> {
    let mut columns = Vec::new(alloc);
    for (slot, sum) in slots.iter().zip(parts.slots()) {
        columns.push(column(*slot, [sum.moves as u64, 0, 0, 0, 0, 0, 0, 0]))?;
    }
    Ok(columns)
}

/// The keys that left in each slot of a trace, by cause.
pub fn columns_of_left(alloc: Global, figures: &Figures) -> Result<Vec<Column>, AllocError> {
    match &figures.parts {
        Some(parts) => left_columns_in(alloc, parts, &figures.slots),
        None => left_columns(alloc, &figures.path, &figures.slots),
    }
}

/// The pages that moved in each slot of a trace.
pub fn columns_of_moves(alloc: Global, figures: &Figures) -> Result<Vec<Column>, AllocError> {
    match &figures.parts {
        Some(parts) => move_columns_in(alloc, parts, &figures.slots),
        None => move_columns(alloc, &figures.path, &figures.slots),
    }
}
