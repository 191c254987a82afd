//! The rows of a trace, made into the lines of a script.
ghost use Rattle.std.specs.Prelude.{◌≡◌, ◌≤◌, min, max, nat_lt, OnOk};
ghost use Rattle.rev_import.specs.Becoming.{exptime_of};
ghost use Rattle.rev_import.specs.Figures.{no_figures};
ghost use Rattle.rev_import.specs.Requests.{stored, row_lines, clock_at};
ghost use Rattle.rev_import.specs.Writing.{Writes};

use crate::figures::{Figures, one_more};
use crate::scribe::{Scribe, exptime_of};
use crate::writing::{MOST_DATA, Storing};
use rev_choices::Rhythm;
use rev_classes::ClassTable;
use rev_trace::row::{Operation, Row};
use std::alloc::{AllocError, Allocator};
use std::marker::Model;

/// Writes the lines of rows, one row after another.
#[derive(Drop)]
pub struct RowScribe {
    scribe: Scribe,
    figures: Figures,
    start: u32,
    latest: u32,
}

impl Model for RowScribe {
    ghost use Rattle.rev_import.specs.Requests.{PlainRowScribe};

    ghost Value = { PlainRowScribe };

    ghost view = { λ s. record { start = s.start; latest = s.latest; figures = s.figures } };
}

// The bytes of data in the place of so many: a script has no more than a page, and no page holds as many.
fn data_size(size: u32) -> u32
    ensures same { result ≡ min size 1048576 }
    ensures few { result ≤ 1048576 }
{
    if size < MOST_DATA { size } else { MOST_DATA }
}

// The later of two seconds.
fn later(first: u32, second: u32) -> u32
    ensures { result ≡ max first second }
{
    if first < second { second } else { first }
}

fn store<B: Allocator>(
    scribe: &mut Scribe,
    storing: Storing,
    now: u32,
    row: &Row,
    out: &mut Vec<u8, B>,
    figures: &mut Figures,
) -> Result<(), AllocError>
    ensures { OnOk result (Writes out.old.items out.new.items (stored storing now row.now)) }
{
    let size = data_size(row.size);
    if scribe.class_of(&row.key, 0, size).is_none() {
        one_more(&mut figures.too_large);
    }
    let exptime = exptime_of(now, row.ttl);
    scribe.store(storing, &row.key, 0, exptime, size, out, figures)
}

fn write_row<B: Allocator>(
    scribe: &mut Scribe,
    now: u32,
    row: &Row,
    out: &mut Vec<u8, B>,
    figures: &mut Figures,
) -> Result<(), AllocError>
    ensures { OnOk result (Writes out.old.items out.new.items (row_lines now row.now)) }
{
    match row.operation {
        Operation::Get => scribe.get(&row.key, out, figures),
        Operation::Gets => scribe.get(&row.key, out, figures),
        Operation::Set => store(scribe, Storing::Set, now, row, out, figures),
        Operation::Add => store(scribe, Storing::Add, now, row, out, figures),
        Operation::Replace => store(scribe, Storing::Replace, now, row, out, figures),
        Operation::Cas => store(scribe, Storing::Set, now, row, out, figures),
        Operation::Append => store(scribe, Storing::Append, now, row, out, figures),
        Operation::Prepend => store(scribe, Storing::Prepend, now, row, out, figures),
        Operation::Delete => scribe.delete(&row.key, out, figures),
        Operation::Increment => scribe.increment(&row.key, out, figures),
        Operation::Decrement => scribe.decrement(&row.key, out, figures),
        Operation::Unknown => Ok(()),
    }
}

impl RowScribe {
    /// A scribe for a store of these classes, whose clock begins at this second.
    pub fn new(classes: ClassTable, rhythm: Rhythm, start: u32) -> RowScribe
        ensures { result ≡ record { start = start; latest = 0; figures = no_figures } }
    {
        RowScribe {
            scribe: Scribe::starting(classes, rhythm, start),
            figures: Figures::none(),
            start,
            latest: 0,
        }
    }

    /// Whether a row has an earlier second than one before it.
    pub fn is_late(&self, row: &Row) -> bool
        ensures { result ≡ nat_lt row.now.time self.now.latest }
    {
        row.time < self.latest
    }

    /// Writes the lines of the next row. The clock is set in front of them, where the row has a later second.
    ///
    /// Err: memory was refused.
    pub fn write<B: Allocator>(&mut self, row: &Row, out: &mut Vec<u8, B>) -> Result<(), AllocError>
        ensures writes { OnOk result (Writes out.old.items out.new.items (row_lines (clock_at self.old.start (max self.old.latest row.now.time)) row.now)) }
        ensures latest { self.new.latest ≡ max self.old.latest row.now.time }
        ensures start { self.new.start ≡ self.old.start }
    {
        self.latest = later(self.latest, row.time);
        let now = later(self.start, self.latest);
        self.scribe.set_clock(now, out, &mut self.figures)?;
        write_row(&mut self.scribe, now, row, out, &mut self.figures)
    }

    /// What was counted so far.
    pub fn figures(&self) -> Figures
        ensures { result ≡ self.now.figures }
    {
        self.figures
    }
}
