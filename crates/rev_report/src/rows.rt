//! The rows of a report's tables and curves, as CSV.
ghost use Rattle.std.specs.Prelude.{◌≡◌, ◌≢◌, ◌++◌, OnOk, decimal};
ghost use Rattle.std.specs.Io.KnownBytes.{Appends};
ghost use Rattle.csv.specs.Writing.{writer_setup, fields_written, text_written, next_sep, field_text};
ghost use Rattle.csv.specs.declared.writer.QuoteStyle.TheVariants as style;

use crate::classes::{CELL_NAMES, cells};
use crate::evidence::{EVIDENCE_NAMES, LeftBy, left_in_all};
use crate::figures::{Figures, own_counts};
use crate::keys::cause_words;
use crate::life::Life;
use crate::page::Curves;
use crate::plot::Column;
use crate::prefixes::{self, has_any, total_of};
use crate::words::{CAUSES, QUEUES};
use csv::{Writer, WriterBuilder};
use itoa::Buffer;
use rev_comparisons::what_if::{Counts, Trial, Value, WhatIf, setting_word};
use rev_explain::events::EventKind;
use rev_figures::PrefixCounts;
use rev_model::Queue;
use rev_texts::text::queue_text;
use std::alloc::Global;
use std::io::Write;
use thiserror::Error;

/// A row could not be written.
#[derive(Clone, Copy, Debug, PartialEq, Eq, Drop, Error)]
#[error("cannot write")]
pub struct RowsFailed;

// Puts a field.
fn put_word<W: Write + Drop>(rows: &mut Writer<W>, word: &[u8]) -> Result<(), RowsFailed>
    ensures { OnOk result (((writer_setup rows.old).style ≢ style.NonNumeric) → Appends (text_written W.contents rows.old) (text_written W.contents rows.new) (next_sep (writer_setup rows.old) (fields_written rows.old) ++ field_text (writer_setup rows.old) word.now)) }
{
    match rows.write_field(word) {
        Ok(()) => Ok(()),
        Err(_) => Err(RowsFailed),
    }
}

// Puts a field that is a number.
fn put_number<W: Write + Drop>(rows: &mut Writer<W>, n: u64) -> Result<(), RowsFailed>
    ensures { OnOk result (((writer_setup rows.old).style ≢ style.NonNumeric) → Appends (text_written W.contents rows.old) (text_written W.contents rows.new) (next_sep (writer_setup rows.old) (fields_written rows.old) ++ field_text (writer_setup rows.old) (decimal n))) }
{
    let mut digits = Buffer::new();
    put_word(rows, digits.format(n).as_bytes())
}

fn put_numbers<W: Write + Drop>(rows: &mut Writer<W>, numbers: &[u64]) -> Result<(), RowsFailed> {
    for number in numbers {
        put_number(rows, *number)?;
    }
    Ok(())
}

fn put_words<W: Write + Drop>(rows: &mut Writer<W>, words: &[&str]) -> Result<(), RowsFailed> {
    for word in words {
        put_word(rows, word.as_bytes())?;
    }
    Ok(())
}

// Ends a row.
fn end<W: Write + Drop>(rows: &mut Writer<W>) -> Result<(), RowsFailed> {
    match rows.end_record() {
        Ok(()) => Ok(()),
        Err(_) => Err(RowsFailed),
    }
}

// Sends what was put.
fn sent<W: Write + Drop>(mut rows: Writer<W>) -> Result<(), RowsFailed> {
    match rows.flush() {
        Ok(()) => Ok(()),
        Err(_) => Err(RowsFailed),
    }
}

fn put_cells<W: Write + Drop>(
    rows: &mut Writer<W>,
    cells: &[Option<u64>],
) -> Result<(), RowsFailed> {
    for cell in cells {
        match cell {
            Some(n) => put_number(rows, *n)?,
            None => put_word(rows, b"")?,
        }
    }
    end(rows)
}

/// Writes the table by class.
pub fn write_classes<W: Write + Drop>(writer: W, figures: &Figures) -> Result<(), RowsFailed> {
    let mut rows = WriterBuilder::new().from_writer(writer);
    put_words(&mut rows, &["class"])?;
    put_words(&mut rows, &CELL_NAMES)?;
    end(&mut rows)?;
    for row in &figures.classes {
        put_number(&mut rows, u64::from(row.figures.class))?;
        put_cells(&mut rows, &cells(row))?;
    }
    sent(rows)
}

// Puts a row of the table by prefix.
fn put_prefix<W: Write + Drop>(
    rows: &mut Writer<W>,
    prefix: &[u8],
    counts: &PrefixCounts,
) -> Result<(), RowsFailed> {
    put_word(rows, prefix)?;
    put_numbers(rows, &prefixes::cells(counts))?;
    end(rows)
}

/// Writes the table by prefix: all that are told apart, the others in one row, and the total. A prefix ends with a
/// colon, or is empty, so none is one of the two words.
pub fn write_prefixes<W: Write + Drop>(writer: W, figures: &Figures) -> Result<(), RowsFailed> {
    let prefixes = &figures.prefixes;
    let mut rows = WriterBuilder::new().from_writer(writer);
    put_words(&mut rows, &["prefix"])?;
    put_words(&mut rows, &prefixes::CELL_NAMES)?;
    end(&mut rows)?;
    for row in &prefixes.rows {
        put_prefix(&mut rows, &row.prefix, &row.counts)?;
    }
    if has_any(&prefixes.others) {
        put_prefix(&mut rows, b"others", &prefixes.others)?;
    }
    let total = total_of(&figures.totals, prefixes);
    put_prefix(&mut rows, b"total", &total)?;
    sent(rows)
}

// Puts a row of what tells of the keys that left.
fn put_evidence<W: Write + Drop>(
    rows: &mut Writer<W>,
    cause: &str,
    numbers: &[u64; 3],
) -> Result<(), RowsFailed> {
    put_word(rows, cause.as_bytes())?;
    put_numbers(rows, numbers)?;
    end(rows)
}

/// Writes what tells of the keys that left, by cause, and the total.
pub fn write_evidence<W: Write + Drop>(writer: W, evidence: &[LeftBy]) -> Result<(), RowsFailed> {
    let mut rows = WriterBuilder::new().from_writer(writer);
    put_words(&mut rows, &["cause"])?;
    put_words(&mut rows, &EVIDENCE_NAMES)?;
    end(&mut rows)?;
    for left in evidence {
        put_evidence(
            &mut rows,
            left.cause,
            &[left.logged, left.replayed, left.inferred],
        )?;
    }
    let all = left_in_all(evidence);
    put_evidence(
        &mut rows,
        "total",
        &[all.logged, all.replayed, all.inferred],
    )?;
    sent(rows)
}

// Puts which steps a column is of, and the clock behind them.
fn put_place<W: Write + Drop>(
    rows: &mut Writer<W>,
    figures: &Figures,
    column: &Column,
) -> Result<(), RowsFailed> {
    put_number(rows, column.from.saturating_add(1))?;
    put_number(rows, column.to)?;
    put_number(rows, u64::from(figures.second_after(column.to)))
}

fn put_column<W: Write + Drop>(
    rows: &mut Writer<W>,
    figures: &Figures,
    column: &Column,
    series: usize,
) -> Result<(), RowsFailed> {
    put_place(rows, figures, column)?;
    for value in column.values.iter().take(series) {
        put_number(rows, *value)?;
    }
    end(rows)
}

// Writes columns, with the names of their numbers.
fn write_columns<W: Write + Drop>(
    writer: W,
    figures: &Figures,
    names: &[&str],
    columns: &[Column],
) -> Result<(), RowsFailed> {
    let mut rows = WriterBuilder::new().from_writer(writer);
    put_words(&mut rows, &["first step", "last step", "clock"])?;
    put_words(&mut rows, names)?;
    end(&mut rows)?;
    for column in columns {
        put_column(&mut rows, figures, column, names.len())?;
    }
    sent(rows)
}

/// Writes the keys that left, by cause.
pub fn write_left<W: Write + Drop>(
    writer: W,
    figures: &Figures,
    curves: &Curves,
) -> Result<(), RowsFailed> {
    write_columns(writer, figures, &CAUSES, &curves.left)
}

/// Writes the pages that moved.
pub fn write_moves<W: Write + Drop>(
    writer: W,
    figures: &Figures,
    curves: &Curves,
) -> Result<(), RowsFailed> {
    write_columns(writer, figures, &["pages moved"], &curves.moved)
}

/// Writes the bytes of the queues of the worst classes.
pub fn write_queues<W: Write + Drop>(
    writer: W,
    figures: &Figures,
    curves: &Curves,
) -> Result<(), RowsFailed> {
    let mut rows = WriterBuilder::new().from_writer(writer);
    put_words(&mut rows, &["class", "first step", "last step", "clock"])?;
    put_words(&mut rows, &QUEUES)?;
    end(&mut rows)?;
    for curve in &curves.queues {
        for column in &curve.columns {
            put_number(&mut rows, curve.class as u64)?;
            put_column(&mut rows, figures, column, QUEUES.len())?;
        }
    }
    sent(rows)
}

// Puts what an event is, and the queue that the key stands in then or the cause.
fn put_kind<W: Write + Drop>(rows: &mut Writer<W>, kind: EventKind) -> Result<(), RowsFailed> {
    let (word, queue): (&str, Queue) = match kind {
        EventKind::Stored(place) => ("stored", place.queue),
        EventKind::Replaced(place) => ("replaced", place.queue),
        EventKind::Moved { to, .. } => ("moved", to),
        EventKind::Left(cause) => return put_words(rows, &["left", cause_words(cause)]),
    };
    put_word(rows, word.as_bytes())?;
    put_word(rows, queue_text(queue))
}

fn put_life<W: Write + Drop>(
    rows: &mut Writer<W>,
    figures: &Figures,
    life: &Life,
) -> Result<(), RowsFailed> {
    for (event, command) in life.events.iter().zip(&life.commands) {
        let step = figures.step_of(event.node.0);
        put_word(rows, &life.key)?;
        put_numbers(
            rows,
            &[
                step,
                u64::from(event.node.0),
                u64::from(figures.second_after(step)),
            ],
        )?;
        put_kind(rows, event.kind)?;
        put_word(rows, command)?;
        end(rows)?;
    }
    for ask in &life.asks {
        put_word(rows, &life.key)?;
        put_number(rows, ask.step as u64)?;
        put_word(rows, b"")?;
        put_number(rows, u64::from(figures.second_after(ask.step as u64)))?;
        put_words(
            rows,
            &["asked", if ask.is_hit { "hit" } else { "miss" }, ""],
        )?;
        end(rows)?;
    }
    Ok(())
}

/// Writes what befell keys, and when they were asked for.
pub fn write_lives<W: Write + Drop>(
    writer: W,
    figures: &Figures,
    lives: &[Life],
) -> Result<(), RowsFailed> {
    let mut rows = WriterBuilder::new().from_writer(writer);
    put_words(
        &mut rows,
        &[
            "key",
            "step",
            "node",
            "clock",
            "event",
            "queue or cause",
            "command",
        ],
    )?;
    end(&mut rows)?;
    for life in lives {
        put_life(&mut rows, figures, life)?;
    }
    sent(rows)
}

// Puts what the steps did.
fn put_counts<W: Write + Drop>(rows: &mut Writer<W>, counts: &Counts) -> Result<(), RowsFailed> {
    put_numbers(
        rows,
        &[
            counts.hits,
            counts.misses,
            u64::from(counts.share().thousandths()),
            counts.evictions,
        ],
    )
}

// Puts a setting's value, as a number and what it is divided by, and which run it is of.
fn put_run<W: Write + Drop>(
    rows: &mut Writer<W>,
    what_if: &WhatIf,
    value: Option<Value>,
    run: &str,
) -> Result<(), RowsFailed> {
    put_word(rows, setting_word(what_if.setting).as_bytes())?;
    match value {
        Some(value) => put_numbers(rows, &[u64::from(value.num), u64::from(value.den)])?,
        None => put_words(rows, &["", ""])?,
    }
    put_word(rows, run.as_bytes())
}

fn put_trial<W: Write + Drop>(
    rows: &mut Writer<W>,
    what_if: &WhatIf,
    trial: &Trial,
) -> Result<(), RowsFailed> {
    put_run(rows, what_if, Some(trial.value), "what if")?;
    match &trial.counts {
        Some(counts) => put_counts(rows, counts)?,
        None => put_words(rows, &["", "", "", ""])?,
    }
    end(rows)
}

/// Writes what other settings would have done, with a row for the trace itself in front of each setting's.
pub fn write_what_ifs<W: Write + Drop>(
    writer: W,
    figures: &Figures,
    what_ifs: &[WhatIf],
) -> Result<(), RowsFailed> {
    let mut rows = WriterBuilder::new().from_writer(writer);
    put_words(
        &mut rows,
        &[
            "setting",
            "value",
            "divided by",
            "run",
            "hits",
            "misses",
            "hit share, thousandths",
            "evictions",
        ],
    )?;
    end(&mut rows)?;
    let own = own_counts(figures);
    for what_if in what_ifs {
        put_run(&mut rows, what_if, what_if.own, "this trace")?;
        put_counts(&mut rows, &own)?;
        end(&mut rows)?;
        for trial in &what_if.trials {
            put_trial(&mut rows, what_if, trial)?;
        }
    }
    sent(rows)
}
