//! What happened over time: keys that left, and pages that moved.
use crate::figures::{Figures, all_left, clock_of};
use crate::plot::{Column, MOST_SERIES, Plot, has_series, highest};
use crate::words::{CAUSE_FILLS, CAUSES, clock_words};
use rev_markup::charts::put_fills;
use rev_markup::markup::Piece::Markup;
use rev_markup::markup::put;
use rev_markup::scale::{Frame, Unit};
use rev_markup::units::put_counted;
use std::alloc::AllocError;

const FRAME: Frame = Frame {
    left: 640,
    bottom: 2060,
    across: 4320,
    up: 1960,
    line: 175,
};

// Puts a picture of columns.
fn put_picture(
    out: &mut Vec<u8>,
    figures: &Figures,
    columns: &[Column],
    fills: &[&'static str],
) -> Result<(), AllocError> {
    let steps = figures.totals.steps as u64;
    let plot = Plot::new(FRAME, steps, highest(columns), Unit::Things);
    put(out, &[Markup("<svg viewBox=\"0 0 520 248\" role=\"img\">")])?;
    plot.put_levels(out)?;
    plot.put_columns(out, columns, fills)?;
    plot.put_ticks(out, 5, clock_of(figures))?;
    put(out, &[Markup("</svg>")])
}

fn shown(columns: &[Column]) -> [bool; MOST_SERIES] {
    [
        has_series(columns, 0),
        has_series(columns, 1),
        has_series(columns, 2),
        has_series(columns, 3),
        has_series(columns, 4),
        has_series(columns, 5),
        has_series(columns, 6),
        has_series(columns, 7),
    ]
}

// Puts which part of the trace a column is.
fn put_part(out: &mut Vec<u8>, figures: &Figures) -> Result<(), AllocError> {
    put(out, &[Markup(" in each part of ")])?;
    put_counted(out, figures.slot_length(), "step", "steps")
}

fn put_left(out: &mut Vec<u8>, figures: &Figures, columns: &[Column]) -> Result<(), AllocError> {
    put(out, &[Markup("<figure><h3>Keys that left</h3>")])?;
    if highest(columns) == 0 {
        return put(
            out,
            &[Markup("<p class=\"soft\">No key left.</p></figure>")],
        );
    }
    put_picture(out, figures, columns, &CAUSE_FILLS)?;
    put(out, &[Markup("<ul class=\"legend\">")])?;
    put_fills(out, &CAUSE_FILLS, &CAUSES, &shown(columns))?;
    put(out, &[Markup("</ul><figcaption>Keys that left")])?;
    put_part(out, figures)?;
    put(out, &[Markup(", by cause: ")])?;
    put_counted(out, all_left(&figures.totals.left), "key", "keys")?;
    put(out, &[Markup(" in all.</figcaption></figure>")])
}

fn put_moves(out: &mut Vec<u8>, figures: &Figures, columns: &[Column]) -> Result<(), AllocError> {
    put(out, &[Markup("<figure><h3>Pages moved</h3>")])?;
    if highest(columns) == 0 {
        return put(
            out,
            &[Markup(
                "<p class=\"soft\">No page went to another class or to the pool.</p></figure>",
            )],
        );
    }
    put_picture(out, figures, columns, &["url(#m0)"])?;
    put(
        out,
        &[Markup("<figcaption>Pages that went to another class or to the pool")],
    )?;
    put_part(out, figures)?;
    put(out, &[Markup(": ")])?;
    put_counted(out, figures.moves().len() as u64, "page", "pages")?;
    put(out, &[Markup(" in all.</figcaption></figure>")])
}

/// Puts the pictures of what happened over time.
pub fn put_times(
    out: &mut Vec<u8>,
    figures: &Figures,
    left: &[Column],
    moved: &[Column],
) -> Result<(), AllocError> {
    put(
        out,
        &[
            Markup(
                "<h2>Over time</h2><p class=\"soft\">Below each picture stand the steps of the trace, and below them ",
            ),
            Markup(clock_words(figures.clock_kind)),
            Markup(".</p><div class=\"pair\">"),
        ],
    )?;
    put_left(out, figures, left)?;
    put_moves(out, figures, moved)?;
    put(out, &[Markup("</div>")])
}
