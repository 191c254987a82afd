//! How full the queues of the worst classes are over time.
use crate::figures::Figures;
use crate::plot::{Column, Plot, highest};
use crate::slots::queue_columns;
use crate::words::{QUEUE_FILLS, QUEUES};
use rev_markup::charts::put_fills;
use rev_markup::markup::Piece::{Count, Markup};
use rev_markup::markup::put;
use rev_markup::scale::{Frame, Unit};
use rev_markup::units::{put_bytes, put_counted};
use std::alloc::{AllocError, Global};

/// How many classes are drawn (this project's own figure).
pub const DRAWN: usize = 9;

const FRAME: Frame = Frame {
    left: 640,
    bottom: 1380,
    across: 2580,
    up: 1300,
    line: 175,
};

/// The bytes of a class's queues at the ends of the slots.
#[derive(Drop)]
pub struct QueueCurve {
    pub class: usize,
    pub columns: Vec<Column>,
}

/// The curves of the worst classes that ever held anything.
pub fn queue_curves(alloc: Global, figures: &Figures) -> Result<Vec<QueueCurve>, AllocError> {
    let mut curves = Vec::new(alloc);
    for row in figures.classes.iter().take(DRAWN) {
        let class = usize::from(row.figures.class);
        let columns = queue_columns(alloc, figures, class)?;
        if highest(&columns) > 0 {
            curves.push(QueueCurve { class, columns })?;
        }
    }
    Ok(curves)
}

// The highest of all curves.
fn highest_of(curves: &[QueueCurve]) -> u64 {
    let mut most = 0u64;
    for curve in curves {
        most = most.max(highest(&curve.columns));
    }
    most
}

// The steps at which a page came to a class.
fn came(alloc: Global, figures: &Figures, class: usize) -> Result<Vec<u64>, AllocError> {
    let mut steps = Vec::new(alloc);
    for moved in figures.moves() {
        if usize::from(moved.to) == class {
            steps.push(moved.step as u64)?;
        }
    }
    Ok(steps)
}

// The steps at which a page left a class.
fn went(alloc: Global, figures: &Figures, class: usize) -> Result<Vec<u64>, AllocError> {
    let mut steps = Vec::new(alloc);
    for moved in figures.moves() {
        if usize::from(moved.from) == class {
            steps.push(moved.step as u64)?;
        }
    }
    Ok(steps)
}

// What a class holds at the end.
fn put_end(out: &mut Vec<u8>, figures: &Figures, class: usize) -> Result<(), AllocError> {
    for row in &figures.classes {
        if usize::from(row.figures.class) == class {
            put(
                out,
                &[
                    Markup("<figcaption>Class "),
                    Count(u64::from(row.figures.class)),
                    Markup(" ends with items of "),
                ],
            )?;
            put_bytes(out, row.bytes)?;
            put(out, &[Markup(" in ")])?;
            put_counted(out, row.pages, "page", "pages")?;
            return put(out, &[Markup(".</figcaption>")]);
        }
    }
    Ok(())
}

fn put_curve(
    out: &mut Vec<u8>,
    alloc: Global,
    figures: &Figures,
    curve: &QueueCurve,
    most: u64,
) -> Result<(), AllocError> {
    let plot = Plot::new(FRAME, figures.totals.steps as u64, most, Unit::Bytes);
    put(
        out,
        &[
            Markup("<figure><h3>Class "),
            Count(curve.class as u64),
            Markup("</h3><svg viewBox=\"0 0 340 164\" role=\"img\">"),
        ],
    )?;
    plot.put_levels(out)?;
    plot.put_columns(out, &curve.columns, &QUEUE_FILLS)?;
    plot.put_rules(out, "came", &came(alloc, figures, curve.class)?)?;
    plot.put_rules(out, "went", &went(alloc, figures, curve.class)?)?;
    plot.put_ticks(out, 3, None)?;
    put(out, &[Markup("</svg>")])?;
    put_end(out, figures, curve.class)?;
    put(out, &[Markup("</figure>")])
}

/// Puts small pictures of the queues of the worst classes, all in one scale.
pub fn put_queues(
    out: &mut Vec<u8>,
    alloc: Global,
    figures: &Figures,
    curves: &[QueueCurve],
) -> Result<(), AllocError> {
    if curves.is_empty() {
        return Ok(());
    }
    put(
        out,
        &[Markup(
            "<h2>Queues of the worst classes</h2><p class=\"soft\">The bytes of the items in each queue, on one another and in one scale.</p><ul class=\"legend\">",
        )],
    )?;
    put_fills(out, &QUEUE_FILLS, &QUEUES, &[true, true, true, true])?;
    put(
        out,
        &[Markup(
            "<li><svg viewBox=\"0 0 22 14\" aria-hidden=\"true\"><path class=\"came\" d=\"M11 0V14\"/></svg>a page came</li><li><svg viewBox=\"0 0 22 14\" aria-hidden=\"true\"><path class=\"went\" d=\"M11 0V14\"/></svg>a page went</li></ul><div class=\"small\">",
        )],
    )?;
    let most = highest_of(curves);
    for curve in curves {
        put_curve(out, alloc, figures, curve, most)?;
    }
    put(out, &[Markup("</div>")])
}
