//! The page of a report.
use crate::classes::put_classes;
use crate::evidence::{LeftBy, put_evidence};
use crate::figures::{Figures, own_counts};
use crate::header::put_header;
use crate::keys::put_keys;
use crate::life::Life;
use crate::plot::Column;
use crate::prefixes::put_prefixes;
use crate::queues::{QueueCurve, put_queues, queue_curves};
use crate::slots::{columns_of_left, columns_of_moves};
use crate::style::{FILLS, STYLE, UNCOVERED_STYLE};
use crate::times::put_times;
use rev_classes::Config;
use rev_comparisons::agreement::Agreement;
use rev_comparisons::what_if::{WhatIf, put_what_ifs};
use rev_markup::markup::Piece::Markup;
use rev_markup::markup::put;
use std::alloc::{AllocError, Global};

/// What a report is of.
#[derive(Clone, Copy)]
pub struct Subject<'a> {
    /// The names of the traces.
    pub names: &'a [String],
    pub config: &'a Config,
    /// The words of the options for a run.
    pub options: &'a [u8],
    /// Which part of the trace the figures do not cover, a line each.
    pub uncovered: &'a [u8],
    /// What was guessed or left out, a line each.
    pub notes: &'a [u8],
    /// How far the replay agrees with the log of which the trace was made, where there is one.
    pub agreement: Option<Agreement>,
    /// What tells of the keys that left, where that is known: a row for each cause.
    pub evidence: &'a [LeftBy],
    /// The trace with other settings.
    pub what_ifs: &'a [WhatIf],
}

/// What the pictures are made of.
#[derive(Drop)]
pub struct Curves {
    /// The keys that left in each slot, by cause.
    pub left: Vec<Column>,
    /// The pages that moved in each slot.
    pub moved: Vec<Column>,
    /// The bytes of the queues of the worst classes.
    pub queues: Vec<QueueCurve>,
}

/// The curves of figures.
pub fn curves_of(alloc: Global, figures: &Figures) -> Result<Curves, AllocError> {
    Ok(Curves {
        left: columns_of_left(alloc, figures)?,
        moved: columns_of_moves(alloc, figures)?,
        queues: queue_curves(alloc, figures)?,
    })
}

fn put_front(out: &mut Vec<u8>, subject: &Subject<'_>) -> Result<(), AllocError> {
    put(
        out,
        &[
            Markup(
                "<!DOCTYPE html>\n<html lang=\"en\" xmlns=\"http://www.w3.org/1999/xhtml\"><head><meta charset=\"utf-8\"/><meta name=\"viewport\" content=\"width=device-width, initial-scale=1\"/><title>lrudb report</title><style>",
            ),
            Markup(STYLE),
            Markup(if subject.uncovered.is_empty() {
                ""
            } else {
                UNCOVERED_STYLE
            }),
            Markup("</style></head><body>"),
            Markup(FILLS),
            Markup("<main>"),
        ],
    )
}

// Puts the tables and pictures of steps, or that there is none.
fn put_steps(
    out: &mut Vec<u8>,
    alloc: Global,
    subject: &Subject<'_>,
    figures: &Figures,
    curves: &Curves,
) -> Result<(), AllocError> {
    if figures.totals.steps == 0 {
        return put(
            out,
            &[Markup("<p>The trace has no step, so there is nothing to count or to draw.</p>")],
        );
    }
    put_classes(out, figures)?;
    put_evidence(out, subject.evidence)?;
    put_prefixes(out, figures)?;
    put_times(out, figures, &curves.left, &curves.moved)?;
    put_queues(out, alloc, figures, &curves.queues)?;
    put_what_ifs(out, alloc, &own_counts(figures), subject.what_ifs)
}

/// Puts the whole page.
pub fn put_page(
    out: &mut Vec<u8>,
    alloc: Global,
    subject: &Subject<'_>,
    figures: &Figures,
    curves: &Curves,
    lives: &[Life],
) -> Result<(), AllocError> {
    put_front(out, subject)?;
    put_header(out, subject, figures)?;
    put_steps(out, alloc, subject, figures, curves)?;
    put_keys(out, figures, lives)?;
    put(out, &[Markup("</main></body></html>\n")])
}
