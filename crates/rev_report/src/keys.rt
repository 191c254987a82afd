//! The lives of keys, a band for each.
use crate::figures::{Figures, clock_of};
use crate::life::Life;
use crate::plot::Plot;
use crate::words::{QUEUE_FILLS, QUEUES, put_clock};
use rev_explain::events::{Event, EventKind};
use rev_figures::Path;
use rev_markup::markup::Piece::{Count, Markup, Plain, Tenths};
use rev_markup::markup::{outside, put};
use rev_markup::scale::{Frame, Unit};
use rev_markup::units::put_counted;
use rev_model::{Cause, Queue};
use std::alloc::{AllocError, Global};

/// How many of a key's leavings are told in words (this project's own figure).
const TOLD: usize = 20;

/// Marks of one kind that are nearer to one another than so many tenths of a point are drawn once.
const NEAR: u32 = 5;

const FRAME: Frame = Frame {
    left: 120,
    bottom: 560,
    across: 6960,
    up: 200,
    line: 240,
};

/// What is drawn of an event.
#[derive(Clone, Copy, PartialEq, Eq)]
enum Mark {
    Stored,
    Left,
}

/// Which step of the path a node is, from 1.
pub fn step_of(path: &Path<Global>, node: u32) -> u64 {
    let before = path
        .steps
        .as_slice()
        .partition_point(|step| step.node.0 < node);
    (before as u64).saturating_add(1)
}

// The queue that an event leaves the key in.
fn queue_after(kind: EventKind) -> Option<Queue> {
    match kind {
        EventKind::Stored(place) | EventKind::Replaced(place) => Some(place.queue),
        EventKind::Moved { to, .. } => Some(to),
        EventKind::Left(_) => None,
    }
}

fn fill_of(queue: Queue) -> &'static str {
    let [hot, warm, cold, temp] = QUEUE_FILLS;
    match queue {
        Queue::Hot => hot,
        Queue::Warm => warm,
        Queue::Cold => cold,
        Queue::Temp => temp,
    }
}

/// The words of a cause.
pub fn cause_words(cause: Cause) -> &'static str {
    match cause {
        Cause::Evicted => "evicted",
        Cause::EvictedByMover => "evicted by the page mover",
        Cause::Deleted => "deleted",
        Cause::DroppedByFailedSet => "dropped by a set that failed",
        Cause::ReclaimedByHit => "dead, and reclaimed by a look-up",
        Cause::ReclaimedByPull => "dead, and reclaimed by a pull",
        Cause::ReclaimedByCrawler => "dead, and reclaimed by the crawler",
        Cause::ReclaimedByMover => "dead, and reclaimed by the page mover",
    }
}

// Puts the part of the band in which the key stood in a queue.
fn put_stay(
    out: &mut Vec<u8>,
    plot: &Plot,
    queue: Option<Queue>,
    from: u64,
    to: u64,
) -> Result<(), AllocError> {
    let Some(queue) = queue else {
        return Ok(());
    };
    let (left, right) = (plot.x(from), plot.x(to));
    if right.saturating_sub(left) < NEAR {
        return Ok(());
    }
    put(
        out,
        &[
            Markup("<path class=\"edge\" fill=\""),
            Markup(fill_of(queue)),
            Markup("\" d=\"M"),
            Tenths(left),
            Markup(" 36H"),
            Tenths(right),
            Markup("V56H"),
            Tenths(left),
            Markup("z\"/>"),
        ],
    )
}

fn put_stays(
    out: &mut Vec<u8>,
    plot: &Plot,
    figures: &Figures,
    events: &[Event],
) -> Result<(), AllocError> {
    let mut queue = None;
    let mut from = 0u64;
    for event in events {
        let step = figures.step_of(event.node.0);
        put_stay(out, plot, queue, from, step)?;
        queue = queue_after(event.kind);
        from = step;
    }
    put_stay(out, plot, queue, from, figures.totals.steps as u64)
}

fn mark_of(kind: EventKind) -> Option<Mark> {
    match kind {
        EventKind::Stored(_) | EventKind::Replaced(_) => Some(Mark::Stored),
        EventKind::Left(_) => Some(Mark::Left),
        EventKind::Moved { .. } => None,
    }
}

fn put_mark(out: &mut Vec<u8>, x: u32, mark: Mark) -> Result<(), AllocError> {
    match mark {
        Mark::Stored => put(out, &[Markup("M"), Tenths(x), Markup(" 58l-5 9h10z")]),
        Mark::Left => put(
            out,
            &[
                Markup("M"),
                Tenths(x.saturating_sub(50)),
                Markup(" 41l10 10m0 -10l-10 10"),
            ],
        ),
    }
}

// Puts the marks of a kind, in one path of a class.
fn put_marks(
    out: &mut Vec<u8>,
    plot: &Plot,
    figures: &Figures,
    events: &[Event],
    mark: Mark,
) -> Result<(), AllocError> {
    put(
        out,
        &[
            Markup("<path class=\""),
            Markup(if mark == Mark::Stored {
                "store"
            } else {
                "left"
            }),
            Markup("\" d=\""),
        ],
    )?;
    let mut behind = 0u32;
    for event in events {
        let x = plot.x(figures.step_of(event.node.0));
        if mark_of(event.kind) == Some(mark) && x >= behind {
            put_mark(out, x, mark)?;
            behind = x.saturating_add(NEAR);
        }
    }
    put(out, &[Markup("\"/>")])
}

// Puts a line for each look-up that hit, or for each that missed.
fn put_asks(out: &mut Vec<u8>, plot: &Plot, life: &Life, is_hit: bool) -> Result<(), AllocError> {
    put(
        out,
        &[
            Markup("<path class=\""),
            Markup(if is_hit { "hits" } else { "misses" }),
            Markup("\" d=\""),
        ],
    )?;
    let mut behind = 0u32;
    for ask in life.asks.iter() {
        let x = plot.x(ask.step as u64);
        if ask.is_hit == is_hit && x >= behind {
            let height = if is_hit { " 34v-10" } else { " 20v-10" };
            put(out, &[Markup("M"), Tenths(x), Markup(height)])?;
            behind = x.saturating_add(NEAR);
        }
    }
    put(out, &[Markup("\"/>")])
}

fn put_band(out: &mut Vec<u8>, figures: &Figures, life: &Life) -> Result<(), AllocError> {
    let plot = Plot::new(FRAME, figures.totals.steps as u64, 1, Unit::Things);
    put(
        out,
        &[Markup(
            "<svg class=\"wide\" viewBox=\"0 0 720 126\" role=\"img\"><path class=\"empty\" d=\"M12 36H708V56H12z\"/>",
        )],
    )?;
    put_stays(out, &plot, figures, &life.events)?;
    put_asks(out, &plot, life, true)?;
    put_asks(out, &plot, life, false)?;
    put_marks(out, &plot, figures, &life.events, Mark::Stored)?;
    put_marks(out, &plot, figures, &life.events, Mark::Left)?;
    put(out, &[Markup("<g transform=\"translate(0 14)\">")])?;
    plot.put_ticks(out, 4, clock_of(figures))?;
    put(out, &[Markup("</g></svg>")])
}

// Puts which step a node is, and the clock behind it.
fn put_moment(out: &mut Vec<u8>, figures: &Figures, node: u32) -> Result<(), AllocError> {
    let step = figures.step_of(node);
    put(out, &[Markup("<li>Step "), Count(step)])?;
    put(out, &[Markup(" (node "), Plain(node as u64)])?;
    put(out, &[Markup(", clock ")])?;
    put_clock(out, figures.clock(), step)
}

// Puts why a key left, and the command.
fn put_cause(out: &mut Vec<u8>, cause: Cause, command: &[u8]) -> Result<(), AllocError> {
    put(
        out,
        &[
            Markup("): "),
            Markup(cause_words(cause)),
            Markup(", at <code>"),
            outside(command),
            Markup("</code></li>"),
        ],
    )
}

// Puts when and why a key left.
fn put_leaving(
    out: &mut Vec<u8>,
    figures: &Figures,
    node: u32,
    cause: Cause,
    command: &[u8],
) -> Result<(), AllocError> {
    put_moment(out, figures, node)?;
    put_cause(out, cause, command)
}

fn put_leavings(out: &mut Vec<u8>, figures: &Figures, life: &Life) -> Result<(), AllocError> {
    put(out, &[Markup("<ul class=\"events\">")])?;
    let mut told = 0usize;
    for (event, command) in life.events.iter().zip(&life.commands) {
        if let EventKind::Left(cause) = event.kind {
            if told < TOLD {
                put_leaving(out, figures, event.node.0, cause, command)?;
            }
            told = told.saturating_add(1);
        }
    }
    if told > TOLD {
        put(
            out,
            &[
                Markup("<li>and "),
                Count((told - TOLD) as u64),
                Markup(" more</li>"),
            ],
        )?;
    }
    put(out, &[Markup("</ul>")])
}

// How many events have this mark.
fn count_of(events: &[Event], mark: Mark) -> u64 {
    events
        .iter()
        .filter(|event| mark_of(event.kind) == Some(mark))
        .count() as u64
}

fn put_sentence(out: &mut Vec<u8>, life: &Life) -> Result<(), AllocError> {
    let hits = life.asks.iter().filter(|ask| ask.is_hit).count() as u64;
    put(out, &[Markup("<figcaption>The key was stored ")])?;
    put_counted(out, count_of(&life.events, Mark::Stored), "time", "times")?;
    put(out, &[Markup(", asked for ")])?;
    put_counted(out, life.asks.len() as u64, "time", "times")?;
    put(out, &[Markup(" (")])?;
    put_counted(out, hits, "hit", "hits")?;
    put(out, &[Markup("), and left ")])?;
    put_counted(out, count_of(&life.events, Mark::Left), "time", "times")?;
    put(out, &[Markup(".</figcaption>")])
}

fn put_life(out: &mut Vec<u8>, figures: &Figures, life: &Life) -> Result<(), AllocError> {
    put(
        out,
        &[
            Markup("<figure class=\"band\"><h3 class=\"key\">"),
            outside(&life.key),
            Markup("</h3>"),
        ],
    )?;
    if life.events.is_empty() && life.asks.is_empty() {
        return put(
            out,
            &[Markup("<p class=\"soft\">No step stored the key or asked for it.</p></figure>")],
        );
    }
    put_band(out, figures, life)?;
    put_leavings(out, figures, life)?;
    put_sentence(out, life)?;
    put(out, &[Markup("</figure>")])
}

// Puts what stands for what in a band.
fn put_legend(out: &mut Vec<u8>) -> Result<(), AllocError> {
    put(
        out,
        &[Markup(
            "<ul class=\"legend\"><li><svg viewBox=\"0 0 22 14\" aria-hidden=\"true\"><path class=\"hits\" d=\"M11 2v10\"/></svg>hit</li><li><svg viewBox=\"0 0 22 14\" aria-hidden=\"true\"><path class=\"misses\" d=\"M11 2v10\"/></svg>miss</li><li><svg viewBox=\"0 0 22 14\" aria-hidden=\"true\"><path class=\"store\" d=\"M11 2l-5 9h10z\"/></svg>stored</li><li><svg viewBox=\"0 0 22 14\" aria-hidden=\"true\"><path class=\"left\" d=\"M6 2l10 10m0 -10l-10 10\"/></svg>left</li>",
        )],
    )?;
    rev_markup::charts::put_fills(out, &QUEUE_FILLS, &QUEUES, &[true, true, true, true])?;
    put(out, &[Markup("</ul>")])
}

// Puts from which step on lives are told, where the trace was read in parts.
fn put_begin(out: &mut Vec<u8>, figures: &Figures) -> Result<(), AllocError> {
    match figures.before() as u64 {
        0 => Ok(()),
        before => put(
            out,
            &[
                Markup("<p class=\"soft\">Told are the steps behind step "),
                Count(before),
                Markup(". <code>lrudb why</code> tells all of them.</p>"),
            ],
        ),
    }
}

/// Puts the lives of keys, a band for each.
pub fn put_keys(out: &mut Vec<u8>, figures: &Figures, lives: &[Life]) -> Result<(), AllocError> {
    if lives.is_empty() {
        return Ok(());
    }
    put(out, &[Markup("<h2>Lives of keys</h2>")])?;
    put_begin(out, figures)?;
    put_legend(out)?;
    for life in lives {
        put_life(out, figures, life)?;
    }
    Ok(())
}
