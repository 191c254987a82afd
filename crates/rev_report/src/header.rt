//! What a report tells first: which cache, which trace, and how it went.
use crate::figures::{ClockKind, Figures, all_left};
use crate::page::Subject;
use rev_classes::Config;
use rev_comparisons::agreement::put_agreement;
use rev_markup::calendar::put_moment;
use rev_markup::charts::put_fact;
use rev_markup::markup::Piece::{Count, Markup};
use rev_markup::markup::{outside, put};
use rev_markup::share::{Share, put_part};
use rev_markup::units::{put_bytes, put_time};
use std::alloc::AllocError;

// Puts the names of the traces.
fn put_names(out: &mut Vec<u8>, names: &[String]) -> Result<(), AllocError> {
    for (place, name) in names.iter().enumerate() {
        let gap = if place == 0 { "" } else { ", " };
        put(
            out,
            &[
                Markup(gap),
                Markup("<code>"),
                outside(name.as_bytes()),
                Markup("</code>"),
            ],
        )?;
    }
    Ok(())
}

// Puts a number, and how many thousandths of the look-ups it is.
fn put_share(
    out: &mut Vec<u8>,
    name: &'static str,
    part: u64,
    look_ups: u64,
    thousandths: u32,
) -> Result<(), AllocError> {
    put(
        out,
        &[Markup("<div><dt>"), Markup(name), Markup("</dt><dd>")],
    )?;
    put_part(out, part, look_ups, thousandths)?;
    put(out, &[Markup("</dd></div>")])
}

// Puts a moment of the Unix clock.
fn put_moment_fact(out: &mut Vec<u8>, name: &'static str, second: u32) -> Result<(), AllocError> {
    put(
        out,
        &[Markup("<div><dt>"), Markup(name), Markup("</dt><dd>")],
    )?;
    put_moment(out, second)?;
    put(out, &[Markup("</dd></div>")])
}

// Puts how far the clock goes, and its first and last moment where these are known.
fn put_clock_facts(out: &mut Vec<u8>, figures: &Figures) -> Result<(), AllocError> {
    let (first, last) = (figures.begin, figures.totals.last_second);
    put(out, &[Markup("<div><dt>Clock</dt><dd>")])?;
    put_time(out, u64::from(last.saturating_sub(first)))?;
    put(out, &[Markup("</dd></div>")])?;
    match figures.clock_kind {
        ClockKind::Unix => {
            put_moment_fact(out, "First moment", first)?;
            put_moment_fact(out, "Last moment", last.max(first))
        }
        ClockKind::FromBegin => Ok(()),
    }
}

fn put_pages(out: &mut Vec<u8>, config: &Config) -> Result<(), AllocError> {
    put(
        out,
        &[
            Markup("<div><dt>Memory</dt><dd>"),
            Count(u64::from(config.pages)),
            Markup(if config.pages == 1 {
                " page of "
            } else {
                " pages of "
            }),
        ],
    )?;
    put_bytes(out, u64::from(config.page_size))?;
    put(out, &[Markup("</dd></div>")])
}

fn put_facts(out: &mut Vec<u8>, config: &Config, figures: &Figures) -> Result<(), AllocError> {
    let totals = &figures.totals;
    let (hits, misses) = (totals.hits as u64, totals.misses as u64);
    let share = Share {
        part: hits,
        whole: hits.saturating_add(misses),
    };
    let of_hits = share.thousandths();
    put(out, &[Markup("<dl>")])?;
    put_fact(out, "Steps", &[Count(totals.steps as u64)])?;
    put_clock_facts(out, figures)?;
    put_share(out, "Hits", hits, share.whole, of_hits)?;
    put_share(out, "Misses", misses, share.whole, 1000 - of_hits)?;
    put_fact(out, "Stores", &[Count(totals.stores as u64)])?;
    put_fact(out, "Keys that left", &[Count(all_left(&totals.left))])?;
    put_pages(out, config)?;
    put(out, &[Markup("</dl>")])
}

// Puts a line as an item of a list.
fn put_note(out: &mut Vec<u8>, line: &[u8]) -> Result<(), AllocError> {
    if line.is_empty() {
        return Ok(());
    }
    put(out, &[Markup("<li>"), outside(line), Markup("</li>")])
}

// Puts lines as a list.
fn put_lines(out: &mut Vec<u8>, lines: &[u8]) -> Result<(), AllocError> {
    put(out, &[Markup("<ul>")])?;
    for line in lines.split(|byte| *byte == b'\n') {
        put_note(out, line)?;
    }
    put(out, &[Markup("</ul>")])
}

// Puts what was guessed or left out, a line each.
fn put_notes(out: &mut Vec<u8>, notes: &[u8]) -> Result<(), AllocError> {
    if notes.is_empty() {
        return Ok(());
    }
    put(
        out,
        &[Markup("<h3>What was read, guessed or left out</h3>")],
    )?;
    put_lines(out, notes)
}

// Puts a box with what the figures do not cover, a line each.
fn put_uncovered(out: &mut Vec<u8>, uncovered: &[u8]) -> Result<(), AllocError> {
    if uncovered.is_empty() {
        return Ok(());
    }
    put(
        out,
        &[Markup(
            "<div class=\"uncovered\" role=\"note\"><h3>What these figures do not cover</h3>",
        )],
    )?;
    put_lines(out, uncovered)?;
    put(out, &[Markup("</div>")])
}

/// Puts what the figures do not cover, the trace's steps and clock, hits and misses, how far the replay agrees with its log, the cache's options, and
/// what was guessed or left out.
pub fn put_header(
    out: &mut Vec<u8>,
    subject: &Subject<'_>,
    figures: &Figures,
) -> Result<(), AllocError> {
    put(
        out,
        &[Markup(
            "<h1>Where this cache loses its keys</h1><p class=\"soft\">A report of <code>lrudb</code> on ",
        )],
    )?;
    put_names(out, subject.names)?;
    put(out, &[Markup("</p>")])?;
    put_uncovered(out, subject.uncovered)?;
    put_facts(out, subject.config, figures)?;
    if let Some(agreement) = &subject.agreement {
        put_agreement(out, agreement)?;
    }
    put(
        out,
        &[
            Markup("<p class=\"soft\">Options: <code>"),
            outside(subject.options),
            Markup("</code></p>"),
        ],
    )?;
    put_notes(out, subject.notes)
}
