//! What other settings would have done with the trace.
ghost use Rattle.std.specs.Prelude.{◌≡◌, ◌+◌, ◌-◌, ◌*◌, ◌/◌, ◌^◌, max, min};

use crate::curve::{Point, put_evictions, put_shares};
use rev_markup::markup::Piece::{Count, Markup};
use rev_markup::markup::put;
use rev_markup::share::{Share, put_per_cent};
use rev_markup::units::put_thousandths;
use std::alloc::{AllocError, Global};

/// Which setting is varied.
#[derive(Clone, Copy, Debug, PartialEq, Eq)]
pub enum Varied {
    /// How many pages the cache has before it evicts.
    Pages,
    /// The growth factor of chunk sizes.
    Factor,
    /// HOT's share of a class's bytes, in per cent.
    Hot,
    /// WARM's share of a class's bytes, in per cent.
    Warm,
    /// An item that expires within fewer seconds enters TEMP.
    TempTtl,
}

/// A value of a setting: a whole number, over 1 but for the growth factor.
#[derive(Clone, Copy, Debug, PartialEq, Eq)]
pub struct Value {
    pub num: u32,
    /// At least 1.
    pub den: u32,
}

impl Value {
    /// In thousandths, rounded down.
    pub fn thousandths(self) -> u64
        ensures { result ≡ self.num * 1000 / max self.den 1 }
    {
        u64::from(self.num) * 1000 / u64::from(self.den.max(1))
    }
}

/// What the trace's steps did.
#[derive(Clone, Copy, Debug, PartialEq, Eq)]
pub struct Counts {
    /// Look-ups that found an item, and those that found none.
    pub hits: u64,
    pub misses: u64,
    /// Keys that were evicted, by a set or by the page mover.
    pub evictions: u64,
}

impl Counts {
    /// How many of the look-ups hit.
    pub fn share(&self) -> Share
        ensures part { result.part ≡ self.now.hits }
        ensures whole { result.whole ≡ min (self.now.hits + self.now.misses) (2 ^ 64 - 1) }
    {
        Share {
            part: self.hits,
            whole: self.hits.saturating_add(self.misses),
        }
    }
}

/// The trace with another value of a setting.
#[derive(Clone, Copy)]
pub struct Trial {
    pub value: Value,
    /// What its steps did; none where no cache has the value.
    pub counts: Option<Counts>,
}

/// The trace with other values of one setting.
#[derive(Drop)]
pub struct WhatIf {
    pub setting: Varied,
    /// The trace's own value; none where the setting is off.
    pub own: Option<Value>,
    /// In the order in which they are told.
    pub trials: Vec<Trial>,
}

/// What a setting is called among the options.
pub fn setting_word(setting: Varied) -> &'static str {
    match setting {
        Varied::Pages => "pages",
        Varied::Factor => "factor",
        Varied::Hot => "hot",
        Varied::Warm => "warm",
        Varied::TempTtl => "temp-ttl",
    }
}

// What is varied, as a heading.
fn heading(setting: Varied) -> &'static str {
    match setting {
        Varied::Pages => "Other numbers of pages",
        Varied::Factor => "Other growth factors of chunk sizes",
        Varied::Hot => "Other shares of HOT",
        Varied::Warm => "Other shares of WARM",
        Varied::TempTtl => "Other bounds of TEMP",
    }
}

/// What stands below the line along which the values lie.
pub fn axis_name(setting: Varied) -> &'static str {
    match setting {
        Varied::Pages => "pages",
        Varied::Factor => "growth factor",
        Varied::Hot => "HOT\u{2019}s share, per cent",
        Varied::Warm => "WARM\u{2019}s share, per cent",
        Varied::TempTtl => "TEMP takes items with fewer seconds to live",
    }
}

// Puts the value of a setting.
fn put_value(out: &mut Vec<u8>, value: Value) -> Result<(), AllocError> {
    put(out, &[Count(u64::from(value.num))])?;
    if value.den == 1 {
        return Ok(());
    }
    put(
        out,
        &[
            Markup("/"),
            Count(u64::from(value.den)),
            Markup("\u{202f}=\u{202f}"),
        ],
    )?;
    put_thousandths(out, value.thousandths())
}

// Puts a cell of a number.
fn put_number(out: &mut Vec<u8>, name: &'static str, n: u64) -> Result<(), AllocError> {
    put(
        out,
        &[
            Markup("<td data-label=\""),
            Markup(name),
            Markup("\"><span class=\"n\">"),
            Count(n),
            Markup("</span></td>"),
        ],
    )
}

// Puts the cells of what the steps did.
fn put_counts(out: &mut Vec<u8>, counts: &Counts) -> Result<(), AllocError> {
    put_number(out, "hits", counts.hits)?;
    put_number(out, "misses", counts.misses)?;
    put(
        out,
        &[Markup("<td data-label=\"hit share\"><span class=\"n\">")],
    )?;
    if counts.share().whole > 0 {
        put_per_cent(out, counts.share().thousandths())?;
    } else {
        put(out, &[Markup("\u{2013}")])?;
    }
    put(out, &[Markup("</span></td>")])?;
    put_number(out, "evictions", counts.evictions)
}

// Puts the row of the trace itself.
fn put_own(out: &mut Vec<u8>, value: Option<Value>, counts: &Counts) -> Result<(), AllocError> {
    put(
        out,
        &[Markup("<tr class=\"self\"><th scope=\"row\">this trace: ")],
    )?;
    match value {
        Some(value) => put_value(out, value)?,
        None => put(out, &[Markup("off")])?,
    }
    put(out, &[Markup("</th>")])?;
    put_counts(out, counts)?;
    put(out, &[Markup("</tr>")])
}

fn put_trial(out: &mut Vec<u8>, setting: Varied, trial: &Trial) -> Result<(), AllocError> {
    put(
        out,
        &[
            Markup("<tr><th scope=\"row\"><span class=\"w\">"),
            Markup(axis_name(setting)),
            Markup(": </span>"),
        ],
    )?;
    put_value(out, trial.value)?;
    put(out, &[Markup("</th>")])?;
    match &trial.counts {
        Some(counts) => put_counts(out, counts)?,
        None => put(
            out,
            &[Markup("<td class=\"none\" colspan=\"4\">no cache has this value</td>")],
        )?,
    }
    put(out, &[Markup("</tr>")])
}

fn put_table(out: &mut Vec<u8>, what_if: &WhatIf, own: &Counts) -> Result<(), AllocError> {
    put(
        out,
        &[
            Markup("<div class=\"over\"><table class=\"tries\"><thead><tr><th scope=\"col\">"),
            Markup(axis_name(what_if.setting)),
            Markup(
                "</th><th scope=\"col\">hits</th><th scope=\"col\">misses</th><th scope=\"col\">hit share</th><th scope=\"col\">evictions</th></tr></thead><tbody>",
            ),
        ],
    )?;
    put_own(out, what_if.own, own)?;
    for trial in &what_if.trials {
        put_trial(out, what_if.setting, trial)?;
    }
    put(out, &[Markup("</tbody></table></div>")])
}

// The points of the curves, by rising value; the trace's own one is marked.
fn points_of(alloc: Global, what_if: &WhatIf, own: &Counts) -> Result<Vec<Point>, AllocError> {
    let mut points = Vec::new(alloc);
    for trial in &what_if.trials {
        if let Some(counts) = trial.counts {
            points.push(Point {
                at: trial.value.thousandths(),
                counts,
                is_own: false,
            })?;
        }
    }
    if let Some(value) = what_if.own {
        points.push(Point {
            at: value.thousandths(),
            counts: *own,
            is_own: true,
        })?;
    }
    points.sort_by_key(|point| point.at)?;
    Ok(points)
}

fn put_what_if(
    out: &mut Vec<u8>,
    alloc: Global,
    what_if: &WhatIf,
    own: &Counts,
) -> Result<(), AllocError> {
    let points = points_of(alloc, what_if, own)?;
    put(
        out,
        &[
            Markup("<h3>"),
            Markup(heading(what_if.setting)),
            Markup("</h3>"),
        ],
    )?;
    put_table(out, what_if, own)?;
    put(out, &[Markup("<div class=\"pair\">")])?;
    put_shares(out, what_if.setting, &points)?;
    put_evictions(out, what_if.setting, &points)?;
    put(out, &[Markup("</div>")])
}

/// Puts what other settings would have done, a table and two curves for each setting. `own` is what the steps of the
/// trace itself did.
pub fn put_what_ifs(
    out: &mut Vec<u8>,
    alloc: Global,
    own: &Counts,
    what_ifs: &[WhatIf],
) -> Result<(), AllocError> {
    if what_ifs.is_empty() {
        return Ok(());
    }
    put(
        out,
        &[Markup(
            "<h2>What if</h2><p class=\"soft\">The same steps with one setting changed, on an empty cache.</p><ul class=\"legend\"><li><svg viewBox=\"0 0 22 14\" aria-hidden=\"true\"><path class=\"own\" d=\"M11 1l6 6l-6 6l-6 -6z\"/></svg>this trace</li><li><svg viewBox=\"0 0 22 14\" aria-hidden=\"true\"><circle class=\"dot\" cx=\"11\" cy=\"7\" r=\"3.5\"/></svg>another value</li></ul>",
        )],
    )?;
    for what_if in what_ifs {
        put_what_if(out, alloc, what_if, own)?;
    }
    Ok(())
}
