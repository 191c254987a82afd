//! The table by prefix.
ghost use Rattle.std.specs.Prelude.{◌≡◌, ◌∷◌, [], take, drop};
ghost use Rattle.rev_figures.specs.Prefixes.{both};
ghost use Rattle.rev_report.specs.Prefixes as rule;

use crate::classes::{put_cell, put_column_name};
use crate::figures::Figures;
use rev_figures::{ByPrefix, PrefixCounts, PrefixRow, Totals};
use rev_markup::markup::Piece::{Count, Markup};
use rev_markup::markup::{outside, put};
use std::alloc::{AllocError, Global};

/// So many prefixes stand in a page (this project's own figure).
const TOLD: usize = 20;

/// How many figures a row has.
pub const CELLS: usize = 6;

/// What the figures of a row are, in order.
pub const CELL_NAMES: [&str; CELLS] = [
    "stores",
    "hits",
    "misses",
    "evicted",
    "left otherwise",
    "evicted, asked again",
];

/// The figures of a row, in the same order.
pub fn cells(counts: &PrefixCounts) -> [u64; CELLS]
    ensures { result ≡ rule.cells_of counts.now }
{
    [
        counts.stores,
        counts.hits,
        counts.misses,
        counts.evicted,
        counts.left,
        counts.asked,
    ]
}

// The counts of prefixes together with these.
fn with_rows(counts: PrefixCounts, rows: &[PrefixRow<Global>]) -> PrefixCounts
    ensures { result ≡ rule.with_rows counts rows.now }
{
    let mut all = counts;
    for row in rows {
        all = all.plus(row.counts);
    }
    all
}

// Rows behind so many.
fn behind(rows: &[PrefixRow<Global>], most: usize) -> &[PrefixRow<Global>]
    ensures { result.now ≡ drop most rows.now }
{
    if most < rows.len() {
        &rows[most..]
    } else {
        &[]
    }
}

/// The counts of all prefixes that stand behind so many, and of those that are not told apart.
pub fn others_of(prefixes: &ByPrefix<Global>, most: usize) -> PrefixCounts
    ensures { result ≡ rule.with_rows prefixes.now.others (drop most prefixes.now.rows.items) }
{
    with_rows(prefixes.others, behind(prefixes.rows.as_slice(), most))
}

/// The counts of all keys: as the whole trace has them, and of those that were asked for again the sum of all prefixes.
pub fn total_of(totals: &Totals, prefixes: &ByPrefix<Global>) -> PrefixCounts
    ensures stores { result.stores ≡ totals.now.stores }
    ensures hits { result.hits ≡ totals.now.hits }
    ensures misses { result.misses ≡ totals.now.misses }
    ensures evicted { result.evicted ≡ rule.evicted_of totals.now.left }
    ensures left { result.left ≡ rule.left_of totals.now.left }
{
    let left = &totals.left;
    let dropped = (left.deleted as u64).saturating_add(left.dropped_by_failed_set as u64);
    let by_use = (left.reclaimed_by_hit as u64).saturating_add(left.reclaimed_by_pull as u64);
    let by_actor = (left.reclaimed_by_crawler as u64).saturating_add(
        left.reclaimed_by_mover as u64,
    );
    PrefixCounts {
        stores: totals.stores as u64,
        hits: totals.hits as u64,
        misses: totals.misses as u64,
        evicted: (left.evicted as u64).saturating_add(left.evicted_by_mover as u64),
        left: dropped.saturating_add(by_use).saturating_add(by_actor),
        asked: others_of(prefixes, 0).asked,
    }
}

// The figure in a place of a row.
fn cell(counts: &PrefixCounts, place: usize) -> u64 {
    cells(counts).get(place).copied().unwrap_or(0)
}

// The largest figure in a place.
fn largest(rows: &[PrefixRow<Global>], place: usize) -> u64 {
    let mut largest = 0u64;
    for row in rows {
        largest = largest.max(cell(&row.counts, place));
    }
    largest
}

// Puts the prefix that begins a row.
fn put_prefix(out: &mut Vec<u8>, prefix: &[u8]) -> Result<(), AllocError> {
    if prefix.is_empty() {
        return put(out, &[Markup("<tr><th scope=\"row\">(no prefix)</th>")]);
    }
    put(
        out,
        &[
            Markup("<tr><th scope=\"row\"><span class=\"w\">Prefix </span><code>"),
            outside(prefix),
            Markup("</code></th>"),
        ],
    )
}

// Puts the row of a prefix that stands among others.
fn put_row(
    out: &mut Vec<u8>,
    rows: &[PrefixRow<Global>],
    row: &PrefixRow<Global>,
) -> Result<(), AllocError> {
    put_prefix(out, &row.prefix)?;
    for (place, name) in CELL_NAMES.iter().enumerate() {
        put_cell(
            out,
            *name,
            Some(cell(&row.counts, place)),
            largest(rows, place),
        )?;
    }
    put(out, &[Markup("</tr>")])
}

// Puts a row of sums, which has no bars.
fn put_sums(
    out: &mut Vec<u8>,
    class: &'static str,
    name: &'static str,
    counts: &PrefixCounts,
) -> Result<(), AllocError> {
    put(
        out,
        &[
            Markup("<tr"),
            Markup(class),
            Markup("><th scope=\"row\">"),
            Markup(name),
            Markup("</th>"),
        ],
    )?;
    for (place, name) in CELL_NAMES.iter().enumerate() {
        put(
            out,
            &[
                Markup("<td data-label=\""),
                Markup(*name),
                Markup("\"><span class=\"n\">"),
                Count(cell(counts, place)),
                Markup("</span></td>"),
            ],
        )?;
    }
    put(out, &[Markup("</tr>")])
}

/// Whether anything happened to keys.
pub fn has_any(counts: &PrefixCounts) -> bool
    ensures { result ≡ rule.has_any counts.now }
{
    counts.stores > 0
        || counts.hits > 0
        || counts.misses > 0
        || counts.evicted > 0
        || counts.left > 0
        || counts.asked > 0
}

/// Puts the table by prefix: those with most evictions, all others in one row, and the total.
pub fn put_prefixes(out: &mut Vec<u8>, figures: &Figures) -> Result<(), AllocError> {
    let prefixes = &figures.prefixes;
    put(
        out,
        &[Markup(
            "<h2>Prefixes</h2><div class=\"over\"><table class=\"prefixes\"><thead><tr><th scope=\"col\">prefix</th>",
        )],
    )?;
    for name in &CELL_NAMES {
        put_column_name(out, *name)?;
    }
    put(out, &[Markup("</tr></thead><tbody>")])?;
    let told = prefixes
        .rows
        .get(..TOLD.min(prefixes.rows.len()))
        .unwrap_or(&[]);
    for row in told {
        put_row(out, told, row)?;
    }
    let others = others_of(prefixes, TOLD);
    if has_any(&others) {
        put_sums(out, "", "others", &others)?;
    }
    let total = total_of(&figures.totals, prefixes);
    put_sums(out, " class=\"self\"", "total", &total)?;
    put(
        out,
        &[Markup(
            "</tbody></table></div><p class=\"soft\">A prefix is what a key has up to its first colon. The prefix that lost most keys by eviction stands first. Misses are all look-ups that found nothing, also of keys that never were there.</p>",
        )],
    )
}
