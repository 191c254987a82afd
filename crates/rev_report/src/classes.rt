//! The table by class.
ghost use Rattle.std.specs.Prelude.{◌≡◌, ◌++◌, OnOk};
ghost use Rattle.rev_report.specs.Cells.{cells_of, shown};

use crate::figures::{ClassRow, Figures};
use crate::words::cause_numbers;
use rev_markup::markup::Piece::{Count, Markup, Tenths};
use rev_markup::markup::put;
use rev_markup::numbers::put_grouped;
use rev_markup::scale::Scale;
use std::alloc::AllocError;

/// How many figures a row of the table has.
pub const CELLS: usize = 17;

/// What the figures of a row are, in order.
pub const CELL_NAMES: [&str; CELLS] = [
    "chunk, bytes",
    "pages at the end",
    "stores",
    "hits",
    "misses",
    "evicted",
    "evicted by mover",
    "deleted",
    "dropped by failed set",
    "reclaimed by hit",
    "reclaimed by pull",
    "reclaimed by crawler",
    "reclaimed by mover",
    "evicted, never fetched",
    "idle when evicted, median s",
    "evicted, asked again",
    "asked again after, median s",
];

// The number, in more bits.
fn wide(n: Option<u32>) -> Option<u64>
    ensures { result ≡ n }
{
    match n {
        Some(n) => Some(u64::from(n)),
        None => None,
    }
}

/// The figures of a row, in the same order; none where there is nothing to tell.
pub fn cells(row: &ClassRow) -> [Option<u64>; CELLS]
    ensures { result ≡ cells_of row.now }
{
    let figures = &row.figures;
    let [
        evicted,
        by_mover,
        deleted,
        dropped,
        by_hit,
        by_pull,
        by_crawler,
        reclaimed,
    ] = cause_numbers(&figures.left);
    [
        Some(u64::from(row.chunk_size)),
        Some(row.pages),
        Some(figures.stores as u64),
        Some(figures.hits as u64),
        Some(figures.misses),
        Some(evicted),
        Some(by_mover),
        Some(deleted),
        Some(dropped),
        Some(by_hit),
        Some(by_pull),
        Some(by_crawler),
        Some(reclaimed),
        Some(figures.unfetched as u64),
        wide(figures.idle),
        Some(figures.asked as u64),
        wide(figures.asked_after),
    ]
}

// The figure in a place of a row.
fn cell(row: &ClassRow, place: usize) -> Option<u64> {
    cells(row).get(place).copied().unwrap_or(None)
}

// The largest figure in a place.
fn largest(rows: &[ClassRow], place: usize) -> u64 {
    let mut largest = 0u64;
    for row in rows {
        largest = largest.max(cell(row, place).unwrap_or(0));
    }
    largest
}

// Whether a place is a cause's by which no key left, so that its column says nothing.
fn is_left_out(rows: &[ClassRow], place: usize) -> bool {
    place > 5 && place < 13 && largest(rows, place) == 0
}

/// Puts the name of a column.
pub fn put_column_name(out: &mut Vec<u8>, name: &'static str) -> Result<(), AllocError> {
    put(
        out,
        &[Markup("<th scope=\"col\">"), Markup(name), Markup("</th>")],
    )
}

fn put_names(out: &mut Vec<u8>, rows: &[ClassRow]) -> Result<(), AllocError> {
    for (place, name) in CELL_NAMES.iter().enumerate() {
        if !is_left_out(rows, place) {
            put_column_name(out, *name)?;
        }
    }
    Ok(())
}

// Puts a bar whose length is a number's share of the largest.
fn put_bar(out: &mut Vec<u8>, value: u64, largest: u64) -> Result<(), AllocError> {
    let scale = Scale {
        last: largest,
        length: 1000,
    };
    put(
        out,
        &[
            Markup(
                "<svg class=\"b\" viewBox=\"0 0 100 5\" preserveAspectRatio=\"none\" aria-hidden=\"true\"><rect class=\"of\" width=\"100\" height=\"5\"/><rect width=\"",
            ),
            Tenths(scale.at(value)),
            Markup("\" height=\"5\"/></svg>"),
        ],
    )
}

// Puts a figure, or a dash where there is nothing to tell.
fn put_figure(out: &mut Vec<u8>, figure: Option<u64>) -> Result<(), AllocError>
    ensures { OnOk result (out.new.items ≡ out.old.items ++ shown figure) }
{
    match figure {
        Some(n) => put_grouped(out, n),
        None => out.extend_from_slice("\u{2013}".as_bytes()),
    }
}

/// Puts a cell of a named column: a figure, and a bar for its share of the largest one in the column.
pub fn put_cell(
    out: &mut Vec<u8>,
    name: &'static str,
    value: Option<u64>,
    largest: u64,
) -> Result<(), AllocError> {
    put(
        out,
        &[
            Markup("<td data-label=\""),
            Markup(name),
            Markup("\"><span class=\"n\">"),
        ],
    )?;
    put_figure(out, value)?;
    put(out, &[Markup("</span>")])?;
    if let Some(value) = value {
        put_bar(out, value, largest)?;
    }
    put(out, &[Markup("</td>")])
}

fn put_row(out: &mut Vec<u8>, rows: &[ClassRow], row: &ClassRow) -> Result<(), AllocError> {
    put(
        out,
        &[
            Markup("<tr><th scope=\"row\"><span class=\"w\">Class </span>"),
            Count(u64::from(row.figures.class)),
            Markup("</th>"),
        ],
    )?;
    for (place, name) in CELL_NAMES.iter().enumerate() {
        if !is_left_out(rows, place) {
            put_cell(out, *name, cell(row, place), largest(rows, place))?;
        }
    }
    put(out, &[Markup("</tr>")])
}

/// Puts the table by class.
pub fn put_classes(out: &mut Vec<u8>, figures: &Figures) -> Result<(), AllocError> {
    let rows = figures.classes.as_slice();
    put(
        out,
        &[Markup(
            "<h2>Classes</h2><div class=\"over\"><table><thead><tr><th scope=\"col\">class</th>",
        )],
    )?;
    put_names(out, rows)?;
    put(out, &[Markup("</tr></thead><tbody>")])?;
    for row in rows {
        put_row(out, rows, row)?;
    }
    put(
        out,
        &[Markup(
            "</tbody></table></div><p class=\"soft\">The class that evicted most keys stands first. A bar is a number\u{2019}s share of the largest in its column, and a cause by which no key left has no column. Misses are look-ups of keys that were not there and had left the class last. An evicted key was idle since it was stored or last bumped.</p>",
        )],
    )
}
