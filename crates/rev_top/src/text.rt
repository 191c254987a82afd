//! A table as text for people: a head line, and a line for each row, with columns side by side.
ghost use Rattle.std.specs.Prelude.{◌≡◌, ◌++◌, IfOk, OnOk};
ghost use Rattle.rev_pushers.specs.Joins.{behind};
ghost use Rattle.rev_pushers.specs.Pieces.{piece_text, pieces_text};
ghost use Rattle.rev_top.specs.Texts as rule;

use crate::figures::Figures;
use crate::rows::{Name, Row};
use rev_pushers::pieces::{Piece, put};
use std::alloc::{AllocError, Allocator};

/// A name that takes more bytes moves its row's figures to the right (this project's own figure).
const MOST_NAME: usize = 40;

/// The column of names is at least so wide.
const LEAST_NAME: u8 = 6;

/// Columns of counts, of bytes, and of keys that were asked for again.
const COUNT: u8 = 10;

const BYTES: u8 = 15;

const AGAIN: u8 = 12;

/// The head line's words, behind the first one.
const HEAD: &str =
    "    stores          bytes      hits    misses evictions asked again     lived\n";

// How a prefix is told.
fn prefix_text(prefix: &[u8]) -> &[u8]
    ensures { result.now ≡ rule.prefix_text prefix.now }
{
    if prefix.is_empty() {
        b"(no prefix)"
    } else {
        prefix
    }
}

// How a name is told.
fn piece_of(name: Name<'_>) -> Piece<'_>
    ensures { piece_text result ≡ rule.name_text name.entry }
{
    match name {
        Name::Prefix(prefix) => Piece::Key(prefix_text(prefix)),
        Name::Class(class) => Piece::Class(class),
        Name::Others => Piece::Text("others"),
        Name::Total => Piece::Text("total"),
    }
}

// The text of pieces.
fn text_of<A: Allocator + Copy>(alloc: A, pieces: &[Piece<'_>]) -> Result<Vec<u8, A>, AllocError>
    ensures { IfOk result (λ text. text.items ≡ pieces_text pieces.now) }
{
    let mut text = Vec::new(alloc);
    put(alloc, &mut text, pieces)?;
    Ok(text)
}

// The text of a row's name.
fn name_text<A: Allocator + Copy>(alloc: A, name: Name<'_>) -> Result<Vec<u8, A>, AllocError>
    ensures { IfOk result (λ text. text.items ≡ rule.name_text name.entry) }
{
    text_of(alloc, &[piece_of(name)])
}

// Writes so many spaces.
fn put_spaces<A: Allocator>(out: &mut Vec<u8, A>, count: u8) -> Result<(), AllocError>
    ensures { OnOk result (out.new.items ≡ out.old.items ++ rule.spaces count) }
{
    out.resize(out.len() + count as usize, b' ')
}

// How many bytes a text lacks.
fn lacking(width: u8, text: &[u8]) -> u8
    ensures { result ≡ rule.lacking width text.now }
{
    (width as usize).saturating_sub(text.len()) as u8
}

// Writes a text at the left of a column.
fn put_left<A: Allocator>(out: &mut Vec<u8, A>, width: u8, text: &[u8]) -> Result<(), AllocError>
    ensures { OnOk result (out.new.items ≡ rule.with_name out.old.items width text.now) }
{
    out.extend_from_slice(text)?;
    put_spaces(out, lacking(width, text))
}

// Writes a text at the right of a column, behind a space.
fn put_right<A: Allocator>(out: &mut Vec<u8, A>, width: u8, text: &[u8]) -> Result<(), AllocError>
    ensures { OnOk result (out.new.items ≡ out.old.items ++ rule.cell width text.now) }
{
    put_spaces(out, lacking(width, text))?;
    out.extend_from_slice(text)
}

// Writes a number in a column.
fn put_number<A: Allocator + Copy>(
    alloc: A,
    out: &mut Vec<u8, A>,
    width: u8,
    number: u64,
) -> Result<(), AllocError>
    ensures { OnOk result (out.new.items ≡ out.old.items ++ rule.cell width (rule.number_text number)) }
{
    let text = text_of(alloc, &[Piece::Text(" "), Piece::Number(number)])?;
    put_right(out, width, text.as_slice())
}

// Writes how long what was evicted had lived in a column.
fn put_lived<A: Allocator + Copy>(
    alloc: A,
    out: &mut Vec<u8, A>,
    width: u8,
    lived: Option<u64>,
) -> Result<(), AllocError>
    ensures { OnOk result (out.new.items ≡ out.old.items ++ rule.cell width (rule.lived_text lived)) }
{
    let text = match lived {
        Some(micros) => text_of(
            alloc,
            &[Piece::Text(" "), Piece::Seconds(micros), Piece::Text(" s")],
        )?,
        None => text_of(alloc, &[Piece::Text(" -")])?,
    };
    put_right(out, width, text.as_slice())
}

// Writes the columns of a row's figures.
fn put_figures<A: Allocator + Copy>(
    alloc: A,
    out: &mut Vec<u8, A>,
    figures: Figures,
) -> Result<(), AllocError>
    ensures { OnOk result (out.new.items ≡ behind out.old.items (rule.figures_cells figures)) }
{
    put_number(alloc, out, COUNT, figures.stores)?;
    put_number(alloc, out, BYTES, figures.bytes)?;
    put_number(alloc, out, COUNT, figures.hits)?;
    put_number(alloc, out, COUNT, figures.misses)?;
    put_number(alloc, out, COUNT, figures.evictions)?;
    put_number(alloc, out, AGAIN, figures.asked_again)
}

// Writes a row, with its name in a column of this width.
fn put_row<A: Allocator + Copy>(
    alloc: A,
    out: &mut Vec<u8, A>,
    width: u8,
    row: Row<'_>,
) -> Result<(), AllocError>
    ensures { OnOk result (out.new.items ≡ rule.with_row out.old.items width row.entry) }
{
    let name = name_text(alloc, row.name)?;
    put_left(out, width, name.as_slice())?;
    put_figures(alloc, out, row.figures)?;
    put_lived(alloc, out, COUNT, row.lived)?;
    put(alloc, out, &[Piece::Text("\n")])
}

// Writes rows.
fn put_rows<A: Allocator + Copy>(
    alloc: A,
    out: &mut Vec<u8, A>,
    width: u8,
    rows: &[Row<'_>],
) -> Result<(), AllocError>
    ensures { OnOk result (out.new.items ≡ rule.with_rows out.old.items width rows.now) }
{
    for row in rows {
        put_row(alloc, out, width, *row)?;
    }
    Ok(())
}

// The wider of a column and a name, as far as a column is widened.
fn widened<A: Allocator + Copy>(alloc: A, width: u8, name: Name<'_>) -> Result<u8, AllocError>
    ensures { IfOk result (λ w. w ≡ rule.widened width name.entry) }
{
    let text = name_text(alloc, name)?;
    Ok(width.max(text.len().min(MOST_NAME) as u8))
}

// The width of the column of names: that of the longest.
fn width_of<A: Allocator + Copy>(alloc: A, rows: &[Row<'_>]) -> Result<u8, AllocError>
    ensures { IfOk result (λ w. w ≡ rule.widest 6 rows.now) }
{
    let mut width = LEAST_NAME;
    for row in rows {
        width = widened(alloc, width, row.name)?;
    }
    Ok(width)
}

// What the column of names is called.
fn head_word(by_class: bool) -> &'static [u8]
    ensures { result.now ≡ rule.head_word by_class }
{
    if by_class { b"class" } else { b"prefix" }
}

/// Writes a table of rows, with a head line.
///
/// Err: memory was refused.
pub fn put_table<A: Allocator + Copy>(
    alloc: A,
    out: &mut Vec<u8, A>,
    rows: &[Row<'_>],
    by_class: bool,
) -> Result<(), AllocError>
    ensures { OnOk result (out.new.items ≡ rule.with_table out.old.items rows.now by_class) }
{
    let width = width_of(alloc, rows)?;
    put_left(out, width, head_word(by_class))?;
    put(alloc, out, &[Piece::Text(HEAD)])?;
    put_rows(alloc, out, width, rows)
}
