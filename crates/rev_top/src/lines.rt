//! A table as JSON: a line for each row.
ghost use Rattle.std.specs.Prelude.{◌≡◌, ◌++◌, IfOk, OnOk};
ghost use Rattle.rev_pushers.specs.Parts.{part_tokens, with_line};
ghost use Rattle.rev_pushers.specs.PushedLines.{prefix_tokens};
ghost use Rattle.rev_top.specs.Lines as rule;

use crate::rows::{Name, Row};
use json::Writer;
use rev_pushers::parts::{Part, put_parts};
use std::alloc::{AllocError, Allocator};

// The word for what a row is of.
fn kind_of(name: Name<'_>) -> &'static str
    ensures { result.now ≡ rule.kind_of name.entry }
{
    match name {
        Name::Prefix(_) => "prefix",
        Name::Class(_) => "class",
        Name::Others => "others",
        Name::Total => "total",
    }
}

// A prefix, null where it is empty.
fn prefix_part(prefix: &[u8]) -> Part<'_>
    ensures { part_tokens result ≡ prefix_tokens prefix.now }
{
    if prefix.is_empty() {
        Part::Null
    } else {
        Part::Key(prefix)
    }
}

// The name of a row, null where it has none.
fn part_of(name: Name<'_>) -> Part<'_>
    ensures { part_tokens result ≡ rule.name_tokens name.entry }
{
    match name {
        Name::Prefix(prefix) => prefix_part(prefix),
        Name::Class(class) => Part::Class(class),
        Name::Others | Name::Total => Part::Null,
    }
}

// Puts a row's figures, and ends its object.
fn put_figures<A: Allocator + Copy>(
    alloc: A,
    out: &mut Writer<A>,
    row: Row<'_>,
) -> Result<(), AllocError>
    ensures tokens { OnOk result (out.new.tokens ≡ out.old.tokens ++ rule.figures_tokens row.entry.figures row.entry.lived) }
    ensures before { OnOk result (out.new.before ≡ out.old.before) }
{
    put_parts(
        alloc,
        out,
        &[
            Part::Name("stores"),
            Part::Number(row.figures.stores),
            Part::Name("bytes"),
            Part::Number(row.figures.bytes),
            Part::Name("hits"),
            Part::Number(row.figures.hits),
            Part::Name("misses"),
            Part::Number(row.figures.misses),
            Part::Name("evictions"),
            Part::Number(row.figures.evictions),
            Part::Name("asked_again"),
            Part::Number(row.figures.asked_again),
            Part::Name("lived"),
            Part::Seconds(row.lived),
            Part::Close,
        ],
    )
}

/// Writes a line of a row, with LF.
///
/// Err: memory was refused.
pub fn row_line<A: Allocator + Copy>(
    alloc: A,
    out: Vec<u8, A>,
    row: Row<'_>,
) -> Result<Vec<u8, A>, AllocError>
    ensures { IfOk result (λ lines. lines.items ≡ with_line out.items (rule.row_tokens row.entry)) }
{
    let mut writer = Writer::new(out);
    let kind = kind_of(row.name);
    let name = part_of(row.name);
    put_parts(
        alloc,
        &mut writer,
        &[
            Part::Open,
            Part::Name("row"),
            Part::Text(kind),
            Part::Name("name"),
            name,
        ],
    )?;
    put_figures(alloc, &mut writer, row)?;
    let mut line = writer.into_inner();
    line.push(b'\n')?;
    Ok(line)
}
