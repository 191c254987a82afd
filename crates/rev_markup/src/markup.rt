//! The markup of a page, piece by piece.
ghost use Rattle.std.specs.Prelude.{◌≡◌, ◌++◌, true, OnOk};
ghost use Rattle.rev_markup.specs.Escape.{is_safe};
ghost use Rattle.rev_markup.specs.Markup.{IsOf, piece_text, pieces_text};

use crate::escape::{put_escaped, put_escaped_bytes};
use crate::numbers::{put_grouped, put_plain, put_tenths};
use std::alloc::AllocError;

/// A piece of a page.
#[derive(Clone, Copy)]
pub enum Piece<'a> {
    /// Markup of the program's own.
    Markup(&'static str),
    /// A text, from wherever it comes: it stands escaped.
    Text(&'a str),
    /// Bytes that are no text: they stand escaped, those that do not print as hexadecimal digits.
    Bytes(&'a [u8]),
    /// A number in groups of three digits.
    Count(u64),
    /// The digits of a number.
    Plain(u64),
    /// A number of tenths.
    Tenths(u32),
}

// Whether a character may stand in markup, and shows as itself.
fn is_shown(character: char) -> bool {
    character >= ' ' && character != '\u{7f}' && character != '\u{fffe}' && character != '\u{ffff}'
}

/// The piece for bytes from outside: a text where they are one, all of whose characters may stand in markup. None of
/// what is written of it is read as markup.
pub fn outside(bytes: &[u8]) -> Piece<'_>
    ensures of { IsOf bytes.now result }
    ensures safe { is_safe (piece_text result) ≡ true }
{
    match std::str::from_utf8(bytes) {
        Ok(text) if text.chars().all(is_shown) => Piece::Text(text),
        _ => Piece::Bytes(bytes),
    }
}

fn put_piece(out: &mut Vec<u8>, piece: Piece<'_>) -> Result<(), AllocError>
    ensures { OnOk result (out.new.items ≡ out.old.items ++ piece_text piece.entry) }
{
    match piece {
        Piece::Markup(markup) => out.extend_from_slice(markup.as_bytes()),
        Piece::Text(text) => put_escaped(out, text.as_bytes()),
        Piece::Bytes(bytes) => put_escaped_bytes(out, bytes),
        Piece::Count(n) => put_grouped(out, n),
        Piece::Plain(n) => put_plain(out, n),
        Piece::Tenths(n) => put_tenths(out, n),
    }
}

/// Puts pieces, one behind another.
pub fn put(out: &mut Vec<u8>, pieces: &[Piece<'_>]) -> Result<(), AllocError>
    ensures { OnOk result (out.new.items ≡ out.old.items ++ pieces_text pieces.now) }
{
    for piece in pieces {
        put_piece(out, *piece)?;
    }
    Ok(())
}
