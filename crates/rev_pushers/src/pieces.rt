//! Texts that are put piece by piece.
ghost use Rattle.std.specs.Prelude.{◌≡◌, ◌++◌, decimal, OnOk};
ghost use Rattle.rev_pushers.specs.Pieces.{piece_text, pieces_text};
ghost use Rattle.rev_pushers.specs.declared.pieces.Piece.{Piece};

use crate::times::{micros, seconds_text};
use itoa::Buffer;
use rev_watch::event::Timestamp;
use std::alloc::{AllocError, Allocator};

/// A piece of a text.
#[derive(Clone, Copy)]
pub enum Piece<'a> {
    /// A text of the program's own.
    Text(&'static str),
    /// A key.
    Key(&'a [u8]),
    Number(u64),
    /// A connection, `-` where there is none.
    Connection(Option<i32>),
    /// A class, `-` where there is none.
    Class(Option<usize>),
    /// A moment by the Unix clock, in seconds with six decimals behind an `@`.
    Time(Timestamp),
    /// So many microseconds in seconds with one decimal; what is left is left off.
    Seconds(u64),
}

fn put_number<A: Allocator>(out: &mut Vec<u8, A>, number: u64) -> Result<(), AllocError>
    ensures { OnOk result (out.new.items ≡ out.old.items ++ decimal number) }
{
    let mut buffer = Buffer::new();
    out.extend_from_slice(buffer.format(number).as_bytes())
}

fn put_connection<A: Allocator>(
    out: &mut Vec<u8, A>,
    connection: Option<i32>,
) -> Result<(), AllocError>
    ensures { OnOk result (out.new.items ≡ out.old.items ++ piece_text (Piece.Connection connection)) }
{
    match connection {
        Some(connection) => {
            let mut buffer = Buffer::new();
            out.extend_from_slice(buffer.format(connection).as_bytes())
        }
        None => out.extend_from_slice(b"-"),
    }
}

fn put_class<A: Allocator>(out: &mut Vec<u8, A>, class: Option<usize>) -> Result<(), AllocError>
    ensures { OnOk result (out.new.items ≡ out.old.items ++ piece_text (Piece.Class class)) }
{
    match class {
        Some(class) => put_number(out, class as u64),
        None => out.extend_from_slice(b"-"),
    }
}

fn put_time<A: Allocator + Copy>(
    alloc: A,
    out: &mut Vec<u8, A>,
    time: Timestamp,
) -> Result<(), AllocError>
    ensures { OnOk result (out.new.items ≡ out.old.items ++ piece_text (Piece.Time time)) }
{
    let text = seconds_text(alloc, micros(time))?;
    out.extend_from_slice(b"@")?;
    out.extend_from_slice(text.as_str().as_bytes())
}

fn put_seconds<A: Allocator>(out: &mut Vec<u8, A>, micros: u64) -> Result<(), AllocError>
    ensures { OnOk result (out.new.items ≡ out.old.items ++ piece_text (Piece.Seconds micros)) }
{
    put_number(out, micros / 1000000)?;
    out.extend_from_slice(b".")?;
    put_number(out, micros / 100000 % 10)
}

fn put_piece<A: Allocator + Copy>(
    alloc: A,
    out: &mut Vec<u8, A>,
    piece: Piece<'_>,
) -> Result<(), AllocError>
    ensures { OnOk result (out.new.items ≡ out.old.items ++ piece_text piece.entry) }
{
    match piece {
        Piece::Text(text) => out.extend_from_slice(text.as_bytes()),
        Piece::Key(bytes) => out.extend_from_slice(bytes),
        Piece::Number(number) => put_number(out, number),
        Piece::Connection(connection) => put_connection(out, connection),
        Piece::Class(class) => put_class(out, class),
        Piece::Time(time) => put_time(alloc, out, time),
        Piece::Seconds(micros) => put_seconds(out, micros),
    }
}

/// Puts pieces, one behind another.
///
/// Err: memory was refused.
pub fn put<A: Allocator + Copy>(
    alloc: A,
    out: &mut Vec<u8, A>,
    pieces: &[Piece<'_>],
) -> Result<(), AllocError>
    ensures { OnOk result (out.new.items ≡ out.old.items ++ pieces_text pieces.now) }
{
    for piece in pieces {
        put_piece(alloc, out, *piece)?;
    }
    Ok(())
}
