//! Lines of JSON that are put part by part.
ghost use Rattle.std.specs.Prelude.{◌≡◌, ◌++◌, ◌∷◌, [], IfOk, OnOk, Some, codes, string_bytes};
ghost use Rattle.json.specs.Token.{begin_object, end_object, key, string};
ghost use Rattle.rev_pushers.specs.Parts as rule;

use crate::times::{micros, seconds_text};
use json::Writer;
use rev_watch::event::Timestamp;
use std::alloc::{AllocError, Allocator};

/// A part of a line of JSON.
#[derive(Clone, Copy)]
pub enum Part<'a> {
    /// An object begins or ends.
    Open,
    Close,
    /// A list begins or ends.
    OpenList,
    CloseList,
    Name(&'static str),
    /// A text of the program's own.
    Text(&'static str),
    /// A key: a text where it is UTF-8, else an object with its hexadecimal digits.
    Key(&'a [u8]),
    Number(u64),
    /// A connection, null where there is none.
    Connection(Option<i32>),
    /// A class, null where there is none.
    Class(Option<usize>),
    /// So many microseconds as seconds with six decimals, null where there are none.
    Seconds(Option<u64>),
    /// A moment by the Unix clock in seconds with six decimals, null where there is none.
    Time(Option<Timestamp>),
    Null,
}

// The lower hexadecimal digit of a number.
fn hex_digit(number: u8) -> char
    ensures { result ≡ rule.hex_digit number }
{
    let digit = number % 16;
    char::from(if digit < 10 {
        b'0' + digit
    } else {
        b'a' - 10 + digit
    })
}

// Bytes as their hexadecimal digits.
fn hex_of<A: Allocator>(alloc: A, bytes: &[u8]) -> Result<String<A>, AllocError>
    ensures { IfOk result (λ text. string_bytes text ≡ rule.hex bytes.now) }
{
    let mut digits = String::new(alloc);
    for byte in bytes {
        digits.push(hex_digit(*byte / 16))?;
        digits.push(hex_digit(*byte))?;
    }
    Ok(digits)
}

// Puts bytes that are not UTF-8: an object with their hexadecimal digits.
fn put_hex<A: Allocator + Copy>(
    alloc: A,
    out: &mut Writer<A>,
    bytes: &[u8],
) -> Result<(), AllocError>
    ensures tokens { OnOk result (out.new.tokens ≡ out.old.tokens ++ begin_object ∷ key (codes "hex") ∷ string (rule.hex bytes.now) ∷ end_object ∷ []) }
    ensures before { OnOk result (out.new.before ≡ out.old.before) }
{
    let digits = hex_of(alloc, bytes)?;
    out.begin_object()?;
    out.key("hex")?;
    out.string(digits.as_str())?;
    out.end_object()
}

// Puts a key: a string where it is UTF-8, else an object with its hexadecimal digits.
fn put_key<A: Allocator + Copy>(alloc: A, out: &mut Writer<A>, key: &[u8]) -> Result<(), AllocError>
    ensures tokens { OnOk result (out.new.tokens ≡ out.old.tokens ++ rule.key_tokens key.now) }
    ensures before { OnOk result (out.new.before ≡ out.old.before) }
{
    match std::str::from_utf8(key) {
        Ok(text) => out.string(text),
        Err(_) => put_hex(alloc, out, key),
    }
}

// Puts so many microseconds as seconds.
fn put_seconds<A: Allocator + Copy>(
    alloc: A,
    out: &mut Writer<A>,
    micros: u64,
) -> Result<(), AllocError>
    ensures tokens { OnOk result (out.new.tokens ≡ out.old.tokens ++ rule.seconds_token (Some micros) ∷ []) }
    ensures before { OnOk result (out.new.before ≡ out.old.before) }
{
    let text = seconds_text(alloc, micros)?;
    out.number(text.as_str())
}

fn put_connection<A: Allocator>(
    out: &mut Writer<A>,
    connection: Option<i32>,
) -> Result<(), AllocError>
    ensures tokens { OnOk result (out.new.tokens ≡ out.old.tokens ++ rule.connection_token connection ∷ []) }
    ensures before { OnOk result (out.new.before ≡ out.old.before) }
{
    match connection {
        Some(connection) => out.i64(i64::from(connection)),
        None => out.null(),
    }
}

fn put_class<A: Allocator>(out: &mut Writer<A>, class: Option<usize>) -> Result<(), AllocError>
    ensures tokens { OnOk result (out.new.tokens ≡ out.old.tokens ++ rule.class_token class ∷ []) }
    ensures before { OnOk result (out.new.before ≡ out.old.before) }
{
    match class {
        Some(class) => out.u64(class as u64),
        None => out.null(),
    }
}

fn put_part<A: Allocator + Copy>(
    alloc: A,
    out: &mut Writer<A>,
    part: Part<'_>,
) -> Result<(), AllocError>
    ensures tokens { OnOk result (out.new.tokens ≡ out.old.tokens ++ rule.part_tokens part.entry) }
    ensures before { OnOk result (out.new.before ≡ out.old.before) }
{
    match part {
        Part::Open => out.begin_object(),
        Part::Close => out.end_object(),
        Part::OpenList => out.begin_array(),
        Part::CloseList => out.end_array(),
        Part::Name(name) => out.key(name),
        Part::Text(text) => out.string(text),
        Part::Key(key) => put_key(alloc, out, key),
        Part::Number(number) => out.u64(number),
        Part::Connection(connection) => put_connection(out, connection),
        Part::Class(class) => put_class(out, class),
        Part::Seconds(Some(micros)) => put_seconds(alloc, out, micros),
        Part::Seconds(None) => out.null(),
        Part::Time(Some(time)) => put_seconds(alloc, out, micros(time)),
        Part::Time(None) => out.null(),
        Part::Null => out.null(),
    }
}

/// Puts parts, one behind another.
///
/// Err: memory was refused.
pub fn put_parts<A: Allocator + Copy>(
    alloc: A,
    out: &mut Writer<A>,
    parts: &[Part<'_>],
) -> Result<(), AllocError>
    ensures tokens { OnOk result (out.new.tokens ≡ out.old.tokens ++ rule.parts_tokens parts.now) }
    ensures before { OnOk result (out.new.before ≡ out.old.before) }
{
    for part in parts {
        put_part(alloc, out, *part)?;
    }
    Ok(())
}
