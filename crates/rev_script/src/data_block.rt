//! The data block behind a storage line.
ghost use Rattle.std.specs.Prelude.{◌≡◌, ◌≢◌, [], ◌∷◌, ◌++◌, ◌≤◌, ◌+◌, ℕ, List, length, IfOk, IfErr, true, false};
ghost use Rattle.std.specs.Str.{bytes_eq};
ghost use Rattle.rev_script.specs.DataBlock.{IsTaken, IsShort, IsUnended, IsBroken, IsEnding, IsBlock};
ghost use Rattle.rev_script.specs.declared.dialect.Dialect.TheVariants.{CrLf, AnyFeed};

use crate::byte_reader::{ByteReader, LineFault};
use crate::dialect::Dialect;
use crate::raw_line::at_most;
use crate::source::Source;
use std::alloc::Allocator;

/// Data of more bytes are read and not kept: they are more than fit any slab class.
pub const MOST_DATA: u32 = 1048576;

// Takes n bytes and keeps them; false where the end came first.
fn keep<S: Source, A: Allocator>(
    bytes: &mut ByteReader<S>,
    n: u32,
    into: &mut Vec<u8, A>,
) -> Result<bool, LineFault>
    ensures ok { IfOk result (λ all. (taken : List ℕ) × IsTaken bytes.old bytes.new n all taken
        × (into.new.items ≡ into.old.items ++ taken)) }
    ensures err { IfErr result (λ e. IsShort bytes.old bytes.new n e) }
{
    let mut left = n as usize;
    'pieces: while left > 0 {
        let some = match bytes.more() {
            Err(e) => return Err(e),
            Ok(some) => some,
        };
        if !some {
            return Ok(false);
        }
        let part = at_most(bytes.front(), left);
        let n = part.len();
        match into.extend_from_slice(part) {
            Err(_) => return Err(LineFault::Memory),
            Ok(()) => {}
        }
        bytes.pass(n);
        left -= n;
    }
    Ok(true)
}

// Takes n bytes; false where the end came first.
fn skip<S: Source>(bytes: &mut ByteReader<S>, n: u32) -> Result<bool, LineFault>
    ensures ok { IfOk result (λ all. (taken : List ℕ) × IsTaken bytes.old bytes.new n all taken) }
    ensures err { IfErr result (λ e. IsShort bytes.old bytes.new n e) }
{
    let mut left = n as usize;
    'pieces: while left > 0 {
        let some = match bytes.more() {
            Err(e) => return Err(e),
            Ok(some) => some,
        };
        if !some {
            return Ok(false);
        }
        let n = at_most(bytes.front(), left).len();
        bytes.pass(n);
        left -= n;
    }
    Ok(true)
}

fn is_crlf(first: u8, second: u8) -> bool
    ensures { result ≡ bytes_eq (first ∷ second ∷ []) (13 ∷ 10 ∷ []) }
{
    first == b'\r' && second == b'\n'
}

// Takes two bytes, where there are so many; true where they are CR LF.
#[inline(always)]
fn take_crlf<S: Source>(bytes: &mut ByteReader<S>) -> Result<bool, LineFault>
    ensures ok { IfOk result (λ sound. IsEnding CrLf bytes.old bytes.new sound) }
    ensures err { IfErr result (λ e. IsUnended CrLf bytes.old bytes.new e) }
{
    // Mostly both are in the piece, and then nothing is read.
    let front = bytes.front();
    if front.len() >= 2 {
        let sound = is_crlf(front[0], front[1]);
        bytes.pass(2);
        return Ok(sound);
    }
    let first = match bytes.byte() {
        Err(e) => return Err(e),
        Ok(None) => return Ok(false),
        Ok(Some(b)) => b,
    };
    let second = match bytes.byte() {
        Err(e) => return Err(e),
        Ok(None) => return Ok(false),
        Ok(Some(b)) => b,
    };
    Ok(is_crlf(first, second))
}

// Takes a byte, and behind a CR one more, where there are so many; true where they are LF or CR LF.
fn take_feed<S: Source>(bytes: &mut ByteReader<S>) -> Result<bool, LineFault>
    ensures ok { IfOk result (λ sound. IsEnding AnyFeed bytes.old bytes.new sound) }
    ensures err { IfErr result (λ e. IsUnended AnyFeed bytes.old bytes.new e) }
{
    let first = match bytes.byte() {
        Err(e) => return Err(e),
        Ok(None) => return Ok(false),
        Ok(Some(b)) => b,
    };
    if first != b'\r' {
        return Ok(first == b'\n');
    }
    match bytes.byte() {
        Err(e) => Err(e),
        Ok(None) => Ok(false),
        Ok(Some(second)) => Ok(second == b'\n'),
    }
}

// Takes what tells whether a block ends here; true where it does.
#[inline(always)]
fn take_ending<S: Source>(bytes: &mut ByteReader<S>, dialect: Dialect) -> Result<bool, LineFault>
    ensures ok { IfOk result (λ sound. IsEnding dialect bytes.old bytes.new sound) }
    ensures err { IfErr result (λ e. IsUnended dialect bytes.old bytes.new e) }
{
    match dialect {
        Dialect::CrLf => take_crlf(bytes),
        Dialect::AnyFeed => take_feed(bytes),
    }
}

// Takes a data block without its ending, and keeps it where it is not too long.
fn take_data<S: Source, A: Allocator>(
    bytes: &mut ByteReader<S>,
    size: u32,
    kept: &mut Vec<u8, A>,
) -> Result<bool, LineFault>
    requires { kept.old.items ≡ [] }
    ensures ok { IfOk result (λ all. (taken : List ℕ) × IsTaken bytes.old bytes.new size all taken
        × (size ≤ 1048576 → kept.new.items ≡ taken)) }
    ensures err { IfErr result (λ e. IsShort bytes.old bytes.new size e) }
{
    if size > MOST_DATA {
        skip(bytes, size)
    } else {
        keep(bytes, size, kept)
    }
}

/// Takes a data block of so many bytes with its ending; true where it is sound.
pub fn take_block<S: Source, A: Allocator>(
    bytes: &mut ByteReader<S>,
    dialect: Dialect,
    size: u32,
    kept: &mut Vec<u8, A>,
) -> Result<bool, LineFault>
    requires { kept.old.items ≡ [] }
    ensures ok { IfOk result (λ sound. IsBlock dialect bytes.old bytes.new size sound kept.new.items) }
    ensures err { IfErr result (λ e. IsBroken dialect bytes.old bytes.new size e) }
{
    match take_data(bytes, size, kept) {
        Err(e) => return Err(e),
        Ok(false) => return Ok(false),
        Ok(true) => {}
    }
    match take_ending(bytes, dialect) {
        Err(e) => Err(e),
        Ok(sound) => Ok(sound),
    }
}
