//! Moments by the Unix clock, and the time between two.
ghost use Rattle.std.specs.Prelude.{◌≡◌, ◌++◌, IfOk, OnOk, string_bytes};
ghost use Rattle.rev_pushers.specs.Times as rule;

use itoa::Buffer;
use rev_watch::event::Timestamp;
use std::alloc::{AllocError, Allocator};

/// Microseconds of a second.
const SECOND: u64 = 1000000;

/// How many microseconds of the Unix clock a moment is.
pub fn micros(time: Timestamp) -> u64
    ensures { result ≡ rule.micros time }
{
    u64::from(time.seconds) * SECOND + u64::from(time.microseconds)
}

/// The microseconds from one moment to a later one, 0 where the later one is none: a server's clock may be set back.
pub fn between(from: Timestamp, to: Timestamp) -> u64
    ensures { result ≡ rule.between from to }
{
    micros(to).saturating_sub(micros(from))
}

// Puts the digits of a number behind a text.
fn put_number<A: Allocator>(text: &mut String<A>, number: u64) -> Result<(), AllocError>
    ensures { OnOk result (string_bytes text.new ≡ string_bytes text.old ++ rule.number_text number) }
{
    let mut buffer = Buffer::new();
    text.push_str(buffer.format(number))
}

// Puts the digits of the microseconds that are no whole second, down to the tenths of milliseconds.
fn put_front<A: Allocator>(text: &mut String<A>, micros: u64) -> Result<(), AllocError>
    ensures { OnOk result (string_bytes text.new ≡ string_bytes text.old ++ rule.front_text micros) }
{
    put_number(text, micros / 100000 % 10)?;
    put_number(text, micros / 10000 % 10)?;
    put_number(text, micros / 1000 % 10)
}

// The digits behind those.
fn put_back<A: Allocator>(text: &mut String<A>, micros: u64) -> Result<(), AllocError>
    ensures { OnOk result (string_bytes text.new ≡ string_bytes text.old ++ rule.back_text micros) }
{
    put_number(text, micros / 100 % 10)?;
    put_number(text, micros / 10 % 10)?;
    put_number(text, micros % 10)
}

/// So many microseconds as seconds with six decimals.
///
/// Err: memory was refused.
pub fn seconds_text<A: Allocator>(alloc: A, micros: u64) -> Result<String<A>, AllocError>
    ensures { IfOk result (λ text. string_bytes text ≡ rule.seconds_text micros) }
{
    let mut text = String::new(alloc);
    put_number(&mut text, micros / SECOND)?;
    text.push_str(".")?;
    put_front(&mut text, micros)?;
    put_back(&mut text, micros)?;
    Ok(text)
}
