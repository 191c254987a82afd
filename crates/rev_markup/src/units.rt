//! Numbers with their units, as a reader sees them.

use crate::markup::Piece::{Count, Markup, Plain, Tenths};
use crate::markup::put;
use crate::numbers::put_two;
use std::alloc::AllocError;

/// Puts a number, and what it counts.
pub fn put_counted(
    out: &mut Vec<u8>,
    n: u64,
    one: &'static str,
    many: &'static str,
) -> Result<(), AllocError> {
    put(
        out,
        &[
            Count(n),
            Markup("\u{202f}"),
            Markup(if n == 1 { one } else { many }),
        ],
    )
}

// The largest unit of bytes of which a number has at least one: its bytes and its name.
fn unit_of(bytes: u64) -> (u64, &'static str) {
    if bytes >= 1073741824 {
        (1073741824, "\u{202f}GiB")
    } else if bytes >= 1048576 {
        (1048576, "\u{202f}MiB")
    } else if bytes >= 1024 {
        (1024, "\u{202f}KiB")
    } else {
        (1, "\u{202f}B")
    }
}

/// Puts a number of bytes in the unit of a step.
pub fn put_round_bytes(out: &mut Vec<u8>, bytes: u64, step: u64) -> Result<(), AllocError> {
    let (unit, name) = unit_of(step);
    put(out, &[Count(bytes / unit.max(1)), Markup(name)])
}

/// Puts a number of bytes in the largest unit that fits, to a tenth of it.
pub fn put_bytes(out: &mut Vec<u8>, bytes: u64) -> Result<(), AllocError> {
    let (unit, name) = unit_of(bytes);
    let tenths = bytes.saturating_mul(10) / unit.max(1);
    put(
        out,
        &[Tenths(tenths.min(u64::from(u32::MAX)) as u32), Markup(name)],
    )
}

// Puts a number of three digits.
fn put_three(out: &mut Vec<u8>, n: u64) -> Result<(), AllocError> {
    if n < 100 {
        put(out, &[Markup("0")])?;
    }
    put_two(out, n)
}

/// Puts so many thousandths, with no more digits behind the point than it takes.
pub fn put_thousandths(out: &mut Vec<u8>, n: u64) -> Result<(), AllocError> {
    let rest = n % 1000;
    put(out, &[Count(n / 1000)])?;
    if rest == 0 {
        return Ok(());
    }
    put(out, &[Markup(".")])?;
    if rest % 100 == 0 {
        put(out, &[Plain(rest / 100)])
    } else if rest % 10 == 0 {
        put_two(out, rest / 10)
    } else {
        put_three(out, rest)
    }
}

/// Puts seconds as minutes and seconds, with hours in front of them where there are any.
pub fn put_span(out: &mut Vec<u8>, seconds: u64) -> Result<(), AllocError> {
    let minutes = seconds / 60;
    if minutes < 60 {
        put(out, &[Plain(minutes), Markup(":")])?;
    } else {
        put(out, &[Count(minutes / 60), Markup(":")])?;
        put_two(out, minutes % 60)?;
        put(out, &[Markup(":")])?;
    }
    put_two(out, seconds % 60)
}

/// Puts seconds in words: hours and minutes, minutes and seconds, or seconds.
pub fn put_time(out: &mut Vec<u8>, seconds: u64) -> Result<(), AllocError> {
    let (minutes, hours) = (seconds / 60, seconds / 3600);
    if hours > 0 {
        put(
            out,
            &[
                Count(hours),
                Markup("\u{202f}h "),
                Plain(minutes % 60),
                Markup("\u{202f}min"),
            ],
        )
    } else if minutes > 0 {
        put(
            out,
            &[
                Plain(minutes),
                Markup("\u{202f}min "),
                Plain(seconds % 60),
                Markup("\u{202f}s"),
            ],
        )
    } else {
        put(out, &[Plain(seconds), Markup("\u{202f}s")])
    }
}
