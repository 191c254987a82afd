//! A part of a whole.
ghost use Rattle.std.specs.Prelude.{◌≡◌, ◌≤◌, ◌*◌, ◌/◌, max, min};

use crate::markup::Piece::{Count, Markup, Tenths};
use crate::markup::put;
use crate::scale::Scale;
use std::alloc::AllocError;

/// So many of a whole.
#[derive(Clone, Copy)]
pub struct Share {
    pub part: u64,
    pub whole: u64,
}

impl Share {
    /// How many thousandths of the whole the part is, rounded down; 0 where the whole is nothing.
    pub fn thousandths(self) -> u32
        ensures value { result ≡ min self.part self.whole * 1000 / max self.whole 1 }
        ensures within { result ≤ 1000 }
    {
        let scale = Scale {
            last: self.whole,
            length: 1000,
        };
        scale.at(self.part)
    }
}

/// Puts thousandths as a share of a hundred.
pub fn put_per_cent(out: &mut Vec<u8>, thousandths: u32) -> Result<(), AllocError> {
    put(out, &[Tenths(thousandths), Markup("\u{202f}%")])
}

/// Puts a number, and in brackets how many thousandths of a whole it is, where there is a whole.
pub fn put_part(
    out: &mut Vec<u8>,
    part: u64,
    whole: u64,
    thousandths: u32,
) -> Result<(), AllocError> {
    put(out, &[Count(part)])?;
    if whole == 0 {
        return Ok(());
    }
    put(out, &[Markup(" (")])?;
    put_per_cent(out, thousandths)?;
    put(out, &[Markup(")")])
}
