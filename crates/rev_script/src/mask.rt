//! Where the spaces of a line stand, told of 64 bytes at once.
ghost use Rattle.std.specs.Prelude.{◌≡◌, ◌≢◌, ◌↔◌, ℕ, ◌<◌, ◌≤◌, length, get_or};
ghost use Rattle.std.specs.Int.{bit_at};

use std::simd::prelude::*;

/// Of how many bytes a mask tells.
pub const MASK_BYTES: usize = 64;

/// The mask of the spaces among the first 64 bytes: bit k stands for byte k.
#[inline(always)]
pub fn space_mask(front: &[u8]) -> u64
    requires { MASK_BYTES ≤ length front.now }
    ensures { (k : ℕ) → k < MASK_BYTES → ((bit_at result k ≡ 1) ↔ (get_or front.now k 0 ≡ 32)) }
{
    u8x64::from_slice(&front[0..])
        .simd_eq(u8x64::splat(b' '))
        .to_bitmask()
}

/// The first place whose bit is set, or `end` where none is before it.
#[inline(always)]
pub fn first_place(mask: u64, end: usize) -> usize
    requires { end ≤ MASK_BYTES }
    ensures bound { result ≤ end }
    ensures set { result < end → bit_at mask result ≡ 1 }
    ensures below { (k : ℕ) → k < result → bit_at mask k ≡ 0 }
{
    if mask == 0 {
        return end;
    }
    (mask.trailing_zeros() as usize).min(end)
}

/// The mask without this place.
#[inline(always)]
pub fn without(mask: u64, place: usize) -> u64
    requires { place < MASK_BYTES }
    ensures gone { bit_at result place ≡ 0 }
    ensures kept { (k : ℕ) → k < MASK_BYTES → k ≢ place → bit_at result k ≡ bit_at mask k }
{
    mask & !(1 << place)
}
