//! Whether a word is a key, as `rev_items` says it, told of eight bytes at a time.
ghost use Rattle.std.specs.Prelude.{◌≡◌, ℕ, ◌+◌, ◌<◌, ◌≤◌, length, get_or, true, IsTrue};
ghost use Rattle.rev_items.specs.Keys.{is_key, is_key_byte};

use std::simd::prelude::*;

// How many bytes are looked at at once.
const BLOCK: usize = 8;

// The most bytes that are looked at by blocks: four of them. Few keys have more.
const MOST_BY_BLOCKS: usize = 4 * BLOCK;

// Whether these eight bytes may stand in a key.
#[inline(always)]
fn is_clean(word: &[u8], at: usize) -> bool
    requires { at + BLOCK ≤ length word.now }
    ensures { IsTrue result → (k : ℕ) → at ≤ k → k < at + BLOCK → is_key_byte (get_or word.now k 0) ≡ true }
{
    let block = u8x8::from_slice(&word[at..]);
    let controls = block.simd_lt(u8x8::splat(33)).to_bitmask();
    let deletes = block.simd_eq(u8x8::splat(127)).to_bitmask();
    controls == 0 && deletes == 0
}

// Whether each byte may stand in a key. Blocks may overlap.
#[inline(always)]
fn is_clean_by_blocks(word: &[u8]) -> bool
    requires least { BLOCK ≤ length word.now }
    requires most { length word.now ≤ 32 }
    ensures { IsTrue result → (k : ℕ) → k < length word.now → is_key_byte (get_or word.now k 0) ≡ true }
{
    let last = word.len() - BLOCK;
    if !is_clean(word, 0) || !is_clean(word, last) {
        return false;
    }
    if word.len() <= 2 * BLOCK {
        return true;
    }
    is_clean(word, BLOCK) && is_clean(word, last.min(2 * BLOCK))
}

/// Whether the word is a key. Of one of 8 to 32 bytes, as most are, no byte is looked at by itself.
pub fn is_key(word: &[u8]) -> bool
    ensures { result ≡ is_key word.now }
{
    if BLOCK <= word.len() && word.len() <= MOST_BY_BLOCKS && is_clean_by_blocks(word) {
        return true;
    }
    rev_items::is_key(word)
}
