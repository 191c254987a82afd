//! The words of a line.
ghost use Rattle.std.specs.Prelude.{◌≡◌, ◌↔◌, ◌++◌, ℕ, get_or, map, take, length, true, [], IsTrue, ◌≤◌, ◌<◌, ◌+◌, IfOk};
ghost use Rattle.std.specs.Int.{bit_at};
ghost use Rattle.std.specs.List.{list_all};
ghost use Rattle.std.specs.Str.{bytes_eq};
ghost use Rattle.rev_script.specs.Words.{words, word, word_or_none, is_name, are_words};
ghost use Rattle.rev_items.specs.Keys.{is_key};

use crate::keys::is_key;
use crate::mask::{MASK_BYTES, first_place, space_mask, without};
use arrayvec::ArrayVec;
use std::alloc::{AllocError, Allocator};

/// For how many words a list has room at first (this project's own figure): a line that stores an item has at most
/// seven.
const USUAL_WORDS: usize = 8;

/// The words of a text, parted by runs of spaces. Only the list takes memory.
pub fn words<A: Allocator>(alloc: A, text: &[u8]) -> Result<Vec<&[u8], A>, AllocError>
    ensures { IfOk result (λ v. map (λ x. x.now) v.items ≡ words text.now) }
{
    let mut words = Vec::with_capacity(alloc, USUAL_WORDS)?;
    words.extend(text.split(|b| *b == b' ').filter(|w| !w.is_empty()))?;
    Ok(words)
}

/// Puts the words of a text into an empty list that has room for eight of them, and takes no memory. At `false` they
/// are not all there. That this is so only where the text has more than eight is speed, and not promised.
pub fn few_words<'a>(few: &mut ArrayVec<&'a [u8], USUAL_WORDS>, text: &'a [u8]) -> bool
    requires { few.old.items ≡ [] }
    ensures { IsTrue result → map (λ x. x.now) few.new.items ≡ words text.now }
{
    match few.extend(text.split(|b| *b == b' ').filter(|w| !w.is_empty())) {
        Ok(()) => true,
        Err(_) => false,
    }
}

// Puts a word behind others, if it is not empty. At `false` there is no room for it.
#[inline(always)]
fn keep_word<'a>(few: &mut ArrayVec<&'a [u8], USUAL_WORDS>, word: &'a [u8]) -> bool
    ensures { IsTrue result → map (λ x. x.now) few.new.items ≡ map (λ x. x.now) few.old.items ++ word_or_none word.now }
{
    if word.is_empty() {
        return true;
    }
    match few.try_push(word) {
        Ok(()) => true,
        Err(_) => false,
    }
}

// Splits a text as `few_words` does, by the mask of its spaces: from one of them to the next no byte is looked at.
#[inline(always)]
fn few_words_by<'a>(few: &mut ArrayVec<&'a [u8], USUAL_WORDS>, text: &'a [u8], mask: u64) -> bool
    requires empty { few.old.items ≡ [] }
    requires short { length text.now ≤ MASK_BYTES }
    requires tells { (k : ℕ) → k < length text.now → ((bit_at mask k ≡ 1) ↔ (get_or text.now k 0 ≡ 32)) }
    ensures { IsTrue result → map (λ x. x.now) few.new.items ≡ words text.now }
{
    let mut from = 0usize;
    let mut left = mask;
    'words: loop {
        let end = first_place(left, text.len());
        if !keep_word(few, &text[from..end]) {
            return false;
        }
        if end == text.len() {
            return true;
        }
        left = without(left, end);
        from = end + 1;
    }
}

/// The same as `few_words`, for a text that more bytes may stand behind: where there are enough of them, its spaces are
/// told all at once.
#[inline(always)]
pub fn few_words_in<'a>(
    few: &mut ArrayVec<&'a [u8], USUAL_WORDS>,
    text: &'a [u8],
    front: &[u8],
) -> bool
    requires empty { few.old.items ≡ [] }
    requires begins { text.now ≡ take (length text.now) front.now }
    ensures { IsTrue result → map (λ x. x.now) few.new.items ≡ words text.now }
{
    if text.len() <= MASK_BYTES && MASK_BYTES <= front.len() {
        return few_words_by(few, text, space_mask(front));
    }
    few_words(few, text)
}

/// A word by its place from 0, empty where there is none.
pub fn word<'a>(words: &[&'a [u8]], i: usize) -> &'a [u8]
    ensures { result.now ≡ word (map (λ x. x.now) words.now) i }
{
    match words.get(i) {
        Some(w) => *w,
        None => &[],
    }
}

/// Whether a word is this one. Two words differ in their first bytes as a rule, and no other is read then (speed, and
/// not promised).
#[inline(always)]
pub fn is_word(w: &[u8], name: &[u8]) -> bool
    ensures { result ≡ bytes_eq w.now name.now }
{
    match (w.first(), name.first()) {
        (Some(first), Some(wanted)) if *first != *wanted => false,
        _ => w == name,
    }
}

/// Whether the word is a bookmark's name: a key of at most 64 bytes.
pub fn is_name(w: &[u8]) -> bool
    ensures { result ≡ is_name w.now }
{
    w.len() <= 64 && is_key(w)
}

/// Whether each of the words is a key.
pub fn are_keys(words: &[&[u8]]) -> bool
    ensures { result ≡ list_all is_key (map (λ x. x.now) words.now) }
{
    for w in words {
        if !is_key(*w) {
            return false;
        }
    }
    true
}

/// Whether there are `n` words, or one more that is `noreply`.
pub fn are_words(n: usize, words: &[&[u8]]) -> bool
    requires { n < 16 }
    ensures { result ≡ are_words n (map (λ x. x.now) words.now) }
{
    words.len() == n || (words.len() == n + 1 && is_word(word(words, n), b"noreply"))
}
