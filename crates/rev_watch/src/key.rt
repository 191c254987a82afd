//! Keys, which stand in a line percent-encoded.
ghost use Rattle.std.specs.Prelude.{◌≡◌, ◌≢◌, ◌<◌, [], true, false, MatchOption, MatchResult, Ok, Err, length};
ghost use Rattle.percent_encoding.specs.Percent.{percent_decode};
ghost use Rattle.rev_items.specs.Keys.{is_key};
ghost use Rattle.rev_watch.specs.Keys.{IsEscape, are_digits, is_encoded, key_of};
ghost use Rattle.rev_watch.specs.declared.fault.LineFault.{LineFault};

use crate::fault::LineFault;
use arrayvec::ArrayVec;
use rev_items::{Key, MAX_KEY_LENGTH, is_key};
use std::alloc::Allocator;

// Whether two hexadecimal digits stand in front.
fn are_digits(text: &[u8]) -> bool
    ensures { result ≡ are_digits text.now }
{
    match text {
        [high, low, ..] => char::from(*high).is_digit(16) && char::from(*low).is_digit(16),
        _ => false,
    }
}

// Whether behind each `%` two hexadecimal digits stand.
fn is_encoded(text: &[u8]) -> bool
    ensures { result ≡ is_encoded text.now }
{
    for (i, byte) in text.iter().enumerate() {
        if *byte == b'%' && !are_digits(&text[i + 1..]) {
            return false;
        }
    }
    true
}

// Of a text that stands behind a `%`: the byte that its two digits stand for, and the text behind them.
fn escaped(text: &[u8]) -> Option<(u8, &[u8])>
    ensures { MatchOption result (are_digits text.now ≡ false) (λ r. IsEscape text.now r.0 r.1.now) }
{
    let [high, low, behind @ ..] = text else {
        return None;
    };
    let high = char::from(*high).to_digit(16)?;
    let low = char::from(*low).to_digit(16)?;
    Some((high as u8 * 16 + low as u8, behind))
}

// Puts the bytes that an encoded text stands for into an empty list. At `false` they are more than a key's, or the text
// is none that is encoded.
fn decode(bytes: &mut ArrayVec<u8, MAX_KEY_LENGTH>, text: &[u8]) -> bool
    requires { bytes.old.items ≡ [] }
    ensures all { result ≡ true → bytes.new.items ≡ percent_decode text.now }
    ensures encoded { result ≡ true → is_encoded text.now ≡ true }
    ensures none { result ≡ false → is_encoded text.now ≡ true → 250 < length (percent_decode text.now) }
{
    let mut rest = text;
    'front: loop {
        let Some((first, behind)) = rest.split_first() else {
            return true;
        };
        if bytes.is_full() {
            return false;
        }
        if *first == b'%' {
            let Some((byte, behind)) = escaped(behind) else {
                return false;
            };
            bytes.push(byte);
            rest = behind;
        } else {
            bytes.push(*first);
            rest = behind;
        }
    }
}

// Why a text stands for no key.
fn fault_of(text: &[u8]) -> LineFault
    ensures encoded { is_encoded text.now ≡ true → result ≡ LineFault.BadKey }
    ensures other { is_encoded text.now ≡ false → result ≡ LineFault.BadEscape }
{
    if is_encoded(text) {
        LineFault::BadKey
    } else {
        LineFault::BadEscape
    }
}

// The key of these bytes, beside by how many bytes it is longer than what a line stands for.
fn made<A: Allocator>(alloc: A, bytes: &[u8], longer: u32) -> Result<(Key<A>, u32), LineFault>
    requires { is_key bytes.now ≡ true }
    ensures { MatchResult result (λ made. (made.0 ≡ bytes.now) × (made.1 ≡ longer)) (λ e. e ≡ LineFault.Memory) }
{
    match Key::of(alloc, bytes) {
        Ok(key) => Ok((key, longer)),
        Err(_) => Err(LineFault::Memory),
    }
}

/// The key that a field's value stands for, and by how many bytes it is longer than that. It is decoded, where that is
/// a key of the text protocol. Else it stays as it is spelled, where this is one. It is decoded in place, and only the
/// key itself takes memory.
///
/// Err: behind a `%` no two hexadecimal digits stand (`BadEscape`); neither what the text stands for nor the text is
/// 1 to 250 bytes, none of them 0 to 32 or 127 (`BadKey`); or memory was refused (`Memory`).
#[tactic(auto, unfolding(crate::specs::Keys::key_of))]
pub fn key_of<A: Allocator>(alloc: A, text: &[u8]) -> Result<(Key<A>, u32), LineFault>
    ensures { MatchResult result (λ named. key_of text.now ≡ Ok named) (λ e. e ≢ LineFault.Memory → key_of text.now ≡ Err e) }
{
    let mut bytes: ArrayVec<u8, MAX_KEY_LENGTH> = ArrayVec::new();
    if !decode(&mut bytes, text) {
        return Err(fault_of(text));
    }
    if is_key(bytes.as_slice()) {
        return made(alloc, bytes.as_slice(), 0);
    }
    if is_key(text) {
        return made(alloc, text, (text.len() - bytes.len()) as u32);
    }
    Err(LineFault::BadKey)
}
