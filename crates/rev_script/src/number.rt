//! Numbers in a script.
ghost use Rattle.std.specs.Prelude.{◌≡◌, ◌≤◌, ◌<◌, ◌+◌, ◌-◌, ◌*◌, ◌^◌, ◌==◌, ℕ, length, take, drop, nat_lt, IfOk, IfSome};
ghost use Rattle.std.specs.List.{slice_split};
ghost use Rattle.rev_script.specs.Number.{number, number_u32, signed, value, is_number, until, past, has, is_factor, factor, thousandths, digit, id_or_0, ids};

/// The number that the word is, where it is decimal digits of at most `limit`.
pub fn number(word: &[u8], limit: u64) -> Option<u64>
    ensures value { result ≡ number limit word.now }
    ensures bound { IfSome result (λ n. n ≤ limit) }
{
    if word.is_empty() {
        return None;
    }
    let mut sum: u64 = 0;
    for b in word {
        if *b < b'0' || *b > b'9' {
            return None;
        }
        // What 64 bits do not hold is over any limit.
        let Some(tens) = sum.checked_mul(10) else {
            return None;
        };
        let Some(next) = tens.checked_add((*b - b'0') as u64) else {
            return None;
        };
        if next > limit {
            return None;
        }
        sum = next;
    }
    Some(sum)
}

/// The number that the word is, where it is one of 32 bits.
pub fn number_u32(word: &[u8]) -> Option<u32>
    ensures { result ≡ number_u32 word.now }
{
    match number(word, 4294967295) {
        Some(n) => Some(n as u32),
        None => None,
    }
}

/// A number from -2147483648 to 2147483647, with a `-` in front or without a sign.
#[tactic(auto, unfolding(crate::specs::Number::signed))]
pub fn signed(word: &[u8]) -> Option<i32>
    ensures { result ≡ signed word.now }
{
    let Some(first) = word.first() else {
        return None;
    };
    if *first == b'-' {
        let Some(n) = number(&word[1..], 2147483648) else {
            return None;
        };
        return Some((0 - n as i64) as i32);
    }
    let Some(n) = number(word, 2147483647) else {
        return None;
    };
    Some(n as i32)
}

fn is_number(word: &[u8]) -> bool
    ensures { result ≡ is_number word.now }
{
    if word.is_empty() {
        return false;
    }
    for b in word {
        if *b < b'0' || *b > b'9' {
            return false;
        }
    }
    true
}

// The place of the first such byte, or the length where there is none.
fn place_of(b: u8, w: &[u8]) -> usize
    ensures bound { result ≤ length w.now }
    ensures has { has b w.now ≡ nat_lt result (length w.now) }
    ensures before { until b w.now ≡ take result w.now }
    ensures after { past b w.now ≡ drop (result + 1) w.now }
{
    let mut i = 0usize;
    'bytes: while i < w.len() {
        if w[i] == b {
            return i;
        }
        i += 1;
    }
    i
}

/// Whether the word is digits, or digits, a point and one to three digits.
pub(crate) fn is_factor(w: &[u8]) -> bool
    ensures { result ≡ is_factor w.now }
{
    let p = place_of(b'.', w);
    if p < w.len() {
        is_number(&w[..p]) && is_number(&w[p + 1..]) && w[p + 1..].len() <= 3
    } else {
        is_number(w)
    }
}

// A digit by its place, 0 where there is none.
fn digit(w: &[u8], i: usize) -> u64
    ensures value { result ≡ digit w.now i }
    ensures bound { result ≤ 255 }
{
    match w.get(i) {
        Some(b) => b.saturating_sub(b'0') as u64,
        None => 0,
    }
}

// What stands behind the first point, or nothing.
fn behind_point(w: &[u8]) -> &[u8]
    ensures { result.now ≡ past 46 w.now }
{
    let p = place_of(b'.', w);
    if p < w.len() { &w[p + 1..] } else { &[] }
}

/// A factor in thousandths, where it is one from 0.001 to 1000.
pub fn factor(w: &[u8]) -> Option<u32>
    ensures { result ≡ factor w.now }
{
    if !is_factor(w) {
        return None;
    }
    let p = place_of(b'.', w);
    let Some(whole) = number(&w[..p], 1000) else {
        return None;
    };
    let part = behind_point(w);
    let sum = whole * 1000 + digit(part, 0) * 100 + digit(part, 1) * 10 + digit(part, 2);
    if sum == 0 || sum > 1000000 {
        return None;
    }
    Some(sum as u32)
}

// The class that a word of a crawler's list names, or 0.
fn id_of(w: &[u8]) -> u32
    ensures value { result ≡ id_or_0 (number 63 w.now) }
    ensures bound { result ≤ 63 }
{
    match number(w, 63) {
        Some(n) => n as u32,
        None => 0,
    }
}

/// The classes of a crawler's list, parted by commas, as a set of bits.
pub(crate) fn ids(list: &[u8]) -> u64
    ensures { result ≡ ids (slice_split (λ b. b == 44) list.now) }
{
    let mut rest = list;
    let mut set: u64 = 0;
    'parts: loop {
        let p = place_of(b',', rest);
        set |= 1u64 << id_of(&rest[..p]);
        if p >= rest.len() {
            return set;
        }
        rest = &rest[p + 1..];
    }
}
