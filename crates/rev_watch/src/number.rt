//! Numbers of a line.
ghost use Rattle.std.specs.Prelude.{◌≡◌, ◌≤◌, ◌<◌, true, Some, IfSome};
ghost use Rattle.rev_script.specs.Number.{number, number_u32, signed, until, past, has};

use rev_script::number::number as any_number;

/// As many digits fit 64 bits, whatever they are.
const SAFE_DIGITS: usize = 19;

/// The number that the word is, where it is decimal digits of at most `limit`. Of nearly all words no step can
/// overflow, so none is looked at.
pub fn number(word: &[u8], limit: u64) -> Option<u64>
    ensures value { result ≡ number limit word.now }
    ensures bound { IfSome result (λ n. n ≤ limit) }
{
    if word.is_empty() || word.len() > SAFE_DIGITS {
        return any_number(word, limit);
    }
    let mut sum: u64 = 0;
    for b in word {
        if *b < b'0' || *b > b'9' {
            return None;
        }
        sum = sum * 10 + u64::from(*b - b'0');
    }
    if sum > limit { None } else { Some(sum) }
}

/// The number that stands in front of the first such byte, which is no digit, and the text behind that. Its end is
/// found by its digits. None, too, where there are more than 19 of them.
#[inline(always)]
pub fn number_before(text: &[u8], sign: u8, limit: u64) -> Option<(u64, &[u8])>
    requires { sign < 48 }
    ensures { IfSome result (λ r. (has sign text.now ≡ true) × (number limit (until sign text.now) ≡ Some r.0) × (r.1.now ≡ past sign text.now) × (r.0 ≤ limit)) }
{
    let mut sum: u64 = 0;
    for (i, byte) in text.iter().enumerate() {
        if *byte < b'0' || *byte > b'9' {
            if *byte != sign || i == 0 || sum > limit {
                return None;
            }
            return Some((sum, &text[i + 1..]));
        }
        if i >= SAFE_DIGITS {
            return None;
        }
        sum = sum * 10 + u64::from(*byte - b'0');
    }
    None
}

/// The number that the word is, where it is one of 32 bits.
pub fn number_u32(word: &[u8]) -> Option<u32>
    ensures { result ≡ number_u32 word.now }
{
    match number(word, 4294967295) {
        Some(n) => Some(n as u32),
        None => None,
    }
}

/// A number from -2147483648 to 2147483647, with a `-` in front or without a sign.
#[tactic(auto, unfolding(rev_script::specs::Number::signed))]
pub fn signed(word: &[u8]) -> Option<i32>
    ensures { result ≡ signed word.now }
{
    let Some(first) = word.first() else {
        return None;
    };
    if *first == b'-' {
        let Some(n) = number(&word[1..], 2147483648) else {
            return None;
        };
        return Some((0 - n as i64) as i32);
    }
    let Some(n) = number(word, 2147483647) else {
        return None;
    };
    Some(n as i32)
}
