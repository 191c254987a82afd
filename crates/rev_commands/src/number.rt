//! Numbers that items hold.
ghost use Rattle.std.specs.Prelude.{◌≡◌};
ghost use Rattle.rev_model.specs.Client.{summed};
ghost use Rattle.rev_requests.specs.Plain.{plain_sum, amount};
ghost use Rattle.rev_commands.specs.Numbers.{number_in};

use rev_requests::Arithmetic;

/// The most digits of a number: those of the largest of 64 bits (protocol.txt).
const MAX_DIGITS: usize = 20;

/// The number that an item's data are: 1 to 20 decimal digits, zeros in front allowed, of at most 64 bits
/// (protocol.txt). None: they are no such number.
pub fn number_of(digits: &[u8]) -> Option<u64>
    ensures { result ≡ number_in digits.now }
{
    if digits.is_empty() || digits.len() > MAX_DIGITS {
        return None;
    }
    let mut number: u64 = 0;
    for digit in digits {
        if !digit.is_ascii_digit() {
            return None;
        }
        number = number
            .checked_mul(10)?
            .checked_add(u64::from(*digit - b'0'))?;
    }
    Some(number)
}

/// The number counted up or down: up it wraps past 64 bits, down it stops at 0 (protocol.txt).
pub fn summed(arithmetic: Arithmetic, number: u64) -> u64
    ensures { result ≡ summed (plain_sum arithmetic) number (amount arithmetic) }
{
    match arithmetic {
        Arithmetic::Increment(delta) => number.wrapping_add(delta),
        Arithmetic::Decrement(delta) => number.saturating_sub(delta),
    }
}
