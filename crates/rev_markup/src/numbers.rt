//! How numbers are written.
ghost use Rattle.std.specs.Prelude.{◌≡◌, ◌++◌, OnOk, decimal};
ghost use Rattle.rev_markup.specs.Numbers.{gap, spaced, grouped, tenths, two};

use itoa::Buffer;
use std::alloc::AllocError;

/// Puts the digits of a number.
pub fn put_plain(out: &mut Vec<u8>, n: u64) -> Result<(), AllocError>
    ensures { OnOk result (out.new.items ≡ out.old.items ++ decimal n) }
{
    let mut digits = Buffer::new();
    out.extend_from_slice(digits.format(n).as_bytes())
}

// Puts what stands behind a digit with so many digits behind it.
fn put_gap(out: &mut Vec<u8>, behind: usize) -> Result<(), AllocError>
    ensures { OnOk result (out.new.items ≡ out.old.items ++ gap behind) }
{
    if behind > 0 && behind % 3 == 0 {
        out.extend_from_slice("\u{202f}".as_bytes())
    } else {
        Ok(())
    }
}

fn put_spaced(out: &mut Vec<u8>, digits: &[u8]) -> Result<(), AllocError>
    ensures { OnOk result (out.new.items ≡ out.old.items ++ spaced digits.now) }
{
    let mut rest = digits;
    'digits: while let Some((digit, behind)) = rest.split_first() {
        out.push(*digit)?;
        put_gap(out, behind.len())?;
        rest = behind;
    }
    Ok(())
}

/// Puts a number in groups of three digits.
pub fn put_grouped(out: &mut Vec<u8>, n: u64) -> Result<(), AllocError>
    ensures { OnOk result (out.new.items ≡ out.old.items ++ grouped n) }
{
    let mut digits = Buffer::new();
    put_spaced(out, digits.format(n).as_bytes())
}

/// Puts so many tenths.
pub fn put_tenths(out: &mut Vec<u8>, n: u32) -> Result<(), AllocError>
    ensures { OnOk result (out.new.items ≡ out.old.items ++ tenths n) }
{
    put_plain(out, u64::from(n / 10))?;
    if n % 10 == 0 {
        return Ok(());
    }
    out.extend_from_slice(b".")?;
    put_plain(out, u64::from(n % 10))
}

/// Puts a number with at least two digits.
pub fn put_two(out: &mut Vec<u8>, n: u64) -> Result<(), AllocError>
    ensures { OnOk result (out.new.items ≡ out.old.items ++ two n) }
{
    if n < 10 {
        out.extend_from_slice(b"0")?;
    }
    put_plain(out, n)
}
