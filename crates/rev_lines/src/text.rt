//! Words, numbers and data of lines.
ghost use Rattle.std.specs.Prelude.{◌≡◌, ◌++◌, ◌∷◌, [], ◌+◌, ◌%◌, map, codes, OnOk};
ghost use Rattle.std.specs.Fmt.{decimal, signed_decimal};
ghost use Rattle.rev_import.specs.Writing.{line_text, factor_text, queue_name};

use itoa::Buffer;
use rev_model::Queue;
use std::alloc::{AllocError, Allocator};

/// Writes the words of a line, parted by single spaces, and its end.
pub fn put_words<A: Allocator>(
    out: &mut Vec<u8, A>,
    first: &[u8],
    rest: &[&[u8]],
) -> Result<(), AllocError>
    ensures { OnOk result (out.new.items ≡ out.old.items ++ line_text first.now (map (λ w. w.now) rest.now)) }
{
    out.extend_from_slice(first)?;
    for word in rest {
        out.push(b' ')?;
        out.extend_from_slice(*word)?;
    }
    out.extend_from_slice(b"\r\n")
}

/// Writes a line of a word and a number.
pub fn put_number<A: Allocator>(
    out: &mut Vec<u8, A>,
    first: &[u8],
    number: u32,
) -> Result<(), AllocError>
    ensures { OnOk result (out.new.items ≡ out.old.items ++ line_text first.now (decimal number ∷ [])) }
{
    let mut digits = Buffer::new();
    put_words(out, first, &[digits.format(number).as_bytes()])
}

/// Writes a line of a word and a number with a sign.
pub fn put_signed<A: Allocator>(
    out: &mut Vec<u8, A>,
    first: &[u8],
    number: i32,
) -> Result<(), AllocError>
    ensures { OnOk result (out.new.items ≡ out.old.items ++ line_text first.now (signed_decimal number ∷ [])) }
{
    let mut digits = Buffer::new();
    put_words(out, first, &[digits.format(number).as_bytes()])
}

/// Writes a line of a word, another one and a number with a sign.
pub fn put_signed_of<A: Allocator>(
    out: &mut Vec<u8, A>,
    first: &[u8],
    second: &[u8],
    number: i32,
) -> Result<(), AllocError>
    ensures { OnOk result (out.new.items ≡ out.old.items ++ line_text first.now (second.now ∷ signed_decimal number ∷ [])) }
{
    let mut digits = Buffer::new();
    put_words(out, first, &[second, digits.format(number).as_bytes()])
}

/// Writes a line of a word, another one and a number of 64 bits.
pub fn put_number_of<A: Allocator>(
    out: &mut Vec<u8, A>,
    first: &[u8],
    second: &[u8],
    number: u64,
) -> Result<(), AllocError>
    ensures { OnOk result (out.new.items ≡ out.old.items ++ line_text first.now (second.now ∷ decimal number ∷ [])) }
{
    let mut digits = Buffer::new();
    put_words(out, first, &[second, digits.format(number).as_bytes()])
}

/// Writes a line of two words and two numbers.
pub fn put_two_numbers<A: Allocator>(
    out: &mut Vec<u8, A>,
    first: &[u8],
    second: &[u8],
    number: u32,
    other: u32,
) -> Result<(), AllocError>
    ensures { OnOk result (out.new.items ≡ out.old.items ++ line_text first.now (second.now ∷ decimal number ∷ decimal other ∷ [])) }
{
    let mut digits = Buffer::new();
    let mut other_digits = Buffer::new();
    let words = [
        second,
        digits.format(number).as_bytes(),
        other_digits.format(other).as_bytes(),
    ];
    put_words(out, first, &words)
}

fn queue_name(queue: Queue) -> &'static [u8]
    ensures { result.now ≡ queue_name queue }
{
    match queue {
        Queue::Hot => b"hot",
        Queue::Warm => b"warm",
        Queue::Cold => b"cold",
        Queue::Temp => b"temp",
    }
}

/// Writes a line of a word, a class and a queue.
pub fn put_queue<A: Allocator>(
    out: &mut Vec<u8, A>,
    first: &[u8],
    class: u32,
    queue: Queue,
) -> Result<(), AllocError>
    ensures { OnOk result (out.new.items ≡ out.old.items ++ line_text first.now (decimal class ∷ queue_name queue ∷ [])) }
{
    let mut digits = Buffer::new();
    put_words(
        out,
        first,
        &[digits.format(class).as_bytes(), queue_name(queue)],
    )
}

/// Writes a data block: the data and CR LF.
pub fn put_block<A: Allocator>(out: &mut Vec<u8, A>, bytes: &[u8]) -> Result<(), AllocError>
    ensures { OnOk result (out.new.items ≡ out.old.items ++ (bytes.now ++ codes "\r\n")) }
{
    out.extend_from_slice(bytes)?;
    out.extend_from_slice(b"\r\n")
}

/// Writes a space and a word.
pub fn put_word<A: Allocator>(out: &mut Vec<u8, A>, word: &[u8]) -> Result<(), AllocError>
    ensures { OnOk result (out.new.items ≡ out.old.items ++ 32 ∷ word.now) }
{
    out.push(b' ')?;
    out.extend_from_slice(word)
}

// The least digit of a number.
fn digit(number: u32) -> u8
    ensures { result ≡ 48 + number % 10 }
{
    b'0' + (number % 10) as u8
}

/// Writes a space and a factor of so many thousandths, with three digits behind its point.
pub fn put_factor<A: Allocator>(out: &mut Vec<u8, A>, thousandths: u32) -> Result<(), AllocError>
    ensures { OnOk result (out.new.items ≡ out.old.items ++ 32 ∷ factor_text thousandths) }
{
    let mut whole = Buffer::new();
    put_word(out, whole.format(thousandths / 1000).as_bytes())?;
    let behind = [
        b'.',
        digit(thousandths / 100),
        digit(thousandths / 10),
        digit(thousandths),
    ];
    out.extend_from_slice(&behind)
}
