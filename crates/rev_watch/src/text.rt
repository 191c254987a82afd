//! Parts of a text of bytes.
ghost use Rattle.std.specs.Prelude.{◌≡◌, Some, None, if◌then◌else◌};
ghost use Rattle.std.specs.Io.BufRead.{strip_last};
ghost use Rattle.std.specs.Option.{option_copied};
ghost use Rattle.std.specs.Str.{bytes_eq};
ghost use Rattle.rev_script.specs.Number.{until, past, has};
ghost use Rattle.rev_watch.specs.Words.{value_behind};

use memchr::memchr;

/// The bytes before the first such byte, or all; and those behind it, where there is one.
pub fn cut(text: &[u8], byte: u8) -> (&[u8], Option<&[u8]>)
    ensures front { result.0.now ≡ until byte text.now }
    ensures back { option_copied result.1 ≡ (if has byte text.now then Some (past byte text.now) else None) }
{
    match memchr(byte, text) {
        Some(i) => (&text[..i], Some(&text[i + 1..])),
        None => (text, None),
    }
}

/// The bytes before the first space, or all; and those behind it, or none.
pub fn first_word(text: &[u8]) -> (&[u8], &[u8])
    ensures word { result.0.now ≡ until 32 text.now }
    ensures rest { result.1.now ≡ past 32 text.now }
{
    match memchr(b' ', text) {
        Some(i) => (&text[..i], &text[i + 1..]),
        None => (text, &text[text.len()..]),
    }
}

/// The text without one CR at its end.
pub fn without_cr(text: &[u8]) -> &[u8]
    ensures { result.now ≡ strip_last 13 text.now }
{
    match text.split_last() {
        Some((b'\r', front)) => front,
        _ => text,
    }
}

/// Whether a word is this one.
pub fn is_word(word: &[u8], name: &[u8]) -> bool
    ensures { result ≡ bytes_eq word.now name.now }
{
    word == name
}

/// What stands behind a name and a sign, in a text that begins with them.
pub fn value_behind<'a>(name: &[u8], sign: u8, text: &'a [u8]) -> Option<&'a [u8]>
    ensures { option_copied result ≡ value_behind name.now sign text.now }
{
    let end = name.len();
    // The sign stands elsewhere behind most other names, and one byte tells it.
    if end < text.len() && text[end] == sign && is_word(&text[..end], name) {
        Some(&text[end + 1..])
    } else {
        None
    }
}
