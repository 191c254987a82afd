//! The words of a row.

use memchr::memchr;

/// The text before the first such byte and the text behind it; all, and nothing, where there is none.
pub fn cut(text: &[u8], byte: u8) -> (&[u8], &[u8]) {
    match memchr(byte, text) {
        Some(end) => (&text[..end], &text[end + 1..]),
        None => (text, b""),
    }
}

/// Whether a word is this one.
pub fn is_word(word: &[u8], name: &[u8]) -> bool {
    word == name
}

/// The words of a row, of which each is taken once. A space stands between two.
#[derive(Clone, Copy)]
pub struct Words<'a> {
    rest: Option<&'a [u8]>,
}

impl<'a> Words<'a> {
    /// All words of a row.
    pub fn of(row: &'a [u8]) -> Words<'a> {
        Words { rest: Some(row) }
    }

    /// Takes the next word.
    pub fn next(&mut self) -> Option<&'a [u8]> {
        let rest = self.rest?;
        match memchr(b' ', rest) {
            Some(end) => {
                self.rest = Some(&rest[end + 1..]);
                Some(&rest[..end])
            }
            None => {
                self.rest = None;
                Some(rest)
            }
        }
    }

    /// The next word, which is not taken; empty where there is none.
    pub fn first(&self) -> &'a [u8] {
        let mut words = *self;
        words.next().unwrap_or(b"")
    }

    /// Takes all that is left.
    pub fn rest(&mut self) -> Option<&'a [u8]> {
        self.rest.take()
    }
}

/// The word of a row behind so many others, empty where there is none.
pub fn word_behind(row: &[u8], others: usize) -> &[u8] {
    let mut words = Words::of(row);
    for _ in 0..others {
        let _ = words.next();
    }
    words.next().unwrap_or(b"")
}
