//! The words of a text, one after another.
ghost use Rattle.std.specs.Prelude.{◌≡◌};
ghost use Rattle.rev_script.specs.Number.{until, past, has};

use memchr::{Memchr, memchr_iter};
use std::marker::Model;

/// A text whose words, which single spaces part, are taken one after another. Its value is the text that is left. All
/// spaces are found in one pass.
#[derive(Drop)]
pub struct Words<'a> {
    text: &'a [u8],
    // where the next word begins, and the places of the spaces from there on
    from: usize,
    spaces: Memchr<'a>,
}

impl<'a> Model for Words<'a> {
    ghost use Rattle.std.specs.Prelude.{ℕ, List, drop};
    ghost use Rattle.rev_watch.specs.Spaces.{IsAt};

    ghost Value = { List ℕ };

    ghost view = { λ w. drop w.from w.text.now };

    ghost invariant = { λ w. IsAt w.text.now w.from w.spaces };
}

impl<'a> Words<'a> {
    /// The whole text is left.
    pub fn new(text: &'a [u8]) -> Words<'a>
        ensures { result ≡ text.now }
    {
        Words {
            text,
            from: 0,
            spaces: memchr_iter(b' ', text),
        }
    }

    /// The next word, and whether a space stands behind it. It is empty where nothing is left.
    #[inline(always)]
    pub fn next(&mut self) -> (&'a [u8], bool)
        ensures word { result.0.now ≡ until 32 self.old }
        ensures more { result.1 ≡ has 32 self.old }
        ensures rest { self.new ≡ past 32 self.old }
    {
        let text = self.text;
        let from = self.from;
        match self.spaces.next() {
            Some(space) => {
                let word = &text[from..space];
                self.from = space + 1;
                (word, true)
            }
            None => {
                let word = &text[from..];
                self.from = text.len();
                (word, false)
            }
        }
    }
}
