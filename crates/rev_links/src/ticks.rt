//! The count of reads and writes of cells.
ghost use Rattle.std.specs.Prelude.{◌≡◌, ℕ, ◌+◌, ◌<◌};

use std::marker::Model;
use std::sync::ledger::{Blank, Book, Ledger, Share};

/// How many cells of `Cells` and of a `CountedGrid` were read or written. It takes no bytes. Only `tick` and `tick_by`
/// change it.
#[derive(Drop)]
pub struct Ticks<L: Ledger> {
    book: Book<L>,
    share: Share<L>,
}

impl<L: Ledger> Model for Ticks<L> {
    ghost Value = { ℕ };

    ghost view = { λ s. s.book.total };

    ghost invariant = { λ s. 0 < s.share.parts };
}

impl<L: Ledger> Ticks<L> {
    /// No tick yet. A bound on a caller's ticks says nothing of these: only a call that has no bound starts its own.
    pub fn start(blank: Blank) -> Ticks<L>
        requires name { blank.name ≡ L.name }
        requires parts { blank.parts ≡ L.parts }
        requires some { 0 < L.parts }
        ensures { result ≡ 0 }
    {
        let (book, share) = blank.open::<L>();
        Ticks { book, share }
    }

    /// Counts one read or write more.
    pub fn tick(&mut self)
        ensures { self.new ≡ self.old + 1 }
    {
        self.book.add(&mut self.share, 1);
    }

    /// Counts so many reads and writes more.
    pub fn tick_by(&mut self, count: usize)
        ensures { self.new ≡ self.old + count }
    {
        self.book.add(&mut self.share, count as u64);
    }
}
