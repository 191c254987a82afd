//! Cells by number, of which each read and write is counted.
ghost use Rattle.std.specs.Prelude.{◌≡◌, ℕ, ◌+◌, ◌<◌, List, length, slice_get, slice_set, Some};
ghost use Rattle.std.specs.Borrow.{sem};

use crate::ticks::Ticks;
use std::alloc::Allocator;
use std::marker::Model;
use std::sync::ledger::Ledger;

/// Values by number, of which each read and each write is one tick.
#[derive(Drop)]
pub struct Cells<T, A: Allocator> {
    values: Vec<T, A>,
}

impl<T, A: Allocator> Model for Cells<T, A> {
    ghost Value = { List T };

    ghost view = { λ c. c.values.items };
}

impl<T: Drop, A: Allocator + Drop> Cells<T, A> {
    /// The values of a list.
    pub fn over(values: Vec<T, A>) -> Cells<T, A>
        ensures { result ≡ values.items }
    {
        Cells { values }
    }

    /// How many values there are.
    pub fn count(&self) -> usize
        ensures { result ≡ length self.now }
    {
        self.values.len()
    }
}

impl<T: Copy, A: Allocator> Cells<T, A> {
    ghost use Rattle.rev_links.specs.Lending.{LendsValue};

    /// The value at a number.
    pub fn get<L: Ledger>(&self, at: usize, ticks: &mut Ticks<L>) -> T
        requires { at < length self.now }
        ensures value { slice_get self.now at ≡ Some result }
        ensures cost { ticks.new ≡ ticks.old + 1 }
    {
        ticks.tick();
        self.values[at]
    }

    /// The value at a number, to read it and write to it in its place: two ticks.
    pub fn edit<'a, L: Ledger>(&'a mut self, at: usize, ticks: &mut Ticks<L>) -> &'a mut T
        requires { at < length self.old }
        ensures* writes_back { sem 𝓛 (LendsValue T.row A.row A.Allocator self.entry at result) }
        ensures value { slice_get self.old at ≡ Some result.now }
        ensures cost { ticks.new ≡ ticks.old + 2 }
    {
        ticks.tick_by(2);
        &mut self.values[at]
    }

    /// Puts a value at a number.
    pub fn set<L: Ledger>(&mut self, at: usize, value: T, ticks: &mut Ticks<L>)
        requires { at < length self.old }
        ensures value { self.new ≡ slice_set self.old at value }
        ensures cost { ticks.new ≡ ticks.old + 1 }
    {
        ticks.tick();
        self.values[at] = value;
    }
}
