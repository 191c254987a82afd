//! Cells by page and slot, of which each read and write is counted.
ghost use Rattle.std.specs.Prelude.{◌≡◌, ◌<◌, ◌+◌, ℕ, List, [], length, IfOk, IsSome, Some, slice_index_or, slice_set};
ghost use Rattle.rev_links.specs.Grids.{cell_at, with_cell, away};
ghost use Rattle.std.specs.Borrow.{sem};

use crate::grid::Grid;
use crate::ticks::Ticks;
use std::alloc::{AllocError, Allocator};
use std::marker::Model;
use std::sync::ledger::Ledger;

/// Cells by page and slot, of which each read and each write is one tick. That holds for a whole page too: to put its
/// cells in or to take them out is as many ticks as it has cells. The table of pages is made once, and a page is there
/// or away.
#[derive(Drop)]
pub struct CountedGrid<T, A: Allocator> {
    grid: Grid<T, A>,
}

impl<T, A: Allocator> Model for CountedGrid<T, A> {
    ghost use Rattle.std.specs.Prelude.{List};

    ghost Value = { List (List T) };

    ghost view = { λ g. g.grid };
}

impl<T: Drop, A: Allocator + Drop> CountedGrid<T, A> {
    /// A table of so many pages, each away. A want of memory for the table is its only error.
    pub fn open(alloc: A, pages: usize) -> Result<CountedGrid<T, A>, AllocError>
        ensures { IfOk result (λ g. g ≡ away pages) }
    {
        let grid = Grid::open(alloc, pages)?;
        Ok(CountedGrid { grid })
    }

    /// Puts a page's cells in, a tick for each.
    pub fn lay<L: Ledger>(&mut self, page: u16, cells: Vec<T, A>, ticks: &mut Ticks<L>)
        requires { page < length self.old }
        ensures value { self.new ≡ slice_set self.old page cells.items }
        ensures cost { ticks.new ≡ ticks.old + length cells.items }
    {
        ticks.tick_by(cells.len());
        self.grid.lay(page, cells);
    }
}

impl<T, A: Allocator> CountedGrid<T, A> {
    /// How many cells a page has, 0 where it is away. No cell is read for it.
    pub fn count(&self, page: u16) -> usize
        requires { page < length self.now }
        ensures { result ≡ length (slice_index_or self.now page []) }
    {
        self.grid.count(page)
    }

    /// Takes a page's cells out, a tick for each.
    pub fn lift<L: Ledger>(&mut self, page: u16, ticks: &mut Ticks<L>) -> Vec<T, A>
        requires { 0 < length (slice_index_or self.old page []) }
        ensures before { result.items ≡ slice_index_or self.old page [] }
        ensures after { self.new ≡ slice_set self.old page [] }
        ensures cost { ticks.new ≡ ticks.old + length (slice_index_or self.old page []) }
    {
        let taken = self.grid.lift(page);
        ticks.tick_by(taken.len());
        taken
    }
}

impl<T: Copy, A: Allocator> CountedGrid<T, A> {
    ghost use Rattle.rev_links.specs.Lending.{LendsCounted};

    /// What a cell holds.
    pub fn read<L: Ledger>(&self, page: u16, slot: u16, ticks: &mut Ticks<L>) -> T
        requires { IsSome (cell_at self.now page slot) }
        ensures value { cell_at self.now page slot ≡ Some result }
        ensures cost { ticks.new ≡ ticks.old + 1 }
    {
        ticks.tick();
        *self.grid.get(page, slot)
    }

    /// A cell, to read it and write to it in its place: two ticks.
    pub fn edit<'a, L: Ledger>(
        &'a mut self,
        page: u16,
        slot: u16,
        ticks: &mut Ticks<L>,
    ) -> &'a mut T
        requires { IsSome (cell_at self.old page slot) }
        ensures* writes_back { sem 𝓛 (LendsCounted T.row A.row A.Allocator self.entry page slot result) }
        ensures value { cell_at self.old page slot ≡ Some result.now }
        ensures cost { ticks.new ≡ ticks.old + 2 }
    {
        ticks.tick_by(2);
        self.grid.get_mut(page, slot)
    }

    /// Writes a cell.
    pub fn write<L: Ledger>(&mut self, page: u16, slot: u16, value: T, ticks: &mut Ticks<L>)
        requires { IsSome (cell_at self.old page slot) }
        ensures value { self.new ≡ with_cell self.old page slot value }
        ensures cost { ticks.new ≡ ticks.old + 1 }
    {
        ticks.tick();
        *self.grid.get_mut(page, slot) = value;
    }
}
