//! Cells by page and slot, not counted.
ghost use Rattle.std.specs.Prelude.{◌≡◌, ◌<◌, ℕ, List, [], length, IfOk, IsSome, Some, slice_index_or, slice_set};
ghost use Rattle.rev_links.specs.Grids.{cell_at, with_cell, away};
ghost use Rattle.std.specs.Borrow.{sem};
ghost use Rattle.std.specs.Option.Follows.{option_follows_value};

use std::alloc::{AllocError, Allocator};
use std::marker::Model;
use std::mem;

// What is there, to write to it in its place.
fn present<T>(value: &mut Option<T>) -> &mut T
    requires { IsSome value.old }
    ensures* writes_back { sem 𝓛 (option_follows_value T.row value.entry result) }
    ensures value { value.old ≡ Some result.now }
{
    match value {
        Some(there) => there,
        None => unreachable!(),
    }
}

/// Cells by page and slot, where nobody counts reads and writes. The table of pages is made once, and a page is there
/// or away.
#[derive(Drop)]
pub struct Grid<T, A: Allocator> {
    pages: Vec<Option<Vec<T, A>>, A>,
}

impl<T, A: Allocator> Model for Grid<T, A> {
    ghost use Rattle.std.specs.Prelude.{List, map};
    ghost use Rattle.rev_links.specs.Grids.{cells_of};

    ghost Value = { List (List T) };

    ghost view = { λ g. map (cells_of (λ v. v.items)) g.pages.items };
}

impl<T: Drop, A: Allocator + Drop> Grid<T, A> {
    /// A table of so many pages, each away. A want of memory for the table is its only error.
    pub fn open(alloc: A, pages: usize) -> Result<Grid<T, A>, AllocError>
        ensures { IfOk result (λ g. g ≡ away pages) }
    {
        let mut table = Vec::with_capacity(alloc, pages)?;
        for _ in 0..pages {
            table.push(None)?;
        }
        Ok(Grid { pages: table })
    }

    /// Puts a page's cells in.
    pub fn lay(&mut self, page: u16, cells: Vec<T, A>)
        requires { page < length self.old }
        ensures { self.new ≡ slice_set self.old page cells.items }
    {
        self.pages[usize::from(page)] = Some(cells);
    }

    /// Writes a cell.
    pub fn set(&mut self, page: u16, slot: u16, value: T)
        requires { IsSome (cell_at self.old page slot) }
        ensures { self.new ≡ with_cell self.old page slot value }
    {
        let _before = self.replace(page, slot, value);
    }
}

impl<T, A: Allocator> Grid<T, A> {
    ghost use Rattle.rev_links.specs.Lending.{LendsCell};

    /// How many cells a page has, 0 where it is away.
    pub fn count(&self, page: u16) -> usize
        requires { page < length self.now }
        ensures { result ≡ length (slice_index_or self.now page []) }
    {
        match &self.pages[usize::from(page)] {
            Some(cells) => cells.len(),
            None => 0,
        }
    }

    /// What a cell holds.
    pub fn get(&self, page: u16, slot: u16) -> &T
        requires { IsSome (cell_at self.now page slot) }
        ensures { cell_at self.now page slot ≡ Some result.now }
    {
        match &self.pages[usize::from(page)] {
            Some(cells) => &cells[usize::from(slot)],
            None => unreachable!(),
        }
    }

    /// A cell, to write to it in its place.
    pub fn get_mut(&mut self, page: u16, slot: u16) -> &mut T
        requires { IsSome (cell_at self.old page slot) }
        ensures* writes_back { sem 𝓛 (LendsCell T.row A.row A.Allocator self.entry page slot result) }
        ensures value { cell_at self.old page slot ≡ Some result.now }
    {
        let cells = present(&mut self.pages[usize::from(page)]);
        &mut cells[usize::from(slot)]
    }

    /// Exchanges what a cell holds.
    pub fn replace(&mut self, page: u16, slot: u16, value: T) -> T
        requires { IsSome (cell_at self.old page slot) }
        ensures before { cell_at self.old page slot ≡ Some result }
        ensures after { self.new ≡ with_cell self.old page slot value }
    {
        match &mut self.pages[usize::from(page)] {
            Some(cells) => mem::replace(&mut cells[usize::from(slot)], value),
            None => unreachable!(),
        }
    }

    /// Takes a page's cells out.
    pub fn lift(&mut self, page: u16) -> Vec<T, A>
        requires { 0 < length (slice_index_or self.old page []) }
        ensures before { result.items ≡ slice_index_or self.old page [] }
        ensures after { self.new ≡ slice_set self.old page [] }
    {
        match self.pages[usize::from(page)].take() {
            Some(cells) => cells,
            None => unreachable!(),
        }
    }
}
