//! The items of all chunks, by page and slot.
ghost use Rattle.std.specs.Prelude.{◌≡◌, ◌<◌, ℕ, List, [], length, IfOk, IsSome, Some, slice_index_or, slice_set};
ghost use Rattle.std.specs.Option.{option_copied};
ghost use Rattle.rev_links.specs.Grids.{cell_at, with_cell, away};
ghost use Rattle.rev_items.specs.Plain.{PlainItem};
ghost use Rattle.rev_model.specs.Move.{touched, touched_of};
ghost use Rattle.rev_index.specs.Made.{at};

use rev_items::Item;
use rev_model::{ChunkRef, Touched};
use std::alloc::{AllocError, Allocator};
use std::marker::Model;
use std::mem;

/// What each slot of a page holds.
pub type PageItems<A> = Vec<Option<Item<A>>, A>;

/// What the slots of all pages hold. The table of pages is made once, and a page is there or away. Unlike a `Grid` it
/// can be asked of slots that are not there, and changes an item in its place.
#[derive(Drop)]
pub struct ItemTable<A: Allocator> {
    pages: Vec<Option<PageItems<A>>, A>,
}

impl<A: Allocator> Model for ItemTable<A> {
    ghost use Rattle.std.specs.Prelude.{List, Option, map};
    ghost use Rattle.rev_links.specs.Grids.{cells_of};
    ghost use Rattle.rev_items.specs.Plain.{PlainItem};

    ghost Value = { List (List (Option PlainItem)) };

    ghost view = { λ g. map (cells_of (λ v. v.items)) g.pages.items };
}

impl<A: Allocator> ItemTable<A> {
    /// A table of so many pages, each away. A want of memory for the table is its only error.
    pub fn open(alloc: A, pages: usize) -> Result<ItemTable<A>, AllocError>
        ensures { IfOk result (λ g. g ≡ away pages) }
    {
        let mut table = Vec::with_capacity(alloc, pages)?;
        for _ in 0..pages {
            table.push(None)?;
        }
        Ok(ItemTable { pages: table })
    }

    /// Puts a page's slots in.
    pub fn lay(&mut self, page: u16, items: PageItems<A>)
        requires { page < length self.old }
        ensures { self.new ≡ slice_set self.old page items.items }
    {
        self.pages[usize::from(page)] = Some(items);
    }

    /// The item of a chunk: none too where its page or its slot is not there.
    pub fn item(&self, chunk: ChunkRef) -> Option<&Item<A>>
        ensures { option_copied result ≡ at self.now chunk }
    {
        let items = self.pages.get(usize::from(chunk.page))?.as_ref()?;
        items.get(usize::from(chunk.slot))?.as_ref()
    }

    /// Exchanges what a chunk holds.
    pub fn replace(&mut self, chunk: ChunkRef, item: Option<Item<A>>) -> Option<Item<A>>
        requires { IsSome (cell_at self.old chunk.page chunk.slot) }
        ensures before { cell_at self.old chunk.page chunk.slot ≡ Some result }
        ensures after { self.new ≡ with_cell self.old chunk.page chunk.slot item }
    {
        match &mut self.pages[usize::from(chunk.page)] {
            Some(items) => mem::replace(&mut items[usize::from(chunk.slot)], item),
            None => unreachable!(),
        }
    }

    /// Exchanges bits, time and moment of a chunk's item, in its place, and gives the old ones.
    pub fn touch(&mut self, chunk: ChunkRef, to: Touched) -> Touched
        requires { (i : PlainItem) × (cell_at self.old chunk.page chunk.slot ≡ Some (Some i)) }
        ensures before { (i : PlainItem) → cell_at self.old chunk.page chunk.slot ≡ Some (Some i)
            → result ≡ touched_of i }
        ensures after { (i : PlainItem) → cell_at self.old chunk.page chunk.slot ≡ Some (Some i)
            → self.new ≡ with_cell self.old chunk.page chunk.slot (Some (touched to i)) }
    {
        match &mut self.pages[usize::from(chunk.page)] {
            Some(items) => match &mut items[usize::from(chunk.slot)] {
                Some(item) => {
                    let (bits, time, moment) = item.touch(to.bits, to.time, to.moment);
                    Touched { bits, time, moment }
                }
                None => unreachable!(),
            },
            None => unreachable!(),
        }
    }

    /// Takes a page's slots out.
    pub fn lift(&mut self, page: u16) -> PageItems<A>
        requires { 0 < length (slice_index_or self.old page []) }
        ensures before { result.items ≡ slice_index_or self.old page [] }
        ensures after { self.new ≡ slice_set self.old page [] }
    {
        match self.pages[usize::from(page)].take() {
            Some(items) => items,
            None => unreachable!(),
        }
    }
}
