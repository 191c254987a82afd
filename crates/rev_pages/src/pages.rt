//! The pages with their owners, and the free list of each class.
ghost use Rattle.std.specs.Prelude.{◌≡◌, ℕ, ◌+◌, ◌<◌, ◌≤◌, Some, true, false, length, nat_eq, slice_index, slice_set};
ghost use Rattle.std.specs.List.{list_any};
ghost use Rattle.rev_links.specs.Rings.{member_of};
ghost use Rattle.rev_links.specs.Neighbours.{behind_of, place_behind};
ghost use Rattle.rev_model.specs.Chunk.{same_chunk, HasSlot};
ghost use Rattle.rev_model.specs.Lists.{has, without, before, insert, has_after};
ghost use Rattle.rev_model.specs.Pull.{page_from};
ghost use Rattle.rev_model.specs.Words.{first};
ghost use Rattle.rev_pages.specs.State.{free_of};

use crate::places::{FreeList, FreePlace};
use crate::table::Table;
use rev_links::{RingPlace, Ticks};
use rev_model::ChunkRef;
use std::alloc::Allocator;
use std::marker::Model;
use std::sync::ledger::Ledger;

// The chunk at a place, none where it is an end.
fn chunk_at(place: FreePlace) -> Option<ChunkRef>
    ensures { result ≡ member_of (Some place) }
{
    match place {
        RingPlace::End(_) => None,
        RingPlace::At(chunk) => Some(chunk),
    }
}

// The place of a chunk, or the end of a class's free list where there is none.
fn place_behind(class: usize, after: Option<ChunkRef>) -> FreePlace
    requires { class < 65536 }
    ensures { result ≡ place_behind (record { class = class }) after }
{
    match after {
        None => RingPlace::End(FreeList {
            class: class as u16,
        }),
        Some(chunk) => RingPlace::At(chunk),
    }
}

/// The pages made with their owners, and the free list of each class. After `open` only `slots` takes memory: the links
/// of a page's slots come with the page and go with it.
#[derive(Drop)]
pub struct Pages<A: Allocator> {
    pub(crate) owners: Vec<u16, A>,
    pub(crate) made: u16,
    // How many pages each class owns, where class 0 is the page pool.
    pub(crate) owned: Vec<u16, A>,
    pub(crate) table: Table<A>,
}

impl<A: Allocator> Model for Pages<A> {
    ghost use Rattle.rev_pages.specs.State.{PagesState, state_of, IsKept};

    ghost Value = { PagesState };

    ghost view = { λ s. state_of s.owners.items s.made s.table.ends s.table.links };

    ghost invariant = { λ s. IsKept s.owners.items s.made s.owned.items s.table.ends s.table.links };
}

impl<A: Allocator> Pages<A> {
    /// How many pages are made, below 65536. They are numbered from 0 in the order in which they were made.
    pub fn made(&self) -> usize
        ensures made { result ≡ length self.now.owner }
        ensures within { result < 65536 }
    {
        usize::from(self.made)
    }

    /// The slab class that a page belongs to, 0 where it is in the page pool.
    pub fn owner(&self, page: usize) -> usize
        requires { page < length self.now.owner }
        ensures { result ≡ slice_index self.now.owner page }
    {
        usize::from(self.owners[page])
    }

    /// The lowest page that belongs to a class, where class 0 is the page pool.
    pub fn lowest_page(&self, class: usize) -> Option<u16>
        ensures { result ≡ page_from 0 class self.now.owner }
    {
        if !self.owns_page(class) {
            return None;
        }
        for page in 0..self.made() {
            if self.owner(page) == class {
                return Some(page as u16);
            }
        }
        None
    }

    /// Whether a page belongs to a class.
    pub fn owns_page(&self, class: usize) -> bool
        ensures { result ≡ list_any (λ owner. nat_eq owner class) self.now.owner }
    {
        class < self.owned.len() && self.owned[class] > 0
    }

    /// The front chunk of a class's free list.
    pub fn front<L: Ledger>(&self, class: usize, ticks: &mut Ticks<L>) -> Option<ChunkRef>
        requires class { class < length self.now.free }
        ensures front { result ≡ first (free_of self.now class) }
        ensures cost { ticks.new ≤ ticks.old + 16 }
    {
        let table = &self.table;
        let end = place_behind(class, None);
        chunk_at(table.link(end, ticks).next)
    }

    /// The chunk that stands behind another in a class's free list.
    pub fn behind<L: Ledger>(
        &self,
        class: usize,
        chunk: ChunkRef,
        ticks: &mut Ticks<L>,
    ) -> Option<ChunkRef>
        requires class { class < length self.now.free }
        requires there { has same_chunk chunk (free_of self.now class) ≡ true }
        ensures behind { result ≡ behind_of same_chunk chunk (free_of self.now class) }
        ensures cost { ticks.new ≤ ticks.old + 16 }
    {
        chunk_at(self.table.link(RingPlace::At(chunk), ticks).next)
    }

    /// Takes a chunk out of a class's free list, and tells the one that stood before it, none where it was in front.
    pub fn take<L: Ledger>(
        &mut self,
        class: usize,
        chunk: ChunkRef,
        ticks: &mut Ticks<L>,
    ) -> Option<ChunkRef>
        requires class { class < length self.old.free }
        requires there { has same_chunk chunk (free_of self.old class) ≡ true }
        ensures before { result ≡ before same_chunk chunk (free_of self.old class) }
        ensures free { self.new.free ≡ slice_set self.old.free class (without same_chunk chunk (free_of self.old class)) }
        ensures owner { self.new.owner ≡ self.old.owner }
        ensures slots { self.new.slots ≡ self.old.slots }
        ensures cost { ticks.new ≤ ticks.old + 16 }
    {
        chunk_at(self.table.close(chunk, ticks))
    }

    /// Puts a chunk into a class's free list, behind another chunk or in front.
    pub fn put_after<L: Ledger>(
        &mut self,
        class: usize,
        chunk: ChunkRef,
        after: Option<ChunkRef>,
        ticks: &mut Ticks<L>,
    )
        requires class { class < length self.old.free }
        requires slot { HasSlot self.old.slots chunk }
        requires nowhere { (c : ℕ) → has same_chunk chunk (free_of self.old c) ≡ false }
        requires after { has_after same_chunk after (free_of self.old class) ≡ true }
        ensures free { self.new.free ≡ slice_set self.old.free class (insert same_chunk chunk after (free_of self.old class)) }
        ensures owner { self.new.owner ≡ self.old.owner }
        ensures slots { self.new.slots ≡ self.old.slots }
        ensures cost { ticks.new ≤ ticks.old + 16 }
    {
        let table = &mut self.table;
        let place = place_behind(class, after);
        table.open(chunk, place, ticks);
    }
}
