//! The links of free lists.
ghost use Rattle.std.specs.Prelude.{◌≡◌, ◌≢◌, ℕ, ◌+◌, Some, IsSome};
ghost use Rattle.rev_links.specs.Rings.{SetsNext, SetsPrevious, Between, Gap};
ghost use Rattle.rev_links.specs.declared.places.RingPlace.TheVariants.{At};
ghost use Rattle.rev_pages.specs.Tables.{FreePlace, link_at, next_in, previous_in, SameShape, Closes, Opens};

use crate::places::{FreeLink, FreePlace};
use rev_links::{Cells, CountedGrid, Link, RingPlace, Ticks};
use rev_model::ChunkRef;
use std::alloc::Allocator;
use std::sync::ledger::Ledger;

/// The links of the lists' ends and of the chunks.
#[derive(Drop)]
pub struct Table<A: Allocator> {
    pub ends: Cells<FreeLink, A>,
    pub links: CountedGrid<FreeLink, A>,
}

impl<A: Allocator> Table<A> {
    /// The link of a place.
    pub fn link<L: Ledger>(&self, place: FreePlace, ticks: &mut Ticks<L>) -> FreeLink
        requires { IsSome (link_at self.now.ends self.now.links place) }
        ensures value { link_at self.now.ends self.now.links place ≡ Some result }
        ensures cost { ticks.new ≡ ticks.old + 1 }
    {
        match place {
            RingPlace::End(list) => self.ends.get(usize::from(list.class), ticks),
            RingPlace::At(chunk) => self.links.read(chunk.page, chunk.slot, ticks),
        }
    }

    /// Writes the link of a place.
    pub fn set_link<L: Ledger>(&mut self, place: FreePlace, link: FreeLink, ticks: &mut Ticks<L>)
        requires { IsSome (link_at self.old.ends self.old.links place) }
        ensures value { link_at self.new.ends self.new.links place ≡ Some link }
        ensures others { (other : FreePlace) → other ≢ place
            → link_at self.new.ends self.new.links other ≡ link_at self.old.ends self.old.links other }
        ensures shape { SameShape self.old.ends self.old.links self.new.ends self.new.links }
        ensures cost { ticks.new ≡ ticks.old + 1 }
    {
        match place {
            RingPlace::End(list) => self.ends.set(usize::from(list.class), link, ticks),
            RingPlace::At(chunk) => self.links.write(chunk.page, chunk.slot, link, ticks),
        }
    }

    // Makes a place the one behind another.
    fn set_next<L: Ledger>(&mut self, place: FreePlace, next: FreePlace, ticks: &mut Ticks<L>)
        requires { IsSome (link_at self.old.ends self.old.links place) }
        ensures value { SetsNext (next_in self.old.ends self.old.links) (previous_in self.old.ends self.old.links)
            (next_in self.new.ends self.new.links) (previous_in self.new.ends self.new.links) place next }
        ensures shape { SameShape self.old.ends self.old.links self.new.ends self.new.links }
        ensures cost { ticks.new ≡ ticks.old + 2 }
    {
        match place {
            RingPlace::End(list) => self.ends.edit(usize::from(list.class), ticks).next = next,
            RingPlace::At(chunk) => self.links.edit(chunk.page, chunk.slot, ticks).next = next,
        }
    }

    // Makes a place the one before another.
    fn set_previous<L: Ledger>(
        &mut self,
        place: FreePlace,
        previous: FreePlace,
        ticks: &mut Ticks<L>,
    )
        requires { IsSome (link_at self.old.ends self.old.links place) }
        ensures value { SetsPrevious (next_in self.old.ends self.old.links) (previous_in self.old.ends self.old.links)
            (next_in self.new.ends self.new.links) (previous_in self.new.ends self.new.links) place previous }
        ensures shape { SameShape self.old.ends self.old.links self.new.ends self.new.links }
        ensures cost { ticks.new ≡ ticks.old + 2 }
    {
        match place {
            RingPlace::End(list) => self.ends.edit(usize::from(list.class), ticks).previous =
                previous,
            RingPlace::At(chunk) => self.links.edit(chunk.page, chunk.slot, ticks).previous =
                previous,
        }
    }

    /// Takes a chunk out from between its neighbours, and tells the place before it.
    pub fn close<L: Ledger>(&mut self, chunk: ChunkRef, ticks: &mut Ticks<L>) -> FreePlace
        requires { Between (next_in self.old.ends self.old.links) (previous_in self.old.ends self.old.links) chunk }
        ensures before { previous_in self.old.ends self.old.links (At chunk) ≡ Some result }
        ensures value { Closes self.old.ends self.old.links self.new.ends self.new.links chunk }
        ensures shape { SameShape self.old.ends self.old.links self.new.ends self.new.links }
        ensures cost { ticks.new ≡ ticks.old + 5 }
    {
        let link = self.link(RingPlace::At(chunk), ticks);
        self.set_next(link.previous, link.next, ticks);
        self.set_previous(link.next, link.previous, ticks);
        link.previous
    }

    /// Puts a chunk behind a place.
    pub fn open<L: Ledger>(&mut self, chunk: ChunkRef, after: FreePlace, ticks: &mut Ticks<L>)
        requires there { IsSome (link_at self.old.ends self.old.links (At chunk)) }
        requires apart { after ≢ At chunk }
        requires gap { Gap (next_in self.old.ends self.old.links) (previous_in self.old.ends self.old.links) after chunk }
        ensures value { Opens self.old.ends self.old.links self.new.ends self.new.links chunk after }
        ensures shape { SameShape self.old.ends self.old.links self.new.ends self.new.links }
        ensures cost { ticks.new ≡ ticks.old + 6 }
    {
        let next = self.link(after, ticks).next;
        self.set_link(
            RingPlace::At(chunk),
            Link {
                previous: after,
                next,
            },
            ticks,
        );
        self.set_next(after, RingPlace::At(chunk), ticks);
        self.set_previous(next, RingPlace::At(chunk), ticks);
    }
}
