//! The links of ends, marks and chunks.
ghost use Rattle.std.specs.Prelude.{◌≡◌, ◌≢◌, ℕ, ◌+◌, ◌<◌, ◌≤◌, Some, IsSome};
ghost use Rattle.rev_links.specs.Rings.{SetsNext, SetsPrevious, Between, Gap};
ghost use Rattle.rev_links.specs.declared.places.RingPlace.TheVariants.{At};
ghost use Rattle.rev_queues.specs.Positions.{Position, link_at, next_in, previous_in, told, Closes, Opens, Tells, SameShape, SameStanding};

use crate::members::{Member, Position, PositionLink, QueueSlot, Standing};
use rev_links::{Cells, CountedGrid, Link, RingPlace, Ticks};
use std::alloc::Allocator;
use std::sync::ledger::Ledger;

/// The links of the queues' ends, of their marks and of the chunks.
#[derive(Drop)]
pub struct Links<A: Allocator> {
    pub ends: Cells<PositionLink, A>,
    pub marks: Cells<PositionLink, A>,
    pub slots: CountedGrid<QueueSlot, A>,
}

impl<A: Allocator> Links<A> {
    /// The link of a place.
    pub fn link<L: Ledger>(&self, position: Position, ticks: &mut Ticks<L>) -> PositionLink
        requires { IsSome (link_at self.now.ends self.now.marks self.now.slots position) }
        ensures value { link_at self.now.ends self.now.marks self.now.slots position ≡ Some result }
        ensures cost { ticks.new ≡ ticks.old + 1 }
    {
        match position {
            RingPlace::End(queue) => self.ends.get(usize::from(queue.number), ticks),
            RingPlace::At(Member::Mark(queue)) => self.marks.get(usize::from(queue.number), ticks),
            RingPlace::At(Member::Chunk(chunk)) => self
                .slots
                .read(chunk.page, chunk.slot, ticks)
                .link,
        }
    }

    /// The bytes that a member counts.
    pub fn footprint<L: Ledger>(&self, member: Member, ticks: &mut Ticks<L>) -> u32
        requires { IsSome (link_at self.now.ends self.now.marks self.now.slots (At member)) }
        ensures value { result ≡ told self.now.slots member }
        ensures cost { ticks.new ≤ ticks.old + 1 }
    {
        match member {
            Member::Chunk(chunk) => self
                .slots
                .read(chunk.page, chunk.slot, ticks)
                .standing
                .footprint,
            Member::Mark(_) => 0,
        }
    }

    /// Takes a member out from between its neighbours, and answers the place that stood before it.
    pub fn close<L: Ledger>(&mut self, member: Member, ticks: &mut Ticks<L>) -> Position
        requires { Between (next_in self.old.ends self.old.marks self.old.slots) (previous_in self.old.ends self.old.marks self.old.slots) member }
        ensures before { previous_in self.old.ends self.old.marks self.old.slots (At member) ≡ Some result }
        ensures value { Closes (next_in self.old.ends self.old.marks self.old.slots) (previous_in self.old.ends self.old.marks self.old.slots)
            (next_in self.new.ends self.new.marks self.new.slots) (previous_in self.new.ends self.new.marks self.new.slots) member }
        ensures standing { SameStanding self.old.slots self.new.slots }
        ensures shape { SameShape self.old.ends self.old.marks self.old.slots self.new.ends self.new.marks self.new.slots }
        ensures cost { ticks.new ≡ ticks.old + 5 }
    {
        let link = self.link(RingPlace::At(member), ticks);
        self.set_next(link.previous, link.next, ticks);
        self.set_previous(link.next, link.previous, ticks);
        link.previous
    }

    /// Puts a member behind a place.
    pub fn open<L: Ledger>(&mut self, member: Member, after: Position, ticks: &mut Ticks<L>)
        requires there { IsSome (link_at self.old.ends self.old.marks self.old.slots (At member)) }
        requires apart { after ≢ At member }
        requires gap { Gap (next_in self.old.ends self.old.marks self.old.slots) (previous_in self.old.ends self.old.marks self.old.slots) after member }
        ensures value { Opens (next_in self.old.ends self.old.marks self.old.slots) (previous_in self.old.ends self.old.marks self.old.slots)
            (next_in self.new.ends self.new.marks self.new.slots) (previous_in self.new.ends self.new.marks self.new.slots) member after }
        ensures standing { SameStanding self.old.slots self.new.slots }
        ensures shape { SameShape self.old.ends self.old.marks self.old.slots self.new.ends self.new.marks self.new.slots }
        ensures cost { ticks.new ≤ ticks.old + 7 }
    {
        let next = self.link(after, ticks).next;
        self.set_link(
            RingPlace::At(member),
            Link {
                previous: after,
                next,
            },
            ticks,
        );
        self.set_next(after, RingPlace::At(member), ticks);
        self.set_previous(next, RingPlace::At(member), ticks);
    }

    /// Notes of a chunk in which queue it stands and how many bytes it counts; of a mark there is nothing to note.
    pub fn tell<L: Ledger>(&mut self, member: Member, standing: Standing, ticks: &mut Ticks<L>)
        requires { IsSome (link_at self.old.ends self.old.marks self.old.slots (At member)) }
        ensures links { (other : Position) → link_at self.new.ends self.new.marks self.new.slots other ≡ link_at self.old.ends self.old.marks self.old.slots other }
        ensures value { Tells self.old.slots self.new.slots member standing }
        ensures shape { SameShape self.old.ends self.old.marks self.old.slots self.new.ends self.new.marks self.new.slots }
        ensures cost { ticks.new ≤ ticks.old + 2 }
    {
        match member {
            Member::Mark(_) => {}
            Member::Chunk(chunk) => {
                self.slots.edit(chunk.page, chunk.slot, ticks).standing = standing;
            }
        }
    }

    // Writes the link of a place.
    fn set_link<L: Ledger>(&mut self, position: Position, link: PositionLink, ticks: &mut Ticks<L>)
        requires { IsSome (link_at self.old.ends self.old.marks self.old.slots position) }
        ensures value { link_at self.new.ends self.new.marks self.new.slots position ≡ Some link }
        ensures others { (other : Position) → other ≢ position
            → link_at self.new.ends self.new.marks self.new.slots other ≡ link_at self.old.ends self.old.marks self.old.slots other }
        ensures standing { SameStanding self.old.slots self.new.slots }
        ensures shape { SameShape self.old.ends self.old.marks self.old.slots self.new.ends self.new.marks self.new.slots }
        ensures cost { ticks.new ≤ ticks.old + 2 }
    {
        match position {
            RingPlace::End(queue) => self.ends.set(usize::from(queue.number), link, ticks),
            RingPlace::At(member) => match member {
                Member::Mark(queue) => self.marks.set(usize::from(queue.number), link, ticks),
                Member::Chunk(chunk) => {
                    self.slots.edit(chunk.page, chunk.slot, ticks).link = link;
                }
            },
        }
    }

    // Makes a place the one behind another.
    fn set_next<L: Ledger>(&mut self, position: Position, next: Position, ticks: &mut Ticks<L>)
        requires { IsSome (link_at self.old.ends self.old.marks self.old.slots position) }
        ensures value { SetsNext (next_in self.old.ends self.old.marks self.old.slots) (previous_in self.old.ends self.old.marks self.old.slots)
            (next_in self.new.ends self.new.marks self.new.slots) (previous_in self.new.ends self.new.marks self.new.slots) position next }
        ensures standing { SameStanding self.old.slots self.new.slots }
        ensures shape { SameShape self.old.ends self.old.marks self.old.slots self.new.ends self.new.marks self.new.slots }
        ensures cost { ticks.new ≡ ticks.old + 2 }
    {
        match position {
            RingPlace::End(queue) => self.ends.edit(usize::from(queue.number), ticks).next = next,
            RingPlace::At(member) => match member {
                Member::Mark(queue) => {
                    self.marks.edit(usize::from(queue.number), ticks).next = next;
                }
                Member::Chunk(chunk) => {
                    self.slots.edit(chunk.page, chunk.slot, ticks).link.next = next;
                }
            },
        }
    }

    // Makes a place the one before another.
    fn set_previous<L: Ledger>(
        &mut self,
        position: Position,
        previous: Position,
        ticks: &mut Ticks<L>,
    )
        requires { IsSome (link_at self.old.ends self.old.marks self.old.slots position) }
        ensures value { SetsPrevious (next_in self.old.ends self.old.marks self.old.slots) (previous_in self.old.ends self.old.marks self.old.slots)
            (next_in self.new.ends self.new.marks self.new.slots) (previous_in self.new.ends self.new.marks self.new.slots) position previous }
        ensures standing { SameStanding self.old.slots self.new.slots }
        ensures shape { SameShape self.old.ends self.old.marks self.old.slots self.new.ends self.new.marks self.new.slots }
        ensures cost { ticks.new ≡ ticks.old + 2 }
    {
        match position {
            RingPlace::End(queue) => self.ends.edit(usize::from(queue.number), ticks).previous =
                previous,
            RingPlace::At(member) => match member {
                Member::Mark(queue) => {
                    self.marks.edit(usize::from(queue.number), ticks).previous = previous;
                }
                Member::Chunk(chunk) => {
                    self.slots.edit(chunk.page, chunk.slot, ticks).link.previous = previous;
                }
            },
        }
    }
}
