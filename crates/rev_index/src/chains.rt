//! The chains of the buckets, linked through the chunks.
ghost use Rattle.std.specs.Prelude.{◌≡◌, ◌≢◌, ◌%◌, ◌<◌, ◌≤◌, ◌^◌, ℕ, length, Some, IsSome, vec_len};
ghost use Rattle.rev_links.specs.declared.places.RingPlace.TheVariants.{At};
ghost use Rattle.rev_links.specs.Rings.{SetsNext, SetsPrevious, Between, Gap};
ghost use Rattle.rev_index.specs.Chains.{ChainPlace, link_at, next_in, previous_in, SameShape, Closes, Opens};

use rev_items::bucket;
use rev_links::{Grid, Link, RingPlace};
use rev_model::ChunkRef;
use std::alloc::Allocator;

/// A bucket, by its number.
#[derive(Clone, Copy)]
pub struct Bucket {
    pub number: u32,
}

pub type ChainPlace = RingPlace<Bucket, ChunkRef>;

pub type ChainLink = Link<Bucket, ChunkRef>;

/// The links of the buckets' ends and of the chunks.
#[derive(Drop)]
pub struct Chains<A: Allocator> {
    pub ends: Vec<ChainLink, A>,
    pub links: Grid<ChainLink, A>,
}

impl<A: Allocator> Chains<A> {
    /// The bucket of the keys of a hash.
    pub fn bucket(&self, hash: u32) -> Bucket
        requires some { 0 < vec_len self.now.ends }
        requires few { vec_len self.now.ends ≤ 2 ^ 20 }
        ensures { result.number ≡ hash % length self.now.ends.items }
    {
        Bucket {
            number: bucket(hash, self.ends.len()) as u32,
        }
    }

    /// The link of a place.
    pub fn link(&self, place: ChainPlace) -> ChainLink
        requires { IsSome (link_at self.now.ends.items self.now.links place) }
        ensures { link_at self.now.ends.items self.now.links place ≡ Some result }
    {
        match place {
            RingPlace::End(bucket) => self.ends[bucket.number as usize],
            RingPlace::At(chunk) => *self.links.get(chunk.page, chunk.slot),
        }
    }

    // Writes the link of a place.
    fn set_link(&mut self, place: ChainPlace, link: ChainLink)
        requires { IsSome (link_at self.old.ends.items self.old.links place) }
        ensures value { link_at self.new.ends.items self.new.links place ≡ Some link }
        ensures others { (other : ChainPlace) → other ≢ place
            → link_at self.new.ends.items self.new.links other ≡ link_at self.old.ends.items self.old.links other }
        ensures shape { SameShape self.old.ends.items self.old.links self.new.ends.items self.new.links }
    {
        match place {
            RingPlace::End(bucket) => self.ends[bucket.number as usize] = link,
            RingPlace::At(chunk) => self.links.set(chunk.page, chunk.slot, link),
        }
    }

    // Makes a place the one behind another.
    fn set_next(&mut self, place: ChainPlace, next: ChainPlace)
        requires { IsSome (link_at self.old.ends.items self.old.links place) }
        ensures value { SetsNext (next_in self.old.ends.items self.old.links) (previous_in self.old.ends.items self.old.links)
            (next_in self.new.ends.items self.new.links) (previous_in self.new.ends.items self.new.links) place next }
        ensures shape { SameShape self.old.ends.items self.old.links self.new.ends.items self.new.links }
    {
        match place {
            RingPlace::End(bucket) => self.ends[bucket.number as usize].next = next,
            RingPlace::At(chunk) => self.links.get_mut(chunk.page, chunk.slot).next = next,
        }
    }

    // Makes a place the one before another.
    fn set_previous(&mut self, place: ChainPlace, previous: ChainPlace)
        requires { IsSome (link_at self.old.ends.items self.old.links place) }
        ensures value { SetsPrevious (next_in self.old.ends.items self.old.links) (previous_in self.old.ends.items self.old.links)
            (next_in self.new.ends.items self.new.links) (previous_in self.new.ends.items self.new.links) place previous }
        ensures shape { SameShape self.old.ends.items self.old.links self.new.ends.items self.new.links }
    {
        match place {
            RingPlace::End(bucket) => self.ends[bucket.number as usize].previous = previous,
            RingPlace::At(chunk) => self.links.get_mut(chunk.page, chunk.slot).previous = previous,
        }
    }

    /// Takes a chunk out from between its neighbours.
    pub fn remove(&mut self, chunk: ChunkRef)
        requires { Between (next_in self.old.ends.items self.old.links) (previous_in self.old.ends.items self.old.links) chunk }
        ensures value { Closes self.old.ends.items self.old.links self.new.ends.items self.new.links chunk }
        ensures shape { SameShape self.old.ends.items self.old.links self.new.ends.items self.new.links }
    {
        let link = self.link(RingPlace::At(chunk));
        self.set_next(link.previous, link.next);
        self.set_previous(link.next, link.previous);
    }

    /// Puts a chunk behind a place.
    pub fn insert(&mut self, chunk: ChunkRef, after: ChainPlace)
        requires there { IsSome (link_at self.old.ends.items self.old.links (At chunk)) }
        requires apart { after ≢ At chunk }
        requires gap { Gap (next_in self.old.ends.items self.old.links) (previous_in self.old.ends.items self.old.links) after chunk }
        ensures value { Opens self.old.ends.items self.old.links self.new.ends.items self.new.links chunk after }
        ensures shape { SameShape self.old.ends.items self.old.links self.new.ends.items self.new.links }
    {
        let next = self.link(after).next;
        self.set_link(
            RingPlace::At(chunk),
            Link {
                previous: after,
                next,
            },
        );
        self.set_next(after, RingPlace::At(chunk));
        self.set_previous(next, RingPlace::At(chunk));
    }
}
