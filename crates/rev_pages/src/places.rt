//! Places of a free list.
use rev_links::{Link, RingPlace};
use rev_model::ChunkRef;

/// The end of a class's free list: it stands before the first chunk and behind the last one.
#[derive(Clone, Copy)]
pub struct FreeList {
    pub class: u16,
}

/// A place of a free list, and a place's neighbours in 12 bytes.
pub type FreePlace = RingPlace<FreeList, ChunkRef>;

pub type FreeLink = Link<FreeList, ChunkRef>;
