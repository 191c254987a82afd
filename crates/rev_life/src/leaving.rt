//! A key that left, and what is told of it.

use rev_evidence::verdict::Verdict;
use rev_items::Key;
use rev_watch::event::Timestamp;
use std::alloc::Allocator;

/// A key that left.
#[derive(Drop)]
pub struct Leaving<'a, A: Allocator> {
    pub time: Timestamp,
    /// The step at which it left, from 1.
    pub step: u64,
    pub key: &'a Key<A>,
    /// Its slab class.
    pub class: Option<usize>,
    pub verdict: Verdict,
    /// The step that pushed it out, where one did.
    pub culprit: Option<Pusher<'a, A>>,
}

/// The step that pushed a key out: the store that wanted its chunk.
#[derive(Drop)]
pub struct Pusher<'a, A: Allocator> {
    pub key: &'a Key<A>,
    pub connection: Option<i32>,
    pub step: u64,
}
