//! The search along a chain.
ghost use Rattle.std.specs.Prelude.{◌≡◌, ◌<◌, ◌≤◌, ◌^◌, ℕ, length, Some, None, IsSome, vec_len};
ghost use Rattle.rev_index.specs.Made.{at};
ghost use Rattle.rev_index.specs.Chains.{chain};
ghost use Rattle.rev_index.specs.Index.{IsChained, IsHome, is_named, find_in};

use crate::chains::{Bucket, Chains};
use crate::item_table::ItemTable;
use rev_items::Key;
use rev_links::RingPlace;
use rev_model::ChunkRef;
use std::alloc::Allocator;

// Whether the item of a chunk has a key.
fn has_key<A: Allocator, B: Allocator>(items: &ItemTable<A>, chunk: ChunkRef, key: &Key<B>) -> bool
    ensures { result ≡ is_named key.now (at items.now chunk) }
{
    match items.item(chunk) {
        Some(item) => item.has_key(key),
        None => false,
    }
}

/// The first chunk of a chain whose item has a key.
pub fn seek<A: Allocator, B: Allocator>(
    chains: &Chains<A>,
    items: &ItemTable<A>,
    bucket: Bucket,
    key: &Key<B>,
) -> Option<ChunkRef>
    requires kept { IsChained chains.now.ends.items chains.now.links items.now }
    requires bucket { bucket.number < length chains.now.ends.items }
    ensures { result ≡ find_in (at items.now) key.now (chain chains.now.ends.items chains.now.links bucket.number) None }
{
    let mut place = RingPlace::End(bucket);
    'walk: loop {
        match chains.link(place).next {
            RingPlace::End(_) => return None,
            RingPlace::At(chunk) => {
                if has_key(items, chunk, key) {
                    return Some(chunk);
                }
                place = RingPlace::At(chunk);
            }
        }
    }
}

/// The bucket of the key of a chunk's item.
pub fn home<A: Allocator>(chains: &Chains<A>, items: &ItemTable<A>, chunk: ChunkRef) -> Bucket
    requires some { 0 < vec_len chains.now.ends }
    requires few { vec_len chains.now.ends ≤ 2 ^ 20 }
    requires item { IsSome (at items.now chunk) }
    ensures { IsHome (length chains.now.ends.items) result.number (at items.now chunk) }
{
    match items.item(chunk) {
        Some(item) => chains.bucket(item.hash()),
        None => unreachable!(),
    }
}
