//! The table of buckets gets wider, and each chunk enters its new chain.
ghost use Rattle.std.specs.Prelude.{◌≡◌, ◌≢◌, ◌<◌, ◌≤◌, ◌^◌, None, Some, length};
ghost use Rattle.std.specs.FinMap as map;
ghost use Rattle.rev_items.specs.Plain.{PlainItem};
ghost use Rattle.rev_index.specs.Made.{at};
ghost use Rattle.rev_links.specs.declared.places.RingPlace.TheVariants.{At};
ghost use Rattle.rev_model.specs.declared.ChunkRef.{ChunkRef as ChunkOf};
ghost use Rattle.rev_index.specs.Chains.{next_in};
ghost use Rattle.rev_index.specs.Index.{IsChained, AreNew, AreEmpty, index_of, bound, bound_all, members};

use crate::chains::{Bucket, ChainLink, Chains};
use crate::item_table::ItemTable;
use crate::making::{clear_ends, empty_ends};
use crate::seek::home;
use crate::sizing::{KeyRange, wanted};
use rev_links::RingPlace;
use rev_model::ChunkRef;
use std::alloc::{AllocError, Allocator};
use std::mem;

/// Enters a chunk in the bucket of its item's key. It takes no memory.
pub fn enter<A: Allocator>(chains: &mut Chains<A>, items: &ItemTable<A>, chunk: ChunkRef)
    requires kept { IsChained chains.old.ends.items chains.old.links items.now }
    // the chunk has an item, whose key is not bound
    requires item { let before = index_of chains.old.ends.items chains.old.links items.now in
        (i : PlainItem) × (map.get before.content chunk ≡ Some i) × (map.get before.keys i.key ≡ None) }
    ensures kept { IsChained chains.new.ends.items chains.new.links items.now }
    ensures value { let before = index_of chains.old.ends.items chains.old.links items.now in
        index_of chains.new.ends.items chains.new.links items.now
        ≡ record before { keys = bound chunk (map.get before.content chunk) before.keys } }
    // behind another chunk stands what stood there
    ensures others { (other : ChunkOf) → other ≢ chunk
        → next_in chains.new.ends.items chains.new.links (At other)
        ≡ next_in chains.old.ends.items chains.old.links (At other) }
{
    let bucket = home(chains, items, chunk);
    chains.insert(chunk, RingPlace::End(bucket));
}

// Enters each chunk of the chains that these ends have over the same links, one bucket after another. It takes no
// memory: the links lead to the next chunk until it is entered.
fn enter_all<A: Allocator>(chains: &mut Chains<A>, items: &ItemTable<A>, ends: &[ChainLink])
    requires kept { IsChained chains.old.ends.items chains.old.links items.now }
    requires from { IsChained ends.now chains.old.links items.now }
    requires new { AreNew (at items.now) (index_of chains.old.ends.items chains.old.links items.now).keys
        (members ends.now chains.old.links) }
    ensures kept { IsChained chains.new.ends.items chains.new.links items.now }
    ensures value { let before = index_of chains.old.ends.items chains.old.links items.now in
        index_of chains.new.ends.items chains.new.links items.now
        ≡ record before { keys = bound_all (at items.now) (members ends.now chains.old.links) before.keys } }
{
    let mut number = ends.len();
    let mut place = RingPlace::End(Bucket { number: 0 });
    'chunks: loop {
        match place {
            RingPlace::At(chunk) => {
                place = chains.link(place).next;
                enter(chains, items, chunk);
            }
            RingPlace::End(_) => {
                if number == 0 {
                    return;
                }
                number -= 1;
                place = ends[number].next;
            }
        }
    }
}

// Puts ends of empty buckets in the place of those of the chains, enters each chunk anew, and gives the old ends.
fn replace_ends<A: Allocator>(
    chains: &mut Chains<A>,
    items: &ItemTable<A>,
    ends: Vec<ChainLink, A>,
) -> Vec<ChainLink, A>
    requires kept { IsChained chains.old.ends.items chains.old.links items.now }
    requires some { 0 < length ends.items }
    requires few { length ends.items ≤ 2 ^ 20 }
    requires empty { AreEmpty ends.items }
    ensures kept { IsChained chains.new.ends.items chains.new.links items.now }
    ensures value { index_of chains.new.ends.items chains.new.links items.now
        ≡ index_of chains.old.ends.items chains.old.links items.now }
{
    let old = mem::replace(&mut chains.ends, ends);
    enter_all(chains, items, old.as_slice());
    old
}

// Gives the chains so many buckets. The memory is taken before anything changes. The ends that the chains have are put
// aside where there are none aside, and else let go.
//
// Err: the growth was refused, and the chains are as they were.
fn grow<A: Allocator + Clone>(
    chains: &mut Chains<A>,
    items: &ItemTable<A>,
    aside: &mut Option<Vec<ChainLink, A>>,
    buckets: usize,
    alloc: &A,
) -> Result<(), AllocError>
    requires kept { IsChained chains.old.ends.items chains.old.links items.now }
    requires some { 0 < buckets }
    requires few { buckets ≤ 2 ^ 20 }
    ensures kept { IsChained chains.new.ends.items chains.new.links items.now }
    ensures value { index_of chains.new.ends.items chains.new.links items.now
        ≡ index_of chains.old.ends.items chains.old.links items.now }
{
    let ends = empty_ends(alloc.clone()?, buckets as u32)?;
    let old = replace_ends(chains, items, ends);
    if aside.is_none() {
        *aside = Some(old);
    }
    Ok(())
}

/// Gives the chains as many buckets as their keys want, of which `keys` says how many there are, and tells for how many
/// keys those are enough. The ends that the chains have before they grow are put aside where there are none aside.
/// Where memory is refused the chains are as they were, which is to be enough until an eighth of the keys has come or
/// gone.
pub fn fit_buckets<A: Allocator + Clone>(
    chains: &mut Chains<A>,
    items: &ItemTable<A>,
    aside: &mut Option<Vec<ChainLink, A>>,
    keys: usize,
    alloc: &A,
) -> KeyRange
    requires kept { IsChained chains.old.ends.items chains.old.links items.now }
    ensures kept { IsChained chains.new.ends.items chains.new.links items.now }
    ensures value { index_of chains.new.ends.items chains.new.links items.now
        ≡ index_of chains.old.ends.items chains.old.links items.now }
{
    let buckets = wanted(keys, chains.ends.len());
    if buckets == chains.ends.len() {
        return KeyRange::fitting(buckets);
    }
    match grow(chains, items, aside, buckets, alloc) {
        Ok(()) => KeyRange::fitting(buckets),
        Err(_) => KeyRange::around(keys),
    }
}

/// Puts ends that were put aside back in the place of those of the chains, which are more and are let go. It takes no
/// memory. The answer is whether they are more: else nothing is changed.
pub fn restore<A: Allocator>(
    chains: &mut Chains<A>,
    items: &ItemTable<A>,
    mut ends: Vec<ChainLink, A>,
) -> bool
    requires kept { IsChained chains.old.ends.items chains.old.links items.now }
    ensures kept { IsChained chains.new.ends.items chains.new.links items.now }
    ensures value { index_of chains.new.ends.items chains.new.links items.now
        ≡ index_of chains.old.ends.items chains.old.links items.now }
{
    if ends.is_empty() || ends.len() >= chains.ends.len() {
        return false;
    }
    clear_ends(ends.as_mut_slice());
    drop(replace_ends(chains, items, ends));
    true
}
