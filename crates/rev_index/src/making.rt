//! New tables and slots.
ghost use Rattle.std.specs.Prelude.{◌≡◌, ◌≤◌, ◌^◌, ℕ, IfOk, length};
ghost use Rattle.rev_index.specs.Index.{AllNone, AreEmpty};
ghost use Rattle.rev_links.specs.Grids.{away};
ghost use Rattle.rev_links.specs.declared.places.RingPlace.TheVariants.{End};

use crate::chains::{Bucket, ChainLink, Chains};
use crate::item_table::PageItems;
use crate::parts::Slots;
use rev_links::{Grid, Link, RingPlace};
use std::alloc::{AllocError, Allocator};

// So many slots without items.
fn no_items<A: Allocator>(alloc: A, n: u16) -> Result<PageItems<A>, AllocError>
    ensures count { IfOk result (λ v. length v.items ≡ n) }
    ensures none { IfOk result (λ v. AllNone v.items) }
{
    let mut items = Vec::with_capacity(alloc, usize::from(n))?;
    for _ in 0..n {
        items.push(None)?;
    }
    Ok(items)
}

// So many links that lead nowhere.
fn no_links<A: Allocator>(alloc: A, n: u16) -> Result<Vec<ChainLink, A>, AllocError>
    ensures count { IfOk result (λ v. length v.items ≡ n) }
{
    let place = RingPlace::End(Bucket { number: 0 });
    let link = Link {
        previous: place,
        next: place,
    };
    vec![in alloc; link; usize::from(n)]
}

/// The slots of a page that is to be laid, `n` of them.
///
/// The one error is that there is no memory.
pub fn slots<A: Allocator + Clone>(alloc: A, n: u16) -> Result<Slots<A>, AllocError>
    ensures { IfOk result (λ s. s ≡ n) }
{
    let items = no_items(alloc.clone()?, n)?;
    let links = no_links(alloc, n)?;
    Ok(Slots { items, links })
}

// How many buckets there are.
fn buckets(hash_power: u32) -> u32
    requires { hash_power ≤ 20 }
    ensures { result ≡ 2 ^ hash_power }
{
    1 << hash_power
}

// The end of an empty bucket, before and behind itself.
fn empty_end(number: u32) -> ChainLink
    ensures { result ≡ record { previous = End (record { number = number }); next = End (record { number = number }) } }
{
    let place = RingPlace::End(Bucket { number });
    Link {
        previous: place,
        next: place,
    }
}

/// The ends of so many empty buckets.
///
/// The one error is that there is no memory.
pub fn empty_ends<A: Allocator>(alloc: A, n: u32) -> Result<Vec<ChainLink, A>, AllocError>
    ensures count { IfOk result (λ v. length v.items ≡ n) }
    ensures empty { IfOk result (λ v. AreEmpty v.items) }
{
    let mut ends = Vec::with_capacity(alloc, n as usize)?;
    for number in 0..n {
        ends.push(empty_end(number))?;
    }
    Ok(ends)
}

/// Makes each end that of an empty bucket.
pub fn clear_ends(ends: &mut [ChainLink])
    requires few { length ends.old ≤ 2 ^ 20 }
    ensures count { length ends.new ≡ length ends.old }
    ensures empty { AreEmpty ends.new }
{
    for number in 0..ends.len() {
        ends[number] = empty_end(number as u32);
    }
}

/// The chains of 2^hash_power empty buckets, over so many pages that are away.
pub fn empty_chains<A: Allocator + Clone>(
    alloc: A,
    pages: usize,
    hash_power: u32,
) -> Result<Chains<A>, AllocError>
    requires { hash_power ≤ 20 }
    ensures count { IfOk result (λ c. length c.ends.items ≡ 2 ^ hash_power) }
    ensures empty { IfOk result (λ c. AreEmpty c.ends.items) }
    ensures away { IfOk result (λ c. c.links ≡ away pages) }
{
    let ends = empty_ends(alloc.clone()?, buckets(hash_power))?;
    let links = Grid::open(alloc, pages)?;
    Ok(Chains { ends, links })
}
