//! The log of mentions.
ghost use Rattle.std.specs.Prelude.{◌≡◌, ◌⊎◌, ℕ, ◌<◌, ◌≤◌, [], IsTrue, IfOk, OnOk, OnErr, length};
ghost use Rattle.rev_tree.specs.Mentions.{Holds, Within};

use crate::hint::NO_HINT;
use crate::links::{EMPTY, Entry, Head, link, relink, seek};
use crate::mention::Mention;
use std::alloc::{AllocError, Allocator};
use std::marker::Model;
use std::mem;

// How many buckets a new log has.
const FIRST_BUCKETS: usize = 16;

// How many entries a bucket has, on average, before there are more buckets: a play waits for memory at a bucket that is
// not near, and a look-up at each entry, so that the buckets are few and the chains short.
const ENTRIES_PER_BUCKET: usize = 4;

// How many times as many buckets there are then.
const GROWTH: usize = 4;

// How many buckets so many entries want: as many as there are, or `GROWTH` times more until they are enough.
fn wanted(entries: usize, buckets: usize) -> usize
    requires { 0 < buckets }
    ensures { 0 < result }
{
    let mut wanted = buckets;
    'more: while wanted <= entries / ENTRIES_PER_BUCKET {
        wanted *= GROWTH;
    }
    wanted
}

// An eighth more entries than these, and one at least.
fn eighth_more(entries: usize) -> usize {
    entries.saturating_add(entries / 8 + 1)
}

/// Which hash was mentioned at which node, in the order of the nodes. A look-up goes back along the entries of one
/// bucket, many at a time where they are of later nodes than it asks for, and takes no memory; a bucket has four
/// entries at most, on average, where there is memory for so many buckets.
#[derive(Drop)]
pub struct Mentions<A: Allocator> {
    heads: Vec<Head, A>,
    // the heads that the log began with, while there are more in their place: for `narrow` alone
    first_heads: Option<Vec<Head, A>>,
    // at how many entries more buckets are asked for: for `make_room` alone
    enough_below: usize,
    entries: Vec<Entry, A>,
}

impl<A: Allocator> Model for Mentions<A> {
    ghost use Rattle.std.specs.Prelude.{List};
    ghost use Rattle.rev_tree.specs.declared.mention.Mention.{Mention};
    ghost use Rattle.rev_tree.specs.Links.{mentions_of, IsSound};

    ghost Value = { List Mention };

    ghost view = { λ m. mentions_of m.entries.items };

    ghost invariant = { λ m. IsSound m.heads.items m.entries.items };
}

impl<A: Allocator> Mentions<A> {
    /// A log of no mention.
    ///
    /// Err: a handle on the allocator or the first buckets were refused.
    pub fn new(alloc: &A) -> Result<Mentions<A>, AllocError>
    where
        A: Clone,
        ensures { IfOk result (λ m. m ≡ []) }
    {
        let mut heads = Vec::new(alloc.clone()?);
        heads.resize(FIRST_BUCKETS, EMPTY)?;
        Ok(Mentions {
            heads,
            first_heads: None,
            enough_below: FIRST_BUCKETS * ENTRIES_PER_BUCKET,
            entries: Vec::new(alloc.clone()?),
        })
    }

    /// Takes all mentions out. The buckets stay as many as they are.
    pub fn clear(&mut self)
        ensures { self.new ≡ [] }
    {
        self.entries.clear();
        relink(&mut self.heads, &mut self.entries);
    }

    /// Notes that the hash is mentioned at `node`. What one of the last two entries says already is left out.
    ///
    /// Err: a growth was refused, or the log has 2³² - 1 entries, and nothing is changed.
    pub fn note(&mut self, hash: u32, node: u32) -> Result<(), AllocError>
    where
        A: Clone,
        requires { Within self.old node }
        ensures ok { OnOk result (Holds self.new hash node) }
        ensures kept { (h n : ℕ) → Holds self.old h n → Holds self.new h n }
        ensures only { (h n : ℕ) → Holds self.new h n → Holds self.old h n ⊎ ((h ≡ hash) × (n ≡ node)) }
        ensures within { Within self.new node }
        ensures err { OnErr result (self.new ≡ self.old) }
    {
        if self.ends_with(hash, node) {
            return Ok(());
        }
        self.make_room();
        self.add(hash, node)
    }

    /// The latest node up to `bound` that mentions the hash, or 0: so 0 may also say that none does.
    pub fn latest(&self, hash: u32, bound: u32) -> u32
        ensures bound { result ≤ bound }
        ensures latest { (n : ℕ) → Holds self.now hash n → n ≤ bound → n ≤ result }
        ensures held { 0 < result → Holds self.now hash result }
    {
        seek(&self.heads, &self.entries, hash, bound)
    }

    // Whether the entry `at` is there, and says that the hash is mentioned at the node.
    fn says(&self, at: usize, hash: u32, node: u32) -> bool
        ensures { IsTrue result → Holds self.now hash node }
    {
        match self.entries.get(at) {
            Some(entry) => entry.mention() == Mention { hash, node },
            None => false,
        }
    }

    // Whether one of the last two entries says that the hash is mentioned at the node.
    fn ends_with(&self, hash: u32, node: u32) -> bool
        ensures { IsTrue result → Holds self.now hash node }
    {
        let count = self.entries.len();
        self.says(count.saturating_sub(1), hash, node)
            || self.says(count.saturating_sub(2), hash, node)
    }

    // Makes four times as many buckets where they have as many entries as they may. Where memory is refused they stay
    // as they are until there are an eighth more entries.
    fn make_room(&mut self)
    where
        A: Clone,
        ensures { self.new ≡ self.old }
    {
        let count = self.entries.len();
        if count < self.enough_below {
            return;
        }
        let buckets = wanted(count, self.heads.len());
        self.enough_below = match self.grow(buckets) {
            Ok(()) => buckets.saturating_mul(ENTRIES_PER_BUCKET),
            Err(_) => eighth_more(count),
        };
    }

    // Makes so many buckets. The heads that the log has are put aside where there are none aside, and else let go.
    //
    // Err: the growth was refused.
    fn grow(&mut self, buckets: usize) -> Result<(), AllocError>
    where
        A: Clone,
        requires { 0 < buckets }
        ensures { self.new ≡ self.old }
    {
        let heads = vec![in self.heads.allocator().clone()?; EMPTY; buckets]?;
        let old = self.replace_heads(heads);
        if self.first_heads.is_none() {
            self.first_heads = Some(old);
        }
        Ok(())
    }

    // Puts heads in the place of those of the log, links each entry anew, and gives the old heads.
    fn replace_heads(&mut self, heads: Vec<Head, A>) -> Vec<Head, A>
        requires { 0 < length heads.items }
        ensures { self.new ≡ self.old }
    {
        let old = mem::replace(&mut self.heads, heads);
        relink(&mut self.heads, &mut self.entries);
        old
    }

    /// Gives the memory back that more buckets took: the log has those that it began with, and more are asked for once
    /// there are an eighth more entries. The answer is whether there were more. It takes no memory, and time in the
    /// number of entries.
    pub fn narrow(&mut self) -> bool
        ensures { self.new ≡ self.old }
    {
        let Some(heads) = self.first_heads.take() else {
            return false;
        };
        if heads.is_empty() {
            return false;
        }
        self.enough_below = eighth_more(self.entries.len());
        drop(self.replace_heads(heads));
        true
    }

    // Puts a mention behind the others. Err: the growth was refused, or there are as many as links can tell apart.
    fn add(&mut self, hash: u32, node: u32) -> Result<(), AllocError>
        requires { Within self.old node }
        ensures ok { OnOk result (Holds self.new hash node) }
        ensures kept { (h n : ℕ) → Holds self.old h n → Holds self.new h n }
        ensures only { (h n : ℕ) → Holds self.new h n → Holds self.old h n ⊎ ((h ≡ hash) × (n ≡ node)) }
        ensures within { Within self.new node }
        ensures err { OnErr result (self.new ≡ self.old) }
    {
        let at = self.entries.len();
        if at >= u32::MAX as usize {
            return Err(AllocError);
        }
        self.entries.push(Entry {
            hash,
            node,
            earlier: 0,
            skip: NO_HINT,
        })?;
        link(&mut self.heads, &mut self.entries, at);
        Ok(())
    }
}
