//! Entries in buckets by their hashes. A link is the number of an entry and one more, or 0 for none: a bucket's head
//! leads to its last entry, and each entry to the one before it in its bucket, and by its skip to an earlier one there.
//!
//! Skips are hints, on which nothing that is promised rests. The entries of a bucket are a stack of trees as for a
//! skew-binary number (Myers, "An applicative random-access stack", 1983), with loose entries in between. A tree's last
//! entry is its root, and a root's skip leads to the first root behind its tree. To make a root, two behind it are
//! read, and a play would wait for the memory of far ones. So an entry is loose where the one behind it is far or no
//! root: its skip leads to the last root, which the head knows. Of 16 such entries in a row the last one is a root all
//! the same. So a walk by skips and links comes past n entries in O(log n) steps, and 15 more at most.
ghost use Rattle.std.specs.Prelude.{◌≡◌, ℕ, ◌+◌, ◌-◌, ◌^◌, ◌%◌, ◌<◌, ◌≤◌, IfSome, IsTrue, Some, length, slice_get};
ghost use Rattle.rev_tree.specs.Mentions.{Holds};
ghost use Rattle.rev_tree.specs.Links.{mention_of, mentions_of, IsLinked, IsSound, LeadsPast};

use crate::hint::{Hint, NO_HINT};
use crate::mention::Mention;
use rev_items::bucket;

// An entry that is so many back, or more, is far.
const FAR: u32 = 1024;

// How many entries in a row are loose, at most.
const MOST_LOOSE: u32 = 15;

/// A mention, with the link to the entry before it in its bucket. Beside a root's skip stands how high its tree is, and
/// beside that of a loose entry 0.
#[derive(Clone, Copy)]
pub struct Entry {
    pub hash: u32,
    pub node: u32,
    pub earlier: u32,
    pub skip: Hint,
}

impl Entry {
    /// What the entry notes.
    pub fn mention(&self) -> Mention
        ensures { result ≡ record { hash = self.now.hash; node = self.now.node } }
    {
        Mention {
            hash: self.hash,
            node: self.node,
        }
    }
}

/// The link to the last entry of a bucket, and that to its last root. Beside the latter stands how many loose entries
/// have come since.
#[derive(Clone, Copy)]
pub struct Head {
    pub last: u32,
    pub root: Hint,
}

/// The head of a bucket with no entry.
pub const EMPTY: Head = Head {
    last: 0,
    root: NO_HINT,
};

// The entry that the link leads to, if there is one.
fn follow(entries: &[Entry], link: u32) -> Option<Entry>
    ensures { IfSome result (λ e. (0 < link) × (slice_get entries.now (link - 1) ≡ Some e)) }
{
    let at = (link as usize).checked_sub(1)?;
    entries.get(at).copied()
}

// The skip of a root that comes in front of the one which `root` leads to, with its height. Its tree takes in the two
// trees behind it where they are equally high.
fn skip_of_root(entries: &[Entry], root: u32) -> Hint {
    let Some(first) = follow(entries, root) else {
        return NO_HINT;
    };
    match follow(entries, first.skip.link()) {
        Some(second) if second.skip.number() == first.skip.number() => Hint::new(
            second.skip.link(),
            first.skip.number().saturating_add(1),
        ),
        _ => Hint::new(root, 0),
    }
}

// The skip of the entry that the link `own` leads to, which comes in front of the others of its bucket, and the
// bucket's last root then.
fn place_in_front(entries: &[Entry], own: u32, head: Head) -> (Hint, Hint) {
    let root = head.root.link();
    let loose = head.root.number();
    let follows_root = head.last == root && own.saturating_sub(root) < FAR;
    if follows_root || loose >= MOST_LOOSE {
        (skip_of_root(entries, root), Hint::new(own, 0))
    } else {
        (Hint::new(root, 0), Hint::new(root, loose.saturating_add(1)))
    }
}

// The mention as the entry that the link `own` leads to, in front of others of its bucket, and the bucket's head then.
fn in_front(entries: &[Entry], own: u32, head: Head, mention: Mention) -> (Entry, Head)
    ensures mention { mention_of result.0 ≡ mention }
    ensures earlier { result.0.earlier ≡ head.last }
    ensures last { result.1.last ≡ own }
{
    let (skip, root) = place_in_front(entries, own, head);
    let entry = Entry {
        hash: mention.hash,
        node: mention.node,
        earlier: head.last,
        skip,
    };
    (entry, Head { last: own, root })
}

/// Links the entry `at`, where those before it are linked: it becomes the last one of its bucket.
pub fn link(heads: &mut [Head], entries: &mut [Entry], at: usize)
    requires within { at < length entries.old }
    requires few { length entries.old < 2 ^ 32 }
    requires linked { IsLinked heads.old entries.old at }
    ensures mentions { mentions_of entries.new ≡ mentions_of entries.old }
    ensures linked { IsLinked heads.new entries.new (at + 1) }
{
    let mention = entries[at].mention();
    let place = bucket(mention.hash, heads.len());
    let own = at as u32 + 1;
    let (entry, head) = in_front(entries, own, heads[place], mention);
    entries[at] = entry;
    heads[place] = head;
}

/// Links every entry anew.
pub fn relink(heads: &mut [Head], entries: &mut [Entry])
    requires some { 0 < length heads.old }
    requires few { length entries.old < 2 ^ 32 }
    ensures mentions { mentions_of entries.new ≡ mentions_of entries.old }
    ensures linked { IsLinked heads.new entries.new (length entries.new) }
{
    heads.fill(EMPTY);
    for at in 0..entries.len() {
        link(heads, entries, at);
    }
}

// Whether the link leads into the bucket, to an entry of a node over the bound and before the cursor's. Nodes do not
// fall, so the cursor's entry and all between are of nodes over the bound, too.
fn leads_past(
    entries: &[Entry],
    link: u32,
    cursor: u32,
    bound: u32,
    place: usize,
    count: usize,
) -> bool
    requires some { 0 < count }
    requires within { cursor ≤ length entries.now }
    ensures { IsTrue result → LeadsPast (mentions_of entries.now) count place bound cursor link }
{
    if link == 0 || link >= cursor {
        return false;
    }
    let entry = entries[link as usize - 1];
    entry.node > bound && bucket(entry.hash, count) == place
}

/// The latest node up to `bound` that mentions the hash, or 0.
///
/// Entries of nodes over the bound are passed by along skips, the others of the bucket one by one.
// A skip to the entry behind gains nothing, and so is not tried. What is asked of an entry stands in this order so that
// the processor guesses the next step. By the order before, it waited for the entry that a skip leads to.
#[inline(always)]
pub fn seek(heads: &[Head], entries: &[Entry], hash: u32, bound: u32) -> u32
    requires { IsSound heads.now entries.now }
    ensures bound { result ≤ bound }
    ensures latest { (n : ℕ) → Holds (mentions_of entries.now) hash n → n ≤ bound → n ≤ result }
    ensures held { 0 < result → Holds (mentions_of entries.now) hash result }
{
    let place = bucket(hash, heads.len());
    let mut cursor = heads[place].last;
    'walk: while cursor > 0 {
        let entry = entries[cursor as usize - 1];
        cursor = if entry.node > bound {
            let skip = entry.skip.link();
            if skip != entry.earlier
                && leads_past(entries, skip, cursor, bound, place, heads.len())
            {
                skip
            } else {
                entry.earlier
            }
        } else if entry.hash == hash {
            return entry.node;
        } else {
            entry.earlier
        };
    }
    0
}
