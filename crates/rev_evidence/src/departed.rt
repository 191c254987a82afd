//! The keys that left in front of the root of a session, with what is told of the last leaving of each.
ghost use Rattle.std.specs.Prelude.{◌≡◌, OnOk, OnErr};
ghost use Rattle.rev_evidence.specs.Departed as rule;

use crate::verdict::{Evidence, Reason, Verdict};
use indexmap::IndexMap;
use rev_items::Key;
use rev_watch::event::Timestamp;
use std::alloc::{AllocError, Allocator};
use std::hash::{BuildHasherDefault, FoldHasher};
use std::marker::Model;
use std::mem;

/// At least so many keys are remembered, the latest ones (this project's own figure).
const MOST: usize = 1048576;

/// What is told of a key that left: why, what tells it, and when.
#[derive(Clone, Copy)]
pub struct Told {
    pub verdict: Verdict,
    /// When it left; where that is inferred, when it was gone at the latest.
    pub time: Timestamp,
    /// Where that is inferred, the last time at which it was there, if one is known.
    pub after: Option<Timestamp>,
}

// Keys as their bytes, each with what is told of it.
type Part<A> = IndexMap<Vec<u8, A>, Told, BuildHasherDefault<FoldHasher>, A>;

/// The keys that left in front of the root of a session, with what is told of the last leaving of each. At least the
/// latest 1,048,576 of them are remembered, and at most twice as many beside those that were lost at a restart.
#[derive(Drop)]
pub struct Departed<A: Allocator> {
    late: Part<A>,
    early: Part<A>,
}

impl<A: Allocator> Model for Departed<A> {
    ghost use Rattle.std.specs.Coded.{codes};
    ghost use Rattle.rev_evidence.specs.Departed.{PlainDeparted};
    ghost use Rattle.rev_evidence.specs.Parts.{plain_part};

    ghost Value = { PlainDeparted };

    ghost coded = { Prim.hlevel codes };

    ghost view = { λ d. record { late = plain_part d.late.entries; early = plain_part d.early.entries } };
}

// What is told of a key that the server held when it was started anew.
fn restarted(time: Timestamp) -> Told
    ensures { result ≡ rule.restarted time }
{
    Told {
        verdict: Verdict {
            reason: Reason::Restarted,
            evidence: Evidence::Logged,
        },
        time,
        after: None,
    }
}

impl<A: Allocator> Departed<A> {
    // What the later part has of a key.
    fn told_late(&self, key: &[u8]) -> Option<Told>
        ensures { result ≡ rule.told_in self.now.late key.now }
    {
        self.late.get(key).copied()
    }

    // What the earlier part has of a key.
    fn told_early(&self, key: &[u8]) -> Option<Told>
        ensures { result ≡ rule.told_in self.now.early key.now }
    {
        self.early.get(key).copied()
    }

    /// What is told of the last leaving of a key, as far as it is remembered.
    pub fn told_of(&self, key: &Key<A>) -> Option<Told>
        ensures { result ≡ rule.told_of self.now key.now }
    {
        match self.told_late(key.bytes()) {
            Some(told) => Some(told),
            None => self.told_early(key.bytes()),
        }
    }
}

impl<A: Allocator + Copy> Departed<A> {
    /// No key left. No memory is taken.
    pub fn nobody(alloc: A) -> Departed<A>
        ensures { result ≡ rule.nobody }
    {
        Departed {
            late: IndexMap::new(alloc),
            early: IndexMap::new(alloc),
        }
    }

    // A key is in the later part, with what is told of it.
    fn put(&mut self, key: Vec<u8, A>, told: Told) -> Result<(), AllocError>
        ensures ok { OnOk result (self.new ≡ rule.with_key self.old key.items told) }
        ensures err { OnErr result (self.new ≡ self.old) }
    {
        self.late.insert(key, told)?;
        Ok(())
    }

    // Makes room for one more key in the later part.
    fn make_room(&mut self, alloc: A)
        ensures { self.new ≡ rule.with_room self.old }
    {
        if self.late.len() >= MOST {
            self.early = mem::replace(&mut self.late, IndexMap::new(alloc));
        }
    }

    /// A key left, and this is told of it.
    ///
    /// Err: memory was refused, and the later part has room for one more alone.
    pub fn note(&mut self, alloc: A, key: Vec<u8, A>, told: Told) -> Result<(), AllocError>
        ensures ok { OnOk result (self.new ≡ rule.with_left self.old key.items told) }
        ensures err { OnErr result (self.new ≡ rule.with_room self.old) }
    {
        self.make_room(alloc);
        self.put(key, told)
    }

    /// The server was started anew at this time, and held a key.
    ///
    /// Err: memory was refused, and nothing is changed.
    pub fn lose(&mut self, key: Vec<u8, A>, time: Timestamp) -> Result<(), AllocError>
        ensures ok { OnOk result (self.new ≡ rule.with_lost self.old key.items time) }
        ensures err { OnErr result (self.new ≡ self.old) }
    {
        self.put(key, restarted(time))
    }
}
