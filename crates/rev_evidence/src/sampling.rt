//! A sample of a server's keys.
ghost use Rattle.std.specs.Prelude.{◌≡◌, [], OnOk};
ghost use Rattle.rev_evidence.specs.Sampling as rule;

use indexmap::IndexSet;
use rev_choices::Sample;
use rev_items::Key;
use rev_log::held_key::{HeldKey, SoughtKey};
use std::alloc::{AllocError, Allocator};
use std::hash::{BuildHasherDefault, FoldHasher};
use std::marker::Model;

/// Which keys of a server are replayed: one of so many, by its hash, and some whatever their hashes are.
#[derive(Drop)]
pub struct Sampling<A: Allocator> {
    alloc: A,
    sample: Sample,
    kept: IndexSet<HeldKey<A>, BuildHasherDefault<FoldHasher>, A>,
}

impl<A: Allocator> Model for Sampling<A> {
    ghost use Rattle.rev_evidence.specs.Sampling.{PlainSampling};

    ghost Value = { PlainSampling };

    ghost view = { λ s. record { one_of = s.sample.one_of; kept = s.kept.keys } };
}

impl<A: Allocator> Sampling<A> {
    /// Of so many keys one is in the sample, but for those that are kept.
    pub fn one_of(&self) -> u32
        ensures { result ≡ self.now.one_of }
    {
        self.sample.one_of
    }

    /// Whether a key is in the sample.
    pub fn has(&self, key: &Key<A>) -> bool
        ensures { result ≡ rule.has self.now key.now }
    {
        self.sample.takes(key) || self.kept.contains(SoughtKey { key })
    }
}

impl<A: Allocator + Copy> Sampling<A> {
    /// One key of so many, by its hash. No memory is taken.
    pub fn new(alloc: A, sample: Sample) -> Sampling<A>
        ensures { result ≡ record { one_of = sample.one_of; kept = [] } }
    {
        Sampling {
            alloc,
            sample,
            kept: IndexSet::new(alloc),
        }
    }

    /// This key is taken too, whatever its hash is.
    ///
    /// Err: memory was refused.
    pub fn keep(&mut self, key: &Key<A>) -> Result<(), AllocError>
        ensures kept { OnOk result (self.new.kept ≡ rule.with_key self.old.kept key.now) }
        ensures same { self.new.one_of ≡ self.old.one_of }
    {
        let held = HeldKey::copy_of(self.alloc, key)?;
        self.kept.insert(held)?;
        Ok(())
    }
}
