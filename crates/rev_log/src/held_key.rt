//! Keys as a table holds and seeks them: a table reads the hash that a key keeps.
ghost use Rattle.std.specs.Prelude.{◌≡◌, nat_eq, IfOk};
ghost use Rattle.std.specs.Cmp.Lexicographic.{pointwise, bytes_decides, nat_list_eq_equiv};
ghost use Rattle.std.specs.Cmp.{on_equiv, on_per, partial_equiv_from_equiv};
ghost use Rattle.std.specs.Hash as fed;
ghost use Rattle.std.proofs.Common.{ap};
ghost use Rattle.rev_items.specs.Hash.{hash_of};

use indexmap::Equivalent;
use rev_items::Key;
use std::alloc::{AllocError, Allocator};
use std::hash::{Hash, Hasher};
use std::marker::Model;

/// A key that a table holds. A table reads the hash that it keeps, and mostly no memory beside the table's own.
#[derive(Drop)]
pub struct HeldKey<A: Allocator> {
    key: Key<A>,
}

impl<A: Allocator> Model for HeldKey<A> {
    ghost use Rattle.std.specs.Prelude.{List, ℕ};

    ghost Value = { List ℕ };

    ghost view = { λ k. k.key };
}

impl<A: Allocator> HeldKey<A> {
    /// A copy of a key. Err: memory was refused.
    pub fn copy_of<B: Allocator>(alloc: A, key: &Key<B>) -> Result<HeldKey<A>, AllocError>
        ensures { IfOk result (λ held. held ≡ key.now) }
    {
        Ok(HeldKey {
            key: key.copy(alloc)?,
        })
    }

    /// The key.
    pub fn key(&self) -> &Key<A>
        ensures { result.now ≡ self.now }
    {
        &self.key
    }
}

impl<A: Allocator> PartialEq for HeldKey<A> {
    ghost eq = { pointwise nat_eq };

    ghost laws = { partial_equiv_from_equiv nat_list_eq_equiv };

    fn eq(&self, other: &HeldKey<A>) -> bool {
        self.key.is_same(&other.key)
    }
}

impl<A: Allocator> Eq for HeldKey<A> {
    ghost laws = { nat_list_eq_equiv };
}

impl<A: Allocator> Hash for HeldKey<A> {
    ghost hash_input = { λ k. fed.u32 (hash_of k) };

    ghost respects_eq = { λ x y e. ap (λ k. fed.u32 (hash_of k)) ((bytes_decides x y).0 e) };

    fn hash<H: Hasher>(&self, state: &mut H) {
        state.write_u32(self.key.hash());
    }
}

/// A key that is looked for in a table.
pub struct SoughtKey<'a, A: Allocator> {
    pub key: &'a Key<A>,
}

// (a derive would ask for an allocator that is copied)
impl<'a, A: Allocator> Clone for SoughtKey<'a, A> {
    fn clone(&self) -> Result<SoughtKey<'a, A>, AllocError> {
        Ok(*self)
    }
}

impl<'a, A: Allocator> Copy for SoughtKey<'a, A> {}

impl<'a, A: Allocator> PartialEq for SoughtKey<'a, A> {
    ghost eq = { λ x y. pointwise nat_eq x.key.now y.key.now };

    ghost laws = { on_per (λ k. k.key.now) (partial_equiv_from_equiv nat_list_eq_equiv) };

    fn eq(&self, other: &SoughtKey<'a, A>) -> bool {
        self.key.is_same(other.key)
    }
}

impl<'a, A: Allocator> Eq for SoughtKey<'a, A> {
    ghost laws = { on_equiv (λ k. k.key.now) nat_list_eq_equiv };
}

impl<'a, A: Allocator> Hash for SoughtKey<'a, A> {
    ghost hash_input = { λ k. fed.u32 (hash_of k.key.now) };

    ghost respects_eq = { λ x y e. ap (λ k. fed.u32 (hash_of k)) ((bytes_decides x.key.now y.key.now).0 e) };

    fn hash<H: Hasher>(&self, state: &mut H) {
        state.write_u32(self.key.hash());
    }
}

impl<'a, A: Allocator, B: Allocator> Equivalent<HeldKey<B>> for SoughtKey<'a, A> {
    ghost equivalent = { λ q k. pointwise nat_eq q.key.now k };

    ghost respects_hash = { λ q k e. ap (λ k. fed.u32 (hash_of k)) ((bytes_decides q.key.now k).0 e) };

    ghost respects_eq = { λ q x y. nat_list_eq_equiv.congr q.key.now x y };

    fn equivalent(&self, key: &HeldKey<B>) -> bool {
        self.key.is_same(&key.key)
    }
}
