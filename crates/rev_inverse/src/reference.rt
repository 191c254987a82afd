//! A record that is only read, wherever its changes lie.
ghost use Rattle.std.specs.Prelude.{◌≡◌, ◌<◌, ◌≤◌, length, map, slice_index_or, MatchOption};
ghost use Rattle.rev_inverse.specs.Record.{plain_change, in_order, whole, IsWhole};

use crate::changes::Change;
use crate::record::place_of;
use std::alloc::Allocator;
use std::marker::Model;

/// A record to be read, wherever its changes stand.
#[derive(Drop)]
pub struct RecordRef<'a, A: Allocator> {
    changes: &'a [Change<A>],
    // Whether they stand the other way round, the last in front.
    is_turned: bool,
}

impl<'a, A: Allocator> Model for RecordRef<'a, A> {
    ghost use Rattle.std.specs.Prelude.{map};
    ghost use Rattle.rev_inverse.specs.Record.{PlainRecord, plain_change, in_order, whole};

    ghost Value = { PlainRecord };

    ghost view = { λ r. whole (in_order r.is_turned (map plain_change r.changes.now)) };
}

impl<'a, A: Allocator> RecordRef<'a, A> {
    /// The record of the changes that stand in this order, or the other way round where it `is_turned`.
    pub fn new(changes: &'a [Change<A>], is_turned: bool) -> RecordRef<'a, A>
        ensures { result ≡ whole (in_order is_turned (map plain_change changes.now)) }
    {
        RecordRef { changes, is_turned }
    }

    /// In how many changes the moves are kept.
    pub fn len(&self) -> usize
        ensures value { result ≡ length self.now.changes }
        ensures whole { IsWhole self.now }
    {
        self.changes.len()
    }

    /// The i-th change, where there are so many.
    pub fn change(&self, i: usize) -> Option<&'a Change<A>>
        ensures { MatchOption result (length self.now.changes ≤ i) (λ m. (i < length self.now.changes) × (plain_change m.now ≡ slice_index_or self.now.changes i (plain_change m.now))) }
    {
        let count = self.changes.len();
        if i >= count {
            return None;
        }
        self.changes.get(place_of(self.is_turned, i, count))
    }
}
