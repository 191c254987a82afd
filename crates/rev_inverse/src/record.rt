//! The record of a step: the changes that undo it, in order.
ghost use Rattle.std.specs.Prelude.{◌≡◌, ℕ, ◌+◌, ◌<◌, ◌≤◌, IfOk, OnOk, OnErr, [], ◌∷◌, ◌++◌, length, map, false, slice_set, slice_index_or, reverse, vec_capacity, MatchOption};
ghost use Rattle.rev_inverse.specs.Seen.{plain_moves, plain_notes};
ghost use Rattle.rev_inverse.specs.Record.{plain_change, in_order, place_in, moves_in, notes_in, IsWhole};
ghost use Rattle.std.specs.Borrow.{sem};

use crate::changes::Change;
use std::alloc::{AllocError, Allocator};
use std::marker::Model;

/// The moves that undo a step, in the order of the step's own moves, with a note of the cause beside each that undoes a
/// removal from the index. It takes memory only when it is made.
#[derive(Drop)]
pub struct Record<A: Allocator> {
    moves: Vec<Change<A>, A>,
    // Whether the changes stand the other way round, the last in front.
    is_turned: bool,
    spare: u8,
}

impl<A: Allocator> Model for Record<A> {
    ghost use Rattle.std.specs.Prelude.{map, length, ◌+◌, ◌≤◌, vec_capacity, vec_len};
    ghost use Rattle.rev_inverse.specs.Record.{PlainRecord, plain_change, in_order, moves_in, notes_in};

    ghost Value = { PlainRecord };

    ghost view = { λ r. let changes = in_order r.is_turned (map plain_change r.moves.items) in
        record { moves = moves_in changes; notes = notes_in changes; room = length (moves_in changes) + r.spare; changes = changes } };

    ghost invariant = { λ r. vec_len r.moves + r.spare ≤ vec_capacity r.moves };
}

impl<A: Allocator> Record<A> {
    ghost use Rattle.rev_inverse.specs.Lending.{LendsChange};

    /// An empty record with room for `n` moves, at most 64.
    pub fn with_room(alloc: A, n: usize) -> Result<Record<A>, AllocError>
        requires { n ≤ 64 }
        ensures { IfOk result (λ made. made ≡ record { moves = []; notes = []; room = n; changes = [] }) }
    {
        let moves = Vec::with_capacity(alloc, n)?;
        Ok(Record {
            moves,
            is_turned: false,
            spare: n as u8,
        })
    }

    /// In how many changes the moves are kept.
    pub fn len(&self) -> usize
        ensures value { result ≡ length self.now.changes }
        ensures whole { IsWhole self.now }
    {
        self.moves.len()
    }

    /// Adds what undoes one more change behind the others. It takes no memory.
    #[inline(always)]
    pub fn push(&mut self, undo: Change<A>)
        requires { length self.old.moves + length (plain_moves undo) ≤ self.old.room }
        ensures moves { self.new.moves ≡ self.old.moves ++ plain_moves undo }
        ensures notes { self.new.notes ≡ self.old.notes ++ plain_notes undo }
        ensures changes { self.new.changes ≡ self.old.changes ++ plain_change undo ∷ [] }
        ensures room { self.new.room ≡ self.old.room }
    {
        straighten(&mut self.moves, &mut self.is_turned);
        let count = undo.count() as u8;
        match self.moves.push(undo) {
            Ok(()) => self.spare -= count,
            Err(_) => unreachable!(),
        }
    }

    /// The i-th change, where there are so many.
    pub fn change(&self, i: usize) -> Option<&Change<A>>
        ensures { MatchOption result (length self.now.changes ≤ i) (λ m. (i < length self.now.changes) × (plain_change m.now ≡ slice_index_or self.now.changes i (plain_change m.now))) }
    {
        let count = self.moves.len();
        if i >= count {
            return None;
        }
        self.moves.get(place_of(self.is_turned, i, count))
    }

    /// A change, to write another in its place.
    pub fn change_mut(&mut self, place: usize) -> &mut Change<A>
        requires { place < length self.old.changes }
        ensures* writes_back { sem 𝓛 (LendsChange A.row A.Allocator self.entry place result) }
        ensures value { plain_change result.now ≡ slice_index_or self.old.changes place (plain_change result.now) }
        ensures room { length self.old.moves ≤ self.old.room }
    {
        let at = place_of(self.is_turned, place, self.moves.len());
        &mut self.moves[at]
    }

    /// Moves the changes behind those of a list, in their own order.
    ///
    /// Err: a growth was refused, and both are as they were.
    #[inline(always)]
    pub fn append_to(&mut self, list: &mut Vec<Change<A>, A>) -> Result<(), AllocError>
        ensures ok { OnOk result (map plain_change list.new.items ≡ map plain_change list.old.items ++ self.old.changes) }
        ensures emptied { OnOk result (self.new.changes ≡ []) }
        ensures err { OnErr result ((list.new.items ≡ list.old.items) × (self.new ≡ self.old)) }
        ensures whole { IsWhole self.old }
    {
        straighten(&mut self.moves, &mut self.is_turned);
        list.append(&mut self.moves)
    }

    /// The same changes, the last in front.
    pub fn turn_over(&mut self)
        ensures changes { self.new.changes ≡ reverse self.old.changes }
        ensures whole { IsWhole self.new }
        ensures room { self.new.room + length self.old.moves ≡ self.old.room + length self.new.moves }
    {
        self.is_turned = !self.is_turned;
    }
}

/// Where the i-th of `count` changes stands in a list that may be kept the other way round.
pub fn place_of(is_turned: bool, i: usize, count: usize) -> usize
    requires { i < count }
    ensures place { result ≡ place_in is_turned i count }
    ensures within { result < count }
{
    if is_turned { count - 1 - i } else { i }
}

// Puts the changes into their own order. Only a record that was turned keeps them otherwise.
#[inline(always)]
fn straighten<A: Allocator>(moves: &mut Vec<Change<A>, A>, is_turned: &mut bool)
    ensures changes { map plain_change moves.new.items ≡ in_order is_turned.old (map plain_change moves.old.items) }
    ensures order { is_turned.new ≡ false }
    ensures room { vec_capacity moves.new ≡ vec_capacity moves.old }
    ensures count { length moves.new.items ≡ length moves.old.items }
{
    if *is_turned {
        moves.reverse();
        *is_turned = false;
    }
}
