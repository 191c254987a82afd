//! A crawl is started.
ghost use Rattle.std.specs.Prelude.{◌≡◌, ◌≤◌, length, IfOk, OnOk, OnErr, []};
ghost use Rattle.rev_model.specs.Actor.{crawl_start};
ghost use Rattle.rev_model.specs.Sound.{Sound};
ghost use Rattle.rev_model.specs.Move.{LeadsBack};
ghost use Rattle.rev_inverse.specs.Telling.{TellsAll};

use crate::reads::{is_busy, names_other, unchanged};
use rev_edits::moving::change;
use rev_inverse::{Change, Record, Store};
use rev_model::{ClassSet, Outcome};
use std::alloc::{AllocError, Allocator};

/// A mark enters each of the four queues of each class that the set names, at the tail, empty queues too (protocol.txt,
/// `lru_crawler crawl`): Okay, and so for the empty set. BadClass where the set names a number that is no class of the
/// store, else Busy where a named class has a mark in any queue, and then no mark enters; the two refusals and marks in
/// empty queues are this project's own.
///
/// Err: a growth was refused, and the store is as it was.
pub fn start<A: Allocator + Clone>(
    store: &mut Store<A>,
    set: ClassSet,
) -> Result<(Outcome, Record<A>), AllocError>
    requires { Sound store.old }
    ensures step { IfOk result (λ p. (store.new, p.0) ≡ crawl_start store.old set) }
    ensures sound { OnOk result (Sound store.new) }
    ensures leads { IfOk result (λ p. LeadsBack p.1.moves store.new store.old) }
    ensures few { IfOk result (λ p. length p.1.moves ≤ 64) }
    ensures err { OnErr result (store.new ≡ store.old) }
    ensures told { IfOk result (λ p. TellsAll p.1 store.new []) }
{
    if names_other(store, set) {
        return unchanged(store, Outcome::BadClass);
    }
    if is_busy(store, set) {
        return unchanged(store, Outcome::Busy);
    }
    let mut undo = Record::with_room(store.alloc()?, 1)?;
    change(store, Change::Marks(set), &mut undo);
    Ok((Outcome::Okay, undo))
}
