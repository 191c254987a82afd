//! How a page move starts.
ghost use Rattle.std.specs.Prelude.{◌≡◌, ◌≤◌, [], length, None, Some, IfOk, IfErr, OnOk, OnErr};
ghost use Rattle.rev_model.specs.Actor.{owned_pages, schedule as schedule_of};
ghost use Rattle.rev_model.specs.Sound.{Sound, MoverSound};
ghost use Rattle.rev_model.specs.Move.{LeadsBack};
ghost use Rattle.rev_model.specs.declared.Outcome.TheVariants as outcome;
ghost use Rattle.rev_inverse.specs.Telling.{TellsAll};
ghost use Rattle.rev_mover.specs.Moving.{with_mover};

use rev_edits::moving::change;
use rev_inverse::{Change, Record, Store};
use rev_model::{Mover, Outcome};
use std::alloc::{AllocError, Allocator};

/// How many pages a class owns, counted over the page table.
fn pages_of<A: Allocator>(store: &Store<A>, class: usize) -> usize
    ensures { result ≡ owned_pages class store.now.owner }
{
    let mut pages = 0;
    for page in 0..store.made() {
        if store.owner(page) == class {
            pages += 1;
        }
    }
    pages
}

/// The move as it starts, or why it does not.
fn first_move<A: Allocator>(
    store: &Store<A>,
    source: usize,
    target: usize,
) -> Result<Mover, Outcome>
    requires { Sound store.now }
    ensures ok { IfOk result (λ mover. schedule_of store.now source target ≡ (with_mover (Some mover) store.now, outcome.Okay)) }
    ensures starts { IfOk result (λ mover. (store.now.globals.mover ≡ None) × (mover.slot ≡ 0) × MoverSound store.now.fixed store.now.owner (Some mover)) }
    ensures err { IfErr result (λ refusal. schedule_of store.now source target ≡ (store.now, refusal)) }
{
    if store.globals().mover.is_some() {
        return Err(Outcome::Busy);
    }
    if source == target {
        return Err(Outcome::Same);
    }
    let last = store.table().last();
    if source == 0 || source > last || target > last {
        return Err(Outcome::BadClass);
    }
    match store.lowest_page(source) {
        None => Err(Outcome::NoSpare),
        Some(page) => {
            if pages_of(store, source) < 2 {
                return Err(Outcome::NoSpare);
            }
            Ok(Mover {
                src: source as u8,
                dst: target as u8,
                page,
                slot: 0,
            })
        }
    }
}

/// Starts to move the lowest page of a class to another, or to the pool (class 0). The answer is the first of these
/// that holds: Busy, a move is under way; Same, source and target are one; BadClass, one is unknown, or the source is
/// the pool; NoSpare, the source owns fewer than two pages; else Okay. (protocol.txt, `slabs reassign`; which page
/// moves, and that the pool is no source, are this project's own.)
///
/// Err: a growth was refused, and the store is as it was.
pub fn schedule<A: Allocator + Clone>(
    store: &mut Store<A>,
    source: usize,
    target: usize,
) -> Result<(Outcome, Record<A>), AllocError>
    requires { Sound store.old }
    ensures step { IfOk result (λ p. (store.new, p.0) ≡ schedule_of store.old source target) }
    ensures sound { OnOk result (Sound store.new) }
    ensures leads { IfOk result (λ p. LeadsBack p.1.moves store.new store.old) }
    ensures few { IfOk result (λ p. length p.1.moves ≤ 64) }
    ensures err { OnErr result (store.new ≡ store.old) }
    ensures told { IfOk result (λ p. TellsAll p.1 store.new []) }
{
    match first_move(store, source, target) {
        Err(refusal) => {
            let undo = Record::with_room(store.alloc()?, 0)?;
            Ok((refusal, undo))
        }
        Ok(mover) => {
            let mut undo = Record::with_room(store.alloc()?, 1)?;
            change(store, Change::Mover(Some(mover)), &mut undo);
            Ok((Outcome::Okay, undo))
        }
    }
}
