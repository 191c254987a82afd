//! How a page move ends.
ghost use Rattle.std.specs.Prelude.{◌≡◌, ℕ, ◌+◌, ◌<◌, ◌≤◌, [], length, Option, None, Some, IfOk, OnOk, OnErr};
ghost use Rattle.rev_model.specs.State.{State, per_page};
ghost use Rattle.rev_model.specs.Actor.{handed};
ghost use Rattle.rev_model.specs.Sound.{Sound};
ghost use Rattle.rev_model.specs.Move.{LeadsBack};
ghost use Rattle.rev_inverse.specs.Leads.{Leads};
ghost use Rattle.rev_inverse.specs.Telling.{Tells, TellsAll};
ghost use Rattle.rev_mover.specs.Moving.{pooled, finished, IsDone};
ghost use Rattle.rev_mover.specs.Parting.{AreParts, parts_moves};

use rev_edits::moving::change;
use rev_inverse::{Change, Parts, Record, Shelf, Store};
use rev_model::{Form, Mover, Outcome};
use std::alloc::{AllocError, Allocator};

/// The move is over, and its page in the pool, what is left of it on the shelf: two moves.
fn release<A: Allocator>(store: &mut Store<A>, mover: Mover, shelf: Shelf<A>, undo: &mut Record<A>)
    requires sound { Sound store.old }
    requires done { IsDone store.old mover }
    requires room { length undo.old.moves + 2 ≤ undo.old.room }
    ensures state { store.new ≡ pooled mover store.old }
    ensures sound { Sound store.new }
    ensures leads { Leads undo.old store.old undo.new store.new }
    ensures room { undo.new.room ≡ undo.old.room }
    ensures made { length undo.new.moves ≡ length undo.old.moves + 2 }
    ensures told { Tells undo.old store.old undo.new store.new [] }
{
    change(
        store,
        Change::Lift(mover.page, Form::Withdrawn, shelf),
        undo,
    );
    change(store, Change::Mover(None), undo);
}

/// The slots for a page of the class; none where it goes to the pool.
///
/// Err: a growth was refused.
fn parts_for<A: Allocator + Clone>(
    store: &Store<A>,
    class: usize,
) -> Result<Option<Parts<A>>, AllocError>
    requires { class ≤ length store.now.fixed.sizes }
    ensures { IfOk result (λ parts. AreParts store.now class parts) }
{
    if class == 0 {
        return Ok(None);
    }
    Ok(Some(store.parts(class)?))
}

/// How many moves it takes to give the page away.
fn page_moves<A: Allocator>(parts: &Option<Parts<A>>) -> usize
    ensures moves { result ≡ parts_moves parts.now }
    ensures within { result ≤ 3 }
{
    match parts {
        None => 2,
        Some(_) => 3,
    }
}

/// The page of a move whose slots are done goes to the class that asked for it, whose free chunks its slots then are,
/// or to the pool: two moves, or three.
fn hand_over<A: Allocator>(
    store: &mut Store<A>,
    mover: Mover,
    shelf: Shelf<A>,
    parts: Option<Parts<A>>,
    undo: &mut Record<A>,
)
    requires sound { Sound store.old }
    requires done { IsDone store.old mover }
    requires parts { AreParts store.old mover.dst parts }
    requires room { length undo.old.moves + parts_moves parts ≤ undo.old.room }
    ensures state { store.new ≡ handed mover store.old }
    ensures sound { Sound store.new }
    ensures leads { Leads undo.old store.old undo.new store.new }
    ensures room { undo.new.room ≡ undo.old.room }
    ensures made { length undo.new.moves ≡ length undo.old.moves + parts_moves parts }
    ensures told { Tells undo.old store.old undo.new store.new [] }
{
    release(store, mover, shelf, undo);
    match parts {
        None => {}
        Some(parts) => {
            let class = usize::from(mover.dst);
            change(
                store,
                Change::Lay(mover.page, class, parts, Form::Pool),
                undo,
            );
        }
    }
}

/// Ends a move whose slots are done. The memory of the page in its new class is taken before the first change.
///
/// Err: a growth was refused, and the store is as it was.
pub fn finish<A: Allocator + Clone>(
    store: &mut Store<A>,
    mover: Mover,
) -> Result<(Outcome, Record<A>), AllocError>
    requires sound { Sound store.old }
    requires done { IsDone store.old mover }
    ensures step { IfOk result (λ p. (store.new, p.0) ≡ finished mover store.old) }
    ensures sound { OnOk result (Sound store.new) }
    ensures leads { IfOk result (λ p. LeadsBack p.1.moves store.new store.old) }
    ensures few { IfOk result (λ p. length p.1.moves ≤ 64) }
    ensures err { OnErr result (store.new ≡ store.old) }
    ensures told { IfOk result (λ p. TellsAll p.1 store.new []) }
{
    let shelf = store.shelf()?;
    let parts = parts_for(store, usize::from(mover.dst))?;
    let mut undo = Record::with_room(store.alloc()?, page_moves(&parts))?;
    hand_over(store, mover, shelf, parts, &mut undo);
    Ok((Outcome::Finished, undo))
}
