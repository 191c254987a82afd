//! Steps of one move at most, which exchanges the globals.
ghost use Rattle.std.specs.Prelude.{◌≡◌, ◌≤◌, length, IfOk, OnOk, OnErr, []};
ghost use Rattle.rev_model.specs.Move.{with_part, Sets, LeadsBack};
ghost use Rattle.rev_model.specs.Sound.{SettingsSound, Sound};
ghost use Rattle.rev_inverse.specs.Seen.{plain_move, IsSingle};
ghost use Rattle.rev_inverse.specs.Telling.{TellsAll};
ghost use Rattle.rev_steps.specs.Exchange.{exchanged};

use rev_edits::moving::change;
use rev_inverse::{Change, Record, Store};
use rev_model::{GlobalPart, Outcome};
use std::alloc::{AllocError, Allocator};

/// Nothing is done: the outcome, with a record that has no move.
///
/// Err: a growth was refused.
pub fn unchanged<A: Allocator + Clone>(
    store: &Store<A>,
    outcome: Outcome,
) -> Result<(Outcome, Record<A>), AllocError>
    ensures outcome { IfOk result (λ p. p.0 ≡ outcome) }
    ensures leads { IfOk result (λ p. LeadsBack p.1.moves store.now store.now) }
    ensures none { IfOk result (λ p. p.1.moves ≡ []) }
    ensures told { IfOk result (λ p. TellsAll p.1 store.now []) }
{
    Ok((outcome, Record::with_room(store.alloc()?, 0)?))
}

/// The move that exchanges a part of the globals.
fn exchanging<A: Allocator>(next: GlobalPart) -> Change<A>
    ensures played { plain_move result ≡ Sets next }
    ensures single { IsSingle result }
{
    match next {
        GlobalPart::LastCas(cas) => Change::LastCas(cas),
        GlobalPart::Timing(timing) => Change::Timing(timing),
        GlobalPart::Mover(mover) => Change::Mover(mover),
        GlobalPart::Settings(settings) => Change::Settings(settings),
    }
}

/// A part of the globals, other than the mover's, becomes this one, in one move.
///
/// Err: a growth was refused, and the store is as it was.
pub fn exchange<A: Allocator + Clone>(
    store: &mut Store<A>,
    next: GlobalPart,
) -> Result<(Outcome, Record<A>), AllocError>
    requires sound { Sound store.old }
    requires mover { (with_part next store.old.globals).mover ≡ store.old.globals.mover }
    requires settings { SettingsSound (with_part next store.old.globals).settings }
    ensures step { IfOk result (λ p. (store.new, p.0) ≡ exchanged next store.old) }
    ensures sound { OnOk result (Sound store.new) }
    ensures leads { IfOk result (λ p. LeadsBack p.1.moves store.new store.old) }
    ensures few { IfOk result (λ p. length p.1.moves ≤ 64) }
    ensures err { OnErr result (store.new ≡ store.old) }
    ensures told { IfOk result (λ p. TellsAll p.1 store.new []) }
{
    let mut undo = Record::with_room(store.alloc()?, 1)?;
    change(store, exchanging(next), &mut undo);
    Ok((Outcome::Okay, undo))
}
