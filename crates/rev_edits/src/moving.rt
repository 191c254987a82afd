//! One move, with what its record then tells.
ghost use Rattle.std.specs.Prelude.{◌≡◌, ◌+◌, ◌<◌, ◌++◌, ◌∷◌, [], length, None};
ghost use Rattle.rev_model.specs.State.{WellFormed};
ghost use Rattle.rev_model.specs.Move.{moved, Possible, reverse};
ghost use Rattle.rev_model.specs.Track.{removed};
ghost use Rattle.rev_inverse.specs.Leads.{Leads};
ghost use Rattle.rev_inverse.specs.Seen.{plain_move, IsSingle};
ghost use Rattle.rev_inverse.specs.Telling.{Tells};

use rev_inverse::{Change, Record, Store};
use std::alloc::Allocator;

/// Makes a single move, without a note.
#[inline(always)]
pub fn change<A: Allocator>(store: &mut Store<A>, next: Change<A>, undo: &mut Record<A>)
    requires single { IsSingle next }
    requires well { WellFormed store.old }
    requires possible { Possible (plain_move next) store.old }
    requires room { length undo.old.moves < undo.old.room }
    ensures state { store.new ≡ moved (plain_move next) store.old }
    ensures moves { undo.new.moves ≡ undo.old.moves ++ reverse (plain_move next) store.old ∷ [] }
    ensures notes { undo.new.notes ≡ undo.old.notes ++ None ∷ [] }
    ensures made { length undo.new.moves ≡ length undo.old.moves + 1 }
    ensures room { undo.new.room ≡ undo.old.room }
    ensures well { WellFormed store.new }
    ensures leads { Leads undo.old store.old undo.new store.new }
    ensures told { Tells undo.old store.old undo.new store.new (removed (plain_move next) None store.old) }
{
    store.make(next, undo);
}
