//! The command delete.
ghost use Rattle.std.specs.Prelude.{◌≡◌, ◌+◌, ◌≤◌, length, Some, IfOk, OnOk, OnErr};
ghost use Rattle.rev_model.specs.State.{find};
ghost use Rattle.rev_model.specs.Client.{delete as delete_of};
ghost use Rattle.rev_model.specs.Sound.{Sound};
ghost use Rattle.rev_model.specs.Move.{LeadsBack};
ghost use Rattle.rev_inverse.specs.Leads.{Leads};
ghost use Rattle.rev_model.specs.declared.Cause.TheVariants as causes;
ghost use Rattle.rev_inverse.specs.Telling.{Tells, TellsAll};
ghost use Rattle.rev_model.specs.Causes.{clear_removals};
ghost use Rattle.rev_commands.specs.Looking.{removal_need};

use crate::look::{lookup_at, removal_moves_at, remove};
use rev_inverse::{Record, Store};
use rev_items::Key;
use rev_model::{Cause, ChunkRef, Outcome};
use std::alloc::{AllocError, Allocator};

/// The key's item leaves: four moves, or none.
fn delete_found<A: Allocator>(
    store: &mut Store<A>,
    key: &Key<A>,
    found: Option<ChunkRef>,
    undo: &mut Record<A>,
) -> Outcome
    requires sound { Sound store.old }
    requires led { found ≡ find store.old key.now }
    requires room { length undo.old.moves + removal_need store.old key.now ≤ undo.old.room }
    ensures done { (store.new, result) ≡ delete_of store.old key.now }
    ensures sound { Sound store.new }
    ensures leads { Leads undo.old store.old undo.new store.new }
    ensures room { undo.new.room ≡ undo.old.room }
    ensures made { length undo.new.moves ≤ length undo.old.moves + removal_need store.old key.now }
    ensures told { Tells undo.old store.old undo.new store.new (clear_removals (Some causes.Deleted) store.old key.now) }
{
    match lookup_at(store, key, found, undo) {
        None => Outcome::NotFound,
        Some(chunk) => {
            remove(store, chunk, Some(Cause::Deleted), undo);
            Outcome::Deleted
        }
    }
}

/// Deletes the key's item, if it is alive (protocol.txt). A dead one is removed, and the answer is NotFound.
///
/// Err: a growth was refused, and the store is as it was.
pub fn delete<A: Allocator + Clone>(
    store: &mut Store<A>,
    key: &Key<A>,
) -> Result<(Outcome, Record<A>), AllocError>
    requires { Sound store.old }
    ensures step { IfOk result (λ p. (store.new, p.0) ≡ delete_of store.old key.now) }
    ensures sound { OnOk result (Sound store.new) }
    ensures leads { IfOk result (λ p. LeadsBack p.1.moves store.new store.old) }
    ensures few { IfOk result (λ p. length p.1.moves ≤ 64) }
    ensures err { OnErr result (store.new ≡ store.old) }
    ensures told { IfOk result (λ p. TellsAll p.1 store.new (clear_removals (Some causes.Deleted) store.old key.now)) }
{
    let found = store.find(key);
    let mut undo = Record::with_room(store.alloc()?, removal_moves_at(found))?;
    let outcome = delete_found(store, key, found, &mut undo);
    Ok((outcome, undo))
}
