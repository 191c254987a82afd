//! The command get.
ghost use Rattle.std.specs.Prelude.{◌≡◌, ◌+◌, ◌≤◌, length, Some, IfOk, OnOk, OnErr};
ghost use Rattle.rev_items.specs.Plain.{PlainItem};
ghost use Rattle.rev_model.specs.State.{item_at, find};
ghost use Rattle.rev_model.specs.Client.{get as get_of};
ghost use Rattle.rev_model.specs.Sound.{Sound};
ghost use Rattle.rev_model.specs.Move.{LeadsBack};
ghost use Rattle.rev_model.specs.Causes.{look_removals};
ghost use Rattle.rev_model.specs.declared.Outcome.TheVariants as outcome;
ghost use Rattle.rev_inverse.specs.Leads.{Leads};
ghost use Rattle.rev_inverse.specs.Telling.{Tells, TellsAll};
ghost use Rattle.rev_commands.specs.Hitting.{access_need};

use crate::hit::{access_moves, hit};
use crate::look::lookup_at;
use rev_inverse::{Record, Store};
use rev_items::Key;
use rev_model::{ChunkRef, Outcome};
use std::alloc::{AllocError, Allocator};

/// What a hit of the chunk's item answers.
fn answer<A: Allocator>(store: &Store<A>, chunk: ChunkRef) -> Outcome
    requires sound { Sound store.now }
    ensures { (i : PlainItem) → item_at store.now chunk ≡ Some i → result ≡ outcome.Hit (length i.value) i.cas }
{
    match store.content(chunk) {
        None => Outcome::Miss,
        Some(item) => Outcome::Hit {
            len: item.data_length(),
            cas: item.cas(),
        },
    }
}

/// The key's item is read: at most four moves.
fn get_in<A: Allocator>(
    store: &mut Store<A>,
    key: &Key<A>,
    found: Option<ChunkRef>,
    undo: &mut Record<A>,
) -> Outcome
    requires sound { Sound store.old }
    requires led { found ≡ find store.old key.now }
    requires room { length undo.old.moves + access_need 0 store.old key.now ≤ undo.old.room }
    ensures done { (store.new, result) ≡ get_of store.old key.now }
    ensures sound { Sound store.new }
    ensures leads { Leads undo.old store.old undo.new store.new }
    ensures room { undo.new.room ≡ undo.old.room }
    ensures made { length undo.new.moves ≤ length undo.old.moves + access_need 0 store.old key.now }
    ensures told { Tells undo.old store.old undo.new store.new (look_removals store.old key.now) }
{
    match lookup_at(store, key, found, undo) {
        None => Outcome::Miss,
        Some(chunk) => {
            let outcome = answer(store, chunk);
            if let Some(item) = store.header(chunk) {
                hit(store, chunk, item, undo);
            }
            outcome
        }
    }
}

/// Reads the key's item, if it is alive, which is a hit of it (protocol.txt, new_lru.txt). A dead one is removed, and
/// the answer is Miss.
///
/// Err: a growth was refused, and the store is as it was.
pub fn get<A: Allocator + Clone>(
    store: &mut Store<A>,
    key: &Key<A>,
) -> Result<(Outcome, Record<A>), AllocError>
    requires { Sound store.old }
    ensures step { IfOk result (λ p. (store.new, p.0) ≡ get_of store.old key.now) }
    ensures sound { OnOk result (Sound store.new) }
    ensures leads { IfOk result (λ p. LeadsBack p.1.moves store.new store.old) }
    ensures few { IfOk result (λ p. length p.1.moves ≤ 64) }
    ensures err { OnErr result (store.new ≡ store.old) }
    ensures told { IfOk result (λ p. TellsAll p.1 store.new (look_removals store.old key.now)) }
{
    let found = store.find(key);
    let mut undo = Record::with_room(store.alloc()?, access_moves(store, found, 0))?;
    let outcome = get_in(store, key, found, &mut undo);
    Ok((outcome, undo))
}
