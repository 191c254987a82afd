//! What sets the four storage commands apart (protocol.txt).
ghost use Rattle.std.specs.Prelude.{◌≡◌, ℕ, ◌+◌, ◌≤◌, length, List, Option, Some};
ghost use Rattle.rev_model.specs.State.{State, WellFormed, find};
ghost use Rattle.rev_model.specs.Client.{refusal as refusal_of, failed};
ghost use Rattle.rev_model.specs.Sound.{Sound};
ghost use Rattle.rev_model.specs.Causes.{failed_removals};
ghost use Rattle.rev_model.specs.declared.Outcome.{Outcome as OutcomeOf};
ghost use Rattle.rev_inverse.specs.Leads.{Leads};
ghost use Rattle.rev_inverse.specs.Telling.{Tells};
ghost use Rattle.rev_requests.specs.Plain.{plain_verb};
ghost use Rattle.rev_commands.specs.Finding.{held};
ghost use Rattle.rev_commands.specs.Placing.{failed_need};

use crate::look::{clear, removal_moves};
use rev_inverse::{Record, Store};
use rev_items::Key;
use rev_model::{Cause, ChunkRef, Outcome};
use rev_requests::StoreVerb;
use std::alloc::Allocator;

/// Why a cas stores nothing: no item was found, or it has another cas number.
fn cas_refusal<A: Allocator>(
    store: &Store<A>,
    unique: u64,
    old: Option<ChunkRef>,
) -> Option<Outcome>
    requires well { WellFormed store.now }
    requires old { (k : List ℕ) × (find store.now k ≡ old) }
    ensures { result ≡ refusal_of (plain_verb (StoreVerb.Cas unique)) (held store.now old) }
{
    let found = old.and_then(|chunk| store.header(chunk));
    match found {
        None => Some(Outcome::NotFound),
        Some(item) => {
            if item.cas == unique {
                None
            } else {
                Some(Outcome::Exists)
            }
        }
    }
}

/// Why nothing is stored, by what the lookup found (protocol.txt): add wants no item, replace wants one, and cas one of
/// this cas number.
pub fn refusal<A: Allocator>(
    store: &Store<A>,
    verb: StoreVerb,
    old: Option<ChunkRef>,
) -> Option<Outcome>
    requires well { WellFormed store.now }
    requires old { (k : List ℕ) × (find store.now k ≡ old) }
    ensures { result ≡ refusal_of (plain_verb verb) (held store.now old) }
{
    match verb {
        StoreVerb::Set => None,
        StoreVerb::Add => old.map(|_| Outcome::NotStored),
        StoreVerb::Replace => match old {
            None => Some(Outcome::NotStored),
            Some(_) => None,
        },
        StoreVerb::Cas(unique) => cas_refusal(store, unique, old),
    }
}

/// How many moves it takes where no class or no chunk is had for the new item: a set takes the old item out.
pub fn failed_moves<A: Allocator>(store: &Store<A>, verb: StoreVerb, key: &Key<A>) -> usize
    ensures { result ≡ failed_need (plain_verb verb) store.now key.now }
{
    match verb {
        StoreVerb::Set => removal_moves(store, key),
        StoreVerb::Add | StoreVerb::Replace | StoreVerb::Cas(_) => 0,
    }
}

/// No class or no chunk is had for the new item: a set takes the old item out all the same (memcached's rule), and the
/// other commands leave it.
pub fn give_up<A: Allocator>(
    store: &mut Store<A>,
    verb: StoreVerb,
    key: &Key<A>,
    undo: &mut Record<A>,
)
    requires sound { Sound store.old }
    requires room { length undo.old.moves + failed_need (plain_verb verb) store.old key.now ≤ undo.old.room }
    ensures done { (o : OutcomeOf) → (store.new, o) ≡ failed (plain_verb verb) key.now o store.old }
    ensures sound { Sound store.new }
    ensures leads { Leads undo.old store.old undo.new store.new }
    ensures room { undo.new.room ≡ undo.old.room }
    ensures made { length undo.new.moves ≤ length undo.old.moves + failed_need (plain_verb verb) store.old key.now }
    ensures told { Tells undo.old store.old undo.new store.new (failed_removals (plain_verb verb) store.old key.now) }
{
    match verb {
        StoreVerb::Set => clear(store, key, Some(Cause::DroppedByFailedSet), undo),
        StoreVerb::Add | StoreVerb::Replace | StoreVerb::Cas(_) => {}
    }
}
