//! The commands set, add, replace and cas.
ghost use Rattle.std.specs.Prelude.{◌≡◌, ◌≤◌, length, Some, IfOk, OnOk, OnErr};
ghost use Rattle.rev_items.specs.Rules.{footprint, moment as moment_of};
ghost use Rattle.rev_model.specs.Words.{class_of, new_item as new_item_of};
ghost use Rattle.rev_model.specs.Client.{store as store_of, failed};
ghost use Rattle.rev_model.specs.Sound.{Sound};
ghost use Rattle.rev_model.specs.State.{IsClass};
ghost use Rattle.rev_model.specs.Move.{LeadsBack};
ghost use Rattle.rev_model.specs.Causes.{failed_removals, store_in_removals, store_removals};
ghost use Rattle.rev_model.specs.declared.Outcome.TheVariants as outcome;
ghost use Rattle.rev_inverse.specs.Telling.{TellsAll};
ghost use Rattle.rev_requests.specs.Plain.{plain_verb, plain_payload};
ghost use Rattle.rev_commands.specs.Placing.{stored_in};

use crate::fresh::{class_for, new_item};
use crate::look::REMOVAL_MOVES;
use crate::place::place;
use crate::verbs::{failed_moves, give_up};
use rev_inverse::{Record, Store};
use rev_items::{Data, Item, Key, moment};
use rev_maintainer::room::plan_room;
use rev_model::Outcome;
use rev_requests::{Payload, StoreVerb};
use std::alloc::{AllocError, Allocator};

/// The new item of a command, whose time to live counts from now.
///
/// Err: a growth was refused.
fn item_for<A: Allocator + Clone>(
    store: &Store<A>,
    key: &Key<A>,
    flags: u32,
    exptime: i32,
    value: &Data<A>,
) -> Result<Item<A>, AllocError>
    requires { length value.now ≤ 1048576 }
    ensures { IfOk result (λ item. item ≡ new_item_of store.now key.now value.now flags (moment_of store.now.globals.clock exptime)) }
{
    let value = value.share()?;
    let expires = moment(store.globals().clock, exptime);
    new_item(store, key, flags, expires, value)
}

/// The command for an item that lies in the class. All memory is taken before the first change.
fn store_in<A: Allocator + Clone>(
    store: &mut Store<A>,
    verb: StoreVerb,
    class: usize,
    key: &Key<A>,
    flags: u32,
    exptime: i32,
    value: &Data<A>,
) -> Result<(Outcome, Record<A>), AllocError>
    requires sound { Sound store.old }
    requires class { IsClass store.old.fixed class }
    requires fits { class_of store.old.fixed (footprint (length key.now) flags (length value.now)) ≡ Some class }
    requires small { length value.now ≤ 1048576 }
    ensures step { IfOk result (λ p. (store.new, p.0) ≡ stored_in store.old (plain_verb verb) class key.now value.now flags exptime) }
    ensures sound { OnOk result (Sound store.new) }
    ensures leads { IfOk result (λ p. LeadsBack p.1.moves store.new store.old) }
    ensures few { IfOk result (λ p. length p.1.moves ≤ 64) }
    ensures err { OnErr result (store.new ≡ store.old) }
    ensures told { IfOk result (λ p. TellsAll p.1 store.new (store_in_removals store.old (plain_verb verb) class key.now)) }
{
    let plan = plan_room(store, class)?;
    let moves = plan.moves + REMOVAL_MOVES + 4;
    let item = item_for(store, key, flags, exptime, value)?;
    // the record comes last: it is soon given back, and then lies at the end of the heap
    let mut undo = Record::with_room(store.alloc()?, moves)?;
    let found = store.find(key);
    let outcome = place(store, verb, class, plan.page, found, item, &mut undo);
    Ok((outcome, undo))
}

/// The command for an item that lies in no class: a set takes the old item out.
fn refuse<A: Allocator + Clone>(
    store: &mut Store<A>,
    verb: StoreVerb,
    key: &Key<A>,
) -> Result<(Outcome, Record<A>), AllocError>
    requires { Sound store.old }
    ensures step { IfOk result (λ p. (store.new, p.0) ≡ failed (plain_verb verb) key.now outcome.TooLarge store.old) }
    ensures sound { OnOk result (Sound store.new) }
    ensures leads { IfOk result (λ p. LeadsBack p.1.moves store.new store.old) }
    ensures few { IfOk result (λ p. length p.1.moves ≤ 64) }
    ensures err { OnErr result (store.new ≡ store.old) }
    ensures told { IfOk result (λ p. TellsAll p.1 store.new (failed_removals (plain_verb verb) store.old key.now)) }
{
    let mut undo = Record::with_room(store.alloc()?, failed_moves(store, verb, key))?;
    give_up(store, verb, key, &mut undo);
    Ok((Outcome::TooLarge, undo))
}

/// A storage command (protocol.txt): set stores the item, add where the key has none, replace where it has one, cas
/// where it has one of this cas number. A dead item is removed, and is none. Where no class holds the new item
/// (TooLarge), or no chunk is had for it (NoChunk), a set takes the old item out all the same (memcached's rule).
///
/// Err: a growth was refused, and the store is as it was.
pub fn store_item<A: Allocator + Clone>(
    store: &mut Store<A>,
    verb: StoreVerb,
    key: &Key<A>,
    flags: u32,
    exptime: i32,
    payload: &Payload<A>,
) -> Result<(Outcome, Record<A>), AllocError>
    requires { Sound store.old }
    ensures step { IfOk result (λ p. (store.new, p.0) ≡ store_of store.old (plain_verb verb) key.now flags exptime (plain_payload payload.now)) }
    ensures sound { OnOk result (Sound store.new) }
    ensures leads { IfOk result (λ p. LeadsBack p.1.moves store.new store.old) }
    ensures few { IfOk result (λ p. length p.1.moves ≤ 64) }
    ensures err { OnErr result (store.new ≡ store.old) }
    ensures told { IfOk result (λ p. TellsAll p.1 store.new (store_removals store.old (plain_verb verb) key.now flags (plain_payload payload.now))) }
{
    match payload {
        Payload::Skipped(_) => refuse(store, verb, key),
        Payload::Bytes(value) => match class_for(store, key, flags, value.len()) {
            None => refuse(store, verb, key),
            Some(class) => store_in(store, verb, class, key, flags, exptime, value),
        },
    }
}
