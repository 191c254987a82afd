//! A new item is stored in the chunk that room gives.
ghost use Rattle.std.specs.Prelude.{◌≡◌, ℕ, ◌+◌, ◌≤◌, ◌++◌, length, List, [], Option, Some};
ghost use Rattle.rev_items.specs.Plain.{PlainItem};
ghost use Rattle.rev_items.specs.Rules.{footprint_of};
ghost use Rattle.rev_model.specs.State.{State, IsChunkOf, free_of, find, IsClass};
ghost use Rattle.rev_model.specs.Words.{class_of};
ghost use Rattle.rev_model.specs.Client.{lookup as lookup_of, refusal as refusal_of};
ghost use Rattle.rev_model.specs.Sound.{Sound, SoundBut};
ghost use Rattle.rev_model.specs.Causes.{look_removals, settled_removals, store_in_removals};
ghost use Rattle.rev_inverse.specs.Leads.{Leads};
ghost use Rattle.rev_inverse.specs.Telling.{Tells};
ghost use Rattle.rev_edits.specs.Paging.{IsPlan};
ghost use Rattle.rev_maintainer.specs.Rooming.{room_need};
ghost use Rattle.rev_requests.specs.Plain.{plain_verb};
ghost use Rattle.rev_commands.specs.Looking.{removal_need};
ghost use Rattle.rev_commands.specs.Finding.{standing};
ghost use Rattle.rev_commands.specs.Placing.{settled_item, placed_in};

use crate::look::lookup_at;
use crate::renew::{give_back, renew};
use crate::verbs::{give_up, refusal};
use rev_edits::page::NewPage;
use rev_inverse::{Record, Store};
use rev_items::Item;
use rev_maintainer::room::room;
use rev_model::{ChunkRef, Outcome};
use rev_requests::StoreVerb;
use std::alloc::Allocator;

/// The new item is stored in the chunk that the step holds, where the verb allows it by what a lookup of its key finds;
/// else the chunk goes back: at most eight moves. The key led to `found` before room was made, by which that item may
/// have left.
fn settle<A: Allocator>(
    store: &mut Store<A>,
    verb: StoreVerb,
    class: usize,
    chunk: ChunkRef,
    found: Option<ChunkRef>,
    item: Item<A>,
    undo: &mut Record<A>,
) -> Outcome
    requires sound { SoundBut (Some chunk) store.old }
    requires led { find store.old item.key ≡ standing store.old found }
    requires class { IsClass store.old.fixed class }
    requires chunk { IsChunkOf store.old.fixed store.old.owner class chunk }
    requires fits { class_of store.old.fixed (footprint_of item) ≡ Some class }
    requires room { length undo.old.moves + removal_need store.old item.key + 4 ≤ undo.old.room }
    ensures done { (store.new, result) ≡ settled_item (plain_verb verb) class chunk item (lookup_of store.old item.key) }
    ensures sound { Sound store.new }
    ensures leads { Leads undo.old store.old undo.new store.new }
    ensures room { undo.new.room ≡ undo.old.room }
    ensures made { length undo.new.moves ≤ length undo.old.moves + removal_need store.old item.key + 4 }
    ensures told { Tells undo.old store.old undo.new store.new (look_removals store.old item.key ++ settled_removals (lookup_of store.old item.key).1 (refusal_of (plain_verb verb) (lookup_of store.old item.key).1)) }
{
    let old = lookup_at(store, item.key(), found, undo);
    match refusal(store, verb, old) {
        Some(outcome) => {
            give_back(store, class, chunk, undo);
            outcome
        }
        None => {
            renew(store, class, chunk, old, item, undo);
            Outcome::Stored
        }
    }
}

/// A chunk is had for the new item, and the item stored there, where the verb allows it by what a lookup of its key
/// then finds (protocol.txt): at most 50 moves. `page` is the one that `plan_room` planned, and `found` the chunk that
/// the key leads to before. NoChunk: no chunk was had, and a set takes the old item out.
pub fn place<A: Allocator>(
    store: &mut Store<A>,
    verb: StoreVerb,
    class: usize,
    page: Option<NewPage<A>>,
    found: Option<ChunkRef>,
    item: Item<A>,
    undo: &mut Record<A>,
) -> Outcome
    requires sound { Sound store.old }
    requires led { found ≡ find store.old item.key }
    requires class { IsClass store.old.fixed class }
    requires plan { free_of store.old class ≡ [] → IsPlan store.old class page }
    requires fits { class_of store.old.fixed (footprint_of item) ≡ Some class }
    requires room { length undo.old.moves + room_need 10 store.old class + removal_need store.old item.key + 4 ≤ undo.old.room }
    ensures done { (store.new, result) ≡ placed_in store.old (plain_verb verb) class item }
    ensures sound { Sound store.new }
    ensures leads { Leads undo.old store.old undo.new store.new }
    ensures room { undo.new.room ≡ undo.old.room }
    ensures made { length undo.new.moves ≤ length undo.old.moves + room_need 10 store.old class + removal_need store.old item.key + 4 }
    ensures told { Tells undo.old store.old undo.new store.new (store_in_removals store.old (plain_verb verb) class item.key) }
{
    match room(store, class, page, undo) {
        None => {
            give_up(store, verb, item.key(), undo);
            Outcome::NoChunk
        }
        Some(chunk) => settle(store, verb, class, chunk, found, item, undo),
    }
}
