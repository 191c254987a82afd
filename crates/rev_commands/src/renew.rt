//! What is done with a chunk that a step holds.
ghost use Rattle.std.specs.Prelude.{◌≡◌, ℕ, ◌+◌, ◌<◌, ◌≤◌, length, List, [], Option, None, Some};
ghost use Rattle.rev_items.specs.Plain.{PlainItem};
ghost use Rattle.rev_items.specs.Rules.{footprint_of};
ghost use Rattle.rev_model.specs.State.{State, IsChunkOf, find, IsClass};
ghost use Rattle.rev_model.specs.Words.{linked, freed, class_of};
ghost use Rattle.rev_model.specs.Client.{removed};
ghost use Rattle.rev_model.specs.Sound.{Sound, SoundBut};
ghost use Rattle.rev_model.specs.Causes.{found_removals};
ghost use Rattle.rev_model.specs.declared.ChunkRef.{ChunkRef as ChunkRefOf};
ghost use Rattle.rev_inverse.specs.Leads.{Leads};
ghost use Rattle.rev_inverse.specs.Telling.{Tells};
ghost use Rattle.rev_commands.specs.Looking.{found_need};
ghost use Rattle.rev_commands.specs.Finding.{held};

use crate::look::remove;
use rev_edits::enter::link;
use rev_edits::leave::free;
use rev_inverse::{Record, Store};
use rev_items::Item;
use rev_model::ChunkRef;
use std::alloc::Allocator;

/// The item that a lookup found leaves without a cause, since its key is stored again: four moves, or none where it
/// found none.
fn make_way<A: Allocator>(store: &mut Store<A>, old: Option<ChunkRef>, undo: &mut Record<A>)
    requires sound { (h : Option ChunkRefOf) × SoundBut h store.old }
    requires old { (k : List ℕ) × (find store.old k ≡ old) }
    requires room { length undo.old.moves + found_need old ≤ undo.old.room }
    ensures state { store.new ≡ removed (held store.old old) store.old }
    ensures sound { (h : Option ChunkRefOf) → SoundBut h store.old → SoundBut h store.new }
    ensures leads { Leads undo.old store.old undo.new store.new }
    ensures room { undo.new.room ≡ undo.old.room }
    ensures made { length undo.new.moves ≡ length undo.old.moves + found_need old }
    ensures told { Tells undo.old store.old undo.new store.new (found_removals None (held store.old old)) }
{
    if let Some(chunk) = old {
        remove(store, chunk, None, undo);
    }
}

/// The new item enters the chunk that the step holds, after the item that the lookup of its key found, if there is one,
/// left without a cause: four moves, and four for the old item.
pub fn renew<A: Allocator>(
    store: &mut Store<A>,
    class: usize,
    chunk: ChunkRef,
    old: Option<ChunkRef>,
    item: Item<A>,
    undo: &mut Record<A>,
)
    requires sound { SoundBut (Some chunk) store.old }
    requires class { IsClass store.old.fixed class }
    requires chunk { IsChunkOf store.old.fixed store.old.owner class chunk }
    requires old { find store.old item.key ≡ old }
    requires fits { class_of store.old.fixed (footprint_of item) ≡ Some class }
    requires room { length undo.old.moves + found_need old + 4 ≤ undo.old.room }
    ensures state { store.new ≡ linked class chunk item (removed (held store.old old) store.old) }
    ensures sound { Sound store.new }
    ensures leads { Leads undo.old store.old undo.new store.new }
    ensures room { undo.new.room ≡ undo.old.room }
    ensures made { length undo.new.moves ≡ length undo.old.moves + found_need old + 4 }
    ensures told { Tells undo.old store.old undo.new store.new (found_removals None (held store.old old)) }
{
    make_way(store, old, undo);
    link(store, class, chunk, item, undo);
}

/// The chunk that the step holds goes back to the front of its class's free list: one move.
pub fn give_back<A: Allocator>(
    store: &mut Store<A>,
    class: usize,
    chunk: ChunkRef,
    undo: &mut Record<A>,
)
    requires sound { SoundBut (Some chunk) store.old }
    requires class { IsClass store.old.fixed class }
    requires chunk { IsChunkOf store.old.fixed store.old.owner class chunk }
    requires room { length undo.old.moves < undo.old.room }
    ensures state { store.new ≡ freed class chunk store.old }
    ensures sound { Sound store.new }
    ensures leads { Leads undo.old store.old undo.new store.new }
    ensures room { undo.new.room ≡ undo.old.room }
    ensures made { length undo.new.moves ≡ length undo.old.moves + 1 }
    ensures told { Tells undo.old store.old undo.new store.new [] }
{
    free(store, class, chunk, undo);
}
