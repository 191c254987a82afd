//! Lookups, and what leaves by them.
ghost use Rattle.std.specs.Prelude.{◌≡◌, ℕ, ◌+◌, ◌<◌, ◌≤◌, length, Option, None, Some, true, false, List, []};
ghost use Rattle.std.specs.Option.{option_map};
ghost use Rattle.rev_items.specs.Plain.{PlainItem};
ghost use Rattle.rev_model.specs.State.{State, WellFormed, item_at, find, owner_of};
ghost use Rattle.rev_model.specs.Words.{queue_with, dropped};
ghost use Rattle.rev_model.specs.Client.{lookup, looked_item, removed};
ghost use Rattle.rev_model.specs.Sound.{SoundBut, Stands};
ghost use Rattle.rev_inverse.specs.Leads.{Leads};
ghost use Rattle.rev_model.specs.Track.{removal};
ghost use Rattle.rev_inverse.specs.Telling.{Tells};
ghost use Rattle.rev_model.specs.Causes.{dead_removals, look_removals, clear_removals};
ghost use Rattle.rev_commands.specs.Looking.{dead_need, look_need, found_need, removal_need};
ghost use Rattle.rev_commands.specs.Finding.{standing};

use rev_edits::leave::drop_item;
use rev_inverse::{Record, Store};
use rev_items::Key;
use rev_model::{Cause, ChunkRef, is_dead};
use std::alloc::Allocator;

/// How many moves it takes that an item leaves.
pub const REMOVAL_MOVES: usize = 4;

/// The item of the chunk leaves, and its chunk is free: four moves.
pub fn remove<A: Allocator>(
    store: &mut Store<A>,
    chunk: ChunkRef,
    cause: Option<Cause>,
    undo: &mut Record<A>,
)
    requires sound { (h : Option ChunkRef) × SoundBut h store.old }
    requires item { (i : PlainItem) × (item_at store.old chunk ≡ Some i) }
    requires room { length undo.old.moves + 4 ≤ undo.old.room }
    ensures state { (i : PlainItem) → item_at store.old chunk ≡ Some i → store.new ≡ dropped (owner_of store.old chunk.page) (queue_with store.old (owner_of store.old chunk.page) chunk) chunk i store.old }
    ensures sound { (h : Option ChunkRef) → SoundBut h store.old → SoundBut h store.new }
    ensures leads { Leads undo.old store.old undo.new store.new }
    ensures room { undo.new.room ≡ undo.old.room }
    ensures made { length undo.new.moves ≡ length undo.old.moves + 4 }
    ensures told { Tells undo.old store.old undo.new store.new (removal (item_at store.old chunk) cause) }
{
    let class = store.owner(chunk.page as usize);
    let queue = store.queue_with(class, chunk);
    drop_item(store, class, queue, chunk, cause, undo);
}

/// What an item that is found leaves: a dead one is removed.
fn look_at<A: Allocator>(
    store: &mut Store<A>,
    chunk: ChunkRef,
    undo: &mut Record<A>,
) -> Option<ChunkRef>
    requires sound { (h : Option ChunkRef) × SoundBut h store.old }
    requires room { length undo.old.moves + dead_need store.old.globals (item_at store.old chunk) ≤ undo.old.room }
    ensures state { store.new ≡ (looked_item store.old chunk (item_at store.old chunk)).0 }
    ensures found { result ≡ option_map (λ f. f.0) (looked_item store.old chunk (item_at store.old chunk)).1 }
    ensures sound { (h : Option ChunkRef) → SoundBut h store.old → SoundBut h store.new }
    ensures leads { Leads undo.old store.old undo.new store.new }
    ensures room { undo.new.room ≡ undo.old.room }
    ensures made { length undo.new.moves ≡ length undo.old.moves + dead_need store.old.globals (item_at store.old chunk) }
    ensures told { Tells undo.old store.old undo.new store.new (dead_removals store.old (item_at store.old chunk)) }
{
    match store.header(chunk) {
        None => None,
        Some(item) => {
            if is_dead(store.globals(), item) {
                remove(store, chunk, Some(Cause::ReclaimedByHit), undo);
                return None;
            }
            Some(chunk)
        }
    }
}

/// The chunk of the key's item, if it is alive; a dead one is removed: four moves, else none. A caller who has asked
/// for the chunk that the key leads to hands it on as `found`. It may hold no item any more: then the key leads
/// nowhere.
pub fn lookup_at<A: Allocator>(
    store: &mut Store<A>,
    key: &Key<A>,
    found: Option<ChunkRef>,
    undo: &mut Record<A>,
) -> Option<ChunkRef>
    requires sound { (h : Option ChunkRef) × SoundBut h store.old }
    requires room { length undo.old.moves + look_need store.old key.now ≤ undo.old.room }
    requires led { find store.old key.now ≡ standing store.old found }
    ensures state { store.new ≡ (lookup store.old key.now).0 }
    ensures found { result ≡ option_map (λ f. f.0) (lookup store.old key.now).1 }
    ensures sound { (h : Option ChunkRef) → SoundBut h store.old → SoundBut h store.new }
    ensures leads { Leads undo.old store.old undo.new store.new }
    ensures room { undo.new.room ≡ undo.old.room }
    ensures made { length undo.new.moves ≡ length undo.old.moves + look_need store.old key.now }
    ensures told { Tells undo.old store.old undo.new store.new (look_removals store.old key.now) }
{
    match found {
        None => None,
        Some(chunk) => look_at(store, chunk, undo),
    }
}

/// The chunk of the key's item, if it is alive; a dead one is removed: four moves, else none.
pub fn lookup<A: Allocator>(
    store: &mut Store<A>,
    key: &Key<A>,
    undo: &mut Record<A>,
) -> Option<ChunkRef>
    requires sound { (h : Option ChunkRef) × SoundBut h store.old }
    requires room { length undo.old.moves + look_need store.old key.now ≤ undo.old.room }
    ensures state { store.new ≡ (lookup store.old key.now).0 }
    ensures found { result ≡ option_map (λ f. f.0) (lookup store.old key.now).1 }
    ensures sound { (h : Option ChunkRef) → SoundBut h store.old → SoundBut h store.new }
    ensures leads { Leads undo.old store.old undo.new store.new }
    ensures room { undo.new.room ≡ undo.old.room }
    ensures made { length undo.new.moves ≡ length undo.old.moves + look_need store.old key.now }
    ensures told { Tells undo.old store.old undo.new store.new (look_removals store.old key.now) }
{
    let found = store.find(key);
    lookup_at(store, key, found, undo)
}

/// How many moves it takes that the item leaves which a key leads to: four, or none where there is no item.
pub fn removal_moves_at(found: Option<ChunkRef>) -> usize
    ensures { result ≡ found_need found }
{
    match found {
        None => 0,
        Some(_) => REMOVAL_MOVES,
    }
}

/// How many moves it takes that the key's item leaves: four, or none where there is no item.
pub fn removal_moves<A: Allocator>(store: &Store<A>, key: &Key<A>) -> usize
    ensures { result ≡ removal_need store.now key.now }
{
    removal_moves_at(store.find(key))
}

/// The key's item leaves, dead or alive. The cause, if there is one, is that of an item that was alive.
pub fn clear<A: Allocator>(
    store: &mut Store<A>,
    key: &Key<A>,
    cause: Option<Cause>,
    undo: &mut Record<A>,
)
    requires sound { (h : Option ChunkRef) × SoundBut h store.old }
    requires room { length undo.old.moves + removal_need store.old key.now ≤ undo.old.room }
    ensures state { store.new ≡ removed (lookup store.old key.now).1 (lookup store.old key.now).0 }
    ensures sound { (h : Option ChunkRef) → SoundBut h store.old → SoundBut h store.new }
    ensures leads { Leads undo.old store.old undo.new store.new }
    ensures room { undo.new.room ≡ undo.old.room }
    ensures made { length undo.new.moves ≤ length undo.old.moves + removal_need store.old key.now }
    ensures told { Tells undo.old store.old undo.new store.new (clear_removals cause store.old key.now) }
{
    match lookup(store, key, undo) {
        None => {}
        Some(chunk) => remove(store, chunk, cause, undo),
    }
}
