//! Room for a new item.
ghost use Rattle.std.specs.Prelude.{◌≡◌, ℕ, ◌+◌, ◌*◌, ◌<◌, ◌≤◌, length, Option, None, Some, List, [], IfOk};
ghost use Rattle.rev_model.specs.State.{State, WellFormed, IsChunkOf, free_of, IsClass};
ghost use Rattle.rev_model.specs.Pull.{squeezed, given, page_of, room_by, room};
ghost use Rattle.rev_model.specs.Sound.{Sound, SoundBut};
ghost use Rattle.rev_inverse.specs.Leads.{Leads};
ghost use Rattle.rev_inverse.specs.Telling.{Tells};
ghost use Rattle.rev_model.specs.Causes.{squeeze_removals, room_removals_by, room_removals};
ghost use Rattle.rev_edits.specs.Taking.{paired};
ghost use Rattle.rev_edits.specs.Paging.{IsPlan};
ghost use Rattle.rev_maintainer.specs.Rooming.{room_need, IsRoomPlan};

use crate::pulls::pull_queue;
use rev_edits::alter::raise;
use rev_edits::enter::take_front;
use rev_edits::page::{NewPage, lay_page, plan_page};
use rev_inverse::{Record, Store};
use rev_model::{ChunkRef, Counter, PullMode, Queue};
use std::alloc::{AllocError, Allocator};

/// Rounds of room (this project's own figure, memcached's `do_item_alloc_pull`).
const ROUNDS: usize = 10;

/// What room needs from memory: the page that the class gets, where no chunk is free, and the number of its moves.
#[derive(Drop)]
pub struct RoomPlan<A: Allocator> {
    pub page: Option<NewPage<A>>,
    pub moves: usize,
}

/// Plans room for an item of the class, before any change.
///
/// Err: a growth was refused.
pub fn plan_room<A: Allocator + Clone>(
    store: &Store<A>,
    class: usize,
) -> Result<RoomPlan<A>, AllocError>
    requires sound { Sound store.now }
    requires class { IsClass store.now.fixed class }
    ensures { IfOk result (λ plan. IsRoomPlan store.now class plan) }
{
    if store.front(class).is_some() {
        return Ok(RoomPlan {
            page: None,
            moves: 1,
        });
    }
    let page = plan_page(store, class)?;
    let moves = if page.is_some() { 2 } else { 4 * ROUNDS + 2 };
    Ok(RoomPlan { page, moves })
}

/// COLD is pulled with eviction, and where it holds no item HOT with a share of 0: at most five moves.
fn squeeze<A: Allocator>(store: &mut Store<A>, class: usize, undo: &mut Record<A>)
    requires sound { Sound store.old }
    requires class { IsClass store.old.fixed class }
    requires room { length undo.old.moves + 5 ≤ undo.old.room }
    ensures state { store.new ≡ squeezed store.old class }
    ensures sound { Sound store.new }
    ensures leads { Leads undo.old store.old undo.new store.new }
    ensures room { undo.new.room ≡ undo.old.room }
    ensures made { length undo.new.moves ≤ length undo.old.moves + 5 }
    ensures few { length undo.new.moves ≤ length undo.old.moves + 4 + length (free_of store.new class) }
    ensures told { Tells undo.old store.old undo.new store.new (squeeze_removals store.old class) }
{
    match store.tail(class, Queue::Cold) {
        Some(_) => {
            let _outcome = pull_queue(store, class, Queue::Cold, PullMode::Evicting, undo);
        }
        None => {
            let _outcome = pull_queue(store, class, Queue::Hot, PullMode::ShareZero, undo);
        }
    }
}

/// The front free chunk, or that of a page that the class gets: at most two moves.
fn give<A: Allocator>(
    store: &mut Store<A>,
    class: usize,
    page: Option<NewPage<A>>,
    undo: &mut Record<A>,
) -> Option<ChunkRef>
    requires sound { Sound store.old }
    requires class { IsClass store.old.fixed class }
    requires plan { free_of store.old class ≡ [] → IsPlan store.old class page }
    requires room { length undo.old.moves + room_need 0 store.old class ≤ undo.old.room }
    ensures done { paired store.new result ≡ given store.old class }
    ensures none { result ≡ None → (store.new ≡ store.old) × (undo.new ≡ undo.old) × (free_of store.old class ≡ []) × (page_of store.old class ≡ None) }
    ensures chunk { (x : ChunkRef) → result ≡ Some x → IsChunkOf store.new.fixed store.new.owner class x }
    ensures sound { SoundBut result store.new }
    ensures leads { Leads undo.old store.old undo.new store.new }
    ensures room { undo.new.room ≡ undo.old.room }
    ensures made { length undo.new.moves ≤ length undo.old.moves + room_need 0 store.old class }
    ensures told { Tells undo.old store.old undo.new store.new [] }
{
    match take_front(store, class, undo) {
        Some(chunk) => Some(chunk),
        None => match page {
            None => None,
            Some(page) => {
                lay_page(store, class, page, undo);
                take_front(store, class, undo)
            }
        },
    }
}

/// So many rounds of room.
fn room_by<A: Allocator>(
    store: &mut Store<A>,
    class: usize,
    rounds: usize,
    page: Option<NewPage<A>>,
    undo: &mut Record<A>,
) -> Option<ChunkRef>
    requires sound { Sound store.old }
    requires class { IsClass store.old.fixed class }
    requires plan { free_of store.old class ≡ [] → IsPlan store.old class page }
    requires room { length undo.old.moves + room_need rounds store.old class ≤ undo.old.room }
    ensures done { (store.new, result) ≡ room_by rounds store.old class }
    ensures chunk { (x : ChunkRef) → result ≡ Some x → IsChunkOf store.new.fixed store.new.owner class x }
    ensures sound { SoundBut result store.new }
    ensures leads { Leads undo.old store.old undo.new store.new }
    ensures room { undo.new.room ≡ undo.old.room }
    ensures made { length undo.new.moves ≤ length undo.old.moves + room_need rounds store.old class }
    ensures told { Tells undo.old store.old undo.new store.new (room_removals_by rounds store.old class) }
{
    if rounds == 0 {
        raise(store, class, Counter::OutOfMemory, undo);
        return None;
    }
    match give(store, class, page, undo) {
        Some(chunk) => Some(chunk),
        None => {
            squeeze(store, class, undo);
            room_by(store, class, rounds - 1, None, undo)
        }
    }
}

/// A chunk for an item of the class, which the step then holds: at most 42 moves, one where a chunk is free, two where
/// the class gets a page. None: no round got one, and outofmemory is raised.
pub fn room<A: Allocator>(
    store: &mut Store<A>,
    class: usize,
    page: Option<NewPage<A>>,
    undo: &mut Record<A>,
) -> Option<ChunkRef>
    requires sound { Sound store.old }
    requires class { IsClass store.old.fixed class }
    requires plan { free_of store.old class ≡ [] → IsPlan store.old class page }
    requires room { length undo.old.moves + room_need 10 store.old class ≤ undo.old.room }
    ensures done { (store.new, result) ≡ room store.old class }
    ensures chunk { (x : ChunkRef) → result ≡ Some x → IsChunkOf store.new.fixed store.new.owner class x }
    ensures sound { SoundBut result store.new }
    ensures leads { Leads undo.old store.old undo.new store.new }
    ensures room { undo.new.room ≡ undo.old.room }
    ensures made { length undo.new.moves ≤ length undo.old.moves + room_need 10 store.old class }
    ensures told { Tells undo.old store.old undo.new store.new (room_removals store.old class) }
{
    room_by(store, class, ROUNDS, page, undo)
}
