//! A hit of an item, and how many moves it takes.
ghost use Rattle.std.specs.Prelude.{◌≡◌, ℕ, ◌+◌, ◌≤◌, length, [], Some};
ghost use Rattle.std.specs.Option.{option_map};
ghost use Rattle.rev_items.specs.Plain.{PlainItem};
ghost use Rattle.rev_model.specs.State.{item_at, owner_of};
ghost use Rattle.rev_model.specs.Words.{header_of, queue_with};
ghost use Rattle.rev_model.specs.Client.{hit as hit_of, hit_again as hit_again_of};
ghost use Rattle.rev_model.specs.Sound.{Sound};
ghost use Rattle.rev_model.specs.declared.Queue.{Queue};
ghost use Rattle.rev_inverse.specs.Leads.{Leads};
ghost use Rattle.rev_inverse.specs.Telling.{Tells};
ghost use Rattle.rev_commands.specs.Hitting.{hit_need, led_need};

use rev_edits::alter::retouch;
use rev_edits::moving::change;
use rev_inverse::{Change, Record, Store};
use rev_items::Bits;
use rev_model::{BumpEntry, ChunkRef, ItemHeader, Queue, Touched, is_dead};
use std::alloc::Allocator;

/// A hit of an item of COLD that was hit before: ACTIVE is set, and the item enters the bump queue, where that has
/// room. At most two moves.
fn ask_bump<A: Allocator>(
    store: &mut Store<A>,
    chunk: ChunkRef,
    item: ItemHeader,
    undo: &mut Record<A>,
)
    requires sound { Sound store.old }
    requires item { option_map header_of (item_at store.old chunk) ≡ Some item }
    requires room { length undo.old.moves + 2 ≤ undo.old.room }
    ensures state { (i : PlainItem) → item_at store.old chunk ≡ Some i → store.new ≡ hit_again_of store.old Queue.Cold chunk i }
    ensures sound { Sound store.new }
    ensures leads { Leads undo.old store.old undo.new store.new }
    ensures room { undo.new.room ≡ undo.old.room }
    ensures made { length undo.new.moves ≤ length undo.old.moves + 2 }
    ensures told { Tells undo.old store.old undo.new store.new [] }
{
    let (_pages, most) = store.limits();
    if store.bump_len() < most {
        let bits = Bits {
            fetched: item.bits.fetched,
            active: true,
        };
        let (time, moment) = (item.time, item.moment);
        retouch(store, chunk, Touched { bits, time, moment }, undo);
        let cas = item.cas;
        change(store, Change::BumpIn(BumpEntry { chunk, cas }), undo);
    }
}

/// A hit of an item of another queue that was hit before: ACTIVE is set, and its time is now. One move.
fn set_active<A: Allocator>(
    store: &mut Store<A>,
    chunk: ChunkRef,
    item: ItemHeader,
    undo: &mut Record<A>,
)
    requires sound { Sound store.old }
    requires item { option_map header_of (item_at store.old chunk) ≡ Some item }
    requires room { length undo.old.moves + 1 ≤ undo.old.room }
    ensures state { (i : PlainItem) → item_at store.old chunk ≡ Some i → store.new ≡ hit_again_of store.old Queue.Hot chunk i }
    ensures sound { Sound store.new }
    ensures leads { Leads undo.old store.old undo.new store.new }
    ensures room { undo.new.room ≡ undo.old.room }
    ensures made { length undo.new.moves ≡ length undo.old.moves + 1 }
    ensures told { Tells undo.old store.old undo.new store.new [] }
{
    let bits = Bits {
        fetched: item.bits.fetched,
        active: true,
    };
    let (time, moment) = (store.globals().clock, item.moment);
    retouch(store, chunk, Touched { bits, time, moment }, undo);
}

/// A hit of an item that was hit before: at most two moves.
fn hit_again<A: Allocator>(
    store: &mut Store<A>,
    chunk: ChunkRef,
    item: ItemHeader,
    undo: &mut Record<A>,
)
    requires sound { Sound store.old }
    requires item { option_map header_of (item_at store.old chunk) ≡ Some item }
    requires room { length undo.old.moves + 2 ≤ undo.old.room }
    ensures state { (i : PlainItem) → item_at store.old chunk ≡ Some i → store.new ≡ hit_again_of store.old (queue_with store.old (owner_of store.old chunk.page) chunk) chunk i }
    ensures sound { Sound store.new }
    ensures leads { Leads undo.old store.old undo.new store.new }
    ensures room { undo.new.room ≡ undo.old.room }
    ensures made { length undo.new.moves ≤ length undo.old.moves + 2 }
    ensures told { Tells undo.old store.old undo.new store.new [] }
{
    let class = store.owner(chunk.page as usize);
    match store.queue_with(class, chunk) {
        Queue::Cold => ask_bump(store, chunk, item, undo),
        Queue::Hot => set_active(store, chunk, item, undo),
        Queue::Warm => set_active(store, chunk, item, undo),
        Queue::Temp => set_active(store, chunk, item, undo),
    }
}

/// A hit (new_lru.txt): the first sets FETCHED, the second ACTIVE, and further ones nothing. At most two moves.
pub fn hit<A: Allocator>(
    store: &mut Store<A>,
    chunk: ChunkRef,
    item: ItemHeader,
    undo: &mut Record<A>,
)
    requires sound { Sound store.old }
    requires item { option_map header_of (item_at store.old chunk) ≡ Some item }
    requires room { length undo.old.moves + hit_need item.bits ≤ undo.old.room }
    ensures state { (i : PlainItem) → item_at store.old chunk ≡ Some i → store.new ≡ hit_of store.old chunk i }
    ensures sound { Sound store.new }
    ensures leads { Leads undo.old store.old undo.new store.new }
    ensures room { undo.new.room ≡ undo.old.room }
    ensures made { length undo.new.moves ≤ length undo.old.moves + hit_need item.bits }
    ensures told { Tells undo.old store.old undo.new store.new [] }
{
    if item.bits.active {
        return;
    }
    if item.bits.fetched {
        hit_again(store, chunk, item, undo);
        return;
    }
    let bits = Bits {
        fetched: true,
        active: item.bits.active,
    };
    let time = item.time;
    let moment = item.moment;
    retouch(store, chunk, Touched { bits, time, moment }, undo);
}

/// How many moves a hit makes at most, by the item's bits.
fn hit_moves(bits: Bits) -> usize
    ensures moves { result ≡ hit_need bits }
    ensures few { result ≤ 2 }
{
    if bits.active {
        0
    } else if bits.fetched {
        2
    } else {
        1
    }
}

/// How many moves a command makes at most that hits the item which a key leads to and then makes so many `more`: four
/// where the item is dead, none where there is none.
pub fn access_moves<A: Allocator>(store: &Store<A>, found: Option<ChunkRef>, more: usize) -> usize
    requires { more ≤ 60 }
    ensures { result ≡ led_need more store.now found }
{
    match found {
        None => 0,
        Some(chunk) => match store.header(chunk) {
            None => 0,
            Some(item) => {
                if is_dead(store.globals(), item) {
                    4
                } else {
                    hit_moves(item.bits) + more
                }
            }
        },
    }
}
