//! The command touch.
ghost use Rattle.std.specs.Prelude.{◌≡◌, ◌+◌, ◌<◌, ◌≤◌, length, [], Some, IfOk, OnOk, OnErr};
ghost use Rattle.std.specs.Option.{option_map};
ghost use Rattle.rev_items.specs.Plain.{PlainItem};
ghost use Rattle.rev_items.specs.Rules.{moment as moment_of};
ghost use Rattle.rev_model.specs.State.{item_at, find};
ghost use Rattle.rev_model.specs.Words.{header_of};
ghost use Rattle.rev_model.specs.Client.{touch as touch_of, until, hit as hit_of};
ghost use Rattle.rev_model.specs.Sound.{Sound};
ghost use Rattle.rev_model.specs.Move.{LeadsBack};
ghost use Rattle.rev_model.specs.Causes.{look_removals};
ghost use Rattle.rev_inverse.specs.Leads.{Leads};
ghost use Rattle.rev_inverse.specs.Telling.{Tells, TellsAll};
ghost use Rattle.rev_commands.specs.Hitting.{hit_need, access_need};

use crate::hit::{access_moves, hit};
use crate::look::lookup_at;
use rev_edits::alter::retouch;
use rev_inverse::{Record, Store};
use rev_items::{Key, moment};
use rev_model::{ChunkRef, ItemHeader, Outcome, Touched};
use std::alloc::{AllocError, Allocator};

/// The item of the chunk expires at this second: one move.
fn set_moment<A: Allocator>(
    store: &mut Store<A>,
    chunk: ChunkRef,
    moment: u64,
    undo: &mut Record<A>,
)
    requires sound { Sound store.old }
    requires room { length undo.old.moves < undo.old.room }
    ensures state { store.new ≡ until moment chunk (item_at store.old chunk) store.old }
    ensures sound { Sound store.new }
    ensures leads { Leads undo.old store.old undo.new store.new }
    ensures room { undo.new.room ≡ undo.old.room }
    ensures made { length undo.new.moves ≤ length undo.old.moves + 1 }
    ensures told { Tells undo.old store.old undo.new store.new [] }
{
    if let Some(item) = store.header(chunk) {
        let (bits, time) = (item.bits, item.time);
        retouch(store, chunk, Touched { bits, time, moment }, undo);
    }
}

/// The item of the chunk is hit, and then its moment is set, whatever the hit did: at most three moves.
fn touch_found<A: Allocator>(
    store: &mut Store<A>,
    chunk: ChunkRef,
    item: ItemHeader,
    exptime: i32,
    undo: &mut Record<A>,
)
    requires sound { Sound store.old }
    requires item { option_map header_of (item_at store.old chunk) ≡ Some item }
    requires room { length undo.old.moves + hit_need item.bits + 1 ≤ undo.old.room }
    ensures state { (i : PlainItem) → item_at store.old chunk ≡ Some i → store.new ≡ until (moment_of store.old.globals.clock exptime) chunk (item_at (hit_of store.old chunk i) chunk) (hit_of store.old chunk i) }
    ensures sound { Sound store.new }
    ensures leads { Leads undo.old store.old undo.new store.new }
    ensures room { undo.new.room ≡ undo.old.room }
    ensures made { length undo.new.moves ≤ length undo.old.moves + hit_need item.bits + 1 }
    ensures told { Tells undo.old store.old undo.new store.new [] }
{
    let next = moment(store.globals().clock, exptime);
    hit(store, chunk, item, undo);
    set_moment(store, chunk, next, undo);
}

/// The key's item gets a new moment: at most four moves.
fn touch_in<A: Allocator>(
    store: &mut Store<A>,
    key: &Key<A>,
    found: Option<ChunkRef>,
    exptime: i32,
    undo: &mut Record<A>,
) -> Outcome
    requires sound { Sound store.old }
    requires led { found ≡ find store.old key.now }
    requires room { length undo.old.moves + access_need 1 store.old key.now ≤ undo.old.room }
    ensures done { (store.new, result) ≡ touch_of store.old key.now exptime }
    ensures sound { Sound store.new }
    ensures leads { Leads undo.old store.old undo.new store.new }
    ensures room { undo.new.room ≡ undo.old.room }
    ensures made { length undo.new.moves ≤ length undo.old.moves + access_need 1 store.old key.now }
    ensures told { Tells undo.old store.old undo.new store.new (look_removals store.old key.now) }
{
    match lookup_at(store, key, found, undo) {
        None => Outcome::NotFound,
        Some(chunk) => {
            if let Some(item) = store.header(chunk) {
                touch_found(store, chunk, item, exptime, undo);
            }
            Outcome::Touched
        }
    }
}

/// Reads the key's item, if it is alive, which is a hit of it, and gives it a new time to live (protocol.txt). A dead
/// one is removed, and the answer is NotFound.
///
/// Err: a growth was refused, and the store is as it was.
pub fn touch<A: Allocator + Clone>(
    store: &mut Store<A>,
    key: &Key<A>,
    exptime: i32,
) -> Result<(Outcome, Record<A>), AllocError>
    requires { Sound store.old }
    ensures step { IfOk result (λ p. (store.new, p.0) ≡ touch_of store.old key.now exptime) }
    ensures sound { OnOk result (Sound store.new) }
    ensures leads { IfOk result (λ p. LeadsBack p.1.moves store.new store.old) }
    ensures few { IfOk result (λ p. length p.1.moves ≤ 64) }
    ensures err { OnErr result (store.new ≡ store.old) }
    ensures told { IfOk result (λ p. TellsAll p.1 store.new (look_removals store.old key.now)) }
{
    let found = store.find(key);
    let mut undo = Record::with_room(store.alloc()?, access_moves(store, found, 1))?;
    let outcome = touch_in(store, key, found, exptime, &mut undo);
    Ok((outcome, undo))
}
