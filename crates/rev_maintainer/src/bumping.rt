//! The bump queue's first entry.
ghost use Rattle.std.specs.Prelude.{◌≡◌, ℕ, ◌+◌, ◌≤◌, length, [], Option, Some, IfOk, OnOk, OnErr};
ghost use Rattle.std.specs.Option.{option_map};
ghost use Rattle.rev_items.specs.Plain.{PlainItem};
ghost use Rattle.rev_model.specs.Actor.{bump as bump_of};
ghost use Rattle.rev_model.specs.State.{WellFormed, item_at, IsClass};
ghost use Rattle.rev_model.specs.Words.{header_of};
ghost use Rattle.rev_model.specs.Sound.{Sound, Stands};
ghost use Rattle.rev_model.specs.Move.{LeadsBack};
ghost use Rattle.rev_inverse.specs.Leads.{Leads};
ghost use Rattle.rev_inverse.specs.Telling.{Tells, TellsAll};
ghost use Rattle.rev_maintainer.specs.Bumping.{asked, bumped, bump_need};

use rev_edits::alter::{raise, retouch, to_head};
use rev_edits::moving::change;
use rev_inverse::{Change, Record, Store};
use rev_items::Bits;
use rev_model::{BumpEntry, ChunkRef, Counter, ItemHeader, Outcome, Queue, Touched};
use std::alloc::{AllocError, Allocator};

/// The item that the entry asks for: its chunk still holds the entry's cas number, and it is active and in COLD. The
/// chunk's page may be another class's by now, or its item gone.
fn asked<A: Allocator>(store: &Store<A>, entry: BumpEntry) -> Option<ItemHeader>
    requires sound { Sound store.now }
    ensures { result ≡ asked store.now entry }
{
    let item = store.header(entry.chunk)?;
    if item.cas != entry.cas || !item.bits.active {
        return None;
    }
    let class = store.owner(entry.chunk.page as usize);
    match store.queue_with(class, entry.chunk) {
        Queue::Cold => Some(item),
        Queue::Hot => None,
        Queue::Warm => None,
        Queue::Temp => None,
    }
}

/// How many moves a bump makes: none where the bump queue is empty, one where its first entry asks for no item, else
/// five.
fn bump_moves<A: Allocator>(store: &Store<A>) -> usize
    requires sound { Sound store.now }
    ensures { result ≡ bump_need store.now }
{
    match store.bump_at(0) {
        None => 0,
        Some(entry) => match asked(store, entry) {
            None => 1,
            Some(_) => 5,
        },
    }
}

/// An item of COLD goes to WARM's head: ACTIVE is cleared, its time is now, and moves_to_warm is raised. Four moves.
fn lift<A: Allocator>(
    store: &mut Store<A>,
    class: usize,
    chunk: ChunkRef,
    item: ItemHeader,
    undo: &mut Record<A>,
)
    requires well { WellFormed store.old }
    requires class { IsClass store.old.fixed class }
    requires stands { (i : PlainItem) × Stands store.old class Queue.Cold chunk i }
    requires item { option_map header_of (item_at store.old chunk) ≡ Some item }
    requires room { length undo.old.moves + 4 ≤ undo.old.room }
    ensures state { (i : PlainItem) → item_at store.old chunk ≡ Some i → store.new ≡ bumped class chunk i store.old }
    ensures well { WellFormed store.new }
    ensures leads { Leads undo.old store.old undo.new store.new }
    ensures room { undo.new.room ≡ undo.old.room }
    ensures made { length undo.new.moves ≡ length undo.old.moves + 4 }
    ensures told { Tells undo.old store.old undo.new store.new [] }
{
    to_head(store, class, Queue::Cold, Queue::Warm, chunk, undo);
    let bits = Bits {
        fetched: item.bits.fetched,
        active: false,
    };
    let (time, moment) = (store.globals().clock, item.moment);
    retouch(store, chunk, Touched { bits, time, moment }, undo);
    raise(store, class, Counter::MovesToWarm, undo);
}

/// The bump queue's first entry is taken, and the item that it asks for goes to WARM's head.
fn bump_in<A: Allocator>(store: &mut Store<A>, undo: &mut Record<A>) -> Outcome
    requires sound { Sound store.old }
    requires room { length undo.old.moves + bump_need store.old ≤ undo.old.room }
    ensures done { (store.new, result) ≡ bump_of store.old }
    ensures sound { Sound store.new }
    ensures leads { Leads undo.old store.old undo.new store.new }
    ensures room { undo.new.room ≡ undo.old.room }
    ensures made { length undo.new.moves ≡ length undo.old.moves + bump_need store.old }
    ensures told { Tells undo.old store.old undo.new store.new [] }
{
    let Some(entry) = store.bump_at(0) else {
        return Outcome::Idle;
    };
    let item = asked(store, entry);
    change(store, Change::BumpOut, undo);
    match item {
        None => Outcome::Idle,
        Some(item) => {
            let class = store.owner(entry.chunk.page as usize);
            lift(store, class, entry.chunk, item, undo);
            Outcome::Moved
        }
    }
}

/// Takes the bump queue's first entry (new_lru.txt; that an entry names a chunk and a cas number is this project's
/// own). Where its chunk still holds that cas number, in COLD and ACTIVE, the bit is cleared, the item's time is now,
/// and it goes to WARM's head: Moved. Else Idle, with the item as it was and the entry gone all the same.
///
/// Err: a growth was refused, and the store is as it was.
pub fn bump<A: Allocator + Clone>(store: &mut Store<A>) -> Result<(Outcome, Record<A>), AllocError>
    requires { Sound store.old }
    ensures step { IfOk result (λ p. (store.new, p.0) ≡ bump_of store.old) }
    ensures sound { OnOk result (Sound store.new) }
    ensures leads { IfOk result (λ p. LeadsBack p.1.moves store.new store.old) }
    ensures few { IfOk result (λ p. length p.1.moves ≤ 64) }
    ensures err { OnErr result (store.new ≡ store.old) }
    ensures told { IfOk result (λ p. TellsAll p.1 store.new []) }
{
    let mut undo = Record::with_room(store.alloc()?, bump_moves(store))?;
    let outcome = bump_in(store, &mut undo);
    Ok((outcome, undo))
}
