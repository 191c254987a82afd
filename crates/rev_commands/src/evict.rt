//! The command `~evict`, by which a log that leads says that an item goes (this project's own).
ghost use Rattle.std.specs.Prelude.{◌≡◌, ◌+◌, ◌≤◌, length, Some, IfOk, OnOk, OnErr};
ghost use Rattle.rev_items.specs.Plain.{PlainItem};
ghost use Rattle.rev_model.specs.State.{item_at, find, owner_of};
ghost use Rattle.rev_model.specs.Words.{counted};
ghost use Rattle.rev_model.specs.Client.{removed, item_led_to, evict_found as evict_led, evict as evict_of};
ghost use Rattle.rev_model.specs.declared.ChunkRef.{ChunkRef as ChunkRefOf};
ghost use Rattle.rev_model.specs.Sound.{Sound};
ghost use Rattle.rev_model.specs.Move.{LeadsBack};
ghost use Rattle.rev_model.specs.Track.{removal};
ghost use Rattle.rev_inverse.specs.Leads.{Leads};
ghost use Rattle.rev_model.specs.declared.Cause.TheVariants as causes;
ghost use Rattle.rev_model.specs.declared.Counter.TheVariants as counters;
ghost use Rattle.rev_inverse.specs.Telling.{Tells, TellsAll};
ghost use Rattle.rev_model.specs.Causes.{found_removals};
ghost use Rattle.rev_commands.specs.Looking.{evicted_need};

use rev_edits::leave::discard;
use rev_inverse::{Record, Store};
use rev_items::Key;
use rev_model::{Cause, ChunkRef, Counter, Outcome};
use std::alloc::{AllocError, Allocator};

/// How many moves it takes that an item is evicted: it leaves, and is counted.
const EVICTION_MOVES: usize = 5;

/// How many moves it takes to evict the item of the chunk that a key leads to: five, or none where there is none.
fn eviction_moves_at(found: Option<ChunkRef>) -> usize
    ensures { result ≡ evicted_need found }
{
    match found {
        None => 0,
        Some(_) => EVICTION_MOVES,
    }
}

/// The item of the chunk leaves, its chunk is free, and its class counts an eviction: five moves.
fn evict_item<A: Allocator>(store: &mut Store<A>, chunk: ChunkRef, undo: &mut Record<A>)
    requires sound { Sound store.old }
    requires item { (i : PlainItem) × (item_at store.old chunk ≡ Some i) }
    requires room { length undo.old.moves + 5 ≤ undo.old.room }
    ensures state { (i : PlainItem) → item_at store.old chunk ≡ Some i → store.new ≡ counted (owner_of store.old chunk.page) counters.Evicted (removed (Some (chunk, i)) store.old) }
    ensures sound { Sound store.new }
    ensures leads { Leads undo.old store.old undo.new store.new }
    ensures room { undo.new.room ≡ undo.old.room }
    ensures made { length undo.new.moves ≡ length undo.old.moves + 5 }
    ensures told { Tells undo.old store.old undo.new store.new (removal (item_at store.old chunk) (Some causes.Evicted)) }
{
    let class = store.owner(chunk.page as usize);
    let queue = store.queue_with(class, chunk);
    discard(
        store,
        class,
        queue,
        chunk,
        Counter::Evicted,
        Cause::Evicted,
        undo,
    );
}

/// The item of the chunk that a key leads to is evicted: five moves, or none.
fn evict_found<A: Allocator>(
    store: &mut Store<A>,
    found: Option<ChunkRef>,
    undo: &mut Record<A>,
) -> Outcome
    requires sound { Sound store.old }
    requires item { (x : ChunkRefOf) → found ≡ Some x → (i : PlainItem) × (item_at store.old x ≡ Some i) }
    requires room { length undo.old.moves + evicted_need found ≤ undo.old.room }
    ensures done { (store.new, result) ≡ evict_led (store.old, item_led_to store.old found) }
    ensures sound { Sound store.new }
    ensures leads { Leads undo.old store.old undo.new store.new }
    ensures room { undo.new.room ≡ undo.old.room }
    ensures made { length undo.new.moves ≡ length undo.old.moves + evicted_need found }
    ensures told { Tells undo.old store.old undo.new store.new (found_removals (Some causes.Evicted) (item_led_to store.old found)) }
{
    match found {
        None => Outcome::NotFound,
        Some(chunk) => {
            evict_item(store, chunk, undo);
            Outcome::Evicted
        }
    }
}

/// Evicts the key's item, alive or dead: it leaves as one that a pull of COLD evicts. It is counted as an eviction of
/// its class, and its chunk is in front of the class's free list. NotFound if the key leads to no item.
///
/// Err: a growth was refused, and the store is as it was.
pub fn evict<A: Allocator + Clone>(
    store: &mut Store<A>,
    key: &Key<A>,
) -> Result<(Outcome, Record<A>), AllocError>
    requires { Sound store.old }
    ensures step { IfOk result (λ p. (store.new, p.0) ≡ evict_of store.old key.now) }
    ensures sound { OnOk result (Sound store.new) }
    ensures leads { IfOk result (λ p. LeadsBack p.1.moves store.new store.old) }
    ensures few { IfOk result (λ p. length p.1.moves ≤ 64) }
    ensures err { OnErr result (store.new ≡ store.old) }
    ensures told { IfOk result (λ p. TellsAll p.1 store.new (found_removals (Some causes.Evicted) (item_led_to store.old (find store.old key.now)))) }
{
    let found = store.find(key);
    let mut undo = Record::with_room(store.alloc()?, eviction_moves_at(found))?;
    let outcome = evict_found(store, found, &mut undo);
    Ok((outcome, undo))
}
