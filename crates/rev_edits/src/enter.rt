//! How an item enters.
ghost use Rattle.std.specs.Prelude.{◌≡◌, ℕ, ◌+◌, ◌<◌, ◌≤◌, ◌++◌, ◌∷◌, length, Option, None, Some, List, [], ℤ, pos, negsuc};
ghost use Rattle.rev_items.specs.Plain.{PlainItem};
ghost use Rattle.rev_items.specs.Rules.{footprint_of};
ghost use Rattle.rev_model.specs.State.{State, WellFormed, IsChunkOf, free_of, IsClass};
ghost use Rattle.rev_model.specs.Words.{linked, queue_for, is_brief, class_of};
ghost use Rattle.rev_model.specs.Pull.{fronted};
ghost use Rattle.rev_model.specs.Sound.{SoundBut, Sound};
ghost use Rattle.rev_inverse.specs.Leads.{Leads};
ghost use Rattle.rev_inverse.specs.Telling.{Tells};
ghost use Rattle.rev_edits.specs.Linking.{Fresh};
ghost use Rattle.rev_edits.specs.Taking.{paired};

use crate::moving::change;
use rev_inverse::{Change, Record, Store};
use rev_items::Item;
use rev_model::{ChunkRef, Globals, Listed, Queue};
use std::alloc::Allocator;

/// The front free chunk of a class leaves its list, and is then held by the step: at most one move.
#[inline(always)]
pub fn take_front<A: Allocator>(
    store: &mut Store<A>,
    class: usize,
    undo: &mut Record<A>,
) -> Option<ChunkRef>
    requires sound { Sound store.old }
    requires class { IsClass store.old.fixed class }
    requires room { length undo.old.moves < undo.old.room }
    ensures done { paired store.new result ≡ fronted store.old class (free_of store.old class) }
    ensures none { result ≡ None → (store.new ≡ store.old) × (undo.new ≡ undo.old) × (free_of store.old class ≡ []) }
    ensures chunk { (x : ChunkRef) → result ≡ Some x → IsChunkOf store.new.fixed store.new.owner class x }
    ensures sound { SoundBut result store.new }
    ensures leads { Leads undo.old store.old undo.new store.new }
    ensures room { undo.new.room ≡ undo.old.room }
    ensures made { length undo.new.moves ≤ length undo.old.moves + 1 }
    ensures told { Tells undo.old store.old undo.new store.new [] }
{
    match store.front(class) {
        None => None,
        Some(chunk) => {
            change(store, Change::Take(Listed::InFree(class, chunk)), undo);
            Some(chunk)
        }
    }
}

/// The queue of a new item: TEMP where it expires within the bound of that queue, else HOT (new_lru.txt).
fn queue_of_new(globals: Globals, moment: u64) -> Queue
    ensures { result ≡ queue_for globals moment }
{
    let ttl = globals.settings.temp_ttl;
    if ttl < 0 {
        return Queue::Hot;
    }
    let brief = moment.saturating_sub(globals.clock as u64) < ttl as u64;
    if moment != 0 && brief {
        Queue::Temp
    } else {
        Queue::Hot
    }
}

/// The item enters the chunk that the step holds, the index and the head of its queue, and its cas number is the last:
/// four moves.
pub fn link<A: Allocator>(
    store: &mut Store<A>,
    class: usize,
    chunk: ChunkRef,
    item: Item<A>,
    undo: &mut Record<A>,
)
    requires sound { SoundBut (Some chunk) store.old }
    requires fresh { Fresh store.old class chunk item }
    requires fits { class_of store.old.fixed (footprint_of item) ≡ Some class }
    requires room { length undo.old.moves + 4 ≤ undo.old.room }
    ensures state { store.new ≡ linked class chunk item store.old }
    ensures sound { Sound store.new }
    ensures leads { Leads undo.old store.old undo.new store.new }
    ensures room { undo.new.room ≡ undo.old.room }
    ensures made { length undo.new.moves ≡ length undo.old.moves + 4 }
    ensures told { Tells undo.old store.old undo.new store.new [] }
{
    let queue = queue_of_new(store.globals(), item.moment());
    let cas = item.cas();
    let enter = Change::Link {
        queue,
        class: class as u8,
        chunk,
        item,
        after: None,
        last_cas: cas,
    };
    store.make(enter, undo);
}
