//! A crawl takes one step.
ghost use Rattle.std.specs.Prelude.{◌≡◌, ◌≤◌, length, IfOk, OnOk, OnErr, Some, None, [], true};
ghost use Rattle.rev_items.specs.Plain.{PlainItem};
ghost use Rattle.rev_model.specs.Chunk.{same_entry};
ghost use Rattle.rev_model.specs.Lists.{has, without, before};
ghost use Rattle.rev_model.specs.State.{item_at, queue_of, IsClass};
ghost use Rattle.rev_model.specs.Words.{counted, dropped};
ghost use Rattle.rev_model.specs.Actor.{crawl as crawl_of, crawl_entry, crawl_item as crawl_item_of, passed};
ghost use Rattle.rev_model.specs.Causes.{crawl_removals, crawl_item_removals};
ghost use Rattle.rev_model.specs.Track.{removal};
ghost use Rattle.rev_model.specs.Sound.{Sound, Stands};
ghost use Rattle.rev_model.specs.Move.{LeadsBack};
ghost use Rattle.rev_inverse.specs.Telling.{TellsAll};

use crate::reads::{is_class, unchanged};
use rev_edits::leave::discard;
use rev_edits::moving::change;
use rev_inverse::{Change, Record, Store};
use rev_model::{Cause, ChunkRef, Counter, Entry, Listed, Outcome, Placed, Queue, is_dead};
use std::alloc::{AllocError, Allocator};

/// The mark is taken out of the queue: one move.
fn end<A: Allocator + Clone>(
    store: &mut Store<A>,
    class: usize,
    queue: Queue,
) -> Result<(Outcome, Record<A>), AllocError>
    requires sound { Sound store.old }
    requires class { IsClass store.old.fixed class }
    requires mark { has same_entry Entry.Mark (queue_of store.old class queue) ≡ true }
    ensures step { IfOk result (λ p. (store.new, p.0) ≡ crawl_entry store.old class queue None) }
    ensures sound { OnOk result (Sound store.new) }
    ensures leads { IfOk result (λ p. LeadsBack p.1.moves store.new store.old) }
    ensures few { IfOk result (λ p. length p.1.moves ≤ 64) }
    ensures err { OnErr result (store.new ≡ store.old) }
    ensures told { IfOk result (λ p. TellsAll p.1 store.new []) }
{
    let mut undo = Record::with_room(store.alloc()?, 1)?;
    change(
        store,
        Change::Take(Listed::InQueue(class, queue, Entry::Mark)),
        &mut undo,
    );
    Ok((Outcome::Ended, undo))
}

/// The item leaves, its chunk is free, and crawler_reclaimed is raised: five moves.
fn reclaim<A: Allocator + Clone>(
    store: &mut Store<A>,
    class: usize,
    queue: Queue,
    chunk: ChunkRef,
) -> Result<(Outcome, Record<A>), AllocError>
    requires sound { Sound store.old }
    requires class { IsClass store.old.fixed class }
    requires stands { (i : PlainItem) × Stands store.old class queue chunk i }
    ensures step { (i : PlainItem) → item_at store.old chunk ≡ Some i → IfOk result (λ p. (store.new ≡ counted class Counter.CrawlerReclaimed (dropped class queue chunk i store.old)) × (p.0 ≡ Outcome.Reclaimed)) }
    ensures sound { OnOk result (Sound store.new) }
    ensures leads { IfOk result (λ p. LeadsBack p.1.moves store.new store.old) }
    ensures few { IfOk result (λ p. length p.1.moves ≤ 64) }
    ensures err { OnErr result (store.new ≡ store.old) }
    ensures told { IfOk result (λ p. TellsAll p.1 store.new (removal (item_at store.old chunk) (Some Cause.ReclaimedByCrawler))) }
{
    let mut undo = Record::with_room(store.alloc()?, 5)?;
    discard(
        store,
        class,
        queue,
        chunk,
        Counter::CrawlerReclaimed,
        Cause::ReclaimedByCrawler,
        &mut undo,
    );
    Ok((Outcome::Reclaimed, undo))
}

/// The mark goes in front of the entry that it stands behind: two moves.
fn pass<A: Allocator + Clone>(
    store: &mut Store<A>,
    class: usize,
    queue: Queue,
    chunk: ChunkRef,
) -> Result<(Outcome, Record<A>), AllocError>
    requires sound { Sound store.old }
    requires class { IsClass store.old.fixed class }
    requires mark { has same_entry Entry.Mark (queue_of store.old class queue) ≡ true }
    requires entry { before same_entry Entry.Mark (queue_of store.old class queue) ≡ Some (Entry.Chunk chunk) }
    ensures step { IfOk result (λ p. (store.new ≡ passed store.old class queue (Entry.Chunk chunk) (without same_entry Entry.Mark (queue_of store.old class queue))) × (p.0 ≡ Outcome.Passed)) }
    ensures sound { OnOk result (Sound store.new) }
    ensures leads { IfOk result (λ p. LeadsBack p.1.moves store.new store.old) }
    ensures few { IfOk result (λ p. length p.1.moves ≤ 64) }
    ensures err { OnErr result (store.new ≡ store.old) }
    ensures told { IfOk result (λ p. TellsAll p.1 store.new []) }
{
    let mut undo = Record::with_room(store.alloc()?, 2)?;
    change(
        store,
        Change::Take(Listed::InQueue(class, queue, Entry::Mark)),
        &mut undo,
    );
    let ahead = store.before(class, queue, Entry::Chunk(chunk));
    change(
        store,
        Change::Put(Placed::ToQueue(class, queue, Entry::Mark, ahead)),
        &mut undo,
    );
    Ok((Outcome::Passed, undo))
}

/// The mark comes to the item of this chunk.
fn crawl_item<A: Allocator + Clone>(
    store: &mut Store<A>,
    class: usize,
    queue: Queue,
    chunk: ChunkRef,
) -> Result<(Outcome, Record<A>), AllocError>
    requires sound { Sound store.old }
    requires class { IsClass store.old.fixed class }
    requires mark { has same_entry Entry.Mark (queue_of store.old class queue) ≡ true }
    requires entry { before same_entry Entry.Mark (queue_of store.old class queue) ≡ Some (Entry.Chunk chunk) }
    ensures step { IfOk result (λ p. (store.new, p.0) ≡ crawl_item_of store.old class queue chunk (item_at store.old chunk)) }
    ensures sound { OnOk result (Sound store.new) }
    ensures leads { IfOk result (λ p. LeadsBack p.1.moves store.new store.old) }
    ensures few { IfOk result (λ p. length p.1.moves ≤ 64) }
    ensures err { OnErr result (store.new ≡ store.old) }
    ensures told { IfOk result (λ p. TellsAll p.1 store.new (crawl_item_removals store.old (item_at store.old chunk))) }
{
    match store.header(chunk) {
        None => unchanged(store, Outcome::Idle),
        Some(item) => {
            if is_dead(store.globals(), item) {
                reclaim(store, class, queue, chunk)
            } else {
                pass(store, class, queue, chunk)
            }
        }
    }
}

/// The mark of a class's queue takes one step towards the head (protocol.txt, `lru_crawler crawl`; this project's own
/// in that a step handles one entry). BadClass where the class is none of the store, from 1 to the last; Idle where the
/// queue has no mark. A mark at the head is taken out: Ended. Else the entry in front of it is looked at: a dead item
/// is reclaimed, and crawler_reclaimed raised: Reclaimed; in front of a live one goes the mark: Passed. At most five
/// moves.
///
/// Err: a growth was refused, and the store is as it was.
pub fn crawl<A: Allocator + Clone>(
    store: &mut Store<A>,
    class: usize,
    queue: Queue,
) -> Result<(Outcome, Record<A>), AllocError>
    requires { Sound store.old }
    ensures step { IfOk result (λ p. (store.new, p.0) ≡ crawl_of store.old class queue) }
    ensures sound { OnOk result (Sound store.new) }
    ensures leads { IfOk result (λ p. LeadsBack p.1.moves store.new store.old) }
    ensures few { IfOk result (λ p. length p.1.moves ≤ 64) }
    ensures err { OnErr result (store.new ≡ store.old) }
    ensures told { IfOk result (λ p. TellsAll p.1 store.new (crawl_removals store.old class queue)) }
{
    if !is_class(store, class) {
        return unchanged(store, Outcome::BadClass);
    }
    if !store.has_mark(class, queue) {
        return unchanged(store, Outcome::Idle);
    }
    match store.before(class, queue, Entry::Mark) {
        None => end(store, class, queue),
        Some(Entry::Chunk(chunk)) => crawl_item(store, class, queue, chunk),
        Some(Entry::Mark) => unchanged(store, Outcome::Idle),
    }
}
