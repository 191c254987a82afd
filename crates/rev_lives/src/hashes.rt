//! Which keys an event may concern, by their hashes: that of its line, those that its steps stored, and those that the
//! records of its steps name. To a key of any other hash the event does nothing.
ghost use Rattle.std.specs.Prelude.{◌≡◌, ◌++◌, ◌∷◌, [], ℕ, List, IsTrue, OnOk, true, false, nat_eq};
ghost use Rattle.std.specs.Option.{option_map};
ghost use Rattle.rev_items.specs.Hash.{hash_of};
ghost use Rattle.rev_model.specs.Lists.{has};
ghost use Rattle.rev_model.specs.State.{item_at};
ghost use Rattle.rev_inverse.specs.Seen.{plain_moves};
ghost use Rattle.rev_requests.specs.Plain.{plain_step};
ghost use Rattle.rev_tree.specs.Named.{hashed, named, stored_keys, none_or};
ghost use Rattle.rev_lives.specs.Hashes.{Gathers, AreStill, IsAside};

use rev_evidence::heard::key_hash;
use rev_inverse::{Change, RecordRef, Store};
use rev_items::Item;
use rev_model::{ChunkRef, Entry, Listed, Outcome, Placed};
use rev_replay::heard::Heard;
use rev_requests::Step;
use rev_undotree::Session;
use std::alloc::{AllocError, Allocator};

// Whether a hash is the last one that was noted.
fn is_last(hash: u32, hashes: &[u32]) -> bool
    ensures { IsTrue result → has nat_eq hash hashes.now ≡ true }
{
    match hashes.last() {
        Some(last) => *last == hash,
        None => false,
    }
}

// Notes a hash, but for the one that was noted last.
fn note<A: Allocator>(hashes: &mut Vec<u32, A>, hash: u32) -> Result<(), AllocError>
    ensures { OnOk result (Gathers hashes.old.items hashes.new.items (hash ∷ [])) }
{
    if is_last(hash, hashes.as_slice()) {
        return Ok(());
    }
    hashes.push(hash)?;
    Ok(())
}

// Notes a hash, if there is one.
fn note_if<A: Allocator>(hashes: &mut Vec<u32, A>, hash: Option<u32>) -> Result<(), AllocError>
    ensures { OnOk result (Gathers hashes.old.items hashes.new.items (none_or hash)) }
{
    match hash {
        Some(hash) => note(hashes, hash),
        None => Ok(()),
    }
}

// The hash of an item's key.
fn item_hash<A: Allocator>(item: Option<&Item<A>>) -> Option<u32>
    ensures { none_or result ≡ hashed (option_map (λ i. i.now) item.entry) }
{
    match item {
        Some(item) => Some(item.hash()),
        None => None,
    }
}

// The hash of the key that a step stored, where it answered so.
fn stored_hash<A: Allocator>(step: &Step<A>, outcome: Outcome) -> Option<u32>
    ensures { none_or result ≡ stored_keys (plain_step step.now) outcome }
{
    match step.stored_key(outcome) {
        Some(key) => Some(key.hash()),
        None => None,
    }
}

// Notes the key of the item that a chunk holds.
fn note_chunk<A: Allocator + Copy>(
    hashes: &mut Vec<u32, A>,
    store: &Store<A>,
    chunk: ChunkRef,
) -> Result<(), AllocError>
    ensures { OnOk result (Gathers hashes.old.items hashes.new.items (hashed (item_at store.now chunk))) }
{
    note_if(hashes, item_hash(store.content(chunk)))
}

// Notes the key of an item that a change holds, if there is one, and of what a chunk holds.
fn note_both<A: Allocator + Copy>(
    hashes: &mut Vec<u32, A>,
    store: &Store<A>,
    item: Option<&Item<A>>,
    chunk: ChunkRef,
) -> Result<(), AllocError>
    ensures { OnOk result (Gathers hashes.old.items hashes.new.items (hashed (option_map (λ i. i.now) item.entry) ++ hashed (item_at store.now chunk))) }
{
    note_if(hashes, item_hash(item))?;
    note_chunk(hashes, store, chunk)
}

// Notes the keys that a change of a record names.
fn note_change<A: Allocator + Copy>(
    hashes: &mut Vec<u32, A>,
    store: &Store<A>,
    undo: &Change<A>,
) -> Result<(), AllocError>
    ensures { OnOk result (Gathers hashes.old.items hashes.new.items (named store.now (plain_moves undo.now))) }
{
    match undo {
        Change::Enter { chunk, item, .. }
        | Change::Link { chunk, item, .. }
        | Change::Revive { chunk, item, .. } => note_both(hashes, store, Some(item), *chunk),
        Change::Leave { chunk, under, .. } | Change::Unlink { chunk, under, .. } => {
            note_both(hashes, store, under.as_ref(), *chunk)
        }
        Change::Requeue { chunk, .. }
        | Change::Free { chunk, .. }
        | Change::Take(Listed::InQueue(_, _, Entry::Chunk(chunk)))
        | Change::Put(Placed::ToQueue(_, _, Entry::Chunk(chunk), _)) => {
            note_chunk(hashes, store, *chunk)
        }
        Change::Shift(from, to) => {
            note_chunk(hashes, store, *from)?;
            note_chunk(hashes, store, *to)
        }
        _ => Ok(()),
    }
}

// Notes the keys that a record names.
fn note_record<A: Allocator + Copy>(
    hashes: &mut Vec<u32, A>,
    store: &Store<A>,
    trace: &RecordRef<A>,
) -> Result<(), AllocError>
    ensures { OnOk result (Gathers hashes.old.items hashes.new.items (named store.now trace.now.moves)) }
{
    for i in 0..trace.len() {
        match trace.change(i) {
            Some(undo) => note_change(hashes, store, undo)?,
            None => unreachable!(),
        }
    }
    Ok(())
}

// Notes the key that a step stored, where it answered so, and the keys that its record names.
fn note_step<A: Allocator + Copy>(
    hashes: &mut Vec<u32, A>,
    store: &Store<A>,
    step: &Step<A>,
    outcome: Outcome,
    trace: &RecordRef<A>,
) -> Result<(), AllocError>
    ensures { OnOk result (Gathers hashes.old.items hashes.new.items (stored_keys (plain_step step.now) outcome ++ named store.now trace.now.moves)) }
{
    note_if(hashes, stored_hash(step, outcome))?;
    note_record(hashes, store, trace)
}

// Notes the keys to which a step on the way to the current node may have done anything.
fn note_steps<A: Allocator + Copy>(
    hashes: &mut Vec<u32, A>,
    session: &Session<A>,
) -> Result<(), AllocError>
    ensures { OnOk result (AreStill session.now hashes.old.items hashes.new.items) }
{
    let mut depth = session.depth();
    'nodes: while let Some((_, step, outcome, trace)) = session.trail(depth) {
        note_step(hashes, session.store(), step, outcome, &trace)?;
        depth -= 1;
    }
    Ok(())
}

/// Puts the hashes of the keys that an event may concern in the place of what is there; one may stand there twice. They
/// are read off its line and, once each, off the records of its steps.
///
/// Err: memory was refused.
pub fn gather<A: Allocator + Copy>(
    hashes: &mut Vec<u32, A>,
    heard: &Heard<'_, A>,
) -> Result<(), AllocError>
    ensures { OnOk result ((k : List ℕ) → has nat_eq (hash_of k) hashes.new.items ≡ false → IsAside heard.now k) }
{
    hashes.clear();
    note_if(hashes, key_hash(heard.event))?;
    note_steps(hashes, heard.session)
}
