//! Which keys the step of a node names, and the mentions of them.
ghost use Rattle.std.specs.Prelude.{◌≡◌, ◌++◌, ℕ, OnOk, drop};
ghost use Rattle.std.specs.Option.{option_map};
ghost use Rattle.rev_items.specs.Hash.{hash_of};
ghost use Rattle.rev_tree.specs.Mentions.{Within};
ghost use Rattle.rev_model.specs.State.{item_at};
ghost use Rattle.rev_inverse.specs.Seen.{plain_moves};
ghost use Rattle.rev_requests.specs.Plain.{plain_step};
ghost use Rattle.rev_tree.specs.Named.{hashed, named, stored_keys, none_or};
ghost use Rattle.rev_tree.specs.Mentioned.{AreMentioned, Grows};

use crate::mentions::Mentions;
use rev_inverse::{Change, Record, Store};
use rev_items::Item;
use rev_model::{ChunkRef, Entry, Listed, Outcome, Placed};
use rev_requests::Step;
use std::alloc::{AllocError, Allocator};

/// The hash of the key that a step stored, where it answered `outcome`.
fn stored_hash<A: Allocator>(step: &Step<A>, outcome: Outcome) -> Option<u32>
    ensures { none_or result ≡ stored_keys (plain_step step.now) outcome }
{
    match step.stored_key(outcome) {
        Some(key) => Some(key.hash()),
        None => None,
    }
}

/// Mentions a hash, if there is one.
#[inline(always)]
fn mention_hash<A: Allocator + Clone>(
    mentions: &mut Mentions<A>,
    hash: Option<u32>,
    node: u32,
) -> Result<(), AllocError>
    requires { Within mentions.old node }
    ensures named { OnOk result (AreMentioned mentions.new (none_or hash) node) }
    ensures grows { Grows mentions.old mentions.new node }
{
    match hash {
        Some(hash) => mentions.note(hash, node),
        None => Ok(()),
    }
}

/// The hash of an item's key.
fn item_hash<A: Allocator>(item: Option<&Item<A>>) -> Option<u32>
    ensures { none_or result ≡ hashed (option_map (λ i. i.now) item.entry) }
{
    match item {
        Some(item) => Some(item.hash()),
        None => None,
    }
}

/// Mentions the key of the item that a chunk holds.
fn mention_chunk<A: Allocator + Clone>(
    mentions: &mut Mentions<A>,
    store: &Store<A>,
    chunk: ChunkRef,
    node: u32,
) -> Result<(), AllocError>
    requires { Within mentions.old node }
    ensures named { OnOk result (AreMentioned mentions.new (hashed (item_at store.now chunk)) node) }
    ensures grows { Grows mentions.old mentions.new node }
{
    mention_hash(mentions, item_hash(store.content(chunk)), node)
}

/// Mentions the key of an item that a change holds, if there is one, and of what a chunk holds.
fn mention_both<A: Allocator + Clone>(
    mentions: &mut Mentions<A>,
    store: &Store<A>,
    item: Option<&Item<A>>,
    chunk: ChunkRef,
    node: u32,
) -> Result<(), AllocError>
    requires { Within mentions.old node }
    ensures named { OnOk result (AreMentioned mentions.new (hashed (option_map (λ i. i.now) item.entry)) node × AreMentioned mentions.new (hashed (item_at store.now chunk)) node) }
    ensures grows { Grows mentions.old mentions.new node }
{
    mention_hash(mentions, item_hash(item), node)?;
    mention_chunk(mentions, store, chunk, node)
}

/// Mentions the keys that a change names.
fn mention_move<A: Allocator + Clone>(
    mentions: &mut Mentions<A>,
    store: &Store<A>,
    undo: &Change<A>,
    node: u32,
) -> Result<(), AllocError>
    requires { Within mentions.old node }
    ensures named { OnOk result (AreMentioned mentions.new (named store.now (plain_moves undo.now)) node) }
    ensures grows { Grows mentions.old mentions.new node }
{
    match undo {
        Change::Enter { chunk, item, .. }
        | Change::Link { chunk, item, .. }
        | Change::Revive { chunk, item, .. } => {
            mention_both(mentions, store, Some(item), *chunk, node)
        }
        Change::Leave { chunk, under, .. } | Change::Unlink { chunk, under, .. } => {
            mention_both(mentions, store, under.as_ref(), *chunk, node)
        }
        Change::Requeue { chunk, .. }
        | Change::Free { chunk, .. }
        | Change::Take(Listed::InQueue(_, _, Entry::Chunk(chunk)))
        | Change::Put(Placed::ToQueue(_, _, Entry::Chunk(chunk), _)) => {
            mention_chunk(mentions, store, *chunk, node)
        }
        Change::Shift(from, to) => {
            mention_chunk(mentions, store, *from, node)?;
            mention_chunk(mentions, store, *to, node)
        }
        _ => Ok(()),
    }
}

/// Mentions the keys that a record names.
fn mention_record<A: Allocator + Clone>(
    mentions: &mut Mentions<A>,
    store: &Store<A>,
    undo: &Record<A>,
    node: u32,
) -> Result<(), AllocError>
    requires { Within mentions.old node }
    ensures named { OnOk result (AreMentioned mentions.new (named store.now undo.now.moves) node) }
    ensures grows { Grows mentions.old mentions.new node }
{
    for i in 0..undo.len() {
        match undo.change(i) {
            Some(change) => mention_move(mentions, store, change, node)?,
            None => unreachable!(),
        }
    }
    Ok(())
}

/// Mentions the keys that a step names which answered `outcome`, left `store` and is undone by `undo`: under the number
/// of its node.
///
/// Err: a growth was refused; some may be mentioned.
pub fn mention<A: Allocator + Clone>(
    mentions: &mut Mentions<A>,
    store: &Store<A>,
    step: &Step<A>,
    outcome: Outcome,
    undo: &Record<A>,
    number: u32,
) -> Result<(), AllocError>
    requires { Within mentions.old number }
    ensures named { OnOk result (AreMentioned mentions.new (stored_keys (plain_step step.now) outcome ++ named store.now undo.now.moves) number) }
    ensures grows { Grows mentions.old mentions.new number }
{
    mention_hash(mentions, stored_hash(step, outcome), number)?;
    mention_record(mentions, store, undo, number)
}
