//! The new item, which is made before the step's first change.
ghost use Rattle.std.specs.Prelude.{◌≡◌, ℕ, ◌+◌, ◌++◌, ◌≤◌, length, option_copied, None, Some, IfOk};
ghost use Rattle.rev_model.specs.Client.{Bytes, join, count};
ghost use Rattle.rev_model.specs.State.{find};
ghost use Rattle.rev_model.specs.Sound.{Sound};
ghost use Rattle.rev_requests.specs.Plain.{plain_payload, plain_side, plain_sum, amount};
ghost use Rattle.rev_commands.specs.Drafts.{IsDraft, IsPlan};
ghost use Rattle.rev_commands.specs.Living.{live_at};
ghost use Rattle.rev_model.specs.declared.Outcome.TheVariants as outcome;
ghost use Rattle.rev_model.specs.Causes.{join_removals, count_removals};

use crate::fresh::{class_for, new_item};
use crate::number::{number_of, summed};
use itoa::Buffer;
use rev_inverse::Store;
use rev_items::{Data, Item, Key};
use rev_model::{ChunkRef, Outcome};
use rev_requests::{Arithmetic, JoinSide, Payload};
use std::alloc::{AllocError, Allocator};

/// An item that is to take the place of the key's item.
#[derive(Drop)]
pub struct Draft<A: Allocator> {
    /// The slab class that it lies in.
    pub class: usize,
    pub item: Item<A>,
    /// What is answered once it is stored.
    pub answer: Outcome,
}

/// What a command is to do, as it stands before any change.
#[derive(Drop)]
pub enum Plan<A: Allocator> {
    /// The key has no live item.
    Missing,
    /// The key's item stays as it is, and this is answered.
    Refused(Outcome),
    /// The key's item makes way for another.
    Replaced(Draft<A>),
}

/// The item of the chunk that a key leads to, if it is alive.
fn live<A: Allocator>(store: &Store<A>, found: Option<ChunkRef>) -> Option<&Item<A>>
    ensures { option_copied result ≡ live_at store.now found }
{
    let item = store.content(found?)?;
    let globals = store.globals();
    if item.is_dead(globals.clock, globals.flush_limit) {
        return None;
    }
    Some(item)
}

/// The two parts, one behind the other.
///
/// Err: a growth was refused.
fn joined<A: Allocator>(alloc: A, first: &[u8], second: &[u8]) -> Result<Vec<u8, A>, AllocError>
    requires { length first.now + length second.now ≤ 1048576 }
    ensures { IfOk result (λ value. value.items ≡ first.now ++ second.now) }
{
    let mut value = Vec::with_capacity(alloc, first.len() + second.len())?;
    value.extend_from_slice(first)?;
    value.extend_from_slice(second)?;
    Ok(value)
}

/// The plan to give the old item data in two parts.
///
/// Err: a growth was refused.
fn plan_data<A: Allocator + Clone>(
    store: &Store<A>,
    old: &Item<A>,
    first: &[u8],
    second: &[u8],
    answer: Outcome,
) -> Result<Plan<A>, AllocError>
    requires { Sound store.now }
    ensures { IfOk result (λ plan. IsDraft store.now old.now (Bytes (first.now ++ second.now)) answer plan) }
{
    let length = first.len() + second.len();
    match class_for(store, old.key(), old.flags(), length) {
        None => Ok(Plan::Refused(Outcome::TooLarge)),
        Some(class) => {
            let value = joined(store.alloc()?, first, second)?;
            let value = Data::from_vec(value)?;
            let item = new_item(store, old.key(), old.flags(), old.moment(), value)?;
            Ok(Plan::Replaced(Draft {
                class,
                item,
                answer,
            }))
        }
    }
}

/// The plan of append or prepend, for the item in the chunk `found`, to which the key leads.
///
/// Err: a growth was refused.
pub fn plan_join<A: Allocator + Clone>(
    store: &Store<A>,
    side: JoinSide,
    key: &Key<A>,
    found: Option<ChunkRef>,
    payload: &Payload<A>,
) -> Result<Plan<A>, AllocError>
    requires sound { Sound store.now }
    requires led { found ≡ find store.now key.now }
    ensures { IfOk result (λ plan. IsPlan store.now key.now outcome.NotStored (join store.now (plain_side side) key.now (plain_payload payload.now)) (join_removals store.now (plain_side side) key.now (plain_payload payload.now)) plan) }
{
    let Some(old) = live(store, found) else {
        return Ok(Plan::Missing);
    };
    match payload {
        Payload::Skipped(_) => Ok(Plan::Refused(Outcome::TooLarge)),
        Payload::Bytes(value) => {
            let (kept, added) = (old.value(), value.as_slice());
            match side {
                JoinSide::Append => plan_data(store, old, kept, added, Outcome::Stored),
                JoinSide::Prepend => plan_data(store, old, added, kept, Outcome::Stored),
            }
        }
    }
}

/// The plan of incr or decr, for the item in the chunk `found`, to which the key leads.
///
/// Err: a growth was refused.
pub fn plan_count<A: Allocator + Clone>(
    store: &Store<A>,
    arithmetic: Arithmetic,
    key: &Key<A>,
    found: Option<ChunkRef>,
) -> Result<Plan<A>, AllocError>
    requires sound { Sound store.now }
    requires led { found ≡ find store.now key.now }
    ensures { IfOk result (λ plan. IsPlan store.now key.now outcome.NotFound (count store.now (plain_sum arithmetic) key.now (amount arithmetic)) (count_removals store.now (plain_sum arithmetic) key.now (amount arithmetic)) plan) }
{
    let Some(old) = live(store, found) else {
        return Ok(Plan::Missing);
    };
    let Some(number) = number_of(old.value()) else {
        return Ok(Plan::Refused(Outcome::NotNumber));
    };
    let number = summed(arithmetic, number);
    let mut buffer = Buffer::new();
    let digits = buffer.format(number).as_bytes();
    plan_data(store, old, digits, b"", Outcome::Number(number))
}
