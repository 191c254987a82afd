//! The commands of clients.
ghost use Rattle.std.specs.Prelude.{◌≡◌, ◌↔◌, IsTrue, IfOk, Some};
ghost use Rattle.rev_model.specs.Client.{Stores, Joins, Flushes};
ghost use Rattle.rev_requests.specs.Plain.{plain_client, plain_payload, plain_verb, plain_side, plain_keyed};

use crate::payloads::Payload;
use rev_items::Key;
use std::alloc::{AllocError, Allocator};

/// When an item is stored (protocol.txt).
#[derive(Clone, Copy, Debug, PartialEq, Eq)]
pub enum StoreVerb {
    /// Whatever the key holds.
    Set,
    /// Where the key holds none.
    Add,
    /// Where the key holds one.
    Replace,
    /// Where the key holds one of this cas number.
    Cas(u64),
}

/// Where the new data go (protocol.txt).
#[derive(Clone, Copy, Debug, PartialEq, Eq)]
pub enum JoinSide {
    /// Behind the old.
    Append,
    /// In front of the old.
    Prepend,
}

/// What becomes of an item whose data are a decimal number of 64 bits (protocol.txt).
#[derive(Clone, Copy, Debug, PartialEq, Eq)]
pub enum Arithmetic {
    /// The number grows, and wraps past 64 bits.
    Increment(u64),
    /// The number falls, and stops at 0.
    Decrement(u64),
}

/// A command on one key that brings no data (protocol.txt; `Evict` is this project's own).
#[derive(Clone, Copy, Debug, PartialEq, Eq)]
pub enum KeyCommand {
    /// Reads the key's item.
    Get,
    /// Removes the key's item.
    Delete,
    /// Removes the key's item as one that a set evicts.
    Evict,
    /// Gives the key's item a new time to live: seconds, as in `ClientStep::Store`.
    Touch(i32),
    /// Counts the number that the key's item holds up or down.
    Count(Arithmetic),
}

/// A command of a client (protocol.txt).
#[derive(Drop)]
pub enum ClientStep<A: Allocator> {
    /// Stores an item.
    Store {
        verb: StoreVerb,
        key: Key<A>,
        flags: u32,
        /// Seconds: 0 never, negative long past, up to thirty days from now, else a moment.
        exptime: i32,
        data: Payload<A>,
    },
    /// Joins data to those of the key's item.
    Join {
        side: JoinSide,
        key: Key<A>,
        data: Payload<A>,
    },
    /// A command that brings no data.
    Keyed {
        command: KeyCommand,
        key: Key<A>,
    },
    /// Lets all items die after `delay` seconds, read as `exptime` of `Store` is; at once where that is 0 or negative.
    FlushAll {
        delay: i32,
    },
}

impl<A: Allocator> ClientStep<A> {
    /// An equal step.
    ///
    /// Err: a growth was refused.
    pub fn copy<B: Allocator + Clone>(&self, alloc: B) -> Result<ClientStep<B>, AllocError>
        ensures { IfOk result (λ copy. plain_client copy ≡ plain_client self.now) }
    {
        match self {
            ClientStep::Store {
                verb,
                key,
                flags,
                exptime,
                data,
            } => copy_store(*verb, key, *flags, *exptime, data, alloc),
            ClientStep::Join { side, key, data } => copy_join(*side, key, data, alloc),
            ClientStep::Keyed { command, key } => Ok(ClientStep::Keyed {
                command: *command,
                key: key.copy(alloc)?,
            }),
            ClientStep::FlushAll { delay } => Ok(ClientStep::FlushAll { delay: *delay }),
        }
    }

    /// Whether the two are equal.
    pub fn is_same<B: Allocator>(&self, other: &ClientStep<B>) -> bool
        ensures { IsTrue result ↔ (plain_client self.now ≡ plain_client other.now) }
    {
        match self {
            ClientStep::Store {
                verb,
                key,
                flags,
                exptime,
                data,
            } => is_store(*verb, key, *flags, *exptime, data, other),
            ClientStep::Join { side, key, data } => is_join(*side, key, data, other),
            ClientStep::Keyed { command, key } => is_keyed(*command, key, other),
            ClientStep::FlushAll { delay } => is_flush(*delay, other),
        }
    }
}

fn copy_store<A: Allocator, B: Allocator + Clone>(
    verb: StoreVerb,
    key: &Key<A>,
    flags: u32,
    exptime: i32,
    payload: &Payload<A>,
    alloc: B,
) -> Result<ClientStep<B>, AllocError>
    ensures { IfOk result (λ copy. plain_client copy ≡ Stores (plain_verb verb) key.now flags exptime (plain_payload payload.now)) }
{
    let key = key.copy(alloc.clone()?)?;
    let data = payload.copy(alloc)?;
    Ok(ClientStep::Store {
        verb,
        key,
        flags,
        exptime,
        data,
    })
}

fn copy_join<A: Allocator, B: Allocator + Clone>(
    side: JoinSide,
    key: &Key<A>,
    payload: &Payload<A>,
    alloc: B,
) -> Result<ClientStep<B>, AllocError>
    ensures { IfOk result (λ copy. plain_client copy ≡ Joins (plain_side side) key.now (plain_payload payload.now)) }
{
    let key = key.copy(alloc.clone()?)?;
    let data = payload.copy(alloc)?;
    Ok(ClientStep::Join { side, key, data })
}

/// Whether the step stores this item so.
fn is_store<A: Allocator, B: Allocator>(
    verb: StoreVerb,
    key: &Key<A>,
    flags: u32,
    exptime: i32,
    payload: &Payload<A>,
    other: &ClientStep<B>,
) -> bool
    ensures { IsTrue result ↔ (Stores (plain_verb verb) key.now flags exptime (plain_payload payload.now) ≡ plain_client other.now) }
{
    match other {
        ClientStep::Store {
            verb: other_verb,
            key: other_key,
            flags: other_flags,
            exptime: other_exptime,
            data: other_data,
        } => {
            let numbers = flags == *other_flags && exptime == *other_exptime;
            let same = verb == *other_verb && numbers;
            same && key.is_same(other_key) && payload.is_same(other_data)
        }
        _ => false,
    }
}

/// Whether the step joins these data so.
fn is_join<A: Allocator, B: Allocator>(
    side: JoinSide,
    key: &Key<A>,
    payload: &Payload<A>,
    other: &ClientStep<B>,
) -> bool
    ensures { IsTrue result ↔ (Joins (plain_side side) key.now (plain_payload payload.now) ≡ plain_client other.now) }
{
    match other {
        ClientStep::Join {
            side: other_side,
            key: other_key,
            data: other_data,
        } => side == *other_side && key.is_same(other_key) && payload.is_same(other_data),
        _ => false,
    }
}

/// Whether the step is this command on this key.
fn is_keyed<A: Allocator, B: Allocator>(
    command: KeyCommand,
    key: &Key<A>,
    other: &ClientStep<B>,
) -> bool
    ensures { IsTrue result ↔ (plain_keyed command key.now ≡ plain_client other.now) }
{
    match other {
        ClientStep::Keyed {
            command: other_command,
            key: other_key,
        } => command == *other_command && key.is_same(other_key),
        _ => false,
    }
}

/// Whether the step flushes after this delay.
fn is_flush<B: Allocator>(delay: i32, other: &ClientStep<B>) -> bool
    ensures { IsTrue result ↔ (Flushes (Some delay) ≡ plain_client other.now) }
{
    match other {
        ClientStep::FlushAll { delay: other_delay } => delay == *other_delay,
        _ => false,
    }
}
