//! A line of a script, with all that belongs to it.

use crate::command::{BadAnswer, BookmarkCommand, DebugCommand, KeyQuery, StorageCommand};
use rev_items::Key;
use rev_requests::{ActorStep, KeyCommand, Payload, Tune};
use std::alloc::Allocator;

/// A line of a client.
#[derive(Drop)]
pub enum ClientLine<A: Allocator> {
    Storage {
        command: StorageCommand,
        key: Key<A>,
        flags: u32,
        exptime: i32,
        payload: Payload<A>,
        noreply: bool,
    },
    /// One step a key, in this order; `gets` prints cas numbers.
    Retrieval {
        keys: Vec<Key<A>, A>,
        with_cas: bool,
    },
    Update {
        command: KeyCommand,
        key: Key<A>,
        noreply: bool,
    },
    /// With the delay in seconds.
    FlushAll {
        delay: i32,
        noreply: bool,
    },
}

/// A debug command, with its key or its bookmark's name.
#[derive(Drop)]
pub enum DebugLine<A: Allocator> {
    Plain(DebugCommand),
    Query {
        query: KeyQuery,
        key: Key<A>,
    },
    Bookmark {
        command: BookmarkCommand,
        name: Vec<u8, A>,
    },
}

/// A line of a script.
#[derive(Drop)]
pub enum Line<A: Allocator> {
    Client(ClientLine<A>),
    Actor(ActorStep),
    Tune(Tune),
    Debug(DebugLine<A>),
    /// A malformed line, which makes no step.
    Bad { answer: BadAnswer },
}

/// A line as far as its own bytes say it: whole, or a storage line that wants its data block.
pub enum Asked<A: Allocator> {
    Done(Line<A>),
    Storage {
        command: StorageCommand,
        key: Key<A>,
        flags: u32,
        exptime: i32,
        size: u32,
        noreply: bool,
    },
}
