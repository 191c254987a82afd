//! What a line of a log tells.

use rev_items::Key;
use rev_model::Queue;
use std::alloc::Allocator;

/// When the server made a line, by the Unix clock.
#[derive(Clone, Copy, Debug, PartialEq, Eq)]
pub struct Timestamp {
    pub seconds: u32,
    /// Below 1000000.
    pub microseconds: u32,
}

/// How a look-up ended.
#[derive(Clone, Copy, Debug, PartialEq, Eq)]
pub enum LookUpOutcome {
    Found,
    NotFound,
    /// The item was there, and its lifetime was over.
    Expired,
    /// The item was there, and a flush had made it invalid.
    Flushed,
    /// Any other word.
    Other,
}

/// Which command stored an item.
#[derive(Clone, Copy, Debug, PartialEq, Eq)]
pub enum StoreCommand {
    Set,
    Add,
    Replace,
    Append,
    Prepend,
    Cas,
    /// Any other word.
    Other,
}

/// How a storage command ended.
#[derive(Clone, Copy, Debug, PartialEq, Eq)]
pub enum StoreOutcome {
    Stored,
    NotStored,
    Exists,
    NotFound,
    TooLarge,
    NoMemory,
    /// Any other word.
    Other,
}

/// What happened. A class is a slab class's number, a connection the server's file descriptor, a size the bytes of
/// an item's data, and a time to live is in seconds.
///
/// Keys are decoded. One that no text command can name, since it has a byte of 0 to 32 or 127, as the binary protocol
/// allows, stands as the log spells it: `user%2042`. The size is less then by as many bytes as the spelling is longer,
/// or 0, so that key and data take what they took on the server.
#[derive(Drop)]
pub enum Event<A: Allocator> {
    /// A look-up. Commands that store, delete, touch or count log one, too.
    LookUp {
        key: Key<A>,
        outcome: LookUpOutcome,
        class: u32,
        connection: i32,
        size: u32,
    },
    /// A storage command. A time to live of 2^31 or more was over as it came. At `TooLarge` class and connection say
    /// nothing.
    Store {
        key: Key<A>,
        command: StoreCommand,
        outcome: StoreOutcome,
        ttl: u32,
        class: u32,
        connection: i32,
        size: u32,
    },
    /// A deletion, which only later versions of the server log.
    Deletion {
        key: Key<A>,
        connection: Option<i32>,
    },
    /// An item was evicted; without a time to live it would not have expired. The last access is so many seconds ago.
    Eviction {
        key: Key<A>,
        fetched: bool,
        ttl: Option<u32>,
        last_access: i32,
        class: u32,
        size: u32,
    },
    /// A page moved from one class to another.
    PageMove {
        source: u32,
        target: u32,
    },
    /// The crawl of a queue ended after so many seconds.
    CrawlEnd {
        class: u32,
        queue: Queue,
        elapsed: u32,
        examined: u64,
        reclaimed: u64,
    },
    ConnectionOpened {
        connection: i32,
    },
    ConnectionClosed {
        connection: i32,
    },
    /// An event of another kind, with the kind's name: 1 to 250 bytes, none of them 0 to 32 or 127.
    Unknown {
        kind: Key<A>,
    },
}

/// An event with its time and its number. The server numbers the lines in the order of what happened.
#[derive(Drop)]
pub struct LogLine<A: Allocator> {
    pub time: Timestamp,
    pub gid: u64,
    pub event: Event<A>,
}

/// A line of what a watcher was sent.
#[derive(Drop)]
pub enum Line<A: Allocator> {
    Log(LogLine<A>),
    /// The server left out so many lines here, since the watcher was too slow.
    Skipped(u64),
    /// No line of the log: an answer such as `OK`, or an empty line.
    Other,
}
