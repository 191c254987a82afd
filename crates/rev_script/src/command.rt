//! What a line may ask for.
//!
//! These types hold no text: a key or a name is always the word behind the command's own word.

use rev_model::Queue;
use rev_requests::{ActorStep, JoinSide, KeyCommand, StoreVerb, Tune};

/// How a malformed line is answered. The line makes no step.
#[derive(Clone, Copy)]
pub enum BadAnswer {
    /// Unknown command, or wrong number of words.
    Error,
    /// A key or a number that breaks its rule.
    BadFormat,
    /// `delete` with words behind its key that it does not know.
    DeleteUsage,
    /// `touch` with a bad expiry time.
    BadExptime,
    /// `incr` or `decr` with a bad number.
    BadDelta,
    /// `lru tune` with shares whose sum is over 80 per cent.
    SharesOver80,
    /// More bytes than a line may have.
    LineTooLong,
    /// A data block that does not end in CR LF, or that the input cut off.
    BadChunk,
    /// A malformed line that begins with `~`, `@` or `:`.
    BadCommand,
}

/// A command on one key that brings data (protocol.txt's storage commands).
#[derive(Clone, Copy)]
pub enum StorageCommand {
    /// An item is made of the data.
    Store(StoreVerb),
    /// The data are joined to those of the key's item.
    Join(JoinSide),
}

/// A debug command that has no key and no name behind it. Like each debug command it makes no step.
#[derive(Clone, Copy)]
pub enum DebugCommand {
    At,
    Back,
    /// With the child's place, from 0.
    Forward(u32),
    /// With the node's number.
    Go(u32),
    /// With how many entries are wanted, the first ones; all where there is no number.
    Queue {
        class: u32,
        queue: Queue,
        limit: Option<u32>,
    },
    Free(u32),
    Pages,
    Counters(u32),
    Globals,
    Tree,
    Marks,
    Prune(u32),
    /// With how many are wanted, the last ones; all where there is no number.
    Gone(Option<u32>),
    /// With the node's number.
    Step(u32),
    /// With the time, in seconds.
    Time(u32),
    Classes,
    Help,
}

/// A debug command about one key.
#[derive(Clone, Copy)]
pub enum KeyQuery {
    Item,
    Chunk,
    Why,
    Story,
}

/// A debug command about one name: that of a bookmark, or for `Help` a command's own word.
#[derive(Clone, Copy)]
pub enum BookmarkCommand {
    Mark,
    Goto,
    Help,
}

/// What a line asks for, but for its keys or its bookmark's name, which stand behind its first word.
#[derive(Clone, Copy)]
pub enum Command {
    /// The second word is the key; a data block of `size` bytes and CR LF follows the line.
    Storage {
        command: StorageCommand,
        flags: u32,
        exptime: i32,
        size: u32,
        noreply: bool,
    },
    /// Each word from the second on is a key, for one step each; `gets` prints cas numbers.
    Retrieval {
        with_cas: bool,
    },
    /// The second word is the key. (`get` is a kind of its own, as it may have several.)
    Update {
        command: KeyCommand,
        noreply: bool,
    },
    /// With the delay in seconds; 0 where the line has none.
    FlushAll {
        delay: i32,
        noreply: bool,
    },
    Actor(ActorStep),
    Tune(Tune),
    Debug(DebugCommand),
    /// The second word is the key.
    Query(KeyQuery),
    /// The second word is the name.
    Bookmark(BookmarkCommand),
    Bad(BadAnswer),
}
