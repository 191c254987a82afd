//! Why a step was played.

use rev_watch::event::Timestamp;

/// Why a step was played.
#[derive(Clone, Copy, Debug, PartialEq, Eq)]
pub enum Role {
    /// What the event of the log itself says: a get, a set, a refused add, a page move, a logged delete.
    Event,
    /// The event's own store, by which the rules evict the key that the log evicts.
    Evicting,
    /// The LRU maintainer, the page mover or the clock, as they come between the lines.
    Actor,
    /// An `~evict` for the eviction that the log has here, mostly right in front of its store.
    Eviction,
    /// A delete that the log does not show: the key is gone at the latest at the line of this time. Where a page of
    /// its class moved while it was held, the page mover is the likely cause, and else a client's delete.
    Inferred { shown: Timestamp, moved: bool },
    /// A delete of an item whose known lifetime is over: the server let it go, and its chunk was used.
    Expiry,
    /// A touch that stands for a lifetime that the log does not show.
    Lifetime,
    /// A touch or a delete of an item that a flush made invalid.
    Flush,
    /// What stands in front of a key that the log shows and the replay lacks, and its set.
    Restore,
    /// A delete of an item whose key is in no sample: its store was played for the evictions that waited for it.
    Outside,
}
