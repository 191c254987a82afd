//! An event with what comes behind it.

use rev_watch::event::LogLine;
use std::alloc::Allocator;

/// An event that waits, or that was given out.
#[derive(Drop)]
pub struct Coming<A: Allocator> {
    pub line: LogLine<A>,
    /// How many events came before it.
    pub number: u64,
    /// It is a look-up that a storage command or a deletion made: the next line of its connection is that command, with
    /// the same key. This is known once that line has come.
    pub own: bool,
}
