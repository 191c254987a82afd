//! What became of the lines of logs.

use rev_watch::event::Event;
use std::alloc::Allocator;

/// What became of the lines of logs. Each count stays at the most that 64 bits hold.
#[derive(Clone, Copy, Debug, PartialEq, Eq)]
pub struct LineCounts {
    /// All lines, those that were cut off among them.
    pub lines: u64,
    /// Events outside the seconds that are asked for.
    pub outside: u64,
    /// Lines that are none of a log, such as an answer `OK`.
    pub other: u64,
    /// Last lines without an LF, which were not looked at.
    pub cut_off: u64,
    /// Lines that the server left out, as it says, since its watcher was too slow.
    pub skipped: u64,
    /// Events.
    pub events: u64,
    /// How often the server was started anew.
    pub restarts: u64,
    /// Events that a sample leaves out: of other keys, and page moves.
    pub of_other_keys: u64,
    pub page_moves: u64,
}

impl LineCounts {
    /// No line was read.
    pub fn none() -> LineCounts {
        LineCounts {
            lines: 0,
            outside: 0,
            other: 0,
            cut_off: 0,
            skipped: 0,
            events: 0,
            restarts: 0,
            of_other_keys: 0,
            page_moves: 0,
        }
    }
}

/// Counts so many more.
pub fn add(count: &mut u64, more: u64) {
    *count = count.saturating_add(more);
}

/// Counts an event that a sample leaves out.
pub(crate) fn leave_out<A: Allocator>(counts: &mut LineCounts, event: &Event<A>) {
    let count = match event {
        Event::PageMove { .. } => &mut counts.page_moves,
        _ => &mut counts.of_other_keys,
    };
    add(count, 1);
}
