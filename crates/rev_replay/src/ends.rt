//! By which of its numbers a line is found among the logs.

use std::alloc::{AllocError, Allocator};

/// The greatest number of each log that was read to its end, in one life of the server.
#[derive(Drop)]
pub struct LogEnds<A: Allocator> {
    // the place of the log in which this life began
    first: usize,
    ends: Vec<u64, A>,
    // the greatest number so far
    greatest: u64,
}

impl<A: Allocator> LogEnds<A> {
    /// No line was read. No memory is taken.
    pub fn new(alloc: A) -> LogEnds<A> {
        LogEnds {
            first: 0,
            ends: Vec::new(alloc),
            greatest: 0,
        }
    }

    /// A line of this number was read.
    pub fn note(&mut self, gid: u64) {
        self.greatest = self.greatest.max(gid);
    }

    /// A log was read to its end.
    ///
    /// Err: memory was refused.
    pub fn end_log(&mut self) -> Result<(), AllocError> {
        self.ends.push(self.greatest)?;
        Ok(())
    }

    /// Another life of the server begins in the log that is read.
    pub fn begin_life(&mut self) {
        self.first = self.first.saturating_add(self.ends.len());
        self.ends.clear();
        self.greatest = 0;
    }

    /// The place of the log that a line of this number stands in: the first one that does not end before it.
    pub fn log_of(&self, gid: u64) -> usize {
        let before = self.ends.iter().filter(|end| **end < gid).count();
        self.first.saturating_add(before)
    }
}
