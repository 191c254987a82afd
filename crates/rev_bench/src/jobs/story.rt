//! Counters that are counted up again and again, one after another, and the story of each.

use crate::draft::Draft;
use std::alloc::AllocError;

/// The most steps of `incr` of one counter.
const EACH: u64 = 45000;

/// Counters, each with so many steps of `incr`.
#[derive(Drop)]
pub struct Story {
    counters: u64,
    each: u64,
}

impl Story {
    /// As many whole counters as so many steps of `incr` make up.
    pub fn new(count: u64) -> Story {
        let each = count.clamp(1, EACH);
        Story {
            counters: count / each,
            each,
        }
    }

    // A counter is set, counted up, and asked for.
    fn turns_of_each(&self) -> u64 {
        self.each.saturating_add(2)
    }

    /// The turns of all counters.
    pub fn turns(&self) -> u64 {
        self.counters.saturating_mul(self.turns_of_each())
    }

    pub fn put(&mut self, draft: &mut Draft, turn: u64) -> Result<(), AllocError> {
        let rank = turn / self.turns_of_each().max(1);
        let turn = turn % self.turns_of_each().max(1);
        if turn == 0 {
            draft.put(b"set")?;
            draft.counter(rank)?;
            draft.line(b" 0 0 1")?;
            draft.line(b"1")
        } else if turn <= self.each {
            draft.put(b"incr")?;
            draft.counter(rank)?;
            let by = draft.random.below(9).wrapping_add(1);
            draft.numbered(b" ", by)
        } else {
            draft.put(b":story")?;
            draft.counter(rank)?;
            draft.end()
        }
    }
}
