//! A sample of times that came one after another, and its median.
//!
//! At first each is kept. When there is no room, every second one goes, and from then on only every second one comes;
//! and so on. So at any moment those that are kept are spread evenly over all that came. What is kept is in no
//! contract: it is tested.
use std::alloc::{AllocError, Allocator};

/// Up to so many times are kept (this project's own figure).
const MOST_TIMES: usize = 128;

/// A sample of times.
#[derive(Drop)]
pub struct Sample<A: Allocator> {
    alloc: A,
    times: Vec<u64, A>,
    // of so many that come one is kept
    every: u64,
    // how many come before the next one that is kept
    skipped: u64,
}

// How many are below one of them, and how many are not above it.
fn rank_of(times: &[u64], time: u64) -> (usize, usize) {
    let below = times.iter().filter(|other| **other < time).count();
    let up_to = times.iter().filter(|other| **other <= time).count();
    (below, up_to)
}

// The one in the middle, the lower of two.
fn median(times: &[u64]) -> Option<u64> {
    let middle = times.len().saturating_sub(1) / 2;
    for time in times {
        let (below, up_to) = rank_of(times, *time);
        if below <= middle && middle < up_to {
            return Some(*time);
        }
    }
    None
}

// Every second one, the first among them.
fn halved<A: Allocator>(alloc: A, times: &[u64]) -> Result<Vec<u64, A>, AllocError> {
    let mut kept = Vec::with_capacity(alloc, MOST_TIMES)?;
    for pair in times.chunks(2) {
        match pair.first() {
            Some(first) => kept.push(*first)?,
            None => {}
        }
    }
    Ok(kept)
}

impl<A: Allocator + Copy> Sample<A> {
    /// No time came.
    pub fn new(alloc: A) -> Sample<A> {
        Sample {
            alloc,
            times: Vec::new(alloc),
            every: 1,
            skipped: 0,
        }
    }

    /// A time came.
    ///
    /// Err: memory was refused.
    pub fn add(&mut self, time: u64) -> Result<(), AllocError> {
        if self.skipped > 0 {
            self.skipped -= 1;
            return Ok(());
        }
        if self.times.len() >= MOST_TIMES {
            self.times = halved(self.alloc, self.times.as_slice())?;
            self.every = self.every.saturating_mul(2);
        }
        self.times.push(time)?;
        self.skipped = self.every.saturating_sub(1);
        Ok(())
    }

    /// The median of the times that are kept: the lower of two in the middle.
    pub fn median(&self) -> Option<u64> {
        median(self.times.as_slice())
    }
}
