//! Plays that make the path which is walked or asked about afterwards.

use crate::draft::{Draft, Reply, Storage};
use std::alloc::AllocError;

/// Keys have ranks of so many bits.
pub const WIDTH: u64 = 15;

/// Plays, of which each is one step.
#[derive(Drop)]
pub struct Traffic {
    now: u64,
}

fn set(draft: &mut Draft) -> Result<(), AllocError> {
    let exptime = if draft.random.is_one_in(8) {
        draft.random.below(60).wrapping_add(10)
    } else {
        0
    };
    let storage = Storage {
        command: b"set",
        flags: 0,
        exptime,
        reply: Reply::Wanted,
    };
    let rank = draft.random.rank(WIDTH);
    let size = draft.random.below(401).wrapping_add(20);
    draft.store(storage, rank, size)
}

fn keyed(draft: &mut Draft, command: &[u8]) -> Result<(), AllocError> {
    let rank = draft.random.rank(WIDTH);
    draft.keyed(command, rank)
}

fn touch(draft: &mut Draft) -> Result<(), AllocError> {
    let rank = draft.random.rank(WIDTH);
    draft.put(b"touch")?;
    draft.key(rank)?;
    let exptime = draft.random.below(60).wrapping_add(10);
    draft.numbered(b" ", exptime)
}

fn pull(draft: &mut Draft) -> Result<(), AllocError> {
    let class = draft.random.below(8).wrapping_add(2);
    draft.put(b"~pull ")?;
    draft.number(class)?;
    draft.line(b" hot")
}

impl Traffic {
    pub fn new() -> Traffic {
        Traffic { now: 1 }
    }

    /// The line of one play.
    pub fn put(&mut self, draft: &mut Draft) -> Result<(), AllocError> {
        match draft.random.below(200) {
            0..=89 => set(draft),
            90..=169 => keyed(draft, b"get"),
            170..=179 => keyed(draft, b"delete"),
            180..=184 => touch(draft),
            185..=198 => pull(draft),
            _ => {
                self.now = self.now.wrapping_add(1);
                draft.numbered(b"@ ", self.now)
            }
        }
    }
}
