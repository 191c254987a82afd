//! A day's trace: few keys are asked often, most commands are sets and gets, and some data are large.

use crate::draft::{Draft, Reply, Storage};
use std::alloc::AllocError;

/// Keys have ranks of so many bits: 65536 of them, of which a run of some hundred thousand commands asks for most.
const WIDTH: u64 = 16;

/// Counters have ranks of so many bits.
const COUNTERS: u64 = 7;

/// So many commands.
#[derive(Drop)]
pub struct Replay {
    count: u64,
    now: u64,
}

// What a storage command says beside its key.
fn storage(draft: &mut Draft, command: &'static [u8]) -> Storage {
    let flags = if draft.random.is_one_in(8) {
        draft.random.below(1000)
    } else {
        0
    };
    let exptime = if draft.random.is_one_in(6) {
        draft.random.below(600).wrapping_add(30)
    } else {
        0
    };
    let reply = if draft.random.is_one_in(10) {
        Reply::Dropped
    } else {
        Reply::Wanted
    };
    Storage {
        command,
        flags,
        exptime,
        reply,
    }
}

// Bytes of a value: 1 to 899, where those of one key are alike, or now and then 20 to 100 KB.
fn value_size(draft: &mut Draft, rank: u64) -> u64 {
    if draft.random.is_one_in(500) {
        return draft.random.below(80000).wrapping_add(20000);
    }
    let usual = rank.wrapping_mul(7919) % 700;
    draft.random.below(200).wrapping_add(usual).wrapping_add(1) % 900
}

// A storage command for a key of the trace.
fn store(draft: &mut Draft, command: &'static [u8]) -> Result<(), AllocError> {
    let rank = draft.random.rank(WIDTH);
    let storage = storage(draft, command);
    let size = value_size(draft, rank);
    draft.store(storage, rank, size)
}

// A few bytes that are put behind or in front of a value.
fn lengthen(draft: &mut Draft, command: &'static [u8]) -> Result<(), AllocError> {
    let rank = draft.random.rank(WIDTH);
    let size = draft.random.below(12).wrapping_add(1);
    let storage = storage(draft, command);
    draft.store(storage, rank, size)
}

fn set(draft: &mut Draft) -> Result<(), AllocError> {
    if draft.random.is_one_in(40) {
        let rank = draft.random.rank(COUNTERS);
        let storage = storage(draft, b"set");
        return draft.store_counter(storage, rank);
    }
    store(draft, b"set")
}

fn get(draft: &mut Draft) -> Result<(), AllocError> {
    draft.put(b"get")?;
    let keys = if draft.random.is_one_in(10) {
        draft.random.below(7).wrapping_add(2)
    } else {
        1
    };
    for _ in 0..keys {
        let rank = draft.random.rank(WIDTH);
        draft.key(rank)?;
    }
    draft.end()
}

// Asks for a key's cas number, and stores for an old one, as a client does that comes late: it is mostly refused.
fn compare(draft: &mut Draft) -> Result<(), AllocError> {
    let rank = draft.random.rank(WIDTH);
    draft.keyed(b"gets", rank)?;
    let storage = storage(draft, b"cas");
    let size = value_size(draft, rank);
    let cas = draft.random.rank(WIDTH);
    draft.compare(storage, rank, size, cas)
}

fn count(draft: &mut Draft, command: &[u8]) -> Result<(), AllocError> {
    let rank = draft.random.rank(COUNTERS);
    let by = draft.random.below(9).wrapping_add(1);
    draft.put(command)?;
    draft.counter(rank)?;
    draft.numbered(b" ", by)
}

fn delete(draft: &mut Draft) -> Result<(), AllocError> {
    let rank = draft.random.rank(WIDTH);
    draft.keyed(b"delete", rank)
}

fn touch(draft: &mut Draft) -> Result<(), AllocError> {
    let rank = draft.random.rank(WIDTH);
    let exptime = draft.random.below(600).wrapping_add(30);
    draft.put(b"touch")?;
    draft.key(rank)?;
    draft.numbered(b" ", exptime)
}

impl Replay {
    pub fn new(count: u64) -> Replay {
        Replay { count, now: 1 }
    }

    pub fn turns(&self) -> u64 {
        self.count
    }

    // The clock moves on by a few seconds.
    fn tick(&mut self, draft: &mut Draft) -> Result<(), AllocError> {
        let seconds = draft.random.below(4).wrapping_add(1);
        self.now = self.now.wrapping_add(seconds);
        draft.numbered(b"@ ", self.now)
    }

    // One of the commands that are rare.
    fn rare(&mut self, draft: &mut Draft) -> Result<(), AllocError> {
        match draft.random.below(50) {
            0..=9 => delete(draft),
            10..=17 => touch(draft),
            18..=25 => count(draft, b"incr"),
            26..=29 => count(draft, b"decr"),
            30..=34 => lengthen(draft, b"append"),
            35..=37 => lengthen(draft, b"prepend"),
            38..=42 => store(draft, b"add"),
            43..=45 => store(draft, b"replace"),
            46..=48 => compare(draft),
            _ => self.tick(draft),
        }
    }

    pub fn put(&mut self, draft: &mut Draft, _turn: u64) -> Result<(), AllocError> {
        match draft.random.below(100) {
            0..=39 => set(draft),
            40..=94 => get(draft),
            _ => self.rare(draft),
        }
    }
}
