//! A full cache: most sets evict, and the maintainer, the crawler and the page mover work in between. In a rush there
//! are more sets than the maintainer moves items to COLD, so that COLD is empty; then comes a calm, in which it catches
//! up.

use crate::draft::{Draft, Reply, Storage};
use std::alloc::AllocError;

/// The classes that nearly all values lie in: 2 to 10.
const FIRST_CLASS: u64 = 2;

const CLASSES: u64 = 9;

/// Gets ask for one of the last 2^13 keys.
const RECENT: u64 = 13;

/// Gets that come twice ask for one of OLDER keys behind the newest OLD: in a calm many of them lie in COLD.
const OLD: u64 = 3000;

const OLDER: u64 = 6000;

/// A rush takes two parts of so many turns, and a calm one.
const PART: u64 = 25000;

/// The crawler stays with a class for so many turns.
const CRAWL: u64 = 16384;

/// So many commands.
#[derive(Drop)]
pub struct Pressure {
    count: u64,
    now: u64,
    // How many keys there were.
    keys: u64,
}

fn class(draft: &mut Draft) -> u64 {
    draft.random.below(CLASSES).wrapping_add(FIRST_CLASS)
}

// A step of an actor at a queue of a class.
fn step(draft: &mut Draft, command: &[u8], class: u64, queue: &[u8]) -> Result<(), AllocError> {
    draft.put(command)?;
    draft.number(class)?;
    draft.line(queue)
}

fn pull(draft: &mut Draft) -> Result<(), AllocError> {
    let class = class(draft);
    let queue: &[u8] = match draft.random.below(20) {
        0..=14 => b" hot",
        15..=18 => b" warm",
        _ => b" cold",
    };
    step(draft, b"~pull ", class, queue)
}

// The class that the crawler is at.
fn crawled_class(turn: u64) -> u64 {
    (turn / CRAWL % CLASSES).wrapping_add(FIRST_CLASS)
}

fn crawl(draft: &mut Draft, turn: u64) -> Result<(), AllocError> {
    let queue: &[u8] = match draft.random.below(20) {
        0..=11 => b" hot",
        12..=14 => b" warm",
        15..=18 => b" cold",
        _ => b" temp",
    };
    step(draft, b"~crawl ", crawled_class(turn), queue)
}

fn start_crawl(draft: &mut Draft, turn: u64) -> Result<(), AllocError> {
    if draft.random.is_one_in(8) {
        draft.line(b"lru_crawler crawl all")
    } else {
        draft.numbered(b"lru_crawler crawl ", crawled_class(turn))
    }
}

fn reassign(draft: &mut Draft) -> Result<(), AllocError> {
    let source = class(draft);
    let target = class(draft);
    draft.put(b"slabs reassign ")?;
    draft.number(source)?;
    draft.numbered(b" ", target)
}

impl Pressure {
    pub fn new(count: u64) -> Pressure {
        Pressure {
            count,
            now: 1,
            keys: 0,
        }
    }

    pub fn turns(&self) -> u64 {
        self.count
    }

    // A key that was used not long ago.
    fn recent(&self, draft: &mut Draft) -> u64 {
        self.keys.saturating_sub(draft.random.rank(RECENT))
    }

    fn set(&mut self, draft: &mut Draft) -> Result<(), AllocError> {
        let rank = if draft.random.is_one_in(10) {
            self.recent(draft)
        } else {
            self.keys = self.keys.wrapping_add(1);
            self.keys
        };
        let exptime = if draft.random.is_one_in(8) {
            draft.random.below(60).wrapping_add(1)
        } else {
            0
        };
        let storage = Storage {
            command: b"set",
            flags: 0,
            exptime,
            reply: Reply::Wanted,
        };
        let size = draft.random.below(581).wrapping_add(20);
        draft.store(storage, rank, size)
    }

    // Asks for a key that was set some time ago, and at once again, as those that are wanted anew are.
    fn get_twice(&self, draft: &mut Draft) -> Result<(), AllocError> {
        let age = draft.random.below(OLDER).wrapping_add(OLD);
        let rank = self.keys.saturating_sub(age);
        draft.keyed(b"get", rank)?;
        draft.keyed(b"get", rank)
    }

    fn get(&self, draft: &mut Draft) -> Result<(), AllocError> {
        if draft.random.is_one_in(6) {
            return self.get_twice(draft);
        }
        let rank = self.recent(draft);
        draft.keyed(b"get", rank)
    }

    fn tick(&mut self, draft: &mut Draft) -> Result<(), AllocError> {
        self.now = self.now.wrapping_add(1);
        draft.numbered(b"@ ", self.now)
    }

    // What the actors are told now and then.
    fn rare(&mut self, draft: &mut Draft, turn: u64) -> Result<(), AllocError> {
        match draft.random.below(20) {
            0..=2 => self.tick(draft),
            3 => start_crawl(draft, turn),
            4..=5 => reassign(draft),
            _ => draft.line(b"~bump"),
        }
    }

    fn rush(&mut self, draft: &mut Draft, turn: u64) -> Result<(), AllocError> {
        match draft.random.below(100) {
            0..=59 => self.set(draft),
            60..=79 => self.get(draft),
            80..=87 => pull(draft),
            88 => draft.line(b"~bump"),
            89..=93 => crawl(draft, turn),
            94..=98 => draft.line(b"~move"),
            _ => self.rare(draft, turn),
        }
    }

    fn calm(&mut self, draft: &mut Draft, turn: u64) -> Result<(), AllocError> {
        match draft.random.below(100) {
            0..=19 => self.set(draft),
            20..=41 => self.get(draft),
            42..=89 => pull(draft),
            90..=91 => draft.line(b"~bump"),
            92..=96 => crawl(draft, turn),
            97..=98 => draft.line(b"~move"),
            _ => self.rare(draft, turn),
        }
    }

    pub fn put(&mut self, draft: &mut Draft, turn: u64) -> Result<(), AllocError> {
        if turn / PART % 3 == 2 {
            self.calm(draft, turn)
        } else {
            self.rush(draft, turn)
        }
    }
}
