//! The jobs whose scripts are made here.

use crate::draft::Draft;
use crate::jobs::ask::Ask;
use crate::jobs::large::Large;
use crate::jobs::pressure::Pressure;
use crate::jobs::replay::Replay;
use crate::jobs::story::Story;
use crate::jobs::walk::Walk;
use rev_classes::Config;
use std::alloc::{AllocError, Global};

/// A script of some size, which is made turn by turn.
#[derive(Drop)]
pub enum Job {
    Replay(Replay),
    Pressure(Pressure),
    Walk(Walk),
    Ask(Ask),
    Story(Story),
    Large(Large),
}

// What a store is opened with where no option is given.
const DEFAULT: Config = Config {
    page_size: 1048576,
    pages: 64,
    num: 5,
    den: 4,
    bump: 64,
    hash_power: 10,
    temp_ttl: -1,
    now: 1,
};

impl Job {
    /// The job of this name, with so many plays or commands, 1 to 1000000.
    pub fn of(alloc: Global, name: &str, count: u64) -> Option<Job> {
        match name {
            "replay" => Some(Job::Replay(Replay::new(count))),
            "pressure" => Some(Job::Pressure(Pressure::new(count))),
            "walk" => Some(Job::Walk(Walk::new(alloc, count))),
            "ask" => Some(Job::Ask(Ask::new(count))),
            "story" => Some(Job::Story(Story::new(count))),
            "large" => Some(Job::Large(Large::new(count))),
            _ => None,
        }
    }

    pub fn name(&self) -> &'static str {
        match self {
            Job::Replay(_) => "replay",
            Job::Pressure(_) => "pressure",
            Job::Walk(_) => "walk",
            Job::Ask(_) => "ask",
            Job::Story(_) => "story",
            Job::Large(_) => "large",
        }
    }

    /// What the store of this job is opened with.
    pub fn config(&self) -> Config {
        match self {
            Job::Replay(_) => Config {
                hash_power: 17,
                ..DEFAULT
            },
            Job::Pressure(_) => Config {
                page_size: 65536,
                hash_power: 14,
                ..DEFAULT
            },
            Job::Walk(_) | Job::Ask(_) => Config {
                page_size: 65536,
                pages: 32,
                hash_power: 14,
                ..DEFAULT
            },
            Job::Story(_) | Job::Large(_) => DEFAULT,
        }
    }

    /// How many turns the script has.
    pub fn turns(&self) -> u64 {
        match self {
            Job::Replay(job) => job.turns(),
            Job::Pressure(job) => job.turns(),
            Job::Walk(job) => job.turns(),
            Job::Ask(job) => job.turns(),
            Job::Story(job) => job.turns(),
            Job::Large(job) => job.turns(),
        }
    }

    /// Writes the lines of a turn, numbered from 0; each turn is asked for once, in order.
    pub fn put(&mut self, draft: &mut Draft, turn: u64) -> Result<(), AllocError> {
        match self {
            Job::Replay(job) => job.put(draft, turn),
            Job::Pressure(job) => job.put(draft, turn),
            Job::Walk(job) => job.put(draft, turn),
            Job::Ask(job) => job.put(draft, turn),
            Job::Story(job) => job.put(draft, turn),
            Job::Large(job) => job.put(draft, turn),
        }
    }
}
