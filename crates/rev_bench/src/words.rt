//! What the words behind the program's name ask for.

use crate::job::Job;
use std::alloc::Global;

/// The most plays or commands that a script is made of.
const MOST: u32 = 1000000;

/// A job, its seed, and its name.
#[derive(Drop)]
pub struct Asked {
    pub job: Job,
    pub seed: u64,
    pub name: &'static str,
}

// The number of a word, below 2^32.
fn number(word: &String) -> Option<u32> {
    word.as_str().parse::<u32>().ok()
}

impl Asked {
    /// The job, the seed and the count that three words name.
    pub fn of(alloc: Global, words: &[String]) -> Option<Asked> {
        let [name, seed, count] = words else {
            return None;
        };
        let seed = number(seed)?;
        let count = number(count)?;
        if count == 0 || count > MOST {
            return None;
        }
        let job = Job::of(alloc, name.as_str(), u64::from(count))?;
        Some(Asked {
            name: job.name(),
            job,
            seed: u64::from(seed),
        })
    }
}
