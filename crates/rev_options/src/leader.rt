//! What leads the replay of a server's logs.

use crate::import::rhythm_of;
use clap::{ArgMatches, Error};
use rev_choices::Rhythm;
use std::alloc::Global;

/// What leads the replay of a server's logs.
#[derive(Clone, Copy)]
pub enum Leader {
    /// The log: behind each line the replay agrees with it, as far as it can.
    Log {
        /// Whether it is read where the server has a setting that the rules do not cover.
        anyway: bool,
    },
    /// The rules alone, with steps of the LRU maintainer in this rhythm.
    Rules(Rhythm),
}

/// What leads by the words, or the parser's error. A rhythm is one of the rules, so they lead where one is given.
pub(crate) fn leader_of(alloc: Global, matches: &ArgMatches<'_>) -> Result<Leader, Error> {
    if matches.get_flag("free") || matches.get_str("steps").is_some() {
        Ok(Leader::Rules(rhythm_of(alloc, matches)?))
    } else {
        Ok(Leader::Log {
            anyway: matches.get_flag("anyway"),
        })
    }
}
