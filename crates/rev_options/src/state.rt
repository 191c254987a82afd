//! The words of `lrudb import state`.

use crate::import::{factor_of, required};
use clap::{ArgMatches, Error};
use rev_choices::Factor;
use std::alloc::Global;

/// The texts in which a server tells of its items, and the start that they become.
#[derive(Drop)]
pub struct StateImport {
    /// The names of what `lru_crawler metadump all`, `stats items`, `stats slabs` and `stats settings` told.
    pub metadump: String,
    pub items: String,
    pub slabs: String,
    pub settings: String,
    /// The growth factor of chunk sizes, where it is given exactly.
    pub factor: Option<Factor>,
    /// What the files' names begin with.
    pub out: String,
}

pub(crate) fn state_import(alloc: Global, matches: &ArgMatches<'_>) -> Result<StateImport, Error> {
    Ok(StateImport {
        factor: factor_of(alloc, matches)?,
        metadump: required(alloc, matches, "metadump")?,
        items: required(alloc, matches, "items")?,
        slabs: required(alloc, matches, "slabs")?,
        settings: required(alloc, matches, "settings")?,
        out: required(alloc, matches, "out")?,
    })
}
