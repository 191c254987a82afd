//! Which keys of logs that lead are replayed.

use crate::csv::sample_of;
use crate::{fault, files_of};
use clap::error::ErrorKind;
use clap::{ArgMatches, Error};
use rev_choices::Sample;
use std::alloc::Global;

/// A sample of the keys of logs that lead.
#[derive(Drop)]
pub struct AskedSample {
    /// One key of so many, where that is asked for.
    pub sample: Option<Sample>,
    /// The keys, in order, that are replayed whatever the sample is. They are spelled as clients do or as the log does.
    pub kept: Vec<String>,
}

fn sample_if(alloc: Global, matches: &ArgMatches<'_>) -> Result<Option<Sample>, Error> {
    match matches.get_str("sample") {
        Some(_) => Ok(Some(sample_of(alloc, matches)?)),
        None => Ok(None),
    }
}

/// The sample that the words ask for, or the parser's error.
pub(crate) fn asked_sample(alloc: Global, matches: &ArgMatches<'_>) -> Result<AskedSample, Error> {
    Ok(AskedSample {
        sample: sample_if(alloc, matches)?,
        kept: files_of(alloc, matches, "keep-key")?,
    })
}

/// The same where the rules may lead in the place of the logs, and then there is none.
pub(crate) fn led_sample(alloc: Global, matches: &ArgMatches<'_>) -> Result<AskedSample, Error> {
    if matches.get_str("sample").is_some() && matches.get_str("steps").is_some() {
        return Err(fault(
            alloc,
            ErrorKind::ArgumentConflict,
            "--sample: with --watch it is for logs that lead, without --steps",
        ));
    }
    asked_sample(alloc, matches)
}

/// No sample.
pub(crate) fn no_sample(alloc: Global) -> AskedSample {
    AskedSample {
        sample: None,
        kept: Vec::new(alloc),
    }
}

/// Sees that the words ask for no sample, or the parser's error, which says where one may be asked for.
pub(crate) fn takes_all(
    alloc: Global,
    matches: &ArgMatches<'_>,
    where_taken: &str,
) -> Result<(), Error> {
    match matches.get_str("sample") {
        Some(_) => Err(fault(alloc, ErrorKind::ArgumentConflict, where_taken)),
        None => Ok(()),
    }
}

/// Sees that the words keep no key, which is of a sample of logs that lead. Or the parser's error.
pub(crate) fn keeps_none(alloc: Global, matches: &ArgMatches<'_>) -> Result<(), Error> {
    match matches.get_strs("keep-key") {
        Some(_) => Err(fault(
            alloc,
            ErrorKind::ArgumentConflict,
            "--keep-key: it goes with --watch LOG and --sample",
        )),
        None => Ok(()),
    }
}
