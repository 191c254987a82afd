//! The words of `lrudb import csv`.
ghost use Rattle.std.specs.Prelude.{◌≡◌, ◌≤◌, length, true, IfOk};
ghost use Rattle.rev_options.specs.Request.{is_temp_ttl};

use crate::import::{number, required, rhythm_of, some_names};
use crate::{config_of, fault};
use clap::error::ErrorKind;
use clap::{ArgMatches, Error};
use rev_choices::{Rhythm, Sample};
use rev_classes::Config;
use std::alloc::{AllocError, Global};

/// Traces, and the script that they become.
#[derive(Drop)]
pub struct CsvImport {
    /// The traces' names in order, one or more; `-` is the standard input, and stands once at most.
    pub traces: Vec<String>,
    /// The cache that is asked.
    pub config: Config,
    pub rhythm: Rhythm,
    /// Which keys are taken, of how many.
    pub sample: Sample,
    /// What the files' names begin with; `-`: the script goes to the standard output.
    pub out: String,
}

fn sample(text: &str) -> Option<Sample> {
    let one_of = number(text.strip_prefix("1/")?)?;
    if one_of == 0 {
        None
    } else {
        Some(Sample { one_of })
    }
}

pub(crate) fn sample_of(alloc: Global, matches: &ArgMatches<'_>) -> Result<Sample, Error> {
    match sample(matches.get_str("sample").unwrap_or("1/1")) {
        Some(sample) => Ok(sample),
        None => Err(fault(
            alloc,
            ErrorKind::ValueValidation,
            "--sample: 1/N with a number from 1 on is wanted",
        )),
    }
}

fn traces_of(alloc: Global, matches: &ArgMatches<'_>) -> Result<Vec<String>, Error>
    ensures { IfOk result (λ traces. 1 ≤ length traces.items) }
{
    let none = "import csv: no trace";
    some_names(alloc, matches, "traces", none, "import csv: - stands twice")
}

/// The import of traces that the words ask for, or the parser's error.
pub fn csv_import(alloc: Global, matches: &ArgMatches<'_>) -> Result<CsvImport, Error>
    ensures { IfOk result (λ asked. (is_temp_ttl asked.config.temp_ttl ≡ true) × (1 ≤ length asked.traces.items)) }
{
    Ok(CsvImport {
        traces: traces_of(alloc, matches)?,
        config: config_of(matches),
        rhythm: rhythm_of(alloc, matches)?,
        sample: sample_of(alloc, matches)?,
        out: required(alloc, matches, "out")?,
    })
}
