//! The words of `lrudb why` and `lrudb gone` for scripts and published traces, which the rules alone lead.
ghost use Rattle.std.specs.Prelude.{◌≤◌, length, IfOk, IfSome};
ghost use Rattle.rev_options.specs.Request.{AreTraces, HasKeys};

use crate::asking::{cause_of, keys_of};
use crate::csv::sample_of;
use crate::import::{given, rhythm_of, stands_twice};
use crate::{config_of, dialect_of, fault, files_of};
use clap::error::ErrorKind;
use clap::{ArgMatches, Error};
use rev_choices::{Loss, Rhythm, Sample};
use rev_classes::Config;
use rev_script::dialect::Dialect;
use std::alloc::Global;

/// How the rows of published traces become steps.
#[derive(Clone, Copy)]
pub struct AskedRows {
    pub rhythm: Rhythm,
    /// Which keys are taken, of how many.
    pub sample: Sample,
}

/// Scripts or published traces that are asked about keys.
#[derive(Drop)]
pub struct AskedTraces {
    /// The cache that is asked.
    pub config: Config,
    /// In which dialect the files of starts and the scripts are read.
    pub dialect: Dialect,
    /// The names of files whose steps are played before the traces, and of which nothing is told.
    pub starts: Vec<String>,
    /// The traces' names in order, one or more; `-` is the standard input, and stands once at most.
    pub traces: Vec<String>,
    /// How their rows become steps, where they are published traces and no scripts.
    pub rows: Option<AskedRows>,
    /// Whether answers are told as JSON.
    pub json: bool,
}

/// Keys, and traces that tell what became of them.
#[derive(Drop)]
pub struct WhyTraces {
    pub traces: AskedTraces,
    /// The keys that are words, in order. There is one where there is no file of keys.
    pub keys: Vec<String>,
    /// The name of a file with a key a line, where there is one.
    pub key_file: Option<String>,
    /// Whether only the last life of each key is told.
    pub last: bool,
}

/// Traces that tell which keys left, and of which that is told.
#[derive(Drop)]
pub struct GoneTraces {
    pub traces: AskedTraces,
    /// The slab class of the keys, where one is asked for.
    pub class: Option<u32>,
    /// Why they left, where it is asked for.
    pub cause: Option<Loss>,
    /// What the keys begin with, where it is asked for.
    pub prefix: Option<String>,
    /// The first and the last second in which they left, by the cache's clock.
    pub first: u32,
    pub last: u32,
}

// The names that an option has, in order, or the parser's error.
fn names_of(
    alloc: Global,
    matches: &ArgMatches<'_>,
    of: &str,
    twice: &str,
) -> Result<Vec<String>, Error> {
    let names = files_of(alloc, matches, of)?;
    if stands_twice(&names) {
        return Err(fault(alloc, ErrorKind::TooManyValues, twice));
    }
    Ok(names)
}

// How the words want rows to become steps, or the parser's error.
fn rows_of(alloc: Global, matches: &ArgMatches<'_>) -> Result<AskedRows, Error> {
    Ok(AskedRows {
        rhythm: rhythm_of(alloc, matches)?,
        sample: sample_of(alloc, matches)?,
    })
}

// The traces of these names that the words ask, or the parser's error.
fn asked_traces(
    alloc: Global,
    matches: &ArgMatches<'_>,
    traces: Vec<String>,
    rows: Option<AskedRows>,
) -> Result<AskedTraces, Error>
    requires { 1 ≤ length traces.items }
    ensures { IfOk result AreTraces }
{
    Ok(AskedTraces {
        starts: files_of(alloc, matches, "start")?,
        config: config_of(matches),
        dialect: dialect_of(matches),
        json: matches.get_flag("json"),
        traces,
        rows,
    })
}

// The scripts or the published traces that the words ask, where they ask any, or the parser's error.
fn traces_of(alloc: Global, matches: &ArgMatches<'_>) -> Result<Option<AskedTraces>, Error>
    ensures { IfOk result (λ asked. IfSome asked AreTraces) }
{
    let scripts = names_of(alloc, matches, "trace", "--trace: - stands twice")?;
    if !scripts.is_empty() {
        let asked = asked_traces(alloc, matches, scripts, None)?;
        return Ok(Some(asked));
    }
    let traces = names_of(alloc, matches, "csv", "--csv: - stands twice")?;
    if !traces.is_empty() {
        let rows = rows_of(alloc, matches)?;
        let asked = asked_traces(alloc, matches, traces, Some(rows))?;
        return Ok(Some(asked));
    }
    Ok(None)
}

/// The lives that the words ask for of traces, where they ask any, or the parser's error.
pub(crate) fn why_traces(
    alloc: Global,
    matches: &ArgMatches<'_>,
) -> Result<Option<WhyTraces>, Error>
    ensures { IfOk result (λ asked. IfSome asked (λ why. AreTraces why.traces × HasKeys why.keys why.key_file)) }
{
    let Some(traces) = traces_of(alloc, matches)? else {
        return Ok(None);
    };
    let (keys, key_file) = keys_of(alloc, matches)?;
    Ok(Some(WhyTraces {
        traces,
        keys,
        key_file,
        last: matches.get_flag("last"),
    }))
}

/// The keys that left that the words ask for of traces, where they ask any, or the parser's error.
pub(crate) fn gone_traces(
    alloc: Global,
    matches: &ArgMatches<'_>,
) -> Result<Option<GoneTraces>, Error>
    ensures { IfOk result (λ asked. IfSome asked (λ gone. AreTraces gone.traces)) }
{
    let Some(traces) = traces_of(alloc, matches)? else {
        return Ok(None);
    };
    Ok(Some(GoneTraces {
        cause: cause_of(alloc, matches)?,
        prefix: given(alloc, matches, "prefix")?,
        traces,
        class: matches.get_one("class"),
        first: matches.get_one("from").unwrap_or(0),
        last: matches.get_one("to").unwrap_or(u32::MAX),
    }))
}
