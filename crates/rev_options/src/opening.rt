//! The words of `lrudb open`.
ghost use Rattle.std.specs.Prelude.{◌≡◌, map, true, false, IfOk, IfSome};
ghost use Rattle.rev_options.specs.Request.{IsInRange, IsLife, IsOfWords, asks_open, OpensBy, BringsBy, ReportsBy, RunsBy, LivesBy, begins_with, brings, is_temp_ttl, seeks_key, sought_key};

use crate::asking::life_of;
use crate::csv::sample_of;
use crate::import::{STANDARD, factor_of, required, rhythm_of};
use crate::leader::{Leader, leader_of};
use crate::sampled::{AskedSample, keeps_none, led_sample, takes_all};
use crate::standing::{Standing, standing_of};
use crate::{Request, config_of, dialect_of, fault, files_of};
use clap::error::ErrorKind;
use clap::{ArgMatches, Error};
use rev_choices::{Factor, Rhythm, Sample};
use rev_classes::Config;
use rev_script::dialect::Dialect;
use std::alloc::Global;
use std::convert::AsStr;

/// How files are read, and how a session is answered.
#[derive(Clone, Copy)]
pub struct Manner {
    /// In which dialect the files of starts and the traces are read.
    pub dialect: Dialect,
    /// Whether a prompt is written before each line of the session is read.
    pub has_prompt: bool,
    /// Whether answers are told as JSON.
    pub json: bool,
}

/// Traces to look around in: their steps are played, each as a node, and a session is read from the standard input
/// then.
#[derive(Drop)]
pub struct Opening {
    pub config: Config,
    pub manner: Manner,
    /// The names of files whose steps are played before the traces, and of which only the state is kept.
    pub starts: Vec<String>,
    /// The names of the traces in order, none of them `-`.
    pub traces: Vec<String>,
    /// Where the session stands, where that is asked for.
    pub standing: Option<Standing>,
}

/// Logs of a server's `watch` to look around in: what they tell is played as they are read.
#[derive(Drop)]
pub struct WatchOpening {
    pub manner: Manner,
    /// The names of files whose steps are played before the logs, and of which only the state is kept.
    pub starts: Vec<String>,
    /// The logs' names in order, none of them `-`.
    pub logs: Vec<String>,
    /// The name of the text of `stats settings`.
    pub settings: String,
    /// The growth factor of chunk sizes, where it is given exactly.
    pub factor: Option<Factor>,
    pub leader: Leader,
    /// The number of the server's life that is played, where one is asked for, and else the last. The first is 1.
    pub life: Option<u32>,
    /// Where the session stands, where that is asked for.
    pub standing: Option<Standing>,
    /// Which keys are replayed, where the log leads.
    pub sampled: AskedSample,
}

/// Published traces to look around in: what they become is played as they are read.
#[derive(Drop)]
pub struct CsvOpening {
    /// The cache that is asked.
    pub config: Config,
    pub manner: Manner,
    /// The names of files whose steps are played before the traces, and of which only the state is kept.
    pub starts: Vec<String>,
    /// The traces' names in order, none of them `-`.
    pub traces: Vec<String>,
    pub rhythm: Rhythm,
    /// Which keys are taken, of how many.
    pub sample: Sample,
    /// Where the session stands, where that is asked for.
    pub standing: Option<Standing>,
}

/// What the words say of an opening, and the parser's contracts do not.
#[derive(Clone, Copy)]
pub struct OpeningWords {
    /// Whether one names what is to be imported.
    pub brings: bool,
    /// Whether one asks for the place where a key is gone.
    pub seeks_key: bool,
}

/// Whether the first word says `open`.
pub fn asks_open<S: AsStr>(words: &[S]) -> bool
    ensures { result ≡ asks_open (map S.text words.now) }
{
    match words.first() {
        Some(word) => word.as_str() == "open",
        None => false,
    }
}

fn begins_with(word: &str, front: &str) -> bool
    ensures { result ≡ begins_with front.now word.now }
{
    word.as_bytes().starts_with(front.as_bytes())
}

/// Whether a word names what is to be imported: it begins with `--watch` or `--csv`.
pub fn brings<S: AsStr>(words: &[S]) -> bool
    ensures { result ≡ brings (map S.text words.now) }
{
    for word in words {
        if begins_with(word.as_str(), "--watch") || begins_with(word.as_str(), "--csv") {
            return true;
        }
    }
    false
}

/// Whether a word asks for the place where a key is gone: it begins with `--until-gone`.
pub fn seeks_key<S: AsStr>(words: &[S]) -> bool
    ensures { result ≡ seeks_key (map S.text words.now) }
{
    for word in words {
        if begins_with(word.as_str(), "--until-gone") {
            return true;
        }
    }
    false
}

/// What words say of an opening.
pub fn opening_words<S: AsStr>(words: &[S]) -> OpeningWords
    ensures brings { result.brings ≡ brings (map S.text words.now) }
    ensures seeks { result.seeks_key ≡ seeks_key (map S.text words.now) }
{
    OpeningWords {
        brings: brings(words),
        seeks_key: seeks_key(words),
    }
}

const NO_STANDARD: &str = "open: - is no trace, since the session is read from the standard input";

const NO_SAMPLE: &str = "--sample is for --watch LOG and --csv TRACE";

fn has_standard(names: &Vec<String>) -> bool {
    names.iter().any(|name| name.as_str() == STANDARD)
}

/// The names of traces that an argument has, in order, or the parser's error; `no_standard` says why none is `-`.
pub(crate) fn named(
    alloc: Global,
    matches: &ArgMatches<'_>,
    of: &str,
    no_standard: &str,
) -> Result<Vec<String>, Error> {
    let traces = files_of(alloc, matches, of)?;
    if has_standard(&traces) {
        return Err(fault(alloc, ErrorKind::ValueValidation, no_standard));
    }
    Ok(traces)
}

// How the words want files read and the session answered.
fn manner_of(matches: &ArgMatches<'_>) -> Manner {
    Manner {
        dialect: dialect_of(matches),
        has_prompt: matches.get_flag("prompt"),
        json: matches.get_flag("json"),
    }
}

pub(crate) fn watch_opening(
    alloc: Global,
    matches: &ArgMatches<'_>,
    manner: Manner,
    logs: Vec<String>,
    standing: Option<Standing>,
    sampled: AskedSample,
) -> Result<WatchOpening, Error>
    ensures life { IfOk result (λ asked. IsLife asked.life) }
    ensures standing { IfOk result (λ asked. asked.standing ≡ standing) }
{
    Ok(WatchOpening {
        factor: factor_of(alloc, matches)?,
        leader: leader_of(alloc, matches)?,
        life: life_of(alloc, matches)?,
        starts: files_of(alloc, matches, "start")?,
        settings: required(alloc, matches, "settings")?,
        manner,
        logs,
        standing,
        sampled,
    })
}

pub(crate) fn csv_opening(
    alloc: Global,
    matches: &ArgMatches<'_>,
    manner: Manner,
    traces: Vec<String>,
    standing: Option<Standing>,
) -> Result<CsvOpening, Error>
    ensures temp_ttl { IfOk result (λ asked. is_temp_ttl asked.config.temp_ttl ≡ true) }
    ensures standing { IfOk result (λ asked. asked.standing ≡ standing) }
{
    Ok(CsvOpening {
        rhythm: rhythm_of(alloc, matches)?,
        sample: sample_of(alloc, matches)?,
        starts: files_of(alloc, matches, "start")?,
        config: config_of(matches),
        manner,
        traces,
        standing,
    })
}

// What is to be imported by the words, where something is, or the parser's error. They may ask for the place where a key
// is gone.
fn brought(
    alloc: Global,
    matches: &ArgMatches<'_>,
    seeks_key: bool,
) -> Result<Option<Request>, Error>
    ensures range { IfOk result (λ asked. IfSome asked IsInRange) }
    ensures words { IfOk result (λ asked. IfSome asked (IsOfWords false)) }
    ensures opens { IfOk result (λ asked. IfSome asked (OpensBy true)) }
    ensures brings { IfOk result (λ asked. IfSome asked (BringsBy true seeks_key)) }
    ensures runs { IfOk result (λ asked. IfSome asked (RunsBy false)) }
    ensures reports { IfOk result (λ asked. IfSome asked (ReportsBy false)) }
    ensures lives { IfOk result (λ asked. IfSome asked (LivesBy false false)) }
{
    let manner = manner_of(matches);
    let logs = named(alloc, matches, "watch", NO_STANDARD)?;
    if !logs.is_empty() {
        let standing = standing_of(alloc, matches, seeks_key)?;
        let sampled = led_sample(alloc, matches)?;
        let asked = watch_opening(alloc, matches, manner, logs, standing, sampled)?;
        return Ok(Some(Request::OpenWatch(asked)));
    }
    keeps_none(alloc, matches)?;
    let traces = named(alloc, matches, "csv", NO_STANDARD)?;
    if !traces.is_empty() {
        let standing = standing_of(alloc, matches, seeks_key)?;
        let asked = csv_opening(alloc, matches, manner, traces, standing)?;
        return Ok(Some(Request::OpenCsv(asked)));
    }
    Ok(None)
}

/// The session that the words ask for, or the parser's error. What the words say is told apart, since the parser's
/// contracts do not say so.
pub fn opening_of(
    alloc: Global,
    matches: &ArgMatches<'_>,
    said: OpeningWords,
) -> Result<Request, Error>
    ensures range { IfOk result IsInRange }
    ensures words { IfOk result (IsOfWords false) }
    ensures opens { IfOk result (OpensBy true) }
    ensures brings { IfOk result (BringsBy said.brings said.seeks_key) }
    ensures runs { IfOk result (RunsBy false) }
    ensures reports { IfOk result (ReportsBy false) }
    ensures lives { IfOk result (LivesBy false false) }
{
    if said.brings {
        if let Some(asked) = brought(alloc, matches, said.seeks_key)? {
            return Ok(asked);
        }
    }
    keeps_none(alloc, matches)?;
    takes_all(alloc, matches, NO_SAMPLE)?;
    Ok(Request::Open(Opening {
        standing: standing_of(alloc, matches, said.seeks_key)?,
        config: config_of(matches),
        manner: manner_of(matches),
        starts: files_of(alloc, matches, "start")?,
        traces: named(alloc, matches, "traces", NO_STANDARD)?,
    }))
}
