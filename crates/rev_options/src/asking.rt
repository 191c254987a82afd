//! The words of `lrudb why`, `lrudb gone` and `lrudb top`.
ghost use Rattle.std.specs.Prelude.{◌≡◌, ◌≤◌, Bool, length, map, true, false, IfOk, IfSome};
ghost use Rattle.rev_options.specs.Request.{IsInRange, IsOfWords, OpensBy, BringsBy, ReportsBy, RunsBy, LivesBy, AreAsked, HasKeys, IsLife, IsVisible, asks_gone, asks_lives, asks_top, asks_why};

use crate::import::{MOST_LOGS, factor_of, given, required, some_names};
use crate::ruled::{gone_traces, why_traces};
use crate::sampled::{AskedSample, asked_sample};
use crate::{Request, fault, files_of};
use clap::error::ErrorKind;
use clap::{ArgMatches, Error};
use rev_choices::{Factor, Loss};
use std::alloc::Global;
use std::convert::AsStr;

/// So many rows are told where no number is given (this project's own figure).
const MOST_ROWS: u32 = 20;

/// Logs of a server's `watch` that are asked about keys.
#[derive(Drop)]
pub struct AskedLogs {
    /// The logs' names in order, 1 to 64; `-` is the standard input, and stands once at most.
    pub logs: Vec<String>,
    /// The name of the text of `stats settings`.
    pub settings: String,
    /// The growth factor of chunk sizes, where it is given exactly.
    pub factor: Option<Factor>,
    /// The number of the only life of the server that is told of, where one is asked for. The first is 1.
    pub life: Option<u32>,
    /// Whether answers are told as JSON.
    pub json: bool,
    /// Whether logs are read where the server has a setting that the rules do not cover.
    pub anyway: bool,
    /// Which keys are replayed.
    pub sampled: AskedSample,
}

/// Keys, and logs that tell what became of them.
#[derive(Drop)]
pub struct WhyAsked {
    pub logs: AskedLogs,
    /// The keys that are words, in order. There is one where there is no file of keys.
    pub keys: Vec<String>,
    /// The name of a file with a key a line, where there is one.
    pub key_file: Option<String>,
    /// Whether only the last life of each key is told.
    pub last: bool,
    /// The byte that ends a key's prefix: a visible character of ASCII.
    pub prefix_end: u8,
}

/// Logs that tell which keys left, and of which that is told.
#[derive(Drop)]
pub struct GoneAsked {
    pub logs: AskedLogs,
    /// The slab class of the keys, where one is asked for.
    pub class: Option<u32>,
    /// Why they left, where it is asked for.
    pub cause: Option<Loss>,
    /// What the keys begin with, where it is asked for.
    pub prefix: Option<String>,
    /// The first and the last second in which they left, by the Unix clock.
    pub first: u32,
    pub last: u32,
}

/// Logs that tell where a cache's room goes, and how that is told.
#[derive(Drop)]
pub struct TopAsked {
    pub logs: AskedLogs,
    /// Whether it is summed by slab class, and not by prefix.
    pub by_class: bool,
    /// The byte that ends a key's prefix: a visible character of ASCII.
    pub prefix_end: u8,
    /// How many prefixes or classes are told one by one.
    pub most: u32,
    /// The first and the last second of the events that are counted, by the Unix clock.
    pub first: u32,
    pub last: u32,
}

/// Whether the first word says `why`.
pub(crate) fn asks_why<S: AsStr>(words: &[S]) -> bool
    ensures { result ≡ asks_why (map S.text words.now) }
{
    match words.first() {
        Some(word) => word.as_str() == "why",
        None => false,
    }
}

/// Whether the first word says `gone`.
pub(crate) fn asks_gone<S: AsStr>(words: &[S]) -> bool
    ensures { result ≡ asks_gone (map S.text words.now) }
{
    match words.first() {
        Some(word) => word.as_str() == "gone",
        None => false,
    }
}

/// Whether the first word says `top`.
pub(crate) fn asks_top<S: AsStr>(words: &[S]) -> bool
    ensures { result ≡ asks_top (map S.text words.now) }
{
    match words.first() {
        Some(word) => word.as_str() == "top",
        None => false,
    }
}

/// Whether the first word says `why`, `gone` or `top`.
pub(crate) fn asks_lives<S: AsStr>(words: &[S]) -> bool
    ensures { result ≡ asks_lives (map S.text words.now) }
{
    asks_why(words) || asks_gone(words) || asks_top(words)
}

fn logs_of(alloc: Global, matches: &ArgMatches<'_>) -> Result<Vec<String>, Error>
    ensures { IfOk result (λ logs. (1 ≤ length logs.items) × (length logs.items ≤ 64)) }
{
    let logs = some_names(
        alloc,
        matches,
        "watch",
        "--watch: no log",
        "--watch: - stands twice",
    )?;
    if logs.len() > MOST_LOGS {
        return Err(fault(
            alloc,
            ErrorKind::TooManyValues,
            "--watch: more than 64 logs",
        ));
    }
    Ok(logs)
}

/// The number of the only life that is asked for, if one is, or the parser's error.
pub(crate) fn life_of(alloc: Global, matches: &ArgMatches<'_>) -> Result<Option<u32>, Error>
    ensures { IfOk result IsLife }
{
    match matches.get_one("life") {
        None => Ok(None),
        Some(life) if life >= 1 => Ok(Some(life)),
        // The parser has looked at the range, and its contracts do not say so.
        Some(_) => Err(fault(alloc, ErrorKind::ValueValidation, "--life: the first is 1")),
    }
}

// The logs that the words ask, or the parser's error.
fn asked_logs(alloc: Global, matches: &ArgMatches<'_>) -> Result<AskedLogs, Error>
    ensures { IfOk result AreAsked }
{
    Ok(AskedLogs {
        factor: factor_of(alloc, matches)?,
        life: life_of(alloc, matches)?,
        sampled: asked_sample(alloc, matches)?,
        logs: logs_of(alloc, matches)?,
        settings: required(alloc, matches, "settings")?,
        json: matches.get_flag("json"),
        anyway: matches.get_flag("anyway"),
    })
}

/// The keys that the words ask for, and the file of more, or the parser's error.
pub(crate) fn keys_of(
    alloc: Global,
    matches: &ArgMatches<'_>,
) -> Result<(Vec<String>, Option<String>), Error>
    ensures { IfOk result (λ asked. HasKeys asked.0 asked.1) }
{
    let keys = files_of(alloc, matches, "key")?;
    let key_file = given(alloc, matches, "keys")?;
    // The parser has seen to it, and its contracts do not say so.
    if keys.is_empty() && key_file.is_none() {
        return Err(fault(alloc, ErrorKind::MissingRequiredArgument, "why: no key"));
    }
    Ok((keys, key_file))
}

// The only byte of a text, where it is a visible character of ASCII.
fn only_character(text: &str) -> Option<u8>
    ensures { IfSome result IsVisible }
{
    match text.as_bytes() {
        [byte] if b'!' <= *byte && *byte <= b'~' => Some(*byte),
        _ => None,
    }
}

// The byte that the words want to end a key's prefix, or the parser's error.
fn prefix_end_of(alloc: Global, matches: &ArgMatches<'_>) -> Result<u8, Error>
    ensures { IfOk result IsVisible }
{
    let Some(text) = matches.get_str("prefix") else {
        return Ok(b':');
    };
    match only_character(text) {
        Some(byte) => Ok(byte),
        None => Err(fault(
            alloc,
            ErrorKind::ValueValidation,
            "--prefix: one visible character of ASCII is wanted",
        )),
    }
}

// The lives that the words ask for, or the parser's error.
fn why_of(alloc: Global, matches: &ArgMatches<'_>) -> Result<WhyAsked, Error>
    ensures { IfOk result (λ asked. AreAsked asked.logs × HasKeys asked.keys asked.key_file × IsVisible asked.prefix_end) }
{
    let (keys, key_file) = keys_of(alloc, matches)?;
    Ok(WhyAsked {
        logs: asked_logs(alloc, matches)?,
        keys,
        key_file,
        last: matches.get_flag("last"),
        prefix_end: prefix_end_of(alloc, matches)?,
    })
}

/// Why the keys left that the words ask for, where they say it, or the parser's error.
pub(crate) fn cause_of(alloc: Global, matches: &ArgMatches<'_>) -> Result<Option<Loss>, Error> {
    match matches.get_str("cause") {
        None => Ok(None),
        Some(word) => match Loss::of(word) {
            Some(loss) => Ok(Some(loss)),
            // The parser has looked at the word, and its contracts do not say so.
            None => Err(fault(alloc, ErrorKind::InvalidValue, "--cause: no such word")),
        },
    }
}

// The keys that left that the words ask for, or the parser's error.
fn gone_of(alloc: Global, matches: &ArgMatches<'_>) -> Result<GoneAsked, Error>
    ensures { IfOk result (λ asked. AreAsked asked.logs) }
{
    Ok(GoneAsked {
        cause: cause_of(alloc, matches)?,
        prefix: given(alloc, matches, "prefix")?,
        logs: asked_logs(alloc, matches)?,
        class: matches.get_one("class"),
        first: matches.get_one("from").unwrap_or(0),
        last: matches.get_one("to").unwrap_or(u32::MAX),
    })
}

// What the words that begin with `why` ask for, or the parser's error.
fn why_request(alloc: Global, matches: &ArgMatches<'_>) -> Result<Request, Error>
    ensures range { IfOk result IsInRange }
    ensures words { IfOk result (IsOfWords false) }
    ensures opens { IfOk result (OpensBy false) }
    ensures brings { IfOk result (BringsBy false false) }
    ensures runs { IfOk result (RunsBy false) }
    ensures reports { IfOk result (ReportsBy false) }
    ensures lives { IfOk result (LivesBy true true) }
{
    match why_traces(alloc, matches)? {
        Some(asked) => Ok(Request::WhyTraces(asked)),
        None => Ok(Request::Why(why_of(alloc, matches)?)),
    }
}

// What the words that begin with `gone` ask for, or the parser's error.
fn gone_request(alloc: Global, matches: &ArgMatches<'_>) -> Result<Request, Error>
    ensures range { IfOk result IsInRange }
    ensures words { IfOk result (IsOfWords false) }
    ensures opens { IfOk result (OpensBy false) }
    ensures brings { IfOk result (BringsBy false false) }
    ensures runs { IfOk result (RunsBy false) }
    ensures reports { IfOk result (ReportsBy false) }
    ensures lives { (why : Bool) → IfOk result (LivesBy true why) }
{
    match gone_traces(alloc, matches)? {
        Some(asked) => Ok(Request::GoneTraces(asked)),
        None => Ok(Request::Gone(gone_of(alloc, matches)?)),
    }
}

// Where the room goes that the words ask for, or the parser's error.
fn top_of(alloc: Global, matches: &ArgMatches<'_>) -> Result<TopAsked, Error>
    ensures { IfOk result (λ asked. AreAsked asked.logs × IsVisible asked.prefix_end) }
{
    Ok(TopAsked {
        logs: asked_logs(alloc, matches)?,
        by_class: matches.get_str("by") == Some("class"),
        prefix_end: prefix_end_of(alloc, matches)?,
        most: matches.get_one("most").unwrap_or(MOST_ROWS),
        first: matches.get_one("from").unwrap_or(0),
        last: matches.get_one("to").unwrap_or(u32::MAX),
    })
}

/// What the words ask of logs and traces by the parser's reading of them, or the parser's error. Whether the first word says `why`
/// is told apart, since the parser's contracts do not say so.
pub(crate) fn asking_of(
    alloc: Global,
    matches: &ArgMatches<'_>,
    asks_why: bool,
) -> Result<Request, Error>
    ensures range { IfOk result IsInRange }
    ensures words { IfOk result (IsOfWords false) }
    ensures opens { IfOk result (OpensBy false) }
    ensures brings { IfOk result (BringsBy false false) }
    ensures runs { IfOk result (RunsBy false) }
    ensures reports { IfOk result (ReportsBy false) }
    ensures lives { IfOk result (LivesBy true asks_why) }
{
    if asks_why {
        if let Some(inner) = matches.subcommand_matches("why") {
            return why_request(alloc, inner);
        }
    }
    if let Some(inner) = matches.subcommand_matches("gone") {
        return gone_request(alloc, inner);
    }
    if let Some(inner) = matches.subcommand_matches("top") {
        return Ok(Request::Top(top_of(alloc, inner)?));
    }
    Err(fault(alloc, ErrorKind::MissingSubcommand, "why"))
}
