//! Where a session on what is opened stands.
ghost use Rattle.std.specs.Prelude.{◌≡◌, None, IfOk, IfSome, true};
ghost use Rattle.rev_options.specs.Request.{IsKept, IsStanding, key_until, sought_key};

use crate::fault;
use crate::import::{given, number};
use clap::error::ErrorKind;
use clap::{ArgMatches, Error};
use std::alloc::Global;

/// So many steps in front of the place are kept, where it is not said (this project's own figure).
pub const KEPT: u32 = 500000;

/// The most steps that may be asked for: so many nodes a tree has.
const MOST_KEPT: u32 = 1048576;

/// A place between two steps of what is opened.
#[derive(Drop)]
pub enum Until {
    /// Behind so many steps: of logs that lead, over all lives of the server; of scripts, behind the starts.
    Step(u64),
    /// Behind the last step that is not later than this second: of logs that lead, by the Unix clock of its event; of
    /// scripts, by the cache's clock.
    Second(u32),
    /// Behind the last step at which this key left. It is spelled as clients do or as the log does.
    Gone(String),
    /// At the end.
    End,
}

/// Where a session stands.
#[derive(Drop)]
pub struct Standing {
    pub until: Until,
    /// How many of the steps in front of the place are kept, 1 to 1048576.
    pub keep: u32,
}

// The place of this text, if it is one.
fn place_of(text: &str) -> Option<Until>
    ensures { IfSome result (λ until. key_until until ≡ None) }
{
    match text {
        "end" => Some(Until::End),
        _ => match text.strip_prefix("@") {
            Some(second) => Some(Until::Second(number(second)?)),
            None => Some(Until::Step(text.parse().ok()?)),
        },
    }
}

// The place that the words ask for, where they ask for one, or the parser's error. They may ask for one of a key.
fn until_of(
    alloc: Global,
    matches: &ArgMatches<'_>,
    seeks_key: bool,
) -> Result<Option<Until>, Error>
    ensures { IfOk result (λ until. IfSome until (λ place. IfSome (key_until place) (λ key. seeks_key ≡ true))) }
{
    if seeks_key {
        if let Some(key) = given(alloc, matches, "until-gone")? {
            return Ok(Some(Until::Gone(key)));
        }
    }
    match matches.get_str("until") {
        None => Ok(None),
        Some(text) => match place_of(text) {
            Some(until) => Ok(Some(until)),
            None => Err(fault(
                alloc,
                ErrorKind::ValueValidation,
                "--until: the number of a step, @SECONDS by the Unix clock, or end is wanted",
            )),
        },
    }
}

// How many steps in front of the place are kept by the words, or the parser's error.
fn keep_of(alloc: Global, matches: &ArgMatches<'_>) -> Result<u32, Error>
    ensures { IfOk result IsKept }
{
    match matches.get_one("keep") {
        None => Ok(KEPT),
        Some(keep) if 1 <= keep && keep <= MOST_KEPT => Ok(keep),
        // The parser has looked at the range, and its contracts do not say so.
        Some(_) => Err(fault(
            alloc,
            ErrorKind::ValueValidation,
            "--keep: 1 to 1048576 steps",
        )),
    }
}

/// Where the session stands by the words, where they say it, or the parser's error. They may ask for the place where a
/// key is gone.
pub(crate) fn standing_of(
    alloc: Global,
    matches: &ArgMatches<'_>,
    seeks_key: bool,
) -> Result<Option<Standing>, Error>
    ensures range { IfOk result (λ standing. IfSome standing IsStanding) }
    ensures seeks { IfOk result (λ standing. IfSome (sought_key standing) (λ key. seeks_key ≡ true)) }
{
    let keep = keep_of(alloc, matches)?;
    match until_of(alloc, matches, seeks_key)? {
        Some(until) => Ok(Some(Standing { until, keep })),
        None if matches.get_str("keep").is_some() => Err(fault(
            alloc,
            ErrorKind::MissingRequiredArgument,
            "--keep: it goes with --until or --until-gone",
        )),
        None => Ok(None),
    }
}
