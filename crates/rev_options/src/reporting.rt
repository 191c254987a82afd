//! The words of `lrudb report`.
ghost use Rattle.std.specs.Prelude.{◌≡◌, map, true, false, IfOk};
ghost use Rattle.rev_options.specs.Request.{IsInRange, IsOfWords, IsPlayedInRange, OpensBy, BringsBy, ReportsBy, RunsBy, LivesBy, asks_report};

use crate::import::{STANDARD, factor, given, number, required};
use crate::opening::{
    CsvOpening, Manner, Opening, WatchOpening, csv_opening, named, watch_opening,
};
use crate::sampled::{no_sample, takes_all};
use crate::{Request, config_of, dialect_of, fault, files_of};
use clap::error::ErrorKind;
use clap::{ArgMatches, Error};
use rev_choices::Factor;
use std::alloc::{AllocError, Global};
use std::convert::AsStr;

/// What a report is of, played as `open` plays it.
#[derive(Drop)]
pub enum Played {
    Traces(Opening),
    Logs(WatchOpening),
    Rows(CsvOpening),
}

/// Other values of one setting, each of which the same trace is played with.
#[derive(Drop)]
pub enum WhatIf {
    /// How many pages there are.
    Pages(Vec<u32>),
    /// The growth factor of chunk sizes.
    Factor(Vec<Factor>),
    /// HOT's share of a class's bytes, in per cent.
    Hot(Vec<u32>),
    /// WARM's share of a class's bytes, in per cent.
    Warm(Vec<u32>),
    /// Items that expire within fewer seconds enter TEMP; none is negative.
    TempTtl(Vec<i32>),
}

/// A report to look at.
#[derive(Drop)]
pub struct Reporting {
    pub played: Played,
    /// The name of the page.
    pub out: String,
    /// What the names of the tables and curves as CSV begin with, where these are asked for.
    pub data: Option<String>,
    /// The keys whose lives are told.
    pub keys: Vec<String>,
    /// What else the trace is played with.
    pub what_ifs: Vec<WhatIf>,
}

/// Whether the first word says `report`.
pub(crate) fn asks_report<S: AsStr>(words: &[S]) -> bool
    ensures { result ≡ asks_report (map S.text words.now) }
{
    match words.first() {
        Some(word) => word.as_str() == "report",
        None => false,
    }
}

const NO_STANDARD: &str = "report: - is no trace, since nothing is read from the standard input";

const NO_SAMPLE: &str = "--sample: report takes one of --csv TRACE alone";

// What is played by the words, or the parser's error.
fn played_of(alloc: Global, matches: &ArgMatches<'_>) -> Result<Played, Error>
    ensures { IfOk result IsPlayedInRange }
{
    let manner = Manner {
        dialect: dialect_of(matches),
        has_prompt: false,
        json: false,
    };
    let logs = named(alloc, matches, "watch", NO_STANDARD)?;
    if !logs.is_empty() {
        takes_all(alloc, matches, NO_SAMPLE)?;
        let asked = watch_opening(alloc, matches, manner, logs, None, no_sample(alloc))?;
        return Ok(Played::Logs(asked));
    }
    let rows = named(alloc, matches, "csv", NO_STANDARD)?;
    if !rows.is_empty() {
        let asked = csv_opening(alloc, matches, manner, rows, None)?;
        return Ok(Played::Rows(asked));
    }
    Ok(Played::Traces(Opening {
        config: config_of(matches),
        manner,
        starts: files_of(alloc, matches, "start")?,
        traces: named(alloc, matches, "traces", NO_STANDARD)?,
        standing: None,
    }))
}

// A number within a range.
fn number_within(text: &str, least: u32, most: u32) -> Option<u32> {
    let number = number(text)?;
    if least <= number && number <= most {
        Some(number)
    } else {
        None
    }
}

// The numbers of a list, if they are all within a range.
fn numbers_of(
    alloc: Global,
    list: &str,
    least: u32,
    most: u32,
) -> Result<Option<Vec<u32>>, AllocError> {
    let mut numbers = Vec::new(alloc);
    for text in list.split(',') {
        match number_within(text, least, most) {
            Some(number) => numbers.push(number)?,
            None => return Ok(None),
        }
    }
    Ok(Some(numbers))
}

// The seconds of a list, if they all are some.
fn seconds_of(alloc: Global, list: &str) -> Result<Option<Vec<i32>>, AllocError> {
    let mut seconds = Vec::new(alloc);
    for text in list.split(',') {
        match text.parse::<i32>() {
            Ok(number) if number >= 0 => seconds.push(number)?,
            _ => return Ok(None),
        }
    }
    Ok(Some(seconds))
}

// The factors of a list, if they all are some.
fn factors_of(alloc: Global, list: &str) -> Result<Option<Vec<Factor>>, AllocError> {
    let mut factors = Vec::new(alloc);
    for text in list.split(',') {
        match factor(text) {
            Some(factor) => factors.push(factor)?,
            None => return Ok(None),
        }
    }
    Ok(Some(factors))
}

// The most pages, and the most per cent of HOT or WARM.
const MOST_PAGES: u32 = 4096;

const MOST_SHARE: u32 = 79;

// The values of a setting of this name, if there is one and they are some of it.
fn values_of(alloc: Global, name: &str, list: &str) -> Result<Option<WhatIf>, AllocError> {
    Ok(match name {
        "pages" => numbers_of(alloc, list, 1, MOST_PAGES)?.map(WhatIf::Pages),
        "factor" => factors_of(alloc, list)?.map(WhatIf::Factor),
        "hot" => numbers_of(alloc, list, 1, MOST_SHARE)?.map(WhatIf::Hot),
        "warm" => numbers_of(alloc, list, 1, MOST_SHARE)?.map(WhatIf::Warm),
        "temp-ttl" => seconds_of(alloc, list)?.map(WhatIf::TempTtl),
        _ => None,
    })
}

// What the text asks for, if it does for anything.
fn what_if(alloc: Global, text: &str) -> Result<Option<WhatIf>, AllocError> {
    match text.split_once('=') {
        Some((name, list)) => values_of(alloc, name, list),
        None => Ok(None),
    }
}

// What else the trace is played with, in order, or the parser's error.
fn what_ifs_of(alloc: Global, matches: &ArgMatches<'_>) -> Result<Vec<WhatIf>, Error> {
    let mut asked = Vec::new(alloc);
    for text in &files_of(alloc, matches, "what-if")? {
        match what_if(alloc, text.as_str())? {
            Some(values) => asked.push(values)?,
            None => {
                return Err(fault(
                    alloc,
                    ErrorKind::ValueValidation,
                    "--what-if: pages=N,.. with 1 to 4096, factor=N/D,.., hot=N,.. or warm=N,.. with 1 to 79, or temp-ttl=N,.. is wanted",
                ));
            }
        }
    }
    Ok(asked)
}

// The file that the page goes to.
fn page_of(alloc: Global, matches: &ArgMatches<'_>) -> Result<String, Error> {
    let page = required(alloc, matches, "out")?;
    if page.as_str() == STANDARD {
        return Err(fault(
            alloc,
            ErrorKind::ValueValidation,
            "--out: a page is written to a file, and - is none",
        ));
    }
    Ok(page)
}

/// The report that the words ask for, or the parser's error.
pub(crate) fn reporting_of(alloc: Global, matches: &ArgMatches<'_>) -> Result<Request, Error>
    ensures range { IfOk result IsInRange }
    ensures words { IfOk result (IsOfWords false) }
    ensures opens { IfOk result (OpensBy false) }
    ensures brings { IfOk result (BringsBy false false) }
    ensures runs { IfOk result (RunsBy false) }
    ensures reports { IfOk result (ReportsBy true) }
    ensures lives { IfOk result (LivesBy false false) }
{
    Ok(Request::Report(Reporting {
        played: played_of(alloc, matches)?,
        out: page_of(alloc, matches)?,
        data: given(alloc, matches, "data")?,
        keys: files_of(alloc, matches, "key")?,
        what_ifs: what_ifs_of(alloc, matches)?,
    }))
}
