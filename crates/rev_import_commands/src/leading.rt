//! What a command needs whose replay a server's logs lead: the server's settings, as far as the rules cover them, and
//! why nothing more is played of the logs.
ghost use Rattle.std.specs.Prelude.{IfOk};
ghost use Rattle.rev_classes.specs.Limits.{IsWithinLimits};

use crate::files::copied;
use crate::import::{settings_of, setup_by};
use crate::state::bad_file;
use rev_choices::Factor;
use rev_import::setup::{MOST_PAGES, PAGE_SIZE, Setup, Unfollowed};
use rev_intake::report::put_unfollowed;
use rev_messages::Stop;
use rev_replay::coverage::Coverage;
use rev_replay::fault::ReplayFault;
use rev_watch::obstacles::{Obstacle, obstacles};
use rev_watch::settings::Settings;
use std::alloc::{AllocError, Global};
use std::rt::Files;

// A line for each obstacle, which begins with this text.
fn lines_of(
    alloc: Global,
    front: &str,
    obstacles: &[Option<Obstacle>],
) -> Result<String, AllocError> {
    let mut lines = String::new(alloc);
    for obstacle in obstacles {
        if let Some(obstacle) = obstacle {
            lines.push_str(front)?;
            lines.push_str(format!(in alloc; "{obstacle}\n")?.as_str())?;
        }
    }
    Ok(lines)
}

// Why logs are not read, by lines that say it.
fn refusal_by(lines: String) -> Result<Stop, AllocError> {
    let mut lines = lines;
    lines.push_str("lrudb: with --anyway the logs are read all the same\n")?;
    Ok(Stop::BadImport(lines))
}

// Why logs of a server with these obstacles are not read, where the file of this name tells of them.
fn refusal(alloc: Global, name: &str, obstacles: &[Option<Obstacle>]) -> Result<Stop, AllocError> {
    let front = format!(in alloc; "lrudb: {name}: ")?;
    refusal_by(lines_of(alloc, front.as_str(), obstacles)?)
}

// Why a log of this name is not read on, which shows an item of so many bytes in a class that is not the one of the
// server's settings.
fn other_class(alloc: Global, log: &str, size: u32, class: u32) -> Result<Stop, AllocError> {
    refusal_by(format!(in alloc;
        "lrudb: {log}: an item with {size} bytes of data is in class {class}, and the settings give another class: they are of another server, or it has slab_sizes of its own\n"
    )?)
}

// The same as why the program is stopped.
fn stop_by(refusal: Result<Stop, AllocError>) -> Stop {
    match refusal {
        Ok(stop) => stop,
        Err(_) => Stop::Memory,
    }
}

// Sees whether the rules cover these settings, of a file of this name. Where one is an obstacle, the logs are refused,
// or it is noted where they are to be read anyway.
fn see_obstacles(
    alloc: Global,
    name: &str,
    settings: &Settings,
    anyway: bool,
    notes: &mut Vec<u8>,
) -> Result<(), Stop> {
    let met = obstacles(settings);
    if anyway {
        let lines = lines_of(alloc, "settings: ", &met)?;
        notes.extend_from_slice(lines.as_bytes())?;
        return Ok(());
    }
    if met.iter().all(|obstacle| obstacle.is_none()) {
        return Ok(());
    }
    Err(stop_by(refusal(alloc, name, &met)))
}

// Whether logs are replayed on that show items which the rules do not cover.
fn coverage_of(settings: &Settings, anyway: bool) -> Coverage {
    if anyway {
        Coverage::Anyway
    } else {
        Coverage::Checked {
            chunk_max: settings.slab_chunk_max,
        }
    }
}

/// A server whose logs are to lead.
#[derive(Drop)]
pub struct LeadingServer {
    /// What lrudb is opened with in its place.
    pub setup: Setup,
    /// What is to become of logs that show items which the rules do not cover.
    pub coverage: Coverage,
    /// How many pages it has, which may be more than lrudb is opened with.
    pub pages: u64,
}

// The server whose settings the file of this name has, where its logs are to lead. Where a setting is an obstacle, that
// goes behind `notes`, and nothing else.
fn seen_server<R: Files + AllocGlobal>(
    rt: &R,
    name: &str,
    factor: Option<Factor>,
    anyway: bool,
    notes: &mut Vec<u8>,
) -> Result<LeadingServer, Stop>
    ensures { IfOk result (λ server. IsWithinLimits server.setup.config) }
{
    let settings = settings_of(rt, name)?;
    see_obstacles(rt.alloc(), name, &settings, anyway, notes)?;
    Ok(LeadingServer {
        setup: setup_by(&settings, factor)?,
        coverage: coverage_of(&settings, anyway),
        pages: settings.max_bytes / u64::from(PAGE_SIZE),
    })
}

// Adds what is not followed of the settings, but for the number of pages where that is more than lrudb has.
fn add_all_but_pages(
    notes: &mut Vec<u8>,
    unfollowed: &[Option<Unfollowed>],
) -> Result<(), AllocError> {
    for setting in unfollowed {
        match setting {
            Some(Unfollowed::TooMuchMemory) => {}
            _ => put_unfollowed(notes, &[*setting])?,
        }
    }
    Ok(())
}

/// The server whose settings the file of this name has, where its logs are to lead, and are replayed as a sample if it
/// has more pages than lrudb. Behind `notes` goes what the rules do not cover of the settings.
///
/// Err: memory was refused; the file can't be read, or is no text of settings; or the server has a setting under which
/// other keys leave than the rules say, unless the logs are to be read `anyway`.
pub fn leading_server<R: Files + AllocGlobal>(
    rt: &R,
    name: &str,
    factor: Option<Factor>,
    anyway: bool,
    notes: &mut Vec<u8>,
) -> Result<LeadingServer, Stop>
    ensures { IfOk result (λ server. IsWithinLimits server.setup.config) }
{
    let server = seen_server(rt, name, factor, anyway, notes)?;
    add_all_but_pages(notes, &server.setup.unfollowed)?;
    Ok(server)
}

// What that server is opened with, with notes of all that is not followed of it.
fn told_setup(server: LeadingServer, notes: &mut Vec<u8>) -> Result<(Setup, Coverage), Stop>
    requires { IsWithinLimits server.setup.config }
    ensures { IfOk result (λ leading. IsWithinLimits leading.0.config) }
{
    let LeadingServer {
        setup,
        coverage,
        ..
    } = server;
    put_unfollowed(notes, &setup.unfollowed)?;
    Ok((setup, coverage))
}

/// What lrudb is opened with in the place of that server, and what is to become of logs that show items which the rules
/// do not cover. Where it has more pages than lrudb, that is noted.
///
/// Err: as of `leading_server`.
pub fn leading_setup<R: Files + AllocGlobal>(
    rt: &R,
    name: &str,
    factor: Option<Factor>,
    anyway: bool,
    notes: &mut Vec<u8>,
) -> Result<(Setup, Coverage), Stop>
    ensures { IfOk result (λ leading. IsWithinLimits leading.0.config) }
{
    let server = seen_server(rt, name, factor, anyway, notes)?;
    told_setup(server, notes)
}

// Why nothing is counted of a server of so many pages, whose settings the file of this name has.
fn too_many_pages(alloc: Global, name: &str, pages: u64) -> Result<Stop, AllocError> {
    refusal_by(format!(in alloc;
        "lrudb: {name}: the server has {pages} pages, and lrudb at most {MOST_PAGES}: figures would be those of another cache; lrudb import watch --sample 1/N makes a script of a sample, and lrudb report takes that\n"
    )?)
}

/// The same for figures, which are of the whole server.
///
/// Err: as of `leading_server`; or the server has more pages than lrudb, unless the logs are to be read `anyway`.
pub fn whole_setup<R: Files + AllocGlobal>(
    rt: &R,
    name: &str,
    factor: Option<Factor>,
    anyway: bool,
    notes: &mut Vec<u8>,
) -> Result<(Setup, Coverage), Stop>
    ensures { IfOk result (λ leading. IsWithinLimits leading.0.config) }
{
    let server = seen_server(rt, name, factor, anyway, notes)?;
    if server.pages > u64::from(MOST_PAGES) && !anyway {
        return Err(stop_by(too_many_pages(rt.alloc(), name, server.pages)));
    }
    told_setup(server, notes)
}

// Why there is nothing to tell of a life of the server that was not there.
fn no_life(alloc: Global, log: &str, lives: u64) -> Stop {
    match format!(in alloc; "no such life of the server: the logs have {lives}") {
        Ok(what) => bad_file(alloc, log, what.as_str()),
        Err(_) => Stop::Memory,
    }
}

/// Why nothing more is played of logs, at a log of this name.
pub fn stop_of_replay(alloc: Global, fault: ReplayFault, log: &str) -> Stop {
    let named = match copied(alloc, log) {
        Ok(named) => named,
        Err(stop) => return stop,
    };
    match fault {
        ReplayFault::Memory => Stop::Memory,
        ReplayFault::Read => Stop::CannotOpen(named),
        ReplayFault::Line { line, fault } => Stop::BadLine {
            log: named,
            line,
            fault,
        },
        ReplayFault::TooLong => Stop::TooLong,
        ReplayFault::Write => Stop::CannotWrite,
        ReplayFault::NoEvent => Stop::NoEvent(named),
        ReplayFault::NoLife { lives } => no_life(alloc, log, lives),
        ReplayFault::TooManySteps => bad_file(alloc, log, "too many steps for an event"),
        ReplayFault::Chunked { most } => {
            stop_by(refusal(alloc, log, &[Some(Obstacle::ChunkedItems(most))]))
        }
        ReplayFault::OtherClass { size, class } => stop_by(other_class(alloc, log, size, class)),
    }
}
