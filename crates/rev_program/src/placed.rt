//! `lrudb open` of logs that lead, and where in them a session stands.
ghost use Rattle.std.specs.Prelude.{◌≡◌, Some, IfOk, OnOk};
ghost use Rattle.rev_classes.specs.Limits.{IsWithinLimits};
ghost use Rattle.rev_evidence.specs.Notes.{no_notes};
ghost use Rattle.rev_options.specs.Request.{key_until};
ghost use Rattle.rev_program.specs.Opening.{with_place};
ghost use Rattle.rev_program.specs.Placed.{IsGrown, IsNowhere, IsPlaced, IsPlacedAt, LooksFor, Opens, OpensAt, by_logs, stood_behind, with_never};
ghost use Rattle.rev_replay.specs.Seeking.{IsPlaceOf, plain_sought};

use crate::agreement::copies;
use crate::direct::{add_end, begun};
use rev_evidence::notes::LogNotes;
use rev_import_commands::import::{all_opened, name_in};
use rev_import_commands::leading::stop_of_replay;
use rev_import_commands::state::bad_file;
use rev_items::KeyFault;
use rev_lives::asked_key;
use rev_messages::Stop;
use rev_messages::opened::{OpenedAt, put_opened};
use rev_messages::progress::Progress;
use rev_options::{KEPT, Standing, Until};
use rev_output::Sink;
use rev_replay::grown::{Grown, Server, grow};
use rev_replay::keeping::Keeping;
use rev_replay::notes::put_life;
use rev_replay::sampling::Sampling;
use rev_replay::seeking::{Sought, Spot};
use rev_script::dialect::Dialect;
use rev_undotree::{MAX_NODES, Session};
use std::alloc::{AllocError, Global};
use std::mem::ManuallyDrop;
use std::rt::{Clock, Files};
use std::{fs, io};

/// A session to answer.
#[derive(Drop)]
pub(crate) struct Opened {
    pub(crate) session: Session<Global>,
    /// What a log tells of its nodes.
    pub(crate) log: LogNotes<Global>,
    /// Where it stands, where node 0 is not in front of the first step.
    pub(crate) at: Option<OpenedAt>,
}

/// A session that no log led to, which stands there.
pub(crate) fn unled(alloc: Global, session: Session<Global>, at: Option<OpenedAt>) -> Opened
    ensures log { result.log ≡ no_notes }
    ensures session { result.session ≡ session }
    ensures at { result.at ≡ at }
{
    Opened {
        session,
        log: LogNotes::none(alloc),
        at,
    }
}

/// Logs, which lead, of this server, and the files whose steps are played before them.
#[derive(Drop)]
pub(crate) struct LedLogs<'a> {
    pub(crate) server: Server<'a>,
    /// The sample that is played, where not all keys are.
    pub(crate) sampling: Option<&'a Sampling<Global>>,
    pub(crate) dialect: Dialect,
    pub(crate) starts: &'a [String],
    pub(crate) names: &'a [String],
    ghost sound: { IsWithinLimits server.setup.now.config },
}

// Reads the logs, behind the starts, and keeps so much of the steps.
fn grown_by<R: Files + AllocGlobal, C: Clock, W: Sink>(
    rt: &R,
    logs: &LedLogs<'_>,
    keeping: Keeping,
    sought: &Sought<Global>,
    notes: &mut Vec<u8>,
    progress: &Progress<C, W>,
) -> Result<Grown<Global>, Stop>
    ensures grown { IfOk result (IsGrown logs.now.server.setup.now.config) }
    ensures spot { IfOk result (λ grown. IsPlaceOf (plain_sought sought.now) grown.spot) }
{
    let alloc = rt.alloc();
    let names = logs.names;
    progress.expect(rt, logs.starts);
    progress.expect(rt, names);
    let files = all_opened(rt, alloc, names, io::empty(), progress)?;
    let starts = copies(alloc, logs.starts)?;
    match begun(
        rt,
        &logs.server.setup.config,
        logs.dialect,
        starts,
        progress,
    ) {
        Err(stop) => Err(stop),
        Ok(session) => match grow(
            alloc,
            logs.server,
            logs.sampling,
            session,
            keeping,
            sought,
            files,
            notes,
        ) {
            Ok(grown) => Ok(grown),
            Err((place, fault)) => Err(stop_of_replay(alloc, fault, name_in(names, place))),
        },
    }
}

// Where the session stands, of logs with so many steps.
fn opened_at(grown: &Grown<Global>, steps: u64) -> OpenedAt {
    OpenedAt {
        root: grown.before,
        steps,
        second: grown.since.seconds,
        node: grown.session.current().0,
    }
}

/// Adds where the session stands, where node 0 is not in front of the first step.
pub(crate) fn add_place(notes: &mut Vec<u8>, at: Option<OpenedAt>) -> Result<(), AllocError>
    ensures { OnOk result (notes.new.items ≡ with_place notes.old.items at) }
{
    match at {
        None => Ok(()),
        Some(at) => {
            notes.extend_from_slice(b"lrudb: ")?;
            put_opened(notes, at)?;
            notes.extend_from_slice(b"\n")
        }
    }
}

// Adds which life of the server the tree is of, where it has no room for what follows, and where the session stands.
fn add_told(
    alloc: Global,
    notes: &mut Vec<u8>,
    names: &[String],
    grown: &Grown<Global>,
    life: u64,
    at: Option<OpenedAt>,
) -> Result<(), AllocError> {
    put_life(notes, life, grown.lives)?;
    add_end(alloc, notes, names, grown.full)?;
    add_place(notes, at)
}

// The session with the tree of a life, and what is told of it behind `notes`.
fn finished(
    alloc: Global,
    notes: &mut Vec<u8>,
    names: &[String],
    grown: Grown<Global>,
    life: u64,
    at: Option<OpenedAt>,
) -> Result<Opened, Stop>
    ensures session { IfOk result (λ opened. opened.session ≡ grown.session) }
    ensures log { IfOk result (λ opened. opened.log ≡ grown.notes) }
{
    let told = add_told(alloc, notes, names, &grown, life, at);
    let Grown {
        session,
        notes: log,
        ..
    } = grown;
    match told {
        Ok(()) => Ok(Opened { session, log, at }),
        Err(_) => {
            // The program ends here, and all memory goes back at once.
            let _session = ManuallyDrop::new(session);
            Err(Stop::Memory)
        }
    }
}

/// The session with the tree of a life of the server from its begin on, that of this number, or the last where none is
/// given.
pub(crate) fn from_begin<R: Files + AllocGlobal, C: Clock, W: Sink>(
    rt: &R,
    logs: &LedLogs<'_>,
    life: Option<u32>,
    notes: &mut Vec<u8>,
    progress: &Progress<C, W>,
) -> Result<Opened, Stop>
    ensures { IfOk result (Opens logs.now.server.setup.now.config) }
{
    let keeping = Keeping::Tree { life };
    match grown_by(rt, logs, keeping, &Sought::Nowhere, notes, progress) {
        Err(stop) => Err(stop),
        Ok(grown) => {
            let life = match life {
                Some(life) => u64::from(life),
                None => grown.lives,
            };
            finished(rt.alloc(), notes, logs.names, grown, life, None)
        }
    }
}

// The session at a place that a first reading found, by another one, behind which nothing new is told of the logs. They
// have so many steps, and so many of those in front of the place are kept.
fn read_again<R: Files + AllocGlobal, C: Clock, W: Sink>(
    rt: &R,
    logs: &LedLogs<'_>,
    spot: Spot,
    steps: u64,
    keep: u32,
    notes: &mut Vec<u8>,
    progress: &Progress<C, W>,
) -> Result<Opened, Stop>
    ensures there { IfOk result (OpensAt logs.now.server.setup.now.config (Some spot.step)) }
    ensures opens { IfOk result (Opens logs.now.server.setup.now.config) }
{
    let mut known = Vec::new(rt.alloc());
    let keeping = Keeping::Behind {
        steps: spot.step.saturating_sub(u64::from(keep)),
        life: spot.life,
    };
    match grown_by(rt, logs, keeping, &Sought::Nowhere, &mut known, progress) {
        Err(stop) => Err(stop),
        Ok(grown) => stand(rt.alloc(), notes, logs.names, grown, spot, steps),
    }
}

// The session at a place that its tree has, of logs with so many steps.
fn stand(
    alloc: Global,
    notes: &mut Vec<u8>,
    names: &[String],
    grown: Grown<Global>,
    spot: Spot,
    steps: u64,
) -> Result<Opened, Stop>
    ensures session { IfOk result (λ opened. opened.session ≡ stood_behind (Some spot.step) grown.before grown.session) }
    ensures log { IfOk result (λ opened. opened.log ≡ grown.notes) }
{
    let mut grown = grown;
    grown.go_behind(spot.step);
    let at = if grown.before == 0 {
        None
    } else {
        Some(opened_at(&grown, steps))
    };
    finished(alloc, notes, names, grown, spot.life, at)
}

/// The first of these that is no file, and so can be read once, if there is one.
pub(crate) fn read_once<'a, R: Files>(rt: &R, names: &'a [String]) -> Option<&'a str> {
    for name in names {
        match fs::metadata(rt, name.as_str()) {
            Ok(metadata) if metadata.is_file() => {}
            _ => return Some(name.as_str()),
        }
    }
    None
}

// The session on logs, where no place is asked for: with the whole tree of the life that is asked for, or of the last
// one. Where that is longer than a tree, and the logs can be read again, the session stands at its end.
fn at_end<R: Files + AllocGlobal, C: Clock, W: Sink>(
    rt: &R,
    logs: &LedLogs<'_>,
    life: Option<u32>,
    notes: &mut Vec<u8>,
    progress: &Progress<C, W>,
) -> Result<Opened, Stop>
    ensures { IfOk result (Opens logs.now.server.setup.now.config) }
{
    if life.is_some() || read_once(rt, logs.names).is_some() {
        return from_begin(rt, logs, life, notes, progress);
    }
    match grown_by(rt, logs, Keeping::Last, &Sought::End, notes, progress) {
        Err(stop) => Err(stop),
        Ok(grown) => at_end_of(rt, logs, grown, notes, progress),
    }
}

// The same behind a first reading.
fn at_end_of<R: Files + AllocGlobal, C: Clock, W: Sink>(
    rt: &R,
    logs: &LedLogs<'_>,
    grown: Grown<Global>,
    notes: &mut Vec<u8>,
    progress: &Progress<C, W>,
) -> Result<Opened, Stop>
    requires { IsGrown logs.now.server.setup.now.config grown }
    ensures { IfOk result (Opens logs.now.server.setup.now.config) }
{
    let (steps, lives) = (grown.last(), grown.lives);
    if grown.is_whole() {
        return finished(rt.alloc(), notes, logs.names, grown, lives, None);
    }
    let end = Spot {
        step: steps,
        life: lives,
        begin: grown.begin,
    };
    grown.let_go();
    if steps.saturating_sub(end.begin) > u64::from(MAX_NODES) {
        return read_again(rt, logs, end, steps, KEPT, notes, progress);
    }
    let mut known = Vec::new(rt.alloc());
    from_begin(rt, logs, None, &mut known, progress)
}

/// What is looked for.
pub(crate) fn sought_of(alloc: Global, until: &Until) -> Result<Sought<Global>, Stop>
    ensures { IfOk result (λ sought. LooksFor until.now (plain_sought sought)) }
{
    match until {
        Until::Step(step) => Ok(Sought::Step(*step)),
        Until::Second(second) => Ok(Sought::Second(*second)),
        Until::End => Ok(Sought::End),
        Until::Gone(word) => match asked_key(alloc, word.as_bytes()) {
            Ok(key) => Ok(Sought::Gone(key)),
            Err(KeyFault::Memory) => Err(Stop::Memory),
            Err(KeyFault::BadKey) => Err(Stop::Usage(String::from_str(
                alloc,
                "error: --until-gone: 1 to 250 bytes are wanted, none of them a space or a control character\n",
            )?)),
        },
    }
}

/// What came of a place that was asked for.
#[derive(Drop)]
pub(crate) enum Placed {
    /// The session stands there.
    There(Opened),
    /// The key never left.
    NeverLeft,
}

// Adds that a key never left.
fn add_never(notes: &mut Vec<u8>, word: &str) -> Result<(), AllocError>
    ensures { OnOk result (notes.new.items ≡ with_never by_logs notes.old.items word.now) }
{
    notes.extend_from_slice(b"lrudb: ")?;
    notes.extend_from_slice(word.as_bytes())?;
    notes.extend_from_slice(b": by the replay of the logs this key never left\n")
}

// Why the session stands nowhere, of logs with so many steps.
fn no_place(
    alloc: Global,
    log: &str,
    until: &Until,
    steps: u64,
    notes: &mut Vec<u8>,
) -> Result<Placed, Stop>
    ensures { IfOk result (IsNowhere (key_until until.now) notes.new.items) }
{
    match until {
        Until::Gone(word) => {
            add_never(notes, word.as_str())?;
            Ok(Placed::NeverLeft)
        }
        _ => {
            let what = format!(in alloc; "no such step: the logs have {steps}")?;
            Err(bad_file(alloc, log, what.as_str()))
        }
    }
}

// The session on logs, where a place is asked for, behind a first reading.
fn at_spot<R: Files + AllocGlobal, C: Clock, W: Sink>(
    rt: &R,
    logs: &LedLogs<'_>,
    grown: Grown<Global>,
    spot: Spot,
    keep: u32,
    notes: &mut Vec<u8>,
    progress: &Progress<C, W>,
) -> Result<Opened, Stop>
    requires { IsGrown logs.now.server.setup.now.config grown }
    ensures { IfOk result (OpensAt logs.now.server.setup.now.config (Some spot.step)) }
{
    let steps = grown.last();
    if grown.serves(spot, keep) {
        return stand(rt.alloc(), notes, logs.names, grown, spot, steps);
    }
    grown.let_go();
    match read_once(rt, logs.names) {
        None => read_again(rt, logs, spot, steps, keep, notes, progress),
        Some(log) => Err(bad_file(
            rt.alloc(),
            log,
            "this log can be read once, and to stand there it has to be read again",
        )),
    }
}

// The session on logs, where a place is asked for, behind a first reading, if that found it.
fn found_in<R: Files + AllocGlobal, C: Clock, W: Sink>(
    rt: &R,
    logs: &LedLogs<'_>,
    grown: Grown<Global>,
    standing: &Standing,
    notes: &mut Vec<u8>,
    progress: &Progress<C, W>,
) -> Result<Placed, Stop>
    requires { IsGrown logs.now.server.setup.now.config grown }
    ensures { IfOk result (IsPlacedAt logs.now.server.setup.now.config grown.spot (key_until standing.now.until) notes.new.items) }
{
    match grown.spot {
        None => {
            let steps = grown.last();
            grown.let_go();
            let first = name_in(logs.names, 0);
            no_place(rt.alloc(), first, &standing.until, steps, notes)
        }
        Some(spot) => match at_spot(rt, logs, grown, spot, standing.keep, notes, progress) {
            Ok(opened) => Ok(Placed::There(opened)),
            Err(stop) => Err(stop),
        },
    }
}

// The session on logs, where a place is asked for, if it is there.
fn at_place<R: Files + AllocGlobal, C: Clock, W: Sink>(
    rt: &R,
    logs: &LedLogs<'_>,
    standing: &Standing,
    notes: &mut Vec<u8>,
    progress: &Progress<C, W>,
) -> Result<Placed, Stop>
    ensures { IfOk result (IsPlaced logs.now.server.setup.now.config (Some standing.now) notes.new.items) }
{
    let sought = sought_of(rt.alloc(), &standing.until)?;
    match grown_by(rt, logs, sought.keeping(), &sought, notes, progress) {
        Err(stop) => Err(stop),
        Ok(grown) => found_in(rt, logs, grown, standing, notes, progress),
    }
}

/// The session on logs at the place that is asked for, if it is there; where none is asked for, behind the life that
/// is, or behind the last one.
pub(crate) fn placed_on<R: Files + AllocGlobal, C: Clock, W: Sink>(
    rt: &R,
    logs: &LedLogs<'_>,
    life: Option<u32>,
    standing: &Option<Standing>,
    notes: &mut Vec<u8>,
    progress: &Progress<C, W>,
) -> Result<Placed, Stop>
    ensures { IfOk result (IsPlaced logs.now.server.setup.now.config standing.now notes.new.items) }
{
    match standing {
        Some(standing) => at_place(rt, logs, standing, notes, progress),
        None => match at_end(rt, logs, life, notes, progress) {
            Ok(opened) => Ok(Placed::There(opened)),
            Err(stop) => Err(stop),
        },
    }
}
