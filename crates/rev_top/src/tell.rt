//! What is told of logs: where the room of their server went.
ghost use Rattle.rev_classes.specs.Limits.{IsWithinLimits};

use crate::lines::row_line;
use crate::rows::{Row, rows_of};
use crate::text::put_table;
use crate::top::{Asked, By, Top};
use rev_import::setup::Setup;
use rev_output::{Sink, write_all};
use rev_replay::coverage::Coverage;
use rev_replay::fault::ReplayFault;
use rev_replay::notes::put_notes;
use rev_replay::run::{Replay, replay_logs};
use rev_replay::sampling::Sampling;
use std::alloc::{AllocError, Allocator};
use std::io::Read;

// A replay of which no log was read, of all keys or of a sample.
fn opened<'a, A: Allocator + Copy>(
    alloc: A,
    setup: &'a Setup,
    coverage: Coverage,
    sampling: Option<&'a Sampling<A>>,
) -> Result<Replay<'a, A>, (usize, ReplayFault)>
    requires { IsWithinLimits setup.now.config }
{
    match Replay::open(alloc, setup, coverage) {
        Ok(mut replay) => {
            replay.limit_to_sample(sampling);
            Ok(replay)
        }
        Err(fault) => Err((0, fault)),
    }
}

// Rows as JSON, a line each.
fn lines_of<A: Allocator + Copy>(alloc: A, rows: &[Row<'_>]) -> Result<Vec<u8, A>, AllocError> {
    let mut out = Vec::new(alloc);
    for row in rows {
        out = row_line(alloc, out, *row)?;
    }
    Ok(out)
}

// What is told of what was counted.
fn told_of<A: Allocator + Copy>(
    alloc: A,
    top: &Top<'_, A>,
    asked: Asked,
) -> Result<Vec<u8, A>, AllocError> {
    let by_class = asked.by == By::Class;
    let rows = rows_of(alloc, &top.table, &top.lifetimes, by_class, asked.most)?;
    if asked.json {
        return lines_of(alloc, rows.as_slice());
    }
    let mut out = Vec::new(alloc);
    put_table(alloc, &mut out, rows.as_slice(), by_class)?;
    Ok(out)
}

// Sends what is told, and puts what became of the lines behind the notes.
fn send<A: Allocator + Copy, K: Sink>(
    alloc: A,
    replay: &Replay<'_, A>,
    top: &Top<'_, A>,
    asked: Asked,
    sink: &mut K,
    notes: &mut Vec<u8, A>,
) -> Result<(), ReplayFault> {
    let out = told_of(alloc, top, asked)?;
    write_all(sink, out.as_slice())?;
    put_notes(notes, replay)?;
    Ok(())
}

// Counts what logs say, and tells it.
fn count_logs<A: Allocator + Copy, F: Read + Drop, K: Sink>(
    alloc: A,
    replay: &mut Replay<'_, A>,
    logs: Vec<F, A>,
    asked: Asked,
    sampling: Option<&Sampling<A>>,
    sink: &mut K,
    notes: &mut Vec<u8, A>,
) -> Result<(), (usize, ReplayFault)> {
    let mut top = Top::new(alloc, asked, sampling);
    let read = replay_logs(replay, logs, &mut top);
    let told = match read {
        Err(fault) => Err(fault),
        Ok(()) => match send(alloc, replay, &top, asked, sink, notes) {
            Ok(()) => Ok(()),
            Err(fault) => Err((0, fault)),
        },
    };
    drop(top);
    told
}

/// Tells where the room of a server with this setup went, from the logs that the files hold, in their order: of all
/// keys, or of those of a sample. It is written behind the last log. What is told of the logs themselves goes behind
/// `notes`.
///
/// Err: the place of a log, from 0 on, and why nothing is told: memory was refused, a read or a write failed, a line
/// that begins like one of the log is none, a log shows an item that the rules do not cover, or there are more lines
/// than can be counted. Or no log has an event, and then the place is 0, as it is where it was the end that failed.
pub fn tell_top<A: Allocator + Copy, F: Read + Drop, K: Sink>(
    alloc: A,
    setup: &Setup,
    coverage: Coverage,
    sampling: Option<&Sampling<A>>,
    logs: Vec<F, A>,
    asked: Asked,
    sink: &mut K,
    notes: &mut Vec<u8, A>,
) -> Result<(), (usize, ReplayFault)>
    requires { IsWithinLimits setup.now.config }
{
    let mut replay = opened(alloc, setup, coverage, sampling)?;
    let told = count_logs(alloc, &mut replay, logs, asked, sampling, sink, notes);
    drop(replay);
    told
}
