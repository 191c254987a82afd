//! What is told of logs: the lives of some keys, or all keys that left.
ghost use Rattle.rev_classes.specs.Limits.{IsWithinLimits};

use crate::gone::Gone;
use crate::lives::Lives;
use rev_import::setup::Setup;
use rev_items::Key;
use rev_life::filter::Filter;
use rev_life::life::KeyLives;
use rev_life::lines::lives_lines;
use rev_life::text::put_lives;
use rev_output::{Sink, write_all};
use rev_replay::coverage::Coverage;
use rev_replay::fault::ReplayFault;
use rev_replay::notes::put_notes;
use rev_replay::run::{Replay, replay_logs};
use rev_replay::sampling::Sampling;
use std::alloc::{AllocError, Allocator};
use std::io::Read;
use std::mem;

/// As soon as so many bytes are at hand, they are sent (this project's own figure).
const PIECE: usize = 65536;

/// What is asked for: some keys, and how they are told.
#[derive(Drop)]
pub struct LivesAsked<A: Allocator> {
    pub keys: Vec<Key<A>, A>,
    /// Whether only the last life of each is told.
    pub last: bool,
    /// Which life of the server is asked for, from 1; none for all.
    pub life: Option<u64>,
    /// Whether they are told as JSON.
    pub json: bool,
    /// The byte that ends a prefix.
    pub prefix_end: u8,
}

/// How much was told.
#[derive(Clone, Copy)]
pub struct Found {
    /// How many lives, or keys that left.
    pub told: u64,
    /// Whether a line of the logs names each of the keys that were asked for.
    pub all_seen: bool,
}

/// The keys that are asked for, of which nothing is known yet.
///
/// Err: memory was refused.
pub fn asked_for<A: Allocator + Copy>(
    alloc: A,
    asked: &LivesAsked<A>,
) -> Result<Lives<A>, AllocError> {
    let mut lives = Lives::new(alloc, asked.last, asked.life, asked.prefix_end);
    for key in &asked.keys {
        lives.ask(key)?;
    }
    Ok(lives)
}

// How many lives of a key are told.
fn lives_of<A: Allocator>(key: &KeyLives<A>) -> u64 {
    let ended = key.ended.len() as u64;
    if key.held.is_some() { ended + 1 } else { ended }
}

/// Writes the lives of all keys, and counts them.
///
/// Err: memory was refused, or a write failed.
pub fn send_lives<A: Allocator + Copy, K: Sink>(
    alloc: A,
    lives: &Lives<A>,
    as_json: bool,
    sink: &mut K,
) -> Result<Found, ReplayFault> {
    let mut found = Found {
        told: 0,
        all_seen: true,
    };
    let mut out = Vec::new(alloc);
    for asked in lives.keys() {
        let key = &asked.lives;
        if as_json {
            out = lives_lines(
                alloc,
                mem::replace(&mut out, Vec::new(alloc)),
                key,
                lives.now(),
            )?;
        } else {
            put_lives(alloc, &mut out, key, lives.now())?;
        }
        found.told = found.told.saturating_add(lives_of(key));
        if key.named.is_none() {
            found.all_seen = false;
        }
        if out.len() >= PIECE {
            write_all(sink, out.as_slice())?;
            out.clear();
        }
    }
    write_all(sink, out.as_slice())?;
    Ok(found)
}

// A replay of which no log was read, of all keys or of a sample.
fn opened<'a, A: Allocator + Copy>(
    alloc: A,
    setup: &'a Setup,
    coverage: Coverage,
    sampling: Option<&'a Sampling<A>>,
) -> Result<Replay<'a, A>, (usize, ReplayFault)>
    requires { IsWithinLimits setup.now.config }
{
    match Replay::open(alloc, setup, coverage) {
        Ok(mut replay) => {
            replay.limit_to_sample(sampling);
            Ok(replay)
        }
        Err(fault) => Err((0, fault)),
    }
}

// Notes what became of the lines, and hands on how it ended.
fn noted<A: Allocator + Copy>(
    done: Result<Found, (usize, ReplayFault)>,
    replay: &Replay<'_, A>,
    notes: &mut Vec<u8, A>,
) -> Result<Found, (usize, ReplayFault)> {
    match done {
        Err(fault) => Err(fault),
        Ok(found) => match put_notes(notes, replay) {
            Err(_) => Err((0, ReplayFault::Memory)),
            Ok(()) => Ok(found),
        },
    }
}

// Follows keys through logs, and writes their lives.
fn follow_logs<A: Allocator + Copy, F: Read + Drop, K: Sink>(
    alloc: A,
    replay: &mut Replay<'_, A>,
    logs: Vec<F, A>,
    lives: &mut Lives<A>,
    as_json: bool,
    sink: &mut K,
) -> Result<Found, (usize, ReplayFault)> {
    replay_logs(replay, logs, lives)?;
    match send_lives(alloc, lives, as_json, sink) {
        Ok(found) => Ok(found),
        Err(fault) => Err((0, fault)),
    }
}

// The same of the keys that are asked for. They are dropped in one place: what drops them is long.
fn follow_asked<A: Allocator + Copy, F: Read + Drop, K: Sink>(
    alloc: A,
    replay: &mut Replay<'_, A>,
    logs: Vec<F, A>,
    asked: &LivesAsked<A>,
    sink: &mut K,
) -> Result<Found, (usize, ReplayFault)> {
    match asked_for(alloc, asked) {
        Ok(mut lives) => {
            let told = follow_logs(alloc, replay, logs, &mut lives, asked.json, sink);
            drop(lives);
            told
        }
        Err(_) => {
            drop(logs);
            Err((0, ReplayFault::Memory))
        }
    }
}

/// Tells the lives of the keys that are asked for, from the logs that the files hold, in their order, of a server with
/// this setup; of a sample, where there is one. They are written behind the last log. What is told of the logs
/// themselves goes behind `notes`.
///
/// Err: the place of a log, from 0 on, and why nothing is told: memory was refused, a read or a write failed, a line
/// that begins like one of the log is none, a log shows an item that the rules do not cover, or there are more lines
/// than can be counted. Or no log has an event, and
/// then the place is 0, as it is where it was the end that failed.
pub fn tell_lives<A: Allocator + Copy, F: Read + Drop, K: Sink>(
    alloc: A,
    setup: &Setup,
    coverage: Coverage,
    sampling: Option<&Sampling<A>>,
    logs: Vec<F, A>,
    asked: &LivesAsked<A>,
    sink: &mut K,
    notes: &mut Vec<u8, A>,
) -> Result<Found, (usize, ReplayFault)>
    requires { IsWithinLimits setup.now.config }
{
    let mut replay = opened(alloc, setup, coverage, sampling)?;
    let told = follow_asked(alloc, &mut replay, logs, asked, sink);
    let ended = noted(told, &replay, notes);
    drop(replay);
    ended
}

// Sends what is at hand, and counts what was told.
fn sent<A: Allocator + Copy, K: Sink>(gone: &mut Gone<'_, K, A>) -> Result<Found, ReplayFault> {
    gone.send()?;
    Ok(Found {
        told: gone.told(),
        all_seen: true,
    })
}

// Tells the keys that left by logs.
fn tell_leaving<A: Allocator + Copy, F: Read + Drop, K: Sink>(
    replay: &mut Replay<'_, A>,
    logs: Vec<F, A>,
    gone: &mut Gone<'_, K, A>,
) -> Result<Found, (usize, ReplayFault)> {
    replay_logs(replay, logs, gone)?;
    match sent(gone) {
        Ok(found) => Ok(found),
        Err(fault) => Err((0, fault)),
    }
}

/// Tells the keys that left and pass the filter, in the order in which they did, from the logs that the files hold, in
/// their order, of a server with this setup; of a sample, where there is one. They are written as the logs are read.
/// What is told of the logs themselves goes behind `notes`.
///
/// Err: as of `tell_lives`; what was told before is written, or a part of it.
pub fn tell_gone<A: Allocator + Copy, F: Read + Drop, K: Sink>(
    alloc: A,
    setup: &Setup,
    coverage: Coverage,
    sampling: Option<&Sampling<A>>,
    logs: Vec<F, A>,
    filter: &Filter<'_>,
    as_json: bool,
    sink: &mut K,
    notes: &mut Vec<u8, A>,
) -> Result<Found, (usize, ReplayFault)>
    requires { IsWithinLimits setup.now.config }
{
    let mut replay = opened(alloc, setup, coverage, sampling)?;
    let mut gone = Gone::new(alloc, filter, as_json, sink);
    let told = tell_leaving(&mut replay, logs, &mut gone);
    drop(gone);
    let ended = noted(told, &replay, notes);
    drop(replay);
    ended
}
