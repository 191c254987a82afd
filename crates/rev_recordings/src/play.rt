//! The files' steps, played at once.
ghost use Rattle.std.specs.Prelude.{[], ◌≡◌, ◌≢◌, ◌≤◌, ◌++◌, length, map, All, IfOk, IfErr, OnOk};
ghost use Rattle.std.specs.List.{zip};
ghost use Rattle.std.specs.Io.KnownBytes.{Appends, Keeps};
ghost use Rattle.rev_requests.specs.Plain.{plain_step};
ghost use Rattle.rev_recorder.specs.Hands.{Settles};
ghost use Rattle.rev_recorder.specs.Settling.{AreNew, IsLegalLog};
ghost use Rattle.rev_recordings.specs.Fault.{IsStatus};
ghost use Rattle.rev_recordings.specs.Rows.{ends_text, IsEnd};
ghost use Rattle.rev_recordings.specs.Recordings.{IsScript, AreScripts, Spoils, IsSpoilt, EndedBy, IsOfPlay, IsOfPrint, HaveRun, IsPlayed, IsRecorded, HasNoRows, recording_text};
ghost use Rattle.rev_recordings.specs.declared.fault.RecordingFault.{RecordingFault};

use crate::fault::{RecordingFault, ended};
use crate::rows::{put_end, text_of};
use crate::steps::read_steps;
use rev_output::Sink;
use rev_recorder::{Gate, Hand, RecordFault, Recorder, Settled, run_actors};
use rev_requests::Step;
use rev_script::dialect::Dialect;
use rev_script::source::FromRead;
use rev_undotree::Session;
use std::alloc::{AllocError, Global};
use std::collections::VecDeque;
use std::io::{Read, Write};
use std::mem::ManuallyDrop;
use std::sync::Wait;
use std::thread::Threads;

// The one recorder of the program needs no seal of its own.
const SEAL: u64 = 1;

/// A gate that lets every player pass at once.
#[derive(Clone, Copy)]
struct Open;

impl Gate for Open {
    fn before(&self, _player: usize, _index: usize) {}

    fn after(&self, _player: usize, _index: usize) {}
}

// A recording that is over, with the lines of the players that a limit stopped.
#[derive(Drop)]
struct Played {
    settled: Settled,
    stopped: Vec<u8>,
}

// The steps of one file.
fn read_file<F: Read + Drop>(
    alloc: Global,
    dialect: Dialect,
    name: String,
    reader: F,
) -> Result<Vec<Step<Global>>, RecordingFault>
    ensures ok { IfOk result (λ steps. IsScript dialect (F.remaining reader) (map plain_step steps.items)) }
    ensures err { IfErr result (λ e. Spoils dialect (F.remaining reader) name e) }
{
    let mut source = FromRead::new(reader);
    match read_steps(alloc, dialect, &mut source) {
        Ok(steps) => Ok(steps),
        Err(fault) => Err(RecordingFault::of(fault, name)),
    }
}

// The steps of each file, in the order of the files. The first fault ends it.
fn read_files<F: Read + Drop>(
    alloc: Global,
    dialect: Dialect,
    files: Vec<(String, F)>,
) -> Result<Vec<Vec<Step<Global>>>, RecordingFault>
    ensures count { IfOk result (λ scripts. length scripts.items ≡ length files.items) }
    ensures steps { IfOk result (λ scripts. AreScripts dialect F.remaining files.items scripts.items) }
    ensures err { IfErr result (λ e. IsSpoilt dialect F.remaining files.items e) }
{
    let mut scripts = Vec::new(alloc);
    let mut rest = VecDeque::from_vec(files);
    while let Some((name, reader)) = rest.pop_front() {
        let steps = read_file(alloc, dialect, name, reader)?;
        if scripts.push(steps).is_err() {
            return Err(RecordingFault::Memory);
        }
    }
    Ok(scripts)
}

// A recorder of the session, with a hand for each player.
fn open_recorder(
    alloc: Global,
    session: Session<Global>,
    players: usize,
) -> Result<(Recorder, Vec<Hand>), RecordingFault>
    requires { (1 ≤ players) × (players ≤ 8) }
    ensures ok { IfOk result (λ r. (r.0.seal ≡ 1) × AreNew 1 players r.1.items) }
    ensures err { IfErr result (λ e. IsOfPlay e) }
{
    match Recorder::open(alloc, session, players, SEAL) {
        Ok(opened) => Ok(opened),
        Err(refused) => {
            drop(refused);
            Err(RecordingFault::Memory)
        }
    }
}

// Each hand with its steps.
fn paired(
    alloc: Global,
    hands: Vec<Hand>,
    scripts: Vec<Vec<Step<Global>>>,
) -> Result<Vec<(Hand, Vec<Step<Global>>)>, AllocError>
    ensures { IfOk result (λ work. work.items ≡ zip hands.items scripts.items) }
{
    let mut work = Vec::new(alloc);
    let mut scripts = VecDeque::from_vec(scripts);
    for hand in hands {
        let Some(steps) = scripts.pop_front() else {
            break;
        };
        work.push((hand, steps))?;
    }
    Ok(work)
}

// The hands again, with a line for each player that a limit stopped.
fn parted(
    alloc: Global,
    done: Vec<(Hand, Result<(), RecordFault>)>,
    stopped: &mut Vec<u8>,
) -> Result<Vec<Hand>, RecordingFault>
    ensures lines { OnOk result (stopped.new.items ≡ stopped.old.items ++ ends_text done.items) }
    ensures ends { OnOk result (All (λ d. IsEnd d.1) done.items) }
    ensures hands { IfOk result (λ hands. hands.items ≡ map (λ d. d.0) done.items) }
    ensures err { IfErr result (λ e. IsOfPlay e) }
{
    let mut hands = Vec::new(alloc);
    let mut rest = VecDeque::from_vec(done);
    while let Some((hand, end)) = rest.pop_front() {
        put_end(stopped, hand.player() as u64, end)?;
        if hands.push(hand).is_err() {
            return Err(RecordingFault::Memory);
        }
    }
    Ok(hands)
}

// Plays each hand's steps, on as many threads as there are hands.
fn run_hands<R: Threads + Wait + Sync>(
    rt: &R,
    recorder: &Recorder,
    hands: Vec<Hand>,
    scripts: Vec<Vec<Step<Global>>>,
    stopped: &mut Vec<u8>,
) -> Result<Vec<Hand>, RecordingFault>
    requires { stopped.old.items ≡ [] }
    ensures ok { IfOk result (λ back. HaveRun recorder.now.seal hands.items scripts.items back.items stopped.new.items) }
    ensures err { IfErr result (λ e. IsOfPlay e) }
{
    let alloc = *stopped.allocator();
    let Ok(work) = paired(alloc, hands, scripts) else {
        return Err(RecordingFault::Memory);
    };
    match run_actors(rt, recorder, work, &Open) {
        Ok(done) => parted(alloc, done, stopped),
        Err(_) => Err(RecordingFault::Memory),
    }
}

// The log and the session, where the hands agree with them.
fn settled(recorder: Recorder, hands: Vec<Hand>, stopped: Vec<u8>) -> Result<Played, RecordingFault>
    ensures ok { IfOk result (λ played. (played.stopped ≡ stopped) × IsLegalLog played.settled.log.items played.settled.session × Settles hands.items played.settled.log.items played.settled.session) }
    ensures err { IfErr result (λ e. IsOfPlay e) }
{
    match recorder.settle(hands) {
        Ok(settled) => Ok(Played { settled, stopped }),
        Err(fault) => {
            drop(fault);
            Err(RecordingFault::LogDiffers)
        }
    }
}

// Plays the scripts, each a player's, on the session.
fn play_scripts<R: Threads + Wait + Sync>(
    rt: &R,
    alloc: Global,
    session: Session<Global>,
    scripts: Vec<Vec<Step<Global>>>,
) -> Result<Played, RecordingFault>
    requires { (1 ≤ length scripts.items) × (length scripts.items ≤ 8) }
    ensures ok { IfOk result (λ played. IsPlayed scripts.items played.settled.log.items played.settled.session played.stopped.items) }
    ensures err { IfErr result (λ e. IsOfPlay e) }
{
    let (recorder, hands) = match open_recorder(alloc, session, scripts.len()) {
        Ok(opened) => opened,
        Err(fault) => return Err(fault),
    };
    let mut stopped = Vec::new(alloc);
    match run_hands(rt, &recorder, hands, scripts, &mut stopped) {
        Ok(hands) => settled(recorder, hands, stopped),
        Err(fault) => Err(fault),
    }
}

// Writes all that a recording prints, in one piece.
fn print<W: Write>(played: Played, writer: &mut W) -> Result<(), RecordingFault>
    ensures ok { OnOk result (Appends (W.contents writer.old) (W.contents writer.new) (recording_text played.settled.log.items played.settled.session played.stopped.items)) }
    ensures err { IfErr result (λ e. IsOfPrint e × (e ≢ RecordingFault.CannotWrite → Keeps (W.contents writer.old) (W.contents writer.new))) }
{
    let Played { settled, stopped } = played;
    let text = text_of(settled.log.as_slice(), &settled.session, stopped);
    // The program ends with the recording, and all memory goes back at once: nothing is gained by taking the tree
    // apart.
    let _settled = ManuallyDrop::new(settled);
    let Ok(text) = text else {
        return Err(RecordingFault::Memory);
    };
    if writer.write_all(text.as_slice()).is_err() {
        return Err(RecordingFault::CannotWrite);
    }
    match writer.flush() {
        Ok(()) => Ok(()),
        Err(_) => Err(RecordingFault::CannotWrite),
    }
}

// Reads all files, plays their steps on the session, and prints how it went.
fn record<R: Threads + Wait + Sync + AllocGlobal, F: Read + Drop, W: Write>(
    rt: &R,
    session: Session<Global>,
    dialect: Dialect,
    files: Vec<(String, F)>,
    writer: &mut W,
) -> Result<(), RecordingFault>
    requires { (1 ≤ length files.items) × (length files.items ≤ 8) }
    ensures ok { OnOk result (IsRecorded dialect F.remaining files.items (W.contents writer.old) (W.contents writer.new)) }
    ensures err { IfErr result (λ e. e ≢ RecordingFault.CannotWrite → Keeps (W.contents writer.old) (W.contents writer.new)) }
    ensures why { IfErr result (λ e. EndedBy dialect F.remaining files.items e) }
{
    let scripts = match read_files(rt.alloc(), dialect, files) {
        Ok(scripts) => scripts,
        Err(fault) => {
            // The program ends here, and all memory goes back at once.
            let _session = ManuallyDrop::new(session);
            return Err(fault);
        }
    };
    let played = play_scripts(rt, rt.alloc(), session, scripts)?;
    match print(played, writer) {
        Ok(()) => Ok(()),
        Err(fault) => Err(fault),
    }
}

/// `lrudb record` once its files are open, each a name and a reader: reads them in order, in the dialect, plays them at
/// once on the session, the i-th file from 0 as player i, and writes the rows to `writer`. A file that is not steps
/// from its first line to its last ends it before anything of it is played. Answers the exit status, 0, 3, 4, 5 or 6.
/// At status 0 nothing goes to `errors`; at any other the text of the reason does, whole where no write to `errors` has
/// failed, and nothing is written to `writer` but where a write to it failed. Threads may wait for one another.
pub fn play_files<R: Threads + Wait + Sync + AllocGlobal, F: Read + Drop, W: Write, E: Sink>(
    rt: &R,
    session: Session<Global>,
    dialect: Dialect,
    files: Vec<(String, F)>,
    writer: &mut W,
    errors: &mut E,
) -> u8
    requires { (1 ≤ length files.items) × (length files.items ≤ 8) }
    ensures status { IsStatus result }
    ensures rows { result ≡ 0 → IsRecorded dialect F.remaining files.items (W.contents writer.old) (W.contents writer.new) }
    ensures fault { result ≢ 0 → (e : RecordingFault) × HasNoRows dialect F.remaining files.items (W.contents writer.old) (W.contents writer.new)
        (E.contents errors.old) (E.contents errors.new) (E.failures errors.old) (E.failures errors.new) result e }
    ensures quiet { result ≡ 0 → Keeps (E.contents errors.old) (E.contents errors.new) }
{
    ended(record(rt, session, dialect, files, writer), errors)
}
