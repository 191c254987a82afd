//! Lines whose steps are played without an answer.
ghost use Rattle.std.specs.Prelude.{◌≡◌, Some, IfOk, OnOk};
ghost use Rattle.std.specs.Option.{option_map};
ghost use Rattle.rev_steps.specs.Plain.{plain_step};
ghost use Rattle.rev_script.specs.Line.{view, client_view};
ghost use Rattle.rev_script.specs.Steps.{steps_of};
ghost use Rattle.rev_plays.specs.Replies.{reply, after_step};
ghost use Rattle.rev_plays.specs.Quiet.{plain_steps, quiet_of, trace_fault};

use crate::play::{Reply, play};
use rev_items::Key;
use rev_script::byte_reader::LineFault;
use rev_script::line::{ClientLine, Line};
use rev_script::steps::{actor_step, flush_step, get_step, keyed_step, storage_step, tune_step};
use rev_steps::Step;
use rev_undotree::Session;
use std::alloc::{AllocError, Allocator};
use thiserror::Error;

/// The steps that a line makes.
pub enum LineSteps<A: Allocator> {
    One(Step<A>),
    /// A get for each of the keys, in order.
    Gets(Vec<Key<A>, A>),
}

/// How a step went that was to be played.
#[derive(Clone, Copy, Debug, PartialEq, Eq)]
pub enum Quiet {
    Played,
    /// The tree has as many nodes as it may have.
    TooManyNodes,
    /// The tree's forks would nest too deep.
    TooDeep,
}

/// Why the steps of a script were not all played.
#[derive(Clone, Copy, Debug, PartialEq, Eq, Drop, Error)]
pub enum TraceFault {
    /// The first line that makes no step, counted from 1: a debug line or a malformed one.
    #[error("line {line}: not a step")]
    NotAStep { line: u64 },
    #[error("out of memory")]
    Memory,
    /// A read failed.
    #[error("cannot read")]
    Read,
    /// A line has more than 4294967296 bytes with its data, or there are more lines than can be counted.
    #[error("input too long")]
    TooLong,
}

/// A reader's fault, as one of a script whose steps are played.
pub fn trace_fault(fault: LineFault) -> TraceFault
    ensures { result ≡ trace_fault fault }
{
    match fault {
        LineFault::Memory => TraceFault::Memory,
        LineFault::Read => TraceFault::Read,
        LineFault::TooLong => TraceFault::TooLong,
    }
}

// The steps of a client's line.
fn client_steps<A: Allocator>(line: ClientLine<A>) -> LineSteps<A>
    ensures { steps_of (client_view line) ≡ Some (plain_steps result) }
{
    match line {
        ClientLine::Storage {
            command,
            key,
            flags,
            exptime,
            payload,
            ..
        } => LineSteps::One(storage_step(command, key, flags, exptime, payload)),
        ClientLine::Retrieval { keys, .. } => LineSteps::Gets(keys),
        ClientLine::Update { command, key, .. } => LineSteps::One(keyed_step(command, key)),
        ClientLine::FlushAll { delay, .. } => LineSteps::One(flush_step(delay)),
    }
}

/// The steps of a line, none for a debug line and a malformed one.
pub fn line_steps<A: Allocator>(line: Line<A>) -> Option<LineSteps<A>>
    ensures { option_map plain_steps result ≡ steps_of (view line) }
{
    match line {
        Line::Client(line) => Some(client_steps(line)),
        Line::Actor(step) => Some(LineSteps::One(actor_step(step))),
        Line::Tune(tune) => Some(LineSteps::One(tune_step(tune))),
        Line::Debug(_) | Line::Bad { .. } => None,
    }
}

/// Plays a step, and tells how that went. At an error the session is as it was.
pub fn play_quietly<A: Allocator + Clone>(
    session: &mut Session<A>,
    step: Step<A>,
) -> Result<Quiet, AllocError>
    ensures quiet { IfOk result (λ q. q ≡ quiet_of (reply session.old (plain_step step))) }
    ensures session { OnOk result (session.new ≡ after_step session.old (plain_step step)) }
{
    match play(session, step)? {
        Reply::Played(_) => Ok(Quiet::Played),
        Reply::TooManyNodes => Ok(Quiet::TooManyNodes),
        Reply::TooDeep => Ok(Quiet::TooDeep),
    }
}
