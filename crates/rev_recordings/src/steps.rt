//! The steps that a script's lines ask for.
ghost use Rattle.std.specs.Prelude.{[], ◌∷◌, ◌≡◌, ◌++◌, map, MatchBool, None, IfOk, IfErr, OnOk};
ghost use Rattle.rev_requests.specs.Plain.{plain_step};
ghost use Rattle.rev_script.specs.Lines.{IsFirst};
ghost use Rattle.rev_script.specs.Line.{view, client_view};
ghost use Rattle.rev_script.specs.Steps.{get, steps_of};
ghost use Rattle.rev_recordings.specs.Steps.{Adds, IsRead, IsRefused, script_fault};

use rev_items::Key;
use rev_requests::Step;
use rev_script::byte_reader::LineFault;
use rev_script::dialect::Dialect;
use rev_script::line::{ClientLine, Line};
use rev_script::lines::Lines;
use rev_script::source::Source;
use rev_script::steps::{actor_step, flush_step, get_step, keyed_step, storage_step, tune_step};
use std::alloc::{AllocError, Global};
use thiserror::Error;

/// Why a script did not become steps.
#[derive(Clone, Copy, Debug, PartialEq, Eq, Drop, Error)]
pub enum ScriptFault {
    /// The first line that makes no step, counted from 1: a debug line or a malformed one.
    #[error("line {line}: not a step")]
    NotAStep { line: u64 },
    #[error("out of memory")]
    Memory,
    /// A read failed.
    #[error("cannot read")]
    Read,
    /// The script has more than 4294967296 bytes.
    #[error("input too long")]
    TooLong,
}

fn stopped(fault: LineFault) -> ScriptFault
    ensures { result ≡ script_fault fault }
{
    match fault {
        LineFault::Memory => ScriptFault::Memory,
        LineFault::Read => ScriptFault::Read,
        LineFault::TooLong => ScriptFault::TooLong,
    }
}

// Adds a step.
fn add(steps: &mut Vec<Step<Global>>, step: Step<Global>) -> Result<(), AllocError>
    ensures { OnOk result (map plain_step steps.new.items ≡ map plain_step steps.old.items ++ plain_step step ∷ []) }
{
    steps.push(step)?;
    Ok(())
}

// Adds a get for each of the keys.
fn add_gets(steps: &mut Vec<Step<Global>>, keys: Vec<Key<Global>>) -> Result<(), AllocError>
    ensures { OnOk result (map plain_step steps.new.items ≡ map plain_step steps.old.items ++ map get keys.items) }
{
    for key in keys {
        add(steps, get_step(key))?;
    }
    Ok(())
}

// Adds the steps of a client's line.
fn add_client(steps: &mut Vec<Step<Global>>, line: ClientLine<Global>) -> Result<(), AllocError>
    ensures { OnOk result (Adds (map plain_step steps.old.items) (map plain_step steps.new.items) (client_view line)) }
{
    match line {
        ClientLine::Storage {
            command,
            key,
            flags,
            exptime,
            payload,
            ..
        } => add(steps, storage_step(command, key, flags, exptime, payload)),
        ClientLine::Retrieval { keys, .. } => add_gets(steps, keys),
        ClientLine::Update { command, key, .. } => add(steps, keyed_step(command, key)),
        ClientLine::FlushAll { delay, .. } => add(steps, flush_step(delay)),
    }
}

// Adds the steps of a line. The answer is whether it makes any: a debug line and a malformed one do not.
fn add_steps(steps: &mut Vec<Step<Global>>, line: Line<Global>) -> Result<bool, AllocError>
    ensures { IfOk result (λ is_step. MatchBool is_step (Adds (map plain_step steps.old.items) (map plain_step steps.new.items) (view line)) (steps_of (view line) ≡ None)) }
{
    match line {
        Line::Client(line) => add_client(steps, line)?,
        Line::Actor(step) => add(steps, actor_step(step))?,
        Line::Tune(tune) => add(steps, tune_step(tune))?,
        Line::Debug(_) | Line::Bad { .. } => return Ok(false),
    }
    Ok(true)
}

// Reads the lines to their end, and adds their steps.
fn gather<S: Source>(
    lines: &mut Lines<S, Global>,
    steps: &mut Vec<Step<Global>>,
) -> Result<(), ScriptFault>
    requires none { steps.old.items ≡ [] }
    requires first { IsFirst lines.old }
    ensures ok { OnOk result (IsRead lines.old.input.dialect lines.old.input.bytes.source lines.new.input.bytes.source (map plain_step steps.new.items)) }
    ensures err { IfErr result (λ e. IsRefused lines.old.input.dialect lines.old.input.bytes.source lines.new.input.bytes.source e) }
    ensures same { lines.new.input.bytes.source.identity ≡ lines.old.input.bytes.source.identity }
{
    let mut count: u64 = 0;
    'lines: loop {
        let next = match lines.next() {
            Err(fault) => return Err(stopped(fault)),
            Ok(next) => next,
        };
        let line = match next {
            None => return Ok(()),
            Some(line) => line,
        };
        count += 1;
        match add_steps(steps, line) {
            Err(_) => return Err(ScriptFault::Memory),
            Ok(false) => return Err(ScriptFault::NotAStep { line: count }),
            Ok(true) => {}
        }
    }
}

/// All the steps of the script that the source gives, in a dialect, in order: a `get` of several keys is as many steps.
/// The first line that makes no step ends it, and so do a read that fails and a want of memory.
pub fn read_steps<S: Source>(
    alloc: Global,
    dialect: Dialect,
    source: &mut S,
) -> Result<Vec<Step<Global>>, ScriptFault>
    ensures ok { IfOk result (λ steps. IsRead dialect (S.told source.old) (S.told source.new) (map plain_step steps.items)) }
    ensures err { IfErr result (λ e. IsRefused dialect (S.told source.old) (S.told source.new) e) }
{
    let mut steps = Vec::new(alloc);
    let mut lines = Lines::of(alloc, source, dialect);
    let gathered = gather(&mut lines, &mut steps);
    let _source = lines.into_source();
    match gathered {
        Err(fault) => Err(fault),
        Ok(()) => Ok(steps),
    }
}
