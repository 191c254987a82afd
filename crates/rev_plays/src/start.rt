//! Steps of scripts that are played on a session before its run, without a tree that grows.
ghost use Rattle.std.specs.Prelude.{◌≡◌, ◌<◌, length, map, MatchBool, None, OnOk, IfOk, IfErr};
ghost use Rattle.rev_steps.specs.Plain.{plain_step};
ghost use Rattle.rev_tree.specs.Steps.{next};
ghost use Rattle.rev_script.specs.Line.{view};
ghost use Rattle.rev_script.specs.Lines.{IsFirst};
ghost use Rattle.rev_script.specs.Steps.{get, steps_of};
ghost use Rattle.rev_plays.specs.Replies.{state_of};
ghost use Rattle.rev_plays.specs.Start.{IsShort, Leads, from_state, run_forward};
ghost use Rattle.rev_plays.specs.Traces.{IsThrough, IsCutOff};

use crate::quiet::{LineSteps, Quiet, TraceFault, line_steps, play_quietly, trace_fault};
use rev_items::Key;
use rev_script::dialect::Dialect;
use rev_script::line::Line;
use rev_script::lines::Lines;
use rev_script::source::Source;
use rev_script::steps::get_step;
use rev_steps::Step;
use rev_undotree::Session;
use std::alloc::{AllocError, Allocator};

/// So many nodes of a start stand in the tree at most, before all are let go. (It is at most as many as forks may nest:
/// so no step is refused.)
const MOST_NODES: u32 = 64;

// Lets the tree go where it has so many nodes.
fn make_room<A: Allocator + Clone>(session: &mut Session<A>)
    requires { IsShort session.old }
    ensures state { state_of session.new ≡ state_of session.old }
    ensures short { IsShort session.new }
    ensures room { length session.new.rows < 64 }
{
    if session.issued() >= MOST_NODES {
        session.restart();
    }
}

// Plays a step. The tree is let go first where it has so many nodes.
fn play_step<A: Allocator + Clone>(
    session: &mut Session<A>,
    step: Step<A>,
) -> Result<(), AllocError>
    requires { IsShort session.old }
    ensures state { OnOk result (state_of session.new ≡ next (state_of session.old) (plain_step step)) }
    ensures short { OnOk result (IsShort session.new) }
{
    make_room(session);
    match play_quietly(session, step)? {
        Quiet::Played => Ok(()),
        Quiet::TooManyNodes | Quiet::TooDeep => unreachable!(),
    }
}

// Plays a get for each of the keys in order.
fn play_gets<A: Allocator + Clone>(
    session: &mut Session<A>,
    keys: Vec<Key<A>, A>,
) -> Result<(), AllocError>
    requires { IsShort session.old }
    ensures state { OnOk result (state_of session.new ≡ run_forward (state_of session.old) (map get keys.items)) }
    ensures short { OnOk result (IsShort session.new) }
{
    for key in keys {
        play_step(session, get_step(key))?;
    }
    Ok(())
}

// Plays the steps of a line. The answer is whether it makes any.
fn play_line<A: Allocator + Clone>(
    session: &mut Session<A>,
    line: Line<A>,
) -> Result<bool, AllocError>
    requires { IsShort session.old }
    ensures state { IfOk result (λ is_step. MatchBool is_step (Leads (state_of session.old) (view line) (state_of session.new)) (steps_of (view line) ≡ None)) }
    ensures short { OnOk result (IsShort session.new) }
{
    match line_steps(line) {
        None => return Ok(false),
        Some(LineSteps::One(step)) => play_step(session, step)?,
        Some(LineSteps::Gets(keys)) => play_gets(session, keys)?,
    }
    Ok(true)
}

// Plays the steps of the lines, up to their end.
fn play_lines<S: Source, A: Allocator + Clone>(
    lines: &mut Lines<S, A>,
    session: &mut Session<A>,
) -> Result<(), TraceFault>
    requires first { IsFirst lines.old }
    requires short { IsShort session.old }
    ensures ok { OnOk result (IsThrough lines.old.input.dialect lines.old.input.bytes.source lines.new.input.bytes.source (λ steps. state_of session.new ≡ run_forward (state_of session.old) steps)) }
    ensures err { IfErr result (λ e. IsCutOff lines.old.input.dialect lines.old.input.bytes.source lines.new.input.bytes.source e) }
    ensures same { lines.new.input.bytes.source.identity ≡ lines.old.input.bytes.source.identity }
{
    for before in 0..u64::MAX {
        let next = match lines.next() {
            Err(fault) => return Err(trace_fault(fault)),
            Ok(next) => next,
        };
        let line = match next {
            None => return Ok(()),
            Some(line) => line,
        };
        lines.count_anew();
        match play_line(session, line) {
            Err(_) => return Err(TraceFault::Memory),
            Ok(false) => return Err(TraceFault::NotAStep { line: before + 1 }),
            Ok(true) => {}
        }
    }
    Err(TraceFault::TooLong)
}

/// Plays the steps of the script that the reader gives, in a dialect, where the session stands. Its tree is let go: the
/// root is then the state that the steps leave, and no node, step or record of them is kept, so that the memory that
/// this takes beside the store's own does not grow with the script. The first line that makes no step ends it, and so
/// do a read that fails and a want of memory.
pub fn play_start<S: Source, A: Allocator + Clone>(
    alloc: &A,
    session: &mut Session<A>,
    dialect: Dialect,
    reader: &mut S,
) -> Result<(), TraceFault>
    ensures ok { OnOk result (IsThrough dialect (S.told reader.old) (S.told reader.new) (λ steps. session.new ≡ from_state (run_forward (state_of session.old) steps))) }
    ensures err { IfErr result (λ e. IsCutOff dialect (S.told reader.old) (S.told reader.new) e) }
{
    let Ok(handle) = alloc.clone() else {
        return Err(TraceFault::Memory);
    };
    session.restart();
    let mut lines = Lines::of(handle, reader, dialect);
    let played = play_lines(&mut lines, session);
    session.restart();
    let _reader = lines.into_source();
    match played {
        Err(fault) => Err(fault),
        Ok(()) => Ok(()),
    }
}
