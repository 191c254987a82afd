//! Scripts whose steps are played in a session's tree, which is kept, without an answer.
ghost use Rattle.std.specs.Prelude.{◌≡◌, [], ◌∷◌, map, MatchBool, IfOk, IfErr};
ghost use Rattle.rev_steps.specs.Plain.{plain_step};
ghost use Rattle.rev_script.specs.Line.{view};
ghost use Rattle.rev_script.specs.Lines.{IsFirst};
ghost use Rattle.rev_script.specs.Steps.{get};
ghost use Rattle.rev_plays.specs.Kept.{Fits, Plays, Fills, WentBy, IsTraced};
ghost use Rattle.rev_plays.specs.Traces.{IsCutOff};

use crate::quiet::{LineSteps, Quiet, TraceFault, line_steps, play_quietly, trace_fault};
use rev_items::Key;
use rev_script::dialect::Dialect;
use rev_script::line::Line;
use rev_script::lines::Lines;
use rev_script::source::Source;
use rev_script::steps::get_step;
use rev_steps::Step;
use rev_undotree::Session;
use std::alloc::{AllocError, Allocator};

/// How a trace ended whose lines make steps.
#[derive(Clone, Copy, Debug, PartialEq, Eq)]
pub enum TraceEnd {
    /// All its steps were played.
    Whole,
    /// The tree has no room for a step of this line, counted from 1.
    Full { line: u64 },
}

/// What became of a line's steps.
pub enum Went {
    Through,
    /// The tree has no room for one of them.
    Full,
    NotAStep,
}

// Plays a step. The answer is whether the tree had room for it.
fn play_step<A: Allocator + Clone>(
    session: &mut Session<A>,
    step: Step<A>,
) -> Result<bool, AllocError>
    ensures { IfOk result (λ fits. MatchBool fits (Plays session.old (plain_step step ∷ []) session.new) (Fills session.old (plain_step step ∷ []) session.new)) }
{
    match play_quietly(session, step)? {
        Quiet::Played => Ok(true),
        Quiet::TooManyNodes | Quiet::TooDeep => Ok(false),
    }
}

// Plays a get for each of the keys in order, and ends at one that the tree has no room for. The answer is whether it
// had room for all.
fn play_gets<A: Allocator + Clone>(
    session: &mut Session<A>,
    keys: Vec<Key<A>, A>,
) -> Result<bool, AllocError>
    ensures { IfOk result (λ fits. MatchBool fits (Plays session.old (map get keys.items) session.new) (Fills session.old (map get keys.items) session.new)) }
{
    for key in keys {
        if !play_step(session, get_step(key))? {
            return Ok(false);
        }
    }
    Ok(true)
}

// Plays the steps of a line.
fn play_line<A: Allocator + Clone>(
    session: &mut Session<A>,
    line: Line<A>,
) -> Result<Went, AllocError>
    ensures { IfOk result (λ went. WentBy went session.old (view line) session.new) }
{
    let fit = match line_steps(line) {
        None => return Ok(Went::NotAStep),
        Some(LineSteps::One(step)) => play_step(session, step)?,
        Some(LineSteps::Gets(keys)) => play_gets(session, keys)?,
    };
    Ok(if fit { Went::Through } else { Went::Full })
}

// Plays the steps of the lines, up to their end or to one that the tree has no room for.
fn play_lines<S: Source, A: Allocator + Clone>(
    lines: &mut Lines<S, A>,
    session: &mut Session<A>,
) -> Result<TraceEnd, TraceFault>
    requires { IsFirst lines.old }
    ensures ok { IfOk result (λ end. IsTraced end lines.old.input.dialect lines.old.input.bytes.source lines.new.input.bytes.source session.old session.new) }
    ensures err { IfErr result (λ e. IsCutOff lines.old.input.dialect lines.old.input.bytes.source lines.new.input.bytes.source e) }
    ensures same { lines.new.input.bytes.source.identity ≡ lines.old.input.bytes.source.identity }
{
    for before in 0..u64::MAX {
        let next = match lines.next() {
            Err(fault) => return Err(trace_fault(fault)),
            Ok(next) => next,
        };
        let line = match next {
            None => return Ok(TraceEnd::Whole),
            Some(line) => line,
        };
        lines.count_anew();
        match play_line(session, line) {
            Err(_) => return Err(TraceFault::Memory),
            Ok(Went::NotAStep) => return Err(TraceFault::NotAStep { line: before + 1 }),
            Ok(Went::Full) => return Ok(TraceEnd::Full { line: before + 1 }),
            Ok(Went::Through) => {}
        }
    }
    Err(TraceFault::TooLong)
}

/// Plays the steps of the script that the reader gives, in a dialect, each as a node below the one before it. The first
/// step that the tree has no room for ends it, and the session is then as the steps before it leave it. So do the first
/// line that makes no step, a read that fails, and a want of memory.
pub fn play_trace<S: Source, A: Allocator + Clone>(
    alloc: &A,
    session: &mut Session<A>,
    dialect: Dialect,
    reader: &mut S,
) -> Result<TraceEnd, TraceFault>
    ensures ok { IfOk result (λ end. IsTraced end dialect (S.told reader.old) (S.told reader.new) session.old session.new) }
    ensures err { IfErr result (λ e. IsCutOff dialect (S.told reader.old) (S.told reader.new) e) }
{
    let Ok(handle) = alloc.clone() else {
        return Err(TraceFault::Memory);
    };
    let mut lines = Lines::of(handle, reader, dialect);
    let played = play_lines(&mut lines, session);
    let _reader = lines.into_source();
    match played {
        Err(fault) => Err(fault),
        Ok(end) => Ok(end),
    }
}
