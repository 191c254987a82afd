//! Scripts of any length, whose steps are played in parts: those of each part stand in a session's tree.
ghost use Rattle.std.specs.Prelude.{◌≡◌, [], ◌∷◌, map, MatchBool, IfOk, IfErr};
ghost use Rattle.rev_steps.specs.Plain.{plain_step};
ghost use Rattle.rev_script.specs.Line.{view};
ghost use Rattle.rev_script.specs.Lines.{at_first};
ghost use Rattle.rev_script.specs.Steps.{get};
ghost use Rattle.rev_plays.specs.Kept.{Fills, Plays, WentBy};
ghost use Rattle.rev_rules.specs.Parts.{IsNoPart, IsPart};

use rev_items::Key;
use rev_plays::quiet::{LineSteps, Quiet, TraceFault, line_steps, play_quietly, trace_fault};
use rev_plays::trace::Went;
use rev_script::dialect::Dialect;
use rev_script::line::Line;
use rev_script::lines::Lines;
use rev_script::source::Source;
use rev_script::steps::get_step;
use rev_steps::Step;
use rev_undotree::Session;
use std::alloc::{AllocError, Allocator};
use std::marker::Model;

/// A part ends behind the line at which the tree has so many nodes (this project's own figure). What is left of a tree
/// has room for the steps of any line: a line is at most 65,536 bytes long, and none has half as many steps.
const MOST_OF_PART: u32 = 983040;

/// How a part of a script ended.
#[derive(Clone, Copy, Debug, PartialEq, Eq)]
pub enum PartEnd {
    /// The script has ended.
    Whole,
    /// More lines may follow, and the tree may have no room for the next one.
    Full,
}

/// A script that is played in parts: the steps of each part stand in the session's tree.
#[derive(Drop)]
pub struct ScriptParts<S: Source, A: Allocator> {
    lines: Lines<S, A>,
    // how many lines were read
    count: u64,
}

impl<S: Source, A: Allocator> Model for ScriptParts<S, A> {
    ghost use Rattle.rev_rules.specs.Parts.{PartsState};

    ghost Value = { PartsState };

    ghost view = { λ p. record { lines = p.lines; count = p.count } };
}

// Plays a step. The answer is whether the tree had room for it.
fn play_step<A: Allocator + Clone>(
    session: &mut Session<A>,
    step: Step<A>,
) -> Result<bool, AllocError>
    ensures { IfOk result (λ fits. MatchBool fits (Plays session.old (plain_step step ∷ []) session.new) (Fills session.old (plain_step step ∷ []) session.new)) }
{
    match play_quietly(session, step)? {
        Quiet::Played => Ok(true),
        Quiet::TooManyNodes | Quiet::TooDeep => Ok(false),
    }
}

// Plays a get for each of the keys in order. The answer is whether the tree had room for all.
fn play_gets<A: Allocator + Clone>(
    session: &mut Session<A>,
    keys: Vec<Key<A>, A>,
) -> Result<bool, AllocError>
    ensures { IfOk result (λ fits. MatchBool fits (Plays session.old (map get keys.items) session.new) (Fills session.old (map get keys.items) session.new)) }
{
    for key in keys {
        if !play_step(session, get_step(key))? {
            return Ok(false);
        }
    }
    Ok(true)
}

// Plays the steps of a line.
fn play_line<A: Allocator + Clone>(
    session: &mut Session<A>,
    line: Line<A>,
) -> Result<Went, AllocError>
    ensures { IfOk result (λ went. WentBy went session.old (view line) session.new) }
{
    let fit = match line_steps(line) {
        None => return Ok(Went::NotAStep),
        Some(LineSteps::One(step)) => play_step(session, step)?,
        Some(LineSteps::Gets(keys)) => play_gets(session, keys)?,
    };
    Ok(if fit { Went::Through } else { Went::Full })
}

impl<S: Source, A: Allocator + Clone> ScriptParts<S, A> {
    /// The parts of all that the source will give, in a dialect. Nothing was read, and no memory is taken.
    pub fn over(alloc: A, dialect: Dialect, source: S) -> ScriptParts<S, A>
        ensures { result ≡ record { lines = at_first (S.told source) dialect; count = 0 } }
    {
        ScriptParts {
            lines: Lines::of(alloc, source, dialect),
            count: 0,
        }
    }

    /// Plays lines where the session stands, until its tree has `MOST_OF_PART` nodes or more behind a line, or the
    /// script has ended: where it has so many before, none is read. Lines are counted over all parts.
    ///
    /// Err: a line makes no step, the script cannot be read on, memory was refused, or the tree has no room for a step
    /// of a line (`TooLong`), which comes only where the session's forks nest deep in front of it.
    pub fn play_part(&mut self, session: &mut Session<A>) -> Result<PartEnd, TraceFault>
        ensures ok { IfOk result (λ end. IsPart end self.old self.new session.old session.new) }
        ensures err { IfErr result (λ e. IsNoPart e self.old self.new) }
    {
        for before in self.count..u64::MAX {
            if session.issued() >= MOST_OF_PART {
                return Ok(PartEnd::Full);
            }
            let next = match self.lines.next() {
                Err(fault) => return Err(trace_fault(fault)),
                Ok(next) => next,
            };
            let line = match next {
                None => return Ok(PartEnd::Whole),
                Some(line) => line,
            };
            self.lines.count_anew();
            self.count = before + 1;
            match play_line(session, line) {
                Err(_) => return Err(TraceFault::Memory),
                Ok(Went::NotAStep) => return Err(TraceFault::NotAStep { line: before + 1 }),
                Ok(Went::Full) => return Err(TraceFault::TooLong),
                Ok(Went::Through) => {}
            }
        }
        Err(TraceFault::TooLong)
    }

    /// The source, as it is now: a `&mut` is so handed back.
    pub fn into_source(self) -> S
        ensures { S.told result ≡ self.lines.input.bytes.source }
    {
        self.lines.into_source()
    }
}
