//! A cache that scripts lead by the rules, step by step.
ghost use Rattle.std.specs.Prelude.{◌≡◌, ◌∷◌, [], map, MatchBool, None, OnOk, IfOk, IfErr};
ghost use Rattle.rev_steps.specs.Plain.{plain_step};
ghost use Rattle.rev_tree.specs.Steps.{next};
ghost use Rattle.rev_script.specs.Line.{view};
ghost use Rattle.rev_script.specs.Lines.{IsFirst};
ghost use Rattle.rev_script.specs.Steps.{get, steps_of};
ghost use Rattle.rev_plays.specs.Replies.{state_of};
ghost use Rattle.rev_plays.specs.Start.{from_state};
ghost use Rattle.rev_plays.specs.Traces.{IsThrough};
ghost use Rattle.rev_evidence.specs.Heard.{step_number as number_behind};
ghost use Rattle.rev_rules.specs.Rules.{behind, IsFresh, Went, Makes, IsStopped};

use crate::events::{Before, event_of, look_before, role_of};
use crate::fault::RulesFault;
use rev_evidence::heard::step_number;
use rev_items::Key;
use rev_lead::Role;
use rev_plays::quiet::{LineSteps, Quiet, TraceFault, line_steps, play_quietly, trace_fault};
use rev_replay::fault::ReplayFault;
use rev_replay::heard::{Heard, Listener};
use rev_script::dialect::Dialect;
use rev_script::line::Line;
use rev_script::lines::Lines;
use rev_script::source::Source;
use rev_script::steps::get_step;
use rev_steps::Step;
use rev_undotree::{NodeId, Session};
use rev_watch::event::Timestamp;
use std::alloc::{AllocError, Allocator};
use std::marker::Model;

/// Where the steps so far led, and how many they were. No node of theirs is kept.
#[derive(Drop)]
pub struct Rules<A: Allocator> {
    alloc: A,
    session: Session<A>,
    steps: u64,
}

impl<A: Allocator> Model for Rules<A> {
    ghost use Rattle.std.specs.Coded.{codes};
    ghost use Rattle.rev_model.specs.Codes.{coded_contents, coded_keys};
    ghost use Rattle.rev_rules.specs.Rules.{RulesState};

    ghost Value = { RulesState };

    ghost coded = { Prim.hlevel (codes, coded_contents, coded_keys) };

    ghost view = { λ r. record { session = r.session; steps = r.steps } };
}

// The role behind those of the nodes: where a flush made the item dead that the step meets, it is a flush.
fn mark_of(is_flushed: bool) -> Role {
    if is_flushed { Role::Flush } else { Role::Actor }
}

impl<A: Allocator + Copy> Rules<A> {
    /// No step was played yet; the first one is played where the session stands.
    pub fn on(alloc: A, session: Session<A>) -> Rules<A>
        ensures { result ≡ record { session = from_state (state_of session); steps = 0 } }
    {
        let mut session = session;
        session.restart();
        Rules {
            alloc,
            session,
            steps: 0,
        }
    }

    /// How many steps were played.
    pub fn steps(&self) -> u64
        ensures { result ≡ self.now.steps }
    {
        self.steps
    }

    // What the cache's clock shows.
    fn now(&self) -> Timestamp {
        Timestamp {
            seconds: self.session.store().globals().clock,
            microseconds: 0,
        }
    }

    // Tells of the step that was played, where this was to be known in front of it. Behind the role of its node stands
    // whether it met what a flush made dead.
    fn tell<L: Listener<A>>(&self, before: Before, listener: &mut L) -> Result<(), ReplayFault> {
        let Some((step, outcome)) = self.session.row(NodeId(1)) else {
            return Ok(());
        };
        let event = event_of(self.alloc, &self.session, step, outcome, before)?;
        let roles = [role_of(step), mark_of(before.is_flushed)];
        listener.heard(&Heard {
            event: event.as_ref(),
            own: false,
            time: self.now(),
            session: &self.session,
            roles: &roles,
            before: self.steps,
        })
    }

    // Lets the step that was told go.
    fn pass(&mut self)
        ensures { self.new ≡ record { session = from_state (state_of self.old.session); steps = number_behind self.old.steps 1 } }
    {
        self.steps = step_number(self.steps, NodeId(1));
        self.session.restart();
    }

    // Plays a step where no node stands.
    fn play(&mut self, step: Step<A>) -> Result<(), AllocError>
        requires { IsFresh self.old.session }
        ensures state { OnOk result (state_of self.new.session ≡ next (state_of self.old.session) (plain_step step)) }
        ensures steps { self.new.steps ≡ self.old.steps }
    {
        match play_quietly(&mut self.session, step)? {
            Quiet::Played => Ok(()),
            Quiet::TooManyNodes | Quiet::TooDeep => unreachable!(),
        }
    }

    // Plays a step where no node stands, tells of it, and lets it go.
    fn play_step<L: Listener<A>>(
        &mut self,
        step: Step<A>,
        listener: &mut L,
    ) -> Result<(), ReplayFault>
        requires { IsFresh self.old.session }
        ensures went { OnOk result (Went self.old (plain_step step ∷ []) self.new) }
        ensures fresh { OnOk result (IsFresh self.new.session) }
    {
        let before = look_before(self.session.store(), &step);
        self.play(step)?;
        self.tell(before, listener)?;
        self.pass();
        Ok(())
    }

    // Plays a get for each of the keys in order.
    fn play_gets<L: Listener<A>>(
        &mut self,
        keys: Vec<Key<A>, A>,
        listener: &mut L,
    ) -> Result<(), ReplayFault>
        requires { IsFresh self.old.session }
        ensures went { OnOk result (Went self.old (map get keys.items) self.new) }
        ensures fresh { OnOk result (IsFresh self.new.session) }
    {
        for key in keys {
            self.play_step(get_step(key), listener)?;
        }
        Ok(())
    }

    // Plays the steps of a line. The answer is whether it makes any.
    fn play_line<L: Listener<A>>(
        &mut self,
        line: Line<A>,
        listener: &mut L,
    ) -> Result<bool, ReplayFault>
        requires { IsFresh self.old.session }
        ensures went { IfOk result (λ is_step. MatchBool is_step (Makes self.old (view line) self.new) (steps_of (view line) ≡ None)) }
        ensures fresh { OnOk result (IsFresh self.new.session) }
    {
        match line_steps(line) {
            None => return Ok(false),
            Some(LineSteps::One(step)) => self.play_step(step, listener)?,
            Some(LineSteps::Gets(keys)) => self.play_gets(keys, listener)?,
        }
        Ok(true)
    }

    // Plays the steps of the lines, up to their end.
    fn play_lines<S: Source, L: Listener<A>>(
        &mut self,
        lines: &mut Lines<S, A>,
        listener: &mut L,
    ) -> Result<(), RulesFault>
        requires first { IsFirst lines.old }
        requires fresh { IsFresh self.old.session }
        ensures ok { OnOk result (IsThrough lines.old.input.dialect lines.old.input.bytes.source lines.new.input.bytes.source (λ steps. Went self.old steps self.new)) }
        ensures fresh { OnOk result (IsFresh self.new.session) }
        ensures err { IfErr result (λ e. IsStopped lines.old.input.dialect lines.old.input.bytes.source lines.new.input.bytes.source e) }
        ensures same { lines.new.input.bytes.source.identity ≡ lines.old.input.bytes.source.identity }
    {
        for before in 0..u64::MAX {
            let next = match lines.next() {
                Err(fault) => return Err(RulesFault::Script(trace_fault(fault))),
                Ok(next) => next,
            };
            let line = match next {
                None => return Ok(()),
                Some(line) => line,
            };
            lines.count_anew();
            match self.play_line(line, listener) {
                Err(fault) => return Err(RulesFault::Told(fault)),
                Ok(false) => {
                    return Err(RulesFault::Script(TraceFault::NotAStep { line: before + 1 }));
                }
                Ok(true) => {}
            }
        }
        Err(RulesFault::Script(TraceFault::TooLong))
    }

    /// Plays the steps of the script that the reader gives, in a dialect, behind those before it, and tells who listens
    /// of each once it was played. Memory is taken for the cache and for a line. The first line that makes no step ends
    /// it, and so do a read that fails, a want of memory, and a listener that gives up.
    pub fn take_script<S: Source, L: Listener<A>>(
        &mut self,
        dialect: Dialect,
        reader: &mut S,
        listener: &mut L,
    ) -> Result<(), RulesFault>
        ensures ok { OnOk result (IsThrough dialect (S.told reader.old) (S.told reader.new) (λ steps. self.new ≡ behind self.old steps)) }
        ensures err { IfErr result (λ e. IsStopped dialect (S.told reader.old) (S.told reader.new) e) }
    {
        self.session.restart();
        let mut lines = Lines::of(self.alloc, reader, dialect);
        let played = self.play_lines(&mut lines, listener);
        let _reader = lines.into_source();
        match played {
            Err(fault) => Err(fault),
            Ok(()) => Ok(()),
        }
    }
}
