//! Scripts in, and a session out: of the steps, each a node, as many are kept as is asked for, and a place is looked
//! for.
ghost use Rattle.std.specs.Prelude.{◌≡◌, ◌==◌, [], ◌∷◌, map, length, MatchBool, OnOk, IfOk, IfErr};
ghost use Rattle.rev_steps.specs.Plain.{plain_step};
ghost use Rattle.rev_script.specs.Line.{view};
ghost use Rattle.rev_script.specs.Lines.{IsFirst};
ghost use Rattle.rev_script.specs.Steps.{get};
ghost use Rattle.rev_plays.specs.Kept.{Fits};
ghost use Rattle.rev_plays.specs.Quiet.{quiet_of};
ghost use Rattle.rev_plays.specs.Replies.{state_of, reply};
ghost use Rattle.rev_plays.specs.Traces.{IsCutOff};
ghost use Rattle.rev_evidence.specs.Heard.{step_number as number_behind};
ghost use Rattle.rev_replay.specs.Seeking.{IsPlaceOf, node_behind, plain_sought};
ghost use Rattle.rev_replay.specs.Seeking as seeking;
ghost use Rattle.rev_rules.specs.Grown as rule;
ghost use Rattle.rev_rules.specs.Grown.{Begins, Fills, GoesOn, IsTaken, WentBy, passed, with_look, with_step};

use rev_evidence::heard::step_number;
use rev_items::Key;
use rev_plays::quiet::{LineSteps, Quiet, TraceFault, line_steps, play_quietly, trace_fault};
use rev_plays::trace::{TraceEnd, Went};
use rev_replay::keeping::Keeping;
use rev_replay::seeking::{Seeker, Sought, Spot};
use rev_script::dialect::Dialect;
use rev_script::line::Line;
use rev_script::lines::Lines;
use rev_script::source::Source;
use rev_script::steps::get_step;
use rev_steps::Step;
use rev_undotree::{NodeId, Session};
use rev_watch::event::Timestamp;
use std::alloc::{AllocError, Allocator};
use std::marker::Model;

/// What scripts became.
#[derive(Drop)]
pub struct Grown<A: Allocator> {
    /// A node for each step that is kept.
    pub session: Session<A>,
    /// How many steps stand in front of the root.
    pub before: u64,
    /// The place that was looked for, if it is there.
    pub spot: Option<Spot>,
}

impl<A: Allocator + Copy> Grown<A> {
    /// How many steps were played up to the last one that is kept.
    pub fn last(&self) -> u64
        ensures { result ≡ number_behind self.now.before (length self.now.session.rows) }
    {
        step_number(self.before, NodeId(self.session.issued()))
    }

    /// Whether the tree has all steps.
    pub fn is_whole(&self) -> bool
        ensures { result ≡ (self.now.before == 0) }
    {
        self.before == 0
    }

    /// Whether the tree is the one with a place in it in front of which so many steps are kept: it has all steps, and
    /// no more of them are in front of the place.
    pub fn serves(&self, spot: Spot, keep: u32) -> bool
        ensures { result ≡ rule.serves self.now.before spot.step keep }
    {
        self.is_whole() && spot.step <= u64::from(keep)
    }

    /// Goes to the node behind so many steps: to the root where that is behind them, and to the last node where it is
    /// in front of them.
    pub fn go_behind(&mut self, step: u64)
        ensures session { self.new.session ≡ seeking.stood self.old.session (node_behind self.old.before (length self.old.session.rows) step) }
        ensures before { self.new.before ≡ self.old.before }
        ensures spot { self.new.spot ≡ self.old.spot }
    {
        let nodes = u64::from(self.session.issued());
        let node = step.saturating_sub(self.before).min(nodes);
        let _ = self.session.go(NodeId(node as u32));
    }

    /// Lets all go that is kept.
    pub fn let_go(self) {
        drop(self);
    }
}

/// Scripts whose steps are played, of which so much is kept, and in which a place is looked for.
#[derive(Drop)]
pub struct Growing<'a, A: Allocator> {
    alloc: A,
    session: Session<A>,
    keeping: Keeping,
    // how many steps stand in front of the session's root
    before: u64,
    seeker: Seeker<'a, A>,
}

impl<'a, A: Allocator> Model for Growing<'a, A> {
    ghost use Rattle.std.specs.Coded.{codes};
    ghost use Rattle.rev_model.specs.Codes.{coded_contents, coded_keys};
    ghost use Rattle.rev_rules.specs.Grown.{GrowingState};

    ghost Value = { GrowingState };

    ghost coded = { Prim.hlevel (codes, coded_contents, coded_keys) };

    ghost view = { λ g. record { keeping = g.keeping; before = g.before; session = g.session; seeker = g.seeker } };
}

// What the cache's clock shows.
fn time_of<A: Allocator + Copy>(session: &Session<A>) -> Timestamp
    ensures { result ≡ rule.time_of session.now }
{
    Timestamp {
        seconds: session.store().globals().clock,
        microseconds: 0,
    }
}

impl<'a, A: Allocator + Copy> Growing<'a, A> {
    /// No step was played yet; the first one is played where the session stands. The place may be in front of it.
    ///
    /// Err: memory was refused.
    pub fn on(
        alloc: A,
        session: Session<A>,
        keeping: Keeping,
        sought: &'a Sought<A>,
    ) -> Result<Growing<'a, A>, AllocError>
        ensures { IfOk result (λ growing. Begins (state_of session) keeping (plain_sought sought.now) growing) }
    {
        let mut session = session;
        session.restart();
        let mut seeker = Seeker::new(sought);
        match seeker.look(&session, time_of(&session), 0) {
            Ok(()) => Ok(Growing {
                alloc,
                session,
                keeping,
                before: 0,
                seeker,
            }),
            Err(refused) => {
                drop(session);
                Err(refused)
            }
        }
    }

    // Plays a step, and tells how that went.
    fn play(&mut self, step: Step<A>) -> Result<Quiet, AllocError>
        ensures quiet { IfOk result (λ q. q ≡ quiet_of (reply self.old.session (plain_step step))) }
        ensures played { OnOk result (self.new ≡ with_step self.old (plain_step step)) }
    {
        play_quietly(&mut self.session, step)
    }

    // Looks for the place where the session stands.
    fn look(&mut self) -> Result<(), AllocError>
        ensures { OnOk result (self.new ≡ with_look self.old) }
    {
        self.seeker
            .look(&self.session, time_of(&self.session), self.before)
    }

    // Lets the nodes go, where they are not kept.
    fn pass(&mut self)
        ensures { self.new ≡ passed self.old }
    {
        let nodes = self.session.issued();
        if self.keeping.passes(self.before, nodes) {
            self.before = step_number(self.before, NodeId(nodes));
            self.session.restart();
        }
    }

    // Plays a step, looks for the place behind it, and keeps it where it is to be kept. The answer is whether the tree
    // had room for it.
    fn play_step(&mut self, step: Step<A>) -> Result<bool, AllocError>
        ensures { IfOk result (λ fits. MatchBool fits (GoesOn self.old (plain_step step ∷ []) self.new) (Fills self.old (plain_step step ∷ []) self.new)) }
    {
        match self.play(step)? {
            Quiet::Played => {}
            Quiet::TooManyNodes | Quiet::TooDeep => return Ok(false),
        }
        self.look()?;
        self.pass();
        Ok(true)
    }

    // Plays a get for each of the keys in order, and ends at one that the tree has no room for. The answer is whether
    // it had room for all.
    fn play_gets(&mut self, keys: Vec<Key<A>, A>) -> Result<bool, AllocError>
        ensures { IfOk result (λ fits. MatchBool fits (GoesOn self.old (map get keys.items) self.new) (Fills self.old (map get keys.items) self.new)) }
    {
        for key in keys {
            if !self.play_step(get_step(key))? {
                return Ok(false);
            }
        }
        Ok(true)
    }

    // Plays the steps of a line.
    fn play_line(&mut self, line: Line<A>) -> Result<Went, AllocError>
        ensures { IfOk result (λ went. WentBy went self.old (view line) self.new) }
    {
        let fit = match line_steps(line) {
            None => return Ok(Went::NotAStep),
            Some(LineSteps::One(step)) => self.play_step(step)?,
            Some(LineSteps::Gets(keys)) => self.play_gets(keys)?,
        };
        Ok(if fit { Went::Through } else { Went::Full })
    }

    // Plays the steps of the lines, up to their end or to one that the tree has no room for.
    fn play_lines<S: Source>(&mut self, lines: &mut Lines<S, A>) -> Result<TraceEnd, TraceFault>
        requires { IsFirst lines.old }
        ensures ok { IfOk result (λ end. IsTaken end lines.old.input.dialect lines.old.input.bytes.source lines.new.input.bytes.source self.old self.new) }
        ensures err { IfErr result (λ e. IsCutOff lines.old.input.dialect lines.old.input.bytes.source lines.new.input.bytes.source e) }
        ensures same { lines.new.input.bytes.source.identity ≡ lines.old.input.bytes.source.identity }
    {
        for before in 0..u64::MAX {
            let next = match lines.next() {
                Err(fault) => return Err(trace_fault(fault)),
                Ok(next) => next,
            };
            let line = match next {
                None => return Ok(TraceEnd::Whole),
                Some(line) => line,
            };
            lines.count_anew();
            match self.play_line(line) {
                Err(_) => return Err(TraceFault::Memory),
                Ok(Went::NotAStep) => return Err(TraceFault::NotAStep { line: before + 1 }),
                Ok(Went::Full) => return Ok(TraceEnd::Full { line: before + 1 }),
                Ok(Went::Through) => {}
            }
        }
        Err(TraceFault::TooLong)
    }

    /// Plays the steps of the script that the reader gives, in a dialect, behind those before it. The first step that
    /// the tree has no room for ends it. So do the first line that makes no step, a read that fails, and a want of
    /// memory.
    pub fn take_script<S: Source>(
        &mut self,
        dialect: Dialect,
        reader: &mut S,
    ) -> Result<TraceEnd, TraceFault>
        ensures ok { IfOk result (λ end. IsTaken end dialect (S.told reader.old) (S.told reader.new) self.old self.new) }
        ensures err { IfErr result (λ e. IsCutOff dialect (S.told reader.old) (S.told reader.new) e) }
    {
        let mut lines = Lines::of(self.alloc, reader, dialect);
        let played = self.play_lines(&mut lines);
        let _reader = lines.into_source();
        match played {
            Err(fault) => Err(fault),
            Ok(end) => Ok(end),
        }
    }

    /// What the scripts became.
    pub fn finish(self) -> Grown<A>
        ensures session { result.session ≡ self.entry.session }
        ensures before { result.before ≡ self.entry.before }
        ensures spot { IsPlaceOf self.entry.seeker.sought result.spot }
    {
        let spot = self.seeker.place();
        let Growing {
            session,
            before,
            ..
        } = self;
        Grown {
            session,
            before,
            spot,
        }
    }
}
