//! The lines of logs in, and who listens is told of each event once it was played.
ghost use Rattle.std.specs.Prelude.{◌≡◌, IfOk, OnOk};
ghost use Rattle.rev_classes.specs.Limits.{IsWithinLimits};
ghost use Rattle.rev_lead.specs.Acts.{Led};
ghost use Rattle.rev_replay.specs.Turns.{fresh, without};

use crate::counts::{LineCounts, add, leave_out};
use crate::coverage::Coverage;
use crate::ends::LogEnds;
use crate::fault::ReplayFault;
use crate::heard::{Heard, Listener};
use crate::keeping::{Keeping, Place};
pub use crate::logs::replay_logs;
use crate::sampling::{Sampling, Sieve, outsider};
use rev_classes::ClassTable;
use rev_evidence::heard::step_number;
use rev_import::setup::Setup;
use rev_items::Key;
use rev_lead::{Agreement, Driver, LeadFault, Role, Stage, Tally, Viewer};
use rev_log::foresight::{Coming, Foresight};
use rev_log::order::Order;
use rev_requests::{ActorStep, ClientStep, KeyCommand, Step};
use rev_script::source::Source;
use rev_undotree::{NodeId, Session};
use rev_watch::event::{Event, Line, LogLine, Timestamp};
use rev_watch::reader::{LogReader, NextLine};
use rev_watch::window::MOST_HELD;
use std::alloc::Allocator;
use std::mem;

/// How many events are looked ahead at, where there are so many (this project's own figure).
pub const MOST_AHEAD: usize = 65536;

/// Logs that are replayed in one pass. Memory is taken for the cache and the events that wait, and does not grow with
/// the log, but for a tree that is kept.
#[derive(Drop)]
pub struct Replay<'a, A: Allocator> {
    alloc: A,
    setup: &'a Setup,
    keeping: Keeping,
    // whether nothing more is played where the tree may have no room for it, until the steps are let go by a call
    in_parts: bool,
    // the line behind which a part was full, where it was not taken in: before it the server was started anew
    held: Option<LogLine<A>>,
    // the first and the last second of the events that are asked for
    first: u32,
    last: u32,
    order: Order<A>,
    ahead: Foresight<A>,
    driver: Driver<A>,
    stage: Stage<A>,
    ends: LogEnds<A>,
    // the steps in front of the stage's root, over all lives of the server
    steps: u64,
    // the number of the last event that was played, and its time
    gid: u64,
    now: Timestamp,
    // where a tree that is kept was full
    full: Option<Place>,
    counts: LineCounts,
    coverage: Coverage,
    // how many stores were played, as far as they are looked at
    stores: u32,
    // the sample whose events are played, where not all are, and what is known for it of each class
    sampling: Option<&'a Sampling<A>>,
    sieve: Sieve,
    ghost sound: { IsWithinLimits setup.now.config },
}

// Plays what the server was set to at first.
#[tactic(auto, using(rev_lead::proofs::Leading::led_more, rev_lead::proofs::Leading::led_same))]
fn play_setup<A: Allocator + Copy>(stage: &mut Stage<A>, setup: &Setup) -> Result<(), ReplayFault>
    ensures { Led stage.old stage.new }
{
    match setup.tune {
        Some(tune) => {
            let _ = stage.play(Step::Tune(tune), Role::Actor)?;
        }
        None => {}
    }
    match setup.temp_ttl {
        Some(seconds) => {
            let _ = stage.play(Step::Actor(ActorStep::TempTtl(seconds)), Role::Actor)?;
        }
        None => {}
    }
    Ok(())
}

// The item of a key goes that is in no sample. A listener has heard of what was played before, and never hears of this
// step.
#[tactic(auto, using(rev_lead::proofs::Leading::led_more, rev_lead::proofs::Leading::led_same))]
fn delete<A: Allocator + Copy>(
    alloc: A,
    stage: &mut Stage<A>,
    key: &Key<A>,
) -> Result<(), LeadFault>
    ensures deleted { OnOk result (stage.new ≡ without stage.old key.now) }
    ensures led { Led stage.old stage.new }
{
    let step = Step::Client(ClientStep::Keyed {
        command: KeyCommand::Delete,
        key: key.copy(alloc)?,
    });
    let _ = stage.play(step, Role::Outside)?;
    Ok(())
}

/// How far a log was read.
#[derive(Clone, Copy, Debug, PartialEq, Eq)]
pub(crate) enum Reading {
    /// To its end.
    Ended,
    /// Up to a line behind which a part of the steps is full that is waited for.
    PartFull,
}

// An empty cache that is set as the server was.
fn open_stage<A: Allocator + Copy>(alloc: A, setup: &Setup) -> Result<Stage<A>, ReplayFault>
    requires { IsWithinLimits setup.now.config }
    ensures { IfOk result (λ stage. Led (fresh setup.now.config) stage) }
{
    let Some(mut stage) = Stage::open(alloc, &setup.config) else {
        return Err(ReplayFault::Memory);
    };
    play_setup(&mut stage, setup)?;
    Ok(stage)
}

impl<'a, A: Allocator + Copy> Replay<'a, A> {
    ghost use Rattle.std.specs.Prelude.{◌≡◌, ◌&&◌, not, true, false, is_some, [], IfOk};
    ghost use Rattle.rev_classes.specs.Limits.{IsWithinLimits};
    ghost use Rattle.rev_lead.specs.Acts.{begun};
    ghost use Rattle.rev_replay.specs.Turns.{GoesOn, at_first, fresh, plays, steps_of};
    ghost use Rattle.std.specs.Option.{option_copied};
    ghost use Rattle.rev_replay.specs.Replayed.{state_of, counts_of, late_of, repeated_of, tally_of, full_of, life_of, sampling_of, sieve_of};
    ghost use Rattle.rev_replay.specs.Sampling.{is_asked, asked_behind};

    // No log was read, and this stage stands in the place of the server.
    fn begin(
        alloc: A,
        setup: &'a Setup,
        coverage: Coverage,
        keeping: Keeping,
        stage: Stage<A>,
    ) -> Result<Replay<'a, A>, ReplayFault>
        requires { IsWithinLimits setup.now.config }
        ensures { IfOk result (λ replay. GoesOn false (at_first keeping setup.now.config stage) (state_of replay)) }
    {
        let Ok(classes) = ClassTable::build(&setup.config) else {
            unreachable!();
        };
        let driver = match Driver::new(alloc, classes) {
            Ok(driver) => driver,
            Err(refused) => {
                drop(stage);
                return Err(ReplayFault::from(refused));
            }
        };
        let mut replay = Replay {
            alloc,
            setup,
            keeping,
            in_parts: false,
            held: None,
            first: 0,
            last: u32::MAX,
            order: Order::new(alloc),
            ahead: Foresight::new(alloc),
            driver,
            stage,
            ends: LogEnds::new(alloc),
            steps: 0,
            gid: 0,
            now: Timestamp {
                seconds: 0,
                microseconds: 0,
            },
            full: None,
            counts: LineCounts::none(),
            coverage,
            stores: 0,
            sampling: None,
            sieve: Sieve::new(),
        };
        replay.pass();
        Ok(replay)
    }

    /// No log was read. All lives of the server are replayed, and nothing is kept of the steps. Whether more is played
    /// once a log shows what the rules do not cover is said by `coverage`.
    ///
    /// Err: memory was refused.
    #[tactic(auto, using(crate::proofs::Going::goes_more, crate::proofs::Going::goes_same, crate::proofs::Going::goes_led))]
    pub fn open(
        alloc: A,
        setup: &'a Setup,
        coverage: Coverage,
    ) -> Result<Replay<'a, A>, ReplayFault>
        requires { IsWithinLimits setup.now.config }
        ensures { IfOk result (λ replay. GoesOn false (at_first Keeping.Nothing setup.now.config (fresh setup.now.config)) (state_of replay)) }
    {
        let stage = open_stage(alloc, setup)?;
        let replay = Replay::begin(alloc, setup, coverage, Keeping::Nothing, stage)?;
        Ok(replay)
    }

    /// No log was read, and so much is kept of the steps. The first life of the server begins where the session stands,
    /// of a store with the setup's configuration; each other one begins with an empty cache.
    ///
    /// Err: memory was refused, or the session's tree is full.
    #[tactic(auto, using(crate::proofs::Going::goes_more, crate::proofs::Going::goes_same, crate::proofs::Going::goes_led))]
    pub fn open_on(
        alloc: A,
        setup: &'a Setup,
        coverage: Coverage,
        session: Session<A>,
        keeping: Keeping,
    ) -> Result<Replay<'a, A>, ReplayFault>
        requires { IsWithinLimits setup.now.config }
        ensures { IfOk result (λ replay. GoesOn false (at_first keeping setup.now.config (begun (record { session = session; roles = [] }))) (state_of replay)) }
    {
        let mut stage = Stage::on(alloc, session);
        match play_setup(&mut stage, setup) {
            Ok(()) => {
                let replay = Replay::begin(alloc, setup, coverage, keeping, stage)?;
                Ok(replay)
            }
            Err(fault) => {
                drop(stage);
                Err(fault)
            }
        }
    }

    // How many steps were played so far, over all lives of the server that are played.
    fn played(&self) -> u64
        ensures { result ≡ steps_of (state_of self.entry.now).counted }
    {
        step_number(self.steps, NodeId(self.stage.session().issued()))
    }

    // Where they are not kept, the steps that were played are those in front of the root from now on.
    #[tactic(auto, using(crate::proofs::Going::goes_more, crate::proofs::Going::goes_same, crate::proofs::Going::goes_led))]
    fn pass(&mut self)
        ensures { GoesOn false (state_of self.old) (state_of self.new) }
    {
        let nodes = self.stage.session().issued();
        if self.keeping.passes(self.steps, nodes) {
            self.steps = self.played();
            self.stage.restart();
        }
    }

    // The same behind an event, where the steps are not let go by a call.
    #[tactic(auto, using(crate::proofs::Going::goes_more, crate::proofs::Going::goes_same, crate::proofs::Going::goes_led))]
    fn pass_on(&mut self)
        ensures { GoesOn false (state_of self.old) (state_of self.new) }
    {
        if !self.in_parts {
            self.pass();
        }
    }

    // Whether nothing more is played until the steps are let go.
    fn is_held(&self) -> bool {
        self.in_parts
            && self
                .keeping
                .passes(self.steps, self.stage.session().issued())
    }

    // Whether events are played: those of a life that is asked for, as long as there is room for them.
    fn is_playing(&self) -> bool
        ensures { result ≡ not (is_some (full_of self.entry.now)) && plays (state_of self.entry.now).keeping (life_of self.entry.now) }
    {
        self.full.is_none() && self.keeping.plays(self.life())
    }

    // How playing an event ended. A tree that is kept may be full, and then the replay ends at this event.
    fn ended(&mut self, played: Result<(), LeadFault>) -> Result<(), ReplayFault>
        ensures { state_of self.new ≡ state_of self.old }
    {
        match (played, self.keeping) {
            (Ok(()), _) => Ok(()),
            (Err(fault), Keeping::Nothing) => Err(ReplayFault::from(fault)),
            (Err(LeadFault::TooManyNodes), _) => {
                self.full = Some(Place {
                    log: self.ends.log_of(self.gid),
                    gid: self.gid,
                    time: self.now,
                });
                Ok(())
            }
            (Err(fault), _) => Err(ReplayFault::from(fault)),
        }
    }

    // Tells of what was played for an event.
    fn tell<L: Listener<A>>(
        &self,
        coming: &Coming<A>,
        listener: &mut L,
    ) -> Result<(), ReplayFault> {
        listener.heard(&Heard {
            event: Some(&coming.line.event),
            own: coming.own,
            time: self.now,
            session: self.stage.session(),
            roles: self.stage.roles(),
            before: self.steps,
        })
    }

    // Tells of what was played at the end of a server's life.
    fn tell_end<L: Listener<A>>(&self, listener: &mut L) -> Result<(), ReplayFault> {
        listener.heard(&Heard {
            event: None,
            own: false,
            time: self.now,
            session: self.stage.session(),
            roles: self.stage.roles(),
            before: self.steps,
        })
    }

    // Sees whether the rules cover the item that an event stored.
    fn see(&mut self, event: &Event<A>, agreement: Agreement) -> Result<(), ReplayFault>
        ensures { state_of self.new ≡ state_of self.old }
    {
        self.coverage.see(event, self.stores, agreement)?;
        if let Event::Store { .. } = event {
            self.stores = self.stores.saturating_add(1);
        }
        Ok(())
    }

    // Plays an event, and tells of it.
    #[tactic(auto, using(crate::proofs::Going::goes_more, crate::proofs::Going::goes_same, crate::proofs::Going::goes_led))]
    fn take<L: Listener<A>>(
        &mut self,
        coming: &Coming<A>,
        listener: &mut L,
    ) -> Result<(), ReplayFault>
        ensures { GoesOn false (state_of self.old) (state_of self.new) }
    {
        self.gid = coming.line.gid;
        self.now = coming.line.time;
        let (played, agreement) = match self.driver.take(coming, &self.ahead, &mut self.stage) {
            Ok(agreement) => (Ok(()), Some(agreement)),
            Err(fault) => (Err(fault), None),
        };
        self.ended(played)?;
        if let Some(agreement) = agreement {
            self.see(&coming.line.event, agreement)?;
        }
        self.tell(coming, listener)?;
        self.let_go(&coming.line.event)?;
        self.pass_on();
        Ok(())
    }

    // The item of a storage command goes again that was played for the evictions that waited, and whose key is in no
    // sample.
    #[tactic(auto, using(crate::proofs::Going::goes_more, crate::proofs::Going::goes_same, crate::proofs::Going::goes_led))]
    fn let_go(&mut self, event: &Event<A>) -> Result<(), ReplayFault>
        ensures { GoesOn false (state_of self.old) (state_of self.new) }
    {
        match outsider(self.sampling, event) {
            Some(key) => {
                let played = delete(self.alloc, &mut self.stage, key);
                self.ended(played)
            }
            None => Ok(()),
        }
    }

    // Plays the events that wait, until at most so many do, or nothing more is played.
    #[tactic(auto, using(crate::proofs::Going::goes_more, crate::proofs::Going::goes_same, crate::proofs::Going::goes_led))]
    fn play_until<L: Listener<A>>(
        &mut self,
        most: usize,
        listener: &mut L,
    ) -> Result<(), ReplayFault>
        ensures { GoesOn false (state_of self.old) (state_of self.new) }
    {
        for _ in most..self.ahead.len() {
            if self.is_held() {
                break;
            }
            match self.ahead.pop() {
                Some(coming) => {
                    if self.is_playing() {
                        self.take(&coming, listener)?;
                    }
                }
                None => break,
            }
        }
        Ok(())
    }

    // Whether an event is played: each one, or in a sample what is of its keys or is needed for them. What is left out
    // is counted.
    fn is_asked(&mut self, event: &Event<A>) -> bool
        ensures taken { result ≡ is_asked (sampling_of self.old) (sieve_of self.old) event.now }
        ensures behind { sieve_of self.new ≡ asked_behind (sampling_of self.old) (sieve_of self.old) event.now }
        ensures same { state_of self.new ≡ state_of self.old }
    {
        let taken = self.sieve.takes(self.sampling, event);
        if !taken {
            leave_out(&mut self.counts, event);
        }
        taken
    }

    // Takes in an event that the order gave out.
    #[tactic(auto, using(crate::proofs::Going::goes_more, crate::proofs::Going::goes_same, crate::proofs::Going::goes_led))]
    fn push<L: Listener<A>>(
        &mut self,
        line: LogLine<A>,
        listener: &mut L,
    ) -> Result<(), ReplayFault>
        ensures { GoesOn false (state_of self.old) (state_of self.new) }
    {
        add(&mut self.counts.events, 1);
        if !self.is_playing() {
            return Ok(());
        }
        if !self.is_asked(&line.event) {
            return Ok(());
        }
        self.ahead.push(line)?;
        self.play_until(MOST_AHEAD, listener)
    }

    // Gives out the events that the order holds back, until nothing more is played.
    #[tactic(auto, using(crate::proofs::Going::goes_more, crate::proofs::Going::goes_same, crate::proofs::Going::goes_led))]
    fn empty_order<L: Listener<A>>(&mut self, listener: &mut L) -> Result<(), ReplayFault>
        ensures { GoesOn false (state_of self.old) (state_of self.new) }
    {
        for _ in 0..=MOST_HELD {
            if self.is_held() {
                break;
            }
            match self.order.pop() {
                Some(line) => self.push(line, listener)?,
                None => break,
            }
        }
        Ok(())
    }

    // Plays what the driver still holds back at the end of a life of the server.
    #[tactic(auto, using(crate::proofs::Going::goes_more, crate::proofs::Going::goes_same, crate::proofs::Going::goes_led))]
    fn end_life<L: Listener<A>>(&mut self, listener: &mut L) -> Result<(), ReplayFault>
        ensures { GoesOn false (state_of self.old) (state_of self.new) }
    {
        let played = self.driver.finish(&mut self.stage);
        self.ended(played)?;
        self.tell_end(listener)?;
        self.pass_on();
        Ok(())
    }

    // Plays the events that are held back, up to the end of the log or of the server's life, or until nothing more is
    // played.
    #[tactic(auto, using(crate::proofs::Going::goes_more, crate::proofs::Going::goes_same, crate::proofs::Going::goes_led))]
    fn play_waiting<L: Listener<A>>(&mut self, listener: &mut L) -> Result<(), ReplayFault>
        ensures { GoesOn false (state_of self.old) (state_of self.new) }
    {
        self.play_until(MOST_AHEAD, listener)?;
        self.empty_order(listener)?;
        // (events that the order still holds come behind those that wait)
        if self.is_held() {
            return Ok(());
        }
        self.play_until(0, listener)
    }

    // Plays all that is held back, up to the end of the log or of the server's life. The answer is whether all of it is
    // played: what is left is played by the next call.
    #[tactic(auto, using(crate::proofs::Going::goes_more, crate::proofs::Going::goes_same, crate::proofs::Going::goes_led))]
    fn drain<L: Listener<A>>(&mut self, listener: &mut L) -> Result<bool, ReplayFault>
        ensures { GoesOn false (state_of self.old) (state_of self.new) }
    {
        self.play_waiting(listener)?;
        if self.is_held() {
            return Ok(false);
        }
        if self.is_playing() {
            self.end_life(listener)?;
        }
        Ok(true)
    }

    // An empty cache stands in the place of the server, which was started anew, if this life of it is played.
    #[tactic(auto, using(crate::proofs::Going::goes_more, crate::proofs::Going::goes_same, crate::proofs::Going::goes_always, crate::proofs::Going::goes_opened))]
    fn reopen(&mut self) -> Result<(), ReplayFault>
        ensures { GoesOn true (state_of self.old) (state_of self.new) }
    {
        if self.keeping.plays(self.life()) {
            let stage = open_stage(self.alloc, self.setup)?;
            self.steps = self.played();
            drop(mem::replace(&mut self.stage, stage));
            self.full = None;
            self.pass();
        }
        Ok(())
    }

    // The server was started anew before a line of this time, and all in front of that is played.
    #[tactic(auto, using(crate::proofs::Going::goes_more, crate::proofs::Going::goes_same, crate::proofs::Going::goes_always))]
    fn begin_life<L: Listener<A>>(
        &mut self,
        at: Timestamp,
        listener: &mut L,
    ) -> Result<(), ReplayFault>
        ensures { GoesOn true (state_of self.old) (state_of self.new) }
    {
        add(&mut self.counts.restarts, 1);
        listener.restarted(at, self.played())?;
        self.ahead.clear();
        self.order.begin_life();
        self.ends.begin_life();
        self.driver.begin_life()?;
        self.sieve = Sieve::new();
        self.reopen()
    }

    // Begins another life of the server, where a line shows that it was started anew. The answer is whether the line
    // can be taken in: before it, all that is held back has to be played.
    #[tactic(auto, using(crate::proofs::Going::goes_more, crate::proofs::Going::goes_same, crate::proofs::Going::goes_always))]
    fn see_restart<L: Listener<A>>(
        &mut self,
        line: &LogLine<A>,
        listener: &mut L,
    ) -> Result<bool, ReplayFault>
        ensures { GoesOn true (state_of self.old) (state_of self.new) }
    {
        if !self.order.is_restart(line) {
            return Ok(true);
        }
        if !self.drain(listener)? {
            return Ok(false);
        }
        self.begin_life(line.time, listener)?;
        Ok(true)
    }

    // Takes in an event, or holds it until a part of the steps is let go.
    #[tactic(auto, using(crate::proofs::Going::goes_more, crate::proofs::Going::goes_same, crate::proofs::Going::goes_always))]
    fn put<L: Listener<A>>(&mut self, line: LogLine<A>, listener: &mut L) -> Result<(), ReplayFault>
        ensures { GoesOn true (state_of self.old) (state_of self.new) }
    {
        if !self.see_restart(&line, listener)? {
            self.held = Some(line);
            return Ok(());
        }
        self.ends.note(line.gid);
        match self.order.put(line)? {
            Some(line) => self.push(line, listener),
            None => Ok(()),
        }
    }

    /// Of the logs to come, only events of these seconds are taken in, by the Unix clock.
    pub fn limit_to(&mut self, first: u32, last: u32)
        ensures { state_of self.new ≡ state_of self.old }
    {
        self.first = first;
        self.last = last;
    }

    /// Of the logs to come, only what is of this sample's keys is played, and what these need; everything where there
    /// is no sample.
    pub fn limit_to_sample(&mut self, sampling: Option<&'a Sampling<A>>)
        ensures sampling { sampling_of self.new ≡ option_copied sampling.entry }
        ensures same { state_of self.new ≡ state_of self.old }
    {
        self.sampling = sampling;
    }

    // Takes in an event, if it is asked for.
    #[tactic(auto, using(crate::proofs::Going::goes_more, crate::proofs::Going::goes_same, crate::proofs::Going::goes_always))]
    fn put_asked<L: Listener<A>>(
        &mut self,
        line: LogLine<A>,
        listener: &mut L,
    ) -> Result<(), ReplayFault>
        ensures { GoesOn true (state_of self.old) (state_of self.new) }
    {
        let second = line.time.seconds;
        if self.first <= second && second <= self.last {
            return self.put(line, listener);
        }
        add(&mut self.counts.outside, 1);
        Ok(())
    }

    // Takes in a line.
    #[tactic(auto, using(crate::proofs::Going::goes_more, crate::proofs::Going::goes_same, crate::proofs::Going::goes_always))]
    fn take_line<L: Listener<A>>(
        &mut self,
        line: Line<A>,
        listener: &mut L,
    ) -> Result<(), ReplayFault>
        ensures { GoesOn true (state_of self.old) (state_of self.new) }
    {
        add(&mut self.counts.lines, 1);
        match line {
            Line::Log(line) => self.put_asked(line, listener),
            Line::Skipped(lines) => {
                add(&mut self.counts.skipped, lines);
                Ok(())
            }
            Line::Other => {
                add(&mut self.counts.other, 1);
                Ok(())
            }
        }
    }

    // Goes on behind a part that was full: with the line that was held, or with the events that wait.
    #[tactic(auto, using(crate::proofs::Going::goes_more, crate::proofs::Going::goes_same, crate::proofs::Going::goes_always))]
    fn go_on<L: Listener<A>>(&mut self, listener: &mut L) -> Result<(), ReplayFault>
        ensures { GoesOn true (state_of self.old) (state_of self.new) }
    {
        match self.held.take() {
            Some(line) => self.put(line, listener),
            None => self.play_until(MOST_AHEAD, listener),
        }
    }

    /// Takes in the lines of a log, behind those of the logs before it, up to its end or to where a part of the steps
    /// is full. Behind that the next call goes on, once the steps are let go.
    ///
    /// Err: as of `take_log`.
    #[tactic(auto, using(crate::proofs::Going::goes_more, crate::proofs::Going::goes_same, crate::proofs::Going::goes_always))]
    pub(crate) fn read<S: Source, L: Listener<A>>(
        &mut self,
        log: &mut LogReader<S>,
        listener: &mut L,
    ) -> Result<Reading, ReplayFault>
        ensures { GoesOn true (state_of self.old) (state_of self.new) }
    {
        self.go_on(listener)?;
        for _ in 0..u64::MAX {
            if self.is_held() {
                return Ok(Reading::PartFull);
            }
            match log.next(self.alloc)? {
                None => return self.end_log(),
                Some(NextLine::CutOff) => {
                    add(&mut self.counts.lines, 1);
                    add(&mut self.counts.cut_off, 1);
                    return self.end_log();
                }
                Some(NextLine::Whole(line)) => self.take_line(line, listener)?,
            }
        }
        Err(ReplayFault::TooLong)
    }

    /// Takes in the lines of a log, behind those of the logs before it.
    ///
    /// Where a tree that is kept has no room for what follows, nothing more of that life of the server is played.
    ///
    /// Err: memory was refused; a read failed; a line that begins like one of the log is none; there are more lines
    /// than can be counted; or who listens gave up. The replay is no longer of use.
    #[tactic(auto, using(crate::proofs::Going::goes_more, crate::proofs::Going::goes_same, crate::proofs::Going::goes_always))]
    pub fn take_log<S: Source, L: Listener<A>>(
        &mut self,
        log: &mut LogReader<S>,
        listener: &mut L,
    ) -> Result<(), ReplayFault>
        ensures { GoesOn true (state_of self.old) (state_of self.new) }
    {
        for _ in 0..u64::MAX {
            match self.read(log, listener)? {
                Reading::Ended => return Ok(()),
                Reading::PartFull => self.pass(),
            }
        }
        Err(ReplayFault::TooLong)
    }

    // A log was read to its end.
    fn end_log(&mut self) -> Result<Reading, ReplayFault>
        ensures { state_of self.new ≡ state_of self.old }
    {
        match self.ends.end_log() {
            Ok(()) => Ok(Reading::Ended),
            Err(refused) => Err(ReplayFault::from(refused)),
        }
    }

    // Whether the logs had an event, and the life that is asked for.
    fn check_end(&self) -> Result<(), ReplayFault> {
        if self.counts.events == 0 {
            return Err(ReplayFault::NoEvent);
        }
        match self.keeping {
            Keeping::Tree { life: Some(life) } if u64::from(life) > self.life() => {
                Err(ReplayFault::NoLife { lives: self.life() })
            }
            _ => Ok(()),
        }
    }

    /// Plays what waits, behind the last log, up to where a part of the steps is full. Behind that the next call goes
    /// on, once the steps are let go.
    ///
    /// Err: as of `finish`.
    #[tactic(auto, using(crate::proofs::Going::goes_more, crate::proofs::Going::goes_same, crate::proofs::Going::goes_led))]
    pub(crate) fn read_end<L: Listener<A>>(
        &mut self,
        listener: &mut L,
    ) -> Result<Reading, ReplayFault>
        ensures { GoesOn false (state_of self.old) (state_of self.new) }
    {
        if !self.drain(listener)? {
            return Ok(Reading::PartFull);
        }
        self.check_end()?;
        Ok(Reading::Ended)
    }

    /// Plays what waits, behind the last log.
    ///
    /// Err: no log had an event; the life that is asked for is not there; memory was refused; or who listens gave up.
    #[tactic(auto, using(crate::proofs::Going::goes_more, crate::proofs::Going::goes_same, crate::proofs::Going::goes_led))]
    pub fn finish<L: Listener<A>>(&mut self, listener: &mut L) -> Result<(), ReplayFault>
        ensures { GoesOn false (state_of self.old) (state_of self.new) }
    {
        for _ in 0..u64::MAX {
            match self.read_end(listener)? {
                Reading::Ended => return Ok(()),
                Reading::PartFull => self.pass(),
            }
        }
        Err(ReplayFault::TooLong)
    }

    /// From now on nothing more is played where the tree may have no room for it, until `let_part_go` is called.
    pub(crate) fn hold_parts(&mut self)
        ensures { state_of self.new ≡ state_of self.old }
    {
        self.in_parts = true;
    }

    /// Lets the steps of a part go.
    #[tactic(auto, using(crate::proofs::Going::goes_more, crate::proofs::Going::goes_same, crate::proofs::Going::goes_led))]
    pub(crate) fn let_part_go(&mut self)
        ensures { GoesOn false (state_of self.old) (state_of self.new) }
    {
        self.pass();
    }

    /// Shows the session with the steps that are kept.
    pub(crate) fn show<V: Viewer<A>>(&mut self, viewer: &mut V) -> Result<(), V::Fault>
        ensures { state_of self.new ≡ state_of self.old }
    {
        self.stage.show(viewer)
    }

    /// What became of the lines so far.
    pub fn counts(&self) -> LineCounts
        ensures { result ≡ counts_of self.entry.now }
    {
        self.counts
    }

    /// How many lines came too late for their place, and were dropped.
    pub fn late(&self) -> u64
        ensures { result ≡ late_of self.entry.now }
    {
        self.order.late()
    }

    /// How many lines had the number of another.
    pub fn repeated(&self) -> u64
        ensures { result ≡ repeated_of self.entry.now }
    {
        self.order.repeated()
    }

    /// What the driver counted.
    pub fn tally(&self) -> Tally
        ensures { result ≡ tally_of self.entry.now }
    {
        self.driver.tally()
    }

    /// The number of the server's life that the lines are of: the first is 1.
    pub fn life(&self) -> u64
        ensures { result ≡ life_of self.entry.now }
    {
        if self.counts.restarts < u64::MAX {
            self.counts.restarts + 1
        } else {
            u64::MAX
        }
    }

    /// Where a tree that is kept had no room for what follows, if it had none: the line whose event was played last, as
    /// far as there was room for its steps.
    pub fn full(&self) -> Option<Place>
        ensures { result ≡ full_of self.entry.now }
    {
        self.full
    }

    /// How many steps lie in front of the root of those that are kept, over all lives of the server.
    pub(crate) fn before(&self) -> u64
        ensures { result ≡ (state_of self.entry.now).counted.before }
    {
        self.steps
    }

    /// The session with the steps that are kept.
    pub(crate) fn session(&self) -> &Session<A>
        ensures { result.now ≡ (state_of self.entry.now).counted.stage.session }
    {
        self.stage.session()
    }

    /// The role of each step that is kept, that of node 1 first.
    pub(crate) fn roles(&self) -> &[Role]
        ensures { result.now ≡ (state_of self.entry.now).counted.stage.roles }
    {
        self.stage.roles()
    }

    /// The session with the steps that were kept.
    pub fn into_session(self) -> Session<A>
        ensures { result ≡ (state_of self.entry).counted.stage.session }
    {
        self.stage.into_session()
    }
}
