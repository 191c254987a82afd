//! The driver: each event of a log is played on a stage, with what has to stand in front of it.
ghost use Rattle.std.specs.Prelude.{◌≡◌, ℕ, List, None, IfOk, OnOk, OnErr};
ghost use Rattle.rev_steps.specs.Plain.{plain_step, plain_actor};
ghost use Rattle.rev_tree.specs.Steps.{next, outcome_of};
ghost use Rattle.rev_lead.specs.Acts.{Led, after, state_of_stage};
ghost use Rattle.rev_lead.specs.Agreed.{Agreed, Deleted};
ghost use Rattle.rev_lead.specs.Agrees.{holding_of};
ghost use Rattle.rev_lead.specs.Counts.{no_tally};
ghost use Rattle.rev_lead.specs.Deeds.{Driven, Tells};
ghost use Rattle.rev_lead.specs.declared.agreeing.Agreement.{Agreement as AgreementOf};
ghost use Rattle.rev_lead.specs.declared.role.Role.{Role as RoleOf};

mod evicting;
mod flushing;
mod looking;
mod moving;
mod storing;
mod wants;

use crate::agreeing::Agreement;
use crate::candidates::Candidates;
use crate::fill::Fill;
use crate::flushes::Flushes;
use crate::others::Others;
use crate::role::Role;
use crate::stage::{LeadFault, Stage};
use crate::steps::{actor, delete, get, touch};
use crate::tally::{Adjustment, Tally};
use crate::waiting::Waiting;
use rev_classes::ClassTable;
use rev_items::Key;
use rev_log::foresight::{Coming, Foresight};
use rev_model::Outcome;
use rev_requests::{ActorStep, Step};
use rev_watch::event::{Event, Timestamp};
use std::alloc::{AllocError, Allocator};
use std::marker::Model;
use storing::Storing;

/// Behind so many events that store nothing stands a step on the bump queue.
const BUMP_EVERY: u32 = 10;

/// Classes are numbered below it.
pub(crate) const CLASSES: usize = 64;

/// Plays the events of a log, so that the session agrees with each.
#[derive(Drop)]
pub struct Driver<A: Allocator> {
    alloc: A,
    classes: ClassTable,
    fill: Fill<A>,
    // the evictions that wait for their store
    waiting: Waiting<A>,
    // keys whose eviction was played in front of its line
    early: Waiting<A>,
    // keys of sets that failed, whose own look-up comes next
    failing: Waiting<A>,
    // keys that are held when a page of their class moves, and that may go with it
    suspects: Waiting<A>,
    candidates: Candidates<A>,
    others: Others<A>,
    // of each class the second at which it lost a page last
    moved: [u32; 64],
    flushes: Flushes,
    since_bump: u32,
    // when the event's line was made that is played
    time: Timestamp,
    tally: Tally,
}

impl<A: Allocator> Model for Driver<A> {
    ghost use Rattle.rev_lead.specs.declared.tally.Tally.{Tally};

    // what was counted
    ghost Value = { Tally };

    ghost view = { λ d. d.tally };
}

impl<A: Allocator + Copy> Driver<A> {
    /// A driver that has played nothing, for a store of these classes.
    ///
    /// Err: memory was refused.
    pub fn new(alloc: A, classes: ClassTable) -> Result<Driver<A>, AllocError>
        ensures { IfOk result (λ driver. driver ≡ no_tally) }
    {
        Ok(Driver {
            alloc,
            classes,
            fill: Fill::new(alloc),
            waiting: Waiting::new(alloc),
            early: Waiting::new(alloc),
            failing: Waiting::new(alloc),
            suspects: Waiting::new(alloc),
            candidates: Candidates::new(alloc)?,
            others: Others::new(alloc),
            moved: [0; 64],
            flushes: Flushes::none(),
            since_bump: 0,
            time: Timestamp {
                seconds: 0,
                microseconds: 0,
            },
            tally: Tally::none(),
        })
    }

    /// What was counted so far.
    pub fn tally(&self) -> Tally
        ensures { result ≡ self.now }
    {
        self.tally
    }

    /// Plays an event, which was taken out of those that wait, with what has to stand in front of it and what the
    /// maintainer does behind it. The answer is whether the session agrees with the event.
    ///
    /// Err: memory was refused, or the session's tree is full. What was played before stays played.
    #[tactic(auto, using(crate::proofs::Driving::driven_more, crate::proofs::Driving::driven_same))]
    pub fn take(
        &mut self,
        coming: &Coming<A>,
        ahead: &Foresight<A>,
        stage: &mut Stage<A>,
    ) -> Result<Agreement, LeadFault>
        ensures led { Led stage.old stage.new }
        ensures agrees { IfOk result (λ agreement. agreement ≡ AgreementOf.Agrees → Agreed coming.now.line.event stage.old stage.new) }
        ensures tells { Tells self.old self.new stage.old stage.new result }
    {
        self.time = coming.line.time;
        self.flushes.reach(coming.number);
        self.set_clock(ahead.seconds().second_of(coming.line.time), stage)?;
        let agreement = self.event(coming, ahead, stage)?;
        self.tally.count(agreement);
        Ok(agreement)
    }

    /// Plays the evictions that wait for a store that the log does not have.
    #[tactic(auto, using(crate::proofs::Driving::driven_more, crate::proofs::Driving::driven_same))]
    pub fn finish(&mut self, stage: &mut Stage<A>) -> Result<(), LeadFault>
        ensures led { Led stage.old stage.new }
        ensures driven { Driven self.old self.new stage.old stage.new }
    {
        for _ in 0..self.waiting.len() {
            match self.waiting.take_first() {
                Some(key) => self.evict(&key, stage)?,
                None => break,
            }
        }
        Ok(())
    }

    /// The server was started anew: nothing is known of its keys. What was counted stays.
    ///
    /// Err: memory was refused.
    pub fn begin_life(&mut self) -> Result<(), AllocError>
        ensures { self.new ≡ self.old }
    {
        self.waiting = Waiting::new(self.alloc);
        self.early = Waiting::new(self.alloc);
        self.failing = Waiting::new(self.alloc);
        self.suspects = Waiting::new(self.alloc);
        self.candidates = Candidates::new(self.alloc)?;
        self.others = Others::new(self.alloc);
        self.moved = [0; 64];
        self.flushes = Flushes::none();
        self.since_bump = 0;
        Ok(())
    }

    // When the last line was made that is known.
    fn last_time(&self, ahead: &Foresight<A>) -> Timestamp {
        match ahead.last() {
            Some(last) => last.line.time,
            None => self.time,
        }
    }

    #[tactic(auto, using(crate::proofs::Driving::driven_more, crate::proofs::Driving::driven_same))]
    fn set_clock(&mut self, second: u32, stage: &mut Stage<A>) -> Result<(), LeadFault>
        ensures driven { Driven self.old self.new stage.old stage.new }
        ensures owners { (state_of_stage stage.new).owner ≡ (state_of_stage stage.old).owner }
    {
        if second <= stage.store().globals().clock {
            return Ok(());
        }
        self.work(ActorStep::Clock(second), stage)?;
        Ok(())
    }

    // Plays an event at the second that the clock shows.
    #[tactic(auto, using(crate::proofs::Driving::driven_more, crate::proofs::Driving::driven_same))]
    fn event(
        &mut self,
        coming: &Coming<A>,
        ahead: &Foresight<A>,
        stage: &mut Stage<A>,
    ) -> Result<Agreement, LeadFault>
        ensures driven { Driven self.old self.new stage.old stage.new }
        ensures agrees { IfOk result (λ agreement. agreement ≡ AgreementOf.Agrees → Agreed coming.now.line.event stage.old stage.new) }
    {
        match &coming.line.event {
            Event::LookUp {
                key,
                outcome,
                class,
                size,
                ..
            } => {
                self.settle(key, stage)?;
                self.look_up(coming, key, *outcome, *class as usize, *size, ahead, stage)
            }
            Event::Store {
                key,
                outcome,
                ttl,
                class,
                size,
                ..
            } => {
                self.settle(key, stage)?;
                let clock = stage.store().globals().clock;
                let storing = Storing::logged(*class as usize, *size, *ttl, clock, *outcome);
                self.store(key, storing, ahead, stage)
            }
            Event::Deletion { key, .. } => {
                self.settle(key, stage)?;
                self.delete(key, stage)
            }
            Event::Eviction {
                key,
                class,
                size,
                ..
            } => {
                self.settle(key, stage)?;
                self.evicted(key, *class as usize, *size, ahead, stage)
            }
            Event::PageMove { source, target } => self.move_page(*source, *target, ahead, stage),
            _ => Ok(Agreement::Agrees),
        }
    }

    // What the line itself says.
    fn say(&mut self, step: Step<A>, stage: &mut Stage<A>) -> Result<Outcome, LeadFault>
        ensures driven { Driven self.old self.new stage.old stage.new }
        ensures ok { OnOk result (stage.new ≡ after stage.old (record { step = plain_step step; role = RoleOf.Event })) }
        ensures state { OnOk result (state_of_stage stage.new ≡ next (state_of_stage stage.old) (plain_step step)) }
        ensures outcome { IfOk result (λ outcome. outcome ≡ outcome_of (state_of_stage stage.old) (plain_step step)) }
        ensures err { OnErr result (stage.new ≡ stage.old) }
    {
        stage.play(step, Role::Event)
    }

    // The maintainer, the page mover or the clock does a step.
    fn work(&mut self, step: ActorStep, stage: &mut Stage<A>) -> Result<Outcome, LeadFault>
        ensures driven { Driven self.old self.new stage.old stage.new }
        ensures state { OnOk result (state_of_stage stage.new ≡ next (state_of_stage stage.old) (plain_actor step)) }
        ensures err { OnErr result (stage.new ≡ stage.old) }
    {
        stage.play(actor(step), Role::Actor)
    }

    // A deletion that the log shows.
    #[tactic(auto, using(crate::proofs::Driving::driven_more, crate::proofs::Driving::driven_same))]
    fn delete(&mut self, key: &Key<A>, stage: &mut Stage<A>) -> Result<Agreement, LeadFault>
        ensures driven { Driven self.old self.new stage.old stage.new }
        ensures agrees { IfOk result (λ agreement. agreement ≡ AgreementOf.Agrees → Deleted stage.old stage.new key.now) }
    {
        self.say(delete(self.alloc, key)?, stage)?;
        self.bump(stage)?;
        Ok(Agreement::Agrees)
    }

    #[tactic(auto, using(crate::proofs::Driving::driven_more, crate::proofs::Driving::driven_same))]
    fn get(&mut self, key: &Key<A>, stage: &mut Stage<A>) -> Result<Outcome, LeadFault>
        ensures driven { Driven self.old self.new stage.old stage.new }
    {
        self.say(get(self.alloc, key)?, stage)
    }

    // A lifetime that the log does not show.
    #[tactic(auto, using(crate::proofs::Driving::driven_more, crate::proofs::Driving::driven_same))]
    fn touch(
        &mut self,
        key: &Key<A>,
        exptime: i32,
        stage: &mut Stage<A>,
    ) -> Result<Outcome, LeadFault>
        ensures driven { Driven self.old self.new stage.old stage.new }
    {
        let outcome = stage.play(touch(self.alloc, key, exptime)?, Role::Lifetime)?;
        self.tally.adjust(Adjustment::Lifetime);
        Ok(outcome)
    }

    // The maintainer takes the bump queue's first entry now and then.
    #[tactic(auto, using(crate::proofs::Driving::driven_more, crate::proofs::Driving::driven_same))]
    fn bump(&mut self, stage: &mut Stage<A>) -> Result<(), LeadFault>
        ensures driven { Driven self.old self.new stage.old stage.new }
        ensures gone { (key : List ℕ) → holding_of (state_of_stage stage.old) key ≡ None → holding_of (state_of_stage stage.new) key ≡ None }
    {
        self.since_bump = self.since_bump.saturating_add(1);
        if self.since_bump < BUMP_EVERY {
            return Ok(());
        }
        self.since_bump = 0;
        if stage.store().bump_len() == 0 {
            return Ok(());
        }
        self.work(ActorStep::Bump, stage)?;
        Ok(())
    }
}
