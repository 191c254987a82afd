//! Stores.
ghost use Rattle.std.specs.Prelude.{◌≡◌, IfOk};
ghost use Rattle.rev_steps.specs.Plain.{plain_step};
ghost use Rattle.rev_tree.specs.Steps.{outcome_of};
ghost use Rattle.rev_lead.specs.Acts.{Act, after, state_of_stage};
ghost use Rattle.rev_lead.specs.Agreed.{StoresKey, StoredBy, AgreedStore, is_failed};
ghost use Rattle.rev_lead.specs.declared.agreeing.Agreement.{Agreement as AgreementOf};
ghost use Rattle.rev_lead.specs.Deeds.{Driven};

use super::Driver;
use crate::agreeing::{Agreement, Disagreement, agrees_if, is_gone, is_stored_as};
use crate::holding::{
    evictions, has_free, has_page_to_come, is_alive, is_class, is_last_of_cold, tail_of,
};
use crate::role::Role;
use crate::stage::{LeadFault, Stage};
use crate::steps::{exptime_of, store};
use crate::tally::Adjustment;
use crate::wanting::{Next, next_of};
use rev_items::{Key, footprint};
use rev_log::foresight::Foresight;
use rev_model::{Outcome, Queue};
use rev_requests::{ActorStep, Step, StoreVerb};
use rev_watch::event::StoreOutcome;
use std::alloc::Allocator;

/// The most bytes of data that an item has.
pub(super) const MOST_DATA: u32 = 1048576;

/// A store, as its line tells it.
#[derive(Clone, Copy)]
pub(super) struct Storing {
    pub(super) class: usize,
    pub(super) size: u32,
    pub(super) exptime: i32,
    pub(super) outcome: StoreOutcome,
}

impl Storing {
    // The store of a line, at this second of the clock.
    pub(super) fn logged(
        class: usize,
        size: u32,
        ttl: u32,
        clock: u32,
        outcome: StoreOutcome,
    ) -> Storing
        ensures class { result.class ≡ class }
        ensures outcome { result.outcome ≡ outcome }
    {
        Storing {
            class,
            size,
            exptime: exptime_of(clock, ttl),
            outcome,
        }
    }

    // Whether the server found no memory for the item, or no class.
    fn has_failed(&self) -> bool
        ensures { result ≡ is_failed self.now.outcome }
    {
        match self.outcome {
            StoreOutcome::TooLarge | StoreOutcome::NoMemory => true,
            _ => false,
        }
    }
}

// Whether none of the keys is held.
fn are_gone<A: Allocator + Copy>(keys: &[Key<A>], stage: &Stage<A>) -> bool {
    keys.iter().all(|key| is_gone(stage, key))
}

impl<A: Allocator + Copy> Driver<A> {
    // The flags of an item: they are not logged, but a class above that of the size tells that there are some.
    fn flags_of(&self, key: &Key<A>, storing: Storing) -> u32 {
        match self.class_of(key, 0, storing.size) {
            Some(least) if storing.class > least => 1,
            _ => 0,
        }
    }

    fn class_of(&self, key: &Key<A>, flags: u32, size: u32) -> Option<usize> {
        self.classes
            .class_of(footprint(key, flags, u64::from(size)))
    }

    // Whether the class table has the item's class for its size.
    fn is_fit(&self, key: &Key<A>, storing: Storing, stage: &Stage<A>) -> bool {
        let flags = self.flags_of(key, storing);
        storing.size <= MOST_DATA
            && is_class(stage.store(), storing.class)
            && self.class_of(key, flags, storing.size) == Some(storing.class)
    }

    // The step that stores an item, or a storage command that is refused as in the log.
    pub(super) fn store_step(
        &mut self,
        key: &Key<A>,
        storing: Storing,
        stage: &Stage<A>,
    ) -> Result<Step<A>, LeadFault>
        ensures stores { IfOk result (λ step. StoresKey key.now (plain_step step)) }
        ensures tally { self.new ≡ self.old }
    {
        let flags = self.flags_of(key, storing);
        let verb = match storing.outcome {
            StoreOutcome::Stored => StoreVerb::Set,
            _ if is_alive(stage.store(), key) => StoreVerb::Add,
            _ => StoreVerb::Replace,
        };
        let data = self.fill.data(storing.size)?;
        Ok(store(self.alloc, verb, key, flags, storing.exptime, data)?)
    }

    // The line's own store, in this role.
    #[tactic(auto, using(crate::proofs::Driving::driven_more, crate::proofs::Driving::driven_same))]
    fn put(
        &mut self,
        key: &Key<A>,
        storing: Storing,
        role: Role,
        stage: &mut Stage<A>,
    ) -> Result<Outcome, LeadFault>
        ensures driven { Driven self.old self.new stage.old stage.new }
        ensures done { IfOk result (λ outcome. (act : Act) × StoresKey key.now act.step × (stage.new ≡ after stage.old act) × (outcome ≡ outcome_of (state_of_stage stage.old) act.step)) }
    {
        let step = self.store_step(key, storing, stage)?;
        match role {
            Role::Evicting => self.put_evicting(key, step, stage),
            _ => self.say(step, stage),
        }
    }

    // The line's own store, by which the rules evict what the log evicts.
    #[tactic(auto, using(crate::proofs::Driving::driven_more, crate::proofs::Driving::driven_same))]
    fn put_evicting(
        &mut self,
        key: &Key<A>,
        step: Step<A>,
        stage: &mut Stage<A>,
    ) -> Result<Outcome, LeadFault>
        requires { StoresKey key.now (plain_step step) }
        ensures driven { Driven self.old self.new stage.old stage.new }
        ensures done { IfOk result (λ outcome. (act : Act) × StoresKey key.now act.step × (stage.new ≡ after stage.old act) × (outcome ≡ outcome_of (state_of_stage stage.old) act.step)) }
    {
        let outcome = stage.play(step, Role::Evicting)?;
        self.tally.adjust(Adjustment::ByRules);
        Ok(outcome)
    }

    // Whether the rules by themselves evict just what the log evicts.
    fn is_by_rules(&self, evicted: &[Key<A>], class: usize, stage: &Stage<A>) -> bool {
        let store = stage.store();
        match evicted {
            [key] => {
                !has_free(store, class)
                    && !has_page_to_come(store, class)
                    && is_last_of_cold(store, class, key)
            }
            _ => false,
        }
    }

    // What goes in front of a store of this class, for which the log evicts these keys; and the role of the store.
    #[tactic(auto, using(crate::proofs::Driving::driven_more, crate::proofs::Driving::driven_same))]
    fn clear_way(
        &mut self,
        key: &Key<A>,
        evicted: &[Key<A>],
        class: usize,
        ahead: &Foresight<A>,
        stage: &mut Stage<A>,
    ) -> Result<Role, LeadFault>
        ensures driven { Driven self.old self.new stage.old stage.new }
    {
        if self.is_by_rules(evicted, class, stage) {
            return Ok(Role::Evicting);
        }
        self.evict_all(evicted, stage)?;
        self.want(class, key, ahead, stage)?;
        Ok(Role::Event)
    }

    // A storage command.
    #[tactic(auto, using(crate::proofs::Driving::driven_more, crate::proofs::Driving::driven_same))]
    pub(super) fn store(
        &mut self,
        key: &Key<A>,
        storing: Storing,
        ahead: &Foresight<A>,
        stage: &mut Stage<A>,
    ) -> Result<Agreement, LeadFault>
        ensures driven { Driven self.old self.new stage.old stage.new }
        ensures agrees { IfOk result (λ agreement. agreement ≡ AgreementOf.Agrees → AgreedStore stage.old stage.new key.now storing.class storing.outcome) }
    {
        if storing.has_failed() {
            self.failing.push(storing.class, key)?;
            return Ok(Agreement::Agrees);
        }
        if !self.is_fit(key, storing, stage) {
            return Ok(Agreement::Disagrees(Disagreement::OtherClass));
        }
        self.candidates.forget(storing.class, key);
        let evicted = self.waiting.take_all_of(storing.class)?;
        let role = self.clear_way(key, evicted.as_slice(), storing.class, ahead, stage)?;
        let agreement = self.put_alone(key, storing, role, evicted.as_slice(), stage)?;
        self.expect_flush(key, ahead, stage);
        self.juggle(storing.class, ahead, stage)?;
        Ok(agreement)
    }

    // The event's own store, and whether it went as in the log.
    #[tactic(auto, using(crate::proofs::Driving::driven_more, crate::proofs::Driving::driven_same))]
    fn put_alone(
        &mut self,
        key: &Key<A>,
        storing: Storing,
        role: Role,
        evicted: &[Key<A>],
        stage: &mut Stage<A>,
    ) -> Result<Agreement, LeadFault>
        ensures driven { Driven self.old self.new stage.old stage.new }
        ensures agrees { IfOk result (λ agreement. agreement ≡ AgreementOf.Agrees → StoredBy stage.old stage.new key.now storing.class storing.outcome) }
    {
        let before = evictions(stage.store(), storing.class);
        let outcome = self.put(key, storing, role, stage)?;
        if outcome == Outcome::NoChunk {
            return Ok(Agreement::Disagrees(Disagreement::NoChunk));
        }
        let by_rules = if role == Role::Evicting { 1 } else { 0 };
        if evictions(stage.store(), storing.class) != before.saturating_add(by_rules)
            || !are_gone(evicted, stage)
        {
            return Ok(Agreement::Disagrees(Disagreement::OtherEviction));
        }
        let is_alike = is_stored_as(stage, key, storing.class, storing.outcome, outcome);
        Ok(agrees_if(is_alike, Disagreement::OtherAnswer))
    }

    // The maintainer comes to the queues of a class that was stored in.
    #[tactic(auto, using(crate::proofs::Driving::driven_more, crate::proofs::Driving::driven_same))]
    fn juggle(
        &mut self,
        class: usize,
        ahead: &Foresight<A>,
        stage: &mut Stage<A>,
    ) -> Result<(), LeadFault>
        ensures driven { Driven self.old self.new stage.old stage.new }
    {
        let Ok(number) = u32::try_from(class) else {
            return Ok(());
        };
        for queue in [Queue::Hot, Queue::Warm, Queue::Cold] {
            self.sweep(class, queue, ahead, stage)?;
            if self.may_pull(class, queue, ahead, stage) {
                let step = ActorStep::Pull {
                    class: number,
                    queue,
                };
                self.work(step, stage)?;
            }
        }
        Ok(())
    }

    // Whether a pull takes out no item that a later line shows.
    fn may_pull(&self, class: usize, queue: Queue, ahead: &Foresight<A>, stage: &Stage<A>) -> bool {
        let Some(tail) = tail_of(stage.store(), class, queue) else {
            return false;
        };
        let Some(item) = stage.store().content(tail) else {
            return false;
        };
        let globals = stage.store().globals();
        if !item.is_dead(globals.clock, globals.flush_limit) {
            return true;
        }
        if self.waiting.has(item.key()) {
            return false;
        }
        match next_of(ahead.first_of(item.key())) {
            Next::Evicted | Next::Expired | Next::Found => false,
            _ => true,
        }
    }
}
