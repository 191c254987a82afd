//! Look-ups.
ghost use Rattle.std.specs.Prelude.{◌≡◌, IfOk};
ghost use Rattle.rev_lead.specs.Agreed.{AgreedLookUp, Found, Missed};
ghost use Rattle.rev_lead.specs.declared.agreeing.Agreement.{Agreement as AgreementOf};
ghost use Rattle.rev_lead.specs.Deeds.{Driven};

use super::Driver;
use super::flushing::ends_flushed;
use super::storing::MOST_DATA;
use crate::agreeing::{Agreement, Disagreement, agrees_if, is_found, is_held_alive};
use crate::holding::{Holding, holding_of};
use crate::stage::{LeadFault, Stage};
use crate::steps::{exptime_at, failed_set};
use crate::tally::Inference;
use crate::wanting::{Next, next_of};
use rev_items::Key;
use rev_log::foresight::{Coming, Foresight};
use rev_model::Outcome;
use rev_watch::event::{Event, LookUpOutcome};
use std::alloc::Allocator;

impl<A: Allocator + Copy> Driver<A> {
    // A look-up.
    #[tactic(auto, using(crate::proofs::Driving::driven_more, crate::proofs::Driving::driven_same))]
    pub(super) fn look_up(
        &mut self,
        coming: &Coming<A>,
        key: &Key<A>,
        outcome: LookUpOutcome,
        class: usize,
        size: u32,
        ahead: &Foresight<A>,
        stage: &mut Stage<A>,
    ) -> Result<Agreement, LeadFault>
        ensures driven { Driven self.old self.new stage.old stage.new }
        ensures agrees { IfOk result (λ agreement. agreement ≡ AgreementOf.Agrees → AgreedLookUp stage.old stage.new key.now class outcome) }
    {
        match outcome {
            LookUpOutcome::Found => self.found(coming, key, class, size, ahead, stage),
            LookUpOutcome::NotFound
            | LookUpOutcome::Expired
            | LookUpOutcome::Flushed
            | LookUpOutcome::Other => self.missed(coming, key, outcome, ahead, stage),
        }
    }

    // A look-up found the key.
    #[tactic(auto, using(crate::proofs::Driving::driven_more, crate::proofs::Driving::driven_same))]
    fn found(
        &mut self,
        coming: &Coming<A>,
        key: &Key<A>,
        class: usize,
        size: u32,
        ahead: &Foresight<A>,
        stage: &mut Stage<A>,
    ) -> Result<Agreement, LeadFault>
        ensures driven { Driven self.old self.new stage.old stage.new }
        ensures agrees { IfOk result (λ agreement. agreement ≡ AgreementOf.Agrees → Found stage.old stage.new key.now class) }
    {
        self.restore_unless(
            self.holds(key, class, stage),
            key,
            class,
            size,
            ahead,
            stage,
        )?;
        let is_there = is_found(stage, key, class);
        self.play_found(coming, key, ahead, stage)?;
        Ok(agrees_if(is_there, Disagreement::OtherAnswer))
    }

    // What a look-up does that finds its key: it is a client's hit, or that of a command.
    #[tactic(auto, using(crate::proofs::Driving::driven_more, crate::proofs::Driving::driven_same))]
    fn play_found(
        &mut self,
        coming: &Coming<A>,
        key: &Key<A>,
        ahead: &Foresight<A>,
        stage: &mut Stage<A>,
    ) -> Result<(), LeadFault>
        ensures driven { Driven self.old self.new stage.old stage.new }
    {
        if self.failing.take(key) {
            let data = self.fill.data(MOST_DATA)?;
            self.say(failed_set(self.alloc, key, data)?, stage)?;
            return Ok(());
        }
        if coming.own {
            return Ok(());
        }
        self.hit(key, ahead, stage)?;
        self.bump(stage)
    }

    // A client's hit, by what comes next of the key.
    #[tactic(auto, using(crate::proofs::Driving::driven_more, crate::proofs::Driving::driven_same))]
    fn hit(
        &mut self,
        key: &Key<A>,
        ahead: &Foresight<A>,
        stage: &mut Stage<A>,
    ) -> Result<Outcome, LeadFault>
        ensures driven { Driven self.old self.new stage.old stage.new }
    {
        match (holding_of(stage.store(), key), ahead.first_of(key)) {
            (Some(held), None) => {
                self.find_unflushed(held, stage);
                self.candidates.note(held.class, key)?;
                self.get(key, stage)
            }
            (Some(held), Some(next)) => {
                self.find_unflushed(held, stage);
                self.hit_before(key, held, next, ahead, stage)
            }
            (None, _) => self.get(key, stage),
        }
    }

    // The same, where the next line that names the key waits.
    #[tactic(auto, using(crate::proofs::Driving::driven_more, crate::proofs::Driving::driven_same))]
    fn hit_before(
        &mut self,
        key: &Key<A>,
        held: Holding,
        next: &Coming<A>,
        ahead: &Foresight<A>,
        stage: &mut Stage<A>,
    ) -> Result<Outcome, LeadFault>
        ensures driven { Driven self.old self.new stage.old stage.new }
    {
        let end = held.header.moment;
        let second = ahead.seconds().second_of(next.line.time);
        let lives_on = end == 0 || end > u64::from(second);
        match next_of(Some(next)) {
            Next::NotFound if lives_on && !self.is_flushed_before(held, next, ahead) =>
                self.delete_or_get(key, held, next, ahead, stage),
            Next::Flushed => {
                self.expect_flush(key, ahead, stage);
                self.get(key, stage)
            }
            Next::Expired if lives_on => self.touch(key, exptime_at(u64::from(second)), stage),
            Next::Found if !lives_on => {
                let exptime = lengthened(held, second, stage.store().globals().clock);
                self.touch(key, exptime, stage)
            }
            Next::Evicted => match other_end(next, end, second) {
                Some(end) => self.touch(key, exptime_at(end), stage),
                None => self.get(key, stage),
            },
            _ => self.get(key, stage),
        }
    }

    // A hit behind which the key is missed: it was a delete, unless a page of its class moves in between.
    #[tactic(auto, using(crate::proofs::Driving::driven_more, crate::proofs::Driving::driven_same))]
    fn delete_or_get(
        &mut self,
        key: &Key<A>,
        held: Holding,
        next: &Coming<A>,
        ahead: &Foresight<A>,
        stage: &mut Stage<A>,
    ) -> Result<Outcome, LeadFault>
        ensures driven { Driven self.old self.new stage.old stage.new }
    {
        if moves_before(held.class, next, ahead) {
            self.candidates.note(held.class, key)?;
            self.suspects.push(held.class, key)?;
            return self.get(key, stage);
        }
        self.infer(Inference::AtHit, key, next.line.time, false, stage)
    }

    // A look-up did not find the key.
    #[tactic(auto, using(crate::proofs::Driving::driven_more, crate::proofs::Driving::driven_same))]
    fn missed(
        &mut self,
        coming: &Coming<A>,
        key: &Key<A>,
        outcome: LookUpOutcome,
        ahead: &Foresight<A>,
        stage: &mut Stage<A>,
    ) -> Result<Agreement, LeadFault>
        ensures driven { Driven self.old self.new stage.old stage.new }
        ensures agrees { IfOk result (λ agreement. agreement ≡ AgreementOf.Agrees → Missed stage.old stage.new key.now) }
    {
        self.lose_held(coming, key, outcome, ahead, stage)?;
        let is_missed = !is_held_alive(stage, key);
        self.play_missed(coming, key, stage)?;
        Ok(agrees_if(is_missed, Disagreement::OtherAnswer))
    }

    // What a look-up does that does not find its key: it is a client's miss, or that of a command.
    #[tactic(auto, using(crate::proofs::Driving::driven_more, crate::proofs::Driving::driven_same))]
    fn play_missed(
        &mut self,
        coming: &Coming<A>,
        key: &Key<A>,
        stage: &mut Stage<A>,
    ) -> Result<(), LeadFault>
        ensures driven { Driven self.old self.new stage.old stage.new }
    {
        if self.failing.take(key) || coming.own {
            return Ok(());
        }
        self.get(key, stage)?;
        self.bump(stage)
    }

    // If the key is held alive, it went before.
    #[tactic(auto, using(crate::proofs::Driving::driven_more, crate::proofs::Driving::driven_same))]
    fn lose_held(
        &mut self,
        coming: &Coming<A>,
        key: &Key<A>,
        outcome: LookUpOutcome,
        ahead: &Foresight<A>,
        stage: &mut Stage<A>,
    ) -> Result<(), LeadFault>
        ensures driven { Driven self.old self.new stage.old stage.new }
    {
        match holding_of(stage.store(), key) {
            Some(held) if held.alive => self.lose(coming, key, outcome, held, ahead, stage),
            _ => Ok(()),
        }
    }

    // The key is held alive, and a look-up misses it: it went before.
    #[tactic(auto, using(crate::proofs::Driving::driven_more, crate::proofs::Driving::driven_same))]
    fn lose(
        &mut self,
        coming: &Coming<A>,
        key: &Key<A>,
        outcome: LookUpOutcome,
        held: Holding,
        ahead: &Foresight<A>,
        stage: &mut Stage<A>,
    ) -> Result<(), LeadFault>
        ensures driven { Driven self.old self.new stage.old stage.new }
    {
        if next_of(ahead.first_of(key)) == Next::Evicted {
            self.early.push(held.class, key)?;
            return self.evict(key, stage);
        }
        let clock = u64::from(stage.store().globals().clock);
        let ends = held.header.moment != 0 && held.header.moment <= clock + 1;
        if outcome == LookUpOutcome::Expired || ends {
            self.touch(key, -1, stage)?;
            return Ok(());
        }
        if outcome == LookUpOutcome::Flushed || ends_flushed(ahead.first_of(key), ahead) {
            self.flushes.note(held.header.cas);
        }
        if self.flushes.has(held.header.cas) {
            let is_other = coming.own || self.failing.has(key);
            return self.lose_flushed(is_other, key, stage);
        }
        let shown = coming.line.time;
        self.let_go(key, held.class, Inference::AtMiss, shown, stage)
    }
}

// Whether a page move from the class waits in front of the event.
fn moves_before<A: Allocator + Copy>(class: usize, next: &Coming<A>, ahead: &Foresight<A>) -> bool {
    match u32::try_from(class) {
        Ok(class) => ahead.moves_before(class, next.number),
        Err(_) => false,
    }
}

// The expiry time of an item that is found when its lifetime is over: the lifetime once more, if that is enough, or
// none.
fn lengthened(held: Holding, second: u32, clock: u32) -> i32 {
    let lifetime = held
        .header
        .moment
        .saturating_sub(u64::from(held.header.time));
    let end = u64::from(clock).saturating_add(lifetime);
    if end > u64::from(second) {
        exptime_at(end)
    } else {
        0
    }
}

// The moment at which the item expires by the line that evicts it, where that is another one than this by more than a
// second.
fn other_end<A: Allocator>(evicted: &Coming<A>, end: u64, second: u32) -> Option<u64> {
    let Event::Eviction { ttl, .. } = &evicted.line.event else {
        return None;
    };
    let told = match ttl {
        Some(left) => u64::from(second) + u64::from(*left),
        None => 0,
    };
    if told.max(end) - told.min(end) > 1 {
        Some(told)
    } else {
        None
    }
}
