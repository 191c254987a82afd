//! Evictions of the log.
ghost use Rattle.std.specs.Prelude.{◌≡◌, IfOk};
ghost use Rattle.rev_lead.specs.Acts.{state_of_stage};
ghost use Rattle.rev_lead.specs.Agreed.{AgreedEviction};
ghost use Rattle.rev_lead.specs.declared.agreeing.Agreement.{Agreement as AgreementOf};
ghost use Rattle.rev_lead.specs.Deeds.{Driven};

use super::Driver;
use crate::agreeing::{Agreement, Disagreement, agrees_if, is_gone, is_in_class};
use crate::holding::{holding_of, is_class};
use crate::role::Role;
use crate::stage::{LeadFault, Stage};
use crate::steps::evict;
use crate::tally::Adjustment;
use rev_items::Key;
use rev_log::foresight::Foresight;
use std::alloc::Allocator;

impl<A: Allocator + Copy> Driver<A> {
    // Takes a key out where the log evicts it.
    #[tactic(auto, using(crate::proofs::Driving::driven_more, crate::proofs::Driving::driven_same))]
    pub(super) fn evict(&mut self, key: &Key<A>, stage: &mut Stage<A>) -> Result<(), LeadFault>
        ensures driven { Driven self.old self.new stage.old stage.new }
    {
        if holding_of(stage.store(), key).is_none() {
            return Ok(());
        }
        stage.play(evict(self.alloc, key)?, Role::Eviction)?;
        self.tally.adjust(Adjustment::Evicted);
        Ok(())
    }

    // Takes keys out where the log evicts them.
    #[tactic(auto, using(crate::proofs::Driving::driven_more, crate::proofs::Driving::driven_same))]
    pub(super) fn evict_all(
        &mut self,
        keys: &[Key<A>],
        stage: &mut Stage<A>,
    ) -> Result<(), LeadFault>
        ensures driven { Driven self.old self.new stage.old stage.new }
    {
        for key in keys {
            self.evict(key, stage)?;
        }
        Ok(())
    }

    // A line names the key: if its eviction waits, that was before.
    #[tactic(auto, using(crate::proofs::Driving::driven_more, crate::proofs::Driving::driven_same))]
    pub(super) fn settle(&mut self, key: &Key<A>, stage: &mut Stage<A>) -> Result<(), LeadFault>
        ensures driven { Driven self.old self.new stage.old stage.new }
    {
        if self.waiting.take(key) {
            self.evict(key, stage)?;
        }
        Ok(())
    }

    // The log evicts a key: that waits for the store that needed its chunk.
    #[tactic(auto, using(crate::proofs::Driving::driven_more, crate::proofs::Driving::driven_same))]
    pub(super) fn evicted(
        &mut self,
        key: &Key<A>,
        class: usize,
        size: u32,
        ahead: &Foresight<A>,
        stage: &mut Stage<A>,
    ) -> Result<Agreement, LeadFault>
        ensures driven { Driven self.old self.new stage.old stage.new }
        ensures agrees { IfOk result (λ agreement. agreement ≡ AgreementOf.Agrees → AgreedEviction (state_of_stage stage.new) key.now class) }
    {
        if self.early.take(key) {
            return Ok(agrees_if(is_gone(stage, key), Disagreement::OtherEviction));
        }
        if !is_class(stage.store(), class) {
            return Ok(Agreement::Disagrees(Disagreement::OtherClass));
        }
        self.restore_unless(
            is_in_class(stage, key, class),
            key,
            class,
            size,
            ahead,
            stage,
        )?;
        self.candidates.clear(class);
        self.waiting.push(class, key)?;
        let is_there = is_in_class(stage, key, class);
        Ok(agrees_if(is_there, Disagreement::NoChunk))
    }
}
