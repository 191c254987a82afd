//! Page moves.
ghost use Rattle.std.specs.Prelude.{◌≡◌, IfOk, None};
ghost use Rattle.rev_lead.specs.Acts.{state_of_stage};
ghost use Rattle.rev_lead.specs.declared.agreeing.Agreement.{Agreement as AgreementOf};
ghost use Rattle.rev_lead.specs.Deeds.{Driven};
ghost use Rattle.rev_lead.specs.Pages.{Carries, PageMoved};

use super::Driver;
use crate::agreeing::{Agreement, Disagreement, agrees_if, has_no_mover};
use crate::holding::{is_alive, is_class};
use crate::stage::{LeadFault, Stage};
use crate::steps::actor;
use crate::tally::Inference;
use crate::wanting::{Next, next_of};
use rev_items::Key;
use rev_log::foresight::Foresight;
use rev_model::{ChunkRef, Outcome};
use rev_requests::ActorStep;
use std::alloc::Allocator;

// Whether the chunk in front of the class's free list is on another page.
fn has_spare<A: Allocator + Copy>(stage: &Stage<A>, class: usize, page: u16) -> bool {
    if !is_class(stage.store(), class) {
        return false;
    }
    match stage.store().front(class) {
        Some(free) => free.page != page,
        None => false,
    }
}

impl<A: Allocator + Copy> Driver<A> {
    // A page moves from one class to another, chunk by chunk.
    #[tactic(auto, using(crate::proofs::Driving::driven_more, crate::proofs::Driving::driven_same))]
    pub(super) fn move_page(
        &mut self,
        source: u32,
        target: u32,
        ahead: &Foresight<A>,
        stage: &mut Stage<A>,
    ) -> Result<Agreement, LeadFault>
        ensures driven { Driven self.old self.new stage.old stage.new }
        ensures agrees { IfOk result (λ agreement. agreement ≡ AgreementOf.Agrees → PageMoved (state_of_stage stage.old) (state_of_stage stage.new) source target) }
    {
        let class = source as usize;
        if !is_class(stage.store(), class) {
            return Ok(Agreement::Disagrees(Disagreement::OtherClass));
        }
        let step = actor(ActorStep::Reassign { source, target });
        match self.say(step, stage)? {
            Outcome::Okay => self.carry(class, ahead, stage),
            _ => Ok(Agreement::Disagrees(Disagreement::RefusedMove)),
        }
    }

    // The page of a move that was accepted goes, and what went with it.
    #[tactic(auto, using(crate::proofs::Driving::driven_more, crate::proofs::Driving::driven_same, crate::proofs::Carrying::carries_more, crate::proofs::Carrying::carries_same))]
    fn carry(
        &mut self,
        class: usize,
        ahead: &Foresight<A>,
        stage: &mut Stage<A>,
    ) -> Result<Agreement, LeadFault>
        ensures driven { Driven self.old self.new stage.old stage.new }
        ensures carries { Carries stage.old stage.new }
        ensures ended { IfOk result (λ agreement. agreement ≡ AgreementOf.Agrees → (state_of_stage stage.new).globals.mover ≡ None) }
    {
        if let Some(moved) = self.moved.get_mut(class) {
            *moved = stage.store().globals().clock;
        }
        self.advance(class, ahead, stage)?;
        self.look_at_suspects(class, ahead, stage)?;
        Ok(agrees_if(has_no_mover(stage), Disagreement::RefusedMove))
    }

    // A step of the mover for each chunk of the page, and one that hands it over.
    #[tactic(auto, using(crate::proofs::Driving::driven_more, crate::proofs::Driving::driven_same, crate::proofs::Carrying::carries_more, crate::proofs::Carrying::carries_same))]
    fn advance(
        &mut self,
        class: usize,
        ahead: &Foresight<A>,
        stage: &mut Stage<A>,
    ) -> Result<(), LeadFault>
        ensures driven { Driven self.old self.new stage.old stage.new }
        ensures carries { Carries stage.old stage.new }
    {
        for _ in 0..u32::MAX {
            if stage.store().globals().mover.is_none() {
                return Ok(());
            }
            self.shield(class, ahead, stage)?;
            self.work(ActorStep::Advance, stage)?;
        }
        Ok(())
    }

    // The mover is to evict an item that a later line shows, for want of another chunk: one that no line shows goes, so
    // that the mover rescues it.
    #[tactic(auto, using(crate::proofs::Driving::driven_more, crate::proofs::Driving::driven_same, crate::proofs::Carrying::carries_more, crate::proofs::Carrying::carries_same))]
    fn shield(
        &mut self,
        class: usize,
        ahead: &Foresight<A>,
        stage: &mut Stage<A>,
    ) -> Result<(), LeadFault>
        ensures driven { Driven self.old self.new stage.old stage.new }
        ensures carries { Carries stage.old stage.new }
    {
        match self.endangered(class, ahead, stage)? {
            Some((own, page)) => self.spare_chunk(class, &own, page, ahead, stage),
            None => Ok(()),
        }
    }

    // The key that the mover is to evict though a later line shows it, and the page.
    fn endangered(
        &self,
        class: usize,
        ahead: &Foresight<A>,
        stage: &Stage<A>,
    ) -> Result<Option<(Key<A>, u16)>, LeadFault> {
        let Some(mover) = stage.store().globals().mover else {
            return Ok(None);
        };
        let chunk = ChunkRef {
            page: mover.page,
            slot: mover.slot,
        };
        let Some(item) = stage.store().content(chunk) else {
            return Ok(None);
        };
        let is_shown = match next_of(ahead.first_of(item.key())) {
            Next::Found | Next::Evicted => true,
            _ => self.waiting.has(item.key()),
        };
        if !is_shown || has_spare(stage, class, mover.page) {
            return Ok(None);
        }
        Ok(Some((item.key().copy(self.alloc)?, mover.page)))
    }

    // Lets an item of the class go that is on another page.
    #[tactic(auto, using(crate::proofs::Driving::driven_more, crate::proofs::Driving::driven_same, crate::proofs::Carrying::carries_more, crate::proofs::Carrying::carries_same))]
    fn spare_chunk(
        &mut self,
        class: usize,
        own: &Key<A>,
        page: u16,
        ahead: &Foresight<A>,
        stage: &mut Stage<A>,
    ) -> Result<(), LeadFault>
        ensures driven { Driven self.old self.new stage.old stage.new }
        ensures carries { Carries stage.old stage.new }
    {
        match self
            .wanted(class, own, ahead, stage)
            .unseen_off(self.alloc, page)?
        {
            Some(key) => {
                let shown = self.last_time(ahead);
                self.let_go(&key, class, Inference::Unseen, shown, stage)
            }
            None => Ok(()),
        }
    }

    // Keys that may have gone with the page, and are still held: the server let them go.
    #[tactic(auto, using(crate::proofs::Driving::driven_more, crate::proofs::Driving::driven_same, crate::proofs::Carrying::carries_more, crate::proofs::Carrying::carries_same))]
    fn look_at_suspects(
        &mut self,
        class: usize,
        ahead: &Foresight<A>,
        stage: &mut Stage<A>,
    ) -> Result<(), LeadFault>
        ensures driven { Driven self.old self.new stage.old stage.new }
        ensures carries { Carries stage.old stage.new }
    {
        for _ in 0..self.suspects.len() {
            match self.suspects.take_of(class) {
                Some(key) => self.look_at_suspect(&key, class, ahead, stage)?,
                None => break,
            }
        }
        Ok(())
    }

    #[tactic(auto, using(crate::proofs::Driving::driven_more, crate::proofs::Driving::driven_same, crate::proofs::Carrying::carries_more, crate::proofs::Carrying::carries_same))]
    fn look_at_suspect(
        &mut self,
        key: &Key<A>,
        class: usize,
        ahead: &Foresight<A>,
        stage: &mut Stage<A>,
    ) -> Result<(), LeadFault>
        ensures driven { Driven self.old self.new stage.old stage.new }
        ensures carries { Carries stage.old stage.new }
    {
        match ahead.first_of(key) {
            Some(next) if next_of(Some(next)) == Next::NotFound && is_alive(stage.store(), key) => {
                let shown = next.line.time;
                self.let_go(key, class, Inference::AtHit, shown, stage)
            }
            _ => Ok(()),
        }
    }
}
