//! Chunks that a server had, and the replay has not: an item that the log does not show goes.
ghost use Rattle.std.specs.Prelude.{◌≡◌};
ghost use Rattle.rev_model.specs.Sound.{Sound};
ghost use Rattle.rev_lead.specs.Deeds.{Driven};
ghost use Rattle.rev_lead.specs.Pages.{Carries};

use super::Driver;
use super::storing::{MOST_DATA, Storing};
use crate::holding::{has_free, has_page_to_come, holding_of, is_alive, is_class};
use crate::role::Role;
use crate::stage::{LeadFault, Stage};
use crate::steps::delete;
use crate::tally::{Adjustment, Inference};
use crate::wanting::{Next, Pick, Wanted, next_of};
use rev_items::Key;
use rev_log::foresight::Foresight;
use rev_model::Outcome;
use rev_watch::event::{StoreOutcome, Timestamp};
use std::alloc::Allocator;

impl<A: Allocator + Copy> Driver<A> {
    // A chunk of the class is wanted, and none may be free: what the server let go goes. `own` is the key that wants
    // it.
    #[tactic(auto, using(crate::proofs::Driving::driven_more, crate::proofs::Driving::driven_same))]
    pub(super) fn want(
        &mut self,
        class: usize,
        own: &Key<A>,
        ahead: &Foresight<A>,
        stage: &mut Stage<A>,
    ) -> Result<(), LeadFault>
        ensures driven { Driven self.old self.new stage.old stage.new }
    {
        if has_free(stage.store(), class) {
            return Ok(());
        }
        if let Some(key) = self.flushed(class, own, ahead, stage)? {
            return self.flush(&key, stage);
        }
        if let Some((key, shown)) = self.deleted(class, own, ahead, stage)? {
            return self.let_go(&key, class, Inference::Wanted, shown, stage);
        }
        self.want_any(class, own, ahead, stage)
    }

    pub(super) fn wanted<'a>(
        &'a self,
        class: usize,
        own: &'a Key<A>,
        ahead: &'a Foresight<A>,
        stage: &'a Stage<A>,
    ) -> Wanted<'a, A>
        ensures { Sound result.store.now }
    {
        Wanted {
            store: stage.store(),
            class,
            own,
            waiting: &self.waiting,
            candidates: &self.candidates,
            ahead,
        }
    }

    // A key that was hit and is missed later, and when that is shown.
    fn deleted(
        &self,
        class: usize,
        own: &Key<A>,
        ahead: &Foresight<A>,
        stage: &Stage<A>,
    ) -> Result<Option<(Key<A>, Timestamp)>, LeadFault> {
        match self.wanted(class, own, ahead, stage).deleted() {
            Some((key, shown)) => Ok(Some((key.copy(self.alloc)?, shown.line.time))),
            None => Ok(None),
        }
    }

    // An item of the class goes, unless a page comes.
    #[tactic(auto, using(crate::proofs::Driving::driven_more, crate::proofs::Driving::driven_same))]
    fn want_any(
        &mut self,
        class: usize,
        own: &Key<A>,
        ahead: &Foresight<A>,
        stage: &mut Stage<A>,
    ) -> Result<(), LeadFault>
        ensures driven { Driven self.old self.new stage.old stage.new }
    {
        if has_page_to_come(stage.store(), class) {
            return Ok(());
        }
        let shown = self.last_time(ahead);
        match self.wanted(class, own, ahead, stage).pick(self.alloc)? {
            Pick::Expired(key) => self.let_expired_go(&key, stage),
            Pick::Likely(key, others) => {
                self.others.keep(&key, others)?;
                self.let_go(&key, class, Inference::Wanted, shown, stage)
            }
            Pick::Unseen(key) => self.let_go(&key, class, Inference::Unseen, shown, stage),
            Pick::Nothing => Ok(()),
        }
    }

    // The key's item goes: it was flushed, or a later line of this time shows it.
    #[tactic(auto, using(crate::proofs::Driving::driven_more, crate::proofs::Driving::driven_same, crate::proofs::Carrying::carries_more, crate::proofs::Carrying::carries_same))]
    pub(super) fn let_go(
        &mut self,
        key: &Key<A>,
        class: usize,
        inference: Inference,
        shown: Timestamp,
        stage: &mut Stage<A>,
    ) -> Result<(), LeadFault>
        ensures driven { Driven self.old self.new stage.old stage.new }
        ensures carries { Carries stage.old stage.new }
    {
        self.candidates.forget(class, key);
        if self.is_flushed(key, stage) {
            return self.flush(key, stage);
        }
        let moved = self.has_moved(key, stage);
        self.infer(inference, key, shown, moved, stage)?;
        Ok(())
    }

    // The key goes without a line of its own.
    #[tactic(auto, using(crate::proofs::Driving::driven_more, crate::proofs::Driving::driven_same, crate::proofs::Carrying::carries_more, crate::proofs::Carrying::carries_same))]
    pub(super) fn infer(
        &mut self,
        inference: Inference,
        key: &Key<A>,
        shown: Timestamp,
        moved: bool,
        stage: &mut Stage<A>,
    ) -> Result<Outcome, LeadFault>
        ensures driven { Driven self.old self.new stage.old stage.new }
        ensures carries { Carries stage.old stage.new }
    {
        let outcome = stage.play(delete(self.alloc, key)?, Role::Inferred { shown, moved })?;
        self.tally.adjust(Adjustment::Inferred(inference));
        Ok(outcome)
    }

    // The key's item goes, whose lifetime is over.
    #[tactic(auto, using(crate::proofs::Driving::driven_more, crate::proofs::Driving::driven_same))]
    fn let_expired_go(&mut self, key: &Key<A>, stage: &mut Stage<A>) -> Result<(), LeadFault>
        ensures driven { Driven self.old self.new stage.old stage.new }
    {
        stage.play(delete(self.alloc, key)?, Role::Expiry)?;
        self.tally.adjust(Adjustment::Expired);
        Ok(())
    }

    // Whether the key's class lost a page since its item was linked or last bumped.
    pub(super) fn has_moved(&self, key: &Key<A>, stage: &Stage<A>) -> bool {
        let Some(held) = holding_of(stage.store(), key) else {
            return false;
        };
        match self.moved.get(held.class) {
            Some(second) => *second != 0 && held.header.time <= *second,
            None => false,
        }
    }

    // The log shows a key that the replay does not hold, or holds dead or in another class: it is stored.
    #[tactic(auto, using(crate::proofs::Driving::driven_more, crate::proofs::Driving::driven_same))]
    pub(super) fn restore(
        &mut self,
        key: &Key<A>,
        class: usize,
        size: u32,
        ahead: &Foresight<A>,
        stage: &mut Stage<A>,
    ) -> Result<(), LeadFault>
        ensures driven { Driven self.old self.new stage.old stage.new }
    {
        if !is_class(stage.store(), class) || size > MOST_DATA {
            return Ok(());
        }
        self.make_way(key, stage)?;
        self.make_room(key, class, ahead, stage)?;
        let storing = Storing {
            class,
            size,
            exptime: 0,
            outcome: StoreOutcome::Stored,
        };
        self.put_back(key, storing, stage)
    }

    // What is held of a key that is to be stored goes.
    #[tactic(auto, using(crate::proofs::Driving::driven_more, crate::proofs::Driving::driven_same))]
    fn make_way(&mut self, key: &Key<A>, stage: &mut Stage<A>) -> Result<(), LeadFault>
        ensures driven { Driven self.old self.new stage.old stage.new }
    {
        if holding_of(stage.store(), key).is_none() {
            return Ok(());
        }
        stage.play(delete(self.alloc, key)?, Role::Restore)?;
        Ok(())
    }

    // A key is stored that the replay lacks.
    #[tactic(auto, using(crate::proofs::Driving::driven_more, crate::proofs::Driving::driven_same))]
    fn put_back(
        &mut self,
        key: &Key<A>,
        storing: Storing,
        stage: &mut Stage<A>,
    ) -> Result<(), LeadFault>
        ensures driven { Driven self.old self.new stage.old stage.new }
    {
        let step = self.store_step(key, storing, stage)?;
        stage.play(step, Role::Restore)?;
        self.tally.adjust(Adjustment::Restored);
        Ok(())
    }

    // The same, unless it is held.
    #[tactic(auto, using(crate::proofs::Driving::driven_more, crate::proofs::Driving::driven_same))]
    pub(super) fn restore_unless(
        &mut self,
        is_held: bool,
        key: &Key<A>,
        class: usize,
        size: u32,
        ahead: &Foresight<A>,
        stage: &mut Stage<A>,
    ) -> Result<(), LeadFault>
        ensures driven { Driven self.old self.new stage.old stage.new }
    {
        if is_held {
            Ok(())
        } else {
            self.restore(key, class, size, ahead, stage)
        }
    }

    // Room for a key that the replay lacks.
    #[tactic(auto, using(crate::proofs::Driving::driven_more, crate::proofs::Driving::driven_same))]
    fn make_room(
        &mut self,
        key: &Key<A>,
        class: usize,
        ahead: &Foresight<A>,
        stage: &mut Stage<A>,
    ) -> Result<(), LeadFault>
        ensures driven { Driven self.old self.new stage.old stage.new }
    {
        if has_free(stage.store(), class) {
            return Ok(());
        }
        match self.other(key, class, ahead, stage) {
            Some(other) => {
                let shown = self.last_time(ahead);
                self.let_go(&other, class, Inference::Wanted, shown, stage)
            }
            None => self.want_any(class, key, ahead, stage),
        }
    }

    // One that may have been let go in the place of this key, which was not.
    fn other(
        &mut self,
        key: &Key<A>,
        class: usize,
        ahead: &Foresight<A>,
        stage: &Stage<A>,
    ) -> Option<Key<A>>
        ensures { self.new ≡ self.old }
    {
        for other in self.others.take(key)? {
            if self.may_go(&other, class, ahead, stage) {
                return Some(other);
            }
        }
        None
    }

    // Whether the key is held in the class, and no later line shows it.
    fn may_go(&self, key: &Key<A>, class: usize, ahead: &Foresight<A>, stage: &Stage<A>) -> bool {
        let is_there = match holding_of(stage.store(), key) {
            Some(held) => held.class == class,
            None => false,
        };
        is_there && is_alive(stage.store(), key) && next_of(ahead.first_of(key)) == Next::Nothing
    }
}
