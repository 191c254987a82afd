//! Flushes: the log does not show them, but what they let go.
ghost use Rattle.std.specs.Prelude.{◌≡◌};
ghost use Rattle.rev_lead.specs.Deeds.{Driven};
ghost use Rattle.rev_lead.specs.Pages.{Carries};

use super::Driver;
use crate::agreeing::is_found;
use crate::holding::{Holding, has_page_to_come, holding_of, tail_of};
use crate::role::Role;
use crate::stage::{LeadFault, Stage};
use crate::steps::{get, touch};
use crate::tally::Adjustment;
use crate::wanting::{Next, next_of};
use rev_items::Key;
use rev_log::foresight::{Coming, Foresight};
use rev_model::Queue;
use std::alloc::Allocator;

/// How many misses of a key are looked through for a flush.
const MOST_MISSES: u32 = 64;

// Whether the misses of a key, from this event on, end in one that says that it was flushed.
pub(super) fn ends_flushed<A: Allocator + Copy>(
    first: Option<&Coming<A>>,
    ahead: &Foresight<A>,
) -> bool {
    let mut next = first;
    for _ in 0..MOST_MISSES {
        let Some(coming) = next else {
            return false;
        };
        match next_of(next) {
            Next::Flushed => return true,
            Next::NotFound => next = ahead.behind(coming),
            _ => return false,
        }
    }
    false
}

impl<A: Allocator + Copy> Driver<A> {
    // Whether the item of a hit is flushed before the event that misses its key.
    pub(super) fn is_flushed_before(
        &self,
        held: Holding,
        next: &Coming<A>,
        ahead: &Foresight<A>,
    ) -> bool {
        self.flushes.comes_before(held.header.cas, next.number) || ends_flushed(Some(next), ahead)
    }

    // The item is found: no flush has let it go.
    pub(super) fn find_unflushed(&mut self, held: Holding, stage: &Stage<A>)
        ensures { self.new ≡ self.old }
    {
        let stored = stage.store().globals().last_cas;
        self.flushes.find(held.header.cas, stored);
    }

    // The key is held: where its next event says that it was flushed, a flush comes.
    pub(super) fn expect_flush(&mut self, key: &Key<A>, ahead: &Foresight<A>, stage: &Stage<A>)
        ensures { self.new ≡ self.old }
    {
        let Some(next) = ahead.first_of(key) else {
            return;
        };
        if next_of(Some(next)) != Next::Flushed {
            return;
        }
        if let Some(held) = holding_of(stage.store(), key) {
            let stored = stage.store().globals().last_cas;
            self.flushes.expect(held.header.cas, stored, next.number);
        }
    }

    // Whether the key's item is known to be flushed.
    pub(super) fn is_flushed(&self, key: &Key<A>, stage: &Stage<A>) -> bool {
        match holding_of(stage.store(), key) {
            Some(held) => held.alive && self.flushes.has(held.header.cas),
            None => false,
        }
    }

    // Whether a look-up finds the key in the class, as an item that may be: one that was flushed was stored anew by a
    // line that is missing.
    pub(super) fn holds(&self, key: &Key<A>, class: usize, stage: &Stage<A>) -> bool {
        is_found(stage, key, class) && !self.is_flushed(key, stage)
    }

    // The key's item was flushed: it is dead from here on.
    #[tactic(auto, using(crate::proofs::Driving::driven_more, crate::proofs::Driving::driven_same, crate::proofs::Carrying::carries_more, crate::proofs::Carrying::carries_same))]
    fn end_flushed(&mut self, key: &Key<A>, stage: &mut Stage<A>) -> Result<(), LeadFault>
        ensures driven { Driven self.old self.new stage.old stage.new }
        ensures carries { Carries stage.old stage.new }
    {
        stage.play(touch(self.alloc, key, -1)?, Role::Flush)?;
        self.tally.adjust(Adjustment::Flushed);
        Ok(())
    }

    // The key's item was flushed, and it is gone: no client's look-up meets it.
    #[tactic(auto, using(crate::proofs::Driving::driven_more, crate::proofs::Driving::driven_same, crate::proofs::Carrying::carries_more, crate::proofs::Carrying::carries_same))]
    pub(super) fn flush(&mut self, key: &Key<A>, stage: &mut Stage<A>) -> Result<(), LeadFault>
        ensures driven { Driven self.old self.new stage.old stage.new }
        ensures carries { Carries stage.old stage.new }
    {
        self.end_flushed(key, stage)?;
        stage.play(get(self.alloc, key)?, Role::Flush)?;
        Ok(())
    }

    // The key's item was flushed, and a look-up misses it: a client's, or another command's, which plays nothing.
    #[tactic(auto, using(crate::proofs::Driving::driven_more, crate::proofs::Driving::driven_same))]
    pub(super) fn lose_flushed(
        &mut self,
        is_other: bool,
        key: &Key<A>,
        stage: &mut Stage<A>,
    ) -> Result<(), LeadFault>
        ensures driven { Driven self.old self.new stage.old stage.new }
    {
        if is_other {
            self.flush(key, stage)
        } else {
            self.end_flushed(key, stage)
        }
    }

    // The maintainer comes to a queue: its last item goes, where it is known to be flushed and no later line meets it.
    #[tactic(auto, using(crate::proofs::Driving::driven_more, crate::proofs::Driving::driven_same))]
    pub(super) fn sweep(
        &mut self,
        class: usize,
        queue: Queue,
        ahead: &Foresight<A>,
        stage: &mut Stage<A>,
    ) -> Result<(), LeadFault>
        ensures driven { Driven self.old self.new stage.old stage.new }
    {
        match self.flushed_tail(class, queue, ahead, stage)? {
            Some(key) => self.flush(&key, stage),
            None => Ok(()),
        }
    }

    // The key of a queue's last item, where it goes so.
    fn flushed_tail(
        &self,
        class: usize,
        queue: Queue,
        ahead: &Foresight<A>,
        stage: &Stage<A>,
    ) -> Result<Option<Key<A>>, LeadFault> {
        if !self.flushes.is_any() {
            return Ok(None);
        }
        let Some(tail) = tail_of(stage.store(), class, queue) else {
            return Ok(None);
        };
        match stage.store().content(tail) {
            Some(item) if self.goes_flushed(item.key(), ahead, stage) => Ok(Some(
                item.key().copy(self.alloc)?,
            )),
            _ => Ok(None),
        }
    }

    // Whether the key's item is known to be flushed, and no later line meets it.
    fn goes_flushed(&self, key: &Key<A>, ahead: &Foresight<A>, stage: &Stage<A>) -> bool {
        let is_met = match next_of(ahead.first_of(key)) {
            Next::Found | Next::Expired | Next::Flushed | Next::Evicted => true,
            _ => false,
        };
        !is_met && self.is_flushed(key, stage) && !self.waiting.has(key)
    }

    // An item of the class that is known to be flushed, and that no later line finds, unless a page comes.
    pub(super) fn flushed(
        &self,
        class: usize,
        own: &Key<A>,
        ahead: &Foresight<A>,
        stage: &Stage<A>,
    ) -> Result<Option<Key<A>>, LeadFault> {
        if !self.flushes.is_any() || has_page_to_come(stage.store(), class) {
            return Ok(None);
        }
        let found = self
            .wanted(class, own, ahead, stage)
            .flushed(&self.flushes, self.alloc)?;
        Ok(found)
    }
}
