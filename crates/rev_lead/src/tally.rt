//! What a driver counts.
ghost use Rattle.std.specs.Prelude.{◌≡◌};
ghost use Rattle.rev_lead.specs.Counts.{no_tally, raised, inferred, adjusted, disagreed, counted};

use crate::agreeing::{Agreement, Disagreement};

/// What a key is counted as that goes without a line of its own.
#[derive(Clone, Copy, Debug, PartialEq, Eq)]
pub enum Inference {
    /// A hit is taken for a delete: the key's next look-up misses.
    AtHit,
    /// In front of a look-up that misses.
    AtMiss,
    /// In front of a store for which there is no free chunk: the key was hit, and is gone later.
    Wanted,
    /// The same, of a key that no later line shows.
    Unseen,
}

/// What a step is counted as that a driver plays so that the replay agrees with an event.
#[derive(Clone, Copy, Debug, PartialEq, Eq)]
pub enum Adjustment {
    /// An eviction of the log that the rules would not have made by themselves.
    Evicted,
    /// A store by which the rules evict what the log evicts.
    ByRules,
    /// A delete that the log does not show.
    Inferred(Inference),
    /// A delete in front of a store for which there is no free chunk, of an item whose lifetime is over.
    Expired,
    /// A lifetime that the log does not show.
    Lifetime,
    /// An item that was flushed.
    Flushed,
    /// A key that the log shows and the replay lacked.
    Restored,
}

/// Counts, of all events so far. None of them wraps: each stays at the highest number.
#[derive(Clone, Copy, Debug)]
pub struct Tally {
    pub events: u64,
    /// Evictions of the log that the rules would not have made by themselves there, and those that they made.
    pub evicted: u64,
    pub evicted_by_rules: u64,
    pub deleted_at_hit: u64,
    pub deleted_at_miss: u64,
    pub wanted: u64,
    pub wanted_expired: u64,
    pub wanted_unseen: u64,
    pub lifetimes: u64,
    pub flushed: u64,
    pub restored: u64,
    pub other_class: u64,
    pub refused_moves: u64,
    pub no_chunk: u64,
    pub other_answers: u64,
    pub other_evictions: u64,
}

// Counts one more.
fn one_more(count: &mut u64)
    ensures { count.new ≡ raised count.old }
{
    *count = count.saturating_add(1);
}

impl Tally {
    /// Nothing was counted.
    pub fn none() -> Tally
        ensures { result ≡ no_tally }
    {
        Tally {
            events: 0,
            evicted: 0,
            evicted_by_rules: 0,
            deleted_at_hit: 0,
            deleted_at_miss: 0,
            wanted: 0,
            wanted_expired: 0,
            wanted_unseen: 0,
            lifetimes: 0,
            flushed: 0,
            restored: 0,
            other_class: 0,
            refused_moves: 0,
            no_chunk: 0,
            other_answers: 0,
            other_evictions: 0,
        }
    }

    // One more key that went without a line.
    fn infer(&mut self, inference: Inference)
        ensures { self.new ≡ inferred inference self.old }
    {
        match inference {
            Inference::AtHit => one_more(&mut self.deleted_at_hit),
            Inference::AtMiss => one_more(&mut self.deleted_at_miss),
            Inference::Wanted => one_more(&mut self.wanted),
            Inference::Unseen => one_more(&mut self.wanted_unseen),
        }
    }

    /// One more adjustment of this kind.
    pub(crate) fn adjust(&mut self, adjustment: Adjustment)
        ensures { self.new ≡ adjusted adjustment self.old }
    {
        match adjustment {
            Adjustment::Evicted => one_more(&mut self.evicted),
            Adjustment::ByRules => one_more(&mut self.evicted_by_rules),
            Adjustment::Inferred(inference) => self.infer(inference),
            Adjustment::Expired => one_more(&mut self.wanted_expired),
            Adjustment::Lifetime => one_more(&mut self.lifetimes),
            Adjustment::Flushed => one_more(&mut self.flushed),
            Adjustment::Restored => one_more(&mut self.restored),
        }
    }

    // One more event with which the replay does not agree.
    fn disagree(&mut self, disagreement: Disagreement)
        ensures { self.new ≡ disagreed disagreement self.old }
    {
        match disagreement {
            Disagreement::OtherClass => one_more(&mut self.other_class),
            Disagreement::RefusedMove => one_more(&mut self.refused_moves),
            Disagreement::NoChunk => one_more(&mut self.no_chunk),
            Disagreement::OtherAnswer => one_more(&mut self.other_answers),
            Disagreement::OtherEviction => one_more(&mut self.other_evictions),
        }
    }

    /// One more event, with which the replay agrees or not.
    pub(crate) fn count(&mut self, agreement: Agreement)
        ensures { self.new ≡ counted agreement self.old }
    {
        one_more(&mut self.events);
        match agreement {
            Agreement::Agrees => {}
            Agreement::Disagrees(disagreement) => self.disagree(disagreement),
        }
    }
}
