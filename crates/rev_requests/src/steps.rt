//! Any step.
ghost use Rattle.std.specs.Prelude.{◌≡◌, ◌↔◌, IsTrue, IfOk};
ghost use Rattle.std.specs.Option.{option_copied};
ghost use Rattle.rev_model.specs.Events.{key_to_store, stored_key};
ghost use Rattle.rev_requests.specs.Plain.{plain_step};

use crate::actors::ActorStep;
use crate::clients::{ClientStep, KeyCommand};
use crate::tuning::Tune;
use rev_items::Key;
use rev_model::Outcome;
use std::alloc::{AllocError, Allocator};

/// The key under which a step may store an item: that of `set`, `add`, `replace`, `cas`, `append`, `prepend`, `incr`
/// and `decr`.
#[inline(always)]
fn key_to_store<A: Allocator>(step: &Step<A>) -> Option<&Key<A>>
    ensures { option_copied result ≡ key_to_store (plain_step step.now) }
{
    match step {
        Step::Client(client) => match client {
            ClientStep::Store { key, .. } | ClientStep::Join { key, .. } => Some(key),
            ClientStep::Keyed { command, key } => match command {
                KeyCommand::Count(_) => Some(key),
                KeyCommand::Get | KeyCommand::Delete | KeyCommand::Evict | KeyCommand::Touch(_) =>
                    None,
            },
            ClientStep::FlushAll { .. } => None,
        },
        Step::Actor(_) | Step::Tune(_) => None,
    }
}

/// A step.
#[derive(Drop)]
pub enum Step<A: Allocator> {
    /// A command of a client.
    Client(ClientStep<A>),
    /// A step of the maintainer, the crawler, the page mover or the clock, or TEMP's bound.
    Actor(ActorStep),
    /// Shares and age factors (protocol.txt, `lru tune`).
    Tune(Tune),
}

impl<A: Allocator> Step<A> {
    /// An equal step.
    ///
    /// Err: a growth was refused.
    pub fn copy<B: Allocator + Clone>(&self, alloc: B) -> Result<Step<B>, AllocError>
        ensures { IfOk result (λ copy. plain_step copy ≡ plain_step self.now) }
    {
        match self {
            Step::Client(step) => Ok(Step::Client(step.copy(alloc)?)),
            Step::Actor(step) => Ok(Step::Actor(*step)),
            Step::Tune(tune) => Ok(Step::Tune(*tune)),
        }
    }

    /// The key under which the step stored an item, where it answered `outcome`.
    #[inline(always)]
    pub fn stored_key(&self, outcome: Outcome) -> Option<&Key<A>>
        ensures { option_copied result ≡ stored_key (plain_step self.now) outcome }
    {
        match outcome {
            Outcome::Stored | Outcome::Number(_) => key_to_store(self),
            _ => None,
        }
    }

    /// Whether the two are equal.
    pub fn is_same<B: Allocator>(&self, other: &Step<B>) -> bool
        ensures { IsTrue result ↔ (plain_step self.now ≡ plain_step other.now) }
    {
        match (self, other) {
            (Step::Client(step), Step::Client(other)) => step.is_same(other),
            (Step::Actor(step), Step::Actor(other)) => step.is_same(*other),
            (Step::Tune(tune), Step::Tune(other)) => tune.is_same(*other),
            _ => false,
        }
    }
}
