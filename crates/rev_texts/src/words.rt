//! The words by which a tree's lines name steps and outcomes.
ghost use Rattle.std.specs.Prelude.{◌≡◌};
ghost use Rattle.rev_requests.specs.Plain.{plain_verb, plain_client, plain_actor, plain_step};
ghost use Rattle.rev_texts.specs.Words.{verb_word, client_word, step_word, outcome_word};

use rev_model::Outcome;
use rev_requests::{ActorStep, Arithmetic, ClientStep, JoinSide, KeyCommand, Step, StoreVerb};
use std::alloc::Allocator;

fn verb_word(verb: StoreVerb) -> &'static [u8]
    ensures { result.now ≡ verb_word (plain_verb verb) }
{
    match verb {
        StoreVerb::Set => b"set",
        StoreVerb::Add => b"add",
        StoreVerb::Replace => b"replace",
        StoreVerb::Cas(_) => b"cas",
    }
}

fn client_word<A: Allocator>(step: &ClientStep<A>) -> &'static [u8]
    ensures { result.now ≡ client_word (plain_client step.now) }
{
    match step {
        ClientStep::Store { verb, .. } => verb_word(*verb),
        ClientStep::Join {
            side: JoinSide::Append,
            ..
        } => b"append",
        ClientStep::Join {
            side: JoinSide::Prepend,
            ..
        } => b"prepend",
        ClientStep::Keyed { command, .. } => match *command {
            KeyCommand::Get => b"get",
            KeyCommand::Delete => b"delete",
            KeyCommand::Evict => b"evict",
            KeyCommand::Touch(_) => b"touch",
            KeyCommand::Count(Arithmetic::Increment(_)) => b"incr",
            KeyCommand::Count(Arithmetic::Decrement(_)) => b"decr",
        },
        ClientStep::FlushAll { .. } => b"flush_all",
    }
}

fn actor_word(step: ActorStep) -> &'static [u8]
    ensures { result.now ≡ step_word (plain_actor step) }
{
    match step {
        ActorStep::Pull { .. } => b"pull",
        ActorStep::Bump => b"bump",
        ActorStep::StartCrawl(_) => b"crawl_start",
        ActorStep::Crawl { .. } => b"crawl",
        ActorStep::Reassign { .. } => b"reassign",
        ActorStep::Advance => b"move",
        ActorStep::Clock(_) => b"clock",
        ActorStep::TempTtl(_) => b"temp_ttl",
    }
}

/// The word of a step (this project's own).
pub fn step_word<A: Allocator>(step: &Step<A>) -> &'static [u8]
    ensures { result.now ≡ step_word (plain_step step.now) }
{
    match step {
        Step::Client(step) => client_word(step),
        Step::Actor(step) => actor_word(*step),
        Step::Tune(_) => b"tune",
    }
}

/// The word of an outcome, without what it carries (this project's own).
pub fn outcome_word(outcome: Outcome) -> &'static [u8]
    ensures { result.now ≡ outcome_word outcome }
{
    match outcome {
        Outcome::Stored => b"STORED",
        Outcome::NotStored => b"NOT_STORED",
        Outcome::Exists => b"EXISTS",
        Outcome::NotFound => b"NOT_FOUND",
        Outcome::Deleted => b"DELETED",
        Outcome::Touched => b"TOUCHED",
        Outcome::Okay => b"OK",
        Outcome::Hit { .. } => b"HIT",
        Outcome::Miss => b"MISS",
        Outcome::TooLarge => b"TOO_LARGE",
        Outcome::NoChunk => b"NO_CHUNK",
        Outcome::Busy => b"BUSY",
        Outcome::BadClass => b"BADCLASS",
        Outcome::NoSpare => b"NOSPARE",
        Outcome::Same => b"SAME",
        Outcome::Moved => b"MOVED",
        Outcome::Reclaimed => b"RECLAIMED",
        Outcome::Idle => b"IDLE",
        Outcome::Passed => b"PASSED",
        Outcome::Ended => b"ENDED",
        Outcome::Withdrawn => b"WITHDRAWN",
        Outcome::Rescued => b"RESCUED",
        Outcome::Evicted => b"EVICTED",
        Outcome::Finished => b"FINISHED",
        Outcome::Number(_) => b"NUMBER",
        Outcome::NotNumber => b"NOT_NUMBER",
    }
}
