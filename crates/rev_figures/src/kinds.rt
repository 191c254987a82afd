//! What a step is counted as.
ghost use Rattle.std.specs.Prelude.{◌≡◌};
ghost use Rattle.std.specs.Option.{option_copied};
ghost use Rattle.rev_requests.specs.Plain.{plain_step};
ghost use Rattle.rev_figures.specs.Kinds.{command_key, is_look_up, has_found, kind_of, look_up_kind};

use crate::path::StepKind;
use rev_items::Key;
use rev_model::Outcome;
use rev_requests::{ClientStep, KeyCommand, Step};
use std::alloc::Allocator;

/// The key of a client's command; none of `~evict`, which no client asks for.
pub fn command_key<A: Allocator>(step: &Step<A>) -> Option<&Key<A>>
    ensures { option_copied result ≡ command_key (plain_step step.now) }
{
    match step {
        Step::Client(client) => match client {
            ClientStep::Store { key, .. } | ClientStep::Join { key, .. } => Some(key),
            ClientStep::Keyed { command, key } => match command {
                KeyCommand::Get
                | KeyCommand::Delete
                | KeyCommand::Touch(_)
                | KeyCommand::Count(_) => Some(key),
                KeyCommand::Evict => None,
            },
            ClientStep::FlushAll { .. } => None,
        },
        Step::Actor(_) | Step::Tune(_) => None,
    }
}

/// Whether the step is a get or a touch.
fn is_look_up<A: Allocator>(step: &Step<A>) -> bool
    ensures { result ≡ is_look_up (plain_step step.now) }
{
    match step {
        Step::Client(client) => match client {
            ClientStep::Keyed { command, .. } => match command {
                KeyCommand::Get | KeyCommand::Touch(_) => true,
                KeyCommand::Delete | KeyCommand::Evict | KeyCommand::Count(_) => false,
            },
            ClientStep::Store { .. } | ClientStep::Join { .. } | ClientStep::FlushAll { .. } =>
                false,
        },
        Step::Actor(_) | Step::Tune(_) => false,
    }
}

/// Whether a look-up that answered this found its key's item.
fn has_found(outcome: Outcome) -> bool
    ensures { result ≡ has_found outcome }
{
    match outcome {
        Outcome::Hit { .. } | Outcome::Touched => true,
        _ => false,
    }
}

/// What a step that stored nothing is counted as.
fn look_up_kind<A: Allocator>(step: &Step<A>, outcome: Outcome) -> StepKind
    ensures { result ≡ look_up_kind (plain_step step.now) outcome }
{
    if !is_look_up(step) {
        StepKind::Other
    } else if has_found(outcome) {
        StepKind::Hit
    } else {
        StepKind::Miss
    }
}

/// What a step that answered this is counted as.
pub fn kind_of<A: Allocator>(step: &Step<A>, outcome: Outcome) -> StepKind
    ensures { result ≡ kind_of (plain_step step.now) outcome }
{
    match step.stored_key(outcome) {
        Some(_) => StepKind::Stored,
        None => look_up_kind(step, outcome),
    }
}
