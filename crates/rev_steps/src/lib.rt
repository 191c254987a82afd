//! Steps: what a script plays on a store, one at a time, each with a record that leads back.
#![tactic(auto)]

ghost use Rattle.std.specs.Prelude.{◌≡◌, ◌≤◌, length, IfOk, OnOk, OnErr};
ghost use Rattle.rev_model.specs.Actor.{step as step_of};
ghost use Rattle.rev_model.specs.Causes.{step_removals};
ghost use Rattle.rev_model.specs.Sound.{Sound};
ghost use Rattle.rev_model.specs.Move.{LeadsBack};
ghost use Rattle.rev_inverse.specs.Telling.{TellsAll};
ghost use Rattle.rev_steps.specs.Plain.{plain_actor, plain_step};

mod clocks;
mod globals;
mod settings;

use clocks::set_clock;
use rev_commands::client;
use rev_crawler::{crawl, start};
use rev_inverse::{Record, Store};
use rev_maintainer::{bump, pull};
use rev_model::Outcome;
use rev_mover::{advance, schedule};
pub use rev_requests::{
    ActorStep, Arithmetic, BadTune, ClientStep, JoinSide, KeyCommand, Payload, Step, StoreVerb,
    Tune,
};
use settings::{retune, set_temp_ttl};
use std::alloc::{AllocError, Allocator};

/// Does a step: it gives the outcome, and the record of at most 64 moves by which `Store::turn` leads back. The record
/// has room for every move that the step might have made: who keeps it moves it to others (`rev_undotree` does).
///
/// Err: a growth was refused, and the store is as it was.
pub fn apply<A: Allocator + Clone>(
    store: &mut Store<A>,
    step: &Step<A>,
) -> Result<(Outcome, Record<A>), AllocError>
    requires { Sound store.old }
    ensures step { IfOk result (λ p. (store.new, p.0) ≡ step_of store.old (plain_step step.now)) }
    ensures sound { OnOk result (Sound store.new) }
    ensures leads { IfOk result (λ p. LeadsBack p.1.moves store.new store.old) }
    ensures few { IfOk result (λ p. length p.1.moves ≤ 64) }
    ensures err { OnErr result (store.new ≡ store.old) }
    ensures told { IfOk result (λ p. TellsAll p.1 store.new (step_removals store.old (plain_step step.now))) }
{
    store.widen();
    match step {
        Step::Client(step) => client(store, step),
        Step::Actor(step) => act(store, *step),
        Step::Tune(tune) => retune(store, *tune),
    }
}

/// Does a step of an actor, of the clock or of TEMP's bound.
fn act<A: Allocator + Clone>(
    store: &mut Store<A>,
    step: ActorStep,
) -> Result<(Outcome, Record<A>), AllocError>
    requires { Sound store.old }
    ensures step { IfOk result (λ p. (store.new, p.0) ≡ step_of store.old (plain_actor step)) }
    ensures sound { OnOk result (Sound store.new) }
    ensures leads { IfOk result (λ p. LeadsBack p.1.moves store.new store.old) }
    ensures few { IfOk result (λ p. length p.1.moves ≤ 64) }
    ensures err { OnErr result (store.new ≡ store.old) }
    ensures told { IfOk result (λ p. TellsAll p.1 store.new (step_removals store.old (plain_actor step))) }
{
    match step {
        ActorStep::Pull { class, queue } => pull(store, class as usize, queue),
        ActorStep::Bump => bump(store),
        ActorStep::StartCrawl(classes) => start(store, classes),
        ActorStep::Crawl { class, queue } => crawl(store, class as usize, queue),
        ActorStep::Reassign { source, target } => {
            schedule(store, source as usize, target as usize)
        }
        ActorStep::Advance => advance(store),
        ActorStep::Clock(now) => set_clock(store, now),
        ActorStep::TempTtl(ttl) => set_temp_ttl(store, ttl),
    }
}
