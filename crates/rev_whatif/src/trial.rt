//! A step of a trial, and what is counted of it.
ghost use Rattle.std.specs.Prelude.{◌≡◌, ℕ, IfOk, OnOk, cond};
ghost use Rattle.rev_model.specs.State.{State};
ghost use Rattle.rev_model.specs.Sound.{Sound};
ghost use Rattle.rev_model.specs.Causes.{step_removals};
ghost use Rattle.rev_model.specs.Track.{removals};
ghost use Rattle.rev_model.specs.Events.{is_key, stored_key};
ghost use Rattle.rev_requests.specs.Plain.{plain_step};
ghost use Rattle.rev_tree.specs.Steps.{next, outcome_of};
ghost use Rattle.rev_explain.specs.Readings.{removals_by};
ghost use Rattle.rev_explain.specs.Departures.{departure, departures_in};
ghost use Rattle.rev_whatif.specs.Trials.{with_kind, with_evictions, evicted, with_step, is_left_out, next_tried, with_tried};

use crate::setting::{Setting, SettingFault};
use rev_figures::{StepKind, has_stored, is_eviction, kind_of};
use rev_inverse::{Change, Record, Store};
use rev_items::Key;
use rev_model::{Cause, Outcome};
use rev_requests::{ClientStep, KeyCommand, Step};
use rev_steps::apply;
use std::alloc::{AllocError, Allocator};

/// What the steps of a trial did. A look-up is a get or a touch. A count stops at 2^64 - 1.
#[derive(Clone, Copy, Debug, PartialEq, Eq)]
pub struct Counts {
    /// Look-ups that found their key's item.
    pub hits: usize,
    /// Look-ups that found none, or a dead one.
    pub misses: usize,
    /// Steps that stored an item.
    pub stores: usize,
    /// Keys that left since they were evicted, by a set or by the page mover.
    pub evictions: usize,
}

/// A setting, and what a trace counts with it.
#[derive(Clone, Copy)]
pub struct Trial {
    pub setting: Setting,
    /// What was counted, or why no cache has the setting.
    pub outcome: Result<Counts, SettingFault>,
}

impl Counts {
    /// What no step counts.
    pub const NONE: Counts = Counts {
        hits: 0,
        misses: 0,
        stores: 0,
        evictions: 0,
    };

    /// Counts a step of this kind that evicted so many keys.
    fn add(&mut self, kind: StepKind, evictions: usize)
        ensures { self.new ≡ with_kind kind (with_evictions evictions self.old) }
    {
        self.evictions = self.evictions.saturating_add(evictions);
        match kind {
            StepKind::Stored => self.stores = self.stores.saturating_add(1),
            StepKind::Hit => self.hits = self.hits.saturating_add(1),
            StepKind::Miss => self.misses = self.misses.saturating_add(1),
            StepKind::Other => {}
        }
    }
}

/// Whether a key that left by this cause, if it left by one, was evicted, and not stored again by the same step.
fn is_evicted<A: Allocator>(
    step: &Step<A>,
    outcome: Outcome,
    key: &Key<A>,
    cause: Option<Cause>,
) -> bool
    ensures { (node : ℕ) → evicted (departure node key.now (is_key key.now (stored_key (plain_step step.now) outcome)) cause) ≡ cond result 1 0 }
{
    match cause {
        Some(cause) => is_eviction(cause) && !has_stored(step, outcome, key),
        None => false,
    }
}

/// Whether a change of a step's record tells of a key that was evicted.
fn tells_eviction<A: Allocator>(step: &Step<A>, outcome: Outcome, undo: &Change<A>) -> bool
    ensures { (node : ℕ) → evicted (departures_in node (plain_step step.now) outcome (removals_by undo.now)) ≡ cond result 1 0 }
{
    match undo {
        Change::Enter { item, cause, .. } | Change::Revive { item, cause, .. } => {
            is_evicted(step, outcome, item.key(), *cause)
        }
        _ => false,
    }
}

/// How many keys a step evicted, by its record.
fn count_evicted<A: Allocator>(step: &Step<A>, outcome: Outcome, trace: &Record<A>) -> usize
    ensures { (node : ℕ) (after : State) → result ≡ evicted (departures_in node (plain_step step.now) outcome (removals trace.now.moves trace.now.notes after)) }
{
    let mut count = 0;
    for i in 0..trace.len() {
        if let Some(undo) = trace.change(i) {
            if tells_eviction(step, outcome, undo) {
                count += 1;
            }
        }
    }
    count
}

/// Plays a step, once more with fewer buckets where there was no memory.
///
/// Err: a growth was refused, and the store is as it was.
pub fn play<A: Allocator + Clone>(
    store: &mut Store<A>,
    step: &Step<A>,
) -> Result<(Outcome, Record<A>), AllocError>
    requires { Sound store.old }
    ensures state { OnOk result (store.new ≡ next store.old (plain_step step.now)) }
    ensures outcome { IfOk result (λ p. p.0 ≡ outcome_of store.old (plain_step step.now)) }
    ensures sound { Sound store.new }
    ensures told { IfOk result (λ p. removals p.1.moves p.1.notes store.new ≡ step_removals store.old (plain_step step.now)) }
{
    match apply(store, step) {
        Ok(played) => Ok(played),
        Err(refused) => {
            if !store.narrow() {
                return Err(refused);
            }
            apply(store, step)
        }
    }
}

/// Plays a step, and counts what it did.
///
/// Err: a growth was refused.
fn count_step<A: Allocator + Clone>(
    store: &mut Store<A>,
    counts: &mut Counts,
    step: &Step<A>,
) -> Result<(), AllocError>
    requires sound { Sound store.old }
    ensures state { OnOk result (store.new ≡ next store.old (plain_step step.now)) }
    ensures sound { Sound store.new }
    ensures counts { OnOk result (counts.new ≡ with_step store.old (plain_step step.now) counts.old) }
{
    let (outcome, record) = play(store, step)?;
    counts.add(
        kind_of(step, outcome),
        count_evicted(step, outcome, &record),
    );
    Ok(())
}

/// Whether a trial leaves the step out: by `~evict` a log says what made way in the cache that was recorded.
fn is_left_out<A: Allocator>(step: &Step<A>) -> bool
    ensures { result ≡ is_left_out (plain_step step.now) }
{
    match step {
        Step::Client(client) => match client {
            ClientStep::Keyed { command, .. } => match command {
                KeyCommand::Evict => true,
                KeyCommand::Get
                | KeyCommand::Delete
                | KeyCommand::Touch(_)
                | KeyCommand::Count(_) => false,
            },
            ClientStep::Store { .. } | ClientStep::Join { .. } | ClientStep::FlushAll { .. } =>
                false,
        },
        Step::Actor(_) | Step::Tune(_) => false,
    }
}

/// Plays a step, and counts what it did, if it is not left out.
///
/// Err: a growth was refused.
pub fn try_step<A: Allocator + Clone>(
    store: &mut Store<A>,
    counts: &mut Counts,
    step: &Step<A>,
) -> Result<(), AllocError>
    requires sound { Sound store.old }
    ensures state { OnOk result (store.new ≡ next_tried store.old (plain_step step.now)) }
    ensures sound { Sound store.new }
    ensures counts { OnOk result (counts.new ≡ with_tried store.old (plain_step step.now) counts.old) }
{
    if is_left_out(step) {
        return Ok(());
    }
    count_step(store, counts, step)?;
    Ok(())
}
