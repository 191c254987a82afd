//! Whether a replay agrees with an event of its log.
ghost use Rattle.std.specs.Prelude.{◌≡◌, true, None};
ghost use Rattle.rev_lead.specs.Acts.{state_of_stage};
ghost use Rattle.rev_lead.specs.Agrees.{holding_of, is_alive, is_in_class, is_found, is_stored_as};
ghost use Rattle.rev_lead.specs.declared.agreeing.Agreement.{Agreement as AgreementOf};

use crate::holding::{holding_of, is_alive};
use crate::stage::Stage;
use rev_items::Key;
use rev_model::Outcome;
use rev_watch::event::StoreOutcome;
use std::alloc::Allocator;

/// Why the replay does not agree with an event.
#[derive(Clone, Copy, Debug, PartialEq, Eq)]
pub enum Disagreement {
    /// The class table has another class for an item of this size, or none.
    OtherClass,
    /// The rules refuse the page move.
    RefusedMove,
    /// No chunk was found for an item.
    NoChunk,
    /// The log and the replay answer differently.
    OtherAnswer,
    /// The store evicted a key that the log does not evict there, or one that the log evicts is still held behind it.
    OtherEviction,
}

/// Whether the replay agrees with an event.
#[derive(Clone, Copy, Debug, PartialEq, Eq)]
pub enum Agreement {
    Agrees,
    Disagrees(Disagreement),
}

/// Agreement where this holds, and else this disagreement.
pub fn agrees_if(holds: bool, or: Disagreement) -> Agreement
    ensures { result ≡ AgreementOf.Agrees → holds ≡ true }
{
    if holds {
        Agreement::Agrees
    } else {
        Agreement::Disagrees(or)
    }
}

/// Whether the key's item is held in this class.
pub fn is_in_class<A: Allocator + Copy>(stage: &Stage<A>, key: &Key<A>, class: usize) -> bool
    ensures { result ≡ is_in_class (state_of_stage stage.now) key.now class }
{
    match holding_of(stage.store(), key) {
        Some(held) => held.class == class,
        None => false,
    }
}

/// Whether a look-up finds the key.
pub fn is_held_alive<A: Allocator + Copy>(stage: &Stage<A>, key: &Key<A>) -> bool
    ensures { result ≡ is_alive (state_of_stage stage.now) key.now }
{
    is_alive(stage.store(), key)
}

/// Whether a look-up finds the key in this class.
pub fn is_found<A: Allocator + Copy>(stage: &Stage<A>, key: &Key<A>, class: usize) -> bool
    ensures { result ≡ is_found (state_of_stage stage.now) key.now class }
{
    is_held_alive(stage, key) && is_in_class(stage, key, class)
}

/// Whether nothing is held of the key.
pub fn is_gone<A: Allocator + Copy>(stage: &Stage<A>, key: &Key<A>) -> bool
    ensures { result ≡ true → holding_of (state_of_stage stage.now) key.now ≡ None }
{
    match holding_of(stage.store(), key) {
        Some(_) => false,
        None => true,
    }
}

/// Whether no page is on its way.
pub fn has_no_mover<A: Allocator + Copy>(stage: &Stage<A>) -> bool
    ensures { result ≡ true → (state_of_stage stage.now).globals.mover ≡ None }
{
    match stage.store().globals().mover {
        Some(_) => false,
        None => true,
    }
}

/// Whether a storage command was answered as the log says, and the item is held in its class where it was stored.
pub fn is_stored_as<A: Allocator + Copy>(
    stage: &Stage<A>,
    key: &Key<A>,
    class: usize,
    logged: StoreOutcome,
    outcome: Outcome,
) -> bool
    ensures { result ≡ is_stored_as (state_of_stage stage.now) key.now class logged outcome }
{
    match logged {
        StoreOutcome::Stored => outcome == Outcome::Stored && is_in_class(stage, key, class),
        _ => outcome == Outcome::NotStored,
    }
}
