//! Whether the rules cover what a server's log shows of its items.
ghost use Rattle.std.specs.Prelude.{◌≡◌, None, Some, OnOk, IfErr};
ghost use Rattle.rev_replay.specs.Coverage as rule;

use crate::fault::ReplayFault;
use rev_items::{Key, footprint};
use rev_lead::{Agreement, Disagreement};
use rev_watch::event::{Event, StoreOutcome};
use std::alloc::Allocator;

/// How many stores are looked at for the class of their items (this project's own figure).
pub const FIRST_STORES: u32 = 100;

/// Whether logs are replayed that show items which the rules do not cover.
#[derive(Clone, Copy, Debug, PartialEq, Eq)]
pub enum Coverage {
    /// No: nothing more is played once a log shows such an item. One above so many bytes lies in several chunks.
    Checked { chunk_max: u32 },
    /// Yes.
    Anyway,
}

/// An item that an event stored: so many bytes of data, in this class by the log.
#[derive(Clone, Copy)]
struct StoredItem {
    size: u32,
    class: u32,
}

// Whether an item of this key and so many bytes of data lies in several chunks.
fn is_chunked<A: Allocator>(key: &Key<A>, size: u32, chunk_max: u32) -> bool
    ensures { result ≡ rule.is_chunked key.now size chunk_max }
{
    footprint(key, 0, u64::from(size)) > u64::from(chunk_max)
}

// Whether the replay has another class for an item.
fn has_other_class(agreement: Agreement) -> bool
    ensures { result ≡ rule.has_other_class agreement }
{
    match agreement {
        Agreement::Agrees => false,
        Agreement::Disagrees(kind) => match kind {
            Disagreement::OtherClass => true,
            _ => false,
        },
    }
}

// Sees whether the rules cover an item.
fn see_item<A: Allocator>(
    key: &Key<A>,
    item: StoredItem,
    chunk_max: u32,
    stores: u32,
    agreement: Agreement,
) -> Result<(), ReplayFault>
    ensures ok { OnOk result (rule.of_item chunk_max stores agreement key.now item.size item.class ≡ None) }
    ensures err { IfErr result (λ fault. rule.of_item chunk_max stores agreement key.now item.size item.class ≡ Some fault) }
{
    if is_chunked(key, item.size, chunk_max) {
        return Err(ReplayFault::Chunked { most: chunk_max });
    }
    if stores < FIRST_STORES && has_other_class(agreement) {
        return Err(ReplayFault::OtherClass {
            size: item.size,
            class: item.class,
        });
    }
    Ok(())
}

// Sees whether the rules cover the item of a storage command that ended so.
fn see_store<A: Allocator>(
    outcome: StoreOutcome,
    key: &Key<A>,
    item: StoredItem,
    chunk_max: u32,
    stores: u32,
    agreement: Agreement,
) -> Result<(), ReplayFault>
    ensures ok { OnOk result (rule.of_store chunk_max stores agreement outcome key.now item.size item.class ≡ None) }
    ensures err { IfErr result (λ fault. rule.of_store chunk_max stores agreement outcome key.now item.size item.class ≡ Some fault) }
{
    match outcome {
        StoreOutcome::Stored => see_item(key, item, chunk_max, stores, agreement),
        _ => Ok(()),
    }
}

// Sees whether the rules cover the item that an event stored.
fn see_event<A: Allocator>(
    event: &Event<A>,
    chunk_max: u32,
    stores: u32,
    agreement: Agreement,
) -> Result<(), ReplayFault>
    ensures ok { OnOk result (rule.of_event chunk_max stores agreement event.now ≡ None) }
    ensures err { IfErr result (λ fault. rule.of_event chunk_max stores agreement event.now ≡ Some fault) }
{
    match event {
        Event::Store {
            key,
            outcome,
            class,
            size,
            ..
        } => {
            let item = StoredItem {
                size: *size,
                class: *class,
            };
            see_store(*outcome, key, item, chunk_max, stores, agreement)
        }
        _ => Ok(()),
    }
}

impl Coverage {
    /// Sees whether the rules cover the item that an event stored, behind so many other stores, where the replay agrees
    /// with the event so.
    ///
    /// Err: they do not.
    pub fn see<A: Allocator>(
        self,
        event: &Event<A>,
        stores: u32,
        agreement: Agreement,
    ) -> Result<(), ReplayFault>
        ensures ok { OnOk result (rule.uncovered self stores agreement event.now ≡ None) }
        ensures err { IfErr result (λ fault. rule.uncovered self stores agreement event.now ≡ Some fault) }
    {
        match self {
            Coverage::Checked { chunk_max } => see_event(event, chunk_max, stores, agreement),
            Coverage::Anyway => Ok(()),
        }
    }
}
