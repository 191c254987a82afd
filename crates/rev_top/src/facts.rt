//! What an event says of a key.
ghost use Rattle.std.specs.Prelude.{◌≡◌};
ghost use Rattle.rev_top.specs.Facts as rule;

use rev_watch::event::{Event, LookUpOutcome, StoreOutcome};
use std::alloc::Allocator;

/// What an event says of a key.
#[derive(Clone, Copy)]
pub enum Fact {
    /// An item of so many bytes of data was stored.
    Stored(u32),
    /// A client's look-up found it.
    Hit,
    /// A client's look-up found nothing that was alive.
    Missed,
    Evicted,
    /// It was missed for the first time since it was evicted.
    AskedAgain,
}

// What a look-up says that ended so. That of a storage command is not the client's.
fn looked_up(outcome: LookUpOutcome, own: bool) -> Option<Fact>
    ensures { result ≡ rule.looked_up outcome own }
{
    if own {
        return None;
    }
    match outcome {
        LookUpOutcome::Found => Some(Fact::Hit),
        LookUpOutcome::NotFound | LookUpOutcome::Expired | LookUpOutcome::Flushed => {
            Some(Fact::Missed)
        }
        LookUpOutcome::Other => None,
    }
}

// What a storage command says that ended so.
fn stored(outcome: StoreOutcome, size: u32) -> Option<Fact>
    ensures { result ≡ rule.stored outcome size }
{
    match outcome {
        StoreOutcome::Stored => Some(Fact::Stored(size)),
        _ => None,
    }
}

/// What an event says of the key that it names. `own` is whether it is a look-up that a storage command or a deletion
/// made.
pub fn fact_of<A: Allocator>(event: &Event<A>, own: bool) -> Option<Fact>
    ensures { result ≡ rule.fact_of event.now own }
{
    match event {
        Event::LookUp { outcome, .. } => looked_up(*outcome, own),
        Event::Store { outcome, size, .. } => stored(*outcome, *size),
        Event::Eviction { .. } => Some(Fact::Evicted),
        _ => None,
    }
}

/// The slab class that an event says, 0 where it says none: a look-up that finds nothing does not.
pub fn class_of<A: Allocator>(event: &Event<A>) -> u32
    ensures { result ≡ rule.class_of event.now }
{
    match event {
        Event::LookUp { class, .. } => *class,
        Event::Store { class, .. } => *class,
        Event::Eviction { class, .. } => *class,
        _ => 0,
    }
}
