//! What an event tells of keys and connections.
ghost use Rattle.std.specs.Prelude.{◌≡◌};
ghost use Rattle.std.specs.Option.{option_copied};
ghost use Rattle.rev_log.specs.Events.{key_of, names, connection_of_store, connection_of, is_look_up, commanded_key, move_source, time_left, leaves_old, leaves_item};

use rev_items::Key;
use rev_watch::event::{Event, StoreOutcome};
use std::alloc::Allocator;

// The key that an event looks up, stores, deletes or evicts.
pub fn key_of<A: Allocator>(event: &Event<A>) -> Option<&Key<A>>
    ensures { option_copied result ≡ key_of event.now }
{
    match event {
        Event::LookUp { key, .. } => Some(key),
        Event::Store { key, .. } => Some(key),
        Event::Deletion { key, .. } => Some(key),
        Event::Eviction { key, .. } => Some(key),
        _ => None,
    }
}

// Whether an event names this key.
pub fn names<A: Allocator>(event: &Event<A>, key: &Key<A>) -> bool
    ensures { result ≡ names key.now event.now }
{
    match key_of(event) {
        Some(named) => key.is_same(named),
        None => false,
    }
}

fn connection_of_store(outcome: StoreOutcome, connection: i32) -> Option<i32>
    ensures { result ≡ connection_of_store outcome connection }
{
    match outcome {
        StoreOutcome::TooLarge => None,
        _ => Some(connection),
    }
}

// The connection that an event is of. A store of data that were too large does not tell it.
pub fn connection_of<A: Allocator>(event: &Event<A>) -> Option<i32>
    ensures { result ≡ connection_of event.now }
{
    match event {
        Event::LookUp { connection, .. } => Some(*connection),
        Event::Store {
            outcome,
            connection,
            ..
        } => connection_of_store(*outcome, *connection),
        Event::Deletion { connection, .. } => *connection,
        Event::ConnectionOpened { connection } => Some(*connection),
        Event::ConnectionClosed { connection } => Some(*connection),
        _ => None,
    }
}

// Whether an event is a look-up.
pub fn is_look_up<A: Allocator>(event: &Event<A>) -> bool
    ensures { result ≡ is_look_up event.now }
{
    match event {
        Event::LookUp { .. } => true,
        _ => false,
    }
}

// The key of a command that makes a look-up of its own.
pub fn commanded_key<A: Allocator>(event: &Event<A>) -> Option<&Key<A>>
    ensures { option_copied result ≡ commanded_key event.now }
{
    match event {
        Event::Store { key, .. } => Some(key),
        Event::Deletion { key, .. } => Some(key),
        _ => None,
    }
}

// The class that an event moves a page from.
pub fn move_source<A: Allocator>(event: &Event<A>) -> Option<u32>
    ensures { result ≡ move_source event.now }
{
    match event {
        Event::PageMove { source, .. } => Some(*source),
        _ => None,
    }
}

// The seconds that an evicted item had left to live, where its lifetime is known.
pub fn time_left<A: Allocator>(event: &Event<A>) -> Option<u32>
    ensures { result ≡ time_left event.now }
{
    match event {
        Event::Eviction { ttl, .. } => *ttl,
        _ => None,
    }
}

// Whether a command that ended so left the old item as it was.
pub fn leaves_old(outcome: StoreOutcome) -> bool
    ensures { result ≡ leaves_old outcome }
{
    match outcome {
        StoreOutcome::Stored => false,
        _ => true,
    }
}

// Whether an event leaves the item of its key as it was, as far as the log tells.
pub fn leaves_item<A: Allocator>(event: &Event<A>) -> bool
    ensures { result ≡ leaves_item event.now }
{
    match event {
        Event::Store { outcome, .. } => leaves_old(*outcome),
        Event::Deletion { .. } => false,
        Event::Eviction { .. } => false,
        _ => true,
    }
}
