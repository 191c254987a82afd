//! The step by which a test stores an item.
use rev_items::Key;
use rev_steps::{ClientStep, Payload, Step, StoreVerb};
use std::alloc::Allocator;

/// A step that stores the data under the key, with no flags and for ever.
pub fn store_of<A: Allocator>(verb: StoreVerb, key: Key<A>, data: Payload<A>) -> Step<A> {
    Step::Client(ClientStep::Store {
        verb,
        key,
        flags: 0,
        exptime: 0,
        data,
    })
}
