//! The queues of all slab classes: lists that run through the slots of pages, each queue with a place of its own for a
//! crawler's mark, and with its bytes, its length and whether it is marked kept beside it.
#![tactic(auto)]

mod links;
mod making;
mod members;
mod parts;
mod queues;

pub use making::slots;
pub use parts::Slots;
pub use queues::Queues;
