//! The store: every change is a few moves, each move is undone by another, and a record of changes turns the store
//! back.
#![tactic(auto)]

mod changes;
mod entering;
mod marks;
mod moves;
mod opening;
mod pages;
mod parts;
mod reading;
mod record;
mod reference;
mod shift;
mod store;
mod turning;
mod uncounted;

pub use changes::Change;
pub use parts::{Parts, Shelf, Unshelved};
pub use record::{Record, place_of};
pub use reference::RecordRef;
pub use store::Store;
