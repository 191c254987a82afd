//! The items of chunks and the chunk of each key: hash chains that run through the slots of pages. After `open` only
//! `slots` takes memory, and `widen` where the chains are long, which `narrow` gives back.
#![tactic(auto)]

mod chains;
mod growth;
mod index;
mod item_table;
mod making;
mod parts;
mod seek;
mod sizing;

pub use index::Index;
pub use making::slots;
pub use parts::Slots;
