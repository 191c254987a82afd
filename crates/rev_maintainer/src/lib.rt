//! The maintainer: pulls of the segmented LRU, bumps, and room for a new item (new_lru.txt).
#![tactic(auto)]

mod bumping;
pub mod pulls;
mod reads;
pub mod room;
mod stepping;

pub use bumping::bump;
pub use stepping::pull;
