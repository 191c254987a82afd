//! What happened to a key on the way from the root to the current node, and why it is gone.
#![tactic(auto)]

mod clocks;
pub mod events;
mod explain;
mod leaving;
mod readings;

pub use clocks::{clock_at, node_by_time};
pub use explain::{story, why};
pub use leaving::departures;
