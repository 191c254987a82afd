//! The whole program but for its streams: words, a reader, a writer and a place for messages in, an exit status out.
#![tactic(auto)]

mod agreement;
mod counting;
pub mod direct;
mod json;
pub mod lives;
pub mod opening;
mod parted;
mod placed;
pub mod program;
mod replayed;
pub mod report;
pub mod ruled;
mod scripted;
mod starts;
mod stopping;
mod top;
mod trials;

pub use rev_messages::Stop;
