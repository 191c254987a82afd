//! `lrudb record` once its files are open: scripts played at once by several players on one session, with the rows that
//! tell how it went.
#![tactic(auto)]

mod fault;
pub mod play;
mod rows;
mod steps;

pub use fault::RecordingFault;
