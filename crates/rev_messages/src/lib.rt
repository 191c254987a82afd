//! What the user is told on the standard error: why the program ended, with its status, and how far a work has come.
#![tactic(auto)]

pub mod ends;
pub mod opened;
pub mod progress;
mod stop;
pub mod telling;

pub use stop::Stop;
