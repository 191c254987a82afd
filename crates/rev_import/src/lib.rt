//! A trace of a real cache, made into a script: the lines that an import writes.
#![tactic(auto)]

pub mod figures;
mod guess;
pub mod import;
pub mod requests;
pub mod sample;
mod scribe;
pub mod setup;
pub mod writing;
