//! What a report compares a trace with, as markup: the log that it was made of, and the same trace with other settings.
#![tactic(auto)]

pub mod agreement;
mod curve;
pub mod what_if;
