//! Steps of a script that are played on a session, with an answer or without one.
#![tactic(auto)]

pub mod begin;
pub mod play;
pub mod quiet;
pub mod start;
pub mod trace;
