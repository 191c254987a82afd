//! Logs in, and a stage that they lead: each event of a server's logs is played once it is known what comes behind it,
//! and who listens hears of it, with the steps that were played.
//!
//! [`run::replay_logs`] reads logs in one pass. Memory is taken for the cache and for the events that wait, and does
//! not grow with the log.
#![tactic(auto)]

pub mod counts;
pub mod coverage;
mod ends;
pub mod fault;
pub mod grown;
pub mod heard;
pub mod keeping;
mod logs;
mod moments;
pub mod notes;
pub mod parts;
pub mod run;
pub mod sampling;
pub mod seeking;
