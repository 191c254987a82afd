//! The script of a replay that logs lead: the steps that were played, each as the line that asks for it.
//!
//! [`transcript::Transcript`] listens to a replay, and sends its script piece by piece. Memory is taken for a piece,
//! and does not grow with the log.
#![tactic(auto)]

pub mod path;
pub mod transcript;
