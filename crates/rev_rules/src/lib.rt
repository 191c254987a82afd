//! Scripts that the rules alone lead: their steps are played one by one, and who listens hears of each, as it hears of
//! the events of a log.
//!
//! [`rules::Rules::take_script`] plays a script of any length. No tree is kept, so memory is taken for the cache alone.
#![tactic(auto)]

pub mod events;
pub mod fault;
pub mod grown;
pub mod parts;
pub mod quiet;
pub mod rules;
