//! The log leads a replay: each event of a server's log is played on a session, with what has to stand in front of it
//! so that the session agrees with the log.
//!
//! [`Driver::take`] plays an event. By the rules alone a replay drifts from its server, since a log does not show each
//! delete, touch and flush: then the driver puts adjustments in front, steps like any other, each with its [`Role`].
#![tactic(auto)]

mod agreeing;
mod candidates;
mod driver;
mod fill;
mod flushes;
mod holding;
mod others;
mod role;
mod stage;
mod steps;
mod tally;
mod waiting;
mod wanting;

pub use agreeing::{Agreement, Disagreement};
pub use driver::Driver;
pub use role::Role;
pub use stage::{LeadFault, Stage, Viewer};
pub use tally::Tally;
