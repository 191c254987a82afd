//! From logs to a script: the lines of `watch` logs in, and the script's bytes out, with what was counted, and the
//! words for a run of it. And from traces to a script, in the same way.
#![tactic(auto)]

pub mod counts;
pub mod fault;
pub mod feed;
pub mod intake;
pub mod logs;
pub mod outlet;
pub mod report;
pub mod row_counts;
pub mod row_report;
pub mod rows;
mod sending;
pub mod told;
pub mod traces;
pub mod words;
