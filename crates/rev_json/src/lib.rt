//! Answers as JSON: one object for each line of a script.
#![tactic(auto)]

mod command;
mod culprit;
mod fields;
mod forms;
mod object;
mod row;
pub mod run;
mod words;
