//! The texts of answers: of outcomes and values, of what a store shows, of steps by their words, and of `:help`.
#![tactic(auto)]

pub mod help;
pub mod text;
pub mod words;
