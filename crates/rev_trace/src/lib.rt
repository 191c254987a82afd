//! Traces of caches, as they are published: rows of columns, each a request of a client.
#![tactic(auto)]

pub mod fault;
pub mod reader;
pub mod row;
