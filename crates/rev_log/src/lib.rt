//! What stands between a server's log and whatever follows it: its lines in the order of their numbers, the starts of
//! the server that it shows, and the events that are still to come.
//!
//! [`order::Order`] gives the lines in order and tells where the server was started anew. [`foresight::Foresight`]
//! holds the events that wait, and finds the next one that names a key. [`seconds::Seconds`] knows the server's own
//! second of a line.
#![tactic(auto)]

pub mod coming;
mod connections;
mod events;
pub mod foresight;
pub mod held_key;
mod keys;
pub mod order;
mod rows;
pub mod seconds;
mod spans;
