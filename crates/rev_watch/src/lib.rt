//! What a running memcached tells of itself, read as data: the lines of its `watch` log, in the order in which they
//! were made, and the texts of `stats settings` and `stats`.
//!
//! [`parse::parse`] reads one line of a log, and [`key::key_of`] a key as it is spelled there. [`reader::LogReader`]
//! gives the lines of a source one after another, and [`window::Window`] brings them into the order of their numbers.
//! [`settings`] reads what the server was configured with and what its log left out, and [`obstacles`] tells which of
//! that can't be followed.
#![tactic(auto)]

pub mod event;
pub mod fault;
mod fields;
mod held;
pub mod key;
mod kind;
mod number;
pub mod obstacles;
pub mod parse;
pub mod reader;
pub mod settings;
mod strays;
mod text;
mod usual;
pub mod window;
mod words;
