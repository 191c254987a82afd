//! The lives of a key of a real cache, and the keys that left, as plain values: what becomes of a life ([`life`]), what
//! is told of a key that left ([`leaving`]), which of those are asked for ([`filter`]), and how each is told, as text
//! ([`text`]) and as JSON ([`lines`]).
//!
//! Beside them stands what is read off a session for that: whether it holds a key alive ([`alive`]), and from which
//! slab class a key left ([`class`]).
#![tactic(auto)]

pub mod alive;
pub mod class;
pub mod filter;
pub mod leaving;
pub mod life;
pub mod lines;
pub mod text;
