//! Where a cache's room goes: what a log says of stores, hits, misses and evictions, summed by prefix or by slab class.
//!
//! An event says at most one [`facts::Fact`] of a key. A [`table::Table`] counts the facts of each name ([`figures`]),
//! and [`lifetimes::Lifetimes`] how long what was evicted had lived. [`rows`] are what is told of that, as text
//! ([`text`]) or as JSON ([`lines`]). [`tell::tell_top`] reads logs in one pass. All memory is bounded, and does not
//! grow with the log: names, keys that were evicted, stores and lifetimes.
#![tactic(auto)]

mod births;
mod evicted;
pub mod facts;
pub mod figures;
mod lifetimes;
pub mod lines;
pub mod rows;
mod sample;
pub mod table;
pub mod tell;
pub mod text;
mod top;

pub use top::{Asked, By};
