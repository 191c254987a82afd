//! A report to look at: where a cache loses its keys, as one page of markup with its style and its pictures in it, and
//! the rows that the pictures are made of as CSV.
#![tactic(auto)]

mod classes;
pub mod evidence;
pub mod figures;
mod header;
mod keys;
pub mod life;
pub mod page;
mod plot;
pub mod prefixes;
mod queues;
pub mod rows;
pub mod slots;
mod style;
mod times;
mod words;
