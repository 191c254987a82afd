//! Who pushed a key out, counted and told, beside the replay: it takes the events of a log and the store behind them.
//!
//! [`counted::Classes`] counts of each slab class what was stored into it, how long what it evicted had lived, and its
//! pages. What that was while a key was held is [`pushed::PushedBy`]. It is told as text ([`pushed_text`]) and as JSON
//! ([`pushed_lines`]), which are put piece by piece ([`pieces`], [`parts`]), with moments by the Unix clock ([`times`]).
//! The counts are bounded, and do not grow with the log.
#![tactic(auto)]

mod ages;
pub mod counted;
pub mod parts;
pub mod pieces;
pub mod pushed;
pub mod pushed_lines;
pub mod pushed_text;
mod pushes;
pub mod stored;
pub mod times;
