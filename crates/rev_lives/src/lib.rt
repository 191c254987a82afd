//! What became of the keys of a real cache: of each key that is asked for its lives, and of all keys those that left.
//! A log leads the replay (`rev_lead`), and what is told of a key is read off the steps that it played, each with its
//! role: so it is known of each loss whether the log says it, whether the replay follows it, or whether it is inferred
//! (`rev_evidence`).
//!
//! [`tell::tell_lives`] and [`tell::tell_gone`] read logs in one pass. Memory is taken for the cache, for the events
//! that wait and for the keys that are asked for, and does not grow with the log. Who pushed a key out is told from
//! counts of each slab class (`rev_pushers`), which are bounded too.
#![tactic(auto)]

mod asked;
mod follow;
mod gone;
mod hashes;
pub mod leaving;
mod lives;
pub mod tell;

pub use asked::asked_key;
pub use gone::Gone;
pub use lives::Lives;
pub use rev_life::filter::Filter;
