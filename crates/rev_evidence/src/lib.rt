//! Why a key of a real cache left, and what tells it: the log, the replay that it leads, or what is inferred of both.
//!
//! [`verdict::verdict_of`] judges a loss by the role of its step, the cause that the rules give and what the event says
//! ([`heard`]). [`blame::blame`] finds the step that pushed the key out. [`notes::LogNotes`] keeps beside a session
//! what its log says of each node, so that the same is told of a node later on, [`departed::Departed`] which keys left
//! in front of its root, and [`sampling::Sampling`] which keys are replayed.
#![tactic(auto)]

pub mod blame;
pub mod departed;
pub mod heard;
pub mod keys;
pub mod notes;
pub mod sampling;
pub mod verdict;
