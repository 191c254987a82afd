//! What the script of each job is made of.

pub mod ask;
pub mod large;
pub mod pressure;
pub mod replay;
pub mod story;
mod traffic;
pub mod walk;
