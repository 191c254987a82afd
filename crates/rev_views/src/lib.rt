//! What is told of a session where it stands: of its store, its tree, its keys and its bookmarks.
#![tactic(auto)]

pub mod bookmarks;
pub mod classes;
pub mod reasons;
pub mod show;
pub mod tree;
pub mod views;
