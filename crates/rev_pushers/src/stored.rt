//! The store that a life of a key began with.

use rev_watch::event::Timestamp;

/// The store that a life began with.
#[derive(Clone, Copy)]
pub struct Stored {
    pub time: Timestamp,
    pub step: u64,
    pub class: usize,
    pub connection: Option<i32>,
    /// Whether the log shows the store. Else the key was held before, and this is when the log first showed it.
    pub logged: bool,
}
