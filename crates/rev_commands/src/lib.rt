//! The commands of clients (protocol.txt): lookups and hits, the storage commands, new data for an item that is there,
//! and the end of all items. `~evict` is this project's own.
#![tactic(auto)]

mod delete;
mod dispatch;
mod evict;
mod flush;
mod fresh;
mod get;
mod hit;
mod look;
mod number;
mod place;
mod plan;
mod renew;
mod rewrite;
mod steps;
mod store;
mod touch;
mod verbs;

pub use dispatch::client;
pub use flush::flush_all;
pub use rev_requests::{Arithmetic, ClientStep, JoinSide, KeyCommand, Payload, StoreVerb};
