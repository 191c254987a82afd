//! The undo tree of a session: a store, and every step that was played on it, kept as runs of nodes and forks.
//! The store stands at the current node; going to another node turns the records in between, and no node holds a copy.
#![tactic(auto)]

pub mod session;

pub use session::{
    AtRoot, MAX_NODES, NoChild, NoNode, NodeId, PlayFault, Played, PruneFault, Session,
};
