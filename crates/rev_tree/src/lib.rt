//! The tree of all attempts as data: runs of nodes and the forks that leave them, positions and the moves between them,
//! the index of where each node stands, and the log of which nodes mention a hash.
#![tactic(auto)]

mod branch;
mod hint;
mod index;
mod junction;
mod links;
mod mention;
mod mentions;
pub mod naming;
pub mod position;
mod records;
mod run;

pub use branch::Branch;
pub use index::Index;
pub use junction::Junction;
pub use mentions::Mentions;
pub use run::Node;
