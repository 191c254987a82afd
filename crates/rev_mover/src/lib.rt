//! The page mover: a page goes from a slab class to another, or to the pool, one slot a step (protocol.txt, `slabs
//! reassign`).
#![tactic(auto)]

mod advancing;
mod clearing;
mod finishing;
mod scheduling;

pub use advancing::advance;
pub use scheduling::schedule;
