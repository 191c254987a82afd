//! What steps are made of: changes of one to five moves each, and the laws by which they keep a store sound.
#![tactic(auto)]

pub mod alter;
pub mod enter;
pub mod leave;
pub mod moving;
pub mod page;
