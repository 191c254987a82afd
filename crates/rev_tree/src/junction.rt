//! A place where a way leaves a run.

/// How much of a run a way takes, and by which fork it leaves.
#[derive(Clone, Copy, Default, PartialEq, Eq, Drop)]
pub struct Junction {
    pub taken: usize,
    pub fork: usize,
}
