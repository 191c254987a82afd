//! What is read along the path from the root to the current node: a row for each step, and for each key that left.
use rev_model::Cause;
use rev_undotree::NodeId;
use std::alloc::Allocator;

/// What a step did, as far as it is counted. A look-up is a get or a touch.
#[derive(Clone, Copy)]
pub enum StepKind {
    /// It stored an item.
    Stored,
    /// A look-up that found its key's item.
    Hit,
    /// A look-up that found none, or a dead one.
    Miss,
    /// Any other step.
    Other,
}

/// A step of the path.
#[derive(Clone, Copy)]
pub struct PathStep {
    pub node: NodeId,
    /// The clock after the step, in seconds.
    pub second: u32,
    pub kind: StepKind,
    /// The class that holds the key of the step's command after the step; 0 where none does, or it has no key.
    pub class: u8,
}

/// A key that left the index at a step of the path: one of those that `departures` of rev_explain tells.
#[derive(Clone, Copy)]
pub struct Leaving {
    pub node: NodeId,
    /// Which step of the path it was, from 1.
    pub step: usize,
    /// The clock after the step, in seconds.
    pub second: u32,
    pub cause: Cause,
    /// The class that held the key before the step.
    pub class: u8,
    /// Whether the item had been hit since it was stored.
    pub fetched: bool,
    /// How many seconds before the step the item was stored or last bumped.
    pub idle: u32,
    /// How many look-ups missed the key from this step on, until a step stores it: at most 2^32 - 1.
    pub asks: u32,
    /// How many seconds after the step the first of them came, 0 where there is none.
    pub asked_after: u32,
}

/// A page that went from one class to another, or to the pool, which is class 0.
#[derive(Clone, Copy)]
pub struct PageMove {
    /// Which step of the path ended the move, from 1.
    pub step: usize,
    /// The clock after the step, in seconds.
    pub second: u32,
    pub from: u8,
    pub to: u8,
}

/// How full a class is after a step of the path.
#[derive(Clone, Copy)]
pub struct QueueBytes {
    /// Which step of the path it was, from 1.
    pub step: usize,
    pub class: usize,
    /// How many pages the class owns.
    pub pages: usize,
    /// The footprints of the items in each queue together, in bytes.
    pub hot: u64,
    pub warm: u64,
    pub cold: u64,
    pub temp: u64,
}

/// The path from the root to the current node, as far as it is counted.
#[derive(Drop)]
pub struct Path<A: Allocator> {
    /// The clock at the root, in seconds.
    pub start: u32,
    /// How many steps a slot has: at least 1, and so many that there are at most 120 slots. The last slot may have
    /// fewer.
    pub slot_length: usize,
    /// A row for each step, from the first.
    pub steps: Vec<PathStep, A>,
    /// A row for each key that left, in the order in which they left.
    pub leavings: Vec<Leaving, A>,
    /// A row for each page that moved, in that order.
    pub moves: Vec<PageMove, A>,
    /// The bytes of each class that owns a page, after each step that ends a slot: in the order of the steps, and of
    /// one step by rising class.
    pub bytes: Vec<QueueBytes, A>,
}
