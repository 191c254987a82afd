//! A long path with forks on its way, and then jumps through the tree.

use crate::draft::Draft;
use crate::jobs::traffic::Traffic;
use std::alloc::{AllocError, Global};

/// A fork leaves the path once in so many plays.
const FORK: u64 = 50;

/// There are about so many bookmarks, and a visit is to one of those about the nearest.
const MARKS: u64 = 64;

const NEAR_MARKS: u64 = 8;

/// A far jump is at least so many nodes, and up to 2^13 more.
const LEAST_JUMP: u64 = 10;

const JUMP_WIDTH: u64 = 13;

/// So many plays on the path, some more on its forks, and then a tenth as many steps through the tree.
#[derive(Drop)]
pub struct Walk {
    count: u64,
    traffic: Traffic,
    // The number of the newest node: each play makes one.
    nodes: u64,
    // The node at which the path ends.
    tip: u64,
    // About where the walk is.
    here: u64,
    // The first node of each fork.
    forks: Vec<u64>,
    // A node that was pruned, or 0.
    pruned: u64,
    // The node of each bookmark.
    marks: Vec<u64>,
}

fn go(draft: &mut Draft, node: u64) -> Result<(), AllocError> {
    draft.numbered(b":go ", node)
}

impl Walk {
    pub fn new(alloc: Global, count: u64) -> Walk {
        Walk {
            count,
            traffic: Traffic::new(),
            nodes: 0,
            tip: 0,
            here: 0,
            forks: Vec::new(alloc),
            pruned: 0,
            marks: Vec::new(alloc),
        }
    }

    /// The plays, the steps through the tree, and where they end.
    pub fn turns(&self) -> u64 {
        self.count.saturating_add(self.count / 10).saturating_add(1)
    }

    // The line of one play.
    fn play(&mut self, draft: &mut Draft) -> Result<(), AllocError> {
        self.nodes = self.nodes.wrapping_add(1);
        self.traffic.put(draft)
    }

    // Goes back some nodes, plays a few steps, and goes to the end of the path again.
    fn fork(&mut self, draft: &mut Draft) -> Result<(), AllocError> {
        let back = draft.random.below(200).wrapping_add(1);
        go(draft, self.tip.saturating_sub(back))?;
        self.forks.push(self.nodes.wrapping_add(1))?;
        let plays = draft.random.below(8).wrapping_add(1);
        for _ in 0..plays {
            self.play(draft)?;
        }
        go(draft, self.tip)
    }

    fn mark(&mut self, draft: &mut Draft) -> Result<(), AllocError> {
        draft.numbered(b":mark m", self.marks.len() as u64)?;
        self.marks.push(self.tip)?;
        Ok(())
    }

    // A play of the path, with what comes behind it.
    fn path(&mut self, draft: &mut Draft, turn: u64) -> Result<(), AllocError> {
        self.play(draft)?;
        self.tip = self.nodes;
        self.here = self.nodes;
        if draft.random.is_one_in(FORK) {
            self.fork(draft)?;
        }
        if turn.checked_rem(self.count / MARKS) == Some(0) {
            self.mark(draft)?;
        }
        Ok(())
    }

    fn jump(&mut self, draft: &mut Draft, nodes: u64) -> Result<(), AllocError> {
        let up = draft.random.is_one_in(2) && nodes <= self.here;
        self.here = if up || self.here.saturating_add(nodes) > self.nodes {
            self.here.saturating_sub(nodes)
        } else {
            self.here.saturating_add(nodes)
        };
        go(draft, self.here)
    }

    fn far_jump(&mut self, draft: &mut Draft) -> Result<(), AllocError> {
        let nodes = draft.random.rank(JUMP_WIDTH).wrapping_add(LEAST_JUMP);
        self.jump(draft, nodes)
    }

    fn near_jump(&mut self, draft: &mut Draft) -> Result<(), AllocError> {
        let nodes = draft.random.below(9).wrapping_add(1);
        self.jump(draft, nodes)
    }

    // The place of the bookmark that is about where the walk is, or before it.
    fn near_mark(&self) -> u64 {
        let marks = self.marks.len() as u64;
        marks
            .saturating_mul(self.here)
            .checked_div(self.nodes)
            .unwrap_or(0)
    }

    // Goes to a bookmark that is not far.
    fn visit(&mut self, draft: &mut Draft) -> Result<(), AllocError> {
        let choice = draft
            .random
            .below(NEAR_MARKS)
            .wrapping_add(self.near_mark());
        let choice = choice.saturating_sub(NEAR_MARKS / 2);
        let Some(node) = self.marks.get(choice as usize) else {
            return draft.line(b":at");
        };
        self.here = *node;
        draft.numbered(b":goto m", choice)
    }

    // The first node of one of the forks, or 0.
    fn any_fork(&self, draft: &mut Draft) -> u64 {
        let choice = draft.random.below(self.forks.len() as u64);
        self.forks.get(choice as usize).copied().unwrap_or(0)
    }

    fn rare(&mut self, draft: &mut Draft) -> Result<(), AllocError> {
        match draft.random.below(10) {
            0..=6 => {
                self.pruned = self.any_fork(draft);
                draft.numbered(b":prune ", self.pruned)
            }
            7..=8 => {
                self.here = self.any_fork(draft);
                go(draft, self.here)
            }
            _ => go(draft, self.pruned),
        }
    }

    fn step(&mut self, draft: &mut Draft) -> Result<(), AllocError> {
        match draft.random.below(100) {
            0..=49 => self.far_jump(draft),
            50..=57 => self.near_jump(draft),
            58..=72 => draft.line(b":back"),
            73..=80 => draft.line(b":forward"),
            81..=87 => {
                let child = draft.random.below(2);
                draft.numbered(b":forward ", child)
            }
            88..=97 => self.visit(draft),
            _ => self.rare(draft),
        }
    }

    pub fn put(&mut self, draft: &mut Draft, turn: u64) -> Result<(), AllocError> {
        if turn < self.count {
            self.path(draft, turn)
        } else if turn < self.count.saturating_add(self.count / 10) {
            self.step(draft)
        } else {
            draft.line(b":at")
        }
    }
}
