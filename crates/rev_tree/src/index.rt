//! Where nodes stand, by their numbers, as it was noted when they were played.
ghost use Rattle.std.specs.Prelude.{◌≡◌, [], IfOk, OnOk, OnErr};
ghost use Rattle.rev_tree.specs.Index.{branch_of, leaving_of, way_to, noted, forgotten};

use crate::junction::Junction;
use crate::position::MAX_NESTING;
use arrayvec::ArrayVec;
use std::alloc::{AllocError, Allocator};
use std::marker::Model;

/// Where a branch leaves the run of another. Branches go by their order: 0 is the base branch, and the others are
/// counted from 1 as they fork.
#[derive(Clone, Copy, Drop)]
pub struct Leaving {
    pub branch: usize,
    pub junction: Junction,
}

/// The branch of each node, and where each branch leaves another: so the way to a node takes as many steps as its
/// branch is deep, whatever the size of the tree. It still has the nodes that were taken out since, so who asks it
/// looks in the tree: a node stands where it says, or nowhere.
#[derive(Drop)]
pub struct Index<A: Allocator> {
    branches: Vec<usize, A>,
    leavings: Vec<Leaving, A>,
}

impl<A: Allocator> Model for Index<A> {
    ghost use Rattle.rev_tree.specs.Index.{PlainIndex};

    ghost Value = { PlainIndex };

    ghost view = { λ i. record { branches = i.branches.items; leavings = i.leavings.items } };
}

impl<A: Allocator> Index<A> {
    /// An index of no node.
    ///
    /// Err: a handle on the allocator was refused.
    pub fn new(alloc: &A) -> Result<Index<A>, AllocError>
    where
        A: Clone,
        ensures { IfOk result (λ i. i ≡ record { branches = []; leavings = [] }) }
    {
        Ok(Index {
            branches: Vec::new(alloc.clone()?),
            leavings: Vec::new(alloc.clone()?),
        })
    }

    /// Takes all nodes out.
    pub fn clear(&mut self)
        ensures { self.new ≡ record { branches = []; leavings = [] } }
    {
        self.branches.clear();
        self.leavings.clear();
    }

    /// Notes the next node: it is played below the node `parent`, where a new branch leaves the run, or at the run's
    /// end.
    ///
    /// Err: a growth was refused, and the index is as it was.
    pub fn note(&mut self, parent: u32, fork: Option<Junction>) -> Result<(), AllocError>
        ensures ok { OnOk result (self.new ≡ noted self.old parent fork) }
        ensures err { OnErr result (self.new ≡ self.old) }
    {
        let branch = self.branch_of(parent);
        let Some(junction) = fork else {
            self.branches.push(branch)?;
            return Ok(());
        };
        self.leavings.push(Leaving { branch, junction })?;
        match self.branches.push(self.leavings.len()) {
            Ok(()) => Ok(()),
            Err(_) => {
                self.leavings.pop();
                Err(AllocError)
            }
        }
    }

    /// Takes the last node out, which had a branch of its own where it `forked`.
    pub fn forget(&mut self, forked: bool)
        ensures { self.new ≡ forgotten self.old forked }
    {
        self.branches.pop();
        if forked {
            self.leavings.pop();
        }
    }

    /// The way to the branch of the node `number`.
    pub fn lead(&self, number: u32, way: &mut ArrayVec<Junction, MAX_NESTING>)
        requires { way.old.items ≡ [] }
        ensures { way.new.items ≡ way_to self.now number }
    {
        let mut branch = self.branch_of(number);
        'up: while !way.is_full() {
            match self.leaving(branch) {
                Some(leaving) => {
                    way.push(leaving.junction);
                    branch = leaving.branch;
                }
                None => break,
            }
        }
        way.as_mut_slice().reverse();
    }

    // The branch of a node; the base branch is that of the root.
    fn branch_of(&self, number: u32) -> usize
        ensures { result ≡ branch_of self.now number }
    {
        match number.checked_sub(1) {
            Some(place) => match self.branches.get(place as usize) {
                Some(branch) => *branch,
                None => 0,
            },
            None => 0,
        }
    }

    // Where a branch leaves another; the base branch leaves none.
    fn leaving(&self, branch: usize) -> Option<Leaving>
        ensures { result ≡ leaving_of self.now branch }
    {
        match branch.checked_sub(1) {
            Some(place) => self.leavings.get(place).copied(),
            None => None,
        }
    }
}
