//! A store that stands at a position of a tree.
ghost use Rattle.std.specs.Prelude.{◌≡◌, ℕ, ◌-◌, Some, None, ◌<◌, ◌≤◌, ◌^◌, ◌+◌, ◌++◌, ◌∷◌, [], ◌↔◌, ◌⊎◌, eqb, IsTrue, OnOk, OnErr, IfSome, IfNone, IsSome, length, take};
ghost use Rattle.rev_tree.specs.Steps.{State, next, outcome_of, Undoes};
ghost use Rattle.rev_tree.specs.Ways.{reach, IsWay};
ghost use Rattle.rev_tree.specs.Rows.{number_at};
ghost use Rattle.rev_tree.specs.Tree.{PlainNode, bare, count, fork_at};
ghost use Rattle.rev_tree.specs.States.{rewind};
ghost use Rattle.rev_tree.specs.Paths.{IsPath, IsOnWay};
ghost use Rattle.rev_tree.specs.Finds.{Rises, Fitted, FoundAt, IsMissing};
ghost use Rattle.rev_tree.specs.Leading.{LeadsTo, Notes};
ghost use Rattle.rev_tree.specs.Forks.{next_fork, way_into};
ghost use Rattle.rev_tree.specs.Positions.{Stands, Moved, Grown, Proper, Below, depth};
ghost use Rattle.rev_tree.specs.Trails.{cut};
ghost use Rattle.rev_tree.specs.Trips.{Trip};

use crate::branch::Branch;
use crate::index::Index;
use crate::junction::Junction;
use crate::run::Node;
use arrayvec::ArrayVec;
use rev_inverse::Store;
use std::alloc::{AllocError, Allocator};

/// How deep forks may nest.
pub const MAX_NESTING: usize = 64;

/// A tree, a position in it, and the store of that position.
#[derive(Drop)]
pub struct Position<A: Allocator> {
    pub store: Store<A>,
    pub base: Branch<A>,
    pub index: Index<A>,
    pub way: ArrayVec<Junction, MAX_NESTING>,
    pub here: usize,
}

impl<A: Allocator> Position<A> {
    /// Lets the tree go: the store stands at the root of one without nodes.
    pub fn uproot(&mut self)
        ensures store { self.new.store ≡ self.old.store }
        ensures base { self.new.base ≡ record { from = 0; run = []; forks = bare } }
        ensures index { self.new.index ≡ record { branches = []; leavings = [] } }
        ensures way { self.new.way.items ≡ [] }
        ensures here { self.new.here ≡ 0 }
    {
        self.base.clear();
        self.index.clear();
        self.way.clear();
        self.here = 0;
    }

    /// Steps back to the parent.
    pub fn retreat(&mut self)
        requires stands { Stands (rewind self.old.base self.old.way.items self.old.here self.old.store) self.old.store self.old.base self.old.way.items self.old.here }
        requires below { 0 < self.old.here }
        requires proper { Proper self.old.way.items self.old.here }
        ensures moved { Moved (rewind self.old.base self.old.way.items self.old.here self.old.store) self.old.base self.new.store self.new.base self.new.way.items self.new.here }
        ensures index { self.new.index ≡ self.old.index }
        ensures below { Below self.new.way.items self.new.here self.old.way.items self.old.here }
    {
        let at = self.here - 1;
        self.base.turn(self.way.as_slice(), at, &mut self.store);
        self.here = at;
        if at == 0 {
            match self.way.pop() {
                Some(junction) => self.here = junction.taken,
                None => {}
            }
        }
    }

    /// Steps forward along the run.
    pub fn advance(&mut self)
        requires stands { Stands (rewind self.old.base self.old.way.items self.old.here self.old.store) self.old.store self.old.base self.old.way.items self.old.here }
        requires within { self.old.here < length (reach self.old.base self.old.way.items).run }
        requires fits { self.old.here + 1 < 2 ^ 64 }
        requires proper { Proper self.old.way.items self.old.here }
        ensures moved { Moved (rewind self.old.base self.old.way.items self.old.here self.old.store) self.old.base self.new.store self.new.base self.new.way.items self.new.here }
        ensures index { self.new.index ≡ self.old.index }
        ensures below { Below self.old.way.items self.old.here self.new.way.items self.new.here }
        ensures way { self.new.way.items ≡ self.old.way.items }
        ensures here { self.new.here ≡ self.old.here + 1 }
    {
        let at = self.here;
        self.base.turn(self.way.as_slice(), at, &mut self.store);
        self.here = at + 1;
    }

    /// Steps forward into a fork.
    pub fn enter(&mut self, fork: usize)
        requires stands { Stands (rewind self.old.base self.old.way.items self.old.here self.old.store) self.old.store self.old.base self.old.way.items self.old.here }
        requires within { fork < count (reach self.old.base self.old.way.items).forks }
        requires from { (fork_at (reach self.old.base self.old.way.items).forks fork).from ≡ self.old.here }
        requires proper { Proper self.old.way.items self.old.here }
        requires node { 0 < length (fork_at (reach self.old.base self.old.way.items).forks fork).run }
        requires room { length self.old.way.items < 64 }
        ensures moved { Moved (rewind self.old.base self.old.way.items self.old.here self.old.store) self.old.base self.new.store self.new.base self.new.way.items self.new.here }
        ensures index { self.new.index ≡ self.old.index }
        ensures below { Below self.old.way.items self.old.here self.new.way.items self.new.here }
        ensures way { self.new.way.items ≡ self.old.way.items ++ record { taken = self.old.here; fork = fork } ∷ [] }
        ensures here { self.new.here ≡ 1 }
    {
        let taken = self.here;
        self.way.push(Junction { taken, fork });
        self.base.turn(self.way.as_slice(), 0, &mut self.store);
        self.here = 1;
    }

    /// The number of the node at the position.
    pub fn number(&self) -> u32
        requires way { IsWay self.now.base self.now.way.items }
        requires within { self.now.here ≤ length (reach self.now.base self.now.way.items).run }
        requires proper { Proper self.now.way.items self.now.here }
        ensures { result ≡ number_at self.now.base self.now.way.items self.now.here }
    {
        if self.here == 0 {
            return 0;
        }
        self.base.reach(self.way.as_slice()).number(self.here - 1)
    }

    /// The number of the node at a position.
    pub fn number_at(&self, way: &[Junction], here: usize) -> u32
        requires path { IsPath self.now.base way.now here }
        requires proper { Proper way.now here }
        ensures { result ≡ number_at self.now.base way.now here }
    {
        if here == 0 {
            return 0;
        }
        self.base.reach(way).number(here - 1)
    }

    /// Where node `number` stands, if the tree has it, which has no number over `issued`. The index leads to each node
    /// that stands, so one that does not stand where it leads was taken out.
    pub fn find(
        &self,
        number: u32,
        issued: u32,
        way: &mut ArrayVec<Junction, MAX_NESTING>,
    ) -> Option<usize>
        requires fewer { issued < number → IsMissing number self.now.base }
        requires empty { way.old.items ≡ [] }
        requires rises { Rises self.now.base }
        requires fitted { Fitted self.now.base.forks self.now.base.run 64 0 0 }
        requires leads { LeadsTo self.now.index self.now.base }
        ensures some { IfSome result (λ at. FoundAt number self.now.base way.new.items at) }
        ensures none { IfNone result (0 < number) }
        ensures missing { IfNone result (IsMissing number self.now.base) }
    {
        if number == 0 {
            return Some(0);
        }
        if number > issued {
            return None;
        }
        self.index.lead(number, way);
        self.base.spot(way.as_slice(), number)
    }

    /// How many nodes stand on the way to the position, its own included and the root left out.
    pub fn depth(&self) -> usize
        requires { depth self.now.way.items self.now.here < 2 ^ 32 }
        ensures { result ≡ depth self.now.way.items self.now.here }
    {
        let mut depth = self.here;
        for junction in self.way.as_slice() {
            depth += junction.taken;
        }
        depth
    }

    /// Where the node at `depth` of the way to the position stands, from 1: how many junctions lead to its run, and how
    /// much of that is taken.
    pub fn ancestor(&self, depth: usize) -> (usize, usize)
        ensures cut { cut self.now.way.items depth ≡ (take result.0 self.now.way.items, result.1) }
        ensures within { result.0 ≤ length self.now.way.items }
    {
        let way = self.way.as_slice();
        let mut level = 0;
        let mut left = depth;
        'each: while level < way.len() {
            let taken = way[level].taken;
            if left <= taken {
                return (level, left);
            }
            left -= taken;
            level += 1;
        }
        (level, left)
    }

    /// Whether the position is at the end of its run.
    pub fn is_last(&self) -> bool
        requires { IsWay self.now.base self.now.way.items }
        ensures value { IsTrue result ↔ (self.now.here ≡ length (reach self.now.base self.now.way.items).run) }
        ensures small { length (reach self.now.base self.now.way.items).run < 2 ^ 63 }
    {
        self.here == self.base.reach(self.way.as_slice()).len()
    }

    /// Whether a node can be added below the position.
    pub fn has_room(&self) -> bool
        requires { IsWay self.now.base self.now.way.items }
        ensures value { IsTrue result ↔ ((self.now.here ≡ length (reach self.now.base self.now.way.items).run) ⊎ (length self.now.way.items < 64)) }
        ensures fits { length self.now.way.items ≤ 64 }
    {
        if !self.way.is_full() {
            return true;
        }
        self.is_last()
    }

    // Where a node that is played below the position leaves the run, if it does.
    fn next_fork(&self) -> Option<Junction>
        requires { IsWay self.now.base self.now.way.items }
        ensures fork { result ≡ next_fork (reach self.now.base self.now.way.items) self.now.here }
        ensures small { length (reach self.now.base self.now.way.items).run < 2 ^ 63 }
    {
        let branch = self.base.reach(self.way.as_slice());
        if self.here == branch.len() {
            return None;
        }
        Some(Junction {
            taken: self.here,
            fork: branch.fork_count(),
        })
    }

    /// Adds the node that is held out below the position and moves to it. The store stands there already.
    ///
    /// Err: a growth was refused, and the node is still there.
    pub fn grow(&mut self, alloc: &A, node: &mut Node<A>) -> Result<(), AllocError>
    where
        A: Clone,
        requires way { IsWay self.old.base self.old.way.items }
        requires proper { Proper self.old.way.items self.old.here }
        requires within { self.old.here ≤ length (reach self.old.base self.old.way.items).run }
        requires room { (self.old.here ≡ length (reach self.old.base self.old.way.items).run) ⊎ (length self.old.way.items < 64) }
        requires node { IsSome node.old }
        ensures ok { OnOk result ((n : PlainNode) → node.old ≡ Some n → (root before : State) → Stands root before self.old.base self.old.way.items self.old.here → self.old.store ≡ next before n.step → Undoes n.undo before n.step → n.outcome ≡ outcome_of before n.step → Grown root self.old.base self.old.way.items self.old.here self.new.store self.new.base self.new.way.items self.new.here n.number n.step (eqb self.old.here (length (reach self.old.base self.old.way.items).run))) }
        ensures err { OnErr result ((self.new.store ≡ self.old.store) × (self.new.base ≡ self.old.base) × (self.new.way ≡ self.old.way) × (self.new.here ≡ self.old.here)) }
        ensures notes { OnOk result (Notes self.old.index (number_at self.old.base self.old.way.items self.old.here) self.old.way.items self.new.index self.new.way.items) }
        ensures index { OnErr result (self.new.index ≡ self.old.index) }
        ensures taken { OnOk result (node.new ≡ None) }
        ensures returned { OnErr result (node.new ≡ node.old) }
    {
        let parent = self.number();
        let fork = self.next_fork();
        self.index.note(parent, fork)?;
        match self.hang(alloc, fork, node) {
            Ok(()) => Ok(()),
            Err(_) => {
                self.index.forget(fork.is_some());
                Err(AllocError)
            }
        }
    }

    // Adds the node that is held out to the tree below the position, in a new fork or along the run, and moves to it.
    // Err: a growth was refused, and the node is still there.
    fn hang(
        &mut self,
        alloc: &A,
        fork: Option<Junction>,
        node: &mut Node<A>,
    ) -> Result<(), AllocError>
    where
        A: Clone,
        requires way { IsWay self.old.base self.old.way.items }
        requires proper { Proper self.old.way.items self.old.here }
        requires room { (self.old.here ≡ length (reach self.old.base self.old.way.items).run) ⊎ (length self.old.way.items < 64) }
        requires fork { fork ≡ next_fork (reach self.old.base self.old.way.items) self.old.here }
        requires small { length (reach self.old.base self.old.way.items).run < 2 ^ 63 }
        requires node { IsSome node.old }
        ensures ok { OnOk result ((n : PlainNode) → node.old ≡ Some n → (root before : State) → Stands root before self.old.base self.old.way.items self.old.here → self.old.store ≡ next before n.step → Undoes n.undo before n.step → n.outcome ≡ outcome_of before n.step → Grown root self.old.base self.old.way.items self.old.here self.new.store self.new.base self.new.way.items self.new.here n.number n.step (eqb self.old.here (length (reach self.old.base self.old.way.items).run))) }
        ensures err { OnErr result ((self.new.store ≡ self.old.store) × (self.new.base ≡ self.old.base) × (self.new.way ≡ self.old.way) × (self.new.here ≡ self.old.here)) }
        ensures way { OnOk result (self.new.way.items ≡ way_into self.old.way.items fork) }
        ensures index { self.new.index ≡ self.old.index }
        ensures taken { OnOk result (node.new ≡ None) }
        ensures returned { OnErr result (node.new ≡ node.old) }
    {
        match fork {
            None => {
                self.base.extend(self.way.as_slice(), node)?;
                self.here += 1;
                Ok(())
            }
            Some(junction) => {
                self.base
                    .split(self.way.as_slice(), alloc, junction.taken, node)?;
                self.way.push(junction);
                self.here = 1;
                Ok(())
            }
        }
    }

    /// Whether the position is the one at `at` behind `target`, or further on.
    pub fn is_at(&self, target: &[Junction], at: usize) -> bool
        ensures { IsTrue result ↔ ((length target.now ≤ length self.now.way.items) × (at ≤ self.now.here)) }
    {
        target.len() <= self.way.len() && at <= self.here
    }

    /// Takes one step from a position on the way to `target` and `at` towards it.
    pub fn follow(&mut self, target: &[Junction], at: usize)
        requires stands { Stands (rewind self.old.base self.old.way.items self.old.here self.old.store) self.old.store self.old.base self.old.way.items self.old.here }
        requires proper { Proper self.old.way.items self.old.here }
        requires path { IsPath self.old.base target.now at }
        requires goal { Proper target.now at }
        requires room { length target.now ≤ 64 }
        requires on { IsOnWay self.old.way.items self.old.here target.now at }
        requires apart { length target.now ≤ length self.old.way.items → self.old.here < at }
        ensures moved { Moved (rewind self.old.base self.old.way.items self.old.here self.old.store) self.old.base self.new.store self.new.base self.new.way.items self.new.here }
        ensures index { self.new.index ≡ self.old.index }
        ensures below { Below self.old.way.items self.old.here self.new.way.items self.new.here }
        ensures on { IsOnWay self.new.way.items self.new.here target.now at }
    {
        let level = self.way.len();
        if level >= target.len() {
            self.advance();
            return;
        }
        let junction = target[level];
        if self.here < junction.taken {
            self.advance();
            return;
        }
        self.enter(junction.fork);
    }

    /// Goes to a position of the tree, back to the last common node and on from there. The answer is the number of
    /// turns.
    pub fn go(&mut self, target: &[Junction], at: usize) -> u32
        requires stands { Stands (rewind self.old.base self.old.way.items self.old.here self.old.store) self.old.store self.old.base self.old.way.items self.old.here }
        requires proper { Proper self.old.way.items self.old.here }
        requires path { IsPath self.old.base target.now at }
        requires goal { Proper target.now at }
        requires room { length target.now ≤ 64 }
        requires few { depth self.old.way.items self.old.here + depth target.now at < 2 ^ 32 }
        ensures moved { Moved (rewind self.old.base self.old.way.items self.old.here self.old.store) self.old.base self.new.store self.new.base self.new.way.items self.new.here }
        ensures index { self.new.index ≡ self.old.index }
        ensures way { self.new.way.items ≡ target.now }
        ensures here { self.new.here ≡ at }
        ensures trip { Trip self.old.way.items self.old.here target.now at result }
    {
        let mut turns = 0;
        'back: while !is_on_way(self.way.as_slice(), self.here, target, at) {
            self.retreat();
            turns += 1;
        }
        'on: while !self.is_at(target, at) {
            self.follow(target, at);
            turns += 1;
        }
        turns
    }
}

/// Goes from a position to the one just above it.
pub fn above(way: &mut ArrayVec<Junction, MAX_NESTING>, at: usize) -> usize
    requires inside { 0 < at }
    requires proper { Proper way.old.items at }
    ensures below { Below way.new.items result way.old.items at }
    ensures proper { Proper way.new.items result }
{
    if at > 1 {
        return at - 1;
    }
    match way.pop() {
        Some(junction) => junction.taken,
        None => 0,
    }
}

/// Whether a position lies on the way to another.
pub fn is_on_way(way: &[Junction], here: usize, target: &[Junction], at: usize) -> bool
    ensures { IsTrue result ↔ IsOnWay way.now here target.now at }
{
    match way {
        [] => match target {
            [] => here <= at,
            [junction, ..] => here <= junction.taken,
        },
        [first, rest @ ..] => match target {
            [] => false,
            [junction, others @ ..] => *first == *junction && is_on_way(rest, here, others, at),
        },
    }
}
