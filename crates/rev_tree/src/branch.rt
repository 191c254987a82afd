//! A branch: a run of nodes, and the branches that fork from it.
ghost use Rattle.std.specs.Prelude.{◌≡◌, ◌++◌, ◌∷◌, ◌^◌, ◌<◌, ◌-◌, ◌≤◌, ℕ, Bool, IfOk, IfErr, OnOk, OnErr, IfSome, IfNone, IsSome, Some, None, [], length, get_or, slice_get, cond, eqb, List, map};
ghost use Rattle.rev_inverse.specs.Record.{flat};
ghost use Rattle.rev_requests.specs.Plain.{plain_step};
ghost use Rattle.rev_tree.specs.Steps.{Fits, turned};
ghost use Rattle.rev_tree.specs.Ways.{IsWay, reach, undo_of, at_end, with_undo, with_node, with_fork, no_node};
ghost use Rattle.rev_tree.specs.Tree.{PlainNode, count, bare, fork_at};
ghost use Rattle.rev_tree.specs.Places.{with_place};
ghost use Rattle.rev_tree.specs.Rows.{find_run};
ghost use Rattle.rev_tree.specs.Order.{head_number};
ghost use Rattle.rev_tree.specs.Prunes.{trimmed, cropped};
ghost use Rattle.rev_tree.specs.Children.{children_at, put_in, next_number};
ghost use Rattle.rev_tree.specs.Finds.{RisesRun, Rises, Found, IsElsewhere};

use crate::junction::Junction;
use crate::run::{Node, Run};
use rev_inverse::{RecordRef, Store};
use rev_model::Outcome;
use rev_requests::Step;
use std::alloc::{AllocError, Allocator};
use std::marker::Model;

/// A run of nodes, and the branches that fork from it. Where it leaves its parent's run is known there alone.
#[cycle(tree)]
#[derive(Drop)]
pub struct Branch<A: Allocator> {
    run: Run<A>,
    forks: Vec<Fork<A>, A>,
}

/// A branch that forks from a run. A run may have thousands of forks, so the place where it leaves the run stands
/// beside the box: who looks for the forks at one place waits for no memory of the others.
#[cycle(tree)]
#[derive(Drop)]
struct Fork<A: Allocator> {
    from: usize,
    branch: Box<Branch<A>, A>,
}

impl<A: Allocator> Model for Branch<A> {
    ghost use Rattle.std.specs.Prelude.{map};
    ghost use Rattle.std.proofs.Common.{arith};
    ghost use Rattle.std.specs.Coded.{codes};
    ghost use Rattle.rev_tree.specs.Tree.{PlainBranch, branch_code, forks_of, branch_size};
    ghost use Rattle.rev_tree.specs.Places.{with_place};

    ghost Value = { PlainBranch };

    ghost coded = { branch_code (Prim.hlevel codes) };

    ghost view = { λ a. record { from = 0; run = a.run; forks = forks_of (map (λ f. with_place f.from f.branch.value) a.forks.items) } };

    ghost size = { branch_size };

    ghost use Rattle.rev_tree.specs.Places.{most_le-forks};
    ghost use Rattle.rev_tree.specs.declared.branch.Branch.TheDeep.{deep-Fork};

    ghost size_decreases = { λ a h. omega (arith, most_le-forks (deep-Fork A A.Allocator) (λ f. with_place f.from f.branch.value) a.forks.items (λ f. omega arith)) };
}

impl<A: Allocator> Branch<A> {
    /// Turns the record of the node at `at` of the branch at the end of `way`.
    pub fn turn(&mut self, way: &[Junction], at: usize, store: &mut Store<A>)
        requires way { IsWay self.old way.now }
        requires within { at < length (reach self.old way.now).run }
        requires fits { Fits (undo_of (reach self.old way.now).run at) store.old }
        ensures state { store.new ≡ (turned (undo_of (reach self.old way.now).run at) store.old).0 }
        ensures tree { self.new ≡ at_end (with_undo at (turned (undo_of (reach self.old way.now).run at) store.old).1) self.old way.now }
    {
        match way {
            [] => self.run.turn(at, store),
            [junction, rest @ ..] => {
                let fork = &mut self.forks[junction.fork];
                fork.branch.turn(rest, at, store);
            }
        }
    }

    /// The branch at the end of `way`.
    pub fn reach<'a>(&'a self, way: &[Junction]) -> &'a Branch<A>
        requires { IsWay self.now way.now }
        ensures { result.now ≡ with_place 0 (reach self.now way.now) }
    {
        match way {
            [] => self,
            [junction, rest @ ..] => self.forks[junction.fork].branch.reach(rest),
        }
    }

    /// How many nodes the run has.
    pub fn len(&self) -> usize
        ensures value { result ≡ length self.now.run }
        ensures small { length self.now.run < 2 ^ 63 }
    {
        self.run.len()
    }

    /// The number of the node at `at` of the run.
    pub fn number(&self, at: usize) -> u32
        requires { at < length self.now.run }
        ensures { result ≡ (get_or self.now.run at no_node).number }
    {
        self.run.number(at)
    }

    /// The step of the node at `at` of the run, and its outcome.
    pub fn step_at<'a>(&'a self, at: usize) -> (&'a Step<A>, Outcome)
        requires { at < length self.now.run }
        ensures step { plain_step result.0.now ≡ (get_or self.now.run at no_node).step }
        ensures outcome { result.1 ≡ (get_or self.now.run at no_node).outcome }
    {
        self.run.step_at(at)
    }

    /// The record of the node at `at` of the run.
    pub fn record(&self, at: usize) -> RecordRef<'_, A>
        requires { at < length self.now.run }
        ensures { flat result ≡ (get_or self.now.run at no_node).undo }
    {
        self.run.record(at)
    }

    /// How many branches fork from the run.
    pub fn fork_count(&self) -> usize
        ensures { result ≡ count self.now.forks }
    {
        self.forks.len()
    }

    /// Where the node `number` stands in the run.
    ///
    /// Numbers rise along a run, so a node stands at most as far in as its number is above the first one's, and just
    /// there where all before it were played in a row. That place is looked at first.
    fn place_in_run(&self, number: u32) -> Option<usize>
        requires { RisesRun self.now.run }
        ensures some { IfSome result (λ k. (k < length self.now.run) × ((get_or self.now.run k no_node).number ≡ number)) }
        ensures none { IfNone result ((p : ℕ) (c : Bool) → find_run number p c self.now.run ≡ None) }
        ensures small { length self.now.run < 2 ^ 63 }
    {
        let len = self.len();
        let Some(first) = self.next_at(0) else {
            return None;
        };
        let furthest = number.saturating_sub(first) as usize;
        if self.next_at(furthest) == Some(number) {
            return Some(furthest);
        }
        self.bisect(number, furthest.min(len))
    }

    // Where the node `number` stands in the run, behind whose first `end` nodes the numbers are over it.
    fn bisect(&self, number: u32, end: usize) -> Option<usize>
        requires rises { RisesRun self.now.run }
        requires within { end ≤ length self.now.run }
        requires over { (i : ℕ) → end ≤ i → i < length self.now.run → number < (get_or self.now.run i no_node).number }
        ensures some { IfSome result (λ k. (k < length self.now.run) × ((get_or self.now.run k no_node).number ≡ number)) }
        ensures none { IfNone result ((p : ℕ) (c : Bool) → find_run number p c self.now.run ≡ None) }
    {
        let mut low = 0;
        let mut high = end;
        'narrow: while low < high {
            let middle = low + (high - low) / 2;
            let found = self.number(middle);
            if found == number {
                return Some(middle);
            }
            if found < number {
                low = middle + 1;
            } else {
                high = middle;
            }
        }
        None
    }

    /// Where the node `number` stands in the run at the end of `way`, if `way` is one of the tree and the run has it.
    pub fn spot(&self, way: &[Junction], number: u32) -> Option<usize>
        requires { Rises self.now }
        ensures some { IfSome result (λ at. Found number self.now [] way.now at) }
        ensures none { IfNone result (IsElsewhere number self.now way.now) }
    {
        match way {
            [] => match self.place_in_run(number) {
                Some(at) => Some(at + 1),
                None => None,
            },
            [junction, rest @ ..] => {
                if junction.taken > self.len() || junction.fork >= self.fork_count() {
                    return None;
                }
                let fork = &self.forks[junction.fork];
                if fork.from != junction.taken {
                    return None;
                }
                fork.branch.spot(rest, number)
            }
        }
    }

    /// The number of the next node of the run.
    pub fn next_at(&self, here: usize) -> Option<u32>
        ensures { result ≡ next_number here self.now.run }
    {
        if here >= self.len() {
            return None;
        }
        Some(self.number(here))
    }

    /// The first number of a fork that leaves the run at `here`.
    fn first_at(&self, fork: usize, here: usize) -> Option<u32>
        requires { fork < count self.now.forks }
        ensures { result ≡ cond (eqb (fork_at self.now.forks fork).from here) (head_number (fork_at self.now.forks fork).run) None }
    {
        let child = &self.forks[fork];
        if child.from != here {
            return None;
        }
        child.branch.next_at(0)
    }

    /// The child by number `index` of the node behind the first `here` of the run, by rising number.
    pub fn child(&self, here: usize, index: usize) -> Option<u32>
        ensures { result ≡ slice_get (children_at self.now here) index }
    {
        let mut next = self.next_at(here);
        let mut left = index;
        let mut fork = 0;
        'each: while fork < self.fork_count() {
            match self.first_at(fork, here) {
                Some(number) => match pass(next, left, number) {
                    Ok(found) => return Some(found),
                    Err((rest, count)) => {
                        next = rest;
                        left = count;
                    }
                },
                None => {}
            }
            fork += 1;
        }
        if left == 0 { next } else { None }
    }

    /// Adds the node that is held out to the run of the branch at the end of `way`.
    ///
    /// Err: a growth was refused, and the node is still there.
    pub fn extend(&mut self, way: &[Junction], node: &mut Node<A>) -> Result<(), AllocError>
        requires way { IsWay self.old way.now }
        requires node { IsSome node.old }
        ensures ok { OnOk result ((n : PlainNode) → node.old ≡ Some n → self.new ≡ at_end (with_node n) self.old way.now) }
        ensures err { OnErr result (self.new ≡ self.old) }
        ensures taken { OnOk result (node.new ≡ None) }
        ensures returned { OnErr result (node.new ≡ node.old) }
    {
        match way {
            [] => self.run.push(node),
            [junction, rest @ ..] => {
                let fork = &mut self.forks[junction.fork];
                fork.branch.extend(rest, node)
            }
        }
    }

    /// Adds a fork of the node that is held out, which leaves its parent's run at `from`, to the branch at the end of
    /// `way`.
    ///
    /// Err: a growth was refused, and the node is still there.
    pub fn split(
        &mut self,
        way: &[Junction],
        alloc: &A,
        from: usize,
        node: &mut Node<A>,
    ) -> Result<(), AllocError>
    where
        A: Clone,
        requires way { IsWay self.old way.now }
        requires node { IsSome node.old }
        ensures ok { OnOk result ((n : PlainNode) → node.old ≡ Some n → self.new ≡ at_end (with_fork (record { from = from; run = n ∷ []; forks = bare })) self.old way.now) }
        ensures err { OnErr result (self.new ≡ self.old) }
        ensures taken { OnOk result (node.new ≡ None) }
        ensures returned { OnErr result (node.new ≡ node.old) }
    {
        match way {
            [] => sprout(&mut self.forks, alloc, from, node),
            [junction, rest @ ..] => {
                let fork = &mut self.forks[junction.fork];
                fork.branch.split(rest, alloc, from, node)
            }
        }
    }

    /// Leaves no node.
    pub fn clear(&mut self)
        ensures { self.new ≡ record { from = 0; run = []; forks = bare } }
    {
        self.run.truncate(0);
        self.forks.clear();
    }

    /// Keeps the first `at` nodes of the run, and the forks that leave it there.
    fn crop(&mut self, at: usize)
        ensures { self.new ≡ cropped at self.old }
    {
        self.run.truncate(at);
        trim_forks(&mut self.forks, at);
    }

    /// Takes the node at `at` of the run of the branch at the end of `way` out of the tree, with all below it.
    pub fn prune(&mut self, way: &[Junction], at: usize)
        requires { IsWay self.old way.now }
        ensures { self.new ≡ at_end (cropped at) self.old way.now }
    {
        match way {
            [] => self.crop(at),
            [junction, rest @ ..] => {
                let fork = &mut self.forks[junction.fork];
                fork.branch.prune(rest, at);
            }
        }
    }

    /// A branch with no node.
    pub fn root(alloc: &A) -> Result<Branch<A>, AllocError>
    where
        A: Clone,
        ensures { IfOk result (λ b. b ≡ record { from = 0; run = []; forks = bare }) }
    {
        Ok(Branch {
            run: Run::new(alloc)?,
            forks: Vec::new(alloc.clone()?),
        })
    }

    // The same in a box.
    fn boxed(alloc: &A) -> Result<Box<Branch<A>, A>, AllocError>
    where
        A: Clone,
        ensures { IfOk result (λ b. b.value ≡ record { from = 0; run = []; forks = bare }) }
    {
        match Box::new(alloc.clone()?, Branch::root(alloc)?) {
            Ok(branch) => Ok(branch),
            Err(refused) => {
                drop(refused);
                Err(AllocError)
            }
        }
    }
}

impl<A: Allocator> Fork<A> {
    /// Empties the branch if it leaves its run behind the first `at` nodes.
    fn trim(&mut self, at: usize)
        ensures { with_place self.new.from self.new.branch.value ≡ trimmed at (with_place self.old.from self.old.branch.value) }
    {
        if self.from > at {
            self.from = 0;
            self.branch.clear();
        }
    }
}

// Adds a branch of the node that is held out, which leaves its parent's run at `from`. Err: a growth was refused, and
// the node is still there.
fn sprout<A: Allocator + Clone>(
    forks: &mut Vec<Fork<A>, A>,
    alloc: &A,
    from: usize,
    node: &mut Node<A>,
) -> Result<(), AllocError>
    requires { IsSome node.old }
    ensures ok { OnOk result ((n : PlainNode) → node.old ≡ Some n → map (λ f. with_place f.from f.branch.value) forks.new.items ≡ map (λ f. with_place f.from f.branch.value) forks.old.items ++ record { from = from; run = n ∷ []; forks = bare } ∷ []) }
    ensures err { OnErr result (forks.new.items ≡ forks.old.items) }
    ensures taken { OnOk result (node.new ≡ None) }
    ensures returned { OnErr result (node.new ≡ node.old) }
{
    forks.reserve(1)?;
    let mut branch = Branch::boxed(alloc)?;
    branch.run.push(node)?;
    match forks.push(Fork { from, branch }) {
        Ok(()) => Ok(()),
        Err(_) => unreachable!(),
    }
}

// Empties each fork that leaves its run behind the first `at` nodes.
fn trim_forks<A: Allocator>(forks: &mut Vec<Fork<A>, A>, at: usize)
    ensures items { map (λ f. with_place f.from f.branch.value) forks.new.items ≡ map (λ f. trimmed at (with_place f.from f.branch.value)) forks.old.items }
    ensures length { length forks.new.items ≡ length forks.old.items }
{
    for fork in forks.iter_mut() {
        fork.trim(at);
    }
}

// Passes `number`, the next of a rising list, of which the one at `left` is wanted where `next` belongs into it.
fn pass(next: Option<u32>, left: usize, number: u32) -> Result<u32, (Option<u32>, usize)>
    ensures ok { IfOk result (λ x. (ys : List ℕ) → slice_get (put_in next (number ∷ ys)) left ≡ Some x) }
    ensures err { IfErr result (λ p. (ys : List ℕ) → slice_get (put_in next (number ∷ ys)) left ≡ slice_get (put_in p.0 ys) p.1) }
{
    match next {
        None => {
            if left == 0 {
                return Ok(number);
            }
            Err((None, left - 1))
        }
        Some(own) => {
            if own < number {
                if left == 0 {
                    return Ok(own);
                }
                if left == 1 {
                    return Ok(number);
                }
                return Err((None, left - 2));
            }
            if left == 0 {
                return Ok(number);
            }
            Err((Some(own), left - 1))
        }
    }
}
