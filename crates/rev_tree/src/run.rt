//! A run of nodes: their records lie one behind another, and what else a node is lies apart from them.
ghost use Rattle.std.specs.Prelude.{◌≡◌, ◌++◌, ◌∷◌, ◌^◌, ◌<◌, IfOk, OnOk, OnErr, IsSome, Some, None, [], length, get_or, set, take};
ghost use Rattle.rev_inverse.specs.Record.{flat};
ghost use Rattle.rev_requests.specs.Plain.{plain_step};
ghost use Rattle.rev_tree.specs.Steps.{Fits, turned};
ghost use Rattle.rev_tree.specs.Tree.{PlainNode};
ghost use Rattle.rev_tree.specs.Ways.{undo_of, no_node};

use crate::records::Records;
use rev_inverse::{Record, RecordRef, Store};
use rev_model::Outcome;
use rev_requests::Step;
use std::alloc::{AllocError, Allocator};
use std::marker::Model;

/// A node that is held out, to be added to a run. Who adds it takes the step out, straight to its place; a node without
/// its step is none.
#[derive(Drop)]
pub struct Node<A: Allocator> {
    pub number: u32,
    pub step: Option<Step<A>>,
    pub outcome: Outcome,
    pub undo: Record<A>,
}

impl<A: Allocator> Model for Node<A> {
    ghost use Rattle.std.specs.Prelude.{Option};
    ghost use Rattle.std.specs.Option.{option_map};
    ghost use Rattle.rev_inverse.specs.Record.{flat};
    ghost use Rattle.rev_requests.specs.Plain.{plain_step};
    ghost use Rattle.rev_tree.specs.Tree.{PlainNode};

    ghost Value = { Option PlainNode };

    // In which changes the record keeps its moves is not seen.
    ghost view = { λ a. option_map (λ step. record { number = a.number; step = plain_step step; outcome = a.outcome; undo = flat a.undo }) a.step };
}

/// What a node of a run is beside its record.
#[derive(Drop)]
struct Head<A: Allocator> {
    number: u32,
    step: Step<A>,
    outcome: Outcome,
}

impl<A: Allocator> Model for Head<A> {
    ghost use Rattle.rev_requests.specs.Plain.{plain_step};
    ghost use Rattle.rev_tree.specs.Runs.{PlainHead};

    ghost Value = { PlainHead };

    ghost view = { λ a. record { number = a.number; step = plain_step a.step; outcome = a.outcome } };
}

/// Nodes, one after another. Who turns their records in a row goes through memory in a row.
#[derive(Drop)]
pub struct Run<A: Allocator> {
    heads: Vec<Head<A>, A>,
    records: Records<A>,
}

impl<A: Allocator> Model for Run<A> {
    ghost use Rattle.std.specs.Prelude.{List, ◌≡◌, length};
    ghost use Rattle.rev_tree.specs.Tree.{PlainNode};
    ghost use Rattle.rev_tree.specs.Runs.{nodes_of};

    ghost Value = { List PlainNode };

    ghost view = { λ r. nodes_of r.heads.items r.records };

    ghost invariant = { λ r. length r.records ≡ length r.heads.items };
}

impl<A: Allocator> Run<A> {
    /// A run without a node.
    ///
    /// Err: a handle on the allocator was refused.
    pub fn new(alloc: &A) -> Result<Run<A>, AllocError>
    where
        A: Clone,
        ensures { IfOk result (λ r. r ≡ []) }
    {
        Ok(Run {
            heads: Vec::new(alloc.clone()?),
            records: Records::new(alloc)?,
        })
    }

    /// How many nodes there are.
    pub fn len(&self) -> usize
        ensures value { result ≡ length self.now }
        ensures small { length self.now < 2 ^ 63 }
    {
        self.heads.len()
    }

    /// The number of the node at `at`.
    pub fn number(&self, at: usize) -> u32
        requires { at < length self.now }
        ensures { result ≡ (get_or self.now at no_node).number }
    {
        let head = &self.heads[at];
        head.number
    }

    /// The step of the node at `at`, and its outcome.
    pub fn step_at<'a>(&'a self, at: usize) -> (&'a Step<A>, Outcome)
        requires { at < length self.now }
        ensures step { plain_step result.0.now ≡ (get_or self.now at no_node).step }
        ensures outcome { result.1 ≡ (get_or self.now at no_node).outcome }
    {
        let head = &self.heads[at];
        (&head.step, head.outcome)
    }

    /// The record of the node at `at`.
    pub fn record(&self, at: usize) -> RecordRef<'_, A>
        requires { at < length self.now }
        ensures { flat result ≡ (get_or self.now at no_node).undo }
    {
        self.records.record(at)
    }

    /// Adds the node that is held out behind the others.
    ///
    /// Err: a growth was refused, and the node is still there.
    pub fn push(&mut self, node: &mut Node<A>) -> Result<(), AllocError>
        requires { IsSome node.old }
        ensures ok { OnOk result ((n : PlainNode) → node.old ≡ Some n → self.new ≡ self.old ++ n ∷ []) }
        ensures err { OnErr result (self.new ≡ self.old) }
        ensures taken { OnOk result (node.new ≡ None) }
        ensures returned { OnErr result (node.new ≡ node.old) }
    {
        self.heads.reserve(1)?;
        self.records.push(&mut node.undo)?;
        let Some(step) = node.step.take() else {
            unreachable!();
        };
        match self.heads.push(Head {
            number: node.number,
            step,
            outcome: node.outcome,
        }) {
            Ok(()) => Ok(()),
            Err(_) => unreachable!(),
        }
    }

    /// Keeps the first `n` nodes.
    pub fn truncate(&mut self, n: usize)
        ensures { self.new ≡ take n self.old }
    {
        self.heads.truncate(n);
        self.records.truncate(n);
    }

    /// Turns the record of the node at `at`.
    pub fn turn(&mut self, at: usize, store: &mut Store<A>)
        requires within { at < length self.old }
        requires fits { Fits (undo_of self.old at) store.old }
        ensures state { store.new ≡ (turned (undo_of self.old at) store.old).0 }
        ensures run { self.new ≡ set self.old at (record (get_or self.old at no_node) { undo = (turned (undo_of self.old at) store.old).1 }) }
    {
        self.records.turn(at, store);
    }
}
