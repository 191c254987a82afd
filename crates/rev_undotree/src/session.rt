//! A session: a store, and the tree of all that was played on it.
ghost use Rattle.std.specs.Prelude.{◌≡◌, ◌≢◌, ◌++◌, ◌∷◌, [], ◌+◌, ◌-◌, ◌≤◌, ℕ, eqb, length, IfOk, IfErr, OnErr, OnOk, IsOk, IsTrue, ◌↔◌, Some, None, Err, true, false, not, ◌<◌, slice_get, IfSome, IfNone, IsNone, IsSome, ◌⊎◌};
ghost use Rattle.std.specs.Option.{option_map};
ghost use Rattle.rev_steps.specs.Plain.{plain_step};
ghost use Rattle.rev_tree.specs.Steps.{Sound, outcome_of};
ghost use Rattle.rev_tree.specs.Rows.{at, number_at, parent_of, row, row_of, Row, RowsFall};
ghost use Rattle.rev_tree.specs.Finds.{is_held};
ghost use Rattle.rev_tree.specs.Machine.{is_continued, nesting_below, lineage, distance, children};
ghost use Rattle.rev_tree.specs.Trails.{Trailed};
ghost use Rattle.rev_tree.specs.Prunes.{pruned, is_below};
ghost use Rattle.rev_undotree.specs.Faults.{IsFault, TooManyNodes, TooDeep};
ghost use Rattle.rev_tree.specs.Mentioned.{IsStill, IsOver, AreMentioned, Grows};
ghost use Rattle.rev_tree.specs.Named.{stored_keys, named};
ghost use Rattle.rev_tree.specs.Leading.{Notes};
ghost use Rattle.rev_tree.specs.Positions.{Stands, Grown, Proper};
ghost use Rattle.rev_tree.specs.Ways.{reach, IsWay};
ghost use Rattle.rev_tree.specs.Tree.{PlainNode};
ghost use Rattle.rev_tree.specs.Steps.{State, next, Undoes};
ghost use Rattle.rev_tree.specs.Mentions.{Within};

use arrayvec::ArrayVec;
use rev_inverse::{RecordRef, Store};
use rev_items::Key;
use rev_model::Outcome;
use rev_steps::{Step, apply};
use rev_tree::naming::mention;
use rev_tree::position::{Position, above, is_on_way};
use rev_tree::{Branch, Index, Junction, Mentions, Node};
use std::alloc::{AllocError, Allocator};
use std::marker::Model;
use thiserror::Error;

/// How many nodes a session ever makes, the root left out.
pub const MAX_NODES: u32 = 1048576;

/// A node of a session: 0 is the root, and the others are numbered from 1 as they are played.
#[derive(Clone, Copy, Debug, PartialEq, Eq, PartialOrd, Ord, Hash)]
pub struct NodeId(pub u32);

/// Why a play was refused.
#[derive(Clone, Copy, Debug, PartialEq, Eq, Drop, Error)]
pub enum PlayFault {
    /// As many numbers were given out as there are.
    #[error("too many nodes")]
    TooManyNodes,
    /// The node would be the 65th on its way from the root that forks off.
    #[error("too many nested forks")]
    TooDeep,
    #[error("out of memory")]
    Memory,
}

/// The current node is the root, which has no parent.
#[derive(Clone, Copy, Debug, PartialEq, Eq, Drop, Error)]
#[error("the current node is the root")]
pub struct AtRoot;

/// The current node has no child of this index.
#[derive(Clone, Copy, Debug, PartialEq, Eq, Drop, Error)]
#[error("no such child")]
pub struct NoChild;

/// No node that is held has this number.
#[derive(Clone, Copy, Debug, PartialEq, Eq, Drop, Error)]
#[error("no such node")]
pub struct NoNode;

/// Why a node was not pruned.
#[derive(Clone, Copy, Debug, PartialEq, Eq, Drop, Error)]
pub enum PruneFault {
    /// No node that is held has this number.
    #[error("no such node")]
    NoNode,
    /// The root stays.
    #[error("the root stays")]
    IsRoot,
    /// It is the current node, or stands on the way to it.
    #[error("on the way to the current node")]
    OnPath,
}

/// The node that a play made, and the outcome of its step.
#[derive(Clone, Copy, Debug, PartialEq, Eq)]
pub struct Played {
    pub node: NodeId,
    pub outcome: Outcome,
}

/// A store, and the tree of all that was played on it. The store stands at the current node.
#[derive(Drop)]
pub struct Session<A: Allocator> {
    position: Position<A>,
    mentions: Mentions<A>,
    issued: u32,
    alloc: A,
}

impl<A: Allocator> Model for Session<A> {
    ghost use Rattle.std.specs.Coded.{codes};
    ghost use Rattle.rev_model.specs.Codes.{coded_contents, coded_keys};
    ghost use Rattle.rev_tree.specs.Rows.{rows_of, number_at};
    ghost use Rattle.rev_tree.specs.States.{rewind};
    ghost use Rattle.rev_tree.specs.Positions.{SessionState};
    ghost use Rattle.rev_tree.specs.Mentioned.{Noted};

    ghost Value = { SessionState };

    ghost coded = { Prim.hlevel (codes, coded_contents, coded_keys) };

    ghost view = { λ a. record { root = rewind a.position.base a.position.way.items a.position.here a.position.store; rows = rows_of a.issued a.position.base; current = number_at a.position.base a.position.way.items a.position.here } };

    ghost invariant = { λ a. Noted (rewind a.position.base a.position.way.items a.position.here a.position.store) a.position.store a.position.base a.position.way.items a.position.here a.issued a.mentions a.position.index };
}

impl<A: Allocator + Clone> Session<A> {
    /// A session whose root is `store`, or the store where there is no memory.
    pub fn open(alloc: A, store: Store<A>) -> Result<Session<A>, (AllocError, Store<A>)>
        requires { Sound store }
        ensures ok { IfOk result (λ s. s ≡ record { root = store; rows = []; current = 0 }) }
        ensures err { IfErr result (λ e. e.1 ≡ store) }
    {
        let Ok(index) = Index::new(&alloc) else {
            return Err((AllocError, store));
        };
        let Ok(mentions) = Mentions::new(&alloc) else {
            return Err((AllocError, store));
        };
        let Ok(base) = Branch::root(&alloc) else {
            return Err((AllocError, store));
        };
        Ok(Session {
            position: Position {
                store,
                base,
                index,
                way: ArrayVec::new(),
                here: 0,
            },
            mentions,
            issued: 0,
            alloc,
        })
    }

    /// Plays a step below the current node; its node is then the current one. A refused step is handed back, and
    /// nothing is changed. TooManyNodes goes before TooDeep, and that before Memory: which comes only where there is no
    /// memory for the play with the buckets that the session began with.
    pub fn play(&mut self, step: Step<A>) -> Result<Played, (PlayFault, Step<A>)>
        ensures ok { IfOk result (λ p. self.new ≡ record { root = self.old.root; rows = self.old.rows ++ Some (row self.old.current (plain_step step) (not (is_continued self.old.rows self.old.current))) ∷ []; current = p.node.0 }) }
        ensures node { IfOk result (λ p. p.node.0 ≡ length self.old.rows + 1) }
        ensures outcome { IfOk result (λ p. p.outcome ≡ outcome_of (at self.old.root self.old.rows self.old.current) (plain_step step)) }
        ensures err { OnErr result (self.new ≡ self.old) }
        ensures many { IsFault result TooManyNodes ↔ (length self.old.rows ≡ 1048576) }
        ensures deep { IsFault result TooDeep ↔ ((length self.old.rows < 1048576) × (64 < nesting_below self.old.rows self.old.current)) }
        ensures returned { IfErr result (λ e. plain_step e.1 ≡ plain_step step) }
    {
        match self.play_once(step) {
            Ok(played) => Ok(played),
            Err((PlayFault::Memory, step)) => self.play_narrowed(step),
            Err(refused) => Err(refused),
        }
    }

    // Plays a step for which there was no memory once more, where some can be given back.
    #[cold]
    fn play_narrowed(&mut self, step: Step<A>) -> Result<Played, (PlayFault, Step<A>)>
        // memory was what it was refused for
        requires many { length self.old.rows ≢ 1048576 }
        requires deep { (length self.old.rows < 1048576) × (64 < nesting_below self.old.rows self.old.current) → ⊥ }
        ensures ok { IfOk result (λ p. self.new ≡ record { root = self.old.root; rows = self.old.rows ++ Some (row self.old.current (plain_step step) (not (is_continued self.old.rows self.old.current))) ∷ []; current = p.node.0 }) }
        ensures node { IfOk result (λ p. p.node.0 ≡ length self.old.rows + 1) }
        ensures outcome { IfOk result (λ p. p.outcome ≡ outcome_of (at self.old.root self.old.rows self.old.current) (plain_step step)) }
        ensures err { OnErr result (self.new ≡ self.old) }
        ensures many { IsFault result TooManyNodes ↔ (length self.old.rows ≡ 1048576) }
        ensures deep { IsFault result TooDeep ↔ ((length self.old.rows < 1048576) × (64 < nesting_below self.old.rows self.old.current)) }
        ensures returned { IfErr result (λ e. plain_step e.1 ≡ plain_step step) }
    {
        if self.narrow() {
            self.play_once(step)
        } else {
            Err((PlayFault::Memory, step))
        }
    }

    /// Plays a step as `play` does, with the buckets that there are: who meets a want of memory may `narrow` and play
    /// it again, as `play` does.
    pub fn play_once(&mut self, step: Step<A>) -> Result<Played, (PlayFault, Step<A>)>
        ensures ok { IfOk result (λ p. self.new ≡ record { root = self.old.root; rows = self.old.rows ++ Some (row self.old.current (plain_step step) (not (is_continued self.old.rows self.old.current))) ∷ []; current = p.node.0 }) }
        ensures node { IfOk result (λ p. p.node.0 ≡ length self.old.rows + 1) }
        ensures outcome { IfOk result (λ p. p.outcome ≡ outcome_of (at self.old.root self.old.rows self.old.current) (plain_step step)) }
        ensures err { OnErr result (self.new ≡ self.old) }
        ensures many { IsFault result TooManyNodes ↔ (length self.old.rows ≡ 1048576) }
        ensures deep { IsFault result TooDeep ↔ ((length self.old.rows < 1048576) × (64 < nesting_below self.old.rows self.old.current)) }
        ensures returned { IfErr result (λ e. plain_step e.1 ≡ plain_step step) }
    {
        if self.issued == MAX_NODES {
            return Err((PlayFault::TooManyNodes, step));
        }
        if !self.position.has_room() {
            return Err((PlayFault::TooDeep, step));
        }
        let Ok((outcome, undo)) = apply(&mut self.position.store, &step) else {
            return Err((PlayFault::Memory, step));
        };
        let number = self.issued + 1;
        let mut node = Node {
            number,
            step: Some(step),
            outcome,
            undo,
        };
        match add(
            &mut self.position,
            &mut self.mentions,
            &self.alloc,
            &mut node,
        ) {
            Ok(()) => {
                // nothing is left in it: a drop by a call is proved once
                drop(node);
                self.issued = number;
                Ok(Played {
                    node: NodeId(number),
                    outcome,
                })
            }
            Err(_) => {
                let Node {
                    number: _,
                    step,
                    outcome: _,
                    mut undo,
                } = node;
                match step {
                    Some(step) => {
                        self.position.store.turn(&mut undo);
                        Err((PlayFault::Memory, step))
                    }
                    None => unreachable!(),
                }
            }
        }
    }

    /// Gives the memory back that was taken for speed alone: that of more buckets, for the index of the store and for
    /// the log of mentions, than the session began with. More are asked for again once there are an eighth more keys,
    /// or mentions. The answer is whether there was such memory. It takes none, and time in the number of keys and
    /// mentions.
    pub fn narrow(&mut self) -> bool
        ensures { self.new ≡ self.old }
    {
        let had_keys = self.position.store.narrow();
        let had_mentions = self.mentions.narrow();
        had_keys || had_mentions
    }

    /// The store at the current node: what the steps from the root to it give from scratch.
    pub fn store(&self) -> &Store<A>
        ensures state { result.now ≡ at self.now.root self.now.rows self.now.current }
        ensures sound { Sound result.now }
    {
        &self.position.store
    }

    /// Begins anew where the session stands: the current state is the root from now on, and the tree is let go with all
    /// its steps and records. No memory is taken.
    pub fn restart(&mut self)
        ensures { self.new ≡ record { root = at self.old.root self.old.rows self.old.current; rows = []; current = 0 } }
    {
        self.position.uproot();
        self.mentions.clear();
        self.issued = 0;
    }

    /// The current node.
    pub fn current(&self) -> NodeId
        ensures { result.0 ≡ self.now.current }
    {
        NodeId(self.position.number())
    }

    /// How many numbers were given out, the root's left out.
    pub fn issued(&self) -> u32
        ensures { result ≡ length self.now.rows }
    {
        self.issued
    }

    /// How many nodes stand on the way to the current node, itself included and the root left out.
    pub fn depth(&self) -> usize
        ensures { result ≡ length (lineage self.now.rows self.now.current) }
    {
        self.position.depth()
    }

    /// The node at `depth` of the way to the current node, from 1, with its step, the step's outcome, and its record,
    /// which leads back to its parent and tells which keys the step took out of the index, each with its cause.
    pub fn trail<'a>(
        &'a self,
        depth: usize,
    ) -> Option<(NodeId, &'a Step<A>, Outcome, RecordRef<'a, A>)>
        ensures some { IfSome result (λ x. Trailed self.now depth x.0.0 (plain_step x.1.now) x.2 x.3) }
        ensures none { IsNone result ↔ ((depth ≡ 0) ⊎ (length (lineage self.now.rows self.now.current) < depth)) }
    {
        if depth == 0 {
            return None;
        }
        if depth > self.position.depth() {
            return None;
        }
        let (level, at) = self.position.ancestor(depth);
        let branch = self.position.base.reach(&self.position.way[..level]);
        let place = at - 1;
        let (step, outcome) = branch.step_at(place);
        let number = branch.number(place);
        Some((NodeId(number), step, outcome, branch.record(place)))
    }

    // Whether the node at `depth` of the way to the current node has a number over `number`.
    fn is_over(&self, number: u32, depth: usize) -> bool
        ensures { IsTrue result → IsOver self.now number depth }
    {
        match self.trail(depth) {
            Some((node, _, _, _)) => node.0 > number,
            None => false,
        }
    }

    // A depth, from `first` to `depth`, behind which each node of the way up to `depth` has a number over `number`. It
    // is looked for from `first` on, in steps that double.
    fn depth_of(&self, number: u32, first: usize, depth: usize) -> usize
        requires { first ≤ depth }
        ensures within { result ≤ depth }
        ensures above { (d n : ℕ) → result < d → d ≤ depth → slice_get (lineage self.now.rows self.now.current) (d - 1) ≡ Some n → number < n }
    {
        let mut low = first;
        let mut high = depth;
        'narrow: while low < high {
            let half = (high - low).div_ceil(2);
            let middle = low + half.min(low - first + 1);
            if self.is_over(number, middle) {
                high = middle - 1;
            } else {
                low = middle;
            }
        }
        high
    }

    /// A depth, at most `depth`, behind which nothing befell the key up to `depth` on the way to the current node: it
    /// had no event there, and stayed where it was. It is found by the last node that mentions the key's hash; that it
    /// is not further down than it must be is speed, and not promised.
    pub fn last_mention(&self, key: &Key<A>, depth: usize) -> usize
        ensures within { result ≤ depth }
        ensures still { IsStill self.now key.now result depth }
        ensures falls { RowsFall self.now.rows }
    {
        let mentions = &self.mentions;
        match self.trail(depth) {
            Some((node, _, _, _)) => {
                let latest = mentions.latest(key.hash(), node.0);
                let passed = (node.0 - latest) as usize;
                self.depth_of(latest, depth.saturating_sub(passed), depth)
            }
            None => depth,
        }
    }

    /// The parent of a node that is held, none for the root.
    pub fn parent(&self, node: NodeId) -> Option<NodeId>
        ensures { option_map (λ n. n.0) result ≡ parent_of self.now.rows node.0 }
    {
        if node.0 == 0 {
            return None;
        }
        let mut way = ArrayVec::new();
        match self.position.find(node.0, self.issued, &mut way) {
            Some(at) => {
                let here = above(&mut way, at);
                Some(NodeId(self.position.number_at(way.as_slice(), here)))
            }
            None => None,
        }
    }

    /// The step and the outcome of a node that is held, none for the root.
    pub fn row<'a>(&'a self, node: NodeId) -> Option<(&'a Step<A>, Outcome)>
        ensures some { IfSome result (λ x. (r : Row) × (row_of self.now.rows node.0 ≡ Some r) × (plain_step x.0.now ≡ r.step) × (x.1 ≡ outcome_of (at self.now.root self.now.rows r.parent) r.step)) }
        ensures none { IfNone result (row_of self.now.rows node.0 ≡ None) }
    {
        if node.0 == 0 {
            return None;
        }
        let mut way = ArrayVec::new();
        match self.position.find(node.0, self.issued, &mut way) {
            Some(at) => Some(self.position.base.reach(way.as_slice()).step_at(at - 1)),
            None => None,
        }
    }

    /// The parent, the step and the outcome of a node that is held, none for the root: what `parent` and `row` tell, by
    /// one search for the node.
    #[inline(always)]
    pub fn row_with_parent<'a>(&'a self, node: NodeId) -> Option<(NodeId, &'a Step<A>, Outcome)>
        ensures some { IfSome result (λ x. (r : Row) × (row_of self.now.rows node.0 ≡ Some r) × (x.0.0 ≡ r.parent) × (plain_step x.1.now ≡ r.step) × (x.2 ≡ outcome_of (at self.now.root self.now.rows r.parent) r.step)) }
        ensures none { IfNone result (row_of self.now.rows node.0 ≡ None) }
    {
        if node.0 == 0 {
            return None;
        }
        let mut way = ArrayVec::new();
        match self.position.find(node.0, self.issued, &mut way) {
            Some(at) => {
                let (step, outcome) = self.position.base.reach(way.as_slice()).step_at(at - 1);
                let here = above(&mut way, at);
                let parent = self.position.number_at(way.as_slice(), here);
                Some((NodeId(parent), step, outcome))
            }
            None => None,
        }
    }

    /// The child by number `index` of a node that is held, counted from 0 by rising number.
    pub fn child(&self, node: NodeId, index: usize) -> Option<NodeId>
        ensures { option_map (λ n. n.0) result ≡ slice_get (children self.now.rows node.0) index }
    {
        let mut way = ArrayVec::new();
        match self.position.find(node.0, self.issued, &mut way) {
            Some(at) => match self.position.base.reach(way.as_slice()).child(at, index) {
                Some(number) => Some(NodeId(number)),
                None => None,
            },
            None => None,
        }
    }

    /// Goes to the child by number `index` of the current node, counted from 0 by rising number.
    pub fn forward(&mut self, index: usize) -> Result<NodeId, NoChild>
        ensures ok { IfOk result (λ n. (slice_get (children self.old.rows self.old.current) index ≡ Some n.0) × (self.new ≡ record self.old { current = n.0 })) }
        ensures err { OnErr result ((slice_get (children self.old.rows self.old.current) index ≡ None) × (self.new ≡ self.old)) }
    {
        match self.child(self.current(), index) {
            Some(node) => match self.go(node) {
                Ok(_) => Ok(node),
                Err(_) => Err(NoChild),
            },
            None => Err(NoChild),
        }
    }

    /// Goes back to the parent.
    pub fn back(&mut self) -> Result<NodeId, AtRoot>
        ensures ok { IfOk result (λ n. (parent_of self.old.rows self.old.current ≡ Some n.0) × (self.new ≡ record self.old { current = n.0 })) }
        ensures err { OnErr result ((self.old.current ≡ 0) × (self.new ≡ self.old)) }
    {
        if self.position.here == 0 {
            return Err(AtRoot);
        }
        self.position.retreat();
        Ok(NodeId(self.position.number()))
    }

    /// Goes to a node that is held, or to the root. The answer is the number of records that were turned.
    pub fn go(&mut self, node: NodeId) -> Result<u32, NoNode>
        ensures turns { IfOk result (λ n. n ≡ distance self.old.rows self.old.current node.0) }
        ensures held { IsOk result ↔ IsTrue (is_held self.old.rows node.0) }
        ensures ok { OnOk result (self.new ≡ record self.old { current = node.0 }) }
        ensures err { OnErr result (self.new ≡ self.old) }
    {
        let mut way = ArrayVec::new();
        match self.position.find(node.0, self.issued, &mut way) {
            Some(at) => Ok(self.position.go(way.as_slice(), at)),
            None => Err(NoNode),
        }
    }

    /// Takes a node and all below it out of the tree. NoNode goes before IsRoot, and that before OnPath; at a refusal
    /// nothing is changed. Its numbers are not given out again.
    pub fn prune(&mut self, node: NodeId) -> Result<(), PruneFault>
        ensures ok { OnOk result (self.new ≡ record self.old { rows = pruned self.old.rows node.0 }) }
        ensures err { OnErr result (self.new ≡ self.old) }
        ensures missing { (result ≡ Err PruneFault.NoNode) ↔ (is_held self.old.rows node.0 ≡ false) }
        ensures root { (result ≡ Err PruneFault.IsRoot) ↔ (node.0 ≡ 0) }
        ensures path { (result ≡ Err PruneFault.OnPath) ↔ (is_below self.old.rows node.0 self.old.current ≡ true) }
    {
        let mut way = ArrayVec::new();
        match self.position.find(node.0, self.issued, &mut way) {
            None => Err(PruneFault::NoNode),
            Some(at) => {
                if node.0 == 0 {
                    return Err(PruneFault::IsRoot);
                }
                if is_on_way(
                    way.as_slice(),
                    at,
                    self.position.way.as_slice(),
                    self.position.here,
                ) {
                    return Err(PruneFault::OnPath);
                }
                self.position.base.prune(way.as_slice(), at - 1);
                Ok(())
            }
        }
    }
}

// Mentions the keys that the step of the node that is held out names, adds the node below the position and moves to it.
// The store stands there already. Err: a growth was refused, and the node is still there.
fn add<A: Allocator + Clone>(
    position: &mut Position<A>,
    mentions: &mut Mentions<A>,
    alloc: &A,
    held: &mut Node<A>,
) -> Result<(), AllocError>
    requires way { IsWay position.old.base position.old.way.items }
    requires proper { Proper position.old.way.items position.old.here }
    requires within_run { position.old.here ≤ length (reach position.old.base position.old.way.items).run }
    requires room { (position.old.here ≡ length (reach position.old.base position.old.way.items).run) ⊎ (length position.old.way.items < 64) }
    requires node { IsSome held.old }
    requires within { (n : PlainNode) → held.old ≡ Some n → Within mentions.old n.number }
    ensures ok { OnOk result ((n : PlainNode) → held.old ≡ Some n → (root before : State) → Stands root before position.old.base position.old.way.items position.old.here → position.old.store ≡ next before n.step → Undoes n.undo before n.step → n.outcome ≡ outcome_of before n.step → Grown root position.old.base position.old.way.items position.old.here position.new.store position.new.base position.new.way.items position.new.here n.number n.step (eqb position.old.here (length (reach position.old.base position.old.way.items).run))) }
    ensures err { OnErr result ((position.new.store ≡ position.old.store) × (position.new.base ≡ position.old.base) × (position.new.way ≡ position.old.way) × (position.new.here ≡ position.old.here)) }
    ensures notes { OnOk result (Notes position.old.index (number_at position.old.base position.old.way.items position.old.here) position.old.way.items position.new.index position.new.way.items) }
    ensures index { OnErr result (position.new.index ≡ position.old.index) }
    ensures taken { OnOk result (held.new ≡ None) }
    ensures returned { OnErr result (held.new ≡ held.old) }
    ensures named { OnOk result ((n : PlainNode) → held.old ≡ Some n → AreMentioned mentions.new (stored_keys n.step n.outcome ++ named position.old.store n.undo.moves) n.number) }
    ensures grows { (n : PlainNode) → held.old ≡ Some n → Grows mentions.old mentions.new n.number }
{
    match held.step.as_ref() {
        Some(step) => mention(
            mentions,
            &position.store,
            step,
            held.outcome,
            &held.undo,
            held.number,
        )?,
        None => unreachable!(),
    }
    position.grow(alloc, held)
}
