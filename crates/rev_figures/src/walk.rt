//! The way from the current node up to the root, on which the rows of the path are read.
ghost use Rattle.std.specs.Prelude.{◌≡◌, ◌++◌, ◌∷◌, [], ◌<◌, ◌≤◌, List, ℕ, IfOk, OnOk, cond, length, nat_eq, reverse};
ghost use Rattle.rev_model.specs.State.{owner_of, find, IsClass};
ghost use Rattle.rev_model.specs.Sound.{Sound};
ghost use Rattle.rev_model.specs.Actor.{owned_pages};
ghost use Rattle.rev_model.specs.Events.{item_of};
ghost use Rattle.rev_requests.specs.Plain.{plain_step};
ghost use Rattle.rev_tree.specs.Machine.{lineage};
ghost use Rattle.rev_figures.specs.Asks.{asked_at};
ghost use Rattle.rev_figures.specs.Asking.{ask_in};
ghost use Rattle.rev_figures.specs.Kinds.{command_key as key_of};
ghost use Rattle.rev_figures.specs.Rows.{class_of as class_in, key_class as held_in, named_class, step_row, is_fetched, idle_of, leaving_row, leaving_rows, move_rows, class_bytes, bytes_rows};
ghost use Rattle.rev_figures.specs.Paths.{slot_length as slot_length_of, ends_slot as is_slot_end, path_steps, path_leavings, path_moves, path_bytes};
ghost use Rattle.rev_figures.specs.Climbing.{HasClimbed};

use crate::asks::Asks;
use crate::gone::{Gone, add_gone};
use crate::kinds::{command_key, kind_of};
use crate::path::{Leaving, PageMove, Path, PathStep, QueueBytes};
use rev_inverse::{RecordRef, Store};
use rev_items::Key;
use rev_model::{Outcome, Queue};
use rev_requests::Step;
use rev_undotree::{NodeId, Session};
use std::alloc::{AllocError, Allocator};

/// The most slots that a path is cut into.
const MOST_SLOTS: usize = 120;

/// How many steps a slot has, of a path of so many.
fn slot_length(steps: usize) -> usize
    ensures value { result ≡ slot_length_of steps }
    ensures some { 0 < result }
{
    if steps == 0 {
        1
    } else {
        (steps - 1) / MOST_SLOTS + 1
    }
}

/// Whether a slot ends at a step, counted from 1, of a path of so many.
fn ends_slot(step: usize, slot_length: usize, steps: usize) -> bool
    requires { 0 < slot_length }
    ensures { result ≡ is_slot_end step slot_length steps }
{
    step == steps || step % slot_length == 0
}

/// The class of a page.
fn page_class<A: Allocator>(store: &Store<A>, page: u16) -> u8
    requires sound { Sound store.now }
    requires made { page < length store.now.owner }
    ensures { result ≡ owner_of store.now page }
{
    let _last = store.table().last();
    store.owner(page as usize) as u8
}

/// The class that holds a key, 0 where none does.
fn key_class<A: Allocator>(store: &Store<A>, key: &Key<A>) -> u8
    requires { Sound store.now }
    ensures { result ≡ held_in store.now key.now }
{
    match store.find(key) {
        Some(chunk) => page_class(store, chunk.page),
        None => 0,
    }
}

/// The class that holds the key of a step's command, 0 where none does.
fn step_class<A: Allocator>(store: &Store<A>, step: &Step<A>) -> u8
    requires { Sound store.now }
    ensures { result ≡ named_class store.now (key_of (plain_step step.now)) }
{
    match command_key(step) {
        Some(key) => key_class(store, key),
        None => 0,
    }
}

/// Adds the row of a step; the store stands behind it.
fn add_step<A: Allocator>(
    steps: &mut Vec<PathStep, A>,
    store: &Store<A>,
    node: NodeId,
    step: &Step<A>,
    outcome: Outcome,
) -> Result<(), AllocError>
    requires { Sound store.now }
    ensures { OnOk result (steps.new.items ≡ steps.old.items ++ step_row node.0 store.now (plain_step step.now) outcome ∷ []) }
{
    steps.push(PathStep {
        node,
        second: store.globals().clock,
        kind: kind_of(step, outcome),
        class: step_class(store, step),
    })?;
    Ok(())
}

/// How many pages of the class a page of this owner is: one, or none.
fn page_count(owner: usize, class: usize) -> usize
    ensures count { result ≡ cond (nat_eq owner class) 1 0 }
    ensures within { result ≤ 1 }
{
    if owner == class { 1 } else { 0 }
}

/// How many pages a class owns.
fn count_pages<A: Allocator>(store: &Store<A>, class: usize) -> usize
    ensures { result ≡ owned_pages class store.now.owner }
{
    let mut count = 0;
    for page in 0..store.made() {
        count += page_count(store.owner(page), class);
    }
    count
}

/// Adds the row of a class that owns pages.
fn add_class_bytes<A: Allocator>(
    bytes: &mut Vec<QueueBytes, A>,
    store: &Store<A>,
    step: usize,
    class: usize,
) -> Result<(), AllocError>
    requires sound { Sound store.now }
    requires class { IsClass store.now.fixed class }
    ensures { OnOk result (bytes.new.items ≡ bytes.old.items ++ class_bytes store.now step class) }
{
    let pages = count_pages(store, class);
    if pages == 0 {
        return Ok(());
    }
    bytes.push(QueueBytes {
        step,
        class,
        pages,
        hot: store.bytes(class, Queue::Hot),
        warm: store.bytes(class, Queue::Warm),
        cold: store.bytes(class, Queue::Cold),
        temp: store.bytes(class, Queue::Temp),
    })?;
    Ok(())
}

/// Adds the rows of all classes that own pages, the last class first.
pub fn add_bytes<A: Allocator>(
    bytes: &mut Vec<QueueBytes, A>,
    store: &Store<A>,
    step: usize,
) -> Result<(), AllocError>
    requires { Sound store.now }
    ensures { OnOk result (bytes.new.items ≡ bytes.old.items ++ reverse (bytes_rows store.now step)) }
{
    let mut class = store.table().last();
    'classes: while class > 0 {
        add_class_bytes(bytes, store, step, class)?;
        class -= 1;
    }
    Ok(())
}

/// Adds the same rows where a slot ends at the step.
fn add_slot_end<A: Allocator>(
    bytes: &mut Vec<QueueBytes, A>,
    store: &Store<A>,
    step: usize,
    slot_length: usize,
    steps: usize,
) -> Result<(), AllocError>
    requires sound { Sound store.now }
    requires slot { 0 < slot_length }
    ensures { OnOk result (bytes.new.items ≡ bytes.old.items ++ reverse (cond (is_slot_end step slot_length steps) (bytes_rows store.now step) [])) }
{
    if ends_slot(step, slot_length, steps) {
        add_bytes(bytes, store, step)
    } else {
        Ok(())
    }
}

/// Adds the row of a page that moved, if one did; the store stands before the step.
fn add_move<A: Allocator>(
    moves: &mut Vec<PageMove, A>,
    store: &Store<A>,
    step: usize,
    second: u32,
    outcome: Outcome,
) -> Result<(), AllocError>
    ensures { OnOk result (moves.new.items ≡ moves.old.items ++ move_rows store.now step second outcome) }
{
    match outcome {
        Outcome::Finished => {}
        _ => return Ok(()),
    }
    match store.globals().mover {
        Some(mover) => {
            moves.push(PageMove {
                step,
                second,
                from: mover.src,
                to: mover.dst,
            })?;
            Ok(())
        }
        None => Ok(()),
    }
}

/// What the item of a key tells, where there is one: whether it was hit since it was stored, and how many seconds ago
/// it was stored or last bumped.
fn key_use<A: Allocator>(store: &Store<A>, key: &Key<A>) -> (bool, u32)
    ensures { result ≡ (is_fetched (item_of store.now (find store.now key.now)), idle_of store.now (item_of store.now (find store.now key.now))) }
{
    let Some(chunk) = store.find(key) else {
        return (false, 0);
    };
    match store.header(chunk) {
        Some(header) => (
            header.bits.fetched,
            store.globals().clock.saturating_sub(header.time),
        ),
        None => (false, 0),
    }
}

/// The row of a key that left; the store stands before the step.
fn leaving<A: Allocator + Clone>(
    store: &Store<A>,
    step: usize,
    second: u32,
    asks: &Asks<A>,
    gone: &Gone<A>,
) -> Leaving
    requires { Sound store.now }
    ensures { result ≡ leaving_row store.now step second gone.now (ask_in asks.now.keys.entries gone.now.key) }
{
    let (fetched, idle) = key_use(store, &gone.key);
    let ask = asks.get(&gone.key);
    Leaving {
        node: gone.node,
        step,
        second,
        cause: gone.cause,
        class: key_class(store, &gone.key),
        fetched,
        idle,
        asks: ask.count,
        asked_after: ask.first.saturating_sub(second),
    }
}

/// Adds the rows of the keys that left; the store stands before the step.
fn add_leavings<A: Allocator + Clone>(
    leavings: &mut Vec<Leaving, A>,
    store: &Store<A>,
    step: usize,
    second: u32,
    asks: &Asks<A>,
    gone: &[Gone<A>],
) -> Result<(), AllocError>
    requires { Sound store.now }
    ensures { OnOk result (leavings.new.items ≡ leavings.old.items ++ leaving_rows store.now step second (λ k. ask_in asks.now.keys.entries k) gone.now) }
{
    for key in gone {
        leavings.push(leaving(store, step, second, asks, key))?;
    }
    Ok(())
}

/// Notes which key a step's command asked for, or stored.
fn note_step<A: Allocator + Clone>(
    asks: &mut Asks<A>,
    second: u32,
    step: &Step<A>,
    outcome: Outcome,
) -> Result<(), AllocError>
    ensures { OnOk result ((k : List ℕ) → ask_in asks.new.keys.entries k ≡ asked_at k (plain_step step.now) outcome second (ask_in asks.old.keys.entries k)) }
{
    match command_key(step) {
        Some(key) => asks.note(kind_of(step, outcome), key, second),
        None => Ok(()),
    }
}

/// Goes up to the root, and reads each node on the way: its rows are added behind those of the nodes below it.
#[tactic(auto, using(crate::proofs::Climbing::has_climbed))]
fn climb<A: Allocator + Clone>(
    session: &mut Session<A>,
    path: &mut Path<A>,
    slot_length: usize,
    asks: &mut Asks<A>,
    alloc: &A,
) -> Result<(), AllocError>
    requires slot { 0 < slot_length }
    requires asks { asks.old.keys.entries ≡ [] }
    ensures climbed { HasClimbed session.old session.new }
    ensures root { OnOk result (lineage session.new.rows session.new.current ≡ []) }
    ensures steps { OnOk result (path.new.steps.items ≡ path.old.steps.items ++ reverse (path_steps session.old.root session.old.rows session.old.current)) }
    ensures leavings { OnOk result (path.new.leavings.items ≡ path.old.leavings.items ++ reverse (path_leavings session.old.root session.old.rows session.old.current)) }
    ensures moves { OnOk result (path.new.moves.items ≡ path.old.moves.items ++ reverse (path_moves session.old.root session.old.rows session.old.current)) }
    ensures bytes { OnOk result (slot_length ≡ slot_length_of (length (lineage session.old.rows session.old.current)) → path.new.bytes.items ≡ path.old.bytes.items ++ reverse (path_bytes session.old.root session.old.rows session.old.current)) }
{
    let steps = session.depth();
    let mut depth = steps;
    let mut gone = Vec::new(alloc.clone()?);
    'nodes: while let Some((node, step, outcome, trace)) = session.trail(depth) {
        let second = session.store().globals().clock;
        add_step(&mut path.steps, session.store(), node, step, outcome)?;
        note_step(asks, second, step, outcome)?;
        gone.clear();
        add_gone(&mut gone, node, step, outcome, &trace, alloc)?;
        add_slot_end(&mut path.bytes, session.store(), depth, slot_length, steps)?;
        match session.back() {
            Ok(_) => {}
            Err(_) => unreachable!(),
        }
        add_move(&mut path.moves, session.store(), depth, second, outcome)?;
        add_leavings(
            &mut path.leavings,
            session.store(),
            depth,
            second,
            asks,
            &gone,
        )?;
        depth -= 1;
    }
    Ok(())
}

/// A path of which nothing is read.
fn empty_path<A: Allocator + Clone>(alloc: &A) -> Result<Path<A>, AllocError>
    ensures steps { IfOk result (λ path. path.steps.items ≡ []) }
    ensures leavings { IfOk result (λ path. path.leavings.items ≡ []) }
    ensures moves { IfOk result (λ path. path.moves.items ≡ []) }
    ensures bytes { IfOk result (λ path. path.bytes.items ≡ []) }
{
    Ok(Path {
        start: 0,
        slot_length: 1,
        steps: Vec::new(alloc.clone()?),
        leavings: Vec::new(alloc.clone()?),
        moves: Vec::new(alloc.clone()?),
        bytes: Vec::new(alloc.clone()?),
    })
}

/// Reads the path from the root to the current node, and leaves the session at a node on it: at the root, where no
/// memory was refused.
#[tactic(auto, using(crate::proofs::Returning::stays_put))]
fn read_path<A: Allocator + Clone>(
    session: &mut Session<A>,
    alloc: &A,
) -> Result<Path<A>, AllocError>
    ensures climbed { HasClimbed session.old session.new }
    ensures start { IfOk result (λ path. path.start ≡ session.old.root.globals.clock) }
    ensures slot_length { IfOk result (λ path. path.slot_length ≡ slot_length_of (length (lineage session.old.rows session.old.current))) }
    ensures steps { IfOk result (λ path. path.steps.items ≡ path_steps session.old.root session.old.rows session.old.current) }
    ensures leavings { IfOk result (λ path. path.leavings.items ≡ path_leavings session.old.root session.old.rows session.old.current) }
    ensures moves { IfOk result (λ path. path.moves.items ≡ path_moves session.old.root session.old.rows session.old.current) }
    ensures bytes { IfOk result (λ path. path.bytes.items ≡ path_bytes session.old.root session.old.rows session.old.current) }
{
    let slot_length = slot_length(session.depth());
    let mut path = empty_path(alloc)?;
    let mut asks = Asks::new(alloc);
    climb(session, &mut path, slot_length, &mut asks, alloc)?;
    path.start = session.store().globals().clock;
    path.slot_length = slot_length;
    path.steps.reverse();
    path.leavings.reverse();
    path.moves.reverse();
    path.bytes.reverse();
    Ok(path)
}

/// Reads the path from the root to the current node, in time that grows with its steps. The session goes up to the root
/// and back again, so it stands where it stood, also where memory is refused. The lists are the store's allocator's.
///
/// Err: a growth was refused.
pub fn gather<A: Allocator + Clone>(session: &mut Session<A>) -> Result<Path<A>, AllocError>
    ensures stands { session.new ≡ session.old }
    ensures start { IfOk result (λ path. path.start ≡ session.old.root.globals.clock) }
    ensures slot_length { IfOk result (λ path. path.slot_length ≡ slot_length_of (length (lineage session.old.rows session.old.current))) }
    ensures steps { IfOk result (λ path. path.steps.items ≡ path_steps session.old.root session.old.rows session.old.current) }
    ensures leavings { IfOk result (λ path. path.leavings.items ≡ path_leavings session.old.root session.old.rows session.old.current) }
    ensures moves { IfOk result (λ path. path.moves.items ≡ path_moves session.old.root session.old.rows session.old.current) }
    ensures bytes { IfOk result (λ path. path.bytes.items ≡ path_bytes session.old.root session.old.rows session.old.current) }
{
    let stood = session.current();
    let alloc = session.store().alloc()?;
    let path = read_path(session, &alloc);
    let _turned = session.go(stood);
    path
}
