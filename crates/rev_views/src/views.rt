//! What is told of a node, of the way from the root to the current node, and of the slab classes.
ghost use Rattle.std.specs.Prelude.{◌≡◌, ◌++◌, OnOk};
ghost use Rattle.rev_requests.specs.Plain.{plain_client, plain_step};
ghost use Rattle.rev_tree.specs.Rows.{row_of};
ghost use Rattle.rev_explain.specs.Departures.{departures as departures_of, last_of};
ghost use Rattle.rev_explain.specs.Clocks.{node_by};
ghost use Rattle.rev_views.specs.Views.{departure_text, departures_text, client_subject, queue_name, step_subject, played_text, numbers_text, root_text, step_text, time_text, after_time};

use crate::reasons::put_left;
use crate::tree::put_go;
use rev_evidence::notes::LogNotes;
use rev_explain::events::Departure;
use rev_explain::{clock_at, departures, node_by_time};
use rev_model::{Outcome, Queue};
use rev_requests::{ActorStep, ClientStep, Step};
use rev_texts::text::{put_field, put_number, put_output, queue_text};
use rev_texts::words::{outcome_word, step_word};
use rev_undotree::{NodeId, Session};
use std::alloc::{AllocError, Allocator};

// Writes the line of a key that left.
fn put_departure<A: Allocator + Clone>(
    log: &LogNotes<A>,
    departure: &Departure<'_, A>,
    out: &mut Vec<u8, A>,
) -> Result<(), AllocError>
    ensures { OnOk result (out.new.items ≡ out.old.items ++ departure_text log.now departure.now) }
{
    put_number(out, departure.node.0 as u64)?;
    out.extend_from_slice(b" ")?;
    out.extend_from_slice(departure.key.bytes())?;
    out.extend_from_slice(b" ")?;
    put_left(out, log, departure.node, departure.cause, departure.key)?;
    out.extend_from_slice(b"\r\n")
}

/// Writes a line for each key that left on the way from the root to the current node, with what the log tells of it,
/// the last `limit` of them or all, and `END`.
pub fn put_gone<A: Allocator + Clone>(
    session: &Session<A>,
    log: &LogNotes<A>,
    limit: Option<u32>,
    out: &mut Vec<u8, A>,
) -> Result<(), AllocError>
    ensures { OnOk result (out.new.items ≡ out.old.items ++ departures_text log.now (last_of limit (departures_of session.now.root session.now.rows session.now.current))) }
{
    for departure in departures(session, limit)? {
        put_departure(log, &departure, out)?;
    }
    put_output(out, b"END")
}

// What a client's step names: its key, or `-`.
fn client_subject<A: Allocator>(step: &ClientStep<A>) -> &[u8]
    ensures { result.now ≡ client_subject (plain_client step.now) }
{
    match step {
        ClientStep::Store { key, .. } => key.bytes(),
        ClientStep::Join { key, .. } => key.bytes(),
        ClientStep::Keyed { key, .. } => key.bytes(),
        ClientStep::FlushAll { .. } => b"-",
    }
}

// Writes a class and a queue of it.
fn put_queue_name<A: Allocator>(
    out: &mut Vec<u8, A>,
    class: u32,
    queue: Queue,
) -> Result<(), AllocError>
    ensures { OnOk result (out.new.items ≡ out.old.items ++ queue_name class queue) }
{
    put_number(out, class as u64)?;
    out.extend_from_slice(b" ")?;
    out.extend_from_slice(queue_text(queue))
}

// Writes what a step names: its key, its class and queue, or `-`.
fn put_subject<A: Allocator, B: Allocator>(
    out: &mut Vec<u8, A>,
    step: &Step<B>,
) -> Result<(), AllocError>
    ensures { OnOk result (out.new.items ≡ out.old.items ++ step_subject (plain_step step.now)) }
{
    match step {
        Step::Client(step) => out.extend_from_slice(client_subject(step)),
        Step::Actor(ActorStep::Pull { class, queue }) => put_queue_name(out, *class, *queue),
        Step::Actor(ActorStep::Crawl { class, queue }) => put_queue_name(out, *class, *queue),
        _ => out.extend_from_slice(b"-"),
    }
}

// Writes what a step is, what it was answered, and what it names.
fn put_played<A: Allocator, B: Allocator>(
    out: &mut Vec<u8, A>,
    step: &Step<B>,
    outcome: Outcome,
) -> Result<(), AllocError>
    ensures { OnOk result (out.new.items ≡ out.old.items ++ played_text (plain_step step.now) outcome) }
{
    out.extend_from_slice(step_word(step))?;
    out.extend_from_slice(b" ")?;
    out.extend_from_slice(outcome_word(outcome))?;
    out.extend_from_slice(b" ")?;
    put_subject(out, step)
}

// Writes the line of the root.
fn put_root<A: Allocator>(out: &mut Vec<u8, A>, clock: u32) -> Result<(), AllocError>
    ensures { OnOk result (out.new.items ≡ out.old.items ++ root_text clock) }
{
    put_field(out, b"STEP 0 - ", clock as u64)?;
    put_output(out, b" root - -")
}

// Writes a node's number, its parent's and its clock.
fn put_numbers<A: Allocator>(
    out: &mut Vec<u8, A>,
    node: NodeId,
    parent: NodeId,
    clock: u32,
) -> Result<(), AllocError>
    ensures { OnOk result (out.new.items ≡ out.old.items ++ numbers_text node.0 parent.0 clock) }
{
    put_field(out, b"STEP ", node.0 as u64)?;
    put_field(out, b" ", parent.0 as u64)?;
    put_field(out, b" ", clock as u64)?;
    out.extend_from_slice(b" ")
}

/// Writes the line of a node: its number, its parent's, the clock after its step, in seconds, the step, what that was
/// answered, and what it names.
pub fn put_step<A: Allocator + Clone>(
    session: &Session<A>,
    node: NodeId,
    out: &mut Vec<u8, A>,
) -> Result<(), AllocError>
    ensures { OnOk result (out.new.items ≡ out.old.items ++ step_text session.now node.0 (row_of session.now.rows node.0)) }
{
    match session.row_with_parent(node) {
        Some((parent, step, outcome)) => {
            put_numbers(out, node, parent, clock_at(session, node))?;
            put_played(out, step, outcome)?;
            out.extend_from_slice(b"\r\n")
        }
        None => {
            if node.0 == 0 {
                put_root(out, clock_at(session, node))
            } else {
                put_output(out, b"NONODE")
            }
        }
    }
}

/// Goes to the last node on the way to the current one whose clock is at most `time`, in seconds, and writes how many
/// records that turned.
pub fn put_time<A: Allocator + Clone>(
    session: &mut Session<A>,
    time: u32,
    out: &mut Vec<u8, A>,
) -> Result<(), AllocError>
    ensures text { OnOk result (out.new.items ≡ out.old.items ++ time_text session.old (node_by session.old.root session.old.rows session.old.current time)) }
    ensures session { session.new ≡ after_time session.old (node_by session.old.root session.old.rows session.old.current time) }
{
    match node_by_time(session, time) {
        Some(node) => put_go(session, node, out),
        None => put_output(out, b"NONODE"),
    }
}
