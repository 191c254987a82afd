//! The life of a key along the way from the root to the current node.
ghost use Rattle.std.specs.Prelude.{◌≡◌, IfOk};
ghost use Rattle.rev_explain.specs.Story.{story as story_of};

use rev_explain::events::Event;
use rev_explain::story;
use rev_figures::{Path, StepKind};
use rev_items::Key;
use rev_requests::{ClientStep, Step};
use rev_texts::words::step_word;
use rev_undotree::{NodeId, Session};
use std::alloc::{AllocError, Global};

/// A look-up of a key.
#[derive(Clone, Copy, Debug, PartialEq, Eq)]
pub struct Ask {
    /// Which step of the way it was, from 1.
    pub step: usize,
    pub is_hit: bool,
}

/// What befell a key, and when it was asked for.
#[derive(Drop)]
pub struct Life {
    pub key: Vec<u8>,
    /// What befell it, in order.
    pub events: Vec<Event>,
    /// The command of each of these events.
    pub commands: Vec<Vec<u8>>,
    /// When it was asked for, in order.
    pub asks: Vec<Ask>,
}

// The key that a client's step names.
fn key_of(step: &ClientStep<Global>) -> Option<&Key<Global>> {
    match step {
        ClientStep::Store { key, .. }
        | ClientStep::Join { key, .. }
        | ClientStep::Keyed { key, .. } => Some(key),
        ClientStep::FlushAll { .. } => None,
    }
}

// Whether the step of a node names the key.
fn names(session: &Session<Global>, node: NodeId, key: &Key<Global>) -> bool {
    match session.row(node) {
        Some((Step::Client(client), _)) => match key_of(client) {
            Some(named) => named.bytes() == key.bytes(),
            None => false,
        },
        _ => false,
    }
}

// Whether a look-up hit; none where a step is no look-up.
fn hit(kind: StepKind) -> Option<bool> {
    match kind {
        StepKind::Hit => Some(true),
        StepKind::Miss => Some(false),
        StepKind::Stored | StepKind::Other => None,
    }
}

// The look-ups of a key.
fn asks_of(
    alloc: Global,
    session: &Session<Global>,
    path: &Path<Global>,
    before: usize,
    key: &Key<Global>,
) -> Result<Vec<Ask>, AllocError> {
    let mut asks = Vec::new(alloc);
    for (place, row) in path.steps.iter().enumerate() {
        if let Some(is_hit) = hit(row.kind) {
            if names(session, row.node, key) {
                asks.push(Ask {
                    step: before.saturating_add(place).saturating_add(1),
                    is_hit,
                })?;
            }
        }
    }
    Ok(asks)
}

// The word of a node's step, and the key that it names.
fn command_of(
    alloc: Global,
    session: &Session<Global>,
    node: NodeId,
) -> Result<Vec<u8>, AllocError> {
    let mut command = Vec::new(alloc);
    let Some((step, _)) = session.row(node) else {
        return Ok(command);
    };
    command.extend_from_slice(step_word(step))?;
    let Step::Client(client) = step else {
        return Ok(command);
    };
    if let Some(key) = key_of(client) {
        command.extend_from_slice(b" ")?;
        command.extend_from_slice(key.bytes())?;
    }
    Ok(command)
}

/// The life of a key on the way from the root to the current node, of which `path` has the rows, behind so many steps:
/// what befell it is what its story tells.
pub fn life_of(
    alloc: Global,
    session: &Session<Global>,
    path: &Path<Global>,
    before: usize,
    key: &Key<Global>,
) -> Result<Life, AllocError>
    ensures events { IfOk result (λ life. life.events.items ≡ story_of session.now.root session.now.rows session.now.current key.now) }
    ensures key { IfOk result (λ life. life.key.items ≡ key.now) }
{
    let events = story(session, key)?;
    let mut commands = Vec::new(alloc);
    for event in &events {
        commands.push(command_of(alloc, session, event.node)?)?;
    }
    Ok(Life {
        key: Vec::from_slice(alloc, key.bytes())?,
        events,
        commands,
        asks: asks_of(alloc, session, path, before, key)?,
    })
}
