//! Which step pushed a key out, where a log tells of it.

use crate::fields::put_bytes;
use crate::words::is_word;
use rev_evidence::blame::{Blamed, blame};
use rev_evidence::notes::LogNotes;
use rev_model::Cause;
use rev_undotree::{NodeId, Session};
use serde::Serializer;
use std::alloc::Global;

/// What answers are about: a session, and what a log says of its nodes.
#[derive(Clone, Copy)]
pub struct Scene<'a> {
    pub session: &'a Session<Global>,
    pub log: &'a LogNotes<Global>,
}

// The step that pushed a key out that left at this node, where this is the log's word for why it left. It was played
// for the same event.
fn culprit<'a>(scene: &Scene<'a>, node: NodeId, word: &[u8]) -> Option<Blamed<'a, Global>> {
    if !is_word(word, b"evicted") {
        return None;
    }
    let blamed = blame(scene.session, scene.log.roles(), node, Cause::Evicted)?;
    if scene.log.moment(blamed.node) == scene.log.moment(node) {
        Some(blamed)
    } else {
        None
    }
}

// Puts the connection of the event at a node, or null where it has none.
fn put_connection<S: Serializer>(out: &mut S, connection: Option<i32>) -> Result<(), S::Error> {
    out.key("connection")?;
    match connection {
        Some(connection) => out.i64(i64::from(connection)),
        None => out.unit(),
    }
}

// The connection of the event for which the step of a node was played.
fn connection_at(log: &LogNotes<Global>, node: NodeId) -> Option<i32> {
    log.moment(node)?.connection
}

fn put_blamed<S: Serializer>(
    out: &mut S,
    scene: &Scene<'_>,
    blamed: &Blamed<'_, Global>,
) -> Result<(), S::Error> {
    out.begin_map(None)?;
    out.key("key")?;
    put_bytes(out, blamed.key.bytes())?;
    put_connection(out, connection_at(scene.log, blamed.node))?;
    out.key("step")?;
    out.u64(u64::from(blamed.node.0))?;
    out.end_map()
}

/// Puts the step that pushed a key out that left at this node, for a reason with this word, or null where none did.
pub fn put_culprit<S: Serializer>(
    out: &mut S,
    scene: &Scene<'_>,
    node: NodeId,
    word: &[u8],
) -> Result<(), S::Error> {
    out.key("culprit")?;
    match culprit(scene, node, word) {
        Some(blamed) => put_blamed(out, scene, &blamed),
        None => out.unit(),
    }
}
