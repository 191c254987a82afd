//! The object of a line.
ghost use Rattle.std.specs.Prelude.{IfOk};
ghost use Rattle.rev_json.specs.JsonLines.{IsJsonLine};

use crate::command::Command;
use crate::culprit::Scene;
use crate::row::Rows;
use serde::Serialize;
use std::alloc::{AllocError, Global};

/// What is told of a line.
#[derive(Drop, Serialize)]
struct Object<'a> {
    /// Which command line it is, from 1.
    line: u64,
    /// The current node behind it.
    node: u32,
    /// The words that name its command.
    command: Option<&'static str>,
    answer: Rows<'a>,
}

/// A line of JSON, with LF: the number of a command line, the session's current node behind it, its command and its
/// answer.
pub fn json_line(
    alloc: Global,
    line: u64,
    scene: &Scene<'_>,
    command: Command,
    answer: &[u8],
) -> Result<Vec<u8>, AllocError>
    ensures { IfOk result (λ line. IsJsonLine line.items) }
{
    let object = Object {
        line,
        node: scene.session.current().0,
        command: command.name,
        answer: Rows {
            scene,
            text: answer,
            unnamed: command.unnamed,
        },
    };
    // Only a want of memory keeps it from being written.
    let Ok(mut text) = serde_json::to_vec(alloc, &object) else {
        return Err(AllocError);
    };
    text.push(b'\n')?;
    Ok(text)
}
