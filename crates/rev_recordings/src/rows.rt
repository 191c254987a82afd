//! The text of a recording: a row for each play, a line for each player that a limit stopped, and the end.
ghost use Rattle.std.specs.Prelude.{◌≡◌, ◌++◌, codes, OnOk, IfOk, IfErr};
ghost use Rattle.rev_requests.specs.Plain.{plain_step};
ghost use Rattle.rev_texts.specs.Texts.{output};
ghost use Rattle.rev_recordings.specs.Recordings.{IsOfPlay};
ghost use Rattle.rev_recordings.specs.Rows.{play_text, call_text, rows_text, stopped_text, end_text, IsEnd};

use crate::fault::RecordingFault;
use rev_model::Outcome;
use rev_recorder::{Call, LogRow, RecordFault};
use rev_requests::Step;
use rev_texts::text::{put_field, put_number, put_output};
use rev_texts::words::{outcome_word, step_word};
use rev_undotree::Session;
use std::alloc::{AllocError, Global};

// Writes the row of a play: place, player, node, and the words of its step and its outcome.
fn put_play(
    text: &mut Vec<u8>,
    place: u64,
    player: u64,
    node: u32,
    step: &Step<Global>,
    outcome: Outcome,
) -> Result<(), AllocError>
    ensures { OnOk result (text.new.items ≡ text.old.items ++ play_text place player node (plain_step step.now) outcome) }
{
    put_number(text, place)?;
    put_field(text, b" ", player)?;
    put_field(text, b" play ", node as u64)?;
    text.extend_from_slice(b" ")?;
    text.extend_from_slice(step_word(step))?;
    text.extend_from_slice(b" ")?;
    put_output(text, outcome_word(outcome))
}

// Writes the row of a call, where it is a play.
fn put_call(
    text: &mut Vec<u8>,
    place: u64,
    row: LogRow,
    session: &Session<Global>,
) -> Result<(), AllocError>
    ensures { OnOk result (text.new.items ≡ text.old.items ++ call_text session.now place row.player row.call) }
{
    match row.call {
        Call::Play(node) => match session.row(node) {
            Some((step, outcome)) => {
                put_play(text, place, row.player as u64, node.0, step, outcome)
            }
            None => Ok(()),
        },
        Call::Go(_) | Call::Many | Call::Deep | Call::Lost(_) => Ok(()),
    }
}

/// Writes a row for each play of the log, which tells what its step was and what that was answered.
pub fn put_rows(
    text: &mut Vec<u8>,
    log: &[LogRow],
    session: &Session<Global>,
) -> Result<(), AllocError>
    ensures { OnOk result (text.new.items ≡ text.old.items ++ rows_text session.now 0 log.now) }
{
    for (place, row) in log.iter().enumerate() {
        put_call(text, place as u64, *row, session)?;
    }
    Ok(())
}

// Writes the line of a player that a limit stopped.
fn put_stopped(text: &mut Vec<u8>, player: u64, limit: &[u8]) -> Result<(), AllocError>
    ensures { OnOk result (text.new.items ≡ text.old.items ++ stopped_text player limit.now) }
{
    put_field(text, b"STOPPED ", player)?;
    put_output(text, limit)
}

/// Writes for a player that a limit stopped a line that says so. Any other refusal ends the recording.
pub fn put_end(
    text: &mut Vec<u8>,
    player: u64,
    end: Result<(), RecordFault>,
) -> Result<(), RecordingFault>
    ensures ok { OnOk result (text.new.items ≡ text.old.items ++ end_text player end) }
    ensures limit { OnOk result (IsEnd end) }
    ensures err { IfErr result (λ e. IsOfPlay e) }
{
    let put = match end {
        Ok(()) => Ok(()),
        Err(RecordFault::TooManyNodes) => put_stopped(text, player, b" too many nodes"),
        Err(RecordFault::TooDeep) => put_stopped(text, player, b" too many nested forks"),
        Err(RecordFault::Memory) => Err(AllocError),
        // True hands are never answered so.
        Err(RecordFault::StrangerHand | RecordFault::NoNode) => {
            return Err(RecordingFault::LogDiffers);
        }
    };
    match put {
        Err(_) => Err(RecordingFault::Memory),
        Ok(()) => Ok(()),
    }
}

/// The whole text: the rows, the lines of the players that a limit stopped, and the end.
pub fn text_of(
    log: &[LogRow],
    session: &Session<Global>,
    stopped: Vec<u8>,
) -> Result<Vec<u8>, AllocError>
    ensures { IfOk result (λ text. text.items ≡ rows_text session.now 0 log.now ++ (stopped.items ++ output (codes "END"))) }
{
    let mut text = Vec::new(*stopped.allocator());
    put_rows(&mut text, log, session)?;
    text.extend_from_slice(stopped.as_slice())?;
    put_output(&mut text, b"END")?;
    Ok(text)
}
