//! Logs in, one behind another.
ghost use Rattle.std.specs.Prelude.{true};
ghost use Rattle.rev_replay.specs.Replayed.{state_of};
ghost use Rattle.rev_replay.specs.Turns.{GoesOn};

use crate::fault::ReplayFault;
use crate::heard::Listener;
use crate::run::Replay;
use rev_script::source::FromRead;
use rev_watch::reader::LogReader;
use std::alloc::Allocator;
use std::collections::VecDeque;
use std::io::Read;

// Takes in the log that a file holds.
fn take_file<A: Allocator + Copy, F: Read + Drop, L: Listener<A>>(
    replay: &mut Replay<'_, A>,
    file: F,
    listener: &mut L,
) -> Result<(), ReplayFault>
    ensures { GoesOn true (state_of replay.old) (state_of replay.new) }
{
    let mut log = LogReader::over(FromRead::new(file));
    match replay.take_log(&mut log, listener) {
        Ok(()) => Ok(()),
        Err(fault) => Err(fault),
    }
}

/// Replays the logs that the files hold, in their order, and tells who listens of each event.
///
/// Err: the place of a log, from 0 on, and why it was not taken in: memory was refused, a read failed, a line that
/// begins like one of the log is none, there are more lines than can be counted, or who listens gave up. Or no log has
/// an event, and then the place is 0, as it is where it was the end that failed.
#[tactic(auto, using(crate::proofs::Going::goes_more, crate::proofs::Going::goes_same, crate::proofs::Going::goes_always))]
pub fn replay_logs<A: Allocator + Copy, F: Read + Drop, L: Listener<A>>(
    replay: &mut Replay<'_, A>,
    files: Vec<F, A>,
    listener: &mut L,
) -> Result<(), (usize, ReplayFault)>
    ensures { GoesOn true (state_of replay.old) (state_of replay.new) }
{
    let mut place: usize = 0;
    let mut rest = VecDeque::from_vec(files);
    'files: loop {
        let file = match rest.pop_front() {
            None => break,
            Some(file) => file,
        };
        match take_file(replay, file, listener) {
            Err(fault) => return Err((place, fault)),
            Ok(()) => place += 1,
        }
    }
    match replay.finish(listener) {
        Err(fault) => Err((0, fault)),
        Ok(()) => Ok(()),
    }
}
