//! Logs, one after another, and their script.
ghost use Rattle.std.specs.Prelude.{◌⊎◌, List, ◌∷◌, [], IfErr, OnOk};
ghost use Rattle.rev_intake.specs.Logs.{LogLines, IsLog, AreLogs, TakesLogs, SpoilsBytes, IsSpoilt, MakesScript, StopsBehind};

use crate::fault::IntakeFault;
use crate::intake::Intake;
use crate::outlet::Outlet;
use rev_script::source::FromRead;
use rev_watch::reader::LogReader;
use std::alloc::Allocator;
use std::collections::VecDeque;
use std::io::Read;

// Takes in the log that a file holds.
fn take_file<A: Allocator + Copy, F: Read + Drop, K: Outlet>(
    intake: &mut Intake<A>,
    file: F,
    sink: &mut K,
) -> Result<(), IntakeFault>
    ensures ok { OnOk result ((log : LogLines A) × IsLog (F.remaining file) log × TakesLogs intake.old intake.new (log ∷ []) (K.contents sink.old) (K.contents sink.new) (K.failures sink.old) (K.failures sink.new)) }
    ensures err { IfErr result (λ e. SpoilsBytes A (F.remaining file) (K.failures sink.old) (K.failures sink.new) e) }
{
    let mut log = LogReader::over(FromRead::new(file));
    match intake.take_log(&mut log, sink) {
        Ok(()) => Ok(()),
        Err(fault) => Err(fault),
    }
}

// Takes in the logs of the files, in their order. A fault comes with the place of its log, from 0 on.
fn take_files<A: Allocator + Copy, F: Read + Drop, K: Outlet>(
    intake: &mut Intake<A>,
    files: Vec<F, A>,
    sink: &mut K,
) -> Result<(), (usize, IntakeFault)>
    ensures ok { OnOk result ((logs : List (LogLines A)) × AreLogs F.remaining files.items logs × TakesLogs intake.old intake.new logs (K.contents sink.old) (K.contents sink.new) (K.failures sink.old) (K.failures sink.new)) }
    ensures err { IfErr result (λ e. IsSpoilt A F.remaining files.items (K.failures sink.old) (K.failures sink.new) e.0 e.1) }
{
    let mut place: usize = 0;
    let mut rest = VecDeque::from_vec(files);
    'files: loop {
        let file = match rest.pop_front() {
            None => return Ok(()),
            Some(file) => file,
        };
        match take_file(intake, file, sink) {
            Err(fault) => return Err((place, fault)),
            Ok(()) => place += 1,
        }
    }
}

/// Makes the script of the logs that the files hold, in their order, and sends it whole, behind what waits to be sent.
/// Where it is to begin with a start, this ends in front of the first event of the second of the split or of a later
/// one, or behind all events. The intake is no longer of use.
///
/// Err: the place of a log, from 0 on, and why it was not taken in: memory was refused, a read or a write failed, a
/// line that begins like one of the log is none, or there are more lines than can be counted. Or no event was asked
/// for, and then the place is 0, as it is where it was the end that failed.
pub fn make_script<A: Allocator + Copy, F: Read + Drop, K: Outlet>(
    intake: &mut Intake<A>,
    files: Vec<F, A>,
    sink: &mut K,
) -> Result<(), (usize, IntakeFault)>
    ensures ok { OnOk result (MakesScript F.remaining files.items intake.old intake.new (K.contents sink.old) (K.contents sink.new) (K.failures sink.old) (K.failures sink.new)) }
    ensures err { IfErr result (λ e. IsSpoilt A F.remaining files.items (K.failures sink.old) (K.failures sink.new) e.0 e.1
        ⊎ StopsBehind F.remaining files.items intake.old (K.failures sink.old) (K.failures sink.new) e.1) }
{
    match take_files(intake, files, sink) {
        Err(fault) => Err(fault),
        Ok(()) => match intake.finish(sink) {
            Err(fault) => Err((0, fault)),
            Ok(()) => Ok(()),
        },
    }
}
