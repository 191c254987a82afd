//! Traces, one after another, and their script.
ghost use Rattle.std.specs.Prelude.{◌⊎◌, List, IfErr, OnOk};
ghost use Rattle.rev_trace.specs.declared.row.Row.{Row};
ghost use Rattle.rev_intake.specs.Rows.{AreTraces, all_rows, TakesRows, IsTraceSpoilt, MakesRowScript, StopsBehindTraces};

use crate::fault::RowsFault;
use crate::rows::RowIntake;
use rev_output::Sink;
use std::collections::VecDeque;
use std::io::Read;

// Takes in the traces of the files, in their order. A fault comes with the place of its trace, from 0 on.
fn take_files<F: Read + Drop, K: Sink>(
    intake: &mut RowIntake,
    files: Vec<F>,
    sink: &mut K,
) -> Result<(), (usize, RowsFault)>
    ensures ok { OnOk result ((traces : List (List Row)) × AreTraces F.remaining files.items traces × TakesRows intake.old intake.new (all_rows traces) (K.contents sink.old) (K.contents sink.new) (K.failures sink.old) (K.failures sink.new)) }
    ensures err { IfErr result (λ e. IsTraceSpoilt F.remaining files.items (K.failures sink.old) (K.failures sink.new) e.0 e.1) }
{
    let mut place: usize = 0;
    let mut rest = VecDeque::from_vec(files);
    'files: loop {
        let file = match rest.pop_front() {
            None => return Ok(()),
            Some(file) => file,
        };
        match intake.take_trace(file, sink) {
            Err(fault) => return Err((place, fault)),
            Ok(()) => place += 1,
        }
    }
}

/// Makes the script of the traces that the files hold, in their order, and sends it whole. The intake is no longer of
/// use.
///
/// Err: the place of a trace, from 0 on, and why it was not taken in: memory was refused, a read or a write failed, a
/// row is none, or there are more rows than can be counted. Or no row was asked for, and then the place is 0, as it is
/// where it was the end that failed.
pub fn make_row_script<F: Read + Drop, K: Sink>(
    intake: &mut RowIntake,
    files: Vec<F>,
    sink: &mut K,
) -> Result<(), (usize, RowsFault)>
    ensures ok { OnOk result (MakesRowScript F.remaining files.items intake.old intake.new (K.contents sink.old) (K.contents sink.new) (K.failures sink.old) (K.failures sink.new)) }
    ensures err { IfErr result (λ e. IsTraceSpoilt F.remaining files.items (K.failures sink.old) (K.failures sink.new) e.0 e.1
        ⊎ StopsBehindTraces F.remaining files.items intake.old (K.failures sink.old) (K.failures sink.new) e.1) }
{
    match take_files(intake, files, sink) {
        Err(fault) => Err(fault),
        Ok(()) => match intake.finish(sink) {
            Err(fault) => Err((0, fault)),
            Ok(()) => Ok(()),
        },
    }
}
