//! Rows of traces taken in one by one, and the script that they become sent out piece by piece.
ghost use Rattle.std.specs.Prelude.{◌≡◌, ◌∷◌, [], List, IfErr, OnOk};
ghost use Rattle.rev_import.specs.Figures.{no_figures};
ghost use Rattle.rev_choices.specs.Sample.{takes};
ghost use Rattle.rev_trace.specs.Trace.{IsTrace};
ghost use Rattle.rev_trace.specs.declared.row.Row.{Row};
ghost use Rattle.rev_intake.specs.Rows.{PlainRowIntake, no_rows, PutsRow, TakesRows, EndsRows, StopsRow, SpoilsTrace, StopsEndingRows};

use crate::counts::add;
use crate::fault::RowsFault;
use crate::row_counts::RowCounts;
use crate::sending::{send, send_piece};
use rev_choices::{Rhythm, Sample};
use rev_classes::ClassTable;
use rev_import::figures::Figures;
use rev_import::requests::RowScribe;
use rev_output::Sink;
use rev_trace::reader::TraceReader;
use rev_trace::row::Row;
use std::alloc::Global;
use std::io::Read;
use std::marker::Model;

/// Traces that become a script. Memory is taken for the longest row, and for a piece of the script.
#[derive(Drop)]
pub struct RowIntake {
    alloc: Global,
    sample: Sample,
    scribe: RowScribe,
    // what is written of the script and not yet sent
    out: Vec<u8>,
    counts: RowCounts,
}

impl Model for RowIntake {
    ghost use Rattle.rev_intake.specs.Rows.{PlainRowIntake};

    ghost Value = { PlainRowIntake };

    ghost view = { λ i. record { sample = i.sample; start = i.scribe.start; latest = i.scribe.latest; waits = i.out.items; counts = i.counts; figures = i.scribe.figures } };
}

impl RowIntake {
    /// No trace was taken in. The script is for a store of these classes, whose clock begins at `start`, and has the
    /// rows of the keys that the sample takes. No memory is taken.
    pub fn new(
        alloc: Global,
        classes: ClassTable,
        rhythm: Rhythm,
        sample: Sample,
        start: u32,
    ) -> RowIntake
        ensures { result ≡ record { sample = sample; start = start; latest = 0; waits = []; counts = no_rows; figures = no_figures } }
    {
        RowIntake {
            alloc,
            sample,
            scribe: RowScribe::new(classes, rhythm, start),
            out: Vec::new(alloc),
            counts: RowCounts::none(),
        }
    }

    // Takes in a row that is asked for.
    fn put<K: Sink>(&mut self, row: &Row, sink: &mut K) -> Result<(), RowsFault>
        ensures puts { OnOk result (PutsRow self.old self.new row.now (K.contents sink.old) (K.contents sink.new) (K.failures sink.old) (K.failures sink.new)) }
        ensures err { IfErr result (λ e. StopsRow (K.failures sink.old) (K.failures sink.new) e) }
    {
        let is_late = self.scribe.is_late(row);
        self.counts.count(row.operation, is_late);
        self.scribe.write(row, &mut self.out)?;
        send_piece(&mut self.out, sink)?;
        Ok(())
    }

    /// Takes in a row.
    pub(crate) fn take<K: Sink>(&mut self, row: &Row, sink: &mut K) -> Result<(), RowsFault>
        ensures takes { OnOk result (TakesRows self.old self.new (row.now ∷ []) (K.contents sink.old) (K.contents sink.new) (K.failures sink.old) (K.failures sink.new)) }
        ensures err { IfErr result (λ e. StopsRow (K.failures sink.old) (K.failures sink.new) e) }
    {
        if self.sample.takes(&row.key) {
            self.put(row, sink)
        } else {
            add(&mut self.counts.left_out, 1);
            Ok(())
        }
    }

    /// Takes in the rows of a trace, behind those of the traces before it, and sends the script as far as it is known.
    ///
    /// Err: memory was refused; a read or a write failed; a row is none; or there are more rows than can be counted.
    /// The intake is no longer of use.
    pub fn take_trace<F: Read + Drop, K: Sink>(
        &mut self,
        file: F,
        sink: &mut K,
    ) -> Result<(), RowsFault>
        ensures ok { OnOk result ((rows : List Row) × IsTrace (F.remaining file) rows × TakesRows self.old self.new rows (K.contents sink.old) (K.contents sink.new) (K.failures sink.old) (K.failures sink.new)) }
        ensures err { IfErr result (λ e. SpoilsTrace (F.remaining file) (K.failures sink.old) (K.failures sink.new) e) }
    {
        let mut trace = TraceReader::over(self.alloc, file);
        'rows: loop {
            let row = match trace.next() {
                Ok(None) => return Ok(()),
                Ok(Some(row)) => row,
                Err(fault) => return Err(RowsFault::of(fault)),
            };
            match self.take(&row, sink) {
                Ok(()) => {}
                Err(fault) => return Err(fault),
            }
        }
    }

    /// Sends the rest of the script, behind the last trace.
    ///
    /// Err: no row was asked for, and nothing is sent; or a write failed.
    pub fn finish<K: Sink>(&mut self, sink: &mut K) -> Result<(), RowsFault>
        ensures ok { OnOk result (EndsRows self.old self.new (K.contents sink.old) (K.contents sink.new) (K.failures sink.old) (K.failures sink.new)) }
        ensures err { IfErr result (λ e. StopsEndingRows self.old (K.contents sink.old) (K.contents sink.new) (K.failures sink.old) (K.failures sink.new) e) }
    {
        if self.counts.asked == 0 {
            return Err(RowsFault::NoRow);
        }
        send(&mut self.out, sink)?;
        Ok(())
    }

    /// Sends what is at hand of the script.
    pub(crate) fn send<K: Sink>(&mut self, sink: &mut K) -> Result<(), RowsFault> {
        Ok(send(&mut self.out, sink)?)
    }

    /// What became of the rows so far.
    pub fn counts(&self) -> RowCounts
        ensures { result ≡ self.now.counts }
    {
        self.counts
    }

    /// What was counted of the script so far.
    pub fn figures(&self) -> Figures
        ensures { result ≡ self.now.figures }
    {
        self.scribe.figures()
    }
}
