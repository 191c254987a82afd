//! The rows of a trace, one after another.
ghost use Rattle.std.specs.Prelude.{◌≡◌, if◌then◌else◌, option_map, IfOk, IfErr};
ghost use Rattle.csv.specs.Reading.{source_of, reader_state, strip_bom, is_io, error_kind};
ghost use Rattle.csv.specs.declared.parser.State.TheVariants as states;
ghost use Rattle.rev_trace.specs.Trace.{reader_in, row_count, IsSteady, IsAtStart, TakesNext, StopsBy};
ghost use Rattle.rev_trace.specs.declared.fault.TraceFault.{TraceFault};

use crate::fault::{RowFault, TraceFault};
use crate::row::{Row, row_of};
use csv::{ByteRecord, Error, Reader, ReaderBuilder};
use std::alloc::Global;
use std::io::Read;

/// A trace of which some rows were read. Memory is taken for the longest row, and not for how many there are.
#[derive(Drop)]
pub struct TraceReader<R> {
    rows: Reader<R>,
    // the row that was read last
    fields: ByteRecord,
    alloc: Global,
    count: u64,
}

// What an error of the reader of columns is to a trace.
fn read_fault(error: &Error) -> TraceFault
    ensures { result ≡ (if is_io (error_kind error.now) then TraceFault.Read else TraceFault.Memory) }
{
    if error.is_io_error() {
        TraceFault::Read
    } else {
        TraceFault::Memory
    }
}

impl<R: Read> TraceReader<R> {
    /// A trace of which no row was read. It has no header row, and a quotation mark is a byte like any other.
    pub fn over(alloc: Global, source: R) -> TraceReader<R>
        ensures steady { IsSteady (reader_in result) }
        ensures starts { IsAtStart R.remaining (R.remaining source) result }
    {
        let rows = ReaderBuilder::new()
            .has_headers(false)
            .flexible(true)
            .quoting(false)
            .from_reader(alloc, source);
        TraceReader {
            rows,
            fields: ByteRecord::new(alloc),
            alloc,
            count: 0,
        }
    }

    /// The next row; none only at the end.
    ///
    /// Err: a read failed, memory was refused, the next row is none, or there are more rows than can be counted. The
    /// reader is no longer of use.
    pub fn next(&mut self) -> Result<Option<Row>, TraceFault>
        requires { IsSteady (reader_in self.old) }
        ensures ok { IfOk result (λ next. IsSteady (reader_in self.new) × TakesNext R.remaining self.old self.new next) }
        ensures err { IfErr result (λ e. StopsBy R.remaining self.old self.new e) }
    {
        if self.count >= u64::MAX {
            return Err(TraceFault::TooLong);
        }
        match self.rows.read_byte_record(&mut self.fields) {
            Err(error) => return Err(read_fault(&error)),
            Ok(false) => return Ok(None),
            Ok(true) => self.count += 1,
        }
        match row_of(self.alloc, &self.fields) {
            Ok(row) => Ok(Some(row)),
            Err(RowFault::Memory) => Err(TraceFault::Memory),
            Err(fault) => Err(TraceFault::Row {
                line: self.count,
                fault,
            }),
        }
    }

    /// How many rows were read: the number of the last one.
    pub fn rows(&self) -> u64
        ensures { result ≡ row_count self.now }
    {
        self.count
    }
}
