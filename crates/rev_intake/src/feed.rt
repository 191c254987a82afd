//! Logs and traces that are taken in bit by bit, by who wants the next part of their script.

use crate::fault::{IntakeFault, RowsFault};
use crate::intake::Intake;
use crate::outlet::Outlet;
use crate::rows::RowIntake;
use rev_output::{Sink, ToWrite};
use rev_script::source::FromRead;
use rev_trace::reader::TraceReader;
use rev_watch::event::LogLine;
use rev_watch::reader::LogReader;
use std::alloc::Global;
use std::collections::VecDeque;
use std::io::Read;
use std::marker::Model;

/// Logs that are taken in bit by bit, in their order. Memory is taken as by the intake alone.
#[derive(Drop)]
pub struct LogFeed<'a, F: Read + Drop> {
    alloc: Global,
    intake: &'a mut Intake<Global>,
    // the log that is read, and those behind it
    log: Option<LogReader<FromRead<F>>>,
    rest: VecDeque<F>,
    // how many logs were begun
    begun: usize,
}

impl<'a, F: Read + Drop> LogFeed<'a, F> {
    /// No log was begun.
    pub fn new(alloc: Global, intake: &'a mut Intake<Global>, files: Vec<F>) -> LogFeed<'a, F> {
        LogFeed {
            alloc,
            intake,
            log: None,
            rest: VecDeque::from_vec(files),
            begun: 0,
        }
    }

    // Takes in a line or an event, or begins with a log.
    fn take<K: Outlet>(&mut self, sink: &mut K) -> Result<bool, IntakeFault> {
        if let Some(log) = &mut self.log {
            if self.intake.take_next(log, sink)? {
                return Ok(true);
            }
            self.log = None;
        }
        match self.rest.pop_front() {
            None => self.intake.take_held(sink),
            Some(file) => {
                self.log = Some(LogReader::over(FromRead::new(file)));
                self.begun = self.begun.saturating_add(1);
                Ok(true)
            }
        }
    }

    /// Takes in a little more: at most one event becomes lines. All that is written of the script goes behind `out`.
    /// The answer is whether there may be more.
    ///
    /// Err: memory was refused, a read failed, a line that begins like one of the log is none, there are more lines
    /// than can be counted, or no event was asked for. The feed is no longer of use.
    pub fn feed(&mut self, out: &mut Vec<u8>) -> Result<bool, IntakeFault> {
        let mut sink = ToWrite::new(out);
        let taken = match self.take(&mut sink) {
            Ok(more) => match self.intake.send(&mut sink) {
                Ok(()) => Ok(more),
                Err(fault) => Err(fault),
            },
            Err(fault) => Err(fault),
        };
        match taken {
            // A list takes all that is written, where there is memory.
            Err(IntakeFault::Write) => Err(IntakeFault::Memory),
            taken => taken,
        }
    }

    /// The event whose lines are written next, where any waits.
    pub fn first(&self) -> Option<&LogLine<Global>> {
        self.intake.first()
    }

    /// What takes the logs in.
    pub fn intake(&self) -> &Intake<Global> {
        self.intake
    }

    /// The place of the log that was begun last, from 0 on.
    pub fn place(&self) -> usize {
        self.begun.saturating_sub(1)
    }
}

/// Traces that are taken in bit by bit, in their order. Memory is taken as by the intake alone.
#[derive(Drop)]
pub struct RowFeed<'a, F: Read + Drop> {
    alloc: Global,
    intake: &'a mut RowIntake,
    // the trace that is read, and those behind it
    trace: Option<TraceReader<F>>,
    rest: VecDeque<F>,
    // how many traces were begun
    begun: usize,
}

impl<'a, F: Read + Drop> Model for RowFeed<'a, F> {
    ghost use Rattle.std.specs.Prelude.{ℕ, IfSome};
    ghost use Rattle.rev_trace.specs.Trace.{reader_in, IsSteady};

    // how many traces were begun
    ghost Value = { ℕ };

    ghost view = { λ f. f.begun };

    ghost invariant = { λ f. IfSome f.trace (λ t. IsSteady (reader_in t)) };
}

impl<'a, F: Read + Drop> RowFeed<'a, F> {
    /// No trace was begun.
    pub fn new(alloc: Global, intake: &'a mut RowIntake, files: Vec<F>) -> RowFeed<'a, F> {
        RowFeed {
            alloc,
            intake,
            trace: None,
            rest: VecDeque::from_vec(files),
            begun: 0,
        }
    }

    // Begins with the next trace. The answer is whether there is one.
    fn begin(&mut self) -> Result<bool, RowsFault> {
        match self.rest.pop_front() {
            None if self.intake.counts().asked == 0 => Err(RowsFault::NoRow),
            None => Ok(false),
            Some(file) => {
                self.trace = Some(TraceReader::over(self.alloc, file));
                self.begun = self.begun.saturating_add(1);
                Ok(true)
            }
        }
    }

    // Takes in a row, or begins with a trace.
    fn take<K: Sink>(&mut self, sink: &mut K) -> Result<bool, RowsFault> {
        let next = match &mut self.trace {
            None => Ok(None),
            Some(trace) => trace.next(),
        };
        match next {
            Ok(Some(row)) => {
                self.intake.take(&row, sink)?;
                Ok(true)
            }
            Ok(None) => {
                self.trace = None;
                self.begin()
            }
            Err(fault) => {
                self.trace = None;
                Err(RowsFault::of(fault))
            }
        }
    }

    /// Takes in a little more, and writes what it becomes behind `out`. The answer is whether there may be more.
    ///
    /// Err: memory was refused, a read failed, a row is none, there are more rows than can be counted, or no row was
    /// asked for. The feed is no longer of use.
    pub fn feed(&mut self, out: &mut Vec<u8>) -> Result<bool, RowsFault> {
        let mut sink = ToWrite::new(out);
        let taken = match self.take(&mut sink) {
            Ok(more) => match self.intake.send(&mut sink) {
                Ok(()) => Ok(more),
                Err(fault) => Err(fault),
            },
            Err(fault) => Err(fault),
        };
        match taken {
            // A list takes all that is written, where there is memory.
            Err(RowsFault::Write) => Err(RowsFault::Memory),
            taken => taken,
        }
    }

    /// What takes the traces in.
    pub fn intake(&self) -> &RowIntake {
        self.intake
    }

    /// The place of the trace that was begun last, from 0 on.
    pub fn place(&self) -> usize {
        self.begun.saturating_sub(1)
    }
}
