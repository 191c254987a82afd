//! Where a script goes, which may begin with a start: the steps in front of a second.
ghost use Rattle.std.specs.Prelude.{◌≡◌, false};
ghost use Rattle.rev_intake.specs.Splitting.{is_due};

use rev_output::{Sink, ToWrite, WriteFailed};
use std::io::Write;
use std::marker::Model;

/// Where a script goes. Its start may end somewhere: what is sent behind that is the script.
pub trait Outlet: Sink {
    /// Ends the start. What was sent and what is sent stays one behind the other.
    fn end_start(&mut self)
        ensures contents { Self.contents self.new ≡ Self.contents self.old }
        ensures failures { Self.failures self.new ≡ Self.failures self.old };
}

impl<W: Write> Outlet for ToWrite<W> {
    // Start and script are one.
    fn end_start(&mut self) {}
}

/// Whether a start that ends in front of the second `split` ends in front of an event of the second `first`. Either may
/// be missing, and then it does not.
pub fn is_due(split: Option<u32>, first: Option<u32>) -> bool
    ensures { result ≡ is_due split first }
{
    match split {
        None => false,
        Some(split) => match first {
            None => false,
            Some(first) => split <= first,
        },
    }
}

/// Two writers, one for a start and one for what stands behind it.
#[derive(Drop)]
pub struct StartAndScript<W: Write> {
    start: ToWrite<W>,
    script: ToWrite<W>,
    is_behind: bool,
    // how many writes and flushes failed; it begins at 0 again behind the largest number
    failures: u64,
}

impl<W: Write> Model for StartAndScript<W> {
    ghost use Rattle.rev_intake.specs.Splitting.{PlainStartAndScript};

    ghost Value = { PlainStartAndScript };

    ghost view = { λ s. record { is_behind = s.is_behind; failures = s.failures } };
}

impl<W: Write> StartAndScript<W> {
    /// Nothing was written yet, and the start has not ended.
    pub fn new(start: W, script: W) -> StartAndScript<W>
        ensures { result ≡ record { is_behind = false; failures = 0 } }
    {
        StartAndScript {
            start: ToWrite::new(start),
            script: ToWrite::new(script),
            is_behind: false,
            failures: 0,
        }
    }

    /// Whether the start has ended.
    pub fn is_behind(&self) -> bool
        ensures { result ≡ self.now.is_behind }
    {
        self.is_behind
    }
}

impl<W: Write> Sink for StartAndScript<W> {
    ghost use Rattle.std.specs.Prelude.{None};

    // (those of two files are not known as one text)
    ghost contents = { λ s. None };

    ghost failures = { λ s. s.failures };

    fn write(&mut self, buf: &[u8]) -> Result<usize, WriteFailed> {
        let taken = if self.is_behind {
            self.script.write(buf)
        } else {
            self.start.write(buf)
        };
        match taken {
            Ok(n) => {
                if n == 0 && buf.len() > 0 {
                    self.failures = self.failures.wrapping_add(1);
                }
                Ok(n)
            }
            Err(fault) => {
                self.failures = self.failures.wrapping_add(1);
                Err(fault)
            }
        }
    }

    fn flush(&mut self) -> Result<(), WriteFailed> {
        let done = if self.is_behind {
            self.script.flush()
        } else {
            self.start.flush()
        };
        match done {
            Ok(()) => Ok(()),
            Err(fault) => {
                self.failures = self.failures.wrapping_add(1);
                Err(fault)
            }
        }
    }
}

impl<W: Write> Outlet for StartAndScript<W> {
    fn end_start(&mut self) {
        self.is_behind = true;
    }
}
