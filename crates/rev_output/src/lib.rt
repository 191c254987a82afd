//! Where answers go: a writer whose contracts tell its bytes and its faults, and the loop that writes
//! a text whole.
#![tactic(auto)]

pub mod outbox;

ghost use Rattle.std.specs.Prelude.{◌≡◌, ◌≤◌, ℕ, List, length, IfOk, OnErr, OnOk, Option};
ghost use Rattle.std.specs.Io.KnownBytes.{Keeps, Appends, WriteAppends};
ghost use Rattle.rev_output.specs.Sink.{WroteFront, one_more};

use std::io::{ErrorKind, Write};
use std::marker::Model;
use thiserror::Error;

/// A write failed, and took no byte.
#[derive(Clone, Copy, Debug, PartialEq, Eq, Drop, Error)]
#[error("cannot write")]
pub struct WriteFailed;

/// A writer whose contracts tell its bytes and its faults, which those of `std::io::Write` do not.
pub trait Sink {
    ghost use Rattle.rev_output.specs.Sink.{failed_of, is_failed, failures_after};

    // The bytes that it holds, where they are known.
    ghost contents: { Self → Option (List ℕ) };

    // How many writes and flushes failed: they answered an error, or a write of some bytes took none. It is counted
    // modulo 2 ^ 64.
    ghost failures: { Self → ℕ };

    // Which writer it is, where it is one that is lent: its ghost name.
    ghost identity: { Self → ℕ } = { λ _. 0 };

    /// Takes bytes from the front of `buf`, as many as it answers.
    fn write(&mut self, buf: &[u8]) -> Result<usize, WriteFailed>
        ensures bound { IfOk result (λ n. n ≤ length buf.now) }
        ensures bytes { WriteAppends (contents self.old) (contents self.new) result buf.now }
        ensures failures { failures self.new ≡ failures_after (failed_of result (length buf.now)) (failures self.old) }
        ensures same { identity self.new ≡ identity self.old };

    /// Sends on what was taken.
    fn flush(&mut self) -> Result<(), WriteFailed>
        ensures bytes { Keeps (contents self.old) (contents self.new) }
        ensures failures { failures self.new ≡ failures_after (is_failed result) (failures self.old) }
        ensures same { identity self.new ≡ identity self.old };
}

/// Writes all the bytes, in as many calls as it takes, and sends them on; no call failed then. At an
/// error one did, the last, and a front of the bytes was written.
#[inline(always)]
pub fn write_all<K: Sink>(sink: &mut K, text: &[u8]) -> Result<(), WriteFailed>
    ensures ok { OnOk result (Appends (K.contents sink.old) (K.contents sink.new) text.now
        × (K.failures sink.new ≡ K.failures sink.old)) }
    ensures err { OnErr result (WroteFront (K.contents sink.old) (K.contents sink.new) text.now
        × (K.failures sink.new ≡ one_more (K.failures sink.old))) }
    ensures same { K.identity sink.new ≡ K.identity sink.old }
{
    let mut from = 0usize;
    while from < text.len() {
        match sink.write(&text[from..]) {
            Err(e) => return Err(e),
            Ok(n) => {
                if n == 0 {
                    return Err(WriteFailed);
                }
                from += n;
            }
        }
    }
    match sink.flush() {
        Err(e) => Err(e),
        Ok(()) => Ok(()),
    }
}

// So many interrupted writes one after another count as a failure.
const MOST_TRIES: u32 = 1000000;

/// Any writer of std as a sink. A write that was interrupted is tried again.
#[derive(Drop)]
pub struct ToWrite<W: Write> {
    writer: W,
    // How many writes and flushes failed. It begins at 0 again behind the largest number.
    failures: u64,
}

impl<W: Write> Model for ToWrite<W> {
    ghost use Rattle.rev_output.specs.Sink.{PlainSink, sink_at};

    ghost Value = { PlainSink };

    ghost view = { λ s. sink_at (W.contents s.writer) s.failures };
}

impl<W: Write> ToWrite<W> {
    ghost use Rattle.rev_output.specs.Sink.{sink_at};

    /// A sink that has not failed yet.
    pub fn new(writer: W) -> ToWrite<W>
        ensures { result ≡ sink_at (W.contents writer) 0 }
    {
        ToWrite {
            writer,
            failures: 0,
        }
    }
}

// Writes, and tries again where a write was interrupted.
fn write_again<W: Write>(writer: &mut W, buf: &[u8]) -> Result<usize, WriteFailed>
    ensures bound { IfOk result (λ n. n ≤ length buf.now) }
    ensures bytes { WriteAppends (W.contents writer.old) (W.contents writer.new) result buf.now }
{
    for _ in 0..MOST_TRIES {
        match writer.write(buf) {
            Ok(n) => return Ok(n),
            Err(e) => {
                if e.kind() != ErrorKind::Interrupted {
                    break;
                }
            }
        }
    }
    Err(WriteFailed)
}

impl<W: Write> Sink for ToWrite<W> {
    ghost contents = { λ s. s.contents };

    ghost failures = { λ s. s.failures };

    fn write(&mut self, buf: &[u8]) -> Result<usize, WriteFailed> {
        match write_again(&mut self.writer, buf) {
            Ok(n) => {
                if n == 0 && buf.len() > 0 {
                    self.failures = self.failures.wrapping_add(1);
                }
                Ok(n)
            }
            Err(e) => {
                self.failures = self.failures.wrapping_add(1);
                Err(e)
            }
        }
    }

    fn flush(&mut self) -> Result<(), WriteFailed> {
        match self.writer.flush() {
            Ok(()) => Ok(()),
            Err(_) => {
                self.failures = self.failures.wrapping_add(1);
                Err(WriteFailed)
            }
        }
    }
}
