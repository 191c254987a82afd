//! Where a script's bytes come from.
ghost use Rattle.std.specs.Prelude.{◌≡◌, ◌≤◌, ℕ, List, length, IfOk, Ok};
ghost use Rattle.std.specs.Io.KnownBytes.{ReadConsumes};
ghost use Rattle.std.specs.Prelude.{Option};

use std::io::{ErrorKind, Read};
use std::marker::Model;
use thiserror::Error;

/// What the last read did.
#[derive(Clone, Copy)]
pub enum LastRead {
    /// It gave bytes, or there was no room for any; or nothing was read yet.
    Gave,
    /// It gave none where there was room: the end.
    Ended,
    Failed,
}

/// A read failed, and took no byte.
#[derive(Clone, Copy, Debug, PartialEq, Eq, Drop, Error)]
#[error("cannot read")]
pub struct ReadFailed;

// So many interrupted reads one after another count as a failure.
const MOST_TRIES: u32 = 1000000;

/// A reader whose contracts tell its bytes and its faults, which those of `std::io::Read` do not.
pub trait Source {
    ghost use Rattle.rev_script.specs.Source.{Told, last_of, failures_after};
    ghost use Rattle.rev_script.specs.declared.source.LastRead.{LastRead};

    // The bytes that reads will give from here on, where they are known; what the last read did; how many reads failed;
    // which reader it is; what it is written to, where it is a writer too.
    ghost told: { Self → Told };

    /// Puts bytes at the front of `buf`, as many as it answers; none only at the end, or where there
    /// is no room. The end stays the end.
    fn read(&mut self, buf: &mut [u8]) -> Result<usize, ReadFailed>
        ensures bound { IfOk result (λ n. n ≤ length buf.new) }
        ensures bytes { ReadConsumes (told self.old).remaining (told self.new).remaining result buf.new }
        ensures last { (told self.new).last ≡ last_of (told self.old).last result (length buf.new) }
        ensures failures { (told self.new).failures ≡ failures_after (told self.old).failures result }
        ensures ended { (told self.old).last ≡ LastRead.Ended → result ≡ Ok 0 }
        ensures same { (told self.new).identity ≡ (told self.old).identity }
        ensures beside { (told self.new).beside ≡ (told self.old).beside };
}

impl<S: Source> Source for &mut S {
    ghost use Rattle.rev_script.specs.Source.{told_by};

    ghost told = { λ s. told_by (S.told s.now) s.ghost_name };

    fn read(&mut self, buf: &mut [u8]) -> Result<usize, ReadFailed> {
        (**self).read(buf)
    }
}

/// Any reader of std as a source. A read that was interrupted is tried again.
#[derive(Drop)]
pub struct FromRead<R: Read> {
    reader: R,
    last: LastRead,
    // How many reads failed. It begins at 0 again behind the largest number.
    failures: u64,
}

impl<R: Read> Model for FromRead<R> {
    ghost use Rattle.rev_script.specs.Source.{Told, told_of};

    ghost Value = { Told };

    ghost view = { λ s. told_of (R.remaining s.reader) s.last s.failures };
}

impl<R: Read> FromRead<R> {
    ghost use Rattle.rev_script.specs.Source.{told_of};
    ghost use Rattle.rev_script.specs.declared.source.LastRead.{LastRead};

    /// A source that has read nothing yet.
    pub fn new(reader: R) -> FromRead<R>
        ensures { result ≡ told_of (R.remaining reader) LastRead.Gave 0 }
    {
        FromRead {
            reader,
            last: LastRead::Gave,
            failures: 0,
        }
    }
}

// Reads, and tries again where a read was interrupted.
pub(crate) fn read_again<R: Read>(reader: &mut R, buf: &mut [u8]) -> Result<usize, ReadFailed>
    ensures bound { IfOk result (λ n. n ≤ length buf.new) }
    ensures same_room { length buf.new ≡ length buf.old }
    ensures bytes { ReadConsumes (R.remaining reader.old) (R.remaining reader.new) result buf.new }
{
    for _ in 0..MOST_TRIES {
        match reader.read(buf) {
            Ok(n) => return Ok(n),
            Err(e) => {
                if e.kind() != ErrorKind::Interrupted {
                    break;
                }
            }
        }
    }
    Err(ReadFailed)
}

impl<R: Read> Source for FromRead<R> {
    ghost told = { λ s. s };

    fn read(&mut self, buf: &mut [u8]) -> Result<usize, ReadFailed> {
        match self.last {
            LastRead::Ended => return Ok(0),
            LastRead::Gave | LastRead::Failed => {}
        }
        match read_again(&mut self.reader, buf) {
            Ok(n) => {
                self.last = if n == 0 && buf.len() > 0 {
                    LastRead::Ended
                } else {
                    LastRead::Gave
                };
                Ok(n)
            }
            Err(_) => {
                self.last = LastRead::Failed;
                self.failures = self.failures.wrapping_add(1);
                Err(ReadFailed)
            }
        }
    }
}
