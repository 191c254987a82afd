//! Bytes by large pieces, from a source that gives them in pieces of any size.
ghost use Rattle.std.specs.Prelude.{◌≡◌, ◌≢◌, [], ◌≤◌, ◌<◌, length, take, Ok, IfOk, IfErr, OnOk, IfNone, OnErr, true, false, option_to_list};
ghost use Rattle.std.specs.Io.KnownBytes.{Appends};
ghost use Rattle.rev_output.specs.Sink.{WroteFront, one_more};

use crate::duplex::Duplex;
use crate::source::Source;
use rev_output::WriteFailed;
use std::marker::Model;
use thiserror::Error;

/// The most bytes that a script may have.
pub const MOST_BYTES: u64 = 4294967296;

// Bytes asked for in one read.
const PIECE: usize = 65536;

/// Why there is no next line.
#[derive(Clone, Copy, Debug, PartialEq, Eq, Drop, Error)]
pub enum LineFault {
    #[error("out of memory")]
    Memory,
    /// A read failed.
    #[error("cannot read")]
    Read,
    /// The script has more than 4294967296 bytes.
    #[error("input too long")]
    TooLong,
}

/// A source, with the piece of it that was read and is not yet used up.
#[derive(Drop)]
pub struct ByteReader<S: Source> {
    source: S,
    piece: [u8; 65536],
    from: usize,
    to: usize,
    given: u64,
}

impl<S: Source> Model for ByteReader<S> {
    ghost use Rattle.std.specs.Prelude.{◌≡◌, ◌≤◌, length, slice_range};
    ghost use Rattle.rev_script.specs.ByteReader.{PlainReader};

    ghost Value = { PlainReader };

    ghost view = { λ b. record { unused = slice_range b.piece b.from b.to; given = b.given; source = S.told b.source } };

    ghost invariant = { λ b. (b.from ≤ b.to) × (b.to ≤ 65536) × (length b.piece ≡ 65536) × (b.given ≤ 4294967296) };
}

impl<S: Source> ByteReader<S> {
    ghost use Rattle.rev_script.specs.ByteReader.{front, unread, Took, AtEnd, IsEnded, Broke};
    ghost use Rattle.rev_script.specs.declared.byte_reader.LineFault.{LineFault};
    ghost use Rattle.rev_script.specs.declared.source.LastRead.{LastRead};

    /// All that the source will give. No memory is taken.
    pub fn over(source: S) -> ByteReader<S>
        ensures { result ≡ unread (S.told source) }
    {
        ByteReader {
            source,
            piece: [0; PIECE],
            from: 0,
            to: 0,
            given: 0,
        }
    }

    // Reads the next piece where the last one is used up. At `true` the piece has a byte.
    fn fill(&mut self) -> Result<bool, LineFault>
        ensures ok { OnOk result (Took self.old self.new []) }
        ensures some { IfOk result (λ some. some ≡ true → 0 < length self.new.unused) }
        ensures none { IfOk result (λ some. some ≡ false → AtEnd self.new) }
        ensures err { IfErr result (λ e. (e ≡ LineFault.Read) × Broke self.old self.new [] e) }
        ensures stays { IsEnded self.old → result ≡ Ok false }
    {
        if self.from < self.to {
            return Ok(true);
        }
        match self.source.read(&mut self.piece) {
            Ok(n) => {
                self.from = 0;
                self.to = n;
                Ok(n > 0)
            }
            Err(_) => Err(LineFault::Read),
        }
    }

    /// Whether there are more bytes. At `true` some of them can be seen at the front.
    pub fn more(&mut self) -> Result<bool, LineFault>
        ensures ok { OnOk result (Took self.old self.new []) }
        ensures some { IfOk result (λ some. some ≡ true → 0 < length (front self.new)) }
        ensures none { IfOk result (λ some. some ≡ false → AtEnd self.new) }
        ensures err { IfErr result (λ e. (e ≢ LineFault.Memory) × Broke self.old self.new [] e) }
        ensures stays { IsEnded self.old → result ≡ Ok false }
    {
        let some = match self.fill() {
            Ok(some) => some,
            Err(e) => return Err(e),
        };
        if some && self.given >= MOST_BYTES {
            return Err(LineFault::TooLong);
        }
        Ok(some)
    }

    /// The bytes that were read, and may be taken.
    pub fn front(&self) -> &[u8]
        ensures { result.now ≡ front self.now }
    {
        let room = MOST_BYTES - self.given;
        let there = self.to - self.from;
        if (there as u64) <= room {
            &self.piece[self.from..self.to]
        } else {
            &self.piece[self.from..self.from + room as usize]
        }
    }

    /// Takes so many bytes from the front.
    pub fn pass(&mut self, n: usize)
        requires { n ≤ length (front self.old) }
        ensures taken { Took self.old self.new (take n (front self.old)) }
        ensures most { self.new.given ≤ 4294967296 }
    {
        self.from += n;
        self.given += n as u64;
    }

    /// The next byte; none only at the end.
    pub fn byte(&mut self) -> Result<Option<u8>, LineFault>
        ensures taken { IfOk result (λ b. Took self.old self.new (option_to_list b)) }
        ensures end { IfOk result (λ b. IfNone b (AtEnd self.new)) }
        ensures err { IfErr result (λ e. (e ≢ LineFault.Memory) × Broke self.old self.new [] e) }
    {
        let some = match self.more() {
            Ok(some) => some,
            Err(e) => return Err(e),
        };
        if !some {
            return Ok(None);
        }
        let b = self.front()[0];
        self.pass(1);
        Ok(Some(b))
    }

    /// How many bytes were taken.
    #[inline(always)]
    pub fn given(&self) -> u64
        ensures value { result ≡ self.now.given }
        ensures most { result ≤ 4294967296 }
    {
        self.given
    }

    /// Counts the bytes that are taken from here on alone: so many more may be taken.
    pub fn count_anew(&mut self)
        ensures { self.new ≡ record self.old { given = 0 } }
    {
        self.given = 0;
    }

    /// The source, as it is now.
    pub fn into_source(self) -> S
        ensures { S.told result ≡ self.source }
    {
        let ByteReader { source, .. } = self;
        source
    }
}

impl<S: Duplex> ByteReader<S> {
    ghost use Rattle.rev_script.specs.ByteReader.{with_sink};

    /// Writes all the bytes to the source. What is read is left alone.
    #[inline(always)]
    pub fn put(&mut self, text: &[u8]) -> Result<(), WriteFailed>
        ensures ok { OnOk result (Appends self.old.source.beside.sink.contents self.new.source.beside.sink.contents text.now
            × (self.new.source.beside.sink.failures ≡ self.old.source.beside.sink.failures)) }
        ensures err { OnErr result (WroteFront self.old.source.beside.sink.contents self.new.source.beside.sink.contents text.now
            × (self.new.source.beside.sink.failures ≡ one_more self.old.source.beside.sink.failures)) }
        ensures kept { self.new ≡ with_sink self.old self.new.source.beside.sink }
    {
        match self.source.put(text) {
            Err(e) => Err(e),
            Ok(()) => Ok(()),
        }
    }
}
