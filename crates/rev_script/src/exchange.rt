//! A reader and a writer that belong together: what was written is sent before a read may wait.
ghost use Rattle.std.specs.Prelude.{◌≡◌, [], ◌≤◌, length, IfOk, IfSome, OnOk};
ghost use Rattle.std.specs.Io.KnownBytes.{ReadConsumes};
ghost use Rattle.std.specs.Io.Buffered.{reader_remaining};
ghost use Rattle.rev_output.specs.Outbox.{contents};

use crate::duplex::Duplex;
use crate::source::{LastRead, ReadFailed, Source, read_again};
use rev_output::outbox::{Outbox, PIECE, Room};
use rev_output::{WriteFailed, write_all};
use std::alloc::Global;
use std::io::{BufReader, Read, Write};
use std::marker::Model;

/// A reader with the buffers that an exchange has.
#[derive(Drop)]
pub struct Buffers<I: Read> {
    room: Room,
    reader: BufReader<I>,
}

impl<I: Read> Model for Buffers<I> {
    ghost use Rattle.std.specs.Prelude.{Option, List, ℕ};
    ghost use Rattle.std.specs.Io.Buffered.{reader_remaining};

    ghost Value = { Option (List ℕ) };

    ghost view = { λ b. reader_remaining I.remaining b.reader };
}

impl<I: Read> Buffers<I> {
    /// Takes the memory, which is all that an exchange has: that of what waits to be sent, and then that of what was
    /// read. None where there is too little.
    pub fn new(alloc: Global, reader: I) -> Option<Buffers<I>>
    where
        I: Drop,
        ensures { IfSome result (λ buffers. buffers ≡ I.remaining reader) }
    {
        let Ok(room) = Room::new(alloc) else {
            return None;
        };
        match BufReader::with_capacity(alloc, PIECE, reader) {
            Err(_) => None,
            Ok(reader) => Some(Buffers { room, reader }),
        }
    }
}

/// A source and a sink in one. Small writes are kept together. Where all that was read is used up, what was written is
/// sent before the reader is read again. After a write that failed nothing more is sent or read.
#[derive(Drop)]
pub struct Exchange<'a, I: Read, O: Write> {
    reader: BufReader<I>,
    last: LastRead,
    // How many reads failed. It begins at 0 again behind the largest number.
    failures: u64,
    outbox: Outbox<'a, O>,
}

impl<'a, I: Read, O: Write> Model for Exchange<'a, I, O> {
    ghost use Rattle.std.specs.Io.Buffered.{reader_remaining};
    ghost use Rattle.rev_script.specs.Exchange.{PlainExchange};

    ghost Value = { PlainExchange };

    ghost view = { λ e. record { remaining = reader_remaining I.remaining e.reader; last = e.last; failures = e.failures; outbox = e.outbox } };
}

// Reads, where the reader's buffer is used up once what waits is sent.
fn read_behind<I: Read, O: Write>(
    reader: &mut BufReader<I>,
    outbox: &mut Outbox<'_, O>,
    buf: &mut [u8],
) -> Result<usize, ReadFailed>
    ensures bound { IfOk result (λ n. n ≤ length buf.new) }
    ensures same_room { length buf.new ≡ length buf.old }
    ensures bytes { ReadConsumes (reader_remaining I.remaining reader.old) (reader_remaining I.remaining reader.new) result buf.new }
    ensures kept { contents outbox.new ≡ contents outbox.old }
    ensures failures { outbox.new.failures ≡ outbox.old.failures }
    ensures same { outbox.new.writer ≡ outbox.old.writer }
{
    if reader.buffer().is_empty() {
        match outbox.send() {
            Err(_) => return Err(ReadFailed),
            Ok(()) => {}
        }
    }
    match read_again(reader, buf) {
        Err(e) => Err(e),
        Ok(n) => Ok(n),
    }
}

impl<'a, I: Read, O: Write> Exchange<'a, I, O> {
    ghost use Rattle.rev_script.specs.Exchange.{exchange_at};

    /// Nothing was read or written yet.
    pub fn new(buffers: Buffers<I>, writer: &'a mut O) -> Exchange<'a, I, O>
        ensures { result ≡ exchange_at buffers (O.contents writer.old) writer.entry.ghost_name }
    {
        let Buffers { room, reader } = buffers;
        Exchange {
            reader,
            last: LastRead::Gave,
            failures: 0,
            outbox: Outbox::new(room, writer),
        }
    }

    /// Sends what waits. Where that fails, what could not be sent is lost, and nothing more is sent.
    pub fn send(&mut self) -> Result<(), WriteFailed>
        ensures kept { contents self.new.outbox ≡ contents self.old.outbox }
        ensures sent { OnOk result (self.new.outbox.unsent ≡ []) }
        ensures same { self.new.outbox.writer ≡ self.old.outbox.writer }
    {
        self.outbox.send()
    }

    /// Whether a write has failed, or what waited could not be sent. A reader that fails is asked so whose fault it
    /// was.
    pub fn has_failed(&self) -> bool
        ensures { result ≡ self.now.outbox.has_failed }
    {
        self.outbox.has_failed()
    }

    /// The writer. What waits is dropped.
    pub fn into_writer(self) -> &'a mut O
    where
        I: Drop,
        ensures sent { O.contents result.now ≡ self.entry.outbox.sent }
        ensures same { result.ghost_name ≡ self.entry.outbox.writer }
    {
        let Exchange { outbox, .. } = self;
        outbox.into_writer()
    }
}

impl<I: Read, O: Write> Source for Exchange<'_, I, O> {
    ghost use Rattle.rev_script.specs.Exchange.{told_in};

    ghost told = { told_in };

    fn read(&mut self, buf: &mut [u8]) -> Result<usize, ReadFailed> {
        match self.last {
            LastRead::Ended => return Ok(0),
            LastRead::Gave | LastRead::Failed => {}
        }
        match read_behind(&mut self.reader, &mut self.outbox, buf) {
            Ok(n) => {
                self.last = if n == 0 && buf.len() > 0 {
                    LastRead::Ended
                } else {
                    LastRead::Gave
                };
                Ok(n)
            }
            Err(_) => {
                self.last = LastRead::Failed;
                self.failures = self.failures.wrapping_add(1);
                Err(ReadFailed)
            }
        }
    }
}

impl<I: Read, O: Write> Duplex for Exchange<'_, I, O> {
    #[inline(always)]
    fn put(&mut self, text: &[u8]) -> Result<(), WriteFailed> {
        match write_all(&mut self.outbox, text) {
            Err(e) => Err(e),
            Ok(()) => Ok(()),
        }
    }
}
