//! A writer that keeps small writes together until they are sent.
ghost use Rattle.std.specs.Prelude.{◌≡◌, [], ◌++◌, ◌+◌, ◌-◌, ◌≤◌, length, take, drop, IfOk, OnOk, vec_len, vec_capacity};
ghost use Rattle.std.specs.Io.KnownBytes.{Keeps, Appends, WriteAppends, append_known};

use crate::{Sink, WriteFailed, write_again};
use std::alloc::{AllocError, Global};
use std::io::Write;
use std::marker::Model;
use std::snapshot::Snapshot;

/// How many bytes are read or written at once, where there are so many (this project's own figure).
pub const PIECE: usize = 65536;

/// Room for the bytes that wait to be sent.
#[derive(Drop)]
pub struct Room {
    bytes: Vec<u8>,
}

impl Room {
    /// Takes the memory, which is all that an outbox has.
    pub fn new(alloc: Global) -> Result<Room, AllocError> {
        let bytes = Vec::with_capacity(alloc, PIECE)?;
        Ok(Room { bytes })
    }
}

// Adds bytes for which there is room.
#[inline(always)]
fn append(unsent: &mut Vec<u8>, bytes: &[u8])
    requires { vec_len unsent.old + length bytes.now ≤ vec_capacity unsent.old }
    ensures { unsent.new.items ≡ unsent.old.items ++ bytes.now }
{
    let Ok(()) = unsent.extend_from_slice(bytes) else {
        unreachable!()
    };
}

// Writes all bytes, in as many calls as it takes. Answers how many were written, and whether that is all.
fn write_out<W: Write>(writer: &mut W, bytes: &[u8]) -> (usize, Result<(), WriteFailed>)
    ensures bound { result.0 ≤ length bytes.now }
    ensures all { OnOk result.1 (result.0 ≡ length bytes.now) }
    ensures bytes { Appends (W.contents writer.old) (W.contents writer.new) (take result.0 bytes.now) }
{
    let mut written = 0usize;
    while written < bytes.len() {
        match write_again(writer, &bytes[written..]) {
            Err(e) => return (written, Err(e)),
            Ok(n) => {
                if n == 0 {
                    return (written, Err(WriteFailed));
                }
                written += n;
            }
        }
    }
    (written, Ok(()))
}

// Takes so many bytes away from the front.
fn remove_front(unsent: &mut Vec<u8>, n: usize)
    requires { n ≤ vec_len unsent.old }
    ensures items { unsent.new.items ≡ drop n unsent.old.items }
    ensures len { vec_len unsent.new ≡ vec_len unsent.old - n }
    ensures capacity { vec_capacity unsent.new ≡ vec_capacity unsent.old }
{
    let len = unsent.len();
    unsent.as_mut_slice().copy_within(n..len, 0);
    unsent.truncate(len - n);
}

// A writer, the bytes that wait for it, and whether a write has failed.
#[derive(Drop)]
struct Pending<'a, W: Write> {
    writer: &'a mut W,
    unsent: Vec<u8>,
    // Once this is set nothing more is sent, so that no byte is sent twice or out of turn.
    has_failed: bool,
}

impl<W: Write> Pending<'_, W> {
    ghost use Rattle.rev_output.specs.Pending.{held};

    // Writes the bytes that wait. Those that could not be written stay.
    fn send(&mut self) -> Result<(), WriteFailed>
        ensures bytes { Keeps (held W.contents self.old) (held W.contents self.new) }
        ensures empty { OnOk result (self.new.unsent.items ≡ []) }
        ensures room { OnOk result (vec_len self.new.unsent ≡ 0) }
        ensures capacity { vec_capacity self.new.unsent ≡ vec_capacity self.old.unsent }
        ensures same { self.new.writer.ghost_name ≡ self.old.writer.ghost_name }
    {
        if self.has_failed {
            return Err(WriteFailed);
        }
        let (written, done) = write_out(self.writer, self.unsent.as_slice());
        remove_front(&mut self.unsent, written);
        self.has_failed = done.is_err();
        done
    }

    // Writes past the bytes that wait, of which there are none.
    fn pass(&mut self, buf: &[u8]) -> Result<usize, WriteFailed>
        requires { self.old.unsent.items ≡ [] }
        ensures bound { IfOk result (λ n. n ≤ length buf.now) }
        ensures bytes { WriteAppends (held W.contents self.old) (held W.contents self.new) result buf.now }
        ensures same { self.new.writer.ghost_name ≡ self.old.writer.ghost_name }
    {
        let done = write_again(self.writer, buf);
        self.has_failed = done.is_err();
        done
    }

    // Makes room for so many bytes: where there is too little, those that wait are sent.
    fn make_room(&mut self, n: usize) -> Result<(), WriteFailed>
        requires { n ≤ vec_capacity self.old.unsent }
        ensures bytes { Keeps (held W.contents self.old) (held W.contents self.new) }
        ensures room { OnOk result (vec_len self.new.unsent + n ≤ vec_capacity self.new.unsent) }
        ensures same { self.new.writer.ghost_name ≡ self.old.writer.ghost_name }
    {
        if n <= self.unsent.capacity() - self.unsent.len() {
            return Ok(());
        }
        match self.send() {
            Err(e) => Err(e),
            Ok(()) => Ok(()),
        }
    }

    // Takes bytes for which there is perhaps no room. It stands apart, so that the test for room is inlined.
    #[cold]
    #[inline(never)]
    fn write_cold(&mut self, buf: &[u8]) -> Result<usize, WriteFailed>
        ensures bound { IfOk result (λ n. n ≤ length buf.now) }
        ensures bytes { WriteAppends (held W.contents self.old) (held W.contents self.new) result buf.now }
        ensures same { self.new.writer.ghost_name ≡ self.old.writer.ghost_name }
    {
        if buf.len() >= self.unsent.capacity() {
            match self.send() {
                Err(e) => return Err(e),
                Ok(()) => return self.pass(buf),
            }
        }
        match self.make_room(buf.len()) {
            Err(e) => return Err(e),
            Ok(()) => {}
        }
        append(&mut self.unsent, buf);
        Ok(buf.len())
    }

    #[inline(always)]
    fn write(&mut self, buf: &[u8]) -> Result<usize, WriteFailed>
        ensures bound { IfOk result (λ n. n ≤ length buf.now) }
        ensures bytes { WriteAppends (held W.contents self.old) (held W.contents self.new) result buf.now }
        ensures same { self.new.writer.ghost_name ≡ self.old.writer.ghost_name }
    {
        if buf.len() < self.unsent.capacity() - self.unsent.len() {
            append(&mut self.unsent, buf);
            return Ok(buf.len());
        }
        self.write_cold(buf)
    }
}

/// A writer that is lent. What is written waits until there is much of it, or until it is sent. After a write that
/// failed nothing more is sent.
#[derive(Drop)]
pub struct Outbox<'a, W: Write> {
    pending: Pending<'a, W>,
    // (what the writer was at first: only contracts look at it)
    first: Snapshot<W>,
    // How many writes failed. It begins at 0 again behind the largest number.
    failures: u64,
}

impl<'a, W: Write> Model for Outbox<'a, W> {
    ghost use Rattle.std.specs.Prelude.{◌≡◌, true};
    ghost use Rattle.rev_output.specs.Outbox.{PlainOutbox, is_followed};

    ghost Value = { PlainOutbox };

    ghost view = { λ o. record {
      first = W.contents o.first.value;
      sent = W.contents o.pending.writer.now;
      unsent = o.pending.unsent.items;
      failures = o.failures;
      has_failed = o.pending.has_failed;
      writer = o.pending.writer.ghost_name;
    } };

    ghost invariant = { λ o. is_followed (W.contents o.first.value) (W.contents o.pending.writer.now) ≡ true };
}

impl<'a, W: Write> Outbox<'a, W> {
    ghost use Rattle.rev_output.specs.Outbox.{outbox_at, contents};

    /// Nothing waits, and no write has failed.
    pub fn new(room: Room, writer: &'a mut W) -> Outbox<'a, W>
        ensures { result ≡ outbox_at (W.contents writer.old) writer.entry.ghost_name }
    {
        let first = Snapshot::of(&*writer);
        let Room { bytes } = room;
        let mut unsent = bytes;
        unsent.clear();
        Outbox {
            pending: Pending {
                writer,
                unsent,
                has_failed: false,
            },
            first,
            failures: 0,
        }
    }

    /// Sends what waits. Where that fails, what could not be sent waits on, and nothing more is ever sent.
    pub fn send(&mut self) -> Result<(), WriteFailed>
        ensures kept { contents self.new ≡ contents self.old }
        ensures sent { OnOk result (self.new.unsent ≡ []) }
        ensures failures { self.new.failures ≡ self.old.failures }
        ensures same { self.new.writer ≡ self.old.writer }
    {
        self.pending.send()
    }

    /// Whether a write has failed, or bytes that waited could not be sent.
    pub fn has_failed(&self) -> bool
        ensures { result ≡ self.now.has_failed }
    {
        self.pending.has_failed
    }

    /// The writer. What waits is dropped.
    pub fn into_writer(self) -> &'a mut W
        ensures sent { W.contents result.now ≡ self.entry.sent }
        ensures same { result.ghost_name ≡ self.entry.writer }
    {
        let Outbox { pending, .. } = self;
        let Pending { writer, .. } = pending;
        writer
    }
}

impl<W: Write> Sink for Outbox<'_, W> {
    ghost use Rattle.rev_output.specs.Outbox.{contents};

    ghost contents = { contents };

    ghost failures = { λ o. o.failures };

    ghost identity = { λ o. o.writer };

    #[inline(always)]
    fn write(&mut self, buf: &[u8]) -> Result<usize, WriteFailed> {
        match self.pending.write(buf) {
            Ok(n) => {
                if n == 0 && buf.len() > 0 {
                    self.failures = self.failures.wrapping_add(1);
                }
                Ok(n)
            }
            Err(e) => {
                self.failures = self.failures.wrapping_add(1);
                Err(e)
            }
        }
    }

    // What was written waits for `send`.
    fn flush(&mut self) -> Result<(), WriteFailed> {
        Ok(())
    }
}
