//! The script that an import would write, read while what it is made of is taken in.
ghost use Rattle.std.specs.Prelude.{◌≡◌, ◌<◌, ◌+◌, ◌++◌, [], None, ℕ, List, Option, length, take, drop, true, false, OnOk, IfOk};
ghost use Rattle.std.specs.Io.{ReadsAtMost};
ghost use Rattle.std.specs.Io.KnownBytes.{Keeps, IsAtEnd, prepend_known};
ghost use Rattle.rev_import_commands.specs.Feeding.{Feeds};

use crate::import::{name_in, stop_of as stop_of_log};
use crate::traces::stop_of as stop_of_row;
use rev_intake::fault::{IntakeFault, RowsFault};
use rev_intake::feed::{LogFeed, RowFeed};
use rev_intake::intake::PIECE;
use rev_messages::Stop;
use std::alloc::Global;
use std::io;
use std::io::{ErrorKind, Read};
use std::marker::Model;

/// What a script is made of, taken in bit by bit.
pub trait Feed {
    // The bytes of the script that are not written yet, where they are known.
    ghost script: { Self → Option (List ℕ) } = { λ _. None };

    /// Takes in a little more, and writes what it becomes behind `out`. The answer is whether there may be more.
    fn feed(&mut self, out: &mut Vec<u8>) -> Result<bool, Stop>
        ensures bytes { Feeds (script self.old) (script self.new) out.old.items out.new.items }
        ensures end { IfOk result (λ more. more ≡ false → IsAtEnd (script self.new)) };

    /// The name of the file that is read.
    fn name(&self) -> &str;
}

// The reason, or the want of memory for it.
fn either(stop: Result<Stop, Stop>) -> Stop {
    match stop {
        Ok(stop) => stop,
        Err(stop) => stop,
    }
}

/// Why logs of these names do not become a script, at the one in a place.
pub(crate) fn stop_in(alloc: Global, fault: IntakeFault, names: &[String], place: usize) -> Stop {
    // All logs together have no event.
    let place = if fault == IntakeFault::NoEvent {
        0
    } else {
        place
    };
    either(stop_of_log(alloc, fault, name_in(names, place)))
}

/// Logs of these names.
#[derive(Drop)]
pub struct NamedLogs<'n, 'i, F: Read + Drop> {
    pub alloc: Global,
    pub names: &'n [String],
    pub logs: LogFeed<'i, F>,
}

impl<'n, 'i, F: Read + Drop> Feed for NamedLogs<'n, 'i, F> {
    fn feed(&mut self, out: &mut Vec<u8>) -> Result<bool, Stop> {
        match self.logs.feed(out) {
            Ok(more) => Ok(more),
            Err(fault) => Err(stop_in(self.alloc, fault, self.names, self.logs.place())),
        }
    }

    fn name(&self) -> &str {
        name_in(self.names, self.logs.place())
    }
}

// Why traces of these names do not become a script, at the one in a place.
fn stop_among(alloc: Global, fault: RowsFault, names: &[String], place: usize) -> Stop {
    // All traces together have no row.
    let place = if fault == RowsFault::NoRow { 0 } else { place };
    either(stop_of_row(alloc, fault, name_in(names, place)))
}

/// Published traces of these names.
#[derive(Drop)]
pub struct NamedTraces<'n, 'i, F: Read + Drop> {
    pub alloc: Global,
    pub names: &'n [String],
    pub traces: RowFeed<'i, F>,
}

impl<'n, 'i, F: Read + Drop> Feed for NamedTraces<'n, 'i, F> {
    fn feed(&mut self, out: &mut Vec<u8>) -> Result<bool, Stop> {
        match self.traces.feed(out) {
            Ok(more) => Ok(more),
            Err(fault) => {
                let place = self.traces.place();
                Err(stop_among(self.alloc, fault, self.names, place))
            }
        }
    }

    fn name(&self) -> &str {
        name_in(self.names, self.traces.place())
    }
}

// Has the feed write what becomes the next piece, behind what stands there.
fn refill<T: Feed>(feed: &mut T, piece: &mut Vec<u8>, has_more: &mut bool) -> Result<(), Stop>
    ensures bytes { Feeds (T.script feed.old) (T.script feed.new) piece.old.items piece.new.items }
    ensures end { (has_more.old ≡ false → IsAtEnd (T.script feed.old)) → has_more.new ≡ false → IsAtEnd (T.script feed.new) }
    ensures full { OnOk result (has_more.new ≡ true → 0 < length piece.new.items) }
{
    for _ in 0..u64::MAX {
        if !*has_more || piece.len() >= PIECE {
            return Ok(());
        }
        match feed.feed(piece) {
            Ok(more) => *has_more = more,
            Err(stop) => return Err(stop),
        }
    }
    Err(Stop::TooLong)
}

fn has_stopped() -> io::Error {
    io::Error::from(ErrorKind::InvalidData)
}

// Sees that the piece has bytes behind the place, where there are more. What ends the script early ends each call
// behind it.
fn refresh<T: Feed>(
    feed: &mut T,
    piece: &mut Vec<u8>,
    from: &mut usize,
    has_more: &mut bool,
    stop: &mut Option<Stop>,
) -> io::Result<()>
    requires { has_more.now ≡ false → IsAtEnd (T.script feed.now) }
    ensures bytes { Keeps (prepend_known (drop from.old piece.old.items) (T.script feed.old)) (prepend_known (drop from.new piece.new.items) (T.script feed.new)) }
    ensures ended { has_more.new ≡ false → IsAtEnd (T.script feed.new) }
    ensures end { OnOk result (drop from.new piece.new.items ≡ [] → IsAtEnd (T.script feed.new)) }
{
    if *from < piece.len() {
        return Ok(());
    }
    if stop.is_some() {
        return Err(has_stopped());
    }
    piece.clear();
    *from = 0;
    match refill(feed, piece, has_more) {
        Ok(()) => Ok(()),
        Err(why) => {
            *stop = Some(why);
            Err(has_stopped())
        }
    }
}

// Gives bytes of a piece, from a place on.
fn give(piece: &[u8], from: usize, buf: &mut [u8]) -> io::Result<usize>
    ensures bound { ReadsAtMost result buf.new }
    ensures fits { IfOk result (λ n. from + n < 18446744073709551616) }
    ensures bytes { IfOk result (λ n. drop from piece.now ≡ take n buf.new ++ drop (from + n) piece.now) }
    ensures end { IfOk result (λ n. n ≡ 0 → 0 < length buf.new → drop from piece.now ≡ []) }
{
    match piece.get(from..) {
        None => Ok(0),
        Some(rest) => {
            let mut rest = rest;
            rest.read(buf)
        }
    }
}

/// A script as it is made: of it a piece is kept, and nothing else. What ends it early is remembered.
#[derive(Drop)]
pub struct ImportedScript<T: Feed + Drop> {
    feed: T,
    piece: Vec<u8>,
    // how many bytes of the piece were read
    from: usize,
    has_more: bool,
    stop: Option<Stop>,
}

impl<T: Feed + Drop> Model for ImportedScript<T> {
    // the bytes of the script that were not read yet, where they are known
    ghost Value = { Option (List ℕ) };

    ghost view = { λ s. prepend_known (drop s.from s.piece.items) (T.script s.feed) };

    ghost invariant = { λ s. s.has_more ≡ false → IsAtEnd (T.script s.feed) };
}

impl<T: Feed + Drop> ImportedScript<T> {
    /// A script of which nothing was read.
    pub fn new(alloc: Global, feed: T) -> ImportedScript<T>
        ensures { result ≡ T.script feed }
    {
        ImportedScript {
            feed,
            piece: Vec::new(alloc),
            from: 0,
            has_more: true,
            stop: None,
        }
    }

    /// The name of the file that is read.
    pub fn name(&self) -> &str {
        self.feed.name()
    }

    /// What ended the script early, if anything did.
    pub fn into_stop(self) -> Option<Stop> {
        let ImportedScript { stop, .. } = self;
        stop
    }
}

impl<T: Feed + Drop> Read for ImportedScript<T> {
    ghost remaining = { λ s. s };

    fn read(&mut self, buf: &mut [u8]) -> io::Result<usize> {
        match refresh(
            &mut self.feed,
            &mut self.piece,
            &mut self.from,
            &mut self.has_more,
            &mut self.stop,
        ) {
            Err(error) => Err(error),
            Ok(()) => match give(self.piece.as_slice(), self.from, buf) {
                Err(error) => Err(error),
                Ok(n) => {
                    self.from += n;
                    Ok(n)
                }
            },
        }
    }
}
