//! How far a work has come that reads files. It is told on a stream of its own, over and over on one line of a
//! terminal.
ghost use Rattle.std.specs.Prelude.{◌≡◌, ℕ, List, Option, map, true, false, None, Some};
ghost use Rattle.rev_messages.specs.Progress.{asks_progress, percent, rate, progress_text};
ghost use Rattle.rev_messages.specs.Telling.{Told};

use crate::telling::tell_parts;
use itoa::Buffer;
use rev_options::STANDARD;
use rev_output::{Sink, WriteFailed};
use std::cell::RefCell;
use std::convert::AsStr;
use std::io::{Read, Write};
use std::marker::Model;
use std::rt::{Clock, Files};
use std::time::Duration;
use std::{fs, io};

/// For so many seconds nothing is told behind the begin of a work, and behind what was told last.
const PAUSE: u64 = 1;

/// Whether a word asks for progress to be told.
pub fn asks_progress<S: AsStr>(words: &[S]) -> bool
    ensures { result ≡ asks_progress (map S.text words.now) }
{
    for word in words {
        if word.as_str() == "--progress" {
            return true;
        }
    }
    false
}

// So much was read, in per cent, where it is known how much there is.
fn percent(bytes: u64, size: Option<u64>) -> Option<u128>
    ensures { result ≡ percent bytes size }
{
    match size {
        Some(size) if size > 0 => Some((u128::from(bytes) * 100 / u128::from(size)).min(100)),
        _ => None,
    }
}

// So many lines were read a second.
fn rate(lines: u64, millis: u128) -> u128
    ensures { result ≡ rate lines millis }
{
    u128::from(lines) * 1000 / millis.max(1)
}

// Tells how far a work has come of which the share is known, over what was told before.
fn tell_share<W: Sink>(
    out: &mut W,
    lines: u64,
    percent: u128,
    rate: u128,
) -> Result<(), WriteFailed>
    ensures { Told (W.contents out.old) (W.contents out.new) (W.failures out.old) (W.failures out.new) (progress_text lines (Some percent) rate) }
{
    let mut number = Buffer::new();
    let lines = number.format(lines);
    let mut number = Buffer::new();
    let percent = number.format(percent);
    let mut number = Buffer::new();
    let rate = number.format(rate);
    tell_parts(
        out,
        &[
            "\rlrudb: ",
            lines,
            " lines, ",
            percent,
            "%, ",
            rate,
            " a second\x1b[K",
        ],
    )
}

// The same of one of which no share is known.
fn tell_lines<W: Sink>(out: &mut W, lines: u64, rate: u128) -> Result<(), WriteFailed>
    ensures { Told (W.contents out.old) (W.contents out.new) (W.failures out.old) (W.failures out.new) (progress_text lines None rate) }
{
    let mut number = Buffer::new();
    let lines = number.format(lines);
    let mut number = Buffer::new();
    let rate = number.format(rate);
    tell_parts(
        out,
        &["\rlrudb: ", lines, " lines, ", rate, " a second\x1b[K"],
    )
}

// Tells how far a work has come, over what was told before.
fn tell<W: Sink>(
    out: &mut W,
    lines: u64,
    percent: Option<u128>,
    rate: u128,
) -> Result<(), WriteFailed>
    ensures { Told (W.contents out.old) (W.contents out.new) (W.failures out.old) (W.failures out.new) (progress_text lines percent rate) }
{
    match percent {
        None => tell_lines(out, lines, rate),
        Some(percent) => tell_share(out, lines, percent, rate),
    }
}

/// A work and the place where it is told of.
#[derive(Drop)]
struct Board<W> {
    out: W,
    // how many bytes all files have, where that is known
    size: Option<u64>,
    bytes: u64,
    lines: u64,
    // the moment at which the work began, and that from which on it may be told of again
    begun: Duration,
    next: Duration,
    is_shown: bool,
}

fn count_lines(bytes: &[u8]) -> u64 {
    bytes.iter().filter(|byte| **byte == b'\n').count() as u64
}

// The moment from which on a work is told of, that was told of last at this one.
fn behind_pause(moment: Duration) -> Duration {
    moment.saturating_add(Duration::from_secs(PAUSE))
}

// The sum, where both are known.
fn both(one: Option<u64>, other: Option<u64>) -> Option<u64> {
    one?.checked_add(other?)
}

impl<W: Sink> Board<W> {
    // Takes in what a read gave, and tells of the work at that moment of the clock where it is time to.
    fn take(&mut self, bytes: &[u8], now: Duration) {
        self.bytes = self.bytes.saturating_add(bytes.len() as u64);
        self.lines = self.lines.saturating_add(count_lines(bytes));
        if now < self.next {
            return;
        }
        self.next = behind_pause(now);
        self.is_shown = true;
        let millis = now.saturating_sub(self.begun).as_millis();
        let percent = percent(self.bytes, self.size);
        // There is nobody left to tell that this cannot be written.
        let _ = tell(&mut self.out, self.lines, percent, rate(self.lines, millis));
    }

    // Takes what was told off the terminal.
    fn clear(&mut self) {
        if self.is_shown {
            self.is_shown = false;
            let _ = tell_parts(&mut self.out, &["\r\x1b[K"]);
        }
    }
}

/// A work whose progress is told where its clock and its stream are known, and nowhere else.
#[derive(Drop)]
struct Shown<C, W> {
    clock: C,
    board: RefCell<Board<W>>,
}

/// The progress of a work, which is told or not.
#[derive(Drop)]
pub struct Progress<C, W> {
    shown: Option<Shown<C, W>>,
}

impl<C, W> Model for Progress<C, W> {
    ghost use Rattle.std.specs.Prelude.{Bool, is_some};

    // whether it is told
    ghost Value = { Bool };

    ghost view = { λ p. is_some p.shown };
}

impl<C: Clock, W: Sink> Progress<C, W> {
    /// Progress that is told nowhere.
    pub fn hidden() -> Progress<C, W>
        ensures { result ≡ false }
    {
        Progress { shown: None }
    }

    /// Progress of a work that begins now by the clock.
    pub fn shown(clock: C, out: W) -> Progress<C, W>
        ensures { result ≡ true }
    {
        let begun = clock.monotonic().unwrap_or(Duration::ZERO);
        let board = Board {
            out,
            size: Some(0),
            bytes: 0,
            lines: 0,
            begun,
            next: behind_pause(begun),
            is_shown: false,
        };
        let shown = Shown {
            clock,
            board: RefCell::new(board),
        };
        Progress { shown: Some(shown) }
    }

    /// The files of these names are to be read, and the standard input.
    pub fn expect<R: Files>(&self, rt: &R, names: &[String]) {
        let Some(shown) = &self.shown else {
            return;
        };
        if let Ok(mut board) = shown.board.try_borrow_mut() {
            let board = &mut *board;
            for name in names {
                board.size = both(board.size, size_of(rt, name.as_str()));
            }
        }
    }

    // Takes in what a read gave.
    fn take(&self, bytes: &[u8]) {
        let Some(shown) = &self.shown else {
            return;
        };
        if let Ok(now) = shown.clock.monotonic() {
            if let Ok(mut board) = shown.board.try_borrow_mut() {
                board.take(bytes, now);
            }
        }
    }

    /// What was told is taken off the terminal: the work is done, or something else is to be written there.
    pub fn end(&self) {
        let Some(shown) = &self.shown else {
            return;
        };
        if let Ok(mut board) = shown.board.try_borrow_mut() {
            board.clear();
        }
    }
}

// The bytes of a file, where they are known before it is read.
fn size_of<R: Files>(rt: &R, name: &str) -> Option<u64> {
    if name == STANDARD {
        return None;
    }
    match fs::metadata(rt, name) {
        Ok(metadata) if metadata.is_file() => Some(metadata.len()),
        _ => None,
    }
}

/// A file of a work: its progress is told as the file is read.
#[derive(Drop)]
pub struct ToldFile<'p, F: Read, C, W> {
    file: F,
    progress: &'p Progress<C, W>,
}

impl<'p, F: Read, C, W> Model for ToldFile<'p, F, C, W> {
    // the bytes of the file that were not read yet, where they are known
    ghost Value = { Option (List ℕ) };

    ghost view = { λ s. F.remaining s.file };
}

impl<'p, F: Read, C, W> ToldFile<'p, F, C, W> {
    /// A file of which nothing was read yet for this work.
    pub fn new(file: F, progress: &'p Progress<C, W>) -> ToldFile<'p, F, C, W>
        ensures { result ≡ F.remaining file }
    {
        ToldFile { file, progress }
    }
}

impl<F: Read, C: Clock, W: Sink> Read for ToldFile<'_, F, C, W> {
    ghost remaining = { λ s. s };

    fn read(&mut self, buf: &mut [u8]) -> io::Result<usize> {
        match self.file.read(buf) {
            Err(error) => Err(error),
            Ok(n) => {
                if let Some(bytes) = buf.get(..n) {
                    self.progress.take(bytes);
                }
                Ok(n)
            }
        }
    }
}

/// A writer of what is told beside a work: its progress is taken off the terminal before anything is written there.
#[derive(Drop)]
pub struct BesideProgress<'p, O: Write, C, W> {
    writer: O,
    progress: &'p Progress<C, W>,
}

impl<'p, O: Write, C, W> Model for BesideProgress<'p, O, C, W> {
    // the bytes of the writer, where they are known
    ghost Value = { Option (List ℕ) };

    ghost view = { λ s. O.contents s.writer };
}

impl<'p, O: Write, C, W> BesideProgress<'p, O, C, W> {
    pub fn new(writer: O, progress: &'p Progress<C, W>) -> BesideProgress<'p, O, C, W>
        ensures { result ≡ O.contents writer }
    {
        BesideProgress { writer, progress }
    }
}

impl<O: Write, C: Clock, W: Sink> Write for BesideProgress<'_, O, C, W> {
    ghost contents = { λ s. s };

    fn write(&mut self, buf: &[u8]) -> io::Result<usize> {
        self.progress.end();
        self.writer.write(buf)
    }

    fn flush(&mut self) -> io::Result<()> {
        self.writer.flush()
    }
}
