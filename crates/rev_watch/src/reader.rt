//! The lines of a log, one after another.
ghost use Rattle.std.specs.Prelude.{◌≡◌, ◌≢◌, ◌≤◌, ◌<◌, ◌+◌, ◌-◌, ◌++◌, ◌^◌, [], ◌∷◌, ℕ, List, length, take, slice_range, true, false, min, IfOk, IfErr, IfSome, IfNone, MatchResult, Some, None};
ghost use Rattle.std.specs.Io.KnownBytes.{Keeps, IsAtEnd};
ghost use Rattle.rev_script.specs.Script.{has_lf};

use crate::event::Line;
use crate::fault::{LineFault, LogFault};
use crate::parse::parse;
use memchr::memchr;
use rev_script::source::Source;
use std::alloc::Allocator;

/// The most bytes of a line, without its LF (this project's own bound; the server's own lines are below 1024).
pub const MOST_LINE: usize = 4096;

// How many bytes are read at once, at most.
const PIECE: usize = 65536;

/// The next line of a log.
#[derive(Drop)]
pub enum NextLine<A: Allocator> {
    Whole(Line<A>),
    /// The log ends without an LF: its last line was cut off, and is not looked at.
    CutOff,
}

/// A source, with the piece of it that was read and is not yet used up.
#[derive(Drop)]
pub struct LogReader<S> {
    source: S,
    piece: [u8; 65536],
    from: usize,
    to: usize,
    lines: u64,
    ghost ordered: { from ≤ to },
    ghost within: { to ≤ 65536 },
    ghost whole: { length piece ≡ 65536 },
}

impl<S: Source> LogReader<S> {
    ghost use Rattle.rev_script.specs.declared.source.LastRead.{LastRead};
    ghost use Rattle.rev_watch.specs.Reader.{ahead, in_piece, line_count, next_number, source_in, identity, Took, Grew, Kept, IsNext, IsFault, IsStopped, IsEnd, log_fault};
    ghost use Rattle.rev_watch.specs.declared.fault.LogFault.{LogFault};

    /// A log of which no line was read. No memory is taken.
    pub fn over(source: S) -> LogReader<S>
        ensures ahead { ahead S.told result ≡ (S.told source).remaining }
        ensures lines { line_count result ≡ 0 }
        ensures same { identity S.told result ≡ (S.told source).identity }
    {
        LogReader {
            source,
            piece: [0; PIECE],
            from: 0,
            to: 0,
            lines: 0,
        }
    }

    // Moves the bytes at hand to the front of the piece.
    fn make_room(&mut self)
        ensures grew { Grew S.told self.old self.new [] }
        ensures front { self.new.from ≡ 0 }
    {
        let size = self.to - self.from;
        self.piece.copy_within(self.from..self.to, 0);
        self.from = 0;
        self.to = size;
    }

    // Reads bytes behind those that are at hand. At `false` there are no more.
    fn more(&mut self) -> Result<bool, LogFault>
        requires { length (in_piece self.old) ≤ MOST_LINE }
        ensures ok { IfOk result (λ some. (more : List ℕ) × Grew S.told self.old self.new more
            × (some ≡ true → 0 < length more)
            × (some ≡ false → (more ≡ []) × IsAtEnd (S.told self.new.source).remaining)) }
        ensures err { IfErr result (λ e. (e ≡ LogFault.Read) × Kept S.told self.old self.new
            × ((S.told self.new.source).last ≡ LastRead.Failed)) }
    {
        self.make_room();
        match self.source.read(&mut self.piece[self.to..]) {
            Ok(n) => {
                self.to += n;
                Ok(n > 0)
            }
            Err(_) => Err(LogFault::Read),
        }
    }

    // The bytes at hand.
    fn at_hand(&self) -> &[u8]
        ensures { result.now ≡ in_piece self.now }
    {
        &self.piece[self.from..self.to]
    }

    // Where the next line ends, among the bytes at hand; none where the log ends before.
    fn line_end(&mut self) -> Result<Option<usize>, LogFault>
        ensures kept { Kept S.told self.old self.new }
        ensures ok { IfOk result (λ end. IsEnd S.told self.new end) }
        ensures err { IfErr result (λ e. IsStopped S.told self.new e) }
    {
        'pieces: loop {
            let front = self.at_hand();
            if let Some(end) = memchr(b'\n', front) {
                if end > MOST_LINE {
                    return Err(self.bad_line(LineFault::TooLong));
                }
                return Ok(Some(end));
            }
            if front.len() > MOST_LINE {
                return Err(self.bad_line(LineFault::TooLong));
            }
            match self.more() {
                Ok(true) => {}
                Ok(false) => return Ok(None),
                Err(fault) => return Err(fault),
            }
        }
    }

    // The fault of the next line.
    fn bad_line(&self, fault: LineFault) -> LogFault
        ensures { result ≡ LogFault.Line (next_number self.now) fault }
    {
        LogFault::Line {
            line: self.next_number(),
            fault,
        }
    }

    // What a fault of the next line's bytes is to the log.
    fn log_fault(&self, fault: LineFault) -> LogFault
        ensures { result ≡ log_fault (next_number self.now) fault }
    {
        match fault {
            LineFault::Memory => LogFault::Memory,
            _ => self.bad_line(fault),
        }
    }

    fn next_number(&self) -> u64
        ensures { result ≡ next_number self.now }
    {
        self.lines.saturating_add(1)
    }

    // Hands out a line of so many bytes.
    fn pass(&mut self, n: usize)
        requires { n ≤ length (in_piece self.old) }
        ensures took { Took S.told self.old self.new (take n (in_piece self.old)) (next_number self.old) }
        ensures source { source_in self.new ≡ source_in self.old }
        ensures piece { self.new.from ≡ self.old.from + n }
    {
        self.from += n;
        self.lines = self.next_number();
    }

    /// The next line; none only at the end.
    ///
    /// Err: a read failed, memory was refused, or the next line begins like one of the log and is none. No line was
    /// taken then.
    pub fn next<A: Allocator>(&mut self, alloc: A) -> Result<Option<NextLine<A>>, LogFault>
        ensures ok { IfOk result (λ next. IsNext S.told self.old self.new next) }
        ensures err { IfErr result (λ e. Kept S.told self.old self.new × IsFault A S.told self.new e) }
    {
        let end = match self.line_end() {
            Ok(Some(end)) => end,
            Ok(None) => return Ok(self.last_line()),
            Err(fault) => return Err(fault),
        };
        let text = &self.piece[self.from..self.from + end];
        match parse(alloc, text) {
            Ok(line) => {
                self.pass(end + 1);
                Ok(Some(NextLine::Whole(line)))
            }
            Err(fault) => Err(self.log_fault(fault)),
        }
    }

    // What is at hand before the end, if anything.
    fn last_line<A: Allocator>(&mut self) -> Option<NextLine<A>>
        requires { IsEnd S.told self.old None }
        ensures { IsNext S.told self.old self.new result }
    {
        if self.from == self.to {
            return None;
        }
        self.pass(self.to - self.from);
        Some(NextLine::CutOff)
    }

    /// How many lines were read: the number of the last one.
    pub fn lines(&self) -> u64
        ensures { result ≡ line_count self.now }
    {
        self.lines
    }

    /// The source, as it is now.
    pub fn into_source(self) -> S
        ensures { result ≡ source_in self }
    {
        let LogReader { source, .. } = self;
        source
    }
}
