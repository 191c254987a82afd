//! A line's bytes up to its LF.
ghost use Rattle.std.specs.Prelude.{◌≡◌, ◌≢◌, [], ◌∷◌, ◌++◌, ◌≤◌, ◌<◌, ◌+◌, ◌^◌, ℕ, List, length, take, OnOk, IfOk, IfErr, IfNone, IfSome, Ok, true, false, if◌then◌else◌};
ghost use Rattle.rev_script.specs.ByteReader.{Took, IsEnded};
ghost use Rattle.rev_script.specs.Script.{has_lf};
ghost use Rattle.rev_script.specs.RawLine.{IsText, IsPart, IsRest};

use crate::byte_reader::{ByteReader, LineFault};
use crate::source::Source;
use memchr::memchr;
use std::alloc::{AllocError, Allocator};

/// The most bytes of a line that are kept: those of the longest line, and a CR.
pub const MOST_KEPT: u64 = 65537;

/// How a line came: whether LF ended it, and how many bytes it has before that.
#[derive(Clone, Copy)]
pub struct RawLine {
    pub feed: bool,
    pub length: u64,
}

/// Where the first LF stands.
pub fn first_feed(front: &[u8]) -> Option<usize>
    ensures some { IfSome result (λ i. (i < length front.now) × (has_lf (take i front.now) ≡ false)
        × (take (i + 1) front.now ≡ take i front.now ++ 10 ∷ [])) }
    ensures none { IfNone result (has_lf front.now ≡ false) }
{
    memchr(b'\n', front)
}

/// At most so many bytes of the text.
pub fn at_most(text: &[u8], room: usize) -> &[u8]
    ensures { result.now ≡ take room text.now }
{
    if text.len() <= room {
        text
    } else {
        &text[..room]
    }
}

// Keeps of the bytes what a line may have.
fn keep_text<A: Allocator>(line: &mut Vec<u8, A>, text: &[u8]) -> Result<(), AllocError>
    requires { length line.old.items ≤ 65537 }
    ensures { OnOk result (line.new.items ≡ take 65537 (line.old.items ++ text.now)) }
{
    let room = MOST_KEPT as usize - line.len();
    match line.extend_from_slice(at_most(text, room)) {
        Err(e) => Err(e),
        Ok(()) => Ok(()),
    }
}

/// Reads the bytes of a line through its LF, and keeps the first of them.
pub fn read_text<S: Source, A: Allocator>(
    bytes: &mut ByteReader<S>,
    line: &mut Vec<u8, A>,
) -> Result<RawLine, LineFault>
    ensures ok { IfOk result (λ raw. IsText bytes.old bytes.new raw line.new.items) }
    ensures err { IfErr result (λ e. IsPart bytes.old bytes.new e) }
    ensures stays { IsEnded bytes.old →
        IfErr result (λ _. false ≡ true) × IfOk result (λ raw. (raw.feed ≡ false) × (raw.length ≡ 0)) }
{
    line.clear();
    let mut length: u64 = 0;
    'pieces: loop {
        let some = match bytes.more() {
            Err(e) => return Err(e),
            Ok(some) => some,
        };
        if !some {
            return Ok(RawLine {
                feed: false,
                length,
            });
        }
        let front = bytes.front();
        match first_feed(front) {
            Some(i) => {
                match keep_text(line, &front[..i]) {
                    Err(_) => return Err(LineFault::Memory),
                    Ok(()) => {}
                }
                bytes.pass(i + 1);
                return Ok(RawLine {
                    feed: true,
                    length: length + i as u64,
                });
            }
            None => {
                let n = front.len();
                match keep_text(line, front) {
                    Err(_) => return Err(LineFault::Memory),
                    Ok(()) => {}
                }
                bytes.pass(n);
                length += n as u64;
            }
        }
    }
}

/// Reads the rest of a line through its LF, and keeps nothing of it. False where the end came first.
pub fn pass_line<S: Source>(bytes: &mut ByteReader<S>) -> Result<bool, LineFault>
    ensures ok { IfOk result (λ feed. IsRest bytes.old bytes.new feed) }
    ensures err { IfErr result (λ e. IsPart bytes.old bytes.new e) }
    ensures stays { IsEnded bytes.old → (result ≡ Ok false) × Took bytes.old bytes.new [] }
{
    'pieces: loop {
        let some = match bytes.more() {
            Err(e) => return Err(e),
            Ok(some) => some,
        };
        if !some {
            return Ok(false);
        }
        let front = bytes.front();
        match first_feed(front) {
            Some(i) => {
                bytes.pass(i + 1);
                return Ok(true);
            }
            None => {
                let n = front.len();
                bytes.pass(n);
            }
        }
    }
}
