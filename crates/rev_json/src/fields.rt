//! The fields of an object, made of the parts of a row.

use crate::culprit::{Scene, put_culprit};
use crate::forms::Part;
use crate::words::{Words, cut, is_word};
use rev_script::number::number;
use rev_undotree::NodeId;
use serde::Serializer;
use std::fmt;

/// Bytes that are told as their hexadecimal digits.
#[derive(Clone, Copy)]
struct Hex<'a>(&'a [u8]);

impl fmt::Display for Hex<'_> {
    fn fmt<W: fmt::Write>(&self, f: &mut fmt::Formatter<W>) -> fmt::Result {
        for byte in self.0 {
            write!(f, "{byte:02x}")?;
        }
        Ok(())
    }
}

fn put_hex<S: Serializer>(out: &mut S, bytes: &[u8]) -> Result<(), S::Error> {
    out.begin_map(None)?;
    out.key("hex")?;
    out.collect_str(&Hex(bytes))?;
    out.end_map()
}

/// Puts bytes: a string where they are UTF-8, else an object with their hexadecimal digits.
pub fn put_bytes<S: Serializer>(out: &mut S, bytes: &[u8]) -> Result<(), S::Error> {
    match std::str::from_utf8(bytes) {
        Ok(text) => out.str(text),
        Err(_) => put_hex(out, bytes),
    }
}

// Puts a number, or null where the word is none.
fn put_number<S: Serializer>(out: &mut S, name: &str, word: &[u8]) -> Result<(), S::Error> {
    out.key(name)?;
    match number(word, u64::MAX) {
        Some(n) => out.u64(n),
        None => out.unit(),
    }
}

// Puts a word, or null where it is `-`.
fn put_word<S: Serializer>(out: &mut S, name: &str, word: &[u8]) -> Result<(), S::Error> {
    out.key(name)?;
    if is_word(word, b"-") {
        out.unit()
    } else {
        put_bytes(out, word)
    }
}

fn put_text<S: Serializer>(out: &mut S, name: &str, text: &[u8]) -> Result<(), S::Error> {
    out.key(name)?;
    put_bytes(out, text)
}

// Puts the two fields of a chunk.
fn put_chunk<S: Serializer>(out: &mut S, chunk: &[u8]) -> Result<(), S::Error> {
    let (page, slot) = cut(chunk, b':');
    put_number(out, "page", page)?;
    put_number(out, "slot", slot)
}

// Puts a queue's items and bytes; the word is the first of them.
fn put_figures<S: Serializer>(
    out: &mut S,
    name: &str,
    items: &[u8],
    bytes: &[u8],
) -> Result<(), S::Error> {
    out.key(name)?;
    out.begin_map(None)?;
    put_number(out, "items", items)?;
    put_number(out, "bytes", bytes)?;
    out.end_map()
}

// Puts a page move, or null where there is none.
fn put_move<S: Serializer>(out: &mut S, name: &str, word: &[u8]) -> Result<(), S::Error> {
    out.key(name)?;
    if is_word(word, b"-") {
        return out.unit();
    }
    let (source, rest) = cut(word, b',');
    let (target, rest) = cut(rest, b',');
    let (page, slot) = cut(rest, b',');
    out.begin_map(None)?;
    put_number(out, "source", source)?;
    put_number(out, "target", target)?;
    put_number(out, "page", page)?;
    put_number(out, "slot", slot)?;
    out.end_map()
}

fn put_chunks<S: Serializer>(out: &mut S, name: &str, rest: Option<&[u8]>) -> Result<(), S::Error> {
    out.key(name)?;
    out.begin_seq(None)?;
    if let Some(rest) = rest {
        for chunk in rest.split(|byte| *byte == b' ') {
            out.begin_map(None)?;
            put_chunk(out, chunk)?;
            out.end_map()?;
        }
    }
    out.end_seq()
}

// Puts an entry, a key behind `=` or the crawler's mark.
fn put_entry<S: Serializer>(out: &mut S, entry: &[u8]) -> Result<(), S::Error> {
    match entry.strip_prefix(b"=") {
        Some(key) => put_bytes(out, key),
        None => out.unit(),
    }
}

fn put_entries<S: Serializer>(
    out: &mut S,
    name: &str,
    rest: Option<&[u8]>,
) -> Result<(), S::Error> {
    out.key(name)?;
    out.begin_seq(None)?;
    if let Some(rest) = rest {
        for entry in rest.split(|byte| *byte == b' ') {
            put_entry(out, entry)?;
        }
    }
    out.end_seq()
}

// Puts what becomes of a word.
fn put_word_part<S: Serializer>(
    out: &mut S,
    part: Part,
    word: &[u8],
    words: &mut Words<'_>,
) -> Result<(), S::Error> {
    match part {
        Part::Number(name) => put_number(out, name, word),
        Part::Word(name) => put_word(out, name, word),
        Part::Bits(name) | Part::Key(name) => put_text(out, name, word),
        Part::Chunk => put_chunk(out, word),
        Part::Figures(name) => put_figures(out, name, word, words.next().unwrap_or(b"")),
        Part::Move(name) => put_move(out, name, word),
        _ => Ok(()),
    }
}

// Puts behind which second a key left, and at which it was gone at the latest.
fn put_span<S: Serializer>(out: &mut S, words: &mut Words<'_>) -> Result<(), S::Error> {
    put_number(out, "after", words.next().unwrap_or(b""))?;
    put_number(out, "before", words.next().unwrap_or(b""))
}

// Puts when a key left, by what tells it.
fn put_when<S: Serializer>(
    out: &mut S,
    evidence: &[u8],
    words: &mut Words<'_>,
) -> Result<(), S::Error> {
    if is_word(evidence, b"inferred") {
        put_span(out, words)
    } else {
        put_number(out, "ts", words.next().unwrap_or(b""))
    }
}

// Puts what tells a key's leaving from a log, where that is told: the evidence, the second, or the span where it is
// inferred, and the culprit.
fn put_evidence<S: Serializer>(
    out: &mut S,
    scene: &Scene<'_>,
    node: &[u8],
    cause: &[u8],
    words: &mut Words<'_>,
) -> Result<(), S::Error> {
    let Some(evidence) = words.next() else {
        return Ok(());
    };
    put_word(out, "evidence", evidence)?;
    put_when(out, evidence, words)?;
    match number(node, u64::from(u32::MAX)) {
        Some(node) => put_culprit(out, scene, NodeId(node as u32), cause),
        None => Ok(()),
    }
}

/// Puts why a key left, at the node of this number.
pub fn put_left<S: Serializer>(
    out: &mut S,
    scene: &Scene<'_>,
    node: &[u8],
    words: &mut Words<'_>,
) -> Result<(), S::Error> {
    match words.next() {
        Some(cause) => {
            put_word(out, "cause", cause)?;
            put_evidence(out, scene, node, cause, words)
        }
        None => Ok(()),
    }
}

/// Puts what becomes of the next part of a row, whose words are taken.
pub fn put_part<S: Serializer>(
    out: &mut S,
    part: Part,
    words: &mut Words<'_>,
) -> Result<(), S::Error> {
    match part {
        Part::Chunks(name) => put_chunks(out, name, words.rest()),
        Part::Entries(name) => put_entries(out, name, words.rest()),
        Part::Rest(name) => match words.rest() {
            Some(text) => put_text(out, name, text),
            None => Ok(()),
        },
        _ => match words.next() {
            Some(word) => put_word_part(out, part, word, words),
            None => Ok(()),
        },
    }
}
