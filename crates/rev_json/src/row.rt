//! The rows of an answer.
ghost use Rattle.std.specs.Prelude.{◌≤◌, ◌<◌, length, IfSome};

use crate::command::Unnamed;
use crate::culprit::Scene;
use crate::fields::{put_bytes, put_left, put_part};
use crate::forms::{Form, Part, form_of};
use crate::words::{Words, is_word};
use memchr::memchr;
use rev_script::number::number;
use serde::{Described, Serialize, Serializer};

/// A row of an answer: a line, without its end, and the data behind it where it is a value's.
#[derive(Clone, Copy)]
struct Row<'a> {
    line: &'a [u8],
    data: Option<&'a [u8]>,
}

fn without_cr(line: &[u8]) -> &[u8] {
    line.strip_suffix(b"\r").unwrap_or(line)
}

// The first line, without its end, and what stands behind it.
fn first_line(text: &[u8]) -> (&[u8], &[u8])
    ensures { 0 < length text.now → length result.1.now < length text.now }
{
    match memchr(b'\n', text) {
        Some(end) => (without_cr(&text[..end]), &text[end + 1..]),
        None => (text, b""),
    }
}

// How many bytes of data stand behind the line of a value, of as many as there are.
fn data_size(line: &[u8], most: usize) -> Option<usize>
    ensures { IfSome result (λ size. size ≤ most) }
{
    let mut words = Words::of(line);
    if !is_word(words.next()?, b"VALUE") {
        return None;
    }
    let (_key, _flags) = (words.next()?, words.next()?);
    let size = number(words.next()?, most as u64)?;
    Some(size as usize)
}

// The text without the end of a line in front of it.
fn behind_end(text: &[u8]) -> &[u8]
    ensures { length result.now ≤ length text.now }
{
    match text.strip_prefix(b"\r\n") {
        Some(rest) => rest,
        None => text,
    }
}

// The first row of an answer, and what stands behind it; none where nothing is left.
fn first_row(text: &[u8]) -> Option<(Row<'_>, &[u8])>
    ensures { IfSome result (λ first. length first.1.now < length text.now) }
{
    if text.is_empty() {
        return None;
    }
    let (line, behind) = first_line(text);
    match data_size(line, behind.len()) {
        None => Some((Row { line, data: None }, behind)),
        Some(size) => {
            let (data, rest) = behind.split_at(size);
            let row = Row {
                line,
                data: Some(data),
            };
            Some((row, behind_end(rest)))
        }
    }
}

// Puts the fields that a form names.
fn put_fields<S: Serializer>(
    out: &mut S,
    scene: &Scene<'_>,
    form: &Form,
    words: &mut Words<'_>,
) -> Result<(), S::Error> {
    let first = words.first();
    out.str(form.kind)?;
    for part in form.parts {
        match part {
            Part::Left => put_left(out, scene, first, words)?,
            _ => put_part(out, *part, words)?,
        }
    }
    Ok(())
}

// Puts the object of a row.
fn put_row<S: Serializer>(
    out: &mut S,
    scene: &Scene<'_>,
    row: &Row<'_>,
    unnamed: Unnamed,
) -> Result<(), S::Error> {
    out.begin_map(None)?;
    out.key("kind")?;
    match form_of(row.line, unnamed) {
        None => put_bytes(out, row.line)?,
        Some((form, mut words)) => put_fields(out, scene, form, &mut words)?,
    }
    if let Some(data) = row.data {
        out.key("data")?;
        put_bytes(out, data)?;
    }
    out.end_map()
}

// Puts the objects of all rows, but for an `END`.
fn put_rows<S: Serializer>(
    out: &mut S,
    scene: &Scene<'_>,
    text: &[u8],
    unnamed: Unnamed,
) -> Result<(), S::Error> {
    let mut rest = text;
    'rows: while let Some((row, behind)) = first_row(rest) {
        if !is_word(row.line, b"END") {
            put_row(out, scene, &row, unnamed)?;
        }
        rest = behind;
    }
    Ok(())
}

/// The rows of an answer, without the `END` of a list, and what they are about.
#[derive(Clone, Copy)]
pub struct Rows<'a> {
    pub scene: &'a Scene<'a>,
    pub text: &'a [u8],
    pub unnamed: Unnamed,
}

impl Described for Rows<'_> {}

impl Serialize for Rows<'_> {
    fn serialize<S: Serializer>(&self, out: &mut S) -> Result<(), S::Error> {
        out.begin_seq(None)?;
        put_rows(out, self.scene, self.text, self.unnamed)?;
        out.end_seq()
    }
}
