//! A row of a trace: a request of a client.
ghost use Rattle.std.specs.Prelude.{◌≡◌, ◌≢◌, ◌++◌, replicate, OnOk, MatchResult, Ok, Err};
ghost use Rattle.std.specs.Str.{bytes_eq};
ghost use Rattle.csv.specs.Records.{fields_of};
ghost use Rattle.rev_trace.specs.Row.{column, operation_of, rare_operation_of, key_of, numbers_in, all_numbers, row_of};
ghost use Rattle.rev_trace.specs.declared.fault.RowFault.{RowFault};

use crate::fault::RowFault;
use csv::ByteRecord;
use rev_items::{Key, KeyFault, MAX_KEY_LENGTH};
use rev_script::number::number_u32;
use std::alloc::{AllocError, Global};

/// How many columns a row has: timestamp, key, key size, value size, client, operation and time to live.
pub const COLUMNS: usize = 7;

/// The byte by which a key is made as long as it was. A published key may be shorter, since it stands for another one.
pub const PADDING: u8 = b'.';

/// What a client asked for.
#[derive(Clone, Copy, Debug, PartialEq, Eq)]
pub enum Operation {
    Get,
    Gets,
    Set,
    Add,
    Replace,
    Cas,
    Append,
    Prepend,
    Delete,
    Increment,
    Decrement,
    /// Another one, which this project does not know.
    Unknown,
}

/// A request. Which client it came from is not kept.
#[derive(Drop)]
pub struct Row {
    /// The second at which it came.
    pub time: u32,
    /// The key, as long as it was.
    pub key: Key<Global>,
    /// Bytes of the data.
    pub size: u32,
    pub operation: Operation,
    /// Seconds that an item is to live; 0 is for ever.
    pub ttl: u32,
}

// The numbers of a row.
#[derive(Clone, Copy)]
struct Numbers {
    time: u32,
    key_size: u32,
    size: u32,
    ttl: u32,
}

// A column of a row, empty where there is none.
fn column(fields: &ByteRecord, place: usize) -> &[u8]
    ensures { result.now ≡ column (fields_of fields.now) place }
{
    match fields.get(place) {
        Some(text) => text,
        None => b"",
    }
}

// Whether a word is this one.
fn is_word(word: &[u8], name: &[u8]) -> bool
    ensures { result ≡ bytes_eq word.now name.now }
{
    word == name
}

#[tactic(auto, unfolding(crate::specs::Row::rare_operation_of))]
fn rare_operation_of(word: &[u8]) -> Operation
    ensures { result ≡ rare_operation_of word.now }
{
    if is_word(word, b"gets") {
        Operation::Gets
    } else if is_word(word, b"replace") {
        Operation::Replace
    } else if is_word(word, b"cas") {
        Operation::Cas
    } else if is_word(word, b"append") {
        Operation::Append
    } else if is_word(word, b"prepend") {
        Operation::Prepend
    } else if is_word(word, b"decr") {
        Operation::Decrement
    } else {
        Operation::Unknown
    }
}

/// The operation of this name.
#[tactic(auto, unfolding(crate::specs::Row::operation_of))]
pub fn operation_of(word: &[u8]) -> Operation
    ensures { result ≡ operation_of word.now }
{
    if is_word(word, b"get") {
        Operation::Get
    } else if is_word(word, b"set") {
        Operation::Set
    } else if is_word(word, b"add") {
        Operation::Add
    } else if is_word(word, b"delete") {
        Operation::Delete
    } else if is_word(word, b"incr") {
        Operation::Increment
    } else {
        rare_operation_of(word)
    }
}

// Writes so many bytes of padding.
fn put_padding(out: &mut Vec<u8>, count: usize) -> Result<(), AllocError>
    ensures { OnOk result (out.new.items ≡ out.old.items ++ replicate count 46) }
{
    for _ in 0..count {
        out.push(PADDING)?;
    }
    Ok(())
}

/// The key of this text, made as long as it was.
#[tactic(auto, unfolding(crate::specs::Row::key_of))]
pub fn key_of(alloc: Global, text: &[u8], size: u32) -> Result<Key<Global>, RowFault>
    ensures { MatchResult result (λ key. key_of text.now size ≡ Ok key) (λ e. e ≢ RowFault.Memory → key_of text.now size ≡ Err e) }
{
    let size = size as usize;
    if size > MAX_KEY_LENGTH {
        return Err(RowFault::BadKey);
    }
    if text.len() > size {
        return Err(RowFault::LongKey);
    }
    let mut bytes = Vec::new(alloc);
    bytes.extend_from_slice(text)?;
    put_padding(&mut bytes, size - text.len())?;
    match Key::new(alloc, bytes.as_slice()) {
        Ok(key) => Ok(key),
        Err(KeyFault::BadKey) => Err(RowFault::BadKey),
        Err(KeyFault::Memory) => Err(RowFault::Memory),
    }
}

// The numbers of a row, where all are there.
fn all_numbers(
    time: Option<u32>,
    key_size: Option<u32>,
    size: Option<u32>,
    ttl: Option<u32>,
) -> Result<Numbers, RowFault>
    ensures { result ≡ all_numbers time key_size size ttl }
{
    Ok(Numbers {
        time: time.ok_or(RowFault::Timestamp)?,
        key_size: key_size.ok_or(RowFault::KeySize)?,
        size: size.ok_or(RowFault::ValueSize)?,
        ttl: ttl.ok_or(RowFault::Ttl)?,
    })
}

fn numbers_in(fields: &ByteRecord) -> Result<Numbers, RowFault>
    ensures { result ≡ numbers_in (fields_of fields.now) }
{
    all_numbers(
        number_u32(column(fields, 0)),
        number_u32(column(fields, 2)),
        number_u32(column(fields, 3)),
        number_u32(column(fields, 6)),
    )
}

/// The row of these columns.
#[tactic(auto, unfolding(crate::specs::Row::row_of))]
pub fn row_of(alloc: Global, fields: &ByteRecord) -> Result<Row, RowFault>
    ensures { MatchResult result (λ row. row_of (fields_of fields.now) ≡ Ok row) (λ e. e ≢ RowFault.Memory → row_of (fields_of fields.now) ≡ Err e) }
{
    if fields.len() != COLUMNS {
        return Err(RowFault::Columns);
    }
    let numbers = match numbers_in(fields) {
        Ok(numbers) => numbers,
        Err(fault) => return Err(fault),
    };
    match key_of(alloc, column(fields, 1), numbers.key_size) {
        Err(fault) => Err(fault),
        Ok(key) => Ok(Row {
            time: numbers.time,
            key,
            size: numbers.size,
            operation: operation_of(column(fields, 5)),
            ttl: numbers.ttl,
        }),
    }
}
