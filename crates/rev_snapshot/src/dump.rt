//! What `lru_crawler metadump all` tells: a line for each item.

use crate::fault::{LineFault, SnapshotFault};
use arrayvec::ArrayVec;
use percent_encoding::percent_decode;
use rev_items::{Key, KeyFault, MAX_KEY_LENGTH, MAX_RELATIVE_TTL};
use rev_script::number::{number, number_u32};
use std::alloc::Allocator;

/// Classes are numbered below it.
pub const CLASSES: usize = 64;

/// The bytes of an item beside its key and data: header, cas number, a byte behind the key and two behind the data.
const BESIDE: u32 = 59;

/// An item that a server holds.
#[derive(Drop)]
pub struct Item<A: Allocator> {
    pub key: Key<A>,
    /// The expiry time of a line that stores it: a moment; 0 never, and -1 where the moment is past long ago.
    pub exptime: i32,
    /// The second of its last access.
    pub time: u32,
    pub fetched: bool,
    /// The class that the server names.
    pub class: u32,
    /// Bytes of its data.
    pub size: u32,
}

// The value of a field, which stands behind its name and `=`.
fn value_of<'a>(line: &'a [u8], name: &'static str) -> Result<&'a [u8], LineFault> {
    for word in line.split(|byte| *byte == b' ') {
        if let Some(rest) = word.strip_prefix(name.as_bytes()) {
            if let Some(value) = rest.strip_prefix(b"=") {
                return Ok(value);
            }
        }
    }
    Err(LineFault::Missing(name))
}

fn number_of(line: &[u8], name: &'static str) -> Result<u32, LineFault> {
    number_u32(value_of(line, name)?).ok_or(LineFault::BadValue(name))
}

// The expiry time for a moment by the Unix clock, or -1, which is never.
fn exptime_of(line: &[u8]) -> Result<i32, LineFault> {
    let value = value_of(line, "exp")?;
    if value == b"-1".as_slice() {
        return Ok(0);
    }
    let moment = number(value, u64::MAX).ok_or(LineFault::BadValue("exp"))?;
    if moment <= u64::from(MAX_RELATIVE_TTL) {
        return Ok(-1);
    }
    Ok(i32::try_from(moment).unwrap_or(0))
}

fn fetched_of(line: &[u8]) -> Result<bool, LineFault> {
    let value = value_of(line, "fetch")?;
    if value == b"yes".as_slice() {
        Ok(true)
    } else if value == b"no".as_slice() {
        Ok(false)
    } else {
        Err(LineFault::BadValue("fetch"))
    }
}

fn class_of(line: &[u8]) -> Result<u32, LineFault> {
    let class = number_of(line, "cls")?;
    if class == 0 || class >= 64 {
        return Err(LineFault::BadValue("cls"));
    }
    Ok(class)
}

// The bytes that a key's text stands for; none where they are too many.
fn decoded(text: &[u8]) -> Option<ArrayVec<u8, MAX_KEY_LENGTH>> {
    let mut bytes: ArrayVec<u8, MAX_KEY_LENGTH> = ArrayVec::new();
    for byte in percent_decode(text) {
        if bytes.is_full() {
            return None;
        }
        bytes.push(byte);
    }
    Some(bytes)
}

fn key_of<A: Allocator>(alloc: A, line: &[u8]) -> Result<Key<A>, Option<LineFault>> {
    let text = match value_of(line, "key") {
        Ok(text) => text,
        Err(fault) => return Err(Some(fault)),
    };
    let Some(bytes) = decoded(text) else {
        return Err(Some(LineFault::BadKey));
    };
    match Key::new(alloc, bytes.as_slice()) {
        Ok(key) => Ok(key),
        Err(KeyFault::BadKey) => Err(Some(LineFault::BadKey)),
        Err(KeyFault::Memory) => Err(None),
    }
}

// The bytes of data in an item of so many bytes with this key.
fn size_of<A: Allocator>(line: &[u8], key: &Key<A>) -> Result<u32, LineFault> {
    let all = number_of(line, "size")?;
    let beside = BESIDE + key.bytes().len() as u32;
    all.checked_sub(beside).ok_or(LineFault::BadValue("size"))
}

// What a line tells of its item, whose key is known.
fn item_of<A: Allocator>(key: Key<A>, line: &[u8]) -> Result<Item<A>, LineFault> {
    let size = size_of(line, &key)?;
    Ok(Item {
        key,
        exptime: exptime_of(line)?,
        time: number_of(line, "la")?,
        fetched: fetched_of(line)?,
        class: class_of(line)?,
        size,
    })
}

// The item of a line; no fault where memory is wanting.
fn read_item<A: Allocator>(alloc: A, line: &[u8]) -> Result<Item<A>, Option<LineFault>> {
    let key = key_of(alloc, line)?;
    match item_of(key, line) {
        Ok(item) => Ok(item),
        Err(fault) => Err(Some(fault)),
    }
}

// The text without one CR at its end.
fn without_cr(text: &[u8]) -> &[u8] {
    text.strip_suffix(b"\r").unwrap_or(text)
}

/// The items of a dump, in the order of their lines. A line of an item begins with `key=`; others are passed by.
///
/// Err: the first line that begins so and tells of no item, or memory.
pub fn read_items<A: Allocator + Copy>(
    alloc: A,
    text: &[u8],
) -> Result<Vec<Item<A>, A>, SnapshotFault> {
    let mut items = Vec::new(alloc);
    let mut line: u64 = 0;
    for row in text.split(|byte| *byte == b'\n') {
        line = line.saturating_add(1);
        if row.starts_with(b"key=") {
            match read_item(alloc, without_cr(row)) {
                Ok(item) => {
                    if items.push(item).is_err() {
                        return Err(SnapshotFault::Memory);
                    }
                }
                Err(Some(fault)) => return Err(SnapshotFault::Line { line, fault }),
                Err(None) => return Err(SnapshotFault::Memory),
            }
        }
    }
    Ok(items)
}
