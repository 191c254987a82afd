//! What a reader of lines reads.

use crate::byte_reader::ByteReader;
use crate::dialect::Dialect;
use crate::source::Source;
use rev_items::Filler;
use std::alloc::Allocator;

/// Bytes in a dialect.
#[derive(Drop)]
pub struct Input<S: Source, A: Allocator> {
    pub bytes: ByteReader<S>,
    pub dialect: Dialect,
    /// Whether the rest of a line is to be passed over before the next one: its data block was a bad one.
    pub passes: bool,
    /// Makes the data of storage lines.
    pub filler: Filler<A>,
}
