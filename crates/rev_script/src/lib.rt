//! A script's lines, read from any source in pieces of any size, and what each asks for.
//!
//! [`lines::Lines`] gives one line after another, a storage line with its data block. What the lines
//! of some bytes are is a function of the whole list of bytes; however a source cuts it into pieces,
//! the same lines come. [`dialect::Dialect`] says what has to stand behind the data of a block.
//! [`source::Source`] is the reader that all of this reads from, and
//! [`source::FromRead`] makes one of any `std::io::Read`. An [`exchange::Exchange`] is one that is
//! written to as well, and sends what was written before it may wait. The grammar, in `grammar` and the modules
//! that it uses, looks at a line by itself, without the data block that may follow it.
#![tactic(auto)]

mod actor;
pub mod byte_reader;
mod client;
pub mod command;
mod data_block;
mod debug;
pub mod dialect;
pub mod duplex;
pub mod exchange;
mod grammar;
mod input;
mod keys;
pub mod line;
pub mod lines;
mod mask;
pub mod number;
mod raw_line;
pub mod source;
pub mod steps;
mod words;
