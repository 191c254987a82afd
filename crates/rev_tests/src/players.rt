//! A test of `lrudb record` that only files in memory can make.

mod recordings;
mod streams;
