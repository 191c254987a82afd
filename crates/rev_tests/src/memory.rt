//! Each request for memory is refused in turn, and what the call worked on is compared before and after.

mod fixed;
mod growth;
mod heap;
mod imports;
mod narrow;
mod parts;
mod pictures;
mod sessions;
mod steps;
mod stores;
