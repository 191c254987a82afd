//! Why what a server told cannot be read, or cannot be so.

use thiserror::Error;

/// Why a line cannot be read.
#[derive(Clone, Copy, Debug, Drop, Error)]
pub enum LineFault {
    #[error("no field `{0}`")]
    Missing(&'static str),
    #[error("field `{0}` has a value that it cannot have")]
    BadValue(&'static str),
    #[error("the key, decoded, is no key")]
    BadKey,
}

/// Why there is no snapshot.
#[derive(Clone, Copy, Debug, Drop, Error)]
pub enum SnapshotFault {
    #[error("out of memory")]
    Memory,
    /// Lines are numbered from 1.
    #[error("line {line}: {fault}")]
    Line { line: u64, fault: LineFault },
}
