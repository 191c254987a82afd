//! Why a row of a trace is none, and why a trace is not read on.

use std::alloc::AllocError;
use thiserror::Error;

/// Why a row is none.
#[derive(Clone, Copy, Debug, PartialEq, Eq, Drop, Error)]
pub enum RowFault {
    #[error("out of memory")]
    Memory,
    #[error("other than 7 columns")]
    Columns,
    #[error("the timestamp is no number")]
    Timestamp,
    #[error("the key size is no number")]
    KeySize,
    #[error("the value size is no number")]
    ValueSize,
    #[error("the TTL is no number")]
    Ttl,
    #[error("the key is longer than its size")]
    LongKey,
    #[error("the key is no key")]
    BadKey,
}

impl From<AllocError> for RowFault {
    ghost use Rattle.std.specs.Prelude.{◌≡◌};
    ghost use Rattle.rev_trace.specs.declared.fault.RowFault.{RowFault};

    ghost from_gives = { λ refused fault. fault ≡ RowFault.Memory };

    fn from(_refused: AllocError) -> RowFault {
        RowFault::Memory
    }
}

/// Why a trace is not read on.
#[derive(Clone, Copy, Debug, PartialEq, Eq, Drop, Error)]
pub enum TraceFault {
    #[error("out of memory")]
    Memory,
    /// A read failed.
    #[error("cannot read")]
    Read,
    /// A row is none. Rows are numbered from 1.
    #[error("line {line}: {fault}")]
    Row { line: u64, fault: RowFault },
    /// The trace has more than 18446744073709551615 rows.
    #[error("input too long")]
    TooLong,
}
