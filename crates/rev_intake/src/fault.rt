//! Why logs do not become a script.
ghost use Rattle.std.specs.Prelude.{◌≡◌};
ghost use Rattle.rev_intake.specs.Rows.{fault_of_trace};

use rev_output::WriteFailed;
use rev_trace::fault::{RowFault, TraceFault};
use rev_watch::fault::{LineFault, LogFault};
use std::alloc::AllocError;
use thiserror::Error;

/// Why logs do not become a script.
#[derive(Clone, Copy, Debug, PartialEq, Eq, Drop, Error)]
pub enum IntakeFault {
    #[error("out of memory")]
    Memory,
    /// A read failed.
    #[error("cannot read")]
    Read,
    /// A line that begins like one of the log is none. Lines are numbered from 1.
    #[error("line {line}: {fault}")]
    Line { line: u64, fault: LineFault },
    /// A log has 18446744073709551615 lines or more.
    #[error("input too long")]
    TooLong,
    /// A write failed.
    #[error("cannot write")]
    Write,
    /// No event was asked for.
    #[error("no event")]
    NoEvent,
}

impl From<AllocError> for IntakeFault {
    ghost use Rattle.std.specs.Prelude.{◌≡◌};
    ghost use Rattle.rev_intake.specs.declared.fault.IntakeFault.{IntakeFault};

    ghost from_gives = { λ refused fault. fault ≡ IntakeFault.Memory };

    fn from(_refused: AllocError) -> IntakeFault {
        IntakeFault::Memory
    }
}

impl From<WriteFailed> for IntakeFault {
    ghost use Rattle.std.specs.Prelude.{◌≡◌};
    ghost use Rattle.rev_intake.specs.declared.fault.IntakeFault.{IntakeFault};

    ghost from_gives = { λ failed fault. fault ≡ IntakeFault.Write };

    fn from(_failed: WriteFailed) -> IntakeFault {
        IntakeFault::Write
    }
}

impl From<LogFault> for IntakeFault {
    ghost use Rattle.std.specs.Prelude.{◌≡◌};
    ghost use Rattle.rev_intake.specs.Intake.{fault_of_log};

    ghost from_gives = { λ log fault. fault ≡ fault_of_log log };

    fn from(fault: LogFault) -> IntakeFault {
        match fault {
            LogFault::Memory => IntakeFault::Memory,
            LogFault::Read => IntakeFault::Read,
            LogFault::Line { line, fault } => IntakeFault::Line { line, fault },
        }
    }
}

/// Why traces do not become a script.
#[derive(Clone, Copy, Debug, PartialEq, Eq, Drop, Error)]
pub enum RowsFault {
    #[error("out of memory")]
    Memory,
    /// A read failed.
    #[error("cannot read")]
    Read,
    /// A row is none. Rows are numbered from 1.
    #[error("line {line}: {fault}")]
    Row { line: u64, fault: RowFault },
    /// A trace has more than 18446744073709551615 rows.
    #[error("input too long")]
    TooLong,
    /// A write failed.
    #[error("cannot write")]
    Write,
    /// No row was asked for.
    #[error("no row")]
    NoRow,
}

impl From<AllocError> for RowsFault {
    ghost use Rattle.std.specs.Prelude.{◌≡◌};
    ghost use Rattle.rev_intake.specs.declared.fault.RowsFault.{RowsFault};

    ghost from_gives = { λ refused fault. fault ≡ RowsFault.Memory };

    fn from(_refused: AllocError) -> RowsFault {
        RowsFault::Memory
    }
}

impl From<WriteFailed> for RowsFault {
    ghost use Rattle.std.specs.Prelude.{◌≡◌};
    ghost use Rattle.rev_intake.specs.declared.fault.RowsFault.{RowsFault};

    ghost from_gives = { λ failed fault. fault ≡ RowsFault.Write };

    fn from(_failed: WriteFailed) -> RowsFault {
        RowsFault::Write
    }
}

impl RowsFault {
    /// What a fault of a trace is to traces.
    pub fn of(fault: TraceFault) -> RowsFault
        ensures { result ≡ fault_of_trace fault }
    {
        match fault {
            TraceFault::Memory => RowsFault::Memory,
            TraceFault::Read => RowsFault::Read,
            TraceFault::Row { line, fault } => RowsFault::Row { line, fault },
            TraceFault::TooLong => RowsFault::TooLong,
        }
    }
}
