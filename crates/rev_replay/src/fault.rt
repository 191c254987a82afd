//! Why nothing more is played of logs.
use rev_lead::LeadFault;
use rev_output::WriteFailed;
use rev_watch::fault::{LineFault, LogFault};
use std::alloc::AllocError;
use thiserror::Error;

/// Why nothing more is played of logs.
#[derive(Clone, Copy, Debug, PartialEq, Eq, Drop, Error)]
pub enum ReplayFault {
    #[error("out of memory")]
    Memory,
    /// A read failed.
    #[error("cannot read")]
    Read,
    /// A line that begins like one of the log is none. Lines are numbered from 1.
    #[error("line {line}: {fault}")]
    Line { line: u64, fault: LineFault },
    /// A log has 18446744073709551615 lines or more.
    #[error("input too long")]
    TooLong,
    /// A write failed.
    #[error("cannot write")]
    Write,
    /// No log has an event.
    #[error("no event")]
    NoEvent,
    /// The life of the server that is asked for is not there: it had so many.
    #[error("the server had {lives} lives")]
    NoLife { lives: u64 },
    /// One event takes more steps than a session has room for.
    #[error("too many steps for an event")]
    TooManySteps,
    /// A log shows an item in several chunks, which the rules do not cover: one above so many bytes.
    #[error("items above {most} bytes lie in several chunks")]
    Chunked { most: u32 },
    /// A log shows another class for an item with so many bytes of data than the server's settings give.
    #[error("an item of {size} bytes is in class {class}")]
    OtherClass { size: u32, class: u32 },
}

impl From<AllocError> for ReplayFault {
    ghost use Rattle.std.specs.Prelude.{◌≡◌};
    ghost use Rattle.rev_replay.specs.declared.fault.ReplayFault.{ReplayFault};

    ghost from_gives = { λ refused fault. fault ≡ ReplayFault.Memory };

    fn from(_refused: AllocError) -> ReplayFault {
        ReplayFault::Memory
    }
}

impl From<WriteFailed> for ReplayFault {
    ghost use Rattle.std.specs.Prelude.{◌≡◌};
    ghost use Rattle.rev_replay.specs.declared.fault.ReplayFault.{ReplayFault};

    ghost from_gives = { λ failed fault. fault ≡ ReplayFault.Write };

    fn from(_failed: WriteFailed) -> ReplayFault {
        ReplayFault::Write
    }
}

impl From<LogFault> for ReplayFault {
    ghost use Rattle.std.specs.Prelude.{◌≡◌};
    ghost use Rattle.rev_replay.specs.Faults.{fault_of_log};

    ghost from_gives = { λ log fault. fault ≡ fault_of_log log };

    fn from(fault: LogFault) -> ReplayFault {
        match fault {
            LogFault::Memory => ReplayFault::Memory,
            LogFault::Read => ReplayFault::Read,
            LogFault::Line { line, fault } => ReplayFault::Line { line, fault },
        }
    }
}

impl From<LeadFault> for ReplayFault {
    ghost use Rattle.std.specs.Prelude.{◌≡◌};
    ghost use Rattle.rev_replay.specs.Faults.{fault_of_lead};

    ghost from_gives = { λ lead fault. fault ≡ fault_of_lead lead };

    fn from(fault: LeadFault) -> ReplayFault {
        match fault {
            LeadFault::Memory => ReplayFault::Memory,
            LeadFault::TooManyNodes => ReplayFault::TooManySteps,
            LeadFault::TooDeep => ReplayFault::TooManySteps,
        }
    }
}
