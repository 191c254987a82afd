//! Why a recording ends without rows, in the words and statuses that its user sees.
ghost use Rattle.std.specs.Prelude.{◌≡◌, ◌≢◌, OnOk, OnErr, IfErr, IsErr, MatchResult};
ghost use Rattle.std.specs.Io.KnownBytes.{Appends, Keeps};
ghost use Rattle.rev_output.specs.Sink.{one_more};
ghost use Rattle.rev_messages.specs.Telling.{Told};
ghost use Rattle.rev_recordings.specs.Fault.{status, text, IsStatus, fault_of};

use crate::steps::ScriptFault;
use itoa::Buffer;
use rev_messages::telling::tell_parts;
use rev_output::{Sink, WriteFailed};

/// Why a recording ends without rows.
#[derive(Debug, Drop)]
pub enum RecordingFault {
    /// The file's first line that makes no step, counted from 1.
    NotAStep { file: String, line: u64 },
    CannotRead { file: String },
    /// A file has more bytes than a script may have.
    TooLong,
    Memory,
    CannotWrite,
    /// What the players were answered is not what the log says.
    LogDiffers,
}

impl RecordingFault {
    /// What a script's fault is for a file of this name.
    pub fn of(fault: ScriptFault, file: String) -> RecordingFault
        ensures { result ≡ fault_of fault file }
    {
        match fault {
            ScriptFault::NotAStep { line } => RecordingFault::NotAStep { file, line },
            ScriptFault::Memory => RecordingFault::Memory,
            ScriptFault::Read => RecordingFault::CannotRead { file },
            ScriptFault::TooLong => RecordingFault::TooLong,
        }
    }

    /// The status that the program ends with: 3 for memory, 4 for input or output, 5 for a line that is not a step, 6
    /// where the log differs (this project's own numbers).
    pub fn status(&self) -> u8
        ensures status { result ≡ status self.now }
        ensures some { result ≢ 0 }
    {
        match self {
            RecordingFault::NotAStep { .. } => 5,
            RecordingFault::CannotRead { .. } => 4,
            RecordingFault::TooLong => 4,
            RecordingFault::Memory => 3,
            RecordingFault::CannotWrite => 4,
            RecordingFault::LogDiffers => 6,
        }
    }

    /// Writes what the user is told. At an error a front of it was written.
    pub fn tell<E: Sink>(&self, errors: &mut E) -> Result<(), WriteFailed>
        ensures told { Told (E.contents errors.old) (E.contents errors.new) (E.failures errors.old) (E.failures errors.new) (text self.now) }
        ensures ok { OnOk result (Appends (E.contents errors.old) (E.contents errors.new) (text self.now)) }
        ensures err { OnErr result (E.failures errors.new ≡ one_more (E.failures errors.old)) }
    {
        match self {
            RecordingFault::NotAStep { file, line } => {
                let mut number = Buffer::new();
                let digits = number.format(*line);
                let file = file.as_str();
                tell_parts(
                    errors,
                    &["lrudb: ", file, ": line ", digits, ": not a step\n"],
                )
            }
            RecordingFault::CannotRead { file } => {
                tell_parts(errors, &["lrudb: ", file.as_str(), ": cannot read\n"])
            }
            RecordingFault::TooLong => tell_parts(errors, &["lrudb: input too long\n"]),
            RecordingFault::Memory => tell_parts(errors, &["lrudb: out of memory\n"]),
            RecordingFault::CannotWrite => tell_parts(errors, &["lrudb: cannot write\n"]),
            RecordingFault::LogDiffers => tell_parts(errors, &["lrudb: log differs\n"]),
        }
    }
}

/// The status of a recording that ended so. Where it has no rows its user is told why, and else nothing is told.
pub fn ended<E: Sink>(done: Result<(), RecordingFault>, errors: &mut E) -> u8
    ensures status { MatchResult done (λ _. result ≡ 0) (λ fault. result ≡ status fault) }
    ensures zero { IsErr done → result ≢ 0 }
    ensures range { IsStatus result }
    ensures quiet { result ≡ 0 → Keeps (E.contents errors.old) (E.contents errors.new) }
    ensures told { IfErr done (λ fault. Told (E.contents errors.old) (E.contents errors.new) (E.failures errors.old) (E.failures errors.new) (text fault)) }
{
    match done {
        Ok(()) => 0,
        Err(fault) => {
            // There is nobody left to tell that this cannot be written.
            let _ = fault.tell(errors);
            fault.status()
        }
    }
}
