//! What ends a program whose run, or a file of whose steps, is at fault.
ghost use Rattle.std.specs.Prelude.{◌≡◌};
ghost use Rattle.rev_program.specs.Stopping.{stop_of_run, stop_of_trace};

use rev_messages::Stop;
use rev_plays::quiet::TraceFault;
use rev_shell::run::RunFault;

/// What a fault of a run is.
pub(crate) fn stop_of_run(fault: RunFault) -> Stop
    ensures { result ≡ stop_of_run fault }
{
    match fault {
        RunFault::Memory { line: _ } => Stop::Memory,
        RunFault::Read => Stop::CannotRead,
        RunFault::Write => Stop::CannotWrite,
        RunFault::TooLong => Stop::TooLong,
    }
}

/// What a fault of a file of steps of this name is.
pub(crate) fn stop_of_trace(fault: TraceFault, file: String) -> Stop
    ensures { result ≡ stop_of_trace fault file }
{
    match fault {
        TraceFault::NotAStep { line } => Stop::NotAStep { file, line },
        TraceFault::Memory => Stop::Memory,
        TraceFault::Read => Stop::CannotOpen(file),
        TraceFault::TooLong => Stop::TooLong,
    }
}
