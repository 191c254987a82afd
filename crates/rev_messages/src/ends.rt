//! How a program ends that was stopped or not.
ghost use Rattle.std.specs.Prelude.{◌≡◌, IfErr, MatchResult};
ghost use Rattle.std.specs.Io.KnownBytes.{Keeps};
ghost use Rattle.rev_messages.specs.Ends.{IsStatus};
ghost use Rattle.rev_messages.specs.Stop.{status, text};
ghost use Rattle.rev_messages.specs.Telling.{Told};

use crate::stop::Stop;
use rev_output::Sink;

/// The status of a program that ended so. Where it was stopped its user is told, and where it was not nothing is.
pub fn ended<E: Sink>(done: Result<(), Stop>, errors: &mut E) -> u8
    ensures status { MatchResult done (λ _. result ≡ 0) (λ stop. result ≡ status stop) }
    ensures range { IsStatus result }
    ensures quiet { result ≡ 0 → Keeps (E.contents errors.old) (E.contents errors.new) }
    ensures told { IfErr done (λ stop. Told (E.contents errors.old) (E.contents errors.new) (E.failures errors.old) (E.failures errors.new) (text stop)) }
{
    match done {
        Ok(()) => 0,
        Err(stop) => {
            // There is nobody left to tell that this cannot be written.
            let _ = stop.tell(errors);
            stop.status()
        }
    }
}
