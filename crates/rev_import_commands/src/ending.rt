//! How an import ends.
ghost use Rattle.std.specs.Prelude.{◌≡◌, ◌≢◌, IsOk};
ghost use Rattle.rev_messages.specs.Ends.{IsStatus, StopsBy};
ghost use Rattle.rev_messages.specs.Telling.{Told};
ghost use Rattle.rev_messages.specs.declared.stop.Stop.{Stop};

use rev_messages::Stop;
use rev_messages::ends::ended;
use rev_messages::telling::tell_bytes;
use rev_output::Sink;

/// The status of an import that ended so. Where it went well its notes are told, and else why it was stopped.
pub(crate) fn end_import<E: Sink>(done: Result<(), Stop>, notes: &[u8], errors: &mut E) -> u8
    ensures status { IsStatus result }
    ensures done { result ≡ 0 → IsOk done × Told (E.contents errors.old) (E.contents errors.new) (E.failures errors.old) (E.failures errors.new) notes.now }
    ensures early { result ≢ 0 → (s : Stop) × StopsBy (E.contents errors.old) (E.contents errors.new) (E.failures errors.old) (E.failures errors.new) result s }
{
    match done {
        Err(stop) => ended(Err(stop), errors),
        Ok(()) => {
            tell_bytes(errors, notes);
            0
        }
    }
}
