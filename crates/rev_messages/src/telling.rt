//! What the user is told, written in parts: it takes no memory, of which there may be none.
ghost use Rattle.std.specs.Prelude.{◌≡◌, map, OnOk, OnErr};
ghost use Rattle.std.specs.Io.KnownBytes.{Appends};
ghost use Rattle.rev_output.specs.Sink.{one_more};
ghost use Rattle.rev_messages.specs.Telling.{Told, joined};

use rev_output::{Sink, WriteFailed, write_all};

/// Writes the parts of a text, one behind another. At an error a front of the text was written.
pub fn tell_parts<E: Sink>(errors: &mut E, parts: &[&str]) -> Result<(), WriteFailed>
    ensures told { Told (E.contents errors.old) (E.contents errors.new) (E.failures errors.old) (E.failures errors.new) (joined (map (λ p. p.now) parts.now)) }
    ensures ok { OnOk result (Appends (E.contents errors.old) (E.contents errors.new) (joined (map (λ p. p.now) parts.now))) }
    ensures err { OnErr result (E.failures errors.new ≡ one_more (E.failures errors.old)) }
{
    for part in parts {
        write_all(errors, part.as_bytes())?;
    }
    Ok(())
}

/// Writes a text, or a front of it where that fails.
pub fn tell_bytes<E: Sink>(errors: &mut E, text: &[u8])
    ensures { Told (E.contents errors.old) (E.contents errors.new) (E.failures errors.old) (E.failures errors.new) text.now }
{
    // There is nobody left to tell that this cannot be written.
    let _ = write_all(errors, text);
}
