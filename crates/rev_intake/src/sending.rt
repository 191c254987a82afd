//! What is written of a script, sent piece by piece.
ghost use Rattle.std.specs.Prelude.{◌≡◌, [], OnOk, OnErr};
ghost use Rattle.rev_output.specs.Sink.{one_more};
ghost use Rattle.rev_intake.specs.Sending.{Sends};

use crate::intake::PIECE;
use rev_output::{Sink, WriteFailed, write_all};
use std::alloc::Allocator;

/// Sends what is at hand.
pub fn send<A: Allocator, K: Sink>(out: &mut Vec<u8, A>, sink: &mut K) -> Result<(), WriteFailed>
    ensures sends { OnOk result (Sends out.old.items out.new.items [] (K.contents sink.old) (K.contents sink.new) (K.failures sink.old) (K.failures sink.new)) }
    ensures all { OnOk result (out.new.items ≡ []) }
    ensures err { OnErr result (K.failures sink.new ≡ one_more (K.failures sink.old)) }
{
    write_all(sink, out.as_slice())?;
    out.clear();
    Ok(())
}

/// Sends what is at hand, where it is enough.
pub fn send_piece<A: Allocator, K: Sink>(
    out: &mut Vec<u8, A>,
    sink: &mut K,
) -> Result<(), WriteFailed>
    ensures sends { OnOk result (Sends out.old.items out.new.items [] (K.contents sink.old) (K.contents sink.new) (K.failures sink.old) (K.failures sink.new)) }
    ensures err { OnErr result (K.failures sink.new ≡ one_more (K.failures sink.old)) }
{
    if out.len() < PIECE {
        Ok(())
    } else {
        send(out, sink)
    }
}
