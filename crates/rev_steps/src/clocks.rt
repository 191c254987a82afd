//! The clock.
ghost use Rattle.std.specs.Prelude.{◌≡◌, ◌≤◌, length, IfOk, OnOk, OnErr, []};
ghost use Rattle.rev_model.specs.Actor.{clock, is_due};
ghost use Rattle.rev_model.specs.Sound.{Sound};
ghost use Rattle.rev_model.specs.Move.{LeadsBack};
ghost use Rattle.rev_inverse.specs.Telling.{TellsAll};
ghost use Rattle.rev_steps.specs.Exchange.{timing_at};

use crate::globals::{exchange, unchanged};
use rev_inverse::{Record, Store};
use rev_model::{GlobalPart, Globals, Outcome, Timing};
use std::alloc::{AllocError, Allocator};

/// Whether a flush of this moment is due.
fn is_due(flush: Option<u64>, now: u32) -> bool
    ensures { result ≡ is_due flush now }
{
    match flush {
        None => false,
        Some(moment) => moment <= u64::from(now),
    }
}

/// The timing with the clock at `now`; a pending flush that is due then covers all items stored so far.
fn at_clock(now: u32, globals: Globals) -> Timing
    ensures { result ≡ timing_at now globals }
{
    if is_due(globals.flush, now) {
        Timing {
            clock: now,
            flush_limit: globals.last_cas,
            flush: None,
        }
    } else {
        Timing {
            clock: now,
            flush_limit: globals.flush_limit,
            flush: globals.flush,
        }
    }
}

/// The clock shows this second, and a pending flush of a moment up to it is done (protocol.txt, `flush_all`): Okay. The
/// clock never falls: an earlier second changes nothing, and is answered Idle (this project's own).
///
/// Err: a growth was refused, and the store is as it was.
pub fn set_clock<A: Allocator + Clone>(
    store: &mut Store<A>,
    now: u32,
) -> Result<(Outcome, Record<A>), AllocError>
    requires { Sound store.old }
    ensures step { IfOk result (λ p. (store.new, p.0) ≡ clock store.old now) }
    ensures sound { OnOk result (Sound store.new) }
    ensures leads { IfOk result (λ p. LeadsBack p.1.moves store.new store.old) }
    ensures few { IfOk result (λ p. length p.1.moves ≤ 64) }
    ensures err { OnErr result (store.new ≡ store.old) }
    ensures told { IfOk result (λ p. TellsAll p.1 store.new []) }
{
    let globals = store.globals();
    if now < globals.clock {
        return unchanged(store, Outcome::Idle);
    }
    exchange(store, GlobalPart::Timing(at_clock(now, globals)))
}
