//! The command flush_all.
ghost use Rattle.std.specs.Prelude.{◌≡◌, ◌≤◌, length, List, [], Some, IfOk, OnOk, OnErr};
ghost use Rattle.rev_model.specs.Client.{flush_all as flush_all_of, flush_moment, flush_at};
ghost use Rattle.rev_model.specs.Sound.{Sound};
ghost use Rattle.rev_model.specs.Move.{LeadsBack};
ghost use Rattle.rev_model.specs.State.{State};
ghost use Rattle.rev_inverse.specs.Telling.{TellsAll};
ghost use Rattle.rev_commands.specs.Flushing.{flushed};

use rev_edits::moving::change;
use rev_inverse::{Change, Record, Store};
use rev_items::moment;
use rev_model::{Globals, Outcome, Timing};
use std::alloc::{AllocError, Allocator};

/// The second of the clock at which a flush comes that is asked for at `now`: 0, which is at once, where the delay is 0
/// or negative.
fn flush_moment(now: u32, delay: i32) -> u64
    ensures { result ≡ flush_moment now (Some delay) }
{
    if delay < 0 { 0 } else { moment(now, delay) }
}

/// The timing after a flush that comes at `due`: where that is no later than now, all items linked so far are flushed,
/// and no flush is to come.
fn flushed(globals: Globals, due: u64) -> Timing
    ensures { result ≡ flushed globals due }
{
    if due <= u64::from(globals.clock) {
        Timing {
            clock: globals.clock,
            flush_limit: globals.last_cas,
            flush: None,
        }
    } else {
        Timing {
            clock: globals.clock,
            flush_limit: globals.flush_limit,
            flush: Some(due),
        }
    }
}

/// Lets all items that are there die (protocol.txt): at once where the delay is 0 or negative, else after so many
/// seconds, up to thirty days, or at the moment that a larger number names. A later flush replaces one that is to come.
///
/// Err: a growth was refused, and the store is as it was.
pub fn flush_all<A: Allocator + Clone>(
    store: &mut Store<A>,
    delay: i32,
) -> Result<(Outcome, Record<A>), AllocError>
    requires { Sound store.old }
    ensures step { IfOk result (λ p. (store.new, p.0) ≡ flush_all_of store.old (Some delay)) }
    ensures sound { OnOk result (Sound store.new) }
    ensures leads { IfOk result (λ p. LeadsBack p.1.moves store.new store.old) }
    ensures few { IfOk result (λ p. length p.1.moves ≤ 64) }
    ensures err { OnErr result (store.new ≡ store.old) }
    ensures told { IfOk result (λ p. TellsAll p.1 store.new []) }
{
    let mut undo = Record::with_room(store.alloc()?, 1)?;
    let globals = store.globals();
    let due = flush_moment(globals.clock, delay);
    change(store, Change::Timing(flushed(globals, due)), &mut undo);
    Ok((Outcome::Okay, undo))
}
