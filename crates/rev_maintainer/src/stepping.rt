//! A pull as a step of its own.
ghost use Rattle.std.specs.Prelude.{◌≡◌, ◌≤◌, length, IfOk, OnOk, OnErr};
ghost use Rattle.rev_model.specs.Actor.{pull_step as pull_step_of};
ghost use Rattle.rev_model.specs.Causes.{pull_step_removals};
ghost use Rattle.rev_model.specs.Move.{is_class, LeadsBack};
ghost use Rattle.rev_model.specs.Sound.{Sound};
ghost use Rattle.rev_inverse.specs.Telling.{TellsAll};

use crate::pulls::pull_queue;
use rev_inverse::{Record, Store};
use rev_model::{Outcome, PullMode, Queue};
use std::alloc::{AllocError, Allocator};

/// The most moves of a pull.
const MOST_MOVES: usize = 5;

/// Whether there is a class of this number: from 1 to the last.
fn is_class<A: Allocator>(store: &Store<A>, class: usize) -> bool
    ensures { result ≡ is_class store.now class }
{
    class != 0 && class <= store.table().last()
}

/// Pulls the queue's last item (new_lru.txt). A dead one is removed: Reclaimed. An active one goes to WARM's head, and
/// one of HOT or WARM that is idle too long, or whose queue is over its share, to COLD's: Moved. Else Idle.
///
/// A class outside 1 to the last is answered BadClass. Err: a growth was refused, and the store is as it was.
pub fn pull<A: Allocator + Clone>(
    store: &mut Store<A>,
    class: usize,
    queue: Queue,
) -> Result<(Outcome, Record<A>), AllocError>
    requires { Sound store.old }
    ensures step { IfOk result (λ p. (store.new, p.0) ≡ pull_step_of store.old class queue) }
    ensures sound { OnOk result (Sound store.new) }
    ensures leads { IfOk result (λ p. LeadsBack p.1.moves store.new store.old) }
    ensures few { IfOk result (λ p. length p.1.moves ≤ 64) }
    ensures err { OnErr result (store.new ≡ store.old) }
    ensures told { IfOk result (λ p. TellsAll p.1 store.new (pull_step_removals store.old class queue)) }
{
    if !is_class(store, class) {
        return Ok((Outcome::BadClass, Record::with_room(store.alloc()?, 0)?));
    }
    let mut undo = Record::with_room(store.alloc()?, MOST_MOVES)?;
    let outcome = pull_queue(store, class, queue, PullMode::Plain, &mut undo);
    Ok((outcome, undo))
}
