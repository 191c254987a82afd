//! What the crawler asks of the store, and the answer where it does nothing.
ghost use Rattle.std.specs.Prelude.{◌≡◌, ◌<◌, IfOk, [], true, false};
ghost use Rattle.rev_model.specs.State.{WellFormed, IsClass};
ghost use Rattle.rev_model.specs.Move.{is_class, names, names_other, LeadsBack};
ghost use Rattle.rev_model.specs.Actor.{has_mark, is_busy};
ghost use Rattle.rev_inverse.specs.Telling.{TellsAll};

use rev_inverse::{Record, Store};
use rev_model::{ClassSet, Outcome, Queue};
use std::alloc::{AllocError, Allocator};

/// How many numbers a set has bits for.
const NUMBERS: usize = 64;

/// Whether a number is a class of the store.
pub fn is_class<A: Allocator>(store: &Store<A>, class: usize) -> bool
    ensures { result ≡ is_class store.now class }
{
    class != 0 && class <= store.table().last()
}

/// Whether a set names a number.
fn is_named<A: Allocator>(store: &Store<A>, set: ClassSet, class: usize) -> bool
    requires { class < 64 }
    ensures { result ≡ names store.now set class }
{
    match set {
        ClassSet::All => is_class(store, class),
        ClassSet::These(bits) => (bits >> class) % 2 == 1,
    }
}

/// Whether a set names a number that is no class of the store.
pub fn names_other<A: Allocator>(store: &Store<A>, set: ClassSet) -> bool
    ensures { result ≡ names_other 64 store.now set }
{
    for class in 0..NUMBERS {
        if is_named(store, set, class) && !is_class(store, class) {
            return true;
        }
    }
    false
}

/// Whether a mark stands in one of the four queues of a class.
fn has_mark<A: Allocator>(store: &Store<A>, class: usize) -> bool
    requires well { WellFormed store.now }
    requires class { IsClass store.now.fixed class }
    ensures { result ≡ has_mark store.now class }
{
    store.has_mark(class, Queue::Hot)
        || store.has_mark(class, Queue::Warm)
        || store.has_mark(class, Queue::Cold)
        || store.has_mark(class, Queue::Temp)
}

/// Whether a set names a class that has a mark. It names classes alone.
pub fn is_busy<A: Allocator>(store: &Store<A>, set: ClassSet) -> bool
    requires well { WellFormed store.now }
    requires classes { names_other 64 store.now set ≡ false }
    ensures { result ≡ is_busy 64 store.now set }
{
    for class in 0..NUMBERS {
        if is_named(store, set, class) && has_mark(store, class) {
            return true;
        }
    }
    false
}

/// Nothing is done: the outcome, with a record that has no move.
///
/// Err: a growth was refused.
pub fn unchanged<A: Allocator + Clone>(
    store: &Store<A>,
    outcome: Outcome,
) -> Result<(Outcome, Record<A>), AllocError>
    ensures outcome { IfOk result (λ p. p.0 ≡ outcome) }
    ensures leads { IfOk result (λ p. LeadsBack p.1.moves store.now store.now) }
    ensures none { IfOk result (λ p. p.1.moves ≡ []) }
    ensures told { IfOk result (λ p. TellsAll p.1 store.now []) }
{
    Ok((outcome, Record::with_room(store.alloc()?, 0)?))
}
