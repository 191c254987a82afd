//! The commands append, prepend, incr and decr.
ghost use Rattle.std.specs.Prelude.{◌≡◌, ◌≤◌, length, IfOk, OnOk, OnErr};
ghost use Rattle.rev_model.specs.Client.{join as join_of, count as count_of};
ghost use Rattle.rev_model.specs.Sound.{Sound};
ghost use Rattle.rev_model.specs.Move.{LeadsBack};
ghost use Rattle.rev_model.specs.Causes.{join_removals, count_removals};
ghost use Rattle.rev_inverse.specs.Telling.{TellsAll};
ghost use Rattle.rev_requests.specs.Plain.{plain_payload, plain_side, plain_sum, amount};

use crate::plan::{plan_count, plan_join};
use crate::rewrite::carry_out;
use rev_inverse::{Record, Store};
use rev_items::Key;
use rev_model::Outcome;
use rev_requests::{Arithmetic, JoinSide, Payload};
use std::alloc::{AllocError, Allocator};

/// append and prepend (protocol.txt): the data are joined to those of the key's live item, which keeps its flags and
/// its moment. The rest is this project's own: NotStored where the key has no live item, or loses it when room is made;
/// TooLarge where no slab class holds the joined data, NoChunk where no chunk is had for them, and then the old item
/// stays, if it was not evicted.
///
/// Err: a growth was refused, and the store is as it was.
pub fn join<A: Allocator + Clone>(
    store: &mut Store<A>,
    side: JoinSide,
    key: &Key<A>,
    payload: &Payload<A>,
) -> Result<(Outcome, Record<A>), AllocError>
    requires { Sound store.old }
    ensures step { IfOk result (λ p. (store.new, p.0) ≡ join_of store.old (plain_side side) key.now (plain_payload payload.now)) }
    ensures sound { OnOk result (Sound store.new) }
    ensures leads { IfOk result (λ p. LeadsBack p.1.moves store.new store.old) }
    ensures few { IfOk result (λ p. length p.1.moves ≤ 64) }
    ensures err { OnErr result (store.new ≡ store.old) }
    ensures told { IfOk result (λ p. TellsAll p.1 store.new (join_removals store.old (plain_side side) key.now (plain_payload payload.now))) }
{
    let found = store.find(key);
    let plan = plan_join(store, side, key, found, payload)?;
    carry_out(store, key, found, plan, Outcome::NotStored)
}

/// incr and decr (protocol.txt): the number that the key's live item holds grows, and wraps past 64 bits, or falls, and
/// stops at 0; its decimal digits are the new data of the item, which keeps its flags and its moment. NotFound where
/// the key has no live item; NotNumber where its data are not 1 to 20 digits of at most 64 bits. The rest is this
/// project's own: NotFound also where the item is lost when room is made, and NoChunk where no chunk is had for the new
/// data.
///
/// Err: a growth was refused, and the store is as it was.
pub fn count<A: Allocator + Clone>(
    store: &mut Store<A>,
    arithmetic: Arithmetic,
    key: &Key<A>,
) -> Result<(Outcome, Record<A>), AllocError>
    requires { Sound store.old }
    ensures step { IfOk result (λ p. (store.new, p.0) ≡ count_of store.old (plain_sum arithmetic) key.now (amount arithmetic)) }
    ensures sound { OnOk result (Sound store.new) }
    ensures leads { IfOk result (λ p. LeadsBack p.1.moves store.new store.old) }
    ensures few { IfOk result (λ p. length p.1.moves ≤ 64) }
    ensures err { OnErr result (store.new ≡ store.old) }
    ensures told { IfOk result (λ p. TellsAll p.1 store.new (count_removals store.old (plain_sum arithmetic) key.now (amount arithmetic))) }
{
    let found = store.find(key);
    let plan = plan_count(store, arithmetic, key, found)?;
    carry_out(store, key, found, plan, Outcome::NotFound)
}
