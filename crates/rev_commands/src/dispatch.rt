//! Which command a step is.
ghost use Rattle.std.specs.Prelude.{◌≡◌, ◌≤◌, length, IfOk, OnOk, OnErr};
ghost use Rattle.rev_model.specs.Client.{client as client_of};
ghost use Rattle.rev_model.specs.Sound.{Sound};
ghost use Rattle.rev_model.specs.Move.{LeadsBack};
ghost use Rattle.rev_model.specs.Causes.{client_removals};
ghost use Rattle.rev_inverse.specs.Telling.{TellsAll};
ghost use Rattle.rev_requests.specs.Plain.{plain_client, plain_keyed};

use crate::delete::delete;
use crate::evict::evict;
use crate::flush::flush_all;
use crate::get::get;
use crate::steps::{count, join};
use crate::store::store_item;
use crate::touch::touch;
use rev_inverse::{Record, Store};
use rev_items::Key;
use rev_model::Outcome;
use rev_requests::{ClientStep, KeyCommand};
use std::alloc::{AllocError, Allocator};

/// A command on one key that brings no data.
///
/// Err: a growth was refused, and the store is as it was.
fn keyed<A: Allocator + Clone>(
    store: &mut Store<A>,
    command: KeyCommand,
    key: &Key<A>,
) -> Result<(Outcome, Record<A>), AllocError>
    requires { Sound store.old }
    ensures step { IfOk result (λ p. (store.new, p.0) ≡ client_of store.old (plain_keyed command key.now)) }
    ensures sound { OnOk result (Sound store.new) }
    ensures leads { IfOk result (λ p. LeadsBack p.1.moves store.new store.old) }
    ensures few { IfOk result (λ p. length p.1.moves ≤ 64) }
    ensures err { OnErr result (store.new ≡ store.old) }
    ensures told { IfOk result (λ p. TellsAll p.1 store.new (client_removals store.old (plain_keyed command key.now))) }
{
    match command {
        KeyCommand::Get => get(store, key),
        KeyCommand::Delete => delete(store, key),
        KeyCommand::Evict => evict(store, key),
        KeyCommand::Touch(exptime) => touch(store, key, exptime),
        KeyCommand::Count(arithmetic) => count(store, arithmetic, key),
    }
}

/// Does a client's step: it gives the outcome, and the record of at most 64 moves by which `Store::turn` leads back.
///
/// Err: a growth was refused, and the store is as it was.
pub fn client<A: Allocator + Clone>(
    store: &mut Store<A>,
    step: &ClientStep<A>,
) -> Result<(Outcome, Record<A>), AllocError>
    requires { Sound store.old }
    ensures step { IfOk result (λ p. (store.new, p.0) ≡ client_of store.old (plain_client step.now)) }
    ensures sound { OnOk result (Sound store.new) }
    ensures leads { IfOk result (λ p. LeadsBack p.1.moves store.new store.old) }
    ensures few { IfOk result (λ p. length p.1.moves ≤ 64) }
    ensures err { OnErr result (store.new ≡ store.old) }
    ensures told { IfOk result (λ p. TellsAll p.1 store.new (client_removals store.old (plain_client step.now))) }
{
    match step {
        ClientStep::Store {
            verb,
            key,
            flags,
            exptime,
            data,
        } => store_item(store, *verb, key, *flags, *exptime, data),
        ClientStep::Join { side, key, data } => join(store, *side, key, data),
        ClientStep::Keyed { command, key } => keyed(store, *command, key),
        ClientStep::FlushAll { delay } => flush_all(store, *delay),
    }
}
