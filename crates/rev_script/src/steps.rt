//! The step of a line's command, once its key and its data are there. (Each kind is made in a function of its own: a
//! step is large, and where all kinds were made in one place, each cleared what only the others have.)
ghost use Rattle.std.specs.Prelude.{◌≡◌};
ghost use Rattle.rev_requests.specs.Plain.{plain_actor, plain_payload, plain_step};
ghost use Rattle.rev_script.specs.Steps.{storage_step, keyed_step, get, flush_step, tune_step};

use crate::command::StorageCommand;
use rev_items::Key;
use rev_requests::{ActorStep, ClientStep, KeyCommand, Payload, Step, Tune};
use std::alloc::Allocator;

/// The step of a command that brings data. A join keeps the flags and the moment of the key's item.
pub fn storage_step<A: Allocator>(
    command: StorageCommand,
    key: Key<A>,
    flags: u32,
    exptime: i32,
    payload: Payload<A>,
) -> Step<A>
    ensures { plain_step result ≡ storage_step command key flags exptime (plain_payload payload) }
{
    match command {
        StorageCommand::Store(verb) => Step::Client(ClientStep::Store {
            verb,
            key,
            flags,
            exptime,
            data: payload,
        }),
        StorageCommand::Join(side) => Step::Client(ClientStep::Join {
            side,
            key,
            data: payload,
        }),
    }
}

/// The step of a command on a key that brings no data.
pub fn keyed_step<A: Allocator>(command: KeyCommand, key: Key<A>) -> Step<A>
    ensures { plain_step result ≡ keyed_step command key }
{
    Step::Client(ClientStep::Keyed { command, key })
}

/// The step of a `get` of one key.
pub fn get_step<A: Allocator>(key: Key<A>) -> Step<A>
    ensures { plain_step result ≡ get key }
{
    keyed_step(KeyCommand::Get, key)
}

/// The step of `flush_all`, after so many seconds.
pub fn flush_step<A: Allocator>(delay: i32) -> Step<A>
    ensures { plain_step result ≡ flush_step delay }
{
    Step::Client(ClientStep::FlushAll { delay })
}

/// The step of an actor or of the clock.
pub fn actor_step<A: Allocator>(step: ActorStep) -> Step<A>
    ensures { plain_step result ≡ plain_actor step }
{
    Step::Actor(step)
}

/// The step that gives the settings.
pub fn tune_step<A: Allocator>(tune: Tune) -> Step<A>
    ensures { plain_step result ≡ tune_step tune }
{
    Step::Tune(tune)
}
