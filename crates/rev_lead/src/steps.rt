//! The steps that a driver plays.
ghost use Rattle.std.specs.Prelude.{◌≡◌, IfOk};
ghost use Rattle.rev_model.specs.Client.{Gets, Touches, Deletes, Evicts};
ghost use Rattle.rev_model.specs.Actor.{Client};
ghost use Rattle.rev_requests.specs.Plain.{plain_step, plain_keyed, plain_actor};
ghost use Rattle.rev_lead.specs.Agreed.{StoresKey};

use rev_items::{Data, Key, MAX_RELATIVE_TTL};
use rev_requests::{ActorStep, ClientStep, KeyCommand, Payload, Step, StoreVerb};
use std::alloc::{AllocError, Allocator};

fn keyed<A: Allocator + Copy>(
    alloc: A,
    command: KeyCommand,
    key: &Key<A>,
) -> Result<Step<A>, AllocError>
    ensures { IfOk result (λ step. plain_step step ≡ Client (plain_keyed command key.now)) }
{
    Ok(Step::Client(ClientStep::Keyed {
        command,
        key: key.copy(alloc)?,
    }))
}

pub fn get<A: Allocator + Copy>(alloc: A, key: &Key<A>) -> Result<Step<A>, AllocError>
    ensures { IfOk result (λ step. plain_step step ≡ Client (Gets key.now)) }
{
    keyed(alloc, KeyCommand::Get, key)
}

pub fn delete<A: Allocator + Copy>(alloc: A, key: &Key<A>) -> Result<Step<A>, AllocError>
    ensures { IfOk result (λ step. plain_step step ≡ Client (Deletes key.now)) }
{
    keyed(alloc, KeyCommand::Delete, key)
}

/// The eviction of a key where the log has it.
pub fn evict<A: Allocator + Copy>(alloc: A, key: &Key<A>) -> Result<Step<A>, AllocError>
    ensures { IfOk result (λ step. plain_step step ≡ Client (Evicts key.now)) }
{
    keyed(alloc, KeyCommand::Evict, key)
}

pub fn touch<A: Allocator + Copy>(
    alloc: A,
    key: &Key<A>,
    exptime: i32,
) -> Result<Step<A>, AllocError>
    ensures { IfOk result (λ step. plain_step step ≡ Client (Touches key.now exptime)) }
{
    keyed(alloc, KeyCommand::Touch(exptime), key)
}

pub fn actor<A: Allocator>(step: ActorStep) -> Step<A>
    ensures { plain_step result ≡ plain_actor step }
{
    Step::Actor(step)
}

/// The store of an item.
pub fn store<A: Allocator + Copy>(
    alloc: A,
    verb: StoreVerb,
    key: &Key<A>,
    flags: u32,
    exptime: i32,
    data: Data<A>,
) -> Result<Step<A>, AllocError>
    ensures { IfOk result (λ step. StoresKey key.now (plain_step step)) }
{
    Ok(Step::Client(ClientStep::Store {
        verb,
        key: key.copy(alloc)?,
        flags,
        exptime,
        data: Payload::Bytes(data),
    }))
}

/// The store of these data, which are too large for any page, so that nothing is stored.
pub fn failed_set<A: Allocator + Copy>(
    alloc: A,
    key: &Key<A>,
    data: Data<A>,
) -> Result<Step<A>, AllocError> {
    Ok(Step::Client(ClientStep::Store {
        verb: StoreVerb::Set,
        key: key.copy(alloc)?,
        flags: 0,
        exptime: 0,
        data: Payload::Bytes(data),
    }))
}

/// The expiry time of a step for a time to live that was logged at this second: up to thirty days as it is, a longer
/// one as a moment, or none where the moment is past what a step can say; one of 2^31 or more was over as it came.
pub fn exptime_of(now: u32, ttl: u32) -> i32 {
    if ttl >= 1 << 31 {
        return -1;
    }
    if ttl <= MAX_RELATIVE_TTL {
        return ttl as i32;
    }
    exptime_at(u64::from(now) + u64::from(ttl))
}

/// The expiry time of a step for this moment by the Unix clock; none for one that a step cannot say, past a moment that
/// would count from now.
pub fn exptime_at(moment: u64) -> i32 {
    if moment == 0 {
        0
    } else if moment <= u64::from(MAX_RELATIVE_TTL) {
        -1
    } else if moment < 1 << 31 {
        moment as i32
    } else {
        0
    }
}
