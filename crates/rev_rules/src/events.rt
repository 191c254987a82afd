//! What a step of a script is to the key that it names, told as an event of a log is.
ghost use Rattle.std.specs.Prelude.{◌≡◌, Some, IfOk};
ghost use Rattle.std.specs.Option.{option_map};
ghost use Rattle.rev_requests.specs.Plain.{plain_client, plain_keyed, plain_side, plain_step, plain_verb};
ghost use Rattle.rev_tree.specs.Rows.{at};
ghost use Rattle.rev_model.specs.State.{item_at};
ghost use Rattle.rev_rules.specs.Events as rule;
ghost use Rattle.rev_rules.specs.Events.{LooksUp, MovesPage, Stores};

use rev_evidence::blame::key_of;
use rev_inverse::Store;
use rev_items::Key;
use rev_lead::Role;
use rev_model::{ChunkRef, Mover, Outcome};
use rev_requests::{ClientStep, JoinSide, KeyCommand, Step, StoreVerb};
use rev_undotree::Session;
use rev_watch::event::{Event, LookUpOutcome, StoreCommand, StoreOutcome};
use std::alloc::{AllocError, Allocator};

/// A script has no connections: this number stands in the place of one, and is never told.
const NO_CONNECTION: i32 = 0;

/// What is to be known of the cache in front of a step.
#[derive(Clone, Copy)]
pub struct Before {
    /// Whether the step meets an item that a flush made dead.
    pub is_flushed: bool,
    /// The page move that is under way.
    pub mover: Option<Mover>,
}

/// The slab class of an item, and the bytes of its data; both are 0 where there is none.
#[derive(Clone, Copy)]
struct Held {
    class: u32,
    size: u32,
}

// The bytes of the data of the item that a chunk holds.
fn size_in<A: Allocator + Clone>(session: &Session<A>, chunk: ChunkRef) -> u32
    ensures { result ≡ rule.size_of (item_at (at session.now.root session.now.rows session.now.current) chunk) }
{
    match session.store().content(chunk) {
        Some(item) => item.data_length(),
        None => 0,
    }
}

// The class and the size of the key's item.
fn held_by<A: Allocator + Clone>(session: &Session<A>, key: &Key<A>) -> Held {
    let store = session.store();
    match store.find(key) {
        Some(chunk) => Held {
            class: u32::try_from(store.owner(chunk.page as usize)).unwrap_or(0),
            size: size_in(session, chunk),
        },
        None => Held { class: 0, size: 0 },
    }
}

// Which command stores so.
fn command_of(verb: StoreVerb) -> StoreCommand
    ensures { result ≡ rule.command_of (plain_verb verb) }
{
    match verb {
        StoreVerb::Set => StoreCommand::Set,
        StoreVerb::Add => StoreCommand::Add,
        StoreVerb::Replace => StoreCommand::Replace,
        StoreVerb::Cas(_) => StoreCommand::Cas,
    }
}

fn joined_by(side: JoinSide) -> StoreCommand
    ensures { result ≡ rule.joined_by (plain_side side) }
{
    match side {
        JoinSide::Append => StoreCommand::Append,
        JoinSide::Prepend => StoreCommand::Prepend,
    }
}

// How a storage command ended.
fn stored_as(outcome: Outcome) -> StoreOutcome
    ensures { result ≡ rule.stored_as outcome }
{
    match outcome {
        Outcome::Stored => StoreOutcome::Stored,
        Outcome::NotStored => StoreOutcome::NotStored,
        Outcome::Exists => StoreOutcome::Exists,
        Outcome::NotFound => StoreOutcome::NotFound,
        Outcome::TooLarge => StoreOutcome::TooLarge,
        Outcome::NoChunk => StoreOutcome::NoMemory,
        _ => StoreOutcome::Other,
    }
}

// How a look-up ended.
fn found_as(outcome: Outcome) -> LookUpOutcome
    ensures { result ≡ rule.found_as outcome }
{
    match outcome {
        Outcome::Miss | Outcome::NotFound => LookUpOutcome::NotFound,
        _ => LookUpOutcome::Found,
    }
}

// A time to live, as a log writes it: one that was over as it came is 2^31 or more.
fn ttl_of(exptime: i32) -> u32 {
    u32::try_from(exptime).unwrap_or(u32::MAX)
}

// The event of a storage command on this key.
fn store<A: Allocator>(
    key: Key<A>,
    command: StoreCommand,
    outcome: Outcome,
    exptime: i32,
    held: Held,
) -> Event<A>
    ensures { rule.plain_event result ≡ Stores key command (rule.stored_as outcome) }
{
    Event::Store {
        key,
        command,
        outcome: stored_as(outcome),
        ttl: ttl_of(exptime),
        class: held.class,
        connection: NO_CONNECTION,
        size: held.size,
    }
}

fn look_up<A: Allocator>(key: Key<A>, outcome: Outcome, held: Held) -> Event<A>
    ensures { rule.plain_event result ≡ LooksUp key (rule.found_as outcome) }
{
    Event::LookUp {
        key,
        outcome: found_as(outcome),
        class: held.class,
        connection: NO_CONNECTION,
        size: held.size,
    }
}

// The event of a command that takes the key's item out.
fn deletion<A: Allocator>(key: Key<A>, outcome: Outcome, held: Held) -> Event<A>
    ensures { rule.plain_event result ≡ rule.takes_out key outcome }
{
    match outcome {
        Outcome::Deleted | Outcome::Evicted => Event::Deletion {
            key,
            connection: None,
        },
        _ => look_up(key, outcome, held),
    }
}

// The event of a command that brings no data.
fn keyed<A: Allocator>(command: KeyCommand, key: Key<A>, outcome: Outcome, held: Held) -> Event<A>
    ensures { Some (rule.plain_event result) ≡ rule.client_event (plain_keyed command key) outcome }
{
    match command {
        KeyCommand::Delete | KeyCommand::Evict => deletion(key, outcome, held),
        KeyCommand::Get | KeyCommand::Touch(_) | KeyCommand::Count(_) => {
            look_up(key, outcome, held)
        }
    }
}

// The event of a client's step.
fn client_event<A: Allocator + Copy>(
    alloc: A,
    session: &Session<A>,
    client: &ClientStep<A>,
    outcome: Outcome,
) -> Result<Option<Event<A>>, AllocError>
    ensures { IfOk result (λ event. option_map rule.plain_event event ≡ rule.client_event (plain_client client.now) outcome) }
{
    match client {
        ClientStep::Store {
            verb,
            key,
            exptime,
            ..
        } => Ok(Some(store(
            key.copy(alloc)?,
            command_of(*verb),
            outcome,
            *exptime,
            held_by(session, key),
        ))),
        ClientStep::Join { side, key, .. } => Ok(Some(store(
            key.copy(alloc)?,
            joined_by(*side),
            outcome,
            0,
            held_by(session, key),
        ))),
        ClientStep::Keyed { command, key } => Ok(Some(keyed(
            *command,
            key.copy(alloc)?,
            outcome,
            held_by(session, key),
        ))),
        ClientStep::FlushAll { .. } => Ok(None),
    }
}

// The event of a page that went to another class, or to the pool.
fn page_move<A: Allocator>(mover: Mover) -> Event<A>
    ensures { rule.plain_event result ≡ MovesPage mover.src mover.dst }
{
    Event::PageMove {
        source: u32::from(mover.src),
        target: u32::from(mover.dst),
    }
}

// The event of a step of no client: the page mover's last.
fn actor_event<A: Allocator>(mover: Option<Mover>, outcome: Outcome) -> Option<Event<A>>
    ensures { option_map rule.plain_event result ≡ rule.actor_event mover outcome }
{
    match outcome {
        Outcome::Finished => match mover {
            Some(mover) => Some(page_move(mover)),
            None => None,
        },
        _ => None,
    }
}

/// The event of a step that ended so, where it is one: the session stands behind it, and this was to be known in front
/// of it.
///
/// Err: memory was refused.
pub fn event_of<A: Allocator + Copy>(
    alloc: A,
    session: &Session<A>,
    step: &Step<A>,
    outcome: Outcome,
    before: Before,
) -> Result<Option<Event<A>>, AllocError>
    ensures { IfOk result (λ event. option_map rule.plain_event event ≡ rule.event_of before.mover (plain_step step.now) outcome) }
{
    match step {
        Step::Client(client) => client_event(alloc, session, client, outcome),
        Step::Actor(_) => Ok(actor_event(before.mover, outcome)),
        Step::Tune(_) => Ok(None),
    }
}

/// The role of a step: a client's is the event itself, but for an `~evict`, which stands for what the rules would do.
pub fn role_of<A: Allocator>(step: &Step<A>) -> Role
    ensures { result ≡ rule.role_of (plain_step step.now) }
{
    match step {
        Step::Client(client) => match client {
            ClientStep::Keyed { command, .. } => match command {
                KeyCommand::Evict => Role::Actor,
                _ => Role::Event,
            },
            _ => Role::Event,
        },
        Step::Actor(_) | Step::Tune(_) => Role::Actor,
    }
}

// Whether a chunk's item is one that a flush made dead.
fn is_flushed_in<A: Allocator>(store: &Store<A>, chunk: ChunkRef) -> bool
    ensures { result ≡ rule.is_flushed_item store.now (item_at store.now chunk) }
{
    match store.content(chunk) {
        Some(item) => item.cas() <= store.globals().flush_limit,
        None => false,
    }
}

// Whether the key's item is one that a flush made dead.
fn is_flushed<A: Allocator>(store: &Store<A>, key: &Key<A>) -> bool
    ensures { result ≡ rule.is_flushed_of store.now (Some key.now) }
{
    match store.find(key) {
        Some(chunk) => is_flushed_in(store, chunk),
        None => false,
    }
}

// Whether a step that is to be played meets an item that a flush made dead.
fn meets_flushed<A: Allocator>(store: &Store<A>, step: &Step<A>) -> bool
    ensures { result ≡ rule.meets_flushed store.now (plain_step step.now) }
{
    match key_of(step) {
        Some(key) => is_flushed(store, key),
        None => false,
    }
}

/// What is to be known of the cache in front of a step.
pub fn look_before<A: Allocator>(store: &Store<A>, step: &Step<A>) -> Before
    ensures flushed { result.is_flushed ≡ rule.meets_flushed store.now (plain_step step.now) }
    ensures mover { result.mover ≡ store.now.globals.mover }
{
    Before {
        is_flushed: meets_flushed(store, step),
        mover: store.globals().mover,
    }
}
