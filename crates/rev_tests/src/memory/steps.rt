//! Steps for the tests.
use crate::storing::store_of;
use rev_items::Key;
use rev_steps::{ActorStep, ClientStep, JoinSide, KeyCommand, Payload, Step, StoreVerb, Tune};
use std::alloc::Allocator;
use std::process::Abort;

/// A step of the tests, by its key's name and how many digits `1` its data are.
#[derive(Clone, Copy)]
pub enum Command {
    Set(&'static str, usize),
    Store(StoreVerb, &'static str, usize),
    Join(JoinSide, &'static str, usize),
    Keyed(KeyCommand, &'static str),
    FlushAll,
    Actor(ActorStep),
    Tune,
}

fn data_of<R: Abort, A: Allocator + Clone>(rt: &R, alloc: A, digits: usize) -> Payload<A> {
    let mut data = Vec::with_capacity(alloc, digits).expect(rt, "no memory");
    for _ in 0..digits {
        data.push(b'1').expect(rt, "no memory");
    }
    Payload::from_vec(data).expect(rt, "no memory")
}

fn key_of<R: Abort, A: Allocator>(rt: &R, alloc: A, name: &str) -> Key<A> {
    Key::new(alloc, name.as_bytes()).expect(rt, "no key")
}

// The key of this name and so many digits, for a step.
fn key_and_data<R: Abort, A: Allocator + Clone>(
    rt: &R,
    alloc: A,
    name: &str,
    digits: usize,
) -> (Key<A>, Payload<A>) {
    let key = key_of(rt, alloc.clone().expect(rt, "no memory"), name);
    (key, data_of(rt, alloc, digits))
}

fn numbered_name<R: Abort, A: Allocator>(rt: &R, alloc: A, number: usize) -> String<A> {
    format!(in alloc; "key-{number:>05}").expect(rt, "no memory")
}

/// A set of the key of this number.
pub fn set_of<R: Abort, A: Allocator + Clone>(rt: &R, alloc: A, number: usize) -> Step<A> {
    let name = numbered_name(rt, alloc.clone().expect(rt, "no memory"), number);
    let (key, data) = key_and_data(rt, alloc, name.as_str(), 1);
    store_of(StoreVerb::Set, key, data)
}

/// The key of this number.
pub fn numbered_key<R: Abort, A: Allocator + Clone>(rt: &R, alloc: A, number: usize) -> Key<A> {
    let name = numbered_name(rt, alloc.clone().expect(rt, "no memory"), number);
    key_of(rt, alloc, name.as_str())
}

/// A delete of the key of this number.
pub fn delete_of<R: Abort, A: Allocator + Clone>(rt: &R, alloc: A, number: usize) -> Step<A> {
    let name = numbered_name(rt, alloc.clone().expect(rt, "no memory"), number);
    Step::Client(ClientStep::Keyed {
        command: KeyCommand::Delete,
        key: key_of(rt, alloc, name.as_str()),
    })
}

/// The step of a command.
pub fn step_of<R: Abort, A: Allocator + Clone>(rt: &R, alloc: A, command: Command) -> Step<A> {
    match command {
        Command::Set(name, digits) => {
            let (key, data) = key_and_data(rt, alloc, name, digits);
            store_of(StoreVerb::Set, key, data)
        }
        Command::Store(verb, name, digits) => {
            let (key, data) = key_and_data(rt, alloc, name, digits);
            store_of(verb, key, data)
        }
        Command::Join(side, name, digits) => {
            let (key, data) = key_and_data(rt, alloc, name, digits);
            Step::Client(ClientStep::Join { side, key, data })
        }
        Command::Keyed(command, name) => Step::Client(ClientStep::Keyed {
            command,
            key: key_of(rt, alloc, name),
        }),
        Command::FlushAll => Step::Client(ClientStep::FlushAll { delay: 10 }),
        Command::Actor(step) => Step::Actor(step),
        Command::Tune => Step::Tune(Tune::new(20, 30, 200, 2000).expect(rt, "no tune")),
    }
}
