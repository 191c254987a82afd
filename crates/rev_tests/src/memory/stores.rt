//! A store that is opened, and steps that are applied to one.
ghost use Rattle.rev_model.specs.Sound.{Sound};

use crate::memory::heap::{Trial, fill, refuse_in_turn};
use crate::memory::parts::SMALL;
use crate::memory::pictures::picture_of;
use crate::memory::steps::{Command, step_of};
use crate::owned::is_made;
use linked_list_allocator::LocalHeap;
use rev_classes::{Config, ConfigFault};
use rev_inverse::{Record, Store};
use rev_model::{ClassSet, Queue};
use rev_steps::{ActorStep, Arithmetic, JoinSide, KeyCommand, Step, StoreVerb, apply};
use std::alloc::{Allocator, Global};
use std::process::Abort;

// A store that is opened.
#[derive(Clone, Copy)]
struct Opening;

impl Trial for Opening {
    fn attempt<R: Abort>(&self, rt: &R, alloc: Global, heap: &LocalHeap, left: usize) -> bool {
        let _ballast = fill(rt, alloc, heap, left);
        match Store::open(heap, SMALL) {
            Ok(store) => {
                drop(store);
                true
            }
            Err(fault) => {
                assert!(rt;
                    fault == ConfigFault::Memory && heap.free() == left,
                    "{left} bytes left"
                );
                false
            }
        }
    }
}

#[test]
fn opens(rt: HostRuntime) {
    refuse_in_turn(&rt, rt.alloc(), "a store", &Opening);
}

// Room that is made for a step: in a record, or for a page of the store.
#[derive(Clone, Copy)]
enum Room {
    Record,
    Page,
}

// Whether there was memory for the room.
fn has_room<'a>(heap: &'a LocalHeap, store: &Store<&'a LocalHeap>, room: Room) -> bool {
    match room {
        Room::Record => is_made(Record::with_room(heap, 64)),
        Room::Page => store.table().last() >= 1 && is_made(store.parts(1)),
    }
}

impl Trial for Room {
    fn attempt<R: Abort>(&self, rt: &R, alloc: Global, heap: &LocalHeap, left: usize) -> bool {
        let store = Store::open(heap, SMALL).expect(rt, "no store");
        let ballast = fill(rt, alloc, heap, left);
        let has_room = has_room(heap, &store, *self);
        assert!(rt; heap.free() == left);
        drop(ballast);
        drop(store);
        has_room
    }
}

#[test]
fn rooms(rt: HostRuntime) {
    for room in &[Room::Page, Room::Record] {
        refuse_in_turn(&rt, rt.alloc(), "room", room);
    }
}

// A key that takes memory of its own.
const LONG_KEY: &str = "a-key-that-takes-memory-of-its-own";

const SET: Command = Command::Set("a", 1);

// Each takes a page.
const LARGE_A: Command = Command::Set("a", 964);

const LARGE_B: Command = Command::Set("b", 964);

const GET: Command = Command::Keyed(KeyCommand::Get, "a");

const PULL: Command = Command::Actor(ActorStep::Pull {
    class: 1,
    queue: Queue::Hot,
});

const START_CRAWL: Command = Command::Actor(ActorStep::StartCrawl(ClassSet::All));

const REASSIGN: Command = Command::Actor(ActorStep::Reassign {
    source: 11,
    target: 1,
});

const ADVANCE: Command = Command::Actor(ActorStep::Advance);

// One item, of the least data and of three digits.
const ONE: &[Command] = &[SET];

const ONE_OF_3: &[Command] = &[Command::Set("a", 3)];

// A step that is tried: its name, how many pages the store has, which commands go before it, and its own.
#[derive(Clone, Copy)]
struct Case(&'static str, u32, &'static [Command], Command);

static CASES: [Case; 31] = [
    Case("a set that makes a page", 1, &[], SET),
    Case(
        "a set with a long key",
        1,
        &[Command::Set(LONG_KEY, 1)],
        Command::Set(LONG_KEY, 2),
    ),
    Case(
        "a set that takes a free chunk",
        1,
        ONE,
        Command::Set("b", 1),
    ),
    Case(
        "a set that replaces an item of its class",
        1,
        ONE,
        Command::Set("a", 2),
    ),
    Case(
        "a set that replaces an item of another class, and makes a page",
        1,
        ONE,
        Command::Set("a", 500),
    ),
    Case(
        "a set for which an item is evicted",
        1,
        &[Command::Set("a", 964)],
        Command::Set("b", 964),
    ),
    Case("a set that is too large", 1, ONE, Command::Set("a", 2000)),
    Case("an add", 1, &[], Command::Store(StoreVerb::Add, "a", 1)),
    Case(
        "a replace",
        1,
        ONE,
        Command::Store(StoreVerb::Replace, "a", 2),
    ),
    Case("a cas", 1, ONE, Command::Store(StoreVerb::Cas(1), "a", 2)),
    Case(
        "a cas of another number, which makes a page",
        1,
        ONE,
        Command::Store(StoreVerb::Cas(7), "a", 500),
    ),
    Case(
        "an append that needs a larger chunk",
        1,
        &[Command::Set("a", 100)],
        Command::Join(JoinSide::Append, "a", 200),
    ),
    Case(
        "a prepend for which its own item is evicted",
        1,
        &[Command::Set("a", 960)],
        Command::Join(JoinSide::Prepend, "a", 4),
    ),
    Case(
        "an incr",
        1,
        ONE_OF_3,
        Command::Keyed(KeyCommand::Count(Arithmetic::Increment(9)), "a"),
    ),
    Case(
        "a decr",
        1,
        ONE_OF_3,
        Command::Keyed(KeyCommand::Count(Arithmetic::Decrement(9)), "a"),
    ),
    Case("a get", 1, ONE, GET),
    Case(
        "a touch",
        1,
        ONE,
        Command::Keyed(KeyCommand::Touch(100), "a"),
    ),
    Case(
        "a delete",
        1,
        &[Command::Set("b", 1), SET],
        Command::Keyed(KeyCommand::Delete, "a"),
    ),
    Case(
        "an eviction by name",
        1,
        &[Command::Set("b", 1), SET],
        Command::Keyed(KeyCommand::Evict, "a"),
    ),
    Case("a flush", 1, ONE, Command::FlushAll),
    Case("a pull", 1, &[SET, Command::Set("b", 1)], PULL),
    Case(
        "a bump",
        1,
        &[SET, PULL, GET, GET],
        Command::Actor(ActorStep::Bump),
    ),
    Case("a crawl's start", 1, ONE, START_CRAWL),
    Case(
        "a crawl",
        1,
        &[SET, START_CRAWL],
        Command::Actor(ActorStep::Crawl {
            class: 1,
            queue: Queue::Hot,
        }),
    ),
    Case("a page move's start", 2, &[LARGE_A, LARGE_B], REASSIGN),
    Case(
        "an advance that rescues an item",
        2,
        &[
            Command::Set("a", 150),
            Command::Set("b", 150),
            Command::Set("c", 150),
            Command::Set("d", 150),
            Command::Set("e", 150),
            Command::Actor(ActorStep::Reassign {
                source: 5,
                target: 1,
            }),
        ],
        ADVANCE,
    ),
    Case(
        "an advance that evicts an item",
        2,
        &[LARGE_A, LARGE_B, REASSIGN],
        ADVANCE,
    ),
    Case(
        "the last advance, which lays the page",
        2,
        &[LARGE_A, LARGE_B, REASSIGN, ADVANCE],
        ADVANCE,
    ),
    Case("a clock", 1, &[], Command::Actor(ActorStep::Clock(5))),
    Case("a tune", 1, &[], Command::Tune),
    Case("a temp_ttl", 1, &[], Command::Actor(ActorStep::TempTtl(60))),
];

// Applies a step, and tells whether there was memory for it.
fn has_applied<A: Allocator + Clone>(store: &mut Store<A>, step: &Step<A>) -> bool
    requires { Sound store.old }
    ensures { Sound store.new }
{
    is_made(apply(store, step))
}

// Applies a command's step with so many bytes left, and tells whether there was memory for it.
fn try_apply<'a, R: Abort>(
    rt: &R,
    alloc: Global,
    heap: &'a LocalHeap,
    store: &mut Store<&'a LocalHeap>,
    command: Command,
    left: usize,
) -> bool
    requires { Sound store.old }
    ensures { Sound store.new }
{
    let step = step_of(rt, heap, command);
    let _ballast = fill(rt, alloc, heap, left);
    has_applied(store, &step)
}

// Applies a command's step, for which there is memory.
fn apply_command<'a, R: Abort>(
    rt: &R,
    heap: &'a LocalHeap,
    store: &mut Store<&'a LocalHeap>,
    command: Command,
)
    requires { Sound store.old }
    ensures { Sound store.new }
{
    let step = step_of(rt, heap, command);
    assert!(rt; has_applied(store, &step), "no memory");
    drop(step);
}

// A store to which these commands were applied.
fn store_after<'a, R: Abort>(
    rt: &R,
    heap: &'a LocalHeap,
    pages: u32,
    commands: &[Command],
) -> Store<&'a LocalHeap>
    ensures { Sound result }
{
    let config = Config { pages, ..SMALL };
    let mut store = Store::open(heap, config).expect(rt, "no store");
    for command in commands {
        apply_command(rt, heap, &mut store, *command);
    }
    store
}

impl Trial for Case {
    // A store that was refused memory tells what it told before.
    fn attempt<R: Abort>(&self, rt: &R, alloc: Global, heap: &LocalHeap, left: usize) -> bool {
        let Case(name, pages, before, command) = *self;
        let mut store = store_after(rt, heap, pages, before);
        let earlier = picture_of(rt, alloc, &store);
        let free = heap.free();
        let is_done = try_apply(rt, alloc, heap, &mut store, command, left);
        let is_given_back = is_done || heap.free() == free;
        let after = picture_of(rt, alloc, &store);
        drop(store);
        assert!(rt;
            is_given_back && earlier.is_same(&after) != is_done,
            "{name}: {left} bytes left"
        );
        is_done
    }
}

#[test]
fn applies(rt: HostRuntime) {
    for case in &CASES {
        refuse_in_turn(&rt, rt.alloc(), case.0, case);
    }
}

// Whether a copy of the step is the same, none where there was no memory for it.
fn is_copy_same<'a>(heap: &'a LocalHeap, step: &Step<&'a LocalHeap>) -> Option<bool> {
    match step.copy(heap) {
        Ok(copy) => {
            let is_same = step.is_same(&copy);
            drop(copy);
            Some(is_same)
        }
        Err(_) => None,
    }
}

// A copy of a command's step.
#[derive(Clone, Copy)]
struct Copied(Command);

impl Trial for Copied {
    fn attempt<R: Abort>(&self, rt: &R, alloc: Global, heap: &LocalHeap, left: usize) -> bool {
        let step = step_of(rt, heap, self.0);
        let _ballast = fill(rt, alloc, heap, left);
        let is_same = is_copy_same(heap, &step);
        assert!(rt;
            is_same != Some(false) && heap.free() == left,
            "{left} bytes left"
        );
        is_same.is_some()
    }
}

#[test]
fn copies(rt: HostRuntime) {
    for copied in &[
        Copied(Command::Store(StoreVerb::Set, LONG_KEY, 100)),
        Copied(Command::Join(JoinSide::Append, LONG_KEY, 100)),
        Copied(Command::Keyed(KeyCommand::Get, LONG_KEY)),
    ] {
        refuse_in_turn(&rt, rt.alloc(), "a copy", copied);
    }
}
