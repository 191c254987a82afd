//! Sessions in one fixed heap: over a store of which no second copy fits it, and at the end of the heap.
ghost use Rattle.rev_model.specs.Sound.{Sound};

use crate::classes::DEFAULTS;
use crate::memory::parts::SMALL;
use crate::memory::pictures::session_picture;
use crate::owned::{is_made, session_over};
use crate::storing::store_of;
use linked_list_allocator::LocalHeap;
use rev_inverse::Store;
use rev_items::Key;
use rev_steps::{ActorStep, Payload, Step, StoreVerb, apply};
use rev_undotree::{NodeId, PlayFault, Session};
use std::alloc::Global;
use std::process::Abort;

// Bytes of a heap that holds the items once, and not twice.
const LARGE: usize = 15900000;

const ITEMS: usize = 400;

// Bytes of an item's data.
const DATA: usize = 20000;

// How many steps are played.
const STEPS: u32 = 2000;

// A set of the key of this number.
fn set_of<'a, R: Abort>(
    rt: &R,
    alloc: Global,
    heap: &'a LocalHeap,
    number: usize,
) -> Step<&'a LocalHeap> {
    let name = format!(in alloc; "k{number}").expect(rt, "no memory");
    let key = Key::new(heap, name.as_bytes()).expect(rt, "no key");
    let mut data = Vec::with_capacity(heap, DATA).expect(rt, "no memory");
    data.resize(DATA, b'x').expect(rt, "no memory");
    let data = Payload::from_vec(data).expect(rt, "no memory");
    store_of(StoreVerb::Set, key, data)
}

// Stores an item under the key of this number. The record of the step is dropped.
fn store_item<'a, R: Abort>(
    rt: &R,
    alloc: Global,
    heap: &'a LocalHeap,
    store: &mut Store<&'a LocalHeap>,
    number: usize,
)
    requires { Sound store.old }
    ensures { Sound store.new }
{
    let step = set_of(rt, alloc, heap, number);
    assert!(rt; is_made(apply(store, &step)), "no memory");
    drop(step);
}

// A store that holds all of the items.
fn filled<'a, R: Abort>(rt: &R, alloc: Global, heap: &'a LocalHeap) -> Store<&'a LocalHeap>
    ensures { Sound result }
{
    let mut store = Store::open(heap, DEFAULTS).expect(rt, "no store");
    for number in 0..ITEMS {
        store_item(rt, alloc, heap, &mut store, number);
    }
    store
}

// Plays a step that takes little memory, and tells why it was refused.
fn refusal<'a>(session: &mut Session<&'a LocalHeap>) -> Option<PlayFault> {
    match session.play(Step::Actor(ActorStep::Clock(1))) {
        Ok(_) => None,
        Err((fault, step)) => {
            drop(step);
            Some(fault)
        }
    }
}

/// Plays so many steps that take little, up to the first that is refused memory, and tells how many were played.
pub fn played<'a, R: Abort>(rt: &R, session: &mut Session<&'a LocalHeap>, most: u32) -> u32 {
    for number in 0..most {
        match refusal(session) {
            None => {}
            Some(PlayFault::Memory) => return number,
            Some(fault) => panic!(rt; "a play was refused: {fault}"),
        }
    }
    most
}

// Whether a way to the root and back to a node turns so many records, each way.
fn is_far<'a>(session: &mut Session<&'a LocalHeap>, node: u32) -> bool {
    session.go(NodeId(0)).ok() == Some(node) && session.go(NodeId(node)).ok() == Some(node)
}

// No node keeps a copy of the store: a second one does not fit what is left.
#[test]
fn heap_2000(rt: HostRuntime) {
    let heap = LocalHeap::new(rt.alloc(), LARGE).expect(&rt, "no memory");
    let store = filled(&rt, rt.alloc(), &heap);
    let left = heap.free();
    let mut session = session_over(&rt, &heap, store);
    let steps = played(&rt, &mut session, STEPS);
    let is_far = is_far(&mut session, STEPS);
    drop(session);
    assert!(rt;
        left < ITEMS * DATA,
        "{left} bytes are left for a second copy"
    );
    assert!(rt; steps == STEPS && is_far, "{steps} steps");
    assert!(rt; heap.free() == LARGE, "memory is kept");
}

// Bytes of a heap that is used up after some steps.
const FEW: usize = 65536;

// More steps than it has memory for.
const MANY: u32 = 100000;

// At the end of its heap a session refuses each play, tells what it told before, and moves through its tree all the
// same.
#[test]
fn end_of_heap(rt: HostRuntime) {
    let heap = LocalHeap::new(rt.alloc(), FEW).expect(&rt, "no memory");
    let store = Store::open(&heap, SMALL).expect(&rt, "no store");
    let mut session = session_over(&rt, &heap, store);
    let steps = played(&rt, &mut session, MANY);
    let before = session_picture(&rt, rt.alloc(), &session);
    let again = refusal(&mut session);
    let is_far = is_far(&mut session, steps);
    let after = session_picture(&rt, rt.alloc(), &session);
    drop(session);
    assert!(rt;
        0 < steps && steps < MANY && again == Some(PlayFault::Memory) && is_far,
        "{steps} steps"
    );
    assert!(rt;
        before.is_same(&after) && heap.free() == FEW,
        "{steps} steps"
    );
}
