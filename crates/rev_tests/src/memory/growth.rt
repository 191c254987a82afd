//! More buckets for an index: refused and put off, or granted, so that the step behind them is refused. Whether there
//! are more is told by what the heap has left beside the keys.

use crate::memory::heap::fill;
use crate::memory::parts::SMALL;
use crate::memory::steps::{delete_of, numbered_key, set_of};
use crate::owned::is_made;
use linked_list_allocator::LocalHeap;
use rev_classes::Config;
use rev_inverse::Store;
use rev_steps::{ActorStep, Step, apply};
use std::alloc::Global;
use std::marker::Model;
use std::process::Abort;

// Room for some 160 keys and what their table takes.
const BYTES: usize = 131072;

// The fewest keys that are too many for 16 buckets.
const CROWD: usize = 33;

// What is taken where 64 buckets of 16 bytes each are in the place of 16, which are kept, and where 256 are.
const FOUR_TIMES: usize = 1024;

const SIXTEEN_TIMES: usize = 4096;

// A store with the keys of the numbers below `keys`.
#[derive(Drop)]
struct Cache<'a> {
    heap: &'a LocalHeap,
    store: Store<&'a LocalHeap>,
    keys: usize,
    bytes_of_a_key: usize,
}

impl<'a> Model for Cache<'a> {
    ghost use Rattle.std.specs.Coded.{codes};
    ghost use Rattle.rev_model.specs.Codes.{coded_contents, coded_keys};
    ghost use Rattle.rev_model.specs.Sound.{Sound};
    ghost use Rattle.rev_model.specs.State.{State};

    ghost Value = { State };

    ghost coded = { Prim.hlevel (codes, coded_contents, coded_keys) };

    ghost view = { λ c. c.store };

    ghost invariant = { λ c. Sound c.store };
}

impl<'a> Cache<'a> {
    fn new<R: Abort>(rt: &R, heap: &'a LocalHeap) -> Cache<'a> {
        // one page takes all keys, and 16 buckets hold 32 of them before there are more
        let config = Config {
            page_size: 16384,
            ..SMALL
        };
        let store = Store::open(heap, config).expect(rt, "no store");
        let mut cache = Cache {
            heap,
            store,
            keys: 0,
            bytes_of_a_key: 0,
        };
        // the first key brings the page
        cache.add(rt);
        let free = heap.free();
        cache.add(rt);
        cache.bytes_of_a_key = free.wrapping_sub(heap.free());
        cache.add_up_to(rt, CROWD);
        cache
    }

    // Whether there was memory for the step.
    fn has_applied(&mut self, step: &Step<&'a LocalHeap>) -> bool {
        is_made(apply(&mut self.store, step))
    }

    fn add<R: Abort>(&mut self, rt: &R) {
        let step = set_of(rt, self.heap, self.keys);
        assert!(rt; self.has_applied(&step), "no memory");
        drop(step);
        self.keys = self.keys.wrapping_add(1);
    }

    fn remove<R: Abort>(&mut self, rt: &R) {
        self.keys = self.keys.wrapping_sub(1);
        let step = delete_of(rt, self.heap, self.keys);
        assert!(rt; self.has_applied(&step), "no memory");
        drop(step);
    }

    fn add_up_to<R: Abort>(&mut self, rt: &R, keys: usize) {
        for _ in self.keys..keys {
            self.add(rt);
        }
    }

    fn remove_down_to<R: Abort>(&mut self, rt: &R, keys: usize) {
        for _ in keys..self.keys {
            self.remove(rt);
        }
    }

    // A step that changes nothing and wants no memory of its own, with so many bytes left.
    fn idle_with<R: Abort>(&mut self, rt: &R, alloc: Global, left: usize) {
        let ballast = fill(rt, alloc, self.heap, left);
        self.idle(rt);
        drop(ballast);
    }

    fn idle<R: Abort>(&mut self, rt: &R) {
        let step = Step::Actor(ActorStep::Clock(0));
        assert!(rt; self.has_applied(&step), "an idle step wants memory");
        drop(step);
    }

    // Whether the next key is set with so many bytes left.
    fn is_set_with<R: Abort>(&mut self, rt: &R, alloc: Global, left: usize) -> bool {
        let step = set_of(rt, self.heap, self.keys);
        let ballast = fill(rt, alloc, self.heap, left);
        let is_set = self.has_applied(&step);
        drop(ballast);
        drop(step);
        is_set
    }

    // Whether each key leads to an item.
    fn holds_all<R: Abort>(&self, rt: &R) -> bool {
        for number in 0..self.keys {
            let key = numbered_key(rt, self.heap, number);
            if self.store.item(&key).is_none() {
                return false;
            }
        }
        true
    }

    // What the heap has left beside the keys: less by what more buckets took, and else the same.
    fn spare(&self) -> usize {
        let keys = self.keys.wrapping_mul(self.bytes_of_a_key);
        self.heap.free().wrapping_add(keys)
    }

    // What more buckets took since there was so much beside the keys.
    fn taken_since(&self, spare: usize) -> usize {
        spare.wrapping_sub(self.spare())
    }
}

// What an idle step takes of a store of too many keys, with so many bytes left.
fn taken_with<R: Abort>(rt: &R, alloc: Global, left: usize) -> usize {
    let heap = LocalHeap::new(alloc, BYTES).expect(rt, "no memory");
    let mut cache = Cache::new(rt, &heap);
    let spare = cache.spare();
    cache.idle_with(rt, alloc, left);
    let taken = cache.taken_since(spare);
    drop(cache);
    taken
}

// Nothing, all but the last bytes, and all.
#[test]
fn refused_in_turn(rt: HostRuntime) {
    for left in [0, FOUR_TIMES - 16] {
        assert!(rt; taken_with(&rt, rt.alloc(), left) == 0, "{left} bytes left");
    }
    assert!(rt; taken_with(&rt, rt.alloc(), FOUR_TIMES) == FOUR_TIMES);
}

// A growth takes what the step behind it wants, which is refused and played once there is memory.
fn step_behind_growth<R: Abort>(rt: &R, alloc: Global, heap: &LocalHeap) {
    let mut cache = Cache::new(rt, heap);
    let spare = cache.spare();
    let is_set = cache.is_set_with(rt, alloc, FOUR_TIMES);
    assert!(rt; !is_set && cache.taken_since(spare) == FOUR_TIMES);
    cache.add(rt);
    assert!(rt; cache.taken_since(spare) == FOUR_TIMES);
    drop(cache);
}

#[test]
fn step_behind_growth_is_refused(rt: HostRuntime) {
    let heap = LocalHeap::new(rt.alloc(), BYTES).expect(&rt, "no memory");
    step_behind_growth(&rt, rt.alloc(), &heap);
}

// Buckets that grew go back, and come again with an eighth more keys. No key is lost.
fn narrowed<R: Abort>(rt: &R, heap: &LocalHeap) {
    let mut cache = Cache::new(rt, heap);
    let spare = cache.spare();
    assert!(rt;
        !cache.store.narrow() && cache.taken_since(spare) == 0,
        "none have grown"
    );
    cache.idle(rt);
    assert!(rt; cache.taken_since(spare) == FOUR_TIMES && cache.holds_all(rt));
    assert!(rt; cache.store.narrow() && cache.taken_since(spare) == 0 && cache.holds_all(rt));
    assert!(rt; !cache.store.narrow(), "they went back before");
    cache.add_up_to(rt, 37);
    cache.idle(rt);
    assert!(rt; cache.taken_since(spare) == 0, "asked too soon");
    cache.add(rt);
    cache.idle(rt);
    assert!(rt;
        cache.taken_since(spare) == FOUR_TIMES && cache.holds_all(rt),
        "not asked again"
    );
    assert!(rt; cache.store.narrow() && cache.taken_since(spare) == 0 && cache.holds_all(rt));
    drop(cache);
}

#[test]
fn grown_buckets_go_back(rt: HostRuntime) {
    let heap = LocalHeap::new(rt.alloc(), BYTES).expect(&rt, "no memory");
    narrowed(&rt, &heap);
}

// Keys from 29 to 37 are within an eighth of 33. Each of them comes and goes with memory for more buckets there.
fn stay_within_an_eighth<R: Abort>(rt: &R, cache: &mut Cache<'_>) {
    for _ in 0..3 {
        cache.add_up_to(rt, 37);
        cache.idle(rt);
        cache.remove_down_to(rt, 29);
        cache.idle(rt);
    }
}

// More buckets, which take so much, come at the next step, and did not come before.
fn ask_now<R: Abort>(rt: &R, cache: &mut Cache<'_>, spare: usize, taken: usize) {
    assert!(rt; cache.taken_since(spare) == 0, "asked too soon");
    cache.idle(rt);
    assert!(rt; cache.taken_since(spare) == taken, "not asked again");
}

fn asked_again_with_more_keys<R: Abort>(rt: &R, alloc: Global, heap: &LocalHeap) {
    let mut cache = Cache::new(rt, heap);
    let spare = cache.spare();
    cache.idle_with(rt, alloc, 0);
    for _ in 0..1000 {
        cache.idle(rt);
    }
    stay_within_an_eighth(rt, &mut cache);
    cache.add_up_to(rt, 38);
    ask_now(rt, &mut cache, spare, FOUR_TIMES);
    drop(cache);
}

#[test]
fn refusal_is_asked_again_with_an_eighth_more(rt: HostRuntime) {
    let heap = LocalHeap::new(rt.alloc(), BYTES).expect(&rt, "no memory");
    asked_again_with_more_keys(&rt, rt.alloc(), &heap);
}

fn asked_again_after_fewer_keys<R: Abort>(rt: &R, alloc: Global, heap: &LocalHeap) {
    let mut cache = Cache::new(rt, heap);
    let spare = cache.spare();
    cache.idle_with(rt, alloc, 0);
    cache.remove_down_to(rt, 28);
    cache.idle(rt);
    cache.add_up_to(rt, CROWD);
    ask_now(rt, &mut cache, spare, FOUR_TIMES);
    drop(cache);
}

#[test]
fn refusal_is_asked_again_where_keys_went(rt: HostRuntime) {
    let heap = LocalHeap::new(rt.alloc(), BYTES).expect(&rt, "no memory");
    asked_again_after_fewer_keys(&rt, rt.alloc(), &heap);
}

// Refused at each number of keys up to 136, where 256 buckets are wanted. Those come at one step, and then no more.
fn put_off<R: Abort>(rt: &R, alloc: Global, heap: &LocalHeap) {
    let mut cache = Cache::new(rt, heap);
    let spare = cache.spare();
    for _ in CROWD..136 {
        cache.idle_with(rt, alloc, 0);
        cache.add(rt);
    }
    ask_now(rt, &mut cache, spare, SIXTEEN_TIMES);
    cache.remove_down_to(rt, 0);
    cache.add_up_to(rt, 136);
    cache.idle(rt);
    assert!(rt; cache.taken_since(spare) == SIXTEEN_TIMES);
    drop(cache);
}

#[test]
fn growth_that_was_put_off_comes_at_once(rt: HostRuntime) {
    let heap = LocalHeap::new(rt.alloc(), BYTES).expect(&rt, "no memory");
    put_off(&rt, rt.alloc(), &heap);
}
