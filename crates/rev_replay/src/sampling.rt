//! A sample of a server's keys: which events of its logs are replayed.
//!
//! A server of any size is replayed so. The pages of a sample stay whole, and there are plenty of them, so that the
//! rules by themselves evict nothing, and each eviction comes from the log.
ghost use Rattle.std.specs.Prelude.{◌≡◌};
ghost use Rattle.std.specs.Option.{option_copied};
ghost use Rattle.rev_replay.specs.Sampling as rule;

use rev_choices::Sample;
pub use rev_evidence::sampling::Sampling;
use rev_items::Key;
use rev_watch::event::{Event, StoreOutcome};
use std::alloc::Allocator;

/// Classes are numbered below it.
const CLASSES: usize = 64;

/// A sample has the data of at most so many pages, where it is not asked for (this project's own figure).
const MOST_PAGES: u64 = 2048;

/// At most one key of so many is taken, where that is not asked for (this project's own figure).
const FEWEST: u32 = 1 << 31;

/// What is known of each class in front of an event: whether an eviction of a key of the sample waits for its store,
/// and how many pages moved from the class since one was played.
#[derive(Clone, Copy)]
pub struct Sieve {
    pub waits: [bool; 64],
    pub moves: [u32; 64],
}

/// The sample of a server of so many pages that has the data of at most 2048 pages: one key of 1, of 2, of 4 and so on.
pub fn fitting(pages: u64) -> Sample
    ensures { rule.IsFitting pages result.one_of }
{
    let mut one_of: u32 = 1;
    'double: while one_of < FEWEST && MOST_PAGES < pages / u64::from(one_of) {
        one_of *= 2;
    }
    Sample { one_of }
}

// The key, where it is not in the sample.
fn if_outside<'e, A: Allocator + Copy>(
    sampling: &Sampling<A>,
    key: &'e Key<A>,
) -> Option<&'e Key<A>>
    ensures { option_copied result ≡ rule.if_outside sampling.now key.now }
{
    if sampling.has(key) { None } else { Some(key) }
}

// The key of a storage command, where it is not in the sample.
fn outsider_in<'e, A: Allocator + Copy>(
    sampling: &Sampling<A>,
    event: &'e Event<A>,
) -> Option<&'e Key<A>>
    ensures { option_copied result ≡ rule.outsider sampling.now event.now }
{
    match event {
        Event::Store { key, .. } => if_outside(sampling, key),
        _ => None,
    }
}

// Whether a storage command asked for a chunk of its class.
fn asks_for_chunk(outcome: StoreOutcome) -> bool
    ensures { result ≡ rule.asks_for_chunk outcome }
{
    match outcome {
        StoreOutcome::TooLarge | StoreOutcome::NoMemory => false,
        _ => true,
    }
}

// Whether the next page move is the last of so many, behind so many others.
fn is_last(one_of: u32, count: u32) -> bool
    ensures { result ≡ rule.is_last one_of count }
{
    one_of.saturating_sub(1) <= count
}

// How many page moves there are behind that one since one was played.
fn next_count(one_of: u32, count: u32) -> u32
    ensures { result ≡ rule.next_count one_of count }
{
    if one_of.saturating_sub(1) <= count {
        0
    } else {
        count + 1
    }
}

// Notes this of a class, where there is the class.
fn note<T: Copy>(notes: &mut [T], class: u32, it: T)
    ensures { notes.new ≡ rule.noted notes.old class it }
{
    let class = class as usize;
    if class < notes.len() {
        notes[class] = it;
    }
}

impl Sieve {
    /// Nothing is known.
    pub fn new() -> Sieve
        ensures { result ≡ rule.nothing_noted }
    {
        Sieve {
            waits: [false; CLASSES],
            moves: [0; CLASSES],
        }
    }

    fn waits_in(&self, class: u32) -> bool
        ensures { result ≡ rule.waits_in self.now class }
    {
        match self.waits.get(class as usize) {
            Some(waits) => *waits,
            None => false,
        }
    }

    fn moves_of(&self, class: u32) -> u32
        ensures { result ≡ rule.moves_of self.now class }
    {
        match self.moves.get(class as usize) {
            Some(count) => *count,
            None => 0,
        }
    }

    // Whether evictions of the class wait for this storage command.
    fn ends_waiting(&self, outcome: StoreOutcome, class: u32) -> bool
        ensures { result ≡ rule.ends_waiting self.now outcome class }
    {
        asks_for_chunk(outcome) && self.waits_in(class)
    }

    // A storage command of the class came.
    fn note_store(&mut self, outcome: StoreOutcome, class: u32)
        ensures { self.new ≡ rule.store_noted self.old outcome class }
    {
        if asks_for_chunk(outcome) {
            note(&mut self.waits, class, false);
        }
    }

    // An eviction of the class came, of a key that is in the sample or not.
    fn note_eviction(&mut self, is_sampled: bool, class: u32)
        ensures { self.new ≡ rule.eviction_noted self.old is_sampled class }
    {
        if is_sampled {
            note(&mut self.waits, class, true);
        }
    }

    // A page moved from the class, of which one in so many is played.
    fn note_move(&mut self, one_of: u32, source: u32)
        ensures { self.new ≡ rule.move_noted self.old one_of source }
    {
        let count = next_count(one_of, self.moves_of(source));
        note(&mut self.moves, source, count);
    }

    // Whether an event of a sample's log is taken.
    fn is_taken<A: Allocator + Copy>(&self, sampling: &Sampling<A>, event: &Event<A>) -> bool
        ensures { result ≡ rule.is_taken sampling.now self.now event.now }
    {
        match event {
            Event::LookUp { key, .. } => sampling.has(key),
            Event::Store {
                key,
                outcome,
                class,
                ..
            } => sampling.has(key) || self.ends_waiting(*outcome, *class),
            Event::Deletion { key, .. } => sampling.has(key),
            Event::Eviction { key, .. } => sampling.has(key),
            Event::PageMove { source, .. } => is_last(sampling.one_of(), self.moves_of(*source)),
            _ => true,
        }
    }

    // Notes an event.
    fn note<A: Allocator + Copy>(&mut self, sampling: &Sampling<A>, event: &Event<A>)
        ensures { self.new ≡ rule.behind sampling.now self.old event.now }
    {
        match event {
            Event::Store { outcome, class, .. } => self.note_store(*outcome, *class),
            Event::Eviction { key, class, .. } => self.note_eviction(sampling.has(key), *class),
            Event::PageMove { source, .. } => self.note_move(sampling.one_of(), *source),
            _ => {}
        }
    }

    // The same, and it is noted.
    fn sift<A: Allocator + Copy>(&mut self, sampling: &Sampling<A>, event: &Event<A>) -> bool
        ensures taken { result ≡ rule.is_taken sampling.now self.old event.now }
        ensures behind { self.new ≡ rule.behind sampling.now self.old event.now }
    {
        let taken = self.is_taken(sampling, event);
        self.note(sampling, event);
        taken
    }

    /// Whether an event is taken, of all keys or of a sample. It is noted.
    pub fn takes<A: Allocator + Copy>(
        &mut self,
        sampling: Option<&Sampling<A>>,
        event: &Event<A>,
    ) -> bool
        ensures taken { result ≡ rule.is_asked (option_copied sampling.entry) self.old event.now }
        ensures behind { self.new ≡ rule.asked_behind (option_copied sampling.entry) self.old event.now }
    {
        match sampling {
            None => true,
            Some(sampling) => self.sift(sampling, event),
        }
    }
}

/// The key of a storage command that is taken though it is not in the sample.
pub fn outsider<'e, A: Allocator + Copy>(
    sampling: Option<&Sampling<A>>,
    event: &'e Event<A>,
) -> Option<&'e Key<A>>
    ensures { option_copied result ≡ rule.outsider_of (option_copied sampling.entry) event.now }
{
    match sampling {
        None => None,
        Some(sampling) => outsider_in(sampling, event),
    }
}
