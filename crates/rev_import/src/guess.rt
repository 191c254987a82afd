//! What a log does not say of an event, guessed by the events behind it: which look-ups are those of a storage command,
//! and which hits were deletes.
ghost use Rattle.std.specs.Prelude.{◌≡◌};
ghost use Rattle.rev_import.specs.Becoming.{is_too_large};

use crate::figures::{Figures, one_more};
use crate::writing::MOST_DATA;
use indexmap::IndexMap;
use rev_items::Key;
use rev_log::held_key::{HeldKey, SoughtKey};
use rev_watch::event::{Event, LogLine, LookUpOutcome, StoreCommand, StoreOutcome};
use std::alloc::{AllocError, Allocator};
use std::collections::VecDeque;
use std::hash::{BuildHasherDefault, FoldHasher};

/// What is guessed of an event that waits.
#[derive(Clone, Copy, Debug, PartialEq, Eq, Default)]
pub struct Guess {
    /// It is the look-up of a storage command or of a deletion.
    pub own: bool,
    /// The key is deleted: by this hit, or before this miss, or since the data of this store are too large.
    pub deletes: bool,
}

// What is known of a key that the server holds. Events go by their numbers, from 0 for the first that was taken.
#[derive(Clone, Copy)]
struct Held {
    // the last look-up that found it since it was stored, and the one before
    last_hit: Option<u64>,
    earlier_hit: Option<u64>,
    // the second at which its lifetime is over
    end: Option<u64>,
}

type Map<K, V, A> = IndexMap<K, V, BuildHasherDefault<FoldHasher>, A>;

/// What is guessed of the events that wait, and what the guesses go by. Memory is taken for the keys that the server
/// holds, its connections and the events that wait.
#[derive(Drop)]
pub struct Guesses<A: Allocator> {
    alloc: A,
    guesses: VecDeque<Guess, A>,
    // the number of the first event that waits
    first: u64,
    keys: Map<HeldKey<A>, Held, A>,
    // the number of the last look-up or store of each connection
    connections: Map<i32, u64, A>,
}

// Whether a storage command is one whose data can't be stored: those of an item that was too large for the server, or
// is for a script.
pub fn is_too_large(outcome: StoreOutcome, size: u32) -> bool
    ensures { result ≡ is_too_large outcome size }
{
    outcome == StoreOutcome::TooLarge || size > MOST_DATA
}

// The second at which the lifetime of an item is over. One of 2^31 or more was over as it came.
fn end_of(now: u32, ttl: u32) -> Option<u64> {
    if ttl == 0 {
        None
    } else if ttl >= 1 << 31 {
        Some(u64::from(now))
    } else {
        Some(u64::from(now) + u64::from(ttl))
    }
}

// Whether the event is a look-up of this key.
fn looks_up<A: Allocator>(event: &Event<A>, key: &Key<A>) -> bool {
    match event {
        Event::LookUp { key: other, .. } => other.bytes() == key.bytes(),
        _ => false,
    }
}

impl<A: Allocator + Copy> Guesses<A> {
    /// No events. No memory is taken.
    pub fn new(alloc: A) -> Guesses<A> {
        Guesses {
            alloc,
            guesses: VecDeque::new(alloc),
            first: 0,
            keys: IndexMap::new(alloc),
            connections: IndexMap::new(alloc),
        }
    }

    /// How many keys the server holds, as far as is known.
    pub fn held(&self) -> u64 {
        self.keys.len() as u64
    }

    /// The guess at the first event that waits, which waits no longer.
    pub fn pop(&mut self) -> Guess {
        self.first = self.first.saturating_add(1);
        self.guesses.pop_front().unwrap_or_default()
    }

    // The place of an event among those that wait.
    fn place(&self, number: u64) -> Option<usize> {
        Some(number.checked_sub(self.first)? as usize)
    }

    // The guess at an event that waits.
    fn guess(&mut self, number: u64) -> Option<&mut Guess> {
        let place = self.place(number)?;
        self.guesses.get_mut(place)
    }

    // Marks the event of this number, where it is a look-up of this key that waits: a command made it. The answer is
    // its number then.
    fn mark_own(
        &mut self,
        key: &Key<A>,
        number: Option<u64>,
        waiting: &VecDeque<LogLine<A>, A>,
        figures: &mut Figures,
    ) -> Option<u64> {
        let place = self.place(number?)?;
        let line = waiting.get(place)?;
        if !looks_up(&line.event, key) {
            return None;
        }
        if let Some(guess) = self.guesses.get_mut(place) {
            guess.own = true;
            one_more(&mut figures.own_look_ups);
        }
        number
    }

    // The look-up of this number was no hit of the key.
    fn take_back(&mut self, key: &Key<A>, number: u64) {
        if let Some(held) = self.keys.get_mut(SoughtKey { key }) {
            if held.last_hit == Some(number) {
                held.last_hit = held.earlier_hit;
            }
        }
    }

    // The key was held and is gone at a look-up: its last hit was a delete, unless its lifetime may be over.
    fn explain(&mut self, held: Held, number: u64, now: u32, figures: &mut Figures) {
        if let Some(end) = held.end {
            if u64::from(now) + 1 >= end {
                return;
            }
        }
        let Some(hit) = held.last_hit else {
            one_more(&mut figures.unexplained);
            return;
        };
        if let Some(guess) = self.guess(hit) {
            guess.deletes = true;
            one_more(&mut figures.deletes_in_place);
        } else if let Some(guess) = self.guess(number) {
            guess.deletes = true;
            one_more(&mut figures.deletes_late);
        }
    }

    fn note_look_up(
        &mut self,
        key: &Key<A>,
        outcome: LookUpOutcome,
        number: u64,
        now: u32,
        figures: &mut Figures,
    ) {
        if outcome == LookUpOutcome::Found {
            if let Some(held) = self.keys.get_mut(SoughtKey { key }) {
                held.earlier_hit = held.last_hit;
                held.last_hit = Some(number);
            }
        } else if let Some(held) = self.keys.swap_remove(SoughtKey { key }) {
            if outcome == LookUpOutcome::NotFound {
                self.explain(held, number, now, figures);
            }
        }
    }

    // The key holds a new item.
    fn hold(&mut self, key: &Key<A>, end: Option<u64>) -> Result<(), AllocError> {
        let held = Held {
            last_hit: None,
            earlier_hit: None,
            end,
        };
        if let Some(old) = self.keys.get_mut(SoughtKey { key }) {
            *old = held;
            return Ok(());
        }
        self.keys.insert(HeldKey::copy_of(self.alloc, key)?, held)?;
        Ok(())
    }

    // The data were too large: a `set` takes the old item away all the same.
    fn note_too_large(&mut self, key: &Key<A>, command: StoreCommand, number: u64, size: u32) {
        let takes = command == StoreCommand::Set || size > MOST_DATA;
        if takes && self.keys.swap_remove(SoughtKey { key }).is_some() {
            if let Some(guess) = self.guess(number) {
                guess.deletes = true;
            }
        }
    }

    /// Takes in an event, which waits behind the others.
    ///
    /// Err: memory was refused.
    pub fn push(
        &mut self,
        line: &LogLine<A>,
        waiting: &VecDeque<LogLine<A>, A>,
        figures: &mut Figures,
    ) -> Result<(), AllocError> {
        let number = self.first.saturating_add(self.guesses.len() as u64);
        self.guesses.push_back(Guess::default())?;
        let now = line.time.seconds;
        match &line.event {
            Event::LookUp {
                key,
                outcome,
                connection,
                ..
            } => {
                self.connections.insert(*connection, number)?;
                self.note_look_up(key, *outcome, number, now, figures);
            }
            Event::Store {
                key,
                command,
                outcome,
                size,
                ..
            } if is_too_large(*outcome, *size) => {
                self.note_too_large(key, *command, number, *size);
            }
            Event::Store {
                key,
                outcome,
                ttl,
                connection,
                ..
            } => {
                let before = self.connections.insert(*connection, number)?;
                let own = self.mark_own(key, before, waiting, figures);
                if *outcome == StoreOutcome::Stored {
                    self.hold(key, end_of(now, *ttl))?;
                } else if let Some(number) = own {
                    self.take_back(key, number);
                }
            }
            Event::Deletion { key, connection } => {
                if let Some(connection) = connection {
                    let before = self.connections.get(connection).copied();
                    self.mark_own(key, before, waiting, figures);
                }
                self.keys.swap_remove(SoughtKey { key });
            }
            Event::Eviction { key, .. } => {
                self.keys.swap_remove(SoughtKey { key });
            }
            Event::ConnectionClosed { connection } => {
                self.connections.swap_remove(connection);
            }
            _ => {}
        }
        Ok(())
    }
}
