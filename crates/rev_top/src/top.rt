//! What a log says, counted by prefix or by slab class as its events are heard.
use crate::births::Births;
use crate::evicted::Evicted;
use crate::facts::{Fact, class_of, fact_of};
use crate::lifetimes::Lifetimes;
use crate::table::Table;
use rev_evidence::heard::key_in;
use rev_items::Key;
use rev_pushers::pushed::prefix_of;
use rev_pushers::times::between;
use rev_replay::fault::ReplayFault;
use rev_replay::heard::{Heard, Listener};
use rev_replay::sampling::Sampling;
use rev_watch::event::{Event, Timestamp};
use std::alloc::{AllocError, Allocator};

/// By what it is summed.
#[derive(Clone, Copy, PartialEq, Eq)]
pub enum By {
    /// A key's bytes up to the first one that ends a prefix, which is this byte.
    Prefix(u8),
    /// The slab class.
    Class,
}

/// What is asked for.
#[derive(Clone, Copy)]
pub struct Asked {
    pub by: By,
    /// So many names are told.
    pub most: usize,
    /// The first and the last second of the events that are counted.
    pub first: u32,
    pub last: u32,
    /// Which life of the server is asked for, from 1; none for all.
    pub life: Option<u64>,
    /// Whether it is told as JSON.
    pub json: bool,
}

/// What was counted of a log.
#[derive(Drop)]
pub struct Top<'a, A: Allocator> {
    asked: Asked,
    // the sample whose keys are counted, where not all are
    sampling: Option<&'a Sampling<A>>,
    pub(crate) table: Table<A>,
    pub(crate) lifetimes: Lifetimes<A>,
    births: Births<A>,
    evicted: Evicted<A>,
    // which life of the server, from 1
    life: u64,
}

// The name under which an event of a key and a class is counted: a class's number is the name's only byte.
fn name_of<'a>(key: &'a [u8], class: &'a [u8], by: By) -> &'a [u8] {
    match by {
        By::Prefix(end) => prefix_of(key, end),
        By::Class => class,
    }
}

impl<'a, A: Allocator + Copy> Top<'a, A> {
    /// Nothing was heard. Keys of this sample are counted, all where there is none.
    pub fn new(alloc: A, asked: Asked, sampling: Option<&'a Sampling<A>>) -> Top<'a, A> {
        Top {
            asked,
            sampling,
            table: Table::new(alloc),
            lifetimes: Lifetimes::new(alloc),
            births: Births::new(alloc),
            evicted: Evicted::new(alloc),
            life: 1,
        }
    }

    // Whether events of this time are counted.
    fn counts(&self, time: Timestamp) -> bool {
        let is_life = match self.asked.life {
            Some(life) => life == self.life,
            None => true,
        };
        is_life && self.asked.first <= time.seconds && time.seconds <= self.asked.last
    }

    // Counts a fact of a key and a class, where it is of a time that is asked for.
    fn note(
        &mut self,
        key: &[u8],
        class: u32,
        fact: Fact,
        time: Timestamp,
    ) -> Result<(), AllocError> {
        if self.counts(time) {
            let class = [class.min(255) as u8];
            self.table.note(name_of(key, &class, self.asked.by), fact)
        } else {
            Ok(())
        }
    }

    // An item was evicted: how long it had lived, where that is known.
    fn note_lived(&mut self, key: &Key<A>, class: u32, time: Timestamp) -> Result<(), AllocError> {
        match self.births.take(key) {
            Some(stored) if self.counts(time) => {
                let class = [class.min(255) as u8];
                self.lifetimes.note(
                    name_of(key.bytes(), &class, self.asked.by),
                    between(stored, time),
                )
            }
            _ => Ok(()),
        }
    }

    // Follows what an event says of a key.
    fn follow(
        &mut self,
        key: &Key<A>,
        class: u32,
        fact: Fact,
        heard: &Heard<'_, A>,
    ) -> Result<(), AllocError> {
        match fact {
            Fact::Stored(_) => {
                let _ = self.evicted.forget(key.bytes());
                self.births.stored(key, heard.time, heard.session.store())
            }
            Fact::Missed => match self.evicted.forget(key.bytes()) {
                Some(class) => self.note(key.bytes(), class, Fact::AskedAgain, heard.time),
                None => Ok(()),
            },
            Fact::Evicted => {
                self.evicted.evict(key.bytes(), class)?;
                self.note_lived(key, class, heard.time)
            }
            _ => Ok(()),
        }
    }

    // Whether a key is counted. A store that evicts a key of a sample is heard, though it may be of another one.
    fn has(&self, key: &Key<A>) -> bool {
        match self.sampling {
            Some(sampling) => sampling.has(key),
            None => true,
        }
    }

    // Takes in an event.
    fn take(&mut self, event: &Event<A>, heard: &Heard<'_, A>) -> Result<(), AllocError> {
        match (key_in(event), fact_of(event, heard.own)) {
            (Some(key), Some(fact)) if self.has(key) => {
                let class = class_of(event);
                self.note(key.bytes(), class, fact, heard.time)?;
                self.follow(key, class, fact, heard)
            }
            _ => Ok(()),
        }
    }
}

impl<A: Allocator + Copy> Listener<A> for Top<'_, A> {
    fn heard(&mut self, heard: &Heard<'_, A>) -> Result<(), ReplayFault> {
        match heard.event {
            Some(event) => self.take(event, heard)?,
            None => {}
        }
        Ok(())
    }

    fn restarted(&mut self, _at: Timestamp, _steps: u64) -> Result<(), ReplayFault> {
        self.life = self.life.saturating_add(1);
        self.births.clear();
        self.evicted.clear();
        Ok(())
    }
}
