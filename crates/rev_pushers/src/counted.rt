//! What is counted of each slab class, for the keys that are asked for: what was stored into it, how long what it
//! evicted had lived, and its pages that came and went.
//!
//! The counts are in no contract: they are tested.
use crate::ages::Ages;
use crate::pushed::{ConnectionShare, PrefixShare, PushedBy, prefix_of};
use crate::pushes::{Pushes, Start};
use crate::stored::Stored;
use rev_inverse::Store;
use rev_items::Key;
use rev_watch::event::{Event, StoreOutcome, Timestamp};
use std::alloc::{AllocError, Allocator};

/// Classes are numbered below it.
const CLASSES: usize = 64;

// What is counted of a class.
#[derive(Drop)]
struct Class<A: Allocator> {
    prefixes: Pushes<A>,
    connections: Pushes<A>,
    ages: Ages<A>,
    gained: u64,
    lost: u64,
}

/// What is counted of each class.
#[derive(Drop)]
pub struct Classes<A: Allocator> {
    alloc: A,
    // the byte that ends a prefix
    prefix_end: u8,
    classes: Vec<Class<A>, A>,
}

/// What was counted of a class when a life began.
#[derive(Drop)]
pub struct ClassStart<A: Allocator> {
    class: usize,
    prefixes: Start<A>,
    connections: Start<A>,
    gained: u64,
    lost: u64,
}

// The connection that a name stands for.
fn connection_of(name: &[u8]) -> Option<i32> {
    match name {
        [a, b, c, d] => Some(i32::from_be_bytes([*a, *b, *c, *d])),
        _ => None,
    }
}

// The shares of connections, by their names.
fn connections_of<A: Allocator + Copy>(
    alloc: A,
    shares: &[PrefixShare<A>],
) -> Result<Vec<ConnectionShare, A>, AllocError> {
    let mut connections = Vec::with_capacity(alloc, shares.len())?;
    for share in shares {
        connections.push(ConnectionShare {
            connection: connection_of(share.prefix.as_slice()),
            amount: share.amount,
        })?;
    }
    Ok(connections)
}

impl<A: Allocator + Copy> Class<A> {
    fn new(alloc: A) -> Class<A> {
        Class {
            prefixes: Pushes::new(alloc),
            connections: Pushes::new(alloc),
            ages: Ages::new(alloc),
            gained: 0,
            lost: 0,
        }
    }

    // A connection stored an item of so many bytes under a key with this prefix.
    fn count(&mut self, prefix: &[u8], connection: i32, size: u32) -> Result<(), AllocError> {
        self.prefixes.count(prefix, size)?;
        self.connections.count(&connection.to_be_bytes(), size)
    }

    // What was counted up to now.
    fn start(&self, class: usize) -> Result<ClassStart<A>, AllocError> {
        Ok(ClassStart {
            class,
            gained: self.gained,
            lost: self.lost,
            prefixes: self.prefixes.start()?,
            connections: self.connections.start()?,
        })
    }

    // What was counted since a life began, up to now.
    fn pushed(
        &self,
        alloc: A,
        start: &ClassStart<A>,
        now: Timestamp,
    ) -> Result<PushedBy<A>, AllocError> {
        let prefixes = self.prefixes.largest(&start.prefixes)?;
        let connections = self.connections.largest(&start.connections)?;
        let other_prefixes = self.prefixes.others(&start.prefixes, prefixes.as_slice());
        let other_connections = self
            .connections
            .others(&start.connections, connections.as_slice());
        Ok(PushedBy {
            other_prefixes,
            other_connections,
            lived: self.ages.lived(),
            earlier: self.ages.earlier(now),
            gained: self.gained.saturating_sub(start.gained),
            lost: self.lost.saturating_sub(start.lost),
            connections: connections_of(alloc, connections.as_slice())?,
            prefixes,
        })
    }
}

impl<A: Allocator + Copy> Classes<A> {
    /// Nothing was counted, and this byte ends a prefix. Memory is taken for the classes at the first event.
    pub fn new(alloc: A, prefix_end: u8) -> Classes<A> {
        Classes {
            alloc,
            prefix_end,
            classes: Vec::new(alloc),
        }
    }

    /// The server was started anew: nothing was counted of its life.
    pub fn begin_life(&mut self) {
        self.classes.clear();
    }

    // Makes the classes, where there are none.
    fn make(&mut self) -> Result<(), AllocError> {
        if self.classes.is_empty() {
            for _ in 0..CLASSES {
                self.classes.push(Class::new(self.alloc))?;
            }
        }
        Ok(())
    }

    // A connection stored an item of so many bytes into a class.
    fn store(
        &mut self,
        class: u32,
        key: &Key<A>,
        connection: i32,
        size: u32,
        time: Timestamp,
        store: &Store<A>,
    ) -> Result<(), AllocError> {
        match self.classes.get_mut(class as usize) {
            Some(class) => {
                class.count(prefix_of(key.bytes(), self.prefix_end), connection, size)?;
                class.ages.stored(key, time, store)
            }
            None => Ok(()),
        }
    }

    // A class evicted the item of a key.
    fn evict(&mut self, class: u32, key: &Key<A>, time: Timestamp) -> Result<(), AllocError> {
        match self.classes.get_mut(class as usize) {
            Some(class) => class.ages.evicted(key, time),
            None => Ok(()),
        }
    }

    // A page went from one class to another.
    fn move_page(&mut self, from: u32, to: u32) {
        match self.classes.get_mut(from as usize) {
            Some(class) => class.lost = class.lost.saturating_add(1),
            None => {}
        }
        match self.classes.get_mut(to as usize) {
            Some(class) => class.gained = class.gained.saturating_add(1),
            None => {}
        }
    }

    /// Counts an event, behind which the replay's store is this one.
    ///
    /// Err: memory was refused.
    pub fn count(
        &mut self,
        event: &Event<A>,
        time: Timestamp,
        store: &Store<A>,
    ) -> Result<(), AllocError> {
        self.make()?;
        match event {
            Event::Store {
                key,
                outcome: StoreOutcome::Stored,
                class,
                connection,
                size,
                ..
            } => self.store(*class, key, *connection, *size, time, store),
            Event::Eviction { key, class, .. } => self.evict(*class, key, time),
            Event::PageMove { source, target } => {
                self.move_page(*source, *target);
                Ok(())
            }
            _ => Ok(()),
        }
    }

    /// What was counted when a life begins with this store: where the log does not show it, nothing, so that all is
    /// counted from the log's begin.
    ///
    /// Err: memory was refused.
    pub fn start(&self, stored: Stored) -> Result<ClassStart<A>, AllocError> {
        match self.classes.get(stored.class) {
            Some(class) if stored.logged => class.start(stored.class),
            _ => Ok(ClassStart {
                class: stored.class,
                prefixes: Start::nothing(self.alloc),
                connections: Start::nothing(self.alloc),
                gained: 0,
                lost: 0,
            }),
        }
    }

    /// What was counted since a life began, up to now.
    ///
    /// Err: memory was refused.
    pub fn pushed(
        &self,
        start: &ClassStart<A>,
        now: Timestamp,
    ) -> Result<Option<PushedBy<A>>, AllocError> {
        match self.classes.get(start.class) {
            Some(class) => Ok(Some(class.pushed(self.alloc, start, now)?)),
            None => Ok(None),
        }
    }
}
