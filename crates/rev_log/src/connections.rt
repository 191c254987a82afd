//! The last look-ups of connections.
ghost use Rattle.std.specs.Prelude.{◌≡◌, ◌<◌, [], ℤ, OnOk, Some};
ghost use Rattle.indexmap.specs.IndexMap.{spare};
ghost use Rattle.rev_log.specs.Events.{connection_of, is_look_up};
ghost use Rattle.rev_log.specs.Waiting.{number_in, number_behind};

use crate::events::{connection_of, is_look_up};
use indexmap::IndexMap;
use rev_watch::event::Event;
use std::alloc::{AllocError, Allocator};
use std::hash::{BuildHasherDefault, FoldHasher};

// Of each connection whose last line is a look-up the number of that one. Memory is taken for these connections.
#[derive(Drop)]
pub struct Connections<A: Allocator> {
    pub map: IndexMap<i32, u64, BuildHasherDefault<FoldHasher>, A>,
}

impl<A: Allocator + Copy> Connections<A> {
    // No connection. No memory is taken.
    pub fn new(alloc: A) -> Connections<A>
        ensures { result.map.entries ≡ [] }
    {
        Connections {
            map: IndexMap::new(alloc),
        }
    }

    // Makes room for one more connection. Err: memory was refused.
    pub fn make_room(&mut self) -> Result<(), AllocError>
        ensures same { self.new.map.entries ≡ self.old.map.entries }
        ensures room { OnOk result (0 < spare self.new.map) }
    {
        self.map.reserve(1)
    }

    // The number of the connection's last line, where it is a look-up.
    pub fn get(&self, connection: i32) -> Option<u64>
        ensures { result ≡ number_in self.now.map.entries connection }
    {
        match self.map.get(&connection) {
            Some(number) => Some(*number),
            None => None,
        }
    }

    // Notes the connection's last line, where it is a look-up. There is room for one more connection.
    fn note_line(&mut self, connection: i32, look_up: bool, number: u64)
        requires { 0 < spare self.old.map }
        ensures { (c : ℤ) → number_in self.new.map.entries c ≡ number_behind (Some connection) look_up number self.old.map.entries c }
    {
        if look_up {
            self.map.insert(connection, number).unwrap();
        } else {
            self.map.swap_remove(&connection);
        }
    }

    // Notes the last line of its connection, where it has one. There is room for one more connection.
    pub fn note(&mut self, event: &Event<A>, number: u64)
        requires { 0 < spare self.old.map }
        ensures { (c : ℤ) → number_in self.new.map.entries c ≡ number_behind (connection_of event.now) (is_look_up event.now) number self.old.map.entries c }
    {
        if let Some(connection) = connection_of(event) {
            self.note_line(connection, is_look_up(event), number);
        }
    }

    // No connection has a last line any more. The memory is kept.
    pub fn clear(&mut self)
        ensures { self.new.map.entries ≡ [] }
    {
        self.map.clear();
    }
}
