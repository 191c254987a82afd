//! The lives of the keys that are asked for, as events are heard.
use crate::follow::{follow, restart};
use crate::hashes::gather;
use indexmap::IndexMap;
use rev_items::Key;
use rev_life::life::{Ended, KeyLives};
use rev_pushers::counted::{ClassStart, Classes};
use rev_replay::fault::ReplayFault;
use rev_replay::heard::{Heard, Listener};
use rev_watch::event::Timestamp;
use std::alloc::{AllocError, Allocator};
use std::hash::{BuildHasherDefault, FoldHasher};

/// A key that is asked for.
#[derive(Drop)]
pub struct Asked<A: Allocator> {
    pub lives: KeyLives<A>,
    // the number of its last life, and what was counted of the life's class when it began
    begun: Option<(u64, ClassStart<A>)>,
}

/// The lives of the keys that are asked for.
#[derive(Drop)]
pub struct Lives<A: Allocator> {
    alloc: A,
    keys: Vec<Asked<A>, A>,
    classes: Classes<A>,
    // the places of the keys of each hash
    places: IndexMap<u32, Vec<usize, A>, BuildHasherDefault<FoldHasher>, A>,
    // the hashes of the keys that an event may concern, and the places of those that are asked for
    hashes: Vec<u32, A>,
    concerned: Vec<usize, A>,
    last: bool,
    // which life of the server is asked for, from 1, and which one it is
    asked: Option<u64>,
    life: u64,
    // the time of the last event
    now: Timestamp,
}

// Forgets the connections of a life that has ended.
fn forget_in<A: Allocator>(ended: &mut Ended<A>) {
    ended.life.stored.connection = None;
    if let Some(culprit) = &mut ended.left.culprit {
        culprit.connection = None;
    }
    if let Some(pushed) = &mut ended.pushed {
        for share in pushed.connections.iter_mut() {
            share.connection = None;
        }
    }
}

impl<A: Allocator + Copy> Asked<A> {
    // Forgets the connections of all that is known of the key.
    fn forget_connections(&mut self) {
        for ended in self.lives.ended.iter_mut() {
            forget_in(ended);
        }
        if let Some(life) = &mut self.lives.held {
            life.stored.connection = None;
        }
    }

    // Tells who pushed the key out, where its last life was evicted.
    fn tell_pushed(&mut self, classes: &Classes<A>, now: Timestamp) -> Result<(), AllocError> {
        let Some((number, start)) = &self.begun else {
            return Ok(());
        };
        if !self.lives.wants_pushed(*number) {
            return Ok(());
        }
        match classes.pushed(start, now)? {
            Some(pushed) => self.lives.note_pushed(pushed),
            None => Ok(()),
        }
    }

    // Whether what was counted when its life began is known, if there is one that has not ended.
    fn is_begun(&self) -> bool {
        match (&self.lives.held, &self.begun) {
            (Some(life), Some((number, _))) => life.number == *number,
            (Some(_), None) => false,
            (None, _) => true,
        }
    }

    // Notes what was counted of its class when its life began.
    fn begin(&mut self, classes: &Classes<A>) -> Result<(), AllocError> {
        if self.is_begun() {
            return Ok(());
        }
        match &self.lives.held {
            Some(life) => self.begun = Some((life.number, classes.start(life.stored)?)),
            None => {}
        }
        Ok(())
    }

    // Follows the key through an event that was counted.
    fn follow(
        &mut self,
        alloc: A,
        heard: &Heard<'_, A>,
        classes: &Classes<A>,
        last: bool,
    ) -> Result<(), AllocError> {
        follow(alloc, &mut self.lives, heard, last)?;
        self.tell_pushed(classes, heard.time)?;
        self.begin(classes)
    }
}

// Whether a key stands at a place.
fn is_at<A: Allocator>(keys: &[Asked<A>], place: usize, key: &Key<A>) -> bool {
    match keys.get(place) {
        Some(asked) => asked.lives.key.is_same(key),
        None => false,
    }
}

// Adds places to others, but for those that are there.
fn add_places<A: Allocator>(
    concerned: &mut Vec<usize, A>,
    places: &[usize],
) -> Result<(), AllocError> {
    for place in places {
        if !concerned.contains(place) {
            concerned.push(*place)?;
        }
    }
    Ok(())
}

impl<A: Allocator + Copy> Lives<A> {
    /// No key is asked for. With `last` only the last life of each is kept. With `asked` only events of this life of
    /// the server are looked at, from 1. Prefixes end with this byte.
    pub fn new(alloc: A, last: bool, asked: Option<u64>, prefix_end: u8) -> Lives<A> {
        Lives {
            alloc,
            keys: Vec::new(alloc),
            classes: Classes::new(alloc, prefix_end),
            places: IndexMap::new(alloc),
            hashes: Vec::new(alloc),
            concerned: Vec::new(alloc),
            last,
            asked,
            life: 1,
            now: Timestamp {
                seconds: 0,
                microseconds: 0,
            },
        }
    }

    // Whether a key is asked for.
    fn has(&self, key: &Key<A>) -> bool {
        match self.places.get(&key.hash()) {
            Some(places) => places
                .iter()
                .any(|place| is_at(self.keys.as_slice(), *place, key)),
            None => false,
        }
    }

    // Notes the place of a key.
    fn note_place(&mut self, hash: u32, place: usize) -> Result<(), AllocError> {
        match self.places.get_mut(&hash) {
            Some(places) => places.push(place)?,
            None => {
                let mut places = Vec::new(self.alloc);
                places.push(place)?;
                self.places.insert(hash, places)?;
            }
        }
        Ok(())
    }

    /// Asks for a key, too. One that is asked for already is not asked for twice.
    ///
    /// Err: memory was refused.
    pub fn ask(&mut self, key: &Key<A>) -> Result<(), AllocError> {
        if self.has(key) {
            return Ok(());
        }
        let lives = KeyLives::new(self.alloc, key.copy(self.alloc)?);
        let place = self.keys.len();
        self.keys.push(Asked { lives, begun: None })?;
        self.note_place(key.hash(), place)
    }

    /// The keys that were asked for, in the order in which they were first asked for.
    pub fn keys(&self) -> &[Asked<A>] {
        self.keys.as_slice()
    }

    /// Forgets the connections of all that is known: a script has none.
    pub fn forget_connections(&mut self) {
        for key in self.keys.iter_mut() {
            key.forget_connections();
        }
    }

    /// The time of the last event.
    pub fn now(&self) -> Timestamp {
        self.now
    }

    // Whether this life of the server is asked for.
    fn is_asked(&self) -> bool {
        match self.asked {
            Some(life) => life == self.life,
            None => true,
        }
    }

    // Finds the keys that an event may concern. To the others it does nothing.
    fn find_concerned(&mut self, heard: &Heard<'_, A>) -> Result<(), AllocError> {
        gather(&mut self.hashes, heard)?;
        self.concerned.clear();
        for hash in self.hashes.iter() {
            match self.places.get(hash) {
                Some(places) => add_places(&mut self.concerned, places.as_slice())?,
                None => {}
            }
        }
        Ok(())
    }

    // Follows the keys that an event may concern.
    fn follow_concerned(&mut self, heard: &Heard<'_, A>) -> Result<(), AllocError> {
        for place in self.concerned.iter() {
            match self.keys.get_mut(*place) {
                Some(key) => key.follow(self.alloc, heard, &self.classes, self.last)?,
                None => {}
            }
        }
        Ok(())
    }
}

impl<A: Allocator + Copy> Listener<A> for Lives<A> {
    fn heard(&mut self, heard: &Heard<'_, A>) -> Result<(), ReplayFault> {
        if !self.is_asked() {
            return Ok(());
        }
        self.now = heard.time;
        match heard.event {
            Some(event) => self
                .classes
                .count(event, heard.time, heard.session.store())?,
            None => {}
        }
        self.find_concerned(heard)?;
        self.follow_concerned(heard)?;
        Ok(())
    }

    fn restarted(&mut self, at: Timestamp, steps: u64) -> Result<(), ReplayFault> {
        let now = self.now;
        if self.is_asked() {
            for key in self.keys.iter_mut() {
                restart(&mut key.lives, now, at, steps)?;
                key.begun = None;
            }
            self.classes.begin_life();
        }
        self.life = self.life.saturating_add(1);
        Ok(())
    }
}
