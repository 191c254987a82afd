//! Which of the events that wait name a key.
ghost use Rattle.std.specs.Prelude.{◌≡◌, [], ℕ, List, IfOk, OnOk, OnErr, Some};
ghost use Rattle.rev_log.specs.Events.{key_of};
ghost use Rattle.rev_log.specs.Waiting.{span_in, span_at, span_behind, span_without};

use crate::events::key_of;
use crate::held_key::{HeldKey, SoughtKey};
use crate::spans::{Span, Stored, noted, with_first};
use indexmap::IndexMap;
use rev_items::Key;
use rev_watch::event::Event;
use std::alloc::{AllocError, Allocator};
use std::hash::{BuildHasherDefault, FoldHasher};

// The events of each key that any names. Memory is taken for these keys.
#[derive(Drop)]
pub struct Keys<A: Allocator> {
    alloc: A,
    pub map: IndexMap<HeldKey<A>, Span, BuildHasherDefault<FoldHasher>, A>,
}

impl<A: Allocator + Copy> Keys<A> {
    // No key. No memory is taken.
    pub fn new(alloc: A) -> Keys<A>
        ensures { result.map.entries ≡ [] }
    {
        Keys {
            alloc,
            map: IndexMap::new(alloc),
        }
    }

    // The events of a key.
    pub fn get(&self, key: &Key<A>) -> Option<Span>
        ensures { result ≡ span_in self.now.map.entries key.now }
    {
        match self.map.get(SoughtKey { key }) {
            Some(span) => Some(*span),
            None => None,
        }
    }

    // Notes that the event of this number names the key, and gives what was known before.
    fn note_key(
        &mut self,
        key: &Key<A>,
        number: u64,
        leaves: bool,
        stored: Option<Stored>,
    ) -> Result<Option<Span>, AllocError>
        ensures before { IfOk result (λ before. before ≡ span_in self.old.map.entries key.now) }
        ensures ok { OnOk result ((q : List ℕ) → span_in self.new.map.entries q ≡ span_behind (Some key.now) self.old.map.entries number leaves stored q) }
        ensures err { OnErr result (self.new.map.entries ≡ self.old.map.entries) }
    {
        if let Some(span) = self.map.get_mut(SoughtKey { key }) {
            let before = Some(*span);
            *span = noted(before, number, leaves, stored);
            return Ok(before);
        }
        let held = HeldKey::copy_of(self.alloc, key)?;
        let span = noted(None, number, leaves, stored);
        self.map.insert(held, span)?;
        Ok(None)
    }

    // Notes the event of this number, where it names a key, and gives what was known of that before. It leaves the
    // key's item, or stores another one. Err: memory was refused.
    pub fn note(
        &mut self,
        event: &Event<A>,
        number: u64,
        leaves: bool,
        stored: Option<Stored>,
    ) -> Result<Option<Span>, AllocError>
        ensures before { IfOk result (λ before. before ≡ span_at (key_of event.now) self.old.map.entries) }
        ensures ok { OnOk result ((q : List ℕ) → span_in self.new.map.entries q ≡ span_behind (key_of event.now) self.old.map.entries number leaves stored q) }
        ensures err { OnErr result (self.new.map.entries ≡ self.old.map.entries) }
    {
        match key_of(event) {
            Some(key) => self.note_key(key, number, leaves, stored),
            None => Ok(None),
        }
    }

    // The first event of a key is gone, and this is the next one, where there is one.
    fn forget_key(&mut self, key: &Key<A>, next: Option<u64>)
        ensures { (q : List ℕ) → span_in self.new.map.entries q ≡ span_without (Some key.now) self.old.map.entries next q }
    {
        match next {
            None => {
                self.map.swap_remove(SoughtKey { key });
            }
            Some(next) => {
                if let Some(span) = self.map.get_mut(SoughtKey { key }) {
                    *span = with_first(next, *span);
                }
            }
        }
    }

    // The first event of all is gone, and this is the next one that names its key, where there is one.
    pub fn forget(&mut self, event: &Event<A>, next: Option<u64>)
        ensures { (q : List ℕ) → span_in self.new.map.entries q ≡ span_without (key_of event.now) self.old.map.entries next q }
    {
        if let Some(key) = key_of(event) {
            self.forget_key(key, next);
        }
    }

    // No key is named any more. The memory is kept.
    pub fn clear(&mut self)
        ensures { self.new.map.entries ≡ [] }
    {
        self.map.clear();
    }
}
