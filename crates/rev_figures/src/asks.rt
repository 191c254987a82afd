//! Which keys are asked for in vain, from some step of the path on.
ghost use Rattle.std.specs.Prelude.{◌≡◌, [], List, ℕ, cond, IsTrue, OnOk};
ghost use Rattle.rev_model.specs.Track.{same_key};
ghost use Rattle.rev_figures.specs.Asks.{asked_by, no_ask};
ghost use Rattle.rev_figures.specs.Asking.{ask_in};

use crate::path::StepKind;
use indexmap::IndexMap;
use rev_items::Key;
use std::alloc::{AllocError, Allocator};
use std::hash::{BuildHasherDefault, FoldHasher};

/// The look-ups that missed a key until a step stored it: how many they are, and the second of the first.
#[derive(Clone, Copy)]
pub struct Ask {
    pub count: u32,
    pub first: u32,
}

/// No look-ups.
pub const NO_ASK: Ask = Ask { count: 0, first: 0 };

/// Whether there are none.
fn is_none(ask: Ask) -> bool
    ensures { IsTrue result → ask ≡ no_ask }
{
    ask.count == 0 && ask.first == 0
}

/// The look-ups with one more in front of them.
fn ask_before(ask: Ask, second: u32) -> Ask
    ensures { result ≡ asked_by StepKind.Miss second ask }
{
    let count = if ask.count < u32::MAX {
        ask.count + 1
    } else {
        ask.count
    };
    Ask {
        count,
        first: second,
    }
}

/// The look-ups of each key that has any.
#[derive(Drop)]
pub struct Asks<'a, A: Allocator> {
    alloc: &'a A,
    pub keys: IndexMap<Vec<u8, A>, Ask, BuildHasherDefault<FoldHasher>, &'a A>,
}

impl<'a, A: Allocator + Clone> Asks<'a, A> {
    /// No key has any.
    pub fn new(alloc: &'a A) -> Asks<'a, A>
        ensures { result.keys.entries ≡ [] }
    {
        Asks {
            alloc,
            keys: IndexMap::new(alloc),
        }
    }

    /// Those of a key.
    pub fn get(&self, key: &Key<A>) -> Ask
        ensures { result ≡ ask_in self.now.keys.entries key.now }
    {
        match self.keys.get(key.bytes()) {
            Some(ask) => *ask,
            None => NO_ASK,
        }
    }

    fn put(&mut self, key: &Key<A>, ask: Ask) -> Result<(), AllocError>
        ensures { OnOk result ((k : List ℕ) → ask_in self.new.keys.entries k ≡ cond (same_key k key.now) ask (ask_in self.old.keys.entries k)) }
    {
        let bytes = Vec::from_slice(self.alloc.clone()?, key.bytes())?;
        self.keys.insert(bytes, ask)?;
        Ok(())
    }

    fn note_miss(&mut self, key: &Key<A>, second: u32) -> Result<(), AllocError>
        ensures { OnOk result ((k : List ℕ) → ask_in self.new.keys.entries k ≡ cond (same_key k key.now) (asked_by StepKind.Miss second (ask_in self.old.keys.entries k)) (ask_in self.old.keys.entries k)) }
    {
        let ask = ask_before(self.get(key), second);
        self.put(key, ask)?;
        Ok(())
    }

    fn forget(&mut self, key: &Key<A>) -> Result<(), AllocError>
        ensures { OnOk result ((k : List ℕ) → ask_in self.new.keys.entries k ≡ cond (same_key k key.now) no_ask (ask_in self.old.keys.entries k)) }
    {
        let ask = self.get(key);
        if is_none(ask) {
            return Ok(());
        }
        self.put(key, NO_ASK)?;
        Ok(())
    }

    /// Notes a step that stands in front of those that were noted: what it did with its command's key. A key that was
    /// missed once keeps its entry, also where it has no look-ups any more.
    ///
    /// Err: a growth was refused.
    pub fn note(&mut self, kind: StepKind, key: &Key<A>, second: u32) -> Result<(), AllocError>
        ensures { OnOk result ((k : List ℕ) → ask_in self.new.keys.entries k ≡ cond (same_key k key.now) (asked_by kind second (ask_in self.old.keys.entries k)) (ask_in self.old.keys.entries k)) }
    {
        match kind {
            StepKind::Miss => self.note_miss(key, second),
            StepKind::Stored => self.forget(key),
            StepKind::Hit | StepKind::Other => Ok(()),
        }
    }
}
