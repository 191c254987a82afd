//! The events that wait: what a log tells next.
ghost use Rattle.std.specs.Prelude.{◌≡◌, ◌<◌, ◌-◌, ◌++◌, ◌∷◌, [], length, OnOk, OnErr, IfSome};
ghost use Rattle.std.specs.Option.{option_copied};
ghost use Rattle.std.specs.Slice.{IsItemAt};
ghost use Rattle.std.specs.VecDeque.{deque_len, deque_capacity};
ghost use Rattle.indexmap.specs.IndexMap.{spare};
ghost use Rattle.rev_log.specs.Foresight.{empty_foresight, pushed, popped, first_naming, next_of, moves_before, Numbered, MayVote, IsOf};

pub use crate::coming::Coming;
use crate::connections::Connections;
use crate::events::{key_of, leaves_item};
use crate::keys::Keys;
use crate::rows::{at_number, forget_move, has_move, link, mark_own, next_in, note_move};
use crate::seconds::Seconds;
use crate::spans::{last_of, stored_by, vote};
use rev_items::Key;
use rev_watch::event::LogLine;
use std::alloc::{AllocError, Allocator};
use std::collections::VecDeque;
use std::marker::Model;

/// The most events that a caller lets wait, so that what a log tells late is still seen in time.
pub const MOST_AHEAD: usize = 65536;

/// The events that wait, by rising numbers. The first that names a key is found at once, and so is the next one behind
/// it. Memory is taken for the events that wait, and for the server's connections.
#[derive(Drop)]
pub struct Foresight<A: Allocator> {
    // how many events were given out
    first: u64,
    waiting: VecDeque<Coming<A>, A>,
    // of each event that waits the number of the next one that names its key
    nexts: VecDeque<Option<u64>, A>,
    // the page moves that wait: their numbers, and the classes that they are from
    moves: VecDeque<(u64, u32), A>,
    keys: Keys<A>,
    connections: Connections<A>,
    seconds: Seconds,
}

impl<A: Allocator> Model for Foresight<A> {
    ghost use Rattle.rev_log.specs.Foresight.{PlainForesight};
    ghost use Rattle.rev_log.specs.Waiting.{IsSound};

    ghost Value = { PlainForesight A };

    ghost view = { λ f. record { first = f.first; waiting = f.waiting.items; votes = f.seconds } };

    ghost invariant = { λ f. IsSound f.first f.waiting.items f.nexts.items f.moves.items f.keys.map.entries f.connections.map.entries };
}

// Makes room for one more event. Err: memory was refused.
fn make_room<A: Allocator + Copy>(
    waiting: &mut VecDeque<Coming<A>, A>,
    nexts: &mut VecDeque<Option<u64>, A>,
    moves: &mut VecDeque<(u64, u32), A>,
    connections: &mut Connections<A>,
) -> Result<(), AllocError>
    ensures waiting { waiting.new.items ≡ waiting.old.items }
    ensures nexts { nexts.new.items ≡ nexts.old.items }
    ensures moves { moves.new.items ≡ moves.old.items }
    ensures connections { connections.new.map.entries ≡ connections.old.map.entries }
    ensures waiting_room { OnOk result (deque_len waiting.new < deque_capacity waiting.new) }
    ensures nexts_room { OnOk result (deque_len nexts.new < deque_capacity nexts.new) }
    ensures moves_room { OnOk result (deque_len moves.new < deque_capacity moves.new) }
    ensures connections_room { OnOk result (0 < spare connections.new.map) }
{
    waiting.reserve(1)?;
    nexts.reserve(1)?;
    moves.reserve(1)?;
    connections.make_room()
}

impl<A: Allocator + Copy> Foresight<A> {
    /// No event came. No memory is taken.
    pub fn new(alloc: A) -> Foresight<A>
        ensures { result ≡ empty_foresight }
    {
        Foresight {
            first: 0,
            waiting: VecDeque::new(alloc),
            nexts: VecDeque::new(alloc),
            moves: VecDeque::new(alloc),
            keys: Keys::new(alloc),
            connections: Connections::new(alloc),
            seconds: Seconds::new(),
        }
    }

    /// How many events wait. Their numbers rise one by one.
    pub fn len(&self) -> usize
        ensures len { result ≡ length self.now.waiting }
        ensures numbered { Numbered self.now.first self.now.waiting }
    {
        self.waiting.len()
    }

    /// Takes in an event, which waits behind the others. Where it is a storage command or a deletion, and the last line
    /// of its connection waits and is a look-up of the same key, that look-up is marked as its own. An eviction
    /// votes for phases of the server's clock, where the item's last store is known.
    ///
    /// Err: memory was refused, or 2^64 - 1 events came before; the event is dropped, and nothing is changed.
    pub fn push(&mut self, line: LogLine<A>) -> Result<(), AllocError>
        ensures waiting { OnOk result (self.new.waiting ≡ pushed self.old line) }
        ensures first { OnOk result (self.new.first ≡ self.old.first) }
        ensures votes { OnOk result (MayVote self.old.votes self.new.votes line) }
        ensures err { OnErr result (self.new ≡ self.old) }
    {
        let number = self.first + self.waiting.len() as u64;
        if number == u64::MAX {
            return Err(AllocError);
        }
        make_room(
            &mut self.waiting,
            &mut self.nexts,
            &mut self.moves,
            &mut self.connections,
        )?;
        let leaves = leaves_item(&line.event);
        let stored = stored_by(&line);
        let known = self.keys.note(&line.event, number, leaves, stored)?;
        link(&mut self.nexts, self.first, last_of(known), number);
        mark_own(
            &mut self.waiting,
            self.first,
            &self.connections,
            &line.event,
        );
        self.connections.note(&line.event, number);
        note_move(&mut self.moves, &line.event, number);
        vote(&mut self.seconds, known, &line);
        self.nexts.push_back_reserved(None);
        self.waiting.push_back_reserved(Coming {
            line,
            number,
            own: false,
        });
        Ok(())
    }

    /// Gives out the event that waits longest, where any does.
    pub fn pop(&mut self) -> Option<Coming<A>>
        ensures popped { (self.new, result) ≡ popped self.old }
        ensures number { IfSome result (λ coming. coming.number ≡ self.old.first) }
    {
        let Some(coming) = self.waiting.pop_front() else {
            return None;
        };
        let next = self.nexts.pop_front().unwrap_or(None);
        self.first += 1;
        self.keys.forget(&coming.line.event, next);
        forget_move(&mut self.moves, &coming.line.event);
        Some(coming)
    }

    /// The event that came last, where it waits.
    pub fn last(&self) -> Option<&Coming<A>>
        ensures { IsItemAt self.now.waiting (length self.now.waiting - 1) result }
    {
        self.waiting.get(self.waiting.len().saturating_sub(1))
    }

    /// The first event that waits and names the key: that looks it up, stores, deletes or evicts it.
    pub fn first_of(&self, key: &Key<A>) -> Option<&Coming<A>>
        ensures { option_copied result ≡ first_naming key.now self.now.waiting }
    {
        let span = self.keys.get(key)?;
        at_number(&self.waiting, self.first, span.first)
    }

    /// The next event that waits behind this one and names its key. This one waits here, or was given out here.
    pub fn behind(&self, coming: &Coming<A>) -> Option<&Coming<A>>
        ensures { IsOf self.now coming.now → option_copied result ≡ next_of self.now coming.now }
    {
        if coming.number < self.first {
            return self.first_of(key_of(&coming.line.event)?);
        }
        let next = next_in(&self.nexts, self.first, coming.number)?;
        at_number(&self.waiting, self.first, next)
    }

    /// Whether a page move from this class waits in front of the event of this number. It takes time by how many page
    /// moves wait.
    pub fn moves_before(&self, class: u32, number: u64) -> bool
        ensures { result ≡ moves_before class number self.now.waiting }
    {
        has_move(&self.moves, class, number)
    }

    /// What tells the server's own second of a line.
    pub fn seconds(&self) -> &Seconds
        ensures { result.now ≡ self.now.votes }
    {
        &self.seconds
    }

    /// Forgets all: the next event has number 0. The memory is kept.
    pub fn clear(&mut self)
        ensures { self.new ≡ empty_foresight }
    {
        self.first = 0;
        self.waiting.clear();
        self.nexts.clear();
        self.moves.clear();
        self.keys.clear();
        self.connections.clear();
        self.seconds = Seconds::new();
    }
}
