//! Who listens to a replay, and finds a place in its logs.
ghost use Rattle.std.specs.Prelude.{◌≡◌, None, IfOk, OnOk};
ghost use Rattle.rev_replay.specs.Seeking as rule;

use crate::fault::ReplayFault;
use crate::heard::{Heard, Listener};
use crate::keeping::Keeping;
use rev_evidence::heard::step_number;
use rev_evidence::keys::is_key;
use rev_explain::departures;
use rev_explain::events::Departure;
use rev_items::Key;
use rev_undotree::{NodeId, Session};
use rev_watch::event::Timestamp;
use std::alloc::{AllocError, Allocator};
use std::marker::Model;

/// What is looked for in logs: a place between two steps, which are counted over all lives of the server.
#[derive(Drop)]
pub enum Sought<A: Allocator> {
    /// No place.
    Nowhere,
    /// The end.
    End,
    /// Behind so many steps.
    Step(u64),
    /// Behind the last event that is not later than this second, by the Unix clock.
    Second(u32),
    /// Behind the last step at which this key left.
    Gone(Key<A>),
}

impl<A: Allocator> Sought<A> {
    /// What is kept where this is looked for. When a key left is read off the steps of each event alone.
    pub fn keeping(&self) -> Keeping
        ensures { result ≡ rule.keeping_for (rule.plain_sought self.now) }
    {
        match self {
            Sought::Gone(_) => Keeping::Nothing,
            _ => Keeping::Last,
        }
    }
}

/// A place between two steps.
#[derive(Clone, Copy, Debug, PartialEq, Eq)]
pub struct Spot {
    /// How many steps stand in front of it, over all lives of the server.
    pub step: u64,
    /// The life of the server that it is in. The first is 1.
    pub life: u64,
    /// How many steps stand in front of that life.
    pub begin: u64,
}

/// A place that is looked for.
#[derive(Drop)]
pub struct Seeker<'a, A: Allocator> {
    sought: &'a Sought<A>,
    // the life of the server that is heard, and how many steps stand in front of it
    life: u64,
    begin: u64,
    found: Option<Spot>,
}

impl<'a, A: Allocator> Model for Seeker<'a, A> {
    ghost use Rattle.rev_replay.specs.Seeking.{SeekerState, plain_sought};

    ghost Value = { SeekerState };

    ghost view = { λ s. record { sought = plain_sought s.sought.now; life = s.life; begin = s.begin; found = s.found } };
}

// The number of the last of these steps at which the key left, behind so many steps.
fn left_last<A: Allocator>(before: u64, gone: &[Departure<'_, A>], key: &Key<A>) -> Option<u64>
    ensures { result ≡ rule.left_last before key.now None gone.now }
{
    let mut last = None;
    for departure in gone {
        if is_key(departure.key, key) {
            last = Some(step_number(before, departure.node));
        }
    }
    last
}

// Behind how many steps the place is, where it is there by a session with so many steps in front of it, behind an event
// of this time. It may have been found before, or not.
fn seen<A: Allocator + Copy>(
    sought: &Sought<A>,
    is_found: bool,
    session: &Session<A>,
    time: Timestamp,
    before: u64,
) -> Result<Option<u64>, AllocError>
    ensures { IfOk result (λ step. step ≡ rule.seen (rule.plain_sought sought.now) is_found before time session.now) }
{
    let last = step_number(before, NodeId(session.issued()));
    match sought {
        Sought::Nowhere => Ok(None),
        Sought::End => Ok(Some(last)),
        Sought::Step(step) => {
            if !is_found && *step <= last {
                Ok(Some(*step))
            } else {
                Ok(None)
            }
        }
        Sought::Second(second) => {
            if time.seconds <= *second {
                Ok(Some(last))
            } else {
                Ok(None)
            }
        }
        Sought::Gone(key) => {
            let gone = departures(session, None)?;
            Ok(left_last(before, gone.as_slice(), key))
        }
    }
}

// A place in front of all events, where none was found.
fn or_first(found: Option<Spot>) -> Option<Spot>
    ensures { result ≡ rule.or_first found }
{
    match found {
        Some(spot) => Some(spot),
        None => Some(Spot {
            step: 0,
            life: 1,
            begin: 0,
        }),
    }
}

// A place behind so many steps, where it was found.
fn behind(step: u64, found: Option<Spot>) -> Option<Spot>
    ensures { result ≡ rule.behind step found }
{
    match found {
        Some(spot) => Some(Spot { step, ..spot }),
        None => None,
    }
}

/// The place that is looked for, where this was heard of it. Where all events are later than a second, it is in front
/// of them all. That a place behind so many steps is behind as many was heard, and what a listener promises does not
/// say so.
pub(crate) fn place_of<A: Allocator>(sought: &Sought<A>, found: Option<Spot>) -> Option<Spot>
    ensures { result ≡ rule.place_of (rule.plain_sought sought.now) found }
{
    match sought {
        Sought::Nowhere => None,
        Sought::End => found,
        Sought::Step(step) => behind(*step, found),
        Sought::Second(_) => or_first(found),
        Sought::Gone(_) => found,
    }
}

impl<'a, A: Allocator + Copy> Seeker<'a, A> {
    /// Nothing was heard.
    pub fn new(sought: &'a Sought<A>) -> Seeker<'a, A>
        ensures { result ≡ rule.at_first (rule.plain_sought sought.now) }
    {
        Seeker {
            sought,
            life: 1,
            begin: 0,
            found: None,
        }
    }

    /// The place, as far as was heard.
    pub(crate) fn found(&self) -> Option<Spot>
        ensures { result ≡ self.now.found }
    {
        self.found
    }

    /// How many steps stand in front of the last life.
    pub(crate) fn begin(&self) -> u64
        ensures { result ≡ self.now.begin }
    {
        self.begin
    }

    /// The place, where all was heard.
    pub fn place(&self) -> Option<Spot>
        ensures { result ≡ rule.place_of self.now.sought self.now.found }
    {
        place_of(self.sought, self.found)
    }

    /// Looks at a session with so many steps in front of its root, behind an event of this time.
    ///
    /// Err: memory was refused.
    pub fn look(
        &mut self,
        session: &Session<A>,
        time: Timestamp,
        before: u64,
    ) -> Result<(), AllocError>
        ensures { OnOk result (self.new ≡ rule.looked self.old before time session.now) }
    {
        match seen(self.sought, self.found.is_some(), session, time, before)? {
            Some(step) => {
                self.found = Some(Spot {
                    step,
                    life: self.life,
                    begin: self.begin,
                });
            }
            None => {}
        }
        Ok(())
    }
}

impl<A: Allocator + Copy> Listener<A> for Seeker<'_, A> {
    fn heard(&mut self, heard: &Heard<'_, A>) -> Result<(), ReplayFault> {
        self.look(heard.session, heard.time, heard.before)?;
        Ok(())
    }

    fn restarted(&mut self, _at: Timestamp, steps: u64) -> Result<(), ReplayFault> {
        self.life = self.life.saturating_add(1);
        self.begin = steps;
        Ok(())
    }
}
