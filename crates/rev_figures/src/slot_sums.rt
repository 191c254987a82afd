//! Slots of a trace that is read in parts: each has as many steps as the others, but for the last.
//!
//! That the slots of several parts are those of the whole trace in one part is tested, and in no contract.
ghost use Rattle.std.specs.Prelude.{◌≡◌};

use crate::by_class::{more, with_cause};
use crate::path::{Leaving, PageMove, Path, QueueBytes};
use crate::sums::both_causes;
use crate::tables::{CauseCounts, NO_CAUSES};
use crate::walk::add_bytes;
use rev_undotree::Session;
use std::alloc::{AllocError, Allocator};
use std::mem;

/// The most slots that a trace is cut into.
const MOST_SLOTS: usize = 240;

/// So many steps of a trace, one behind another.
#[derive(Drop)]
pub struct SlotSum<A: Allocator> {
    /// How many steps stand up to its end.
    pub to: usize,
    /// The clock at its end, in seconds.
    pub second: u32,
    /// The keys that left in it, by cause.
    pub left: CauseCounts,
    /// How many pages moved in it.
    pub moves: usize,
    /// The bytes of each class that owns a page at its end, by rising class.
    pub bytes: Vec<QueueBytes, A>,
}

/// The slots of the parts so far.
#[derive(Drop)]
pub struct Slots<A: Allocator> {
    alloc: A,
    // how many steps a slot has, a power of 2
    length: usize,
    slots: Vec<SlotSum<A>, A>,
}

// The slot of two neighbours.
fn merged<A: Allocator>(first: SlotSum<A>, second: SlotSum<A>) -> SlotSum<A> {
    SlotSum {
        left: both_causes(first.left, second.left),
        moves: first.moves.saturating_add(second.moves),
        ..second
    }
}

impl<A: Allocator + Copy> Slots<A> {
    /// No step was read.
    pub fn new(alloc: A) -> Slots<A> {
        Slots {
            alloc,
            length: 1,
            slots: Vec::new(alloc),
        }
    }

    /// The slots, the first one first.
    pub fn slots(&self) -> &[SlotSum<A>] {
        &self.slots
    }

    // The slot of a step, from 0; steps are counted from 1.
    fn slot_of(&self, step: usize) -> usize {
        step.saturating_sub(1) / self.length.max(1)
    }

    // Makes one slot of each two neighbours.
    fn double(&mut self) -> Result<(), AllocError> {
        let old = mem::replace(&mut self.slots, Vec::new(self.alloc));
        let mut last: Option<SlotSum<A>> = None;
        for slot in old {
            last = match last {
                None => Some(slot),
                Some(first) => {
                    self.slots.push(merged(first, slot))?;
                    None
                }
            };
        }
        if let Some(slot) = last {
            self.slots.push(slot)?;
        }
        self.length = self.length.saturating_mul(2);
        Ok(())
    }

    // Doubles the slots until so many steps have few enough of them.
    fn widen(&mut self, steps: usize) -> Result<(), AllocError> {
        for _ in 0..64 {
            if steps <= self.length.saturating_mul(MOST_SLOTS) {
                break;
            }
            self.double()?;
        }
        Ok(())
    }

    // Sets what is told at the end of a slot, which may be a new one.
    fn set_end(
        &mut self,
        to: usize,
        second: u32,
        bytes: Vec<QueueBytes, A>,
    ) -> Result<(), AllocError> {
        let place = self.slot_of(to);
        match self.slots.get_mut(place) {
            Some(slot) => {
                slot.to = to;
                slot.second = second;
                slot.bytes = bytes;
                Ok(())
            }
            None => {
                self.slots.push(SlotSum {
                    to,
                    second,
                    left: NO_CAUSES,
                    moves: 0,
                    bytes,
                })?;
                Ok(())
            }
        }
    }

    fn count_leaving(&mut self, before: usize, leaving: &Leaving) {
        let place = self.slot_of(before.saturating_add(leaving.step));
        if let Some(slot) = self.slots.get_mut(place) {
            slot.left = with_cause(slot.left, leaving);
        }
    }

    fn count_move(&mut self, before: usize, moved: &PageMove) {
        let place = self.slot_of(before.saturating_add(moved.step));
        if let Some(slot) = self.slots.get_mut(place) {
            slot.moves = more(true, slot.moves);
        }
    }

    // Goes to the last step of each slot of a part, and reads the bytes of the classes there.
    fn read_ends(
        &mut self,
        session: &mut Session<A>,
        part: &Path<A>,
        before: usize,
    ) -> Result<(), AllocError>
        ensures { session.new ≡ record session.old { current = session.new.current } }
    {
        let after = before.saturating_add(part.steps.len());
        let mut to = before;
        for _ in 0..MOST_SLOTS {
            if to >= after {
                break;
            }
            to = (to / self.length.max(1))
                .saturating_add(1)
                .saturating_mul(self.length)
                .min(after);
            let Some(row) = part.steps.get(to.saturating_sub(before).saturating_sub(1)) else {
                break;
            };
            let _turned = session.go(row.node);
            let mut bytes = Vec::new(self.alloc);
            add_bytes(&mut bytes, session.store(), to)?;
            bytes.reverse();
            self.set_end(to, row.second, bytes)?;
        }
        Ok(())
    }

    // The same, and goes back to where the session stood.
    fn read_part(
        &mut self,
        session: &mut Session<A>,
        part: &Path<A>,
        before: usize,
    ) -> Result<(), AllocError>
        ensures { session.new ≡ session.old }
    {
        if session.depth() == 0 {
            return Ok(());
        }
        let stood = session.current();
        let read = self.read_ends(session, part, before);
        let _turned = session.go(stood);
        read
    }

    // Counts the keys that left in a part, and the pages that moved.
    fn count(&mut self, part: &Path<A>, before: usize) {
        for leaving in &part.leavings {
            self.count_leaving(before, leaving);
        }
        for moved in &part.moves {
            self.count_move(before, moved);
        }
    }

    /// Adds a part that stands behind so many steps: the way from the session's root to its current node, of which
    /// these are the rows. The session goes along it and back, so it stands where it stood.
    ///
    /// Err: a growth was refused.
    pub fn add(
        &mut self,
        session: &mut Session<A>,
        part: &Path<A>,
        before: usize,
    ) -> Result<(), AllocError>
        ensures { session.new ≡ session.old }
    {
        self.widen(before.saturating_add(part.steps.len()))?;
        self.read_part(session, part, before)?;
        self.count(part, before);
        Ok(())
    }
}
