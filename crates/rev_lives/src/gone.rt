//! The keys that left, told as events are heard.
ghost use Rattle.std.specs.Prelude.{◌≡◌, [], IfOk, if◌then◌else◌};
ghost use Rattle.rev_life.specs.Leaving.{plain_leaving};
ghost use Rattle.rev_life.specs.Lines as tokens;
ghost use Rattle.rev_pushers.specs.Parts.{with_line};
ghost use Rattle.rev_life.specs.Texts as texts;

use crate::leaving::leavings;
use rev_life::filter::Filter;
use rev_life::leaving::Leaving;
use rev_life::lines::leaving_line;
use rev_life::text::put_leaving;
use rev_output::{Sink, write_all};
use rev_replay::fault::ReplayFault;
use rev_replay::heard::{Heard, Listener};
use rev_watch::event::Timestamp;
use std::alloc::{AllocError, Allocator};
use std::mem;

/// As soon as so many bytes are at hand, they are sent (this project's own figure).
const PIECE: usize = 65536;

/// The keys that left, sent line by line.
#[derive(Drop)]
pub struct Gone<'a, K: Sink, A: Allocator> {
    alloc: A,
    filter: &'a Filter<'a>,
    as_json: bool,
    sink: &'a mut K,
    // what is written and not yet sent
    out: Vec<u8, A>,
    told: u64,
    // which life of the server, from 1
    life: u64,
}

// A text with the line of a key that left behind it, of JSON or for people.
fn with_leaving<A: Allocator + Copy>(
    alloc: A,
    out: Vec<u8, A>,
    leaving: &Leaving<'_, A>,
    as_json: bool,
) -> Result<Vec<u8, A>, AllocError>
    ensures { IfOk result (λ text. text.items ≡ (if as_json then with_line out.items (tokens.behind [] (tokens.leaving_parts (plain_leaving leaving.now))) else texts.behind out.items (texts.leaving_parts (plain_leaving leaving.now)))) }
{
    if as_json {
        leaving_line(alloc, out, leaving)
    } else {
        let mut text = out;
        put_leaving(alloc, &mut text, leaving)?;
        Ok(text)
    }
}

impl<'a, K: Sink, A: Allocator + Copy> Gone<'a, K, A> {
    /// Nothing was told yet.
    pub fn new(alloc: A, filter: &'a Filter<'a>, as_json: bool, sink: &'a mut K) -> Gone<'a, K, A> {
        Gone {
            alloc,
            filter,
            as_json,
            sink,
            out: Vec::new(alloc),
            told: 0,
            life: 1,
        }
    }

    /// How many keys were told.
    pub fn told(&self) -> u64 {
        self.told
    }

    // Writes the line of a key that left.
    fn put(&mut self, leaving: &Leaving<'_, A>) -> Result<(), ReplayFault> {
        let out = mem::replace(&mut self.out, Vec::new(self.alloc));
        self.out = with_leaving(self.alloc, out, leaving, self.as_json)?;
        self.told = self.told.saturating_add(1);
        Ok(())
    }

    // Tells of a key that left, where that is asked for.
    fn tell(&mut self, leaving: &Leaving<'_, A>) -> Result<(), ReplayFault> {
        if self.filter.passes(self.life, leaving) {
            self.put(leaving)?;
        }
        if self.out.len() < PIECE {
            Ok(())
        } else {
            self.send()
        }
    }

    /// Sends what is at hand.
    pub fn send(&mut self) -> Result<(), ReplayFault> {
        write_all(self.sink, self.out.as_slice())?;
        self.out.clear();
        Ok(())
    }
}

impl<K: Sink, A: Allocator + Copy> Listener<A> for Gone<'_, K, A> {
    fn heard(&mut self, heard: &Heard<'_, A>) -> Result<(), ReplayFault> {
        let gone = leavings(self.alloc, heard)?;
        for leaving in &gone {
            self.tell(leaving)?;
        }
        Ok(())
    }

    fn restarted(&mut self, _at: Timestamp, _steps: u64) -> Result<(), ReplayFault> {
        self.life = self.life.saturating_add(1);
        Ok(())
    }
}
