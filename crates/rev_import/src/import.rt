//! The events of a log, made into the lines of a script.
ghost use Rattle.std.specs.Prelude.{◌≡◌, ◌++◌, ◌∷◌, ◌-◌, [], length, OnOk, Some, None};
ghost use Rattle.std.specs.Option.{option_copied};
ghost use Rattle.std.specs.Slice.{IsItemAt};
ghost use Rattle.rev_import.specs.Becoming.{Moves, evicted_key, first_second};
ghost use Rattle.rev_import.specs.Figures.{no_figures};

use crate::figures::{EventCounts, Figures, one_more};
use crate::guess::Guesses;
use crate::scribe::Scribe;
use rev_choices::Rhythm;
use rev_classes::ClassTable;
use rev_items::Key;
use rev_watch::event::{Event, LogLine};
use std::alloc::{AllocError, Allocator};
use std::collections::VecDeque;
use std::marker::Model;

/// The most events that are held back.
pub const MOST_WAITING: usize = 65536;

/// Makes the lines of a script of the events of a log. An event is held back until 65536 others came behind it, since a
/// later one may tell what it was. Memory is taken for these, for the server's connections and for the keys that it
/// holds, and not for what was written.
#[derive(Drop)]
pub struct Import<A: Allocator> {
    waiting: VecDeque<LogLine<A>, A>,
    guesses: Guesses<A>,
    scribe: Scribe,
    figures: Figures,
}

impl<A: Allocator> Model for Import<A> {
    ghost use Rattle.rev_import.specs.Becoming.{PlainImport};

    ghost Value = { PlainImport A };

    ghost view = { λ i. record { waiting = i.waiting.items; figures = i.figures } };
}

/// The key that an eviction took away, and none where the event is no eviction.
pub fn evicted_key<A: Allocator>(event: &Event<A>) -> Option<&Key<A>>
    ensures { option_copied result ≡ evicted_key event.now }
{
    match event {
        Event::Eviction { key, .. } => Some(key),
        _ => None,
    }
}

fn count<A: Allocator>(event: &Event<A>, counts: &mut EventCounts) {
    let count = match event {
        Event::LookUp { .. } => &mut counts.look_ups,
        Event::Store { .. } => &mut counts.stores,
        Event::Deletion { .. } => &mut counts.deletions,
        Event::Eviction { .. } => &mut counts.evictions,
        Event::PageMove { .. } => &mut counts.page_moves,
        Event::CrawlEnd { .. } => &mut counts.crawl_ends,
        Event::ConnectionOpened { .. } | Event::ConnectionClosed { .. } => &mut counts.connections,
        Event::Unknown { .. } => &mut counts.unknown,
    };
    one_more(count);
}

impl<A: Allocator + Copy> Import<A> {
    /// An import into a store of these classes. No memory is taken.
    pub fn new(alloc: A, classes: ClassTable, rhythm: Rhythm) -> Import<A>
        ensures { result ≡ record { waiting = []; figures = no_figures } }
    {
        Import {
            waiting: VecDeque::new(alloc),
            guesses: Guesses::new(alloc),
            scribe: Scribe::new(classes, rhythm),
            figures: Figures::none(),
        }
    }

    /// Writes the lines of the event that waits longest, where any does.
    ///
    /// Err: memory was refused; the import is no longer of use.
    pub fn write_first<B: Allocator>(&mut self, out: &mut Vec<u8, B>) -> Result<(), AllocError>
        ensures moves { OnOk result (Moves self.old.waiting self.new.waiting out.old.items out.new.items) }
        ensures fewer { OnOk result (length self.new.waiting ≡ length self.old.waiting - 1) }
    {
        let line = match self.waiting.pop_front() {
            None => return Ok(()),
            Some(line) => line,
        };
        let guess = self.guesses.pop();
        let most = self.guesses.held();
        self.scribe
            .write(&line, guess, most, out, &mut self.figures)
    }

    // Makes room for an event where as many wait as may.
    fn make_room<B: Allocator>(&mut self, out: &mut Vec<u8, B>) -> Result<(), AllocError>
        ensures { OnOk result (Moves self.old.waiting self.new.waiting out.old.items out.new.items) }
    {
        if self.waiting.len() < MOST_WAITING {
            Ok(())
        } else {
            self.write_first(out)
        }
    }

    /// Takes in the next event. Where 65536 wait, the lines of the one that waits longest are written first.
    ///
    /// Err: memory was refused; the import is no longer of use.
    pub fn take<B: Allocator>(
        &mut self,
        line: LogLine<A>,
        out: &mut Vec<u8, B>,
    ) -> Result<(), AllocError>
        ensures { OnOk result (Moves (self.old.waiting ++ line ∷ []) self.new.waiting out.old.items out.new.items) }
    {
        count(&line.event, &mut self.figures.events);
        self.guesses.push(&line, &self.waiting, &mut self.figures)?;
        self.make_room(out)?;
        self.waiting.push_back(line)?;
        Ok(())
    }

    /// Writes the lines of all events that wait.
    ///
    /// Err: memory was refused; the import is no longer of use.
    pub fn finish<B: Allocator>(&mut self, out: &mut Vec<u8, B>) -> Result<(), AllocError>
        ensures moves { OnOk result (Moves self.old.waiting self.new.waiting out.old.items out.new.items) }
        ensures none { OnOk result (self.new.waiting ≡ []) }
    {
        for _ in 0..self.waiting.len() {
            self.write_first(out)?;
        }
        Ok(())
    }

    /// The event that waits longest, where any does.
    pub fn first(&self) -> Option<&LogLine<A>>
        ensures { IsItemAt self.now.waiting 0 result }
    {
        self.waiting.front()
    }

    /// The second of the event that waits longest, none where none waits.
    pub fn first_second(&self) -> Option<u32>
        ensures { result ≡ first_second self.now.waiting }
    {
        match self.waiting.front() {
            Some(line) => Some(line.time.seconds),
            None => None,
        }
    }

    /// How many events wait.
    pub fn waiting(&self) -> usize
        ensures { result ≡ length self.now.waiting }
    {
        self.waiting.len()
    }

    /// What was counted so far.
    pub fn figures(&self) -> Figures
        ensures { result ≡ self.now.figures }
    {
        self.figures
    }
}
