//! The lines that one event becomes, with the steps of the actors that stand behind them.
ghost use Rattle.std.specs.Prelude.{◌≡◌, ◌≤◌, ◌<◌, ℕ, List, [], ◌∷◌, OnOk};
ghost use Rattle.rev_script.specs.Script.{ScriptLine};
ghost use Rattle.rev_import.specs.Writing.{Writes};
ghost use Rattle.rev_import.specs.Requests.{increment, decrement};
ghost use Rattle.rev_import.specs.Becoming.{look_up_lines, hit_lines, miss_lines, dropped_lines, store_lines, storing_of, exptime_of, event_lines, get, delete, Becomes};

use crate::figures::{Figures, one_more};
use crate::guess::{Guess, is_too_large};
use crate::writing::{
    Storing, put_bump, put_clock, put_crawl, put_crawl_start, put_decrement, put_delete, put_get,
    put_increment, put_move, put_pull, put_reassign, put_store,
};
use rev_choices::Rhythm;
use rev_classes::ClassTable;
use rev_items::{Key, MAX_RELATIVE_TTL, footprint};
use rev_model::Queue;
use rev_watch::event::{Event, LogLine, LookUpOutcome, StoreCommand, StoreOutcome};
use std::alloc::{AllocError, Allocator};

/// Classes are numbered below it.
const CLASSES: usize = 64;

/// Behind so many lines of clients that store nothing stands a step on the bump queue, where the rhythm is lean.
const LEAN_BUMPS: u32 = 10;

/// How many items the last crawl of each queue of a class looked at.
#[derive(Clone, Copy, Default)]
struct Examined {
    hot: u64,
    warm: u64,
    cold: u64,
    temp: u64,
}

impl Examined {
    fn of(&self, queue: Queue) -> u64 {
        match queue {
            Queue::Hot => self.hot,
            Queue::Warm => self.warm,
            Queue::Cold => self.cold,
            Queue::Temp => self.temp,
        }
    }

    fn set(&mut self, queue: Queue, count: u64) {
        match queue {
            Queue::Hot => self.hot = count,
            Queue::Warm => self.warm = count,
            Queue::Cold => self.cold = count,
            Queue::Temp => self.temp = count,
        }
    }
}

/// Writes the lines of events, one event after another.
#[derive(Drop)]
pub struct Scribe {
    classes: ClassTable,
    rhythm: Rhythm,
    // the last second that the clock was set to
    clock: Option<u32>,
    // how many lines of clients there were since the maintainer came, as far as the rhythm goes by them
    since: u32,
    // the classes that were stored in
    stored: [bool; CLASSES],
    examined: [Examined; CLASSES],
}

/// The command that is written for one that was logged, so that it stores where that one did, as far as can be said.
pub fn storing_of(command: StoreCommand, outcome: StoreOutcome) -> Storing
    ensures { result ≡ storing_of outcome command }
{
    match (outcome, command) {
        (StoreOutcome::Stored, _) => Storing::Set,
        (_, StoreCommand::Add) => Storing::Add,
        (_, StoreCommand::Replace | StoreCommand::Append | StoreCommand::Prepend) => {
            Storing::Replace
        }
        (StoreOutcome::NoMemory, StoreCommand::Cas) => Storing::Replace,
        (StoreOutcome::NoMemory, _) => Storing::Set,
        (StoreOutcome::NotFound, _) => Storing::Replace,
        _ => Storing::Add,
    }
}

/// The expiry time of a line for a time to live that was logged at this second: up to thirty days as it is, a longer
/// one as a moment, or none where the moment is past what a line can say; one of 2^31 or more was over as it came.
pub fn exptime_of(now: u32, ttl: u32) -> i32
    ensures { result ≡ exptime_of now ttl }
{
    if ttl >= 1 << 31 {
        return -1;
    }
    if ttl <= MAX_RELATIVE_TTL {
        return ttl as i32;
    }
    let moment = u64::from(now) + u64::from(ttl);
    if moment < 1 << 31 { moment as i32 } else { 0 }
}

impl Scribe {
    pub fn new(classes: ClassTable, rhythm: Rhythm) -> Scribe {
        Scribe {
            classes,
            rhythm,
            clock: None,
            since: 0,
            stored: [false; CLASSES],
            examined: [Examined::default(); CLASSES],
        }
    }

    /// One whose script begins at this second of the clock.
    pub fn starting(classes: ClassTable, rhythm: Rhythm, clock: u32) -> Scribe {
        let mut scribe = Scribe::new(classes, rhythm);
        scribe.clock = Some(clock);
        scribe
    }

    /// The class of an item, none where no page holds it.
    pub fn class_of<A: Allocator>(&self, key: &Key<A>, flags: u32, size: u32) -> Option<u32> {
        let class = self
            .classes
            .class_of(footprint(key, flags, u64::from(size)))?;
        u32::try_from(class).ok()
    }

    // Flags are not logged, but a class above that of the size tells that there are some.
    fn flags_of<A: Allocator>(&self, key: &Key<A>, size: u32, class: u32) -> u32
        ensures { result ≤ 1 }
    {
        match self.class_of(key, 0, size) {
            Some(least) if class > least => 1,
            _ => 0,
        }
    }

    // Counts an item that no page holds.
    fn count_unfit<A: Allocator>(
        &self,
        key: &Key<A>,
        flags: u32,
        size: u32,
        figures: &mut Figures,
    ) {
        if self.class_of(key, flags, size).is_none() {
            one_more(&mut figures.unfit);
        }
    }

    pub fn set_clock<B: Allocator>(
        &mut self,
        now: u32,
        out: &mut Vec<u8, B>,
        figures: &mut Figures,
    ) -> Result<(), AllocError>
        ensures { OnOk result (Writes out.old.items out.new.items []) }
    {
        if let Some(clock) = self.clock {
            if now <= clock {
                return Ok(());
            }
        }
        self.clock = Some(now);
        one_more(&mut figures.lines);
        put_clock(out, now)
    }

    fn juggle<B: Allocator>(
        &mut self,
        class: u32,
        out: &mut Vec<u8, B>,
        figures: &mut Figures,
    ) -> Result<(), AllocError>
        ensures { OnOk result (Writes out.old.items out.new.items []) }
    {
        one_more(&mut figures.lines);
        put_pull(out, class, Queue::Hot)?;
        one_more(&mut figures.lines);
        put_pull(out, class, Queue::Warm)
    }

    fn bump<B: Allocator>(
        &mut self,
        out: &mut Vec<u8, B>,
        figures: &mut Figures,
    ) -> Result<(), AllocError>
        ensures { OnOk result (Writes out.old.items out.new.items []) }
    {
        one_more(&mut figures.lines);
        put_bump(out)
    }

    // Whether so many lines were written since the maintainer came, this one among them; it comes then.
    fn is_due(&mut self, count: u32) -> bool {
        if self.since.saturating_add(1) < count {
            self.since = self.since.saturating_add(1);
            return false;
        }
        self.since = 0;
        true
    }

    // The maintainer comes to a class if it was stored in.
    fn juggle_stored<B: Allocator>(
        &mut self,
        class: usize,
        out: &mut Vec<u8, B>,
        figures: &mut Figures,
    ) -> Result<(), AllocError>
        requires { class < 64 }
        ensures { OnOk result (Writes out.old.items out.new.items []) }
    {
        if self.stored[class] {
            self.juggle(class as u32, out, figures)
        } else {
            Ok(())
        }
    }

    fn juggle_all<B: Allocator>(
        &mut self,
        out: &mut Vec<u8, B>,
        figures: &mut Figures,
    ) -> Result<(), AllocError>
        ensures { OnOk result (Writes out.old.items out.new.items []) }
    {
        for class in 1..CLASSES {
            self.juggle_stored(class, out, figures)?;
        }
        self.bump(out, figures)
    }

    // What stands behind a line of a client that stores in a class, or in none.
    fn maintain<B: Allocator>(
        &mut self,
        class: Option<u32>,
        out: &mut Vec<u8, B>,
        figures: &mut Figures,
    ) -> Result<(), AllocError>
        ensures { OnOk result (Writes out.old.items out.new.items []) }
    {
        if let Some(class) = class {
            if let Some(stored) = self.stored.get_mut(class as usize) {
                *stored = true;
            }
        }
        match self.rhythm {
            Rhythm::None | Rhythm::Every(0) => Ok(()),
            Rhythm::Lean => match class {
                Some(class) => self.juggle(class, out, figures),
                None if self.is_due(LEAN_BUMPS) => self.bump(out, figures),
                None => Ok(()),
            },
            Rhythm::Every(count) => {
                if self.is_due(count) {
                    self.juggle_all(out, figures)
                } else {
                    Ok(())
                }
            }
        }
    }

    pub fn get<A: Allocator, B: Allocator>(
        &mut self,
        key: &Key<A>,
        out: &mut Vec<u8, B>,
        figures: &mut Figures,
    ) -> Result<(), AllocError>
        ensures { OnOk result (Writes out.old.items out.new.items (get key.now ∷ [])) }
    {
        one_more(&mut figures.lines);
        put_get(out, key)?;
        self.maintain(None, out, figures)
    }

    pub fn delete<A: Allocator, B: Allocator>(
        &mut self,
        key: &Key<A>,
        out: &mut Vec<u8, B>,
        figures: &mut Figures,
    ) -> Result<(), AllocError>
        ensures { OnOk result (Writes out.old.items out.new.items (delete key.now ∷ [])) }
    {
        one_more(&mut figures.lines);
        put_delete(out, key)?;
        self.maintain(None, out, figures)
    }

    pub fn increment<A: Allocator, B: Allocator>(
        &mut self,
        key: &Key<A>,
        out: &mut Vec<u8, B>,
        figures: &mut Figures,
    ) -> Result<(), AllocError>
        ensures { OnOk result (Writes out.old.items out.new.items (increment key.now ∷ [])) }
    {
        one_more(&mut figures.lines);
        put_increment(out, key)?;
        self.maintain(None, out, figures)
    }

    pub fn decrement<A: Allocator, B: Allocator>(
        &mut self,
        key: &Key<A>,
        out: &mut Vec<u8, B>,
        figures: &mut Figures,
    ) -> Result<(), AllocError>
        ensures { OnOk result (Writes out.old.items out.new.items (decrement key.now ∷ [])) }
    {
        one_more(&mut figures.lines);
        put_decrement(out, key)?;
        self.maintain(None, out, figures)
    }

    fn hit<A: Allocator, B: Allocator>(
        &mut self,
        key: &Key<A>,
        guess: Guess,
        out: &mut Vec<u8, B>,
        figures: &mut Figures,
    ) -> Result<(), AllocError>
        ensures { OnOk result (Writes out.old.items out.new.items (hit_lines key.now guess.own guess.deletes)) }
    {
        if guess.own {
            return Ok(());
        }
        one_more(&mut figures.hits);
        if guess.deletes {
            self.delete(key, out, figures)
        } else {
            self.get(key, out, figures)
        }
    }

    // A key that was held is deleted.
    fn drop_key<A: Allocator, B: Allocator>(
        &mut self,
        key: &Key<A>,
        guess: Guess,
        out: &mut Vec<u8, B>,
        figures: &mut Figures,
    ) -> Result<(), AllocError>
        ensures { OnOk result (Writes out.old.items out.new.items (dropped_lines key.now guess.deletes)) }
    {
        if guess.deletes {
            self.delete(key, out, figures)
        } else {
            Ok(())
        }
    }

    fn miss<A: Allocator, B: Allocator>(
        &mut self,
        key: &Key<A>,
        guess: Guess,
        out: &mut Vec<u8, B>,
        figures: &mut Figures,
    ) -> Result<(), AllocError>
        ensures { OnOk result (Writes out.old.items out.new.items (miss_lines key.now guess.own guess.deletes)) }
    {
        self.drop_key(key, guess, out, figures)?;
        if guess.own {
            return Ok(());
        }
        one_more(&mut figures.misses);
        self.get(key, out, figures)
    }

    fn too_large<A: Allocator, B: Allocator>(
        &mut self,
        key: &Key<A>,
        guess: Guess,
        out: &mut Vec<u8, B>,
        figures: &mut Figures,
    ) -> Result<(), AllocError>
        ensures { OnOk result (Writes out.old.items out.new.items (dropped_lines key.now guess.deletes)) }
    {
        one_more(&mut figures.too_large);
        self.drop_key(key, guess, out, figures)
    }

    pub fn store<A: Allocator, B: Allocator>(
        &mut self,
        storing: Storing,
        key: &Key<A>,
        flags: u32,
        exptime: i32,
        size: u32,
        out: &mut Vec<u8, B>,
        figures: &mut Figures,
    ) -> Result<(), AllocError>
        requires { size ≤ 1048576 }
        ensures { OnOk result (Writes out.old.items out.new.items (store_lines storing key.now flags exptime size)) }
    {
        one_more(&mut figures.lines);
        put_store(out, storing, key, flags, exptime, size)?;
        self.maintain(self.class_of(key, flags, size), out, figures)
    }

    fn look_up<A: Allocator, B: Allocator>(
        &mut self,
        key: &Key<A>,
        outcome: LookUpOutcome,
        guess: Guess,
        out: &mut Vec<u8, B>,
        figures: &mut Figures,
    ) -> Result<(), AllocError>
        ensures { OnOk result (Writes out.old.items out.new.items (look_up_lines outcome key.now guess.own guess.deletes)) }
    {
        match outcome {
            LookUpOutcome::Found => self.hit(key, guess, out, figures),
            LookUpOutcome::NotFound
            | LookUpOutcome::Expired
            | LookUpOutcome::Flushed
            | LookUpOutcome::Other => self.miss(key, guess, out, figures),
        }
    }

    fn move_page<B: Allocator>(
        &mut self,
        source: u32,
        target: u32,
        out: &mut Vec<u8, B>,
        figures: &mut Figures,
    ) -> Result<(), AllocError>
        ensures { OnOk result (Writes out.old.items out.new.items []) }
    {
        let last = self.classes.last() as u32;
        if source == 0 || source > last || target > last {
            one_more(&mut figures.other_classes);
            return Ok(());
        }
        one_more(&mut figures.lines);
        put_reassign(out, source, target)?;
        // a step for each chunk, and one that hands the page over
        for _ in 0..=self.classes.per_page(source as usize) {
            one_more(&mut figures.lines);
            put_move(out)?;
        }
        Ok(())
    }

    fn crawl_queue<B: Allocator>(
        &mut self,
        class: u32,
        queue: Queue,
        count: u64,
        out: &mut Vec<u8, B>,
        figures: &mut Figures,
    ) -> Result<(), AllocError>
        ensures { OnOk result (Writes out.old.items out.new.items []) }
    {
        // a step for each item, and one that ends
        for _ in 0..count {
            one_more(&mut figures.lines);
            put_crawl(out, class, queue)?;
        }
        one_more(&mut figures.lines);
        put_crawl(out, class, queue)
    }

    // Crawls all queues of a class, of each as many items as the last crawl looked at, but no more than `most`.
    fn crawl_class<B: Allocator>(
        &mut self,
        class: u32,
        examined: Examined,
        most: u64,
        out: &mut Vec<u8, B>,
        figures: &mut Figures,
    ) -> Result<(), AllocError>
        ensures { OnOk result (Writes out.old.items out.new.items []) }
    {
        if class == 0 || class > self.classes.last() as u32 {
            one_more(&mut figures.other_classes);
            return Ok(());
        }
        one_more(&mut figures.lines);
        put_crawl_start(out, class)?;
        for queue in [Queue::Hot, Queue::Warm, Queue::Cold, Queue::Temp] {
            self.crawl_queue(class, queue, examined.of(queue).min(most), out, figures)?;
        }
        Ok(())
    }

    fn end_crawl<B: Allocator>(
        &mut self,
        class: u32,
        queue: Queue,
        examined: u64,
        reclaimed: u64,
        most: u64,
        out: &mut Vec<u8, B>,
        figures: &mut Figures,
    ) -> Result<(), AllocError>
        ensures { OnOk result (Writes out.old.items out.new.items []) }
    {
        let Some(last) = self.examined.get_mut(class as usize) else {
            one_more(&mut figures.other_classes);
            return Ok(());
        };
        last.set(queue, examined);
        let last = *last;
        if queue == Queue::Cold && (examined > 0 || reclaimed > 0) {
            self.crawl_class(class, last, most, out, figures)
        } else {
            Ok(())
        }
    }

    /// Writes the lines of an event. No crawl looks at more than `most` items of a queue.
    ///
    /// Err: memory was refused.
    pub fn write<A: Allocator, B: Allocator>(
        &mut self,
        line: &LogLine<A>,
        guess: Guess,
        most: u64,
        out: &mut Vec<u8, B>,
        figures: &mut Figures,
    ) -> Result<(), AllocError>
        ensures { OnOk result ((clients : List ScriptLine) × Becomes line.now clients × Writes out.old.items out.new.items clients) }
    {
        let now = line.time.seconds;
        self.set_clock(now, out, figures)?;
        match &line.event {
            Event::LookUp { key, outcome, .. } => {
                self.look_up(key, *outcome, guess, out, figures)
            }
            Event::Store {
                key,
                command,
                outcome,
                ttl,
                class,
                size,
                ..
            } => {
                if is_too_large(*outcome, *size) {
                    return self.too_large(key, guess, out, figures);
                }
                let storing = storing_of(*command, *outcome);
                let exptime = exptime_of(now, *ttl);
                let flags = self.flags_of(key, *size, *class);
                self.count_unfit(key, flags, *size, figures);
                self.store(storing, key, flags, exptime, *size, out, figures)
            }
            Event::Deletion { key, .. } => self.delete(key, out, figures),
            Event::PageMove { source, target } => self.move_page(*source, *target, out, figures),
            Event::CrawlEnd {
                class,
                queue,
                examined,
                reclaimed,
                ..
            } => self.end_crawl(*class, *queue, *examined, *reclaimed, most, out, figures),
            _ => Ok(()),
        }
    }
}
