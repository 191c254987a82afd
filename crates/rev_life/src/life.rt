//! The lives of a key: from a store until it leaves or is stored anew.
ghost use Rattle.std.specs.Prelude.{◌≡◌, IfOk, OnOk};
ghost use Rattle.rev_life.specs.Lives as rule;
ghost use Rattle.std.specs.Option.{option_map};
ghost use Rattle.rev_life.specs.Lives.{plain_life, plain_left, plain_ended, plain_key};
ghost use Rattle.rev_pushers.specs.Pushed.{plain_pushed};

use rev_evidence::verdict::{Reason, Verdict};
use rev_items::Key;
use rev_model::Queue;
use rev_pushers::pushed::PushedBy;
use rev_pushers::stored::Stored;
use rev_pushers::times::between;
use rev_watch::event::Timestamp;
use std::alloc::{AllocError, Allocator};

/// How many moves of a life are kept, the last ones (this project's own figure).
pub const MOST_MOVES: usize = 64;

/// A move from one queue to another.
#[derive(Clone, Copy)]
pub struct Moved {
    pub time: Timestamp,
    pub step: u64,
    pub from: Queue,
    pub to: Queue,
}

/// The step that pushed a key out: the store that wanted its chunk.
#[derive(Drop)]
pub struct Culprit<A: Allocator> {
    pub key: Key<A>,
    pub connection: Option<i32>,
    pub step: u64,
}

/// How a life ended.
#[derive(Drop)]
pub struct Left<A: Allocator> {
    pub time: Timestamp,
    pub step: u64,
    pub verdict: Verdict,
    /// Where it is known only between which lines: the last one before, and the one at which the key was gone.
    pub after: Option<Timestamp>,
    pub before: Option<Timestamp>,
    /// The step that pushed the key out, where one did.
    pub culprit: Option<Culprit<A>>,
}

/// A life of a key.
#[derive(Drop)]
pub struct Life<A: Allocator> {
    /// From 1 for the key's first.
    pub number: u64,
    pub stored: Stored,
    /// Whether it was stored in the place of the life before.
    pub over: bool,
    /// The look-ups that found the key, but for those of storage commands.
    pub hits: u64,
    /// When it was last found or stored.
    pub used: Timestamp,
    /// The last moves.
    pub moves: Vec<Moved, A>,
    /// How many moves there were.
    pub moved: u64,
}

/// A life that has ended.
#[derive(Drop)]
pub struct Ended<A: Allocator> {
    pub life: Life<A>,
    pub left: Left<A>,
    /// Who pushed the key out, where it was evicted and that is known.
    pub pushed: Option<PushedBy<A>>,
}

/// What is known of a key that is asked for.
#[derive(Drop)]
pub struct KeyLives<A: Allocator> {
    pub key: Key<A>,
    /// The time of the last line that named it.
    pub named: Option<Timestamp>,
    /// How many lives it had.
    pub count: u64,
    /// Its lives that have ended, or the last of them alone.
    pub ended: Vec<Ended<A>, A>,
    /// Its life that has not.
    pub held: Option<Life<A>>,
}

// Whether a key that left so was evicted.
fn is_eviction(reason: Reason) -> bool
    ensures { result ≡ rule.is_eviction reason }
{
    match reason {
        Reason::Evicted | Reason::EvictedByMover => true,
        _ => false,
    }
}

// Whether a key that left so was evicted, and it is not known yet who pushed it out.
fn is_open<A: Allocator>(pushed: &Option<PushedBy<A>>, reason: Reason) -> bool
    ensures { result ≡ rule.is_open (option_map plain_pushed pushed.now) reason }
{
    match pushed {
        Some(_) => false,
        None => is_eviction(reason),
    }
}

// The same of a life of this number.
fn wants<A: Allocator>(ended: &Ended<A>, number: u64) -> bool
    ensures { result ≡ rule.wants number (plain_ended ended.now) }
{
    if ended.life.number == number {
        is_open(&ended.pushed, ended.left.verdict.reason)
    } else {
        false
    }
}

impl<A: Allocator> Life<A> {
    /// A life that begins.
    pub fn new(alloc: A, number: u64, stored: Stored, over: bool) -> Life<A>
        ensures { plain_life result ≡ rule.new_life number stored over }
    {
        Life {
            number,
            stored,
            over,
            hits: 0,
            used: stored.time,
            moves: Vec::new(alloc),
            moved: 0,
        }
    }

    /// The life with one more look-up that found the key.
    pub fn hit(self, time: Timestamp) -> Life<A>
        ensures { plain_life result ≡ rule.hit_life time (plain_life self) }
    {
        let mut life = self;
        life.hits = life.hits.saturating_add(1);
        life.used = time;
        life
    }

    /// The life with one more move. Where too many are kept, the first of them is let go.
    ///
    /// Err: memory was refused.
    pub fn with_move(self, moved: Moved) -> Result<Life<A>, AllocError>
        ensures { IfOk result (λ life. plain_life life ≡ rule.moved_life moved (plain_life self)) }
    {
        let mut life = self;
        if life.moves.len() >= MOST_MOVES {
            let _ = life.moves.remove(0);
        }
        life.moves.push(moved)?;
        life.moved = life.moved.saturating_add(1);
        Ok(life)
    }

    /// How many microseconds it lasted up to a moment; none where the log does not show its store.
    pub fn lived(&self, end: Timestamp) -> Option<u64>
        ensures { result ≡ rule.lived self.now.stored end }
    {
        if self.stored.logged {
            Some(between(self.stored.time, end))
        } else {
            None
        }
    }

    /// How many microseconds it was neither found nor stored up to a moment.
    pub fn idle(&self, end: Timestamp) -> u64
        ensures { result ≡ rule.idle self.now.used end }
    {
        between(self.used, end)
    }
}

impl<A: Allocator + Copy> KeyLives<A> {
    /// Nothing is known yet.
    pub fn new(alloc: A, key: Key<A>) -> KeyLives<A>
        ensures { plain_key result ≡ rule.unknown key }
    {
        KeyLives {
            key,
            named: None,
            count: 0,
            ended: Vec::new(alloc),
            held: None,
        }
    }

    /// Ends the life that has not ended, where there is one.
    ///
    /// Err: memory was refused.
    pub fn end(&mut self, left: Left<A>) -> Result<(), AllocError>
        ensures key { OnOk result (plain_key self.new ≡ rule.ended_by (plain_left left) (plain_key self.old)) }
        ensures same { self.new.key ≡ self.old.key }
    {
        match self.held.take() {
            Some(life) => {
                let ended = Ended {
                    life,
                    left,
                    pushed: None,
                };
                self.ended.push(ended)?;
                Ok(())
            }
            None => {
                drop(left);
                Ok(())
            }
        }
    }

    /// Begins a life; with `last` those that have ended are let go.
    pub fn begin(&mut self, alloc: A, stored: Stored, over: bool, last: bool)
        ensures key { plain_key self.new ≡ rule.begun stored over last (plain_key self.old) }
        ensures same { self.new.key ≡ self.old.key }
    {
        if last {
            self.ended.clear();
        }
        self.count = self.count.saturating_add(1);
        self.held = Some(Life::new(alloc, self.count, stored, over));
    }

    // Whether the last life ended by what the log does not say, and none has begun since.
    fn is_doubtful(&self) -> bool
        ensures { result ≡ rule.is_doubtful (plain_key self.now) }
    {
        match &self.held {
            Some(_) => false,
            None => match self.ended.last() {
                Some(life) => !life.left.verdict.evidence.is_logged(),
                None => false,
            },
        }
    }

    /// Goes on with the last life, where it ended by what the log does not say, and none has begun since.
    pub fn reopen(&mut self)
        ensures reopened { plain_key self.new ≡ rule.reopened (plain_key self.old) }
        ensures same { self.new.key ≡ self.old.key }
    {
        if !self.is_doubtful() {
            return;
        }
        match self.ended.pop() {
            Some(Ended { life, left, pushed }) => {
                drop(left);
                drop(pushed);
                self.held = Some(life);
            }
            None => {}
        }
    }

    /// Whether the last life that ended has this number and was evicted, and it is not yet known who pushed the key
    /// out.
    pub fn wants_pushed(&self, number: u64) -> bool
        ensures { result ≡ rule.wants_pushed number (plain_key self.now) }
    {
        match self.ended.last() {
            Some(ended) => wants(ended, number),
            None => false,
        }
    }

    /// Notes who pushed the key out at the end of the last life that has ended.
    ///
    /// Err: memory was refused.
    pub fn note_pushed(&mut self, pushed: PushedBy<A>) -> Result<(), AllocError>
        ensures key { OnOk result (plain_key self.new ≡ rule.noted (plain_pushed pushed) (plain_key self.old)) }
        ensures same { self.new.key ≡ self.old.key }
    {
        match self.ended.pop() {
            Some(
                Ended {
                    life,
                    left,
                    pushed: known,
                },
            ) => {
                drop(known);
                let noted = Ended {
                    life,
                    left,
                    pushed: Some(pushed),
                };
                self.ended.push(noted)?;
                Ok(())
            }
            None => {
                drop(pushed);
                Ok(())
            }
        }
    }

    /// Counts a look-up that found the key, where there is a life that has not ended.
    pub fn hit(&mut self, time: Timestamp)
        ensures key { plain_key self.new ≡ rule.hit time (plain_key self.old) }
        ensures same { self.new.key ≡ self.old.key }
    {
        match self.held.take() {
            Some(life) => self.held = Some(life.hit(time)),
            None => {}
        }
    }

    /// Adds a move, where there is a life that has not ended.
    ///
    /// Err: memory was refused.
    pub fn shift(&mut self, moved: Moved) -> Result<(), AllocError>
        ensures key { OnOk result (plain_key self.new ≡ rule.shifted moved (plain_key self.old)) }
        ensures same { self.new.key ≡ self.old.key }
    {
        match self.held.take() {
            Some(life) => {
                self.held = Some(life.with_move(moved)?);
                Ok(())
            }
            None => Ok(()),
        }
    }
}
