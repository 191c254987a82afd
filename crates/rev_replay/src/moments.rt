//! Who listens to a replay, and notes what the log says of each node of the tree that is kept, and which keys left in
//! front of it.
ghost use Rattle.std.specs.Prelude.{◌≡◌, min, drop, length, IfOk, OnOk};
ghost use Rattle.std.specs.Option.{option_copied};
ghost use Rattle.rev_replay.specs.Moments as rule;

use crate::fault::ReplayFault;
use crate::heard::{Heard, Listener};
use crate::keeping::Keeping;
use rev_evidence::departed::{Departed, Told};
use rev_evidence::heard::{connection, has_flushed, key_hash, said};
use rev_evidence::notes::{Moment, told_by};
use rev_evidence::verdict::Said;
use rev_explain::departures;
use rev_inverse::Store;
use rev_items::Key;
use rev_lead::Role;
use rev_model::ChunkRef;
use rev_watch::event::{Event, Timestamp};
use std::alloc::{AllocError, Allocator};
use std::mem;

/// A key that left, and what is told of it.
#[derive(Drop)]
struct Leaving<A: Allocator> {
    key: Vec<u8, A>,
    told: Told,
}

/// How a life of the server ended: which keys left since the root of its last tree, and which were held.
#[derive(Drop)]
struct Ending<A: Allocator> {
    left: Vec<Leaving<A>, A>,
    held: Vec<Vec<u8, A>, A>,
}

/// What the log says of each node, that of node 1 first, and which keys left in front of the root.
#[derive(Drop)]
pub(crate) struct Noting<A: Allocator> {
    alloc: A,
    keeping: Keeping,
    moments: Vec<Moment, A>,
    departed: Departed<A>,
    // how many steps lie in front of the tree's root, and the time of the last event that was played in front of it, if
    // there is one
    before: u64,
    since: Option<Timestamp>,
    // the time of the last event, if there is one
    now: Option<Timestamp>,
    // the number of the server's life, how the one ended that was played last, if it was played to its end, and when
    // the next one began, where nothing of that was heard
    life: u64,
    ending: Option<Ending<A>>,
    restart: Option<Timestamp>,
}

/// What an event says, for which steps of these roles were played.
pub(crate) fn moment_of<A: Allocator>(
    event: Option<&Event<A>>,
    time: Timestamp,
    roles: &[Role],
) -> Moment
    ensures { result ≡ rule.moment_of (option_copied event.entry) time roles.now }
{
    Moment {
        time,
        said: said(event),
        flushed: has_flushed(roles),
        connection: connection(event),
        key: key_hash(event),
    }
}

// What is said of nodes of which nobody told.
fn silence(time: Timestamp) -> Moment
    ensures { result ≡ rule.silence time }
{
    Moment {
        time,
        said: Said::Other,
        flushed: false,
        connection: None,
        key: None,
    }
}

/// A time, or the one at which nothing happened.
pub(crate) fn or_never(time: Option<Timestamp>) -> Timestamp
    ensures { result ≡ rule.or_never time }
{
    match time {
        Some(time) => time,
        None => Timestamp {
            seconds: 0,
            microseconds: 0,
        },
    }
}

// How many chunks a page has.
fn chunks_of<A: Allocator + Clone>(store: &Store<A>, page: u16) -> u16 {
    let page = usize::from(page);
    if store.made() <= page {
        return 0;
    }
    let class = store.owner(page);
    if class == 0 || store.table().last() < class {
        return 0;
    }
    store.table().per_page(class) as u16
}

// A copy of the bytes of a key.
fn bytes_of<A: Allocator>(alloc: A, key: &Key<A>) -> Result<Vec<u8, A>, AllocError> {
    let mut bytes = Vec::new(alloc);
    bytes.extend_from_slice(key.bytes())?;
    Ok(bytes)
}

// Puts a copy of the key of a chunk's item, if it has one.
fn put_key<A: Allocator + Copy>(
    alloc: A,
    keys: &mut Vec<Vec<u8, A>, A>,
    store: &Store<A>,
    chunk: ChunkRef,
) -> Result<(), AllocError> {
    if let Some(item) = store.content(chunk) {
        keys.push(bytes_of(alloc, item.key())?)?;
    }
    Ok(())
}

// Copies of the keys of all items that a store holds.
fn keys_of<A: Allocator + Copy>(
    alloc: A,
    store: &Store<A>,
) -> Result<Vec<Vec<u8, A>, A>, AllocError> {
    let mut keys = Vec::new(alloc);
    let pages = u16::try_from(store.made()).unwrap_or(u16::MAX);
    for page in 0..pages {
        for slot in 0..chunks_of(store, page) {
            put_key(alloc, &mut keys, store, ChunkRef { page, slot })?;
        }
    }
    Ok(keys)
}

// The keys that left in a tree of whose nodes the log says this, each with what is told of it.
fn leavings_of<A: Allocator + Copy>(
    alloc: A,
    heard: &Heard<'_, A>,
    moments: &[Moment],
) -> Result<Vec<Leaving<A>, A>, AllocError> {
    let mut left = Vec::new(alloc);
    for departure in departures(heard.session, None)? {
        let hash = departure.key.hash();
        match told_by(heard.roles, moments, departure.node, hash, departure.cause) {
            Some(told) => left.push(Leaving {
                key: bytes_of(alloc, departure.key)?,
                told,
            })?,
            None => {}
        }
    }
    Ok(left)
}

// Notes that keys left in front of the root.
fn put_left<A: Allocator + Copy>(
    alloc: A,
    departed: &mut Departed<A>,
    left: Vec<Leaving<A>, A>,
) -> Result<(), AllocError> {
    for leaving in left {
        departed.note(alloc, leaving.key, leaving.told)?;
    }
    Ok(())
}

// Notes that the server was started anew, and held these keys.
fn put_lost<A: Allocator + Copy>(
    departed: &mut Departed<A>,
    held: Vec<Vec<u8, A>, A>,
    time: Timestamp,
) -> Result<(), AllocError> {
    for key in held {
        departed.lose(key, time)?;
    }
    Ok(())
}

// Notes which keys left and were lost in a life of the server, behind which it was started anew.
fn put_ending<A: Allocator + Copy>(
    alloc: A,
    departed: &mut Departed<A>,
    ending: Ending<A>,
    time: Timestamp,
) -> Result<(), AllocError> {
    let Ending { left, held } = ending;
    put_left(alloc, departed, left)?;
    put_lost(departed, held, time)
}

impl<A: Allocator + Copy> Noting<A> {
    ghost use Rattle.rev_replay.specs.Replayed.{noting_of};

    /// There is no node. So much is kept of the steps.
    pub(crate) fn new(alloc: A, keeping: Keeping) -> Noting<A>
        ensures { noting_of result ≡ rule.nothing }
    {
        Noting {
            alloc,
            keeping,
            moments: Vec::new(alloc),
            departed: Departed::nobody(alloc),
            before: 0,
            since: None,
            now: None,
            life: 1,
            ending: None,
            restart: None,
        }
    }

    // The tree begins anew behind so many steps, and behind an event of this time, if there is one.
    fn begin(&mut self, before: u64, since: Option<Timestamp>)
        ensures { noting_of self.new ≡ rule.begun (noting_of self.old) before since }
    {
        self.moments.clear();
        self.before = before;
        self.since = since;
    }

    // So many steps lie in front of the root. Where they are others than before, the tree began anew where it stood.
    fn see_root(&mut self, before: u64)
        ensures { noting_of self.new ≡ rule.see_root (noting_of self.old) before }
    {
        if before != self.before {
            self.begin(before, self.now);
        }
    }

    // The same of a life that is played: where it is heard of for the first time, the root is its begin.
    fn see_life(&mut self, before: u64)
        ensures { noting_of self.new ≡ rule.see_life (noting_of self.old) before }
    {
        match self.restart.take() {
            None => self.see_root(before),
            Some(time) => self.begin(before, Some(time)),
        }
    }

    // Notes this of each node up to the one of this number of which nothing is noted.
    fn note(&mut self, nodes: usize, moment: Moment) -> Result<(), AllocError>
        ensures { OnOk result (noting_of self.new ≡ rule.noted (noting_of self.old) nodes moment) }
    {
        self.moments.resize(nodes, moment)
    }

    // Notes the moment of an event for each node of which nothing is noted: those whose steps were played for it.
    fn note_event(&mut self, heard: &Heard<'_, A>) -> Result<(), AllocError>
        ensures { OnOk result (noting_of self.new ≡ rule.note_event (noting_of self.old) (option_copied heard.now.event) heard.now.time heard.now.roles.now) }
    {
        let known = self.moments.len().min(heard.roles.len());
        let (_, new) = heard.roles.split_at(known);
        self.note(heard.roles.len(), moment_of(heard.event, heard.time, new))
    }

    // Hears of an event.
    fn hear(&mut self, heard: &Heard<'_, A>) -> Result<(), AllocError>
        ensures { OnOk result (noting_of self.new ≡ rule.heard (noting_of self.old) (option_copied heard.now.event) heard.now.time heard.now.roles.now heard.now.before) }
    {
        self.see_life(heard.before);
        self.now = Some(heard.time);
        self.note_event(heard)
    }

    // Whether the stage begins anew behind what was heard.
    fn is_passed(&self, heard: &Heard<'_, A>) -> bool {
        self.keeping.passes(heard.before, heard.session.issued())
    }

    // Sees which keys left in a tree that is let go behind an event.
    fn see_left(&mut self, heard: &Heard<'_, A>) -> Result<(), AllocError>
        ensures { noting_of self.new ≡ noting_of self.old }
    {
        if !self.is_passed(heard) {
            return Ok(());
        }
        let left = leavings_of(self.alloc, heard, self.moments.as_slice())?;
        put_left(self.alloc, &mut self.departed, left)
    }

    // How the life of the server ended of which all was heard.
    fn ending_of(&self, heard: &Heard<'_, A>) -> Result<Ending<A>, AllocError> {
        let left = if self.is_passed(heard) {
            Vec::new(self.alloc)
        } else {
            leavings_of(self.alloc, heard, self.moments.as_slice())?
        };
        Ok(Ending {
            left,
            held: keys_of(self.alloc, heard.session.store())?,
        })
    }

    // Sees how a life of the server ends, if another one may be played behind it.
    fn see_end(&mut self, heard: &Heard<'_, A>) -> Result<(), AllocError>
        ensures { noting_of self.new ≡ noting_of self.old }
    {
        if heard.event.is_none() && self.keeping.plays(self.life.saturating_add(1)) {
            self.ending = Some(self.ending_of(heard)?);
        }
        Ok(())
    }

    // Sees which keys are gone, where a tree is kept.
    fn see_gone(&mut self, heard: &Heard<'_, A>) -> Result<(), AllocError>
        ensures { noting_of self.new ≡ noting_of self.old }
    {
        match self.keeping {
            Keeping::Nothing => Ok(()),
            _ => {
                self.see_left(heard)?;
                self.see_end(heard)
            }
        }
    }

    // A life of the server ended at this time. What left before is not known where it was not played to its end.
    fn end_life(&mut self, time: Timestamp) -> Result<(), AllocError>
        ensures { noting_of self.new ≡ noting_of self.old }
    {
        match self.ending.take() {
            Some(ending) => put_ending(self.alloc, &mut self.departed, ending, time),
            None => {
                self.departed = Departed::nobody(self.alloc);
                Ok(())
            }
        }
    }

    /// What the log says of the nodes of the tree, which has so many, and so many steps in front of its root.
    ///
    /// Err: memory was refused.
    pub(crate) fn finish(self, before: u64, nodes: usize) -> Result<Noted<A>, AllocError>
        ensures moments { IfOk result (λ noted. noted.moments.items ≡ (rule.finished (noting_of self) before nodes).moments) }
        ensures since { IfOk result (λ noted. noted.since ≡ (rule.finished (noting_of self) before nodes).since) }
        ensures length { IfOk result (λ noted. length noted.moments.items ≡ nodes) }
    {
        let mut noting = self;
        noting.see_root(before);
        // Who played the last steps told of them, so this is said of no node.
        let silent = silence(or_never(noting.now));
        noting.note(nodes, silent)?;
        let Noting {
            moments,
            departed,
            since,
            ..
        } = noting;
        Ok(Noted {
            moments,
            departed,
            since,
        })
    }
}

impl<A: Allocator + Copy> Listener<A> for Noting<A> {
    ghost use Rattle.rev_replay.specs.Replayed.{noting_of};

    fn heard(&mut self, heard: &Heard<'_, A>) -> Result<(), ReplayFault>
        ensures { OnOk result (noting_of self.new ≡ rule.heard (noting_of self.old) (option_copied heard.now.event) heard.now.time heard.now.roles.now heard.now.before) }
    {
        self.hear(heard)?;
        self.see_gone(heard)?;
        Ok(())
    }

    fn restarted(&mut self, at: Timestamp, _steps: u64) -> Result<(), ReplayFault>
        ensures { OnOk result (noting_of self.new ≡ rule.restarted (noting_of self.old) at) }
    {
        self.end_life(at)?;
        self.life = self.life.saturating_add(1);
        self.now = Some(at);
        self.restart = Some(at);
        Ok(())
    }
}

/// What the log says of the nodes of a tree, and which keys left in front of it.
#[derive(Drop)]
pub(crate) struct Noted<A: Allocator> {
    pub(crate) moments: Vec<Moment, A>,
    pub(crate) departed: Departed<A>,
    /// The time of the last event in front of the root, if there is one, or of the first line of a life that begins
    /// there.
    pub(crate) since: Option<Timestamp>,
}
