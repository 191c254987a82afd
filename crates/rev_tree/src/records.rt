//! The records of steps, one behind another in one list of changes.
ghost use Rattle.std.specs.Prelude.{◌≡◌, ◌<◌, ◌^◌, ◌++◌, ◌∷◌, [], length, get_or, set, take, reverse, IfOk, OnOk, OnErr};
ghost use Rattle.rev_model.specs.State.{WellFormed};
ghost use Rattle.rev_model.specs.Move.{Fits, turned};
ghost use Rattle.rev_inverse.specs.Record.{fitted, no_record};

use rev_inverse::{Change, Record, RecordRef, Store};
use std::alloc::{AllocError, Allocator};
use std::marker::Model;

// Which changes of the list are a record's, and whether they stand the other way round, the last in front.
#[derive(Clone, Copy, Drop)]
struct Extent {
    start: u32,
    count: u16,
    is_turned: bool,
}

/// Records of steps, one behind another. They are read and turned where they stand, so who turns them in a row goes
/// through memory in a row.
#[derive(Drop)]
pub struct Records<A: Allocator> {
    changes: Vec<Change<A>, A>,
    extents: Vec<Extent, A>,
}

impl<A: Allocator> Model for Records<A> {
    ghost use Rattle.std.specs.Prelude.{List, map, length};
    ghost use Rattle.rev_inverse.specs.Record.{PlainRecord, plain_change};
    ghost use Rattle.rev_tree.specs.Cuts.{cut_by, Tiles};

    ghost Value = { List PlainRecord };

    ghost view = { λ r. cut_by r.extents.items (map plain_change r.changes.items) };

    ghost invariant = { λ r. Tiles 0 r.extents.items (length r.changes.items) };
}

impl<A: Allocator> Records<A> {
    /// No record.
    ///
    /// Err: a handle on the allocator was refused.
    pub fn new(alloc: &A) -> Result<Records<A>, AllocError>
    where
        A: Clone,
        ensures { IfOk result (λ r. r ≡ []) }
    {
        Ok(Records {
            changes: Vec::new(alloc.clone()?),
            extents: Vec::new(alloc.clone()?),
        })
    }

    /// How many records there are.
    pub fn len(&self) -> usize
        ensures value { result ≡ length self.now }
        ensures small { length self.now < 2 ^ 63 }
    {
        self.extents.len()
    }

    /// Moves a record behind the others; it then has no moves left. A record has at most 65535 changes, and all
    /// together at most 2^32.
    ///
    /// Err: a growth was refused, or there would be more changes; nothing is changed.
    pub fn push(&mut self, undo: &mut Record<A>) -> Result<(), AllocError>
        ensures ok { OnOk result (self.new ≡ self.old ++ fitted undo.old ∷ []) }
        ensures emptied { OnOk result (undo.new.changes ≡ []) }
        ensures err { OnErr result ((self.new ≡ self.old) × (undo.new ≡ undo.old)) }
    {
        let Ok(start) = u32::try_from(self.changes.len()) else {
            return Err(AllocError);
        };
        let Ok(count) = u16::try_from(undo.len()) else {
            return Err(AllocError);
        };
        self.extents.reserve(1)?;
        undo.append_to(&mut self.changes)?;
        let extent = Extent {
            start,
            count,
            is_turned: false,
        };
        match self.extents.push(extent) {
            Ok(()) => Ok(()),
            Err(_) => unreachable!(),
        }
    }

    /// Keeps the first `n` records.
    pub fn truncate(&mut self, n: usize)
        ensures { self.new ≡ take n self.old }
    {
        if n >= self.extents.len() {
            return;
        }
        let end = self.extents[n].start as usize;
        self.changes.truncate(end);
        self.extents.truncate(n);
    }

    /// The i-th record, from 0.
    pub fn record(&self, i: usize) -> RecordRef<'_, A>
        requires { i < length self.now }
        ensures { result ≡ get_or self.now i no_record }
    {
        let extent = self.extents[i];
        let (_, behind) = self.changes.as_slice().split_at(extent.start as usize);
        let (changes, _) = behind.split_at(extent.count as usize);
        RecordRef::new(changes, extent.is_turned)
    }

    /// Plays the i-th record, from its last move to its first. It then holds the reverses, each with the note that it
    /// had, and turns the store back. It takes no memory.
    pub fn turn(&mut self, i: usize, store: &mut Store<A>)
        requires within { i < length self.old }
        requires well { WellFormed store.old }
        requires fits { Fits (get_or self.old i no_record).moves store.old }
        ensures state { store.new ≡ (turned (get_or self.old i no_record).moves store.old).0 }
        ensures others { self.new ≡ set self.old i (get_or self.new i no_record) }
        ensures moves { (get_or self.new i no_record).moves ≡ (turned (get_or self.old i no_record).moves store.old).1 }
        ensures notes { (get_or self.new i no_record).notes ≡ reverse (get_or self.old i no_record).notes }
        ensures room { (get_or self.new i no_record).room ≡ (get_or self.old i no_record).room }
        ensures well { WellFormed store.new }
    {
        let extent = &mut self.extents[i];
        let start = extent.start as usize;
        let end = start + extent.count as usize;
        store.turn_changes(self.changes.slice_mut(start..end), extent.is_turned);
        extent.is_turned = !extent.is_turned;
    }
}
