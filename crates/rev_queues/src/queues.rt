//! The queues of all classes, with their bytes and counts.
ghost use Rattle.std.specs.Prelude.{◌≡◌, ℕ, ◌+◌, ◌*◌, ◌<◌, ◌≤◌, ◌^◌, [], true, false, Some, length, map, slice_get, slice_index, slice_index_or, slice_set, IfOk};
ghost use Rattle.rev_model.specs.Chunk.{same_entry, EntryHasSlot};
ghost use Rattle.rev_model.specs.Lists.{has, before, has_after};
ghost use Rattle.rev_model.specs.State.{queue_place};
ghost use Rattle.rev_model.specs.Words.{tail, queue_among};
ghost use Rattle.rev_links.specs.Neighbours.{behind_of};
ghost use Rattle.rev_model.specs.declared.Entry.TheVariants.{Mark};
ghost use Rattle.rev_model.specs.declared.Queue.TheVariants.{Temp};
ghost use Rattle.rev_queues.specs.Entries.{entries, footprints, queued_with, without_entry, insert_entry, last_of};
ghost use Rattle.rev_queues.specs.QueueState.{QueuesState, id_of, line, empty_queues, IsGone, StandsIn, IsClear};

use crate::links::Links;
use crate::making::empty_ends;
use crate::members::{
    Member, QueueId, Standing, Tally, bytes_told, chunk_at, entry_at, member_in, position_in,
};
use crate::parts::Slots;
use rev_classes::{ClassTable, Config};
use rev_links::{Cells, CountedGrid, RingPlace, Ticks};
use rev_model::{ChunkRef, Entry, Queue};
use std::alloc::{AllocError, Allocator};
use std::marker::{Brand, Model};
use std::sync::ledger::{Blank, Ledger};

// The number of a queue in the tables.
fn id_of(class: usize, queue: Queue) -> QueueId
    requires { queue_place class queue < 65536 }
    ensures { result ≡ id_of class queue }
{
    let number = match queue {
        Queue::Hot => 0,
        Queue::Warm => 1,
        Queue::Cold => 2,
        Queue::Temp => 3,
    };
    QueueId {
        number: (4 * class + number) as u16,
    }
}

/// The queues of all slab classes, each with its entries, head first, and the bytes that each entry counts.
///
/// Places of queues are numbered: four for each class, class 0 too. Each entry knows its neighbours, and each chunk its
/// queue, so nothing here searches. After `open` only `slots` takes memory.
#[derive(Drop)]
pub struct Queues<A: Allocator> {
    links: Links<A>,
    tallies: Cells<Tally, A>,
}

impl<A: Allocator> Model for Queues<A> {
    ghost use Rattle.rev_queues.specs.QueueState.{QueuesState, state_of, IsLinked};

    ghost Value = { QueuesState };

    ghost view = { λ s. state_of s.links.ends s.links.marks s.links.slots };

    ghost invariant = { λ s. IsLinked s.links.ends s.links.marks s.links.slots s.tallies };
}

impl<A: Allocator> Queues<A> {
    /// The last chunk of a queue, where a mark is passed over.
    pub fn tail<L: Ledger>(
        &self,
        class: usize,
        queue: Queue,
        ticks: &mut Ticks<L>,
    ) -> Option<ChunkRef>
        requires { queue_place class queue < length self.now.queues }
        ensures value { result ≡ tail (line self.now class queue) }
        ensures cost { ticks.new ≤ ticks.old + 16 }
    {
        let end = RingPlace::End(self.id(class, queue));
        match self.links.link(end, ticks).previous {
            RingPlace::End(_) => None,
            RingPlace::At(member) => match member {
                Member::Chunk(chunk) => Some(chunk),
                Member::Mark(_) => chunk_at(self.links.link(RingPlace::At(member), ticks).previous),
            },
        }
    }

    /// The last entry of a queue, a chunk or the mark.
    pub fn last<L: Ledger>(&self, class: usize, queue: Queue, ticks: &mut Ticks<L>) -> Option<Entry>
        requires { queue_place class queue < length self.now.queues }
        ensures value { result ≡ last_of (line self.now class queue) }
        ensures cost { ticks.new ≤ ticks.old + 16 }
    {
        let end = RingPlace::End(self.id(class, queue));
        entry_at(self.links.link(end, ticks).previous)
    }

    /// The first entry of a queue, a chunk or the mark.
    pub fn head<L: Ledger>(&self, class: usize, queue: Queue, ticks: &mut Ticks<L>) -> Option<Entry>
        requires { queue_place class queue < length self.now.queues }
        ensures value { result ≡ slice_get (line self.now class queue) 0 }
        ensures cost { ticks.new ≤ ticks.old + 16 }
    {
        let end = RingPlace::End(self.id(class, queue));
        entry_at(self.links.link(end, ticks).next)
    }

    /// What stands before an entry of a queue; nothing before the first.
    pub fn before<L: Ledger>(
        &self,
        class: usize,
        queue: Queue,
        entry: Entry,
        ticks: &mut Ticks<L>,
    ) -> Option<Entry>
        requires place { queue_place class queue < length self.now.queues }
        requires there { has same_entry entry (line self.now class queue) ≡ true }
        ensures value { result ≡ before same_entry entry (line self.now class queue) }
        ensures cost { ticks.new ≤ ticks.old + 16 }
    {
        let member = member_in(self.id(class, queue), entry);
        entry_at(self.links.link(RingPlace::At(member), ticks).previous)
    }

    /// What stands behind an entry of a queue; nothing behind the last.
    pub fn behind<L: Ledger>(
        &self,
        class: usize,
        queue: Queue,
        entry: Entry,
        ticks: &mut Ticks<L>,
    ) -> Option<Entry>
        requires place { queue_place class queue < length self.now.queues }
        requires there { has same_entry entry (line self.now class queue) ≡ true }
        ensures value { result ≡ behind_of same_entry entry (line self.now class queue) }
        ensures cost { ticks.new ≤ ticks.old + 16 }
    {
        let member = member_in(self.id(class, queue), entry);
        entry_at(self.links.link(RingPlace::At(member), ticks).next)
    }

    /// The bytes of a queue: the sum of the footprints that its chunks were put in with.
    pub fn bytes<L: Ledger>(&self, class: usize, queue: Queue, ticks: &mut Ticks<L>) -> u64
        requires { queue_place class queue < length self.now.queues }
        ensures value { result ≡ footprints (slice_index_or self.now.queues (queue_place class queue) []) }
        ensures cost { ticks.new ≤ ticks.old + 16 }
    {
        let place = usize::from(self.id(class, queue).number);
        self.tallies.get(place, ticks).bytes
    }

    /// How many entries a queue has, its mark among them.
    pub fn count(&self, class: usize, queue: Queue) -> usize
        requires { queue_place class queue < length self.now.queues }
        ensures { result ≡ length (line self.now class queue) }
    {
        self.tally::<Brand>(self.id(class, queue), Blank::new(1))
            .count
    }

    /// Whether a mark stands in a queue.
    pub fn has_mark(&self, class: usize, queue: Queue) -> bool
        requires { queue_place class queue < length self.now.queues }
        ensures { result ≡ has same_entry Mark (line self.now class queue) }
    {
        self.tally::<Brand>(self.id(class, queue), Blank::new(1))
            .marked
    }

    /// The queue of a class in which a chunk stands, without a search: the chunk's slot names it.
    pub fn queue_with(&self, class: usize, chunk: ChunkRef) -> Queue
        requires class { queue_place class Temp < length self.now.queues }
        requires there { StandsIn self.now.queues class chunk }
        ensures { result ≡ queue_among (map entries self.now.queues) class chunk }
    {
        self.queue_by::<Brand>(class, chunk, Blank::new(1))
    }

    /// Takes an entry out of a queue, and answers what stood before it.
    pub fn take<L: Ledger>(
        &mut self,
        class: usize,
        queue: Queue,
        entry: Entry,
        ticks: &mut Ticks<L>,
    ) -> Option<Entry>
        requires place { queue_place class queue < length self.old.queues }
        requires there { has same_entry entry (line self.old class queue) ≡ true }
        ensures before { result ≡ before same_entry entry (line self.old class queue) }
        ensures queues { self.new.queues ≡ slice_set self.old.queues (queue_place class queue)
            (without_entry entry (slice_index_or self.old.queues (queue_place class queue) [])) }
        ensures slots { self.new.slots ≡ self.old.slots }
        ensures cost { ticks.new ≤ ticks.old + 16 }
    {
        let id = self.id(class, queue);
        let member = member_in(id, entry);
        let bytes = u64::from(self.links.footprint(member, ticks));
        let before = self.links.close(member, ticks);
        let place = usize::from(id.number);
        let tally = self.tallies.get(place, ticks);
        self.tallies.set(place, tally.without(entry, bytes), ticks);
        entry_at(before)
    }

    /// Puts an entry into a queue, behind another or at the head. A chunk counts the footprint there, in bytes, a mark
    /// none.
    pub fn put_after<L: Ledger>(
        &mut self,
        class: usize,
        queue: Queue,
        entry: Entry,
        after: Option<Entry>,
        footprint: u32,
        ticks: &mut Ticks<L>,
    )
        requires place { queue_place class queue < length self.old.queues }
        requires slot { EntryHasSlot self.old.slots entry }
        requires gone { IsGone self.old.queues (queue_place class queue) entry }
        requires after { has_after same_entry after (line self.old class queue) ≡ true }
        ensures queues { self.new.queues ≡ slice_set self.old.queues (queue_place class queue)
            (insert_entry (queued_with entry footprint) after (slice_index_or self.old.queues (queue_place class queue) [])) }
        ensures slots { self.new.slots ≡ self.old.slots }
        ensures cost { ticks.new ≤ ticks.old + 16 }
    {
        let id = self.id(class, queue);
        let member = member_in(id, entry);
        let standing = Standing {
            queue: id,
            footprint,
        };
        self.links.open(member, position_in(id, after), ticks);
        self.links.tell(member, standing, ticks);
        let place = usize::from(id.number);
        let tally = self.tallies.get(place, ticks);
        let bytes = u64::from(bytes_told(entry, footprint));
        self.tallies.set(place, tally.with(entry, bytes), ticks);
    }

    /// Gives a page its slots. It takes no memory.
    pub fn lay(&mut self, page: u16, slots: Slots<A>)
        requires page { page < length self.old.slots }
        requires empty { slice_index self.old.slots page ≡ 0 }
        ensures queues { self.new.queues ≡ self.old.queues }
        ensures slots { self.new.slots ≡ slice_set self.old.slots page slots }
    {
        self.lay_by::<Brand>(page, slots, Blank::new(1));
    }

    /// Takes the slots of a page out, of which none stands in a queue. It takes no memory.
    pub fn lift(&mut self, page: u16) -> Slots<A>
        requires there { 0 < slice_index self.old.slots page }
        requires clear { IsClear self.old.queues page }
        ensures count { result ≡ slice_index self.old.slots page }
        ensures queues { self.new.queues ≡ self.old.queues }
        ensures slots { self.new.slots ≡ slice_set self.old.slots page 0 }
    {
        self.lift_by::<Brand>(page, Blank::new(1))
    }

    // The number of a queue that is there.
    fn id(&self, class: usize, queue: Queue) -> QueueId
        requires { queue_place class queue < length self.now.queues }
        ensures { result ≡ id_of class queue }
    {
        // the tables bound the number
        let _links = &self.links;
        id_of(class, queue)
    }

    // `queue_with` with ticks of its own.
    fn queue_by<L: Ledger>(&self, class: usize, chunk: ChunkRef, blank: Blank) -> Queue
        requires name { blank.name ≡ L.name }
        requires parts { blank.parts ≡ L.parts }
        requires some { 0 < L.parts }
        requires class { queue_place class Temp < length self.now.queues }
        requires there { StandsIn self.now.queues class chunk }
        ensures { result ≡ queue_among (map entries self.now.queues) class chunk }
    {
        let mut ticks = Ticks::<L>::start(blank);
        let slot = self.links.slots.read(chunk.page, chunk.slot, &mut ticks);
        let named = slot.standing.queue;
        if named == self.id(class, Queue::Hot) {
            Queue::Hot
        } else if named == self.id(class, Queue::Warm) {
            Queue::Warm
        } else if named == self.id(class, Queue::Cold) {
            Queue::Cold
        } else {
            Queue::Temp
        }
    }

    // `lay` with ticks of its own.
    fn lay_by<L: Ledger>(&mut self, page: u16, slots: Slots<A>, blank: Blank)
        requires name { blank.name ≡ L.name }
        requires parts { blank.parts ≡ L.parts }
        requires some { 0 < L.parts }
        requires page { page < length self.old.slots }
        requires empty { slice_index self.old.slots page ≡ 0 }
        ensures queues { self.new.queues ≡ self.old.queues }
        ensures slots { self.new.slots ≡ slice_set self.old.slots page slots }
    {
        let mut ticks = Ticks::<L>::start(blank);
        let Slots { cells } = slots;
        self.links.slots.lay(page, cells, &mut ticks);
    }

    // `lift` with ticks of its own.
    fn lift_by<L: Ledger>(&mut self, page: u16, blank: Blank) -> Slots<A>
        requires name { blank.name ≡ L.name }
        requires parts { blank.parts ≡ L.parts }
        requires some { 0 < L.parts }
        requires there { 0 < slice_index self.old.slots page }
        requires clear { IsClear self.old.queues page }
        ensures count { result ≡ slice_index self.old.slots page }
        ensures queues { self.new.queues ≡ self.old.queues }
        ensures slots { self.new.slots ≡ slice_set self.old.slots page 0 }
    {
        let mut ticks = Ticks::<L>::start(blank);
        let cells = self.links.slots.lift(page, &mut ticks);
        Slots { cells }
    }

    // What is counted of a queue, with ticks of its own.
    fn tally<L: Ledger>(&self, queue: QueueId, blank: Blank) -> Tally
        requires name { blank.name ≡ L.name }
        requires parts { blank.parts ≡ L.parts }
        requires some { 0 < L.parts }
        requires queue { queue.number < length self.now.queues }
        ensures count { result.count ≡ length (slice_index_or self.now.queues queue.number []) }
        ensures marked { result.marked ≡ has same_entry Mark (entries (slice_index_or self.now.queues queue.number [])) }
    {
        let mut ticks = Ticks::<L>::start(blank);
        self.tallies.get(usize::from(queue.number), &mut ticks)
    }
}

impl<A: Allocator + Clone> Queues<A> {
    /// Queues without entries, four for each class from 0 to the last, and no page laid. The only error is that there
    /// is no memory.
    pub fn open(alloc: A, config: &Config, table: &ClassTable) -> Result<Queues<A>, AllocError>
        requires { config.now.pages ≤ 4096 }
        ensures { IfOk result (λ s. s ≡ empty_queues (length table.entry.now.sizes) config.entry.now.pages) }
    {
        let n = (4 * (table.last() + 1)) as u16;
        let ends = Cells::over(empty_ends(alloc.clone()?, n)?);
        // the link of a mark that is in no queue says nothing
        let marks = Cells::over(empty_ends(alloc.clone()?, n)?);
        let tally = Tally {
            bytes: 0,
            count: 0,
            marked: false,
        };
        let tallies = Cells::over(vec![in alloc.clone()?; tally; usize::from(n)]?);
        let slots = CountedGrid::open(alloc, config.pages as usize + 62)?;
        Ok(Queues {
            links: Links { ends, marks, slots },
            tallies,
        })
    }
}
