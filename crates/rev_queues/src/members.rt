//! Who stands in a queue: a chunk, or the mark of the crawler.
ghost use Rattle.std.specs.Prelude.{◌≡◌, ◌-◌, ◌+◌, ◌&&◌, ◌||◌, ◌<◌, ◌≤◌, ◌^◌, not};
ghost use Rattle.rev_queues.specs.QueueState.{bytes_told, chunk_at, member_of_entry, entry_at, is_mark, position_of};

use rev_links::{Link, RingPlace};
use rev_model::{ChunkRef, Entry};

/// The number of a queue in the tables: four for each class.
#[derive(Clone, Copy, PartialEq, Eq)]
pub struct QueueId {
    pub number: u16,
}

/// An entry with its place: each queue has one place for a mark.
#[derive(Clone, Copy)]
pub enum Member {
    Chunk(ChunkRef),
    Mark(QueueId),
}

/// A place in a queue: its end, or a member.
pub type Position = RingPlace<QueueId, Member>;

/// The places before and behind a place in a queue.
pub type PositionLink = Link<QueueId, Member>;

/// The queue that a chunk was put into, and the bytes that it counts there.
#[derive(Clone, Copy)]
pub struct Standing {
    pub queue: QueueId,
    pub footprint: u32,
}

/// A chunk's links and its standing; of a chunk in no queue they say nothing.
#[derive(Clone, Copy)]
pub struct QueueSlot {
    pub link: PositionLink,
    pub standing: Standing,
}

/// What is counted of a queue: its bytes, its entries, and whether a mark is among them.
#[derive(Clone, Copy)]
pub struct Tally {
    pub bytes: u64,
    pub count: usize,
    pub marked: bool,
}

fn is_mark(entry: Entry) -> bool
    ensures { result ≡ is_mark entry }
{
    match entry {
        Entry::Chunk(_) => false,
        Entry::Mark => true,
    }
}

impl Tally {
    /// The tally once an entry of so many bytes has entered.
    pub fn with(self, entry: Entry, bytes: u64) -> Tally
        requires bytes { self.bytes + bytes < 2 ^ 64 }
        requires count { self.count + 1 < 2 ^ 64 }
        ensures { result ≡ record { bytes = self.bytes + bytes; count = self.count + 1; marked = is_mark entry || self.marked } }
    {
        Tally {
            bytes: self.bytes + bytes,
            count: self.count + 1,
            marked: is_mark(entry) || self.marked,
        }
    }

    /// The tally once an entry of so many bytes has left.
    pub fn without(self, entry: Entry, bytes: u64) -> Tally
        requires bytes { bytes ≤ self.bytes }
        requires count { 0 < self.count }
        ensures { result ≡ record { bytes = self.bytes - bytes; count = self.count - 1; marked = not (is_mark entry) && self.marked } }
    {
        Tally {
            bytes: self.bytes - bytes,
            count: self.count - 1,
            marked: !is_mark(entry) && self.marked,
        }
    }
}

/// The member that an entry of a queue is.
pub fn member_in(queue: QueueId, entry: Entry) -> Member
    ensures { result ≡ member_of_entry queue entry }
{
    match entry {
        Entry::Chunk(chunk) => Member::Chunk(chunk),
        Entry::Mark => Member::Mark(queue),
    }
}

/// The place of an entry of a queue, or the queue's end.
pub fn position_in(queue: QueueId, entry: Option<Entry>) -> Position
    ensures { result ≡ position_of queue entry }
{
    match entry {
        None => RingPlace::End(queue),
        Some(found) => RingPlace::At(member_in(queue, found)),
    }
}

/// The entry at a place, or none at an end.
pub fn entry_at(position: Position) -> Option<Entry>
    ensures { result ≡ entry_at position }
{
    match position {
        RingPlace::End(_) => None,
        RingPlace::At(Member::Chunk(chunk)) => Some(Entry::Chunk(chunk)),
        RingPlace::At(Member::Mark(_)) => Some(Entry::Mark),
    }
}

/// The chunk at a place, or none at an end and at a mark.
pub fn chunk_at(position: Position) -> Option<ChunkRef>
    ensures { result ≡ chunk_at position }
{
    match position {
        RingPlace::End(_) => None,
        RingPlace::At(Member::Chunk(chunk)) => Some(chunk),
        RingPlace::At(Member::Mark(_)) => None,
    }
}

/// The bytes that an entry counts: a mark counts none.
pub fn bytes_told(entry: Entry, footprint: u32) -> u32
    ensures { result ≡ bytes_told entry footprint }
{
    match entry {
        Entry::Chunk(_) => footprint,
        Entry::Mark => 0,
    }
}
