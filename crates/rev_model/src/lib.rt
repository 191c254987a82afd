//! The plain model that every contract cites: names of chunks, lists and counters, the globals, what a step answers.
//! The plain state, the moves that a record is made of and the rules of all steps stand in `specs/`.
#![tactic(auto)]

ghost use Rattle.std.specs.Prelude.{◌≡◌};
ghost use Rattle.rev_items.specs.Rules.{is_past};

use rev_items::Bits;

/// A chunk: a slot of a page. Pages are numbered from 0 as they are made, slots from 0 within a page.
#[derive(Clone, Copy, Debug, PartialEq, Eq)]
pub struct ChunkRef {
    pub page: u16,
    pub slot: u16,
}

/// What stands in a queue: a chunk, or the crawler's mark.
#[derive(Clone, Copy, Debug, PartialEq, Eq)]
pub enum Entry {
    Chunk(ChunkRef),
    Mark,
}

/// A queue of a class's segmented LRU (new_lru.txt).
#[derive(Clone, Copy, Debug, PartialEq, Eq)]
pub enum Queue {
    Hot,
    Warm,
    Cold,
    Temp,
}

/// An entry of a list: a chunk of a class's free list, or an entry of one of its queues.
#[derive(Clone, Copy, Debug, PartialEq, Eq)]
pub enum Listed {
    InFree(usize, ChunkRef),
    InQueue(usize, Queue, Entry),
}

/// The same, with what it goes behind, or nothing for the front.
#[derive(Clone, Copy, Debug, PartialEq, Eq)]
pub enum Placed {
    ToFree(usize, ChunkRef, Option<ChunkRef>),
    ToQueue(usize, Queue, Entry, Option<Entry>),
}

/// One of the seven counters of a class.
#[derive(Clone, Copy, Debug, PartialEq, Eq)]
pub enum Counter {
    Evicted,
    Reclaimed,
    CrawlerReclaimed,
    OutOfMemory,
    MovesToCold,
    MovesToWarm,
    MovesWithinLru,
}

/// How a page is laid and lifted: as the page with the next number, from the pool with its chunks going to the free
/// list, or from the pool with no chunk entering or leaving a free list.
#[derive(Clone, Copy, Debug, PartialEq, Eq)]
pub enum Form {
    Fresh,
    Pool,
    Withdrawn,
}

/// What a touch exchanges: the bits, the time (clock) and the expiry moment of an item.
#[derive(Clone, Copy, Debug, PartialEq, Eq)]
pub struct Touched {
    pub bits: Bits,
    pub time: u32,
    pub moment: u64,
}

/// An entry of the bump queue.
#[derive(Clone, Copy, Debug, PartialEq, Eq)]
pub struct BumpEntry {
    pub chunk: ChunkRef,
    pub cas: u64,
}

/// The page mover at work.
#[derive(Clone, Copy, Debug, PartialEq, Eq)]
pub struct Mover {
    pub src: u8,
    pub dst: u8,
    pub page: u16,
    pub slot: u16,
}

/// Shares of HOT and WARM in per cent, their age factors in thousandths, and the TEMP queue's bound in seconds; a
/// negative one closes it (new_lru.txt, `lru tune` and `lru temp_ttl` of protocol.txt).
#[derive(Clone, Copy, Debug, PartialEq, Eq)]
pub struct Settings {
    pub hot_share: u8,
    pub warm_share: u8,
    pub hot_factor: u32,
    pub warm_factor: u32,
    pub temp_ttl: i32,
}

/// The clock (seconds), and what a flush goes by: the flush limit (items up to it are dead) and the moment of a pending
/// flush.
#[derive(Clone, Copy, Debug, PartialEq, Eq)]
pub struct Timing {
    pub clock: u32,
    pub flush_limit: u64,
    pub flush: Option<u64>,
}

/// What stands once in a store: the clock (seconds), the last cas number, the flush limit (items up to it are dead),
/// the moment of a pending flush, the page move under way and the settings.
#[derive(Clone, Copy, Debug, PartialEq, Eq)]
pub struct Globals {
    pub clock: u32,
    pub last_cas: u64,
    pub flush_limit: u64,
    pub flush: Option<u64>,
    pub mover: Option<Mover>,
    pub settings: Settings,
}

/// A part of what stands once in a store, as a move exchanges it.
#[derive(Clone, Copy, Debug, PartialEq, Eq)]
pub enum GlobalPart {
    LastCas(u64),
    Timing(Timing),
    Mover(Option<Mover>),
    Settings(Settings),
}

/// A set of slab classes, as `lru_crawler crawl` names it: all, or one bit for each of 1 to 63; bit 0 stands for any
/// other id.
#[derive(Clone, Copy, Debug, PartialEq, Eq)]
pub enum ClassSet {
    All,
    These(u64),
}

/// What a step answers.
#[derive(Clone, Copy, Debug, PartialEq, Eq)]
pub enum Outcome {
    Stored,
    NotStored,
    Exists,
    NotFound,
    Deleted,
    Touched,
    Okay,
    /// The key's item was read: how many bytes its data are, and its cas number.
    Hit { len: u32, cas: u64 },
    Miss,
    TooLarge,
    NoChunk,
    Busy,
    BadClass,
    NoSpare,
    Same,
    Moved,
    Reclaimed,
    Idle,
    Passed,
    Ended,
    Withdrawn,
    Rescued,
    Evicted,
    Finished,
    Number(u64),
    NotNumber,
}

/// How a pull is done: as a step of its own, or by room on COLD (a live item is evicted) and on HOT (each inactive item
/// counts as over share).
#[derive(Clone, Copy, Debug, PartialEq, Eq)]
pub enum PullMode {
    Plain,
    Evicting,
    ShareZero,
}

/// What a step reads of an item, without its bytes.
#[derive(Clone, Copy, Debug, PartialEq, Eq)]
pub struct ItemHeader {
    pub flags: u32,
    pub moment: u64,
    pub time: u32,
    pub cas: u64,
    pub bits: Bits,
}

/// What removed an item from the index.
#[derive(Clone, Copy, Debug, PartialEq, Eq)]
pub enum Cause {
    Evicted,
    ReclaimedByPull,
    ReclaimedByCrawler,
    ReclaimedByHit,
    ReclaimedByMover,
    EvictedByMover,
    Deleted,
    DroppedByFailedSet,
}

/// A queue of a class.
#[derive(Clone, Copy, Debug, PartialEq, Eq)]
pub struct ClassQueue {
    pub class: usize,
    pub queue: Queue,
}

/// Where a key is held: its chunk, and the queue in which that stands.
#[derive(Clone, Copy, Debug, PartialEq, Eq)]
pub struct KeyPlace {
    pub chunk: ChunkRef,
    pub lru: Option<ClassQueue>,
}

/// What a move did to a key: where it leads now, and the cause noted beside the move.
#[derive(Clone, Copy, Debug, PartialEq, Eq)]
pub struct KeyChange {
    pub leads: Option<ChunkRef>,
    pub note: Option<Cause>,
}

/// Whether an item is dead: its moment is past, or its cas number is at most the flush limit.
pub fn is_dead(globals: Globals, item: ItemHeader) -> bool
    ensures { result ≡ is_past globals.clock globals.flush_limit item.moment item.cas }
{
    let expired = item.moment != 0 && item.moment <= globals.clock as u64;
    expired || item.cas <= globals.flush_limit
}

/// What a step did to a key (this project's own): the class and queue that its item entered, where the step stored it,
/// first or over another; the queue that it left and the one that it entered; or what took it out of the index.
#[derive(Clone, Copy, Debug, PartialEq, Eq)]
pub enum EventKind {
    Stored(ClassQueue),
    Replaced(ClassQueue),
    Moved { from: Queue, to: Queue },
    Left(Cause),
}
