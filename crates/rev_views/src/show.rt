//! What a store shows to the debug commands.
ghost use Rattle.std.specs.Prelude.{◌≡◌, ◌++◌, codes, OnOk, take, true, is_some, Some};
ghost use Rattle.rev_model.specs.Sound.{Sound};
ghost use Rattle.rev_model.specs.State.{item_at, find, counter_of, free_of, queue_of, IsClass};
ghost use Rattle.rev_model.specs.Move.{is_class};
ghost use Rattle.rev_texts.specs.Texts.{output, item_text, seat_text, found_text, place_text, entry_text, entries_text, chunks_text, figures_text, pages_text, counter_text, removals_text, moves_text, counters_text, globals_text, of_class};
ghost use Rattle.rev_explain.specs.Departures.{at_most};

use rev_inverse::Store;
use rev_items::{Item, Key};
use rev_model::{ChunkRef, Counter, Entry, Queue};
use rev_texts::text::{
    bits_text, put_chunk, put_clock, put_field, put_free_chunk, put_number, put_output, put_page,
    put_pending, queue_text,
};
use std::alloc::{AllocError, Allocator};

// Whether there is such a class.
fn is_class<A: Allocator + Clone>(store: &Store<A>, class: u32) -> bool
    ensures { result ≡ is_class store.now class }
{
    class != 0 && class as usize <= store.table().last()
}

// Writes the class and the queue of an item's chunk.
fn put_seat<A: Allocator + Clone>(
    store: &Store<A>,
    chunk: ChunkRef,
    answer: &mut Vec<u8, A>,
) -> Result<(), AllocError>
    requires sound { Sound store.now }
    requires there { is_some (item_at store.now chunk) ≡ true }
    ensures { OnOk result (answer.new.items ≡ answer.old.items ++ seat_text store.now chunk) }
{
    let class = store.owner(chunk.page as usize);
    put_field(answer, b" ", class as u64)?;
    answer.extend_from_slice(b" ")?;
    answer.extend_from_slice(queue_text(store.queue_with(class, chunk)))
}

// Writes the line of an item in its chunk.
fn put_item<A: Allocator + Clone>(
    store: &Store<A>,
    chunk: ChunkRef,
    item: &Item<A>,
    answer: &mut Vec<u8, A>,
) -> Result<(), AllocError>
    requires sound { Sound store.now }
    requires there { item_at store.now chunk ≡ Some item.now }
    ensures { OnOk result (answer.new.items ≡ answer.old.items ++ item_text store.now chunk (Some item.now)) }
{
    answer.extend_from_slice(b"ITEM ")?;
    answer.extend_from_slice(item.key().bytes())?;
    put_seat(store, chunk, answer)?;
    put_figures(item, answer)?;
    answer.extend_from_slice(b"\r\n")
}

// Writes flags, moment, time, cas number, bits and size of an item.
fn put_figures<A: Allocator, B: Allocator>(
    item: &Item<B>,
    answer: &mut Vec<u8, A>,
) -> Result<(), AllocError>
    ensures { OnOk result (answer.new.items ≡ answer.old.items ++ figures_text item.now) }
{
    put_field(answer, b" ", item.flags() as u64)?;
    put_field(answer, b" ", item.moment())?;
    put_field(answer, b" ", item.time() as u64)?;
    put_field(answer, b" ", item.cas())?;
    answer.extend_from_slice(b" ")?;
    answer.extend_from_slice(bits_text(item.bits()))?;
    put_field(answer, b" ", item.value().len() as u64)
}

/// Writes the line of a key's item, dead or not.
pub fn put_item_of<A: Allocator + Clone>(
    store: &Store<A>,
    key: &Key<A>,
    answer: &mut Vec<u8, A>,
) -> Result<(), AllocError>
    requires { Sound store.now }
    ensures { OnOk result (answer.new.items ≡ answer.old.items ++ found_text store.now (find store.now key.now)) }
{
    match store.item(key) {
        None => put_output(answer, b"NOITEM"),
        Some((chunk, item)) => put_item(store, chunk, item, answer),
    }
}

/// Writes the line of a key's chunk.
pub fn put_chunk_of<A: Allocator + Clone>(
    store: &Store<A>,
    key: &Key<A>,
    answer: &mut Vec<u8, A>,
) -> Result<(), AllocError>
    ensures { OnOk result (answer.new.items ≡ answer.old.items ++ place_text (find store.now key.now)) }
{
    match store.find(key) {
        None => put_output(answer, b"NOITEM"),
        Some(chunk) => {
            answer.extend_from_slice(b"CHUNK ")?;
            put_chunk(answer, chunk)?;
            answer.extend_from_slice(b"\r\n")
        }
    }
}

// Writes an entry of a queue.
fn put_entry<A: Allocator + Clone>(
    store: &Store<A>,
    entry: Entry,
    answer: &mut Vec<u8, A>,
) -> Result<(), AllocError>
    requires { Sound store.now }
    ensures { OnOk result (answer.new.items ≡ answer.old.items ++ entry_text store.now entry) }
{
    match entry {
        Entry::Mark => answer.extend_from_slice(b" *"),
        Entry::Chunk(chunk) => {
            answer.extend_from_slice(b" =")?;
            match store.content(chunk) {
                None => Ok(()),
                Some(item) => answer.extend_from_slice(item.key().bytes()),
            }
        }
    }
}

// Writes the entries of a queue, head first.
fn put_entries<A: Allocator + Clone>(
    store: &Store<A>,
    class: usize,
    queue: Queue,
    answer: &mut Vec<u8, A>,
) -> Result<(), AllocError>
    requires sound { Sound store.now }
    requires class { IsClass store.now.fixed class }
    ensures { OnOk result (answer.new.items ≡ answer.old.items ++ entries_text store.now (queue_of store.now class queue)) }
{
    let mut behind = None;
    'entries: while let Some(entry) = store.queue_entry(class, queue, behind) {
        put_entry(store, entry, answer)?;
        behind = Some(entry);
    }
    Ok(())
}

// Writes the first entries of a queue, head first.
fn put_first_entries<A: Allocator + Clone>(
    store: &Store<A>,
    class: usize,
    queue: Queue,
    most: u32,
    answer: &mut Vec<u8, A>,
) -> Result<(), AllocError>
    requires sound { Sound store.now }
    requires class { IsClass store.now.fixed class }
    ensures { OnOk result (answer.new.items ≡ answer.old.items ++ entries_text store.now (take most (queue_of store.now class queue))) }
{
    let mut behind = None;
    let mut left = most;
    'entries: while left > 0 {
        let Some(entry) = store.queue_entry(class, queue, behind) else {
            return Ok(());
        };
        put_entry(store, entry, answer)?;
        behind = Some(entry);
        left -= 1;
    }
    Ok(())
}

// Writes as many entries of a queue as are wanted, or all.
fn put_limited<A: Allocator + Clone>(
    store: &Store<A>,
    class: usize,
    queue: Queue,
    limit: Option<u32>,
    answer: &mut Vec<u8, A>,
) -> Result<(), AllocError>
    requires sound { Sound store.now }
    requires class { IsClass store.now.fixed class }
    ensures { OnOk result (answer.new.items ≡ answer.old.items ++ entries_text store.now (at_most limit (queue_of store.now class queue))) }
{
    match limit {
        Some(most) => put_first_entries(store, class, queue, most, answer),
        None => put_entries(store, class, queue, answer),
    }
}

/// Writes a queue's entries on a line, the first `limit` of them or all.
pub fn put_queue<A: Allocator + Clone>(
    store: &Store<A>,
    class: u32,
    queue: Queue,
    limit: Option<u32>,
    answer: &mut Vec<u8, A>,
) -> Result<(), AllocError>
    requires { Sound store.now }
    ensures { OnOk result (answer.new.items ≡ answer.old.items ++ of_class store.now class (output (codes "QUEUE" ++ entries_text store.now (at_most limit (queue_of store.now class queue))))) }
{
    if !is_class(store, class) {
        return put_output(answer, b"NOCLASS");
    }
    answer.extend_from_slice(b"QUEUE")?;
    put_limited(store, class as usize, queue, limit, answer)?;
    answer.extend_from_slice(b"\r\n")
}

// Writes the free chunks of a class, front first.
fn put_chunks<A: Allocator + Clone>(
    store: &Store<A>,
    class: usize,
    answer: &mut Vec<u8, A>,
) -> Result<(), AllocError>
    requires sound { Sound store.now }
    requires class { IsClass store.now.fixed class }
    ensures { OnOk result (answer.new.items ≡ answer.old.items ++ chunks_text (free_of store.now class)) }
{
    let mut behind = None;
    'chunks: while let Some(chunk) = store.free_at(class, behind) {
        put_free_chunk(answer, chunk)?;
        behind = Some(chunk);
    }
    Ok(())
}

/// Writes a class's free chunks on a line.
pub fn put_free<A: Allocator + Clone>(
    store: &Store<A>,
    class: u32,
    answer: &mut Vec<u8, A>,
) -> Result<(), AllocError>
    requires { Sound store.now }
    ensures { OnOk result (answer.new.items ≡ answer.old.items ++ of_class store.now class (output (codes "FREE" ++ chunks_text (free_of store.now class)))) }
{
    if !is_class(store, class) {
        return put_output(answer, b"NOCLASS");
    }
    answer.extend_from_slice(b"FREE")?;
    put_chunks(store, class as usize, answer)?;
    answer.extend_from_slice(b"\r\n")
}

/// Writes a line for each page, and `END`.
pub fn put_pages<A: Allocator + Clone>(
    store: &Store<A>,
    answer: &mut Vec<u8, A>,
) -> Result<(), AllocError>
    ensures { OnOk result (answer.new.items ≡ answer.old.items ++ (pages_text 0 store.now.owner ++ output (codes "END"))) }
{
    for page in 0..store.made() {
        put_page(answer, page, store.owner(page))?;
    }
    put_output(answer, b"END")
}

// Writes a counter's name and its value.
fn put_counter<A: Allocator + Clone>(
    store: &Store<A>,
    class: usize,
    name: &[u8],
    counter: Counter,
    answer: &mut Vec<u8, A>,
) -> Result<(), AllocError>
    requires sound { Sound store.now }
    requires class { IsClass store.now.fixed class }
    ensures { OnOk result (answer.new.items ≡ answer.old.items ++ counter_text name.now (counter_of store.now class counter)) }
{
    answer.extend_from_slice(b" ")?;
    answer.extend_from_slice(name)?;
    put_field(answer, b" ", store.counter(class, counter))
}

// Writes the counters of removals and of rooms not found.
fn put_removals<A: Allocator + Clone>(
    store: &Store<A>,
    class: usize,
    answer: &mut Vec<u8, A>,
) -> Result<(), AllocError>
    requires sound { Sound store.now }
    requires class { IsClass store.now.fixed class }
    ensures { OnOk result (answer.new.items ≡ answer.old.items ++ removals_text store.now class) }
{
    put_counter(store, class, b"evicted", Counter::Evicted, answer)?;
    put_counter(store, class, b"reclaimed", Counter::Reclaimed, answer)?;
    put_counter(
        store,
        class,
        b"crawler_reclaimed",
        Counter::CrawlerReclaimed,
        answer,
    )?;
    put_counter(store, class, b"outofmemory", Counter::OutOfMemory, answer)
}

// Writes the counters of moves.
fn put_moves<A: Allocator + Clone>(
    store: &Store<A>,
    class: usize,
    answer: &mut Vec<u8, A>,
) -> Result<(), AllocError>
    requires sound { Sound store.now }
    requires class { IsClass store.now.fixed class }
    ensures { OnOk result (answer.new.items ≡ answer.old.items ++ moves_text store.now class) }
{
    put_counter(store, class, b"moves_to_cold", Counter::MovesToCold, answer)?;
    put_counter(store, class, b"moves_to_warm", Counter::MovesToWarm, answer)?;
    put_counter(
        store,
        class,
        b"moves_within_lru",
        Counter::MovesWithinLru,
        answer,
    )
}

/// Writes a class's counters on a line.
pub fn put_counters<A: Allocator + Clone>(
    store: &Store<A>,
    class: u32,
    answer: &mut Vec<u8, A>,
) -> Result<(), AllocError>
    requires { Sound store.now }
    ensures { OnOk result (answer.new.items ≡ answer.old.items ++ of_class store.now class (counters_text store.now class)) }
{
    if !is_class(store, class) {
        return put_output(answer, b"NOCLASS");
    }
    answer.extend_from_slice(b"COUNTERS")?;
    put_removals(store, class as usize, answer)?;
    put_moves(store, class as usize, answer)?;
    answer.extend_from_slice(b"\r\n")
}

/// Writes the clock, the last cas number, the flush limit, the pending flush, the page move and the
/// number of bump entries on a line.
pub fn put_globals<A: Allocator + Clone>(
    store: &Store<A>,
    answer: &mut Vec<u8, A>,
) -> Result<(), AllocError>
    ensures { OnOk result (answer.new.items ≡ answer.old.items ++ globals_text store.now) }
{
    answer.extend_from_slice(b"GLOBALS")?;
    put_clock(answer, store.globals())?;
    put_pending(answer, store.globals(), store.bump_len())?;
    answer.extend_from_slice(b"\r\n")
}
