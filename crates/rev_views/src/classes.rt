//! How full each slab class is.
ghost use Rattle.std.specs.Prelude.{◌≡◌, ◌++◌, ◌+◌, ◌≤◌, OnOk, cond, length, nat_eq};
ghost use Rattle.rev_model.specs.Sound.{Sound};
ghost use Rattle.rev_model.specs.State.{free_of, queue_of, IsClass};
ghost use Rattle.rev_model.specs.Actor.{owned_pages};
ghost use Rattle.rev_views.specs.Classes.{shown, item_count, items_in, queue_figures, class_figures, queues_figures, class_line, classes_to, classes_text};

use rev_inverse::Store;
use rev_model::{Entry, Queue};
use rev_texts::text::{put_field, put_output, queue_text};
use std::alloc::{AllocError, Allocator};

// How many pages of the class a page of this owner is: one, or none.
fn page_count(owner: usize, class: usize) -> usize
    ensures count { result ≡ cond (nat_eq owner class) 1 0 }
    ensures within { result ≤ 1 }
{
    if owner == class { 1 } else { 0 }
}

// A count with some more, at most the highest number of 64 bits.
fn more(count: u64, by: u64) -> u64
    ensures { result ≡ shown (count + by) }
{
    if by < u64::MAX - count {
        count + by
    } else {
        u64::MAX
    }
}

// How many pages a class owns.
fn count_pages<A: Allocator>(store: &Store<A>, class: usize) -> usize
    ensures { result ≡ owned_pages class store.now.owner }
{
    let mut count = 0;
    for page in 0..store.made() {
        count += page_count(store.owner(page), class);
    }
    count
}

// How many chunks of a class are free.
fn count_free<A: Allocator>(store: &Store<A>, class: usize) -> u64
    requires sound { Sound store.now }
    requires class { IsClass store.now.fixed class }
    ensures { result ≡ shown (length (free_of store.now class)) }
{
    let mut behind = None;
    let mut count = 0u64;
    'chunks: while let Some(chunk) = store.free_at(class, behind) {
        count = more(count, 1);
        behind = Some(chunk);
    }
    count
}

// How many items a queue has.
fn count_items<A: Allocator>(store: &Store<A>, class: usize, queue: Queue) -> u64
    requires sound { Sound store.now }
    requires class { IsClass store.now.fixed class }
    ensures { result ≡ shown (items_in (queue_of store.now class queue)) }
{
    let mut behind = None;
    let mut count = 0u64;
    'entries: while let Some(entry) = store.queue_entry(class, queue, behind) {
        count = more(count, item_count(entry));
        behind = Some(entry);
    }
    count
}

// How many items an entry is: one, or none for the crawler's mark.
fn item_count(entry: Entry) -> u64
    ensures { result ≡ item_count entry }
{
    match entry {
        Entry::Chunk(_) => 1,
        Entry::Mark => 0,
    }
}

// Writes how many items a queue has, and their bytes.
fn put_queue_figures<A: Allocator + Clone>(
    store: &Store<A>,
    class: usize,
    queue: Queue,
    out: &mut Vec<u8, A>,
) -> Result<(), AllocError>
    requires sound { Sound store.now }
    requires class { IsClass store.now.fixed class }
    ensures { OnOk result (out.new.items ≡ out.old.items ++ queue_figures store.now class queue) }
{
    out.extend_from_slice(b" ")?;
    out.extend_from_slice(queue_text(queue))?;
    put_field(out, b" ", count_items(store, class, queue))?;
    put_field(out, b" ", store.bytes(class, queue))
}

// Writes the same of the four queues of a class.
fn put_queues<A: Allocator + Clone>(
    store: &Store<A>,
    class: usize,
    out: &mut Vec<u8, A>,
) -> Result<(), AllocError>
    requires sound { Sound store.now }
    requires class { IsClass store.now.fixed class }
    ensures { OnOk result (out.new.items ≡ out.old.items ++ queues_figures store.now class) }
{
    put_queue_figures(store, class, Queue::Hot, out)?;
    put_queue_figures(store, class, Queue::Warm, out)?;
    put_queue_figures(store, class, Queue::Cold, out)?;
    put_queue_figures(store, class, Queue::Temp, out)
}

// Writes a class's number, its chunks' size in bytes, its pages and its free chunks.
fn put_class_figures<A: Allocator + Clone>(
    store: &Store<A>,
    class: usize,
    pages: usize,
    out: &mut Vec<u8, A>,
) -> Result<(), AllocError>
    requires sound { Sound store.now }
    requires class { IsClass store.now.fixed class }
    ensures { OnOk result (out.new.items ≡ out.old.items ++ class_figures store.now class pages) }
{
    put_field(out, b"CLASS ", class as u64)?;
    put_field(out, b" size ", store.table().chunk_size(class) as u64)?;
    put_field(out, b" pages ", pages as u64)?;
    put_field(out, b" free ", count_free(store, class))
}

// Writes the line of a class that owns pages.
fn put_class<A: Allocator + Clone>(
    store: &Store<A>,
    class: usize,
    out: &mut Vec<u8, A>,
) -> Result<(), AllocError>
    requires sound { Sound store.now }
    requires class { IsClass store.now.fixed class }
    ensures { OnOk result (out.new.items ≡ out.old.items ++ class_line store.now class) }
{
    let pages = count_pages(store, class);
    if pages == 0 {
        return Ok(());
    }
    put_class_figures(store, class, pages, out)?;
    put_queues(store, class, out)?;
    out.extend_from_slice(b"\r\n")
}

/// Writes a line for each class that owns pages, and `END`: the size of its chunks in bytes, its pages, its free
/// chunks, and of each queue how many items it has and their bytes. It takes time in the number of pages, of free
/// chunks and of items.
pub fn put_classes<A: Allocator + Clone>(
    store: &Store<A>,
    out: &mut Vec<u8, A>,
) -> Result<(), AllocError>
    requires { Sound store.now }
    ensures { OnOk result (out.new.items ≡ out.old.items ++ classes_text store.now) }
{
    for passed in 0..store.table().last() {
        put_class(store, passed + 1, out)?;
    }
    put_output(out, b"END")
}
