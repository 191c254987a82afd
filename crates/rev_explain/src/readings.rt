//! What the record of a step tells of a key: where the key was before the step, from where it is after it. A record's
//! first undone is the last that is played. So the search goes from the front, and the first undone that concerns the
//! key decides.
ghost use Rattle.std.specs.Prelude.{◌≡◌, drop, Some, None};
ghost use Rattle.rev_model.specs.Chunk.{same_chunk};
ghost use Rattle.rev_model.specs.Track.{same_key, has_key, is_chunk, keyed, key_change, class_queue_before, key_place_before, chunk_of};
ghost use Rattle.rev_inverse.specs.Seen.{plain_moves};
ghost use Rattle.rev_inverse.specs.Record.{IsWhole, moves_in, notes_in};
ghost use Rattle.rev_explain.specs.Readings.{keyed_through, queue_through, note_of as note_in};

use rev_inverse::{Change, RecordRef};
use rev_items::{Item, Key};
use rev_model::{Cause, ChunkRef, ClassQueue, Entry, KeyChange, KeyPlace, Listed, Placed};
use std::alloc::Allocator;
use std::ops::ControlFlow;

/// Whether two chunks are the same.
fn is_same(a: ChunkRef, b: ChunkRef) -> bool
    ensures { result ≡ same_chunk a b }
{
    a.page == b.page && a.slot == b.slot
}

/// Whether the chunk is the key's.
fn is_at(home: Option<ChunkRef>, chunk: ChunkRef) -> bool
    ensures { result ≡ is_chunk home chunk }
{
    match home {
        Some(at) => is_same(chunk, at),
        None => false,
    }
}

/// Whether two keys are the same.
pub fn is_key<A: Allocator>(a: &Key<A>, b: &Key<A>) -> bool
    ensures { result ≡ same_key a.now b.now }
{
    a.is_same(b)
}

/// Whether this is an item of the key.
fn has_key<A: Allocator>(key: &Key<A>, item: &Option<Item<A>>) -> bool
    ensures { result ≡ has_key key.now item.now }
{
    match item {
        Some(item) => is_key(key, item.key()),
        None => false,
    }
}

/// Whether the chunk's item has the key after the undone, or else which chunk to ask for before it.
fn keyed_after<A: Allocator>(
    undo: &Change<A>,
    key: &Key<A>,
    chunk: ChunkRef,
) -> ControlFlow<bool, ChunkRef>
    ensures { result ≡ keyed_through key.now (plain_moves undo.now) chunk }
{
    match undo {
        Change::Enter {
            chunk: filled,
            item,
            ..
        }
        | Change::Link {
            chunk: filled,
            item,
            ..
        }
        | Change::Revive {
            chunk: filled,
            item,
            ..
        } if is_same(chunk, *filled) => ControlFlow::Break(is_key(key, item.key())),
        Change::Leave {
            chunk: left,
            under,
            ..
        }
        | Change::Unlink {
            chunk: left,
            under,
            ..
        } if is_same(chunk, *left) => ControlFlow::Break(has_key(key, under)),
        Change::Shift(from, to) if is_same(chunk, *to) => ControlFlow::Continue(*from),
        Change::Shift(from, _) | Change::Free { chunk: from, .. } if is_same(chunk, *from) =>
            ControlFlow::Break(false),
        _ => ControlFlow::Continue(chunk),
    }
}

/// The queue of the chunk after the undone, or else which chunk to ask for before it.
fn queue_after<A: Allocator>(
    undo: &Change<A>,
    chunk: ChunkRef,
) -> ControlFlow<Option<ClassQueue>, ChunkRef>
    ensures { result ≡ queue_through (plain_moves undo.now) chunk }
{
    match undo {
        Change::Put(Placed::ToQueue(class, queue, Entry::Chunk(put), _))
        | Change::Enter {
            class,
            queue,
            chunk: put,
            ..
        }
        | Change::Revive {
            class,
            queue,
            chunk: put,
            ..
        }
        | Change::Requeue {
            class,
            to: queue,
            chunk: put,
            ..
        } if is_same(chunk, *put) => ControlFlow::Break(Some(ClassQueue {
            class: *class,
            queue: *queue,
        })),
        Change::Link {
            class,
            queue,
            chunk: put,
            ..
        } if is_same(chunk, *put) => ControlFlow::Break(Some(ClassQueue {
            class: *class as usize,
            queue: *queue,
        })),
        Change::Shift(from, to) if is_same(chunk, *to) => ControlFlow::Continue(*from),
        Change::Take(Listed::InQueue(_, _, Entry::Chunk(gone)))
        | Change::Leave { chunk: gone, .. }
        | Change::Unlink { chunk: gone, .. }
        | Change::Free { chunk: gone, .. }
        | Change::Shift(gone, _)
            if is_same(chunk, *gone) => ControlFlow::Break(None),
        _ => ControlFlow::Continue(chunk),
    }
}

/// Whether a chunk's item has the key once the changes from `start` on were played, where `home` is the key's chunk
/// before them.
fn is_keyed<A: Allocator>(
    trace: &RecordRef<A>,
    start: usize,
    key: &Key<A>,
    home: Option<ChunkRef>,
    chunk: ChunkRef,
) -> bool
    ensures { result ≡ keyed key.now home (moves_in (drop start trace.now.changes)) chunk }
{
    let mut sought = chunk;
    for i in start..trace.len() {
        match trace.change(i) {
            None => {}
            Some(undo) => match keyed_after(undo, key, sought) {
                ControlFlow::Break(keyed) => return keyed,
                ControlFlow::Continue(earlier) => sought = earlier,
            },
        }
    }
    is_at(home, sought)
}

/// The queue of a chunk once all moves were played, where `home` is the key's chunk before them, in the queue `lru`.
fn find_queue<A: Allocator>(
    trace: &RecordRef<A>,
    home: Option<ChunkRef>,
    lru: Option<ClassQueue>,
    chunk: ChunkRef,
) -> Option<ClassQueue>
    ensures { result ≡ class_queue_before home lru trace.now.moves chunk }
{
    let mut sought = chunk;
    for i in 0..trace.len() {
        match trace.change(i) {
            None => {}
            Some(undo) => match queue_after(undo, sought) {
                ControlFlow::Break(queue) => return queue,
                ControlFlow::Continue(earlier) => sought = earlier,
            },
        }
    }
    if is_at(home, sought) { lru } else { None }
}

/// The cause that is noted beside a change.
pub fn note_of(change: Option<KeyChange>) -> Option<Cause>
    ensures { result ≡ note_in change }
{
    match change {
        Some(change) => change.note,
        None => None,
    }
}

/// What the changes from `start` on do to the key, where it leads to `home` before them.
fn change_from<A: Allocator>(
    trace: &RecordRef<A>,
    start: usize,
    key: &Key<A>,
    home: Option<ChunkRef>,
) -> Option<KeyChange>
    ensures value { result ≡ key_change key.now home (moves_in (drop start trace.now.changes)) (notes_in (drop start trace.now.changes)) }
    ensures whole { IsWhole trace.now }
{
    for i in start..trace.len() {
        let (leads, note) = match trace.change(i) {
            Some(
                Change::Enter {
                    chunk,
                    item,
                    cause,
                    ..
                },
            ) if is_key(key, item.key()) => (Some(*chunk), *cause),
            Some(Change::Link { chunk, item, .. }) if is_key(key, item.key()) => (
                Some(*chunk),
                None,
            ),
            Some(
                Change::Revive {
                    chunk,
                    item,
                    cause,
                    ..
                },
            ) if is_key(key, item.key()) => (Some(*chunk), *cause),
            Some(Change::Unlink { chunk, .. }) if is_keyed(trace, i + 1, key, home, *chunk) => {
                (None, None)
            }
            Some(Change::Free { chunk, cause, .. }) if is_keyed(trace, i + 1, key, home, *chunk) =>
                { (None, *cause) }
            Some(Change::Leave { chunk, cause, .. }) if is_keyed(trace, i + 1, key, home, *chunk) =>
                { (None, *cause) }
            Some(Change::Shift(from, to)) if is_keyed(trace, i + 1, key, home, *from) => (
                Some(*to),
                note_of(change_from(trace, i + 1, key, home)),
            ),
            _ => continue,
        };
        return Some(KeyChange { leads, note });
    }
    None
}

/// What a record does to the key, where it leads to `home` before it.
pub fn find_change<A: Allocator>(
    trace: &RecordRef<A>,
    key: &Key<A>,
    home: Option<ChunkRef>,
) -> Option<KeyChange>
    ensures { result ≡ key_change key.now home trace.now.moves trace.now.notes }
{
    change_from(trace, 0, key, home)
}

/// The chunk of a key.
pub fn home_of(place: Option<KeyPlace>) -> Option<ChunkRef>
    ensures { result ≡ chunk_of place }
{
    match place {
        Some(place) => Some(place.chunk),
        None => None,
    }
}

/// Where the key was before the step, from where it is after it and what the record does to it.
pub fn find_before<A: Allocator>(
    trace: &RecordRef<A>,
    key: &Key<A>,
    change: Option<KeyChange>,
    after: Option<KeyPlace>,
) -> Option<KeyPlace>
    requires { change ≡ key_change key.now (chunk_of after) trace.now.moves trace.now.notes }
    ensures { result ≡ key_place_before key.now trace.now.moves trace.now.notes after }
{
    let (home, lru) = match after {
        Some(place) => (Some(place.chunk), place.lru),
        None => (None, None),
    };
    let leads = match change {
        Some(change) => change.leads,
        None => home,
    };
    match leads {
        Some(chunk) => Some(KeyPlace {
            chunk,
            lru: find_queue(trace, home, lru, chunk),
        }),
        None => None,
    }
}
