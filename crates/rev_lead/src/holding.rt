//! What a store holds of a key, and where there is room in it.
ghost use Rattle.std.specs.Prelude.{◌≡◌, true, IfSome};
ghost use Rattle.rev_model.specs.Chunk.{same_entry};
ghost use Rattle.rev_model.specs.Lists.{has};
ghost use Rattle.rev_model.specs.State.{queue_of};
ghost use Rattle.rev_model.specs.Sound.{Sound};
ghost use Rattle.rev_model.specs.Move.{is_class};
ghost use Rattle.rev_model.specs.declared.Entry.{Entry as EntryOf};
ghost use Rattle.rev_lead.specs.Agrees.{holding_of, is_alive};

use rev_inverse::Store;
use rev_items::Key;
use rev_model::{ChunkRef, Counter, Entry, ItemHeader, Queue, is_dead};
use std::alloc::Allocator;

/// What a store holds of a key.
#[derive(Clone, Copy)]
pub struct Holding {
    pub chunk: ChunkRef,
    pub class: usize,
    pub header: ItemHeader,
    /// Whether a look-up finds it.
    pub alive: bool,
}

/// What a store holds of a key, if anything.
#[tactic(auto, unfolding(crate::specs::Agrees::holding_of))]
pub fn holding_of<A: Allocator>(store: &Store<A>, key: &Key<A>) -> Option<Holding>
    requires { Sound store.now }
    ensures { result ≡ holding_of store.now key.now }
{
    let chunk = store.find(key)?;
    let header = store.header(chunk)?;
    Some(Holding {
        chunk,
        class: store.owner(chunk.page as usize),
        header,
        alive: !is_dead(store.globals(), header),
    })
}

/// Whether a look-up finds the key.
pub fn is_alive<A: Allocator>(store: &Store<A>, key: &Key<A>) -> bool
    requires { Sound store.now }
    ensures { result ≡ is_alive store.now key.now }
{
    match holding_of(store, key) {
        Some(held) => held.alive,
        None => false,
    }
}

/// Whether the store has a class of this number.
pub fn is_class<A: Allocator>(store: &Store<A>, class: usize) -> bool
    ensures { result ≡ is_class store.now class }
{
    class != 0 && class <= store.table().last()
}

/// Whether a chunk of this class is free.
pub fn has_free<A: Allocator>(store: &Store<A>, class: usize) -> bool
    requires { Sound store.now }
{
    is_class(store, class) && store.front(class).is_some()
}

/// Whether the class gets a page when it has no free chunk.
pub fn has_page_to_come<A: Allocator>(store: &Store<A>, class: usize) -> bool {
    store.made() < store.limits().0 || store.lowest_page(0).is_some() || !store.owns_page(class)
}

/// The last chunk of a class's queue, if there is such a class.
pub fn tail_of<A: Allocator>(store: &Store<A>, class: usize, queue: Queue) -> Option<ChunkRef>
    requires { Sound store.now }
    ensures { IfSome result (λ chunk. has same_entry (EntryOf.Chunk chunk) (queue_of store.now class queue) ≡ true) }
{
    if is_class(store, class) {
        store.tail(class, queue)
    } else {
        None
    }
}

/// The entry of a class's queue that stands before another, towards the head.
pub fn before_of<A: Allocator>(
    store: &Store<A>,
    class: usize,
    queue: Queue,
    entry: Entry,
) -> Option<Entry>
    requires sound { Sound store.now }
    requires there { has same_entry entry (queue_of store.now class queue) ≡ true }
    ensures { IfSome result (λ before. has same_entry before (queue_of store.now class queue) ≡ true) }
{
    if is_class(store, class) {
        store.before(class, queue, entry)
    } else {
        None
    }
}

/// Whether this key's item is the last of the class's COLD, and a look-up finds it.
pub fn is_last_of_cold<A: Allocator>(store: &Store<A>, class: usize, key: &Key<A>) -> bool
    requires { Sound store.now }
{
    match (holding_of(store, key), tail_of(store, class, Queue::Cold)) {
        (Some(held), Some(tail)) => held.alive && tail == held.chunk,
        _ => false,
    }
}

/// How many items of the class were evicted; none where there is no such class.
pub fn evictions<A: Allocator>(store: &Store<A>, class: usize) -> u64
    requires { Sound store.now }
{
    if is_class(store, class) {
        store.counter(class, Counter::Evicted)
    } else {
        0
    }
}
