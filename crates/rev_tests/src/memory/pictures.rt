//! All that a store or a session tells, to be compared.
ghost use Rattle.std.specs.Prelude.{◌≡◌, true};
ghost use Rattle.rev_model.specs.Sound.{Sound};
ghost use Rattle.rev_model.specs.State.{IsClass};

use rev_inverse::Store;
use rev_items::{Item, Key};
use rev_model::{ChunkRef, Counter, Entry, Outcome, Queue};
use rev_undotree::{NodeId, Session};
use std::alloc::{Allocator, Global};
use std::process::Abort;

// The keys that are looked up, the last too long to lie in place.
const KEYS: [&[u8]; 4] = [b"a", b"b", b"c", b"a-key-that-takes-memory-of-its-own"];

const QUEUES: [Queue; 4] = [Queue::Hot, Queue::Warm, Queue::Cold, Queue::Temp];

const COUNTERS: [Counter; 7] = [
    Counter::Evicted,
    Counter::Reclaimed,
    Counter::CrawlerReclaimed,
    Counter::OutOfMemory,
    Counter::MovesToCold,
    Counter::MovesToWarm,
    Counter::MovesWithinLru,
];

// More slots than a page of the tests has, and more entries than a list.
const SLOTS: u16 = 12;

const ENTRIES: usize = 100;

/// What was told, in the order in which it was asked.
#[derive(Drop)]
pub struct Picture {
    numbers: Vec<u64>,
    outcomes: Vec<Outcome>,
}

impl Picture {
    /// A picture of nothing.
    pub fn new(alloc: Global) -> Picture {
        Picture {
            numbers: Vec::new(alloc),
            outcomes: Vec::new(alloc),
        }
    }

    /// Whether the same was told.
    pub fn is_same(&self, other: &Picture) -> bool {
        self.numbers.as_slice() == other.numbers.as_slice()
            && self.outcomes.as_slice() == other.outcomes.as_slice()
    }

    fn put<R: Abort>(&mut self, rt: &R, number: u64) {
        self.numbers.push(number).expect(rt, "no memory");
    }

    fn put_all<R: Abort>(&mut self, rt: &R, numbers: &[u64]) {
        self.numbers
            .extend_from_slice(numbers)
            .expect(rt, "no memory");
    }

    fn put_bytes<R: Abort>(&mut self, rt: &R, bytes: &[u8]) {
        self.put(rt, bytes.len() as u64);
        for byte in bytes {
            self.put(rt, u64::from(*byte));
        }
    }

    fn put_chunk<R: Abort>(&mut self, rt: &R, chunk: Option<ChunkRef>) {
        match chunk {
            None => self.put(rt, u64::MAX),
            Some(chunk) => {
                self.put(rt, u64::from(chunk.page));
                self.put(rt, u64::from(chunk.slot));
            }
        }
    }

    fn put_entry<R: Abort>(&mut self, rt: &R, entry: Entry) {
        match entry {
            Entry::Mark => self.put_chunk(rt, None),
            Entry::Chunk(chunk) => self.put_chunk(rt, Some(chunk)),
        }
    }

    fn put_item<R: Abort, A: Allocator>(&mut self, rt: &R, item: &Item<A>) {
        self.put_bytes(rt, item.key().bytes());
        self.put_bytes(rt, item.value());
        let numbers = [
            u64::from(item.flags()),
            item.moment(),
            u64::from(item.time()),
            item.cas(),
            u64::from(item.bits().fetched),
            u64::from(item.bits().active),
        ];
        self.put_all(rt, &numbers);
    }

    fn put_pages<R: Abort, A: Allocator>(&mut self, rt: &R, store: &Store<A>) {
        self.put(rt, store.made() as u64);
        for page in 0..store.made() {
            self.put(rt, store.owner(page) as u64);
        }
    }

    fn put_contents<R: Abort, A: Allocator>(&mut self, rt: &R, store: &Store<A>)
        requires { Sound store.now }
    {
        for page in 0..4 {
            for slot in 0..SLOTS {
                match store.content(ChunkRef { page, slot }) {
                    None => self.put(rt, u64::MAX),
                    Some(item) => self.put_item(rt, item),
                }
            }
        }
    }

    // Puts the free chunks of a class, front first.
    fn put_free<R: Abort, A: Allocator>(&mut self, rt: &R, store: &Store<A>, class: usize)
        requires sound { Sound store.now }
        requires class { IsClass store.now.fixed class }
    {
        let mut behind = None;
        'chunks: for _ in 0..ENTRIES {
            let Some(chunk) = store.free_at(class, behind) else {
                break;
            };
            self.put_chunk(rt, Some(chunk));
            behind = Some(chunk);
        }
        self.put(rt, u64::MAX);
    }

    // Puts the entries of a queue, head first, and its bytes.
    fn put_queue<R: Abort, A: Allocator>(
        &mut self,
        rt: &R,
        store: &Store<A>,
        class: usize,
        queue: Queue,
    )
        requires sound { Sound store.now }
        requires class { IsClass store.now.fixed class }
    {
        let mut behind = None;
        'entries: for _ in 0..ENTRIES {
            let Some(entry) = store.queue_entry(class, queue, behind) else {
                break;
            };
            self.put_entry(rt, entry);
            behind = Some(entry);
        }
        self.put(rt, store.bytes(class, queue));
    }

    fn put_counters<R: Abort, A: Allocator>(&mut self, rt: &R, store: &Store<A>, class: usize)
        requires sound { Sound store.now }
        requires class { IsClass store.now.fixed class }
    {
        for counter in COUNTERS {
            self.put(rt, store.counter(class, counter));
        }
    }

    fn put_classes<R: Abort, A: Allocator>(&mut self, rt: &R, store: &Store<A>)
        requires { Sound store.now }
    {
        for index in 0..store.table().last() {
            let class = index + 1;
            self.put_free(rt, store, class);
            self.put_counters(rt, store, class);
            for queue in QUEUES {
                self.put_queue(rt, store, class, queue);
            }
        }
    }

    fn put_bump<R: Abort, A: Allocator>(&mut self, rt: &R, store: &Store<A>) {
        self.put(rt, store.bump_len() as u64);
        for i in 0..store.bump_len() {
            if let Some(entry) = store.bump_at(i) {
                self.put_chunk(rt, Some(entry.chunk));
                self.put(rt, entry.cas);
            }
        }
    }

    fn put_globals<R: Abort, A: Allocator>(&mut self, rt: &R, store: &Store<A>) {
        let globals = store.globals();
        let numbers = [
            u64::from(globals.clock),
            globals.last_cas,
            globals.flush_limit,
            globals.flush.unwrap_or(u64::MAX),
        ];
        self.put_all(rt, &numbers);
        if let Some(mover) = globals.mover {
            let numbers = [
                u64::from(mover.src),
                u64::from(mover.dst),
                u64::from(mover.page),
                u64::from(mover.slot),
            ];
            self.put_all(rt, &numbers);
        }
        self.put(rt, u64::MAX);
    }

    fn put_settings<R: Abort, A: Allocator>(&mut self, rt: &R, store: &Store<A>) {
        let settings = store.globals().settings;
        let numbers = [
            u64::from(settings.hot_share),
            u64::from(settings.warm_share),
            u64::from(settings.hot_factor),
            u64::from(settings.warm_factor),
            u64::from(settings.temp_ttl < 0),
            u64::from(settings.temp_ttl.unsigned_abs()),
        ];
        self.put_all(rt, &numbers);
    }

    fn put_key<R: Abort, A: Allocator + Clone>(&mut self, rt: &R, store: &Store<A>, name: &[u8]) {
        let alloc = store.alloc().expect(rt, "no memory");
        let key = Key::new(alloc, name).expect(rt, "no key");
        self.put_chunk(rt, store.find(&key));
    }

    /// Puts what the store tells: pages, contents, each class's lists and counters, the bump queue, the globals, the
    /// settings, keys.
    pub fn put_store<R: Abort, A: Allocator + Clone>(&mut self, rt: &R, store: &Store<A>)
        requires { Sound store.now }
    {
        self.put_pages(rt, store);
        self.put_contents(rt, store);
        self.put_classes(rt, store);
        self.put_bump(rt, store);
        self.put_globals(rt, store);
        self.put_settings(rt, store);
        for name in KEYS {
            self.put_key(rt, store, name);
        }
    }

    fn put_place<R: Abort>(&mut self, rt: &R, node: Option<NodeId>) {
        match node {
            None => self.put(rt, u64::MAX),
            Some(node) => self.put(rt, u64::from(node.0)),
        }
    }

    fn put_node<R: Abort, A: Allocator + Clone>(
        &mut self,
        rt: &R,
        session: &Session<A>,
        node: NodeId,
    ) {
        self.put_place(rt, session.parent(node));
        if let Some((_, outcome)) = session.row(node) {
            self.outcomes.push(outcome).expect(rt, "no memory");
        }
        for index in 0..4 {
            self.put_place(rt, session.child(node, index));
        }
    }

    /// Puts what the session tells: its nodes, where it stands, and the store there.
    pub fn put_session<R: Abort, A: Allocator + Clone>(&mut self, rt: &R, session: &Session<A>) {
        self.put(rt, u64::from(session.current().0));
        self.put(rt, u64::from(session.issued()));
        for node in 0..=session.issued() {
            self.put_node(rt, session, NodeId(node));
        }
        self.put_store(rt, session.store())
    }
}

/// A picture of the store.
pub fn picture_of<R: Abort, A: Allocator + Clone>(
    rt: &R,
    alloc: Global,
    store: &Store<A>,
) -> Picture
    requires { Sound store.now }
{
    let mut picture = Picture::new(alloc);
    picture.put_store(rt, store);
    picture
}

/// A picture of the session.
pub fn session_picture<R: Abort, A: Allocator + Clone>(
    rt: &R,
    alloc: Global,
    session: &Session<A>,
) -> Picture {
    let mut picture = Picture::new(alloc);
    picture.put_session(rt, session);
    picture
}
