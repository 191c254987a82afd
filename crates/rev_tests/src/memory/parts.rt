//! Keys, lines, and the parts of a store.
use crate::memory::heap::{Trial, fill, refuse_in_turn, want_nothing};
use crate::owned::is_made;
use crate::streams::Stutter;
use linked_list_allocator::LocalHeap;
use rev_classes::{ClassTable, Config};
use rev_index::Index;
use rev_items::{Key, KeyFault};
use rev_pages::Pages;
use rev_queues::Queues;
use rev_script::byte_reader::LineFault;
use rev_script::lines::Lines;
use rev_script::source::{FromRead, Source};
use std::alloc::Global;
use std::process::Abort;

/// A store of few bytes.
pub const SMALL: Config = Config {
    page_size: 1024,
    pages: 1,
    num: 5,
    den: 4,
    bump: 1,
    hash_power: 4,
    temp_ttl: -1,
    now: 1,
};

#[derive(Clone, Copy)]
enum Part {
    Key,
    Pages,
    PageSlots,
    Queues,
    QueueSlots,
    Index,
    IndexSlots,
}

const PARTS: [Part; 7] = [
    Part::Key,
    Part::Pages,
    Part::PageSlots,
    Part::Queues,
    Part::QueueSlots,
    Part::Index,
    Part::IndexSlots,
];

// Whether the heap had memory for the part.
fn has_memory<R: Abort>(rt: &R, heap: &LocalHeap, part: Part) -> bool {
    let table = ClassTable::build(&SMALL).expect(rt, "no class table");
    match part {
        Part::Key => match Key::new(heap, b"a-key-that-takes-memory-of-its-own") {
            Ok(_) => true,
            Err(KeyFault::Memory) => false,
            Err(KeyFault::BadKey) => panic!(rt; "a bad key"),
        },
        Part::Pages => is_made(Pages::open(heap, &SMALL, &table)),
        Part::PageSlots => is_made(rev_pages::slots(heap, 10)),
        Part::Queues => is_made(Queues::open(heap, &SMALL, &table)),
        Part::QueueSlots => is_made(rev_queues::slots(heap, 10)),
        Part::Index => is_made(Index::open(heap, &SMALL, &table)),
        Part::IndexSlots => is_made(rev_index::slots(heap, 10)),
    }
}

impl Trial for Part {
    // All memory is given back, also by what was refused.
    fn attempt<R: Abort>(&self, rt: &R, alloc: Global, heap: &LocalHeap, left: usize) -> bool {
        let _ballast = fill(rt, alloc, heap, left);
        let is_made = has_memory(rt, heap, *self);
        assert!(rt; heap.free() == left, "{left} bytes left");
        is_made
    }
}

#[test]
fn parts(rt: HostRuntime) {
    for part in &PARTS {
        refuse_in_turn(&rt, rt.alloc(), "a part", part);
    }
}

// A script of one line.
#[derive(Clone, Copy)]
struct Text(&'static str);

// Lines whose reading takes memory: for its words, for its key and its data. A line that was read whole takes none of
// its own.
static LINES: [Text; 4] = [
    Text("set a 0 0 5\r\nabcde\r\n"),
    Text("get a b c d e f g h\r\n"),
    Text(":item a-key-that-takes-memory-of-its-own\r\n"),
    Text(":mark a\r\n"),
];

// Whether there was a next line.
fn has_next<S: Source>(lines: &mut Lines<S, &LocalHeap>) -> Result<bool, LineFault> {
    match lines.next() {
        Ok(line) => {
            let is_some = line.is_some();
            drop(line);
            Ok(is_some)
        }
        Err(fault) => Err(fault),
    }
}

// Whether there was memory for the line. A reader that was refused memory stays refused.
fn is_read<S: Source + Drop, R: Abort>(
    rt: &R,
    alloc: Global,
    heap: &LocalHeap,
    left: usize,
    source: S,
) -> bool {
    let mut lines = Lines::over(heap, source);
    let ballast = fill(rt, alloc, heap, left);
    let line = has_next(&mut lines);
    drop(ballast);
    let is_read = line == Ok(true);
    if !is_read {
        assert!(rt; line == Err(LineFault::Memory), "{left} bytes left");
        let again = has_next(&mut lines);
        assert!(rt; again == Err(LineFault::Memory), "{left} bytes left");
    }
    is_read
}

impl Trial for Text {
    fn attempt<R: Abort>(&self, rt: &R, alloc: Global, heap: &LocalHeap, left: usize) -> bool {
        let source = FromRead::new(self.0.as_bytes());
        is_read(rt, alloc, heap, left, source)
    }
}

// A script of one line that comes byte by byte, and is copied as it comes.
#[derive(Clone, Copy)]
struct ByteByByte(&'static str);

impl Trial for ByteByByte {
    fn attempt<R: Abort>(&self, rt: &R, alloc: Global, heap: &LocalHeap, left: usize) -> bool {
        let source = FromRead::new(Stutter::new(self.0.as_bytes()));
        is_read(rt, alloc, heap, left, source)
    }
}

// Refused are what the line asks for and, where it comes byte by byte, its copy as well.
#[test]
fn lines(rt: HostRuntime) {
    for line in &LINES {
        refuse_in_turn(&rt, rt.alloc(), line.0, line);
        refuse_in_turn(&rt, rt.alloc(), line.0, &ByteByByte(line.0));
    }
}

// A key of at most 24 bytes takes no memory, and neither does a line that is looked at where it lies.
#[test]
fn line_of_a_short_key(rt: HostRuntime) {
    let line = ":item a-key-in-place\r\n";
    want_nothing(&rt, rt.alloc(), line, &Text(line));
    refuse_in_turn(&rt, rt.alloc(), line, &ByteByByte(line));
}
