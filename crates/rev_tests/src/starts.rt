//! Steps that are played before a run, which keeps neither nodes nor records of them.
use crate::classes::SMALL_PAGES;
use linked_list_allocator::LocalHeap;
use rev_classes::fault_of;
use rev_evidence::notes::LogNotes;
use rev_output::ToWrite;
use rev_plays::begin::open_session;
use rev_plays::quiet::TraceFault;
use rev_plays::start::play_start;
use rev_script::dialect::Dialect;
use rev_script::duplex::Apart;
use rev_script::source::FromRead;
use rev_shell::run::{Prompts, run_session};
use rev_undotree::Session;
use std::alloc::{Allocator, Global};
use std::process::Abort;

// Lines that make steps, each with what it is answered.
static STEPS: [(&str, &str); 11] = [
    ("set a 0 0 1\r\nx\r\n", "STORED\r\n"),
    ("set b 7 0 2\r\nyy\r\n", "STORED\r\n"),
    (
        "get a b c\r\n",
        "VALUE a 0 1\r\nx\r\nVALUE b 7 2\r\nyy\r\nEND\r\n",
    ),
    ("delete b\r\n", "DELETED\r\n"),
    ("touch a 9\r\n", "TOUCHED\r\n"),
    ("@ 5\r\n", "OK\r\n"),
    (
        "incr a 1\r\n",
        "CLIENT_ERROR cannot increment or decrement non-numeric value\r\n",
    ),
    ("set a 0 0 1 noreply\r\n7\r\n", ""),
    ("incr a 5\r\n", "12\r\n"),
    ("~pull 1 hot\r\n", "MOVED\r\n"),
    ("gets a\r\n", "VALUE a 0 2 4\r\n12\r\nEND\r\n"),
];

// Questions that do not look above the root, each with what it is answered behind all steps.
static QUESTIONS: [(&str, &str); 5] = [
    (":item a\r\n", "ITEM a 1 cold 0 0 5 4 F 2\r\n"),
    (":item b\r\n", "NOITEM\r\n"),
    (
        ":globals\r\n",
        "GLOBALS now 5 cas 4 mark 0 flush - mover - bump 0\r\n",
    ),
    (":pages\r\n", "PAGE 0 1\r\nEND\r\n"),
    (":why a\r\n", "PRESENT\r\n"),
];

fn put<R: Abort>(rt: &R, text: &mut Vec<u8>, more: &str) {
    text.extend_from_slice(more.as_bytes())
        .expect(rt, "no memory");
}

fn opened<R: Abort, A: Allocator + Clone>(rt: &R, alloc: &A) -> Session<A> {
    assert!(rt; fault_of(&SMALL_PAGES).is_none());
    match open_session(alloc, &SMALL_PAGES) {
        Some(session) => session,
        None => panic!(rt; "no memory"),
    }
}

// Plays a start where the session stands, and tells how that ended.
fn start_with<A: Allocator + Clone>(
    alloc: &A,
    session: &mut Session<A>,
    start: &[u8],
) -> Result<(), TraceFault> {
    play_start(alloc, session, Dialect::CrLf, &mut FromRead::new(start))
}

// What is answered to a script on a session.
fn answers<R: AllocGlobal + Abort>(
    rt: &R,
    session: &mut Session<Global>,
    script: &[u8],
) -> Vec<u8> {
    let mut written: Vec<u8> = Vec::new(rt.alloc());
    let log = LogNotes::none(rt.alloc());
    let ended = run_session(
        &rt.alloc(),
        session,
        &log,
        Dialect::CrLf,
        Prompts::Hidden,
        &mut Apart {
            source: FromRead::new(script),
            sink: ToWrite::new(&mut written),
        },
    );
    assert!(rt; ended.is_ok());
    written
}

// Plays the first steps as starts, each of so many lines, and then runs what is left of the script.
fn parted<R: AllocGlobal + Abort>(rt: &R, session: &mut Session<Global>, at: usize, each: usize) {
    let mut start: Vec<u8> = Vec::new(rt.alloc());
    let mut script: Vec<u8> = Vec::new(rt.alloc());
    let mut wanted: Vec<u8> = Vec::new(rt.alloc());
    for (index, (line, answer)) in STEPS.iter().enumerate() {
        if index >= at {
            put(rt, &mut script, *line);
            put(rt, &mut wanted, *answer);
            continue;
        }
        put(rt, &mut start, *line);
        if (index + 1).checked_rem(each) == Some(0) || index + 1 == at {
            let ended = start_with(&rt.alloc(), session, start.as_slice());
            assert!(rt; ended == Ok(()) && session.issued() == 0, "{at} {each}");
            start.clear();
        }
    }
    for (line, answer) in &QUESTIONS {
        put(rt, &mut script, *line);
        put(rt, &mut wanted, *answer);
    }
    let written = answers(rt, session, script.as_slice());
    assert!(rt; written.as_slice() == wanted.as_slice(), "{at} {each}");
}

#[test]
fn parted_scripts(rt: HostRuntime) {
    for at in 0..STEPS.len() + 1 {
        for each in [1, 4, 100] {
            let mut session = opened(&rt, &rt.alloc());
            parted(&rt, &mut session, at, each);
            drop(session);
        }
    }
}

// What is above the root is not known: a key that left before is as one that never was.
#[test]
fn reasons(rt: HostRuntime) {
    let mut session = opened(&rt, &rt.alloc());
    let start = b"set a 0 0 1\r\nx\r\ndelete a\r\n";
    let ended = start_with(&rt.alloc(), &mut session, start.as_slice());
    let written = answers(
        &rt,
        &mut session,
        b":why a\r\n:story a\r\n:gone\r\n:back\r\n:tree\r\nset a 0 0 1\r\ny\r\ndelete a\r\n:why a\r\n",
    );
    drop(session);
    assert!(rt; ended == Ok(()));
    assert!(rt;
        written.as_slice()
            == b"NEVER\r\nEND\r\nEND\r\nROOT\r\n0 - root -\r\nEND\r\nSTORED\r\nDELETED\r\nLEFT 2 deleted\r\n".as_slice()
    );
}

// A start that is no steps, with what it is answered.
static FAULTS: [(&[u8], TraceFault); 5] = [
    (b":at\r\n", TraceFault::NotAStep { line: 1 }),
    // A data block belongs to its line.
    (
        b"set a 0 0 1\r\nx\r\nset b 0 0 1\r\ny\r\n:back\r\n",
        TraceFault::NotAStep { line: 3 },
    ),
    (b"~bump\r\n\r\n", TraceFault::NotAStep { line: 2 }),
    // Data end in CR LF.
    (b"set a 0 0 1\nx\n", TraceFault::NotAStep { line: 1 }),
    (
        b"set a 0 0 1\r\nx\r\nset a 0 0 1\r\n",
        TraceFault::NotAStep { line: 2 },
    ),
];

#[test]
fn faults(rt: HostRuntime) {
    for (start, fault) in &FAULTS {
        let mut session = opened(&rt, &rt.alloc());
        let ended = start_with(&rt.alloc(), &mut session, *start);
        drop(session);
        assert!(rt; ended == Err(*fault));
    }
}

// As many steps as take much more memory than there is, where each is kept.
const ROUNDS: usize = 2000;

// Plays a start in a heap with so many bytes, and tells how that ended.
fn played_in<R: AllocGlobal + Abort>(rt: &R, bytes: usize, start: &[u8]) -> Result<(), TraceFault> {
    let heap = LocalHeap::new(rt.alloc(), bytes).expect(rt, "no memory");
    assert!(rt; fault_of(&SMALL_PAGES).is_none());
    let ended = match open_session(&&heap, &SMALL_PAGES) {
        None => Err(TraceFault::Memory),
        Some(mut session) => {
            let ended = start_with(&&heap, &mut session, start);
            drop(session);
            ended
        }
    };
    assert!(rt;
        heap.free().saturating_add(64) > bytes,
        "{bytes}: {}",
        heap.free()
    );
    ended
}

#[test]
fn heaps(rt: HostRuntime) {
    let mut start: Vec<u8> = Vec::new(rt.alloc());
    for _ in 0..ROUNDS {
        put(
            &rt,
            &mut start,
            "set key 0 0 10\r\n0123456789\r\nget key key key\r\n",
        );
    }
    assert!(rt; played_in(&rt, 65536, start.as_slice()) == Ok(()));
    // Where there is less and less, a request is refused, and it is told so.
    let mut refused: usize = 0;
    for units in 0..512 {
        match played_in(&rt, units * 128 + 4096, start.as_slice()) {
            Ok(()) => {}
            Err(TraceFault::Memory) => refused = refused.saturating_add(1),
            Err(_) => panic!(rt; "{units}"),
        }
    }
    assert!(rt; 0 < refused && refused < 512, "{refused}");
}
