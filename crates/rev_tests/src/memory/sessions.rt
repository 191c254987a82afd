//! Sessions that are opened and played on, and whole runs.
ghost use Rattle.std.specs.Prelude.{IfSome};
ghost use Rattle.rev_model.specs.Sound.{Sound};

use crate::memory::heap::{Trial, fill, refuse_in_turn};
use crate::memory::parts::SMALL;
use crate::memory::pictures::{Picture, picture_of, session_picture};
use crate::memory::steps::{Command, step_of};
use crate::owned::session_over;
use linked_list_allocator::LocalHeap;
use rev_classes::{Config, fault_of};
use rev_explain::story;
use rev_inverse::Store;
use rev_items::Key;
use rev_output::ToWrite;
use rev_script::dialect::Dialect;
use rev_script::duplex::Apart;
use rev_script::source::FromRead;
use rev_shell::run::{RunFault, Summary, run};
use rev_steps::{ActorStep, KeyCommand, Step, StoreVerb};
use rev_undotree::{PlayFault, Session};
use std::alloc::Global;
use std::process::Abort;

// The store that is handed back where a session is opened with so many bytes left, none where it opened.
fn refused_store<'a, R: Abort>(
    rt: &R,
    alloc: Global,
    heap: &'a LocalHeap,
    store: Store<&'a LocalHeap>,
    left: usize,
) -> Option<Store<&'a LocalHeap>>
    requires { Sound store }
    ensures { IfSome result Sound }
{
    let _ballast = fill(rt, alloc, heap, left);
    match Session::open(heap, store) {
        Ok(session) => {
            drop(session);
            None
        }
        Err((_, store)) => Some(store),
    }
}

// A session that is opened.
#[derive(Clone, Copy)]
struct Opening;

impl Trial for Opening {
    // A store that is handed back tells what it told before.
    fn attempt<R: Abort>(&self, rt: &R, alloc: Global, heap: &LocalHeap, left: usize) -> bool {
        let store = Store::open(heap, SMALL).expect(rt, "no store");
        let before = picture_of(rt, alloc, &store);
        match refused_store(rt, alloc, heap, store, left) {
            None => true,
            Some(store) => {
                let after = picture_of(rt, alloc, &store);
                drop(store);
                assert!(rt; before.is_same(&after), "{left} bytes left");
                false
            }
        }
    }
}

#[test]
fn opens(rt: HostRuntime) {
    refuse_in_turn(&rt, rt.alloc(), "a session", &Opening);
}

// What a case does before its play.
#[derive(Clone, Copy)]
enum Turn {
    Play(Command),
    Back,
}

#[derive(Clone, Copy)]
struct Case {
    name: &'static str,
    before: &'static [Turn],
    command: Command,
}

static CASES: [Case; 5] = [
    Case {
        name: "the first play",
        before: &[],
        command: Command::Set("a", 1),
    },
    Case {
        name: "a play that continues a run",
        before: &[Turn::Play(Command::Set("a", 1))],
        command: Command::Keyed(KeyCommand::Get, "a"),
    },
    Case {
        name: "the first fork of the root",
        before: &[Turn::Play(Command::Set("a", 1)), Turn::Back],
        command: Command::Set("b", 1),
    },
    Case {
        name: "the first fork of a run",
        before: &[
            Turn::Play(Command::Set("a", 1)),
            Turn::Play(Command::Keyed(KeyCommand::Get, "a")),
            Turn::Back,
        ],
        command: Command::Keyed(KeyCommand::Delete, "a"),
    },
    Case {
        name: "the second fork of a node",
        before: &[
            Turn::Play(Command::Set("a", 1)),
            Turn::Back,
            Turn::Play(Command::Set("b", 1)),
            Turn::Back,
        ],
        command: Command::Set("c", 1),
    },
];

fn take_turn<'a, R: Abort>(
    rt: &R,
    heap: &'a LocalHeap,
    session: &mut Session<&'a LocalHeap>,
    turn: Turn,
) {
    match turn {
        Turn::Play(command) => {
            let step = step_of(rt, heap, command);
            if let Err((fault, _)) = session.play(step) {
                panic!(rt; "a play was refused: {fault}");
            }
        }
        Turn::Back => {
            session.back().expect(rt, "no way back");
        }
    }
}

// A session on which these turns were taken.
fn session_after<'a, R: Abort>(
    rt: &R,
    heap: &'a LocalHeap,
    turns: &[Turn],
) -> Session<&'a LocalHeap> {
    let store = Store::open(heap, SMALL).expect(rt, "no store");
    let mut session = session_over(rt, heap, store);
    for turn in turns {
        take_turn(rt, heap, &mut session, *turn);
    }
    session
}

// Why a play was refused, and whether the step that was handed back is as it was.
fn refusal<'a>(
    session: &mut Session<&'a LocalHeap>,
    step: Step<&'a LocalHeap>,
    like: &Step<&'a LocalHeap>,
) -> Option<(PlayFault, bool)> {
    match session.play(step) {
        Ok(_) => None,
        Err((fault, step)) => {
            let is_same = step.is_same(like);
            drop(step);
            Some((fault, is_same))
        }
    }
}

// Plays the command with so many bytes left, and tells the refusal.
fn try_play<'a, R: Abort>(
    rt: &R,
    alloc: Global,
    heap: &'a LocalHeap,
    session: &mut Session<&'a LocalHeap>,
    command: Command,
    left: usize,
) -> Option<(PlayFault, bool)> {
    let step = step_of(rt, heap, command);
    let like = step_of(rt, heap, command);
    let _ballast = fill(rt, alloc, heap, left);
    refusal(session, step, &like)
}

impl Trial for Case {
    // A session that was refused memory tells what it told before, and the step is handed back.
    fn attempt<R: Abort>(&self, rt: &R, alloc: Global, heap: &LocalHeap, left: usize) -> bool {
        let mut session = session_after(rt, heap, self.before);
        let before = session_picture(rt, alloc, &session);
        let refusal = try_play(rt, alloc, heap, &mut session, self.command, left);
        let after = session_picture(rt, alloc, &session);
        drop(session);
        let is_refused = refusal == Some((PlayFault::Memory, true));
        let name = self.name;
        assert!(rt;
            before.is_same(&after) == is_refused && refusal.is_some() == is_refused,
            "{name}: {left} bytes left"
        );
        !is_refused
    }
}

#[test]
fn plays(rt: HostRuntime) {
    for case in &CASES {
        refuse_in_turn(&rt, rt.alloc(), case.name, case);
    }
}

// More keys than an index of 16 buckets holds before it wants more buckets.
static CROWD: [&str; 33] = [
    "a0", "a1", "a2", "a3", "a4", "a5", "a6", "a7", "a8", "a9", "b0", "b1", "b2", "b3", "b4", "b5",
    "b6", "b7", "b8", "b9", "c0", "c1", "c2", "c3", "c4", "c5", "c6", "c7", "c8", "c9", "d0", "d1",
    "d2",
];

// Bytes of the buckets that an index of 16 would grow to have.
const BUCKETS: usize = 1024;

// Bytes of a heap in which it has them.
const ROOM: usize = 65536;

// A session that holds all of the keys.
fn crowded<'a, R: Abort>(rt: &R, heap: &'a LocalHeap) -> Session<&'a LocalHeap> {
    let config = Config { pages: 4, ..SMALL };
    let store = Store::open(heap, config).expect(rt, "no store");
    let mut session = session_over(rt, heap, store);
    for name in &CROWD {
        let set = Command::Set(*name, 1);
        take_turn(rt, heap, &mut session, Turn::Play(set));
    }
    session
}

fn holds<'a, R: Abort>(
    rt: &R,
    heap: &'a LocalHeap,
    session: &Session<&'a LocalHeap>,
    name: &str,
) -> bool {
    let key = Key::new(heap, name.as_bytes()).expect(rt, "no key");
    session.store().find(&key).is_some()
}

// Whether the session holds all of the keys.
fn holds_all<'a, R: Abort>(rt: &R, heap: &'a LocalHeap, session: &Session<&'a LocalHeap>) -> bool {
    for name in &CROWD {
        if !holds(rt, heap, session, *name) {
            return false;
        }
    }
    true
}

// A play at which the index wants more buckets.
#[derive(Clone, Copy)]
struct Crowd;

impl Trial for Crowd {
    // Without memory for them the play goes on, and the index is as good as before.
    fn attempt<R: Abort>(&self, rt: &R, alloc: Global, heap: &LocalHeap, left: usize) -> bool {
        let mut session = crowded(rt, heap);
        let command = Command::Actor(ActorStep::Clock(1));
        let refusal = try_play(rt, alloc, heap, &mut session, command, left);
        assert!(rt;
            left < BUCKETS && holds_all(rt, heap, &session),
            "{left} bytes left"
        );
        drop(session);
        refusal.is_none()
    }
}

// Bytes that the play takes where there are more than enough.
fn taken_with_room<R: Abort>(rt: &R, alloc: Global) -> usize {
    let heap = LocalHeap::new(alloc, ROOM).expect(rt, "no memory");
    let mut session = crowded(rt, &heap);
    let free = heap.free();
    take_turn(
        rt,
        &heap,
        &mut session,
        Turn::Play(Command::Actor(ActorStep::Clock(1))),
    );
    let taken = free.saturating_sub(heap.free());
    drop(session);
    taken
}

#[test]
fn more_buckets(rt: HostRuntime) {
    refuse_in_turn(&rt, rt.alloc(), "a play", &Crowd);
    assert!(rt; taken_with_room(&rt, rt.alloc()) >= BUCKETS / 2);
}

// A key's story that has three events.
static LIFE: [Turn; 3] = [
    Turn::Play(Command::Set("a", 1)),
    Turn::Play(Command::Set("a", 2)),
    Turn::Play(Command::Keyed(KeyCommand::Delete, "a")),
];

// How many events the story has, asked for with so many bytes left.
fn story_length<'a, R: Abort>(
    rt: &R,
    alloc: Global,
    heap: &'a LocalHeap,
    session: &Session<&'a LocalHeap>,
    left: usize,
) -> Option<usize> {
    let key = Key::new(heap, b"a").expect(rt, "no key");
    let _ballast = fill(rt, alloc, heap, left);
    match story(session, &key) {
        Ok(events) => Some(events.len()),
        Err(_) => None,
    }
}

// A story that is asked for.
#[derive(Clone, Copy)]
struct Life;

impl Trial for Life {
    // Whatever comes of it, no memory is kept.
    fn attempt<R: Abort>(&self, rt: &R, alloc: Global, heap: &LocalHeap, left: usize) -> bool {
        let session = session_after(rt, heap, &LIFE);
        let free = heap.free();
        let length = story_length(rt, alloc, heap, &session, left);
        assert!(rt; heap.free() == free && length.unwrap_or(LIFE.len()) == LIFE.len());
        drop(session);
        length.is_some()
    }
}

#[test]
fn stories(rt: HostRuntime) {
    refuse_in_turn(&rt, rt.alloc(), "a story", &Life);
}

// The lines of a script, with their data, and what each is answered.
static LINES: [(&str, &str); 8] = [
    ("set a 7 0 5\r\nabcde\r\n", "STORED\r\n"),
    ("get a\r\n", "VALUE a 7 5\r\nabcde\r\nEND\r\n"),
    (":back\r\n", "NODE 1\r\n"),
    ("delete a\r\n", "DELETED\r\n"),
    (":back\r\n", "NODE 1\r\n"),
    ("set bb 0 0 1\r\nx\r\n", "STORED\r\n"),
    (":queue 1 hot\r\n", "QUEUE =bb =a\r\n"),
    (":pages\r\n", "PAGE 0 1\r\nEND\r\n"),
];

// The answers of the lines before a line, counted from 1.
fn answers_before<R: Abort>(rt: &R, alloc: Global, line: u64) -> Vec<u8> {
    let mut answers = Vec::new(alloc);
    for (index, (_, answer)) in LINES.iter().enumerate() {
        if (index as u64) + 1 < line {
            answers
                .extend_from_slice(answer.as_bytes())
                .expect(rt, "no memory");
        }
    }
    answers
}

// Runs the script.
fn run_script<R: Abort>(
    rt: &R,
    heap: &LocalHeap,
    script: &[u8],
    written: &mut Vec<u8>,
) -> Result<Summary, RunFault> {
    assert!(rt; fault_of(&SMALL).is_none(), "a bad store");
    run(
        &heap,
        &SMALL,
        Dialect::CrLf,
        &mut Apart {
            source: FromRead::new(script),
            sink: ToWrite::new(written),
        },
    )
}

// A script that is run.
#[derive(Clone, Copy)]
struct Script<'a>(&'a [u8]);

impl<'a> Trial for Script<'a> {
    // Where memory is refused at a line, the answers before it are written.
    fn attempt<R: Abort>(&self, rt: &R, alloc: Global, heap: &LocalHeap, left: usize) -> bool {
        let _ballast = fill(rt, alloc, heap, left);
        let mut written: Vec<u8> = Vec::new(alloc);
        let (line, is_done) = match run_script(rt, heap, self.0, &mut written) {
            Ok(_) => (u64::MAX, true),
            Err(RunFault::Memory { line }) => (line, false),
            Err(fault) => panic!(rt; "{left} bytes left: {fault}"),
        };
        let answers = answers_before(rt, alloc, line);
        assert!(rt;
            written.as_slice() == answers.as_slice(),
            "{left} bytes left: line {line}"
        );
        assert!(rt; heap.free() == left);
        is_done
    }
}

#[test]
fn runs(rt: HostRuntime) {
    let mut script: Vec<u8> = Vec::new(rt.alloc());
    for (line, _) in &LINES {
        script
            .extend_from_slice(line.as_bytes())
            .expect(&rt, "no memory");
    }
    refuse_in_turn(&rt, rt.alloc(), "a run", &Script(script.as_slice()));
}
