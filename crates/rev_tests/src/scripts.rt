//! A script cut after every byte, from one piece and from a reader that is interrupted at each byte, and what a run
//! tells of itself. Worked scripts of every step stand apart, and are run on the program.
use crate::classes::DEFAULTS;
use crate::streams::{Narrow, Stutter};
use rev_classes::{Config, fault_of};
use rev_output::ToWrite;
use rev_script::dialect::Dialect;
use rev_script::duplex::Apart;
use rev_script::source::FromRead;
use rev_shell::run::{RunFault, Summary, Tally, run};
use std::alloc::Global;
use std::io::{Read, Write};
use std::process::Abort;

/// Runs what the reader gives, and writes to the writer.
pub fn run_with<R: Abort, I: Read + Drop, O: Write + Drop>(
    rt: &R,
    alloc: Global,
    config: &Config,
    reader: I,
    writer: O,
) -> Result<Summary, RunFault> {
    run_in(rt, alloc, config, Dialect::CrLf, reader, writer)
}

/// The same, in a dialect.
pub fn run_in<R: Abort, I: Read + Drop, O: Write + Drop>(
    rt: &R,
    alloc: Global,
    config: &Config,
    dialect: Dialect,
    reader: I,
    writer: O,
) -> Result<Summary, RunFault> {
    if let Some(fault) = fault_of(config) {
        panic!(rt; "{fault}");
    }
    let mut streams = Apart {
        source: FromRead::new(reader),
        sink: ToWrite::new(writer),
    };
    run(&alloc, config, dialect, &mut streams)
}

/// Adds bytes to a text.
pub fn put<R: Abort>(rt: &R, text: &mut Vec<u8>, bytes: &[u8]) {
    text.extend_from_slice(bytes).expect(rt, "no memory");
}

// Runs what is left of a script that was cut, whose whole lines are answered by `whole`: from one piece and byte by
// byte the same is written, and where a read fails instead of the end, the answers of the whole lines are.
fn try_cut<R: Abort>(rt: &R, alloc: Global, script: &[u8], whole: &[u8]) {
    let bytes = script.len();
    let mut at_once: Vec<u8> = Vec::new(alloc);
    let ended = run_with(rt, alloc, &DEFAULTS, script, &mut at_once);
    let answers = at_once.as_slice();
    assert!(rt;
        ended.is_ok() && answers.starts_with(whole),
        "cut after {bytes} bytes"
    );
    try_bytes(rt, alloc, Stutter::new(script), answers, ended);
    let fault = Err(RunFault::Read);
    try_bytes(rt, alloc, Stutter::failing(script), whole, fault);
}

// What is read byte by byte is answered so, and ends so.
fn try_bytes<R: Abort>(
    rt: &R,
    alloc: Global,
    reader: Stutter<'_>,
    answers: &[u8],
    end: Result<Summary, RunFault>,
) {
    let (bytes, fails) = (reader.rest.len(), reader.fails);
    let mut written: Vec<u8> = Vec::new(alloc);
    let ended = run_with(rt, alloc, &DEFAULTS, reader, &mut written);
    assert!(rt;
        ended == end && written.as_slice() == answers,
        "after {bytes} bytes, fails: {fails}"
    );
}

// Lines that are sent, each with its answers.
static LINES: [(&str, &str); 9] = [
    ("set a 7 0 3\r\n", ""),
    ("abc\r\n", "STORED\r\n"),
    ("get a b\n", "VALUE a 7 3\r\nabc\r\nEND\r\n"),
    ("append a 0 0 1 noreply\r\n", ""),
    ("d\r\n", ""),
    ("\r\n", "ERROR\r\n"),
    ("gets a\r\n", "VALUE a 7 4 2\r\nabcd\r\nEND\r\n"),
    (":back\r\n", "NODE 4\r\n"),
    (":at\r\n", "NODE 4\r\n"),
];

#[test]
fn cuts(rt: HostRuntime) {
    let alloc = rt.alloc();
    let mut script: Vec<u8> = Vec::new(alloc);
    let mut answers: Vec<u8> = Vec::new(alloc);
    for (sent, told) in &LINES {
        for byte in sent.as_bytes() {
            try_cut(&rt, alloc, script.as_slice(), answers.as_slice());
            put(&rt, &mut script, &[*byte]);
        }
        put(&rt, &mut answers, told.as_bytes());
    }
    try_cut(&rt, alloc, script.as_slice(), answers.as_slice());
    let mut written: Vec<u8> = Vec::new(alloc);
    let ended = run_with(&rt, alloc, &DEFAULTS, script.as_slice(), &mut written);
    let summary = Summary {
        lines: 7,
        plays: 5,
        bad: Tally { count: 1, first: 4 },
        refused: Tally { count: 0, first: 0 },
    };
    assert!(rt;
        written.as_slice() == answers.as_slice() && ended == Ok(summary),
        "the whole"
    );
}

// A writer that stops after each number of bytes in turn has taken these bytes of the answers.
fn try_writers<R: Abort>(rt: &R, alloc: Global, fails: bool) {
    let script = b"set a 0 0 1\r\nx\r\nget a\r\n:at\r\n";
    let answers = b"STORED\r\nVALUE a 0 1\r\nx\r\nEND\r\nNODE 2\r\n";
    for most in 0..=answers.len() {
        let mut writer = Narrow {
            bytes: Vec::new(alloc),
            most,
            fails,
        };
        let ended = run_with(rt, alloc, &DEFAULTS, script.as_slice(), &mut writer);
        let fault = (most < answers.len()).then_some(RunFault::Write);
        let front = answers.get(..most).expect(rt, "no such front");
        assert!(rt;
            writer.bytes.as_slice() == front && ended.err() == fault,
            "{most} bytes"
        );
    }
}

#[test]
fn writers(rt: HostRuntime) {
    try_writers(&rt, rt.alloc(), true);
    try_writers(&rt, rt.alloc(), false);
}
