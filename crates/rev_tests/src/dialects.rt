//! Data blocks in each dialect of the reader, worked by hand: what is answered while the next byte is waited for, and
//! what where the input ends, after every byte.
use crate::classes::DEFAULTS;
use crate::scripts::{put, run_in};
use crate::streams::Stutter;
use rev_script::dialect::Dialect;
use rev_shell::run::RunFault;
use std::alloc::Global;
use std::process::Abort;

/// Some bytes of a script. After each of them the same was answered: first what is while the next byte is waited for,
/// and then what is where the input ends.
struct Stage(&'static str, &'static str, &'static str);

struct Case {
    name: &'static str,
    dialect: Dialect,
    stages: &'static [Stage],
}

const STORED: &str = "STORED\r\n";

const STORED_ERROR: &str = "STORED\r\nERROR\r\n";

const STORED_HELD: &str = "STORED\r\nVALUE a 0 2\r\nhi\r\nEND\r\n";

const ERROR: &str = "ERROR\r\n";

const BAD: &str = "CLIENT_ERROR bad data chunk\r\n";

const BAD_ERROR: &str = "CLIENT_ERROR bad data chunk\r\nERROR\r\n";

const BAD_END: &str = "CLIENT_ERROR bad data chunk\r\nEND\r\n";

const BAD_TWICE: &str = "CLIENT_ERROR bad data chunk\r\nCLIENT_ERROR bad data chunk\r\n";

// The front of a line that stores.
const SET: Stage = Stage("set a 0 0 ", "", ERROR);

static CASES: [Case; 9] = [
    Case {
        name: "LF behind the data",
        dialect: Dialect::AnyFeed,
        stages: &[
            SET,
            Stage("2\nhi", "", BAD),
            Stage("\n", STORED, STORED),
            Stage("get ", STORED, STORED_ERROR),
            Stage("a", STORED, STORED_HELD),
            Stage("\n", STORED_HELD, STORED_HELD),
        ],
    },
    Case {
        name: "CR LF behind the data",
        dialect: Dialect::AnyFeed,
        stages: &[
            SET,
            Stage("2\r\nhi\r", "", BAD),
            Stage("\n", STORED, STORED),
        ],
    },
    Case {
        name: "feeds and returns in the data",
        dialect: Dialect::AnyFeed,
        stages: &[
            SET,
            Stage("4\n\n\r\n\r", "", BAD),
            Stage("\n", STORED, STORED),
        ],
    },
    Case {
        name: "no data",
        dialect: Dialect::AnyFeed,
        stages: &[SET, Stage("0\n", "", BAD), Stage("\n", STORED, STORED)],
    },
    Case {
        name: "another byte behind the data",
        dialect: Dialect::AnyFeed,
        stages: &[
            SET,
            Stage("2\nhi", "", BAD),
            Stage("X get a\r more\n", BAD, BAD),
            Stage("get ", BAD, BAD_ERROR),
            Stage("a", BAD, BAD_END),
            Stage("\n", BAD_END, BAD_END),
        ],
    },
    Case {
        name: "CR alone behind the data",
        dialect: Dialect::AnyFeed,
        stages: &[
            SET,
            Stage("2\nhi\r", "", BAD),
            Stage("\r\n", BAD, BAD),
            Stage("get ", BAD, BAD_ERROR),
            Stage("a", BAD, BAD_END),
            Stage("\r", BAD, BAD_END),
            Stage("\n", BAD_END, BAD_END),
        ],
    },
    Case {
        name: "two bad blocks, one behind the other",
        dialect: Dialect::AnyFeed,
        stages: &[
            SET,
            Stage("0\n", "", BAD),
            Stage("X\n", BAD, BAD),
            Stage("set b 0 0 ", BAD, BAD_ERROR),
            Stage("1\nb", BAD, BAD_TWICE),
            Stage("XX", BAD_TWICE, BAD_TWICE),
        ],
    },
    Case {
        name: "LF behind the data, where CR LF is due",
        dialect: Dialect::CrLf,
        stages: &[
            SET,
            Stage("2\nhi\n", "", BAD),
            Stage("g", BAD, BAD),
            Stage("et ", BAD, BAD_ERROR),
        ],
    },
    Case {
        name: "CR LF behind the data, where it is due",
        dialect: Dialect::CrLf,
        stages: &[SET, Stage("2\nhi\r", "", BAD), Stage("\n", STORED, STORED)],
    },
];

// What is written for these bytes of a reader that then fails, or ends, and how the run ended.
fn answers_to<R: Abort>(
    rt: &R,
    alloc: Global,
    dialect: Dialect,
    script: &[u8],
    fails: bool,
) -> (Vec<u8>, Option<RunFault>) {
    let mut written: Vec<u8> = Vec::new(alloc);
    let mut reader = Stutter::new(script);
    reader.fails = fails;
    let ended = run_in(rt, alloc, &DEFAULTS, dialect, reader, &mut written);
    (written, ended.err())
}

// After these bytes, in one piece and byte by byte, so much is answered.
fn try_front<R: Abort>(rt: &R, alloc: Global, case: &Case, script: &[u8], at: &Stage) {
    let name = case.name;
    let Stage(_, waiting, ended) = *at;
    let bytes = script.len();
    let mut at_once: Vec<u8> = Vec::new(alloc);
    let run = run_in(rt, alloc, &DEFAULTS, case.dialect, script, &mut at_once);
    assert!(rt;
        run.is_ok() && at_once.as_slice() == ended.as_bytes(),
        "{name}: {bytes} bytes at once"
    );
    let (written, fault) = answers_to(rt, alloc, case.dialect, script, false);
    assert!(rt;
        fault.is_none() && written.as_slice() == ended.as_bytes(),
        "{name}: the end after {bytes} bytes"
    );
    let (written, fault) = answers_to(rt, alloc, case.dialect, script, true);
    assert!(rt;
        fault == Some(RunFault::Read) && written.as_slice() == waiting.as_bytes(),
        "{name}: a wait after {bytes} bytes"
    );
}

fn try_case<R: Abort>(rt: &R, alloc: Global, case: &Case) {
    let mut script: Vec<u8> = Vec::new(alloc);
    for stage in case.stages {
        for byte in stage.0.as_bytes() {
            put(rt, &mut script, &[*byte]);
            try_front(rt, alloc, case, script.as_slice(), stage);
        }
    }
}

#[test]
fn dialects(rt: HostRuntime) {
    for case in &CASES {
        try_case(&rt, rt.alloc(), case);
    }
}
