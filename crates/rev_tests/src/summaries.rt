//! What a run tells of itself, beside what it writes: its lines and its plays.
use crate::classes::DEFAULTS;
use crate::scripts::{put, run_with};
use rev_shell::run::{Summary, Tally};

struct Case {
    script: &'static [u8],
    lines: u64,
    plays: u64,
    bad: Tally,
}

const NONE: Tally = Tally { count: 0, first: 0 };

// Nothing, a line without its ending, endings with LF alone, a data block that the input's end cuts, and one without
// its ending with what follows.
static CASES: [Case; 5] = [
    Case {
        script: b"",
        lines: 0,
        plays: 0,
        bad: NONE,
    },
    Case {
        script: b":at",
        lines: 1,
        plays: 0,
        bad: NONE,
    },
    Case {
        script: b":at\n:at\r\n\n",
        lines: 3,
        plays: 0,
        bad: Tally { count: 1, first: 3 },
    },
    Case {
        script: b"set a 0 0 5\r\nab",
        lines: 1,
        plays: 0,
        bad: Tally { count: 1, first: 1 },
    },
    Case {
        script: b"set a 0 0 1\r\nabc\r\n:at\r\nset a 0 0 0\r\n\r\n:at\r\n",
        lines: 5,
        plays: 1,
        bad: Tally { count: 2, first: 1 },
    },
];

#[test]
fn short_scripts(rt: HostRuntime) {
    for case in &CASES {
        let (lines, plays) = (case.lines, case.plays);
        let mut written: Vec<u8> = Vec::new(rt.alloc());
        let ended = run_with(&rt, rt.alloc(), &DEFAULTS, case.script, &mut written);
        let (bad, refused) = (case.bad, NONE);
        assert!(rt;
            ended
                == Ok(Summary {
                    lines,
                    plays,
                    bad,
                    refused
                }),
            "{lines} lines"
        );
    }
}

// Lines of so many bytes at the limits of a line and of a line of keys, and one past each.
static LIMITS: [(&str, usize); 4] = [("", 2048), ("", 2049), ("get ", 65536), ("get ", 65537)];

#[test]
fn long_lines(rt: HostRuntime) {
    for (word, bytes) in &LIMITS {
        let mut script: Vec<u8> = Vec::new(rt.alloc());
        put(&rt, &mut script, word.as_bytes());
        script.resize(*bytes, b'x').expect(&rt, "no memory");
        put(&rt, &mut script, b"\r\n:at\r\n");
        let mut written: Vec<u8> = Vec::new(rt.alloc());
        let ended = run_with(&rt, rt.alloc(), &DEFAULTS, script.as_slice(), &mut written);
        let (bad, refused) = (Tally { count: 1, first: 1 }, NONE);
        assert!(rt;
            ended
                == Ok(Summary {
                    lines: 2,
                    plays: 0,
                    bad,
                    refused
                }),
            "{bytes} bytes"
        );
    }
}
