//! Logs of a cache, taken in and made into scripts, where a read is interrupted, or a write fails. What becomes of
//! other logs, of traces, and where a file can't be read or written, stands in `worked/imports`.
use crate::streams::{Narrow, Stutter};
use rev_choices::{Rhythm, Sample};
use rev_import::setup::{Setup, follow};
use rev_intake::counts::LineCounts;
use rev_intake::fault::IntakeFault;
use rev_intake::intake::{Intake, Range};
use rev_output::ToWrite;
use rev_script::source::FromRead;
use rev_watch::fault::{Field, LineFault, LogFault};
use rev_watch::reader::LogReader;
use rev_watch::settings::read_settings;
use std::alloc::Global;
use std::io::{Read, Write};
use std::process::Abort;

// What a memcached 1.6.18 of 64 megabytes says of its settings, as far as it is read.
const SETTINGS: &[u8] =
    b"STAT maxbytes 67108864\r\nSTAT growth_factor 1.25\r\nSTAT chunk_size 48\r\nSTAT item_size_max 1048576\r\nSTAT slab_chunk_max 524288\r\nSTAT hot_lru_pct 20\r\nSTAT warm_lru_pct 40\r\nSTAT hot_max_factor 0.20\r\nSTAT warm_max_factor 2.00\r\nSTAT temp_lru no\r\nSTAT temporary_ttl 61\r\nEND\r\n";

/// A log with what may stand in one: an answer in front, lines out of the order of their numbers, one number twice, an
/// event of no known kind, lines that were skipped, and a last line that was cut off.
pub const LOG: &[u8] = b"OK\r
ts=100.1 gid=1 type=conn_new rip=127.0.0.1 rport=1 transport=tcp cfd=11
ts=100.2 gid=2 type=item_get key=user%3A12 status=not_found clsid=0 cfd=11 size=0
ts=100.9 gid=5 type=item_get key=b status=not_found clsid=0 cfd=12 size=0
ts=100.3 gid=3 type=item_get key=user%3A12 status=not_found clsid=0 cfd=11 size=0
ts=100.31 gid=4 type=item_store key=user%3A12 status=stored cmd=set ttl=60 clsid=1 cfd=11 size=3
ts=101.5 gid=6 type=item_get key=user%3A12 status=found clsid=1 cfd=12 size=3
ts=101.6 gid=7 type=item_get key=user%3A12 status=found clsid=1 cfd=12 size=3
ts=101.7 gid=8 type=item_get key=user%3A12 status=not_found clsid=0 cfd=12 size=0
ts=102.1 gid=9 type=item_store key=big status=too_large cmd=set ttl=0 clsid=11 cfd=-5 size=0
ts=102.2 gid=10 type=item_get key=big status=not_found clsid=0 cfd=12 size=0
ts=102.3 gid=11 type=item_store key=c status=stored cmd=append ttl=0 clsid=2 cfd=12 size=1
ts=102.4 gid=12 type=eviction key=c fetch=no ttl=-1 la=0 clsid=1 size=1
ts=102.5 gid=13 type=item_delete key=b cfd=12
ts=103.1 gid=14 type=lru_crawler crawler=1 lru=cold examined=0 reclaimed=0 elapsed=0
ts=103.2 gid=15 type=newkind foo=1
ts=103.3 gid=16 type=item_get key=y status=found clsid=1 cfd=12 size=1
ts=103.4 gid=16 type=item_get key=z status=found clsid=1 cfd=12 size=1
skipped=7
ts=103.5 gid=17 type=item_get key=z status=found clsid=1 cfd=12 size=1
ts=103.6 gid=18 type=item_get key=z status=found clsid=1 cfd=12 size=1
ts=104.1 gid=19 type=conn_close cfd=11
ts=104.2 gid=20 type=item_get key=q";

/// Its script: the first look-up of `user:12` is a get and the second one the store's own, its second hit is a delete,
/// and the tenth line that stores nothing brings a step on the bump queue.
pub const SCRIPT: &[u8] =
    b"@ 100\r\nget user:12\r\nset user:12 0 60 3\r\nxxx\r\n~pull 1 hot\r\n~pull 1 warm\r\nget b\r\n@ 101\r\nget user:12\r\ndelete user:12\r\nget user:12\r\n@ 102\r\nget big\r\nset c 1 0 1\r\nx\r\n~pull 1 hot\r\n~pull 1 warm\r\ndelete b\r\n@ 103\r\nget z\r\nget z\r\nget z\r\n~bump\r\n@ 104\r\n";

const COUNTS: LineCounts = LineCounts {
    lines: 23,
    other: 1,
    cut_off: 1,
    skipped: 7,
    left_out: 0,
    asked: 20,
    late: 0,
    repeated: 1,
    other_keys: 0,
};

/// All seconds.
pub const ALL: Range = Range {
    first: 0,
    last: u32::MAX,
    sample: Sample { one_of: 1 },
};

/// What lrudb is opened with in the place of the server.
pub fn setup(rt: &impl Abort) -> Setup {
    match read_settings(SETTINGS) {
        Ok(settings) => match follow(&settings, None) {
            Ok(setup) => setup,
            Err(_) => panic!(rt; "no setup"),
        },
        Err(_) => panic!(rt; "no settings"),
    }
}

fn opened(rt: &impl Abort, alloc: Global) -> Intake<Global> {
    match Intake::open(alloc, setup(rt), Rhythm::Lean, ALL, None) {
        Ok(intake) => intake,
        Err(_) => panic!(rt; "no memory"),
    }
}

// Makes the script of a log, and answers what became of its lines.
fn made<F: Read + Drop, W: Write>(
    rt: &impl Abort,
    alloc: Global,
    log: F,
    writer: &mut W,
) -> Result<LineCounts, IntakeFault> {
    let mut intake = opened(rt, alloc);
    let mut reader = LogReader::over(FromRead::new(log));
    let mut sink = ToWrite::new(writer);
    let mut done = intake.take_log(&mut reader, &mut sink);
    if done.is_ok() {
        done = intake.finish(&mut sink);
    }
    let counts = intake.counts();
    drop(intake);
    match done {
        Ok(()) => Ok(counts),
        Err(fault) => Err(fault),
    }
}

#[test]
fn script_by_hand(rt: HostRuntime) {
    let mut script: Vec<u8> = Vec::new(rt.alloc());
    let counts = made(&rt, rt.alloc(), Stutter::new(LOG), &mut script);
    assert!(rt; counts == Ok(COUNTS));
    assert!(rt; script.as_slice() == SCRIPT);
}

// A writer that takes so many bytes and then fails holds a front of the script.
#[test]
fn failing_writers(rt: HostRuntime) {
    for most in 0..SCRIPT.len() {
        let mut writer = Narrow {
            bytes: Vec::new(rt.alloc()),
            most,
            fails: true,
        };
        let made = made(&rt, rt.alloc(), LOG, &mut writer);
        assert!(rt; made == Err(IntakeFault::Write), "{most}");
        assert!(rt; writer.bytes.as_slice() == &SCRIPT[..most], "{most}");
    }
}

// The program tells a fault of a line in parts, and not by this text.
#[test]
fn a_bad_line_is_told_by_its_number(rt: HostRuntime) {
    let fault = LogFault::Line {
        line: 3,
        fault: LineFault::Missing(Field::Dst),
    };
    let told = fault.to_string(rt.alloc()).expect(&rt, "no memory");
    assert!(rt; told.as_str() == "line 3: no field `dst`");
}
