//! Files in memory, played at once, of which one cannot be read to its end.
use crate::classes::SMALL_PAGES;
use crate::players::streams::Failing;
use rev_classes::fault_of;
use rev_output::ToWrite;
use rev_plays::begin::open_session;
use rev_recordings::play::play_files;
use rev_script::dialect::Dialect;
use std::io::{Read, Write};
use std::process::Abort;
use std::sync::Wait;
use std::thread::Threads;

// The status of a recording of these files. What is told goes to `errors`.
fn status_of<R: Threads + Wait + Sync + AllocGlobal + Abort, F: Read + Drop, W: Write>(
    rt: &R,
    files: Vec<(String, F)>,
    writer: &mut W,
    errors: &mut Vec<u8>,
) -> u8 {
    let count = files.len();
    assert!(rt; 1 <= count && count <= 8, "{count} files");
    if let Some(fault) = fault_of(&SMALL_PAGES) {
        panic!(rt; "{fault}");
    }
    match open_session(&rt.alloc(), &SMALL_PAGES) {
        Some(session) => play_files(
            rt,
            session,
            Dialect::CrLf,
            files,
            writer,
            &mut ToWrite::new(errors),
        ),
        None => panic!(rt; "no memory"),
    }
}

fn files_of<R: AllocGlobal + Abort>(
    rt: &R,
    files: &[(&'static str, &'static [u8])],
) -> Vec<(String, Failing<'static>)> {
    let mut all = Vec::new(rt.alloc());
    for (name, bytes) in files {
        let name = String::from_str(rt.alloc(), *name).expect(rt, "no memory");
        let file = Failing { rest: *bytes };
        all.push((name, file)).expect(rt, "no memory");
    }
    all
}

#[test]
fn failing_reader(rt: HostRuntime) {
    let files = files_of(&rt, &[("a", b"~bump\r\n:at"), ("b", b"")]);
    let mut output: Vec<u8> = Vec::new(rt.alloc());
    let mut errors: Vec<u8> = Vec::new(rt.alloc());
    // The line that was cut is not known, and so it is the read that is told.
    let status = status_of(&rt, files, &mut output, &mut errors);
    assert!(rt; status == 4 && output.is_empty());
    assert!(rt; errors.as_slice() == b"lrudb: a: cannot read\n".as_slice());
}
