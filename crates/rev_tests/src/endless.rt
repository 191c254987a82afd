//! A script without an end.
use crate::classes::DEFAULTS;
use crate::scripts::run_with;
use rev_shell::run::RunFault;
use std::io;
use std::io::Read;

/// Gives `x` for ever, in pieces as large as are asked for.
#[derive(Drop)]
struct Endless;

impl Read for Endless {
    fn read(&mut self, buf: &mut [u8]) -> io::Result<usize> {
        buf.fill(b'x');
        Ok(buf.len())
    }
}

// It is one line that has no end, so nothing is answered.
#[test]
fn script_without_end(rt: HostRuntime) {
    let mut written: Vec<u8> = Vec::new(rt.alloc());
    let ended = run_with(&rt, rt.alloc(), &DEFAULTS, Endless, &mut written);
    assert!(rt; ended == Err(RunFault::TooLong) && written.is_empty());
}
