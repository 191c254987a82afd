//! What is told as a file is read, by a clock of seconds.
use crate::imports::LOG;
use rev_messages::progress::{Progress, ToldFile};
use rev_output::ToWrite;
use std::cell::Cell;
use std::io::Read;
use std::rt::Clock;
use std::time::Duration;
use std::{fs, io};

/// A clock that goes on by a second each time it is read.
#[derive(Drop)]
struct Seconds {
    read: Cell<u64>,
}

impl Clock for Seconds {
    fn monotonic(&self) -> io::Result<Duration> {
        let now = self.read.get();
        self.read.set(now.saturating_add(1));
        Ok(Duration::from_secs(now))
    }

    fn since_1970(&self) -> io::Result<Duration> {
        self.monotonic()
    }
}

// How far it has come is told with each read of a log, also the one that finds its end, and then it is taken off the
// terminal.
#[test]
fn by_the_second(rt: HostRuntime) {
    let mut names = Vec::new(rt.alloc());
    let name = String::from_str(rt.alloc(), "log").expect(&rt, "no memory");
    names.push(name).expect(&rt, "no memory");
    fs::write(&rt, "log", LOG).expect(&rt, "cannot write");
    let file = fs::open(&rt, "log").expect(&rt, "cannot read");

    let clock = Seconds { read: Cell::new(7) };
    let mut told: Vec<u8> = Vec::new(rt.alloc());
    let progress = Progress::shown(&clock, ToWrite::new(&mut told));
    progress.expect(&rt, names.as_slice());
    let mut log = ToldFile::new(file, &progress);
    let mut bytes = [0; 4096];
    for wanted in [LOG.len(), 0] {
        let read = log.read(&mut bytes).expect(&rt, "cannot read");
        assert!(rt; read == wanted);
    }
    drop(log);
    progress.end();
    drop(progress);
    assert_eq!(rt;
        std::str::from_utf8(told.as_slice()).unwrap_or(""),
        "\rlrudb: 22 lines, 100%, 22 a second\x1b[K\rlrudb: 22 lines, 100%, 11 a second\x1b[K\r\x1b[K"
    );
    fs::remove_file(&rt, "log").expect(&rt, "cannot take it away");
}
