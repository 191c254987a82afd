//! The program `rev_bench`: a job's script is made from a seed, run as `lrudb run` runs one, and what was answered is
//! kept as a digest. It is given the job, the seed and how many plays or commands the script has.
#![tactic(auto)]

mod draft;
mod job;
mod jobs;
mod random;
mod script;
mod tally;
mod words;

use crate::script::Script;
use crate::tally::{Sink, Tally};
use crate::words::Asked;
use rev_output::ToWrite;
use rev_program::Stop;
use rev_program::program::run_script;
use std::cell::Cell;
use std::process::ExitCode;
use std::rt::{Env, Files};
use std::{env, io};

// The words behind the program's name.
fn words_of<R: Env + AllocGlobal>(rt: &R) -> io::Result<Vec<String>> {
    let mut words = env::args(rt)?;
    let _name = words.next();
    Ok(words.collect(rt.alloc())?)
}

// What is asked for by the words, if it is a job.
fn asked_of<R: Env + AllocGlobal>(rt: &R) -> Option<Asked> {
    match words_of(rt) {
        Ok(words) => Asked::of(rt.alloc(), words.as_slice()),
        Err(_) => None,
    }
}

// Runs the script of what is asked for: the bytes of the script go to `bytes`, and what is answered to `tally`.
fn run<R: Files + AllocGlobal>(
    rt: &R,
    asked: Asked,
    bytes: &Cell<u64>,
    tally: &Cell<Tally>,
) -> Result<(), Stop> {
    let Asked { job, seed, .. } = asked;
    let config = job.config();
    let Ok(script) = Script::new(rt.alloc(), job, seed, bytes) else {
        return Err(Stop::Memory);
    };
    run_script(
        rt,
        config,
        None,
        Vec::new(rt.alloc()),
        script,
        &mut Sink::new(tally),
    )
}

fn main(rt: HostRuntime) -> ExitCode {
    let Some(asked) = asked_of(&rt) else {
        let _ = eprintln!(rt; "usage: rev_bench replay|pressure|walk|ask|story|large SEED COUNT");
        return ExitCode::from(2);
    };
    let name = asked.name;
    let bytes = Cell::new(0);
    let tally = Cell::new(Tally::new());
    if let Err(stop) = run(&rt, asked, &bytes, &tally) {
        let _ = stop.tell(&mut ToWrite::new(rt.stderr()));
        return ExitCode::from(stop.status());
    }
    let read = bytes.get();
    let written = tally.get().bytes();
    let digest = tally.get().digest();
    match println!(rt; "{name} script={read} answers={written} digest={digest:016x}") {
        Ok(()) => ExitCode::from(0),
        Err(_) => ExitCode::from(4),
    }
}
