//! The program `lrudb`: its words and the standard streams are handed over.
#![tactic(auto)]

use rev_output::ToWrite;
use rev_program::program::program;
use std::process::ExitCode;
use std::rt::Env;
use std::{env, io};

// The words behind the program's name.
fn words_of<R: Env + AllocGlobal>(rt: &R) -> io::Result<Vec<String>> {
    let mut words = env::args(rt)?;
    let _name = words.next();
    Ok(words.collect(rt.alloc())?)
}

fn main(rt: HostRuntime) -> ExitCode {
    let words = match words_of(&rt) {
        Ok(words) => words,
        Err(error) if error.kind() == io::ErrorKind::OutOfMemory => {
            let _ = eprintln!(rt; "lrudb: out of memory");
            return ExitCode::from(3);
        }
        Err(_) => {
            let _ = eprintln!(rt; "error: invalid UTF-8 was detected in one or more arguments");
            return ExitCode::from(2);
        }
    };
    let status = program(
        &rt,
        words.as_slice(),
        rt.stdin(),
        &mut rt.stdout(),
        &mut ToWrite::new(rt.stderr()),
        &mut rt.stderr(),
    );
    ExitCode::from(status)
}
