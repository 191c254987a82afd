//! Scripts that are made in files: each under another name until all are whole.
ghost use Rattle.std.specs.Prelude.{◌≤◌, length, IfOk};

use rev_intake::outlet::{Outlet, StartAndScript};
use rev_messages::Stop;
use rev_options::STANDARD;
use rev_output::{Sink, ToWrite, WriteFailed};
use rev_transcript::transcript::ScriptOutlet;
use std::alloc::{AllocError, Global};
use std::fs;
use std::io::Write;
use std::marker::Model;
use std::rt::Files;

// The name of a file that is written, also as it is called until it is whole.
#[derive(Drop)]
pub(crate) struct FileName {
    pub(crate) whole: String,
    pub(crate) part: String,
}

// The names of the files that are written.
#[derive(Drop)]
pub(crate) struct Names {
    pub(crate) script: FileName,
    pub(crate) options: FileName,
    // of the start in front of the script
    start: Option<FileName>,
}

/// A text and an end.
pub fn with_end(alloc: Global, prefix: &str, end: &str) -> Result<String, AllocError> {
    let mut name = String::from_str(alloc, prefix)?;
    name.push_str(end)?;
    Ok(name)
}

impl FileName {
    // Its name is a prefix and an end.
    fn new(alloc: Global, prefix: &str, end: &str) -> Result<FileName, AllocError> {
        let whole = with_end(alloc, prefix, end)?;
        match with_end(alloc, whole.as_str(), ".part") {
            Ok(part) => Ok(FileName { whole, part }),
            Err(refused) => Err(refused),
        }
    }
}

impl Names {
    // Those of a prefix, where the first one has this end.
    fn with(alloc: Global, prefix: &str, end: &str) -> Result<Names, AllocError> {
        let script = FileName::new(alloc, prefix, end)?;
        match FileName::new(alloc, prefix, ".options") {
            Ok(options) => Ok(Names {
                script,
                options,
                start: None,
            }),
            Err(refused) => Err(refused),
        }
    }

    fn of(alloc: Global, prefix: &str) -> Result<Names, AllocError> {
        Names::with(alloc, prefix, ".script")
    }

    // The same with a start in front of the script.
    fn with_start(alloc: Global, prefix: &str) -> Result<Names, AllocError> {
        let start = FileName::new(alloc, prefix, ".start")?;
        match Names::of(alloc, prefix) {
            Ok(names) => Ok(Names {
                start: Some(start),
                ..names
            }),
            Err(refused) => Err(refused),
        }
    }

    /// The same for a start in the place of a script.
    pub(crate) fn of_start(alloc: Global, prefix: &str) -> Result<Names, AllocError> {
        Names::with(alloc, prefix, ".start")
    }
}

/// A copy of a name.
pub fn copied(alloc: Global, name: &str) -> Result<String, Stop> {
    match String::from_str(alloc, name) {
        Ok(name) => Ok(name),
        Err(_) => Err(Stop::Memory),
    }
}

/// What is told of a file of this name that cannot be written.
pub fn cannot_write(alloc: Global, name: &str) -> Stop {
    match copied(alloc, name) {
        Ok(name) => Stop::CannotWriteFile(name),
        Err(stop) => stop,
    }
}

/// What a script is made of.
pub trait Making {
    /// What is known of the script once it is made.
    type Made: Drop;

    /// Makes the script, and sends it to the sink.
    fn make<K: ScriptOutlet>(self, sink: &mut K) -> Result<Self::Made, Stop>;
}

// What is told of a script that was made so, where what could not be written is this file.
fn made_in<T: Drop>(alloc: Global, made: Result<T, Stop>, target: &str) -> Result<T, Stop> {
    match made {
        Err(Stop::CannotWrite) => Err(cannot_write(alloc, target)),
        made => made,
    }
}

// A file of this name, emptied.
fn created<R: Files>(rt: &R, alloc: Global, target: &str) -> Result<R::File, Stop> {
    match fs::create(rt, target) {
        Ok(file) => Ok(file),
        Err(_) => Err(cannot_write(alloc, target)),
    }
}

// The file of a script, or those of its start and of what stands behind it.
#[derive(Drop)]
enum Opened<F: Write> {
    One(ToWrite<F>),
    Two(StartAndScript<F>),
}

// Opens the files of these names, emptied.
fn open_parts<R: Files>(rt: &R, alloc: Global, files: &Names) -> Result<Opened<R::File>, Stop> {
    let script = files.script.part.as_str();
    match &files.start {
        None => Ok(Opened::One(ToWrite::new(created(rt, alloc, script)?))),
        Some(start) => {
            let first = created(rt, alloc, start.part.as_str())?;
            match created(rt, alloc, script) {
                Ok(second) => Ok(Opened::Two(StartAndScript::new(first, second))),
                Err(stop) => Err(stop),
            }
        }
    }
}

impl<F: Write> Opened<F> {
    fn write(&mut self, buf: &[u8]) -> Result<usize, WriteFailed>
        ensures { IfOk result (λ n. n ≤ length buf.now) }
    {
        match self {
            Opened::One(file) => file.write(buf),
            Opened::Two(files) => files.write(buf),
        }
    }

    fn flush(&mut self) -> Result<(), WriteFailed> {
        match self {
            Opened::One(file) => file.flush(),
            Opened::Two(files) => files.flush(),
        }
    }

    // Ends the start, if there is one.
    fn end_start(&mut self) {
        match self {
            Opened::One(_) => {}
            Opened::Two(files) => files.end_start(),
        }
    }

    // Whether what is written goes behind a start.
    fn is_behind(&self) -> bool {
        match self {
            Opened::One(_) => true,
            Opened::Two(files) => files.is_behind(),
        }
    }
}

// The files of these names, which are emptied where the script begins anew.
#[derive(Drop)]
struct ScriptFiles<'a, R: Files> {
    rt: &'a R,
    alloc: Global,
    files: &'a Names,
    opened: Opened<R::File>,
    // how many writes and flushes failed; it begins at 0 again behind the largest number
    failures: u64,
}

impl<'a, R: Files> Model for ScriptFiles<'a, R> {
    ghost use Rattle.std.specs.Prelude.{ℕ};

    ghost Value = { ℕ };

    ghost view = { λ s. s.failures };
}

impl<'a, R: Files> ScriptFiles<'a, R> {
    // All of them, emptied.
    fn open(rt: &'a R, alloc: Global, files: &'a Names) -> Result<ScriptFiles<'a, R>, Stop> {
        match open_parts(rt, alloc, files) {
            Ok(opened) => Ok(ScriptFiles {
                rt,
                alloc,
                files,
                opened,
                failures: 0,
            }),
            Err(stop) => Err(stop),
        }
    }

    // The name of the file that is written to.
    fn target(&self) -> &str {
        match &self.files.start {
            Some(start) if !self.opened.is_behind() => start.part.as_str(),
            _ => self.files.script.part.as_str(),
        }
    }
}

impl<'a, R: Files> Sink for ScriptFiles<'a, R> {
    ghost use Rattle.std.specs.Prelude.{None};

    // (those of several files are not known as one text)
    ghost contents = { λ s. None };

    ghost failures = { λ s. s };

    fn write(&mut self, buf: &[u8]) -> Result<usize, WriteFailed> {
        match self.opened.write(buf) {
            Ok(n) => {
                if n == 0 && buf.len() > 0 {
                    self.failures = self.failures.wrapping_add(1);
                }
                Ok(n)
            }
            Err(fault) => {
                self.failures = self.failures.wrapping_add(1);
                Err(fault)
            }
        }
    }

    fn flush(&mut self) -> Result<(), WriteFailed> {
        match self.opened.flush() {
            Ok(()) => Ok(()),
            Err(fault) => {
                self.failures = self.failures.wrapping_add(1);
                Err(fault)
            }
        }
    }
}

impl<'a, R: Files> Outlet for ScriptFiles<'a, R> {
    fn end_start(&mut self) {
        self.opened.end_start();
    }
}

impl<'a, R: Files> ScriptOutlet for ScriptFiles<'a, R> {
    fn can_begin_anew(&self) -> bool {
        true
    }

    fn begin_anew(&mut self) -> Result<(), WriteFailed> {
        match open_parts(self.rt, self.alloc, self.files) {
            Ok(opened) => {
                self.opened = opened;
                Ok(())
            }
            Err(_) => Err(WriteFailed),
        }
    }
}

// Makes the script in its file, or in two where it has a start.
fn make_script_files<R: Files, M: Making + Drop>(
    rt: &R,
    alloc: Global,
    files: &Names,
    making: M,
) -> Result<M::Made, Stop> {
    match ScriptFiles::open(rt, alloc, files) {
        Err(stop) => Err(stop),
        Ok(opened) => {
            let mut sink = opened;
            let made = making.make(&mut sink);
            made_in(alloc, made, sink.target())
        }
    }
}

/// Gives a file that is whole its name.
pub fn rename<R: Files>(rt: &R, alloc: Global, part: &str, name: &str) -> Result<(), Stop> {
    match fs::rename(rt, part, name) {
        Ok(()) => Ok(()),
        Err(_) => Err(cannot_write(alloc, name)),
    }
}

fn rename_file<R: Files>(rt: &R, alloc: Global, file: &FileName) -> Result<(), Stop> {
    rename(rt, alloc, file.part.as_str(), file.whole.as_str())
}

// Gives both files their names, or the first one's is taken away again.
pub(crate) fn rename_both<R: Files>(rt: &R, alloc: Global, files: &Names) -> Result<(), Stop> {
    rename_file(rt, alloc, &files.script)?;
    match rename_file(rt, alloc, &files.options) {
        Ok(()) => Ok(()),
        Err(stop) => {
            let _ = fs::remove_file(rt, files.script.whole.as_str());
            Err(stop)
        }
    }
}

// Gives all files their names, or those that have theirs are taken away again.
fn rename_all<R: Files>(rt: &R, alloc: Global, files: &Names) -> Result<(), Stop> {
    let start = match &files.start {
        None => return rename_both(rt, alloc, files),
        Some(start) => start,
    };
    rename_file(rt, alloc, start)?;
    match rename_both(rt, alloc, files) {
        Ok(()) => Ok(()),
        Err(stop) => {
            let _ = fs::remove_file(rt, start.whole.as_str());
            Err(stop)
        }
    }
}

// Takes away what is there of files that are not whole.
fn remove_parts<R: Files>(rt: &R, files: &Names) {
    // A file that is not there cannot be removed.
    if let Some(start) = &files.start {
        let _ = fs::remove_file(rt, start.part.as_str());
    }
    let _ = fs::remove_file(rt, files.script.part.as_str());
    let _ = fs::remove_file(rt, files.options.part.as_str());
}

// Writes the words, and gives all files their names.
fn finish_files<R: Files>(rt: &R, alloc: Global, files: &Names, words: &[u8]) -> Result<(), Stop> {
    match fs::write(rt, files.options.part.as_str(), words) {
        Err(_) => Err(cannot_write(alloc, files.options.part.as_str())),
        Ok(()) => rename_all(rt, alloc, files),
    }
}

// Writes script and options to files, each under another name until all are whole.
fn try_files<R: Files, M: Making + Drop>(
    rt: &R,
    alloc: Global,
    files: &Names,
    words: &[u8],
    making: M,
) -> Result<M::Made, Stop> {
    match make_script_files(rt, alloc, files, making) {
        Err(stop) => Err(stop),
        Ok(made) => match finish_files(rt, alloc, files, words) {
            Ok(()) => Ok(made),
            Err(stop) => Err(stop),
        },
    }
}

// Writes script and options to files. Where that fails, nothing is left of them.
fn to_files<R: Files, M: Making + Drop>(
    rt: &R,
    alloc: Global,
    files: &Names,
    words: &[u8],
    making: M,
) -> Result<M::Made, Stop> {
    match try_files(rt, alloc, files, words, making) {
        Ok(made) => Ok(made),
        Err(stop) => {
            remove_parts(rt, files);
            Err(stop)
        }
    }
}

/// Makes a script where it is asked for: in the files of this prefix, with the words for a run of it, or, where the
/// prefix is `-`, on the standard output.
pub(crate) fn send<R: Files + AllocGlobal, M: Making + Drop, O: Write>(
    rt: &R,
    prefix: &str,
    words: &[u8],
    making: M,
    writer: &mut O,
) -> Result<M::Made, Stop> {
    if prefix == STANDARD {
        return making.make(&mut ToWrite::new(writer));
    }
    match Names::of(rt.alloc(), prefix) {
        Ok(files) => to_files(rt, rt.alloc(), &files, words, making),
        Err(_) => Err(Stop::Memory),
    }
}

/// Makes a script with its start in the files of this prefix, with the words for a run of it.
pub(crate) fn send_with_start<R: Files + AllocGlobal, M: Making + Drop>(
    rt: &R,
    prefix: &str,
    words: &[u8],
    making: M,
) -> Result<M::Made, Stop> {
    match Names::with_start(rt.alloc(), prefix) {
        Ok(files) => to_files(rt, rt.alloc(), &files, words, making),
        Err(_) => Err(Stop::Memory),
    }
}
