//! Files whose steps are played before anything else.
ghost use Rattle.std.specs.Prelude.{◌≡◌, ◌⊎◌, OnOk, IfOk, IfErr};
ghost use Rattle.rev_classes.specs.Limits.{IsWithinLimits};
ghost use Rattle.rev_plays.specs.Begin.{opened};
ghost use Rattle.rev_messages.specs.declared.stop.Stop.{Stop};
ghost use Rattle.rev_program.specs.Starts.{IsStart, AreStarts, Halts, DoHalt};

use crate::stopping::stop_of_trace;
use rev_classes::Config;
use rev_messages::Stop;
use rev_plays::begin::open_session;
use rev_plays::start::play_start;
use rev_script::dialect::Dialect;
use rev_script::source::FromRead;
use rev_undotree::Session;
use std::alloc::Allocator;
use std::collections::VecDeque;
use std::io::Read;
use std::mem::ManuallyDrop;

// Plays the steps of a file.
fn play_file<A: Allocator + Clone, F: Read + Drop>(
    alloc: &A,
    session: &mut Session<A>,
    dialect: Dialect,
    name: String,
    reader: F,
) -> Result<(), Stop>
    ensures ok { OnOk result (IsStart dialect (F.remaining reader) session.old session.new) }
    ensures err { IfErr result (λ stop. Halts dialect (F.remaining reader) name stop) }
{
    let mut source = FromRead::new(reader);
    match play_start(alloc, session, dialect, &mut source) {
        Ok(()) => Ok(()),
        Err(fault) => Err(stop_of_trace(fault, name)),
    }
}

// Plays the steps of the files, in order. The first fault ends it.
fn play_files<A: Allocator + Clone, F: Read + Drop>(
    alloc: &A,
    session: &mut Session<A>,
    dialect: Dialect,
    files: Vec<(String, F)>,
) -> Result<(), Stop>
    ensures ok { OnOk result (AreStarts dialect F.remaining files.items session.old session.new) }
    ensures err { IfErr result (λ stop. DoHalt dialect F.remaining files.items session.old stop) }
{
    let mut rest = VecDeque::from_vec(files);
    while let Some((name, reader)) = rest.pop_front() {
        match play_file(alloc, session, dialect, name, reader) {
            Ok(()) => {}
            Err(stop) => return Err(stop),
        }
    }
    Ok(())
}

/// The session that a program begins with: the steps of the files, each a name and a reader, were read in the dialect
/// and played in order on an empty store, and no node stands but the root. Or memory was refused, or it is told why the
/// first file that is at fault is no start.
pub fn started<A: Allocator + Clone, F: Read + Drop>(
    alloc: &A,
    config: &Config,
    dialect: Dialect,
    files: Vec<(String, F)>,
) -> Result<Session<A>, Stop>
    requires { IsWithinLimits config.now }
    ensures ok { IfOk result (λ session. AreStarts dialect F.remaining files.items (opened config.entry.now) session) }
    ensures err { IfErr result (λ stop. (stop ≡ Stop.Memory) ⊎ DoHalt dialect F.remaining files.items (opened config.entry.now) stop) }
{
    let Some(mut session) = open_session(alloc, config) else {
        return Err(Stop::Memory);
    };
    match play_files(alloc, &mut session, dialect, files) {
        Ok(()) => Ok(session),
        Err(stop) => {
            // The program ends here, and all memory goes back at once.
            let _session = ManuallyDrop::new(session);
            Err(stop)
        }
    }
}
