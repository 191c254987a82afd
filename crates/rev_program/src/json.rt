//! A script whose lines are told as JSON.
ghost use Rattle.std.specs.Prelude.{◌≡◌, true, Err, IfOk, IfErr, IfSome};
ghost use Rattle.rev_classes.specs.Limits.{IsWithinLimits, fault_of};
ghost use Rattle.rev_messages.specs.Stop.{stop_of_config};
ghost use Rattle.rev_shell.specs.Run.{without_bookmarks};
ghost use Rattle.rev_shell.specs.declared.run.Prompts.TheVariants.{Hidden};
ghost use Rattle.rev_program.specs.Running.{HasRun, HasStopped, HasRunBehind, StopsBehind, Answers, AnswersLess, AnswersNamed, StopsNamed};

use crate::program::{all_opened, sent_behind};
use crate::starts::started;
use rev_classes::{Config, fault_of};
use rev_evidence::notes::LogNotes;
use rev_json::run::run_as_json;
use rev_messages::Stop;
use rev_script::dialect::Dialect;
use rev_script::exchange::{Buffers, Exchange};
use rev_shell::run::Summary;
use rev_undotree::Session;
use std::alloc::Global;
use std::io::{Read, Write};
use std::mem::ManuallyDrop;
use std::rt::Files;

/// Runs the script of the exchange, in a dialect, on a session of whose nodes a log tells, and tells of its lines as
/// JSON. What was told is sent at the end.
pub(crate) fn run_as_json_on<I: Read, O: Write>(
    alloc: Global,
    session: Session<Global>,
    log: &LogNotes<Global>,
    dialect: Dialect,
    exchange: &mut Exchange<'_, I, O>,
) -> Result<Summary, Stop>
    ensures ok { IfOk result (λ sum. HasRun true dialect Hidden exchange.old exchange.new (without_bookmarks session log.now) sum) }
    ensures err { IfErr result (λ stop. HasStopped true dialect Hidden exchange.old exchange.new (without_bookmarks session log.now) stop) }
    ensures same { exchange.new.outbox.writer ≡ exchange.old.outbox.writer }
{
    let mut session = session;
    let done = run_as_json(alloc, &mut session, log, dialect, exchange);
    // The program ends here, and all memory goes back at once.
    let _session = ManuallyDrop::new(session);
    sent_behind(done, exchange)
}

// Runs the script of the exchange behind the steps of the starts, and tells of its lines as JSON.
fn run_as_json_there<F: Read + Drop, I: Read, O: Write>(
    alloc: Global,
    config: &Config,
    dialect: Dialect,
    starts: Vec<(String, F)>,
    exchange: &mut Exchange<'_, I, O>,
) -> Result<Summary, Stop>
    requires { IsWithinLimits config.now }
    ensures ok { IfOk result (λ sum. HasRunBehind F.remaining true dialect config.entry.now starts.items exchange.old exchange.new sum) }
    ensures err { IfErr result (λ stop. StopsBehind F.remaining true dialect config.entry.now starts.items exchange.old exchange.new stop) }
    ensures same { exchange.new.outbox.writer ≡ exchange.old.outbox.writer }
{
    match started(&alloc, config, dialect, starts) {
        Err(stop) => Err(stop),
        Ok(session) => {
            let log = LogNotes::none(alloc);
            run_as_json_on(alloc, session, &log, dialect, exchange)
        }
    }
}

// Runs the script of the reader behind the steps of the starts, and tells of its lines as JSON.
fn run_as_json_in<F: Read + Drop, I: Read + Drop, O: Write>(
    alloc: Global,
    config: &Config,
    dialect: Dialect,
    starts: Vec<(String, F)>,
    reader: I,
    writer: &mut O,
) -> Result<Summary, Stop>
    requires { IsWithinLimits config.now }
    ensures ok { IfOk result (λ sum. Answers F.remaining true dialect config.entry.now starts.items (I.remaining reader) (O.contents writer.old) (O.contents writer.new) sum) }
    ensures err { IfErr result (λ stop. AnswersLess F.remaining true dialect config.entry.now starts.items (I.remaining reader) (O.contents writer.old) (O.contents writer.new) stop) }
{
    let Some(buffers) = Buffers::new(alloc, reader) else {
        return Err(Stop::Memory);
    };
    let mut exchange = Exchange::new(buffers, writer);
    let done = run_as_json_there(alloc, config, dialect, starts, &mut exchange);
    let _writer = exchange.into_writer();
    match done {
        Err(stop) => Err(stop),
        Ok(summary) => Ok(summary),
    }
}

/// Runs the script of the reader as `run_told` does without a heap, and tells of its lines as JSON.
pub(crate) fn run_script_as_json<R: Files + AllocGlobal, I: Read + Drop, O: Write>(
    rt: &R,
    config: Config,
    dialect: Dialect,
    starts: Vec<String>,
    reader: I,
    writer: &mut O,
) -> Result<Summary, Stop>
    ensures config { IfSome (fault_of config) (λ fault. result ≡ Err (stop_of_config fault)) }
    ensures ok { IfOk result (λ sum. AnswersNamed R.File.Read.remaining true dialect config starts.items (I.remaining reader) (O.contents writer.old) (O.contents writer.new) sum) }
    ensures err { IfErr result (λ stop. StopsNamed R.File.Read.remaining true dialect config starts.items (I.remaining reader) (O.contents writer.old) (O.contents writer.new) stop) }
{
    if let Some(fault) = fault_of(&config) {
        return Err(Stop::from(fault));
    }
    match all_opened(rt, rt.alloc(), starts) {
        Err(stop) => Err(stop),
        Ok(starts) => run_as_json_in(rt.alloc(), &config, dialect, starts, reader, writer),
    }
}
