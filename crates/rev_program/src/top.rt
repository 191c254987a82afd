//! `lrudb top`: the logs of a server are read, and tell where the cache's room goes.
ghost use Rattle.std.specs.Prelude.{◌≡◌, true, IfOk};
ghost use Rattle.rev_messages.specs.Ends.{IsStatus};
ghost use Rattle.rev_program.specs.Program.{EndsAsked};

use crate::lives::{asked_sampling, end_asking, server_of};
use rev_import_commands::import::{all_opened, name_in};
use rev_import_commands::leading::{LeadingServer, stop_of_replay};
use rev_messages::Stop;
use rev_messages::progress::{BesideProgress, Progress};
use rev_options::TopAsked;
use rev_output::Sink;
use rev_output::outbox::{Outbox, Room};
use rev_replay::fault::ReplayFault;
use rev_top::tell::tell_top;
use rev_top::{Asked, By};
use std::alloc::Global;
use std::io::{Read, Write};
use std::rt::{Clock, Files};

// What is asked of the counts.
fn asked_of(asked: &TopAsked) -> Asked {
    Asked {
        by: if asked.by_class {
            By::Class
        } else {
            By::Prefix(asked.prefix_end)
        },
        most: asked.most as usize,
        first: asked.first,
        last: asked.last,
        life: asked.logs.life.map(u64::from),
        json: asked.logs.json,
    }
}

// How it ended: a write that failed is told where nothing else did. All was seen that was asked for.
fn sent<O: Write>(
    alloc: Global,
    names: &[String],
    told: Result<(), (usize, ReplayFault)>,
    outbox: &mut Outbox<'_, O>,
) -> Result<bool, Stop>
    ensures { IfOk result (λ all_seen. all_seen ≡ true) }
{
    let sent = outbox.send();
    match told {
        Err((place, fault)) => Err(stop_of_replay(alloc, fault, name_in(names, place))),
        Ok(()) if sent.is_err() => Err(Stop::CannotWrite),
        Ok(()) => Ok(true),
    }
}

// Tells where the room goes.
fn tell_top_of<R: Files + AllocGlobal, I: Read + Drop, O: Write + Drop, C: Clock, W: Sink>(
    rt: &R,
    asked: &TopAsked,
    reader: I,
    writer: O,
    notes: &mut Vec<u8>,
    progress: &Progress<C, W>,
) -> Result<bool, Stop>
    ensures { IfOk result (λ all_seen. all_seen ≡ true) }
{
    let logs = &asked.logs;
    let alloc = rt.alloc();
    let LeadingServer {
        setup,
        coverage,
        pages,
    } = server_of(rt, logs, notes)?;
    let sampling = asked_sampling(alloc, logs, pages, &[], notes)?;
    let names = logs.logs.as_slice();
    progress.expect(rt, names);
    let files = all_opened(rt, alloc, names, reader, progress)?;
    let Ok(room) = Room::new(alloc) else {
        return Err(Stop::Memory);
    };
    let mut writer = BesideProgress::new(writer, progress);
    let mut outbox = Outbox::new(room, &mut writer);
    let told = tell_top(
        alloc,
        &setup,
        coverage,
        sampling.as_ref(),
        files,
        asked_of(asked),
        &mut outbox,
        notes,
    );
    sent(alloc, names, told, &mut outbox)
}

/// Reads the logs that are asked, and tells where the room goes. Answers the exit status: 0, and then what is to be
/// known of the logs goes to `errors`; or 2 to 5, and then the text of the reason does.
pub fn top<R: Files + AllocGlobal, I: Read + Drop, O: Write + Drop, E: Sink, C: Clock, W: Sink>(
    rt: &R,
    asked: TopAsked,
    reader: I,
    writer: O,
    errors: &mut E,
    progress: &Progress<C, W>,
) -> u8
    ensures status { IsStatus result }
    ensures ends { EndsAsked (E.contents errors.old) (E.contents errors.new) (E.failures errors.old) (E.failures errors.new) result }
{
    let mut notes = Vec::new(rt.alloc());
    let done = tell_top_of(rt, &asked, reader, writer, &mut notes, progress);
    progress.end();
    end_asking(done, notes.as_slice(), errors)
}
