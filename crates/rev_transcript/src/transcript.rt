//! Who listens to a replay, and writes its script.
ghost use Rattle.std.specs.Prelude.{◌≡◌, ◌++◌, [], OnOk};
ghost use Rattle.std.specs.Io.KnownBytes.{Appends};
ghost use Rattle.rev_transcript.specs.Path.{path_steps};
ghost use Rattle.rev_lines.specs.Lines.{script_of};

use crate::path::put_path;
use rev_import::setup::{Setup, put_setup};
use rev_intake::outlet::{Outlet, is_due};
use rev_output::{ToWrite, WriteFailed, write_all};
use rev_replay::fault::ReplayFault;
use rev_replay::heard::{Heard, Listener};
use rev_undotree::Session;
use rev_watch::event::Timestamp;
use std::alloc::Allocator;
use std::io::Write;
use std::marker::Model;

/// As soon as so many bytes of the script are at hand, they are sent (this project's own figure).
const PIECE: usize = 65536;

/// Where a script goes that may have to begin anew.
pub trait ScriptOutlet: Outlet {
    /// Whether what was sent can be taken back.
    fn can_begin_anew(&self) -> bool;

    /// Takes back what was sent. What is sent from now on is the script's start again, where it has one.
    ///
    /// Err: it can't be taken back.
    fn begin_anew(&mut self) -> Result<(), WriteFailed>;
}

impl<W: Write> ScriptOutlet for ToWrite<W> {
    fn can_begin_anew(&self) -> bool {
        false
    }

    fn begin_anew(&mut self) -> Result<(), WriteFailed> {
        Err(WriteFailed)
    }
}

/// Which steps a transcript has.
#[derive(Clone, Copy, Debug, PartialEq, Eq)]
pub struct Wanted {
    /// The number of the server's life whose steps are wanted, from 1 on; the last life where none is given.
    pub life: Option<u32>,
    /// The second in front of which a start ends, by the Unix clock.
    pub split: Option<u32>,
}

/// How many steps stand in a script, those of the setup not among them.
#[derive(Clone, Copy, Debug, PartialEq, Eq)]
pub struct StepCounts {
    /// In the start; all of them as long as it has not ended.
    pub start: u64,
    /// All of them, those of the start among them.
    pub all: u64,
}

/// The script of one life of the server, as it is replayed.
#[derive(Drop)]
pub struct Transcript<'a, A: Allocator, K: ScriptOutlet> {
    setup: &'a Setup,
    wanted: Wanted,
    sink: &'a mut K,
    // what is written of the script and not yet sent
    out: Vec<u8, A>,
    // the number of the life that is heard, from 1 on
    life: u64,
    // the second in front of which the start ends, where it is to end and has not
    split: Option<u32>,
    steps: StepCounts,
    // whether the script had to begin anew and could not
    is_stuck: bool,
}

impl<'a, A: Allocator, K: ScriptOutlet> Model for Transcript<'a, A, K> {
    ghost use Rattle.std.specs.Prelude.{List, ℕ};

    // what waits to be sent
    ghost Value = { List ℕ };

    ghost view = { λ t. t.out.items };
}

// Begins with the lines that the setup asks for.
fn begin<A: Allocator>(out: &mut Vec<u8, A>, setup: &Setup) -> Result<(), ReplayFault> {
    out.clear();
    put_setup(out, setup)?;
    Ok(())
}

impl<'a, A: Allocator + Copy, K: ScriptOutlet> Transcript<'a, A, K> {
    /// A script that begins with the lines that the setup asks for.
    ///
    /// Err: memory was refused.
    pub fn open(
        alloc: A,
        setup: &'a Setup,
        wanted: Wanted,
        sink: &'a mut K,
    ) -> Result<Transcript<'a, A, K>, ReplayFault> {
        let mut out = Vec::new(alloc);
        begin(&mut out, setup)?;
        Ok(Transcript {
            setup,
            wanted,
            sink,
            out,
            life: 1,
            split: wanted.split,
            steps: StepCounts { start: 0, all: 0 },
            is_stuck: false,
        })
    }

    // Sends what is at hand of the script.
    fn send(&mut self) -> Result<(), ReplayFault>
        ensures { OnOk result (self.new ≡ []) }
    {
        write_all(self.sink, self.out.as_slice())?;
        self.out.clear();
        Ok(())
    }

    // Sends what is at hand, where it is enough.
    fn send_piece(&mut self) -> Result<(), ReplayFault> {
        if self.out.len() < PIECE {
            Ok(())
        } else {
            self.send()
        }
    }

    // Ends the start where it ends in front of an event of this second.
    fn split_off(&mut self, second: u32) -> Result<(), ReplayFault> {
        if !is_due(self.split, Some(second)) {
            return Ok(());
        }
        self.send()?;
        self.sink.end_start();
        self.split = None;
        self.steps.start = self.steps.all;
        Ok(())
    }

    // Writes the steps that stand in the session, behind what waits to be sent. Each has a line, if the log leads.
    fn put(&mut self, session: &Session<A>) -> Result<(), ReplayFault>
        ensures { OnOk result (self.new ≡ self.old ++ script_of (path_steps session.now.rows session.now.current)) }
    {
        let told = put_path(&mut self.out, session)?;
        if told {
            Ok(())
        } else {
            Err(ReplayFault::Write)
        }
    }

    // Writes what was played for an event of this second.
    fn take(&mut self, session: &Session<A>, second: u32) -> Result<(), ReplayFault> {
        self.split_off(second)?;
        self.put(session)?;
        self.steps.all = self.steps.all.saturating_add(u64::from(session.issued()));
        self.send_piece()
    }

    // Whether the life that is heard is the one that is wanted, or may be.
    fn is_wanted(&self) -> bool {
        match self.wanted.life {
            None => true,
            Some(life) => u64::from(life) == self.life,
        }
    }

    // The life that was written is not the last one: the script begins anew.
    fn begin_anew(&mut self) -> Result<(), ReplayFault> {
        if !self.sink.can_begin_anew() {
            self.is_stuck = true;
            return Err(ReplayFault::Write);
        }
        self.sink.begin_anew()?;
        self.split = self.wanted.split;
        self.steps = StepCounts { start: 0, all: 0 };
        begin(&mut self.out, self.setup)
    }

    /// Sends the rest of the script, behind the last step.
    ///
    /// Err: a write failed.
    pub fn finish(&mut self) -> Result<(), ReplayFault> {
        self.send()
    }

    /// The number of the server's last life that was heard, which is how many there were. The first is 1.
    pub fn lives(&self) -> u64 {
        self.life
    }

    /// How many steps stand in the script so far.
    pub fn steps(&self) -> StepCounts {
        match self.split {
            Some(_) => StepCounts {
                start: self.steps.all,
                all: self.steps.all,
            },
            None => self.steps,
        }
    }

    /// Whether the last life was wanted, and what was sent of another one can't be taken back.
    pub fn is_stuck(&self) -> bool {
        self.is_stuck
    }
}

impl<'a, A: Allocator + Copy, K: ScriptOutlet> Listener<A> for Transcript<'a, A, K> {
    fn heard(&mut self, heard: &Heard<'_, A>) -> Result<(), ReplayFault> {
        if self.is_wanted() {
            self.take(heard.session, heard.time.seconds)
        } else {
            Ok(())
        }
    }

    fn restarted(&mut self, _at: Timestamp, _steps: u64) -> Result<(), ReplayFault> {
        self.life = self.life.saturating_add(1);
        match self.wanted.life {
            Some(_) => Ok(()),
            None => self.begin_anew(),
        }
    }
}
