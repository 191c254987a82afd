//! Logs in, part by part: the steps of each part stand in a session's tree until they are let go.
use crate::fault::ReplayFault;
use crate::grown::Server;
use crate::heard::{Heard, Listener};
use crate::keeping::Keeping;
use crate::moments::moment_of;
use crate::notes::{put_left_out, put_notes};
use crate::run::{Reading, Replay};
use crate::sampling::Sampling;
use rev_evidence::notes::{Moment, told_by};
use rev_evidence::verdict::Verdict;
use rev_explain::departures;
use rev_lead::Viewer;
use rev_script::source::FromRead;
use rev_undotree::Session;
use rev_watch::event::Timestamp;
use rev_watch::reader::LogReader;
use std::alloc::{AllocError, Allocator};
use std::collections::VecDeque;
use std::io::Read;

/// Why a part of the logs has ended.
#[derive(Clone, Copy, Debug, PartialEq, Eq)]
pub enum PartEnd {
    /// The tree may have no room for what follows.
    Full,
    /// All logs were read.
    Whole,
}

/// Who notes what the log says of each node of a part, that of node 1 first, and whether the server was started anew.
#[derive(Drop)]
struct Noting<A: Allocator> {
    moments: Vec<Moment, A>,
    has_restarted: bool,
}

impl<A: Allocator + Copy> Listener<A> for Noting<A> {
    fn heard(&mut self, heard: &Heard<'_, A>) -> Result<(), ReplayFault> {
        let known = self.moments.len().min(heard.roles.len());
        let (_, new) = heard.roles.split_at(known);
        let moment = moment_of(heard.event, heard.time, new);
        self.moments.resize(heard.roles.len(), moment)?;
        Ok(())
    }

    fn restarted(&mut self, _at: Timestamp, _steps: u64) -> Result<(), ReplayFault> {
        self.moments.clear();
        self.has_restarted = true;
        Ok(())
    }
}

/// Logs that are replayed in parts, in one pass: of each part the steps stand in a session's tree, a node for each. No
/// part has steps of two lives of the server.
#[derive(Drop)]
pub struct LogParts<'a, F: Read + Drop, A: Allocator> {
    replay: Replay<'a, A>,
    // the logs that are not read yet, the one that is, and how many were begun
    logs: VecDeque<F, A>,
    log: Option<LogReader<FromRead<F>>>,
    begun: usize,
    noting: Noting<A>,
}

impl<'a, F: Read + Drop, A: Allocator + Copy> LogParts<'a, F, A> {
    ghost use Rattle.std.specs.Prelude.{◌≡◌, ◌++◌, IfOk, OnOk, true, false, []};
    ghost use Rattle.rev_classes.specs.Limits.{IsWithinLimits};
    ghost use Rattle.rev_lead.specs.Acts.{begun};
    ghost use Rattle.rev_replay.specs.Parts.{parts_state, lives_of, left_out_of};
    ghost use Rattle.rev_replay.specs.Turns.{GoesOn, at_first};

    /// Logs of which nothing was read, of all keys or of a sample. The first life of the server begins where the
    /// session stands, of a store with the server's configuration, and each other one with an empty cache.
    ///
    /// Err: memory was refused, or the session's tree is full.
    #[tactic(auto, using(crate::proofs::Going::goes_more, crate::proofs::Going::goes_same, crate::proofs::Going::goes_always))]
    pub fn open(
        alloc: A,
        server: Server<'a>,
        sampling: Option<&'a Sampling<A>>,
        session: Session<A>,
        logs: Vec<F, A>,
    ) -> Result<LogParts<'a, F, A>, ReplayFault>
        requires { IsWithinLimits server.setup.now.config }
        ensures { IfOk result (λ parts. GoesOn false (at_first Keeping.Last server.entry.setup.now.config (begun (record { session = session; roles = [] }))) (parts_state parts)) }
    {
        let Server { setup, coverage } = server;
        let mut replay = Replay::open_on(alloc, setup, coverage, session, Keeping::Last)?;
        replay.limit_to_sample(sampling);
        replay.hold_parts();
        Ok(LogParts {
            replay,
            logs: VecDeque::from_vec(logs),
            log: None,
            begun: 0,
            noting: Noting {
                moments: Vec::new(alloc),
                has_restarted: false,
            },
        })
    }

    // Reads on in the log that was begun last. Where none was, nothing is read.
    #[tactic(auto, using(crate::proofs::Going::goes_more, crate::proofs::Going::goes_same, crate::proofs::Going::goes_always))]
    fn read_log(&mut self) -> Result<Reading, ReplayFault>
        ensures { GoesOn true (parts_state self.old) (parts_state self.new) }
    {
        match &mut self.log {
            Some(log) => self.replay.read(log, &mut self.noting),
            None => Ok(Reading::Ended),
        }
    }

    // Begins the next log. The answer is whether there is one.
    fn begin_log(&mut self) -> bool
        ensures { parts_state self.new ≡ parts_state self.old }
    {
        match self.logs.pop_front() {
            Some(log) => {
                self.log = Some(LogReader::over(FromRead::new(log)));
                self.begun = self.begun.saturating_add(1);
                true
            }
            None => {
                self.log = None;
                false
            }
        }
    }

    // Reads on in the logs that are left.
    #[tactic(auto, using(crate::proofs::Going::goes_more, crate::proofs::Going::goes_same, crate::proofs::Going::goes_always))]
    fn read_logs(&mut self) -> Result<Reading, ReplayFault>
        ensures { GoesOn true (parts_state self.old) (parts_state self.new) }
    {
        for _ in 0..=self.logs.len() {
            match self.read_log()? {
                Reading::PartFull => return Ok(Reading::PartFull),
                Reading::Ended => {
                    if !self.begin_log() {
                        break;
                    }
                }
            }
        }
        Ok(Reading::Ended)
    }

    // Plays what waits behind the last log.
    #[tactic(auto, using(crate::proofs::Going::goes_more, crate::proofs::Going::goes_same, crate::proofs::Going::goes_always))]
    fn read_end(&mut self) -> Result<PartEnd, ReplayFault>
        ensures { GoesOn true (parts_state self.old) (parts_state self.new) }
    {
        match self.replay.read_end(&mut self.noting)? {
            Reading::PartFull => Ok(PartEnd::Full),
            Reading::Ended => Ok(PartEnd::Whole),
        }
    }

    /// Plays the next part, behind the one that was let go: up to where the tree may have no room for what follows, or
    /// to the end of the logs.
    ///
    /// Err: the place of a log, from 0 on, and why it was not taken in: memory was refused, a read failed, a line that
    /// begins like one of the log is none, a log shows an item that the rules do not cover, or there are more lines
    /// than can be counted. Or no log has an event, and then the place is 0, as it is where it was the end that failed.
    #[tactic(auto, using(crate::proofs::Going::goes_more, crate::proofs::Going::goes_same, crate::proofs::Going::goes_always))]
    pub fn play_part(&mut self) -> Result<PartEnd, (usize, ReplayFault)>
        ensures { GoesOn true (parts_state self.old) (parts_state self.new) }
    {
        match self.read_logs() {
            Err(fault) => return Err((self.begun.saturating_sub(1), fault)),
            Ok(Reading::PartFull) => return Ok(PartEnd::Full),
            Ok(Reading::Ended) => {}
        }
        match self.read_end() {
            Err(fault) => Err((0, fault)),
            Ok(end) => Ok(end),
        }
    }

    /// Whether the server was started anew since this was asked last.
    pub fn take_restart(&mut self) -> bool
        ensures { parts_state self.new ≡ parts_state self.old }
    {
        let has_restarted = self.noting.has_restarted;
        self.noting.has_restarted = false;
        has_restarted
    }

    /// The steps of the part, a node for each.
    pub fn session(&self) -> &Session<A>
        ensures { result.now ≡ (parts_state self.entry.now).counted.stage.session }
    {
        self.replay.session()
    }

    /// Shows the session with the steps of the part.
    pub fn show<V: Viewer<A>>(&mut self, viewer: &mut V) -> Result<(), V::Fault>
        ensures { parts_state self.new ≡ parts_state self.old }
    {
        self.replay.show(viewer)
    }

    /// Why each key left that did so in the part, and what tells it, in the order in which they left. Keys outside a
    /// sample are among them.
    ///
    /// Err: memory was refused.
    pub fn verdicts(&self, alloc: A) -> Result<Vec<Verdict, A>, AllocError> {
        let mut verdicts = Vec::new(alloc);
        let (roles, moments) = (self.replay.roles(), self.noting.moments.as_slice());
        for departure in departures(self.replay.session(), None)? {
            let hash = departure.key.hash();
            match told_by(roles, moments, departure.node, hash, departure.cause) {
                Some(told) => verdicts.push(told.verdict)?,
                None => {}
            }
        }
        Ok(verdicts)
    }

    /// Lets the steps of the part go.
    #[tactic(auto, using(crate::proofs::Going::goes_more, crate::proofs::Going::goes_same, crate::proofs::Going::goes_always))]
    pub fn let_go(&mut self)
        ensures { GoesOn false (parts_state self.old) (parts_state self.new) }
    {
        self.replay.let_part_go();
        self.noting.moments.clear();
    }

    /// How many lives the server had so far.
    pub fn lives(&self) -> u64
        ensures { result ≡ lives_of self.entry.now }
    {
        self.replay.life()
    }

    /// Writes which lines of the logs were left out so far, and nothing where none was.
    ///
    /// Err: memory was refused.
    pub fn put_left_out(&self, out: &mut Vec<u8, A>) -> Result<(), AllocError>
        ensures { OnOk result (out.new.items ≡ out.old.items ++ left_out_of self.entry.now) }
    {
        let counts = self.replay.counts();
        put_left_out(out, &counts, self.replay.late(), self.replay.repeated())
    }

    /// The session with the steps of the last part. What is told of the logs goes behind `notes`.
    ///
    /// Err: memory was refused.
    pub fn finish(self, notes: &mut Vec<u8, A>) -> Result<Session<A>, AllocError>
        ensures { IfOk result (λ session. session ≡ (parts_state self.entry).counted.stage.session) }
    {
        let LogParts { replay, .. } = self;
        match put_notes(notes, &replay) {
            Ok(()) => Ok(replay.into_session()),
            Err(refused) => {
                drop(replay);
                Err(refused)
            }
        }
    }
}
