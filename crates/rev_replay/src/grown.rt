//! Logs in, and a session out: the steps of one life of the server, each as a node.
ghost use Rattle.std.specs.Prelude.{◌≡◌, ◌==◌, length, IfOk, OnOk};
ghost use Rattle.std.specs.Option.{option_copied};
ghost use Rattle.rev_classes.specs.Limits.{IsWithinLimits};
ghost use Rattle.rev_evidence.specs.Heard.{step_number as number_of};
ghost use Rattle.rev_replay.specs.Moments as moments;
ghost use Rattle.rev_replay.specs.Replayed.{state_of, noting_of};
ghost use Rattle.rev_replay.specs.Seeking as rule;
ghost use Rattle.rev_replay.specs.Turns.{Grows};

use crate::coverage::Coverage;
use crate::fault::ReplayFault;
use crate::heard::{Heard, Listener};
use crate::keeping::{Keeping, Place};
use crate::logs::replay_logs;
use crate::moments::{Noted, Noting, or_never};
use crate::notes::put_notes;
use crate::run::Replay;
use crate::sampling::Sampling;
use crate::seeking::{Seeker, Sought, Spot, place_of};
use rev_evidence::heard::step_number;
use rev_evidence::notes::LogNotes;
use rev_import::setup::Setup;
use rev_lead::Role;
use rev_undotree::{NodeId, Session};
use rev_watch::event::Timestamp;
use std::alloc::{AllocError, Allocator};
use std::io::Read;

/// A server of which there are logs: what it was set to, and whether the rules cover each of its items.
#[derive(Clone, Copy)]
pub struct Server<'a> {
    pub setup: &'a Setup,
    pub coverage: Coverage,
}

/// What logs became.
#[derive(Drop)]
pub struct Grown<A: Allocator> {
    /// A node for each step that is kept.
    pub session: Session<A>,
    /// What the log says of each node, and which keys left in front of the root.
    pub notes: LogNotes<A>,
    /// How many steps lie in front of the root, over all lives of the server.
    pub before: u64,
    /// The time of the last event in front of the root, or of the first line of a life that begins there.
    pub since: Timestamp,
    /// Where the tree had no room for what follows, if it had none.
    pub full: Option<Place>,
    /// How many lives the server had, and how many steps lie in front of the last one.
    pub lives: u64,
    pub begin: u64,
    /// The place that was looked for, if it is there.
    pub spot: Option<Spot>,
}

impl<A: Allocator + Copy> Grown<A> {
    /// How many steps were played up to the last one that is kept, over all lives of the server.
    pub fn last(&self) -> u64
        ensures { result ≡ number_of self.now.before (length self.now.session.rows) }
    {
        step_number(self.before, NodeId(self.session.issued()))
    }

    /// Whether the tree has all steps of the last life of the server.
    pub fn is_whole(&self) -> bool
        ensures { result ≡ (self.now.before == self.now.begin) }
    {
        self.before == self.begin
    }

    /// Whether the tree is the one with a place in it in front of which so many steps are kept: it has all steps of the
    /// last life, which is the place's, and that has no more steps in front of it.
    pub fn serves(&self, spot: Spot, keep: u32) -> bool
        ensures { result ≡ rule.serves self.now.before self.now.begin self.now.lives spot keep }
    {
        self.is_whole()
            && spot.life == self.lives
            && spot.step.saturating_sub(u64::from(keep)) <= spot.begin
    }

    /// Goes to the node behind so many steps, over all lives of the server: to the root where that is behind them, and
    /// to the last node where it is in front of them.
    pub fn go_behind(&mut self, step: u64)
        ensures session { self.new.session ≡ rule.stood self.old.session (rule.node_behind self.old.before (length self.old.session.rows) step) }
        ensures notes { self.new.notes ≡ self.old.notes }
    {
        let nodes = u64::from(self.session.issued());
        let node = step.saturating_sub(self.before).min(nodes);
        let _ = self.session.go(NodeId(node as u32));
    }

    /// Lets all go that is kept.
    pub fn let_go(self) {
        drop(self);
    }
}

/// Who notes what a log says of each node, and looks for a place.
#[derive(Drop)]
struct Ears<'a, A: Allocator> {
    noting: Noting<A>,
    seeker: Seeker<'a, A>,
}

impl<A: Allocator + Copy> Listener<A> for Ears<'_, A> {
    ghost use Rattle.rev_replay.specs.Moments as moments;
    ghost use Rattle.rev_replay.specs.Replayed.{noting_of};

    fn heard(&mut self, heard: &Heard<'_, A>) -> Result<(), ReplayFault>
        ensures { OnOk result (noting_of self.new.noting ≡ moments.heard (noting_of self.old.noting) (option_copied heard.now.event) heard.now.time heard.now.roles.now heard.now.before) }
    {
        self.noting.heard(heard)?;
        self.seeker.heard(heard)
    }

    fn restarted(&mut self, at: Timestamp, steps: u64) -> Result<(), ReplayFault>
        ensures { OnOk result (noting_of self.new.noting ≡ moments.restarted (noting_of self.old.noting) at) }
    {
        self.noting.restarted(at, steps)?;
        self.seeker.restarted(at, steps)
    }
}

// A copy of roles.
fn copied<A: Allocator>(alloc: A, roles: &[Role]) -> Result<Vec<Role, A>, AllocError>
    ensures { IfOk result (λ copy. copy.items ≡ roles.now) }
{
    let mut copy = Vec::new(alloc);
    copy.extend_from_slice(roles)?;
    Ok(copy)
}

// What is told of the nodes of a replay of which this was noted, and when their root was.
fn notes_of<A: Allocator + Copy>(
    alloc: A,
    replay: &Replay<'_, A>,
    noting: Noting<A>,
) -> Result<(LogNotes<A>, Timestamp), AllocError>
    ensures roles { IfOk result (λ told. told.0.roles ≡ (state_of replay.entry.now).counted.stage.roles) }
    ensures moments { IfOk result (λ told. length told.0.moments ≡ length (state_of replay.entry.now).counted.stage.session.rows) }
{
    let roles = copied(alloc, replay.roles())?;
    let nodes = replay.session().issued() as usize;
    let Noted {
        moments,
        departed,
        since,
    } = noting.finish(replay.before(), nodes)?;
    Ok((
        LogNotes::new(roles, moments, Some(departed), since),
        or_never(since),
    ))
}

// What a replay became, of which this was heard while that was looked for.
fn grown_of<A: Allocator + Copy>(
    alloc: A,
    replay: Replay<'_, A>,
    ears: Ears<'_, A>,
    sought: &Sought<A>,
) -> Result<Grown<A>, ReplayFault>
    ensures stage { IfOk result (λ grown. (state_of replay.entry).counted ≡ record { before = grown.before; stage = record { session = grown.session; roles = grown.notes.roles } }) }
    ensures moments { IfOk result (λ grown. length grown.notes.moments ≡ length grown.session.rows) }
    ensures spot { IfOk result (λ grown. rule.IsPlaceOf (rule.plain_sought sought.now) grown.spot) }
{
    let Ears { noting, seeker } = ears;
    match notes_of(alloc, &replay, noting) {
        Ok((notes, since)) => Ok(Grown {
            notes,
            before: replay.before(),
            since,
            full: replay.full(),
            lives: replay.life(),
            begin: seeker.begin(),
            spot: place_of(sought, seeker.found()),
            session: replay.into_session(),
        }),
        Err(refused) => {
            drop(replay);
            Err(ReplayFault::from(refused))
        }
    }
}

// Puts what is told of a replay that went well behind `notes`.
fn told<A: Allocator + Copy>(
    replayed: Result<(), (usize, ReplayFault)>,
    replay: &Replay<'_, A>,
    notes: &mut Vec<u8, A>,
) -> Result<(), (usize, ReplayFault)> {
    match replayed {
        Err(fault) => Err(fault),
        Ok(()) => match put_notes(notes, replay) {
            Ok(()) => Ok(()),
            Err(refused) => Err((0, ReplayFault::from(refused))),
        },
    }
}

/// Replays the logs that the files hold, in their order, of all keys or of a sample, keeps so much of the steps, a node
/// for each, and looks for a place. The first life of the server begins where the session stands, of a store with its
/// configuration, and each other one with an empty cache. What is told of the logs goes behind `notes`.
///
/// Err: the place of a log, from 0 on, and why nothing was made of it: memory was refused, a read failed, a line that
/// begins like one of the log is none, a log shows an item that the rules do not cover, or there are more lines than
/// can be counted. Or no log has an event, or the life that is asked for is not there, and then the place is 0, as it
/// is where it was the end that failed.
#[tactic(auto, using(crate::proofs::Going::grows_of))]
pub fn grow<A: Allocator + Copy, F: Read + Drop>(
    alloc: A,
    server: Server<'_>,
    sampling: Option<&Sampling<A>>,
    session: Session<A>,
    keeping: Keeping,
    sought: &Sought<A>,
    logs: Vec<F, A>,
    notes: &mut Vec<u8, A>,
) -> Result<Grown<A>, (usize, ReplayFault)>
    requires { IsWithinLimits server.setup.now.config }
    ensures grows { IfOk result (λ grown. Grows keeping server.entry.setup.now.config session grown.session grown.notes grown.before) }
    ensures spot { IfOk result (λ grown. rule.IsPlaceOf (rule.plain_sought sought.now) grown.spot) }
{
    let Server { setup, coverage } = server;
    let mut replay = match Replay::open_on(alloc, setup, coverage, session, keeping) {
        Ok(replay) => replay,
        Err(fault) => return Err((0, fault)),
    };
    replay.limit_to_sample(sampling);
    let mut ears = Ears {
        noting: Noting::new(alloc, keeping),
        seeker: Seeker::new(sought),
    };
    let replayed = replay_logs(&mut replay, logs, &mut ears);
    match told(replayed, &replay, notes) {
        Ok(()) => match grown_of(alloc, replay, ears, sought) {
            Ok(grown) => Ok(grown),
            Err(fault) => Err((0, fault)),
        },
        Err(fault) => {
            drop(replay);
            Err(fault)
        }
    }
}
