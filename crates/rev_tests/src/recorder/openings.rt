//! Recorders that are opened, and how their recordings end.
ghost use Rattle.std.specs.Prelude.{◌≤◌};

use crate::owned::session_over;
use rev_classes::Config;
use rev_inverse::Store;
use rev_recorder::{Hand, Recorder, SettleFault};
use rev_undotree::Session;
use std::alloc::Global;
use std::process::Abort;

/// The seal of the recorders that are looked at.
pub const SEAL: u64 = 7;

/// A store of few bytes.
pub const SMALL: Config = Config {
    page_size: 1024,
    pages: 4,
    num: 5,
    den: 4,
    bump: 4,
    hash_power: 4,
    temp_ttl: -1,
    now: 1,
};

/// A session over an empty store.
pub fn open_session<R: Abort>(rt: &R, alloc: Global) -> Session<Global> {
    let store = Store::open(alloc, SMALL).expect(rt, "no store");
    session_over(rt, alloc, store)
}

/// A recorder of a session, and its hands.
pub fn record<R: Abort>(
    rt: &R,
    alloc: Global,
    session: Session<Global>,
    players: usize,
    seal: u64,
) -> (Recorder, Vec<Hand>)
    requires { (1 ≤ players) × (players ≤ 8) }
{
    match Recorder::open(alloc, session, players, seal) {
        Ok(opened) => opened,
        Err(_) => panic!(rt; "no recorder"),
    }
}

/// A recorder of a new session, and its hands.
pub fn open<R: Abort>(rt: &R, alloc: Global, players: usize, seal: u64) -> (Recorder, Vec<Hand>)
    requires { (1 ≤ players) × (players ≤ 8) }
{
    let session = open_session(rt, alloc);
    record(rt, alloc, session, players, seal)
}

/// How a recording ended.
#[derive(Clone, Copy, Debug, PartialEq, Eq)]
pub enum Ending {
    /// With so many rows of the log, and so many nodes.
    Settled { rows: usize, nodes: u32 },
    /// Some hand was missing among so many.
    Missing { hands: usize },
    /// Some hand was strange among so many.
    Strange { hands: usize },
    /// Hands and log differ.
    Differs { player: usize, place: usize },
}

// How a recording ended that did not settle.
fn ending_of(fault: &SettleFault) -> Ending {
    match fault {
        SettleFault::MissingHand { recorder: _, hands } => Ending::Missing { hands: hands.len() },
        SettleFault::StrangerHand { recorder: _, hands } => Ending::Strange { hands: hands.len() },
        SettleFault::Differs {
            player,
            place,
            settled: _,
            hands: _,
        } => {
            Ending::Differs {
                player: *player,
                place: *place,
            }
        }
    }
}

/// Ends a recording.
pub fn end(recorder: Recorder, hands: Vec<Hand>) -> Ending {
    let settled = recorder.settle(hands);
    let ending = match &settled {
        Ok(settled) => Ending::Settled {
            rows: settled.log.len(),
            nodes: settled.session.issued(),
        },
        Err(fault) => ending_of(fault),
    };
    drop(settled);
    ending
}

/// Tries to end a recording of which a hand is missing, and gives back what is handed back.
pub fn end_early<R: Abort>(rt: &R, recorder: Recorder, hands: Vec<Hand>) -> (Recorder, Vec<Hand>) {
    match recorder.settle(hands) {
        Ok(_) => panic!(rt; "the hands agree"),
        Err(SettleFault::MissingHand { recorder, hands }) => (recorder, hands),
        Err(_) => panic!(rt; "no hand is missing"),
    }
}

/// Tries to end a recording with a strange hand, and gives back what is handed back.
pub fn end_with_stranger<R: Abort>(
    rt: &R,
    recorder: Recorder,
    hands: Vec<Hand>,
) -> (Recorder, Vec<Hand>) {
    match recorder.settle(hands) {
        Ok(_) => panic!(rt; "the hands agree"),
        Err(SettleFault::StrangerHand { recorder, hands }) => (recorder, hands),
        Err(_) => panic!(rt; "no hand is strange"),
    }
}
