//! The recorder: one lock round a session and its log.
ghost use Rattle.std.specs.Prelude.{◌≡◌, ◌≢◌, ◌↔◌, ◌≤◌, IfOk, IfErr, IsErrAnd, Some, None};
ghost use Rattle.rev_model.specs.declared.Outcome.TheVariants.{Okay};
ghost use Rattle.rev_requests.specs.Plain.{plain_step};
ghost use Rattle.rev_recorder.specs.declared.recorder.RecordFault.TheVariants.{StrangerHand};
ghost use Rattle.rev_recorder.specs.declared.hand.Call.TheVariants.{Go};
ghost use Rattle.rev_recorder.specs.Hands.{with_entry};
ghost use Rattle.rev_recorder.specs.Answers.{IsPlay, LeftByPlay, LeftByGo};
ghost use Rattle.rev_recorder.specs.Settling.{AreNew};

use crate::hand::{Entry, Hand, Receipt};
use crate::recording::Recording;
use rev_requests::Step;
use rev_undotree::{NodeId, Session};
use std::alloc::{AllocError, Global};
use std::marker::Model;
use std::sync::{Mutex, Wait};
use thiserror::Error;

/// The most players of a recorder.
pub const MAX_PLAYERS: usize = 8;

/// Why a call of a recorder was refused.
#[derive(Clone, Copy, Debug, PartialEq, Eq, Drop, Error)]
pub enum RecordFault {
    /// As many numbers were given out as there are. The call was logged.
    #[error("too many nodes")]
    TooManyNodes,
    /// The node would be the 65th on its way from the root that forks off. The call was logged.
    #[error("too many nested forks")]
    TooDeep,
    /// A growth was refused, and nothing was changed at all.
    #[error("out of memory")]
    Memory,
    /// The hand has another seal than the recorder, and nothing was changed at all.
    #[error("the hand of another recorder")]
    StrangerHand,
    /// No node that is held has this number. The call was logged.
    #[error("no such node")]
    NoNode,
}

/// A session that players play on in turn, each with a hand of its own, and the log of their calls.
#[derive(Drop)]
pub struct Recorder {
    pub(crate) shared: Mutex<Recording>,
    pub(crate) seal: u64,
    pub(crate) players: usize,
}

impl Model for Recorder {
    ghost use Rattle.rev_recorder.specs.Hands.{PlainRecorder};

    ghost Value = { PlainRecorder };

    ghost view = { λ r. record { seal = r.seal; players = r.players } };
}

impl Recorder {
    /// A recorder of a session, and a hand for each of its players, in order. Give each recorder a seal of its own: by
    /// it a recorder knows its hands. The log begins where the session stands.
    ///
    /// Err: a growth was refused, and the session is handed back.
    pub fn open(
        alloc: Global,
        session: Session<Global>,
        players: usize,
        seal: u64,
    ) -> Result<(Recorder, Vec<Hand>), (AllocError, Session<Global>)>
        requires { (1 ≤ players) × (players ≤ 8) }
        ensures ok { IfOk result (λ r. (r.0 ≡ record { seal = seal; players = players }) × AreNew seal players r.1.items) }
        ensures err { IfErr result (λ e. e.1 ≡ session) }
    {
        let Ok(hands) = new_hands(alloc, players, seal) else {
            return Err((AllocError, session));
        };
        let recorder = Recorder {
            shared: Mutex::new(Recording::new(alloc, session)),
            seal,
            players,
        };
        Ok((recorder, hands))
    }

    /// Plays a step below the current node, for a hand, and waits for the lock. The hand keeps the receipt with a copy
    /// of the step.
    ///
    /// Err: the fault, and the step. StrangerHand goes first, then Memory where the hand or the log cannot grow, then
    /// TooManyNodes, TooDeep, and Memory for the session's own growths. TooManyNodes and TooDeep are logged, and enter
    /// the hand; the session is as before.
    pub fn play<R: Wait>(
        &self,
        rt: &R,
        hand: &mut Hand,
        step: Step<Global>,
    ) -> Result<Receipt, (RecordFault, Step<Global>)>
        ensures ok { IfOk result (λ r. IsPlay r.call × (hand.new ≡ with_entry hand.old r (Some (plain_step step)))) }
        ensures err { IfErr result (λ e. (plain_step e.1 ≡ plain_step step) × LeftByPlay hand.old e.0 hand.new) }
        ensures stranger { IsErrAnd result (λ e. e.0 ≡ StrangerHand) ↔ (hand.old.seal ≢ self.now.seal) }
    {
        if hand.seal != self.seal {
            return Err((RecordFault::StrangerHand, step));
        }
        let Ok(copy) = step.copy(*hand.entries.allocator()) else {
            return Err((RecordFault::Memory, step));
        };
        if hand.entries.reserve(1).is_err() {
            drop(copy);
            return Err((RecordFault::Memory, step));
        }
        let answer = self.shared.lock(rt).play(hand.player, step);
        match answer {
            Ok(receipt) => {
                hand.entries.push_reserved(Entry {
                    receipt,
                    step: Some(copy),
                });
                Ok(receipt)
            }
            Err((refusal, step)) => {
                drop(copy);
                match refusal.receipt {
                    Some(receipt) => {
                        hand.entries.push_reserved(Entry {
                            receipt,
                            step: None,
                        });
                        Err((refusal.fault, step))
                    }
                    None => Err((refusal.fault, step)),
                }
            }
        }
    }

    /// Goes to a node that is held, or to the root, for a hand, and waits for the lock. The hand keeps the receipt.
    ///
    /// Err: StrangerHand goes first, then Memory where the hand or the log cannot grow, then NoNode, which is logged
    /// and enters the hand; the session is as before.
    pub fn go<R: Wait>(&self, rt: &R, hand: &mut Hand, node: NodeId) -> Result<Receipt, RecordFault>
        ensures ok { IfOk result (λ r. (r.call ≡ Go node) × (r.outcome ≡ Okay) × (hand.new ≡ with_entry hand.old r None)) }
        ensures err { IfErr result (λ e. LeftByGo hand.old node e hand.new) }
        ensures stranger { IsErrAnd result (λ e. e ≡ StrangerHand) ↔ (hand.old.seal ≢ self.now.seal) }
    {
        if hand.seal != self.seal {
            return Err(RecordFault::StrangerHand);
        }
        if hand.entries.reserve(1).is_err() {
            return Err(RecordFault::Memory);
        }
        let answer = self.shared.lock(rt).go(hand.player, node);
        match answer {
            Ok(receipt) => {
                hand.entries.push_reserved(Entry {
                    receipt,
                    step: None,
                });
                Ok(receipt)
            }
            Err(refusal) => match refusal.receipt {
                Some(receipt) => {
                    hand.entries.push_reserved(Entry {
                        receipt,
                        step: None,
                    });
                    Err(refusal.fault)
                }
                None => Err(refusal.fault),
            },
        }
    }
}

/// A hand for each player, in order.
fn new_hands(alloc: Global, players: usize, seal: u64) -> Result<Vec<Hand>, AllocError>
    ensures { IfOk result (λ hands. AreNew seal players hands.items) }
{
    let mut hands = Vec::with_capacity(alloc, players)?;
    for player in 0..players {
        hands.push_reserved(Hand {
            player,
            seal,
            entries: Vec::new(alloc),
        });
    }
    Ok(hands)
}
