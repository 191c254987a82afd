//! What lies under the lock: the session, and the log of the calls that led to it.
ghost use Rattle.std.specs.Prelude.{◌≡◌, ◌+◌, length, [], true, IfOk, IfErr, Some};
ghost use Rattle.rev_requests.specs.Plain.{plain_step};
ghost use Rattle.rev_tree.specs.Steps.{outcome_of};
ghost use Rattle.rev_tree.specs.Rows.{at};
ghost use Rattle.rev_tree.specs.Finds.{is_held};
ghost use Rattle.rev_recorder.specs.declared.hand.Call.TheVariants.{Play, Go};
ghost use Rattle.rev_recorder.specs.Answers.{node, played, moved, logged, receipt_at, okay_at, PlayRefusedAs, GoRefusedAs};

use crate::hand::{Call, LogRow, Receipt};
use crate::recorder::RecordFault;
use rev_model::Outcome;
use rev_requests::Step;
use rev_undotree::{NodeId, PlayFault, Session};
use std::alloc::Global;
use std::marker::Model;

/// A session, its log, and where the log began.
#[derive(Drop)]
pub(crate) struct Recording {
    pub(crate) session: Session<Global>,
    pub(crate) log: Vec<LogRow>,
    pub(crate) first_count: u32,
    pub(crate) first_node: NodeId,
}

impl Model for Recording {
    ghost use Rattle.std.specs.Coded.{codes};
    ghost use Rattle.rev_model.specs.Codes.{coded_contents, coded_keys};
    ghost use Rattle.rev_recorder.specs.Log.{PlainRecording, IsLegal};

    ghost Value = { PlainRecording };

    ghost coded = { Prim.hlevel (codes, coded_contents, coded_keys) };

    ghost view = { λ r. record { session = r.session; log = r.log.items; opening = record { count = r.first_count; node = r.first_node.0 } } };

    ghost invariant = { λ r. IsLegal (record { count = r.first_count; node = r.first_node.0 }) r.log.items r.session };
}

/// Why a call was refused, and the receipt of a refusal that was logged.
#[derive(Drop)]
pub(crate) struct Refusal {
    pub(crate) fault: RecordFault,
    pub(crate) receipt: Option<Receipt>,
}

impl Recording {
    /// A recording of a session, that begins where the session stands.
    pub(crate) fn new(alloc: Global, session: Session<Global>) -> Recording
        ensures { result ≡ record { session = session; log = []; opening = record { count = length session.rows; node = session.current } } }
    {
        let first_count = session.issued();
        let first_node = session.current();
        Recording {
            session,
            log: Vec::new(alloc),
            first_count,
            first_node,
        }
    }

    /// Plays a step for a player, and logs the call.
    pub(crate) fn play(
        &mut self,
        player: usize,
        step: Step<Global>,
    ) -> Result<Receipt, (Refusal, Step<Global>)>
        ensures ok { IfOk result (λ r. let call = Play (node (length self.old.session.rows + 1)) in (r ≡ receipt_at (length self.old.log) call (outcome_of (at self.old.session.root self.old.session.rows self.old.session.current) (plain_step step))) × (self.new ≡ logged self.old (played self.old.session (plain_step step)) player call)) }
        ensures err { IfErr result (λ e. (plain_step e.1 ≡ plain_step step) × PlayRefusedAs self.old player e.0.fault e.0.receipt self.new) }
    {
        if self.log.reserve(1).is_err() {
            return Err((
                Refusal {
                    fault: RecordFault::Memory,
                    receipt: None,
                },
                step,
            ));
        }
        let place = self.log.len();
        match self.session.play(step) {
            Ok(done) => {
                let call = Call::Play(done.node);
                self.log.push_reserved(LogRow { player, call });
                Ok(Receipt {
                    place,
                    call,
                    outcome: done.outcome,
                })
            }
            Err((PlayFault::TooManyNodes, step)) => {
                self.log.push_reserved(LogRow {
                    player,
                    call: Call::Many,
                });
                Err((refused(RecordFault::TooManyNodes, place, Call::Many), step))
            }
            Err((PlayFault::TooDeep, step)) => {
                self.log.push_reserved(LogRow {
                    player,
                    call: Call::Deep,
                });
                Err((refused(RecordFault::TooDeep, place, Call::Deep), step))
            }
            Err((PlayFault::Memory, step)) => {
                Err((
                    Refusal {
                        fault: RecordFault::Memory,
                        receipt: None,
                    },
                    step,
                ))
            }
        }
    }

    /// Goes to a node for a player, and logs the call.
    pub(crate) fn go(&mut self, player: usize, node: NodeId) -> Result<Receipt, Refusal>
        ensures ok { IfOk result (λ r. (is_held self.old.session.rows node.0 ≡ true) × (r ≡ okay_at (length self.old.log) (Go node)) × (self.new ≡ logged self.old (moved self.old.session node.0) player (Go node))) }
        ensures err { IfErr result (λ e. GoRefusedAs self.old player node e.fault e.receipt self.new) }
    {
        if self.log.reserve(1).is_err() {
            return Err(Refusal {
                fault: RecordFault::Memory,
                receipt: None,
            });
        }
        let place = self.log.len();
        match self.session.go(node) {
            Ok(_) => {
                let call = Call::Go(node);
                self.log.push_reserved(LogRow { player, call });
                Ok(Receipt {
                    place,
                    call,
                    outcome: Outcome::Okay,
                })
            }
            Err(_) => {
                let call = Call::Lost(node);
                self.log.push_reserved(LogRow { player, call });
                Err(refused(RecordFault::NoNode, place, call))
            }
        }
    }
}

/// A refusal that was logged at a place.
fn refused(fault: RecordFault, place: usize, call: Call) -> Refusal
    ensures { result ≡ record { fault = fault; receipt = Some (okay_at place call) } }
{
    Refusal {
        fault,
        receipt: Some(Receipt {
            place,
            call,
            outcome: Outcome::Okay,
        }),
    }
}
