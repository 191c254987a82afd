//! A session, with the role of each of its nodes.
ghost use Rattle.std.specs.Prelude.{◌≡◌, [], IfOk, IfSome, OnOk, OnErr};
ghost use Rattle.rev_classes.specs.Limits.{IsWithinLimits};
ghost use Rattle.rev_model.specs.Sound.{Sound};
ghost use Rattle.rev_steps.specs.Plain.{plain_step};
ghost use Rattle.rev_tree.specs.Steps.{next, outcome_of};
ghost use Rattle.rev_plays.specs.Begin.{opened};
ghost use Rattle.rev_lead.specs.Acts.{Led, after, begun, state_of_stage};

use crate::role::Role;
use rev_classes::Config;
use rev_inverse::Store;
use rev_model::Outcome;
use rev_plays::begin::open_session;
use rev_steps::Step;
use rev_undotree::{PlayFault, Session};
use std::alloc::{AllocError, Allocator};
use std::marker::Model;
use thiserror::Error;

/// Why an event was not played to its end.
#[derive(Clone, Copy, Debug, PartialEq, Eq, Drop, Error)]
pub enum LeadFault {
    #[error("out of memory")]
    Memory,
    /// The session's tree has as many nodes as it may have.
    #[error("too many nodes")]
    TooManyNodes,
    /// The forks of the session's tree nest too deep.
    #[error("too many nested forks")]
    TooDeep,
}

impl From<AllocError> for LeadFault {
    ghost use Rattle.std.specs.Prelude.{◌≡◌};
    ghost use Rattle.rev_lead.specs.declared.stage.LeadFault.{LeadFault};

    ghost from_gives = { λ refused fault. fault ≡ LeadFault.Memory };

    fn from(_refused: AllocError) -> LeadFault {
        LeadFault::Memory
    }
}

fn fault_of(fault: PlayFault) -> LeadFault {
    match fault {
        PlayFault::Memory => LeadFault::Memory,
        PlayFault::TooManyNodes => LeadFault::TooManyNodes,
        PlayFault::TooDeep => LeadFault::TooDeep,
    }
}

/// Who looks at a session, and leaves it as it was.
pub trait Viewer<A: Allocator> {
    /// Why it could not look.
    type Fault;

    /// Looks at the session. Meanwhile it may stand elsewhere.
    fn view(&mut self, session: &mut Session<A>) -> Result<(), Self::Fault>
        ensures { session.new ≡ session.old };
}

/// A session, with the role of each of its nodes since its root.
#[derive(Drop)]
pub struct Stage<A: Allocator> {
    session: Session<A>,
    roles: Vec<Role, A>,
}

impl<A: Allocator> Model for Stage<A> {
    ghost use Rattle.std.specs.Coded.{codes};
    ghost use Rattle.rev_model.specs.Codes.{coded_contents, coded_keys};
    ghost use Rattle.rev_lead.specs.Acts.{StageState, Ordered};

    ghost Value = { StageState };

    ghost coded = { Prim.hlevel (codes, coded_contents, coded_keys) };

    ghost view = { λ s. record { session = s.session; roles = s.roles.items } };

    ghost invariant = { λ s. Ordered s.session };
}

impl<A: Allocator + Copy> Stage<A> {
    /// An empty store of this configuration, and no node. None where there is no memory.
    pub fn open(alloc: A, config: &Config) -> Option<Stage<A>>
        requires { IsWithinLimits config.now }
        ensures { IfSome result (λ stage. stage ≡ record { session = opened config.entry.now; roles = [] }) }
    {
        let session = open_session(&alloc, config)?;
        Some(Stage {
            session,
            roles: Vec::new(alloc),
        })
    }

    /// A stage that begins where a session stands: its state is the root from now on, and there is no node.
    pub fn on(alloc: A, mut session: Session<A>) -> Stage<A>
        ensures { result ≡ begun (record { session = session; roles = [] }) }
    {
        session.restart();
        Stage {
            session,
            roles: Vec::new(alloc),
        }
    }

    /// The session, without the roles.
    pub fn into_session(self) -> Session<A>
        ensures { result ≡ self.session }
    {
        self.session
    }

    /// The session.
    pub fn session(&self) -> &Session<A>
        ensures { result.now ≡ self.now.session }
    {
        &self.session
    }

    /// The store where the session stands.
    pub fn store(&self) -> &Store<A>
        ensures state { result.now ≡ state_of_stage self.now }
        ensures sound { Sound result.now }
    {
        self.session.store()
    }

    /// The role of each node, that of node 1 first.
    pub fn roles(&self) -> &[Role]
        ensures { result.now ≡ self.now.roles }
    {
        self.roles.as_slice()
    }

    /// Shows the session.
    pub fn show<V: Viewer<A>>(&mut self, viewer: &mut V) -> Result<(), V::Fault>
        ensures { self.new ≡ self.old }
    {
        viewer.view(&mut self.session)
    }

    /// Begins anew where the session stands: its state is the root from now on, and there is no node.
    pub fn restart(&mut self)
        ensures { self.new ≡ begun self.old }
    {
        self.session.restart();
        self.roles.clear();
    }

    // Plays a step, and notes its role.
    fn play_alone(&mut self, step: Step<A>, role: Role) -> Result<Outcome, LeadFault>
        ensures ok { OnOk result (self.new ≡ after self.old (record { step = plain_step step; role = role })) }
        ensures state { OnOk result (state_of_stage self.new ≡ next (state_of_stage self.old) (plain_step step)) }
        ensures outcome { IfOk result (λ outcome. outcome ≡ outcome_of (state_of_stage self.old) (plain_step step)) }
        ensures err { OnErr result (self.new ≡ self.old) }
    {
        if self.roles.push(role).is_err() {
            return Err(LeadFault::Memory);
        }
        match self.session.play(step) {
            Ok(played) => Ok(played.outcome),
            Err((fault, step)) => {
                drop(step);
                self.roles.pop();
                Err(fault_of(fault))
            }
        }
    }

    /// Plays a step below the current node, in this role. The answer is the step's outcome.
    ///
    /// Err: memory was refused, or the session's tree is full; nothing was played.
    pub fn play(&mut self, step: Step<A>, role: Role) -> Result<Outcome, LeadFault>
        ensures ok { OnOk result (self.new ≡ after self.old (record { step = plain_step step; role = role })) }
        ensures state { OnOk result (state_of_stage self.new ≡ next (state_of_stage self.old) (plain_step step)) }
        ensures outcome { IfOk result (λ outcome. outcome ≡ outcome_of (state_of_stage self.old) (plain_step step)) }
        ensures err { OnErr result (self.new ≡ self.old) }
        ensures led { Led self.old self.new }
    {
        self.play_alone(step, role)
    }
}
