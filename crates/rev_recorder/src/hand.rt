//! What a player holds: its number, its recorder's seal and all that it was told.
ghost use Rattle.std.specs.Prelude.{◌≡◌};

use rev_model::Outcome;
use rev_requests::Step;
use rev_undotree::NodeId;
use std::alloc::Global;
use std::marker::Model;

/// What a call did.
#[derive(Clone, Copy, Debug, PartialEq, Eq)]
pub enum Call {
    /// A step was played, and made this node.
    Play(NodeId),
    /// The session went to this node.
    Go(NodeId),
    /// A play was refused, since as many numbers were given out as there are.
    Many,
    /// A play was refused, since its node would have forked off too deep.
    Deep,
    /// A go was refused, since no node that is held has this number.
    Lost(NodeId),
}

/// A row of the log: who called, and what the call did.
#[derive(Clone, Copy, Debug, PartialEq, Eq)]
pub struct LogRow {
    /// The player, from 0.
    pub player: usize,
    pub call: Call,
}

/// What a player is told of a call.
#[derive(Clone, Copy, Debug, PartialEq, Eq)]
pub struct Receipt {
    /// Where the call stands in the log, from 0.
    pub place: usize,
    pub call: Call,
    /// What the step answered; `Okay` for a call that played none.
    pub outcome: Outcome,
}

/// What a hand keeps of a call.
#[derive(Drop)]
pub struct Entry {
    pub receipt: Receipt,
    /// A copy of the step that was handed in, where it was played.
    pub step: Option<Step<Global>>,
}

impl Model for Entry {
    ghost use Rattle.std.specs.Option.{option_map};
    ghost use Rattle.rev_requests.specs.Plain.{plain_step};
    ghost use Rattle.rev_recorder.specs.Hands.{PlainEntry};

    ghost Value = { PlainEntry };

    ghost view = { λ e. record { receipt = e.receipt; step = option_map plain_step e.step } };
}

/// What lets one player call a recorder, and keeps what it was told there.
#[derive(Drop)]
pub struct Hand {
    pub(crate) player: usize,
    pub(crate) seal: u64,
    pub(crate) entries: Vec<Entry>,
}

impl Model for Hand {
    ghost use Rattle.rev_recorder.specs.Hands.{PlainHand};

    ghost Value = { PlainHand };

    ghost view = { λ h. record { player = h.player; seal = h.seal; entries = h.entries.items } };
}

impl Hand {
    /// Whose hand it is, from 0.
    pub fn player(&self) -> usize
        ensures { result ≡ self.now.player }
    {
        self.player
    }

    /// Whose recorder's hand it is.
    pub fn seal(&self) -> u64
        ensures { result ≡ self.now.seal }
    {
        self.seal
    }

    /// What it was told, in the order of its calls.
    pub fn entries(&self) -> &[Entry]
        ensures { result.now ≡ self.now.entries }
    {
        self.entries.as_slice()
    }
}
