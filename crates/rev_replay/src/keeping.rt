//! What a replay keeps of the steps that it plays, and up to which line.
ghost use Rattle.std.specs.Prelude.{◌≡◌};
ghost use Rattle.rev_replay.specs.Turns.{plays, passes};

use rev_evidence::heard::step_number;
use rev_undotree::NodeId;
use rev_watch::event::Timestamp;

/// What a replay keeps of the steps that it plays.
#[derive(Clone, Copy, Debug, PartialEq, Eq)]
pub enum Keeping {
    /// Nothing: the stage begins anew behind each event. All lives of the server are played.
    Nothing,
    /// The tree, of one life of the server alone: a node for each step, as long as there is room for one.
    Tree {
        /// The number of that life, where one is asked for, and else the last. The first is 1.
        life: Option<u32>,
    },
    /// The tree of the last life, or of the last steps of it: the stage begins anew behind an event where the tree may
    /// have no room for what follows. All lives of the server are played.
    Last,
    /// The tree, of one life of the server alone, from so many steps on. The stage begins anew behind each event up to
    /// there, and the lives in front of it are played, too, since steps are counted over all.
    Behind {
        /// So many steps are not kept.
        steps: u64,
        /// The number of that life.
        life: u64,
    },
}

/// A tree has room for what follows as long as it has fewer nodes (this project's own figure).
const MOST_OF_LAST: u32 = 983040;

impl Keeping {
    /// Whether a life of this number is played, unless a later one takes its place.
    pub fn plays(self, number: u64) -> bool
        ensures { result ≡ plays self number }
    {
        match self {
            Keeping::Nothing => true,
            Keeping::Tree { life: None } => true,
            Keeping::Tree { life: Some(life) } => u64::from(life) == number,
            Keeping::Last => true,
            Keeping::Behind { life, .. } => number <= life,
        }
    }

    /// Whether the stage begins anew behind an event, where so many steps lie in front of its root and it has so many
    /// nodes.
    pub fn passes(self, before: u64, nodes: u32) -> bool
        ensures { result ≡ passes self before nodes }
    {
        match self {
            Keeping::Nothing => true,
            Keeping::Tree { .. } => false,
            Keeping::Last => MOST_OF_LAST <= nodes,
            Keeping::Behind { steps, .. } => step_number(before, NodeId(nodes)) <= steps,
        }
    }
}

/// Where a line stands.
#[derive(Clone, Copy, Debug, PartialEq, Eq)]
pub struct Place {
    /// The place of its log, from 0 on.
    pub log: usize,
    /// The line's number, which counts the lines of one life of the server.
    pub gid: u64,
    /// When it was made.
    pub time: Timestamp,
}
