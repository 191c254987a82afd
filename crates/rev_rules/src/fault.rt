//! Why a script that the rules lead is not played to its end.
use rev_plays::quiet::TraceFault;
use rev_replay::fault::ReplayFault;

/// Why a script is not played to its end.
#[derive(Clone, Copy, Debug, PartialEq, Eq, Drop)]
pub enum RulesFault {
    /// A line makes no step, or the script cannot be read on.
    Script(TraceFault),
    /// Who listens gave up, or memory was refused while a step was played or told.
    Told(ReplayFault),
}
