//! Figures of a trace that was played: where a cache loses its keys, when and why, and which of them are asked for
//! again.
#![tactic(auto)]

mod asks;
mod by_class;
mod by_slot;
pub mod classes;
mod departed;
mod gone;
mod kinds;
pub mod path;
pub mod prefixes;
pub mod slot_sums;
pub mod sums;
pub mod tables;
mod waits;
mod walk;

pub use by_slot::{left_by_slot, moves_by_slot};
pub use classes::{ClassFigures, class_figures};
pub use departed::by_prefix;
pub use gone::has_stored;
pub use kinds::kind_of;
pub use path::{Leaving, PageMove, Path, PathStep, QueueBytes, StepKind};
pub use prefixes::{ByPrefix, PrefixCounts, PrefixRow};
pub use slot_sums::SlotSum;
pub use sums::Sums;
pub use tables::{CauseCounts, NO_CAUSES, Totals, Which, count_all, is_eviction};
pub use walk::gather;
