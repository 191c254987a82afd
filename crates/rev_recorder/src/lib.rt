//! A recorder: up to eight players play on one session. Each call takes the one lock, for one play or one go alone, and
//! is logged there; when all hands are back, the log is compared with what each player was told.
#![tactic(auto)]

pub mod hand;
pub mod recorder;
mod recording;
pub mod run;
pub mod settle;

pub use hand::{Call, Entry, Hand, LogRow, Receipt};
pub use recorder::{MAX_PLAYERS, RecordFault, Recorder};
pub use run::{Gate, run_actors};
pub use settle::{SettleFault, Settled};
