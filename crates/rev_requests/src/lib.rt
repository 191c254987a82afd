//! What may be asked of a store: the commands of clients, the steps of its actors, and the settings.
#![tactic(auto)]

mod actors;
mod clients;
mod payloads;
mod steps;
mod tuning;

pub use actors::ActorStep;
pub use clients::{Arithmetic, ClientStep, JoinSide, KeyCommand, StoreVerb};
pub use payloads::Payload;
pub use steps::Step;
pub use tuning::{BadTune, MOST_SHARES, Tune};
