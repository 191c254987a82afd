//! The crawler (protocol.txt, `lru_crawler crawl`): marks enter queues at their tails and walk to the heads, one entry
//! a step, and each dead item that they come to is reclaimed.
#![tactic(auto)]

mod crawling;
mod reads;
mod starting;

pub use crawling::crawl;
pub use starting::start;
