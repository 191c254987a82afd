//! What a running memcached tells of its items, made into a script that brings them about.
//!
//! [`dump::read_items`] reads what `lru_crawler metadump all` sent, and [`counts`] the texts of `stats items` and
//! `stats slabs`. [`rounds`] tells in which queue each item stands, [`order`] when each is set, and [`start`] writes
//! the script.
#![tactic(auto)]

pub mod counts;
pub mod dump;
pub mod fault;
pub mod order;
pub mod report;
pub mod rounds;
pub mod start;
