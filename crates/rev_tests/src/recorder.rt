//! Recordings: several hands on one session, one after another and side by side, each refusal, and what a recording
//! keeps.

mod gates;
mod hands;
mod kept;
mod memory;
mod openings;
mod orders;
mod refusals;
mod threads;
mod twins;
