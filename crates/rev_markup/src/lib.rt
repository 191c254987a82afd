//! Markup that is put piece by piece: what comes from outside stands escaped. Numbers with their units, shares, and what
//! lies where on the axis of a picture.
#![tactic(auto)]

pub mod calendar;
pub mod charts;
mod escape;
pub mod markup;
pub mod numbers;
pub mod scale;
pub mod share;
pub mod units;
