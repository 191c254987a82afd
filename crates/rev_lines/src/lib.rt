//! A step as the line of a script that asks for it. What a script reader makes of the lines of steps is these steps,
//! in order.
#![tactic(auto)]

mod client;
mod line;
mod text;

pub use line::put_step;
