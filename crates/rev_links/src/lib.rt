//! Lists that run through slots of pages: places and links with the theory of the lists that they make, cells that
//! are counted as they are read and written, and tables of pages that may be away, counted in the same way or not.
#![tactic(auto)]

mod cells;
mod counted;
mod grid;
mod places;
mod ticks;

pub use cells::Cells;
pub use counted::CountedGrid;
pub use grid::Grid;
pub use places::{Link, RingPlace};
pub use ticks::Ticks;
