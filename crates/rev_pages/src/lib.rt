//! The pages of a store: the class that each belongs to, and the free chunks of each slab class as a list in an order
//! of its own. The lists run through the pages' slots, so a chunk enters or leaves one in at most 16 reads and writes
//! of cells, and a page brings the memory for its chunks with it.
#![tactic(auto)]

mod laying;
mod making;
mod owning;
mod pages;
mod parts;
mod places;
mod table;

pub use making::slots;
pub use pages::Pages;
pub use parts::Slots;
pub use rev_links::Ticks;
