//! A page's slots of the index while the page is away.
ghost use Rattle.std.specs.Prelude.{◌≡◌, ℕ};

use crate::chains::ChainLink;
use crate::item_table::PageItems;
use std::alloc::Allocator;
use std::marker::Model;

/// The slots of a page, without items and in no chain. Contracts see how many there are.
#[derive(Drop)]
pub struct Slots<A: Allocator> {
    pub(crate) items: PageItems<A>,
    pub(crate) links: Vec<ChainLink, A>,
}

impl<A: Allocator> Model for Slots<A> {
    ghost use Rattle.std.specs.Prelude.{ℕ, length};
    ghost use Rattle.rev_index.specs.Index.{AreFree};

    ghost Value = { ℕ };

    ghost view = { λ s. length s.items.items };

    ghost invariant = { λ s. AreFree s.items.items s.links.items };
}
