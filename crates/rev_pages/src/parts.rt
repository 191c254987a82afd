//! A page's slots of the free lists while the page is away.
ghost use Rattle.std.specs.Prelude.{◌≡◌, ℕ, ◌<◌, length};

use crate::places::FreeLink;
use std::alloc::Allocator;
use std::marker::Model;

/// The slots of a page, of which none stands in a list.
#[derive(Drop)]
pub struct Slots<A: Allocator> {
    pub(crate) links: Vec<FreeLink, A>,
}

impl<A: Allocator> Model for Slots<A> {
    ghost Value = { ℕ };

    ghost view = { λ s. length s.links.items };

    ghost invariant = { λ s. length s.links.items < 65536 };
}

impl<A: Allocator> Slots<A> {
    /// How many slots there are.
    pub fn count(&self) -> u16
        ensures { result ≡ self.now }
    {
        self.links.len() as u16
    }
}
