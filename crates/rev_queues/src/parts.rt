//! A page's slots of the queues while the page is away.
use crate::members::QueueSlot;
use std::alloc::Allocator;
use std::marker::Model;

/// The slots of a page, of which none stands in a queue.
#[derive(Drop)]
pub struct Slots<A: Allocator> {
    pub(crate) cells: Vec<QueueSlot, A>,
}

impl<A: Allocator> Model for Slots<A> {
    ghost use Rattle.std.specs.Prelude.{ℕ, length};
    ghost use Rattle.rev_queues.specs.QueueState.{AreSlots};

    ghost Value = { ℕ };

    ghost view = { λ s. length s.cells.items };

    ghost invariant = { λ s. AreSlots s.cells.items };
}
