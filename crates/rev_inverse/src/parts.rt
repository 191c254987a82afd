//! What a page takes with it when it is away: its slots in free lists, queues and index.
ghost use Rattle.std.specs.Prelude.{◌≡◌, IfOk};

use rev_index as index;
use rev_pages as pages;
use rev_queues as queues;
use std::alloc::{AllocError, Allocator};
use std::marker::Model;

// The slots of a page that is away, as free lists, queues and index hold them.
#[derive(Drop)]
struct Slots<A: Allocator> {
    pages: pages::Slots<A>,
    queues: queues::Slots<A>,
    index: index::Slots<A>,
}

/// Memory for the slots of one page, which holds none.
#[derive(Drop)]
pub struct Shelf<A: Allocator> {
    slots: Box<Option<Slots<A>>, A>,
}

/// The slots of a page that is away: what a page is laid with, and what is left when it is lifted. They lie on a shelf,
/// so that a move that carries them is as small as the others.
#[derive(Drop)]
pub struct Parts<A: Allocator> {
    slots: Box<Option<Slots<A>>, A>,
}

impl<A: Allocator> Model for Parts<A> {
    ghost use Rattle.std.specs.Prelude.{ℕ};
    ghost use Rattle.rev_inverse.specs.Shelves.{slots_in, AreSlots};

    // The number of slots.
    ghost Value = { ℕ };

    ghost view = { λ p. slots_in p.slots.value };

    ghost invariant = { λ p. AreSlots p.slots.value };
}

impl<A: Allocator> Shelf<A> {
    /// An empty shelf.
    ///
    /// Err: a growth was refused.
    pub fn new(alloc: A) -> Result<Shelf<A>, AllocError> {
        Ok(Shelf {
            slots: Box::new(alloc, None)?,
        })
    }

    /// The parts of one page, which have as many slots. They lie on this shelf from now on.
    pub fn fill(
        self,
        pages: pages::Slots<A>,
        queues: queues::Slots<A>,
        index: index::Slots<A>,
    ) -> Parts<A>
        requires queues { queues ≡ pages }
        requires index { index ≡ pages }
        ensures { result ≡ pages }
    {
        let mut slots = self.slots;
        *slots = Some(Slots {
            pages,
            queues,
            index,
        });
        Parts { slots }
    }
}

/// The slots of a page, in free lists, in queues and in the index, and the shelf on which they lay.
#[derive(Drop)]
pub struct Unshelved<A: Allocator> {
    pub pages: pages::Slots<A>,
    pub queues: queues::Slots<A>,
    pub index: index::Slots<A>,
    pub shelf: Shelf<A>,
}

impl<A: Allocator> Parts<A> {
    /// The slots, apart, and their shelf.
    pub fn unshelve(self) -> Unshelved<A>
        ensures pages { result.pages ≡ self }
        ensures queues { result.queues ≡ self }
        ensures index { result.index ≡ self }
    {
        let mut slots = self.slots;
        match slots.take() {
            Some(held) => {
                let Slots {
                    pages,
                    queues,
                    index,
                } = held;
                Unshelved {
                    pages,
                    queues,
                    index,
                    shelf: Shelf { slots },
                }
            }
            None => unreachable!(),
        }
    }
}
