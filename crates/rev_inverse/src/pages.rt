//! Pages are laid and lifted.
ghost use Rattle.std.specs.Prelude.{◌≡◌, ℕ};
ghost use Rattle.rev_model.specs.State.{WellFormed};
ghost use Rattle.rev_model.specs.Move as plain;
ghost use Rattle.rev_model.specs.Move.{moved, reverse, Possible};

use crate::parts::{Parts, Shelf, Unshelved};
use crate::store::Store;
use rev_model::Form;
use std::alloc::Allocator;

impl<A: Allocator> Store<A> {
    // The shelf on which the parts lay.
    pub(crate) fn lay(&mut self, page: u16, class: usize, parts: Parts<A>, form: Form) -> Shelf<A>
        requires well { WellFormed self.old }
        requires possible { Possible (plain.Lays page class parts form) self.old }
        ensures state { self.new ≡ moved (plain.Lays page class parts form) self.old }
    {
        let Unshelved {
            pages,
            queues,
            index,
            shelf,
        } = parts.unshelve();
        self.pages.lay(page, class, pages, form);
        self.queues.lay(page, queues);
        self.index.lay(page, index);
        shelf
    }

    // The page's class and parts, which lie on the shelf from now on.
    pub(crate) fn lift(&mut self, page: u16, form: Form, shelf: Shelf<A>) -> (usize, Parts<A>)
        requires well { WellFormed self.old }
        requires possible { Possible (plain.Lifts page form) self.old }
        ensures state { self.new ≡ moved (plain.Lifts page form) self.old }
        ensures reverse { plain.Lays page result.0 result.1 form ≡ reverse (plain.Lifts page form) self.old }
    {
        let class = self.pages.owner(usize::from(page));
        let _some = self.table.per_page(class);
        let pages = self.pages.lift(page, form);
        let queues = self.queues.lift(page);
        let index = self.index.lift(page);
        (class, shelf.fill(pages, queues, index))
    }
}
