//! Which class owns a page.
ghost use Rattle.std.specs.Prelude.{◌≡◌, ◌+◌, ◌-◌, ◌<◌, ◌++◌, ◌∷◌, [], length, slice_set, take};
ghost use Rattle.rev_pages.specs.State.{with_owner};

use crate::pages::Pages;
use std::alloc::Allocator;

impl<A: Allocator> Pages<A> {
    /// Makes the next page, which belongs to a class.
    pub(crate) fn push_owner(&mut self, class: usize)
        requires class { class < length self.old.free }
        requires room { length self.old.owner < length self.old.slots }
        ensures { self.new ≡ with_owner self.old (self.old.owner ++ class ∷ []) }
    {
        self.owned[class] += 1;
        self.owners[usize::from(self.made)] = class as u16;
        self.made += 1;
    }

    /// Forgets the last page.
    pub(crate) fn pop_owner(&mut self)
        requires some { 0 < length self.old.owner }
        ensures { self.new ≡ with_owner self.old (take (length self.old.owner - 1) self.old.owner) }
    {
        self.made -= 1;
        let class = usize::from(self.owners[usize::from(self.made)]);
        self.owned[class] -= 1;
    }

    /// Gives a page to another class.
    pub(crate) fn set_owner(&mut self, page: u16, class: usize)
        requires class { class < length self.old.free }
        requires page { page < length self.old.owner }
        ensures { self.new ≡ with_owner self.old (slice_set self.old.owner page class) }
    {
        let page = usize::from(page);
        let left = usize::from(self.owners[page]);
        self.owned[left] -= 1;
        self.owned[class] += 1;
        self.owners[page] = class as u16;
    }
}
