//! Pages are laid and lifted.
ghost use Rattle.std.specs.Prelude.{◌≡◌, ℕ, ◌+◌, ◌<◌, length, slice_index, drop};
ghost use Rattle.rev_pages.specs.Lays.{laid, CanLay, lifted, CanLift};
ghost use Rattle.rev_pages.specs.State.{free_of, with_free, IsClear, carved, with_new_page, with_page, without_last_page};

use crate::pages::Pages;
use crate::parts::Slots;
use rev_links::Ticks;
use rev_model::{ChunkRef, Form};
use std::alloc::Allocator;
use std::marker::Brand;
use std::sync::ledger::{Blank, Ledger};

impl<A: Allocator> Pages<A> {
    /// Gives a page its slots and its class, and puts its chunks in front of the class's free list, the highest slot
    /// first, or in no list where the form is `Withdrawn`.
    pub fn lay(&mut self, page: u16, class: usize, slots: Slots<A>, form: Form)
        requires class { class < length self.old.free }
        requires page { CanLay form page self.old }
        requires empty { slice_index self.old.slots page ≡ 0 }
        ensures { self.new ≡ laid page class slots form self.old }
    {
        self.lay_by::<Brand>(page, class, slots, form, Blank::new(1));
    }

    /// Takes a page's slots out, the reverse of `lay`: its chunks leave the front of its class's free list, or stand in
    /// no list where the form is `Withdrawn`, and the page goes to the pool, or goes where the form is `Fresh`.
    pub fn lift(&mut self, page: u16, form: Form) -> Slots<A>
        requires there { 0 < slice_index self.old.slots page }
        requires page { CanLift form page self.old }
        ensures count { result ≡ slice_index self.old.slots page }
        ensures value { self.new
            ≡ lifted page (slice_index self.old.owner page) (slice_index self.old.slots page) form self.old }
    {
        self.lift_by::<Brand>(page, form, Blank::new(1))
    }

    // `lay` with ticks of its own: as many as the page's slots ask for.
    fn lay_by<L: Ledger>(
        &mut self,
        page: u16,
        class: usize,
        slots: Slots<A>,
        form: Form,
        blank: Blank,
    )
        requires name { blank.name ≡ L.name }
        requires parts { blank.parts ≡ L.parts }
        requires some { 0 < L.parts }
        requires class { class < length self.old.free }
        requires page { CanLay form page self.old }
        requires empty { slice_index self.old.slots page ≡ 0 }
        ensures { self.new ≡ laid page class slots form self.old }
    {
        let mut ticks = Ticks::<L>::start(blank);
        let n = slots.count();
        match form {
            Form::Fresh => {
                self.attach_new(page, class, slots, &mut ticks);
                self.carve(class, page, n, &mut ticks);
            }
            Form::Pool => {
                self.attach(page, class, slots, &mut ticks);
                self.carve(class, page, n, &mut ticks);
            }
            Form::Withdrawn => self.attach(page, class, slots, &mut ticks),
        }
    }

    // `lift` with ticks of its own.
    fn lift_by<L: Ledger>(&mut self, page: u16, form: Form, blank: Blank) -> Slots<A>
        requires name { blank.name ≡ L.name }
        requires parts { blank.parts ≡ L.parts }
        requires some { 0 < L.parts }
        requires there { 0 < slice_index self.old.slots page }
        requires page { CanLift form page self.old }
        ensures count { result ≡ slice_index self.old.slots page }
        ensures value { self.new
            ≡ lifted page (slice_index self.old.owner page) (slice_index self.old.slots page) form self.old }
    {
        let mut ticks = Ticks::<L>::start(blank);
        let _table = &self.table;
        let class = self.owner(usize::from(page));
        let n = self.count(page);
        match form {
            Form::Fresh => {
                self.uncarve(class, page, n, &mut ticks);
                self.detach_last(page, &mut ticks)
            }
            Form::Pool => {
                self.uncarve(class, page, n, &mut ticks);
                self.detach(page, &mut ticks)
            }
            Form::Withdrawn => self.detach(page, &mut ticks),
        }
    }

    // How many slots a page has.
    fn count(&self, page: u16) -> u16
        requires { page < length self.now.owner }
        ensures { result ≡ slice_index self.now.slots page }
    {
        self.table.links.count(page) as u16
    }

    // Makes the next page.
    fn attach_new<L: Ledger>(
        &mut self,
        page: u16,
        class: usize,
        slots: Slots<A>,
        ticks: &mut Ticks<L>,
    )
        requires class { class < length self.old.free }
        requires next { page ≡ length self.old.owner }
        requires room { page < length self.old.slots }
        requires empty { slice_index self.old.slots page ≡ 0 }
        ensures value { self.new ≡ with_new_page self.old page class slots }
        ensures clear { IsClear self.new page }
    {
        let Slots { links } = slots;
        self.push_owner(class);
        self.table.links.lay(page, links, ticks);
    }

    // Gives a page of the pool to a class.
    fn attach<L: Ledger>(&mut self, page: u16, class: usize, slots: Slots<A>, ticks: &mut Ticks<L>)
        requires class { class < length self.old.free }
        requires there { page < length self.old.owner }
        requires empty { slice_index self.old.slots page ≡ 0 }
        ensures value { self.new ≡ with_page self.old page class slots }
        ensures size { slice_index self.new.slots page ≡ slots }
        ensures clear { IsClear self.new page }
    {
        let Slots { links } = slots;
        self.set_owner(page, class);
        self.table.links.lay(page, links, ticks);
    }

    // Takes the last page's slots out, and forgets the page.
    fn detach_last<L: Ledger>(&mut self, page: u16, ticks: &mut Ticks<L>) -> Slots<A>
        requires last { page + 1 ≡ length self.old.owner }
        requires there { 0 < slice_index self.old.slots page }
        requires clear { IsClear self.old page }
        ensures count { result ≡ slice_index self.old.slots page }
        ensures value { self.new ≡ without_last_page self.old page }
    {
        self.pop_owner();
        let links = self.table.links.lift(page, ticks);
        Slots { links }
    }

    // Takes a page's slots out, and gives it to the pool.
    fn detach<L: Ledger>(&mut self, page: u16, ticks: &mut Ticks<L>) -> Slots<A>
        requires page { page < length self.old.owner }
        requires there { 0 < slice_index self.old.slots page }
        requires clear { IsClear self.old page }
        ensures count { result ≡ slice_index self.old.slots page }
        ensures value { self.new ≡ with_page self.old page 0 0 }
    {
        // the table has a list for the pool
        let _table = &self.table;
        self.set_owner(page, 0);
        let links = self.table.links.lift(page, ticks);
        Slots { links }
    }

    // Puts the chunks of a page in front of a free list, the highest slot first.
    fn carve<L: Ledger>(&mut self, class: usize, page: u16, n: u16, ticks: &mut Ticks<L>)
        requires class { class < length self.old.free }
        requires slots { n ≡ slice_index self.old.slots page }
        requires clear { IsClear self.old page }
        ensures { self.new ≡ with_free self.old class (carved page n (free_of self.old class)) }
    {
        for slot in 0..n {
            let chunk = ChunkRef { page, slot };
            self.put_after(class, chunk, None, ticks);
        }
    }

    // Takes the chunks of a page from the front of a free list, where they stand in the order of `carve`.
    fn uncarve<L: Ledger>(&mut self, class: usize, page: u16, n: u16, ticks: &mut Ticks<L>)
        requires class { class < length self.old.free }
        requires front { free_of self.old class ≡ carved page n (drop n (free_of self.old class)) }
        ensures { self.new ≡ with_free self.old class (drop n (free_of self.old class)) }
    {
        for k in 0..n {
            let slot = n - 1 - k;
            let chunk = ChunkRef { page, slot };
            self.take(class, chunk, ticks);
        }
    }
}
