//! How a class gets a page.
ghost use Rattle.std.specs.Prelude.{◌≡◌, ℕ, ◌+◌, ◌<◌, ◌≤◌, ◌++◌, ◌∷◌, [], length, Option, None, Some, IfOk};
ghost use Rattle.rev_model.specs.State.{State, WellFormed, free_of, per_page, IsClass};
ghost use Rattle.rev_model.specs.Pull.{carved, page_of};
ghost use Rattle.rev_model.specs.Sound.{Sound};
ghost use Rattle.rev_inverse.specs.Leads.{Leads};
ghost use Rattle.rev_inverse.specs.Telling.{Tells};
ghost use Rattle.rev_edits.specs.Paging.{IsPlan};

use crate::moving::change;
use rev_inverse::{Change, Parts, Record, Store};
use rev_model::Form;
use std::alloc::{AllocError, Allocator};

/// A page for a class: its number, how it is laid, and its memory, which is taken before a step's first change.
#[derive(Drop)]
pub struct NewPage<A: Allocator> {
    pub page: u16,
    pub form: Form,
    pub parts: Parts<A>,
}

/// Which page the class would get: the lowest of the pool, else the one with the next number while the limit allows it
/// or the class owns none.
fn page_of<A: Allocator>(store: &Store<A>, class: usize) -> Option<(u16, Form)>
    requires sound { Sound store.now }
    ensures { result ≡ page_of store.now class }
{
    if let Some(page) = store.lowest_page(0) {
        return Some((page, Form::Pool));
    }
    let made = store.made();
    let (limit, _bump) = store.limits();
    if made < limit || !store.owns_page(class) {
        Some((made as u16, Form::Fresh))
    } else {
        None
    }
}

/// The page that the class would get, with its memory.
///
/// Err: a growth was refused.
pub fn plan_page<A: Allocator + Clone>(
    store: &Store<A>,
    class: usize,
) -> Result<Option<NewPage<A>>, AllocError>
    requires sound { Sound store.now }
    requires class { IsClass store.now.fixed class }
    ensures { IfOk result (λ plan. IsPlan store.now class plan) }
{
    match page_of(store, class) {
        None => Ok(None),
        Some((page, form)) => {
            let parts = store.parts(class)?;
            Ok(Some(NewPage { page, form, parts }))
        }
    }
}

/// The class gets the page, whose chunks enter its free list: one move.
pub fn lay_page<A: Allocator>(
    store: &mut Store<A>,
    class: usize,
    page: NewPage<A>,
    undo: &mut Record<A>,
)
    requires sound { Sound store.old }
    requires class { IsClass store.old.fixed class }
    requires page { page_of store.old class ≡ Some (page.page, page.form) }
    requires parts { page.parts ≡ per_page store.old.fixed class }
    requires room { length undo.old.moves < undo.old.room }
    ensures state { store.new ≡ carved store.old class (page_of store.old class) }
    ensures sound { Sound store.new }
    ensures chunks { 1 ≤ length (free_of store.new class) }
    ensures leads { Leads undo.old store.old undo.new store.new }
    ensures room { undo.new.room ≡ undo.old.room }
    ensures made { length undo.new.moves ≡ length undo.old.moves + 1 }
    ensures told { Tells undo.old store.old undo.new store.new [] }
{
    change(
        store,
        Change::Lay(page.page, class, page.parts, page.form),
        undo,
    );
}
