//! The store, what it holds, and the two ways to change it: a change that is made, a record that is turned.
use rev_classes::ClassTable;
use rev_index::Index;
use rev_model::{BumpEntry, Globals};
use rev_pages::Pages;
use rev_queues::Queues;
use std::alloc::Allocator;
use std::collections::VecDeque;
use std::marker::Model;

/// A store. It takes memory when it is opened, for the slots of a page (`parts`) and for more buckets of its index
/// (`widen`, and `narrow` gives it back), and at no other time.
#[derive(Drop)]
pub struct Store<A: Allocator> {
    pub(crate) pages: Pages<A>,
    pub(crate) queues: Queues<A>,
    pub(crate) index: Index<A>,
    pub(crate) bump: VecDeque<BumpEntry, A>,
    pub(crate) counters: Vec<u64, A>,
    pub(crate) globals: Globals,
    pub(crate) table: ClassTable,
    pub(crate) page_limit: usize,
    pub(crate) bump_room: usize,
    pub(crate) alloc: A,
}

impl<A: Allocator> Model for Store<A> {
    ghost use Rattle.std.specs.Prelude.{map};
    ghost use Rattle.std.specs.VecDeque.{deque_capacity};
    ghost use Rattle.std.specs.Coded.{codes};
    ghost use Rattle.rev_model.specs.Codes.{coded_contents, coded_keys};
    ghost use Rattle.rev_model.specs.State.{State};
    ghost use Rattle.rev_queues.specs.Entries.{entries};
    ghost use Rattle.rev_inverse.specs.Fitted.{Fitted};

    ghost Value = { State };

    ghost coded = { Prim.hlevel (codes, coded_contents, coded_keys) };

    ghost view = { λ s. record {
      owner = s.pages.owner;
      free = s.pages.free;
      queues = map entries s.queues.queues;
      content = s.index.content;
      index = s.index.keys;
      bump = s.bump.items;
      counters = s.counters.items;
      globals = s.globals;
      fixed = record { page_size = s.table.page_size; sizes = s.table.sizes; limit = s.page_limit; bump_room = s.bump_room };
    } };

    ghost invariant = { λ s. Fitted
        record { page_size = s.table.page_size; sizes = s.table.sizes; limit = s.page_limit; bump_room = s.bump_room }
        s.pages s.queues s.index (deque_capacity s.bump) };
}
