//! An item goes from one chunk to another.
ghost use Rattle.std.specs.Prelude.{◌≡◌, ℕ, List, Some, None};
ghost use Rattle.std.specs.FinMap as map;
ghost use Rattle.rev_items.specs.Plain.{PlainItem};
ghost use Rattle.rev_model.specs.Chunk.{HasSlot};
ghost use Rattle.rev_model.specs.State.{WellFormed, WellIndexed};
ghost use Rattle.rev_model.specs.Move as plain;
ghost use Rattle.rev_model.specs.Move.{moved, Possible, carried, rebound, put_at};

use crate::store::Store;
use crate::uncounted::{put_entry, take_entry};
use rev_index::Index;
use rev_items::Item;
use rev_model::{ChunkRef, Entry};
use std::alloc::Allocator;
use std::marker::Brand;
use std::sync::ledger::Blank;

// The item of a chunk goes to an empty one, and its key leads there.
fn carry<A: Allocator>(index: &mut Index<A>, from: ChunkRef, to: ChunkRef)
    requires bound { (i : PlainItem) × (map.get index.old.content from ≡ Some i) × (map.get index.old.keys i.key ≡ Some from) }
    requires empty { map.get index.old.content to ≡ None }
    requires indexed { WellIndexed index.old.content index.old.keys }
    requires from { HasSlot index.old.slots from }
    requires to { HasSlot index.old.slots to }
    ensures { index.new ≡ record index.old {
      content = carried index.old.content from to;
      keys = rebound to (map.get index.old.content from) index.old.keys;
    } }
{
    index.unbind(from);
    let item = index.fill(from, None);
    replace(index, to, item);
    index.bind(to);
}

// A chunk holds something else from now on, and what it held is dropped.
fn replace<A: Allocator>(index: &mut Index<A>, chunk: ChunkRef, item: Option<Item<A>>)
    requires slot { HasSlot index.old.slots chunk }
    requires bound { (k : List ℕ) → map.get index.old.keys k ≡ Some chunk → (i : PlainItem) × (item ≡ Some i) × (i.key ≡ k) }
    ensures { index.new ≡ record index.old { content = put_at index.old.content chunk item } }
{
    let _none = index.fill(chunk, item);
}

impl<A: Allocator> Store<A> {
    pub(crate) fn shift(&mut self, from: ChunkRef, to: ChunkRef)
        requires well { WellFormed self.old }
        requires possible { Possible (plain.Shifts from to) self.old }
        ensures state { self.new ≡ moved (plain.Shifts from to) self.old }
    {
        let footprint = self.footprint(Entry::Chunk(from));
        let class = self.pages.owner(usize::from(from.page));
        let queue = self.queues.queue_with(class, from);
        let before = take_entry::<A, Brand>(
            &mut self.queues,
            class,
            queue,
            Entry::Chunk(from),
            Blank::new(1),
        );
        carry(&mut self.index, from, to);
        put_entry::<A, Brand>(
            &mut self.queues,
            class,
            queue,
            Entry::Chunk(to),
            before,
            footprint,
            Blank::new(1),
        );
    }
}
