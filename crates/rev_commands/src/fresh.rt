//! A new item, and the class that it lies in.
ghost use Rattle.std.specs.Prelude.{◌≡◌, ℕ, ◌≤◌, length, Option, Some, IfOk};
ghost use Rattle.rev_items.specs.Rules.{footprint};
ghost use Rattle.rev_model.specs.Words.{new_item as new_item_of, class_of};
ghost use Rattle.rev_model.specs.Sound.{Sound};
ghost use Rattle.rev_model.specs.State.{IsClass};

use rev_inverse::Store;
use rev_items::{Data, Item, Key, footprint};
use std::alloc::{AllocError, Allocator};

/// The most bytes of an item's data: a page of the largest size holds no more.
const MAX_DATA: usize = 1048576;

/// The slab class of an item of this key with so many bytes of data: the smallest whose chunks hold its footprint.
/// None: no chunk is so large.
pub fn class_for<A: Allocator>(
    store: &Store<A>,
    key: &Key<A>,
    flags: u32,
    data_length: usize,
) -> Option<usize>
    requires sound { Sound store.now }
    ensures class { result ≡ class_of store.now.fixed (footprint (length key.now) flags data_length) }
    ensures within { (c : ℕ) → result ≡ Some c → IsClass store.now.fixed c }
    ensures small { (c : ℕ) → result ≡ Some c → data_length ≤ 1048576 }
{
    if data_length > MAX_DATA {
        return None;
    }
    store
        .table()
        .class_of(footprint(key, flags, data_length as u64))
}

/// A new item of the key, as it is linked: its time is the clock's, and its cas number the next. The key is copied.
///
/// Err: a growth was refused.
pub fn new_item<A: Allocator + Clone>(
    store: &Store<A>,
    key: &Key<A>,
    flags: u32,
    moment: u64,
    value: Data<A>,
) -> Result<Item<A>, AllocError>
    requires { length value ≤ 1048576 }
    ensures { IfOk result (λ item. item ≡ new_item_of store.now key.now value flags moment) }
{
    let key = key.copy(store.alloc()?)?;
    let globals = store.globals();
    let cas = globals.last_cas.wrapping_add(1);
    Item::new(
        store.alloc()?,
        key,
        value,
        flags,
        moment,
        globals.clock,
        cas,
    )
}
