//! Whether a key is held alive.
ghost use Rattle.std.specs.Prelude.{◌≡◌};
ghost use Rattle.rev_tree.specs.Rows.{at};
ghost use Rattle.rev_life.specs.Alive as rule;
ghost use Rattle.rev_model.specs.State.{item_at};

use rev_inverse::Store;
use rev_items::Key;
use rev_model::ChunkRef;
use rev_undotree::Session;
use std::alloc::Allocator;

// Whether a chunk's item is dead.
fn is_dead_in<A: Allocator>(store: &Store<A>, chunk: ChunkRef) -> bool
    ensures { result ≡ rule.is_dead_item store.now (item_at store.now chunk) }
{
    match store.content(chunk) {
        Some(item) => {
            let globals = store.globals();
            item.is_dead(globals.clock, globals.flush_limit)
        }
        None => false,
    }
}

/// Whether the key's item is held, and dead.
pub fn is_dead<A: Allocator + Clone>(session: &Session<A>, key: &Key<A>) -> bool
    ensures { result ≡ rule.is_dead (at session.now.root session.now.rows session.now.current) key.now }
{
    let store = session.store();
    match store.find(key) {
        Some(chunk) => is_dead_in(store, chunk),
        None => false,
    }
}

/// Whether the key is held, and its item is not dead.
pub fn is_alive<A: Allocator + Clone>(session: &Session<A>, key: &Key<A>) -> bool
    ensures { result ≡ rule.is_alive (at session.now.root session.now.rows session.now.current) key.now }
{
    let store = session.store();
    match store.find(key) {
        Some(chunk) => !is_dead_in(store, chunk),
        None => false,
    }
}
