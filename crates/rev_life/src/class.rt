//! From which slab class a key left.
ghost use Rattle.std.specs.Prelude.{◌≡◌, IfSome};
ghost use Rattle.rev_inverse.specs.Record.{plain_change};
ghost use Rattle.rev_life.specs.Class as rule;

use rev_evidence::keys::is_key;
use rev_inverse::{Change, RecordRef};
use rev_items::{Item, Key};
use rev_model::Cause;
use rev_undotree::{NodeId, Session};
use std::alloc::Allocator;

// The class, where the item is the key's and a cause is noted.
fn class_if<A: Allocator>(
    item: &Item<A>,
    class: usize,
    cause: Option<Cause>,
    key: &Key<A>,
) -> Option<usize>
    ensures { result ≡ rule.class_if item.now class cause key.now }
{
    match cause {
        Some(_) => {
            if is_key(item.key(), key) {
                Some(class)
            } else {
                None
            }
        }
        None => None,
    }
}

// The class that a key left, where the change undoes that.
fn class_in<A: Allocator>(undo: &Change<A>, key: &Key<A>) -> Option<usize>
    ensures { result ≡ rule.class_in (plain_change undo.now) key.now }
{
    match undo {
        Change::Enter {
            item,
            class,
            cause,
            ..
        } => class_if(item, *class, *cause, key),
        Change::Revive {
            item,
            class,
            cause,
            ..
        } => class_if(item, *class, *cause, key),
        _ => None,
    }
}

// The class that a key left at a step with this record.
fn class_by<A: Allocator>(trace: &RecordRef<A>, key: &Key<A>) -> Option<usize>
    ensures { result ≡ rule.class_by trace.now.changes key.now }
{
    for i in 0..trace.len() {
        match trace.change(i) {
            None => {}
            Some(undo) => match class_in(undo, key) {
                Some(class) => return Some(class),
                None => {}
            },
        }
    }
    None
}

/// The slab class that a key left at a node, in a session in which no step was undone and none forks off: that into
/// which the node's record puts the key's item back. None where it did not leave there.
pub fn class_left<A: Allocator + Clone>(
    session: &Session<A>,
    node: NodeId,
    key: &Key<A>,
) -> Option<usize>
    ensures { IfSome result (λ class. rule.IsLeft session.now node.0 key.now class) }
{
    match session.trail(node.0 as usize) {
        Some((at, _, _, trace)) if at == node => class_by(&trace, key),
        _ => None,
    }
}
