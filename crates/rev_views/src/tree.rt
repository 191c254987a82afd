//! The commands of the tree.
ghost use Rattle.std.specs.Prelude.{◌≡◌, ◌++◌, OnOk};
ghost use Rattle.rev_tree.specs.Rows.{parent_of, row_of};
ghost use Rattle.rev_texts.specs.Texts.{parent_text};
ghost use Rattle.rev_views.specs.Trees.{gone_to, child_at, child_text, trip_text, go_text, gone, pruned_text, prune_text, after_prune, row_text, tree_text};

use rev_texts::text::{put_field, put_node, put_number, put_output};
use rev_texts::words::{outcome_word, step_word};
use rev_undotree::{NodeId, PruneFault, Session};
use std::alloc::{AllocError, Allocator};

/// Goes back to the parent, and writes its number.
pub fn put_back<A: Allocator + Clone>(
    session: &mut Session<A>,
    out: &mut Vec<u8, A>,
) -> Result<(), AllocError>
    ensures text { OnOk result (out.new.items ≡ out.old.items ++ parent_text (parent_of session.old.rows session.old.current)) }
    ensures session { session.new ≡ gone_to session.old (parent_of session.old.rows session.old.current) }
{
    match session.back() {
        Ok(node) => put_node(out, node.0),
        Err(_) => put_output(out, b"ROOT"),
    }
}

/// Goes to the child of this place, counted from 0, and writes its number.
pub fn put_forward<A: Allocator + Clone>(
    session: &mut Session<A>,
    index: u32,
    out: &mut Vec<u8, A>,
) -> Result<(), AllocError>
    ensures text { OnOk result (out.new.items ≡ out.old.items ++ child_text (child_at session.old index)) }
    ensures session { session.new ≡ gone_to session.old (child_at session.old index) }
{
    match session.forward(index as usize) {
        Ok(node) => put_node(out, node.0),
        Err(_) => put_output(out, b"NOCHILD"),
    }
}

// Writes where a trip arrived, and how many records it turned.
fn put_trip<A: Allocator>(out: &mut Vec<u8, A>, node: NodeId, turns: u32) -> Result<(), AllocError>
    ensures { OnOk result (out.new.items ≡ out.old.items ++ trip_text node.0 turns) }
{
    put_field(out, b"NODE ", node.0 as u64)?;
    put_field(out, b" TURNS ", turns as u64)?;
    out.extend_from_slice(b"\r\n")
}

/// Goes to a node, and writes how many records that turned.
pub fn put_go<A: Allocator + Clone>(
    session: &mut Session<A>,
    node: NodeId,
    out: &mut Vec<u8, A>,
) -> Result<(), AllocError>
    ensures text { OnOk result (out.new.items ≡ out.old.items ++ go_text session.old node.0) }
    ensures session { session.new ≡ gone session.old node.0 }
{
    match session.go(node) {
        Ok(turns) => put_trip(out, node, turns),
        Err(_) => put_output(out, b"NONODE"),
    }
}

fn put_pruned<A: Allocator>(out: &mut Vec<u8, A>, node: NodeId) -> Result<(), AllocError>
    ensures { OnOk result (out.new.items ≡ out.old.items ++ pruned_text node.0) }
{
    put_field(out, b"PRUNED ", node.0 as u64)?;
    out.extend_from_slice(b"\r\n")
}

/// Takes a node and all below it out of the tree.
pub fn put_prune<A: Allocator + Clone>(
    session: &mut Session<A>,
    node: NodeId,
    out: &mut Vec<u8, A>,
) -> Result<(), AllocError>
    ensures text { OnOk result (out.new.items ≡ out.old.items ++ prune_text session.old node.0) }
    ensures session { session.new ≡ after_prune session.old node.0 }
{
    match session.prune(node) {
        Ok(()) => put_pruned(out, node),
        Err(PruneFault::NoNode) => put_output(out, b"NONODE"),
        Err(PruneFault::IsRoot) => put_output(out, b"ROOT"),
        Err(PruneFault::OnPath) => put_output(out, b"ONPATH"),
    }
}

// Writes the line of a node, where it is held.
fn put_row<A: Allocator + Clone>(
    session: &Session<A>,
    node: NodeId,
    out: &mut Vec<u8, A>,
) -> Result<(), AllocError>
    ensures { OnOk result (out.new.items ≡ out.old.items ++ row_text session.now node.0 (row_of session.now.rows node.0)) }
{
    let Some((parent, step, outcome)) = session.row_with_parent(node) else {
        return Ok(());
    };
    put_number(out, node.0 as u64)?;
    put_field(out, b" ", parent.0 as u64)?;
    out.extend_from_slice(b" ")?;
    out.extend_from_slice(step_word(step))?;
    out.extend_from_slice(b" ")?;
    put_output(out, outcome_word(outcome))
}

/// Writes a line for each node that is held, by its number, and `END`.
pub fn put_tree<A: Allocator + Clone>(
    session: &Session<A>,
    out: &mut Vec<u8, A>,
) -> Result<(), AllocError>
    ensures { OnOk result (out.new.items ≡ out.old.items ++ tree_text session.now) }
{
    put_output(out, b"0 - root -")?;
    for number in 0..session.issued() {
        put_row(session, NodeId(number + 1), out)?;
    }
    put_output(out, b"END")
}
