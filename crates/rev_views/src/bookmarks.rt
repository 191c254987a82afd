//! Names for nodes.
ghost use Rattle.std.specs.Prelude.{◌≡◌, ◌++◌, [], OnOk, OnErr};
ghost use Rattle.std.specs.Option.{option_map};
ghost use Rattle.rev_views.specs.Bookmarks.{bookmarked, with_bookmark, bookmarked_text, bookmarks_text};

use indexmap::IndexMap;
use rev_texts::text::{put_field, put_output};
use rev_undotree::NodeId;
use std::alloc::{AllocError, Allocator};
use std::hash::{BuildHasherDefault, FoldHasher};
use std::marker::Model;

/// Names for nodes, in the order in which they were first given.
#[derive(Drop)]
pub struct Bookmarks<'a, A: Allocator> {
    nodes: IndexMap<Vec<u8, A>, NodeId, BuildHasherDefault<FoldHasher>, &'a A>,
}

impl<'a, A: Allocator> Model for Bookmarks<'a, A> {
    ghost use Rattle.std.specs.Prelude.{ℕ, List};
    ghost use Rattle.std.specs.Coded.{codes};
    ghost use Rattle.rev_views.specs.Bookmarked.{plain_bookmarks};

    ghost Value = { List (List ℕ × ℕ) };

    ghost coded = { Prim.hlevel codes };

    ghost view = { λ b. plain_bookmarks b.nodes.entries };
}

impl<'a, A: Allocator> Bookmarks<'a, A> {
    /// No bookmarks. Memory is taken at the first.
    pub fn new(alloc: &'a A) -> Bookmarks<'a, A>
        ensures { result ≡ [] }
    {
        Bookmarks {
            nodes: IndexMap::new(alloc),
        }
    }

    /// The node of a name.
    pub fn get(&self, name: &[u8]) -> Option<NodeId>
        ensures { option_map (λ n. n.0) result ≡ bookmarked self.now name.now }
    {
        self.nodes.get(name).copied()
    }

    /// Gives a node a name. A name that is there keeps its place, and is now that of this node.
    ///
    /// Err: a growth was refused, and nothing is changed.
    pub fn set(&mut self, name: Vec<u8, A>, node: NodeId) -> Result<(), AllocError>
        ensures ok { OnOk result (self.new ≡ with_bookmark self.old name.items node.0) }
        ensures err { OnErr result (self.new ≡ self.old) }
    {
        self.nodes.insert(name, node)?;
        Ok(())
    }

    /// Writes a line for each bookmark in their order, and `END`.
    pub fn put_all<B: Allocator>(&self, out: &mut Vec<u8, B>) -> Result<(), AllocError>
        ensures { OnOk result (out.new.items ≡ out.old.items ++ bookmarks_text self.now) }
    {
        for (name, node) in self.nodes.iter() {
            put_bookmark_line(out, name.as_slice(), *node)?;
        }
        put_output(out, b"END")
    }
}

/// Writes a bookmark's line.
pub fn put_bookmark_line<A: Allocator>(
    out: &mut Vec<u8, A>,
    name: &[u8],
    node: NodeId,
) -> Result<(), AllocError>
    ensures { OnOk result (out.new.items ≡ out.old.items ++ bookmarked_text name.now node.0) }
{
    out.extend_from_slice(b"MARK ")?;
    out.extend_from_slice(name)?;
    put_field(out, b" ", node.0 as u64)?;
    out.extend_from_slice(b"\r\n")
}
