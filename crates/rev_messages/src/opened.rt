//! What is told of a session that was opened in the middle of logs.
ghost use Rattle.std.specs.Prelude.{◌≡◌, ◌++◌, OnOk};
ghost use Rattle.rev_messages.specs.Opened as rule;

use itoa::Buffer;
use std::alloc::{AllocError, Allocator};

/// Where a session stands that was opened in the middle of logs.
#[derive(Clone, Copy, Debug, PartialEq, Eq)]
pub struct OpenedAt {
    /// How many steps stand in front of node 0, over all lives of the server, and how many there are.
    pub root: u64,
    pub steps: u64,
    /// The second of the last event in front of node 0, by the Unix clock.
    pub second: u32,
    /// The node that the session stands at.
    pub node: u32,
}

// Puts a text, and the digits of a number, behind what was put before.
fn put_number<A: Allocator>(
    out: &mut Vec<u8, A>,
    front: &[u8],
    number: u64,
) -> Result<(), AllocError>
    ensures { OnOk result (out.new.items ≡ out.old.items ++ rule.number_text front.now number) }
{
    let mut digits = Buffer::new();
    out.extend_from_slice(front)?;
    out.extend_from_slice(digits.format(number).as_bytes())
}

/// Puts where the session stands behind a text, for people.
///
/// Err: memory was refused.
pub fn put_opened<A: Allocator>(out: &mut Vec<u8, A>, opened: OpenedAt) -> Result<(), AllocError>
    ensures { OnOk result (out.new.items ≡ rule.with_opened out.old.items opened) }
{
    put_number(out, b"node 0 is step ", opened.root)?;
    put_number(out, b" of ", opened.steps)?;
    put_number(out, b", @", u64::from(opened.second))?;
    put_number(
        out,
        b"; the session stands at node ",
        u64::from(opened.node),
    )
}

/// Puts where the session stands behind a text, as a line of JSON: the object of no line that was read.
///
/// Err: memory was refused.
pub fn put_opened_object<A: Allocator>(
    out: &mut Vec<u8, A>,
    opened: OpenedAt,
) -> Result<(), AllocError>
    ensures { OnOk result (out.new.items ≡ rule.with_object out.old.items opened) }
{
    put_number(out, b"{\"line\":0,\"node\":", u64::from(opened.node))?;
    put_number(
        out,
        b",\"command\":null,\"answer\":[{\"kind\":\"OPENED\",\"root\":",
        opened.root,
    )?;
    put_number(out, b",\"steps\":", opened.steps)?;
    put_number(out, b",\"ts\":", u64::from(opened.second))?;
    out.extend_from_slice(b"}]}\n")
}
