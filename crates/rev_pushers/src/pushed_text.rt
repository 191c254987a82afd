//! Who pushed a key out, as text for people.
ghost use Rattle.std.specs.Prelude.{◌≡◌, ◌++◌, OnOk, map};
ghost use Rattle.std.specs.Option.{option_map};
ghost use Rattle.rev_pushers.specs.Pushed.{plain_share, plain_pushed};
ghost use Rattle.rev_pushers.specs.PushedTexts as rule;

use crate::pieces::{Piece, put};
use crate::pushed::{Amount, ConnectionShare, Earlier, PrefixShare, PushedBy};
use crate::stored::Stored;
use std::alloc::{AllocError, Allocator};

// How a prefix is told.
fn prefix_name(prefix: &[u8]) -> &[u8]
    ensures { result.now ≡ rule.prefix_name prefix.now }
{
    if prefix.is_empty() {
        b"(no prefix):"
    } else {
        prefix
    }
}

// What stands between a prefix and what was stored under it.
fn gap_behind(prefix: &[u8]) -> &'static str
    ensures { result.now ≡ rule.gap_behind prefix.now }
{
    if prefix.is_empty() || prefix.ends_with(b":") {
        " "
    } else {
        ": "
    }
}

fn items_word(items: u64) -> &'static str
    ensures { result.now ≡ rule.items_word items }
{
    if items == 1 { " item, " } else { " items, " }
}

fn bytes_word(bytes: u64) -> &'static str
    ensures { result.now ≡ rule.bytes_word bytes }
{
    if bytes == 1 { " byte" } else { " bytes" }
}

fn put_amount<A: Allocator + Copy>(
    alloc: A,
    out: &mut Vec<u8, A>,
    amount: Amount,
) -> Result<(), AllocError>
    ensures { OnOk result (out.new.items ≡ out.old.items ++ rule.amount_text amount) }
{
    put(
        alloc,
        out,
        &[
            Piece::Number(amount.items),
            Piece::Text(items_word(amount.items)),
            Piece::Number(amount.bytes),
            Piece::Text(bytes_word(amount.bytes)),
        ],
    )
}

fn put_prefix<A: Allocator + Copy>(
    alloc: A,
    out: &mut Vec<u8, A>,
    prefix: &[u8],
    amount: Amount,
) -> Result<(), AllocError>
    ensures { OnOk result (out.new.items ≡ rule.behind out.old.items (rule.prefix_parts prefix.now amount)) }
{
    put(
        alloc,
        out,
        &[
            Piece::Key(prefix_name(prefix)),
            Piece::Text(gap_behind(prefix)),
        ],
    )?;
    put_amount(alloc, out, amount)?;
    put(alloc, out, &[Piece::Text("; ")])
}

fn put_connection<A: Allocator + Copy>(
    alloc: A,
    out: &mut Vec<u8, A>,
    share: ConnectionShare,
) -> Result<(), AllocError>
    ensures { OnOk result (out.new.items ≡ rule.behind out.old.items (rule.connection_parts share)) }
{
    put(
        alloc,
        out,
        &[Piece::Connection(share.connection), Piece::Text(": ")],
    )?;
    put_amount(alloc, out, share.amount)?;
    put(alloc, out, &[Piece::Text("; ")])
}

// Writes prefixes with what was stored under each.
fn put_prefixes<A: Allocator + Copy, B: Allocator>(
    alloc: A,
    out: &mut Vec<u8, A>,
    shares: &[PrefixShare<B>],
) -> Result<(), AllocError>
    ensures { OnOk result (out.new.items ≡ rule.with_prefixes out.old.items (map plain_share shares.now)) }
{
    for share in shares {
        put_prefix(alloc, out, share.prefix.as_slice(), share.amount)?;
    }
    Ok(())
}

// Writes the prefixes that are told.
fn put_told_prefixes<A: Allocator + Copy, B: Allocator>(
    alloc: A,
    out: &mut Vec<u8, A>,
    pushed: &PushedBy<B>,
) -> Result<(), AllocError>
    ensures { OnOk result (out.new.items ≡ rule.with_prefixes out.old.items (map plain_share pushed.now.prefixes.items)) }
{
    put_prefixes(alloc, out, pushed.prefixes.as_slice())
}

// Writes connections with what each of them stored.
fn put_connections<A: Allocator + Copy>(
    alloc: A,
    out: &mut Vec<u8, A>,
    shares: &[ConnectionShare],
) -> Result<(), AllocError>
    ensures { OnOk result (out.new.items ≡ rule.with_connections out.old.items shares.now) }
{
    for share in shares {
        put_connection(alloc, out, *share)?;
    }
    Ok(())
}

// Writes what all others stored, and ends the line.
fn put_others<A: Allocator + Copy>(
    alloc: A,
    out: &mut Vec<u8, A>,
    amount: Amount,
) -> Result<(), AllocError>
    ensures { OnOk result (out.new.items ≡ rule.behind out.old.items (rule.others_parts amount)) }
{
    put(alloc, out, &[Piece::Text("others: ")])?;
    put_amount(alloc, out, amount)?;
    put(alloc, out, &[Piece::Text("\n")])
}

// From when on it is counted.
fn since_word(logged: bool) -> &'static str
    ensures { result.now ≡ rule.since_word logged }
{
    if logged {
        " since, by prefix: "
    } else {
        " since the log begins, by prefix: "
    }
}

// Writes the line of prefixes.
fn put_by_prefix<A: Allocator + Copy, B: Allocator>(
    alloc: A,
    out: &mut Vec<u8, A>,
    stored: Stored,
    pushed: &PushedBy<B>,
) -> Result<(), AllocError>
    ensures { OnOk result (out.new.items ≡ rule.with_by_prefix out.old.items stored (plain_pushed pushed.now)) }
{
    put(
        alloc,
        out,
        &[
            Piece::Text("  stored in class "),
            Piece::Number(stored.class as u64),
            Piece::Text(since_word(stored.logged)),
        ],
    )?;
    put_told_prefixes(alloc, out, pushed)?;
    put_others(alloc, out, pushed.other_prefixes)
}

// Writes the line of connections.
fn put_by_connection<A: Allocator + Copy, B: Allocator>(
    alloc: A,
    out: &mut Vec<u8, A>,
    pushed: &PushedBy<B>,
) -> Result<(), AllocError>
    ensures { OnOk result (out.new.items ≡ rule.with_by_connection out.old.items (plain_pushed pushed.now)) }
{
    put(alloc, out, &[Piece::Text("  by connection: ")])?;
    put_connections(alloc, out, pushed.connections.as_slice())?;
    put_others(alloc, out, pushed.other_connections)
}

// Writes how long evicted items had lived some time before, where that is known, and ends the line.
fn put_earlier<A: Allocator + Copy>(
    alloc: A,
    out: &mut Vec<u8, A>,
    earlier: Option<Earlier>,
) -> Result<(), AllocError>
    ensures { OnOk result (out.new.items ≡ out.old.items ++ rule.earlier_text earlier) }
{
    match earlier {
        Some(earlier) => put(
            alloc,
            out,
            &[
                Piece::Text("; "),
                Piece::Seconds(earlier.ago),
                Piece::Text(" s before: "),
                Piece::Seconds(earlier.lived),
                Piece::Text(" s\n"),
            ],
        ),
        None => put(alloc, out, &[Piece::Text("\n")]),
    }
}

// Writes how long evicted items had lived, where that is known.
fn put_lived<A: Allocator + Copy>(
    alloc: A,
    out: &mut Vec<u8, A>,
    lived: Option<u64>,
    earlier: Option<Earlier>,
) -> Result<(), AllocError>
    ensures { OnOk result (out.new.items ≡ rule.with_lived out.old.items earlier lived) }
{
    match lived {
        Some(micros) => {
            put(
                alloc,
                out,
                &[
                    Piece::Text("  items evicted there had lived "),
                    Piece::Seconds(micros),
                    Piece::Text(" s (median)"),
                ],
            )?;
            put_earlier(alloc, out, earlier)
        }
        None => Ok(()),
    }
}

// Writes how many pages came and went.
fn put_pages<A: Allocator + Copy>(
    alloc: A,
    out: &mut Vec<u8, A>,
    gained: u64,
    lost: u64,
) -> Result<(), AllocError>
    ensures { OnOk result (out.new.items ≡ out.old.items ++ rule.pages_text gained lost) }
{
    put(
        alloc,
        out,
        &[
            Piece::Text("  pages of the class: "),
            Piece::Number(gained),
            Piece::Text(" gained, "),
            Piece::Number(lost),
            Piece::Text(" lost\n"),
        ],
    )
}

// Writes who pushed a key out.
fn put_all<A: Allocator + Copy, B: Allocator>(
    alloc: A,
    out: &mut Vec<u8, A>,
    stored: Stored,
    pushed: &PushedBy<B>,
) -> Result<(), AllocError>
    ensures { OnOk result (out.new.items ≡ rule.with_all out.old.items stored (plain_pushed pushed.now)) }
{
    put_by_prefix(alloc, out, stored, pushed)?;
    put_by_connection(alloc, out, pushed)?;
    put_lived(alloc, out, pushed.lived, pushed.earlier)?;
    put_pages(alloc, out, pushed.gained, pushed.lost)
}

/// Writes who pushed a key out whose life began with this store, where that is known.
///
/// Err: memory was refused.
pub fn put_pushed<A: Allocator + Copy, B: Allocator>(
    alloc: A,
    out: &mut Vec<u8, A>,
    stored: Stored,
    pushed: Option<&PushedBy<B>>,
) -> Result<(), AllocError>
    ensures { OnOk result (out.new.items ≡ rule.with_pushed out.old.items stored (option_map (λ p. plain_pushed p.now) pushed.entry)) }
{
    match pushed {
        Some(pushed) => put_all(alloc, out, stored, pushed),
        None => Ok(()),
    }
}
