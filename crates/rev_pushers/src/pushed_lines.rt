//! Who pushed a key out, as JSON.
ghost use Rattle.std.specs.Prelude.{◌≡◌, ◌++◌, OnOk, map};
ghost use Rattle.std.specs.Option.{option_map};
ghost use Rattle.rev_pushers.specs.Parts.{part_tokens};
ghost use Rattle.rev_pushers.specs.Pushed.{plain_share, plain_pushed};
ghost use Rattle.rev_pushers.specs.PushedLines as rule;

use crate::parts::{Part, put_parts};
use crate::pushed::{Amount, ConnectionShare, Earlier, PrefixShare, PushedBy};
use json::Writer;
use std::alloc::{AllocError, Allocator};

// How a prefix is told.
fn prefix_part(prefix: &[u8]) -> Part<'_>
    ensures { part_tokens result ≡ rule.prefix_tokens prefix.now }
{
    if prefix.is_empty() {
        Part::Null
    } else {
        Part::Key(prefix)
    }
}

fn put_prefix<A: Allocator + Copy>(
    alloc: A,
    out: &mut Writer<A>,
    prefix: &[u8],
    amount: Amount,
) -> Result<(), AllocError>
    ensures tokens { OnOk result (out.new.tokens ≡ out.old.tokens ++ rule.share_tokens prefix.now amount) }
    ensures before { OnOk result (out.new.before ≡ out.old.before) }
{
    put_parts(
        alloc,
        out,
        &[
            Part::Open,
            Part::Name("prefix"),
            prefix_part(prefix),
            Part::Name("items"),
            Part::Number(amount.items),
            Part::Name("bytes"),
            Part::Number(amount.bytes),
            Part::Close,
        ],
    )
}

fn put_connection<A: Allocator + Copy>(
    alloc: A,
    out: &mut Writer<A>,
    share: ConnectionShare,
) -> Result<(), AllocError>
    ensures tokens { OnOk result (out.new.tokens ≡ out.old.tokens ++ rule.connection_tokens share) }
    ensures before { OnOk result (out.new.before ≡ out.old.before) }
{
    put_parts(
        alloc,
        out,
        &[
            Part::Open,
            Part::Name("connection"),
            Part::Connection(share.connection),
            Part::Name("items"),
            Part::Number(share.amount.items),
            Part::Name("bytes"),
            Part::Number(share.amount.bytes),
            Part::Close,
        ],
    )
}

// Puts prefixes with what was stored under each.
fn put_prefixes<A: Allocator + Copy, B: Allocator>(
    alloc: A,
    out: &mut Writer<A>,
    shares: &[PrefixShare<B>],
) -> Result<(), AllocError>
    ensures tokens { OnOk result (out.new.tokens ≡ out.old.tokens ++ rule.shares_tokens (map plain_share shares.now)) }
    ensures before { OnOk result (out.new.before ≡ out.old.before) }
{
    for share in shares {
        put_prefix(alloc, out, share.prefix.as_slice(), share.amount)?;
    }
    Ok(())
}

// Puts the prefixes that are told.
fn put_told_prefixes<A: Allocator + Copy, B: Allocator>(
    alloc: A,
    out: &mut Writer<A>,
    pushed: &PushedBy<B>,
) -> Result<(), AllocError>
    ensures tokens { OnOk result (out.new.tokens ≡ out.old.tokens ++ rule.shares_tokens (map plain_share pushed.now.prefixes.items)) }
    ensures before { OnOk result (out.new.before ≡ out.old.before) }
{
    put_prefixes(alloc, out, pushed.prefixes.as_slice())
}

// Puts connections with what each of them stored.
fn put_connections<A: Allocator + Copy>(
    alloc: A,
    out: &mut Writer<A>,
    shares: &[ConnectionShare],
) -> Result<(), AllocError>
    ensures tokens { OnOk result (out.new.tokens ≡ out.old.tokens ++ rule.connections_tokens shares.now) }
    ensures before { OnOk result (out.new.before ≡ out.old.before) }
{
    for share in shares {
        put_connection(alloc, out, *share)?;
    }
    Ok(())
}

// Puts what all others stored, by prefix and by connection.
fn put_others<A: Allocator + Copy>(
    alloc: A,
    out: &mut Writer<A>,
    prefixes: Amount,
    connections: Amount,
) -> Result<(), AllocError>
    ensures tokens { OnOk result (out.new.tokens ≡ out.old.tokens ++ rule.others_tokens prefixes connections) }
    ensures before { OnOk result (out.new.before ≡ out.old.before) }
{
    put_parts(
        alloc,
        out,
        &[
            Part::CloseList,
            Part::Name("others"),
            Part::Open,
            Part::Name("prefixes"),
            Part::Open,
            Part::Name("items"),
            Part::Number(prefixes.items),
            Part::Name("bytes"),
            Part::Number(prefixes.bytes),
            Part::Close,
            Part::Name("connections"),
            Part::Open,
            Part::Name("items"),
            Part::Number(connections.items),
            Part::Name("bytes"),
            Part::Number(connections.bytes),
            Part::Close,
            Part::Close,
        ],
    )
}

// How long evicted items had lived some time before.
fn lived_before(earlier: Option<Earlier>) -> Option<u64>
    ensures { result ≡ rule.lived_before earlier }
{
    match earlier {
        Some(earlier) => Some(earlier.lived),
        None => None,
    }
}

// How long before that was.
fn ago(earlier: Option<Earlier>) -> Option<u64>
    ensures { result ≡ rule.ago earlier }
{
    match earlier {
        Some(earlier) => Some(earlier.ago),
        None => None,
    }
}

// Puts how long evicted items had lived.
fn put_lived<A: Allocator + Copy>(
    alloc: A,
    out: &mut Writer<A>,
    lived: Option<u64>,
    earlier: Option<Earlier>,
) -> Result<(), AllocError>
    ensures tokens { OnOk result (out.new.tokens ≡ out.old.tokens ++ rule.lived_tokens lived earlier) }
    ensures before { OnOk result (out.new.before ≡ out.old.before) }
{
    put_parts(
        alloc,
        out,
        &[
            Part::Name("lived"),
            Part::Seconds(lived),
            Part::Name("lived_before"),
            Part::Seconds(lived_before(earlier)),
            Part::Name("before"),
            Part::Seconds(ago(earlier)),
        ],
    )
}

// Puts how many pages came and went.
fn put_pages<A: Allocator + Copy>(
    alloc: A,
    out: &mut Writer<A>,
    gained: u64,
    lost: u64,
) -> Result<(), AllocError>
    ensures tokens { OnOk result (out.new.tokens ≡ out.old.tokens ++ rule.pages_tokens gained lost) }
    ensures before { OnOk result (out.new.before ≡ out.old.before) }
{
    put_parts(
        alloc,
        out,
        &[
            Part::Name("pages_gained"),
            Part::Number(gained),
            Part::Name("pages_lost"),
            Part::Number(lost),
            Part::Close,
        ],
    )
}

// Puts what was stored, by prefix and by connection.
fn put_shares<A: Allocator + Copy, B: Allocator>(
    alloc: A,
    out: &mut Writer<A>,
    pushed: &PushedBy<B>,
) -> Result<(), AllocError>
    ensures tokens { OnOk result (out.new.tokens ≡ rule.behind out.old.tokens (rule.stored_parts (plain_pushed pushed.now))) }
    ensures before { OnOk result (out.new.before ≡ out.old.before) }
{
    put_parts(
        alloc,
        out,
        &[
            Part::Name("pushed_by"),
            Part::Open,
            Part::Name("prefixes"),
            Part::OpenList,
        ],
    )?;
    put_told_prefixes(alloc, out, pushed)?;
    put_parts(
        alloc,
        out,
        &[Part::CloseList, Part::Name("connections"), Part::OpenList],
    )?;
    put_connections(alloc, out, pushed.connections.as_slice())?;
    put_others(alloc, out, pushed.other_prefixes, pushed.other_connections)
}

// Puts who pushed a key out.
fn put_all<A: Allocator + Copy, B: Allocator>(
    alloc: A,
    out: &mut Writer<A>,
    pushed: &PushedBy<B>,
) -> Result<(), AllocError>
    ensures tokens { OnOk result (out.new.tokens ≡ rule.with_all out.old.tokens (plain_pushed pushed.now)) }
    ensures before { OnOk result (out.new.before ≡ out.old.before) }
{
    put_shares(alloc, out, pushed)?;
    put_lived(alloc, out, pushed.lived, pushed.earlier)?;
    put_pages(alloc, out, pushed.gained, pushed.lost)
}

/// Puts who pushed a key out, or null where that is not known.
///
/// Err: memory was refused.
pub fn put_pushed<A: Allocator + Copy, B: Allocator>(
    alloc: A,
    out: &mut Writer<A>,
    pushed: Option<&PushedBy<B>>,
) -> Result<(), AllocError>
    ensures tokens { OnOk result (out.new.tokens ≡ rule.with_pushed out.old.tokens (option_map (λ p. plain_pushed p.now) pushed.entry)) }
    ensures before { OnOk result (out.new.before ≡ out.old.before) }
{
    match pushed {
        Some(pushed) => put_all(alloc, out, pushed),
        None => put_parts(alloc, out, &[Part::Name("pushed_by"), Part::Null]),
    }
}
