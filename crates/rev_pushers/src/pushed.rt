//! Who pushed a key out: what was stored into its class while it was held.
ghost use Rattle.std.specs.Prelude.{◌≡◌, ◌<◌, ◌==◌, IfSome, length};
ghost use Rattle.std.specs.List.{position};
ghost use Rattle.rev_pushers.specs.Pushed as rule;

use std::alloc::Allocator;

/// The byte that ends a prefix where no other is asked for.
pub const COLON: u8 = b':';

/// Items that were stored, and the bytes of their data, as the log says them.
#[derive(Clone, Copy)]
pub struct Amount {
    pub items: u64,
    pub bytes: u64,
}

/// What was stored under a prefix: a key's bytes up to the first one that ends a prefix and with it. Keys without one
/// have an empty prefix.
#[derive(Drop)]
pub struct PrefixShare<A: Allocator> {
    pub prefix: Vec<u8, A>,
    pub amount: Amount,
}

/// What was stored by a connection.
#[derive(Clone, Copy)]
pub struct ConnectionShare {
    pub connection: Option<i32>,
    pub amount: Amount,
}

/// How long evicted items of a class had lived some time before: the median, and how long before, in microseconds.
#[derive(Clone, Copy)]
pub struct Earlier {
    pub lived: u64,
    pub ago: u64,
}

/// What was stored into the class of a key while the key was held, and how things stood in that class when it left.
#[derive(Drop)]
pub struct PushedBy<A: Allocator> {
    /// The largest by items, the largest first.
    pub prefixes: Vec<PrefixShare<A>, A>,
    /// What was stored under all others.
    pub other_prefixes: Amount,
    /// The largest by items, the largest first.
    pub connections: Vec<ConnectionShare, A>,
    /// What was stored by all others.
    pub other_connections: Amount,
    /// How many microseconds evicted items of the class had lived when the key left: the median of the last ones.
    pub lived: Option<u64>,
    /// The same some time before.
    pub earlier: Option<Earlier>,
    /// The pages that the class gained and lost while the key was held.
    pub gained: u64,
    pub lost: u64,
}

/// No items.
pub const NOTHING: Amount = Amount { items: 0, bytes: 0 };

impl Amount {
    /// The same with one more item of so many bytes.
    pub fn with(self, size: u32) -> Amount
        ensures { result ≡ rule.with_item size self }
    {
        Amount {
            items: self.items.saturating_add(1),
            bytes: self.bytes.saturating_add(u64::from(size)),
        }
    }

    /// The same without these.
    pub fn without(self, less: Amount) -> Amount
        ensures { result ≡ rule.without less self }
    {
        Amount {
            items: self.items.saturating_sub(less.items),
            bytes: self.bytes.saturating_sub(less.bytes),
        }
    }

    /// Whether there are more items than there, or as many with more bytes.
    pub fn is_above(self, other: Amount) -> bool
        ensures { result ≡ rule.is_above self other }
    {
        if self.items == other.items {
            self.bytes > other.bytes
        } else {
            self.items > other.items
        }
    }
}

// The place of the first byte of a key that ends a prefix.
fn end_in(key: &[u8], end: u8) -> Option<usize>
    ensures place { result ≡ position (λ b. b == end) key.now }
    ensures within { IfSome result (λ place. place < length key.now) }
{
    key.iter().position(|byte| *byte == end)
}

// The front of a key up to a place and with it, and nothing where there is none.
fn cut_behind(key: &[u8], place: Option<usize>) -> &[u8]
    requires { IfSome place (λ p. p < length key.now) }
    ensures { result.now ≡ rule.cut_behind key.now place }
{
    match place {
        Some(place) => &key[..place + 1],
        None => &[],
    }
}

/// The prefix of a key: its bytes up to the first one that ends a prefix and with it, and none where it has no such byte.
pub fn prefix_of(key: &[u8], end: u8) -> &[u8]
    ensures { result.now ≡ rule.prefix_of end key.now }
{
    cut_behind(key, end_in(key, end))
}
