//! What a user may choose of an import: how often the LRU maintainer comes, which keys are taken, and the growth factor
//! that a server had. And for which loss of keys logs are asked.
#![tactic(auto)]

mod loss;

ghost use Rattle.std.specs.Prelude.{◌≡◌};
ghost use Rattle.rev_choices.specs.Sample.{takes, page_size};

pub use loss::Loss;
use rev_items::Key;
use std::alloc::Allocator;

/// How often the LRU maintainer comes between a client's requests: a server's log does not tell.
#[derive(Clone, Copy, Debug, PartialEq, Eq)]
pub enum Rhythm {
    /// Never.
    None,
    /// Behind each line that stores, a pull of HOT and one of WARM in its class; behind each tenth other line of a
    /// client, a step on the bump queue.
    Lean,
    /// Behind each line of a client whose number is a multiple of this one, a pull of HOT and one of WARM in each class
    /// that was stored in, and a step on the bump queue. 0 is never.
    Every(u32),
}

/// A growth factor of chunk sizes, numerator and denominator.
#[derive(Clone, Copy, Debug, PartialEq, Eq)]
pub struct Factor {
    pub num: u32,
    pub den: u32,
}

/// The least bytes of a page.
pub const LEAST_PAGE: u32 = 256;

/// A sample: all that is asked of one key of so many, and nothing of the others, in a cache that is as much smaller.
#[derive(Clone, Copy, Debug, PartialEq, Eq)]
pub struct Sample {
    pub one_of: u32,
}

impl Sample {
    /// Whether a key is taken: whether its hash is in the first of so many equal parts of all hashes.
    pub fn takes<A: Allocator>(self, key: &Key<A>) -> bool
        ensures { result ≡ takes self.one_of key.now }
    {
        u64::from(key.hash()) * u64::from(self.one_of) < 1 << 32
    }

    /// The bytes of a page in the place of one of these bytes: so many times fewer, and a multiple of 8. None where
    /// they would be under 256.
    pub fn page_size(self, bytes: u32) -> Option<u32>
        ensures { result ≡ page_size self.one_of bytes }
    {
        if self.one_of <= 1 {
            return Some(bytes);
        }
        let size = bytes / self.one_of;
        if size < LEAST_PAGE {
            None
        } else {
            Some(size / 8 * 8)
        }
    }
}
