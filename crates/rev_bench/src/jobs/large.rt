//! Many small keys are set, and then each is got once in another order.

use crate::draft::{Draft, Reply, Storage};
use std::alloc::AllocError;

/// Primes above the most keys that there may be: steps of one of them come to each key once.
const STRIDES: [u64; 8] = [
    1000003, 1000033, 1000037, 1000039, 1000081, 1000099, 1000117, 1000121,
];

const SET: Storage = Storage {
    command: b"set",
    flags: 0,
    exptime: 0,
    reply: Reply::Wanted,
};

/// So many keys.
#[derive(Drop)]
pub struct Large {
    count: u64,
    // The key that is got next, and how far the one behind it is.
    next: u64,
    stride: u64,
}

impl Large {
    pub fn new(count: u64) -> Large {
        Large {
            count,
            next: 0,
            stride: 1,
        }
    }

    pub fn turns(&self) -> u64 {
        self.count.saturating_mul(2)
    }

    // Chooses where the gets begin and how far they step.
    fn choose(&mut self, draft: &mut Draft) {
        self.next = draft.random.below(self.count);
        let choice = draft.random.below(8) as usize;
        self.stride = STRIDES.get(choice).copied().unwrap_or(1);
    }

    // The rank of the next key to get.
    fn advance(&mut self) -> u64 {
        let sum = self.next.wrapping_add(self.stride);
        self.next = sum.checked_rem(self.count).unwrap_or(0);
        self.next
    }

    pub fn put(&mut self, draft: &mut Draft, turn: u64) -> Result<(), AllocError> {
        if turn < self.count {
            let size = draft.random.below(9).wrapping_add(6);
            return draft.store(SET, turn, size);
        }
        if turn == self.count {
            self.choose(draft);
        }
        let rank = self.advance();
        draft.keyed(b"get", rank)
    }
}
