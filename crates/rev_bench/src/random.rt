//! Numbers that look random and are the same for the same seed.

/// The generator splitmix64.
#[derive(Clone, Copy)]
pub struct Random {
    state: u64,
}

impl Random {
    pub fn new(seed: u64) -> Random {
        Random { state: seed }
    }

    /// The next 64 bits.
    pub fn bits(&mut self) -> u64 {
        self.state = self.state.wrapping_add(0x9e37_79b9_7f4a_7c15);
        let z = self.state;
        let z = (z ^ (z >> 30)).wrapping_mul(0xbf58_476d_1ce4_e5b9);
        let z = (z ^ (z >> 27)).wrapping_mul(0x94d0_49bb_1331_11eb);
        z ^ (z >> 31)
    }

    /// A number below `end`, which is at most 2^32; 0 where `end` is 0.
    pub fn below(&mut self, end: u64) -> u64 {
        (self.bits() >> 32).wrapping_mul(end) >> 32
    }

    /// Whether one of `count` like cases came, as one in ten.
    pub fn is_one_in(&mut self, count: u64) -> bool {
        self.below(count) == 0
    }

    /// A number of `width` bits at most, 1 to 31, each width as often as the others: a number comes about as often as
    /// one over its size, so that the first few make up much of all.
    pub fn rank(&mut self, width: u64) -> u64 {
        let bits = self.below(width).wrapping_add(1);
        self.below(1 << (bits & 31))
    }
}

#[cfg(test)]
mod tests {
    use super::*;

    #[test]
    fn a_seed_gives_its_numbers(rt: HostRuntime) {
        // The first numbers of splitmix64 from 1234567, as its authors' code prints them.
        let mut random = Random::new(1234567);
        assert_eq!(rt; random.bits(), 6457827717110365317);
        assert_eq!(rt; random.bits(), 3203168211198807973);
    }

    #[test]
    fn numbers_keep_their_bounds(rt: HostRuntime) {
        let mut random = Random::new(5);
        for _ in 0..1000 {
            assert!(rt; random.below(7) < 7);
            assert!(rt; random.rank(5) < 32);
        }
    }
}
