//! A link with a number beside it, in one word.
// So many bits are for the link.
const LINK_BITS: u32 = 27;

/// A link to an entry, or 0, and a number below 32: a hint, on which nothing that is promised rests. A link that takes
/// more than 27 bits is not kept.
#[derive(Clone, Copy)]
pub struct Hint {
    bits: u32,
}

/// No link.
pub const NO_HINT: Hint = Hint { bits: 0 };

impl Hint {
    /// The link with the number.
    pub fn new(link: u32, number: u32) -> Hint {
        if link >> LINK_BITS > 0 {
            return NO_HINT;
        }
        Hint {
            bits: (number << LINK_BITS) | link,
        }
    }

    /// The link.
    pub fn link(self) -> u32 {
        self.bits & ((1 << LINK_BITS) - 1)
    }

    /// The number.
    pub fn number(self) -> u32 {
        self.bits >> LINK_BITS
    }
}
