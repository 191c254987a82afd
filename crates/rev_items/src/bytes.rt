//! Bytes with their hash, which take no memory of their own where they are few.

ghost use Rattle.std.specs.Prelude.{◌≡◌, ◌↔◌, ◌≤◌, ◌-◌, IfOk, IsTrue, length, take, drop, replicate};
ghost use Rattle.rev_items.specs.Hash.{hash_of};

use std::alloc::{AllocError, Allocator};
use std::marker::Model;

/// The most bytes that lie in place (this project's own figure: most keys of a cache are no longer).
const INLINE_LENGTH: usize = 24;

/// Where the bytes lie. Their hash stands in the room that is left beside the length or the list, in this order of the
/// fields, so that either takes 32 bytes where the allocator takes none. Behind bytes in place there are zeros.
#[derive(Drop)]
enum BytesPlace<A: Allocator> {
    Inline {
        length: u8,
        hash: u32,
        bytes: [u8; INLINE_LENGTH],
    },
    Heap {
        hash: u32,
        bytes: Vec<u8, A>,
    },
}

/// Bytes that are written once and then read: few of them lie in place, more on the heap.
#[derive(Drop)]
pub struct Bytes<A: Allocator> {
    place: BytesPlace<A>,
}

impl<A: Allocator> Model for Bytes<A> {
    ghost use Rattle.std.specs.Prelude.{List, ℕ};
    ghost use Rattle.rev_items.specs.Bytes.{bytes_at, IsPlaced};

    ghost Value = { List ℕ };

    ghost view = { λ b. bytes_at b.place };

    ghost invariant = { λ b. IsPlaced b.place };
}

// These bytes, and zeros behind them.
fn padded(bytes: &[u8]) -> [u8; INLINE_LENGTH]
    requires { length bytes.now ≤ 24 }
    ensures front { take (length bytes.now) result ≡ bytes.now }
    ensures back { drop (length bytes.now) result ≡ replicate (24 - length bytes.now) 0 }
    ensures room { length result ≡ 24 }
{
    let mut padded = [0; INLINE_LENGTH];
    padded[..bytes.len()].copy_from_slice(bytes);
    padded
}

impl<A: Allocator> Bytes<A> {
    /// A copy of these bytes, whose hash is known. Err: they are many, and their memory was refused.
    pub fn new(alloc: A, bytes: &[u8], hash: u32) -> Result<Bytes<A>, AllocError>
        requires { hash ≡ hash_of bytes.now }
        ensures { IfOk result (λ copy. copy ≡ bytes.now) }
    {
        let length = bytes.len();
        let place = if length <= INLINE_LENGTH {
            BytesPlace::Inline {
                length: length as u8,
                hash,
                bytes: padded(bytes),
            }
        } else {
            BytesPlace::Heap {
                hash,
                bytes: bytes.to_vec(alloc)?,
            }
        };
        Ok(Bytes { place })
    }

    pub fn as_slice(&self) -> &[u8]
        ensures { result.now ≡ self.now }
    {
        match &self.place {
            BytesPlace::Inline { length, bytes, .. } => &bytes[..usize::from(*length)],
            BytesPlace::Heap { bytes, .. } => bytes.as_slice(),
        }
    }

    /// The hash of the bytes.
    pub fn hash(&self) -> u32
        ensures { result ≡ hash_of self.now }
    {
        match &self.place {
            BytesPlace::Inline { hash, .. } => *hash,
            BytesPlace::Heap { hash, .. } => *hash,
        }
    }

    /// Whether the two are the same bytes. Where both lie in place all of the room is compared, which takes no loop.
    pub fn is_same<B: Allocator>(&self, other: &Bytes<B>) -> bool
        ensures { IsTrue result ↔ (self.now ≡ other.now) }
    {
        match (&self.place, &other.place) {
            (
                BytesPlace::Inline { length, bytes, .. },
                BytesPlace::Inline {
                    length: other_length,
                    bytes: other_bytes,
                    ..
                },
            ) => length == other_length && bytes == other_bytes,
            _ => self.as_slice() == other.as_slice(),
        }
    }
}
