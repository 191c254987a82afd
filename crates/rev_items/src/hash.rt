//! The hash of a key, and the bucket that a hash is in.
ghost use Rattle.std.specs.Prelude.{◌<◌, ◌%◌, ◌≡◌};
ghost use Rattle.rev_items.specs.Hash.{hash_of};

/// What FNV-1a with 32 bits starts from.
const OFFSET_BASIS: u32 = 2166136261;

/// What it multiplies by at each byte.
const PRIME: u32 = 16777619;

/// The hash FNV-1a of bytes, with 32 bits: of each byte in turn the exclusive or with the hash so far, times a prime
/// modulo 2^32. Which chain of an index a key stands in is this project's own choice, and no user sees it.
pub fn hash(bytes: &[u8]) -> u32
    ensures { result ≡ hash_of bytes.now }
{
    let mut hash = OFFSET_BASIS;
    for byte in bytes {
        hash = (hash ^ u32::from(*byte)).wrapping_mul(PRIME);
    }
    hash
}

/// In which of `count` buckets a hash is. Where their count is a power of two it takes no division, for which the
/// look-up would wait.
pub fn bucket(hash: u32, count: usize) -> usize
    requires { 0 < count }
    ensures value { result ≡ hash % count }
    ensures within { result < count }
{
    let hash = hash as usize;
    if count == 1 << count.trailing_zeros() {
        hash & (count - 1)
    } else {
        hash % count
    }
}
