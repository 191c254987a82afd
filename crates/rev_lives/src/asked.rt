//! Keys as a user spells them.
use rev_items::{Key, KeyFault};
use rev_watch::fault::LineFault;
use rev_watch::key::key_of;
use std::alloc::Allocator;

/// The key of a text: it may be spelled as in the log, where bytes may stand as a `%` and two hexadecimal digits. A
/// text in which a `%` stands otherwise is the key as it is.
///
/// Err: the text is no key, or memory was refused.
pub fn asked_key<A: Allocator + Copy>(alloc: A, text: &[u8]) -> Result<Key<A>, KeyFault> {
    match key_of(alloc, text) {
        Ok((key, _)) => Ok(key),
        Err(LineFault::BadEscape) => Key::new(alloc, text),
        Err(LineFault::Memory) => Err(KeyFault::Memory),
        Err(_) => Err(KeyFault::BadKey),
    }
}
