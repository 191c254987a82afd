//! Keys and items, seen by contracts as plain records without an allocator.
#![tactic(auto)]

ghost use Rattle.std.specs.Prelude.{◌≡◌, ◌≤◌, ◌<◌, ◌^◌, ◌↔◌, ℕ, IfOk, IsTrue, List, length, true, false};
ghost use Rattle.std.specs.List.{list_all};
ghost use Rattle.rev_items.specs.Plain.{PlainItem, is_key, is_key_byte};
ghost use Rattle.rev_items.specs.Hash.{hash_of};
ghost use Rattle.rev_items.specs.Rules.{footprint, footprint_of, is_past, moment};

mod bytes;
mod data;
mod hash;

use crate::bytes::Bytes;
use crate::hash::hash;
pub use data::{Data, Filler};
pub use hash::bucket;
use std::alloc::{AllocError, Allocator};
use std::marker::Model;
use thiserror::Error;

/// The most bytes that a key has (protocol.txt).
pub const MAX_KEY_LENGTH: usize = 250;

/// The longest time to live that counts from now, in seconds: thirty days (protocol.txt).
pub const MAX_RELATIVE_TTL: u32 = 2592000;

/// Bytes of an item's header (this project's own figure).
const HEADER: u64 = 56;

/// Why there is no key.
#[derive(Clone, Copy, Debug, PartialEq, Eq, Drop, Error)]
pub enum KeyFault {
    /// Not 1 to 250 bytes, or one of them is 0 to 32 or 127.
    #[error("not a key")]
    BadKey,
    #[error("out of memory")]
    Memory,
}

/// The two bits of an item (new_lru.txt).
#[derive(Clone, Copy, Debug, PartialEq, Eq)]
pub struct Bits {
    /// The item was hit since it was linked.
    pub fetched: bool,
    /// The item was hit once more since then, and has not been moved for it.
    pub active: bool,
}

/// The name of an item: 1 to 250 bytes, none of them 0 to 32 or 127 (protocol.txt). It keeps the hash of its bytes, so
/// that a search in an index hashes a key once and reads the bytes of no key of another hash. A key of at most 24 bytes
/// takes no memory of its own.
#[derive(Drop)]
pub struct Key<A: Allocator> {
    bytes: Bytes<A>,
}

impl<A: Allocator> Model for Key<A> {
    ghost use Rattle.std.specs.Prelude.{List, ℕ};
    ghost use Rattle.rev_items.specs.Keys.{IsKey};

    ghost Value = { List ℕ };

    ghost view = { λ k. k.bytes };

    ghost invariant = { λ k. IsKey k.bytes };
}

// What an item holds. Its data are shared with the step that brought them, and their length stands here.
#[derive(Drop)]
struct Held<A: Allocator> {
    key: Key<A>,
    value: Data<A>,
    flags: u32,
    time: u32,
    moment: u64,
    cas: u64,
    bits: Bits,
}

/// What a chunk holds. It lies behind one pointer; what a queue and an index ask of an item that enters or leaves, its
/// footprint and its key's hash, stands beside the pointer, and they read no further.
#[derive(Drop)]
pub struct Item<A: Allocator> {
    held: Box<Held<A>, A>,
    key_hash: u32,
    footprint: u32,
}

impl<A: Allocator> Model for Item<A> {
    ghost use Rattle.std.specs.Prelude.{length, ◌≡◌, ◌≤◌};
    ghost use Rattle.rev_items.specs.Hash.{hash_of};
    ghost use Rattle.rev_items.specs.Plain.{PlainItem};
    ghost use Rattle.rev_items.specs.Rules.{footprint as footprint_bytes};

    ghost Value = { PlainItem };

    ghost view = { λ i. record { key = i.held.value.key; value = i.held.value.value; flags = i.held.value.flags; moment = i.held.value.moment; time = i.held.value.time; cas = i.held.value.cas; bits = i.held.value.bits } };

    ghost invariant = { λ i. (length i.held.value.value ≤ 1048576) × (i.key_hash ≡ hash_of i.held.value.key) × (i.footprint ≡ footprint_bytes (length i.held.value.key) i.held.value.flags (length i.held.value.value)) };
}

fn is_key_byte(byte: u8) -> bool
    ensures { result ≡ is_key_byte byte }
{
    byte > 32 && byte != 127
}

fn are_key_bytes(bytes: &[u8]) -> bool
    ensures { result ≡ list_all is_key_byte bytes.now }
{
    bytes.iter().all(|byte| is_key_byte(*byte))
}

/// Whether these bytes may be a key: 1 to 250, none of them 0 to 32 or 127 (protocol.txt).
pub fn is_key(bytes: &[u8]) -> bool
    ensures { result ≡ is_key bytes.now }
{
    let clean = are_key_bytes(bytes);
    let some = !bytes.is_empty();
    let few = bytes.len() <= MAX_KEY_LENGTH;
    some && few && clean
}

/// The bytes that an item takes of its chunk, from its key and from how many bytes its data are (this project's own
/// rule, in memcached's layout): a header of 56, the key and a byte, four bytes where flags are not 0, the data, CR LF.
pub fn footprint<A: Allocator>(key: &Key<A>, flags: u32, data_length: u64) -> u64
    requires { data_length ≤ 2 ^ 32 }
    ensures { result ≡ footprint (length key.now) flags data_length }
{
    let flag_bytes = if flags == 0 { 0 } else { 4 };
    HEADER + key.bytes().len() as u64 + 1 + flag_bytes + data_length + 2
}

/// The second of the clock at which an item expires, told when it is linked at `now` with this time to live
/// (protocol.txt): 0 never; 1, which is past, where the time is negative; up to thirty days from now; else the time
/// itself.
pub fn moment(now: u32, exptime: i32) -> u64
    ensures { result ≡ moment now exptime }
{
    if exptime < 0 {
        return 1;
    }
    let seconds = exptime as u32;
    if seconds == 0 {
        0
    } else if seconds <= MAX_RELATIVE_TTL {
        u64::from(now) + u64::from(seconds)
    } else {
        u64::from(seconds)
    }
}

/// Whether an item of this moment and cas number is dead at `now`, after a flush of all items up to the cas number
/// `limit` (this project's own test, one for every reader).
pub fn is_past(now: u32, limit: u64, moment: u64, cas: u64) -> bool
    ensures { result ≡ is_past now limit moment cas }
{
    let expired = moment != 0 && moment <= u64::from(now);
    expired || cas <= limit
}

impl<A: Allocator> Key<A> {
    /// The key of these bytes, which are copied.
    pub fn new(alloc: A, bytes: &[u8]) -> Result<Key<A>, KeyFault>
        ensures ok { IfOk result (λ key. (key ≡ bytes.now) × (is_key bytes.now ≡ true)) }
        ensures bad { (result ≡ Err KeyFault.BadKey) ↔ (is_key bytes.now ≡ false) }
    {
        if !is_key(bytes) {
            return Err(KeyFault::BadKey);
        }
        match Key::of(alloc, bytes) {
            Ok(key) => Ok(key),
            Err(_) => Err(KeyFault::Memory),
        }
    }

    /// The key of these bytes, which are known to be one and are copied. Err: they are many, and their memory was
    /// refused.
    pub fn of(alloc: A, bytes: &[u8]) -> Result<Key<A>, AllocError>
        requires rule { is_key bytes.now ≡ true }
        ensures ok { IfOk result (λ key. key ≡ bytes.now) }
    {
        let bytes = Bytes::new(alloc, bytes, hash(bytes))?;
        Ok(Key { bytes })
    }

    /// The key's bytes, 1 to 250.
    pub fn bytes(&self) -> &[u8]
        ensures same { result.now ≡ self.now }
        ensures rule { is_key self.now ≡ true }
    {
        self.bytes.as_slice()
    }

    /// An equal key.
    pub fn copy<B: Allocator>(&self, alloc: B) -> Result<Key<B>, AllocError>
        ensures { IfOk result (λ key. key ≡ self.now) }
    {
        let bytes = Bytes::new(alloc, self.bytes(), self.hash())?;
        Ok(Key { bytes })
    }

    /// The hash of the key's bytes.
    pub fn hash(&self) -> u32
        ensures { result ≡ hash_of self.now }
    {
        self.bytes.hash()
    }

    /// Whether the two keys have the same bytes.
    pub fn is_same<B: Allocator>(&self, other: &Key<B>) -> bool
        ensures { IsTrue result ↔ (self.now ≡ other.now) }
    {
        self.hash() == other.hash() && self.bytes.is_same(&other.bytes)
    }
}

impl<A: Allocator> Item<A> {
    /// An item as it stands when it is linked: neither bit is set. Its data are at most 1048576 bytes, the largest
    /// page, so that a footprint fits 32 bits.
    ///
    /// Err: a growth was refused.
    pub fn new(
        alloc: A,
        key: Key<A>,
        value: Data<A>,
        flags: u32,
        moment: u64,
        time: u32,
        cas: u64,
    ) -> Result<Item<A>, AllocError>
        requires data { length value ≤ 1048576 }
        ensures { IfOk result (λ item. item ≡ record { key = key; value = value; flags = flags; moment = moment; time = time; cas = cas; bits = record { fetched = false; active = false } }) }
    {
        let bits = Bits {
            fetched: false,
            active: false,
        };
        let key_hash = key.hash();
        let footprint = footprint(&key, flags, value.len() as u64) as u32;
        let held = Held {
            key,
            value,
            flags,
            time,
            moment,
            cas,
            bits,
        };
        Ok(Item {
            held: Box::new(alloc, held)?,
            key_hash,
            footprint,
        })
    }

    pub fn key(&self) -> &Key<A>
        ensures { result.now ≡ self.now.key }
    {
        &self.held.key
    }

    /// The hash of the key's bytes.
    pub fn hash(&self) -> u32
        ensures { result ≡ hash_of self.now.key }
    {
        self.key_hash
    }

    /// Whether the item has this key. The bytes of a key of another hash are not read.
    pub fn has_key<B: Allocator>(&self, key: &Key<B>) -> bool
        ensures { IsTrue result ↔ (self.now.key ≡ key.now) }
    {
        self.key_hash == key.hash() && self.held.key.is_same(key)
    }

    /// The item's data.
    pub fn value(&self) -> &[u8]
        ensures { result.now ≡ self.now.value }
    {
        self.held.value.as_slice()
    }

    /// How many bytes the item's data are: at most 1048576.
    pub fn data_length(&self) -> u32
        ensures { result ≡ length self.now.value }
    {
        self.held.value.len() as u32
    }

    /// The number that the client keeps with the item.
    pub fn flags(&self) -> u32
        ensures { result ≡ self.now.flags }
    {
        self.held.flags
    }

    /// The second of the clock at which the item expires; 0: never.
    pub fn moment(&self) -> u64
        ensures { result ≡ self.now.moment }
    {
        self.held.moment
    }

    /// The second of the clock at which the item was linked or last bumped.
    pub fn time(&self) -> u32
        ensures { result ≡ self.now.time }
    {
        self.held.time
    }

    /// The item's unique number, by which `cas` compares.
    pub fn cas(&self) -> u64
        ensures { result ≡ self.now.cas }
    {
        self.held.cas
    }

    pub fn bits(&self) -> Bits
        ensures { result ≡ self.now.bits }
    {
        self.held.bits
    }

    /// The bytes that the item takes of its chunk.
    pub fn footprint(&self) -> u64
        ensures bytes { result ≡ footprint_of self.now }
        ensures within { result < 2 ^ 32 }
    {
        u64::from(self.footprint)
    }

    /// Whether the item is dead at `now`, after a flush of all items up to the cas number `limit`: it has expired, or
    /// was linked no later than the flush (this project's own test, one for every reader).
    pub fn is_dead(&self, now: u32, limit: u64) -> bool
        ensures { result ≡ is_past now limit self.now.moment self.now.cas }
    {
        is_past(now, limit, self.held.moment, self.held.cas)
    }

    /// Exchanges bits, time and moment, and gives the old ones.
    pub fn touch(&mut self, bits: Bits, time: u32, moment: u64) -> (Bits, u32, u64)
        ensures old { result ≡ (self.old.bits, self.old.time, self.old.moment) }
        ensures new { self.new ≡ record self.old { bits = bits; time = time; moment = moment } }
    {
        let old = (self.held.bits, self.held.time, self.held.moment);
        self.held.bits = bits;
        self.held.time = time;
        self.held.moment = moment;
        old
    }
}
