//! The data of items, of which those whose bytes are all alike share one block.

ghost use Rattle.std.specs.Prelude.{◌≡◌, ◌==◌, ◌≤◌, IfOk, IfSome, length, take};

use std::alloc::{AllocError, Allocator};
use std::marker::Model;
use std::sync::Arc;

/// Bytes that are written once and then shared.
type Block<A> = Arc<Vec<u8, A>, A>;

/// A block of filler is at least so many bytes long (this project's own figure: a heap hands out no less).
const LEAST_BLOCK: usize = 16;

/// A block of filler is at most so many bytes long, unless the data are longer: the largest page, and so the most bytes
/// that an item has.
const MOST_BLOCK: usize = 1048576;

/// The data of an item. They lie in a block that steps and items share: all of the block, or so many bytes in front.
#[derive(Drop)]
pub struct Data<A: Allocator> {
    block: Block<A>,
    len: usize,
}

impl<A: Allocator> Model for Data<A> {
    ghost use Rattle.std.specs.Prelude.{List, ℕ, ◌≤◌, length, take};

    ghost Value = { List ℕ };

    ghost view = { λ d. take d.len d.block.value.items };

    ghost invariant = { λ d. d.len ≤ length d.block.value.items };
}

impl<A: Allocator + Clone> Data<A> {
    /// The data of these bytes, which are not copied. They have a block of their own.
    ///
    /// Err: a growth was refused.
    pub fn from_vec(bytes: Vec<u8, A>) -> Result<Data<A>, AllocError>
        ensures { IfOk result (λ made. made ≡ bytes.items) }
    {
        let len = bytes.len();
        let alloc = bytes.allocator().clone()?;
        let block = Arc::new(alloc, bytes)?;
        Ok(Data { block, len })
    }
}

impl<A: Allocator> Data<A> {
    // So many bytes in front of a block, which they share with whatever else lies in it.
    fn front(block: &Block<A>, len: usize) -> Result<Data<A>, AllocError>
        requires { len ≤ length block.now.value.items }
        ensures { IfOk result (λ made. made ≡ take len block.now.value.items) }
    {
        Ok(Data {
            block: block.clone()?,
            len,
        })
    }

    /// How many bytes there are.
    pub fn len(&self) -> usize
        ensures { result ≡ length self.now }
    {
        self.len
    }

    pub fn is_empty(&self) -> bool
        ensures { result ≡ (length self.now == 0) }
    {
        self.len() == 0
    }

    pub fn as_slice(&self) -> &[u8]
        ensures { result.now ≡ self.now }
    {
        &self.block[..self.len]
    }

    /// The same data once more, in the same block. It takes no memory.
    ///
    /// Err: the block is shared 2^63 times.
    pub fn share(&self) -> Result<Data<A>, AllocError>
        ensures { IfOk result (λ made. made ≡ self.now) }
    {
        Data::front(&self.block, self.len)
    }
}

/// Keeps data whose bytes are all alike once for all of them: they share a block of the latest such byte, a power of
/// two long, of which each takes as many bytes as it has. A block before it lives as long as data that lie in it.
#[derive(Drop)]
pub struct Filler<A: Allocator> {
    block: Option<Block<A>>,
}

// Whether there are bytes, and all are the same. The test ends at the first one that differs.
fn are_alike(bytes: &[u8]) -> bool {
    match bytes {
        [] => false,
        [_, others @ ..] => others == &bytes[..others.len()],
    }
}

// How long a block is that is made for so many bytes.
fn block_length(count: usize) -> usize
    ensures { count ≤ result }
{
    if count > MOST_BLOCK {
        return count;
    }
    count.next_power_of_two().max(LEAST_BLOCK)
}

// A block that begins with these bytes, and goes on with the first of them.
fn block_of<A: Allocator + Clone>(bytes: &Vec<u8, A>) -> Result<Block<A>, AllocError>
    ensures front { IfOk result (λ made. take (length bytes.now.items) made.value.items ≡ bytes.now.items) }
    ensures room { IfOk result (λ made. length bytes.now.items ≤ length made.value.items) }
{
    let byte = bytes.first().copied().unwrap_or(0);
    let count = block_length(bytes.len());
    let mut block = Vec::with_capacity(bytes.allocator().clone()?, count)?;
    block.extend_from_slice(bytes)?;
    block.resize(count, byte)?;
    Ok(Arc::new(bytes.allocator().clone()?, block)?)
}

impl<A: Allocator + Clone> Filler<A> {
    /// A filler without a block.
    pub fn new() -> Filler<A> {
        Filler { block: None }
    }

    // These bytes, if the block begins with them.
    fn shared(&self, bytes: &[u8]) -> Option<Data<A>>
        ensures { IfSome result (λ made. made ≡ bytes.now) }
    {
        let block = self.block.as_ref()?;
        let front = block.as_slice().get(..bytes.len())?;
        if front != bytes {
            return None;
        }
        Data::front(block, bytes.len()).ok()
    }

    // These bytes, which are all alike, in a block that is made for them and that later data share.
    fn widened(&mut self, bytes: &Vec<u8, A>) -> Result<Data<A>, AllocError>
        ensures { IfOk result (λ made. made ≡ bytes.now.items) }
    {
        let block = block_of(bytes)?;
        let data = Data::front(&block, bytes.len())?;
        self.block = Some(block);
        Ok(data)
    }

    /// The data of these bytes. Where all of them are alike, they lie in the block that all such data share; where it
    /// has another byte or is too short, a new block takes its place. Where the memory for it is refused, and for other
    /// bytes, the data have a block of their own, for which the bytes are not copied.
    ///
    /// Err: a growth was refused that the data want for themselves.
    pub fn data(&mut self, bytes: Vec<u8, A>) -> Result<Data<A>, AllocError>
        ensures { IfOk result (λ made. made ≡ bytes.items) }
    {
        if let Some(data) = self.shared(bytes.as_slice()) {
            return Ok(data);
        }
        if are_alike(bytes.as_slice()) {
            if let Ok(data) = self.widened(&bytes) {
                return Ok(data);
            }
        }
        Data::from_vec(bytes)
    }
}
