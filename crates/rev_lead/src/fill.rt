//! The data that stand for those that a log does not have.
use indexmap::IndexMap;
use rev_items::{Data, Filler};
use std::alloc::{AllocError, Allocator};
use std::hash::{BuildHasherDefault, FoldHasher};

/// The byte that stands for those that a log does not have.
const BYTE: u8 = b'x';

/// Of how many sizes data are kept.
const MOST_SIZES: usize = 65536;

/// Data whose bytes are all alike. They share one block, and those of a size are made once.
#[derive(Drop)]
pub struct Fill<A: Allocator> {
    alloc: A,
    filler: Filler<A>,
    sizes: IndexMap<u32, Data<A>, BuildHasherDefault<FoldHasher>, A>,
}

impl<A: Allocator + Copy> Fill<A> {
    /// No data. No memory is taken.
    pub fn new(alloc: A) -> Fill<A> {
        Fill {
            alloc,
            filler: Filler::new(),
            sizes: IndexMap::new(alloc),
        }
    }

    /// So many bytes. Err: memory was refused.
    pub fn data(&mut self, size: u32) -> Result<Data<A>, AllocError> {
        if let Some(data) = self.sizes.get(&size) {
            return data.share();
        }
        let data = self.made(size)?;
        if self.sizes.len() < MOST_SIZES {
            self.sizes.insert(size, data.share()?)?;
        }
        Ok(data)
    }

    fn made(&mut self, size: u32) -> Result<Data<A>, AllocError> {
        let mut bytes = Vec::new(self.alloc);
        bytes.resize(size as usize, BYTE)?;
        self.filler.data(bytes)
    }
}
