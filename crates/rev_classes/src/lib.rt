//! The slab classes: what a store may be configured with, and the chunk size of each class.
#![tactic(auto)]

ghost use Rattle.std.specs.Prelude.{◌≡◌, ◌+◌, ◌-◌, ◌*◌, ◌/◌, ◌<◌, ◌≤◌, ℕ, Some, None, IfErr, IfNone, IfOk, IfSome, OnOk, OnSome, length, nat_le, slice_index, true};
ghost use Rattle.std.specs.List.{position};
ghost use Rattle.rev_classes.specs.Sizes.{class_from, most_classes, sizes_of};
ghost use Rattle.rev_classes.specs.Limits.{are_limits, class_sizes, fault_of, is_growth_factor, is_page_size, is_within};

use arrayvec::ArrayVec;
use std::marker::Model;
use thiserror::Error;

/// The most slab classes that there may be (memcached's own bound is 63 ids, of which 0 is the page pool).
pub const MAX_CLASSES: usize = 62;

/// Bytes of the smallest chunk (this project's own figure).
const SMALLEST_CHUNK: u64 = 96;

/// A chunk size is a multiple of so many bytes.
const ALIGNMENT: u64 = 8;

/// What a store is opened with. Its limits are this project's own.
#[derive(Clone, Copy, Debug, PartialEq, Eq)]
pub struct Config {
    /// Bytes of a slab page: 256 to 1048576, a multiple of 8.
    pub page_size: u32,
    /// Pages before classes that own one have to evict: 1 to 4096.
    pub pages: u32,
    /// Growth factor of chunk sizes, numerator: 1 to 1000, the factor from 21/20 to 4.
    pub num: u32,
    /// Growth factor of chunk sizes, denominator: 1 to 1000.
    pub den: u32,
    /// Entries that the bump queue holds: 1 to 4096.
    pub bump: u32,
    /// The index begins with 2 to this power buckets: 4 to 20. It gets more where it holds many keys.
    pub hash_power: u32,
    /// An item that expires within fewer seconds enters TEMP; negative: none does.
    pub temp_ttl: i32,
    /// The second at which the clock starts: at least 1.
    pub now: u32,
}

/// Why no store is opened, in the order in which limits are tested.
#[derive(Clone, Copy, Debug, PartialEq, Eq, Drop, Error)]
pub enum ConfigFault {
    #[error("bad configuration: page")]
    BadPage,
    #[error("bad configuration: factor")]
    BadFactor,
    #[error("bad configuration: classes")]
    TooManyClasses,
    #[error("bad configuration: limit")]
    BadLimit,
    #[error("out of memory")]
    Memory,
}

/// The page size and the chunk size of each slab class. Classes are numbered from 1.
#[derive(Drop)]
pub struct ClassTable {
    page_size: u32,
    sizes: ArrayVec<u32, MAX_CLASSES>,
}

impl Model for ClassTable {
    ghost use Rattle.rev_classes.specs.Table.{PlainTable, AreClassSizes};

    ghost Value = { PlainTable };

    ghost view = { λ t. record { page_size = t.page_size; sizes = t.sizes.items } };

    ghost invariant = { λ t. AreClassSizes t.page_size t.sizes.items };
}

fn is_within(least: u32, most: u32, number: u32) -> bool
    ensures { result ≡ is_within least most number }
{
    least <= number && number <= most
}

fn is_page_size(bytes: u32) -> bool
    ensures { result ≡ is_page_size bytes }
{
    is_within(256, 1048576, bytes) && bytes % 8 == 0
}

fn is_growth_factor(num: u32, den: u32) -> bool
    ensures { result ≡ is_growth_factor num den }
{
    is_within(1, 1000, num) && is_within(1, 1000, den) && 21 * den <= 20 * num && num <= 4 * den
}

fn are_limits(config: &Config) -> bool
    ensures { result ≡ are_limits config.entry.now }
{
    let pages = is_within(1, 4096, config.pages);
    let bump = is_within(1, 4096, config.bump);
    let buckets = is_within(4, 20, config.hash_power);
    pages && bump && buckets && config.now >= 1
}

// The chunk sizes, where there are no more than 62.
fn sizes_of(page_size: u64, num: u64, den: u64) -> Option<ArrayVec<u32, MAX_CLASSES>>
    requires page { is_page_size page_size ≡ true }
    requires factor { is_growth_factor num den ≡ true }
    ensures some { IfSome result (λ sizes. sizes.items ≡ sizes_of page_size num den) }
    ensures few { OnSome result (length (sizes_of page_size num den) ≤ most_classes) }
    ensures none { IfNone result (most_classes < length (sizes_of page_size num den)) }
{
    let mut sizes = ArrayVec::new();
    let mut unrounded = SMALLEST_CHUNK;
    for _class in 0..MAX_CLASSES {
        if unrounded * num >= page_size * den {
            sizes.push(page_size as u32);
            return Some(sizes);
        }
        let size = unrounded.next_multiple_of(ALIGNMENT);
        sizes.push(size as u32);
        unrounded = size * num / den;
    }
    None
}

/// The first limit that the configuration breaks; never `Memory`.
pub fn fault_of(config: &Config) -> Option<ConfigFault>
    ensures { result ≡ fault_of config.entry.now }
{
    match ClassTable::build(config) {
        Ok(_) => None,
        Err(fault) => Some(fault),
    }
}

impl ClassTable {
    /// The classes of a configuration (this project's own rule, after memcached's `slabs_init`): the first chunk size
    /// is 96 bytes, each further one is the size before it times `num / den`, rounded down and then up to a multiple of
    /// 8, and in the place of the first that one more factor would take to a page or past it stands the whole page.
    ///
    /// No memory is taken: the fault is never `Memory`, and is the first limit that is broken.
    pub fn build(config: &Config) -> Result<ClassTable, ConfigFault>
        ensures ok { IfOk result (λ table. table ≡ record { page_size = config.entry.now.page_size; sizes = class_sizes config.entry.now }) }
        ensures limits { OnOk result (fault_of config.entry.now ≡ None) }
        ensures err { IfErr result (λ fault. fault_of config.entry.now ≡ Some fault) }
    {
        if !is_page_size(config.page_size) {
            return Err(ConfigFault::BadPage);
        }
        if !is_growth_factor(config.num, config.den) {
            return Err(ConfigFault::BadFactor);
        }
        let page_size = u64::from(config.page_size);
        let (num, den) = (u64::from(config.num), u64::from(config.den));
        let Some(sizes) = sizes_of(page_size, num, den) else {
            return Err(ConfigFault::TooManyClasses);
        };
        if !are_limits(config) {
            return Err(ConfigFault::BadLimit);
        }
        Ok(ClassTable {
            page_size: config.page_size,
            sizes,
        })
    }

    /// Bytes of a slab page, 256 to 1048576.
    pub fn page_size(&self) -> u32
        ensures page { result ≡ self.now.page_size }
        ensures within { (256 ≤ result) × (result ≤ 1048576) }
    {
        self.page_size
    }

    /// The number of the last class, 1 to 62; its chunk is a whole page.
    pub fn last(&self) -> usize
        ensures last { result ≡ length self.now.sizes }
        ensures within { (1 ≤ result) × (result ≤ 62) }
    {
        self.sizes.len()
    }

    /// Bytes of a chunk of the class, 96 to the page size.
    pub fn chunk_size(&self, class: usize) -> u32
        requires class { (1 ≤ class) × (class ≤ length self.now.sizes) }
        ensures size { result ≡ slice_index self.now.sizes (class - 1) }
        ensures within { (96 ≤ result) × (result ≤ self.now.page_size) }
    {
        self.sizes[class - 1]
    }

    /// Chunks of a page of the class: the page size over the chunk size, rounded down, 1 to 10922.
    pub fn per_page(&self, class: usize) -> u32
        requires class { (1 ≤ class) × (class ≤ length self.now.sizes) }
        ensures count { result ≡ self.now.page_size / slice_index self.now.sizes (class - 1) }
        ensures within { (1 ≤ result) × (result ≤ 10922) }
    {
        self.page_size / self.chunk_size(class)
    }

    /// The smallest class whose chunk holds so many bytes; none where a page does not.
    pub fn class_of(&self, footprint: u64) -> Option<usize>
        ensures class { result ≡ class_from 1 self.now.sizes footprint }
        ensures within { IfSome result (λ class. (1 ≤ class) × (class ≤ length self.now.sizes)) }
        ensures fits { IfSome result (λ class. footprint ≤ slice_index self.now.sizes (class - 1)) }
        ensures too_large { IfNone result (self.now.page_size < footprint) }
    {
        let index = self.index_of(footprint)?;
        Some(index + 1)
    }

    // The place of the first chunk size that holds so many bytes.
    fn index_of(&self, footprint: u64) -> Option<usize>
        ensures place { result ≡ position (λ size. nat_le footprint size) self.now.sizes }
        ensures within { IfSome result (λ index. index < length self.now.sizes) }
        ensures few { length self.now.sizes ≤ 62 }
        ensures too_large { IfNone result (self.now.page_size < footprint) }
    {
        self.sizes
            .iter()
            .position(|size| footprint <= u64::from(*size))
    }
}
