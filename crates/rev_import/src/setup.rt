//! What a server was configured with, followed by lrudb's own configuration.
ghost use Rattle.std.specs.Prelude.{◌≡◌, ◌≤◌, [], IfOk, IsOk, OnOk, Some, None};
ghost use Rattle.std.specs.Int.{IsGcd};
ghost use Rattle.rev_classes.specs.Limits.{fault_of, class_sizes};
ghost use Rattle.rev_import.specs.Writing.{Adds, Writes};
ghost use Rattle.rev_import.specs.Setup.{tune_lines, temp_ttl_lines, setup_lines, pages_of, memory_unfollowed, IsReduced, IsWanted, usual_factor, config_of, opened_config, factor_unfollowed, tune_of, tune_unfollowed, temp_ttl_of, temp_ttl_unfollowed, bound_of, chunk_unfollowed, item_unfollowed, Follows};

use crate::writing::{put_temp_ttl, put_tune};
use rev_choices::Factor;
use rev_classes::{ClassTable, Config, ConfigFault};
use rev_requests::Tune;
use rev_watch::settings::Settings;
use std::alloc::{AllocError, Allocator};
use thiserror::Error;

/// Bytes of a slab page, memcached's own.
pub const PAGE_SIZE: u32 = 1048576;

/// The most pages that lrudb has.
pub const MOST_PAGES: u32 = 4096;

/// The bytes for key, value and flags by which memcached sizes its first class; lrudb's first class is the same.
pub const CHUNK_SIZE: u32 = 48;

/// The factor that is used where the server's can't be.
pub const USUAL_FACTOR: Factor = Factor { num: 5, den: 4 };

/// A setting of the server that lrudb can't follow, and what is used in its place.
#[derive(Clone, Copy, Debug, PartialEq, Eq, Drop, Error)]
pub enum Unfollowed {
    #[error("less memory than a page of 1048576 bytes: --pages 1 is used")]
    TooLittleMemory,
    #[error("more memory than 4096 pages: --pages 4096 is used")]
    TooMuchMemory,
    #[error("chunk_size {0} is not followed: classes begin as by 48")]
    ChunkSize(u32),
    #[error("item_size_max {0} is not followed: items of up to 1048576 bytes are stored")]
    ItemSizeMax(u32),
    #[error("a growth factor outside 21/20 to 4, or with numbers above 1000: 5/4 is used")]
    Factor,
    #[error("a growth factor that makes more than 62 classes: 5/4 is used")]
    TooManyClasses,
    #[error("shares or age factors outside the limits of `lru tune`: 20, 40, 0.2 and 2 are used")]
    Tune,
    #[error("temporary_ttl {0} is not followed: 2147483647 is used")]
    TemporaryTtl(u32),
}

/// How many settings there are of which each may be one that can't be followed.
pub const MOST_UNFOLLOWED: usize = 6;

/// lrudb's own configuration in the place of a server's.
#[derive(Drop)]
pub struct Setup {
    /// What lrudb is opened with. What a server does not tell is as lrudb's command line has it.
    pub config: Config,
    /// The classes of this configuration.
    pub classes: ClassTable,
    /// Shares and age factors, where they are not those that lrudb begins with.
    pub tune: Option<Tune>,
    /// The seconds below which a time to live leads to TEMP, where TEMP is in use.
    pub temp_ttl: Option<i32>,
    /// What can't be followed: of memory, chunks, items, classes, shares and TEMP.
    pub unfollowed: [Option<Unfollowed>; MOST_UNFOLLOWED],
}

// The pages for so many bytes.
fn pages_of(max_bytes: u64) -> (u32, Option<Unfollowed>)
    ensures pages { result.0 ≡ pages_of max_bytes }
    ensures unfollowed { result.1 ≡ memory_unfollowed max_bytes }
    ensures within { (1 ≤ result.0) × (result.0 ≤ 4096) }
{
    let pages = max_bytes / u64::from(PAGE_SIZE);
    if pages < 1 {
        (1, Some(Unfollowed::TooLittleMemory))
    } else if pages > u64::from(MOST_PAGES) {
        (MOST_PAGES, Some(Unfollowed::TooMuchMemory))
    } else {
        (pages as u32, None)
    }
}

// The greatest number that divides both.
fn common_divisor(first: u32, second: u32) -> u32
    ensures { IsGcd first second result }
{
    let (mut dividend, mut divisor) = (first, second);
    while divisor != 0 {
        let rest = dividend % divisor;
        dividend = divisor;
        divisor = rest;
    }
    dividend
}

// So many thousandths in lowest terms.
fn reduced(thousandths: u32) -> Factor
    ensures { IsReduced thousandths result }
{
    let divisor = common_divisor(thousandths, 1000);
    Factor {
        num: thousandths / divisor,
        den: 1000 / divisor,
    }
}

// The factor that was given, or else the server's, in thousandths.
fn wanted(thousandths: u32, given: Option<Factor>) -> Factor
    ensures { IsWanted thousandths given result }
{
    match given {
        Some(factor) => factor,
        None => reduced(thousandths),
    }
}

// The configuration of so many pages, with this factor.
fn config_of(pages: u32, factor: Factor, temp_ttl: i32) -> Config
    ensures { result ≡ config_of pages factor temp_ttl }
{
    Config {
        page_size: PAGE_SIZE,
        pages,
        num: factor.num,
        den: factor.den,
        bump: 64,
        hash_power: 10,
        temp_ttl,
        now: 1,
    }
}

// The four numbers, where they are not those that lrudb begins with.
fn tune_of(settings: &Settings) -> (Option<Tune>, Option<Unfollowed>)
    ensures tune { result.0 ≡ tune_of settings.now }
    ensures unfollowed { result.1 ≡ tune_unfollowed settings.now }
{
    let (hot, warm) = (settings.hot_share, settings.warm_share);
    let (hot_factor, warm_factor) = (settings.hot_factor, settings.warm_factor);
    if hot == 20 && warm == 40 && hot_factor == 200 && warm_factor == 2000 {
        return (None, None);
    }
    match Tune::new(hot, warm, hot_factor, warm_factor) {
        Ok(tune) => (Some(tune), None),
        Err(_) => (None, Some(Unfollowed::Tune)),
    }
}

// The seconds below which a time to live leads to TEMP.
fn temp_ttl_of(settings: &Settings) -> (Option<i32>, Option<Unfollowed>)
    ensures seconds { result.0 ≡ temp_ttl_of settings.now }
    ensures unfollowed { result.1 ≡ temp_ttl_unfollowed settings.now }
{
    if !settings.temp_lru {
        return (None, None);
    }
    if settings.temporary_ttl < 1 << 31 {
        (Some(settings.temporary_ttl as i32), None)
    } else {
        (
            Some(i32::MAX),
            Some(Unfollowed::TemporaryTtl(settings.temporary_ttl)),
        )
    }
}

// Below how many seconds an item enters TEMP; -1 where none does.
fn bound_of(temp_ttl: Option<i32>) -> i32
    ensures { result ≡ bound_of temp_ttl }
{
    match temp_ttl {
        Some(seconds) => seconds,
        None => -1,
    }
}

fn chunk_size_of(settings: &Settings) -> Option<Unfollowed>
    ensures { result ≡ chunk_unfollowed settings.now.chunk_size }
{
    if settings.chunk_size == CHUNK_SIZE {
        None
    } else {
        Some(Unfollowed::ChunkSize(settings.chunk_size))
    }
}

fn item_size_of(settings: &Settings) -> Option<Unfollowed>
    ensures { result ≡ item_unfollowed settings.now.item_size_max }
{
    if settings.item_size_max == PAGE_SIZE {
        None
    } else {
        Some(Unfollowed::ItemSizeMax(settings.item_size_max))
    }
}

// How the limit is told that a factor breaks.
fn factor_unfollowed(fault: ConfigFault) -> Unfollowed
    ensures { Some result ≡ factor_unfollowed (Some fault) }
{
    match fault {
        ConfigFault::TooManyClasses => Unfollowed::TooManyClasses,
        _ => Unfollowed::Factor,
    }
}

// The classes of a configuration that breaks no limit.
fn classes_of(config: &Config) -> ClassTable
    requires { fault_of config.now ≡ None }
    ensures { result.sizes ≡ class_sizes config.entry.now }
{
    match ClassTable::build(config) {
        Ok(classes) => classes,
        Err(_) => unreachable!(),
    }
}

// The configuration and its classes with the usual factor.
fn usual(pages: u32, temp_ttl: i32) -> (Config, ClassTable)
    requires { (1 ≤ pages) × (pages ≤ 4096) }
    ensures config { result.0 ≡ config_of pages usual_factor temp_ttl }
    ensures sound { fault_of result.0 ≡ None }
    ensures classes { result.1.sizes ≡ class_sizes result.0 }
{
    let config = config_of(pages, USUAL_FACTOR, temp_ttl);
    let classes = classes_of(&config);
    (config, classes)
}

// The configuration and its classes; where the factor is not one of lrudb's, the usual one stands for it.
fn opened(
    pages: u32,
    factor: Factor,
    temp_ttl: i32,
) -> Result<(Config, ClassTable, Option<Unfollowed>), ConfigFault>
    requires { (1 ≤ pages) × (pages ≤ 4096) }
    ensures never { IsOk result }
    ensures config { IfOk result (λ r. r.0 ≡ opened_config pages factor temp_ttl) }
    ensures sound { IfOk result (λ r. fault_of r.0 ≡ None) }
    ensures classes { IfOk result (λ r. r.1.sizes ≡ class_sizes r.0) }
    ensures unfollowed { IfOk result (λ r. r.2 ≡ factor_unfollowed (fault_of (config_of pages factor temp_ttl))) }
{
    let config = config_of(pages, factor, temp_ttl);
    match ClassTable::build(&config) {
        Ok(classes) => Ok((config, classes, None)),
        Err(fault) => {
            let (config, classes) = usual(pages, temp_ttl);
            Ok((config, classes, Some(factor_unfollowed(fault))))
        }
    }
}

/// What lrudb is to be opened with in the place of a server of these settings. The server shows its growth factor by
/// decimals; `factor` says more where it is given.
///
/// Err: never, since what can't be followed is replaced.
pub fn follow(settings: &Settings, factor: Option<Factor>) -> Result<Setup, ConfigFault>
    ensures never { IsOk result }
    ensures follows { IfOk result (Follows settings.now factor) }
    ensures sound { IfOk result (λ setup. fault_of setup.config ≡ None) }
    ensures classes { IfOk result (λ setup. setup.classes.sizes ≡ class_sizes setup.config) }
{
    let (pages, memory) = pages_of(settings.max_bytes);
    let (tune, shares) = tune_of(settings);
    let (temp_ttl, seconds) = temp_ttl_of(settings);
    let factor = wanted(settings.growth_factor, factor);
    let (config, classes, growth) = opened(pages, factor, bound_of(temp_ttl))?;
    let (chunks, items) = (chunk_size_of(settings), item_size_of(settings));
    Ok(Setup {
        config,
        classes,
        tune,
        temp_ttl,
        unfollowed: [memory, chunks, items, growth, shares, seconds],
    })
}

// Writes `lru tune`, where it is asked for.
fn put_tuning<A: Allocator>(out: &mut Vec<u8, A>, tune: Option<Tune>) -> Result<(), AllocError>
    ensures { OnOk result (Adds out.old.items out.new.items (tune_lines tune)) }
{
    match tune {
        Some(tune) => put_tune(out, tune),
        None => Ok(()),
    }
}

// Writes `lru temp_ttl`, where it is asked for.
fn put_bound<A: Allocator>(out: &mut Vec<u8, A>, temp_ttl: Option<i32>) -> Result<(), AllocError>
    ensures { OnOk result (Adds out.old.items out.new.items (temp_ttl_lines temp_ttl)) }
{
    match temp_ttl {
        Some(seconds) => put_temp_ttl(out, seconds),
        None => Ok(()),
    }
}

/// Writes the first lines of a script: `lru tune` and `lru temp_ttl`, where they are asked for. Each makes one step.
pub fn put_setup<A: Allocator>(out: &mut Vec<u8, A>, setup: &Setup) -> Result<(), AllocError>
    ensures lines { OnOk result (Adds out.old.items out.new.items (setup_lines setup.now.tune setup.now.temp_ttl)) }
    ensures steps { OnOk result (Writes out.old.items out.new.items []) }
{
    put_tuning(out, setup.tune)?;
    put_bound(out, setup.temp_ttl)
}
