//! What a server was configured with, and what its log left out.
ghost use Rattle.std.specs.Prelude.{◌≡◌, ◌≤◌, IfOk, MatchResult, Ok, Err, codes};
ghost use Rattle.std.specs.Option.{option_copied};
ghost use Rattle.rev_watch.specs.Settings.{stat_name, stat_in, stat_value, number_stat, thousandths_stat, switch_stat, or_usual, replacement, settings, log_stats};
ghost use Rattle.rev_watch.specs.declared.settings.Stat.{Stat};

use crate::text::{cut, is_word, value_behind, without_cr};
use rev_script::number::{factor, number};
use std::fmt;
use thiserror::Error;

/// The lines of `stats settings` and `stats` that are looked at, by memcached's own names.
#[derive(Clone, Copy, Debug, PartialEq, Eq)]
pub enum Stat {
    MaxBytes,
    GrowthFactor,
    ChunkSize,
    ItemSizeMax,
    SlabChunkMax,
    HotLruPct,
    WarmLruPct,
    HotMaxFactor,
    WarmMaxFactor,
    TempLru,
    TemporaryTtl,
    Evictions,
    LruMaintainerThread,
    LruSegmented,
    ExtCompactUnder,
    ExtDropUnder,
    LogWorkerDropped,
    LogWatcherSkipped,
}

impl Stat {
    /// The name that stands in the text.
    pub fn name(self) -> &'static str
        ensures { result.now ≡ stat_name self }
    {
        match self {
            Stat::MaxBytes => "maxbytes",
            Stat::GrowthFactor => "growth_factor",
            Stat::ChunkSize => "chunk_size",
            Stat::ItemSizeMax => "item_size_max",
            Stat::SlabChunkMax => "slab_chunk_max",
            Stat::HotLruPct => "hot_lru_pct",
            Stat::WarmLruPct => "warm_lru_pct",
            Stat::HotMaxFactor => "hot_max_factor",
            Stat::WarmMaxFactor => "warm_max_factor",
            Stat::TempLru => "temp_lru",
            Stat::TemporaryTtl => "temporary_ttl",
            Stat::Evictions => "evictions",
            Stat::LruMaintainerThread => "lru_maintainer_thread",
            Stat::LruSegmented => "lru_segmented",
            Stat::ExtCompactUnder => "ext_compact_under",
            Stat::ExtDropUnder => "ext_drop_under",
            Stat::LogWorkerDropped => "log_worker_dropped",
            Stat::LogWatcherSkipped => "log_watcher_skipped",
        }
    }
}

impl fmt::Display for Stat {
    ghost use Rattle.std.specs.Prelude.{Some};
    ghost use Rattle.rev_watch.specs.Settings.{stat_name};

    ghost output = { λ stat. Some (stat_name stat) };

    fn fmt<W: fmt::Write>(&self, f: &mut fmt::Formatter<W>) -> fmt::Result {
        f.write_str(self.name())
    }
}

/// Why a text of statistics says too little.
#[derive(Clone, Copy, Debug, PartialEq, Eq, Drop, Error)]
pub enum StatFault {
    #[error("no line `STAT {0}`")]
    Missing(Stat),
    #[error("`STAT {0}` stands twice")]
    Twice(Stat),
    /// No number, or one out of its range, or no word that may stand there.
    #[error("`STAT {0}` has a value that it cannot have")]
    BadValue(Stat),
}

/// How a server makes room, where it may have other ways than usual. What a text does not tell is as usual: servers of
/// other versions, or built without extstore, do not tell all.
#[derive(Clone, Copy, Debug, PartialEq, Eq)]
pub struct Replacement {
    /// Whether items are evicted, as is usual. Else a command that finds no memory is answered so.
    pub evictions: bool,
    /// Whether the LRU maintainer runs, as is usual.
    pub lru_maintainer: bool,
    /// Whether the items of a class stand in HOT, WARM and COLD, as is usual. Else they stand in one queue.
    pub lru_segmented: bool,
    /// Below how many free pages of its files extstore compacts, and below how many it drops items. Where nothing else
    /// is asked for, each is a quarter of all pages, rounded down. Without extstore they are 0, as is usual.
    pub ext_compact_under: u32,
    pub ext_drop_under: u32,
}

/// What a server was configured with, as far as it decides what is evicted.
#[derive(Clone, Copy, Debug, PartialEq, Eq)]
pub struct Settings {
    /// Bytes for all items.
    pub max_bytes: u64,
    /// The growth factor of chunk sizes in thousandths, 1 to 1000000, from the decimals that the server shows.
    pub growth_factor: u32,
    /// The least bytes for key, value and flags, by which the first class's chunks are sized.
    pub chunk_size: u32,
    /// The most bytes of an item.
    pub item_size_max: u32,
    /// The most bytes of a chunk: a larger item is laid into several.
    pub slab_chunk_max: u32,
    /// Per cent of a class's bytes for HOT and WARM.
    pub hot_share: u32,
    pub warm_share: u32,
    /// How old an item may be in HOT and WARM beside the last one of COLD, in thousandths, 1 to 1000000.
    pub hot_factor: u32,
    pub warm_factor: u32,
    /// Whether items of a short time to live go into TEMP.
    pub temp_lru: bool,
    /// The seconds below which a time to live is short.
    pub temporary_ttl: u32,
    /// How it makes room.
    pub replacement: Replacement,
}

/// How many lines of its log a server did not send.
#[derive(Clone, Copy, Debug, PartialEq, Eq)]
pub struct LogStats {
    /// Lines that its threads had no room for. The log has no trace of them.
    pub worker_dropped: u64,
    /// Lines that watchers were too slow for, of all watchers together. Lines `skipped=` tell of them.
    pub watcher_skipped: u64,
}

// What a line `STAT name value` says.
#[tactic(auto, unfolding(crate::specs::Settings::stat_value))]
fn stat_value<'a>(name: &[u8], line: &'a [u8]) -> Option<&'a [u8]>
    ensures { option_copied result ≡ stat_value name.now line.now }
{
    value_behind(name, b' ', value_behind(b"STAT", b' ', without_cr(line))?)
}

// The value of a line that stands once. What stands behind the last LF is no line.
fn stat_in(text: &[u8], stat: Stat) -> Result<&[u8], StatFault>
    ensures { MatchResult result (λ v. stat_in stat text.now ≡ Ok v.now) (λ e. stat_in stat text.now ≡ Err e) }
{
    let name = stat.name().as_bytes();
    let mut found = None;
    let mut rest = text;
    'lines: loop {
        let (line, more) = cut(rest, b'\n');
        let Some(behind) = more else {
            return found.ok_or(StatFault::Missing(stat));
        };
        if let Some(value) = stat_value(name, line) {
            if found.is_some() {
                return Err(StatFault::Twice(stat));
            }
            found = Some(value);
        }
        rest = behind;
    }
}

// A number of at most `limit`.
#[tactic(auto, unfolding(crate::specs::Settings::number_stat))]
fn number_stat(text: &[u8], stat: Stat, limit: u64) -> Result<u64, StatFault>
    ensures value { result ≡ number_stat limit stat text.now }
    ensures bound { IfOk result (λ n. n ≤ limit) }
{
    let value = stat_in(text, stat)?;
    number(value, limit).ok_or(StatFault::BadValue(stat))
}

fn number_u32_stat(text: &[u8], stat: Stat) -> Result<u32, StatFault>
    ensures { result ≡ number_stat 4294967295 stat text.now }
{
    match number_stat(text, stat, 4294967295) {
        Ok(n) => Ok(n as u32),
        Err(fault) => Err(fault),
    }
}

fn number_u64_stat(text: &[u8], stat: Stat) -> Result<u64, StatFault>
    ensures { result ≡ number_stat 18446744073709551615 stat text.now }
{
    number_stat(text, stat, 18446744073709551615)
}

// A decimal with at most three digits behind its point, in thousandths.
#[tactic(auto, unfolding(crate::specs::Settings::thousandths_stat))]
fn thousandths_stat(text: &[u8], stat: Stat) -> Result<u32, StatFault>
    ensures { result ≡ thousandths_stat stat text.now }
{
    let value = stat_in(text, stat)?;
    factor(value).ok_or(StatFault::BadValue(stat))
}

// One of two words.
#[tactic(auto, unfolding(crate::specs::Settings::switch_stat))]
fn switch_stat(text: &[u8], stat: Stat, on: &[u8], off: &[u8]) -> Result<bool, StatFault>
    ensures { result ≡ switch_stat on.now off.now stat text.now }
{
    let value = stat_in(text, stat)?;
    if is_word(value, on) {
        Ok(true)
    } else if is_word(value, off) {
        Ok(false)
    } else {
        Err(StatFault::BadValue(stat))
    }
}

// `yes` or `no`.
fn yes_stat(text: &[u8], stat: Stat) -> Result<bool, StatFault>
    ensures { result ≡ switch_stat (codes "yes") (codes "no") stat text.now }
{
    switch_stat(text, stat, b"yes", b"no")
}

// What was read, or the usual value where the line is missing.
fn or_usual<T: Copy>(read: Result<T, StatFault>, usual: T) -> Result<T, StatFault>
    ensures { result ≡ or_usual usual read }
{
    match read {
        Ok(value) => Ok(value),
        Err(StatFault::Missing(_)) => Ok(usual),
        Err(fault) => Err(fault),
    }
}

// How a server makes room.
#[tactic(auto, unfolding(crate::specs::Settings::replacement))]
fn read_replacement(text: &[u8]) -> Result<Replacement, StatFault>
    ensures { result ≡ replacement text.now }
{
    Ok(Replacement {
        evictions: or_usual(switch_stat(text, Stat::Evictions, b"on", b"off"), true)?,
        lru_maintainer: or_usual(yes_stat(text, Stat::LruMaintainerThread), true)?,
        lru_segmented: or_usual(yes_stat(text, Stat::LruSegmented), true)?,
        ext_compact_under: or_usual(number_u32_stat(text, Stat::ExtCompactUnder), 0)?,
        ext_drop_under: or_usual(number_u32_stat(text, Stat::ExtDropUnder), 0)?,
    })
}

/// What the text of `stats settings` says: lines `STAT name value`, each ended by LF or CR LF. Other lines are passed
/// by, and so is what stands behind the last LF.
///
/// Err: the first of these settings that is missing, stands twice or has a value that it cannot have. None of those of
/// [`Replacement`] is missing.
#[tactic(auto, unfolding(crate::specs::Settings::settings))]
pub fn read_settings(text: &[u8]) -> Result<Settings, StatFault>
    ensures { result ≡ settings text.now }
{
    Ok(Settings {
        max_bytes: number_u64_stat(text, Stat::MaxBytes)?,
        growth_factor: thousandths_stat(text, Stat::GrowthFactor)?,
        chunk_size: number_u32_stat(text, Stat::ChunkSize)?,
        item_size_max: number_u32_stat(text, Stat::ItemSizeMax)?,
        slab_chunk_max: number_u32_stat(text, Stat::SlabChunkMax)?,
        hot_share: number_u32_stat(text, Stat::HotLruPct)?,
        warm_share: number_u32_stat(text, Stat::WarmLruPct)?,
        hot_factor: thousandths_stat(text, Stat::HotMaxFactor)?,
        warm_factor: thousandths_stat(text, Stat::WarmMaxFactor)?,
        temp_lru: yes_stat(text, Stat::TempLru)?,
        temporary_ttl: number_u32_stat(text, Stat::TemporaryTtl)?,
        replacement: read_replacement(text)?,
    })
}

/// What the text of `stats` says of lines that the server did not send.
///
/// Err: the first of these counters that is missing, stands twice or is no number.
#[tactic(auto, unfolding(crate::specs::Settings::log_stats))]
pub fn read_log_stats(text: &[u8]) -> Result<LogStats, StatFault>
    ensures { result ≡ log_stats text.now }
{
    Ok(LogStats {
        worker_dropped: number_u64_stat(text, Stat::LogWorkerDropped)?,
        watcher_skipped: number_u64_stat(text, Stat::LogWatcherSkipped)?,
    })
}
