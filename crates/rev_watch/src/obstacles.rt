//! Settings under which other keys leave than the rules of lrudb say.
ghost use Rattle.std.specs.Prelude.{◌≡◌};
ghost use Rattle.rev_watch.specs.Obstacles.{has_extstore, where_true, obstacles, is_chunked};

use crate::settings::{Replacement, Settings};
use thiserror::Error;

/// A setting of the server, or what a log shows of one, that the rules of lrudb can't follow. Each text says what that
/// means for the answers.
#[derive(Clone, Copy, Debug, PartialEq, Eq, Drop, Error)]
pub enum Obstacle {
    #[error("evictions are off (-M): the server answers out of memory and evicts nothing")]
    NoEvictions,
    #[error("extstore is in use: data go to files and come back, so other keys may have left than is told")]
    Extstore,
    #[error("the LRU maintainer is off: items change queues at stores alone, so other keys may have left than is told")]
    NoMaintainer,
    #[error("each class has one queue (lru_segmented no), so other keys may have left than is told")]
    NotSegmented,
    /// With the most bytes of an item that lies in one chunk.
    #[error("items above {0} bytes lie in several chunks (slab_chunk_max), so other keys may have left than is told")]
    ChunkedItems(u32),
}

/// How many settings there are of which each may be an obstacle by itself.
pub const MOST_OBSTACLES: usize = 4;

// Whether items may go to files.
fn has_extstore(replacement: &Replacement) -> bool
    ensures { result ≡ has_extstore replacement.now }
{
    replacement.ext_compact_under > 0 || replacement.ext_drop_under > 0
}

fn where_true(stands: bool, obstacle: Obstacle) -> Option<Obstacle>
    ensures { result ≡ where_true stands obstacle }
{
    if stands { Some(obstacle) } else { None }
}

/// The obstacles that settings show by themselves: of evictions, of extstore, of the LRU maintainer and of queues.
///
/// The text of `stats settings` names no file of extstore. So extstore is known by its two bounds, and one with fewer
/// than four pages of storage is not seen. Nor is a table of class sizes of the server's own (`slab_sizes`).
pub fn obstacles(settings: &Settings) -> [Option<Obstacle>; MOST_OBSTACLES]
    ensures { result ≡ obstacles settings.now }
{
    let replacement = &settings.replacement;
    [
        where_true(!replacement.evictions, Obstacle::NoEvictions),
        where_true(has_extstore(replacement), Obstacle::Extstore),
        where_true(!replacement.lru_maintainer, Obstacle::NoMaintainer),
        where_true(!replacement.lru_segmented, Obstacle::NotSegmented),
    ]
}

/// Whether an item lies in several chunks, which is an obstacle ([`Obstacle::ChunkedItems`]): it has more than
/// `slab_chunk_max` bytes. `size` are the bytes of the whole item, header, key and data, as `rev_items::footprint`
/// reckons them. By the usual settings, 524288 bytes a chunk for items of up to 1048576, few caches have one, so it is
/// for a log to show.
pub fn is_chunked(settings: &Settings, size: u32) -> bool
    ensures { result ≡ is_chunked settings.now size }
{
    size > settings.slab_chunk_max
}
