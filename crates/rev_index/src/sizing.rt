//! How many buckets so many keys want, and how many keys so many buckets are enough for.
ghost use Rattle.std.specs.Prelude.{◌≡◌, ◌↔◌, IsTrue, ◌<◌, ◌≤◌, ◌^◌, ◌*◌, ◌+◌, ◌-◌, ◌/◌};

// How many keys a bucket may hold, on average, before there are more buckets.
const KEYS_PER_BUCKET: usize = 2;

// How many times as many buckets there are then.
const GROWTH: usize = 4;

// The most buckets that there can be, 2^20, over `GROWTH`: more than these do not grow.
const MAX_GROWING: usize = 1 << 18;

/// Numbers of keys, with which the buckets stay as they are.
#[derive(Clone, Copy)]
pub struct KeyRange {
    least: usize,
    most: usize,
}

impl KeyRange {
    /// All numbers of keys for which so many buckets are enough.
    pub fn fitting(buckets: usize) -> KeyRange
        ensures least { result.least ≡ 0 }
        ensures growing { buckets ≤ 2 ^ 18 → result.most ≡ 2 * buckets }
        ensures largest { 2 ^ 18 < buckets → result.most ≡ usize.MAX }
    {
        let most = if buckets <= MAX_GROWING {
            KEYS_PER_BUCKET * buckets
        } else {
            usize::MAX
        };
        KeyRange { least: 0, most }
    }

    /// All that are within an eighth of this number.
    pub fn around(keys: usize) -> KeyRange
        ensures least { result.least ≡ keys - keys / 8 }
        ensures most { keys + keys / 8 ≤ usize.MAX → result.most ≡ keys + keys / 8 }
    {
        let part = keys / 8;
        KeyRange {
            least: keys - part,
            most: keys.saturating_add(part),
        }
    }

    /// Whether the number is one of these.
    pub fn contains(self, keys: usize) -> bool
        ensures { IsTrue result ↔ (self.least ≤ keys) × (keys ≤ self.most) }
    {
        self.least <= keys && keys <= self.most
    }
}

// Whether so many buckets hold too many keys, and there can be `GROWTH` times as many.
fn is_crowded(keys: usize, buckets: usize) -> bool
    ensures { IsTrue result ↔ (4 * buckets ≤ 2 ^ 20) × (2 * buckets < keys) }
{
    buckets <= MAX_GROWING && keys > KEYS_PER_BUCKET * buckets
}

/// How many buckets so many keys want: as many as there are, or `GROWTH` times more until they are enough or there
/// cannot be more.
pub fn wanted(keys: usize, buckets: usize) -> usize
    requires some { 0 < buckets }
    requires few { buckets ≤ 2 ^ 20 }
    ensures more { buckets ≤ result }
    ensures few { result ≤ 2 ^ 20 }
    ensures enough { 4 * result ≤ 2 ^ 20 → keys ≤ 2 * result }
{
    let mut wanted = buckets;
    'more: while is_crowded(keys, wanted) {
        wanted *= GROWTH;
    }
    wanted
}
