//! What became of the lines of logs.
ghost use Rattle.std.specs.Prelude.{◌≡◌};
ghost use Rattle.rev_intake.specs.Counting.{more, no_counts};

/// What became of the lines of logs. Each count stays at the most that 64 bits hold.
#[derive(Clone, Copy, Debug, PartialEq, Eq)]
pub struct LineCounts {
    /// All lines, those that were cut off among them.
    pub lines: u64,
    /// Lines that are none of a log, such as an answer `OK`.
    pub other: u64,
    /// Last lines without an LF, which were not looked at.
    pub cut_off: u64,
    /// Lines that the server left out, as it says, since its watcher was too slow.
    pub skipped: u64,
    /// Events outside the range.
    pub left_out: u64,
    /// Events in the range, of keys that the sample takes or of none.
    pub asked: u64,
    /// Events that came after one of a higher number was given out: they were dropped.
    pub late: u64,
    /// Events whose number another one had: the later one stands for both.
    pub repeated: u64,
    /// Events in the range, of keys that the sample does not take.
    pub other_keys: u64,
}

impl LineCounts {
    /// No line was read.
    pub fn none() -> LineCounts
        ensures { result ≡ no_counts }
    {
        LineCounts {
            lines: 0,
            other: 0,
            cut_off: 0,
            skipped: 0,
            left_out: 0,
            asked: 0,
            late: 0,
            repeated: 0,
            other_keys: 0,
        }
    }
}

// So many more, or as many as 64 bits hold.
pub fn add(count: &mut u64, n: u64)
    ensures { count.new ≡ more count.old n }
{
    *count = count.saturating_add(n);
}
