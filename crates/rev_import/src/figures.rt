//! What an import counted.
ghost use Rattle.std.specs.Prelude.{◌≡◌};
ghost use Rattle.rev_import.specs.Figures.{one_more, no_figures};

/// How many events there were of each kind.
#[derive(Clone, Copy, Debug, PartialEq, Eq)]
pub struct EventCounts {
    pub look_ups: u64,
    pub stores: u64,
    pub deletions: u64,
    pub evictions: u64,
    pub page_moves: u64,
    pub crawl_ends: u64,
    /// Connections that were opened or closed.
    pub connections: u64,
    /// Events of a kind that is not known.
    pub unknown: u64,
}

/// What an import counted. Each count stays at the most that 64 bits hold.
#[derive(Clone, Copy, Debug, PartialEq, Eq)]
pub struct Figures {
    /// Events that were taken.
    pub events: EventCounts,
    /// Look-ups that found their key, without those of storage commands.
    pub hits: u64,
    /// Look-ups that did not find their key, without those of storage commands.
    pub misses: u64,
    /// Look-ups of storage commands and deletions, which make no line.
    pub own_look_ups: u64,
    /// Hits that were deletes, as the next look-up of the key tells, and are written as such.
    pub deletes_in_place: u64,
    /// Hits that were deletes, and had been written as hits: the delete is written before the look-up that misses.
    pub deletes_late: u64,
    /// Keys that were held and are gone, and no event tells why.
    pub unexplained: u64,
    /// Storage commands whose data were too large.
    pub too_large: u64,
    /// Page moves and crawls of classes that are none here.
    pub other_classes: u64,
    /// Lines that were written. Each makes one step.
    pub lines: u64,
    /// Items of a log that were stored, and that no page here holds.
    pub unfit: u64,
}

impl Figures {
    /// Nothing was counted.
    pub fn none() -> Figures
        ensures { result ≡ no_figures }
    {
        let events = EventCounts {
            look_ups: 0,
            stores: 0,
            deletions: 0,
            evictions: 0,
            page_moves: 0,
            crawl_ends: 0,
            connections: 0,
            unknown: 0,
        };
        Figures {
            events,
            hits: 0,
            misses: 0,
            own_look_ups: 0,
            deletes_in_place: 0,
            deletes_late: 0,
            unexplained: 0,
            too_large: 0,
            other_classes: 0,
            lines: 0,
            unfit: 0,
        }
    }
}

/// One more, or as many where 64 bits hold no more.
pub fn one_more(count: &mut u64)
    ensures { count.new ≡ one_more count.old }
{
    if *count < u64::MAX {
        *count += 1;
    }
}
