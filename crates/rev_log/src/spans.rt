//! What a table has of a key.
ghost use Rattle.std.specs.Prelude.{◌≡◌};
ghost use Rattle.std.specs.Option.{option_map};
ghost use Rattle.rev_log.specs.Events.{time_left};
ghost use Rattle.rev_log.specs.Spans.{noted, with_first, with_lifetime, stored_at, item_of, vote_of};

use crate::events::{leaves_old, time_left};
use crate::seconds::Seconds;
use rev_watch::event::{Event, LogLine, Timestamp};
use std::alloc::Allocator;

// When an item was stored, and with how many seconds to live.
#[derive(Clone, Copy)]
pub struct Stored {
    pub time: Timestamp,
    pub ttl: u32,
}

// The numbers of the first and of the last event that wait and name a key, and its item, where its lifetime is known.
#[derive(Clone, Copy)]
pub struct Span {
    pub first: u64,
    pub last: u64,
    pub stored: Option<Stored>,
}

// One more event names the key.
pub fn noted(before: Option<Span>, number: u64, leaves: bool, stored: Option<Stored>) -> Span
    ensures { result ≡ noted before number leaves stored }
{
    match before {
        None => Span {
            first: number,
            last: number,
            stored,
        },
        Some(before) => Span {
            first: before.first,
            last: number,
            stored: if leaves { before.stored } else { stored },
        },
    }
}

// The first event that names the key is gone.
pub fn with_first(number: u64, span: Span) -> Span
    ensures { result ≡ with_first number span }
{
    Span {
        first: number,
        last: span.last,
        stored: span.stored,
    }
}

// The number of the last event that names the key.
pub fn last_of(span: Option<Span>) -> Option<u64>
    ensures { result ≡ option_map (λ s. s.last) span }
{
    match span {
        Some(span) => Some(span.last),
        None => None,
    }
}

// An item of this lifetime, where it ends. One of 2^31 or more was over as it came.
fn with_lifetime(time: Timestamp, ttl: u32) -> Option<Stored>
    ensures { result ≡ with_lifetime time ttl }
{
    if 0 < ttl && ttl < 1 << 31 {
        Some(Stored { time, ttl })
    } else {
        None
    }
}

// The item that an event stored, where its lifetime ends.
pub fn stored_by<A: Allocator>(line: &LogLine<A>) -> Option<Stored>
    ensures { result ≡ stored_at line.now.time line.now.event }
{
    match &line.event {
        Event::Store { outcome, ttl, .. } => {
            if leaves_old(*outcome) {
                None
            } else {
                with_lifetime(line.time, *ttl)
            }
        }
        _ => None,
    }
}

// The eviction of an item of a known lifetime votes.
pub fn vote<A: Allocator>(seconds: &mut Seconds, known: Option<Span>, line: &LogLine<A>)
    ensures { seconds.new ≡ vote_of seconds.old (item_of known) (time_left line.now.event) line.now.time }
{
    let Some(span) = known else {
        return;
    };
    let Some(stored) = span.stored else {
        return;
    };
    let Some(left) = time_left(&line.event) else {
        return;
    };
    if left <= stored.ttl {
        seconds.vote(stored.time, line.time, stored.ttl - left);
    }
}
