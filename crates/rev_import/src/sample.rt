//! Which events a sample takes.
ghost use Rattle.std.specs.Prelude.{◌≡◌};
ghost use Rattle.rev_import.specs.Sample.{takes_event};

use rev_choices::Sample;
use rev_watch::event::Event;
use std::alloc::Allocator;

/// Whether a sample takes an event: one of a key that it takes, or of none.
pub fn takes_event<A: Allocator>(sample: Sample, event: &Event<A>) -> bool
    ensures { result ≡ takes_event sample.one_of event.now }
{
    match event {
        Event::LookUp { key, .. } => sample.takes(key),
        Event::Store { key, .. } => sample.takes(key),
        Event::Deletion { key, .. } => sample.takes(key),
        Event::Eviction { key, .. } => sample.takes(key),
        _ => true,
    }
}
