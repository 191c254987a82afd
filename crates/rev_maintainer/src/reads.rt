//! What a pull asks of the store.
ghost use Rattle.std.specs.Prelude.{◌≡◌, ℕ, ◌+◌, ◌<◌, ◌≤◌, ◌||◌};
ghost use Rattle.rev_model.specs.State.{State, WellFormed, item_at, queue_of, IsClass};
ghost use Rattle.rev_model.specs.Words.{tail, share, factor, over, idle_since, age_at};
ghost use Rattle.rev_model.specs.Pull.{takes_all, evicts};

use rev_inverse::Store;
use rev_model::{PullMode, Queue, Settings};
use std::alloc::Allocator;

fn share_of(settings: Settings, queue: Queue) -> u8
    ensures { result ≡ share settings queue }
{
    match queue {
        Queue::Hot => settings.hot_share,
        Queue::Warm => settings.warm_share,
        Queue::Cold => 0,
        Queue::Temp => 0,
    }
}

fn factor_of(settings: Settings, queue: Queue) -> u32
    ensures { result ≡ factor settings queue }
{
    match queue {
        Queue::Hot => settings.hot_factor,
        Queue::Warm => settings.warm_factor,
        Queue::Cold => 0,
        Queue::Temp => 0,
    }
}

pub fn takes_all(mode: PullMode) -> bool
    ensures { result ≡ takes_all mode }
{
    match mode {
        PullMode::Plain => false,
        PullMode::Evicting => false,
        PullMode::ShareZero => true,
    }
}

pub fn evicts(mode: PullMode) -> bool
    ensures { result ≡ evicts mode }
{
    match mode {
        PullMode::Plain => false,
        PullMode::Evicting => true,
        PullMode::ShareZero => false,
    }
}

/// Whether the queue has more than its share of the class's bytes.
pub fn is_over<A: Allocator>(store: &Store<A>, class: usize, queue: Queue) -> bool
    requires well { WellFormed store.now }
    requires class { IsClass store.now.fixed class }
    ensures { result ≡ over store.now class queue }
{
    let hot = store.bytes(class, Queue::Hot) as u128;
    let warm = store.bytes(class, Queue::Warm) as u128;
    let cold = store.bytes(class, Queue::Cold) as u128;
    let own = store.bytes(class, queue) as u128;
    let share = share_of(store.globals().settings, queue) as u128;
    let most = (hot + warm + cold) * share / 100;
    most < own
}

/// How long ago COLD's last item was used.
fn cold_age<A: Allocator>(store: &Store<A>, class: usize) -> u32
    requires well { WellFormed store.now }
    requires class { IsClass store.now.fixed class }
    ensures { result ≡ age_at store.now (tail (queue_of store.now class Queue.Cold)) }
{
    match store.tail(class, Queue::Cold) {
        None => 0,
        Some(chunk) => match store.header(chunk) {
            None => 0,
            Some(item) => store.globals().clock.saturating_sub(item.time),
        },
    }
}

/// Whether an item of this time is idle too long for the queue.
pub fn is_idle<A: Allocator>(store: &Store<A>, class: usize, queue: Queue, time: u32) -> bool
    requires well { WellFormed store.now }
    requires class { IsClass store.now.fixed class }
    ensures { result ≡ idle_since store.now class queue time }
{
    let globals = store.globals();
    let most = factor_of(globals.settings, queue) as u64 * cold_age(store, class) as u64 / 1000;
    let age = globals.clock.saturating_sub(time) as u64;
    most < age
}

/// Whether the queue is over its share, or an item of this time idle too long.
pub fn is_crowded<A: Allocator>(store: &Store<A>, class: usize, queue: Queue, time: u32) -> bool
    requires well { WellFormed store.now }
    requires class { IsClass store.now.fixed class }
    ensures { result ≡ over store.now class queue || idle_since store.now class queue time }
{
    let over = is_over(store, class, queue);
    let idle = is_idle(store, class, queue, time);
    over || idle
}
