//! In which order the items of a dump are set, and at which second each.
ghost use Rattle.std.specs.Prelude.{◌≡◌, ◌<◌, map, OnOk, IfOk};
ghost use Rattle.std.specs.List.Sorted.{IsPermutation, IsNonDecreasingBy};

use crate::dump::{CLASSES, Item};
use rev_model::Queue;
use std::alloc::{AllocError, Allocator};

/// An item, its queue, and when it is set.
#[derive(Drop)]
pub struct Placed<A: Allocator> {
    pub item: Item<A>,
    pub queue: Queue,
    /// What the clock says as it is set: its last access, as far as the order of its queue lets it be.
    pub second: u32,
    /// Items are set by rising rank: by their seconds, and of one second those first that leave HOT.
    pub rank: u64,
}

// The seconds of the items of each class, so far.
#[derive(Drop)]
struct Seconds {
    // the latest of each queue
    latest: [[u32; 4]; CLASSES],
    // that of HOT's last item, before which those are set that leave HOT
    limits: [u32; CLASSES],
}

fn place_of(queue: Queue) -> usize
    ensures { result < 4 }
{
    match queue {
        Queue::Hot => 0,
        Queue::Warm => 1,
        Queue::Cold => 2,
        Queue::Temp => 3,
    }
}

// Whether an item enters HOT and leaves it.
fn leaves_hot(queue: Queue) -> bool {
    match queue {
        Queue::Warm | Queue::Cold => true,
        Queue::Hot | Queue::Temp => false,
    }
}

impl Seconds {
    // No item was looked at, but for the earliest of each class's HOT.
    fn new<A: Allocator>(items: &[Item<A>], queues: &[Queue]) -> Seconds {
        let mut limits = [u32::MAX; CLASSES];
        for (item, queue) in items.iter().zip(queues.iter()) {
            if *queue == Queue::Hot {
                if let Some(limit) = limits.get_mut(item.class as usize) {
                    *limit = (*limit).min(item.time);
                }
            }
        }
        Seconds {
            latest: [[0; 4]; CLASSES],
            limits,
        }
    }

    // The second at which an item is set, whose queue has those before it.
    fn next(&mut self, class: u32, queue: Queue, time: u32) -> u32 {
        let class = (class % 64) as usize;
        let latest = &mut self.latest[class][place_of(queue)];
        *latest = (*latest).max(time);
        let second = *latest;
        if leaves_hot(queue) {
            second.min(self.limits[class])
        } else {
            second
        }
    }
}

// By which order items of this second are set.
fn rank(second: u32, queue: Queue) -> u64 {
    u64::from(second) * 2 + u64::from(!leaves_hot(queue))
}

/// Items of a dump with the queues in which they stand, in the dump's order.
pub fn place<A: Allocator>(
    alloc: A,
    items: Vec<Item<A>, A>,
    queues: &[Queue],
) -> Result<Vec<Placed<A>, A>, AllocError>
    ensures { IfOk result (λ placed. map (λ p. p.item) placed.items ≡ items.items) }
{
    let mut seconds = Seconds::new(items.as_slice(), queues);
    let mut placed = Vec::new(alloc);
    for item in items {
        let queue = queues.get(placed.len()).copied().unwrap_or(Queue::Cold);
        let second = seconds.next(item.class, queue, item.time);
        placed.push(Placed {
            item,
            queue,
            second,
            rank: rank(second, queue),
        })?;
    }
    Ok(placed)
}

/// Brings items into the order in which they are set. Err: memory was refused.
pub fn arrange<A: Allocator>(placed: &mut Vec<Placed<A>, A>) -> Result<(), AllocError>
    ensures same { IsPermutation placed.old.items placed.new.items }
    ensures rising { OnOk result (IsNonDecreasingBy (λ p. p.rank) placed.new.items) }
{
    placed.sort_by_key(|item| item.rank)?;
    Ok(())
}
