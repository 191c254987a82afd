//! New tables and slots.
ghost use Rattle.std.specs.Prelude.{◌≡◌, ◌≤◌, IfOk, length};
ghost use Rattle.rev_queues.specs.Empty.{AreEnds};

use crate::members::{PositionLink, QueueId, QueueSlot, Standing};
use crate::parts::Slots;
use rev_links::{Link, RingPlace};
use std::alloc::{AllocError, Allocator};

/// So many slots of a page. This and `Queues::open` are all that takes memory; the only error is that there is none.
pub fn slots<A: Allocator>(alloc: A, n: u16) -> Result<Slots<A>, AllocError>
    ensures { IfOk result (λ s. s ≡ n) }
{
    // of a chunk in no queue these say nothing
    let queue = QueueId { number: 0 };
    let place = RingPlace::End(queue);
    let link = Link {
        previous: place,
        next: place,
    };
    let standing = Standing {
        queue,
        footprint: 0,
    };
    let cells = vec![in alloc; QueueSlot { link, standing }; usize::from(n)]?;
    Ok(Slots { cells })
}

/// The ends of so many queues without entries, each before and behind itself.
pub fn empty_ends<A: Allocator>(alloc: A, n: u16) -> Result<Vec<PositionLink, A>, AllocError>
    ensures count { IfOk result (λ v. length v.items ≡ n) }
    ensures empty { IfOk result (λ v. AreEnds v.items) }
{
    let mut ends = Vec::with_capacity(alloc, usize::from(n))?;
    for number in 0..n {
        let place = RingPlace::End(QueueId { number });
        ends.push(Link {
            previous: place,
            next: place,
        })?;
    }
    Ok(ends)
}
