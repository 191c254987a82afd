//! What is told of a start that was made.

use crate::counts::{Counts, Unfit};
use crate::order::Placed;
use crate::rounds::Queues;
use itoa::Buffer;
use rev_classes::ClassTable;
use rev_import::writing::MOST_DATA;
use rev_items::footprint;
use std::alloc::{AllocError, Allocator};

/// What was told and what was guessed.
#[derive(Clone, Copy)]
pub struct Figures {
    /// Items of the dump, and of the queues by their counts.
    pub items: u64,
    pub queued: u64,
    /// Items at a place of the rounds where the counts have none of their class.
    pub queues: u64,
    /// Items that are set at another second than that of their last access.
    pub seconds: u64,
    /// Items that lie in another class here than in the server.
    pub classes: u64,
    /// Items whose data no script can store.
    pub too_large: u64,
}

// Counts one more, where it is so.
fn count_if(count: &mut u64, is_so: bool) {
    if is_so {
        *count = count.saturating_add(1);
    }
}

// Whether an item lies in another class here.
fn is_elsewhere<A: Allocator>(classes: &ClassTable, placed: &Placed<A>) -> bool {
    let item = &placed.item;
    let class = classes.class_of(footprint(&item.key, 0, u64::from(item.size)));
    class != Some(item.class as usize)
}

impl Figures {
    /// The figures of a start of these items.
    pub fn of<A: Allocator, B: Allocator>(
        classes: &ClassTable,
        counts: &Counts,
        queues: &Queues<B>,
        items: &[Placed<A>],
    ) -> Figures {
        let mut figures = Figures {
            items: items.len() as u64,
            queued: 0,
            queues: queues.guessed,
            seconds: 0,
            classes: 0,
            too_large: 0,
        };
        for class in counts.classes {
            figures.queued = figures.queued.saturating_add(class.queued());
        }
        for placed in items {
            count_if(&mut figures.seconds, placed.second != placed.item.time);
            count_if(&mut figures.classes, is_elsewhere(classes, placed));
            count_if(&mut figures.too_large, placed.item.size > MOST_DATA);
        }
        figures
    }
}

// Writes a number between two texts.
fn put_part<A: Allocator>(
    out: &mut Vec<u8, A>,
    front: &[u8],
    number: u64,
    back: &[u8],
) -> Result<(), AllocError> {
    let mut digits = Buffer::new();
    out.extend_from_slice(front)?;
    out.extend_from_slice(digits.format(number).as_bytes())?;
    out.extend_from_slice(back)
}

/// Writes what was told, what was guessed and how the start is used.
pub fn put_report<A: Allocator>(
    out: &mut Vec<u8, A>,
    figures: &Figures,
    prefix: &[u8],
) -> Result<(), AllocError> {
    put_part(out, b"read: ", figures.items, b" items of the dump, ")?;
    put_part(out, b"", figures.queued, b" by the counts of queues\n")?;
    put_part(
        out,
        b"guessed: the queues of ",
        figures.queues,
        b" items that the counts do not have there\n",
    )?;
    put_part(
        out,
        b"guessed: the last access of ",
        figures.seconds,
        b" items, by their neighbours'\n",
    )?;
    put_part(
        out,
        b"not followed: the classes of ",
        figures.classes,
        b" items\n",
    )?;
    put_part(
        out,
        b"left out: ",
        figures.too_large,
        b" items of more than 1048576 bytes\n",
    )?;
    out.extend_from_slice(b"to run behind it: lrudb run $(cat ")?;
    out.extend_from_slice(prefix)?;
    out.extend_from_slice(b".options) --start ")?;
    out.extend_from_slice(prefix)?;
    out.extend_from_slice(b".start\n")
}

/// Writes why what was told of a class cannot be.
pub fn put_unfit<A: Allocator>(out: &mut Vec<u8, A>, unfit: &Unfit) -> Result<(), AllocError> {
    put_part(out, b"class ", u64::from(unfit.class), b": ")?;
    put_part(out, b"", unfit.items, b" items, ")?;
    put_part(out, b"", unfit.counts.queued(), b" in its queues, ")?;
    put_part(out, b"", u64::from(unfit.counts.pages), b" pages of ")?;
    put_part(out, b"", u64::from(unfit.counts.per_page), b" chunks")
}
