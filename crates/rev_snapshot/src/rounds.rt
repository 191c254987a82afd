//! In which queue each item of a dump stands. A dump goes round by round over the queues HOT, WARM, COLD and TEMP, and
//! by rising class over each, an item of each class; a class whose queue has ended is passed by. So items whose classes
//! rise are of one queue, and which one it is tell the counts of the queues.

use crate::counts::Counts;
use crate::dump::{CLASSES, Item};
use rev_model::Queue;
use std::alloc::{AllocError, Allocator};

const QUEUES: [Queue; 4] = [Queue::Hot, Queue::Warm, Queue::Cold, Queue::Temp];

/// How many of the next queues of the rounds may be that of a run of items.
const AHEAD: usize = 3;

/// A place in the rounds: the round, counted from 1, and the queue's place among the four.
#[derive(Clone, Copy)]
struct Turn {
    round: u32,
    queue: usize,
}

/// What the rounds tell of a dump.
#[derive(Drop)]
pub struct Queues<A: Allocator> {
    /// The queue of each item, in the dump's order.
    pub of_items: Vec<Queue, A>,
    /// Items of a class that has no item at that place of the rounds, by the counts.
    pub guessed: u64,
}

// A set of one class.
fn bit(class: u32) -> u64 {
    1 << (class % 64)
}

// The classes whose queue has an item in this round.
fn expected(counts: &Counts, turn: Turn) -> u64 {
    let mut classes = 0;
    for class in 0..CLASSES {
        let counts = counts.of(class);
        if counts.queues.get(turn.queue).copied().unwrap_or(0) >= turn.round {
            classes |= bit(class as u32);
        }
    }
    classes
}

// The turn behind this one.
fn behind(turn: Turn) -> Turn {
    if turn.queue < 3 {
        Turn {
            round: turn.round,
            queue: turn.queue + 1,
        }
    } else {
        Turn {
            round: turn.round.saturating_add(1),
            queue: 0,
        }
    }
}

// The next turn in which any class has an item, and these classes.
fn next_turn(counts: &Counts, turn: Turn) -> Option<(Turn, u64)> {
    let mut turn = turn;
    for _ in 0..4 {
        turn = behind(turn);
        let classes = expected(counts, turn);
        if classes != 0 {
            return Some((turn, classes));
        }
    }
    None
}

// The turn, of the next few, whose classes differ least from those of the run.
fn nearest(counts: &Counts, turn: Turn, classes: u64) -> Option<(Turn, u64)> {
    let mut best = None;
    let mut least = u32::MAX;
    let mut turn = turn;
    for _ in 0..AHEAD {
        let Some((next, expected)) = next_turn(counts, turn) else {
            return best;
        };
        let apart = (expected ^ classes).count_ones();
        if apart < least {
            least = apart;
            best = Some((next, expected));
        }
        turn = next;
    }
    best
}

// The classes of items.
fn classes_of<A: Allocator>(items: &[Item<A>]) -> u64 {
    let mut classes = 0;
    for item in items {
        classes |= bit(item.class);
    }
    classes
}

/// The queues of a dump's items.
pub fn queues_of<A: Allocator, B: Allocator>(
    alloc: B,
    items: &[Item<A>],
    counts: &Counts,
) -> Result<Queues<B>, AllocError> {
    let mut of_items = Vec::new(alloc);
    let mut guessed: u64 = 0;
    let mut turn = Turn { round: 0, queue: 3 };
    for run in items.chunk_by(|item, next| item.class < next.class) {
        let classes = classes_of(run);
        let (next, expected) = nearest(counts, turn, classes).unwrap_or((turn, 0));
        turn = next;
        guessed = guessed.saturating_add(u64::from((classes & !expected).count_ones()));
        let queue = QUEUES.get(turn.queue).copied().unwrap_or(Queue::Cold);
        for _ in 0..run.len() {
            of_items.push(queue)?;
        }
    }
    Ok(Queues { of_items, guessed })
}
