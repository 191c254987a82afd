//! A long path, and then questions about keys on it, each behind one more play: so no question is asked twice of one
//! path.

use crate::draft::Draft;
use crate::jobs::traffic::Traffic;
use std::alloc::AllocError;

/// Most keys are asked for up to this rank: some of them never were on the path.
const RANKS: u64 = 20000;

/// Ranks from here on are cold: such a key has some dozen events at most.
const COLD: u64 = 1000;

/// So many plays, and a fifth as many questions, each behind a play.
#[derive(Drop)]
pub struct Ask {
    count: u64,
    traffic: Traffic,
}

// A key that is asked about, hot or cold.
fn any_rank(draft: &mut Draft) -> u64 {
    if draft.random.is_one_in(3) {
        draft.random.rank(15)
    } else {
        draft.random.below(RANKS)
    }
}

fn cold_rank(draft: &mut Draft) -> u64 {
    draft.random.below(RANKS - COLD).wrapping_add(COLD)
}

fn story(draft: &mut Draft) -> Result<(), AllocError> {
    let rank = if draft.random.is_one_in(300) {
        draft.random.below(COLD)
    } else {
        cold_rank(draft)
    };
    draft.keyed(b":story", rank)
}

fn queue(draft: &mut Draft) -> Result<(), AllocError> {
    let class = draft.random.below(8).wrapping_add(2);
    draft.put(b":queue ")?;
    draft.number(class)?;
    draft.line(b" cold")
}

impl Ask {
    pub fn new(count: u64) -> Ask {
        Ask {
            count,
            traffic: Traffic::new(),
        }
    }

    /// The plays, the questions, and the whole tree at the end.
    pub fn turns(&self) -> u64 {
        self.count.saturating_add(self.count / 5).saturating_add(1)
    }

    fn question(&mut self, draft: &mut Draft) -> Result<(), AllocError> {
        match draft.random.below(1000) {
            0..=699 => {
                let rank = any_rank(draft);
                draft.keyed(b":why", rank)
            }
            700..=949 => story(draft),
            950..=989 => {
                let rank = any_rank(draft);
                draft.keyed(b":item", rank)
            }
            990..=997 => draft.line(b":at"),
            _ => queue(draft),
        }
    }

    pub fn put(&mut self, draft: &mut Draft, turn: u64) -> Result<(), AllocError> {
        if turn < self.count {
            self.traffic.put(draft)
        } else if turn < self.count.saturating_add(self.count / 5) {
            self.traffic.put(draft)?;
            self.question(draft)
        } else {
            draft.line(b":tree")
        }
    }
}
