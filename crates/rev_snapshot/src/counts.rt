//! How many items each queue has, by `stats items`, and how many pages each class has, by `stats slabs`.
ghost use Rattle.std.specs.Prelude.{◌<◌, IfSome};

use crate::dump::{CLASSES, Item};
use crate::fault::{LineFault, SnapshotFault};
use rev_script::number::number_u32;
use std::alloc::Allocator;

/// What is told of a class.
#[derive(Clone, Copy, Default)]
pub struct ClassCounts {
    /// Items of HOT, WARM, COLD and TEMP.
    pub queues: [u32; 4],
    pub pages: u32,
    pub per_page: u32,
}

impl ClassCounts {
    /// Items of all its queues.
    pub fn queued(&self) -> u64 {
        let [hot, warm, cold, temp] = self.queues;
        u64::from(hot) + u64::from(warm) + u64::from(cold) + u64::from(temp)
    }

    /// Chunks of all its pages.
    pub fn chunks(&self) -> u64 {
        u64::from(self.pages) * u64::from(self.per_page)
    }
}

/// What is told of each class, by its number.
#[derive(Drop)]
pub struct Counts {
    pub classes: [ClassCounts; CLASSES],
}

/// A class that cannot hold what is told of it.
#[derive(Clone, Copy)]
pub struct Unfit {
    pub class: u32,
    /// Items of the dump.
    pub items: u64,
    pub counts: ClassCounts,
}

// A number and the text behind it and a sign.
fn numbered<'a>(text: &'a [u8], sign: u8) -> Option<(usize, &'a [u8])>
    ensures { IfSome result (λ parts. parts.0 < 64) }
{
    let mut parts = text.splitn(2, |byte| *byte == sign);
    let class = number_u32(parts.next()?)? as usize;
    let rest = parts.next()?;
    if class < CLASSES {
        Some((class, rest))
    } else {
        None
    }
}

// Sets a count where the line names it.
fn set_if(count: &mut u32, name: &'static str, text: &[u8]) -> Result<(), LineFault> {
    let Some(rest) = text.strip_prefix(name.as_bytes()) else {
        return Ok(());
    };
    let Some(value) = rest.strip_prefix(b" ") else {
        return Ok(());
    };
    *count = number_u32(value).ok_or(LineFault::BadValue(name))?;
    Ok(())
}

fn set_queues(counts: &mut ClassCounts, text: &[u8]) -> Result<(), LineFault> {
    set_if(&mut counts.queues[0], "number_hot", text)?;
    set_if(&mut counts.queues[1], "number_warm", text)?;
    set_if(&mut counts.queues[2], "number_cold", text)?;
    set_if(&mut counts.queues[3], "number_temp", text)
}

fn set_pages(counts: &mut ClassCounts, text: &[u8]) -> Result<(), LineFault> {
    set_if(&mut counts.pages, "total_pages", text)?;
    set_if(&mut counts.per_page, "chunks_per_page", text)
}

impl Counts {
    /// Nothing is told.
    pub fn none() -> Counts {
        Counts {
            classes: [ClassCounts::default(); CLASSES],
        }
    }

    fn read_line(&mut self, line: &[u8]) -> Result<(), LineFault> {
        let Some(text) = line.strip_prefix(b"STAT ") else {
            return Ok(());
        };
        if let Some(text) = text.strip_prefix(b"items:") {
            if let Some((class, rest)) = numbered(text, b':') {
                return set_queues(&mut self.classes[class], rest);
            }
        } else if let Some((class, rest)) = numbered(text, b':') {
            return set_pages(&mut self.classes[class], rest);
        }
        Ok(())
    }

    /// Takes in a text of `stats items` or `stats slabs`.
    ///
    /// Err: the first line that gives one of these counts a value that it cannot have.
    pub fn read(&mut self, text: &[u8]) -> Result<(), SnapshotFault> {
        let mut line: u64 = 0;
        for row in text.split(|byte| *byte == b'\n') {
            line = line.saturating_add(1);
            if let Err(fault) = self.read_line(row.strip_suffix(b"\r").unwrap_or(row)) {
                return Err(SnapshotFault::Line { line, fault });
            }
        }
        Ok(())
    }

    /// What is told of a class.
    pub fn of(&self, class: usize) -> ClassCounts {
        self.classes.get(class).copied().unwrap_or_default()
    }

    /// The first class that has fewer chunks than items of the dump, or than its queues have, or no queue for an item
    /// of the dump.
    pub fn unfit<A: Allocator>(&self, items: &[Item<A>]) -> Option<Unfit> {
        let mut held = [0u64; CLASSES];
        for item in items {
            if let Some(count) = held.get_mut(item.class as usize) {
                *count = count.saturating_add(1);
            }
        }
        for (class, items) in held.iter().enumerate() {
            let counts = self.of(class);
            let most = counts.queued().max(*items);
            if most > counts.chunks() || (*items > 0 && counts.queued() == 0) {
                return Some(Unfit {
                    class: class as u32,
                    items: *items,
                    counts,
                });
            }
        }
        None
    }
}
