//! A script that is made as it is read.

use crate::draft::Draft;
use crate::job::Job;
use std::alloc::{AllocError, Global};
use std::cell::Cell;
use std::io;
use std::io::Read;

/// So many bytes are made at once, and the rest of a turn's lines.
const PIECE: usize = 65536;

/// The script of a job: a reader that ends behind its last line.
#[derive(Drop)]
pub struct Script<'a> {
    job: Job,
    draft: Draft,
    // How many bytes of the draft were read.
    taken: usize,
    // The next turn, and the end of the turns.
    turn: u64,
    end: u64,
    bytes: &'a Cell<u64>,
}

impl<'a> Script<'a> {
    /// The script of a job for a seed. The number of bytes that were read of it is kept in `bytes`.
    pub fn new(
        alloc: Global,
        job: Job,
        seed: u64,
        bytes: &'a Cell<u64>,
    ) -> Result<Script<'a>, AllocError> {
        let draft = Draft::new(alloc, seed)?;
        let end = job.turns();
        Ok(Script {
            job,
            draft,
            taken: 0,
            turn: 0,
            end,
            bytes,
        })
    }

    // Makes further lines, where there are any.
    fn refill(&mut self) -> Result<(), AllocError> {
        self.draft.text.clear();
        self.taken = 0;
        for _ in 0..PIECE {
            if self.turn >= self.end || self.draft.text.len() >= PIECE {
                break;
            }
            self.job.put(&mut self.draft, self.turn)?;
            self.turn = self.turn.wrapping_add(1);
        }
        Ok(())
    }
}

impl Read for Script<'_> {
    fn read(&mut self, buf: &mut [u8]) -> io::Result<usize> {
        if self.taken >= self.draft.text.len() {
            self.refill()?;
        }
        let mut rest: &[u8] = self.draft.text.get(self.taken..).unwrap_or(b"");
        let taken = rest.read(buf)?;
        self.taken = self.taken.saturating_add(taken);
        self.bytes.set(self.bytes.get().wrapping_add(taken as u64));
        Ok(taken)
    }
}

#[cfg(test)]
mod tests {
    use super::*;
    use crate::tally::Tally;
    use std::test::Fail;

    // The digest of a short script of this name, read in pieces of this size.
    fn digest_of(alloc: Global, name: &str, seed: u64, size: usize) -> Result<u64, Fail> {
        let job = Job::of(alloc, name, 30).ok_or("no such job")?;
        let bytes = Cell::new(0);
        let mut script = Script::new(alloc, job, seed, &bytes)?;
        let mut tally = Tally::new();
        let mut piece = vec![in alloc; 0; size]?;
        for _ in 0..100000 {
            let taken = script.read(piece.as_mut_slice())?;
            if taken == 0 {
                break;
            }
            tally.add(piece.as_slice().get(..taken).unwrap_or(b""));
        }
        Ok(tally.digest())
    }

    #[test]
    fn a_seed_gives_its_script(rt: HostRuntime) -> Result<(), Fail> {
        let alloc = rt.alloc();
        for name in ["replay", "pressure", "walk", "ask", "story", "large"] {
            let digest = digest_of(alloc, name, 7, 1000)?;
            assert!(rt; digest == digest_of(alloc, name, 7, 17)?, "{name}");
            assert!(rt; digest != digest_of(alloc, name, 8, 1000)?, "{name}");
        }
        Ok(())
    }
}
