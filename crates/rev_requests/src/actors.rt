//! The steps of the store's actors, of its clock and of TEMP's bound.
ghost use Rattle.std.specs.Prelude.{◌≡◌, ◌↔◌, IsTrue};
ghost use Rattle.rev_requests.specs.Plain.{plain_actor};

use rev_model::{ClassSet, Queue};

/// A step of an actor. Classes are named by any number: one that is no class is answered so.
#[derive(Clone, Copy, Debug, PartialEq, Eq)]
pub enum ActorStep {
    /// The maintainer pulls this queue (new_lru.txt).
    Pull { class: u32, queue: Queue },
    /// The maintainer takes the bump queue's first entry (new_lru.txt).
    Bump,
    /// The crawler enters the queues of these classes (protocol.txt, `lru_crawler crawl`).
    StartCrawl(ClassSet),
    /// The crawler moves on in this queue.
    Crawl { class: u32, queue: Queue },
    /// A page of the source class is to go to the target (protocol.txt, `slabs reassign`).
    Reassign { source: u32, target: u32 },
    /// The page mover goes on by a chunk.
    Advance,
    /// The clock is to show this second.
    Clock(u32),
    /// TEMP's bound in seconds; a negative one closes it (protocol.txt, `lru temp_ttl`).
    TempTtl(i32),
}

impl ActorStep {
    /// Whether the two are equal.
    pub fn is_same(self, other: ActorStep) -> bool
        ensures { IsTrue result ↔ (plain_actor self ≡ plain_actor other) }
    {
        self == other
    }
}
