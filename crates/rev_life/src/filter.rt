//! Which keys that left are told.
ghost use Rattle.std.specs.Prelude.{◌≡◌, ◌≤◌, ◌↔◌, ℕ, IsTrue, IfSome, Some, true, nat_eq};
ghost use Rattle.std.specs.List.{starts_with};
ghost use Rattle.rev_life.specs.Filter.{Passes};
ghost use Rattle.rev_life.specs.Leaving.{PlainLeaving, plain_leaving};

use crate::leaving::Leaving;
use rev_evidence::verdict::Reason;
use std::alloc::Allocator;

/// Which keys that left are told: those that pass each test that is there.
#[derive(Drop)]
pub struct Filter<'a> {
    /// The slab class.
    pub class: Option<u32>,
    pub reason: Option<Reason>,
    /// How the key begins.
    pub prefix: Option<&'a [u8]>,
    /// The first second, by the Unix clock.
    pub from: Option<u32>,
    /// The last second, by the Unix clock.
    pub to: Option<u32>,
    /// Which life of the server, from 1.
    pub life: Option<u64>,
}

fn is_class(wanted: Option<u32>, class: Option<usize>) -> bool
    ensures { IsTrue result ↔ IfSome wanted (λ c. class ≡ Some c) }
{
    match wanted {
        Some(wanted) => match class {
            Some(class) => class == wanted as usize,
            None => false,
        },
        None => true,
    }
}

fn is_reason(wanted: Option<Reason>, reason: Reason) -> bool
    ensures { IsTrue result ↔ IfSome wanted (λ r. reason ≡ r) }
{
    match wanted {
        Some(wanted) => reason == wanted,
        None => true,
    }
}

fn begins(prefix: Option<&[u8]>, key: &[u8]) -> bool
    ensures { IsTrue result ↔ IfSome prefix.entry (λ p. starts_with nat_eq key.now p.now ≡ true) }
{
    match prefix {
        Some(prefix) => key.starts_with(prefix),
        None => true,
    }
}

fn is_from(from: Option<u32>, second: u32) -> bool
    ensures { IsTrue result ↔ IfSome from (λ s. s ≤ second) }
{
    match from {
        Some(first) => first <= second,
        None => true,
    }
}

fn is_up_to(to: Option<u32>, second: u32) -> bool
    ensures { IsTrue result ↔ IfSome to (λ s. second ≤ s) }
{
    match to {
        Some(last) => second <= last,
        None => true,
    }
}

fn is_life(wanted: Option<u64>, life: u64) -> bool
    ensures { IsTrue result ↔ IfSome wanted (λ n. life ≡ n) }
{
    match wanted {
        Some(wanted) => life == wanted,
        None => true,
    }
}

impl<'a> Filter<'a> {
    /// All keys pass.
    pub fn all() -> Filter<'a>
        ensures { (life : ℕ) → (l : PlainLeaving) → Passes result life l }
    {
        Filter {
            class: None,
            reason: None,
            prefix: None,
            from: None,
            to: None,
            life: None,
        }
    }

    /// Whether a key is told that left in this life of the server.
    pub fn passes<A: Allocator>(&self, life: u64, leaving: &Leaving<'_, A>) -> bool
        ensures { IsTrue result ↔ Passes self.now life (plain_leaving leaving.now) }
    {
        let second = leaving.time.seconds;
        let class = is_class(self.class, leaving.class);
        let reason = is_reason(self.reason, leaving.verdict.reason);
        let prefix = begins(self.prefix, leaving.key.bytes());
        let from = is_from(self.from, second);
        let to = is_up_to(self.to, second);
        let life = is_life(self.life, life);
        class && reason && prefix && from && to && life
    }
}
