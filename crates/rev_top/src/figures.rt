//! How often things happened to the keys of a name.
ghost use Rattle.std.specs.Prelude.{◌≡◌, ◌∷◌, [], List};
ghost use Rattle.rev_top.specs.Figures as rule;
ghost use Rattle.rev_top.specs.declared.facts.Fact.{Fact};

use crate::facts::Fact;

/// How often things happened to the keys of a name. A figure stays at the most that 64 bits hold.
#[derive(Clone, Copy)]
pub struct Figures {
    pub stores: u64,
    /// The bytes of the data of these stores.
    pub bytes: u64,
    pub hits: u64,
    pub misses: u64,
    pub evictions: u64,
    /// How many of the evicted were asked for again.
    pub asked_again: u64,
}

/// Nothing happened.
pub const NOTHING: Figures = Figures {
    stores: 0,
    bytes: 0,
    hits: 0,
    misses: 0,
    evictions: 0,
    asked_again: 0,
};

impl Figures {
    // The same with one more fact.
    fn counted(self, fact: Fact) -> Figures
        ensures { result ≡ rule.counted fact self }
    {
        let mut figures = self;
        match fact {
            Fact::Stored(size) => {
                figures.stores = figures.stores.saturating_add(1);
                figures.bytes = figures.bytes.saturating_add(u64::from(size));
            }
            Fact::Hit => figures.hits = figures.hits.saturating_add(1),
            Fact::Missed => figures.misses = figures.misses.saturating_add(1),
            Fact::Evicted => figures.evictions = figures.evictions.saturating_add(1),
            Fact::AskedAgain => figures.asked_again = figures.asked_again.saturating_add(1),
        }
        figures
    }

    /// The same with one more fact: figures of some facts become those of the facts with this one.
    pub fn with(self, fact: Fact) -> Figures
        ensures counted { result ≡ rule.counted fact self }
        ensures sums { (facts : List Fact) → self ≡ rule.figures_of facts → result ≡ rule.figures_of (fact ∷ facts) }
    {
        self.counted(fact)
    }

    /// The sums of two.
    pub fn plus(self, other: Figures) -> Figures
        ensures { result ≡ rule.plus self other }
    {
        Figures {
            stores: self.stores.saturating_add(other.stores),
            bytes: self.bytes.saturating_add(other.bytes),
            hits: self.hits.saturating_add(other.hits),
            misses: self.misses.saturating_add(other.misses),
            evictions: self.evictions.saturating_add(other.evictions),
            asked_again: self.asked_again.saturating_add(other.asked_again),
        }
    }

    /// Whether nothing happened.
    pub fn is_nothing(self) -> bool
        ensures { result ≡ rule.is_nothing self }
    {
        self.stores == 0
            && self.hits == 0
            && self.misses == 0
            && self.evictions == 0
            && self.asked_again == 0
    }
}
