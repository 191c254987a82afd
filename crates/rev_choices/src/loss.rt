//! Why a server lost a key, in the words by which it may be asked for, and is told.
ghost use Rattle.std.specs.Prelude.{◌≡◌, IfSome, Some};
ghost use Rattle.rev_choices.specs.Loss.{word_of};

/// Why a key is no longer in a server's memory.
#[derive(Clone, Copy, Debug, PartialEq, Eq)]
pub enum Loss {
    /// An item needed its chunk.
    Evicted,
    /// Its time to live was over.
    Expired,
    /// A `flush_all` came.
    Flushed,
    /// A client deleted it.
    Deleted,
    /// Its page went to another class, where no chunk was free for it.
    EvictedByMover,
    /// A set of the same key failed.
    DroppedByFailedSet,
    /// The server was started anew.
    Restarted,
}

impl Loss {
    /// Its word.
    pub fn word(self) -> &'static str
        ensures { result.now ≡ word_of self }
    {
        match self {
            Loss::Evicted => "evicted",
            Loss::Expired => "expired",
            Loss::Flushed => "flushed",
            Loss::Deleted => "deleted",
            Loss::EvictedByMover => "evicted_by_mover",
            Loss::DroppedByFailedSet => "dropped_by_failed_set",
            Loss::Restarted => "restarted",
        }
    }

    /// The one of this word, if there is one.
    pub fn of(word: &str) -> Option<Loss>
        ensures is { IfSome result (λ loss. word_of loss ≡ word.now) }
        ensures found { (loss : Loss) → word_of loss ≡ word.now → result ≡ Some loss }
    {
        match word {
            "evicted" => Some(Loss::Evicted),
            "expired" => Some(Loss::Expired),
            "flushed" => Some(Loss::Flushed),
            "deleted" => Some(Loss::Deleted),
            "evicted_by_mover" => Some(Loss::EvictedByMover),
            "dropped_by_failed_set" => Some(Loss::DroppedByFailedSet),
            "restarted" => Some(Loss::Restarted),
            _ => None,
        }
    }
}
