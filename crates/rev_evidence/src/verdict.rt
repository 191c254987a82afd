//! Why a key left, and how sure that is.
ghost use Rattle.std.specs.Prelude.{◌≡◌};
ghost use Rattle.rev_evidence.specs.Verdicts as rule;

use rev_lead::Role;
use rev_model::Cause;

/// Why a key left, or why a life of it ended.
#[derive(Clone, Copy, PartialEq, Eq)]
pub enum Reason {
    /// Its chunk was wanted for another item.
    Evicted,
    /// Its lifetime was over.
    Expired,
    /// A flush had made it invalid.
    Flushed,
    Deleted,
    /// The page mover took its chunk.
    EvictedByMover,
    /// Data that were too large were to take its place.
    DroppedByFailedSet,
    /// The server was started anew.
    Restarted,
    /// New data were stored in its place: only a life ends so, the key stays.
    Replaced,
    /// It is outside the sample that is replayed, and what the server did with it is not looked at.
    Outside,
}

/// What tells that a key left, or that a life of it ended.
#[derive(Clone, Copy)]
pub enum Evidence {
    /// The log says so.
    Logged,
    /// The replay of the log's steps leads to it, by the rules of the cache.
    Replayed,
    /// The log does not show it. Later lines are as if it was so, or a page moved, and the log does not say which items
    /// lay in it.
    Inferred,
}

/// What an event says of the item that it looks up.
#[derive(Clone, Copy, PartialEq, Eq)]
pub enum Said {
    /// It was there, and its lifetime was over.
    Expired,
    /// It was there, and a flush had made it invalid.
    Flushed,
    /// Anything else, or the event is no look-up.
    Other,
}

/// Why a key left, and what tells it.
#[derive(Clone, Copy)]
pub struct Verdict {
    pub reason: Reason,
    pub evidence: Evidence,
}

impl Reason {
    ghost use Rattle.rev_evidence.specs.Words.{reason_word};

    /// The word for it.
    pub fn word(self) -> &'static str
        ensures { result.now ≡ reason_word self }
    {
        match self {
            Reason::Evicted => "evicted",
            Reason::Expired => "expired",
            Reason::Flushed => "flushed",
            Reason::Deleted => "deleted",
            Reason::EvictedByMover => "evicted_by_mover",
            Reason::DroppedByFailedSet => "dropped_by_failed_set",
            Reason::Restarted => "restarted",
            Reason::Replaced => "replaced",
            Reason::Outside => "outside",
        }
    }
}

impl Evidence {
    ghost use Rattle.rev_evidence.specs.Words.{evidence_word};

    /// The word for it.
    pub fn word(self) -> &'static str
        ensures { result.now ≡ evidence_word self }
    {
        match self {
            Evidence::Logged => "logged",
            Evidence::Replayed => "replayed",
            Evidence::Inferred => "inferred",
        }
    }
}

impl Evidence {
    ghost use Rattle.rev_evidence.specs.Verdicts.{is_logged as is_logged_by};

    /// Whether the log says so.
    pub fn is_logged(self) -> bool
        ensures { result ≡ is_logged_by self }
    {
        match self {
            Evidence::Logged => true,
            _ => false,
        }
    }
}

impl Evidence {
    ghost use Rattle.rev_evidence.specs.Verdicts.{is_inferred as is_inferred_by};

    /// Whether it is inferred.
    pub fn is_inferred(self) -> bool
        ensures { result ≡ is_inferred_by self }
    {
        match self {
            Evidence::Inferred => true,
            _ => false,
        }
    }
}

// What is told of an item that the rules evicted.
fn evicted(role: Role) -> Evidence
    ensures { result ≡ rule.evicted role }
{
    match role {
        Role::Evicting => Evidence::Logged,
        _ => Evidence::Replayed,
    }
}

// What is told of a dead item that a look-up met, where a flush is known of or not.
fn met_dead(said: Said, flushed: bool) -> Verdict
    ensures { result ≡ rule.met_dead said flushed }
{
    match said {
        Said::Flushed => Verdict {
            reason: Reason::Flushed,
            evidence: Evidence::Logged,
        },
        Said::Expired => Verdict {
            reason: Reason::Expired,
            evidence: Evidence::Logged,
        },
        Said::Other => Verdict {
            reason: if flushed {
                Reason::Flushed
            } else {
                Reason::Expired
            },
            evidence: Evidence::Replayed,
        },
    }
}

// What is told of a key that was deleted.
fn deleted(role: Role) -> Evidence
    ensures { result ≡ rule.deleted role }
{
    match role {
        Role::Event => Evidence::Logged,
        _ => Evidence::Replayed,
    }
}

// By the cause that the rules give. Which items lie in the page that a server moves is not in its log: what the page
// mover evicts in the replay is as likely still there, and another item gone.
pub(crate) fn by_cause(role: Role, cause: Cause, said: Said, flushed: bool) -> Verdict
    ensures { result ≡ rule.by_cause role cause said flushed }
{
    match cause {
        Cause::Evicted => Verdict {
            reason: Reason::Evicted,
            evidence: evicted(role),
        },
        Cause::ReclaimedByHit => met_dead(said, flushed),
        Cause::ReclaimedByPull | Cause::ReclaimedByCrawler | Cause::ReclaimedByMover => Verdict {
            reason: Reason::Expired,
            evidence: Evidence::Replayed,
        },
        Cause::EvictedByMover => Verdict {
            reason: Reason::EvictedByMover,
            evidence: Evidence::Inferred,
        },
        Cause::DroppedByFailedSet => Verdict {
            reason: Reason::DroppedByFailedSet,
            evidence: Evidence::Logged,
        },
        Cause::Deleted => Verdict {
            reason: Reason::Deleted,
            evidence: deleted(role),
        },
    }
}

// What is told of a key of which a later line shows that it was gone: where a page of its class moved in between, the
// page mover is the likely cause.
fn inferred(moved: bool) -> Verdict
    ensures { result ≡ rule.inferred moved }
{
    Verdict {
        reason: if moved {
            Reason::EvictedByMover
        } else {
            Reason::Deleted
        },
        evidence: Evidence::Inferred,
    }
}

/// What is told of a key that left at a step of this role, where the rules give this cause, the event says this of the
/// item that it looks up, and a step of the event flushed an item or not. None where nothing is told: what is restored
/// for a key that the log shows pushes out what the log says nothing of.
pub fn verdict_of(role: Role, cause: Cause, said: Said, flushed: bool) -> Option<Verdict>
    ensures { result ≡ rule.verdict_of role cause said flushed }
{
    match role {
        Role::Restore => None,
        Role::Eviction => Some(Verdict {
            reason: Reason::Evicted,
            evidence: Evidence::Logged,
        }),
        Role::Inferred { moved, .. } => Some(inferred(moved)),
        Role::Expiry => Some(Verdict {
            reason: Reason::Expired,
            evidence: Evidence::Replayed,
        }),
        Role::Outside => Some(Verdict {
            reason: Reason::Outside,
            evidence: Evidence::Replayed,
        }),
        _ => Some(by_cause(role, cause, said, flushed)),
    }
}
