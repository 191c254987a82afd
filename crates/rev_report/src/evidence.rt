//! What tells of the keys that left, by cause.
ghost use Rattle.std.specs.Prelude.{◌≡◌, fold};
ghost use Rattle.rev_report.specs.Evidence as rule;

use crate::classes::put_column_name;
use rev_markup::markup::Piece::{Count, Markup};
use rev_markup::markup::put;
use std::alloc::AllocError;

/// How many keys left by a cause, by what tells it.
#[derive(Clone, Copy)]
pub struct LeftBy {
    /// The cause in words, as the table by class has it.
    pub cause: &'static str,
    /// A line of the log says it.
    pub logged: u64,
    /// The key went there by the rules of the cache.
    pub replayed: u64,
    /// Later lines show that the key was gone.
    pub inferred: u64,
}

/// How many keys left by all causes, by what tells it.
#[derive(Clone, Copy)]
pub struct LeftInAll {
    pub logged: u64,
    pub replayed: u64,
    pub inferred: u64,
}

/// What is told of a cause, in order.
pub const EVIDENCE_NAMES: [&str; 3] = ["logged", "replayed", "inferred"];

// The sums with those of a cause.
fn with_cause(all: LeftInAll, left: &LeftBy) -> LeftInAll
    ensures { result ≡ rule.with_cause all left.now }
{
    LeftInAll {
        logged: all.logged.saturating_add(left.logged),
        replayed: all.replayed.saturating_add(left.replayed),
        inferred: all.inferred.saturating_add(left.inferred),
    }
}

/// The sums of all causes.
pub fn left_in_all(evidence: &[LeftBy]) -> LeftInAll
    ensures { result ≡ fold rule.with_cause rule.none evidence.now }
{
    let mut all = LeftInAll {
        logged: 0,
        replayed: 0,
        inferred: 0,
    };
    for left in evidence {
        all = with_cause(all, left);
    }
    all
}

// Puts a row.
fn put_row(
    out: &mut Vec<u8>,
    class: &'static str,
    name: &'static str,
    numbers: LeftInAll,
) -> Result<(), AllocError> {
    put(
        out,
        &[
            Markup("<tr"),
            Markup(class),
            Markup("><th scope=\"row\">"),
            Markup(name),
            Markup("</th><td data-label=\"logged\"><span class=\"n\">"),
            Count(numbers.logged),
            Markup("</span></td><td data-label=\"replayed\"><span class=\"n\">"),
            Count(numbers.replayed),
            Markup("</span></td><td data-label=\"inferred\"><span class=\"n\">"),
            Count(numbers.inferred),
            Markup("</span></td></tr>"),
        ],
    )
}

/// Puts a table of what tells of the keys that left, where anything is known of it.
pub fn put_evidence(out: &mut Vec<u8>, evidence: &[LeftBy]) -> Result<(), AllocError> {
    if evidence.is_empty() {
        return Ok(());
    }
    put(
        out,
        &[Markup(
            "<h2>What tells each leaving</h2><div class=\"over\"><table class=\"evidence\"><thead><tr><th scope=\"col\">cause</th>",
        )],
    )?;
    for name in &EVIDENCE_NAMES {
        put_column_name(out, *name)?;
    }
    put(out, &[Markup("</tr></thead><tbody>")])?;
    for left in evidence {
        let numbers = LeftInAll {
            logged: left.logged,
            replayed: left.replayed,
            inferred: left.inferred,
        };
        put_row(out, "", left.cause, numbers)?;
    }
    put_row(out, " class=\"self\"", "total", left_in_all(evidence))?;
    put(
        out,
        &[Markup(
            "</tbody></table></div><p class=\"soft\">Logged: a line of the log says that the key left. Replayed: by the rules of the cache it went there. Inferred: later lines show that the key was gone.</p>",
        )],
    )
}
