//! What is told of logs and of their replay, as notes: a line for each kind of thing that occurred.
ghost use Rattle.std.specs.Prelude.{◌≡◌, ◌++◌, map, OnOk, false};
ghost use Rattle.rev_replay.specs.Notes as rule;

use crate::counts::LineCounts;
use crate::run::Replay;
use itoa::Buffer;
use rev_choices::Sample;
use rev_lead::Tally;
use std::alloc::{AllocError, Allocator};

// Writes how often something occurred, and what it is, behind a text.
fn put_kind<A: Allocator>(
    out: &mut Vec<u8, A>,
    front: &[u8],
    count: u64,
    what: &str,
) -> Result<(), AllocError>
    ensures { OnOk result (out.new.items ≡ out.old.items ++ rule.kind_text front.now (count, what.now)) }
{
    let mut digits = Buffer::new();
    out.extend_from_slice(front)?;
    out.extend_from_slice(digits.format(count).as_bytes())?;
    out.extend_from_slice(what.as_bytes())
}

// Writes a line of the kinds that occurred, and nothing where none did.
fn put_line<A: Allocator>(
    out: &mut Vec<u8, A>,
    head: &[u8],
    kinds: &[(u64, &str)],
) -> Result<(), AllocError>
    ensures { OnOk result (out.new.items ≡ out.old.items ++ rule.line_text false head.now (map (λ k. (k.0, k.1.now)) kinds.now)) }
{
    let mut begun = false;
    for (count, what) in kinds {
        if *count > 0 {
            put_kind(out, if begun { b", " } else { head }, *count, what)?;
            begun = true;
        }
    }
    if begun {
        out.extend_from_slice(b"\n")?;
    }
    Ok(())
}

#[tactic(auto, unfolding(crate::specs::Notes::read_kinds))]
fn put_read<A: Allocator>(out: &mut Vec<u8, A>, counts: &LineCounts) -> Result<(), AllocError>
    ensures { OnOk result (out.new.items ≡ out.old.items ++ rule.read_text counts.now) }
{
    let kinds = [
        (counts.lines, " lines"),
        (counts.events, " events"),
        (counts.restarts, " restarts of the server"),
    ];
    put_line(out, b"read: ", &kinds)
}

/// Writes which lines were left out, and nothing where none was.
///
/// Err: memory was refused.
#[tactic(auto, unfolding(crate::specs::Notes::left_out_kinds))]
pub(crate) fn put_left_out<A: Allocator>(
    out: &mut Vec<u8, A>,
    counts: &LineCounts,
    late: u64,
    repeated: u64,
) -> Result<(), AllocError>
    ensures { OnOk result (out.new.items ≡ out.old.items ++ rule.left_out_text counts.now late repeated) }
{
    let kinds = [
        (counts.outside, " outside the range"),
        (counts.other, " of no log"),
        (late, " too late for their place"),
        (repeated, " with the number of another"),
        (counts.cut_off, " cut off at an end"),
        (counts.skipped, " skipped by the server for a slow watcher"),
        (counts.of_other_keys, " of keys outside the sample"),
        (counts.page_moves, " page moves outside the sample"),
    ];
    put_line(out, b"left out: ", &kinds)
}

#[tactic(auto, unfolding(crate::specs::Notes::eviction_kinds))]
fn put_evictions<A: Allocator>(out: &mut Vec<u8, A>, tally: &Tally) -> Result<(), AllocError>
    ensures { OnOk result (out.new.items ≡ out.old.items ++ rule.eviction_text tally.now) }
{
    let kinds = [
        (tally.evicted_by_rules, " by the rules as logged"),
        (tally.evicted, " by the log alone"),
        (tally.other_evictions, " stores that evicted another key"),
    ];
    put_line(out, b"evictions: ", &kinds)
}

#[tactic(auto, unfolding(crate::specs::Notes::inferred_kinds))]
fn put_deletes<A: Allocator>(out: &mut Vec<u8, A>, tally: &Tally) -> Result<(), AllocError>
    ensures { OnOk result (out.new.items ≡ out.old.items ++ rule.inferred_text tally.now) }
{
    let kinds = [
        (tally.deleted_at_hit, " deletes in place of hits"),
        (tally.deleted_at_miss, " in front of misses"),
        (tally.wanted, " for a chunk that was free"),
        (tally.wanted_unseen, " of keys not seen again"),
    ];
    put_line(out, b"inferred: ", &kinds)
}

#[tactic(auto, unfolding(crate::specs::Notes::adjusted_kinds))]
fn put_adjustments<A: Allocator>(out: &mut Vec<u8, A>, tally: &Tally) -> Result<(), AllocError>
    ensures { OnOk result (out.new.items ≡ out.old.items ++ rule.adjusted_text tally.now) }
{
    let kinds = [
        (tally.wanted_expired, " expired for a chunk"),
        (tally.lifetimes, " lifetimes"),
        (tally.flushed, " flushed"),
        (tally.restored, " keys that the replay lacked"),
    ];
    put_line(out, b"adjusted: ", &kinds)
}

#[tactic(auto, unfolding(crate::specs::Notes::disagreed_kinds))]
fn put_disagreements<A: Allocator>(out: &mut Vec<u8, A>, tally: &Tally) -> Result<(), AllocError>
    ensures { OnOk result (out.new.items ≡ out.old.items ++ rule.disagreed_text tally.now) }
{
    let kinds = [
        (tally.other_class, " other classes"),
        (tally.refused_moves, " page moves"),
        (tally.no_chunk, " stores without a chunk"),
        (tally.other_answers, " other answers"),
    ];
    put_line(out, b"not agreed with: ", &kinds)
}

/// Writes what became of the lines of the logs, and how far the replay agrees with them: what it was put right by, and
/// what it does not agree with. What never occurred is left off.
///
/// Err: memory was refused.
pub fn put_notes<A: Allocator + Copy>(
    out: &mut Vec<u8, A>,
    replay: &Replay<'_, A>,
) -> Result<(), AllocError>
    ensures { OnOk result (out.new.items ≡ rule.with_notes out.old.items replay.entry.now) }
{
    let counts = replay.counts();
    let tally = replay.tally();
    put_read(out, &counts)?;
    put_left_out(out, &counts, replay.late(), replay.repeated())?;
    put_evictions(out, &tally)?;
    put_deletes(out, &tally)?;
    put_adjustments(out, &tally)?;
    put_disagreements(out, &tally)
}

/// Writes which life of the server was played, of how many, where it had more than one.
///
/// Err: memory was refused.
pub fn put_life<A: Allocator>(out: &mut Vec<u8, A>, life: u64, lives: u64) -> Result<(), AllocError>
    ensures { OnOk result (out.new.items ≡ rule.with_life out.old.items life lives) }
{
    if lives > 1 {
        put_kind(out, b"life: ", life, " of ")?;
        put_kind(
            out,
            b"",
            lives,
            " that the server had; --life N takes another one\n",
        )?;
    }
    Ok(())
}

// Writes that one key of so many is taken, since the server has so many pages.
fn put_one_of<A: Allocator>(out: &mut Vec<u8, A>, one_of: u64, pages: u64) -> Result<(), AllocError>
    ensures { OnOk result (out.new.items ≡ rule.with_sample out.old.items one_of pages) }
{
    put_kind(
        out,
        b"sample: 1 of ",
        one_of,
        " keys, since the server has ",
    )?;
    put_kind(out, b"", pages, " pages; --sample takes another one\n")
}

/// Writes of how many keys one is taken, since the server has so many pages.
///
/// Err: memory was refused.
pub fn put_sample<A: Allocator>(
    out: &mut Vec<u8, A>,
    sample: Sample,
    pages: u64,
) -> Result<(), AllocError>
    ensures { OnOk result (out.new.items ≡ rule.with_sample out.old.items sample.one_of pages) }
{
    put_one_of(out, u64::from(sample.one_of), pages)
}
