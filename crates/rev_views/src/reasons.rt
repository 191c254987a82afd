//! Why a key was gone, and its story.
ghost use Rattle.std.specs.Prelude.{◌≡◌, ◌++◌, OnOk};
ghost use Rattle.rev_explain.specs.Story.{why_of, story as story_of};
ghost use Rattle.rev_evidence.specs.Notes.{told_before, is_outside};
ghost use Rattle.rev_views.specs.Reasons.{cause_word, second_word, behind_words, told_words, left_words, place_words, event_words, event_text, events_text, departed_text, absent_text, before_text, never_text, why_text};

use rev_evidence::departed::Told;
use rev_evidence::notes::LogNotes;
use rev_explain::events::{Event, EventKind, Why};
use rev_explain::{story, why};
use rev_items::Key;
use rev_model::{Cause, ClassQueue};
use rev_texts::text::{put_field, put_number, put_output, queue_text};
use rev_undotree::{NodeId, Session};
use rev_watch::event::Timestamp;
use std::alloc::{AllocError, Allocator};

// The word of a cause (this project's own).
fn cause_word(cause: Cause) -> &'static [u8]
    ensures { result.now ≡ cause_word cause }
{
    match cause {
        Cause::Evicted => b"evicted",
        Cause::ReclaimedByPull => b"reclaimed_by_pull",
        Cause::ReclaimedByCrawler => b"reclaimed_by_crawler",
        Cause::ReclaimedByHit => b"reclaimed_by_hit",
        Cause::ReclaimedByMover => b"reclaimed_by_mover",
        Cause::EvictedByMover => b"evicted_by_mover",
        Cause::Deleted => b"deleted",
        Cause::DroppedByFailedSet => b"dropped_by_failed_set",
    }
}

// Writes a second, or `-` where none is known.
fn put_second<A: Allocator>(out: &mut Vec<u8, A>, time: Option<Timestamp>) -> Result<(), AllocError>
    ensures { OnOk result (out.new.items ≡ out.old.items ++ second_word time) }
{
    match time {
        Some(time) => put_number(out, time.seconds as u64),
        None => out.extend_from_slice(b"-"),
    }
}

// Writes behind which second a key left, where that is inferred.
fn put_behind<A: Allocator>(
    out: &mut Vec<u8, A>,
    is_inferred: bool,
    time: Option<Timestamp>,
) -> Result<(), AllocError>
    ensures { OnOk result (out.new.items ≡ out.old.items ++ behind_words is_inferred time) }
{
    if !is_inferred {
        return Ok(());
    }
    out.extend_from_slice(b" ")?;
    put_second(out, time)
}

// Writes what a log tells of a key that left: why, what tells it, and the second, or between which seconds.
fn put_told<A: Allocator>(out: &mut Vec<u8, A>, told: Told) -> Result<(), AllocError>
    ensures { OnOk result (out.new.items ≡ out.old.items ++ told_words told) }
{
    out.extend_from_slice(told.verdict.reason.word().as_bytes())?;
    out.extend_from_slice(b" ")?;
    out.extend_from_slice(told.verdict.evidence.word().as_bytes())?;
    put_behind(out, told.verdict.evidence.is_inferred(), told.after)?;
    put_field(out, b" ", told.time.seconds as u64)
}

/// Writes why a key left at a node, where the rules give this cause: what the log tells of it, or the word of the
/// cause.
pub(crate) fn put_left<A: Allocator + Clone>(
    out: &mut Vec<u8, A>,
    log: &LogNotes<A>,
    node: NodeId,
    cause: Cause,
    key: &Key<A>,
) -> Result<(), AllocError>
    ensures { OnOk result (out.new.items ≡ out.old.items ++ left_words log.now node.0 cause key.now) }
{
    match log.told_at(node, cause, key) {
        Some(told) => put_told(out, told),
        None => out.extend_from_slice(cause_word(cause)),
    }
}

// Writes that a key left in front of the root, with what is told of it.
fn put_departed<A: Allocator>(out: &mut Vec<u8, A>, told: Told) -> Result<(), AllocError>
    ensures { OnOk result (out.new.items ≡ out.old.items ++ departed_text told) }
{
    out.extend_from_slice(b"LEFT 0 ")?;
    put_told(out, told)?;
    out.extend_from_slice(b"\r\n")
}

// Writes that nothing is known of a key, and since when that is so, where the log goes back behind the root.
fn put_absent<A: Allocator>(
    out: &mut Vec<u8, A>,
    since: Option<Timestamp>,
) -> Result<(), AllocError>
    ensures { OnOk result (out.new.items ≡ out.old.items ++ absent_text since) }
{
    match since {
        None => put_output(out, b"NEVER"),
        Some(time) => {
            put_field(out, b"NEVER since ", time.seconds as u64)?;
            out.extend_from_slice(b"\r\n")
        }
    }
}

// Writes what is told of the last leaving of a key in front of the root, as far as that is remembered.
fn put_before<A: Allocator + Clone>(
    out: &mut Vec<u8, A>,
    log: &LogNotes<A>,
    key: &Key<A>,
) -> Result<(), AllocError>
    ensures { OnOk result (out.new.items ≡ out.old.items ++ before_text (told_before log.now key.now) log.now.since) }
{
    match log.told_before(key) {
        Some(told) => put_departed(out, told),
        None => put_absent(out, log.since()),
    }
}

// Writes why a key is gone that never was there since the root: that it is in no sample, or what is told of it before.
fn put_never<A: Allocator + Clone>(
    out: &mut Vec<u8, A>,
    log: &LogNotes<A>,
    key: &Key<A>,
) -> Result<(), AllocError>
    ensures { OnOk result (out.new.items ≡ out.old.items ++ never_text (is_outside log.now key.now) (told_before log.now key.now) log.now.since) }
{
    if log.is_outside(key) {
        put_output(out, b"OUTSIDE")
    } else {
        put_before(out, log, key)
    }
}

/// Writes why the key is not held at the current node, with what the log tells of it.
pub fn put_why<A: Allocator + Clone>(
    session: &Session<A>,
    log: &LogNotes<A>,
    key: &Key<A>,
    out: &mut Vec<u8, A>,
) -> Result<(), AllocError>
    ensures { OnOk result (out.new.items ≡ out.old.items ++ why_text log.now key.now (why_of session.now.root session.now.rows session.now.current key.now)) }
{
    match why(session, key) {
        Why::Present => put_output(out, b"PRESENT"),
        Why::Never => put_never(out, log, key),
        Why::Left { node, cause } => {
            put_field(out, b"LEFT ", node.0 as u64)?;
            out.extend_from_slice(b" ")?;
            put_left(out, log, node, cause, key)?;
            out.extend_from_slice(b"\r\n")
        }
    }
}

// Writes a class and a queue.
fn put_place<A: Allocator>(out: &mut Vec<u8, A>, place: ClassQueue) -> Result<(), AllocError>
    ensures { OnOk result (out.new.items ≡ out.old.items ++ place_words place) }
{
    put_field(out, b" ", place.class as u64)?;
    out.extend_from_slice(b" ")?;
    out.extend_from_slice(queue_text(place.queue))
}

// Writes what the step of a node did to the key.
fn put_kind<A: Allocator + Clone>(
    out: &mut Vec<u8, A>,
    log: &LogNotes<A>,
    key: &Key<A>,
    event: Event,
) -> Result<(), AllocError>
    ensures { OnOk result (out.new.items ≡ out.old.items ++ event_words log.now key.now event.node.0 event.kind) }
{
    match event.kind {
        EventKind::Stored(place) => {
            out.extend_from_slice(b" stored")?;
            put_place(out, place)
        }
        EventKind::Replaced(place) => {
            out.extend_from_slice(b" replaced")?;
            put_place(out, place)
        }
        EventKind::Moved { from, to } => {
            out.extend_from_slice(b" moved ")?;
            out.extend_from_slice(queue_text(from))?;
            out.extend_from_slice(b" ")?;
            out.extend_from_slice(queue_text(to))
        }
        EventKind::Left(cause) => {
            out.extend_from_slice(b" left ")?;
            put_left(out, log, event.node, cause, key)
        }
    }
}

// Writes the line of an event of the key.
fn put_event<A: Allocator + Clone>(
    out: &mut Vec<u8, A>,
    log: &LogNotes<A>,
    key: &Key<A>,
    event: Event,
) -> Result<(), AllocError>
    ensures { OnOk result (out.new.items ≡ out.old.items ++ event_text log.now key.now event) }
{
    put_number(out, event.node.0 as u64)?;
    put_kind(out, log, key, event)?;
    out.extend_from_slice(b"\r\n")
}

/// Writes a line for each event of the key on the way from the root to the current node, with what the log tells of
/// it, and `END`.
pub fn put_story<A: Allocator + Clone>(
    session: &Session<A>,
    log: &LogNotes<A>,
    key: &Key<A>,
    out: &mut Vec<u8, A>,
) -> Result<(), AllocError>
    ensures { OnOk result (out.new.items ≡ out.old.items ++ events_text log.now key.now (story_of session.now.root session.now.rows session.now.current key.now)) }
{
    for event in story(session, key)? {
        put_event(out, log, key, event)?;
    }
    put_output(out, b"END")
}
