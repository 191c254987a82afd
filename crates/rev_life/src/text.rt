//! What is told of keys, as text for people.
ghost use Rattle.std.specs.Prelude.{◌≡◌, ◌++◌, OnOk};
ghost use Rattle.std.specs.Option.{option_map};
ghost use Rattle.rev_life.specs.Texts as rule;
ghost use Rattle.rev_life.specs.Words.{queue_word as word_of};
ghost use Rattle.rev_life.specs.Leaving.{plain_leaving, plain_pusher};
ghost use Rattle.rev_life.specs.Lives.{plain_culprit, plain_left, plain_life, plain_ended};

use crate::leaving::{Leaving, Pusher};
use crate::life::{Culprit, Ended, KeyLives, Left, Life};
use rev_items::Key;
use rev_model::Queue;
use rev_pushers::pieces::{Piece, put};
use rev_pushers::pushed_text::put_pushed;
use rev_pushers::stored::Stored;
use rev_watch::event::Timestamp;
use std::alloc::{AllocError, Allocator};

/// The word for a queue.
pub fn queue_word(queue: Queue) -> &'static str
    ensures { result.now ≡ word_of queue }
{
    match queue {
        Queue::Hot => "hot",
        Queue::Warm => "warm",
        Queue::Cold => "cold",
        Queue::Temp => "temp",
    }
}

// Writes which step pushed a key out, where one did, and ends the line.
fn put_pusher<A: Allocator + Copy, B: Allocator>(
    alloc: A,
    out: &mut Vec<u8, A>,
    pusher: Option<&Pusher<'_, B>>,
) -> Result<(), AllocError>
    ensures { OnOk result (out.new.items ≡ out.old.items ++ rule.pusher_text (option_map (λ p. plain_pusher p.now) pusher.entry)) }
{
    match pusher {
        Some(pusher) => put(
            alloc,
            out,
            &[
                Piece::Text(" by "),
                Piece::Key(pusher.key.bytes()),
                Piece::Text(" connection "),
                Piece::Connection(pusher.connection),
                Piece::Text(" step "),
                Piece::Number(pusher.step),
                Piece::Text("\n"),
            ],
        ),
        None => put(alloc, out, &[Piece::Text("\n")]),
    }
}

/// Writes a line of a key that left: when, the step, the key, its class, why, what tells it, and which store pushed it
/// out.
///
/// Err: memory was refused.
pub fn put_leaving<A: Allocator + Copy, B: Allocator>(
    alloc: A,
    out: &mut Vec<u8, A>,
    leaving: &Leaving<'_, B>,
) -> Result<(), AllocError>
    ensures { OnOk result (out.new.items ≡ rule.behind out.old.items (rule.leaving_parts (plain_leaving leaving.now))) }
{
    put(
        alloc,
        out,
        &[
            Piece::Time(leaving.time),
            Piece::Text(" "),
            Piece::Number(leaving.step),
            Piece::Text(" "),
            Piece::Key(leaving.key.bytes()),
            Piece::Text(" class "),
            Piece::Class(leaving.class),
            Piece::Text(" "),
            Piece::Text(leaving.verdict.reason.word()),
            Piece::Text(" "),
            Piece::Text(leaving.verdict.evidence.word()),
        ],
    )?;
    put_pusher(alloc, out, leaving.culprit.as_ref())
}

// How a life began.
fn front(stored: Stored, over: bool) -> &'static str
    ensures { result.now ≡ rule.front_word stored over }
{
    if !stored.logged {
        ": held before "
    } else if over {
        ": stored over the one before "
    } else {
        ": stored "
    }
}

fn hits_word(hits: u64) -> &'static str
    ensures { result.now ≡ rule.hits_word hits }
{
    if hits == 1 { " hit\n" } else { " hits\n" }
}

// Writes the store that a life of a key began with, and how often the key was found.
fn put_stored<A: Allocator + Copy, B: Allocator>(
    alloc: A,
    out: &mut Vec<u8, A>,
    key: &Key<B>,
    life: &Life<B>,
) -> Result<(), AllocError>
    ensures { OnOk result (out.new.items ≡ out.old.items ++ rule.stored_text key.now (plain_life life.now)) }
{
    put(
        alloc,
        out,
        &[
            Piece::Key(key.bytes()),
            Piece::Text(", life "),
            Piece::Number(life.number),
            Piece::Text(front(life.stored, life.over)),
            Piece::Time(life.stored.time),
            Piece::Text(" (step "),
            Piece::Number(life.stored.step),
            Piece::Text(", class "),
            Piece::Number(life.stored.class as u64),
            Piece::Text(", connection "),
            Piece::Connection(life.stored.connection),
            Piece::Text("), "),
            Piece::Number(life.hits),
            Piece::Text(hits_word(life.hits)),
        ],
    )
}

fn times_word(times: u64) -> &'static str
    ensures { result.now ≡ rule.times_word times }
{
    if times == 1 {
        " time, from "
    } else {
        " times, last from "
    }
}

// Writes how often a key's item went to another queue, and when last, where it did.
fn put_moves<A: Allocator + Copy, B: Allocator>(
    alloc: A,
    out: &mut Vec<u8, A>,
    life: &Life<B>,
) -> Result<(), AllocError>
    ensures { OnOk result (out.new.items ≡ out.old.items ++ rule.moves_text (plain_life life.now)) }
{
    match life.moves.last() {
        Some(last) => put(
            alloc,
            out,
            &[
                Piece::Text("  moved "),
                Piece::Number(life.moved),
                Piece::Text(times_word(life.moved)),
                Piece::Text(queue_word(last.from)),
                Piece::Text(" to "),
                Piece::Text(queue_word(last.to)),
                Piece::Text(" "),
                Piece::Time(last.time),
                Piece::Text(" (step "),
                Piece::Number(last.step),
                Piece::Text(")\n"),
            ],
        ),
        None => Ok(()),
    }
}

// Writes behind which line a key left, where that is known.
fn put_after<A: Allocator + Copy>(
    alloc: A,
    out: &mut Vec<u8, A>,
    after: Option<Timestamp>,
) -> Result<(), AllocError>
    ensures { OnOk result (out.new.items ≡ out.old.items ++ rule.after_text after) }
{
    match after {
        Some(time) => put(
            alloc,
            out,
            &[Piece::Text("after "), Piece::Time(time), Piece::Text(", ")],
        ),
        None => Ok(()),
    }
}

// Writes when a key left, or between which lines.
fn put_when<A: Allocator + Copy, B: Allocator>(
    alloc: A,
    out: &mut Vec<u8, A>,
    left: &Left<B>,
) -> Result<(), AllocError>
    ensures { OnOk result (out.new.items ≡ rule.behind out.old.items (rule.when_parts left.now.time left.now.after left.now.before)) }
{
    match left.before {
        Some(time) => {
            put_after(alloc, out, left.after)?;
            put(
                alloc,
                out,
                &[Piece::Text("at the latest "), Piece::Time(time)],
            )
        }
        None => put(alloc, out, &[Piece::Time(left.time)]),
    }
}

// Writes which step pushed a key out, where one did.
fn put_culprit<A: Allocator + Copy, B: Allocator>(
    alloc: A,
    out: &mut Vec<u8, A>,
    culprit: Option<&Culprit<B>>,
) -> Result<(), AllocError>
    ensures { OnOk result (out.new.items ≡ out.old.items ++ rule.culprit_text (option_map (λ c. plain_culprit c.now) culprit.entry)) }
{
    match culprit {
        Some(culprit) => put(
            alloc,
            out,
            &[
                Piece::Text(", by set of "),
                Piece::Key(culprit.key.bytes()),
                Piece::Text(" (connection "),
                Piece::Connection(culprit.connection),
                Piece::Text(", step "),
                Piece::Number(culprit.step),
                Piece::Text(")"),
            ],
        ),
        None => Ok(()),
    }
}

// Writes how a life ended.
fn put_left<A: Allocator + Copy, B: Allocator>(
    alloc: A,
    out: &mut Vec<u8, A>,
    left: &Left<B>,
) -> Result<(), AllocError>
    ensures { OnOk result (out.new.items ≡ rule.with_left out.old.items (plain_left left.now)) }
{
    put(alloc, out, &[Piece::Text("  left ")])?;
    put_when(alloc, out, left)?;
    put(
        alloc,
        out,
        &[
            Piece::Text(" (step "),
            Piece::Number(left.step),
            Piece::Text("): "),
            Piece::Text(left.verdict.reason.word()),
            Piece::Text(", "),
            Piece::Text(left.verdict.evidence.word()),
        ],
    )?;
    put_culprit(alloc, out, left.culprit.as_ref())
}

// Writes how long a life lasted, where that is known.
fn put_lived<A: Allocator + Copy>(
    alloc: A,
    out: &mut Vec<u8, A>,
    lived: Option<u64>,
) -> Result<(), AllocError>
    ensures { OnOk result (out.new.items ≡ out.old.items ++ rule.lived_text lived) }
{
    match lived {
        Some(micros) => put(
            alloc,
            out,
            &[
                Piece::Text("lived "),
                Piece::Seconds(micros),
                Piece::Text(" s, "),
            ],
        ),
        None => Ok(()),
    }
}

// Writes how long a life lasted up to a moment, and how long the key was idle then.
fn put_spans<A: Allocator + Copy, B: Allocator>(
    alloc: A,
    out: &mut Vec<u8, A>,
    life: &Life<B>,
    end: Timestamp,
) -> Result<(), AllocError>
    ensures { OnOk result (out.new.items ≡ rule.behind out.old.items (rule.spans_parts (plain_life life.now) end)) }
{
    put(alloc, out, &[Piece::Text("; ")])?;
    put_lived(alloc, out, life.lived(end))?;
    put(
        alloc,
        out,
        &[
            Piece::Text("idle "),
            Piece::Seconds(life.idle(end)),
            Piece::Text(" s\n"),
        ],
    )
}

// Writes a life of a key that has ended.
fn put_ended<A: Allocator + Copy, B: Allocator>(
    alloc: A,
    out: &mut Vec<u8, A>,
    key: &Key<B>,
    ended: &Ended<B>,
) -> Result<(), AllocError>
    ensures { OnOk result (out.new.items ≡ rule.with_ended out.old.items key.now (plain_ended ended.now)) }
{
    put_stored(alloc, out, key, &ended.life)?;
    put_moves(alloc, out, &ended.life)?;
    put_left(alloc, out, &ended.left)?;
    put_spans(alloc, out, &ended.life, ended.left.time)?;
    put_pushed(alloc, out, ended.life.stored, ended.pushed.as_ref())
}

// Writes a life of a key that has not ended now.
fn put_held<A: Allocator + Copy, B: Allocator>(
    alloc: A,
    out: &mut Vec<u8, A>,
    key: &Key<B>,
    life: &Life<B>,
    now: Timestamp,
) -> Result<(), AllocError>
    ensures { OnOk result (out.new.items ≡ rule.with_held out.old.items key.now (plain_life life.now) now) }
{
    put_stored(alloc, out, key, life)?;
    put_moves(alloc, out, life)?;
    put(
        alloc,
        out,
        &[Piece::Text("  held at the end "), Piece::Time(now)],
    )?;
    put_spans(alloc, out, life, now)
}

// Writes of a key that was never held whether a line names it.
fn put_unheld<A: Allocator + Copy, B: Allocator>(
    alloc: A,
    out: &mut Vec<u8, A>,
    key: &Key<B>,
    named: Option<Timestamp>,
) -> Result<(), AllocError>
    ensures { OnOk result (out.new.items ≡ out.old.items ++ rule.unheld_text key.now named) }
{
    match named {
        Some(time) => put(
            alloc,
            out,
            &[
                Piece::Key(key.bytes()),
                Piece::Text(": never held, last named "),
                Piece::Time(time),
                Piece::Text("\n"),
            ],
        ),
        None => put(
            alloc,
            out,
            &[
                Piece::Key(key.bytes()),
                Piece::Text(": no line of the log names it\n"),
            ],
        ),
    }
}

// Writes the lives of a key that have ended.
fn put_all_ended<A: Allocator + Copy, B: Allocator>(
    alloc: A,
    out: &mut Vec<u8, A>,
    key: &Key<B>,
    ended: &[Ended<B>],
) -> Result<(), AllocError>
    ensures { OnOk result (out.new.items ≡ rule.with_all_ended out.old.items key.now ended.now) }
{
    for life in ended {
        put_ended(alloc, out, key, life)?;
    }
    Ok(())
}

/// Writes the lives of a key, the last of them up to now where it has not ended.
///
/// Err: memory was refused.
pub fn put_lives<A: Allocator + Copy, B: Allocator>(
    alloc: A,
    out: &mut Vec<u8, A>,
    key: &KeyLives<B>,
    now: Timestamp,
) -> Result<(), AllocError>
    ensures { OnOk result (out.new.items ≡ rule.with_lives out.old.items key.now now) }
{
    put_all_ended(alloc, out, &key.key, key.ended.as_slice())?;
    match &key.held {
        Some(life) => put_held(alloc, out, &key.key, life, now),
        None => {
            if key.ended.is_empty() {
                put_unheld(alloc, out, &key.key, key.named)
            } else {
                Ok(())
            }
        }
    }
}
