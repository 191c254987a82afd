//! What is told of keys, as lines of JSON.
ghost use Rattle.std.specs.Prelude.{◌≡◌, ◌++◌, [], IfOk, OnOk, Some};
ghost use Rattle.std.specs.Option.{option_map};
ghost use Rattle.rev_life.specs.Lines as rule;
ghost use Rattle.rev_life.specs.Leaving.{plain_leaving, plain_pusher};
ghost use Rattle.rev_life.specs.Lives.{plain_culprit, plain_left, plain_life, plain_ended};
ghost use Rattle.rev_pushers.specs.Parts.{with_line};
ghost use Rattle.rev_pushers.specs.Pushed.{plain_pushed};

use crate::leaving::{Leaving, Pusher};
use crate::life::{Culprit, Ended, KeyLives, Left, Life, Moved};
use crate::text::queue_word;
use json::Writer;
use rev_items::Key;
use rev_pushers::parts::{Part, put_parts};
use rev_pushers::pushed::PushedBy;
use rev_pushers::pushed_lines::put_pushed;
use rev_pushers::stored::Stored;
use rev_watch::event::Timestamp;
use std::alloc::{AllocError, Allocator};

// The text of a line, with LF.
fn ended<A: Allocator>(writer: Writer<A>) -> Result<Vec<u8, A>, AllocError>
    ensures { IfOk result (λ out. out.items ≡ with_line writer.before writer.tokens) }
{
    let mut out = writer.into_inner();
    out.push(b'\n')?;
    Ok(out)
}

// Puts which step pushed a key out.
fn put_blame<A: Allocator + Copy>(
    alloc: A,
    out: &mut Writer<A>,
    key: &[u8],
    connection: Option<i32>,
    step: u64,
) -> Result<(), AllocError>
    ensures tokens { OnOk result (out.new.tokens ≡ out.old.tokens ++ rule.culprit_tokens (Some (record { key = key.now; connection = connection; step = step }))) }
    ensures before { OnOk result (out.new.before ≡ out.old.before) }
{
    put_parts(
        alloc,
        out,
        &[
            Part::Name("culprit"),
            Part::Open,
            Part::Name("key"),
            Part::Key(key),
            Part::Name("connection"),
            Part::Connection(connection),
            Part::Name("step"),
            Part::Number(step),
            Part::Close,
        ],
    )
}

fn put_pusher<A: Allocator + Copy, B: Allocator>(
    alloc: A,
    out: &mut Writer<A>,
    pusher: Option<&Pusher<'_, B>>,
) -> Result<(), AllocError>
    ensures tokens { OnOk result (out.new.tokens ≡ out.old.tokens ++ rule.culprit_tokens (option_map (λ p. plain_pusher p.now) pusher.entry)) }
    ensures before { OnOk result (out.new.before ≡ out.old.before) }
{
    match pusher {
        Some(pusher) => put_blame(
            alloc,
            out,
            pusher.key.bytes(),
            pusher.connection,
            pusher.step,
        ),
        None => put_parts(alloc, out, &[Part::Name("culprit"), Part::Null]),
    }
}

fn put_leaving<A: Allocator + Copy, B: Allocator>(
    alloc: A,
    out: &mut Writer<A>,
    leaving: &Leaving<'_, B>,
) -> Result<(), AllocError>
    ensures tokens { OnOk result (out.new.tokens ≡ rule.behind out.old.tokens (rule.leaving_parts (plain_leaving leaving.now))) }
    ensures before { OnOk result (out.new.before ≡ out.old.before) }
{
    put_parts(
        alloc,
        out,
        &[
            Part::Open,
            Part::Name("ts"),
            Part::Time(Some(leaving.time)),
            Part::Name("step"),
            Part::Number(leaving.step),
            Part::Name("key"),
            Part::Key(leaving.key.bytes()),
            Part::Name("class"),
            Part::Class(leaving.class),
            Part::Name("cause"),
            Part::Text(leaving.verdict.reason.word()),
            Part::Name("evidence"),
            Part::Text(leaving.verdict.evidence.word()),
        ],
    )?;
    put_pusher(alloc, out, leaving.culprit.as_ref())?;
    put_parts(alloc, out, &[Part::Close])
}

/// Writes a line of a key that left, with LF.
///
/// Err: memory was refused.
pub fn leaving_line<A: Allocator + Copy, B: Allocator>(
    alloc: A,
    out: Vec<u8, A>,
    leaving: &Leaving<'_, B>,
) -> Result<Vec<u8, A>, AllocError>
    ensures { IfOk result (λ lines. lines.items ≡ with_line out.items (rule.behind [] (rule.leaving_parts (plain_leaving leaving.now)))) }
{
    let mut writer = Writer::new(out);
    put_leaving(alloc, &mut writer, leaving)?;
    ended(writer)
}

// Puts the store that a life began with.
fn put_store<A: Allocator + Copy>(
    alloc: A,
    out: &mut Writer<A>,
    stored: Stored,
) -> Result<(), AllocError>
    ensures tokens { OnOk result (out.new.tokens ≡ out.old.tokens ++ rule.store_tokens stored) }
    ensures before { OnOk result (out.new.before ≡ out.old.before) }
{
    put_parts(
        alloc,
        out,
        &[
            Part::Name("stored"),
            Part::Open,
            Part::Name("ts"),
            Part::Time(Some(stored.time)),
            Part::Name("step"),
            Part::Number(stored.step),
            Part::Name("class"),
            Part::Number(stored.class as u64),
            Part::Name("connection"),
            Part::Connection(stored.connection),
            Part::Close,
        ],
    )
}

// Puts the store that a life began with, or null where the log does not show it.
fn put_stored<A: Allocator + Copy>(
    alloc: A,
    out: &mut Writer<A>,
    stored: Stored,
) -> Result<(), AllocError>
    ensures tokens { OnOk result (out.new.tokens ≡ out.old.tokens ++ rule.stored_tokens stored stored.logged) }
    ensures before { OnOk result (out.new.before ≡ out.old.before) }
{
    if stored.logged {
        put_store(alloc, out, stored)
    } else {
        put_parts(alloc, out, &[Part::Name("stored"), Part::Null])
    }
}

fn put_move<A: Allocator + Copy>(
    alloc: A,
    out: &mut Writer<A>,
    moved: Moved,
) -> Result<(), AllocError>
    ensures tokens { OnOk result (out.new.tokens ≡ out.old.tokens ++ rule.move_tokens moved) }
    ensures before { OnOk result (out.new.before ≡ out.old.before) }
{
    put_parts(
        alloc,
        out,
        &[
            Part::Open,
            Part::Name("ts"),
            Part::Time(Some(moved.time)),
            Part::Name("step"),
            Part::Number(moved.step),
            Part::Name("from"),
            Part::Text(queue_word(moved.from)),
            Part::Name("to"),
            Part::Text(queue_word(moved.to)),
            Part::Close,
        ],
    )
}

fn put_moves<A: Allocator + Copy>(
    alloc: A,
    out: &mut Writer<A>,
    moves: &[Moved],
) -> Result<(), AllocError>
    ensures tokens { OnOk result (out.new.tokens ≡ out.old.tokens ++ rule.moves_tokens moves.now) }
    ensures before { OnOk result (out.new.before ≡ out.old.before) }
{
    for moved in moves {
        put_move(alloc, out, *moved)?;
    }
    Ok(())
}

fn put_culprit<A: Allocator + Copy, B: Allocator>(
    alloc: A,
    out: &mut Writer<A>,
    culprit: Option<&Culprit<B>>,
) -> Result<(), AllocError>
    ensures tokens { OnOk result (out.new.tokens ≡ out.old.tokens ++ rule.culprit_tokens (option_map (λ c. plain_culprit c.now) culprit.entry)) }
    ensures before { OnOk result (out.new.before ≡ out.old.before) }
{
    match culprit {
        Some(culprit) => put_blame(
            alloc,
            out,
            culprit.key.bytes(),
            culprit.connection,
            culprit.step,
        ),
        None => put_parts(alloc, out, &[Part::Name("culprit"), Part::Null]),
    }
}

// Puts how a life ended, but for the step that pushed the key out.
fn put_end<A: Allocator + Copy, B: Allocator>(
    alloc: A,
    out: &mut Writer<A>,
    left: &Left<B>,
) -> Result<(), AllocError>
    ensures tokens { OnOk result (out.new.tokens ≡ out.old.tokens ++ rule.end_tokens (plain_left left.now)) }
    ensures before { OnOk result (out.new.before ≡ out.old.before) }
{
    put_parts(
        alloc,
        out,
        &[
            Part::Name("left"),
            Part::Open,
            Part::Name("ts"),
            Part::Time(Some(left.time)),
            Part::Name("step"),
            Part::Number(left.step),
            Part::Name("cause"),
            Part::Text(left.verdict.reason.word()),
            Part::Name("evidence"),
            Part::Text(left.verdict.evidence.word()),
            Part::Name("after"),
            Part::Time(left.after),
            Part::Name("before"),
            Part::Time(left.before),
        ],
    )
}

// Puts how a life ended, and who pushed the key out.
fn put_left<A: Allocator + Copy, B: Allocator>(
    alloc: A,
    out: &mut Writer<A>,
    left: &Left<B>,
    pushed: Option<&PushedBy<B>>,
) -> Result<(), AllocError>
    ensures tokens { OnOk result (out.new.tokens ≡ rule.with_left out.old.tokens (plain_left left.now) (option_map (λ p. plain_pushed p.now) pushed.entry)) }
    ensures before { OnOk result (out.new.before ≡ out.old.before) }
{
    put_end(alloc, out, left)?;
    put_culprit(alloc, out, left.culprit.as_ref())?;
    put_pushed(alloc, out, pushed)?;
    put_parts(alloc, out, &[Part::Close])
}

// Puts the front of a life of a key.
fn put_front<A: Allocator + Copy, B: Allocator>(
    alloc: A,
    out: &mut Writer<A>,
    key: &Key<B>,
    number: u64,
) -> Result<(), AllocError>
    ensures tokens { OnOk result (out.new.tokens ≡ out.old.tokens ++ rule.front_tokens key.now number) }
    ensures before { OnOk result (out.new.before ≡ out.old.before) }
{
    put_parts(
        alloc,
        out,
        &[
            Part::Open,
            Part::Name("key"),
            Part::Key(key.bytes()),
            Part::Name("life"),
            Part::Number(number),
        ],
    )
}

// Puts how often a key was found, and that its moves follow.
fn put_hits<A: Allocator + Copy>(alloc: A, out: &mut Writer<A>, hits: u64) -> Result<(), AllocError>
    ensures tokens { OnOk result (out.new.tokens ≡ out.old.tokens ++ rule.hits_tokens hits) }
    ensures before { OnOk result (out.new.before ≡ out.old.before) }
{
    put_parts(
        alloc,
        out,
        &[
            Part::Name("hits"),
            Part::Number(hits),
            Part::Name("moves"),
            Part::OpenList,
        ],
    )
}

// Puts how long a life lasted, and how long the key was idle at its end.
fn put_spans<A: Allocator + Copy>(
    alloc: A,
    out: &mut Writer<A>,
    lived: Option<u64>,
    idle: u64,
) -> Result<(), AllocError>
    ensures tokens { OnOk result (out.new.tokens ≡ out.old.tokens ++ rule.spans_tokens lived idle) }
    ensures before { OnOk result (out.new.before ≡ out.old.before) }
{
    put_parts(
        alloc,
        out,
        &[
            Part::Name("lived"),
            Part::Seconds(lived),
            Part::Name("idle"),
            Part::Seconds(Some(idle)),
            Part::Close,
        ],
    )
}

// Puts what is told of a life of a key up to its end.
fn put_life<A: Allocator + Copy, B: Allocator>(
    alloc: A,
    out: &mut Writer<A>,
    key: &Key<B>,
    life: &Life<B>,
) -> Result<(), AllocError>
    ensures tokens { OnOk result (out.new.tokens ≡ rule.behind out.old.tokens (rule.life_parts key.now (plain_life life.now))) }
    ensures before { OnOk result (out.new.before ≡ out.old.before) }
{
    put_front(alloc, out, key, life.number)?;
    put_stored(alloc, out, life.stored)?;
    put_hits(alloc, out, life.hits)?;
    put_moves(alloc, out, life.moves.as_slice())?;
    put_parts(alloc, out, &[Part::CloseList])
}

// Writes a line of a life of a key that has ended, with LF.
fn ended_line<A: Allocator + Copy, B: Allocator>(
    alloc: A,
    out: Vec<u8, A>,
    key: &Key<B>,
    life: &Ended<B>,
) -> Result<Vec<u8, A>, AllocError>
    ensures { IfOk result (λ lines. lines.items ≡ with_line out.items (rule.ended_tokens key.now (plain_ended life.now))) }
{
    let mut writer = Writer::new(out);
    let end = life.left.time;
    put_life(alloc, &mut writer, key, &life.life)?;
    put_left(alloc, &mut writer, &life.left, life.pushed.as_ref())?;
    put_spans(
        alloc,
        &mut writer,
        life.life.lived(end),
        life.life.idle(end),
    )?;
    ended(writer)
}

// Writes a line of a life of a key that has not ended now, with LF.
fn held_line<A: Allocator + Copy, B: Allocator>(
    alloc: A,
    out: Vec<u8, A>,
    key: &Key<B>,
    life: &Life<B>,
    now: Timestamp,
) -> Result<Vec<u8, A>, AllocError>
    ensures { IfOk result (λ lines. lines.items ≡ with_line out.items (rule.held_life_tokens key.now (plain_life life.now) now)) }
{
    let mut writer = Writer::new(out);
    put_life(alloc, &mut writer, key, life)?;
    put_parts(alloc, &mut writer, &[Part::Name("left"), Part::Null])?;
    put_spans(alloc, &mut writer, life.lived(now), life.idle(now))?;
    ended(writer)
}

// Puts a key that was never held, and when a line named it last.
fn put_unheld<A: Allocator + Copy, B: Allocator>(
    alloc: A,
    out: &mut Writer<A>,
    key: &Key<B>,
    named: Option<Timestamp>,
) -> Result<(), AllocError>
    ensures tokens { OnOk result (out.new.tokens ≡ out.old.tokens ++ rule.unheld_tokens key.now named) }
    ensures before { OnOk result (out.new.before ≡ out.old.before) }
{
    match named {
        Some(moment) => put_parts(
            alloc,
            out,
            &[
                Part::Open,
                Part::Name("key"),
                Part::Key(key.bytes()),
                Part::Name("life"),
                Part::Number(0),
                Part::Name("named"),
                Part::Time(Some(moment)),
                Part::Close,
            ],
        ),
        None => put_parts(
            alloc,
            out,
            &[
                Part::Open,
                Part::Name("key"),
                Part::Key(key.bytes()),
                Part::Name("life"),
                Part::Null,
                Part::Close,
            ],
        ),
    }
}

// Writes a line of a key that was never held, with LF.
fn unheld_line<A: Allocator + Copy, B: Allocator>(
    alloc: A,
    out: Vec<u8, A>,
    key: &Key<B>,
    named: Option<Timestamp>,
) -> Result<Vec<u8, A>, AllocError>
    ensures { IfOk result (λ lines. lines.items ≡ with_line out.items (rule.unheld_tokens key.now named)) }
{
    let mut writer = Writer::new(out);
    put_unheld(alloc, &mut writer, key, named)?;
    ended(writer)
}

// Writes the lines of the lives of a key that have ended, each with LF.
fn ended_lines<A: Allocator + Copy, B: Allocator>(
    alloc: A,
    out: Vec<u8, A>,
    key: &Key<B>,
    ended: &[Ended<B>],
) -> Result<Vec<u8, A>, AllocError>
    ensures { IfOk result (λ lines. lines.items ≡ rule.with_all_ended out.items key.now ended.now) }
{
    let mut lines = out;
    for life in ended {
        lines = ended_line(alloc, lines, key, life)?;
    }
    Ok(lines)
}

// Writes what is told of a key behind its lives that have ended.
fn rest_lines<A: Allocator + Copy, B: Allocator>(
    alloc: A,
    out: Vec<u8, A>,
    key: &KeyLives<B>,
    now: Timestamp,
) -> Result<Vec<u8, A>, AllocError>
    ensures { IfOk result (λ lines. lines.items ≡ rule.with_rest out.items key.now now key.now.held) }
{
    match &key.held {
        Some(life) => held_line(alloc, out, &key.key, life, now),
        None => {
            if key.ended.is_empty() {
                unheld_line(alloc, out, &key.key, key.named)
            } else {
                Ok(out)
            }
        }
    }
}

/// Writes the lines of a key, each with LF: one for each life, the last of them up to now where it has not ended, or
/// one where it has none.
///
/// Err: memory was refused.
pub fn lives_lines<A: Allocator + Copy, B: Allocator>(
    alloc: A,
    out: Vec<u8, A>,
    key: &KeyLives<B>,
    now: Timestamp,
) -> Result<Vec<u8, A>, AllocError>
    ensures { IfOk result (λ lines. lines.items ≡ rule.with_lives out.items key.now now) }
{
    let lines = ended_lines(alloc, out, &key.key, key.ended.as_slice())?;
    rest_lines(alloc, lines, key, now)
}
