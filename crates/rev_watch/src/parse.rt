//! What one line of a log says.
ghost use Rattle.std.specs.Prelude.{◌≡◌, ◌≢◌, ◌-◌, map, MatchResult, IfSome, Ok, Err};
ghost use Rattle.rev_script.specs.Number.{until, past};
ghost use Rattle.rev_watch.specs.Line.{look_up, store, deletion, eviction, page_move, crawl_end, connection_opened, connection_closed, unknown, event_of_kind, event_by_names, event_of, first, behind, line_behind, timestamp, timestamp_of, gid_of, value_of, log_line, skipped_line, line_in, line_of};
ghost use Rattle.rev_watch.specs.declared.fault.LineFault.{LineFault};
ghost use Rattle.rev_watch.specs.declared.kind.Kind.{Kind};

use crate::event::{Event, Line, LogLine, Timestamp};
use crate::fault::{Field, LineFault};
use crate::fields::{
    MOST_FIELDS, fetched_in, fields_of, key_in, look_up_outcome, number_u32_in, number_u64_in,
    optional_signed_in, queue_in, signed_in, store_command, store_outcome, time_left_in, value_in,
};
use crate::key::key_of;
use crate::kind::{Kind, known_kind};
use crate::number::{number, number_before, number_u32};
use crate::text::{cut, first_word, value_behind, without_cr};
use crate::usual::{usual_look_up, usual_store};
use crate::words::Words;
use arrayvec::ArrayVec;
use rev_items::{Key, KeyFault};
use std::alloc::Allocator;

// The bytes of data beside a key that is so many bytes longer than the server's.
fn data_beside(size: u32, longer: u32) -> u32
    ensures { result ≡ size - longer }
{
    size.saturating_sub(longer)
}

#[inline(never)]
#[tactic(auto, unfolding(crate::specs::Line::look_up))]
fn look_up<A: Allocator>(alloc: A, fields: &[&[u8]]) -> Result<Event<A>, LineFault>
    ensures { MatchResult result (λ event. look_up (map (λ w. w.now) fields.now) ≡ Ok event) (λ e. e ≢ LineFault.Memory → look_up {A = A} (map (λ w. w.now) fields.now) ≡ Err e) }
{
    let outcome = value_in(fields, Field::Status)?;
    let class = number_u32_in(fields, Field::Clsid)?;
    let connection = signed_in(fields, Field::Cfd)?;
    let size = number_u32_in(fields, Field::Size)?;
    let (key, longer) = key_in(alloc, fields)?;
    Ok(Event::LookUp {
        key,
        outcome: look_up_outcome(outcome),
        class,
        connection,
        size: data_beside(size, longer),
    })
}

#[inline(never)]
#[tactic(auto, unfolding(crate::specs::Line::store))]
fn store<A: Allocator>(alloc: A, fields: &[&[u8]]) -> Result<Event<A>, LineFault>
    ensures { MatchResult result (λ event. store (map (λ w. w.now) fields.now) ≡ Ok event) (λ e. e ≢ LineFault.Memory → store {A = A} (map (λ w. w.now) fields.now) ≡ Err e) }
{
    let outcome = value_in(fields, Field::Status)?;
    let command = value_in(fields, Field::Cmd)?;
    let ttl = number_u32_in(fields, Field::Ttl)?;
    let class = number_u32_in(fields, Field::Clsid)?;
    let connection = signed_in(fields, Field::Cfd)?;
    let size = number_u32_in(fields, Field::Size)?;
    let (key, longer) = key_in(alloc, fields)?;
    Ok(Event::Store {
        key,
        command: store_command(command),
        outcome: store_outcome(outcome),
        ttl,
        class,
        connection,
        size: data_beside(size, longer),
    })
}

#[tactic(auto, unfolding(crate::specs::Line::deletion))]
fn deletion<A: Allocator>(alloc: A, fields: &[&[u8]]) -> Result<Event<A>, LineFault>
    ensures { MatchResult result (λ event. deletion (map (λ w. w.now) fields.now) ≡ Ok event) (λ e. e ≢ LineFault.Memory → deletion {A = A} (map (λ w. w.now) fields.now) ≡ Err e) }
{
    let connection = optional_signed_in(fields, Field::Cfd)?;
    let (key, _) = key_in(alloc, fields)?;
    Ok(Event::Deletion { key, connection })
}

#[inline(never)]
#[tactic(auto, unfolding(crate::specs::Line::eviction))]
fn eviction<A: Allocator>(alloc: A, fields: &[&[u8]]) -> Result<Event<A>, LineFault>
    ensures { MatchResult result (λ event. eviction (map (λ w. w.now) fields.now) ≡ Ok event) (λ e. e ≢ LineFault.Memory → eviction {A = A} (map (λ w. w.now) fields.now) ≡ Err e) }
{
    let fetched = fetched_in(fields)?;
    let ttl = time_left_in(fields)?;
    let last_access = signed_in(fields, Field::La)?;
    let class = number_u32_in(fields, Field::Clsid)?;
    let size = number_u32_in(fields, Field::Size)?;
    let (key, longer) = key_in(alloc, fields)?;
    Ok(Event::Eviction {
        key,
        fetched,
        ttl,
        last_access,
        class,
        size: data_beside(size, longer),
    })
}

#[tactic(auto, unfolding(crate::specs::Line::page_move))]
fn page_move<A: Allocator>(fields: &[&[u8]]) -> Result<Event<A>, LineFault>
    ensures { MatchResult result (λ event. page_move (map (λ w. w.now) fields.now) ≡ Ok event) (λ e. page_move {A = A} (map (λ w. w.now) fields.now) ≡ Err e) }
{
    let source = number_u32_in(fields, Field::Src)?;
    let target = number_u32_in(fields, Field::Dst)?;
    Ok(Event::PageMove { source, target })
}

#[tactic(auto, unfolding(crate::specs::Line::crawl_end))]
fn crawl_end<A: Allocator>(fields: &[&[u8]]) -> Result<Event<A>, LineFault>
    ensures { MatchResult result (λ event. crawl_end (map (λ w. w.now) fields.now) ≡ Ok event) (λ e. crawl_end {A = A} (map (λ w. w.now) fields.now) ≡ Err e) }
{
    let class = number_u32_in(fields, Field::Crawler)?;
    let queue = queue_in(fields)?;
    let elapsed = number_u32_in(fields, Field::Elapsed)?;
    let examined = number_u64_in(fields, Field::Examined)?;
    let reclaimed = number_u64_in(fields, Field::Reclaimed)?;
    Ok(Event::CrawlEnd {
        class,
        queue,
        elapsed,
        examined,
        reclaimed,
    })
}

#[tactic(auto, unfolding(crate::specs::Line::connection_opened))]
fn connection_opened<A: Allocator>(fields: &[&[u8]]) -> Result<Event<A>, LineFault>
    ensures { MatchResult result (λ event. connection_opened (map (λ w. w.now) fields.now) ≡ Ok event) (λ e. connection_opened {A = A} (map (λ w. w.now) fields.now) ≡ Err e) }
{
    let connection = signed_in(fields, Field::Cfd)?;
    Ok(Event::ConnectionOpened { connection })
}

#[tactic(auto, unfolding(crate::specs::Line::connection_closed))]
fn connection_closed<A: Allocator>(fields: &[&[u8]]) -> Result<Event<A>, LineFault>
    ensures { MatchResult result (λ event. connection_closed (map (λ w. w.now) fields.now) ≡ Ok event) (λ e. connection_closed {A = A} (map (λ w. w.now) fields.now) ≡ Err e) }
{
    let connection = signed_in(fields, Field::Cfd)?;
    Ok(Event::ConnectionClosed { connection })
}

#[tactic(auto, unfolding(crate::specs::Line::unknown))]
fn unknown<A: Allocator>(alloc: A, kind: &[u8]) -> Result<Event<A>, LineFault>
    ensures { MatchResult result (λ event. unknown kind.now ≡ Ok event) (λ e. e ≢ LineFault.Memory → unknown {A = A} kind.now ≡ Err e) }
{
    match Key::new(alloc, kind) {
        Ok(kind) => Ok(Event::Unknown { kind }),
        Err(KeyFault::BadKey) => Err(LineFault::BadValue(Field::Kind)),
        Err(KeyFault::Memory) => Err(LineFault::Memory),
    }
}

// The event of a kind, from its fields.
fn event_of_kind<A: Allocator>(
    alloc: A,
    kind: Kind,
    fields: &[&[u8]],
) -> Result<Event<A>, LineFault>
    ensures { MatchResult result (λ event. event_of_kind kind (map (λ w. w.now) fields.now) ≡ Ok event) (λ e. e ≢ LineFault.Memory → event_of_kind {A = A} kind (map (λ w. w.now) fields.now) ≡ Err e) }
{
    match kind {
        Kind::LookUp => look_up(alloc, fields),
        Kind::Store => store(alloc, fields),
        Kind::Eviction => eviction(alloc, fields),
        Kind::Deletion => deletion(alloc, fields),
        Kind::PageMove => page_move(fields),
        Kind::CrawlEnd => crawl_end(fields),
        Kind::ConnectionOpened => connection_opened(fields),
        Kind::ConnectionClosed => connection_closed(fields),
    }
}

// The event of a kind, from the words behind the kind, wherever each field stands.
fn event_by_names<A: Allocator>(alloc: A, kind: Kind, text: &[u8]) -> Result<Event<A>, LineFault>
    ensures { MatchResult result (λ event. event_by_names kind text.now ≡ Ok event) (λ e. e ≢ LineFault.Memory → event_by_names {A = A} kind text.now ≡ Err e) }
{
    let mut words = Words::new(text);
    let mut fields = ArrayVec::new();
    fields_of(&mut fields, &mut words)?;
    event_of_kind(alloc, kind, fields.as_slice())
}

// A look-up, from the words behind the kind.
fn look_up_in<A: Allocator>(alloc: A, text: &[u8]) -> Result<Event<A>, LineFault>
    ensures { MatchResult result (λ event. event_by_names Kind.LookUp text.now ≡ Ok event) (λ e. e ≢ LineFault.Memory → event_by_names {A = A} Kind.LookUp text.now ≡ Err e) }
{
    let Some(usual) = usual_look_up(text) else {
        return event_by_names(alloc, Kind::LookUp, text);
    };
    match key_of(alloc, usual.key) {
        Err(fault) => Err(fault),
        Ok((key, longer)) => Ok(Event::LookUp {
            key,
            outcome: look_up_outcome(usual.outcome),
            class: usual.class,
            connection: usual.connection,
            size: data_beside(usual.size, longer),
        }),
    }
}

// A storage command, from the words behind the kind.
fn store_in<A: Allocator>(alloc: A, text: &[u8]) -> Result<Event<A>, LineFault>
    ensures { MatchResult result (λ event. event_by_names Kind.Store text.now ≡ Ok event) (λ e. e ≢ LineFault.Memory → event_by_names {A = A} Kind.Store text.now ≡ Err e) }
{
    let Some(usual) = usual_store(text) else {
        return event_by_names(alloc, Kind::Store, text);
    };
    match key_of(alloc, usual.key) {
        Err(fault) => Err(fault),
        Ok((key, longer)) => Ok(Event::Store {
            key,
            command: store_command(usual.command),
            outcome: store_outcome(usual.outcome),
            ttl: usual.ttl,
            class: usual.class,
            connection: usual.connection,
            size: data_beside(usual.size, longer),
        }),
    }
}

// An event of this kind, from the words behind the kind.
#[tactic(auto, unfolding(crate::specs::Line::event_of))]
fn event_of<A: Allocator>(alloc: A, kind: &[u8], text: &[u8]) -> Result<Event<A>, LineFault>
    ensures { MatchResult result (λ event. event_of kind.now text.now ≡ Ok event) (λ e. e ≢ LineFault.Memory → event_of {A = A} kind.now text.now ≡ Err e) }
{
    match known_kind(kind) {
        None => unknown(alloc, kind),
        Some(Kind::LookUp) => look_up_in(alloc, text),
        Some(Kind::Store) => store_in(alloc, text),
        Some(known) => event_by_names(alloc, known, text),
    }
}

#[tactic(auto, unfolding(crate::specs::Line::timestamp))]
fn timestamp(value: &[u8]) -> Option<Timestamp>
    ensures { result ≡ timestamp value.now }
{
    let (seconds, Some(microseconds)) = cut(value, b'.') else {
        return None;
    };
    let seconds = number_u32(seconds)?;
    let microseconds = number(microseconds, 999999)? as u32;
    Some(Timestamp {
        seconds,
        microseconds,
    })
}

// The value of a word that has to be of this name.
fn value_of<'a>(field: Field, word: &'a [u8]) -> Result<&'a [u8], LineFault>
    ensures { MatchResult result (λ v. value_of field word.now ≡ Ok v.now) (λ e. value_of field word.now ≡ Err e) }
{
    match value_behind(field.name().as_bytes(), b'=', word) {
        Some(value) => Ok(value),
        None => Err(LineFault::Missing(field)),
    }
}

#[tactic(auto, unfolding(crate::specs::Line::timestamp_of))]
fn timestamp_of(word: &[u8]) -> Result<Timestamp, LineFault>
    ensures { result ≡ timestamp_of word.now }
{
    let value = value_of(Field::Ts, word)?;
    timestamp(value).ok_or(LineFault::BadValue(Field::Ts))
}

#[tactic(auto, unfolding(crate::specs::Line::gid_of))]
fn gid_of(word: &[u8]) -> Result<u64, LineFault>
    ensures { result ≡ gid_of word.now }
{
    let value = value_of(Field::Gid, word)?;
    number(value, 18446744073709551615).ok_or(LineFault::BadValue(Field::Gid))
}

// The line of this time and number, from the words behind them.
#[tactic(auto, unfolding(crate::specs::Line::log_line))]
fn line_behind<A: Allocator>(
    alloc: A,
    time: Timestamp,
    gid: u64,
    text: &[u8],
) -> Result<Line<A>, LineFault>
    ensures { MatchResult result (λ line. line_behind time gid text.now ≡ Ok line) (λ e. e ≢ LineFault.Memory → line_behind {A = A} time gid text.now ≡ Err e) }
{
    let (kind, rest) = first_word(text);
    let kind = value_of(Field::Kind, kind)?;
    let event = event_of(alloc, kind, rest)?;
    Ok(Line::Log(LogLine { time, gid, event }))
}

// A time and a number, as the server writes them, and the words behind them.
#[derive(Drop)]
struct Head<'a> {
    time: Timestamp,
    gid: u64,
    rest: &'a [u8],
}

// What a text begins with, where that is a time and a number.
fn usual_head(text: &[u8]) -> Option<Head<'_>>
    ensures { IfSome result (λ h. (timestamp_of (first text.now) ≡ Ok h.time) × (gid_of (first (behind text.now)) ≡ Ok h.gid) × (h.rest.now ≡ behind (behind text.now))) }
{
    let rest = value_behind(b"ts", b'=', text)?;
    let (seconds, rest) = number_before(rest, b'.', 4294967295)?;
    let (microseconds, rest) = number_before(rest, b' ', 999999)?;
    let rest = value_behind(b"gid", b'=', rest)?;
    let (gid, rest) = number_before(rest, b' ', 18446744073709551615)?;
    let time = Timestamp {
        seconds: seconds as u32,
        microseconds: microseconds as u32,
    };
    Some(Head { time, gid, rest })
}

#[tactic(auto, unfolding(crate::specs::Line::log_line))]
fn log_line<A: Allocator>(alloc: A, text: &[u8]) -> Result<Line<A>, LineFault>
    ensures { MatchResult result (λ line. log_line text.now ≡ Ok line) (λ e. e ≢ LineFault.Memory → log_line {A = A} text.now ≡ Err e) }
{
    if let Some(head) = usual_head(text) {
        return line_behind(alloc, head.time, head.gid, head.rest);
    }
    let (time, rest) = first_word(text);
    let time = timestamp_of(time)?;
    let (gid, rest) = first_word(rest);
    let gid = gid_of(gid)?;
    line_behind(alloc, time, gid, rest)
}

// A line that tells how many lines were left out.
#[tactic(auto, unfolding(crate::specs::Line::skipped_line))]
fn skipped_line<A: Allocator>(count: &[u8]) -> Result<Line<A>, LineFault>
    ensures { MatchResult result (λ line. skipped_line count.now ≡ Ok line) (λ e. skipped_line {A = A} count.now ≡ Err e) }
{
    match number(count, 18446744073709551615) {
        Some(lines) => Ok(Line::Skipped(lines)),
        None => Err(LineFault::BadValue(Field::Skipped)),
    }
}

/// What the bytes of a line say, without the LF at its end; a CR there is left out. Only a key of more than 24 bytes
/// takes memory.
///
/// Err: the line begins with `ts=` or `skipped=` and is no such line; the first fault is told. Or memory was refused.
#[tactic(auto, unfolding(crate::specs::Line::line_in))]
pub fn parse<A: Allocator>(alloc: A, line: &[u8]) -> Result<Line<A>, LineFault>
    ensures { MatchResult result (λ told. line_of line.now ≡ Ok told) (λ e. e ≢ LineFault.Memory → line_of {A = A} line.now ≡ Err e) }
{
    let text = without_cr(line);
    if value_behind(b"ts", b'=', text).is_some() {
        return log_line(alloc, text);
    }
    match value_behind(b"skipped", b'=', text) {
        Some(count) => skipped_line(count),
        None => Ok(Line::Other),
    }
}
