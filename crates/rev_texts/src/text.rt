//! The texts of answers. Each function writes behind what the answer holds.
ghost use Rattle.std.specs.Prelude.{◌≡◌, ◌++◌, decimal, OnOk};
ghost use Rattle.rev_texts.specs.Texts.{output, bad_text, outcome_text, digits_of, cas_text, value_text, queue_text, bits_text, chunk_text, page_text, flush_text, free_text, mover_text, clock_text, pending_text, node_text};

use itoa::Buffer;
use rev_items::{Bits, Item};
use rev_model::{ChunkRef, Globals, Mover, Outcome, Queue};
use rev_script::command::BadAnswer;
use std::alloc::{AllocError, Allocator};

/// Writes a number in decimal digits.
pub fn put_number<A: Allocator>(answer: &mut Vec<u8, A>, n: u64) -> Result<(), AllocError>
    ensures { OnOk result (answer.new.items ≡ answer.old.items ++ decimal n) }
{
    let mut buffer = Buffer::new();
    answer.extend_from_slice(buffer.format(n).as_bytes())
}

/// Writes a name and a number behind it.
pub fn put_field<A: Allocator>(
    answer: &mut Vec<u8, A>,
    name: &[u8],
    n: u64,
) -> Result<(), AllocError>
    ensures { OnOk result (answer.new.items ≡ answer.old.items ++ (name.now ++ decimal n)) }
{
    answer.extend_from_slice(name)?;
    put_number(answer, n)
}

/// Writes a line of output.
pub fn put_output<A: Allocator>(answer: &mut Vec<u8, A>, words: &[u8]) -> Result<(), AllocError>
    ensures { OnOk result (answer.new.items ≡ answer.old.items ++ output words.now) }
{
    answer.extend_from_slice(words)?;
    answer.extend_from_slice(b"\r\n")
}

/// What a malformed line is answered.
pub fn bad_text(answer: BadAnswer) -> &'static [u8]
    ensures { result.now ≡ bad_text answer }
{
    match answer {
        BadAnswer::Error => b"ERROR",
        BadAnswer::BadFormat => b"CLIENT_ERROR bad command line format",
        BadAnswer::DeleteUsage =>
            b"CLIENT_ERROR bad command line format.  Usage: delete <key> [noreply]",
        BadAnswer::BadExptime => b"CLIENT_ERROR invalid exptime argument",
        BadAnswer::BadDelta => b"CLIENT_ERROR invalid numeric delta argument",
        BadAnswer::SharesOver80 => b"ERROR hot and warm pcts must not exceed 80",
        BadAnswer::LineTooLong => b"CLIENT_ERROR line too long",
        BadAnswer::BadChunk => b"CLIENT_ERROR bad data chunk",
        BadAnswer::BadCommand => b"BAD COMMAND",
    }
}

// The line of an outcome; a number's lacks its digits, and a hit and a miss have none.
fn outcome_line(outcome: Outcome) -> &'static [u8]
    ensures { digits_of outcome ++ result.now ≡ outcome_text outcome }
{
    match outcome {
        Outcome::Stored => b"STORED\r\n",
        Outcome::NotStored => b"NOT_STORED\r\n",
        Outcome::Exists => b"EXISTS\r\n",
        Outcome::NotFound => b"NOT_FOUND\r\n",
        Outcome::Deleted => b"DELETED\r\n",
        Outcome::Touched => b"TOUCHED\r\n",
        Outcome::Okay => b"OK\r\n",
        Outcome::Hit { .. } | Outcome::Miss => b"",
        Outcome::TooLarge => b"SERVER_ERROR object too large for cache\r\n",
        Outcome::NoChunk => b"SERVER_ERROR out of memory storing object\r\n",
        Outcome::Busy => b"BUSY\r\n",
        Outcome::BadClass => b"BADCLASS\r\n",
        Outcome::NoSpare => b"NOSPARE\r\n",
        Outcome::Same => b"SAME\r\n",
        Outcome::Moved => b"MOVED\r\n",
        Outcome::Reclaimed => b"RECLAIMED\r\n",
        Outcome::Idle => b"IDLE\r\n",
        Outcome::Passed => b"PASSED\r\n",
        Outcome::Ended => b"ENDED\r\n",
        Outcome::Withdrawn => b"WITHDRAWN\r\n",
        Outcome::Rescued => b"RESCUED\r\n",
        Outcome::Evicted => b"EVICTED\r\n",
        Outcome::Finished => b"FINISHED\r\n",
        Outcome::Number(_) => b"\r\n",
        Outcome::NotNumber => b"CLIENT_ERROR cannot increment or decrement non-numeric value\r\n",
    }
}

/// Writes the line of an outcome, all at once but for a number's; a hit and a miss have none.
pub fn put_outcome<A: Allocator>(
    answer: &mut Vec<u8, A>,
    outcome: Outcome,
) -> Result<(), AllocError>
    ensures { OnOk result (answer.new.items ≡ answer.old.items ++ outcome_text outcome) }
{
    if let Outcome::Number(n) = outcome {
        put_number(answer, n)?;
    }
    answer.extend_from_slice(outcome_line(outcome))
}

fn put_cas<A: Allocator>(
    answer: &mut Vec<u8, A>,
    with_cas: bool,
    cas: u64,
) -> Result<(), AllocError>
    ensures { OnOk result (answer.new.items ≡ answer.old.items ++ cas_text with_cas cas) }
{
    if !with_cas {
        return Ok(());
    }
    answer.extend_from_slice(b" ")?;
    put_number(answer, cas)
}

/// Writes a value: its key, flags and size, for `gets` its cas number, and its data on a line of their own.
pub fn put_value<A: Allocator, B: Allocator>(
    answer: &mut Vec<u8, A>,
    with_cas: bool,
    item: &Item<B>,
) -> Result<(), AllocError>
    ensures { OnOk result (answer.new.items ≡ answer.old.items ++ value_text with_cas item.now) }
{
    answer.extend_from_slice(b"VALUE ")?;
    answer.extend_from_slice(item.key().bytes())?;
    answer.extend_from_slice(b" ")?;
    put_number(answer, item.flags() as u64)?;
    answer.extend_from_slice(b" ")?;
    put_number(answer, item.value().len() as u64)?;
    put_cas(answer, with_cas, item.cas())?;
    answer.extend_from_slice(b"\r\n")?;
    put_output(answer, item.value())
}

/// The name of a queue.
pub fn queue_text(queue: Queue) -> &'static [u8]
    ensures { result.now ≡ queue_text queue }
{
    match queue {
        Queue::Hot => b"hot",
        Queue::Warm => b"warm",
        Queue::Cold => b"cold",
        Queue::Temp => b"temp",
    }
}

/// An item's bits: `F` for fetched, `A` for active, `-` for neither.
pub fn bits_text(bits: Bits) -> &'static [u8]
    ensures { result.now ≡ bits_text bits }
{
    match (bits.fetched, bits.active) {
        (true, true) => b"FA",
        (true, false) => b"F",
        (false, true) => b"A",
        (false, false) => b"-",
    }
}

/// Writes a chunk: its page and its slot.
pub fn put_chunk<A: Allocator>(answer: &mut Vec<u8, A>, chunk: ChunkRef) -> Result<(), AllocError>
    ensures { OnOk result (answer.new.items ≡ answer.old.items ++ chunk_text chunk) }
{
    put_number(answer, chunk.page as u64)?;
    answer.extend_from_slice(b":")?;
    put_number(answer, chunk.slot as u64)
}

/// Writes a free chunk, behind a space.
pub fn put_free_chunk<A: Allocator>(
    answer: &mut Vec<u8, A>,
    chunk: ChunkRef,
) -> Result<(), AllocError>
    ensures { OnOk result (answer.new.items ≡ answer.old.items ++ free_text chunk) }
{
    answer.extend_from_slice(b" ")?;
    put_chunk(answer, chunk)
}

/// Writes a page's line: its number and its class.
pub fn put_page<A: Allocator>(
    answer: &mut Vec<u8, A>,
    page: usize,
    class: usize,
) -> Result<(), AllocError>
    ensures { OnOk result (answer.new.items ≡ answer.old.items ++ page_text page class) }
{
    answer.extend_from_slice(b"PAGE ")?;
    put_number(answer, page as u64)?;
    answer.extend_from_slice(b" ")?;
    put_number(answer, class as u64)?;
    answer.extend_from_slice(b"\r\n")
}

/// Writes the moment of a pending flush, or `-`.
pub fn put_flush<A: Allocator>(
    answer: &mut Vec<u8, A>,
    flush: Option<u64>,
) -> Result<(), AllocError>
    ensures { OnOk result (answer.new.items ≡ answer.old.items ++ flush_text flush) }
{
    match flush {
        None => answer.extend_from_slice(b"-"),
        Some(moment) => put_number(answer, moment),
    }
}

/// Writes a page move's source, target, page and slot, or `-`.
pub fn put_mover<A: Allocator>(
    answer: &mut Vec<u8, A>,
    mover: Option<Mover>,
) -> Result<(), AllocError>
    ensures { OnOk result (answer.new.items ≡ answer.old.items ++ mover_text mover) }
{
    let Some(mover) = mover else {
        return answer.extend_from_slice(b"-");
    };
    put_number(answer, mover.src as u64)?;
    answer.extend_from_slice(b",")?;
    put_number(answer, mover.dst as u64)?;
    answer.extend_from_slice(b",")?;
    put_number(answer, mover.page as u64)?;
    answer.extend_from_slice(b",")?;
    put_number(answer, mover.slot as u64)
}

/// Writes the clock, the last cas number and the flush limit.
pub fn put_clock<A: Allocator>(answer: &mut Vec<u8, A>, globals: Globals) -> Result<(), AllocError>
    ensures { OnOk result (answer.new.items ≡ answer.old.items ++ clock_text globals) }
{
    put_field(answer, b" now ", globals.clock as u64)?;
    put_field(answer, b" cas ", globals.last_cas)?;
    put_field(answer, b" mark ", globals.flush_limit)
}

/// Writes the pending flush, the page move and the number of bump entries.
pub fn put_pending<A: Allocator>(
    answer: &mut Vec<u8, A>,
    globals: Globals,
    bump: usize,
) -> Result<(), AllocError>
    ensures { OnOk result (answer.new.items ≡ answer.old.items ++ pending_text globals bump) }
{
    answer.extend_from_slice(b" flush ")?;
    put_flush(answer, globals.flush)?;
    answer.extend_from_slice(b" mover ")?;
    put_mover(answer, globals.mover)?;
    put_field(answer, b" bump ", bump as u64)
}

/// Writes a node's number on a line.
pub fn put_node<A: Allocator>(answer: &mut Vec<u8, A>, node: u32) -> Result<(), AllocError>
    ensures { OnOk result (answer.new.items ≡ answer.old.items ++ node_text node) }
{
    answer.extend_from_slice(b"NODE ")?;
    put_number(answer, node as u64)?;
    answer.extend_from_slice(b"\r\n")
}
