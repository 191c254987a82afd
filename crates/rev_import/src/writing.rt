//! Lines of a script, written one behind another. Each is whole, with its data block, and makes exactly one step.
ghost use Rattle.std.specs.Prelude.{◌≡◌, ◌++◌, ◌∷◌, [], ◌+◌, ◌%◌, ◌≤◌, ◌<◌, ◌^◌, length, map, codes, replicate, true, false, OnOk};
ghost use Rattle.rev_model.specs.Client.{Bytes};
ghost use Rattle.rev_model.specs.declared.ClassSet.TheVariants.{These};
ghost use Rattle.rev_requests.specs.declared.clients.Arithmetic.TheVariants.{Increment, Decrement};
ghost use Rattle.rev_requests.specs.declared.clients.KeyCommand.TheVariants.{Delete, Count};
ghost use Rattle.rev_requests.specs.declared.actors.ActorStep.TheVariants.{Pull, Bump, Crawl, Advance, StartCrawl, Reassign, Clock, TempTtl};
ghost use Rattle.rev_script.specs.Script.{RetrievalLine, UpdateLine, StorageLine, ActorLine, TuneLine};
ghost use Rattle.rev_import.specs.Writing.{Adds, line_text, factor_text, storage, storage_name, queue_name};

use itoa::Buffer;
use rev_items::Key;
use rev_model::Queue;
use rev_requests::Tune;
use std::alloc::{AllocError, Allocator};

/// The byte of which filler is made. A server's log tells how long data were and not what they were.
pub const FILLER: u8 = b'x';

/// The most bytes of data that a script can store (the largest page).
pub const MOST_DATA: u32 = 1048576;

/// The storage commands that an import writes. What a server stored by `append` or `cas` is written as `set`, since its
/// log tells what was stored in the end; of a trace only a `cas` is.
#[derive(Clone, Copy, Debug, PartialEq, Eq)]
pub enum Storing {
    /// Whatever the key holds.
    Set,
    /// Where the key holds nothing.
    Add,
    /// Where the key holds something.
    Replace,
    /// Behind what the key holds.
    Append,
    /// In front of what the key holds.
    Prepend,
}

// Writes the words of a line, parted by single spaces, and its end.
fn put_words<A: Allocator>(
    out: &mut Vec<u8, A>,
    first: &[u8],
    rest: &[&[u8]],
) -> Result<(), AllocError>
    ensures { OnOk result (out.new.items ≡ out.old.items ++ line_text first.now (map (λ w. w.now) rest.now)) }
{
    out.extend_from_slice(first)?;
    for word in rest {
        out.push(b' ')?;
        out.extend_from_slice(*word)?;
    }
    out.extend_from_slice(b"\r\n")
}

// Writes so many bytes of filler.
fn put_filler<A: Allocator>(out: &mut Vec<u8, A>, size: u32) -> Result<(), AllocError>
    ensures { OnOk result (out.new.items ≡ out.old.items ++ replicate size 120) }
{
    out.resize(out.len() + size as usize, FILLER)
}

/// Sets the clock: `@ NOW`.
pub fn put_clock<A: Allocator>(out: &mut Vec<u8, A>, now: u32) -> Result<(), AllocError>
    ensures { OnOk result (Adds out.old.items out.new.items (ActorLine (Clock now) ∷ [])) }
{
    let mut digits = Buffer::new();
    put_words(out, b"@", &[digits.format(now).as_bytes()])
}

/// Looks a key up: `get KEY`.
pub fn put_get<A: Allocator, B: Allocator>(
    out: &mut Vec<u8, A>,
    key: &Key<B>,
) -> Result<(), AllocError>
    ensures { OnOk result (Adds out.old.items out.new.items (RetrievalLine (key.now ∷ []) false ∷ [])) }
{
    put_words(out, b"get", &[key.bytes()])
}

/// Takes a key away: `delete KEY`.
pub fn put_delete<A: Allocator, B: Allocator>(
    out: &mut Vec<u8, A>,
    key: &Key<B>,
) -> Result<(), AllocError>
    ensures { OnOk result (Adds out.old.items out.new.items (UpdateLine Delete key.now false ∷ [])) }
{
    put_words(out, b"delete", &[key.bytes()])
}

/// Counts the number that a key holds up by one: `incr KEY 1`. A trace does not tell by how many.
pub fn put_increment<A: Allocator, B: Allocator>(
    out: &mut Vec<u8, A>,
    key: &Key<B>,
) -> Result<(), AllocError>
    ensures { OnOk result (Adds out.old.items out.new.items (UpdateLine (Count (Increment 1)) key.now false ∷ [])) }
{
    put_words(out, b"incr", &[key.bytes(), b"1"])
}

/// Counts the number that a key holds down by one: `decr KEY 1`.
pub fn put_decrement<A: Allocator, B: Allocator>(
    out: &mut Vec<u8, A>,
    key: &Key<B>,
) -> Result<(), AllocError>
    ensures { OnOk result (Adds out.old.items out.new.items (UpdateLine (Count (Decrement 1)) key.now false ∷ [])) }
{
    put_words(out, b"decr", &[key.bytes(), b"1"])
}

fn storage_name(command: Storing) -> &'static [u8]
    ensures { result.now ≡ storage_name command }
{
    match command {
        Storing::Set => b"set",
        Storing::Add => b"add",
        Storing::Replace => b"replace",
        Storing::Append => b"append",
        Storing::Prepend => b"prepend",
    }
}

/// Stores filler: `set KEY FLAGS EXPTIME SIZE`, or another storage command, and the data. The expiry time is
/// protocol.txt's: 0 never, negative at once, up to thirty days from now, else a moment.
pub fn put_store<A: Allocator, B: Allocator>(
    out: &mut Vec<u8, A>,
    command: Storing,
    key: &Key<B>,
    flags: u32,
    exptime: i32,
    size: u32,
) -> Result<(), AllocError>
    requires { size ≤ 1048576 }
    ensures { OnOk result (Adds out.old.items out.new.items (StorageLine (storage command) key.now flags exptime (Bytes (replicate size 120)) false ∷ [])) }
{
    let mut flags_digits = Buffer::new();
    let mut exptime_digits = Buffer::new();
    let mut size_digits = Buffer::new();
    let words = [
        key.bytes(),
        flags_digits.format(flags).as_bytes(),
        exptime_digits.format(exptime).as_bytes(),
        size_digits.format(size).as_bytes(),
    ];
    put_words(out, storage_name(command), &words)?;
    put_filler(out, size)?;
    out.extend_from_slice(b"\r\n")
}

fn queue_name(queue: Queue) -> &'static [u8]
    ensures { result.now ≡ queue_name queue }
{
    match queue {
        Queue::Hot => b"hot",
        Queue::Warm => b"warm",
        Queue::Cold => b"cold",
        Queue::Temp => b"temp",
    }
}

/// A step of the LRU maintainer on a queue: `~pull CLASS QUEUE`.
pub fn put_pull<A: Allocator>(
    out: &mut Vec<u8, A>,
    class: u32,
    queue: Queue,
) -> Result<(), AllocError>
    ensures { OnOk result (Adds out.old.items out.new.items (ActorLine (Pull class queue) ∷ [])) }
{
    let mut digits = Buffer::new();
    put_words(
        out,
        b"~pull",
        &[digits.format(class).as_bytes(), queue_name(queue)],
    )
}

/// A step of the LRU maintainer on the bump queue: `~bump`.
pub fn put_bump<A: Allocator>(out: &mut Vec<u8, A>) -> Result<(), AllocError>
    ensures { OnOk result (Adds out.old.items out.new.items (ActorLine Bump ∷ [])) }
{
    put_words(out, b"~bump", &[])
}

/// Has the crawler begin with the queues of a class: `lru_crawler crawl CLASS`.
pub fn put_crawl_start<A: Allocator>(out: &mut Vec<u8, A>, class: u32) -> Result<(), AllocError>
    requires { class < 64 }
    ensures { OnOk result (Adds out.old.items out.new.items (ActorLine (StartCrawl (These (2 ^ class))) ∷ [])) }
{
    let mut digits = Buffer::new();
    put_words(
        out,
        b"lru_crawler",
        &[b"crawl", digits.format(class).as_bytes()],
    )
}

/// A step of the crawler in a queue: `~crawl CLASS QUEUE`.
pub fn put_crawl<A: Allocator>(
    out: &mut Vec<u8, A>,
    class: u32,
    queue: Queue,
) -> Result<(), AllocError>
    ensures { OnOk result (Adds out.old.items out.new.items (ActorLine (Crawl class queue) ∷ [])) }
{
    let mut digits = Buffer::new();
    put_words(
        out,
        b"~crawl",
        &[digits.format(class).as_bytes(), queue_name(queue)],
    )
}

/// Has the page mover begin with a page of a class: `slabs reassign SOURCE TARGET`.
pub fn put_reassign<A: Allocator>(
    out: &mut Vec<u8, A>,
    source: u32,
    target: u32,
) -> Result<(), AllocError>
    ensures { OnOk result (Adds out.old.items out.new.items (ActorLine (Reassign source target) ∷ [])) }
{
    let mut source_digits = Buffer::new();
    let mut target_digits = Buffer::new();
    let words = [
        b"reassign",
        source_digits.format(source).as_bytes(),
        target_digits.format(target).as_bytes(),
    ];
    put_words(out, b"slabs", &words)
}

/// A step of the page mover: `~move`.
pub fn put_move<A: Allocator>(out: &mut Vec<u8, A>) -> Result<(), AllocError>
    ensures { OnOk result (Adds out.old.items out.new.items (ActorLine Advance ∷ [])) }
{
    put_words(out, b"~move", &[])
}

/// Sets below which time to live a new item enters TEMP: `lru temp_ttl SECONDS`. Negative: none does.
pub fn put_temp_ttl<A: Allocator>(out: &mut Vec<u8, A>, seconds: i32) -> Result<(), AllocError>
    ensures { OnOk result (Adds out.old.items out.new.items (ActorLine (TempTtl seconds) ∷ [])) }
{
    let mut digits = Buffer::new();
    put_words(
        out,
        b"lru",
        &[b"temp_ttl", digits.format(seconds).as_bytes()],
    )
}

// Writes a space and a word.
fn put_word<A: Allocator>(out: &mut Vec<u8, A>, word: &[u8]) -> Result<(), AllocError>
    ensures { OnOk result (out.new.items ≡ out.old.items ++ 32 ∷ word.now) }
{
    out.push(b' ')?;
    out.extend_from_slice(word)
}

// The least digit of a number.
fn digit(number: u32) -> u8
    ensures { result ≡ 48 + number % 10 }
{
    b'0' + (number % 10) as u8
}

// Writes a space and a factor of so many thousandths, with three digits behind its point.
fn put_factor<A: Allocator>(out: &mut Vec<u8, A>, thousandths: u32) -> Result<(), AllocError>
    ensures { OnOk result (out.new.items ≡ out.old.items ++ 32 ∷ factor_text thousandths) }
{
    let mut whole = Buffer::new();
    put_word(out, whole.format(thousandths / 1000).as_bytes())?;
    let behind = [
        b'.',
        digit(thousandths / 100),
        digit(thousandths / 10),
        digit(thousandths),
    ];
    out.extend_from_slice(&behind)
}

/// Sets shares and age factors: `lru tune HOT WARM HOT_FACTOR WARM_FACTOR`, shares in per cent.
pub fn put_tune<A: Allocator>(out: &mut Vec<u8, A>, tune: Tune) -> Result<(), AllocError>
    ensures { OnOk result (Adds out.old.items out.new.items (TuneLine tune ∷ [])) }
{
    let mut hot = Buffer::new();
    let mut warm = Buffer::new();
    out.extend_from_slice(b"lru")?;
    put_word(out, b"tune")?;
    put_word(out, hot.format(tune.hot_share()).as_bytes())?;
    put_word(out, warm.format(tune.warm_share()).as_bytes())?;
    put_factor(out, tune.hot_factor())?;
    put_factor(out, tune.warm_factor())?;
    out.extend_from_slice(b"\r\n")
}
