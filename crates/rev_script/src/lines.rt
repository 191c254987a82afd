//! The lines of a script, one after another.
ghost use Rattle.std.specs.Prelude.{◌≡◌, ◌≢◌, [], ◌∷◌, ◌++◌, false, take, ◌≤◌, ◌<◌, ◌+◌, ℕ, List, length, IfOk, IfErr, IfSome, Some, None, Err, Ok, true, nat_lt, not, if◌then◌else◌};
ghost use Rattle.std.specs.Prelude.{map, drop, OnOk, OnErr};
ghost use Rattle.std.specs.Io.KnownBytes.{Appends};
ghost use Rattle.rev_output.specs.Sink.{WroteFront, one_more};
ghost use Rattle.std.specs.Option.{option_map};
ghost use Rattle.std.specs.List.{list_all};
ghost use Rattle.rev_items.specs.Keys.{is_key};
ghost use Rattle.rev_model.specs.Client.{Bytes, Skipped};
ghost use Rattle.rev_requests.specs.Plain.{plain_payload};
ghost use Rattle.rev_script.specs.Commands.{asked};
ghost use Rattle.rev_script.specs.declared.command.Command.TheVariants.{Retrieval, Update, Query, Bookmark};
ghost use Rattle.rev_script.specs.declared.dialect.Dialect.{Dialect};
ghost use Rattle.rev_script.specs.declared.dialect.Dialect.TheVariants.{CrLf};
ghost use Rattle.rev_script.specs.Keyed.{HasKeys};
ghost use Rattle.rev_script.specs.Words.{words, word};
ghost use Rattle.rev_script.specs.Script.{line_of, has_lf};
ghost use Rattle.rev_script.specs.Line.{view, IsAsked, IsNext, IsBehindRest, IsFault, IsStorageNext};
ghost use Rattle.rev_script.specs.Input.{input_of};
ghost use Rattle.rev_script.specs.ByteReader.{Took, Broke, IsEnded, front};
ghost use Rattle.rev_script.specs.DataBlock.{IsBroken};

use crate::byte_reader::{ByteReader, LineFault};
use crate::command::{BadAnswer, BookmarkCommand, Command, KeyQuery, StorageCommand};
use crate::data_block::{MOST_DATA, take_block};
use crate::dialect::Dialect;
use crate::duplex::Duplex;
use crate::grammar::{asked, body};
use crate::input::Input;
use crate::line::{Asked, ClientLine, DebugLine, Line};
use crate::raw_line::{MOST_KEPT, first_feed, pass_line, read_text};
use crate::source::Source;
use crate::words::{few_words, few_words_in, word, words};
use arrayvec::ArrayVec;
use rev_items::{Filler, Key};
use rev_output::WriteFailed;
use rev_requests::{KeyCommand, Payload};
use std::alloc::{AllocError, Allocator};
use std::marker::Model;

fn keys_of<A: Allocator + Clone>(alloc: A, words: &[&[u8]]) -> Result<Vec<Key<A>, A>, AllocError>
    requires { list_all is_key (map (λ x. x.now) words.now) ≡ true }
    ensures { IfOk result (λ keys. keys.items ≡ map (λ x. x.now) words.now) }
{
    let mut keys = Vec::with_capacity(alloc.clone()?, words.len())?;
    for w in words {
        let key = Key::of(alloc.clone()?, *w)?;
        keys.push(key)?;
    }
    Ok(keys)
}

// The words from the second on.
fn behind_first<'a, 'b>(words: &'b [&'a [u8]]) -> &'b [&'a [u8]]
    ensures { result.now ≡ drop 1 words.now }
{
    if words.is_empty() { words } else { &words[1..] }
}

// The keys of a retrieval line.
#[inline(always)]
fn retrieval_keys<A: Allocator + Clone>(
    alloc: A,
    words: &[&[u8]],
) -> Result<Vec<Key<A>, A>, AllocError>
    requires { list_all is_key (drop 1 (map (λ x. x.now) words.now)) ≡ true }
    ensures { IfOk result (λ keys. keys.items ≡ drop 1 (map (λ x. x.now) words.now)) }
{
    keys_of(alloc, behind_first(words))
}

// A retrieval line. (Like the other kinds of lines with parts of their own it is made in a function of its own: a line
// is large, and where all kinds were made in one place, each cleared what only the others have.)
#[inline(always)]
fn retrieval_line<A: Allocator + Clone>(
    alloc: A,
    with_cas: bool,
    words: &[&[u8]],
) -> Result<Line<A>, AllocError>
    requires { list_all is_key (drop 1 (map (λ x. x.now) words.now)) ≡ true }
    ensures { IfOk result (λ line. (d : Dialect) → view line ≡ line_of d (Retrieval with_cas) (map (λ x. x.now) words.now) []) }
{
    let keys = retrieval_keys(alloc, words)?;
    Ok(Line::Client(ClientLine::Retrieval { keys, with_cas }))
}

#[inline(always)]
fn update_line<A: Allocator>(
    alloc: A,
    command: KeyCommand,
    noreply: bool,
    words: &[&[u8]],
) -> Result<Line<A>, AllocError>
    requires { is_key (word (map (λ x. x.now) words.now) 1) ≡ true }
    ensures { IfOk result (λ line. (d : Dialect) → view line ≡ line_of d (Update command noreply) (map (λ x. x.now) words.now) []) }
{
    let key = Key::of(alloc, word(words, 1))?;
    Ok(Line::Client(ClientLine::Update {
        command,
        key,
        noreply,
    }))
}

#[inline(always)]
fn query_line<A: Allocator>(
    alloc: A,
    query: KeyQuery,
    words: &[&[u8]],
) -> Result<Line<A>, AllocError>
    requires { is_key (word (map (λ x. x.now) words.now) 1) ≡ true }
    ensures { IfOk result (λ line. (d : Dialect) → view line ≡ line_of d (Query query) (map (λ x. x.now) words.now) []) }
{
    let key = Key::of(alloc, word(words, 1))?;
    Ok(Line::Debug(DebugLine::Query { query, key }))
}

#[inline(always)]
fn bookmark_line<A: Allocator>(
    alloc: A,
    command: BookmarkCommand,
    words: &[&[u8]],
) -> Result<Line<A>, AllocError>
    ensures { IfOk result (λ line. (d : Dialect) → view line ≡ line_of d (Bookmark command) (map (λ x. x.now) words.now) []) }
{
    let name = Vec::from_slice(alloc, word(words, 1))?;
    Ok(Line::Debug(DebugLine::Bookmark { command, name }))
}

// The line of a command and its words, with no data block: a storage line without one is cut off.
#[inline(always)]
fn plain_line<A: Allocator + Clone>(
    alloc: A,
    command: Command,
    words: &[&[u8]],
) -> Result<Line<A>, AllocError>
    requires { HasKeys command (map (λ x. x.now) words.now) }
    ensures { IfOk result (λ line. (d : Dialect) → view line ≡ line_of d command (map (λ x. x.now) words.now) []) }
{
    match command {
        Command::Storage { .. } => Ok(Line::Bad {
            answer: BadAnswer::BadChunk,
        }),
        Command::Retrieval { with_cas } => retrieval_line(alloc, with_cas, words),
        Command::Update { command, noreply } => update_line(alloc, command, noreply, words),
        Command::FlushAll { delay, noreply } => Ok(Line::Client(ClientLine::FlushAll {
            delay,
            noreply,
        })),
        Command::Actor(step) => Ok(Line::Actor(step)),
        Command::Tune(tune) => Ok(Line::Tune(tune)),
        Command::Debug(command) => Ok(Line::Debug(DebugLine::Plain(command))),
        Command::Query(query) => query_line(alloc, query, words),
        Command::Bookmark(command) => bookmark_line(alloc, command, words),
        Command::Bad(answer) => Ok(Line::Bad { answer }),
    }
}

// What a command and the words of its line ask for.
fn asked_by<A: Allocator + Clone>(
    alloc: A,
    command: Command,
    words: &[&[u8]],
) -> Result<Asked<A>, AllocError>
    requires { HasKeys command (map (λ x. x.now) words.now) }
    ensures { IfOk result (λ a. IsAsked a command (map (λ x. x.now) words.now)) }
{
    match command {
        Command::Storage {
            command,
            flags,
            exptime,
            size,
            noreply,
        } => {
            let key = Key::of(alloc, word(words, 1))?;
            Ok(Asked::Storage {
                command,
                key,
                flags,
                exptime,
                size,
                noreply,
            })
        }
        other => Ok(Asked::Done(plain_line(alloc, other, words)?)),
    }
}

// What a line asks for, by its bytes without their ending and by its words.
fn asked_of<A: Allocator + Clone>(
    alloc: A,
    body: &[u8],
    parts: &[&[u8]],
) -> Result<Asked<A>, AllocError>
    requires { map (λ x. x.now) parts.now ≡ words body.now }
    ensures { IfOk result (λ a. IsAsked a (asked body.now) (words body.now)) }
{
    asked_by(alloc, asked(body, parts), parts)
}

// What a line of any number of words asks for, by its bytes without their ending.
fn asked_of_many<A: Allocator + Clone>(alloc: A, body: &[u8]) -> Result<Asked<A>, AllocError>
    ensures { IfOk result (λ a. IsAsked a (asked body.now) (words body.now)) }
{
    let words = words(alloc.clone()?, body)?;
    asked_of(alloc, body, words.as_slice())
}

// The same. A line of few words takes no memory for their list.
fn asked_line<A: Allocator + Clone>(alloc: A, body: &[u8]) -> Result<Asked<A>, AllocError>
    ensures { IfOk result (λ a. IsAsked a (asked body.now) (words body.now)) }
{
    let mut few = ArrayVec::new();
    if few_words(&mut few, body) {
        return asked_of(alloc, body, few.as_slice());
    }
    asked_of_many(alloc, body)
}

// The data of a storage line, from what was kept of its data block.
fn payload_of<A: Allocator + Clone>(
    filler: &mut Filler<A>,
    size: u32,
    kept: Vec<u8, A>,
) -> Result<Payload<A>, AllocError>
    ensures { IfOk result (λ payload. plain_payload payload ≡ (if nat_lt 1048576 size then Skipped size else Bytes kept.items)) }
{
    if size > MOST_DATA {
        return Ok(Payload::Skipped(size));
    }
    // (no filler begins and ends with other bytes)
    if kept.first() != kept.last() {
        return Payload::from_vec(kept);
    }
    Ok(Payload::Bytes(filler.data(kept)?))
}

// Takes a storage line's data block, and makes the line.
#[inline(always)]
fn storage_line<S: Source, A: Allocator + Clone>(
    input: &mut Input<S, A>,
    alloc: A,
    command: StorageCommand,
    key: Key<A>,
    flags: u32,
    exptime: i32,
    size: u32,
    noreply: bool,
) -> Result<Option<Line<A>>, LineFault>
    requires { input.old.passes ≡ false }
    ensures ok { IfOk result (λ line. IsStorageNext (input_of input.old) (input_of input.new) command key flags exptime size noreply (option_map view line)) }
    ensures err { IfErr result (λ e. IsBroken input.old.dialect input.old.bytes input.new.bytes size e) }
{
    let mut kept = Vec::new(alloc);
    let sound = match take_block(&mut input.bytes, input.dialect, size, &mut kept) {
        Err(e) => return Err(e),
        Ok(sound) => sound,
    };
    if !sound {
        input.passes = input.dialect.passes_bad_lines();
        return Ok(Some(Line::Bad {
            answer: BadAnswer::BadChunk,
        }));
    }
    let payload = match payload_of(&mut input.filler, size, kept) {
        Err(_) => return Err(LineFault::Memory),
        Ok(payload) => payload,
    };
    Ok(Some(Line::Client(ClientLine::Storage {
        command,
        key,
        flags,
        exptime,
        payload,
        noreply,
    })))
}

fn two_handles<A: Allocator + Clone>(text: &Vec<u8, A>) -> Result<(A, A), AllocError> {
    Ok((text.allocator().clone()?, text.allocator().clone()?))
}

// Reads a line whose LF is perhaps not read yet, through its data block.
fn copied_line<S: Source, A: Allocator + Clone>(
    input: &mut Input<S, A>,
    text: &mut Vec<u8, A>,
) -> Result<Option<Line<A>>, LineFault>
    requires { input.old.passes ≡ false }
    ensures ok { IfOk result (λ line. IsNext (input_of input.old) (input_of input.new) (option_map view line)) }
    ensures err { IfErr result (λ e. IsFault (input_of input.old) (input_of input.new) e) }
    ensures stays { IsEnded input.old.bytes → (result ≡ Ok None) × Took input.old.bytes input.new.bytes [] }
{
    let raw = match read_text(&mut input.bytes, text) {
        Err(e) => return Err(e),
        Ok(raw) => raw,
    };
    if !raw.feed && raw.length == 0 {
        return Ok(None);
    }
    if raw.length > MOST_KEPT {
        return Ok(Some(Line::Bad {
            answer: BadAnswer::LineTooLong,
        }));
    }
    let (alloc, other) = match two_handles(text) {
        Err(_) => return Err(LineFault::Memory),
        Ok(pair) => pair,
    };
    let asked = match asked_line(alloc, body(text.as_slice())) {
        Err(_) => return Err(LineFault::Memory),
        Ok(asked) => asked,
    };
    match asked {
        Asked::Done(line) => Ok(Some(line)),
        Asked::Storage {
            command,
            key,
            flags,
            exptime,
            size,
            noreply,
        } => {
            if !raw.feed {
                return Ok(Some(Line::Bad {
                    answer: BadAnswer::BadChunk,
                }));
            }
            storage_line(input, other, command, key, flags, exptime, size, noreply)
        }
    }
}

// Takes a line whose LF stands at this place of the bytes at the front, and its data block: a line of any number of
// words.
fn many_at_hand<S: Source, A: Allocator + Clone>(
    input: &mut Input<S, A>,
    text: &Vec<u8, A>,
    i: usize,
) -> Result<Option<Line<A>>, LineFault>
    requires here { input.old.passes ≡ false }
    requires feed { (i < length (front input.old.bytes)) × (has_lf (take i (front input.old.bytes)) ≡ false)
        × (take (i + 1) (front input.old.bytes) ≡ take i (front input.old.bytes) ++ 10 ∷ []) }
    ensures ok { IfOk result (λ line. IsNext (input_of input.old) (input_of input.new) (option_map view line)) }
    ensures err { IfErr result (λ e. IsFault (input_of input.old) (input_of input.new) e) }
{
    let (alloc, other) = match two_handles(text) {
        Err(_) => return Err(LineFault::Memory),
        Ok(pair) => pair,
    };
    let asked = asked_of_many(alloc, body(&input.bytes.front()[..i]));
    input.bytes.pass(i + 1);
    let asked = match asked {
        Err(_) => return Err(LineFault::Memory),
        Ok(asked) => asked,
    };
    match asked {
        Asked::Done(line) => Ok(Some(line)),
        Asked::Storage {
            command,
            key,
            flags,
            exptime,
            size,
            noreply,
        } => storage_line(input, other, command, key, flags, exptime, size, noreply),
    }
}

// Takes a line whose LF stands at this place of the bytes at the front, and its data block. A line of few words is
// looked at where it lies.
fn line_at_hand<S: Source, A: Allocator + Clone>(
    input: &mut Input<S, A>,
    text: &Vec<u8, A>,
    i: usize,
) -> Result<Option<Line<A>>, LineFault>
    requires here { input.old.passes ≡ false }
    requires feed { (i < length (front input.old.bytes)) × (has_lf (take i (front input.old.bytes)) ≡ false)
        × (take (i + 1) (front input.old.bytes) ≡ take i (front input.old.bytes) ++ 10 ∷ []) }
    ensures ok { IfOk result (λ line. IsNext (input_of input.old) (input_of input.new) (option_map view line)) }
    ensures err { IfErr result (λ e. IsFault (input_of input.old) (input_of input.new) e) }
{
    let front = input.bytes.front();
    let body = body(&front[..i]);
    let mut few = ArrayVec::new();
    if !few_words_in(&mut few, body, front) {
        return many_at_hand(input, text, i);
    }
    let parts = few.as_slice();
    let (alloc, other) = match two_handles(text) {
        Err(_) => return Err(LineFault::Memory),
        Ok(pair) => pair,
    };
    match asked(body, parts) {
        Command::Storage {
            command,
            flags,
            exptime,
            size,
            noreply,
        } => {
            let key = Key::of(alloc, word(parts, 1));
            input.bytes.pass(i + 1);
            let key = match key {
                Err(_) => return Err(LineFault::Memory),
                Ok(key) => key,
            };
            storage_line(input, other, command, key, flags, exptime, size, noreply)
        }
        // (the two kinds that most lines are have ways out of their own, where nothing of another kind is cleared or
        // copied)
        Command::Retrieval { with_cas } => {
            let keys = retrieval_keys(alloc, parts);
            input.bytes.pass(i + 1);
            match keys {
                Err(_) => Err(LineFault::Memory),
                Ok(keys) => Ok(Some(Line::Client(ClientLine::Retrieval { keys, with_cas }))),
            }
        }
        Command::Update { command, noreply } => {
            let line = update_line(alloc, command, noreply, parts);
            input.bytes.pass(i + 1);
            match line {
                Err(_) => Err(LineFault::Memory),
                Ok(line) => Ok(Some(line)),
            }
        }
        other => {
            let line = plain_line(alloc, other, parts);
            input.bytes.pass(i + 1);
            match line {
                Err(_) => Err(LineFault::Memory),
                Ok(line) => Ok(Some(line)),
            }
        }
    }
}

// Reads a line that begins at the next byte, through its data block. One that was read whole, as most are, is not
// copied.
#[inline(always)]
fn line_here<S: Source, A: Allocator + Clone>(
    input: &mut Input<S, A>,
    text: &mut Vec<u8, A>,
) -> Result<Option<Line<A>>, LineFault>
    requires { input.old.passes ≡ false }
    ensures ok { IfOk result (λ line. IsNext (input_of input.old) (input_of input.new) (option_map view line)) }
    ensures err { IfErr result (λ e. IsFault (input_of input.old) (input_of input.new) e) }
    ensures stays { IsEnded input.old.bytes → (result ≡ Ok None) × Took input.old.bytes input.new.bytes [] }
{
    let some = match input.bytes.more() {
        Err(e) => return Err(e),
        Ok(some) => some,
    };
    if !some {
        return Ok(None);
    }
    match first_feed(input.bytes.front()) {
        Some(i) => line_at_hand(input, text, i),
        None => copied_line(input, text),
    }
}

// Passes over the rest of a line, where a bad data block has left one. At `false` the end came first.
fn pass_rest<S: Source, A: Allocator>(input: &mut Input<S, A>) -> Result<bool, LineFault>
    ensures some { IfOk result (λ some. some ≡ true → IsBehindRest (input_of input.old) (input_of input.new)) }
    ensures none { IfOk result (λ some. some ≡ false → IsNext (input_of input.old) (input_of input.new) None) }
    ensures err { IfErr result (λ e. IsFault (input_of input.old) (input_of input.new) e) }
    ensures stays { IsEnded input.old.bytes → (result ≡ Ok (not input.old.passes)) × Took input.old.bytes input.new.bytes [] }
{
    if !input.passes {
        return Ok(true);
    }
    match pass_line(&mut input.bytes) {
        Err(e) => Err(e),
        Ok(false) => Ok(false),
        Ok(true) => {
            input.passes = false;
            Ok(true)
        }
    }
}

// Reads the next line, through its data block.
fn next_line<S: Source, A: Allocator + Clone>(
    input: &mut Input<S, A>,
    text: &mut Vec<u8, A>,
) -> Result<Option<Line<A>>, LineFault>
    ensures ok { IfOk result (λ line. IsNext (input_of input.old) (input_of input.new) (option_map view line)) }
    ensures err { IfErr result (λ e. IsFault (input_of input.old) (input_of input.new) e) }
    ensures stays { IsEnded input.old.bytes → (result ≡ Ok None) × Took input.old.bytes input.new.bytes [] }
{
    match pass_rest(input) {
        Err(e) => return Err(e),
        Ok(false) => return Ok(None),
        Ok(true) => {}
    }
    line_here(input, text)
}

/// The lines of a script, from a source that gives its bytes in pieces of any size.
#[derive(Drop)]
pub struct Lines<S: Source, A: Allocator> {
    input: Input<S, A>,
    text: Vec<u8, A>,
    fault: Option<LineFault>,
}

impl<S: Source, A: Allocator> Model for Lines<S, A> {
    ghost use Rattle.rev_script.specs.Lines.{PlainLines};

    ghost Value = { PlainLines };

    ghost use Rattle.rev_script.specs.Input.{input_of};

    ghost view = { λ l. record { input = input_of l.input; fault = l.fault } };
}

impl<S: Source, A: Allocator + Clone> Lines<S, A> {
    ghost use Rattle.rev_script.specs.Lines.{at_first, counted_anew};

    /// The lines of all that the source will give, where data end in CR LF. No memory is taken.
    pub fn over(alloc: A, source: S) -> Lines<S, A>
        ensures { result ≡ at_first (S.told source) CrLf }
    {
        Lines::of(alloc, source, Dialect::CrLf)
    }

    /// The lines of all that the source will give, in a dialect. No memory is taken.
    pub fn of(alloc: A, source: S, dialect: Dialect) -> Lines<S, A>
        ensures { result ≡ at_first (S.told source) dialect }
    {
        Lines {
            input: Input {
                bytes: ByteReader::over(source),
                dialect,
                passes: false,
                filler: Filler::new(),
            },
            text: Vec::new(alloc),
            fault: None,
        }
    }

    /// The next line; none only at the end. After a fault each call answers it again, and nothing is read.
    ///
    /// No byte is waited for behind those that tell the line: the rest of a line that a bad data block is followed by
    /// is passed over by the next call.
    pub fn next(&mut self) -> Result<Option<Line<A>>, LineFault>
        ensures ok { IfOk result (λ line. IsNext self.old.input self.new.input (option_map view line)) }
        ensures err { self.old.fault ≡ None → IfErr result (λ e. IsFault self.old.input self.new.input e) }
        ensures stays { self.old.fault ≡ None → IsEnded self.old.input.bytes → (result ≡ Ok None) × Took self.old.input.bytes self.new.input.bytes [] }
        ensures most { IfOk result (λ _. self.new.input.bytes.given ≤ 4294967296) }
        ensures kept { IfErr result (λ e. self.new.fault ≡ Some e) }
        ensures good { IfOk result (λ _. self.new.fault ≡ None) }
        ensures again { IfSome self.old.fault (λ e. (result ≡ Err e) × (self.new ≡ self.old)) }
    {
        if let Some(e) = self.fault {
            return Err(e);
        }
        match next_line(&mut self.input, &mut self.text) {
            Ok(line) => {
                // (only the proof looks at it)
                let _given = self.input.bytes.given();
                Ok(line)
            }
            Err(e) => {
                self.fault = Some(e);
                Err(e)
            }
        }
    }

    /// Counts the bytes from here on alone: a script that is too long ends behind so many more. Nothing is read.
    pub fn count_anew(&mut self)
        ensures { self.new ≡ counted_anew self.old }
    {
        self.input.bytes.count_anew();
    }

    /// The source, as it is now: a `&mut` is so handed back.
    pub fn into_source(self) -> S
        ensures { S.told result ≡ self.input.bytes.source }
    {
        let Lines { input, .. } = self;
        let Input { bytes, .. } = input;
        bytes.into_source()
    }
}

impl<S: Duplex, A: Allocator> Lines<S, A> {
    ghost use Rattle.rev_script.specs.Lines.{with_sink};

    /// Writes all the bytes to the source. What is read is left alone.
    #[inline(always)]
    pub fn put(&mut self, text: &[u8]) -> Result<(), WriteFailed>
        ensures ok { OnOk result (Appends self.old.input.bytes.source.beside.sink.contents self.new.input.bytes.source.beside.sink.contents text.now
            × (self.new.input.bytes.source.beside.sink.failures ≡ self.old.input.bytes.source.beside.sink.failures)) }
        ensures err { OnErr result (WroteFront self.old.input.bytes.source.beside.sink.contents self.new.input.bytes.source.beside.sink.contents text.now
            × (self.new.input.bytes.source.beside.sink.failures ≡ one_more self.old.input.bytes.source.beside.sink.failures)) }
        ensures kept { self.new ≡ with_sink self.old self.new.input.bytes.source.beside.sink }
    {
        match self.input.bytes.put(text) {
            Err(e) => Err(e),
            Ok(()) => Ok(()),
        }
    }
}
