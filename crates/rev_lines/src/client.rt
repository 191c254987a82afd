//! The lines of clients.
ghost use Rattle.std.specs.Prelude.{◌≡◌, ◌++◌, ◌∷◌, [], true, false, codes, IfOk, IfSome, OnOk, None, Some};
ghost use Rattle.rev_model.specs.Client.{Stores, Joins, Flushes, Bytes};
ghost use Rattle.rev_model.specs.Actor.{Client};
ghost use Rattle.rev_requests.specs.Plain.{plain_client, plain_payload, plain_verb, plain_side, plain_keyed, plain_sum, amount};
ghost use Rattle.std.specs.Fmt.{decimal};
ghost use Rattle.rev_lines.specs.Lines.{Put, is_data, is_verb, has_client_line, client_text, storage_text, store_text, join_text, sum_text};

use crate::text::{put_block, put_number_of, put_signed, put_signed_of, put_words};
use itoa::Buffer;
use rev_items::Key;
use rev_requests::{Arithmetic, ClientStep, JoinSide, KeyCommand, Payload, StoreVerb};
use std::alloc::{AllocError, Allocator};

/// The most bytes of data that a script can bring (the largest page).
const MOST_DATA: usize = 1048576;

// Writes a storage command and its data block.
fn put_storage<A: Allocator>(
    out: &mut Vec<u8, A>,
    name: &[u8],
    key: &[u8],
    flags: u32,
    exptime: i32,
    bytes: &[u8],
) -> Result<(), AllocError>
    ensures { OnOk result (out.new.items ≡ out.old.items ++ storage_text name.now key.now flags exptime bytes.now []) }
{
    let mut flags_digits = Buffer::new();
    let mut exptime_digits = Buffer::new();
    let mut size_digits = Buffer::new();
    let words = [
        key,
        flags_digits.format(flags).as_bytes(),
        exptime_digits.format(exptime).as_bytes(),
        size_digits.format(bytes.len()).as_bytes(),
    ];
    put_words(out, name, &words)?;
    put_block(out, bytes)
}

// Writes a `cas` with the number that it asks for, and its data block.
fn put_cas<A: Allocator>(
    out: &mut Vec<u8, A>,
    key: &[u8],
    flags: u32,
    exptime: i32,
    bytes: &[u8],
    number: u64,
) -> Result<(), AllocError>
    ensures { OnOk result (out.new.items ≡ out.old.items ++ storage_text (codes "cas") key.now flags exptime bytes.now (decimal number ∷ [])) }
{
    let mut flags_digits = Buffer::new();
    let mut exptime_digits = Buffer::new();
    let mut size_digits = Buffer::new();
    let mut number_digits = Buffer::new();
    let words = [
        key,
        flags_digits.format(flags).as_bytes(),
        exptime_digits.format(exptime).as_bytes(),
        size_digits.format(bytes.len()).as_bytes(),
        number_digits.format(number).as_bytes(),
    ];
    put_words(out, b"cas", &words)?;
    put_block(out, bytes)
}

// Writes the line of a store by its verb.
fn put_verb<A: Allocator>(
    out: &mut Vec<u8, A>,
    verb: StoreVerb,
    key: &[u8],
    flags: u32,
    exptime: i32,
    bytes: &[u8],
) -> Result<(), AllocError>
    ensures text { OnOk result (out.new.items ≡ out.old.items ++ store_text (plain_verb verb) key.now flags exptime bytes.now) }
    ensures line { is_verb (plain_verb verb) ≡ true }
{
    match verb {
        StoreVerb::Set => put_storage(out, b"set", key, flags, exptime, bytes),
        StoreVerb::Add => put_storage(out, b"add", key, flags, exptime, bytes),
        StoreVerb::Replace => put_storage(out, b"replace", key, flags, exptime, bytes),
        StoreVerb::Cas(number) => put_cas(out, key, flags, exptime, bytes, number),
    }
}

// Writes the line of a join by its side.
fn put_side<A: Allocator>(
    out: &mut Vec<u8, A>,
    side: JoinSide,
    key: &[u8],
    bytes: &[u8],
) -> Result<(), AllocError>
    ensures { OnOk result (out.new.items ≡ out.old.items ++ join_text (plain_side side) key.now bytes.now) }
{
    match side {
        JoinSide::Append => put_storage(out, b"append", key, 0, 0, bytes),
        JoinSide::Prepend => put_storage(out, b"prepend", key, 0, 0, bytes),
    }
}

// The data that a script can bring.
fn known<A: Allocator>(payload: &Payload<A>) -> Option<&[u8]>
    ensures some { IfSome result (λ bytes. (plain_payload payload.now ≡ Bytes bytes.now) × (is_data (plain_payload payload.now) ≡ true)) }
    ensures none { result ≡ None → is_data (plain_payload payload.now) ≡ false }
{
    match payload {
        Payload::Bytes(bytes) if bytes.len() <= MOST_DATA => Some(bytes.as_slice()),
        _ => None,
    }
}

// Writes the line of a store, if it has one.
fn put_store<A: Allocator, B: Allocator>(
    out: &mut Vec<u8, A>,
    verb: StoreVerb,
    key: &Key<B>,
    flags: u32,
    exptime: i32,
    payload: &Payload<B>,
) -> Result<bool, AllocError>
    ensures { IfOk result (λ told. Put out.old.items out.new.items told (Client (Stores (plain_verb verb) key.now flags exptime (plain_payload payload.now)))) }
{
    match known(payload) {
        None => Ok(false),
        Some(bytes) => {
            put_verb(out, verb, key.bytes(), flags, exptime, bytes)?;
            Ok(true)
        }
    }
}

// Writes the line of a join, if it has one.
fn put_join<A: Allocator, B: Allocator>(
    out: &mut Vec<u8, A>,
    side: JoinSide,
    key: &Key<B>,
    payload: &Payload<B>,
) -> Result<bool, AllocError>
    ensures { IfOk result (λ told. Put out.old.items out.new.items told (Client (Joins (plain_side side) key.now (plain_payload payload.now)))) }
{
    match known(payload) {
        None => Ok(false),
        Some(bytes) => {
            put_side(out, side, key.bytes(), bytes)?;
            Ok(true)
        }
    }
}

// Writes the line of a flush.
fn put_flush<A: Allocator>(out: &mut Vec<u8, A>, delay: i32) -> Result<bool, AllocError>
    ensures { IfOk result (λ told. Put out.old.items out.new.items told (Client (Flushes (Some delay)))) }
{
    put_signed(out, b"flush_all", delay)?;
    Ok(true)
}

// Writes the line of a command on a number.
fn put_sum<A: Allocator>(
    out: &mut Vec<u8, A>,
    sum: Arithmetic,
    key: &[u8],
) -> Result<(), AllocError>
    ensures { OnOk result (out.new.items ≡ out.old.items ++ sum_text (plain_sum sum) key.now (amount sum)) }
{
    match sum {
        Arithmetic::Increment(number) => put_number_of(out, b"incr", key, number),
        Arithmetic::Decrement(number) => put_number_of(out, b"decr", key, number),
    }
}

// Writes the line of a command on a key that brings no data.
fn put_keyed<A: Allocator, B: Allocator>(
    out: &mut Vec<u8, A>,
    command: KeyCommand,
    key: &Key<B>,
) -> Result<(), AllocError>
    ensures text { OnOk result (out.new.items ≡ out.old.items ++ client_text (plain_keyed command key.now)) }
    ensures line { has_client_line (plain_keyed command key.now) ≡ true }
{
    match command {
        KeyCommand::Get => put_words(out, b"get", &[key.bytes()]),
        KeyCommand::Delete => put_words(out, b"delete", &[key.bytes()]),
        KeyCommand::Evict => put_words(out, b"~evict", &[key.bytes()]),
        KeyCommand::Touch(exptime) => put_signed_of(out, b"touch", key.bytes(), exptime),
        KeyCommand::Count(sum) => put_sum(out, sum, key.bytes()),
    }
}

/// Writes the line of a client's step, if it has one. The answer is whether it has.
///
/// Err: memory was refused.
pub fn put_client<A: Allocator, B: Allocator>(
    out: &mut Vec<u8, A>,
    step: &ClientStep<B>,
) -> Result<bool, AllocError>
    ensures { IfOk result (λ told. Put out.old.items out.new.items told (Client (plain_client step.now))) }
{
    match step {
        ClientStep::Store {
            verb,
            key,
            flags,
            exptime,
            data,
        } => put_store(out, *verb, key, *flags, *exptime, data),
        ClientStep::Join { side, key, data } => put_join(out, *side, key, data),
        ClientStep::Keyed { command, key } => {
            put_keyed(out, *command, key)?;
            Ok(true)
        }
        ClientStep::FlushAll { delay } => put_flush(out, *delay),
    }
}
