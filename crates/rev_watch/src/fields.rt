//! The values of fields, each by its name, wherever it stands.
ghost use Rattle.std.specs.Prelude.{◌≡◌, ◌≢◌, ◌≤◌, ◌<◌, ◌^◌, ◌++◌, [], ℕ, map, length, MatchResult, MatchOption, IfOk, Ok, Err, Some, None};
ghost use Rattle.std.specs.Option.{option_copied};
ghost use Rattle.rev_watch.specs.Fields.{optional_in, value_in, number_in, signed_in, optional_signed_in, look_up_outcome, store_command, store_outcome, fetched, time_left, queue, word_in, key_in, fields_of};
ghost use Rattle.rev_watch.specs.declared.fault.LineFault.{LineFault};

use crate::event::{LookUpOutcome, StoreCommand, StoreOutcome};
use crate::fault::{Field, LineFault};
use crate::key::key_of;
use crate::number::{number, number_u32, signed};
use crate::text::{is_word, value_behind};
use crate::words::Words;
use arrayvec::ArrayVec;
use rev_items::Key;
use rev_model::Queue;
use std::alloc::Allocator;

/// The most words behind an event's kind (this project's own bound; the server writes at most nine).
pub const MOST_FIELDS: usize = 32;

/// Puts the words of what is left of a text into an empty list. At an error some of them are there.
pub fn fields_of<'a>(
    fields: &mut ArrayVec<&'a [u8], MOST_FIELDS>,
    words: &mut Words<'a>,
) -> Result<(), LineFault>
    requires { fields.old.items ≡ [] }
    ensures { MatchResult result (λ _. fields_of words.old ≡ Ok (map (λ w. w.now) fields.new.items)) (λ e. fields_of words.old ≡ Err e) }
{
    'words: loop {
        if fields.is_full() {
            return Err(LineFault::TooManyFields);
        }
        let (word, more) = words.next();
        fields.push(word);
        if !more {
            return Ok(());
        }
    }
}

/// What a field's word says, where it stands in the line.
pub fn optional_in<'a>(fields: &[&'a [u8]], field: Field) -> Result<Option<&'a [u8]>, LineFault>
    ensures { MatchResult result (λ v. optional_in field (map (λ w. w.now) fields.now) ≡ Ok (option_copied v)) (λ e. optional_in field (map (λ w. w.now) fields.now) ≡ Err e) }
{
    let name = field.name().as_bytes();
    let mut found: Option<&'a [u8]> = None;
    for word in fields {
        if let Some(value) = value_behind(name, b'=', *word) {
            if found.is_some() {
                return Err(LineFault::Twice(field));
            }
            found = Some(value);
        }
    }
    Ok(found)
}

/// What a field's word says.
#[tactic(auto, unfolding(crate::specs::Fields::value_in))]
pub fn value_in<'a>(fields: &[&'a [u8]], field: Field) -> Result<&'a [u8], LineFault>
    ensures { MatchResult result (λ v. value_in field (map (λ w. w.now) fields.now) ≡ Ok v.now) (λ e. value_in field (map (λ w. w.now) fields.now) ≡ Err e) }
{
    match optional_in(fields, field) {
        Ok(Some(value)) => Ok(value),
        Ok(None) => Err(LineFault::Missing(field)),
        Err(fault) => Err(fault),
    }
}

/// A number of at most `limit`.
#[tactic(auto, unfolding(crate::specs::Fields::number_in))]
pub fn number_in(fields: &[&[u8]], field: Field, limit: u64) -> Result<u64, LineFault>
    ensures value { result ≡ number_in limit field (map (λ w. w.now) fields.now) }
    ensures bound { IfOk result (λ n. n ≤ limit) }
{
    let value = value_in(fields, field)?;
    number(value, limit).ok_or(LineFault::BadValue(field))
}

/// A number of 32 bits without a sign.
pub fn number_u32_in(fields: &[&[u8]], field: Field) -> Result<u32, LineFault>
    ensures { result ≡ number_in 4294967295 field (map (λ w. w.now) fields.now) }
{
    match number_in(fields, field, 4294967295) {
        Ok(n) => Ok(n as u32),
        Err(fault) => Err(fault),
    }
}

/// A number of 64 bits without a sign.
pub fn number_u64_in(fields: &[&[u8]], field: Field) -> Result<u64, LineFault>
    ensures { result ≡ number_in 18446744073709551615 field (map (λ w. w.now) fields.now) }
{
    number_in(fields, field, 18446744073709551615)
}

/// A number of 32 bits with a sign.
#[tactic(auto, unfolding(crate::specs::Fields::signed_in))]
pub fn signed_in(fields: &[&[u8]], field: Field) -> Result<i32, LineFault>
    ensures { result ≡ signed_in field (map (λ w. w.now) fields.now) }
{
    let value = value_in(fields, field)?;
    signed(value).ok_or(LineFault::BadValue(field))
}

/// A number of 32 bits with a sign, where the field stands in the line.
#[tactic(auto, unfolding(crate::specs::Fields::optional_signed_in))]
pub fn optional_signed_in(fields: &[&[u8]], field: Field) -> Result<Option<i32>, LineFault>
    ensures { result ≡ optional_signed_in field (map (λ w. w.now) fields.now) }
{
    match optional_in(fields, field)? {
        None => Ok(None),
        Some(value) => match signed(value) {
            Some(number) => Ok(Some(number)),
            None => Err(LineFault::BadValue(field)),
        },
    }
}

/// How a look-up ended.
#[tactic(auto, unfolding(crate::specs::Fields::look_up_outcome))]
pub fn look_up_outcome(word: &[u8]) -> LookUpOutcome
    ensures { result ≡ look_up_outcome word.now }
{
    if is_word(word, b"found") {
        LookUpOutcome::Found
    } else if is_word(word, b"not_found") {
        LookUpOutcome::NotFound
    } else if is_word(word, b"expired") {
        LookUpOutcome::Expired
    } else if is_word(word, b"flushed") {
        LookUpOutcome::Flushed
    } else {
        LookUpOutcome::Other
    }
}

/// Which command stored an item.
#[tactic(auto, unfolding(crate::specs::Fields::store_command))]
pub fn store_command(word: &[u8]) -> StoreCommand
    ensures { result ≡ store_command word.now }
{
    if is_word(word, b"set") {
        StoreCommand::Set
    } else if is_word(word, b"add") {
        StoreCommand::Add
    } else if is_word(word, b"replace") {
        StoreCommand::Replace
    } else if is_word(word, b"append") {
        StoreCommand::Append
    } else if is_word(word, b"prepend") {
        StoreCommand::Prepend
    } else if is_word(word, b"cas") {
        StoreCommand::Cas
    } else {
        StoreCommand::Other
    }
}

/// How a storage command ended.
#[tactic(auto, unfolding(crate::specs::Fields::store_outcome))]
pub fn store_outcome(word: &[u8]) -> StoreOutcome
    ensures { result ≡ store_outcome word.now }
{
    if is_word(word, b"stored") {
        StoreOutcome::Stored
    } else if is_word(word, b"not_stored") {
        StoreOutcome::NotStored
    } else if is_word(word, b"exists") {
        StoreOutcome::Exists
    } else if is_word(word, b"not_found") {
        StoreOutcome::NotFound
    } else if is_word(word, b"too_large") {
        StoreOutcome::TooLarge
    } else if is_word(word, b"no_memory") {
        StoreOutcome::NoMemory
    } else {
        StoreOutcome::Other
    }
}

/// Whether an evicted item had been fetched.
#[tactic(auto, unfolding(crate::specs::Fields::fetched))]
pub fn fetched_in(fields: &[&[u8]]) -> Result<bool, LineFault>
    ensures { result ≡ word_in fetched Field.Fetch (map (λ w. w.now) fields.now) }
{
    let word = value_in(fields, Field::Fetch)?;
    if is_word(word, b"yes") {
        Ok(true)
    } else if is_word(word, b"no") {
        Ok(false)
    } else {
        Err(LineFault::BadValue(Field::Fetch))
    }
}

/// The seconds that an evicted item had left; none where it has no time to live.
#[tactic(auto, unfolding(crate::specs::Fields::time_left))]
pub fn time_left_in(fields: &[&[u8]]) -> Result<Option<u32>, LineFault>
    ensures { result ≡ word_in time_left Field.Ttl (map (λ w. w.now) fields.now) }
{
    let word = value_in(fields, Field::Ttl)?;
    if is_word(word, b"-1") {
        return Ok(None);
    }
    match number_u32(word) {
        Some(seconds) => Ok(Some(seconds)),
        None => Err(LineFault::BadValue(Field::Ttl)),
    }
}

/// The queue whose crawl ended.
#[tactic(auto, unfolding(crate::specs::Fields::queue))]
pub fn queue_in(fields: &[&[u8]]) -> Result<Queue, LineFault>
    ensures { result ≡ word_in queue Field.Lru (map (λ w. w.now) fields.now) }
{
    let word = value_in(fields, Field::Lru)?;
    if is_word(word, b"hot") {
        Ok(Queue::Hot)
    } else if is_word(word, b"warm") {
        Ok(Queue::Warm)
    } else if is_word(word, b"cold") {
        Ok(Queue::Cold)
    } else if is_word(word, b"temp") {
        Ok(Queue::Temp)
    } else {
        Err(LineFault::BadValue(Field::Lru))
    }
}

/// The key, and by how many bytes it is longer than the server's.
#[tactic(auto, unfolding(crate::specs::Fields::key_in))]
pub fn key_in<A: Allocator>(alloc: A, fields: &[&[u8]]) -> Result<(Key<A>, u32), LineFault>
    ensures { MatchResult result (λ named. key_in (map (λ w. w.now) fields.now) ≡ Ok named) (λ e. e ≢ LineFault.Memory → key_in (map (λ w. w.now) fields.now) ≡ Err e) }
{
    let value = value_in(fields, Field::Key)?;
    key_of(alloc, value)
}
