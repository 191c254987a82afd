//! Fields in the order in which the server writes them, read one behind another and not sought by their names.
ghost use Rattle.std.specs.Prelude.{◌≡◌, ◌≤◌, ◌++◌, ◌∷◌, [], IfSome};
ghost use Rattle.rev_watch.specs.Field.{name_of};
ghost use Rattle.rev_watch.specs.Usual.{StandsFirst, StandsLast, IsLookUp, IsStore};
ghost use Rattle.rev_watch.specs.Words.{words};

use crate::fault::Field;
use crate::number::{number, number_before};
use crate::text::{cut, value_behind};

/// The largest number of 32 bits without a sign.
const MOST_U32: u64 = 4294967295;

/// The largest one with a sign.
const MOST_I32: u64 = 2147483647;

/// The fields of a look-up.
#[derive(Drop)]
pub struct UsualLookUp<'a> {
    pub key: &'a [u8],
    pub outcome: &'a [u8],
    pub class: u32,
    pub connection: i32,
    pub size: u32,
}

/// The fields of a storage command.
#[derive(Drop)]
pub struct UsualStore<'a> {
    pub key: &'a [u8],
    pub outcome: &'a [u8],
    pub command: &'a [u8],
    pub ttl: u32,
    pub class: u32,
    pub connection: i32,
    pub size: u32,
}

// The value of the first word, where it is of this field and another word follows, and the text behind it.
#[inline(always)]
fn first_value<'a>(field: Field, text: &'a [u8]) -> Option<(&'a [u8], &'a [u8])>
    ensures { IfSome result (λ r. words text.now ≡ (name_of field ++ 61 ∷ r.0.now) ∷ words r.1.now) }
{
    let value = value_behind(field.name().as_bytes(), b'=', text)?;
    match cut(value, b' ') {
        (value, Some(rest)) => Some((value, rest)),
        (_, None) => None,
    }
}

// The same of a number of at most `limit`.
#[inline(always)]
fn first_number<'a>(field: Field, text: &'a [u8], limit: u64) -> Option<(u64, &'a [u8])>
    ensures stands { IfSome result (λ r. StandsFirst limit field text.now r.0 r.1.now) }
    ensures bound { IfSome result (λ r. r.0 ≤ limit) }
{
    let value = value_behind(field.name().as_bytes(), b'=', text)?;
    number_before(value, b' ', limit)
}

// The number of at most `limit` that is the value of the last word, where this is the only one left and of this field.
#[inline(always)]
fn last_number(field: Field, text: &[u8], limit: u64) -> Option<u64>
    ensures stands { IfSome result (λ n. StandsLast limit field text.now n) }
    ensures bound { IfSome result (λ n. n ≤ limit) }
{
    let value = value_behind(field.name().as_bytes(), b'=', text)?;
    number(value, limit)
}

/// The fields of a look-up, where they are all that there is.
pub fn usual_look_up(text: &[u8]) -> Option<UsualLookUp<'_>>
    ensures { IfSome result (λ u. IsLookUp text.now u.key.now u.outcome.now u.class u.connection u.size) }
{
    let (key, rest) = first_value(Field::Key, text)?;
    let (outcome, rest) = first_value(Field::Status, rest)?;
    let (class, rest) = first_number(Field::Clsid, rest, MOST_U32)?;
    let (connection, rest) = first_number(Field::Cfd, rest, MOST_I32)?;
    let size = last_number(Field::Size, rest, MOST_U32)?;
    Some(UsualLookUp {
        key,
        outcome,
        class: class as u32,
        connection: connection as i32,
        size: size as u32,
    })
}

/// The fields of a storage command, where they are all that there is.
pub fn usual_store(text: &[u8]) -> Option<UsualStore<'_>>
    ensures { IfSome result (λ u. IsStore text.now u.key.now u.outcome.now u.command.now u.ttl u.class u.connection u.size) }
{
    let (key, rest) = first_value(Field::Key, text)?;
    let (outcome, rest) = first_value(Field::Status, rest)?;
    let (command, rest) = first_value(Field::Cmd, rest)?;
    let (ttl, rest) = first_number(Field::Ttl, rest, MOST_U32)?;
    let (class, rest) = first_number(Field::Clsid, rest, MOST_U32)?;
    let (connection, rest) = first_number(Field::Cfd, rest, MOST_I32)?;
    let size = last_number(Field::Size, rest, MOST_U32)?;
    Some(UsualStore {
        key,
        outcome,
        command,
        ttl: ttl as u32,
        class: class as u32,
        connection: connection as i32,
        size: size as u32,
    })
}
