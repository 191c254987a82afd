//! What a line asks for.
ghost use Rattle.std.specs.Prelude.{◌≡◌, ◌≤◌, map};
ghost use Rattle.std.specs.Io.BufRead.{strip_last};
ghost use Rattle.rev_script.specs.Words.{words};
ghost use Rattle.rev_script.specs.Commands.{begins, memory_command, other_command, command, longest, asked};
ghost use Rattle.rev_script.specs.Keyed.{HasKeys};

use crate::actor::{actor_command, crawler_command, lru_command, slabs_command};
use crate::client::{
    cas_command, decrement_command, delete_command, flush_command, increment_command, join_command,
    retrieval_command, side_of, store_command, touch_command, verb_of,
};
use crate::command::{BadAnswer, Command};
use crate::debug::debug_command;
use crate::words::{is_word, word};

/// The most bytes of a line that asks for items (this project's own limit).
const LONGEST_RETRIEVAL: usize = 65536;

/// The most bytes of any other line (this project's own limit).
const LONGEST_LINE: usize = 2048;

/// A line's bytes without one CR at their end.
pub fn body(text: &[u8]) -> &[u8]
    ensures { result.now ≡ strip_last 13 text.now }
{
    let n = text.len();
    if n > 0 && text[n - 1] == b'\r' {
        &text[..n - 1]
    } else {
        text
    }
}

fn begins(b: u8, w: &[u8]) -> bool
    ensures { result ≡ begins b w.now }
{
    match w.first() {
        Some(x) => *x == b,
        None => false,
    }
}

// What a line that speaks of the whole memory asks for, by its first word.
#[tactic(auto, unfolding(crate::specs::Commands::memory_command))]
fn memory_command(name: &[u8], words: &[&[u8]]) -> Command
    ensures value { result ≡ memory_command name.now (map (λ x. x.now) words.now) }
    ensures keyed { HasKeys result (map (λ x. x.now) words.now) }
{
    if is_word(name, b"flush_all") {
        return flush_command(words);
    }
    if is_word(name, b"lru_crawler") {
        return crawler_command(words);
    }
    if is_word(name, b"slabs") {
        return slabs_command(words);
    }
    if is_word(name, b"lru") {
        return lru_command(words);
    }
    Command::Bad(BadAnswer::Error)
}

// What any other line of a client asks for, by its first word.
#[tactic(auto, unfolding(crate::specs::Commands::other_command))]
fn other_command(name: &[u8], words: &[&[u8]]) -> Command
    ensures value { result ≡ other_command name.now (map (λ x. x.now) words.now) }
    ensures keyed { HasKeys result (map (λ x. x.now) words.now) }
{
    if is_word(name, b"cas") {
        return cas_command(words);
    }
    if is_word(name, b"get") {
        return retrieval_command(false, words);
    }
    if is_word(name, b"gets") {
        return retrieval_command(true, words);
    }
    if is_word(name, b"delete") {
        return delete_command(words);
    }
    if is_word(name, b"touch") {
        return touch_command(words);
    }
    if is_word(name, b"incr") {
        return increment_command(words);
    }
    if is_word(name, b"decr") {
        return decrement_command(words);
    }
    memory_command(name, words)
}

#[tactic(auto, unfolding(crate::specs::Commands::command))]
fn any_command(words: &[&[u8]]) -> Command
    ensures value { result ≡ command (map (λ x. x.now) words.now) }
    ensures keyed { HasKeys result (map (λ x. x.now) words.now) }
{
    let name = word(words, 0);
    if begins(b':', name) {
        return debug_command(words);
    }
    if begins(b'@', name) || begins(b'~', name) {
        return actor_command(words);
    }
    if let Some(verb) = verb_of(name) {
        return store_command(verb, words);
    }
    match side_of(name) {
        Some(side) => join_command(side, words),
        None => other_command(name, words),
    }
}

// The same. A line that asks for items, as most lines do, is told by one comparison.
#[inline(always)]
fn command_of(words: &[&[u8]]) -> Command
    ensures value { result ≡ command (map (λ x. x.now) words.now) }
    ensures keyed { HasKeys result (map (λ x. x.now) words.now) }
{
    if is_word(word(words, 0), b"get") {
        return retrieval_command(false, words);
    }
    any_command(words)
}

// How many bytes such a line may have without its ending.
fn longest(words: &[&[u8]]) -> usize
    ensures value { result ≡ longest (map (λ x. x.now) words.now) }
    ensures least { 2048 ≤ result }
{
    let name = word(words, 0);
    if is_word(name, b"get") || is_word(name, b"gets") {
        LONGEST_RETRIEVAL
    } else {
        LONGEST_LINE
    }
}

/// What a line asks for, by its bytes without their ending and by its words.
/// A line of more bytes than it may have is not looked at further.
#[tactic(auto, unfolding(crate::specs::Commands::asked))]
#[inline(always)]
pub fn asked(body: &[u8], parts: &[&[u8]]) -> Command
    requires { map (λ x. x.now) parts.now ≡ words body.now }
    ensures value { result ≡ asked body.now }
    ensures keyed { HasKeys result (words body.now) }
{
    // (no word is looked at where the line is short enough for any)
    if body.len() > LONGEST_LINE && body.len() > longest(parts) {
        return Command::Bad(BadAnswer::LineTooLong);
    }
    command_of(parts)
}
