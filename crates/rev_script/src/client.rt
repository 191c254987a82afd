//! The commands of clients.
ghost use Rattle.std.specs.Prelude.{◌≡◌, map, ◌<◌};
ghost use Rattle.rev_script.specs.Commands.{verb_of, side_of, storage, storage_command, cas_command, retrieval_command, delete_command, touch_command, increment_command, decrement_command, flush_command};
ghost use Rattle.rev_script.specs.Keyed.{HasKeys};
ghost use Rattle.rev_script.specs.declared.command.StorageCommand.TheVariants.{Store, Join};

use crate::command::{BadAnswer, Command, StorageCommand};
use crate::keys::is_key;
use crate::number::{number, number_u32, signed};
use crate::words::{are_keys, are_words, is_word, word};
use rev_requests::{Arithmetic, JoinSide, KeyCommand, StoreVerb};

/// The verb of this name, but for `cas`.
#[tactic(auto, unfolding(crate::specs::Commands::verb_of))]
pub fn verb_of(w: &[u8]) -> Option<StoreVerb>
    ensures { result ≡ verb_of w.now }
{
    if is_word(w, b"set") {
        Some(StoreVerb::Set)
    } else if is_word(w, b"add") {
        Some(StoreVerb::Add)
    } else if is_word(w, b"replace") {
        Some(StoreVerb::Replace)
    } else {
        None
    }
}

/// The side to which a command of this name joins data.
#[tactic(auto, unfolding(crate::specs::Commands::side_of))]
pub fn side_of(w: &[u8]) -> Option<JoinSide>
    ensures { result ≡ side_of w.now }
{
    if is_word(w, b"append") {
        Some(JoinSide::Append)
    } else if is_word(w, b"prepend") {
        Some(JoinSide::Prepend)
    } else {
        None
    }
}

// A storage line whose number of words is right: `n`, and perhaps `noreply`.
#[tactic(auto, unfolding(crate::specs::Commands::storage))]
#[inline(always)]
fn storage(command: StorageCommand, n: usize, words: &[&[u8]]) -> Command
    requires { n < 16 }
    ensures value { result ≡ storage command n (map (λ x. x.now) words.now) }
    ensures keyed { HasKeys result (map (λ x. x.now) words.now) }
{
    if !is_key(word(words, 1)) {
        return Command::Bad(BadAnswer::BadFormat);
    }
    let Some(flags) = number_u32(word(words, 2)) else {
        return Command::Bad(BadAnswer::BadFormat);
    };
    let Some(exptime) = signed(word(words, 3)) else {
        return Command::Bad(BadAnswer::BadFormat);
    };
    let Some(size) = number(word(words, 4), 2147483645) else {
        return Command::Bad(BadAnswer::BadFormat);
    };
    Command::Storage {
        command,
        flags,
        exptime,
        size: size as u32,
        noreply: words.len() == n + 1,
    }
}

/// `set`, `add` and `replace`.
#[tactic(auto, unfolding(crate::specs::Commands::storage_command))]
pub fn store_command(verb: StoreVerb, words: &[&[u8]]) -> Command
    ensures value { result ≡ storage_command (Store verb) (map (λ x. x.now) words.now) }
    ensures keyed { HasKeys result (map (λ x. x.now) words.now) }
{
    if are_words(5, words) {
        storage(StorageCommand::Store(verb), 5, words)
    } else {
        Command::Bad(BadAnswer::Error)
    }
}

/// `append` and `prepend`.
#[tactic(auto, unfolding(crate::specs::Commands::storage_command))]
pub fn join_command(side: JoinSide, words: &[&[u8]]) -> Command
    ensures value { result ≡ storage_command (Join side) (map (λ x. x.now) words.now) }
    ensures keyed { HasKeys result (map (λ x. x.now) words.now) }
{
    if are_words(5, words) {
        storage(StorageCommand::Join(side), 5, words)
    } else {
        Command::Bad(BadAnswer::Error)
    }
}

#[tactic(auto, unfolding(crate::specs::Commands::cas_command))]
pub fn cas_command(words: &[&[u8]]) -> Command
    ensures value { result ≡ cas_command (map (λ x. x.now) words.now) }
    ensures keyed { HasKeys result (map (λ x. x.now) words.now) }
{
    if !are_words(6, words) {
        return Command::Bad(BadAnswer::Error);
    }
    let Some(cas) = number(word(words, 5), 18446744073709551615) else {
        return Command::Bad(BadAnswer::BadFormat);
    };
    storage(StorageCommand::Store(StoreVerb::Cas(cas)), 6, words)
}

/// `get` and `gets`.
#[tactic(auto, unfolding(crate::specs::Commands::retrieval_command))]
pub fn retrieval_command(with_cas: bool, words: &[&[u8]]) -> Command
    ensures value { result ≡ retrieval_command with_cas (map (λ x. x.now) words.now) }
    ensures keyed { HasKeys result (map (λ x. x.now) words.now) }
{
    if words.len() <= 1 {
        return Command::Bad(BadAnswer::Error);
    }
    if are_keys(&words[1..]) {
        Command::Retrieval { with_cas }
    } else {
        Command::Bad(BadAnswer::BadFormat)
    }
}

#[tactic(auto, unfolding(crate::specs::Commands::delete_command))]
pub fn delete_command(words: &[&[u8]]) -> Command
    ensures value { result ≡ delete_command (map (λ x. x.now) words.now) }
    ensures keyed { HasKeys result (map (λ x. x.now) words.now) }
{
    let n = words.len();
    if n < 2 || 4 < n {
        return Command::Bad(BadAnswer::Error);
    }
    let zero = is_word(word(words, 2), b"0");
    let quiet = is_word(word(words, 2), b"noreply");
    let right = n == 2
        || (n == 3 && (zero || quiet))
        || (n == 4 && zero && is_word(word(words, 3), b"noreply"));
    if !right {
        return Command::Bad(BadAnswer::DeleteUsage);
    }
    if !is_key(word(words, 1)) {
        return Command::Bad(BadAnswer::BadFormat);
    }
    Command::Update {
        command: KeyCommand::Delete,
        noreply: n == 4 || (n == 3 && quiet),
    }
}

#[tactic(auto, unfolding(crate::specs::Commands::touch_command))]
pub fn touch_command(words: &[&[u8]]) -> Command
    ensures value { result ≡ touch_command (map (λ x. x.now) words.now) }
    ensures keyed { HasKeys result (map (λ x. x.now) words.now) }
{
    if !are_words(3, words) {
        return Command::Bad(BadAnswer::Error);
    }
    if !is_key(word(words, 1)) {
        return Command::Bad(BadAnswer::BadFormat);
    }
    let Some(exptime) = signed(word(words, 2)) else {
        return Command::Bad(BadAnswer::BadExptime);
    };
    Command::Update {
        command: KeyCommand::Touch(exptime),
        noreply: words.len() == 4,
    }
}

#[tactic(auto, unfolding(crate::specs::Commands::increment_command))]
pub fn increment_command(words: &[&[u8]]) -> Command
    ensures value { result ≡ increment_command (map (λ x. x.now) words.now) }
    ensures keyed { HasKeys result (map (λ x. x.now) words.now) }
{
    if !are_words(3, words) {
        return Command::Bad(BadAnswer::Error);
    }
    if !is_key(word(words, 1)) {
        return Command::Bad(BadAnswer::BadFormat);
    }
    let Some(delta) = number(word(words, 2), 18446744073709551615) else {
        return Command::Bad(BadAnswer::BadDelta);
    };
    Command::Update {
        command: KeyCommand::Count(Arithmetic::Increment(delta)),
        noreply: words.len() == 4,
    }
}

#[tactic(auto, unfolding(crate::specs::Commands::decrement_command))]
pub fn decrement_command(words: &[&[u8]]) -> Command
    ensures value { result ≡ decrement_command (map (λ x. x.now) words.now) }
    ensures keyed { HasKeys result (map (λ x. x.now) words.now) }
{
    if !are_words(3, words) {
        return Command::Bad(BadAnswer::Error);
    }
    if !is_key(word(words, 1)) {
        return Command::Bad(BadAnswer::BadFormat);
    }
    let Some(delta) = number(word(words, 2), 18446744073709551615) else {
        return Command::Bad(BadAnswer::BadDelta);
    };
    Command::Update {
        command: KeyCommand::Count(Arithmetic::Decrement(delta)),
        noreply: words.len() == 4,
    }
}

#[tactic(auto, unfolding(crate::specs::Commands::flush_command))]
pub fn flush_command(words: &[&[u8]]) -> Command
    ensures value { result ≡ flush_command (map (λ x. x.now) words.now) }
    ensures keyed { HasKeys result (map (λ x. x.now) words.now) }
{
    if words.len() <= 1 {
        return Command::FlushAll {
            delay: 0,
            noreply: false,
        };
    }
    if is_word(word(words, 1), b"noreply") {
        if words.len() == 2 {
            return Command::FlushAll {
                delay: 0,
                noreply: true,
            };
        }
        return Command::Bad(BadAnswer::Error);
    }
    if !are_words(2, words) {
        return Command::Bad(BadAnswer::Error);
    }
    let Some(delay) = signed(word(words, 1)) else {
        return Command::Bad(BadAnswer::BadFormat);
    };
    Command::FlushAll {
        delay,
        noreply: words.len() == 3,
    }
}
