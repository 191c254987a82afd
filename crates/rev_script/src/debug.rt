//! The debug commands.
ghost use Rattle.std.specs.Prelude.{◌≡◌, map, ℕ, List};
ghost use Rattle.rev_script.specs.Commands.{bare_debug, query_of, bookmark_of, number_debug, word_debug, queue_command, debug_command};
ghost use Rattle.rev_script.specs.Keyed.{IsKeyed, HasKeys};

use crate::actor::queue_of;
use crate::command::{BadAnswer, BookmarkCommand, Command, DebugCommand, KeyQuery};
use crate::keys::is_key;
use crate::number::number_u32;
use crate::words::{is_name, is_word, word};

// A command that stands alone.
#[tactic(auto, unfolding(crate::specs::Commands::bare_debug))]
fn bare_debug(w: &[u8]) -> Option<DebugCommand>
    ensures { result ≡ bare_debug w.now }
{
    if is_word(w, b":at") {
        Some(DebugCommand::At)
    } else if is_word(w, b":back") {
        Some(DebugCommand::Back)
    } else if is_word(w, b":forward") {
        Some(DebugCommand::Forward(0))
    } else if is_word(w, b":pages") {
        Some(DebugCommand::Pages)
    } else if is_word(w, b":globals") {
        Some(DebugCommand::Globals)
    } else if is_word(w, b":tree") {
        Some(DebugCommand::Tree)
    } else if is_word(w, b":marks") {
        Some(DebugCommand::Marks)
    } else if is_word(w, b":gone") {
        Some(DebugCommand::Gone(None))
    } else if is_word(w, b":classes") {
        Some(DebugCommand::Classes)
    } else if is_word(w, b":help") {
        Some(DebugCommand::Help)
    } else {
        None
    }
}

// A query of this name.
#[tactic(auto, unfolding(crate::specs::Commands::query_of))]
fn query_of(w: &[u8]) -> Option<KeyQuery>
    ensures { result ≡ query_of w.now }
{
    if is_word(w, b":item") {
        Some(KeyQuery::Item)
    } else if is_word(w, b":chunk") {
        Some(KeyQuery::Chunk)
    } else if is_word(w, b":why") {
        Some(KeyQuery::Why)
    } else if is_word(w, b":story") {
        Some(KeyQuery::Story)
    } else {
        None
    }
}

// A command about a name.
#[tactic(auto, unfolding(crate::specs::Commands::bookmark_of))]
fn bookmark_of(w: &[u8]) -> Option<BookmarkCommand>
    ensures { result ≡ bookmark_of w.now }
{
    if is_word(w, b":mark") {
        Some(BookmarkCommand::Mark)
    } else if is_word(w, b":goto") {
        Some(BookmarkCommand::Goto)
    } else if is_word(w, b":help") {
        Some(BookmarkCommand::Help)
    } else {
        None
    }
}

// A command that takes a number.
#[tactic(auto, unfolding(crate::specs::Commands::number_debug))]
fn number_debug(w: &[u8], n: u32) -> Option<DebugCommand>
    ensures { result ≡ number_debug w.now n }
{
    if is_word(w, b":forward") {
        Some(DebugCommand::Forward(n))
    } else if is_word(w, b":go") {
        Some(DebugCommand::Go(n))
    } else if is_word(w, b":free") {
        Some(DebugCommand::Free(n))
    } else if is_word(w, b":counters") {
        Some(DebugCommand::Counters(n))
    } else if is_word(w, b":prune") {
        Some(DebugCommand::Prune(n))
    } else if is_word(w, b":gone") {
        Some(DebugCommand::Gone(Some(n)))
    } else if is_word(w, b":step") {
        Some(DebugCommand::Step(n))
    } else if is_word(w, b":time") {
        Some(DebugCommand::Time(n))
    } else {
        None
    }
}

// A command with one word behind it.
#[tactic(auto, unfolding(crate::specs::Commands::word_debug))]
fn word_debug(name: &[u8], argument: &[u8]) -> Command
    ensures value { result ≡ word_debug name.now argument.now }
    ensures keyed { (rest : List (List ℕ)) → IsKeyed result argument.now rest }
{
    if let Some(query) = query_of(name) {
        if is_key(argument) {
            return Command::Query(query);
        }
        return Command::Bad(BadAnswer::BadCommand);
    }
    if let Some(command) = bookmark_of(name) {
        if is_name(argument) {
            return Command::Bookmark(command);
        }
        return Command::Bad(BadAnswer::BadCommand);
    }
    let Some(n) = number_u32(argument) else {
        return Command::Bad(BadAnswer::BadCommand);
    };
    let Some(command) = number_debug(name, n) else {
        return Command::Bad(BadAnswer::BadCommand);
    };
    Command::Debug(command)
}

// A queue's entries, as many as are wanted, by the two words behind the command's.
#[tactic(auto, unfolding(crate::specs::Commands::queue_command))]
fn queue_command(words: &[&[u8]], limit: Option<u32>) -> Command
    ensures value { result ≡ queue_command (map (λ x. x.now) words.now) limit }
    ensures keyed { HasKeys result (map (λ x. x.now) words.now) }
{
    let Some(class) = number_u32(word(words, 1)) else {
        return Command::Bad(BadAnswer::BadCommand);
    };
    let Some(queue) = queue_of(word(words, 2)) else {
        return Command::Bad(BadAnswer::BadCommand);
    };
    Command::Debug(DebugCommand::Queue {
        class,
        queue,
        limit,
    })
}

/// A line whose first word begins with `:`.
#[tactic(auto, unfolding(crate::specs::Commands::debug_command))]
pub fn debug_command(words: &[&[u8]]) -> Command
    ensures value { result ≡ debug_command (map (λ x. x.now) words.now) }
    ensures keyed { HasKeys result (map (λ x. x.now) words.now) }
{
    let name = word(words, 0);
    if words.len() == 1 {
        let Some(command) = bare_debug(name) else {
            return Command::Bad(BadAnswer::BadCommand);
        };
        return Command::Debug(command);
    }
    if words.len() == 2 {
        return word_debug(name, word(words, 1));
    }
    if words.len() == 3 && is_word(name, b":queue") {
        return queue_command(words, None);
    }
    if words.len() == 4 && is_word(name, b":queue") {
        let Some(limit) = number_u32(word(words, 3)) else {
            return Command::Bad(BadAnswer::BadCommand);
        };
        return queue_command(words, Some(limit));
    }
    Command::Bad(BadAnswer::BadCommand)
}
