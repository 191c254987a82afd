//! The commands to the maintainer, the crawler, the page mover and the clock, and `~evict`.
ghost use Rattle.std.specs.Prelude.{◌≡◌, map};
ghost use Rattle.rev_script.specs.Commands.{crawler_command, slabs_command, tune_command, lru_command, queue_of, evict_command, actor_command};
ghost use Rattle.rev_script.specs.Keyed.{HasKeys};

use crate::command::{BadAnswer, Command};
use crate::keys::is_key;
use crate::number::{factor, ids, is_factor, number_u32, signed};
use crate::words::{is_word, word};
use rev_model::{ClassSet, Queue};
use rev_requests::{ActorStep, KeyCommand, MOST_SHARES, Tune};

#[tactic(auto, unfolding(crate::specs::Commands::crawler_command))]
pub fn crawler_command(words: &[&[u8]]) -> Command
    ensures value { result ≡ crawler_command (map (λ x. x.now) words.now) }
    ensures keyed { HasKeys result (map (λ x. x.now) words.now) }
{
    if words.len() == 3 && is_word(word(words, 1), b"crawl") {
        if is_word(word(words, 2), b"all") {
            Command::Actor(ActorStep::StartCrawl(ClassSet::All))
        } else {
            Command::Actor(ActorStep::StartCrawl(ClassSet::These(ids(word(words, 2)))))
        }
    } else {
        Command::Bad(BadAnswer::Error)
    }
}

#[tactic(auto, unfolding(crate::specs::Commands::slabs_command))]
pub fn slabs_command(words: &[&[u8]]) -> Command
    ensures value { result ≡ slabs_command (map (λ x. x.now) words.now) }
    ensures keyed { HasKeys result (map (λ x. x.now) words.now) }
{
    if words.len() == 4 && is_word(word(words, 1), b"reassign") {
        let Some(source) = number_u32(word(words, 2)) else {
            return Command::Bad(BadAnswer::BadFormat);
        };
        let Some(target) = number_u32(word(words, 3)) else {
            return Command::Bad(BadAnswer::BadFormat);
        };
        Command::Actor(ActorStep::Reassign { source, target })
    } else {
        Command::Bad(BadAnswer::Error)
    }
}

#[tactic(auto, unfolding(crate::specs::Commands::tune_command))]
fn tune_command(words: &[&[u8]]) -> Command
    ensures value { result ≡ tune_command (map (λ x. x.now) words.now) }
    ensures keyed { HasKeys result (map (λ x. x.now) words.now) }
{
    if !is_factor(word(words, 4)) || !is_factor(word(words, 5)) {
        return Command::Bad(BadAnswer::BadFormat);
    }
    let Some(hot_share) = number_u32(word(words, 2)) else {
        return Command::Bad(BadAnswer::BadFormat);
    };
    let Some(warm_share) = number_u32(word(words, 3)) else {
        return Command::Bad(BadAnswer::BadFormat);
    };
    if hot_share as u64 + warm_share as u64 > MOST_SHARES {
        return Command::Bad(BadAnswer::SharesOver80);
    }
    let Some(hot_factor) = factor(word(words, 4)) else {
        return Command::Bad(BadAnswer::BadFormat);
    };
    let Some(warm_factor) = factor(word(words, 5)) else {
        return Command::Bad(BadAnswer::BadFormat);
    };
    match Tune::new(hot_share, warm_share, hot_factor, warm_factor) {
        Ok(tune) => Command::Tune(tune),
        Err(_) => Command::Bad(BadAnswer::BadFormat),
    }
}

/// `lru tune` and `lru temp_ttl`.
#[tactic(auto, unfolding(crate::specs::Commands::lru_command))]
pub fn lru_command(words: &[&[u8]]) -> Command
    ensures value { result ≡ lru_command (map (λ x. x.now) words.now) }
    ensures keyed { HasKeys result (map (λ x. x.now) words.now) }
{
    if words.len() == 3 && is_word(word(words, 1), b"temp_ttl") {
        let Some(ttl) = signed(word(words, 2)) else {
            return Command::Bad(BadAnswer::BadFormat);
        };
        return Command::Actor(ActorStep::TempTtl(ttl));
    }
    if words.len() == 6 && is_word(word(words, 1), b"tune") {
        tune_command(words)
    } else {
        Command::Bad(BadAnswer::Error)
    }
}

/// The queue of this name.
#[tactic(auto, unfolding(crate::specs::Commands::queue_of))]
pub fn queue_of(w: &[u8]) -> Option<Queue>
    ensures { result ≡ queue_of w.now }
{
    if is_word(w, b"hot") {
        Some(Queue::Hot)
    } else if is_word(w, b"warm") {
        Some(Queue::Warm)
    } else if is_word(w, b"cold") {
        Some(Queue::Cold)
    } else if is_word(w, b"temp") {
        Some(Queue::Temp)
    } else {
        None
    }
}

/// `~evict` and a word, which is to be a key.
#[tactic(auto, unfolding(crate::specs::Commands::evict_command))]
fn evict_command(words: &[&[u8]]) -> Command
    ensures value { result ≡ evict_command (map (λ x. x.now) words.now) }
    ensures keyed { HasKeys result (map (λ x. x.now) words.now) }
{
    if !is_key(word(words, 1)) {
        return Command::Bad(BadAnswer::BadCommand);
    }
    Command::Update {
        command: KeyCommand::Evict,
        noreply: false,
    }
}

/// A line whose first word begins with `~` or `@`.
#[tactic(auto, unfolding(crate::specs::Commands::actor_command))]
pub fn actor_command(words: &[&[u8]]) -> Command
    ensures value { result ≡ actor_command (map (λ x. x.now) words.now) }
    ensures keyed { HasKeys result (map (λ x. x.now) words.now) }
{
    let name = word(words, 0);
    if words.len() == 1 && is_word(name, b"~bump") {
        return Command::Actor(ActorStep::Bump);
    }
    if words.len() == 1 && is_word(name, b"~move") {
        return Command::Actor(ActorStep::Advance);
    }
    if words.len() == 3 && is_word(name, b"~pull") {
        let Some(class) = number_u32(word(words, 1)) else {
            return Command::Bad(BadAnswer::BadCommand);
        };
        let Some(queue) = queue_of(word(words, 2)) else {
            return Command::Bad(BadAnswer::BadCommand);
        };
        return Command::Actor(ActorStep::Pull { class, queue });
    }
    if words.len() == 3 && is_word(name, b"~crawl") {
        let Some(class) = number_u32(word(words, 1)) else {
            return Command::Bad(BadAnswer::BadCommand);
        };
        let Some(queue) = queue_of(word(words, 2)) else {
            return Command::Bad(BadAnswer::BadCommand);
        };
        return Command::Actor(ActorStep::Crawl { class, queue });
    }
    if words.len() == 2 && is_word(name, b"@") {
        let Some(now) = number_u32(word(words, 1)) else {
            return Command::Bad(BadAnswer::BadCommand);
        };
        return Command::Actor(ActorStep::Clock(now));
    }
    if words.len() == 2 && is_word(name, b"~evict") {
        return evict_command(words);
    }
    Command::Bad(BadAnswer::BadCommand)
}
