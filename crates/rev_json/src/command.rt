//! The command of a line: how an object names it.

use rev_requests::{ActorStep, Arithmetic, JoinSide, KeyCommand, StoreVerb};
use rev_script::command::{BookmarkCommand, DebugCommand, KeyQuery, StorageCommand};
use rev_script::line::{ClientLine, DebugLine, Line};
use std::alloc::Allocator;

/// What the rows of an answer are that do not begin with their kind: those that begin with a number, or all of `:help`.
#[derive(Clone, Copy)]
pub enum Unnamed {
    /// The number that `incr` or `decr` left.
    Count,
    /// The nodes of the tree.
    Nodes,
    /// The events of a key.
    Events,
    /// The keys that left.
    Departures,
    /// What may be typed.
    Help,
}

/// A line's command.
#[derive(Clone, Copy)]
pub struct Command {
    /// The words that name it; none where the line is malformed.
    pub name: Option<&'static str>,
    pub unnamed: Unnamed,
}

fn verb_name(verb: StoreVerb) -> &'static str {
    match verb {
        StoreVerb::Set => "set",
        StoreVerb::Add => "add",
        StoreVerb::Replace => "replace",
        StoreVerb::Cas(_) => "cas",
    }
}

fn storage_name(command: StorageCommand) -> &'static str {
    match command {
        StorageCommand::Store(verb) => verb_name(verb),
        StorageCommand::Join(JoinSide::Append) => "append",
        StorageCommand::Join(JoinSide::Prepend) => "prepend",
    }
}

fn key_command_name(command: KeyCommand) -> &'static str {
    match command {
        KeyCommand::Get => "get",
        KeyCommand::Delete => "delete",
        KeyCommand::Evict => "~evict",
        KeyCommand::Touch(_) => "touch",
        KeyCommand::Count(Arithmetic::Increment(_)) => "incr",
        KeyCommand::Count(Arithmetic::Decrement(_)) => "decr",
    }
}

fn client_name<A: Allocator>(line: &ClientLine<A>) -> &'static str {
    match line {
        ClientLine::Storage { command, .. } => storage_name(*command),
        ClientLine::Retrieval { with_cas: true, .. } => "gets",
        ClientLine::Retrieval { .. } => "get",
        ClientLine::Update { command, .. } => key_command_name(*command),
        ClientLine::FlushAll { .. } => "flush_all",
    }
}

fn actor_name(step: ActorStep) -> &'static str {
    match step {
        ActorStep::Pull { .. } => "~pull",
        ActorStep::Bump => "~bump",
        ActorStep::StartCrawl(_) => "lru_crawler crawl",
        ActorStep::Crawl { .. } => "~crawl",
        ActorStep::Reassign { .. } => "slabs reassign",
        ActorStep::Advance => "~move",
        ActorStep::Clock(_) => "@",
        ActorStep::TempTtl(_) => "lru temp_ttl",
    }
}

fn debug_name(command: DebugCommand) -> &'static str {
    match command {
        DebugCommand::At => ":at",
        DebugCommand::Back => ":back",
        DebugCommand::Forward(_) => ":forward",
        DebugCommand::Go(_) => ":go",
        DebugCommand::Queue { .. } => ":queue",
        DebugCommand::Free(_) => ":free",
        DebugCommand::Pages => ":pages",
        DebugCommand::Counters(_) => ":counters",
        DebugCommand::Globals => ":globals",
        DebugCommand::Tree => ":tree",
        DebugCommand::Marks => ":marks",
        DebugCommand::Prune(_) => ":prune",
        DebugCommand::Gone(_) => ":gone",
        DebugCommand::Step(_) => ":step",
        DebugCommand::Time(_) => ":time",
        DebugCommand::Classes => ":classes",
        DebugCommand::Help => ":help",
    }
}

fn query_name(query: KeyQuery) -> &'static str {
    match query {
        KeyQuery::Item => ":item",
        KeyQuery::Chunk => ":chunk",
        KeyQuery::Why => ":why",
        KeyQuery::Story => ":story",
    }
}

fn bookmark_name(command: BookmarkCommand) -> &'static str {
    match command {
        BookmarkCommand::Mark => ":mark",
        BookmarkCommand::Goto => ":goto",
        BookmarkCommand::Help => ":help",
    }
}

fn debug_line_name<A: Allocator>(line: &DebugLine<A>) -> &'static str {
    match line {
        DebugLine::Plain(command) => debug_name(*command),
        DebugLine::Query { query, .. } => query_name(*query),
        DebugLine::Bookmark { command, .. } => bookmark_name(*command),
    }
}

fn line_name<A: Allocator>(line: &Line<A>) -> Option<&'static str> {
    match line {
        Line::Client(line) => Some(client_name(line)),
        Line::Actor(step) => Some(actor_name(*step)),
        Line::Tune(_) => Some("lru tune"),
        Line::Debug(line) => Some(debug_line_name(line)),
        Line::Bad { .. } => None,
    }
}

fn unnamed_of<A: Allocator>(line: &Line<A>) -> Unnamed {
    match line {
        Line::Debug(DebugLine::Plain(DebugCommand::Tree)) => Unnamed::Nodes,
        Line::Debug(DebugLine::Plain(DebugCommand::Gone(_))) => Unnamed::Departures,
        Line::Debug(
            DebugLine::Query {
                query: KeyQuery::Story,
                ..
            },
        ) => Unnamed::Events,
        Line::Debug(DebugLine::Plain(DebugCommand::Help)) => Unnamed::Help,
        Line::Debug(
            DebugLine::Bookmark {
                command: BookmarkCommand::Help,
                ..
            },
        ) => Unnamed::Help,
        _ => Unnamed::Count,
    }
}

/// The command of a line.
pub fn command_of<A: Allocator>(line: &Line<A>) -> Command {
    Command {
        name: line_name(line),
        unnamed: unnamed_of(line),
    }
}
