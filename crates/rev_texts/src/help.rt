//! What may be typed, in words: a table, and the answers that are made of it.
ghost use Rattle.std.specs.Prelude.{◌≡◌, ◌++◌, map, OnOk};
ghost use Rattle.std.specs.List.{list_any};
ghost use Rattle.rev_texts.specs.Help.{topic_of, topics, line_text, lines_text, is_of, topic_text, topics_text, help_text, help_on_text};

use crate::text::put_output;
use std::alloc::{AllocError, Allocator};

/// One form of a command.
struct Topic {
    /// The command's own word, by which it is asked for.
    word: &'static str,
    usage: &'static str,
    /// What it does.
    line: &'static str,
    example: &'static str,
}

// In the order of README.md's table.
static TOPICS: [Topic; 46] = [
    Topic {
        word: "set",
        usage: "set <key> <flags> <exptime> <bytes> [noreply]",
        line: "stores the data of the next line",
        example: "set home 0 0 5",
    },
    Topic {
        word: "add",
        usage: "add <key> <flags> <exptime> <bytes> [noreply]",
        line: "the same, where the key is not there",
        example: "add home 0 0 5",
    },
    Topic {
        word: "replace",
        usage: "replace <key> <flags> <exptime> <bytes> [noreply]",
        line: "the same, where the key is there",
        example: "replace home 0 0 5",
    },
    Topic {
        word: "append",
        usage: "append <key> <flags> <exptime> <bytes> [noreply]",
        line: "puts the data of the next line behind the key's",
        example: "append home 0 0 5",
    },
    Topic {
        word: "prepend",
        usage: "prepend <key> <flags> <exptime> <bytes> [noreply]",
        line: "puts the data of the next line before the key's",
        example: "prepend home 0 0 5",
    },
    Topic {
        word: "cas",
        usage: "cas <key> <flags> <exptime> <bytes> <cas> [noreply]",
        line: "set, where the item has this cas number",
        example: "cas home 0 0 5 7",
    },
    Topic {
        word: "get",
        usage: "get <key>..",
        line: "the values of the keys that are there",
        example: "get home cart",
    },
    Topic {
        word: "gets",
        usage: "gets <key>..",
        line: "the same, with their cas numbers",
        example: "gets home",
    },
    Topic {
        word: "delete",
        usage: "delete <key> [0] [noreply]",
        line: "takes the item away",
        example: "delete home",
    },
    Topic {
        word: "touch",
        usage: "touch <key> <exptime> [noreply]",
        line: "sets when the item expires",
        example: "touch home 60",
    },
    Topic {
        word: "incr",
        usage: "incr <key> <number> [noreply]",
        line: "adds to a number",
        example: "incr visits 1",
    },
    Topic {
        word: "decr",
        usage: "decr <key> <number> [noreply]",
        line: "takes from a number, down to 0",
        example: "decr visits 1",
    },
    Topic {
        word: "flush_all",
        usage: "flush_all [delay] [noreply]",
        line: "makes all items dead, now or later",
        example: "flush_all 10",
    },
    Topic {
        word: "~pull",
        usage: "~pull <class> <queue>",
        line: "a step of the LRU maintainer at a queue's tail",
        example: "~pull 1 hot",
    },
    Topic {
        word: "~bump",
        usage: "~bump",
        line: "its step for items of COLD that were read",
        example: "~bump",
    },
    Topic {
        word: "lru_crawler",
        usage: "lru_crawler crawl <id,..>|all",
        line: "sends the crawler through queues",
        example: "lru_crawler crawl all",
    },
    Topic {
        word: "~crawl",
        usage: "~crawl <class> <queue>",
        line: "a step of the crawler",
        example: "~crawl 1 hot",
    },
    Topic {
        word: "slabs",
        usage: "slabs reassign <source> <target>",
        line: "sends a page from one class to another",
        example: "slabs reassign 5 1",
    },
    Topic {
        word: "~move",
        usage: "~move",
        line: "a step of the page mover",
        example: "~move",
    },
    Topic {
        word: "~evict",
        usage: "~evict <key>",
        line: "evicts the item, as a set that needs room does",
        example: "~evict home",
    },
    Topic {
        word: "lru",
        usage: "lru tune <hot> <warm> <hot factor> <warm factor>",
        line: "sets the shares and ages of HOT and WARM",
        example: "lru tune 20 40 0.2 2",
    },
    Topic {
        word: "lru",
        usage: "lru temp_ttl <seconds>",
        line: "sets which items enter TEMP",
        example: "lru temp_ttl 60",
    },
    Topic {
        word: "@",
        usage: "@ <seconds>",
        line: "sets the clock, which never goes back",
        example: "@ 100",
    },
    Topic {
        word: ":at",
        usage: ":at",
        line: "the number of the current node",
        example: ":at",
    },
    Topic {
        word: ":back",
        usage: ":back",
        line: "undoes the step of the current node",
        example: ":back",
    },
    Topic {
        word: ":forward",
        usage: ":forward [i]",
        line: "goes to a child of the current node, counted from 0",
        example: ":forward 1",
    },
    Topic {
        word: ":go",
        usage: ":go <n>",
        line: "goes to a node",
        example: ":go 5",
    },
    Topic {
        word: ":tree",
        usage: ":tree",
        line: "each node, its parent, step and outcome",
        example: ":tree",
    },
    Topic {
        word: ":step",
        usage: ":step <n>",
        line: "the step of a node",
        example: ":step 5",
    },
    Topic {
        word: ":time",
        usage: ":time <seconds>",
        line: "goes to the last node by that time",
        example: ":time 100",
    },
    Topic {
        word: ":prune",
        usage: ":prune <n>",
        line: "takes a node out, with all below it",
        example: ":prune 5",
    },
    Topic {
        word: ":mark",
        usage: ":mark <name>",
        line: "gives the current node a name",
        example: ":mark full",
    },
    Topic {
        word: ":marks",
        usage: ":marks",
        line: "the names, and their nodes",
        example: ":marks",
    },
    Topic {
        word: ":goto",
        usage: ":goto <name>",
        line: "goes to the node of a name",
        example: ":goto full",
    },
    Topic {
        word: ":item",
        usage: ":item <key>",
        line: "a key's item, dead or not",
        example: ":item home",
    },
    Topic {
        word: ":chunk",
        usage: ":chunk <key>",
        line: "the page and slot of a key's item",
        example: ":chunk home",
    },
    Topic {
        word: ":queue",
        usage: ":queue <class> <queue> [n]",
        line: "the keys of a queue, or the first n, head first",
        example: ":queue 1 hot 9",
    },
    Topic {
        word: ":free",
        usage: ":free <class>",
        line: "the free chunks of a class",
        example: ":free 1",
    },
    Topic {
        word: ":pages",
        usage: ":pages",
        line: "the pages, and their classes",
        example: ":pages",
    },
    Topic {
        word: ":counters",
        usage: ":counters <class>",
        line: "the counters of a class",
        example: ":counters 1",
    },
    Topic {
        word: ":classes",
        usage: ":classes",
        line: "each class that has pages",
        example: ":classes",
    },
    Topic {
        word: ":globals",
        usage: ":globals",
        line: "clock, cas number, flush, page move and bump queue",
        example: ":globals",
    },
    Topic {
        word: ":why",
        usage: ":why <key>",
        line: "why a key is not there, and since which node",
        example: ":why home",
    },
    Topic {
        word: ":story",
        usage: ":story <key>",
        line: "what befell a key, up to the current node",
        example: ":story home",
    },
    Topic {
        word: ":gone",
        usage: ":gone [n]",
        line: "the keys that left, or the last n",
        example: ":gone 9",
    },
    Topic {
        word: ":help",
        usage: ":help [word]",
        line: "what may be typed, or more of one command",
        example: ":help :why",
    },
];

// The table.
#[tactic(auto, unfolding(crate::specs::Help::topics))]
fn topics() -> &'static [Topic]
    ensures { map topic_of result.now ≡ topics }
{
    &TOPICS
}

// Writes a line for a form.
fn put_line<A: Allocator>(out: &mut Vec<u8, A>, topic: &Topic) -> Result<(), AllocError>
    ensures { OnOk result (out.new.items ≡ out.old.items ++ line_text (topic_of topic.now)) }
{
    out.extend_from_slice(topic.usage.as_bytes())?;
    out.extend_from_slice(b"  ")?;
    put_output(out, topic.line.as_bytes())
}

// Writes a line for each of these forms.
fn put_lines<A: Allocator>(out: &mut Vec<u8, A>, topics: &[Topic]) -> Result<(), AllocError>
    ensures { OnOk result (out.new.items ≡ out.old.items ++ lines_text (map topic_of topics.now)) }
{
    for topic in topics {
        put_line(out, topic)?;
    }
    Ok(())
}

/// Writes a line for each form of each command, and `END`.
pub fn put_help<A: Allocator>(out: &mut Vec<u8, A>) -> Result<(), AllocError>
    ensures { OnOk result (out.new.items ≡ out.old.items ++ help_text) }
{
    put_lines(out, topics())?;
    put_output(out, b"END")
}

// Writes what there is to say of a form, where it is one of the command of this word.
fn put_topic<A: Allocator>(
    out: &mut Vec<u8, A>,
    topic: &Topic,
    word: &[u8],
) -> Result<(), AllocError>
    ensures { OnOk result (out.new.items ≡ out.old.items ++ topic_text word.now (topic_of topic.now)) }
{
    if topic.word.as_bytes() != word {
        return Ok(());
    }
    put_output(out, topic.usage.as_bytes())?;
    out.extend_from_slice(b"  ")?;
    put_output(out, topic.line.as_bytes())?;
    out.extend_from_slice(b"  example: ")?;
    put_output(out, topic.example.as_bytes())
}

// Writes what there is to say of those of these forms that are of the command of this word.
fn put_topics<A: Allocator>(
    out: &mut Vec<u8, A>,
    topics: &[Topic],
    word: &[u8],
) -> Result<(), AllocError>
    ensures { OnOk result (out.new.items ≡ out.old.items ++ topics_text word.now (map topic_of topics.now)) }
{
    for topic in topics {
        put_topic(out, topic, word)?;
    }
    Ok(())
}

// Whether one of these forms is of the command of this word.
fn is_known(topics: &[Topic], word: &[u8]) -> bool
    ensures { result ≡ list_any (λ t. is_of word.now (topic_of t)) topics.now }
{
    topics.iter().any(|topic| topic.word.as_bytes() == word)
}

/// Writes all there is to say of the command of this word, each form of it, and `END`; or `NOHELP`, where there is
/// none.
pub fn put_help_on<A: Allocator>(out: &mut Vec<u8, A>, word: &[u8]) -> Result<(), AllocError>
    ensures { OnOk result (out.new.items ≡ out.old.items ++ help_on_text word.now) }
{
    let topics = topics();
    if !is_known(topics, word) {
        return put_output(out, b"NOHELP");
    }
    put_topics(out, topics, word)?;
    put_output(out, b"END")
}
