//! The forms of rows: which fields an object has, for the words of a row.

use crate::command::Unnamed;
use crate::words::{Words, is_word, word_behind};

/// What becomes of the next word, or of some words, of a row. A field whose word the row does not have is left out.
#[derive(Clone, Copy)]
pub enum Part {
    /// A word that names what stands behind it, and becomes nothing.
    Label,
    /// A number, or `-` for none.
    Number(&'static str),
    /// A word of lrudb's own, or `-` for none.
    Word(&'static str),
    /// The bits of an item, `-` for neither.
    Bits(&'static str),
    /// A key, or a bookmark's name.
    Key(&'static str),
    /// A chunk, `page:slot`: two fields.
    Chunk,
    /// A queue's items and their bytes: an object.
    Figures(&'static str),
    /// The source, target, page and slot of a page move, or `-` for none: an object.
    Move(&'static str),
    /// All chunks that follow: a list of objects.
    Chunks(&'static str),
    /// All entries that follow: a list of keys, with null for the crawler's mark.
    Entries(&'static str),
    /// All that follows, as it stands.
    Rest(&'static str),
    /// Why a key left, at the node that is the first part: its cause, and where a log tells of it what tells it, the
    /// second, or between which where that is inferred, and the step that pushed it out.
    Left,
}

/// A row's kind, and its parts.
pub struct Form {
    pub kind: &'static str,
    pub parts: &'static [Part],
}

/// The rows that begin with their kind, but for `STEP`. Any other row is its own kind.
static NAMED: [Form; 17] = [
    Form {
        kind: "VALUE",
        parts: &[
            Part::Key("key"),
            Part::Number("flags"),
            Part::Number("bytes"),
            Part::Number("cas"),
        ],
    },
    Form {
        kind: "ITEM",
        parts: &[
            Part::Key("key"),
            Part::Number("class"),
            Part::Word("queue"),
            Part::Number("flags"),
            Part::Number("expires"),
            Part::Number("time"),
            Part::Number("cas"),
            Part::Bits("bits"),
            Part::Number("bytes"),
        ],
    },
    Form {
        kind: "CHUNK",
        parts: &[Part::Chunk],
    },
    Form {
        kind: "QUEUE",
        parts: &[Part::Entries("entries")],
    },
    Form {
        kind: "FREE",
        parts: &[Part::Chunks("chunks")],
    },
    Form {
        kind: "PAGE",
        parts: &[Part::Number("page"), Part::Number("class")],
    },
    Form {
        kind: "COUNTERS",
        parts: &[
            Part::Label,
            Part::Number("evicted"),
            Part::Label,
            Part::Number("reclaimed"),
            Part::Label,
            Part::Number("crawler_reclaimed"),
            Part::Label,
            Part::Number("outofmemory"),
            Part::Label,
            Part::Number("moves_to_cold"),
            Part::Label,
            Part::Number("moves_to_warm"),
            Part::Label,
            Part::Number("moves_within_lru"),
        ],
    },
    Form {
        kind: "CLASS",
        parts: &[
            Part::Number("class"),
            Part::Label,
            Part::Number("size"),
            Part::Label,
            Part::Number("pages"),
            Part::Label,
            Part::Number("free"),
            Part::Label,
            Part::Figures("hot"),
            Part::Label,
            Part::Figures("warm"),
            Part::Label,
            Part::Figures("cold"),
            Part::Label,
            Part::Figures("temp"),
        ],
    },
    Form {
        kind: "GLOBALS",
        parts: &[
            Part::Label,
            Part::Number("now"),
            Part::Label,
            Part::Number("cas"),
            Part::Label,
            Part::Number("mark"),
            Part::Label,
            Part::Number("flush"),
            Part::Label,
            Part::Move("mover"),
            Part::Label,
            Part::Number("bump"),
        ],
    },
    Form {
        kind: "NODE",
        parts: &[Part::Number("node"), Part::Label, Part::Number("turns")],
    },
    Form {
        kind: "PRUNED",
        parts: &[Part::Number("node")],
    },
    Form {
        kind: "MARK",
        parts: &[Part::Key("name"), Part::Number("node")],
    },
    Form {
        kind: "LEFT",
        parts: &[Part::Number("node"), Part::Left],
    },
    Form {
        kind: "NEVER",
        parts: &[Part::Label, Part::Number("since")],
    },
    Form {
        kind: "ERROR",
        parts: &[Part::Rest("message")],
    },
    Form {
        kind: "CLIENT_ERROR",
        parts: &[Part::Rest("message")],
    },
    Form {
        kind: "SERVER_ERROR",
        parts: &[Part::Rest("message")],
    },
];

static STEP_OF_KEY: Form = Form {
    kind: "STEP",
    parts: &[
        Part::Number("node"),
        Part::Number("parent"),
        Part::Number("clock"),
        Part::Word("step"),
        Part::Word("outcome"),
        Part::Key("key"),
    ],
};

static STEP_OF_QUEUE: Form = Form {
    kind: "STEP",
    parts: &[
        Part::Number("node"),
        Part::Number("parent"),
        Part::Number("clock"),
        Part::Word("step"),
        Part::Word("outcome"),
        Part::Number("class"),
        Part::Word("queue"),
    ],
};

static STEP_OF_NOTHING: Form = Form {
    kind: "STEP",
    parts: &[
        Part::Number("node"),
        Part::Number("parent"),
        Part::Number("clock"),
        Part::Word("step"),
        Part::Word("outcome"),
    ],
};

static COUNT: Form = Form {
    kind: "NUMBER",
    parts: &[Part::Number("number")],
};

static NODE: Form = Form {
    kind: "TREE",
    parts: &[
        Part::Number("node"),
        Part::Number("parent"),
        Part::Word("step"),
        Part::Word("outcome"),
    ],
};

static DEPARTURE: Form = Form {
    kind: "GONE",
    parts: &[Part::Number("node"), Part::Key("key"), Part::Left],
};

static STORED: Form = Form {
    kind: "EVENT",
    parts: &[
        Part::Number("node"),
        Part::Word("event"),
        Part::Number("class"),
        Part::Word("queue"),
    ],
};

static MOVED: Form = Form {
    kind: "EVENT",
    parts: &[
        Part::Number("node"),
        Part::Word("event"),
        Part::Word("from"),
        Part::Word("to"),
    ],
};

static LEFT: Form = Form {
    kind: "EVENT",
    parts: &[Part::Number("node"), Part::Word("event"), Part::Left],
};

static HELP: Form = Form {
    kind: "HELP",
    parts: &[Part::Rest("text")],
};

/// The words of the steps that name neither a key nor a queue, and of the root.
static STEPS_OF_NOTHING: [&str; 9] = [
    "root",
    "flush_all",
    "bump",
    "crawl_start",
    "reassign",
    "move",
    "clock",
    "temp_ttl",
    "tune",
];

// The form of the row of a step with this word.
fn step_form(step: &[u8]) -> &'static Form {
    if is_word(step, b"pull") || is_word(step, b"crawl") {
        return &STEP_OF_QUEUE;
    }
    for word in &STEPS_OF_NOTHING {
        if is_word(step, word.as_bytes()) {
            return &STEP_OF_NOTHING;
        }
    }
    &STEP_OF_KEY
}

// The form of an event with this word.
fn event_form(event: &[u8]) -> &'static Form {
    if is_word(event, b"moved") {
        &MOVED
    } else if is_word(event, b"left") {
        &LEFT
    } else {
        &STORED
    }
}

// The form of a row that does not begin with its kind.
fn unnamed_form(row: &[u8], unnamed: Unnamed) -> &'static Form {
    match unnamed {
        Unnamed::Count => &COUNT,
        Unnamed::Nodes => &NODE,
        Unnamed::Departures => &DEPARTURE,
        Unnamed::Events => event_form(word_behind(row, 1)),
        Unnamed::Help => &HELP,
    }
}

// The form of a row that begins with its kind. A row of one word has none.
fn named_form(row: &[u8], kind: &[u8]) -> Option<&'static Form> {
    if is_word(kind, b"STEP") {
        return Some(step_form(word_behind(row, 4)));
    }
    for form in &NAMED {
        if is_word(kind, form.kind.as_bytes()) {
            return Some(form);
        }
    }
    None
}

fn begins_with_digit(row: &[u8]) -> bool {
    match row.first() {
        Some(byte) => byte.is_ascii_digit(),
        None => false,
    }
}

// Whether a row does not begin with its kind.
fn is_unnamed(row: &[u8], unnamed: Unnamed) -> bool {
    match unnamed {
        Unnamed::Help => !is_word(row, b"NOHELP"),
        _ => begins_with_digit(row),
    }
}

/// The form of a row, and the words that are its parts; none of a row that is its own kind.
pub fn form_of<'a>(row: &'a [u8], unnamed: Unnamed) -> Option<(&'static Form, Words<'a>)> {
    let mut words = Words::of(row);
    if is_unnamed(row, unnamed) {
        return Some((unnamed_form(row, unnamed), words));
    }
    let kind = words.next()?;
    let form = named_form(row, kind)?;
    Some((form, words))
}
