//! Why the program ends before all is done, in the words and statuses that its user sees.
ghost use Rattle.std.specs.Prelude.{◌≡◌, ◌≢◌, [], ◌∷◌, codes, decimal, OnOk, OnErr};
ghost use Rattle.std.specs.Io.KnownBytes.{Appends};
ghost use Rattle.rev_messages.specs.Stop.{status, text, config_told, line_parts, line_told, row_part, row_told, stat_parts, stats_told, stop_of_config};
ghost use Rattle.rev_output.specs.Sink.{one_more};
ghost use Rattle.rev_messages.specs.Telling.{Told};

use crate::telling::tell_parts;
use itoa::Buffer;
use rev_classes::ConfigFault;
use rev_options::{Number, Refused};
use rev_output::{Sink, WriteFailed};
use rev_trace::fault::RowFault;
use rev_watch::fault::LineFault;
use rev_watch::settings::StatFault;
use std::alloc::AllocError;

/// Why the program ends before all is done.
#[derive(Debug, Drop)]
pub enum Stop {
    /// The words are at fault or ask for help: the command line parser's text.
    Usage(String),
    BadPage,
    BadFactor,
    TooManyClasses,
    BadLimit,
    Memory,
    CannotRead,
    /// A file of this name cannot be opened or read.
    CannotOpen(String),
    /// The first line of a file that makes no step, counted from 1, where each is to make some.
    NotAStep {
        file: String,
        line: u64,
    },
    CannotWrite,
    /// The input has more bytes than a script may have, or a line of a start has.
    TooLong,
    /// A file of this name cannot be written.
    CannotWriteFile(String),
    /// A line of a log begins like one, and is none. Lines are numbered from 1.
    BadLine {
        log: String,
        line: u64,
        fault: LineFault,
    },
    /// A text of statistics says too little.
    BadStats {
        file: String,
        fault: StatFault,
    },
    /// Logs, of which this is the first, have no event that is asked for.
    NoEvent(String),
    /// A row of a trace is none. Rows are numbered from 1.
    BadRow {
        trace: String,
        line: u64,
        fault: RowFault,
    },
    /// Traces, of which this is the first, have no row that is asked for.
    NoRow(String),
    /// What a server told of itself is at fault, or what it is asked: the text that says so.
    BadImport(String),
}

// What a fault of a line says, in three parts.
fn line_fault(fault: LineFault) -> (&'static str, &'static str, &'static str)
    ensures { result.0.now ∷ result.1.now ∷ result.2.now ∷ [] ≡ line_parts fault }
{
    match fault {
        LineFault::Memory => ("out of memory", "", ""),
        LineFault::Missing(field) => ("no field `", field.name(), "`"),
        LineFault::Twice(field) => ("field `", field.name(), "` stands twice"),
        LineFault::BadValue(field) => {
            ("field `", field.name(), "` has a value that it cannot have")
        }
        LineFault::BadEscape => ("a `%` without two hexadecimal digits in the key", "", ""),
        LineFault::BadKey => (
            "the key is no key, neither decoded nor as it is spelled",
            "",
            "",
        ),
        LineFault::TooManyFields => ("more than 32 fields", "", ""),
        LineFault::TooLong => ("more than 4096 bytes", "", ""),
    }
}

// What a fault of a text of statistics says, in three parts.
fn stat_fault(fault: StatFault) -> (&'static str, &'static str, &'static str)
    ensures { result.0.now ∷ result.1.now ∷ result.2.now ∷ [] ≡ stat_parts fault }
{
    match fault {
        StatFault::Missing(stat) => ("no line `STAT ", stat.name(), "`"),
        StatFault::Twice(stat) => ("`STAT ", stat.name(), "` stands twice"),
        StatFault::BadValue(stat) => {
            ("`STAT ", stat.name(), "` has a value that it cannot have")
        }
    }
}

// Tells a line of a log and why it is none, by the three parts of that.
fn tell_line_by<'a, E: Sink>(
    errors: &mut E,
    log: &'a str,
    digits: &'a str,
    front: &'a str,
    field: &'a str,
    back: &'a str,
) -> Result<(), WriteFailed>
    ensures told { Told (E.contents errors.old) (E.contents errors.new) (E.failures errors.old) (E.failures errors.new) (line_told log.now digits.now (front.now ∷ field.now ∷ back.now ∷ [])) }
    ensures ok { OnOk result (Appends (E.contents errors.old) (E.contents errors.new) (line_told log.now digits.now (front.now ∷ field.now ∷ back.now ∷ []))) }
    ensures err { OnErr result (E.failures errors.new ≡ one_more (E.failures errors.old)) }
{
    tell_parts(
        errors,
        &[
            "lrudb: ", log, ": line ", digits, ": ", front, field, back, "\n",
        ],
    )
}

// Tells why a line of a log is none.
fn tell_line<E: Sink>(
    errors: &mut E,
    log: &str,
    line: u64,
    fault: LineFault,
) -> Result<(), WriteFailed>
    ensures told { Told (E.contents errors.old) (E.contents errors.new) (E.failures errors.old) (E.failures errors.new) (line_told log.now (decimal line) (line_parts fault)) }
    ensures ok { OnOk result (Appends (E.contents errors.old) (E.contents errors.new) (line_told log.now (decimal line) (line_parts fault))) }
    ensures err { OnErr result (E.failures errors.new ≡ one_more (E.failures errors.old)) }
{
    let mut number = Buffer::new();
    let (front, field, back) = line_fault(fault);
    tell_line_by(errors, log, number.format(line), front, field, back)
}

// Tells why a text of statistics says too little, by the three parts of that.
fn tell_stats_by<'a, E: Sink>(
    errors: &mut E,
    file: &'a str,
    front: &'a str,
    stat: &'a str,
    back: &'a str,
) -> Result<(), WriteFailed>
    ensures told { Told (E.contents errors.old) (E.contents errors.new) (E.failures errors.old) (E.failures errors.new) (stats_told file.now (front.now ∷ stat.now ∷ back.now ∷ [])) }
    ensures ok { OnOk result (Appends (E.contents errors.old) (E.contents errors.new) (stats_told file.now (front.now ∷ stat.now ∷ back.now ∷ []))) }
    ensures err { OnErr result (E.failures errors.new ≡ one_more (E.failures errors.old)) }
{
    tell_parts(errors, &["lrudb: ", file, ": ", front, stat, back, "\n"])
}

// Tells why a text of statistics says too little.
fn tell_stats<E: Sink>(errors: &mut E, file: &str, fault: StatFault) -> Result<(), WriteFailed>
    ensures told { Told (E.contents errors.old) (E.contents errors.new) (E.failures errors.old) (E.failures errors.new) (stats_told file.now (stat_parts fault)) }
    ensures ok { OnOk result (Appends (E.contents errors.old) (E.contents errors.new) (stats_told file.now (stat_parts fault))) }
    ensures err { OnErr result (E.failures errors.new ≡ one_more (E.failures errors.old)) }
{
    let (front, stat, back) = stat_fault(fault);
    tell_stats_by(errors, file, front, stat, back)
}

// What a fault of a row says.
fn row_fault(fault: RowFault) -> &'static str
    ensures { result.now ≡ row_part fault }
{
    match fault {
        RowFault::Memory => "out of memory",
        RowFault::Columns => "other than 7 columns",
        RowFault::Timestamp => "the timestamp is no number",
        RowFault::KeySize => "the key size is no number",
        RowFault::ValueSize => "the value size is no number",
        RowFault::Ttl => "the TTL is no number",
        RowFault::LongKey => "the key is longer than its size",
        RowFault::BadKey => "the key is no key",
    }
}

// Tells a row of a trace and why it is none.
fn tell_row_by<'a, E: Sink>(
    errors: &mut E,
    trace: &'a str,
    digits: &'a str,
    why: &'a str,
) -> Result<(), WriteFailed>
    ensures told { Told (E.contents errors.old) (E.contents errors.new) (E.failures errors.old) (E.failures errors.new) (row_told trace.now digits.now why.now) }
    ensures ok { OnOk result (Appends (E.contents errors.old) (E.contents errors.new) (row_told trace.now digits.now why.now)) }
    ensures err { OnErr result (E.failures errors.new ≡ one_more (E.failures errors.old)) }
{
    tell_parts(
        errors,
        &["lrudb: ", trace, ": line ", digits, ": ", why, "\n"],
    )
}

// Tells why a row of a trace is none.
fn tell_row<E: Sink>(
    errors: &mut E,
    trace: &str,
    line: u64,
    fault: RowFault,
) -> Result<(), WriteFailed>
    ensures told { Told (E.contents errors.old) (E.contents errors.new) (E.failures errors.old) (E.failures errors.new) (row_told trace.now (decimal line) (row_part fault)) }
    ensures ok { OnOk result (Appends (E.contents errors.old) (E.contents errors.new) (row_told trace.now (decimal line) (row_part fault))) }
    ensures err { OnErr result (E.failures errors.new ≡ one_more (E.failures errors.old)) }
{
    let mut number = Buffer::new();
    let why = row_fault(fault);
    tell_row_by(errors, trace, number.format(line), why)
}

// Tells that the page size is at fault.
fn tell_page<E: Sink>(errors: &mut E) -> Result<(), WriteFailed>
    ensures told { Told (E.contents errors.old) (E.contents errors.new) (E.failures errors.old) (E.failures errors.new) (config_told (codes "page") (Number.PageSize ∷ [])) }
    ensures ok { OnOk result (Appends (E.contents errors.old) (E.contents errors.new) (config_told (codes "page") (Number.PageSize ∷ []))) }
    ensures err { OnErr result (E.failures errors.new ≡ one_more (E.failures errors.old)) }
{
    tell_parts(
        errors,
        &[
            "lrudb: bad configuration: page\n",
            "--",
            Number::PageSize.name(),
            ": ",
            Number::PageSize.help(),
            "\n",
        ],
    )
}

// Tells that the growth factor is at fault.
fn tell_factor<E: Sink>(errors: &mut E) -> Result<(), WriteFailed>
    ensures told { Told (E.contents errors.old) (E.contents errors.new) (E.failures errors.old) (E.failures errors.new) (config_told (codes "factor") (Number.Num ∷ Number.Den ∷ [])) }
    ensures ok { OnOk result (Appends (E.contents errors.old) (E.contents errors.new) (config_told (codes "factor") (Number.Num ∷ Number.Den ∷ []))) }
    ensures err { OnErr result (E.failures errors.new ≡ one_more (E.failures errors.old)) }
{
    tell_parts(
        errors,
        &[
            "lrudb: bad configuration: factor\n",
            "--",
            Number::Num.name(),
            ": ",
            Number::Num.help(),
            "\n",
            "--",
            Number::Den.name(),
            ": ",
            Number::Den.help(),
            "\n",
        ],
    )
}

// Tells that page size and growth factor make too many classes.
fn tell_classes<E: Sink>(errors: &mut E) -> Result<(), WriteFailed>
    ensures told { Told (E.contents errors.old) (E.contents errors.new) (E.failures errors.old) (E.failures errors.new) (config_told (codes "classes") (Number.PageSize ∷ Number.Num ∷ Number.Den ∷ [])) }
    ensures ok { OnOk result (Appends (E.contents errors.old) (E.contents errors.new) (config_told (codes "classes") (Number.PageSize ∷ Number.Num ∷ Number.Den ∷ []))) }
    ensures err { OnErr result (E.failures errors.new ≡ one_more (E.failures errors.old)) }
{
    tell_parts(
        errors,
        &[
            "lrudb: bad configuration: classes\n",
            "--",
            Number::PageSize.name(),
            ": ",
            Number::PageSize.help(),
            "\n",
            "--",
            Number::Num.name(),
            ": ",
            Number::Num.help(),
            "\n",
            "--",
            Number::Den.name(),
            ": ",
            Number::Den.help(),
            "\n",
        ],
    )
}

// Tells that another number is at fault.
fn tell_limits<E: Sink>(errors: &mut E) -> Result<(), WriteFailed>
    ensures told { Told (E.contents errors.old) (E.contents errors.new) (E.failures errors.old) (E.failures errors.new) (config_told (codes "limit") (Number.Pages ∷ Number.Bump ∷ Number.HashPower ∷ Number.Now ∷ [])) }
    ensures ok { OnOk result (Appends (E.contents errors.old) (E.contents errors.new) (config_told (codes "limit") (Number.Pages ∷ Number.Bump ∷ Number.HashPower ∷ Number.Now ∷ []))) }
    ensures err { OnErr result (E.failures errors.new ≡ one_more (E.failures errors.old)) }
{
    tell_parts(
        errors,
        &[
            "lrudb: bad configuration: limit\n",
            "--",
            Number::Pages.name(),
            ": ",
            Number::Pages.help(),
            "\n",
            "--",
            Number::Bump.name(),
            ": ",
            Number::Bump.help(),
            "\n",
            "--",
            Number::HashPower.name(),
            ": ",
            Number::HashPower.help(),
            "\n",
            "--",
            Number::Now.name(),
            ": ",
            Number::Now.help(),
            "\n",
        ],
    )
}

impl Stop {
    /// The status that the program ends with: 2 for the command line or the configuration, 3 for memory, 4 for input
    /// or output, 5 for a line that is not a step, or for what is imported (this project's own numbers).
    pub fn status(&self) -> u8
        ensures status { result ≡ status self.now }
        ensures some { result ≢ 0 }
    {
        match self {
            Stop::Usage(_) => 2,
            Stop::BadPage | Stop::BadFactor | Stop::TooManyClasses | Stop::BadLimit => 2,
            Stop::Memory => 3,
            Stop::CannotRead | Stop::CannotOpen(_) | Stop::CannotWrite | Stop::TooLong => 4,
            Stop::CannotWriteFile(_) => 4,
            Stop::NotAStep { .. } => 5,
            Stop::BadLine { .. } | Stop::BadStats { .. } | Stop::NoEvent(_) => 5,
            Stop::BadRow { .. } | Stop::NoRow(_) | Stop::BadImport(_) => 5,
        }
    }

    /// Writes what the user is told. At an error a front of it was written.
    pub fn tell<E: Sink>(&self, errors: &mut E) -> Result<(), WriteFailed>
        ensures told { Told (E.contents errors.old) (E.contents errors.new) (E.failures errors.old) (E.failures errors.new) (text self.now) }
        ensures ok { OnOk result (Appends (E.contents errors.old) (E.contents errors.new) (text self.now)) }
        ensures err { OnErr result (E.failures errors.new ≡ one_more (E.failures errors.old)) }
    {
        match self {
            Stop::Usage(text) => tell_parts(errors, &[text.as_str()]),
            Stop::BadPage => tell_page(errors),
            Stop::BadFactor => tell_factor(errors),
            Stop::TooManyClasses => tell_classes(errors),
            Stop::BadLimit => tell_limits(errors),
            Stop::Memory => tell_parts(errors, &["lrudb: out of memory\n"]),
            Stop::CannotRead => tell_parts(errors, &["lrudb: cannot read\n"]),
            Stop::CannotOpen(name) => {
                tell_parts(errors, &["lrudb: ", name.as_str(), ": cannot read\n"])
            }
            Stop::NotAStep { file, line } => {
                let mut number = Buffer::new();
                let digits = number.format(*line);
                let file = file.as_str();
                tell_parts(
                    errors,
                    &["lrudb: ", file, ": line ", digits, ": not a step\n"],
                )
            }
            Stop::CannotWrite => tell_parts(errors, &["lrudb: cannot write\n"]),
            Stop::TooLong => tell_parts(errors, &["lrudb: input too long\n"]),
            Stop::CannotWriteFile(name) => {
                tell_parts(errors, &["lrudb: ", name.as_str(), ": cannot write\n"])
            }
            Stop::BadLine { log, line, fault } => tell_line(errors, log.as_str(), *line, *fault),
            Stop::BadStats { file, fault } => tell_stats(errors, file.as_str(), *fault),
            Stop::NoEvent(name) => tell_parts(errors, &["lrudb: ", name.as_str(), ": no event\n"]),
            Stop::BadRow { trace, line, fault } => {
                tell_row(errors, trace.as_str(), *line, *fault)
            }
            Stop::NoRow(name) => tell_parts(errors, &["lrudb: ", name.as_str(), ": no row\n"]),
            Stop::BadImport(text) => tell_parts(errors, &[text.as_str()]),
        }
    }
}

impl From<Refused> for Stop {
    ghost use Rattle.rev_messages.specs.Stop.{stop_of_words};

    ghost from_gives = { λ refused stop. stop ≡ stop_of_words refused };

    fn from(refused: Refused) -> Stop {
        match refused {
            Refused::Told(text) => Stop::Usage(text),
            Refused::Memory => Stop::Memory,
        }
    }
}

impl From<ConfigFault> for Stop {
    ghost from_gives = { λ fault stop. stop ≡ stop_of_config fault };

    fn from(fault: ConfigFault) -> Stop {
        match fault {
            ConfigFault::BadPage => Stop::BadPage,
            ConfigFault::BadFactor => Stop::BadFactor,
            ConfigFault::TooManyClasses => Stop::TooManyClasses,
            ConfigFault::BadLimit => Stop::BadLimit,
            ConfigFault::Memory => Stop::Memory,
        }
    }
}

impl From<AllocError> for Stop {
    ghost use Rattle.std.specs.Prelude.{◌≡◌};
    ghost use Rattle.rev_messages.specs.declared.stop.Stop.{Stop};

    ghost from_gives = { λ refused stop. stop ≡ Stop.Memory };

    fn from(_fault: AllocError) -> Stop {
        Stop::Memory
    }
}
