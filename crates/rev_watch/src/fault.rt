//! Why a log cannot be read.
ghost use Rattle.std.specs.Prelude.{◌≡◌};
ghost use Rattle.rev_watch.specs.Field.{name_of};

use std::fmt;
use thiserror::Error;

/// The fields of a log's lines that are looked at, by memcached's own names.
#[derive(Clone, Copy, Debug, PartialEq, Eq)]
pub enum Field {
    Ts,
    Gid,
    /// `type`: what kind of event a line tells.
    Kind,
    Key,
    Status,
    Cmd,
    Ttl,
    Clsid,
    Cfd,
    Size,
    Fetch,
    La,
    Src,
    Dst,
    Crawler,
    Lru,
    Elapsed,
    Examined,
    Reclaimed,
    Skipped,
}

impl Field {
    ghost use Rattle.rev_watch.specs.Field.{name_of};

    /// The name that stands in a line.
    pub fn name(self) -> &'static str
        ensures { result.now ≡ name_of self }
    {
        match self {
            Field::Ts => "ts",
            Field::Gid => "gid",
            Field::Kind => "type",
            Field::Key => "key",
            Field::Status => "status",
            Field::Cmd => "cmd",
            Field::Ttl => "ttl",
            Field::Clsid => "clsid",
            Field::Cfd => "cfd",
            Field::Size => "size",
            Field::Fetch => "fetch",
            Field::La => "la",
            Field::Src => "src",
            Field::Dst => "dst",
            Field::Crawler => "crawler",
            Field::Lru => "lru",
            Field::Elapsed => "elapsed",
            Field::Examined => "examined",
            Field::Reclaimed => "reclaimed",
            Field::Skipped => "skipped",
        }
    }
}

impl fmt::Display for Field {
    ghost use Rattle.std.specs.Prelude.{Some};
    ghost use Rattle.rev_watch.specs.Field.{name_of};

    ghost output = { λ field. Some (name_of field) };

    fn fmt<W: fmt::Write>(&self, f: &mut fmt::Formatter<W>) -> fmt::Result {
        f.write_str(self.name())
    }
}

/// Why a line that begins like one of the log is none.
#[derive(Clone, Copy, Debug, PartialEq, Eq, Drop, Error)]
pub enum LineFault {
    #[error("out of memory")]
    Memory,
    #[error("no field `{0}`")]
    Missing(Field),
    #[error("field `{0}` stands twice")]
    Twice(Field),
    /// No number, or one out of the field's range, or no word that the field may have.
    #[error("field `{0}` has a value that it cannot have")]
    BadValue(Field),
    #[error("a `%` without two hexadecimal digits in the key")]
    BadEscape,
    /// Neither decoded nor as it is spelled it is 1 to 250 bytes, none of them 0 to 32 or 127.
    #[error("the key is no key, neither decoded nor as it is spelled")]
    BadKey,
    /// More than 32 words behind the kind of an event that is known.
    #[error("more than 32 fields")]
    TooManyFields,
    /// More than 4096 bytes.
    #[error("more than 4096 bytes")]
    TooLong,
}

/// Why there is no next line of a log.
#[derive(Clone, Copy, Debug, PartialEq, Eq, Drop, Error)]
pub enum LogFault {
    #[error("out of memory")]
    Memory,
    /// A read failed.
    #[error("cannot read")]
    Read,
    /// A line that begins like one of the log is none. Lines are numbered from 1.
    #[error("line {line}: {fault}")]
    Line { line: u64, fault: LineFault },
}
