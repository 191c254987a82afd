//! The options whose values are numbers of the configuration, each from 0 to 4294967295.
ghost use Rattle.std.specs.Prelude.{◌≡◌};
ghost use Rattle.rev_options.specs.Number.{name_of, help_of};

use crate::table::{NUMBER, OptionSpec, TEXT};
use clap::builder::ValueParser;

// Names and helps stand apart from the table, since each arm of `name` and `help` would carry all of it in a proof.
const PAGE_SIZE: &str = "page-size";

const PAGE_SIZE_HELP: &str = "Bytes of a slab page: 256 to 1048576, a multiple of 8";

const PAGES: &str = "pages";

const PAGES_HELP: &str = "Pages before classes that own one have to evict: 1 to 4096";

const NUM: &str = "num";

const NUM_HELP: &str = "Growth factor of chunk sizes, numerator: 1 to 1000, the factor 21/20 to 4";

const DEN: &str = "den";

const DEN_HELP: &str = "Growth factor of chunk sizes, denominator: 1 to 1000";

const BUMP: &str = "bump";

const BUMP_HELP: &str = "Entries that the bump queue of COLD items holds: 1 to 4096";

const HASH_POWER: &str = "hash-power";

const HASH_POWER_HELP: &str = "The index has 2 to this power buckets: 4 to 20";

const NOW: &str = "now";

const NOW_HELP: &str = "Where the clock starts: 1 to 4294967295";

/// The options that tell of the cache, in the order of the help: those of `Number`, in its order, and one more.
pub static NUMBERS: [OptionSpec; 8] = [
    OptionSpec {
        name: PAGE_SIZE,
        unit: "BYTES",
        help: PAGE_SIZE_HELP,
        default: Some(&["1048576"]),
        ..NUMBER
    },
    OptionSpec {
        name: PAGES,
        unit: "COUNT",
        help: PAGES_HELP,
        default: Some(&["64"]),
        ..NUMBER
    },
    OptionSpec {
        name: NUM,
        unit: "NUMBER",
        help: NUM_HELP,
        default: Some(&["5"]),
        ..NUMBER
    },
    OptionSpec {
        name: DEN,
        unit: "NUMBER",
        help: DEN_HELP,
        default: Some(&["4"]),
        ..NUMBER
    },
    OptionSpec {
        name: BUMP,
        unit: "COUNT",
        help: BUMP_HELP,
        default: Some(&["64"]),
        ..NUMBER
    },
    OptionSpec {
        name: HASH_POWER,
        unit: "POWER",
        help: HASH_POWER_HELP,
        default: Some(&["10"]),
        ..NUMBER
    },
    OptionSpec {
        name: NOW,
        unit: "SECONDS",
        help: NOW_HELP,
        default: Some(&["1"]),
        ..NUMBER
    },
    OptionSpec {
        name: "temp-ttl",
        unit: "SECONDS",
        help: "Items that expire within fewer seconds enter TEMP: 0 to 2147483647 [without it: never]",
        values: ValueParser::Signed(0, 2147483647),
        ..TEXT
    },
];

/// A number of the configuration.
#[derive(Clone, Copy)]
pub enum Number {
    PageSize,
    Pages,
    Num,
    Den,
    Bump,
    HashPower,
    Now,
}

impl Number {
    /// The name of its option.
    pub fn name(self) -> &'static str
        ensures { result.now ≡ name_of self }
    {
        match self {
            Number::PageSize => PAGE_SIZE,
            Number::Pages => PAGES,
            Number::Num => NUM,
            Number::Den => DEN,
            Number::Bump => BUMP,
            Number::HashPower => HASH_POWER,
            Number::Now => NOW,
        }
    }

    /// What it is, and its range.
    pub fn help(self) -> &'static str
        ensures { result.now ≡ help_of self }
    {
        match self {
            Number::PageSize => PAGE_SIZE_HELP,
            Number::Pages => PAGES_HELP,
            Number::Num => NUM_HELP,
            Number::Den => DEN_HELP,
            Number::Bump => BUMP_HELP,
            Number::HashPower => HASH_POWER_HELP,
            Number::Now => NOW_HELP,
        }
    }
}
