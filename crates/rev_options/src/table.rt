//! What a command takes, as data, and how clap is told of it.

use clap::builder::ValueParser;
use clap::{Arg, ArgAction, Command};
use std::alloc::{AllocError, Global};

/// What a command takes, with what its help says.
pub struct OptionSpec {
    /// Its name, without the two dashes.
    pub name: &'static str,
    /// Its values stand by themselves, without the name.
    pub stands_alone: bool,
    /// What help calls its value.
    pub unit: &'static str,
    pub help: &'static str,
    /// Help does not tell of it: the launcher gives it at a terminal.
    pub is_hidden: bool,
    pub action: ArgAction,
    pub values: ValueParser<'static>,
    /// How many values it has each time that it is given.
    pub least: usize,
    pub most: usize,
    /// The value that it has where it is not given, if it then has one.
    pub default: Option<&'static [&'static str]>,
    /// It has to be given.
    pub is_needed: bool,
    /// It has to be given where none of these is.
    pub stands_for: Option<&'static [&'static str]>,
    /// It is given only with all of these.
    pub needs: Option<&'static [&'static str]>,
    /// It is given with none of these.
    pub excludes: Option<&'static [&'static str]>,
}

/// An option whose value is a text, given or not.
pub const TEXT: OptionSpec = OptionSpec {
    name: "",
    stands_alone: false,
    unit: "",
    help: "",
    is_hidden: false,
    action: ArgAction::Set,
    values: ValueParser::String,
    least: 1,
    most: 1,
    default: None,
    is_needed: false,
    stands_for: None,
    needs: None,
    excludes: None,
};

/// The same, given any number of times.
pub const TEXTS: OptionSpec = OptionSpec {
    action: ArgAction::Append,
    ..TEXT
};

/// An option whose value is a number: 0 to 4294967295.
pub const NUMBER: OptionSpec = OptionSpec {
    values: ValueParser::Signed(0, 4294967295),
    ..TEXT
};

/// An option with no value: it is given or not.
pub const FLAG: OptionSpec = OptionSpec {
    action: ArgAction::SetTrue,
    values: ValueParser::Bool,
    least: 0,
    most: 0,
    ..TEXT
};

pub const HIDDEN: OptionSpec = OptionSpec {
    is_hidden: true,
    ..FLAG
};

/// Names that stand by themselves.
pub const NAMES: OptionSpec = OptionSpec {
    stands_alone: true,
    ..TEXTS
};

/// A command, with what its help says.
#[derive(Clone, Copy)]
pub struct CommandSpec {
    pub name: &'static str,
    pub about: &'static str,
    /// What it takes, in the order of the help.
    pub options: [&'static [OptionSpec]; 5],
}

fn names(of: Option<&'static [&'static str]>) -> &'static [&'static str] {
    of.unwrap_or(&[])
}

fn begun<'a>(alloc: Global, of: &'static OptionSpec) -> Arg<'a> {
    if of.stands_alone {
        Arg::new(alloc, of.name)
    } else {
        Arg::new(alloc, of.name).long(of.name)
    }
}

fn free<'a>(alloc: Global, of: &'static OptionSpec) -> Arg<'a> {
    begun(alloc, of)
        .value_name(of.unit)
        .help(of.help)
        .hide(of.is_hidden)
        .action(of.action)
        .value_parser(of.values)
        .num_args(of.least..=of.most)
        .default_values(names(of.default))
        .required(of.is_needed)
}

fn needing<'a>(
    argument: Result<Arg<'a>, AllocError>,
    others: &'static [&'static str],
) -> Result<Arg<'a>, AllocError> {
    argument?.requires_all(others)
}

fn excluding<'a>(
    argument: Result<Arg<'a>, AllocError>,
    others: &'static [&'static str],
) -> Result<Arg<'a>, AllocError> {
    argument?.conflicts_with_all(others)
}

fn argument<'a>(alloc: Global, of: &'static OptionSpec) -> Result<Arg<'a>, AllocError> {
    let argument = free(alloc, of).required_unless_present_any(names(of.stands_for));
    excluding(needing(argument, names(of.needs)), names(of.excludes))
}

// The command with one more argument, if that was made. Each way out of a function that holds a `Command` is dear to
// prove, so each of these functions has few.
fn with_argument<'a>(
    command: Command<'a>,
    made: Result<Arg<'a>, AllocError>,
) -> Result<Command<'a>, AllocError> {
    match made {
        Ok(argument) => command.arg(argument),
        Err(refused) => {
            drop(command);
            Err(refused)
        }
    }
}

fn with_option<'a>(
    alloc: Global,
    command: Result<Command<'a>, AllocError>,
    of: &'static OptionSpec,
) -> Result<Command<'a>, AllocError> {
    with_argument(command?, argument(alloc, of))
}

fn with_options<'a>(
    alloc: Global,
    command: Result<Command<'a>, AllocError>,
    options: &'static [OptionSpec],
) -> Result<Command<'a>, AllocError> {
    let mut command = command;
    for of in options {
        command = with_option(alloc, command, of);
    }
    command
}

// The command with all that it takes.
fn command_of<'a>(alloc: Global, of: CommandSpec) -> Result<Command<'a>, AllocError> {
    let mut command = Ok(Command::new(alloc, of.name).about(of.about));
    for options in of.options {
        command = with_options(alloc, command, options);
    }
    command
}

/// The command with one more within it, if that was made.
pub fn with_made<'a>(
    command: Command<'a>,
    made: Result<Command<'a>, AllocError>,
) -> Result<Command<'a>, AllocError> {
    match made {
        Ok(within) => command.subcommand(within),
        Err(refused) => {
            drop(command);
            Err(refused)
        }
    }
}

/// The command with this one within it.
pub fn with_command<'a>(
    alloc: Global,
    command: Result<Command<'a>, AllocError>,
    of: CommandSpec,
) -> Result<Command<'a>, AllocError> {
    with_made(command?, command_of(alloc, of))
}
