//! Commands and their arguments as tables.

use crate::options::{option, verbose_flag, word};
use clap::{Arg, ArgAction, Command};
use std::alloc::{AllocError, Global};

/// A command, as its help shows it.
#[derive(Clone, Copy)]
pub struct CommandText {
    /// The word that asks for it.
    pub name: &'static str,
    /// What it does.
    pub about: &'static str,
    /// What it prints, and examples.
    pub example: &'static str,
    /// Its arguments, in the order of its help.
    pub arguments: &'static [Argument],
}

/// An argument of a command.
#[derive(Clone, Copy)]
pub enum Argument {
    /// The flag by which a failure says its cause.
    Verbose,
    /// An option that must be given.
    Required {
        name: &'static str,
        value: &'static str,
        help: &'static str,
    },
    /// An option that may be left out.
    Optional {
        name: &'static str,
        value: &'static str,
        help: &'static str,
    },
    /// A clearer name of an option that may be left out: it may not be given beside that one.
    ClearerName {
        of: &'static str,
        name: &'static str,
        value: &'static str,
        help: &'static str,
    },
    /// An option that must be given if another one is not, and may not be if it is.
    InPlaceOf {
        other: &'static str,
        name: &'static str,
        value: &'static str,
        help: &'static str,
    },
    /// An option that takes no value.
    Flag {
        name: &'static str,
        help: &'static str,
    },
    /// An option that takes no value, and may not be given beside another one.
    FlagWithout {
        other: &'static str,
        name: &'static str,
        help: &'static str,
    },
    /// A word that is known by its place.
    Word {
        name: &'static str,
        help: &'static str,
    },
    /// One such word or more.
    Words {
        name: &'static str,
        help: &'static str,
    },
    /// Such a word that may be left out.
    MaybeWord {
        name: &'static str,
        help: &'static str,
    },
    /// An option that must be given, and may be given more than once.
    Repeated {
        name: &'static str,
        value: &'static str,
        help: &'static str,
    },
}

/// A program's command with one more command below it.
pub fn with_command<'a>(
    alloc: Global,
    program: Command<'a>,
    text: &CommandText,
) -> Result<Command<'a>, AllocError> {
    let Ok(below) = text.command(alloc) else {
        // A call keeps the prover from taking apart here all that a command owns.
        drop(program);
        return Err(AllocError);
    };
    program.subcommand(below)
}

impl CommandText {
    /// The command for clap.
    pub fn command<'a>(&self, alloc: Global) -> Result<Command<'a>, AllocError> {
        let mut command = Command::new(alloc, self.name)
            .about(self.about)
            .after_help(self.example);
        for argument in self.arguments {
            let Ok(next) = argument.arg(alloc) else {
                drop(command);
                return Err(AllocError);
            };
            command = command.arg(next)?;
        }
        Ok(command)
    }
}

impl Argument {
    // The argument for clap.
    fn arg<'a>(&self, alloc: Global) -> Result<Arg<'a>, AllocError> {
        match *self {
            Argument::Verbose => Ok(verbose_flag(alloc)),
            Argument::Required { name, value, help } => Ok(option(alloc, name, value, help)),
            Argument::Optional { name, value, help } => Ok(optional(alloc, name, value, help)),
            Argument::ClearerName {
                of,
                name,
                value,
                help,
            } => optional(alloc, name, value, help).conflicts_with(of),
            Argument::InPlaceOf {
                other,
                name,
                value,
                help,
            } => optional(alloc, name, value, help)
                .required_unless_present(other)?
                .conflicts_with(other),
            Argument::Flag { name, help } => Ok(flag(alloc, name, help)),
            Argument::FlagWithout { other, name, help } => {
                flag(alloc, name, help).conflicts_with(other)
            }
            Argument::Word { name, help } => Ok(word(alloc, name, help)),
            Argument::Words { name, help } => Ok(word(alloc, name, help).num_args(1..)),
            Argument::MaybeWord { name, help } => Ok(word(alloc, name, help).required(false)),
            Argument::Repeated { name, value, help } => {
                Ok(option(alloc, name, value, help).action(ArgAction::Append))
            }
        }
    }
}

// An option that may be left out.
fn optional<'a>(alloc: Global, name: &'a str, value: &'a str, help: &'a str) -> Arg<'a> {
    option(alloc, name, value, help).required(false)
}

// An option that takes no value.
fn flag<'a>(alloc: Global, name: &'a str, help: &'a str) -> Arg<'a> {
    Arg::new(alloc, name)
        .long(name)
        .help(help)
        .action(ArgAction::SetTrue)
}
