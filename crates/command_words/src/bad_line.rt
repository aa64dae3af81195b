//! Command lines that ask for nothing that can be done.

ghost use Rattle.std.specs.Prelude.{◌≡◌, ◌⊎◌};
ghost use Rattle.clap.specs.Values.{kind_of};
ghost use Rattle.clap.specs.declared.error.kind.ErrorKind.TheVariants.{OutOfMemory};
ghost use Rattle.command_words.specs.Statuses.{Reports};

use crate::failure::Failure;
use clap::Error;
use clap::error::ErrorKind;
use std::alloc::{AllocError, AllocFailed};

/// Why a command line asks for nothing that can be done.
#[derive(Drop)]
pub enum BadLine<'a> {
    /// The line is not of the program's form, or asks for help: the text that says so.
    Form(Error),
    /// A value is not one that its option or word takes: what that takes. The value is not shown,
    /// since it may be a secret.
    Value(&'static str),
    /// The same with the value given.
    Given(&'static str, &'a str),
    /// Memory to read it was refused.
    Memory,
}

impl<'a> From<Error> for BadLine<'a> {
    ghost use Rattle.command_words.specs.declared.bad_line.BadLine.{BadLine};

    ghost from_gives = { λ error bad. (bad ≡ BadLine.Form error) ⊎
        ((bad ≡ BadLine.Memory) × (kind_of error ≡ OutOfMemory)) };

    fn from(error: Error) -> Self {
        if error.kind() == ErrorKind::OutOfMemory {
            return BadLine::Memory;
        }
        BadLine::Form(error)
    }
}

impl<'a> From<AllocError> for BadLine<'a> {
    ghost use Rattle.command_words.specs.declared.bad_line.BadLine.{BadLine};

    ghost from_gives = { λ _ bad. bad ≡ BadLine.Memory };

    fn from(_error: AllocError) -> Self {
        BadLine::Memory
    }
}

impl<'a, T: Drop> From<AllocFailed<T>> for BadLine<'a> {
    ghost use Rattle.command_words.specs.declared.bad_line.BadLine.{BadLine};

    ghost from_gives = { λ _ bad. bad ≡ BadLine.Memory };

    fn from(_error: AllocFailed<T>) -> Self {
        BadLine::Memory
    }
}

impl BadLine<'_> {
    /// Prints what is to be said, and returns the exit status: 0 for help, 2 for a bad command
    /// line, 3 for help that can't be printed and 4 for refused memory.
    pub fn report<R: Print + Eprint>(&self, rt: &R) -> u8
        ensures { Reports self.now result }
    {
        match self {
            BadLine::Form(error) => {
                let printed = error.print(rt);
                if error.use_stderr() {
                    return 2;
                }
                match printed {
                    Ok(()) => 0,
                    Err(_) => unprinted(rt),
                }
            }
            BadLine::Value(takes) => {
                let _ = eprintln!(rt; "error: {takes}\n\nFor more information, try '--help'.");
                2
            }
            BadLine::Given(takes, given) => {
                let _ = eprintln!(rt;
                    "error: {takes}, not '{given}'\n\nFor more information, try '--help'."
                );
                2
            }
            BadLine::Memory => {
                let _ = eprintln!(rt; "fault: Memory");
                4
            }
        }
    }
}

// Says that help can't be printed, and returns the status for it.
fn unprinted<R: Eprint>(rt: &R) -> u8
    ensures { result ≡ 3 }
{
    let failure = Failure::Fault("Write");
    let _ = eprintln!(rt; "{failure}");
    failure.status()
}
