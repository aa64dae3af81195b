//! A command that failed, and why.

ghost use Rattle.std.specs.Prelude.{◌≡◌, None, Some, Ok, IfOk, IfErr, OnErr};
ghost use Rattle.command_words.specs.Statuses.{status_of, IsWriteFault};

use crate::failure::Failure;
use std::alloc::AllocError;
use std::fs::{self, File};
use std::io;

/// How a command failed, and what is known of the cause beyond the name of the fault.
#[derive(Debug, Drop)]
pub struct Failed {
    /// The line that says that it failed.
    pub failure: Failure,
    /// What and where: a file's name and the system's error, an address, a line of the input. None
    /// if there is no more to say, or if memory for it was refused.
    pub cause: Option<String>,
}

impl Failed {
    /// A failure with the text of its cause. If memory was refused for the text, there is none.
    pub fn by(failure: Failure, cause: Result<String, AllocError>) -> Failed
        ensures failure { result.failure ≡ failure }
        ensures cause { IfOk cause (λ text. result.cause ≡ Some text) }
        ensures no_text { OnErr cause (result.cause ≡ None) }
    {
        Failed {
            failure,
            cause: cause.ok(),
        }
    }

    /// Prints the failure's line, and with `verbose` a second line with its cause, if there is one.
    /// Returns the exit status.
    pub fn report<R: Eprint>(&self, rt: &R, verbose: bool) -> u8
        ensures { result ≡ status_of self.now.failure }
    {
        let failure = self.failure;
        let _ = eprintln!(rt; "{failure}");
        if verbose && let Some(cause) = &self.cause {
            let _ = eprintln!(rt; "cause: {cause}");
        }
        failure.status()
    }
}

/// What printing a result came to.
///
/// # Errors
///
/// `Fault` with `Write` if it failed, and the system's error.
pub fn printed(rt: &HostRuntime, said: io::Result<()>) -> Result<(), Failed>
    ensures { IfErr result (λ failed. IsWriteFault failed.failure) }
{
    match said {
        Ok(()) => Ok(()),
        Err(fault) => Err(Failed::by(
            Failure::Fault("Write"),
            format!(in rt.alloc(); "standard output: {fault}"),
        )),
    }
}

/// How a command on a file failed: with the file's name, and the system's error if it can't be
/// opened, or what the fault means.
pub fn file_failed(rt: &HostRuntime, name: &str, failure: Failure, means: &str) -> Failed
    ensures { result.failure ≡ failure }
{
    let alloc = rt.alloc();
    let cause = match opens(rt, name) {
        Err(fault) if failure == Failure::Fault("File") => format!(in alloc; "{name}: {fault}"),
        _ => format!(in alloc; "{name}: {means}"),
    };
    Failed::by(failure, cause)
}

// Whether a file can be opened. What is no file stays unopened, since a pipe that nobody writes to
// would hold the opener up.
fn opens(rt: &HostRuntime, name: &str) -> io::Result<()> {
    if fs::metadata(rt, name)?.is_file() {
        File::open(rt, name)?;
    }
    Ok(())
}

impl From<Failure> for Failed {
    ghost use Rattle.std.specs.Prelude.{None};
    ghost use Rattle.command_words.specs.declared.failed.Failed.{Failed};

    ghost from_gives = { λ failure failed. (failed.failure ≡ failure) };

    fn from(failure: Failure) -> Self {
        Failed {
            failure,
            cause: None,
        }
    }
}

impl From<AllocError> for Failed {
    ghost use Rattle.command_words.specs.declared.failure.Failure.TheVariants.{Memory};

    ghost from_gives = { λ _ failed. failed.failure ≡ Memory };

    fn from(_refused: AllocError) -> Self {
        Failed {
            failure: Failure::Memory,
            cause: None,
        }
    }
}
