//! The words of a program's command line.

ghost use Rattle.std.specs.Prelude.{◌≡◌, ◌⊎◌, IfErr};

use crate::failure::Failure;
use std::env;
use std::io::ErrorKind;

/// The exit status of a bad command line.
const BAD_LINE: u8 = 2;

/// The program's words, its name first.
///
/// # Errors
///
/// What went wrong is printed, and the exit status returned: 2 if a word is no text, and 4 for
/// refused memory.
pub fn program_words(rt: &HostRuntime) -> Result<Vec<String>, u8>
    ensures status { IfErr result (λ status. (status ≡ 2) ⊎ (status ≡ 4)) }
{
    let arguments = match env::args(rt) {
        Ok(arguments) => arguments,
        Err(fault) if fault.kind() == ErrorKind::OutOfMemory => return Err(no_memory(rt)),
        Err(_) => {
            let _ = eprintln!(rt; "error: the command line is not text");
            return Err(BAD_LINE);
        }
    };
    let mut words: Vec<String> = Vec::new(rt.alloc());
    for word in arguments {
        if words.push(word).is_err() {
            return Err(no_memory(rt));
        }
    }
    Ok(words)
}

// Says that memory was refused, and returns the status for it.
fn no_memory(rt: &HostRuntime) -> u8
    ensures { result ≡ 4 }
{
    let _ = eprintln!(rt; "{}", Failure::Memory);
    4
}
