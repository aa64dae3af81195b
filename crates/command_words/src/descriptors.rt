//! The descriptors of the standard streams.

ghost use Rattle.std.specs.Prelude.{IfErr};
ghost use Rattle.command_words.specs.Statuses.{IsFileFault};

use crate::failure::Failure;

/// The descriptors of standard input, output and error.
const STANDARD: [i32; 3] = [0, 1, 2];

/// Reads of it give nothing.
const NULL_DEVICE: &[u8] = b"/dev/null";

/// Opens the null device, for reading only, at each standard descriptor that is closed. So no file
/// and no connection that is opened later gets one of their numbers, and what is printed can't go
/// there: printing to an output that was closed fails.
///
/// # Errors
///
/// `Fault` with `File` if a standard descriptor is closed and the null device can't be opened in
/// its place.
pub fn open_standard_descriptors() -> Result<(), Failure>
    ensures { IfErr result IsFileFault }
{
    for descriptor in STANDARD {
        // A file gets the lowest number that is free, and those below are open by now.
        if !is_open(descriptor) && os::open_read(NULL_DEVICE) != descriptor {
            return Err(Failure::Fault("File"));
        }
    }
    Ok(())
}

// Whether a descriptor is open.
fn is_open(descriptor: i32) -> bool {
    let copy = os::duplicate(descriptor);
    if copy < 0 {
        return false;
    }
    libc::close(copy);
    true
}
