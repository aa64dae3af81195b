//! All of an input.

ghost use Rattle.std.specs.Prelude.{◌≤◌, length, IfOk};
ghost use Rattle.std.specs.Io.KnownBytes.{Consumes, IsAtEnd};

use command_words::Failure;
use connection_io::{piece_buffer, read_piece};
use std::alloc::Global;
use std::io::Read;

/// The most bytes that are read: more than the lines of any publication's changes have that fit in
/// memory.
pub const MOST_INPUT: usize = 8_589_934_592;

/// All bytes of a reader.
///
/// # Errors
///
/// `Read` if reading fails, `TooLong` if there are more than so many bytes; `Memory`.
pub fn read_input<R: Read>(alloc: Global, reader: &mut R, most: usize) -> Result<Vec<u8>, Failure>
    requires { most ≤ 8589934592 }
    ensures all { IfOk result (λ bytes. Consumes (R.remaining reader.old)
        (R.remaining reader.new) bytes.items × IsAtEnd (R.remaining reader.new)) }
    ensures few { IfOk result (λ bytes. length bytes.items ≤ most) }
{
    let mut buffer = piece_buffer(alloc)?;
    let mut bytes = Vec::new(alloc);
    // Each read but the last gives a byte at least.
    'pieces: for _ in 0..=most {
        let Ok(n) = read_piece(reader, &mut buffer) else {
            return Err(Failure::Fault("Read"));
        };
        if n == 0 {
            return Ok(bytes);
        }
        if n > most - bytes.len() {
            return Err(Failure::Fault("TooLong"));
        }
        bytes.extend_from_slice(&buffer[..n])?;
    }
    Err(Failure::Fault("TooLong"))
}
