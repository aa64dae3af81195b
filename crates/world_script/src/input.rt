//! The script as a whole.

ghost use Rattle.std.specs.Prelude.{◌≤◌, IfErr, IfOk, length};
ghost use Rattle.std.specs.Io.KnownBytes.{Consumes, IsAtEnd};
ghost use Rattle.world_script.specs.Progress.{StopsReading};

use crate::stop::Stop;
use connection_io::{piece_buffer, read_piece};
use std::alloc::Global;
use std::io::Read;

/// How many bytes a script may have.
pub const SCRIPT_LIMIT: usize = 1_048_576;

/// Reads a script to the end of its reader. The script is too long as soon as more bytes have come
/// than a script may have; no further one is read then.
pub fn read_script<R: Read>(alloc: Global, reader: &mut R) -> Result<Vec<u8>, Stop>
    ensures whole { IfOk result (λ script. Consumes (R.remaining reader.old)
        (R.remaining reader.new) script.items) }
    ensures end { IfOk result (λ script. IsAtEnd (R.remaining reader.new)) }
    ensures within { IfOk result (λ script. length script.items ≤ SCRIPT_LIMIT) }
    ensures stops { IfErr result (λ stop. StopsReading (R.remaining reader.old) stop
        (R.remaining reader.new)) }
{
    let Ok(mut buffer) = piece_buffer(alloc) else {
        return Err(Stop::Memory);
    };
    let mut script = Vec::new(alloc);
    while script.len() <= SCRIPT_LIMIT {
        let Ok(n) = read_piece(reader, &mut buffer) else {
            return Err(Stop::Read);
        };
        if n == 0 {
            return Ok(script);
        }
        if script.extend_from_slice(&buffer[..n]).is_err() {
            return Err(Stop::Memory);
        }
    }
    Err(Stop::TooLong)
}
