//! The whole stream, read in pieces.

ghost use Rattle.std.specs.Prelude.{◌≡◌, ◌≤◌, ◌*◌, ℕ, List, [], length, Some, OnOk, OnErr, IfErr};
ghost use Rattle.std.specs.Prelude.{true, false};
ghost use Rattle.std.specs.Io.KnownBytes.{Appends, Consumes};
ghost use Rattle.frame_codec.specs.declared.frame.Frame.TheVariants.{Refused};
ghost use Rattle.frame_codec.specs.Frames.{encoding};
ghost use Rattle.frame_codec.specs.Streams.{IsPartial};
ghost use Rattle.once_session.specs.Outputs.{Finishes, ServesOneStream, is_finished};
ghost use Rattle.once_session.specs.OnceTurns.{WritesWorkReplies, ServesWorkOver};

use crate::engine::{OnceFault, goes_on, refusal_bytes, refuse, serve_chunk};
use crate::stage::Stage;
use connection_io::{Connection, Pair, piece_buffer, receive};
use frame_codec::Reader;
use lane_kernels::Lanes;
use matrix_u32::Kernel;
use std::alloc::Global;
use std::io::{Read, Write};

// Ends the work when the stream ends: a frame that is cut is refused.
fn finish<C: Connection>(
    refusal: &[u8],
    codec: &Reader,
    connection: &mut C,
) -> Result<(), OnceFault>
    requires { refusal.now ≡ encoding (Refused 1) }
    ensures { (rest : List ℕ) → codec.now ≡ Some rest → (out : List ℕ)
        × WritesWorkReplies C.does result connection.old out connection.new ×
        Finishes result rest out }
{
    if codec.is_between_frames() {
        return Ok(());
    }
    if let Err(fault) = refuse(refusal, connection) {
        return Err(fault);
    }
    Err(OnceFault::BadInput)
}

// How the work ended, if a frame ended it.
fn ended(stage: &Stage) -> Result<(), OnceFault>
    ensures well { OnOk result (is_finished stage.now ≡ true) }
    ensures ill { IfErr result (λ e. (e ≡ OnceFault.BadInput) × (is_finished stage.now ≡ false)) }
{
    match stage {
        Stage::Done => Ok(()),
        Stage::Fresh | Stage::Loaded(_) | Stage::Bad => Err(OnceFault::BadInput),
    }
}

/// Serves one database over a connection, turn by turn: each is one read of at most 65,536 bytes,
/// all that it brings served, and the replies written before any other call. After the turn whose
/// piece ended the work, or that found the end of the stream, and after a fault, no call is made.
///
/// # Errors
///
/// Those of [`once`]. `Read` exactly when a read failed, `Write` exactly when a write did, and
/// `TurnsUsedUp` after `turns` reads, of which none ended the work.
pub fn once_over<K: Kernel, C: Connection>(
    alloc: Global,
    kernel: K,
    connection: &mut C,
    turns: u64,
) -> Result<(), OnceFault>
    ensures { ServesWorkOver C.does turns connection.old result connection.new }
{
    let Ok(mut buffer) = piece_buffer(alloc) else {
        return Err(OnceFault::Memory);
    };
    let Ok(refusal) = refusal_bytes(alloc) else {
        return Err(OnceFault::Memory);
    };
    let mut codec = Reader::new(alloc);
    let mut stage = Stage::Fresh;
    'turns: for _ in 0..turns {
        let Ok(n) = receive(connection, &mut buffer) else {
            return Err(OnceFault::Read);
        };
        if n == 0 {
            return finish(&refusal, &codec, connection);
        }
        if let Err(fault) = serve_chunk(
            alloc,
            kernel,
            &refusal,
            &mut codec,
            &mut stage,
            &buffer[..n],
            connection,
        ) {
            return Err(fault);
        }
        if !goes_on(&stage) {
            return ended(&stage);
        }
    }
    Err(OnceFault::TurnsUsedUp)
}

/// Serves one database over one stream, by a kernel: [`once`] with another kernel than the fastest.
pub fn once_with<K: Kernel, R: Read, W: Write>(
    alloc: Global,
    kernel: K,
    reader: &mut R,
    writer: &mut W,
    turns: u64,
) -> Result<(), OnceFault>
    ensures { (read : List ℕ) × (out : List ℕ)
        × Consumes (R.remaining reader.old) (R.remaining reader.new) read
        × Appends (W.contents writer.old) (W.contents writer.new) out
        × (length read ≤ 65536 * turns)
        × ServesOneStream turns result read out (R.remaining reader.new) }
{
    let mut pair = Pair::new(reader, writer);
    match once_over(alloc, kernel, &mut pair, turns) {
        Ok(()) => Ok(()),
        Err(fault) => Err(fault),
    }
}

/// Serves one database over one stream: reads the frames of a Load, of Queries and of a Bye in at
/// most `turns` reads of at most 65,536 bytes each, and writes the reply to each as soon as its
/// bytes have come.
///
/// A Load has no reply. A Query is answered from the loaded database, which has version 1: a scheme
/// other than SimplePIR is refused with code 13, another version is answered Stale, another count
/// of words than the digit matrix has columns is refused with code 11. After a Bye nothing more is
/// read. A frame out of place, a Load whose layout or record bytes don't fit, a frame that can't be
/// read and one that is cut by the stream's end are refused with code 1, and end the work.
///
/// # Errors
///
/// `BadInput` if the stream was refused with code 1, `Read` and `Write` if a reader or a writer
/// fails, `Memory` if memory is refused, `TurnsUsedUp` if the stream hadn't ended after all turns.
/// At each what was written is the replies to what was read, or at `Write` a prefix of them. At
/// `Memory` it is the replies to the first frames read, which left the work open, and what follows
/// these frames has no length that is too large and no unknown kind.
pub fn once<R: Read, W: Write>(
    alloc: Global,
    reader: &mut R,
    writer: &mut W,
    turns: u64,
) -> Result<(), OnceFault>
    ensures { (read : List ℕ) × (out : List ℕ)
        × Consumes (R.remaining reader.old) (R.remaining reader.new) read
        × Appends (W.contents writer.old) (W.contents writer.new) out
        × (length read ≤ 65536 * turns)
        × ServesOneStream turns result read out (R.remaining reader.new) }
{
    once_with(alloc, Lanes, reader, writer, turns)
}
