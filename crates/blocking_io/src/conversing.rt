//! The client's side.

ghost use Rattle.std.specs.Prelude.{◌≡◌, ◌≤◌, ◌<◌, ◌*◌, ℕ, List, [], length, Option, Some, None};
ghost use Rattle.std.specs.Io.KnownBytes.{Appends, Consumes};
ghost use Rattle.blocking_io.specs.Conversing.{converse_fault, ReceivesPiece, Receives};
ghost use Rattle.blocking_io.specs.Conversing.{Converses};
ghost use Rattle.blocking_io.specs.ConversingTurns.{WritesSayings, ReceivesTurn, ReceivesTurns};
ghost use Rattle.blocking_io.specs.ConversingTurns.{ConversesOver};
ghost use Rattle.blocking_io.specs.Names.{converse_fault_name};

use client_core::{ClientCore, ClientFault, Event};
use connection_io::{Connection, Pair, piece_buffer, receive, send};
use matrix_u32::Kernel;
use std::alloc::Global;
use std::io::{Read, Write};
use thiserror::Error;

/// Why a call came to no event.
#[derive(Clone, Copy, Debug, PartialEq, Eq, Error)]
pub enum ConverseFault {
    /// The server's stream ended.
    #[error("the server ended the connection")]
    Ended,
    /// A read failed.
    #[error("a read failed")]
    Read,
    /// A write failed, or took no byte.
    #[error("a write failed")]
    Write,
    /// A Welcome of another profile, with sizes beyond the limits, or with version 0.
    #[error("a bad welcome")]
    BadWelcome,
    /// A reply that the call can't have, or no frame at all.
    #[error("a bad reply")]
    BadReply,
    /// There was no memory.
    #[error("out of memory")]
    Memory,
    /// All turns were used before an event came.
    #[error("all turns are used up")]
    TurnsUsedUp,
    /// The client had failed before.
    #[error("the client had failed")]
    Failed,
}

impl ConverseFault {
    /// Its name, as programs print it.
    #[tactic(auto, unfolding(crate::specs::Names::converse_fault_name))]
    pub fn name(self) -> &'static str
        ensures { result.now ≡ converse_fault_name self }
    {
        match self {
            ConverseFault::Ended => "Ended",
            ConverseFault::Read => "Read",
            ConverseFault::Write => "Write",
            ConverseFault::BadWelcome => "BadWelcome",
            ConverseFault::BadReply => "BadReply",
            ConverseFault::Memory => "Memory",
            ConverseFault::TurnsUsedUp => "TurnsUsedUp",
            ConverseFault::Failed => "Failed",
        }
    }
}

// The fault of a client, as that of its conversation.
fn fault_of(fault: ClientFault) -> ConverseFault
    ensures { result ≡ converse_fault fault }
{
    match fault {
        ClientFault::BadWelcome => ConverseFault::BadWelcome,
        ClientFault::BadReply => ConverseFault::BadReply,
        ClientFault::Memory => ConverseFault::Memory,
        ClientFault::Failed => ConverseFault::Failed,
    }
}

// Gives the client a piece, and writes what it says to it. Returns the first event, if there is
// one.
fn feed_client<K: Kernel, C: Connection>(
    client: &mut ClientCore<K>,
    piece: &[u8],
    connection: &mut C,
) -> Result<Option<Event>, ConverseFault>
    ensures { (bytes : List ℕ) × WritesSayings C.does result connection.old bytes connection.new
        × ReceivesPiece client.old piece.now result client.new bytes }
{
    let fed = client.feed(piece);
    let Ok(()) = send(connection, &fed.out) else {
        return Err(ConverseFault::Write);
    };
    if let Some(event) = fed.events.into_iter().next() {
        return Ok(Some(event));
    }
    let Some(fault) = fed.fault else {
        return Ok(None);
    };
    Err(fault_of(fault))
}

/// Makes one turn of a client: reads a piece of at most 65,536 bytes, gives it to the client, and
/// writes all that the client says to it. Returns the first event that came of it, or `None` if
/// none did.
///
/// `buffer` has room for a piece, as `connection_io::piece_buffer` makes it: what it held is lost.
///
/// # Errors
///
/// `Ended` exactly when the read gave no byte, and `Read` exactly when it failed: the client is as
/// it was. `Write` if a write failed, after which there is no other: a part of what the client
/// says went out, from its start on. `BadWelcome`, `BadReply`, `Failed` and `Memory` if the
/// client answered so, and before any event.
pub fn converse_turn<K: Kernel, C: Connection>(
    client: &mut ClientCore<K>,
    connection: &mut C,
    buffer: &mut Vec<u8>,
) -> Result<Option<Event>, ConverseFault>
    requires { length buffer.old.items ≡ 65536 }
    ensures turn { ReceivesTurn C.does client.old connection.old result client.new connection.new }
    ensures room { length buffer.new.items ≡ 65536 }
{
    let Ok(n) = receive(connection, buffer) else {
        return Err(ConverseFault::Read);
    };
    if n == 0 {
        return Err(ConverseFault::Ended);
    }
    match feed_client(client, &buffer[..n], connection) {
        Ok(found) => Ok(found),
        Err(fault) => Err(fault),
    }
}

// Makes turns until an event comes of one.
fn read_until_event<K: Kernel, C: Connection>(
    client: &mut ClientCore<K>,
    buffer: &mut Vec<u8>,
    connection: &mut C,
    turns: u64,
) -> Result<Event, ConverseFault>
    requires { length buffer.old.items ≡ 65536 }
    ensures { ReceivesTurns C.does turns client.old connection.old result client.new
        connection.new }
{
    'turns: for _ in 0..turns {
        match converse_turn(client, connection, buffer) {
            Ok(Some(event)) => return Ok(event),
            Ok(None) => {}
            Err(fault) => return Err(fault),
        }
    }
    Err(ConverseFault::TurnsUsedUp)
}

/// Writes `first`, which a call of the client gave, and then makes at most `turns` turns over a
/// connection, each of them [`converse_turn`], until one brings an event. After the event, and
/// after a fault, no call is made.
///
/// # Errors
///
/// `Memory` if there was none for a piece, and no call was made. `Write` if a write of
/// `first` failed: a part of it went out, and nothing was read. Those of the last turn.
/// `TurnsUsedUp` if no event came in all turns.
pub fn converse_over<K: Kernel, C: Connection>(
    alloc: Global,
    client: &mut ClientCore<K>,
    first: &[u8],
    connection: &mut C,
    turns: u64,
) -> Result<Event, ConverseFault>
    ensures { ConversesOver C.does client.old first.now connection.old turns result client.new
        connection.new }
{
    let Ok(mut buffer) = piece_buffer(alloc) else {
        return Err(ConverseFault::Memory);
    };
    let Ok(()) = send(connection, first) else {
        return Err(ConverseFault::Write);
    };
    read_until_event(client, &mut buffer, connection, turns)
}

/// Writes `first`, which a call of the client gave, and gives the client what the server says, in
/// at most `turns` reads of at most 65,536 bytes each, until the first event comes of it:
/// [`converse_over`] the two. What the client says to a piece is written before the next is read,
/// and before an event or a fault of the piece is answered.
///
/// With an event, `first` was written, and after it exactly what the client said to all that was
/// read. An event is answered also if a fault follows it in its piece: the next call then
/// answers `Failed`.
///
/// # Errors
///
/// `Ended` if the server's stream ended before an event, `Read` if a read failed,
/// `TurnsUsedUp` if no event came in all turns. `Write` if a write failed or took no byte: a
/// part of what was to be written went out, from its start on. `BadWelcome`, `BadReply` and
/// `Failed` if the client answered so, and `Memory` if it did, or if there was none for
/// the first piece: then nothing was written. After each of them the client stands where all pieces
/// that were read have led it.
pub fn converse<K: Kernel, R: Read, W: Write>(
    alloc: Global,
    client: &mut ClientCore<K>,
    first: &[u8],
    reader: &mut R,
    writer: &mut W,
    turns: u64,
) -> Result<Event, ConverseFault>
    ensures { (read : List ℕ) × (out : List ℕ)
        × Consumes (R.remaining reader.old) (R.remaining reader.new) read
        × Appends (W.contents writer.old) (W.contents writer.new) out
        × (length read ≤ 65536 * turns)
        × Converses client.old first.now turns result read out (R.remaining reader.new) client.new }
{
    let mut pair = Pair::new(reader, writer);
    match converse_over(alloc, client, first, &mut pair, turns) {
        Ok(event) => Ok(event),
        Err(fault) => Err(fault),
    }
}
