//! The server's side.

ghost use Rattle.std.specs.Prelude.{◌≡◌, ◌≢◌, ◌≤◌, ◌<◌, ◌*◌, ◌↔◌, ◌⊎◌, true, ℕ, List, length, IfOk};
ghost use Rattle.std.specs.Prelude.{IfErr, IsErrOf, IsSome, Some, None, Err};
ghost use Rattle.std.specs.Io.KnownBytes.{Appends, Consumes};
ghost use Rattle.version_store.specs.Histories.{History, StandsFor};
ghost use Rattle.server_core.specs.Cores.{session_of, is_open};
ghost use Rattle.server_core.specs.Serving.{setting_of};
ghost use Rattle.server_core.specs.Sessions.{Session, new_session};
ghost use Rattle.blocking_io.specs.Serving.{ServesStreamPiece, ServesFrameThere, ServesStream};
ghost use Rattle.blocking_io.specs.ServingTurns.{WritesReplies, ServesTurn, ServesTurns};
ghost use Rattle.blocking_io.specs.ServingTurns.{NeverServes, ServesOver};
ghost use Rattle.blocking_io.specs.Names.{serve_fault_name};

use connection_io::{Connection, Pair, piece_buffer, receive, send};
use matrix_u32::Kernel;
use server_core::{FeedError, ServerCore, SessionError};
use std::alloc::Global;
use std::io::{Read, Write};
use thiserror::Error;

/// How a session came to its end.
#[derive(Clone, Copy, Debug, PartialEq, Eq)]
pub enum Ending {
    /// A frame or what could not be read closed it: nothing after the piece was read.
    Closed,
    /// The input ended, and the session was open until then.
    EndOfInput,
}

/// Why a session was not served to its end.
#[derive(Clone, Copy, Debug, PartialEq, Eq, Error)]
pub enum ServeFault {
    /// There is a session of this number.
    #[error("there is a session of this number")]
    IdInUse,
    /// A read failed.
    #[error("a read failed")]
    Read,
    /// A write failed, or took no byte.
    #[error("a write failed")]
    Write,
    /// There was no memory.
    #[error("out of memory")]
    Memory,
    /// All turns were used before the session came to its end.
    #[error("all turns are used up")]
    TurnsUsedUp,
}

impl ServeFault {
    /// Its name, as programs print it.
    #[tactic(auto, unfolding(crate::specs::Names::serve_fault_name))]
    pub fn name(self) -> &'static str
        ensures { result.now ≡ serve_fault_name self }
    {
        match self {
            ServeFault::IdInUse => "IdInUse",
            ServeFault::Read => "Read",
            ServeFault::Write => "Write",
            ServeFault::Memory => "Memory",
            ServeFault::TurnsUsedUp => "TurnsUsedUp",
        }
    }
}

// Gives the session the first frame of a piece, and writes what it is replied. Returns how many
// bytes of the piece are used up.
fn answer_frame<K: Kernel, C: Connection>(
    core: &mut ServerCore<K>,
    id: u64,
    piece: &[u8],
    out: &mut Vec<u8>,
    connection: &mut C,
) -> Result<usize, ServeFault>
    ensures served { (bytes : List ℕ)
        × WritesReplies C.does result connection.old bytes connection.new
        × ServesFrameThere core.old id piece.now result core.new bytes }
    ensures within { IfOk result (λ count. count ≤ length piece.now) }
    ensures some { IfOk result (λ count. 0 < length piece.now → 0 < count) }
    ensures fault { IfErr result (λ e. (e ≡ ServeFault.Write) ⊎ (e ≡ ServeFault.Memory)) }
    ensures others { (other : ℕ) → other ≢ id →
        session_of core.new.sessions other ≡ session_of core.old.sessions other }
{
    out.clear();
    let fed = core.feed_frame(id, piece, out);
    let Ok(()) = send(connection, out) else {
        return Err(ServeFault::Write);
    };
    match fed {
        Ok(count) => Ok(count),
        Err(FeedError::Memory | FeedError::NoSession) => Err(ServeFault::Memory),
    }
}

// Gives the session a piece, and writes the reply to each frame before the next one is looked at.
fn answer_piece<K: Kernel, C: Connection>(
    core: &mut ServerCore<K>,
    id: u64,
    piece: &[u8],
    out: &mut Vec<u8>,
    connection: &mut C,
) -> Result<(), ServeFault>
    requires open { is_open (session_of core.old.sessions id) ≡ true }
    requires some { 0 < length piece.now }
    ensures served { (bytes : List ℕ)
        × WritesReplies C.does result connection.old bytes connection.new
        × ((h : History) → StandsFor core.old.store h → (old : Session) →
        session_of core.old.sessions id ≡ Some old →
        ServesStreamPiece (setting_of core.old.store) h old piece.now result core.new.store
        (session_of core.new.sessions id) bytes) }
    ensures fault { IfErr result (λ e. (e ≡ ServeFault.Write) ⊎ (e ≡ ServeFault.Memory)) }
    ensures others { (other : ℕ) → other ≢ id →
        session_of core.new.sessions other ≡ session_of core.old.sessions other }
{
    let mut rest = piece;
    'frames: while !rest.is_empty() {
        let count = match answer_frame(core, id, rest, out, connection) {
            Ok(count) => count,
            Err(fault) => return Err(fault),
        };
        let (_, beyond) = rest.split_at(count);
        rest = beyond;
        if !core.is_open(id) {
            return Ok(());
        }
    }
    Ok(())
}

/// Makes one turn of session `id`: reads a piece of at most 65,536 bytes and serves it, frame by
/// frame. The reply to each frame is written before the next one is looked at, so that one reply is
/// kept at most. Returns how the session came to its end, or `None` if it is open still.
///
/// `buffer` has room for a piece, as `connection_io::piece_buffer` makes it, and `out` is for the
/// replies: what they held is lost.
///
/// # Errors
///
/// `Read` exactly when the read failed: nothing was served. `Write` if a write failed, after
/// which there is no other: a part of the replies went out, from their start on. `Memory` if
/// there was none for a reply: the replies before it were written, and the session is closed.
pub fn serve_turn<K: Kernel, C: Connection>(
    core: &mut ServerCore<K>,
    id: u64,
    connection: &mut C,
    buffer: &mut Vec<u8>,
    out: &mut Vec<u8>,
) -> Result<Option<Ending>, ServeFault>
    requires open { is_open (session_of core.old.sessions id) ≡ true }
    requires room { length buffer.old.items ≡ 65536 }
    ensures turn { ServesTurn C.does id core.old connection.old result core.new connection.new }
    ensures others { (other : ℕ) → other ≢ id →
        session_of core.new.sessions other ≡ session_of core.old.sessions other }
    ensures room { length buffer.new.items ≡ 65536 }
{
    let Ok(n) = receive(connection, buffer) else {
        return Err(ServeFault::Read);
    };
    if n == 0 {
        return Ok(Some(Ending::EndOfInput));
    }
    if let Err(fault) = answer_piece(core, id, &buffer[..n], out, connection) {
        return Err(fault);
    }
    if core.is_open(id) {
        Ok(None)
    } else {
        Ok(Some(Ending::Closed))
    }
}

// Serves a session that was opened just now, turn by turn, until it is closed or the input ends.
fn serve_opened<K: Kernel, C: Connection>(
    alloc: Global,
    core: &mut ServerCore<K>,
    id: u64,
    connection: &mut C,
    turns: u64,
) -> Result<Ending, ServeFault>
    requires { session_of core.old.sessions id ≡ Some new_session }
    ensures turns { NeverServes core.old connection.old result core.new connection.new
        ⊎ ServesTurns C.does id turns core.old connection.old result core.new connection.new }
    ensures opened { result ≢ Err ServeFault.IdInUse }
    ensures others { (other : ℕ) → other ≢ id →
        session_of core.new.sessions other ≡ session_of core.old.sessions other }
{
    let Ok(mut buffer) = piece_buffer(alloc) else {
        return Err(ServeFault::Memory);
    };
    let mut out = Vec::new(alloc);
    'turns: for _ in 0..turns {
        match serve_turn(core, id, connection, &mut buffer, &mut out) {
            Ok(None) => {}
            Ok(Some(ending)) => return Ok(ending),
            Err(fault) => return Err(fault),
        }
    }
    Err(ServeFault::TurnsUsedUp)
}

/// Opens session `id`, serves it over a connection in at most `turns` turns, each of them
/// [`serve_turn`], and takes it away at the end, whatever happened. No other session changes.
///
/// `Closed` in the turn whose piece closed the session, and `EndOfInput` if the connection had
/// no more. After these, and after a fault, no call is made.
///
/// # Errors
///
/// `IdInUse` exactly when there was a session of this number: it is left alone, and nothing is
/// read. Those of the last turn, `Read`, `Write` and `Memory`; `Memory` also if there was none
/// to begin with, and nothing was read. `TurnsUsedUp` if the session was open after all turns.
pub fn serve_over<K: Kernel, C: Connection>(
    alloc: Global,
    core: &mut ServerCore<K>,
    id: u64,
    connection: &mut C,
    turns: u64,
) -> Result<Ending, ServeFault>
    ensures turns { ServesOver C.does id turns core.old connection.old result core.new
        connection.new }
    ensures in_use { IsErrOf result ServeFault.IdInUse ↔ IsSome (session_of core.old.sessions id) }
    ensures closed { session_of core.old.sessions id ≡ None →
        session_of core.new.sessions id ≡ None }
    ensures others { (other : ℕ) → other ≢ id →
        session_of core.new.sessions other ≡ session_of core.old.sessions other }
{
    match core.open_session(id) {
        Ok(()) => {}
        Err(SessionError::IdInUse) => return Err(ServeFault::IdInUse),
        Err(SessionError::Memory) => return Err(ServeFault::Memory),
    }
    let ended = serve_opened(alloc, core, id, connection, turns);
    core.close_session(id);
    ended
}

/// Opens session `id`, serves it from a reader to a writer in at most `turns` reads of at most
/// 65,536 bytes each, and takes it away at the end, whatever happened: [`serve_over`] the two. The
/// replies to each piece are written before the next is read, and no other session changes.
///
/// `Closed` in the turn whose piece closed the session, without another read; `EndOfInput` if
/// the reader has no more. At both, exactly the replies to what was read were written.
///
/// # Errors
///
/// `IdInUse` exactly when there was a session of this number: it is left alone, and nothing is
/// read. `Read` if a read failed, and `TurnsUsedUp` if the session was open after all turns:
/// the replies to what was read were written. `Write` if a write failed or took no byte: a part
/// of the replies was written, from their start on. `Memory` if there was none for the session
/// or for a reply: the replies before it were written. A turn's faults come in the order `Read`,
/// `Write`, `Memory`.
pub fn serve<K: Kernel, R: Read, W: Write>(
    alloc: Global,
    core: &mut ServerCore<K>,
    id: u64,
    reader: &mut R,
    writer: &mut W,
    turns: u64,
) -> Result<Ending, ServeFault>
    ensures served { (read : List ℕ) × (out : List ℕ)
        × Consumes (R.remaining reader.old) (R.remaining reader.new) read
        × Appends (W.contents writer.old) (W.contents writer.new) out
        × (length read ≤ 65536 * turns)
        × ((h : History) → StandsFor core.old.store h →
        ServesStream (setting_of core.old.store) h turns result read out
        (R.remaining reader.new) core.new.store) }
    ensures in_use { IsErrOf result ServeFault.IdInUse ↔ IsSome (session_of core.old.sessions id) }
    ensures unchanged { IsErrOf result ServeFault.IdInUse → core.new ≡ core.old }
    ensures closed { session_of core.old.sessions id ≡ None →
        session_of core.new.sessions id ≡ None }
    ensures others { (other : ℕ) → other ≢ id →
        session_of core.new.sessions other ≡ session_of core.old.sessions other }
{
    let mut pair = Pair::new(reader, writer);
    match serve_over(alloc, core, id, &mut pair, turns) {
        Ok(ending) => Ok(ending),
        Err(fault) => Err(fault),
    }
}
