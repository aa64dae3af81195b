//! The turn of a connection.

ghost use Rattle.std.specs.Prelude.{◌≡◌, ◌≢◌, ◌+◌, length, None, Err, OnErr};
ghost use Rattle.server_core.specs.Cores.{session_of, PublishesNext};
ghost use Rattle.server_core.specs.Serving.{PublishesIf};
ghost use Rattle.connection_turns.specs.Connections.{MayServe};
ghost use Rattle.connection_turns.specs.Runs.{OthersStay};
ghost use Rattle.connection_turns.specs.Turns.{EndsAppended, FrameGives, IsTurn, ReadsOnce, ServesOnce};
ghost use Rattle.connection_turns.specs.Turns.{WritesOnce};

use crate::connection_state::ConnectionState;
use crate::outside::{AppendFailed, Outside, SocketStop};
use matrix_u32::Kernel;
use server_core::ServerCore;
use thiserror::Error;

/// What became of the frame at hand in a turn.
#[derive(Clone, Copy, Debug, PartialEq, Eq)]
pub enum Served {
    /// The frame was served, or none may be.
    Done,
    /// The frame was put off: nothing was served, and its bytes are still there for the next turn.
    PutOff,
}

/// Why a turn ended early.
#[derive(Clone, Copy, Debug, PartialEq, Eq, Error)]
pub enum Fault {
    /// A read failed: the connection is to be closed.
    #[error("a read failed")]
    Read,
    /// A write failed, or a publication could not be appended, and nothing of it is left: the
    /// connection is to be closed.
    #[error("a write failed")]
    Write,
    /// Memory for what came or for a frame was refused: the connection is to be closed.
    #[error("out of memory")]
    Memory,
    /// A publication may be there in part, or without having been made: nothing may be written any
    /// more, on any connection.
    #[error("a version was not saved")]
    Save,
}

impl Fault {
    /// Its name, as programs print it.
    pub fn name(self) -> &'static str {
        match self {
            Fault::Read => "Read",
            Fault::Write | Fault::Save => "Write",
            Fault::Memory => "Memory",
        }
    }
}

/// Reads once at most, if the connection may read.
fn read_once<K: Kernel, O: Outside<K>>(
    state: &mut ConnectionState,
    outside: &mut O,
    buffer: &mut [u8],
) -> Result<(), Fault>
    requires { length buffer.old ≡ 65536 }
    ensures reads { ReadsOnce O.does state.old outside.old result state.new outside.new }
    ensures kept { O.saved outside.new ≡ O.saved outside.old }
{
    if !state.may_read() {
        return Ok(());
    }
    match outside.read(buffer) {
        Ok(0) => {
            state.end();
            Ok(())
        }
        Ok(n) => match state.receive(&buffer[..n]) {
            Ok(()) => Ok(()),
            Err(_) => Err(Fault::Memory),
        },
        Err(SocketStop::Later) => Ok(()),
        Err(SocketStop::Failed) => Err(Fault::Read),
    }
}

/// Serves the frame at hand.
fn serve_frame<K: Kernel>(
    state: &mut ConnectionState,
    core: &mut ServerCore<K>,
    id: u64,
    now: u64,
) -> Result<(), Fault>
    requires may { MayServe state.old }
    requires there { session_of core.old.sessions id ≢ None }
    ensures gives { FrameGives id now state.old core.old result state.new core.new }
    ensures version { PublishesIf (PublishesNext core.old id state.old.unserved)
        core.old.store.version core.new.store.version }
    ensures same { OnErr result (core.new.store.version ≡ core.old.store.version) }
    ensures fault { result ≢ Err Fault.Save }
    ensures others { OthersStay id core.old core.new }
{
    match state.serve_next(core, id, now) {
        Ok(()) => Ok(()),
        Err(_) => Err(Fault::Memory),
    }
}

/// Serves the frame of a publication that was appended, which is taken back if it is not made.
fn serve_appended<K: Kernel, O: Outside<K>>(
    state: &mut ConnectionState,
    core: &mut ServerCore<K>,
    outside: &mut O,
    id: u64,
    now: u64,
) -> Result<(), Fault>
    requires may { MayServe state.old }
    requires appended { O.saved outside.old ≡ core.old.store.version + 1 }
    requires there { session_of core.old.sessions id ≢ None }
    ensures ends { EndsAppended O.does id now state.old core.old outside.old result state.new
        core.new outside.new }
    ensures saved { result ≢ Err Fault.Save → O.saved outside.new ≡ core.new.store.version }
    ensures others { OthersStay id core.old core.new }
{
    let before = core.store().version();
    let served = serve_frame(state, core, id, now);
    if core.store().version() == before && outside.take_back(core.store()).is_err() {
        return Err(Fault::Save);
    }
    served
}

/// Serves one frame at most, if one may be served and it is not put off. If it publishes, the
/// publication is appended before.
fn serve_once<K: Kernel, O: Outside<K>>(
    state: &mut ConnectionState,
    core: &mut ServerCore<K>,
    outside: &mut O,
    id: u64,
    now: u64,
) -> Result<Served, Fault>
    requires saved { O.saved outside.old ≡ core.old.store.version }
    requires there { session_of core.old.sessions id ≢ None }
    ensures serves { ServesOnce O.does id now state.old core.old outside.old result state.new
        core.new
        outside.new }
    ensures saved { result ≢ Err Fault.Save → O.saved outside.new ≡ core.new.store.version }
    ensures others { OthersStay id core.old core.new }
{
    if !state.may_serve() {
        return Ok(Served::Done);
    }
    if !state.prepare_next(core, id) {
        return Ok(Served::PutOff);
    }
    if !state.publishes_next(core, id) {
        return match serve_frame(state, core, id, now) {
            Ok(()) => Ok(Served::Done),
            Err(fault) => Err(fault),
        };
    }
    match outside.append(core.store()) {
        Ok(()) => match serve_appended(state, core, outside, id, now) {
            Ok(()) => Ok(Served::Done),
            Err(fault) => Err(fault),
        },
        Err(AppendFailed::Undone) => Err(Fault::Write),
        Err(AppendFailed::Lost) => Err(Fault::Save),
    }
}

/// Writes once at most, if something is owed.
fn write_once<K: Kernel, O: Outside<K>>(
    state: &mut ConnectionState,
    core: &ServerCore<K>,
    outside: &mut O,
    now: u64,
) -> Result<(), Fault>
    requires { O.saved outside.old ≡ core.now.store.version }
    ensures writes { WritesOnce O.does now state.old outside.old result state.new outside.new }
    ensures kept { O.saved outside.new ≡ O.saved outside.old }
{
    if !state.owes() {
        return Ok(());
    }
    match outside.write(core.store(), state.owed()) {
        Ok(n) => {
            state.wrote(n, now);
            Ok(())
        }
        Err(SocketStop::Later) => Ok(()),
        Err(SocketStop::Failed) => Err(Fault::Write),
    }
}

/// A turn of a connection, whose session has this number, at a moment in milliseconds: one read at
/// most, one frame at most, and one write at most. If the frame publishes, the publication is
/// appended before, and taken back if it is not made then, since memory was refused to it. A frame
/// that may not be served yet is put off: nothing is appended or served, and its connection is to
/// have another turn without waiting for its socket. `buffer` has [`crate::PIECE_LEN`] bytes.
///
/// # Errors
///
/// The connection is to be closed at each of these but `Save`. `Read` exactly when a read failed.
/// `Memory` if memory was refused for what came or for a frame. `Write` exactly when a write
/// failed, or a publication could not be appended and nothing of it is left: then nothing was
/// served, the draft stays, and the version before goes on being served. `Save` exactly when a part
/// of a publication that could not be appended may be left, or one that was not made could not be
/// taken back: no turn may follow, on any connection.
pub fn turn<K: Kernel, O: Outside<K>>(
    state: &mut ConnectionState,
    core: &mut ServerCore<K>,
    outside: &mut O,
    id: u64,
    now: u64,
    buffer: &mut [u8],
) -> Result<Served, Fault>
    requires saved { O.saved outside.old ≡ core.old.store.version }
    requires there { session_of core.old.sessions id ≢ None }
    requires room { length buffer.old ≡ 65536 }
    ensures turn { IsTurn O.does id now state.old core.old outside.old result state.new core.new
        outside.new }
    ensures saved { result ≢ Err Fault.Save → O.saved outside.new ≡ core.new.store.version }
    ensures others { OthersStay id core.old core.new }
{
    match read_once(state, outside, buffer) {
        Ok(()) => {}
        Err(fault) => return Err(fault),
    }
    let served = match serve_once(state, core, outside, id, now) {
        Ok(served) => served,
        Err(fault) => return Err(fault),
    };
    match write_once(state, core, outside, now) {
        Ok(()) => Ok(served),
        Err(fault) => Err(fault),
    }
}
