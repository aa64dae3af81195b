//! The stream: pieces in, replies out.

ghost use Rattle.std.specs.Prelude.{◌≡◌, ◌≤◌, ◌<◌, ◌++◌, ◌⊎◌, ℕ, List, [], ◌∷◌, length, take, true};
ghost use Rattle.std.specs.Prelude.{false, IsTrue, ◌↔◌, Option, Some, None, Result, Ok, Err, OnOk};
ghost use Rattle.std.specs.Prelude.{OnErr, IfOk, IfErr, IsSome, unwrap_or};
ghost use Rattle.connection_io.specs.Calls.{Sends};
ghost use Rattle.frame_codec.specs.Frames.{encoding, payload_size, payload_limit};
ghost use Rattle.once_session.specs.Courses.{next, HasTable, FitsWorkReply, replies_to};
ghost use Rattle.once_session.specs.Courses.{stage_after, work_reply_bytes, reply, encodings};
ghost use Rattle.once_session.specs.Outputs.{IsServeFault, IsPrefixOf, IsStreamFault, takes_frames};
ghost use Rattle.once_session.specs.Outputs.{Turns};
ghost use Rattle.once_session.specs.OnceTurns.{SendsBefore, WritesWorkReplies, LacksMemory};
ghost use Rattle.once_session.specs.OnceTurns.{LacksMemoryForFrame};
ghost use Rattle.frame_codec.specs.Streams.{Feeds};
ghost use Rattle.frame_codec.specs.declared.frame.Frame.{Frame};
ghost use Rattle.frame_codec.specs.declared.reader.ReadFault.{ReadFault};
ghost use Rattle.frame_codec.specs.declared.frame.Frame.TheVariants.{Refused};
ghost use Rattle.once_session.specs.Names.{once_fault_name};

use crate::stage::{Stage, StageStep, step_of};
use connection_io::{Connection, send as send_bytes};
use frame_codec::{Frame, ReadFault, Reader, write_frame};
use matrix_u32::Kernel;
use std::alloc::{AllocError, Global};
use thiserror::Error;

/// Why a stream was not served to its end.
#[derive(Clone, Copy, Debug, PartialEq, Eq, Error)]
pub enum OnceFault {
    /// A frame had no place, could not be read, or was cut: its refusal was written.
    #[error("bad input")]
    BadInput,
    /// A read failed.
    #[error("a read failed")]
    Read,
    /// A write failed, or took no byte.
    #[error("a write failed")]
    Write,
    /// Memory was refused.
    #[error("out of memory")]
    Memory,
    /// All turns were used before the stream ended.
    #[error("all turns are used up")]
    TurnsUsedUp,
}

impl OnceFault {
    /// Its name, as programs print it.
    #[tactic(auto, unfolding(crate::specs::Names::once_fault_name))]
    pub fn name(self) -> &'static str
        ensures { result.now ≡ once_fault_name self }
    {
        match self {
            OnceFault::BadInput => "BadInput",
            OnceFault::Read => "Read",
            OnceFault::Write => "Write",
            OnceFault::Memory => "Memory",
            OnceFault::TurnsUsedUp => "TurnsUsedUp",
        }
    }
}

// Writes a reply, made in a buffer of its own.
fn send_frame<C: Connection>(
    alloc: Global,
    reply: &Frame,
    connection: &mut C,
) -> Result<(), OnceFault>
    requires { payload_size reply.now ≤ payload_limit }
    ensures all { OnOk result (Sends C.does connection.old (encoding reply.now) connection.new) }
    ensures prefix { IfErr result (λ e. (n : ℕ)
        × SendsBefore C.does e connection.old (take n (encoding reply.now)) connection.new) }
    ensures fault { IfErr result (λ e. IsServeFault e) }
    ensures memory { IfErr result (λ e. e ≡ OnceFault.Memory → connection.new ≡ connection.old) }
{
    let mut bytes = Vec::new(alloc);
    if write_frame(reply, &mut bytes).is_err() {
        return Err(OnceFault::Memory);
    }
    if send_bytes(connection, &bytes).is_err() {
        return Err(OnceFault::Write);
    }
    Ok(())
}

// Serves a frame: writes its reply, and goes to the next stage.
fn answer_frame<K: Kernel, C: Connection>(
    alloc: Global,
    kernel: K,
    stage: &mut Stage,
    frame: &Frame,
    connection: &mut C,
) -> Result<(), OnceFault>
    requires { HasTable stage.old }
    ensures stage { OnOk result ((stage.new ≡ next stage.old frame.now) × HasTable stage.new) }
    ensures all { OnOk result
        (Sends C.does connection.old (work_reply_bytes (reply stage.old frame.now))
        connection.new) }
    ensures prefix { IfErr result (λ e. (n : ℕ)
        × SendsBefore C.does e connection.old
        (take n (work_reply_bytes (reply stage.old frame.now))) connection.new) }
    ensures fault { IfErr result IsServeFault }
    ensures memory { IfErr result (λ e. e ≡ OnceFault.Memory →
        (connection.new ≡ connection.old) × (stage.new ≡ stage.old)
        × (takes_frames stage.old ≡ true)) }
{
    let Ok(StageStep { reply, moves }) = step_of(alloc, kernel, stage, frame) else {
        return Err(OnceFault::Memory);
    };
    send_reply(alloc, &reply, connection)?;
    move_on(stage, moves);
    Ok(())
}

// Writes a reply, if there is one.
fn send_reply<C: Connection>(
    alloc: Global,
    reply: &Option<Frame>,
    connection: &mut C,
) -> Result<(), OnceFault>
    requires { FitsWorkReply reply.now }
    ensures all { OnOk result
        (Sends C.does connection.old (work_reply_bytes reply.now) connection.new) }
    ensures prefix { IfErr result (λ e. (n : ℕ)
        × SendsBefore C.does e connection.old (take n (work_reply_bytes reply.now))
        connection.new) }
    ensures fault { IfErr result IsServeFault }
    ensures memory { IfErr result (λ e. e ≡ OnceFault.Memory →
        (connection.new ≡ connection.old) × IsSome reply.now) }
{
    match reply {
        Some(frame) => send_frame(alloc, frame, connection),
        None => Ok(()),
    }
}

// Goes to the next stage, if it is another one.
fn move_on(stage: &mut Stage, moves: Option<Stage>)
    ensures { stage.new ≡ unwrap_or moves stage.old }
{
    if let Some(next) = moves {
        *stage = next;
    }
}

// Serves frames in order.
fn answer_frames<K: Kernel, C: Connection>(
    alloc: Global,
    kernel: K,
    stage: &mut Stage,
    frames: &[Frame],
    connection: &mut C,
) -> Result<(), OnceFault>
    requires { HasTable stage.old }
    ensures stage { OnOk result ((stage.new ≡ stage_after stage.old frames.now)
        × HasTable stage.new) }
    ensures all { OnOk result
        (Sends C.does connection.old (encodings (replies_to stage.old frames.now)) connection.new) }
    ensures prefix { IfErr result (λ e. (out : List ℕ)
        × SendsBefore C.does e connection.old out connection.new
        × IsPrefixOf out (encodings (replies_to stage.old frames.now))) }
    ensures fault { IfErr result IsServeFault }
    ensures memory { IfErr result (λ e. e ≡ OnceFault.Memory →
        LacksMemoryForFrame C.does frames.now stage.old connection.old stage.new connection.new) }
{
    for frame in frames {
        if let Err(fault) = answer_frame(alloc, kernel, stage, frame, connection) {
            return Err(fault);
        }
    }
    Ok(())
}

// Whether frames can follow.
pub(crate) fn goes_on(stage: &Stage) -> bool
    ensures { result ≡ takes_frames stage.now }
{
    matches!(stage, Stage::Fresh | Stage::Loaded(_))
}

/// The bytes of a refusal with code 1, made before anything is read, so that a frame that was
/// judged bad can be refused without further memory.
pub(crate) fn refusal_bytes(alloc: Global) -> Result<Vec<u8>, AllocError>
    ensures { IfOk result (λ bytes. bytes.items ≡ encoding (Refused 1)) }
{
    let mut bytes = Vec::new(alloc);
    write_frame(&Frame::Refused { code: 1 }, &mut bytes)?;
    Ok(bytes)
}

// Writes the refusal, by no more memory: a write that failed is the only fault.
pub(crate) fn refuse<C: Connection>(refusal: &[u8], connection: &mut C) -> Result<(), OnceFault>
    ensures all { OnOk result (Sends C.does connection.old refusal.now connection.new) }
    ensures prefix { IfErr result (λ e. (n : ℕ)
        × SendsBefore C.does e connection.old (take n refusal.now) connection.new) }
    ensures fault { IfErr result (λ e. e ≡ OnceFault.Write) }
{
    match send_bytes(connection, refusal) {
        Ok(()) => Ok(()),
        Err(_) => Err(OnceFault::Write),
    }
}

// Ends the work when the stream can't be read on: what is there is refused, or memory was. A frame
// that was judged bad is never returned as `Memory`.
fn stop<C: Connection>(
    refusal: &[u8],
    fault: ReadFault,
    stage: &mut Stage,
    connection: &mut C,
) -> Result<(), OnceFault>
    requires { refusal.now ≡ encoding (Refused 1) }
    ensures refused { OnOk result (IsStreamFault fault × (stage.new ≡ Stage.Bad)) }
    ensures all { OnOk result (Sends C.does connection.old (encoding (Refused 1)) connection.new) }
    ensures prefix { IfErr result (λ e. (n : ℕ)
        × SendsBefore C.does e connection.old (take n (encoding (Refused 1))) connection.new
        × ((n ≡ 0) ⊎ IsStreamFault fault)) }
    ensures fault { IfErr result IsServeFault }
    ensures judged { IfErr result (λ e. IsStreamFault fault → e ≡ OnceFault.Write) }
    ensures memory { IfErr result (λ e. e ≡ OnceFault.Memory → connection.new ≡ connection.old) }
{
    match fault {
        ReadFault::TooLong | ReadFault::UnknownKind | ReadFault::BadPayload => {
            if let Err(broken) = refuse(refusal, connection) {
                return Err(broken);
            }
            *stage = Stage::Bad;
            Ok(())
        }
        ReadFault::Memory | ReadFault::Failed => Err(OnceFault::Memory),
    }
}

// Serves the frames that a piece brought, and then what stopped the reading. `Memory` is returned
// only if memory was refused: for a frame, or to the reading.
fn serve_read<K: Kernel, C: Connection>(
    alloc: Global,
    kernel: K,
    refusal: &[u8],
    frames: &[Frame],
    read: Result<(), ReadFault>,
    stage: &mut Stage,
    connection: &mut C,
) -> Result<(), OnceFault>
    requires refusal { refusal.now ≡ encoding (Refused 1) }
    requires table { HasTable stage.old }
    requires open { takes_frames stage.old ≡ true }
    ensures table { OnOk result (HasTable stage.new) }
    ensures turned { (rest piece : List ℕ) (codec : Option (List ℕ)) →
        Feeds false (Some rest) piece read frames.now codec → (out : List ℕ)
        × WritesWorkReplies C.does result connection.old out connection.new
        × Turns result stage.old (rest ++ piece) stage.new codec out }
    ensures fault { IfErr result IsServeFault }
    ensures memory { IfErr result (λ e. e ≡ OnceFault.Memory →
        LacksMemory C.does read frames.now stage.old connection.old stage.new connection.new) }
{
    if let Err(fault) = answer_frames(alloc, kernel, stage, frames, connection) {
        return Err(fault);
    }
    if !goes_on(stage) {
        return Ok(());
    }
    match read {
        Ok(()) => Ok(()),
        Err(fault) => match stop(refusal, fault, stage, connection) {
            Ok(()) => Ok(()),
            Err(broken) => Err(broken),
        },
    }
}

// Serves what a piece brings.
pub(crate) fn serve_chunk<K: Kernel, C: Connection>(
    alloc: Global,
    kernel: K,
    refusal: &[u8],
    codec: &mut Reader,
    stage: &mut Stage,
    piece: &[u8],
    connection: &mut C,
) -> Result<(), OnceFault>
    requires refusal { refusal.now ≡ encoding (Refused 1) }
    requires table { HasTable stage.old }
    requires open { takes_frames stage.old ≡ true }
    ensures table { OnOk result (HasTable stage.new) }
    ensures turned { (rest : List ℕ) → codec.old ≡ Some rest → (out : List ℕ)
        × WritesWorkReplies C.does result connection.old out connection.new
        × Turns result stage.old (rest ++ piece.now) stage.new codec.new out }
    ensures fault { IfErr result IsServeFault }
    ensures memory { IfErr result (λ e. e ≡ OnceFault.Memory →
        (read : Result (Unit {0}) ReadFault) × (frames : List Frame)
        × Feeds false codec.old piece.now read frames codec.new
        × LacksMemory C.does read frames stage.old connection.old stage.new connection.new) }
{
    let mut frames = Vec::new(alloc);
    let read = codec.feed(false, piece, &mut frames);
    match serve_read(alloc, kernel, refusal, &frames, read, stage, connection) {
        Ok(()) => Ok(()),
        Err(fault) => Err(fault),
    }
}
