//! What a call asks of the client, and the bytes that it sends.

ghost use Rattle.std.specs.Prelude.{◌≡◌, ◌≤◌, ◌<◌, ◌+◌, ◌^◌, None, Some, IfOk, IfErr, MatchResult};
ghost use Rattle.std.specs.Prelude.{length, [], ◌*◌, vec_capacity};
ghost use Rattle.digit_pack.specs.Layout.{is_wide};
ghost use Rattle.frame_codec.specs.Frames.{IsFrame, payload_size, payload_limit, encoding};
ghost use Rattle.pir_schemes.specs.Schemes.{scheme_byte};
ghost use Rattle.pir_schemes.specs.Retrievals.{query_words};
ghost use Rattle.client_core.specs.declared.state.ClientState.{ClientState};
ghost use Rattle.client_core.specs.States.{IsKnown, shape_known, is_ready, is_idle, known_count};
ghost use Rattle.client_core.specs.States.{scheme_held, delta_base, known_version};
ghost use Rattle.client_core.specs.Buffers.{IsAskBuffers};
ghost use Rattle.client_core.specs.Calls.{ClientCall, call_refusal, hello_refusal, change_refusal};
ghost use Rattle.client_core.specs.Calls.{call_since, sync_begun};
ghost use Rattle.client_core.specs.Calls.{frame_since, sync_frame};

use crate::parts::Parts;
use crate::state::{Call, CallFault, ClientState, Hint, ServerInfo};
use digit_pack::is_wide;
use frame_codec::{Bytes, Bytes32, Frame, Words, write_frame};
use matrix_u32::Kernel;
use pir_schemes::{QueryBuffers, QueryMasks, Scheme, SecretSeed, query_count};
use std::alloc::Global;

/// The number after the last retrieval of a seed.
pub(crate) const NUMBERS_END: u64 = 1 << 62;

// How many bytes the frame of a query has before its words.
const QUERY_HEAD: usize = 14;

fn is_no_call(call: &Call) -> bool
    ensures { result ≡ is_idle call.now }
{
    match call {
        Call::Idle => true,
        _ => false,
    }
}

fn has_hint(known: &Option<ServerInfo>, hint: &Option<Hint>) -> bool
    ensures { result ≡ is_ready known.now hint.now }
{
    match known {
        None => false,
        Some(known) => match hint {
            None => false,
            Some(hint) => hint.version == known.version,
        },
    }
}

/// The checks of `hello`, in their order.
pub(crate) fn may_hello(state: &ClientState) -> Result<(), CallFault>
    ensures { MatchResult result (λ _. hello_refusal state.now ≡ None)
        (λ e. hello_refusal state.now ≡ Some e) }
{
    if state.failed {
        return Err(CallFault::Failed);
    }
    if state.known.is_some() {
        return Err(CallFault::AlreadyWelcome);
    }
    if !is_no_call(&state.call) {
        return Err(CallFault::Busy);
    }
    Ok(())
}

/// The checks of `sync`, `edit`, `append` and `publish`, in their order. Returns what is known.
pub(crate) fn may_change(state: &ClientState) -> Result<ServerInfo, CallFault>
    ensures { MatchResult result (λ k. (change_refusal state.now ≡ None) ×
        (state.now.known ≡ Some k)) (λ e. change_refusal state.now ≡ Some e) }
{
    if state.failed {
        return Err(CallFault::Failed);
    }
    let Some(known) = state.known else {
        return Err(CallFault::NotReady);
    };
    if !is_no_call(&state.call) {
        return Err(CallFault::Busy);
    }
    Ok(known)
}

/// The checks of `ask`, in their order. Returns what is known.
pub(crate) fn may_ask(state: &ClientState, index: u32) -> Result<ServerInfo, CallFault>
    ensures { MatchResult result (λ k. (call_refusal (ClientCall.Ask index) state.now ≡ None) ×
        (state.now.known ≡ Some k) × (index < k.count) × (state.now.number < 2 ^ 62))
        (λ e. call_refusal (ClientCall.Ask index) state.now ≡ Some e) }
{
    if state.failed {
        return Err(CallFault::Failed);
    }
    if !has_hint(&state.known, &state.hint) {
        return Err(CallFault::NotReady);
    }
    if !is_no_call(&state.call) {
        return Err(CallFault::Busy);
    }
    let Some(known) = state.known else {
        return Err(CallFault::NotReady);
    };
    if index >= known.count {
        return Err(CallFault::BadIndex);
    }
    if state.number >= NUMBERS_END {
        return Err(CallFault::SeedUsedUp);
    }
    Ok(known)
}

/// Spends the next number, and gives it.
pub(crate) fn spend_number(state: &mut ClientState) -> u64
    requires { state.old.number < 2 ^ 62 }
    ensures number { result ≡ state.old.number }
    ensures state { state.new ≡ record state.old { number = state.old.number + 1 } }
{
    let number = state.number;
    state.number = number + 1;
    number
}

/// The scheme of the hint held; SimplePIR if there is none.
pub(crate) fn scheme_of(hint: &Option<Hint>) -> Scheme
    ensures { result ≡ scheme_held hint.now }
{
    match hint {
        None => Scheme::Simple,
        Some(hint) => hint.scheme,
    }
}

/// The version since which a sync of a scheme asks for what changed: that of the hint held, if both
/// are SimplePIR's.
pub(crate) fn base_of(scheme: Scheme, hint: &Option<Hint>) -> Option<u64>
    ensures { result ≡ delta_base scheme hint.now }
{
    match (scheme, hint) {
        (Scheme::Simple, Some(hint)) => match hint.scheme {
            Scheme::Simple => Some(hint.version),
            Scheme::Double => None,
        },
        _ => None,
    }
}

// The call that asks for what changed since a version: for records in a wide store, for rows of
// the hint in an ordinary one.
fn call_since(wide: bool, since: u64) -> Call
    ensures { result ≡ call_since wide since }
{
    if wide {
        Call::Changes { since }
    } else {
        Call::Delta { since }
    }
}

// The frame of that call.
fn frame_since(wide: bool, since: u64) -> Frame
    ensures frame { result ≡ frame_since wide since }
    ensures size { payload_size result ≤ payload_limit }
{
    if wide {
        Frame::ChangesAsk { since }
    } else {
        Frame::DeltaAsk { since }
    }
}

/// The bytes of a frame.
pub(crate) fn encoded(alloc: Global, frame: &Frame) -> Result<Vec<u8>, CallFault>
    requires { payload_size frame.now ≤ payload_limit }
    ensures bytes { IfOk result (λ v. v.items ≡ encoding frame.now) }
    ensures frame { IfOk result (λ _. IsFrame frame.now) }
    ensures memory { IfErr result (λ e. e ≡ CallFault.Memory) }
{
    let mut bytes = Vec::new(alloc);
    match write_frame(frame, &mut bytes) {
        Ok(()) => Ok(bytes),
        Err(_) => Err(CallFault::Memory),
    }
}

/// The bytes of a greeting.
pub(crate) fn hello_bytes(alloc: Global, profile: u16, key: &[u8; 32]) -> Result<Vec<u8>, CallFault>
    ensures bytes { IfOk result (λ v. v.items ≡ encoding (Frame.Hello profile key.now)) }
    ensures frame { IfOk result (λ _. IsFrame (Frame.Hello profile key.now)) }
    ensures memory { IfErr result (λ e. e ≡ CallFault.Memory) }
{
    let frame = Frame::Hello {
        profile,
        key: Bytes32::copied(key),
    };
    encoded(alloc, &frame)
}

// The first frame of a sync: by what changed since a version, or by the parts of this one.
fn sync_frame(wide: bool, scheme: Scheme, since: Option<u64>, version: u64) -> Frame
    ensures frame { (c : ClientState) → is_wide c.profile ≡ wide → known_version c.known ≡ version →
        result ≡ sync_frame since scheme c }
    ensures size { payload_size result ≤ payload_limit }
{
    match since {
        Some(since) => frame_since(wide, since),
        None => Frame::HintAsk {
            scheme: scheme.byte(),
            version,
            part: 0,
        },
    }
}

/// The bytes that begin a sync, which changes nothing until there are such.
pub(crate) fn sync_bytes(
    alloc: Global,
    state: &ClientState,
    scheme: Scheme,
    since: Option<u64>,
    version: u64,
) -> Result<Vec<u8>, CallFault>
    requires { known_version state.now.known ≡ version }
    ensures bytes { IfOk result (λ v. v.items ≡ encoding (sync_frame since scheme state.now)) }
    ensures frame { IfOk result (λ _. IsFrame (sync_frame since scheme state.now)) }
    ensures memory { IfErr result (λ e. e ≡ CallFault.Memory) }
{
    let frame = sync_frame(is_wide(state.profile), scheme, since, version);
    encoded(alloc, &frame)
}

// Drops the hint held and the parts that came.
fn drop_words(alloc: Global, state: &mut ClientState)
    ensures { state.new ≡ record state.old { hint = None; parts = [] } }
{
    state.hint = None;
    state.parts = Parts::none(alloc);
}

/// Begins a sync, which nothing can refuse any more.
pub(crate) fn begin_sync(
    alloc: Global,
    state: &mut ClientState,
    scheme: Scheme,
    since: Option<u64>,
    version: u64,
)
    requires { known_version state.old.known ≡ version }
    ensures { state.new ≡ sync_begun since scheme state.old }
{
    if let Some(since) = since {
        state.call = call_since(is_wide(state.profile), since);
    } else {
        drop_words(alloc, state);
        state.call = Call::Sync {
            scheme,
            version,
            part: 0,
        };
    }
}

/// The bytes of the edit of a record.
pub(crate) fn edit_bytes(alloc: Global, index: u32, bytes: &[u8]) -> Result<Vec<u8>, CallFault>
    requires { length bytes.now ≤ 65535 }
    ensures bytes { IfOk result (λ v. v.items ≡ encoding (Frame.Edit index bytes.now)) }
    ensures frame { IfOk result (λ _. IsFrame (Frame.Edit index bytes.now)) }
    ensures memory { IfErr result (λ e. e ≡ CallFault.Memory) }
{
    let Ok(copy) = bytes.to_vec(alloc) else {
        return Err(CallFault::Memory);
    };
    let frame = Frame::Edit {
        index,
        bytes: Bytes::new(copy),
    };
    encoded(alloc, &frame)
}

/// The bytes of a further record.
pub(crate) fn append_bytes(alloc: Global, bytes: &[u8]) -> Result<Vec<u8>, CallFault>
    requires { length bytes.now ≤ 65535 }
    ensures bytes { IfOk result (λ v. v.items ≡ encoding (Frame.Append bytes.now)) }
    ensures frame { IfOk result (λ _. IsFrame (Frame.Append bytes.now)) }
    ensures memory { IfErr result (λ e. e ≡ CallFault.Memory) }
{
    let Ok(copy) = bytes.to_vec(alloc) else {
        return Err(CallFault::Memory);
    };
    let frame = Frame::Append {
        bytes: Bytes::new(copy),
    };
    encoded(alloc, &frame)
}

/// The memory of a query: that of its words, and room for the bytes of its frame.
#[derive(Drop)]
pub(crate) struct AskBuffers {
    words: QueryBuffers,
    bytes: Vec<u8>,
}

/// Memory for a query of a scheme on the last version known. No index, number or secret seed is
/// given, so a refusal depends on none of them.
pub(crate) fn ask_buffers(
    alloc: Global,
    scheme: Scheme,
    known: &ServerInfo,
) -> Result<AskBuffers, CallFault>
    requires { IsKnown known.now }
    ensures room { IfOk result (IsAskBuffers scheme known.now) }
    ensures memory { IfErr result (λ e. e ≡ CallFault.Memory) }
{
    let Ok(words) = QueryBuffers::new(alloc, scheme, &known.plan, known.count as usize) else {
        return Err(CallFault::Memory);
    };
    let count = query_count(scheme, &known.layout());
    let Ok(bytes) = Vec::with_capacity(alloc, QUERY_HEAD + 4 * count) else {
        return Err(CallFault::Memory);
    };
    Ok(AskBuffers { words, bytes })
}

/// A retrieval: the record and the version asked for, and its number under the seed.
#[derive(Clone, Copy)]
pub(crate) struct AskedRecord {
    pub(crate) index: u32,
    pub(crate) version: u64,
    pub(crate) number: u64,
}

/// The bytes of the query of a retrieval. It takes no memory.
///
/// Masks that have that of the retrieval spare the public matrix.
#[tactic(auto, using(crate::proofs::Queries::length_of_query, crate::proofs::Queries::size_of_query))]
pub(crate) fn query_bytes<K: Kernel>(
    kernel: K,
    room: AskBuffers,
    masks: &Option<QueryMasks>,
    scheme: Scheme,
    known: &ServerInfo,
    seed: &[u8; 32],
    asked: AskedRecord,
) -> Vec<u8>
    requires room { IsAskBuffers scheme known.now room }
    requires known { IsKnown known.now }
    requires number { asked.number < 2 ^ 62 }
    requires record { asked.index < known.now.count }
    ensures bytes { result.items ≡ encoding (Frame.Query (scheme_byte scheme) asked.version
        (query_words scheme (shape_known known.now) known.now.plan.dimension known.now.plan.seed
        seed.now asked.number asked.index)) }
    ensures frame { IsFrame (Frame.Query (scheme_byte scheme) asked.version
        (query_words scheme (shape_known known.now) known.now.plan.dimension known.now.plan.seed
        seed.now asked.number asked.index)) }
{
    let AskBuffers { words, mut bytes } = room;
    let seed = SecretSeed::new(*seed);
    let words = words.fill_masked(kernel, masks, &seed, asked.number, asked.index as usize);
    write_query(&mut bytes, scheme, asked.version, words);
    bytes
}

// Writes the frame of a query into memory that has room for it.
fn write_query(bytes: &mut Vec<u8>, scheme: Scheme, version: u64, words: Vec<u32>)
    requires empty { bytes.old.items ≡ [] }
    requires room { 14 + 4 * length words.items ≤ vec_capacity bytes.old }
    requires size { 9 + 4 * length words.items ≤ payload_limit }
    ensures bytes { bytes.new.items ≡
        encoding (Frame.Query (scheme_byte scheme) version words.items) }
    ensures frame { IsFrame (Frame.Query (scheme_byte scheme) version words.items) }
{
    let frame = Frame::Query {
        scheme: scheme.byte(),
        version,
        words: Words::new(words),
    };
    // There is room for the frame: no refusal is left.
    let _ = write_frame(&frame, bytes);
}
