//! Replies, written after those before.

ghost use Rattle.std.specs.Prelude.{All, ◌≡◌, ◌≤◌, ◌<◌, ◌+◌, ◌*◌, ◌∷◌, ◌++◌, length, vec_len};
ghost use Rattle.std.specs.Prelude.{vec_capacity, OnOk, OnErr, IfOk, IfSome, IfNone, true, false};
ghost use Rattle.frame_codec.specs.Frames.{IsFrame, encoding, payload_size};
ghost use Rattle.frame_codec.specs.declared.frame.Frame.TheVariants.{Answer, Changes, Delta, Done};
ghost use Rattle.frame_codec.specs.declared.frame.Frame.TheVariants.{HintPart, NoDelta, Stale};
ghost use Rattle.frame_codec.specs.declared.frame.Frame.TheVariants.{Welcome};
ghost use Rattle.frame_codec.specs.Refusals.{refused};
ghost use Rattle.pir_schemes.specs.Schemes.{scheme_byte};
ghost use Rattle.pir_schemes.specs.Plans.{profile_of};
ghost use Rattle.pir_schemes.specs.Retrievals.{answer_words};
ghost use Rattle.digit_pack.specs.Layout.{digit_rows};
ghost use Rattle.version_store.specs.Editions.{version_shape};
ghost use Rattle.server_core.specs.Serving.{setting_of, has_part, hint_part, most_entry_bytes};
ghost use Rattle.server_core.specs.Serving.{named_hint_rows, words_asked, words_answered, hint_row};
ghost use Rattle.server_core.specs.Serving.{HasRoom, IsRowBuffers};
ghost use Rattle.version_store.specs.Buffers.{scheme_answered, IsAnswerBuffers};

use frame_codec::{Bytes, Bytes32, Frame, Refusal, Rows, Words, write_frame, write_hint_part};
use matrix_u32::Kernel;
use pir_schemes::{Scheme, answer_count};
use std::alloc::{AllocError, Global};
use version_store::{AnswerBuffers, Store};

/// The room that every reply but HintPart, Delta, Changes and Answer fits into.
pub const SHORT_REPLY: usize = 64;

// How many bytes the entries of changed records may have, so that their frame has a payload that is
// short enough.
const MOST_ENTRIES: usize = 16_777_196;

// How many bytes the frame of an answer has before its words.
const ANSWER_HEAD: usize = 14;

// How many bytes the frame of a delta has before its rows.
const DELTA_HEAD: usize = 27;

/// Adds a short reply for which there is room.
fn put(reply: &Frame, out: &mut Vec<u8>)
    requires short { payload_size reply.now ≤ 59 }
    requires room { vec_len out.old + 64 ≤ vec_capacity out.old }
    ensures items { out.new.items ≡ out.old.items ++ encoding reply.now }
    ensures fits { IsFrame reply.now }
{
    let _ = write_frame(reply, out);
}

/// Adds a refusal.
pub fn put_refused(why: Refusal, out: &mut Vec<u8>)
    requires { vec_len out.old + 64 ≤ vec_capacity out.old }
    ensures items { out.new.items ≡ out.old.items ++ encoding (refused why) }
    ensures fits { IsFrame (refused why) }
{
    put(&Frame::Refused { code: why.code() }, out);
}

/// Adds that it is done.
pub fn put_done(version: u64, out: &mut Vec<u8>)
    requires { vec_len out.old + 64 ≤ vec_capacity out.old }
    ensures items { out.new.items ≡ out.old.items ++ encoding (Done version) }
    ensures fits { IsFrame (Done version) }
{
    put(&Frame::Done { version }, out);
}

/// Adds the current version and its record count.
pub fn put_stale<K: Kernel>(store: &Store<K>, out: &mut Vec<u8>)
    requires { vec_len out.old + 64 ≤ vec_capacity out.old }
    ensures items { out.new.items ≡ out.old.items ++ encoding
        (Stale store.now.version (length store.now.edition.records)) }
    ensures fits { IsFrame (Stale store.now.version (length store.now.edition.records)) }
{
    let reply = Frame::Stale {
        version: store.version(),
        count: store.layout().count() as u32,
    };
    put(&reply, out);
}

/// Adds the sizes, the current version and the public seed.
pub fn put_welcome<K: Kernel>(store: &Store<K>, out: &mut Vec<u8>)
    requires { vec_len out.old + 64 ≤ vec_capacity out.old }
    ensures items { out.new.items ≡ out.old.items ++ encoding
        (Welcome (profile_of store.now.edition.plan)
        store.now.edition.plan.width store.now.edition.plan.record_len store.now.edition.plan.groups
        (length store.now.edition.records) store.now.version store.now.edition.plan.dimension
        store.now.edition.plan.seed) }
    ensures fits { IsFrame (Welcome (profile_of store.now.edition.plan)
        store.now.edition.plan.width store.now.edition.plan.record_len store.now.edition.plan.groups
        (length store.now.edition.records) store.now.version store.now.edition.plan.dimension
        store.now.edition.plan.seed) }
{
    let layout = store.layout();
    let reply = Frame::Welcome {
        profile: u16::from(store.form()),
        width: layout.width() as u8,
        record_len: layout.record_len() as u16,
        groups: layout.groups() as u16,
        count: layout.count() as u32,
        version: store.version(),
        dimension: store.dimension() as u16,
        seed: Bytes32::copied(store.seed()),
    };
    put(&reply, out);
}

/// The words of a part of a scheme's hint.
pub fn part_of_hint<K: Kernel>(store: &Store<K>, scheme: Scheme, part: u32) -> Option<&[u32]>
    ensures none { IfNone result
        (has_part (setting_of store.now) scheme store.now.edition.records part ≡ false) }
    ensures some { IfSome result (λ words.
        has_part (setting_of store.now) scheme store.now.edition.records part ≡ true) }
    ensures words { IfSome result (λ words.
        words.now ≡ hint_part (setting_of store.now) scheme store.now.edition.records part) }
    ensures few { IfSome result (λ words. length words.now ≤ 65536) }
{
    store.hint_words(scheme, part as usize)
}

/// Adds a part of a scheme's hint. Only if its room is missing, and more is refused, comes an
/// `Err`, and then nothing was added. The words are encoded where they stand: no copy of them is
/// made.
pub fn put_part(
    scheme: Scheme,
    version: u64,
    part: u32,
    words: &[u32],
    out: &mut Vec<u8>,
) -> Result<(), AllocError>
    requires { length words.now ≤ 65536 }
    ensures ok { OnOk result (out.new.items ≡ out.old.items ++ encoding
        (HintPart (scheme_byte scheme) version part words.now)) }
    ensures fits { OnOk result (IsFrame (HintPart (scheme_byte scheme) version part words.now)) }
    ensures err { OnErr result (out.new.items ≡ out.old.items) }
    ensures full { OnErr result
        (vec_capacity out.old < vec_len out.old + (18 + 4 * length words.now)) }
    ensures room { vec_capacity out.old ≤ vec_capacity out.new }
{
    write_hint_part(scheme.byte(), version, part, words, out)
}

/// Adds that no rows can be given, with the current version and its record count.
pub fn put_no_delta<K: Kernel>(store: &Store<K>, out: &mut Vec<u8>)
    requires { vec_len out.old + 64 ≤ vec_capacity out.old }
    ensures items { out.new.items ≡ out.old.items ++ encoding
        (NoDelta store.now.version (length store.now.edition.records)) }
    ensures fits { IsFrame (NoDelta store.now.version (length store.now.edition.records)) }
{
    let reply = Frame::NoDelta {
        version: store.version(),
        count: store.layout().count() as u32,
    };
    put(&reply, out);
}

/// How many bytes the entries of changed records may have in a reply: no more than fit into a
/// frame, and an eighth of the hint's.
pub fn most_changes<K: Kernel>(store: &Store<K>) -> usize
    ensures value { result ≡ most_entry_bytes (setting_of store.now) }
    ensures short { result ≤ 16777196 }
{
    let hint = store.layout().rows() * store.dimension();
    (hint / 2).min(MOST_ENTRIES)
}

/// Adds the records that changed since a version, as entries. Only if its room is missing, and
/// more is refused, comes an `Err`, and then nothing was added. The entries are moved into the
/// reply.
pub fn put_changes<K: Kernel>(
    store: &Store<K>,
    since: u64,
    entries: Vec<u8>,
    out: &mut Vec<u8>,
) -> Result<(), AllocError>
    requires { length entries.items ≤ 16777196 }
    ensures ok { OnOk result (out.new.items ≡ out.old.items ++ encoding
        (Changes since store.now.version (length store.now.edition.records) entries.items)) }
    ensures fits { OnOk result (IsFrame
        (Changes since store.now.version (length store.now.edition.records) entries.items)) }
    ensures err { OnErr result (out.new.items ≡ out.old.items) }
    ensures room { vec_capacity out.old ≤ vec_capacity out.new }
{
    let reply = Frame::Changes {
        since,
        now: store.version(),
        count: store.layout().count() as u32,
        entries: Bytes::new(entries),
    };
    write_frame(&reply, out)
}

/// Memory for the words of so many rows of the current SimplePIR hint, each after its number, and
/// room in `out` for their frame. It is not given which rows, so an `Err` depends on none; what
/// `out` holds stays.
pub fn room_for_rows<K: Kernel>(
    alloc: Global,
    store: &Store<K>,
    count: usize,
    out: &mut Vec<u8>,
) -> Result<Vec<u32>, AllocError>
    requires { count ≤ 1024 }
    ensures words { IfOk result (IsRowBuffers count store.now.edition.plan.dimension) }
    ensures space { OnOk result (HasRoom
        (27 + 4 * (count * (store.now.edition.plan.dimension + 1))) out.new) }
    ensures items { out.new.items ≡ out.old.items }
    ensures room { vec_capacity out.old ≤ vec_capacity out.new }
{
    let words = count * (store.dimension() + 1);
    out.reserve(DELTA_HEAD + 4 * words)?;
    Vec::with_capacity(alloc, words)
}

/// Adds rows of the current SimplePIR hint, in the order in which they are named, for which there
/// is room. It takes no memory.
///
/// Each row is copied once, and its bytes are written once.
#[tactic(auto, using(crate::proofs::Deltas::count_of_words))]
pub fn put_delta<K: Kernel>(
    store: &Store<K>,
    since: u64,
    rows: &[u32],
    room: Vec<u32>,
    out: &mut Vec<u8>,
)
    requires few { length rows.now ≤ 1024 }
    requires inside { All (λ r. r < digit_rows (version_shape store.now.edition)) rows.now }
    requires room { IsRowBuffers (length rows.now) store.now.edition.plan.dimension room }
    requires space { HasRoom
        (27 + 4 * (length rows.now * (store.now.edition.plan.dimension + 1))) out.old }
    ensures items { out.new.items ≡ out.old.items ++ encoding
        (Delta since store.now.version (length store.now.edition.records)
        (named_hint_rows (setting_of store.now) store.now.edition.records rows.now)) }
    ensures fits { IsFrame (Delta since store.now.version (length store.now.edition.records)
        (named_hint_rows (setting_of store.now) store.now.edition.records rows.now)) }
{
    let rows = rows_of_hint(store, rows, room);
    let reply = Frame::Delta {
        since,
        now: store.version(),
        count: store.layout().count() as u32,
        rows,
    };
    // There is room for the frame: no refusal is left.
    let _ = write_frame(&reply, out);
}

/// Rows of the current SimplePIR hint, in words that have room for them.
fn rows_of_hint<K: Kernel>(store: &Store<K>, rows: &[u32], mut words: Vec<u32>) -> Rows
    requires few { length rows.now ≤ 1024 }
    requires inside { All (λ r. r < digit_rows (version_shape store.now.edition)) rows.now }
    requires room { IsRowBuffers (length rows.now) store.now.edition.plan.dimension words }
    ensures rows { result ≡
        named_hint_rows (setting_of store.now) store.now.edition.records rows.now }
    ensures few { length result.words ≤ 1049600 }
{
    let dimension = store.dimension();
    for row in rows {
        put_row(store, *row, &mut words);
    }
    Rows::new(dimension as u16, Words::new(words))
}

/// Adds a row of the current SimplePIR hint after its number, for which there is room.
fn put_row<K: Kernel>(store: &Store<K>, row: u32, words: &mut Vec<u32>)
    requires inside { row < digit_rows (version_shape store.now.edition) }
    requires room { vec_len words.old + (store.now.edition.plan.dimension + 1) ≤
        vec_capacity words.old }
    ensures items { words.new.items ≡ words.old.items ++ (row ∷
        (hint_row (setting_of store.now) store.now.edition.records row).words) }
    ensures len { vec_len words.new ≡
        vec_len words.old + (store.now.edition.plan.dimension + 1) }
    ensures capacity { vec_capacity words.old ≤ vec_capacity words.new }
{
    let _ = words.push(row);
    let _ = words.extend_from_slice(store.hint_row(row as usize));
}

/// Memory for the answer to a query of a scheme, and room in `out` for its frame. No word of the
/// query is given, so an `Err` depends on none; what `out` holds stays.
#[tactic(auto, using(crate::proofs::AnswerSizes::few_words))]
pub fn room_for_answer<K: Kernel>(
    store: &Store<K>,
    scheme: Scheme,
    out: &mut Vec<u8>,
) -> Result<AnswerBuffers, AllocError>
    ensures scheme { IfOk result (λ room. scheme_answered room ≡ scheme) }
    ensures sizes { IfOk result (λ room. IsAnswerBuffers (version_shape store.now.edition)
        store.now.edition.plan.dimension room) }
    ensures space { OnOk result (HasRoom
        (14 + 4 * words_answered (setting_of store.now) scheme store.now.edition.records) out.new) }
    ensures items { out.new.items ≡ out.old.items }
    ensures room { vec_capacity out.old ≤ vec_capacity out.new }
{
    room_for_answer_frame(store, scheme, out)?;
    store.answer_buffers(scheme)
}

/// Room in `out` for the frame of the answer to a query of a scheme. What `out` holds stays.
#[tactic(auto, using(crate::proofs::AnswerSizes::few_words))]
pub fn room_for_answer_frame<K: Kernel>(
    store: &Store<K>,
    scheme: Scheme,
    out: &mut Vec<u8>,
) -> Result<(), AllocError>
    ensures space { OnOk result (HasRoom
        (14 + 4 * words_answered (setting_of store.now) scheme store.now.edition.records) out.new) }
    ensures items { out.new.items ≡ out.old.items }
    ensures room { vec_capacity out.old ≤ vec_capacity out.new }
{
    let count = answer_count(scheme, store.layout(), store.dimension());
    out.reserve(ANSWER_HEAD + 4 * count)?;
    Ok(())
}

/// Adds the answer to a query, for which there is room. It takes no memory.
#[tactic(auto, using(crate::proofs::AnswerSizes::size_of_answer, crate::proofs::AnswerSizes::few_words))]
pub fn put_answer<K: Kernel>(
    store: &Store<K>,
    scheme: Scheme,
    room: AnswerBuffers,
    words: &Words,
    out: &mut Vec<u8>,
)
    requires words { length words.now ≡
        words_asked (setting_of store.now) scheme store.now.edition.records }
    requires scheme { scheme_answered room ≡ scheme }
    requires sizes { IsAnswerBuffers (version_shape store.now.edition)
        store.now.edition.plan.dimension room }
    requires space { HasRoom
        (14 + 4 * words_answered (setting_of store.now) scheme store.now.edition.records) out.old }
    ensures items { out.new.items ≡ out.old.items ++ encoding
        (Answer (scheme_byte scheme) store.now.version
        (answer_words scheme store.now.edition.plan store.now.edition.records words.now)) }
    ensures fits { IsFrame (Answer (scheme_byte scheme) store.now.version
        (answer_words scheme store.now.edition.plan store.now.edition.records words.now)) }
{
    let answer = store.answer_in(room, words.as_slice());
    put_made_answer(store, scheme, answer, out);
}

/// Adds an answer that is made, for whose frame there is room. It takes no memory.
///
/// The answer's words are moved into the reply, and their bytes written once.
#[tactic(auto, using(crate::proofs::AnswerSizes::few_words))]
pub fn put_made_answer<K: Kernel>(
    store: &Store<K>,
    scheme: Scheme,
    answer: Vec<u32>,
    out: &mut Vec<u8>,
)
    requires len { length answer.items ≡
        words_answered (setting_of store.now) scheme store.now.edition.records }
    requires space { HasRoom
        (14 + 4 * words_answered (setting_of store.now) scheme store.now.edition.records) out.old }
    ensures items { out.new.items ≡ out.old.items ++ encoding
        (Answer (scheme_byte scheme) store.now.version answer.items) }
    ensures fits { IsFrame (Answer (scheme_byte scheme) store.now.version answer.items) }
{
    // Called for what it says of the sizes: they are within the limits.
    store.layout();
    let reply = Frame::Answer {
        scheme: scheme.byte(),
        version: store.version(),
        words: Words::new(answer),
    };
    // There is room for the frame: no refusal is left.
    let _ = write_frame(&reply, out);
}
