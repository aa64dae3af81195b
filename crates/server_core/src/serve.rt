//! Frames, served one after another.

ghost use Rattle.std.specs.Prelude.{◌≡◌, ◌≤◌, ◌+◌, ◌++◌, length, vec_len, vec_capacity, OnOk};
ghost use Rattle.std.specs.Prelude.{OnErr, IfOk};
ghost use Rattle.frame_codec.specs.Frames.{IsFrame, encoding};
ghost use Rattle.frame_codec.specs.declared.frame.Frame.TheVariants.{Answer, Append, ChangesAsk};
ghost use Rattle.frame_codec.specs.declared.frame.Frame.TheVariants.{DeltaAsk, Edit, Hello};
ghost use Rattle.frame_codec.specs.declared.frame.Frame.TheVariants.{HintAsk, Publish, Query};
ghost use Rattle.frame_codec.specs.Refusals.{refused};
ghost use Rattle.pir_schemes.specs.Schemes.{scheme_byte};
ghost use Rattle.pir_schemes.specs.Retrievals.{answer_words};
ghost use Rattle.version_store.specs.Histories.{History, StandsFor};
ghost use Rattle.server_core.specs.Serving.{setting_of, is_wide_setting, is_publisher_key};
ghost use Rattle.server_core.specs.Serving.{is_reader_key, after_frame, words_asked, HasRoom};
ghost use Rattle.server_core.specs.Serving.{HasAfterFrame, Serves, ServedAll, BrokenOff, IsFull};
ghost use Rattle.server_core.specs.Serving.{MayPublish, PublishesIf};

use crate::replies::{
    SHORT_REPLY, most_changes, part_of_hint, put_answer, put_changes, put_delta, put_done,
    put_made_answer, put_no_delta, put_part, put_refused, put_stale, put_welcome, room_for_answer,
    room_for_answer_frame, room_for_rows,
};
use crate::standing::Standing;
use digit_pack::is_wide;
use frame_codec::{Bytes, Bytes32, Frame, Refusal, Words};
use matrix_u32::Kernel;
use pir_schemes::{DELTA_ROWS, Scheme};
use sha2::{Digest, Sha256};
use std::alloc::{AllocError, Global};
use version_store::{AppendError, EditError, PublishError, Store};

/// Whether a key is a reader's.
fn is_reader_key(key: &[u8]) -> bool
    ensures { result ≡ is_reader_key key.now }
{
    key == [0; 32].as_slice()
}

/// Whether a key is the publisher's.
fn is_publisher_key<K: Kernel>(store: &Store<K>, key: &[u8]) -> bool
    ensures { result ≡ is_publisher_key (setting_of store.now) key.now }
{
    Sha256::digest(key) == *store.publisher()
}

/// Greets, and returns the standing after it.
fn serve_hello<K: Kernel>(
    store: &Store<K>,
    standing: Standing,
    profile: u16,
    key: &Bytes32,
    out: &mut Vec<u8>,
) -> Standing
    requires { vec_len out.old + 64 ≤ vec_capacity out.old }
    ensures { (h : History) → StandsFor store.now h →
        Serves (setting_of store.now) h standing
        (Hello profile key.now) store.now result out.old.items out.new.items }
{
    if !store.plan().accepts_profile(profile) {
        put_refused(Refusal::BadProfile, out);
        return standing;
    }
    if is_reader_key(key.as_slice()) {
        put_welcome(store, out);
        return Standing::Reader;
    }
    if is_publisher_key(store, key.as_slice()) {
        put_welcome(store, out);
        return Standing::Publisher;
    }
    put_refused(Refusal::BadKey, out);
    standing
}

/// Gives a part of the hint. If there is room for the longest part, no memory is asked for, and
/// none is said to be refused.
fn serve_hint_ask<K: Kernel>(
    store: &Store<K>,
    standing: Standing,
    scheme: u8,
    version: u64,
    part: u32,
    out: &mut Vec<u8>,
)
    requires { vec_len out.old + 64 ≤ vec_capacity out.old }
    ensures served { (h : History) → StandsFor store.now h →
        Serves (setting_of store.now) h standing
        (HintAsk scheme version part) store.now standing out.old.items out.new.items }
    ensures never_refused_with_room { HasRoom 262162 out.old → (h : History) →
        StandsFor store.now h → HasAfterFrame (setting_of store.now)
        (after_frame (setting_of store.now) h standing (HintAsk scheme version part))
        store.now standing out.old.items out.new.items }
{
    if !standing.is_welcome() {
        return put_refused(Refusal::NotWelcome, out);
    }
    let Some(scheme) = Scheme::of_byte(scheme) else {
        return put_refused(Refusal::BadScheme, out);
    };
    if version != store.version() {
        return put_stale(store, out);
    }
    match part_of_hint(store, scheme, part) {
        None => put_refused(Refusal::BadPart, out),
        Some(words) => {
            if put_part(scheme, version, part, words, out).is_err() {
                put_refused(Refusal::Memory, out);
            }
        }
    }
}

/// Gives the rows of the SimplePIR hint that have changed since a version.
#[tactic(auto, using(crate::proofs::Granted::delta_granted))]
fn serve_delta_ask<K: Kernel>(
    alloc: Global,
    store: &Store<K>,
    standing: Standing,
    since: u64,
    out: &mut Vec<u8>,
)
    requires { vec_len out.old + 64 ≤ vec_capacity out.old }
    ensures { (h : History) → StandsFor store.now h →
        Serves (setting_of store.now) h standing
        (DeltaAsk since) store.now standing out.old.items out.new.items }
{
    if !standing.is_welcome() {
        return put_refused(Refusal::NotWelcome, out);
    }
    let Ok(found) = store.delta_since(since) else {
        return put_refused(Refusal::Memory, out);
    };
    let Some(rows) = found else {
        return put_no_delta(store, out);
    };
    if rows.len() > DELTA_ROWS {
        return put_no_delta(store, out);
    }
    let Ok(room) = room_for_rows(alloc, store, rows.len(), out) else {
        return put_refused(Refusal::Memory, out);
    };
    put_delta(store, since, &rows, room, out);
}

/// Whether the streams of a store's sessions have the frames of a wide store.
pub fn has_wide_frames<K: Kernel>(store: &Store<K>) -> bool
    ensures { result ≡ is_wide_setting (setting_of store.now) }
{
    is_wide(store.plan().form)
}

/// Gives the records that have changed since a version, if the store is wide; no other stream
/// has this frame. Returns the standing after it.
#[tactic(auto, using(crate::proofs::Granted::changes_granted))]
fn serve_changes_ask<K: Kernel>(
    store: &Store<K>,
    standing: Standing,
    since: u64,
    out: &mut Vec<u8>,
) -> Standing
    requires { vec_len out.old + 64 ≤ vec_capacity out.old }
    ensures { (h : History) → StandsFor store.now h →
        Serves (setting_of store.now) h standing
        (ChangesAsk since) store.now result out.old.items out.new.items }
{
    if !has_wide_frames(store) {
        return serve_bad_frame(out);
    }
    if !standing.is_welcome() {
        put_refused(Refusal::NotWelcome, out);
        return standing;
    }
    let Ok(found) = store.changes_since(since, most_changes(store)) else {
        put_refused(Refusal::Memory, out);
        return standing;
    };
    let Some(entries) = found else {
        put_no_delta(store, out);
        return standing;
    };
    if put_changes(store, since, entries, out).is_err() {
        put_refused(Refusal::Memory, out);
    }
    standing
}

/// Answers a query.
fn serve_query<K: Kernel>(
    store: &mut Store<K>,
    standing: Standing,
    scheme: u8,
    version: u64,
    words: &Words,
    out: &mut Vec<u8>,
)
    requires { vec_len out.old + 64 ≤ vec_capacity out.old }
    ensures served { (h : History) → StandsFor store.old h →
        Serves (setting_of store.old) h standing
        (Query scheme version words.now) store.new standing out.old.items out.new.items }
    ensures same { store.new ≡ store.old }
{
    if !standing.is_welcome() {
        put_refused(Refusal::NotWelcome, out);
        return;
    }
    let Some(scheme) = Scheme::of_byte(scheme) else {
        put_refused(Refusal::BadScheme, out);
        return;
    };
    if version != store.version() {
        put_stale(store, out);
        return;
    }
    if words.as_slice().len() != store.query_words(scheme) {
        put_refused(Refusal::BadQueryLength, out);
        return;
    }
    if answer_query(store, scheme, words, out).is_err() {
        put_refused(Refusal::Memory, out);
    }
}

/// Adds the answer to a query of as many words as one has: the one that was made in steps, if it is
/// this query's, else it is made here. Only refused memory gives an `Err`, and then nothing was
/// added.
#[tactic(auto, using(crate::proofs::AnswerSizes::size_of_answer))]
fn answer_query<K: Kernel>(
    store: &mut Store<K>,
    scheme: Scheme,
    words: &Words,
    out: &mut Vec<u8>,
) -> Result<(), AllocError>
    requires { length words.now ≡
        words_asked (setting_of store.old) scheme store.old.edition.records }
    ensures same { store.new ≡ store.old }
    ensures ok { OnOk result (out.new.items ≡ out.old.items ++ encoding
        (Answer (scheme_byte scheme) store.old.version
        (answer_words scheme store.old.edition.plan store.old.edition.records words.now))) }
    ensures fits { OnOk result (IsFrame (Answer (scheme_byte scheme) store.old.version
        (answer_words scheme store.old.edition.plan store.old.edition.records words.now))) }
    ensures err { OnErr result (out.new.items ≡ out.old.items) }
    ensures room { OnErr result (vec_capacity out.old ≤ vec_capacity out.new) }
{
    if let Some(answer) = store.take_answer(scheme, words.as_slice()) {
        room_for_answer_frame(store, scheme, out)?;
        put_made_answer(store, scheme, answer, out);
        return Ok(());
    }
    let room = room_for_answer(store, scheme, out)?;
    put_answer(store, scheme, room, words, out);
    Ok(())
}

/// Edits a record of the draft.
fn serve_edit<K: Kernel>(
    store: &mut Store<K>,
    standing: Standing,
    index: u32,
    bytes: &Bytes,
    out: &mut Vec<u8>,
)
    requires { vec_len out.old + 64 ≤ vec_capacity out.old }
    ensures served { (h : History) → StandsFor store.old h →
        Serves (setting_of store.old) h standing
        (Edit index bytes.now) store.new standing out.old.items out.new.items }
    ensures version { store.new.version ≡ store.old.version }
{
    if !standing.is_welcome() {
        put_refused(Refusal::NotWelcome, out);
        return;
    }
    if !standing.is_publisher() {
        put_refused(Refusal::NotPublisher, out);
        return;
    }
    match store.edit(index as usize, bytes.as_slice()) {
        Ok(()) => put_done(store.version(), out),
        Err(EditError::BadIndex) => put_refused(Refusal::BadIndex, out),
        Err(EditError::BadLength) => put_refused(Refusal::BadLength, out),
        Err(EditError::Memory) => put_refused(Refusal::Memory, out),
    }
}

/// Appends a record to the draft.
fn serve_append<K: Kernel>(
    store: &mut Store<K>,
    standing: Standing,
    bytes: &Bytes,
    out: &mut Vec<u8>,
)
    requires { vec_len out.old + 64 ≤ vec_capacity out.old }
    ensures served { (h : History) → StandsFor store.old h →
        Serves (setting_of store.old) h standing
        (Append bytes.now) store.new standing out.old.items out.new.items }
    ensures version { store.new.version ≡ store.old.version }
{
    if !standing.is_welcome() {
        put_refused(Refusal::NotWelcome, out);
        return;
    }
    if !standing.is_publisher() {
        put_refused(Refusal::NotPublisher, out);
        return;
    }
    match store.append(bytes.as_slice()) {
        Ok(()) => put_done(store.version(), out),
        Err(AppendError::BadLength) => put_refused(Refusal::BadLength, out),
        Err(AppendError::Full) => put_refused(Refusal::Full, out),
        Err(AppendError::Memory) => put_refused(Refusal::Memory, out),
    }
}

/// Publishes the draft.
fn serve_publish<K: Kernel>(store: &mut Store<K>, standing: Standing, out: &mut Vec<u8>)
    requires { vec_len out.old + 64 ≤ vec_capacity out.old }
    ensures served { (h : History) → StandsFor store.old h →
        Serves (setting_of store.old) h standing Publish store.new standing out.old.items
        out.new.items }
    ensures version { PublishesIf (MayPublish standing store.old) store.old.version
        store.new.version }
{
    if !standing.is_welcome() {
        put_refused(Refusal::NotWelcome, out);
        return;
    }
    if !standing.is_publisher() {
        put_refused(Refusal::NotPublisher, out);
        return;
    }
    match store.publish() {
        Ok(version) => put_done(version, out),
        Err(PublishError::NothingToPublish) => put_refused(Refusal::NothingToPublish, out),
        Err(PublishError::VersionsUsedUp) => put_refused(Refusal::VersionsUsedUp, out),
        Err(PublishError::Memory) => put_refused(Refusal::Memory, out),
    }
}

/// Refuses a frame that no client sends, and closes the session.
fn serve_bad_frame(out: &mut Vec<u8>) -> Standing
    requires { vec_len out.old + 64 ≤ vec_capacity out.old }
    ensures standing { result ≡ Standing.Closed }
    ensures items { out.new.items ≡ out.old.items ++ encoding (refused Refusal.BadFrame) }
    ensures fits { IsFrame (refused Refusal.BadFrame) }
{
    put_refused(Refusal::BadFrame, out);
    Standing::Closed
}

/// Serves a frame for whose reply there is room, and returns the standing after it.
fn serve_with_room<K: Kernel>(
    alloc: Global,
    store: &mut Store<K>,
    standing: Standing,
    frame: &Frame,
    out: &mut Vec<u8>,
) -> Standing
    requires { vec_len out.old + 64 ≤ vec_capacity out.old }
    ensures served { (h : History) → StandsFor store.old h →
        Serves (setting_of store.old) h standing frame.now store.new result out.old.items
        out.new.items }
    ensures version { PublishesIf ((frame.now ≡ Publish) × MayPublish standing store.old)
        store.old.version store.new.version }
{
    match frame {
        Frame::Hello { profile, key } => serve_hello(store, standing, *profile, key, out),
        Frame::HintAsk {
            scheme,
            version,
            part,
        } => {
            serve_hint_ask(store, standing, *scheme, *version, *part, out);
            standing
        }
        Frame::DeltaAsk { since } => {
            serve_delta_ask(alloc, store, standing, *since, out);
            standing
        }
        Frame::ChangesAsk { since } => serve_changes_ask(store, standing, *since, out),
        Frame::Query {
            scheme,
            version,
            words,
        } => {
            serve_query(store, standing, *scheme, *version, words, out);
            standing
        }
        Frame::Edit { index, bytes } => {
            serve_edit(store, standing, *index, bytes, out);
            standing
        }
        Frame::Append { bytes } => {
            serve_append(store, standing, bytes, out);
            standing
        }
        Frame::Publish => {
            serve_publish(store, standing, out);
            standing
        }
        Frame::Bye => Standing::Closed,
        _ => serve_bad_frame(out),
    }
}

/// Serves a frame, and returns the standing after it. An `Err` comes only from the 64 bytes for the
/// reply, and then the frame isn't served.
pub fn serve_frame<K: Kernel>(
    alloc: Global,
    store: &mut Store<K>,
    standing: Standing,
    frame: &Frame,
    out: &mut Vec<u8>,
) -> Result<Standing, AllocError>
    ensures ok { IfOk result (λ after. (h : History) → StandsFor store.old h →
        Serves (setting_of store.old) h standing frame.now store.new after out.old.items
        out.new.items) }
    ensures err { OnErr result ((store.new ≡ store.old) × (out.new.items ≡ out.old.items)) }
    ensures full { OnErr result (IsFull out.new) }
    ensures version { PublishesIf ((frame.now ≡ Publish) × MayPublish standing store.old)
        store.old.version store.new.version }
{
    out.reserve(SHORT_REPLY)?;
    Ok(serve_with_room(alloc, store, standing, frame, out))
}

/// Serves frames until the session is closed, and returns the standing after them. At an `Err`
/// memory was refused before a frame, which isn't served.
pub fn serve_frames<K: Kernel>(
    alloc: Global,
    store: &mut Store<K>,
    mut standing: Standing,
    frames: &[Frame],
    out: &mut Vec<u8>,
) -> Result<Standing, AllocError>
    ensures ok { IfOk result (λ after. (h : History) → StandsFor store.old h →
        ServedAll (setting_of store.old) h standing frames.now store.new after out.old.items
        out.new.items) }
    ensures err { OnErr result ((h : History) → StandsFor store.old h →
        BrokenOff (setting_of store.old) h standing frames.now store.new out.old.items
        out.new.items) }
    ensures full { OnErr result (IsFull out.new) }
{
    for frame in frames {
        if !standing.is_closed() {
            standing = serve_frame(alloc, store, standing, frame, out)?;
        }
    }
    Ok(standing)
}
