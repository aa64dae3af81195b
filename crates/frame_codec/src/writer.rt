//! The encoding of a frame.

ghost use Rattle.std.specs.Prelude.{◌≡◌, ◌≤◌, ◌<◌, ◌+◌, ◌*◌, ◌^◌, [], ◌∷◌, ◌++◌, All, length};
ghost use Rattle.std.specs.Prelude.{vec_len, vec_capacity, IsOk, OnOk, OnErr};
ghost use Rattle.frame_codec.specs.Frames.{HasFields, IsFrame, encoding, payload_of, payload_size};
ghost use Rattle.frame_codec.specs.Frames.{kind_of, payload_limit};
ghost use Rattle.frame_codec.specs.Numbers.{number_bytes, word_bytes};
ghost use Rattle.frame_codec.specs.declared.frame.Frame.TheVariants.{Changes, Delta, HintPart};
ghost use Rattle.frame_codec.specs.declared.frame.Frame.TheVariants.{Load};

use crate::frame::{Bytes, Frame, Rows, Words};
use crate::word_bytes::{put, put_u16, put_u32, put_u64, put_words};
use std::alloc::AllocError;

// The kind of a part of a hint.
const HINT_PART: u8 = 0x83;

fn kind_number(frame: &Frame) -> u8
    ensures { result ≡ kind_of frame.now }
{
    match frame {
        Frame::Load { .. } => 0x01,
        Frame::Hello { .. } => 0x02,
        Frame::HintAsk { .. } => 0x03,
        Frame::DeltaAsk { .. } => 0x04,
        Frame::Query { .. } => 0x05,
        Frame::Edit { .. } => 0x06,
        Frame::Publish => 0x07,
        Frame::Bye => 0x08,
        Frame::Append { .. } => 0x09,
        Frame::ChangesAsk { .. } => 0x0a,
        Frame::Welcome { .. } => 0x82,
        Frame::HintPart { .. } => HINT_PART,
        Frame::Delta { .. } => 0x84,
        Frame::Answer { .. } => 0x85,
        Frame::Stale { .. } => 0x86,
        Frame::Done { .. } => 0x87,
        Frame::NoDelta { .. } => 0x88,
        Frame::Changes { .. } => 0x8a,
        Frame::Refused { .. } => 0x8f,
    }
}

impl Frame {
    /// How many bytes the payload has. A frame can be written if these are at most 16,777,216.
    pub fn payload_len(&self) -> usize
        ensures { result ≡ payload_size self.now }
    {
        match self {
            Frame::Load { records, .. } => 5 + records.as_slice().len(),
            Frame::Query { words, .. } | Frame::Answer { words, .. } => {
                9 + 4 * words.as_slice().len()
            }
            Frame::Hello { key, .. } => 2 + key.as_slice().len(),
            Frame::HintAsk { .. } => 13,
            Frame::DeltaAsk { .. } | Frame::ChangesAsk { .. } | Frame::Done { .. } => 8,
            Frame::Edit { bytes, .. } => 4 + bytes.as_slice().len(),
            Frame::Publish | Frame::Bye => 0,
            Frame::Append { bytes } => bytes.as_slice().len(),
            Frame::Welcome { seed, .. } => 21 + seed.as_slice().len(),
            Frame::HintPart { words, .. } => 13 + 4 * words.as_slice().len(),
            Frame::Delta { rows, .. } => 22 + 4 * rows.as_slice().len(),
            Frame::Stale { .. } | Frame::NoDelta { .. } => 12,
            Frame::Changes { entries, .. } => 20 + entries.as_slice().len(),
            Frame::Refused { .. } => 1,
        }
    }
}

#[tactic(auto, using(crate::proofs::NumberBytes::lengths), unfolding(crate::specs::Frames::payload_of))]
fn put_payload(out: &mut Vec<u8>, frame: &Frame)
    requires { vec_len out.old + payload_size frame.now ≤ vec_capacity out.old }
    ensures items { out.new.items ≡ out.old.items ++ payload_of frame.now }
    ensures fields { HasFields frame.now }
    ensures capacity { vec_capacity out.old ≤ vec_capacity out.new }
{
    match frame {
        Frame::Load {
            record_len,
            groups,
            width,
            records,
        } => put_load(out, *record_len, *groups, *width, records),
        Frame::Hello { profile, key } => {
            put_u16(out, *profile);
            put(out, key.as_slice());
        }
        Frame::HintAsk {
            scheme,
            version,
            part,
        } => {
            put_scheme(out, *scheme, *version);
            put_u32(out, *part);
        }
        Frame::DeltaAsk { since } | Frame::ChangesAsk { since } => put_u64(out, *since),
        Frame::Query {
            scheme,
            version,
            words,
        } => put_scheme_words(out, *scheme, *version, words),
        Frame::Edit { index, bytes } => {
            put_u32(out, *index);
            put(out, bytes.as_slice());
        }
        Frame::Publish => {}
        Frame::Bye => {}
        Frame::Append { bytes } => put(out, bytes.as_slice()),
        _ => put_reply(out, frame),
    }
}

/// The payload of a frame that a server sends.
#[tactic(auto, using(crate::proofs::NumberBytes::lengths), unfolding(crate::specs::Frames::payload_of))]
fn put_reply(out: &mut Vec<u8>, frame: &Frame)
    requires reply { 128 ≤ kind_of frame.now }
    requires room { vec_len out.old + payload_size frame.now ≤ vec_capacity out.old }
    ensures items { out.new.items ≡ out.old.items ++ payload_of frame.now }
    ensures fields { HasFields frame.now }
    ensures capacity { vec_capacity out.old ≤ vec_capacity out.new }
{
    match frame {
        Frame::HintPart {
            scheme,
            version,
            part,
            words,
        } => {
            put_hint_part(out, *scheme, *version, *part, words.as_slice());
        }
        Frame::Delta {
            since,
            now,
            count,
            rows,
        } => put_delta_fields(out, *since, *now, *count, rows),
        Frame::Changes {
            since,
            now,
            count,
            entries,
        } => put_changes_fields(out, *since, *now, *count, entries),
        Frame::Answer {
            scheme,
            version,
            words,
        } => put_scheme_words(out, *scheme, *version, words),
        Frame::Stale { version, count } | Frame::NoDelta { version, count } => {
            put_u64(out, *version);
            put_u32(out, *count);
        }
        Frame::Done { version } => put_u64(out, *version),
        Frame::Refused { code } => put(out, &[*code]),
        _ => put_welcome_fields(out, frame),
    }
}

/// The payload of a welcome, the only frame that it is given.
#[tactic(auto, using(crate::proofs::NumberBytes::lengths), unfolding(crate::specs::Frames::payload_of))]
fn put_welcome_fields(out: &mut Vec<u8>, frame: &Frame)
    requires welcome { kind_of frame.now ≡ 130 }
    requires room { vec_len out.old + payload_size frame.now ≤ vec_capacity out.old }
    ensures items { out.new.items ≡ out.old.items ++ payload_of frame.now }
    ensures fields { HasFields frame.now }
    ensures capacity { vec_capacity out.old ≤ vec_capacity out.new }
{
    let Frame::Welcome {
        profile,
        width,
        record_len,
        groups,
        count,
        version,
        dimension,
        seed,
    } = frame
    else {
        return;
    };
    put_u16(out, *profile);
    put(out, &[*width]);
    put_u16(out, *record_len);
    put_u16(out, *groups);
    put_u32(out, *count);
    put_u64(out, *version);
    put_u16(out, *dimension);
    put(out, seed.as_slice());
}

#[tactic(auto, using(crate::proofs::NumberBytes::lengths), unfolding(crate::specs::Frames::payload_of))]
fn put_load(out: &mut Vec<u8>, record_len: u16, groups: u16, width: u8, records: &Bytes)
    requires { vec_len out.old + (5 + length records.now) ≤ vec_capacity out.old }
    ensures items { out.new.items ≡ out.old.items ++ payload_of
        (Load record_len groups width records.now) }
    ensures fields { HasFields (Load record_len groups width records.now) }
    ensures capacity { vec_capacity out.old ≤ vec_capacity out.new }
{
    put_u16(out, record_len);
    put_u16(out, groups);
    put(out, &[width]);
    put(out, records.as_slice());
}

#[tactic(auto, using(crate::proofs::NumberBytes::lengths), unfolding(crate::specs::Frames::payload_of))]
fn put_delta_fields(out: &mut Vec<u8>, since: u64, now: u64, count: u32, rows: &Rows)
    requires { vec_len out.old + (22 + 4 * length rows.now.words) ≤ vec_capacity out.old }
    ensures items { out.new.items ≡ out.old.items ++ payload_of (Delta since now count rows.now) }
    ensures fields { HasFields (Delta since now count rows.now) }
    ensures capacity { vec_capacity out.old ≤ vec_capacity out.new }
{
    put_u64(out, since);
    put_u64(out, now);
    put_u32(out, count);
    put_u16(out, rows.dimension());
    put_words(out, rows.as_slice());
}

#[tactic(auto, using(crate::proofs::NumberBytes::lengths), unfolding(crate::specs::Frames::payload_of))]
fn put_changes_fields(out: &mut Vec<u8>, since: u64, now: u64, count: u32, entries: &Bytes)
    requires { vec_len out.old + (20 + length entries.now) ≤ vec_capacity out.old }
    ensures items { out.new.items ≡ out.old.items ++ payload_of
        (Changes since now count entries.now) }
    ensures fields { HasFields (Changes since now count entries.now) }
    ensures capacity { vec_capacity out.old ≤ vec_capacity out.new }
{
    put_u64(out, since);
    put_u64(out, now);
    put_u32(out, count);
    put(out, entries.as_slice());
}

/// The payload of a part of a hint.
#[tactic(auto, using(crate::proofs::NumberBytes::lengths), unfolding(crate::specs::Frames::payload_of))]
fn put_hint_part(out: &mut Vec<u8>, scheme: u8, version: u64, part: u32, words: &[u32])
    requires { vec_len out.old + (13 + 4 * length words.now) ≤ vec_capacity out.old }
    ensures items { out.new.items ≡ out.old.items ++ payload_of
        (HintPart scheme version part words.now) }
    ensures fields { HasFields (HintPart scheme version part words.now) }
    ensures capacity { vec_capacity out.old ≤ vec_capacity out.new }
{
    put_scheme(out, scheme, version);
    put_u32(out, part);
    put_words(out, words);
}

fn put_scheme(out: &mut Vec<u8>, scheme: u8, version: u64)
    requires { vec_len out.old + 9 ≤ vec_capacity out.old }
    ensures items { out.new.items ≡ out.old.items ++ (scheme ∷ number_bytes 8 version) }
    ensures len { vec_len out.new ≡ vec_len out.old + 9 }
    ensures capacity { vec_capacity out.old ≤ vec_capacity out.new }
{
    put(out, &[scheme]);
    put_u64(out, version);
}

/// The payload of a query or an answer.
fn put_scheme_words(out: &mut Vec<u8>, scheme: u8, version: u64, words: &Words)
    requires { vec_len out.old + (9 + 4 * length words.now) ≤ vec_capacity out.old }
    ensures items { out.new.items ≡
        out.old.items ++ (scheme ∷ (number_bytes 8 version ++ word_bytes words.now)) }
    ensures fields { All (λ w. w < 2 ^ 32) words.now }
    ensures capacity { vec_capacity out.old ≤ vec_capacity out.new }
{
    put_scheme(out, scheme, version);
    put_words(out, words.as_slice());
}

/// Adds the length and the kind of a frame, and gives `out` room for its payload. Nothing is added
/// at an `Err`.
fn put_head(out: &mut Vec<u8>, kind: u8, len: usize) -> Result<(), AllocError>
    requires { len ≤ payload_limit }
    ensures ok { OnOk result (out.new.items ≡
        (out.old.items ++ number_bytes 4 len) ++ (kind ∷ [])) }
    ensures space { OnOk result (vec_len out.new + len ≤ vec_capacity out.new) }
    ensures err { OnErr result (out.new.items ≡ out.old.items) }
    ensures capacity { vec_capacity out.old ≤ vec_capacity out.new }
    ensures full { OnErr result (vec_capacity out.old < vec_len out.old + (5 + len)) }
    ensures room { vec_len out.old + (5 + len) ≤ vec_capacity out.old → IsOk result }
{
    out.reserve(5 + len)?;
    put_u32(out, len as u32);
    put(out, &[kind]);
    Ok(())
}

/// Adds the encoding of a frame to `out`.
///
/// Fails only if `out` has less room than the encoding needs and more is refused; `out` is then
/// as it was.
#[tactic(auto, using(crate::proofs::Prefixes::encoded_length, crate::proofs::Payloads::payload_sized), unfolding(crate::specs::Frames::encoding))]
pub fn write_frame(frame: &Frame, out: &mut Vec<u8>) -> Result<(), AllocError>
    requires { payload_size frame.now ≤ payload_limit }
    ensures ok { OnOk result (out.new.items ≡ out.old.items ++ encoding frame.now) }
    ensures frame { OnOk result (IsFrame frame.now) }
    ensures err { OnErr result (out.new.items ≡ out.old.items) }
    ensures capacity { vec_capacity out.old ≤ vec_capacity out.new }
    ensures full { OnErr result (vec_capacity out.old < vec_len out.old + length
        (encoding frame.now)) }
    ensures room { vec_len out.old + (5 + payload_size frame.now) ≤ vec_capacity out.old →
        IsOk result }
{
    let len = frame.payload_len();
    put_head(out, kind_number(frame), len)?;
    put_payload(out, frame);
    Ok(())
}

/// Adds the encoding of a part of a hint, whose words are lent, so that no copy of them is made.
///
/// Fails only if `out` has less room than the encoding needs and more is refused; `out` is then
/// as it was.
#[tactic(auto, using(crate::proofs::Prefixes::encoded_length, crate::proofs::Payloads::payload_sized), unfolding(crate::specs::Frames::encoding))]
pub fn write_hint_part(
    scheme: u8,
    version: u64,
    part: u32,
    words: &[u32],
    out: &mut Vec<u8>,
) -> Result<(), AllocError>
    requires { 13 + 4 * length words.now ≤ payload_limit }
    ensures ok { OnOk result (out.new.items ≡
        out.old.items ++ encoding (HintPart scheme version part words.now)) }
    ensures frame { OnOk result (IsFrame (HintPart scheme version part words.now)) }
    ensures err { OnErr result (out.new.items ≡ out.old.items) }
    ensures capacity { vec_capacity out.old ≤ vec_capacity out.new }
    ensures full { OnErr result
        (vec_capacity out.old < vec_len out.old + (18 + 4 * length words.now)) }
    ensures room { vec_len out.old + (18 + 4 * length words.now) ≤ vec_capacity out.old →
        IsOk result }
{
    put_head(out, HINT_PART, 13 + 4 * words.len())?;
    put_hint_part(out, scheme, version, part, words);
    Ok(())
}
