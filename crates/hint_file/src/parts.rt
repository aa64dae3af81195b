//! Some parts of a hint that is kept: those with the rows of one record.

ghost use Rattle.std.specs.Prelude.{◌≡◌, ◌+◌, ◌-◌, ◌*◌, ◌↔◌, length, take, drop, IfOk, IfErr};
ghost use Rattle.std.specs.Prelude.{IsTrue, MatchOption, IsErrOf};
ghost use Rattle.digit_pack.specs.Layout.{IsLayout, digit_rows};
ghost use Rattle.client_core.specs.States.{shape_known};
ghost use Rattle.hint_file.specs.Reading.{AreParts, HasPartsFrom, HasRowsFor, IsPartlyRead};
ghost use Rattle.hint_file.specs.Reading.{ServesClient};
ghost use Rattle.hint_file.specs.Reading.{span_for, span_len, words_of};

use crate::digests::{PART_LEN, digests_of};
use crate::heads::{FRONT_LEN, HintError, HintFields, KeptHead, digests_len};
use crate::sealing::DIGEST_LEN;
use crate::word_bytes::words_among_zeros;
use client_core::{Hint, Scheme, ServerInfo};
use matrix_u32::Matrix;
use pir_schemes::PART_WORDS;
use std::alloc::Global;

/// Parts of a hint: those from `first` on that come before `end`.
#[derive(Clone, Copy, Debug, PartialEq, Eq)]
pub struct PartSpan {
    pub first: usize,
    pub end: usize,
}

// Whether a hint is of SimplePIR, of the plan and the version known.
fn is_current(fields: &HintFields, now: &ServerInfo) -> bool
    ensures { IsTrue result ↔ ((fields.now.scheme ≡ Scheme.Simple)
        × (fields.now.version ≡ now.now.version) × (fields.now.known.plan ≡ now.now.plan)) }
{
    fields.scheme == Scheme::Simple
        && fields.version == now.version
        && fields.known.plan == now.plan
}

// Whether there is a layout of what is known, and a hint has its rows and columns.
fn has_layout(fields: &HintFields, now: &ServerInfo) -> bool
    ensures { IsTrue result ↔ (IsLayout (shape_known now.now)
        × (fields.now.rows ≡ digit_rows (shape_known now.now))
        × (fields.now.cols ≡ now.now.plan.dimension)) }
{
    match now.plan.layout(now.count as usize) {
        Ok(layout) => fields.rows == layout.rows() && fields.cols == now.dimension(),
        Err(_) => false,
    }
}

/// Whether the hint of a head serves a client that knows this of the server: it is of SimplePIR, of
/// the plan and the version known, with the rows and columns of its layout. What the client sends
/// next depends on this, and not on the record that it wants.
pub fn serves(head: &KeptHead, now: &ServerInfo) -> bool
    ensures { IsTrue result ↔ ServesClient head.now.fields now.now }
{
    is_current(&head.fields, now) && has_layout(&head.fields, now)
}

/// The parts of the hint kept that have the rows with which an answer for record `index` is read.
/// None exactly when the hint does not serve, or the version has no such record.
pub fn parts_for(head: &KeptHead, now: &ServerInfo, index: u32) -> Option<PartSpan>
    ensures { MatchOption result (¬ HasRowsFor head.now.fields now.now index)
        (λ span. HasRowsFor head.now.fields now.now index
        × (span ≡ span_for head.now.fields now.now index)) }
{
    let Ok(layout) = now.plan.layout(now.count as usize) else {
        return None;
    };
    if !serves(head, now) || index >= now.count {
        return None;
    }
    let cols = usize::from(now.plan.dimension);
    let (row, _) = layout.place(index as usize);
    let end = row + layout.digits_per_record();
    Some(PartSpan {
        first: row * cols / PART_WORDS,
        end: (end * cols + PART_WORDS - 1) / PART_WORDS,
    })
}

/// Where the parts of a span are in the file of this head, and how many bytes they have; none
/// exactly when the hint has no such parts.
pub fn place_of(head: &KeptHead, span: PartSpan) -> Option<(u64, usize)>
    ensures { MatchOption result (¬ HasPartsFrom head.now span) (λ place. HasPartsFrom head.now span
        × (place.0 ≡ 118 + length head.now.digests.items + 262144 * span.first)
        × (place.1 ≡ span_len (4 * words_of head.now.fields) span)) }
{
    let len = digests_len(&head.fields)?;
    if head.digests.len() != len || span.first > span.end || span.end > len / DIGEST_LEN {
        return None;
    }
    let words = head.fields.rows * head.fields.cols;
    if PART_WORDS * span.first > words {
        return None;
    }
    let start = PART_LEN * span.first;
    let end = (PART_LEN * span.end).min(4 * words);
    let before = FRONT_LEN + len + DIGEST_LEN;
    Some(((before + start) as u64, end - start))
}

/// The hint of a head, of which the parts of a span are read: these are their bytes. Its other
/// words are zeros.
///
/// # Errors
///
/// `Damaged` exactly when these are not the bytes of its parts, `Memory` if memory was refused.
pub fn parts_in(
    alloc: Global,
    head: &KeptHead,
    span: PartSpan,
    bytes: &[u8],
) -> Result<Hint, HintError>
    ensures read { IfOk result (λ hint. AreParts head.now span bytes.now
        × IsPartlyRead head.now span bytes.now hint) }
    ensures damaged { IsErrOf result HintError.Damaged → ¬ AreParts head.now span bytes.now }
{
    let Some((_, len)) = place_of(head, span) else {
        return Err(HintError::Damaged);
    };
    if bytes.len() != len {
        return Err(HintError::Damaged);
    }
    let digests = digests_of(alloc, bytes)?;
    if digests.as_slice() != &head.digests[DIGEST_LEN * span.first..DIGEST_LEN * span.end] {
        return Err(HintError::Damaged);
    }
    match partly_read(alloc, head, span, bytes) {
        Ok(hint) => Ok(hint),
        Err(fault) => Err(fault),
    }
}

// The hint of these parts' words, and zeros.
fn partly_read(
    alloc: Global,
    head: &KeptHead,
    span: PartSpan,
    bytes: &[u8],
) -> Result<Hint, HintError>
    requires parts { AreParts head.now span bytes.now }
    ensures read { IfOk result (IsPartlyRead head.now span bytes.now) }
    ensures memory { IfErr result (λ fault. fault ≡ HintError.Memory) }
{
    let fields = &head.fields;
    let total = fields.rows * fields.cols;
    let words = words_among_zeros(alloc, total, PART_WORDS * span.first, bytes)?;
    // There are rows * cols words, and a matrix holds as many: no refusal is left.
    let matrix = Matrix::from_words(fields.rows, fields.cols, words).unwrap();
    Ok(Hint {
        scheme: fields.scheme,
        version: fields.version,
        matrix,
    })
}
