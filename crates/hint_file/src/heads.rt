//! The head of a hint's file: all that comes before the hint's words.

ghost use Rattle.std.specs.Prelude.{◌≡◌, ◌≢◌, ◌≤◌, ◌<◌, ◌+◌, ◌*◌, ◌^◌, ◌++◌, ◌↔◌, ℕ, List, length};
ghost use Rattle.std.specs.Prelude.{slice_index, IfOk, IfSome, IfNone, IsTrue, MatchOption};
ghost use Rattle.std.specs.Prelude.{IsErrOf};
ghost use Rattle.matrix_u32.specs.Matrix.{most_words};
ghost use Rattle.client_core.specs.declared.state.ServerInfo.{ServerInfo};
ghost use Rattle.hint_file.specs.declared.heads.HintFields.{HintFields};
ghost use Rattle.hint_file.specs.Files.{hint_magic, plan_bytes, field_bytes, head_after};
ghost use Rattle.hint_file.specs.Files.{head_bytes, part_count, AreKeepable, HasDigests, IsNoNewer};

use crate::digests::PART_LEN;
use crate::sealing::{DIGEST_LEN, MAGIC_LEN, after, first_32, seal, unsealed};
use byteorder::{ByteOrder, LittleEndian};
use client_core::{Plan, Scheme, ServerInfo};
use matrix_u32::MAX_WORDS;
use std::alloc::{AllocError, Global};
use thiserror::Error;

/// How many bytes the fields have.
pub const FIELDS_LEN: usize = 78;

/// How many bytes a plan has among the fields.
const PLAN_LEN: usize = 41;

/// How many bytes come before the digests: the magic and the fields.
pub const FRONT_LEN: usize = MAGIC_LEN + FIELDS_LEN;

/// The most bytes of a head: a matrix that can exist has 512 parts at most.
pub const MOST_HEAD: usize = FRONT_LEN + DIGEST_LEN * 512 + DIGEST_LEN;

/// Which hint a file has, and what the server had reported last.
#[derive(Clone, Copy)]
pub struct HintFields {
    pub known: ServerInfo,
    pub scheme: Scheme,
    pub version: u64,
    pub rows: usize,
    pub cols: usize,
}

/// The head of a hint's file: which hint it has, and the digests of the parts of its words, one
/// after another.
#[derive(Drop)]
pub struct KeptHead {
    pub fields: HintFields,
    pub digests: Vec<u8>,
}

impl KeptHead {
    /// How many bytes come before the words.
    pub fn len(&self) -> usize
        requires fields { AreKeepable self.now.fields }
        requires digests { HasDigests self.now.fields self.now.digests.items }
        ensures { result ≡ 118 + length self.now.digests.items }
    {
        FRONT_LEN + self.digests.len() + DIGEST_LEN
    }

    /// How many bytes the whole file has.
    pub fn file_len(&self) -> u64
        requires fields { AreKeepable self.now.fields }
        requires digests { HasDigests self.now.fields self.now.digests.items }
        ensures { result ≡ 118 + length self.now.digests.items +
            4 * (self.now.fields.rows * self.now.fields.cols) }
    {
        (self.len() + 4 * (self.fields.rows * self.fields.cols)) as u64
    }
}

/// Why there is no hint in a file.
#[derive(Clone, Copy, Debug, PartialEq, Eq, Error)]
pub enum HintError {
    /// The bytes are no file of a hint.
    #[error("the hint's file is damaged")]
    Damaged,
    /// The file can't be read.
    #[error("the hint's file can't be read")]
    Read,
    /// Memory was refused.
    #[error("out of memory")]
    Memory,
}

impl From<AllocError> for HintError {
    ghost use Rattle.hint_file.specs.declared.heads.HintError.TheVariants.{Memory};

    ghost from_gives = { λ _ fault. fault ≡ Memory };

    fn from(_refused: AllocError) -> Self {
        HintError::Memory
    }
}

/// What the file of a hint begins with.
#[tactic(auto, unfolding(crate::specs::Files::hint_magic))]
pub fn magic() -> [u8; MAGIC_LEN]
    ensures { result ≡ hint_magic }
{
    *b"PIRHINT3"
}

/// The head of a hint's file.
///
/// # Errors
///
/// `AllocError` when memory was refused.
pub fn head_bytes(alloc: Global, fields: &HintFields, digests: &[u8]) -> Result<Vec<u8>, AllocError>
    ensures { IfOk result (λ bytes. bytes.items ≡ head_bytes fields.now digests.now) }
{
    let mut bytes = Vec::new(alloc);
    bytes.extend_from_slice(&magic())?;
    bytes.extend_from_slice(&field_bytes(alloc, fields)?)?;
    bytes.extend_from_slice(digests)?;
    seal(bytes)
}

/// What names a store: the fields of its plan.
///
/// # Errors
///
/// `AllocError` when memory was refused.
#[tactic(auto, unfolding(crate::specs::Files::plan_bytes, frame_codec::specs::Numbers::number_bytes))]
pub fn plan_bytes(alloc: Global, plan: &Plan) -> Result<Vec<u8>, AllocError>
    ensures { IfOk result (λ bytes. bytes.items ≡ plan_bytes plan.now) }
{
    let mut bytes = Vec::with_capacity(alloc, PLAN_LEN)?;
    bytes.extend_from_slice(&plan.form.to_le_bytes())?;
    bytes.extend_from_slice(&[plan.width])?;
    bytes.extend_from_slice(&plan.record_len.to_le_bytes())?;
    bytes.extend_from_slice(&plan.groups.to_le_bytes())?;
    bytes.extend_from_slice(&plan.dimension.to_le_bytes())?;
    bytes.extend_from_slice(&plan.seed)?;
    Ok(bytes)
}

/// The fields.
///
/// # Errors
///
/// `AllocError` when memory was refused.
#[tactic(auto, unfolding(crate::specs::Files::field_bytes, frame_codec::specs::Numbers::number_bytes))]
pub fn field_bytes(alloc: Global, fields: &HintFields) -> Result<Vec<u8>, AllocError>
    ensures { IfOk result (λ bytes. bytes.items ≡ field_bytes fields.now) }
{
    let mut bytes = plan_bytes(alloc, &fields.known.plan)?;
    bytes.extend_from_slice(&fields.known.count.to_le_bytes())?;
    bytes.extend_from_slice(&fields.known.version.to_le_bytes())?;
    bytes.extend_from_slice(&[fields.scheme.byte()])?;
    bytes.extend_from_slice(&fields.version.to_le_bytes())?;
    bytes.extend_from_slice(&(fields.rows as u64).to_le_bytes())?;
    bytes.extend_from_slice(&(fields.cols as u64).to_le_bytes())?;
    Ok(bytes)
}

/// The fields that these bytes are; none when they name no scheme.
pub fn fields_in(bytes: &[u8]) -> Option<HintFields>
    requires { length bytes.now ≡ 78 }
    ensures read { IfSome result (λ f. field_bytes f ≡ bytes.now) }
    ensures none { IfNone result ((f : HintFields) → length f.known.plan.seed ≡ 32 →
        bytes.now ≢ field_bytes f) }
    ensures seed { IfSome result (λ f. length f.known.plan.seed ≡ 32) }
    ensures sizes { IfSome result (λ f. (f.rows < 2 ^ 64) × (f.cols < 2 ^ 64)) }
{
    let Some(scheme) = Scheme::of_byte(bytes[53]) else {
        return None;
    };
    Some(HintFields {
        known: ServerInfo {
            version: LittleEndian::read_u64(&bytes[45..]),
            count: LittleEndian::read_u32(&bytes[41..]),
            plan: Plan {
                form: LittleEndian::read_u16(bytes),
                width: bytes[2],
                record_len: LittleEndian::read_u16(&bytes[3..]),
                groups: LittleEndian::read_u16(&bytes[5..]),
                dimension: LittleEndian::read_u16(&bytes[7..]),
                seed: first_32(&bytes[9..]),
            },
        },
        scheme,
        version: LittleEndian::read_u64(&bytes[54..]),
        rows: LittleEndian::read_u64(&bytes[62..]) as usize,
        cols: LittleEndian::read_u64(&bytes[70..]) as usize,
    })
}

// The fields after the bytes of the prefix; none when these bytes begin with no prefix and fields.
fn fields_after(front: &[u8], bytes: &[u8]) -> Option<HintFields>
    ensures read { IfSome result (λ f. (rest : List ℕ) ×
        (bytes.now ≡ front.now ++ (field_bytes f ++ rest))) }
    ensures none { IfNone result ((f : HintFields) (rest : List ℕ) →
        length f.known.plan.seed ≡ 32 → bytes.now ≢ front.now ++ (field_bytes f ++ rest)) }
    ensures seed { IfSome result (λ f. length f.known.plan.seed ≡ 32) }
    ensures sizes { IfSome result (λ f. (f.rows < 2 ^ 64) × (f.cols < 2 ^ 64)) }
{
    let Some(rest) = after(bytes, front) else {
        return None;
    };
    if rest.len() < FIELDS_LEN {
        return None;
    }
    let (named, _) = rest.split_at(FIELDS_LEN);
    let Some(fields) = fields_in(named) else {
        return None;
    };
    Some(fields)
}

/// How many bytes the digests of all parts have; none when there is no matrix of this size.
pub fn digests_len(fields: &HintFields) -> Option<usize>
    ensures { MatchOption result (most_words < fields.now.rows * fields.now.cols)
        (λ len. (len ≡ 32 * part_count (4 * (fields.now.rows * fields.now.cols)))
        × (fields.now.rows * fields.now.cols ≤ most_words)) }
{
    match fields.rows.checked_mul(fields.cols) {
        Some(count) if count <= MAX_WORDS => {
            Some(DIGEST_LEN * ((4 * count + PART_LEN - 1) / PART_LEN))
        }
        _ => None,
    }
}

/// The head, with the bytes of the prefix, that these bytes are, or begin with.
///
/// # Errors
///
/// `Damaged` exactly when they begin with no such head, `Memory` when memory was refused.
pub fn head_after(alloc: Global, front: &[u8], bytes: &[u8]) -> Result<KeptHead, HintError>
    ensures read { IfOk result (λ head. (rest : List ℕ) ×
        (bytes.now ≡ head_after front.now head.fields head.digests.items ++ rest)) }
    ensures keepable { IfOk result (λ head. AreKeepable head.fields ×
        HasDigests head.fields head.digests.items) }
    ensures damaged { IsErrOf result HintError.Damaged →
        (f : HintFields) (digests rest : List ℕ) → AreKeepable f → HasDigests f digests →
        bytes.now ≢ head_after front.now f digests ++ rest }
{
    let Some(fields) = fields_after(front, bytes) else {
        return Err(HintError::Damaged);
    };
    let Some(len) = digests_len(&fields) else {
        return Err(HintError::Damaged);
    };
    let end = front.len() + FIELDS_LEN + len;
    if bytes.len() < end + DIGEST_LEN {
        return Err(HintError::Damaged);
    }
    let (head, _) = bytes.split_at(end + DIGEST_LEN);
    let Some(body) = unsealed(head) else {
        return Err(HintError::Damaged);
    };
    let (_, after_front) = body.split_at(front.len() + FIELDS_LEN);
    let digests = after_front.to_vec(alloc)?;
    Ok(KeptHead { fields, digests })
}

/// The head of the hint's file that these bytes are, or begin.
///
/// # Errors
///
/// `Damaged` exactly when they begin with no head of a hint, `Memory` when memory was refused.
pub fn head_in(alloc: Global, bytes: &[u8]) -> Result<KeptHead, HintError>
    ensures read { IfOk result (λ head. (rest : List ℕ) ×
        (bytes.now ≡ head_bytes head.fields head.digests.items ++ rest)) }
    ensures keepable { IfOk result (λ head. AreKeepable head.fields ×
        HasDigests head.fields head.digests.items) }
    ensures damaged { IsErrOf result HintError.Damaged →
        (f : HintFields) (digests rest : List ℕ) → AreKeepable f → HasDigests f digests →
        bytes.now ≢ head_bytes f digests ++ rest }
{
    let front = magic();
    head_after(alloc, &front, bytes)
}

/// Whether the file of this head is no newer than a hint of a version with what the server had
/// reported: whether it may be replaced by theirs.
pub fn is_no_newer(head: &KeptHead, known: &ServerInfo, version: u64) -> bool
    ensures { IsTrue result ↔ IsNoNewer head.now.fields known.now version }
{
    head.fields.known.version <= known.version && head.fields.version <= version
}
