//! A header's bytes, and the digest of a header and its records.

ghost use Rattle.std.specs.Prelude.{◌≡◌, ◌⊎◌, ◌≤◌, ◌++◌, length, take, IfOk, IfSome, IfNone};
ghost use Rattle.sha2.specs.Sha256.{sha256};
ghost use Rattle.sha2.specs.Hashers.{Holds256};
ghost use Rattle.snapshot_file.specs.Snapshots.{magic, form_bytes, hashed_bytes, header_bytes};
ghost use Rattle.snapshot_file.specs.Snapshots.{IsForm, IsMagic, IsHeader};

use crate::snapshot::Header;
use byteorder::{ByteOrder, LittleEndian};
use digit_pack::is_wide;
use sha2::{Digest, Sha256};
use std::alloc::{AllocError, Global};

/// How many bytes the magic has.
pub const MAGIC_LEN: usize = 8;

/// How many bytes the fields after the magic have.
pub const FIELDS_LEN: usize = 83;

/// How many they have in a wide form, which is the first of them.
pub const WIDE_FIELDS_LEN: usize = 84;

/// How many bytes the digest has.
pub const DIGEST_LEN: usize = 32;

/// What every snapshot of a form begins with.
#[tactic(auto, unfolding(crate::specs::Snapshots::magic))]
pub fn magic_bytes(form: u8) -> [u8; MAGIC_LEN]
    ensures { result ≡ magic form }
{
    match form {
        1 => *b"PIRSNAP1",
        2 => *b"PIRSNAP2",
        _ => *b"PIRWIDE1",
    }
}

/// What form a snapshot has that begins with these bytes; 129 means either of the two wide forms,
/// which the next byte tells apart.
pub fn form_of(first: [u8; MAGIC_LEN]) -> Option<u8>
    ensures found { IfSome result (λ form.
        ((form ≡ 1) ⊎ (form ≡ 2) ⊎ (form ≡ 129)) × (first ≡ magic form)) }
    ensures none { IfNone result (¬ IsMagic first) }
{
    if first == magic_bytes(1) {
        return Some(1);
    }
    if first == magic_bytes(2) {
        return Some(2);
    }
    if first == magic_bytes(129) {
        return Some(129);
    }
    None
}

/// The bytes of a header.
#[tactic(auto, unfolding(crate::specs::Snapshots::header_bytes, crate::specs::Snapshots::form_bytes, crate::specs::Snapshots::snapshot_number))]
pub fn header_bytes(alloc: Global, header: &Header) -> Result<Vec<u8>, AllocError>
    ensures { IfOk result (λ bytes. bytes.items ≡ header_bytes header.now) }
{
    let mut bytes = Vec::with_capacity(alloc, MAGIC_LEN + WIDE_FIELDS_LEN)?;
    bytes.extend_from_slice(&magic_bytes(header.form))?;
    if is_wide(u16::from(header.form)) {
        bytes.extend_from_slice(&[header.form])?;
    }
    bytes.extend_from_slice(&[header.width])?;
    bytes.extend_from_slice(&header.record_len.to_le_bytes())?;
    bytes.extend_from_slice(&header.groups.to_le_bytes())?;
    bytes.extend_from_slice(&header.count.to_le_bytes())?;
    bytes.extend_from_slice(&header.dimension.to_le_bytes())?;
    bytes.extend_from_slice(&header.version.to_le_bytes())?;
    bytes.extend_from_slice(&header.seed)?;
    bytes.extend_from_slice(&header.publisher)?;
    Ok(bytes)
}

/// A hasher of the bytes of a header. They are freed at once, so that whoever reads on has none of
/// their memory to free at each failure.
pub fn hash_header(alloc: Global, header: &Header) -> Result<Sha256, AllocError>
    ensures { IfOk result (λ hasher. Holds256 hasher (header_bytes header.now)) }
{
    let prefix = header_bytes(alloc, header)?;
    let mut hasher = Sha256::new();
    hasher.update(&prefix);
    Ok(hasher)
}

// The first 32 bytes.
fn first_32(bytes: &[u8]) -> [u8; 32]
    requires { 32 ≤ length bytes.now }
    ensures { result ≡ take 32 bytes.now }
{
    let mut first = [0u8; 32];
    first.copy_from_slice(&bytes[..32]);
    first
}

/// The header of a form whose fields these bytes are: each number has no other encoding.
pub fn header_in(form: u8, fields: &[u8]) -> Header
    requires form { IsForm form }
    requires len { length fields.now ≡ 83 }
    ensures form { result.form ≡ form }
    ensures bytes { header_bytes result ≡ magic form ++ form_bytes form ++ fields.now }
    ensures header { IsHeader result }
{
    Header {
        form,
        width: fields[0],
        record_len: LittleEndian::read_u16(&fields[1..]),
        groups: LittleEndian::read_u16(&fields[3..]),
        count: LittleEndian::read_u32(&fields[5..]),
        dimension: LittleEndian::read_u16(&fields[9..]),
        version: LittleEndian::read_u64(&fields[11..]),
        seed: first_32(&fields[19..]),
        publisher: first_32(&fields[51..]),
    }
}

/// The digest of a header's bytes and the records after them.
pub fn digest_of(header: &[u8], records: &[u8]) -> [u8; DIGEST_LEN]
    ensures { result ≡ sha256 (header.now ++ records.now) }
{
    let mut hasher = Sha256::new();
    hasher.update(header);
    hasher.update(records);
    hasher.finalize()
}

/// The digest of a snapshot: the SHA-256 (FIPS 180-4) of its header and the bytes of its records.
/// Only refused memory gives an `Err`.
pub fn snapshot_digest(
    alloc: Global,
    header: &Header,
    records: &[u8],
) -> Result<[u8; DIGEST_LEN], AllocError>
    ensures { IfOk result (λ digest. digest ≡ sha256 (hashed_bytes header.now records.now)) }
{
    let prefix = header_bytes(alloc, header)?;
    Ok(digest_of(&prefix, records))
}
