//! A snapshot read from a reader.

ghost use Rattle.std.specs.Prelude.{
  ◌≡◌,
  ◌⊎◌,
  ◌≤◌,
  ◌<◌,
  ◌*◌,
  ◌++◌,
  ◌∷◌,
  [],
  ℕ,
  List,
  length,
  min,
  vec_len,
  vec_capacity,
  IfOk,
  IfErr,
  OnOk,
  OnErr,
  IfSome,
};
ghost use Rattle.std.specs.Io.KnownBytes.{Consumes, IsAtEnd};
ghost use Rattle.sha2.specs.Sha256.{sha256};
ghost use Rattle.snapshot_file.specs.Snapshots.{
  magic,
  header_of,
  header_bytes,
  hashed_bytes,
  snapshot_bytes,
  records_len,
  IsHeader,
  IsAccepted,
  IsFile,
  IsSnapshot,
};
ghost use Rattle.snapshot_file.specs.Verdicts.{EndsBelow, EndsKept, EndsAfter, EndsAtDigest};
ghost use Rattle.snapshot_file.specs.Verdicts.{StopsReadingAt, MayRefuse};

use crate::header::{
    DIGEST_LEN, FIELDS_LEN, MAGIC_LEN, WIDE_FIELDS_LEN, form_of, hash_header, header_in,
};
use crate::snapshot::{Header, Snapshot, SnapshotFault};
use connection_io::PIECE_LEN;
use sha2::Digest;
use std::alloc::{AllocError, Global};
use std::io::Read;

// As many bytes as there is room for.
pub(crate) fn fill<R: Read>(reader: &mut R, out: &mut [u8]) -> Result<(), SnapshotFault>
    ensures ok { OnOk result (Consumes (R.remaining reader.old) (R.remaining reader.new) out.new) }
    ensures err { IfErr result (λ fault. (part : List ℕ) ×
        Consumes (R.remaining reader.old) (R.remaining reader.new) part
        × EndsBelow (length out.old) fault part (R.remaining reader.new)) }
{
    let mut at = 0;
    while at < out.len() {
        match reader.read(&mut out[at..]) {
            Ok(0) => return Err(SnapshotFault::Short),
            Err(_) => return Err(SnapshotFault::Read),
            Ok(n) => at += n,
        }
    }
    Ok(())
}

// The next N bytes.
pub(crate) fn read_array<const N: usize, R: Read>(reader: &mut R) -> Result<[u8; N], SnapshotFault>
    ensures ok { IfOk result (λ bytes. (length bytes ≡ N) ×
        Consumes (R.remaining reader.old) (R.remaining reader.new) bytes) }
    ensures err { IfErr result (λ fault. (part : List ℕ) ×
        Consumes (R.remaining reader.old) (R.remaining reader.new) part
        × EndsBelow N fault part (R.remaining reader.new)) }
{
    let mut bytes = [0u8; N];
    fill(reader, &mut bytes)?;
    Ok(bytes)
}

// The fields of an ordinary form, after its magic.
fn read_ordinary_fields<R: Read>(reader: &mut R, form: u8) -> Result<Header, SnapshotFault>
    requires { (form ≡ 1) ⊎ (form ≡ 2) }
    ensures ok { IfOk result (λ h. (fields : List ℕ) × IsHeader h
        × (magic form ++ fields ≡ header_bytes h)
        × Consumes (R.remaining reader.old) (R.remaining reader.new) fields) }
    ensures err { IfErr result (λ fault. (read : List ℕ) ×
        Consumes (R.remaining reader.old) (R.remaining reader.new) read
        × StopsReadingAt fault (magic form ++ read) (R.remaining reader.new)) }
{
    let fields = read_array::<FIELDS_LEN, R>(reader)?;
    Ok(header_in(form, &fields))
}

// The fields of a wide form, after its magic: the first of them names the form.
fn read_wide_fields<R: Read>(reader: &mut R) -> Result<Header, SnapshotFault>
    ensures ok { IfOk result (λ h. (fields : List ℕ) × IsHeader h
        × (magic 129 ++ fields ≡ header_bytes h)
        × Consumes (R.remaining reader.old) (R.remaining reader.new) fields) }
    ensures err { IfErr result (λ fault. (read : List ℕ) ×
        Consumes (R.remaining reader.old) (R.remaining reader.new) read
        × StopsReadingAt fault (magic 129 ++ read) (R.remaining reader.new)) }
{
    let fields = read_array::<WIDE_FIELDS_LEN, R>(reader)?;
    let form = fields[0];
    if form != 129 && form != 130 {
        return Err(SnapshotFault::BadLayout);
    }
    Ok(header_in(form, &fields[1..]))
}

// The fields after a magic.
fn read_fields<R: Read>(reader: &mut R, form: u8) -> Result<Header, SnapshotFault>
    requires { (form ≡ 1) ⊎ (form ≡ 2) ⊎ (form ≡ 129) }
    ensures ok { IfOk result (λ h. (fields : List ℕ) × IsHeader h
        × (magic form ++ fields ≡ header_bytes h)
        × Consumes (R.remaining reader.old) (R.remaining reader.new) fields) }
    ensures err { IfErr result (λ fault. (read : List ℕ) ×
        Consumes (R.remaining reader.old) (R.remaining reader.new) read
        × StopsReadingAt fault (magic form ++ read) (R.remaining reader.new)) }
{
    if form == 129 {
        read_wide_fields(reader)
    } else {
        read_ordinary_fields(reader, form)
    }
}

/// Reads an accepted header, and nothing after it, without taking memory.
///
/// # Errors
///
/// Those of [`read_snapshot`] that a header makes, each with the byte that makes it.
pub fn read_header<R: Read>(reader: &mut R) -> Result<Header, SnapshotFault>
    ensures ok { IfOk result (λ h. IsHeader h × IsAccepted h ×
        Consumes (R.remaining reader.old) (R.remaining reader.new) (header_bytes h)) }
    ensures err { IfErr result (λ fault. (read : List ℕ) ×
        Consumes (R.remaining reader.old) (R.remaining reader.new) read
        × StopsReadingAt fault read (R.remaining reader.new)) }
{
    let first = read_array::<MAGIC_LEN, R>(reader)?;
    let Some(form) = form_of(first) else {
        return Err(SnapshotFault::NotSnapshot);
    };
    let header = read_fields(reader, form)?;
    if !header.is_accepted() {
        return Err(SnapshotFault::BadLayout);
    }
    Ok(header)
}

// Room for a piece of at most 64 KiB. Its bytes are not said, which keeps them out of the proofs.
fn piece_buffer(alloc: Global, len: usize) -> Result<Vec<u8>, AllocError>
    requires { len ≤ 65536 }
    ensures { IfOk result (λ buffer. vec_len buffer ≡ len) }
{
    Vec::from_elem(alloc, 0u8, len)
}

// One read, added to what was read before.
fn keep_piece<R: Read>(
    reader: &mut R,
    buffer: &mut [u8],
    records: &mut Vec<u8>,
) -> Result<(), SnapshotFault>
    requires { 0 < length buffer.old }
    ensures ok { OnOk result ((part : List ℕ) × (0 < length part) ×
        (length part ≤ length buffer.old)
        × Consumes (R.remaining reader.old) (R.remaining reader.new) part ×
        (records.new.items ≡ records.old.items ++ part)) }
    ensures err { IfErr result (λ fault. (part : List ℕ) ×
        Consumes (R.remaining reader.old) (R.remaining reader.new) part
        × EndsKept 1 fault part (R.remaining reader.new)) }
{
    match reader.read(buffer) {
        Ok(0) => Err(SnapshotFault::Short),
        Err(_) => Err(SnapshotFault::Read),
        Ok(n) => {
            records.extend_from_slice(&buffer[..n])?;
            Ok(())
        }
    }
}

// So many bytes of records, kept as they come: a header alone, whatever it claims, makes nobody
// reserve more than a piece.
fn read_records<R: Read>(
    alloc: Global,
    reader: &mut R,
    wanted: usize,
) -> Result<Vec<u8>, SnapshotFault>
    ensures ok { IfOk result (λ records. (length records.items ≡ wanted)
        × Consumes (R.remaining reader.old) (R.remaining reader.new) records.items) }
    ensures err { IfErr result (λ fault. (part : List ℕ) ×
        Consumes (R.remaining reader.old) (R.remaining reader.new) part
        × EndsKept wanted fault part (R.remaining reader.new)) }
{
    let buffer = piece_buffer(alloc, wanted.min(PIECE_LEN))?;
    let mut records = read_by_pieces(reader, wanted, buffer, Vec::new(alloc))?;
    // The records stay as they are from here on: what they grew by beyond their length is given
    // back.
    records.shrink_to_fit();
    Ok(records)
}

// The same, with room for a piece and, to begin with, none for the records: it grows with what
// comes.
fn read_by_pieces<R: Read>(
    reader: &mut R,
    wanted: usize,
    mut buffer: Vec<u8>,
    mut records: Vec<u8>,
) -> Result<Vec<u8>, SnapshotFault>
    requires piece { vec_len buffer ≡ min wanted 65536 }
    requires none { records.items ≡ [] }
    requires nothing_reserved { vec_capacity records ≡ 0 }
    ensures ok { IfOk result (λ records. (length records.items ≡ wanted)
        × Consumes (R.remaining reader.old) (R.remaining reader.new) records.items) }
    ensures err { IfErr result (λ fault. (part : List ℕ) ×
        Consumes (R.remaining reader.old) (R.remaining reader.new) part
        × EndsKept wanted fault part (R.remaining reader.new)) }
{
    while records.len() < wanted {
        let room = buffer.len().min(wanted - records.len());
        keep_piece(reader, &mut buffer[..room], &mut records)?;
    }
    Ok(records)
}

// Nothing more.
pub(crate) fn read_end<R: Read>(reader: &mut R) -> Result<(), SnapshotFault>
    ensures ok { OnOk result (Consumes (R.remaining reader.old) (R.remaining reader.new) [] ×
        IsAtEnd (R.remaining reader.new)) }
    ensures err { IfErr result (λ fault. (part : List ℕ) ×
        Consumes (R.remaining reader.old) (R.remaining reader.new) part × EndsAfter fault part) }
{
    let mut next = [0u8; 1];
    match reader.read(&mut next) {
        Ok(0) => Ok(()),
        Ok(_) => Err(SnapshotFault::TrailingBytes),
        Err(_) => Err(SnapshotFault::Read),
    }
}

// The digest, which is to be this one, and the end of the input.
pub(crate) fn read_digest<R: Read>(
    reader: &mut R,
    made: [u8; DIGEST_LEN],
) -> Result<(), SnapshotFault>
    ensures ok { OnOk result (Consumes (R.remaining reader.old) (R.remaining reader.new) made ×
        IsAtEnd (R.remaining reader.new)) }
    ensures err { IfErr result (λ fault. (part : List ℕ) ×
        Consumes (R.remaining reader.old) (R.remaining reader.new) part
        × EndsAtDigest made fault part (R.remaining reader.new)) }
{
    let digest = read_array::<DIGEST_LEN, R>(reader)?;
    if digest != made {
        return Err(SnapshotFault::BadDigest);
    }
    read_end(reader)
}

// The records and the digest after a header, and the end of the input.
fn read_body<R: Read>(
    alloc: Global,
    reader: &mut R,
    header: &Header,
) -> Result<(Vec<u8>, [u8; DIGEST_LEN]), SnapshotFault>
    requires header { IsHeader header.now }
    requires accepted { IsAccepted header.now }
    ensures ok { IfOk result (λ body. IsFile header.now body.0.items
        × Consumes (R.remaining reader.old) (R.remaining reader.new)
        (body.0.items ++ sha256 (hashed_bytes header.now body.0.items))
        × IsAtEnd (R.remaining reader.new)) }
    ensures digest { IfOk result (λ body. body.1 ≡ sha256 (hashed_bytes header.now body.0.items)) }
    ensures err { IfErr result (λ fault. (read : List ℕ) ×
        Consumes (R.remaining reader.old) (R.remaining reader.new) read
        × StopsReadingAt fault (header_bytes header.now ++ read) (R.remaining reader.new)) }
{
    // of the bytes that were read: a header has no others
    let mut hasher = hash_header(alloc, header)?;
    let records = read_records(alloc, reader, header.records_len())?;
    hasher.update(&records);
    let digest = hasher.finalize();
    read_digest(reader, digest)?;
    Ok((records, digest))
}

/// Reads a snapshot, which must be the whole input. Each fault is returned at the first byte that
/// makes it: `NotSnapshot` with byte 8, `BadLayout` with the header's last byte (91, or 92 in a
/// wide form), `BadDigest` with the last byte of the digest, `TrailingBytes` with the byte after
/// it; `Short` if the input ends before that, and `BadSlot` at its end. `Read` is returned if a
/// read fails, an interrupted one too, and `Memory` only after an accepted header. What is reserved
/// never passes 64 KiB and a small multiple of the bytes that came.
pub fn read_snapshot<R: Read>(alloc: Global, reader: &mut R) -> Result<Snapshot, SnapshotFault>
    ensures accepted { IfOk result (λ s. IsSnapshot (header_of s) s.records.items) }
    ensures input { IfOk result (λ s. IfSome (R.remaining reader.old) (λ bytes. bytes ≡
        snapshot_bytes (header_of s) s.records.items)) }
    ensures refused { IfErr result (λ fault. IfSome (R.remaining reader.old)
        (λ bytes. MayRefuse fault bytes)) }
    ensures taken { IfOk result (λ s. Consumes (R.remaining reader.old) (R.remaining reader.new)
        (snapshot_bytes (header_of s) s.records.items)
        × IsAtEnd (R.remaining reader.new)) }
    ensures stops { IfErr result (λ fault. (read : List ℕ) ×
        Consumes (R.remaining reader.old) (R.remaining reader.new) read
        × StopsReadingAt fault read (R.remaining reader.new)) }
{
    let (snapshot, _digest) = read_snapshot_and_digest(alloc, reader)?;
    Ok(snapshot)
}

/// Reads a snapshot as [`read_snapshot`] does, and returns its digest with it: the SHA-256 (FIPS
/// 180-4) of its header and its records.
///
/// # Errors
///
/// Those of [`read_snapshot`], when it has them.
pub fn read_snapshot_and_digest<R: Read>(
    alloc: Global,
    reader: &mut R,
) -> Result<(Snapshot, [u8; DIGEST_LEN]), SnapshotFault>
    ensures accepted { IfOk result (λ s. IsSnapshot (header_of s.0) s.0.records.items) }
    ensures digest { IfOk result (λ s. s.1 ≡
        sha256 (hashed_bytes (header_of s.0) s.0.records.items)) }
    ensures input { IfOk result (λ s. IfSome (R.remaining reader.old) (λ bytes. bytes ≡
        snapshot_bytes (header_of s.0) s.0.records.items)) }
    ensures refused { IfErr result (λ fault. IfSome (R.remaining reader.old)
        (λ bytes. MayRefuse fault bytes)) }
    ensures taken { IfOk result (λ s. Consumes (R.remaining reader.old) (R.remaining reader.new)
        (snapshot_bytes (header_of s.0) s.0.records.items)
        × IsAtEnd (R.remaining reader.new)) }
    ensures stops { IfErr result (λ fault. (read : List ℕ) ×
        Consumes (R.remaining reader.old) (R.remaining reader.new) read
        × StopsReadingAt fault read (R.remaining reader.new)) }
{
    let header = read_header(reader)?;
    read_after_header(alloc, reader, header)
}

/// Reads what follows an accepted header, as [`read_snapshot_and_digest`] does.
///
/// # Errors
///
/// Those of [`read_snapshot`] that come after a header, each with the byte that makes it.
pub fn read_after_header<R: Read>(
    alloc: Global,
    reader: &mut R,
    header: Header,
) -> Result<(Snapshot, [u8; DIGEST_LEN]), SnapshotFault>
    requires header { IsHeader header }
    requires accepted { IsAccepted header }
    ensures header { IfOk result (λ s. header_of s.0 ≡ header) }
    ensures ok { IfOk result (λ s. IsSnapshot header s.0.records.items
        × Consumes (R.remaining reader.old) (R.remaining reader.new)
        (s.0.records.items ++ sha256 (hashed_bytes header s.0.records.items))
        × IsAtEnd (R.remaining reader.new)) }
    ensures digest { IfOk result (λ s. s.1 ≡ sha256 (hashed_bytes header s.0.records.items)) }
    ensures err { IfErr result (λ fault. (read : List ℕ) ×
        Consumes (R.remaining reader.old) (R.remaining reader.new) read
        × StopsReadingAt fault (header_bytes header ++ read) (R.remaining reader.new)) }
{
    let (records, digest) = read_body(alloc, reader, &header)?;
    if !header.has_slots(&records) {
        return Err(SnapshotFault::BadSlot);
    }
    Ok((header.with_records(records), digest))
}
