//! A snapshot written while its records are read: nothing holds them all at once.

ghost use Rattle.std.specs.Prelude.{◌≡◌, ◌≤◌, ◌++◌, ℕ, List, length, OnOk, IfOk, IfErr};
ghost use Rattle.std.specs.Io.KnownBytes.{Appends, Consumes, IsAtEnd};
ghost use Rattle.sha2.specs.Sha256.{sha256};
ghost use Rattle.sha2.specs.Hashers.{Holds256};
ghost use Rattle.snapshot_file.specs.Copies.{StopsCopyingAt};
ghost use Rattle.snapshot_file.specs.Snapshots.{header_bytes, hashed_bytes, records_len};
ghost use Rattle.snapshot_file.specs.Snapshots.{snapshot_bytes};

use crate::header::{DIGEST_LEN, header_bytes};
use crate::reading::{fill, read_end};
use crate::snapshot::{Header, SnapshotFault};
use connection_io::{piece_buffer, write_out};
use sha2::{Digest, Sha256};
use std::alloc::{AllocError, Global};
use std::io::{Read, Write};
use thiserror::Error;

/// Why the snapshot of records that a reader has was not written, or not as a whole.
#[derive(Clone, Copy, Debug, PartialEq, Eq, Error)]
pub enum CopyFault {
    /// The reader ended before it had given all records.
    #[error("there are fewer records than the header says")]
    Few,
    /// There is a byte after the records.
    #[error("there are more records than the header says")]
    Many,
    /// A read failed.
    #[error("the records could not be read")]
    Read,
    /// A write failed, or took no byte, when so many bytes of the records had been read.
    #[error("the snapshot could not be written")]
    Write(usize),
    /// Memory for the header, or for a piece of the records, was refused. Nothing was read then.
    #[error("out of memory")]
    Memory,
}

impl From<AllocError> for CopyFault {
    ghost use Rattle.snapshot_file.specs.declared.copying.CopyFault.TheVariants.{Memory};

    ghost from_gives = { λ _ fault. fault ≡ Memory };

    fn from(_refused: AllocError) -> Self {
        CopyFault::Memory
    }
}

/// Writes the snapshot of a header and of all bytes that a reader has, which must be as many as the
/// header's records have, and returns its digest. The bytes pass through a buffer of 64 KiB; no
/// other memory is taken but the header's. Whether they are slots, in a form of slots, is not
/// judged.
///
/// # Errors
///
/// Each as [`CopyFault`] says. A part of the snapshot may have been written then, without its
/// digest.
pub fn write_snapshot_read<R: Read, W: Write>(
    alloc: Global,
    header: &Header,
    reader: &mut R,
    writer: &mut W,
) -> Result<[u8; DIGEST_LEN], CopyFault>
    ensures whole { IfOk result (λ digest. (records : List ℕ) ×
        (length records ≡ records_len header.now)
        × Consumes (R.remaining reader.old) (R.remaining reader.new) records
        × IsAtEnd (R.remaining reader.new)
        × Appends (W.contents writer.old) (W.contents writer.new)
        (snapshot_bytes header.now records)
        × (digest ≡ sha256 (hashed_bytes header.now records))) }
    ensures refused { IfErr result (λ fault. (part : List ℕ) ×
        Consumes (R.remaining reader.old) (R.remaining reader.new) part
        × StopsCopyingAt (records_len header.now) fault part (R.remaining reader.new)) }
{
    let prefix = header_bytes(alloc, header)?;
    let mut buffer = piece_buffer(alloc)?;
    copy_all_bytes(header, &prefix, reader, writer, &mut buffer)
}

// Writes the snapshot of a header, whose bytes are the prefix, and of all bytes of a reader. Prefix
// and buffer stay the caller's: to free them at each failure here would make the proof long.
fn copy_all_bytes<R: Read, W: Write>(
    header: &Header,
    prefix: &[u8],
    reader: &mut R,
    writer: &mut W,
    buffer: &mut [u8],
) -> Result<[u8; DIGEST_LEN], CopyFault>
    requires prefix { prefix.now ≡ header_bytes header.now }
    requires room { 1 ≤ length buffer.old }
    ensures whole { IfOk result (λ digest. (records : List ℕ) ×
        (length records ≡ records_len header.now)
        × Consumes (R.remaining reader.old) (R.remaining reader.new) records
        × IsAtEnd (R.remaining reader.new)
        × Appends (W.contents writer.old) (W.contents writer.new)
        (snapshot_bytes header.now records)
        × (digest ≡ sha256 (hashed_bytes header.now records))) }
    ensures refused { IfErr result (λ fault. (part : List ℕ) ×
        Consumes (R.remaining reader.old) (R.remaining reader.new) part
        × StopsCopyingAt (records_len header.now) fault part (R.remaining reader.new)) }
{
    match write_out(writer, prefix) {
        Ok(()) => {}
        Err(_) => return Err(CopyFault::Write(0)),
    }
    let mut hasher = Sha256::new();
    hasher.update(prefix);
    let len = header.records_len();
    copy_records(reader, len, writer, buffer, &mut hasher)?;
    let digest = hasher.finalize();
    match write_out(writer, &digest) {
        Ok(()) => Ok(digest),
        Err(_) => Err(CopyFault::Write(len)),
    }
}

// Copies the bytes of a reader, so many and no more, and hashes them: as many at a time as the
// buffer has room for.
fn copy_records<R: Read, W: Write>(
    reader: &mut R,
    len: usize,
    writer: &mut W,
    buffer: &mut [u8],
    hasher: &mut Sha256,
) -> Result<(), CopyFault>
    requires room { 1 ≤ length buffer.old }
    ensures whole { OnOk result ((records : List ℕ) × (length records ≡ len)
        × Consumes (R.remaining reader.old) (R.remaining reader.new) records
        × IsAtEnd (R.remaining reader.new)
        × Appends (W.contents writer.old) (W.contents writer.new) records
        × ((m : List ℕ) → Holds256 hasher.old m → Holds256 hasher.new (m ++ records))) }
    ensures refused { IfErr result (λ fault. (part : List ℕ) ×
        Consumes (R.remaining reader.old) (R.remaining reader.new) part
        × StopsCopyingAt len fault part (R.remaining reader.new)) }
{
    let mut at = 0;
    while at < len {
        let n = buffer.len().min(len - at);
        let piece = &mut buffer[..n];
        match fill(reader, piece) {
            Ok(()) => {}
            Err(SnapshotFault::Short) => return Err(CopyFault::Few),
            Err(_) => return Err(CopyFault::Read),
        }
        hasher.update(&*piece);
        at += n;
        match write_out(writer, piece) {
            Ok(()) => {}
            Err(_) => return Err(CopyFault::Write(at)),
        }
    }
    match read_end(reader) {
        Ok(()) => Ok(()),
        Err(SnapshotFault::TrailingBytes) => Err(CopyFault::Many),
        Err(_) => Err(CopyFault::Read),
    }
}
