//! A snapshot written record by record, from records that nothing holds all at once.

ghost use Rattle.std.specs.Prelude.{◌≡◌, ◌≤◌, ◌<◌, ◌*◌, ◌+◌, ◌^◌, ◌++◌, ℕ, List, length, take};
ghost use Rattle.std.specs.Prelude.{drop, OnOk, OnErr, IfErr, IfOk};
ghost use Rattle.std.specs.Io.KnownBytes.{Appends};
ghost use Rattle.sha2.specs.Hashers.{Holds256};
ghost use Rattle.snapshot_file.specs.Snapshots.{header_bytes, records_len, snapshot_bytes};

use crate::header::header_bytes;
use crate::snapshot::{Header, WriteFault};
use connection_io::{PIECE_LEN, WriteFailed, write_out};
use sha2::{Digest, Sha256};
use std::alloc::{AllocError, Global};
use std::io::Write;

/// Records of one length, which are given out one by one, however they are kept.
pub trait RecordSource: Sized + Drop {
    /// The bytes of all records, one after another.
    ghost bytes: { Self → List ℕ };

    /// How many bytes a record has.
    ghost record_len: { Self → ℕ };

    /// Writes record i into `out`, whatever it held, without taking memory.
    fn copy_record(&self, i: usize, out: &mut [u8])
        requires inside { i * record_len self.now + record_len self.now ≤ length (bytes self.now) }
        requires room { length out.old ≡ record_len self.now }
        ensures { out.new ≡
            take (record_len self.now) (drop (i * record_len self.now) (bytes self.now)) };
}

/// Writes the snapshot of a header and a source's records, as many as the header says and each of
/// its length. The records pass through a buffer of at most 64 KiB; no other memory is taken but
/// the header's. After `Write`, when a write failed or took no byte, a part of it went out, and not
/// the whole; `Memory` comes before the first byte.
pub fn write_snapshot_from<S: RecordSource, W: Write>(
    alloc: Global,
    header: &Header,
    source: &S,
    writer: &mut W,
) -> Result<(), WriteFault>
    requires some { (1 ≤ header.now.record_len) × (header.now.record_len ≤ 256) }
    requires record_len { S.record_len source.now ≡ header.now.record_len }
    requires len { length (S.bytes source.now) ≡ records_len header.now }
    ensures whole { OnOk result (Appends (W.contents writer.old) (W.contents writer.new)
        (snapshot_bytes header.now (S.bytes source.now))) }
    ensures part { IfErr result (λ fault. (n : ℕ) ×
        (n < length (snapshot_bytes header.now (S.bytes source.now)))
        × Appends (W.contents writer.old) (W.contents writer.new)
        (take n (snapshot_bytes header.now (S.bytes source.now)))
        × (fault ≡ WriteFault.Memory → n ≡ 0)) }
{
    let prefix = header_bytes(alloc, header)?;
    let mut buffer = record_buffer(alloc, usize::from(header.record_len))?;
    write_all_bytes(header, &prefix, source, writer, &mut buffer)?;
    Ok(())
}

// Room for as many whole records as 64 KiB have. What it holds is not said, which keeps it out of
// the proofs.
fn record_buffer(alloc: Global, record_len: usize) -> Result<Vec<u8>, AllocError>
    requires { (1 ≤ record_len) × (record_len ≤ 256) }
    ensures { IfOk result (λ buffer. record_len ≤ length buffer.items) }
{
    Vec::from_elem(alloc, 0u8, PIECE_LEN / record_len * record_len)
}

// Writes the snapshot of a header, whose bytes are the prefix, and of a source's records. Prefix
// and buffer stay the caller's: to free them at each failure here would make the proof long.
fn write_all_bytes<S: RecordSource, W: Write>(
    header: &Header,
    prefix: &[u8],
    source: &S,
    writer: &mut W,
    buffer: &mut [u8],
) -> Result<(), WriteFailed>
    requires prefix { prefix.now ≡ header_bytes header.now }
    requires some { 1 ≤ header.now.record_len }
    requires record_len { S.record_len source.now ≡ header.now.record_len }
    requires room { header.now.record_len ≤ length buffer.old }
    requires len { length (S.bytes source.now) ≡ records_len header.now }
    ensures whole { OnOk result (Appends (W.contents writer.old) (W.contents writer.new)
        (snapshot_bytes header.now (S.bytes source.now))) }
    ensures part { OnErr result ((n : ℕ) ×
        (n < length (snapshot_bytes header.now (S.bytes source.now)))
        × Appends (W.contents writer.old) (W.contents writer.new)
        (take n (snapshot_bytes header.now (S.bytes source.now)))) }
{
    write_out(writer, prefix)?;
    let mut hasher = Sha256::new();
    hasher.update(prefix);
    write_records(
        source,
        usize::from(header.record_len),
        header.count as usize,
        writer,
        buffer,
        &mut hasher,
    )?;
    let digest = hasher.finalize();
    write_out(writer, &digest)?;
    Ok(())
}

// Writes records of a source, so many from the first one on, and hashes them: as many at a time as
// the buffer has room for.
fn write_records<S: RecordSource, W: Write>(
    source: &S,
    record_len: usize,
    count: usize,
    writer: &mut W,
    buffer: &mut [u8],
    hasher: &mut Sha256,
) -> Result<(), WriteFailed>
    requires some { 1 ≤ record_len }
    requires record_len { S.record_len source.now ≡ record_len }
    requires few { count < 2 ^ 32 }
    requires room { record_len ≤ length buffer.old }
    requires len { length (S.bytes source.now) ≡ count * record_len }
    ensures whole { OnOk result (Appends (W.contents writer.old) (W.contents writer.new)
        (S.bytes source.now)) }
    ensures hashed { OnOk result ((m : List ℕ) → Holds256 hasher.old m →
        Holds256 hasher.new (m ++ S.bytes source.now)) }
    ensures part { OnErr result ((n : ℕ) × (n < length (S.bytes source.now)) ×
        Appends (W.contents writer.old) (W.contents writer.new) (take n (S.bytes source.now))) }
{
    let most = buffer.len() / record_len;
    let mut i = 0;
    while i < count {
        let n = most.min(count - i);
        let piece = &mut buffer[..n * record_len];
        copy_records(source, i, record_len, piece);
        hasher.update(&*piece);
        write_out(writer, piece)?;
        i += n;
    }
    Ok(())
}

// Copies records from record `first` on: as many as `out` has room for.
fn copy_records<S: RecordSource>(source: &S, first: usize, record_len: usize, out: &mut [u8])
    requires some { 1 ≤ record_len }
    requires record_len { S.record_len source.now ≡ record_len }
    requires few { first < 2 ^ 32 }
    requires whole { (n : ℕ) × (length out.old ≡ n * record_len) }
    requires inside { first * record_len + length out.old ≤ length (S.bytes source.now) }
    ensures { out.new ≡
        take (length out.old) (drop (first * record_len) (S.bytes source.now)) }
{
    let count = out.len() / record_len;
    for k in 0..count {
        source.copy_record(
            first + k,
            &mut out[k * record_len..k * record_len + record_len],
        );
    }
}
