//! The records of a snapshot, read piece by piece into what keeps them: nothing holds their bytes
//! all at once.

ghost use Rattle.std.specs.Prelude.{◌≡◌, ◌≤◌, ◌<◌, ◌*◌, ◌+◌, ◌^◌, ◌++◌, [], ℕ, List, length};
ghost use Rattle.std.specs.Prelude.{OnOk, IfErr, IfOk};
ghost use Rattle.std.specs.Io.KnownBytes.{Consumes, IsAtEnd};
ghost use Rattle.sha2.specs.Sha256.{sha256};
ghost use Rattle.sha2.specs.Hashers.{Holds256};
ghost use Rattle.digit_pack.specs.Layout.{Shape};
ghost use Rattle.digit_pack.specs.Slots.{is_slot};
ghost use Rattle.snapshot_file.specs.Snapshots.{header_bytes, hashed_bytes, shape_of, with_count};
ghost use Rattle.snapshot_file.specs.Snapshots.{has_slots, IsHeader, IsAccepted, IsSnapshot};
ghost use Rattle.snapshot_file.specs.Verdicts.{EndsBelow, StopsReadingAt};

use crate::header::{DIGEST_LEN, hash_header};
use crate::reading::{fill, read_digest};
use crate::snapshot::{Header, SnapshotFault};
use digit_pack::{is_slotted, read_slot};
use sha2::{Digest, Sha256};
use std::alloc::Global;
use std::io::Read;

/// What takes records of one length, one after another, however it keeps them.
pub trait RecordSink: Sized + Drop {
    /// The bytes of the records that it has taken, one after another.
    ghost taken: { Self → List ℕ };

    /// The sizes of the records, and how many there is room for.
    ghost shape: { Self → Shape };

    /// Takes further records, one after another in `bytes`, without taking memory.
    fn take_records(&mut self, bytes: &[u8])
        requires whole { (n : ℕ) × (length bytes.now ≡ n * (shape self.old).record_len) }
        requires room { length (taken self.old) + length bytes.now
            ≤ (shape self.old).count * (shape self.old).record_len }
        ensures taken { taken self.new ≡ taken self.old ++ bytes.now }
        ensures shape { shape self.new ≡ shape self.old };
}

/// Reads what follows an accepted header into a sink, and returns the snapshot's digest: the
/// records through `buffer`, as many at a time as it has room for, their digest, and the end of the
/// input. No memory is taken but the header's.
///
/// # Errors
///
/// Those of `read_snapshot`, each with the byte that makes it; the sink may have taken records
/// then.
pub fn read_records_into<R: Read, S: RecordSink>(
    alloc: Global,
    reader: &mut R,
    header: &Header,
    buffer: &mut [u8],
    sink: &mut S,
) -> Result<[u8; DIGEST_LEN], SnapshotFault>
    requires header { IsHeader header.now }
    requires accepted { IsAccepted header.now }
    requires room { header.now.record_len ≤ length buffer.old }
    requires shape { S.shape sink.old ≡ shape_of header.now }
    requires none { S.taken sink.old ≡ [] }
    ensures ok { OnOk result (IsSnapshot header.now (S.taken sink.new)
        × Consumes (R.remaining reader.old) (R.remaining reader.new)
        (S.taken sink.new ++ sha256 (hashed_bytes header.now (S.taken sink.new)))
        × IsAtEnd (R.remaining reader.new)) }
    ensures digest { IfOk result (λ digest.
        digest ≡ sha256 (hashed_bytes header.now (S.taken sink.new))) }
    ensures shape { S.shape sink.new ≡ S.shape sink.old }
    ensures err { IfErr result (λ fault. (read : List ℕ) ×
        Consumes (R.remaining reader.old) (R.remaining reader.new) read
        × StopsReadingAt fault (header_bytes header.now ++ read) (R.remaining reader.new)) }
{
    // of the bytes that were read: a header has no others
    let mut hasher = hash_header(alloc, header)?;
    let good = receive_records(reader, header, buffer, &mut hasher, sink)?;
    let digest = hasher.finalize();
    read_digest(reader, digest)?;
    if !good {
        return Err(SnapshotFault::BadSlot);
    }
    Ok(digest)
}

// Reads the records of a header into a sink, as many at a time as the buffer has room for, and
// hashes them. The answer is whether each is a slot, in a form of slots.
fn receive_records<R: Read, S: RecordSink>(
    reader: &mut R,
    header: &Header,
    buffer: &mut [u8],
    hasher: &mut Sha256,
    sink: &mut S,
) -> Result<bool, SnapshotFault>
    requires some { 1 ≤ header.now.record_len }
    requires few { header.now.count < 2 ^ 32 }
    requires room { header.now.record_len ≤ length buffer.old }
    requires shape { S.shape sink.old ≡ shape_of header.now }
    requires none { S.taken sink.old ≡ [] }
    ensures ok { OnOk result ((length (S.taken sink.new) ≡ header.now.count * header.now.record_len)
        × Consumes (R.remaining reader.old) (R.remaining reader.new) (S.taken sink.new)) }
    ensures slots { IfOk result (λ good. good ≡ has_slots header.now (S.taken sink.new)) }
    ensures hashed { OnOk result ((m : List ℕ) → Holds256 hasher.old m →
        Holds256 hasher.new (m ++ S.taken sink.new)) }
    ensures shape { S.shape sink.new ≡ S.shape sink.old }
    ensures err { IfErr result (λ fault. (part : List ℕ) ×
        Consumes (R.remaining reader.old) (R.remaining reader.new) part
        × EndsBelow (header.now.count * header.now.record_len) fault part
        (R.remaining reader.new)) }
{
    let record_len = usize::from(header.record_len);
    let count = header.count as usize;
    let most = buffer.len() / record_len;
    let mut good = true;
    let mut i = 0;
    while i < count {
        let n = most.min(count - i);
        let piece = &mut buffer[..n * record_len];
        fill(reader, piece)?;
        hasher.update(&*piece);
        good = judge_records(header, good, piece);
        sink.take_records(piece);
        i += n;
    }
    Ok(good)
}

// Judges records that come after others: whether each is a slot, in a form of slots, if `good` says
// so of those before.
fn judge_records(header: &Header, good: bool, piece: &[u8]) -> bool
    requires some { 1 ≤ header.now.record_len }
    requires whole { (n : ℕ) × (length piece.now ≡ n * header.now.record_len) }
    ensures { (before : List ℕ) → (m n : ℕ) → length before ≡ m * header.now.record_len →
        length piece.now ≡ n * header.now.record_len →
        good ≡ has_slots (with_count m header.now) before →
        result ≡ has_slots (with_count (m + n) header.now) (before ++ piece.now) }
{
    if !is_slotted(u16::from(header.form)) {
        return good;
    }
    let record_len = usize::from(header.record_len);
    let mut all = good;
    for k in 0..piece.len() / record_len {
        let bytes = &piece[k * record_len..k * record_len + record_len];
        all = is_good(bytes) && all;
    }
    all
}

// Whether bytes are a slot.
fn is_good(bytes: &[u8]) -> bool
    ensures { result ≡ is_slot bytes.now }
{
    read_slot(bytes).is_ok()
}
