//! A snapshot written to a writer.

ghost use Rattle.std.specs.Prelude.{◌≡◌, ◌≤◌, ◌<◌, ℕ, Err, length, take, OnOk, OnErr, IfErr};
ghost use Rattle.std.specs.Io.KnownBytes.{Appends};
ghost use Rattle.snapshot_file.specs.Snapshots.{snapshot_bytes};

use crate::header::{digest_of, header_bytes};
use crate::snapshot::{Header, WriteFault};
use connection_io::write_out;
use std::alloc::Global;
use std::io::Write;

/// Writes the snapshot of a header and its records, `count` times `record_len` bytes if it is to be
/// read back. After `Write`, when a write failed or took no byte, a part of it went out, and not
/// the whole; `Memory` comes before the first byte.
pub fn write_snapshot_bytes<W: Write>(
    alloc: Global,
    header: &Header,
    records: &[u8],
    writer: &mut W,
) -> Result<(), WriteFault>
    ensures whole { OnOk result (Appends (W.contents writer.old) (W.contents writer.new)
        (snapshot_bytes header.now records.now)) }
    ensures part { IfErr result (λ fault. (n : ℕ) ×
        (n < length (snapshot_bytes header.now records.now))
        × Appends (W.contents writer.old) (W.contents writer.new)
        (take n (snapshot_bytes header.now records.now))
        × (fault ≡ WriteFault.Memory → n ≡ 0)) }
{
    let prefix = header_bytes(alloc, header)?;
    let digest = digest_of(&prefix, records);
    write_out(writer, &prefix)?;
    write_out(writer, records)?;
    write_out(writer, &digest)?;
    Ok(())
}
