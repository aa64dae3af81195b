//! A file replaced by the snapshot of records that are read meanwhile.

ghost use Rattle.std.specs.Prelude.{◌≡◌, ℕ, List, length, Ok, Err, OnOk, IfErr, ⊤};
ghost use Rattle.std.specs.Io.KnownBytes.{Consumes, IsAtEnd};
ghost use Rattle.safe_files.specs.declared.replacing.ReplaceFault.{ReplaceFault};
ghost use Rattle.safe_files.specs.Steps.{Replaces};
ghost use Rattle.server_files.specs.ReadIn.{EndsReplacement};
ghost use Rattle.snapshot_file.specs.Snapshots.{records_len, snapshot_bytes};

use crate::files::{NOT_WRITTEN, replace_failure};
use crate::logs::log_failure;
use command_words::Failure;
use publication_log::{log_name, remove_log};
use safe_files::{Disk, ReplaceFault, finish};
use session_core::Header;
use snapshot_file::{CopyFault, write_snapshot_read};
use std::io::Read;

/// Why an input is not the records that a header says.
#[derive(Clone, Copy)]
pub enum InputFault {
    /// There are fewer.
    Few,
    /// There are more.
    Many,
    /// A read failed.
    Read,
    /// Memory to read it was refused.
    Memory,
}

/// Why the snapshot of records that are read meanwhile was not written.
#[derive(Clone, Copy)]
pub enum Unwritten {
    /// Their input is at fault.
    Input(InputFault),
    /// The file is, when so many bytes of them had been read.
    File(Failure, usize),
}

/// Replaces a file of this name by the snapshot of a header and of all bytes that a reader has,
/// which must be as many as the header's records have, or makes it. A log that belongs to this very
/// snapshot is removed before, since it would be taken for its own.
///
/// # Errors
///
/// Each as [`Unwritten`] says. No file that was made is left beside it.
pub fn replace_read<D: Disk, R: Read>(
    rt: &HostRuntime,
    disk: &mut D,
    name: &str,
    header: &Header,
    reader: &mut R,
) -> Result<(), Unwritten>
    ensures whole { OnOk result ((records : List ℕ) × (length records ≡ records_len header.now)
        × Consumes (R.remaining reader.old) (R.remaining reader.new) records
        × IsAtEnd (R.remaining reader.new)
        × Replaces {T = ⊤} D.does D.fresh (snapshot_bytes header.now records)
        disk.old (Ok tt) disk.new) }
    ensures refused { IfErr result (λ unwritten. (bytes : List ℕ) × (fault : ReplaceFault) ×
        EndsReplacement unwritten fault
        × Replaces {T = ⊤} D.does D.fresh bytes disk.old (Err fault) disk.new) }
{
    let Ok(mut file) = disk.make() else {
        return Err(Unwritten::File(replace_failure(ReplaceFault::Make), 0));
    };
    let digest = match write_snapshot_read(rt.alloc(), header, reader, &mut file) {
        Ok(digest) => digest,
        Err(fault) => {
            disk.remove();
            return Err(how_unwritten(fault));
        }
    };
    let len = header.records_len();
    if let Err(failure) = forget_log(rt, name, &digest) {
        disk.remove();
        return Err(Unwritten::File(failure, len));
    }
    match finish(disk, file) {
        Ok(()) => Ok(()),
        Err(fault) => Err(Unwritten::File(replace_failure(fault), len)),
    }
}

// Removes the log of a snapshot with this digest in a file of this name.
fn forget_log(rt: &HostRuntime, name: &str, digest: &[u8; 32]) -> Result<(), Failure> {
    let log = log_name(rt.alloc(), name, digest)?;
    match remove_log(rt, log.as_str()) {
        Ok(()) => Ok(()),
        Err(fault) => Err(log_failure(fault)),
    }
}

/// What a snapshot that was not written is to the input and the file.
pub fn how_unwritten(fault: CopyFault) -> Unwritten {
    match fault {
        CopyFault::Few => Unwritten::Input(InputFault::Few),
        CopyFault::Many => Unwritten::Input(InputFault::Many),
        CopyFault::Read => Unwritten::Input(InputFault::Read),
        CopyFault::Memory => Unwritten::Input(InputFault::Memory),
        CopyFault::Write(read) => Unwritten::File(NOT_WRITTEN, read),
    }
}
