//! Changes as they are written in bytes.

ghost use Rattle.std.specs.Prelude.{◌≡◌, ◌≤◌, ◌+◌, ◌*◌, ◌++◌, length, IfOk, OnOk};
ghost use Rattle.record_log.specs.OldRecords.{entries_bytes, entry_bytes};
ghost use Rattle.record_log.specs.Logs.{nth_bytes};
ghost use Rattle.record_log.specs.Steps.{AddsWithin, change_or_none};

use byteorder::{ByteOrder, LittleEndian};
use hint_changes::entry_len;
use snapshot_file::RecordSource;
use std::alloc::AllocError;

// The most bytes that a record has.
const MOST_BYTES: usize = 256;

// Adds the entry of a record to others, if its bytes changed, and says whether all entries together
// have so many bytes at most. If they would have more, nothing is written.
pub(crate) fn push_change<S: RecordSource>(
    out: &mut Vec<u8>,
    number: u32,
    old: &[u8],
    current: &S,
    most: usize,
) -> Result<bool, AllocError>
    requires len { S.record_len current.now ≡ length old.now }
    requires few { length old.now ≤ 256 }
    requires inside { number * length old.now + length old.now ≤ length (S.bytes current.now) }
    requires before { length out.old.items ≤ most }
    ensures { IfOk result (AddsWithin most out.old.items out.new.items (entries_bytes
        (change_or_none number old.now
        (nth_bytes (length old.now) (S.bytes current.now) number)))) }
{
    let mut room = [0u8; MOST_BYTES];
    let new = &mut room[..old.len()];
    current.copy_record(number as usize, new);
    if *old == *new {
        return Ok(true);
    }
    if entry_len(old.len()) > most - out.len() {
        return Ok(false);
    }
    push_entry(out, number, old, new)?;
    Ok(true)
}

// Adds an entry to others.
fn push_entry(out: &mut Vec<u8>, number: u32, old: &[u8], new: &[u8]) -> Result<(), AllocError>
    ensures { OnOk result (out.new.items ≡ out.old.items
        ++ entry_bytes (record { index = number; old = old.now; new = new.now })) }
{
    let mut start = [0u8; 4];
    LittleEndian::write_u32(&mut start, number);
    out.extend_from_slice(&start)?;
    out.extend_from_slice(old)?;
    out.extend_from_slice(new)
}
