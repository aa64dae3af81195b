//! The command `make` if the number of the records is given: they are written as they are read.

ghost use Rattle.std.specs.Prelude.{◌≡◌, ◌≤◌, ℕ, List, length, IfOk, IfSome, OnOk};
ghost use Rattle.snapshot_file.specs.Snapshots.{records_len};
ghost use Rattle.server_files.specs.ReadIn.{IsReadWhole};

use crate::making::{BAD_RECORDS, EXISTS, bad_layout, most_bytes, progress_of, too_much};
use crate::slot_reading::SlotReader;
use command_words::{Failed, Failure};
use connection_io::{piece_buffer, read_piece};
use server_files::{
    InputFault, InputSize, OwnFile, Unwritten, WatchedReader, failed_at, write_read,
};
use server_words::Making;
use session_core::Header;
use std::alloc::Global;
use std::io::Read;

/// Makes a snapshot file of version 1 of the records on standard input, which are to be as many as
/// the header says, and returns how many there are. The records pass through a few buffers, and
/// nothing holds them all at once.
///
/// # Errors
///
/// The file is locked, and the new one beside it begun, before the records are read, and yet the
/// faults of the input come first. In this order: `BadLayout` if no store has the header's layout,
/// after `Read` and `BadRecords` of an input of more bytes than the largest store has; `Read`,
/// `BadRecords` if there are fewer or more records, or a line doesn't fit; `Locked`, `Exists` if
/// the file is to be new and is not, `File`, `Write`. `Memory` if memory was refused. Whatever had
/// the name stays then.
pub fn make_counted(rt: &HostRuntime, making: &Making<'_>, header: &Header) -> Result<u32, Failed> {
    if !header.is_accepted() {
        return Err(no_such_store(rt, making, header));
    }
    if making.form == 2 {
        let whole = InputSize::Lines(u64::from(header.count));
        let input = WatchedReader::new(rt.reader(), progress_of(rt, making, whole));
        let mut slots = SlotReader::new(rt.alloc(), input, header.record_len)?;
        match make_of_input(rt, making, header, &mut slots) {
            Ok(()) => Ok(header.count),
            Err(failed) => Err(slots.failed_or(failed)),
        }
    } else {
        let whole = InputSize::Bytes(header.records_len() as u64);
        let mut input = WatchedReader::new(rt.reader(), progress_of(rt, making, whole));
        make_of_input(rt, making, header, &mut input)?;
        Ok(header.count)
    }
}

// How sizes that no store has fail, or the input that is read before they are judged.
fn no_such_store(rt: &HostRuntime, making: &Making<'_>, header: &Header) -> Failed {
    let most = if making.form == 2 {
        2 * most_bytes(making.wide)
    } else {
        most_bytes(making.wide)
    };
    let mut input = WatchedReader::new(rt.reader(), progress_of(rt, making, InputSize::Unknown));
    match rest_of(rt.alloc(), &mut input, most) {
        Ok(Some(_)) => bad_layout(rt.alloc(), header),
        Ok(None) => too_much(rt.alloc(), most),
        Err(failed) => failed,
    }
}

// Makes the file of the records that a reader has.
fn make_of_input<R: Read>(
    rt: &HostRuntime,
    making: &Making<'_>,
    header: &Header,
    reader: &mut R,
) -> Result<(), Failed>
    ensures { OnOk result (IsReadWhole (records_len header.now)
        (R.remaining reader.old) (R.remaining reader.new)) }
{
    match write_out_file(rt, making, header, reader) {
        Ok(()) => Ok(()),
        Err(Unwritten::Input(fault)) => Err(bad_input(rt.alloc(), header, fault)),
        Err(Unwritten::File(failure, read)) => {
            let left = header.records_len().saturating_sub(read);
            match rest_of(rt.alloc(), reader, left)? {
                Some(n) if n == left => Err(failed_at(rt, making.out, failure)),
                Some(_) => Err(bad_input(rt.alloc(), header, InputFault::Few)),
                None => Err(bad_input(rt.alloc(), header, InputFault::Many)),
            }
        }
    }
}

// Writes the file, unless it is to be new and is not.
fn write_out_file<R: Read>(
    rt: &HostRuntime,
    making: &Making<'_>,
    header: &Header,
    reader: &mut R,
) -> Result<(), Unwritten>
    ensures { OnOk result (IsReadWhole (records_len header.now)
        (R.remaining reader.old) (R.remaining reader.new)) }
{
    let mut file = match OwnFile::to_write(rt, making.out) {
        Ok(file) => file,
        Err(failure) => return Err(Unwritten::File(failure, 0)),
    };
    if making.new && file.is_taken() {
        return Err(Unwritten::File(EXISTS, 0));
    }
    write_read(rt, &mut file, header, reader)
}

// How an input fails that is not as many records as the header says.
fn bad_input(alloc: Global, header: &Header, fault: InputFault) -> Failed {
    let count = header.count;
    let cause = match fault {
        InputFault::Few => format!(in alloc; "standard input: fewer than {count} records"),
        InputFault::Many => format!(in alloc; "standard input: more than {count} records"),
        InputFault::Read => return Failed::from(Failure::Fault("Read")),
        InputFault::Memory => return Failed::from(Failure::Memory),
    };
    Failed::by(BAD_RECORDS, cause)
}

// Reads to the end, and returns how many bytes came; none if there are more than so many.
fn rest_of<R: Read>(alloc: Global, reader: &mut R, most: usize) -> Result<Option<usize>, Failed>
    ensures { IfOk result (λ found. IfSome found (λ n. (n ≤ most)
        × IsReadWhole n (R.remaining reader.old) (R.remaining reader.new))) }
{
    let mut buffer = piece_buffer(alloc)?;
    let mut taken = 0;
    // Each read but the last gives a byte at least.
    'pieces: for _ in 0..=most {
        let Ok(n) = read_piece(reader, &mut buffer) else {
            return Err(Failed::from(Failure::Fault("Read")));
        };
        if n == 0 {
            return Ok(Some(taken));
        }
        if n > most - taken {
            return Ok(None);
        }
        taken += n;
    }
    Ok(None)
}
