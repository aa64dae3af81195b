//! The command `make`.

ghost use Rattle.std.specs.Prelude.{◌≡◌, ◌≤◌, ◌<◌, ◌+◌, ◌*◌, ◌/◌, ◌^◌, Some, length, IfOk};
ghost use Rattle.std.specs.Io.KnownBytes.{Consumes, IsAtEnd};
ghost use Rattle.command_words.specs.Values.{bytes_in};
ghost use Rattle.server_commands.specs.Makings.{header_made};

use crate::counted::make_counted;
use command_words::{Failed, Failure, bytes_from_hex};
use connection_io::{piece_buffer, read_piece};
use digit_pack::{LayoutError, is_wide, write_slot};
use safe_files::Place;
use server_files::{
    InputSize, OwnFile, ReadProgress, RecordsOf, WatchedReader, failed_at, write_anew,
};
use server_words::{KEY_TAKES, Making, SEED_TAKES};
use session_core::{Header, Layout};
use sha2::{Digest, Sha256};
use std::alloc::Global;
use std::io::Read;
use std::str;

/// The most record bytes: as many as there are words in the largest matrix.
const MAX_STORE_BYTES: usize = 33_554_432;

/// The most record bytes of a wide store: 2^30 digits of 9 bits.
const MAX_WIDE_STORE_BYTES: usize = 1_207_959_552;

/// How many words a secret of a new store has.
const DIMENSION: u16 = 1024;

/// The failure of a file that is to be new, if something has its name.
pub const EXISTS: Failure = Failure::Fault("Exists");

/// The failure of record bytes that no store takes.
pub const BAD_RECORDS: Failure = Failure::Fault("BadRecords");

/// The failure of sizes that no store has.
const BAD_LAYOUT: Failure = Failure::Fault("BadLayout");

/// The keys of a new store.
#[derive(Clone, Copy)]
pub struct Keys {
    // The key of the public matrix.
    seed: [u8; 32],
    // The publisher's key.
    publisher: [u8; 32],
}

/// Makes a snapshot file of version 1 of the records on standard input, and returns how many there
/// are. No hint is made for it.
///
/// # Errors
///
/// With `--count` the records are written as they are read, as [`make_counted`] says. Without it,
/// in this order: those of the files of the seed and of the key (`File`, `Value`), `Exists` if the
/// file is to be new and something has its name, those of the input (`Read`, `BadRecords` if there
/// are more bytes than the largest store has), `BadLayout` if no store has this layout,
/// `BadRecords` if these are not whole records or a line doesn't fit, those of the file (`Locked`
/// if another process has it, `Exists` once more, `File`, `Write`). `Memory` if memory was refused.
pub fn make(rt: &HostRuntime, making: &Making<'_>) -> Result<u32, Failed> {
    let keys = Keys {
        seed: making
            .seed
            .seed(rt, SEED_TAKES)
            .map_err(|failure| making.seed.failed(rt, failure))?,
        publisher: making
            .key
            .key(rt, KEY_TAKES)
            .map_err(|failure| making.key.failed(rt, failure))?,
    };
    if making.new && Place::of(rt, making.out)?.is_taken() {
        return Err(failed_at(rt, making.out, EXISTS));
    }
    match making.count {
        Some(count) => make_counted(rt, making, &header_of(making, &keys, count as usize)),
        None if making.form == 2 => make_of_lines(rt, making, &keys),
        None => make_of_bytes(rt, making, &keys),
    }
}

/// What reports on an input of this size, if that is asked for.
pub fn progress_of<'a>(
    rt: &'a HostRuntime,
    making: &Making<'_>,
    whole: InputSize,
) -> Option<ReadProgress<'a>> {
    if making.progress {
        ReadProgress::new(rt, whole)
    } else {
        None
    }
}

// Makes a store of form 1. The input is the bytes of its records.
fn make_of_bytes(rt: &HostRuntime, making: &Making<'_>, keys: &Keys) -> Result<u32, Failed> {
    let mut input = WatchedReader::new(rt.reader(), progress_of(rt, making, InputSize::Unknown));
    let records = read_input(rt.alloc(), &mut input, most_bytes(making.wide))?;
    let header = header_of(making, keys, whole_records(making, records.len()));
    if !header.is_accepted() {
        return Err(bad_layout(rt.alloc(), &header));
    }
    if records.len() != header.records_len() {
        return Err(no_whole_records(rt.alloc(), &header, records.len()));
    }
    write_made(rt, making, &header, &records)
}

/// The most bytes that the records of a store have. Lines of hex have fewer than twice those of
/// their slots.
pub fn most_bytes(wide: bool) -> usize
    ensures { result ≤ 1207959552 }
{
    if wide {
        MAX_WIDE_STORE_BYTES
    } else {
        MAX_STORE_BYTES
    }
}

// Makes a store of form 2. The input has a line for each record.
fn make_of_lines(rt: &HostRuntime, making: &Making<'_>, keys: &Keys) -> Result<u32, Failed> {
    let mut input = WatchedReader::new(rt.reader(), progress_of(rt, making, InputSize::Unknown));
    let lines = read_input(rt.alloc(), &mut input, 2 * most_bytes(making.wide))?;
    let header = header_of(making, keys, lines_in(&lines));
    if !header.is_accepted() {
        return Err(bad_layout(rt.alloc(), &header));
    }
    let records = slots_of(rt.alloc(), &header, &lines)?;
    write_made(rt, making, &header, &records)
}

// Writes the file, and returns how many records it has.
fn write_made(
    rt: &HostRuntime,
    making: &Making<'_>,
    header: &Header,
    bytes: &[u8],
) -> Result<u32, Failed> {
    match write_out_file(rt, making, header, bytes) {
        Ok(()) => Ok(header.count),
        Err(failure) => Err(failed_at(rt, making.out, failure)),
    }
}

// Writes the file, unless it is to be new and is not.
fn write_out_file(
    rt: &HostRuntime,
    making: &Making<'_>,
    header: &Header,
    bytes: &[u8],
) -> Result<(), Failure> {
    let mut file = OwnFile::to_write(rt, making.out)?;
    if making.new && file.is_taken() {
        return Err(EXISTS);
    }
    write_anew(rt, &mut file, &RecordsOf { header, bytes })?;
    Ok(())
}

// The slots of the records in some lines, of which there is one for each record.
fn slots_of(alloc: Global, header: &Header, lines: &[u8]) -> Result<Vec<u8>, Failed> {
    let Ok(layout) = header.layout() else {
        return Err(bad_layout(alloc, header));
    };
    let Ok(text) = str::from_utf8(lines) else {
        let cause = format!(in alloc; "standard input: a byte that is no character of a line");
        return Err(Failed::by(BAD_RECORDS, cause));
    };
    let mut slots = vec![in alloc; 0; header.records_len()]?;
    fill_slots(alloc, &layout, &mut slots, text)?;
    Ok(slots)
}

// Fills a slot for each record, from its line.
fn fill_slots(alloc: Global, layout: &Layout, slots: &mut [u8], text: &str) -> Result<(), Failed>
    requires { length slots.old ≡ layout.now.count * layout.now.record_len }
{
    let mut lines = text.split('\n');
    for i in 0..layout.count() {
        let Some(line) = lines.next() else {
            return Err(bad_line(alloc, i, "there is none"));
        };
        let bytes = record_of_line(alloc, i, line, layout.record_len())?;
        write_slot(layout, slots, i, &bytes);
    }
    Ok(())
}

/// The record in a line, the number of which is counted from 0. The record fits into a slot of so
/// many bytes.
///
/// # Errors
///
/// `BadRecords` if the line doesn't fit, `Memory`.
pub fn record_of_line(
    alloc: Global,
    line: usize,
    text: &str,
    slot_len: usize,
) -> Result<Vec<u8>, Failed>
    ensures read { IfOk result (λ bytes. bytes_in text.now ≡ Some bytes.items) }
    ensures fits { IfOk result (λ bytes. length bytes.items + 2 ≤ slot_len) }
{
    match bytes_from_hex(alloc, text)? {
        Some(bytes) if bytes.len() + 2 <= slot_len => Ok(bytes),
        Some(_) => Err(bad_line(
            alloc,
            line,
            "the record has more bytes than --record less 2",
        )),
        None => Err(bad_line(alloc, line, "no pairs of hex digits, and not -")),
    }
}

/// How a line that is no record of its store fails; the first line, which is said to be line 1, has
/// the number 0.
pub fn bad_line(alloc: Global, line: usize, why: &str) -> Failed {
    let number = line as u128 + 1;
    let cause = format!(in alloc; "standard input, line {number}: {why}");
    Failed::by(BAD_RECORDS, cause)
}

// How bytes that are no whole number of records fail.
fn no_whole_records(alloc: Global, header: &Header, bytes: usize) -> Failed {
    let record_len = header.record_len;
    let cause = format!(in alloc;
        "standard input: {bytes} bytes are no whole number of records of {record_len} bytes"
    );
    Failed::by(BAD_RECORDS, cause)
}

/// How sizes that no store has fail: the limit that they break.
pub fn bad_layout(alloc: Global, header: &Header) -> Failed {
    let cause = match header.layout() {
        Err(limit) if is_wide(u16::from(header.form)) => format!(in alloc; "{}", wide_limit(limit)),
        Err(limit) => format!(in alloc; "{limit}"),
        Ok(_) => format!(in alloc; "a slot has 2 to 256 bytes"),
    };
    Failed::by(BAD_LAYOUT, cause)
}

// The limit of a wide store.
fn wide_limit(limit: LayoutError) -> &'static str {
    match limit {
        LayoutError::BadWidth => "a digit of a wide store has 6 to 9 bits",
        LayoutError::BadRecord => "a record has 1 to 256 bytes",
        LayoutError::BadGroups => {
            "a column of a wide store holds at least one record and at most 32768 digits, and a \
                query at most 4128768 words for them"
        }
        LayoutError::BadCount => "a wide store has 1 to 32768 columns of records",
    }
}

// How many lines there are. The last one may lack its line feed.
fn lines_in(text: &[u8]) -> usize
    ensures { result ≤ length text.now + 1 }
{
    let ends = text.iter().filter(|byte| **byte == b'\n').count();
    match text.last() {
        Some(b'\n') => ends,
        Some(_) => ends + 1,
        None => 0,
    }
}

// How many whole records so many bytes are. Records of no bytes are none.
fn whole_records(making: &Making<'_>, bytes: usize) -> usize
    ensures few { result ≤ bytes }
    ensures whole { 1 ≤ making.now.record_len → result ≡ bytes / making.now.record_len }
{
    match usize::from(making.record_len) {
        0 => 0,
        record_len => bytes / record_len,
    }
}

// All bytes of a reader, if they are at most so many.
fn read_input<R: Read>(alloc: Global, reader: &mut R, most: usize) -> Result<Vec<u8>, Failed>
    requires { most ≤ 2415919104 }
    ensures all { IfOk result (λ bytes. Consumes (R.remaining reader.old)
        (R.remaining reader.new) bytes.items × IsAtEnd (R.remaining reader.new)) }
    ensures few { IfOk result (λ bytes. length bytes.items ≤ most) }
{
    let mut buffer = piece_buffer(alloc)?;
    let mut bytes = Vec::new(alloc);
    // Each read but the last gives a byte at least.
    'pieces: for _ in 0..=most {
        let Ok(n) = read_piece(reader, &mut buffer) else {
            return Err(Failed::from(Failure::Fault("Read")));
        };
        if n == 0 {
            return Ok(bytes);
        }
        if n > most - bytes.len() {
            return Err(too_much(alloc, most));
        }
        bytes.extend_from_slice(&buffer[..n])?;
    }
    Err(too_much(alloc, most))
}

/// How an input of more bytes than the largest store has fails.
pub fn too_much(alloc: Global, most: usize) -> Failed {
    let cause = format!(in alloc; "standard input: more than {most} bytes");
    Failed::by(BAD_RECORDS, cause)
}

// The header of version 1 of so many records.
fn header_of(making: &Making<'_>, keys: &Keys, count: usize) -> Header
    requires { count < 2 ^ 32 }
    ensures { result ≡ header_made making.now keys.now count }
{
    Header {
        form: if making.wide {
            making.form.wrapping_add(128)
        } else {
            making.form
        },
        width: making.width,
        record_len: making.record_len,
        groups: making.groups,
        count: count as u32,
        dimension: DIMENSION,
        version: 1,
        seed: keys.seed,
        publisher: Sha256::digest(keys.publisher.as_slice()),
    }
}
