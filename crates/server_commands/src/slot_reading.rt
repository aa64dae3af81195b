//! Lines of hex, read as the slots of their records.

ghost use Rattle.std.specs.Prelude.{◌≡◌, ◌-◌, ℕ, List, Some, length, min, take, drop, IfOk};
ghost use Rattle.command_words.specs.Values.{bytes_in};
ghost use Rattle.digit_pack.specs.Slots.{slot_of};

use crate::making::{bad_line, record_of_line};
use command_words::{Failed, Failure};
use connection_io::piece_buffer;
use digit_pack::fill_slot;
use std::alloc::{AllocError, Global};
use std::io::{ErrorKind, Read};
use std::{io, str};

/// A reader of the slots of some records, of which another reader has a line each. A line that is
/// no record ends it by an error, and what failed is kept.
#[derive(Drop)]
pub struct SlotReader<R> {
    alloc: Global,
    lines: R,
    // What was read of the lines, and which part of it is still to be taken.
    piece: Vec<u8>,
    taken: usize,
    len: usize,
    // The line that is read, and how many were before it.
    line: Vec<u8>,
    number: usize,
    // The slot of the last line, and how many of its bytes were given out.
    slot: Vec<u8>,
    given: usize,
    slot_len: u16,
    failed: Option<Failed>,
}

// What came of a line.
enum Came {
    // Its end.
    End,
    // A part of it.
    Part,
    // Nothing more: the input has ended.
    Nothing,
}

impl<R: Read + Drop> SlotReader<R> {
    /// The slots of so many bytes each of the records in these lines.
    ///
    /// # Errors
    ///
    /// `AllocError` if memory was refused.
    pub fn new(alloc: Global, lines: R, slot_len: u16) -> Result<SlotReader<R>, AllocError> {
        let piece = piece_buffer(alloc)?;
        Ok(SlotReader {
            alloc,
            lines,
            piece,
            taken: 0,
            len: 0,
            line: Vec::new(alloc),
            number: 0,
            slot: Vec::new(alloc),
            given: 0,
            slot_len,
            failed: None,
        })
    }

    /// What failed, if that is known; else what another says.
    pub fn failed_or(self, other: Failed) -> Failed {
        let SlotReader { failed, .. } = self;
        match failed {
            Some(failed) => failed,
            None => other,
        }
    }

    // Makes the slot of the next line, and returns whether there is one.
    fn next_slot(&mut self) -> Result<bool, Failed> {
        if !self.next_line()? {
            return Ok(false);
        }
        self.slot = slot_of_line(self.alloc, self.number, &self.line, self.slot_len)?;
        self.given = 0;
        self.number = self.number.saturating_add(1);
        Ok(true)
    }

    // Reads the next line, without its end, and returns whether there is one. The last one may lack
    // its line feed.
    fn next_line(&mut self) -> Result<bool, Failed> {
        self.line.clear();
        let most = 2 * usize::from(self.slot_len);
        // Each turn but the last adds a byte at least.
        for _ in 0..=most {
            match self.add_to_line()? {
                Came::End => return Ok(true),
                Came::Nothing => return Ok(!self.line.is_empty()),
                Came::Part => {}
            }
            if self.line.len() > most {
                break;
            }
        }
        Err(bad_line(
            self.alloc,
            self.number,
            "the record has more bytes than --record less 2",
        ))
    }

    // Adds to the line what was read of it, and reads more if there is none.
    fn add_to_line(&mut self) -> Result<Came, Failed> {
        if self.taken >= self.len {
            let Ok(n) = self.lines.read(&mut self.piece) else {
                return Err(Failed::from(Failure::Fault("Read")));
            };
            self.taken = 0;
            self.len = n;
        }
        let rest = self.piece.get(self.taken..self.len).unwrap_or(&[]);
        if rest.is_empty() {
            return Ok(Came::Nothing);
        }
        let end = rest.iter().position(|byte| *byte == b'\n');
        let n = end.unwrap_or(rest.len());
        self.line.extend_from_slice(&rest[..n])?;
        self.taken = self.taken.saturating_add(n);
        match end {
            Some(_) => {
                self.taken = self.taken.saturating_add(1);
                Ok(Came::End)
            }
            None => Ok(Came::Part),
        }
    }
}

impl<R: Read + Drop> Read for SlotReader<R> {
    fn read(&mut self, buffer: &mut [u8]) -> io::Result<usize> {
        if self.given >= self.slot.len() {
            match self.next_slot() {
                Ok(true) => {}
                Ok(false) => return Ok(0),
                Err(failed) => {
                    self.failed = Some(failed);
                    return Err(ErrorKind::InvalidData.into());
                }
            }
        }
        let n = give_out(&self.slot, self.given, buffer);
        self.given = self.given.saturating_add(n);
        Ok(n)
    }
}

// Copies the bytes of a slot after the first ones, as many as there is room for, and returns how
// many these are.
fn give_out(slot: &[u8], given: usize, buffer: &mut [u8]) -> usize
    ensures count { result ≡ min (length slot.now - given) (length buffer.old) }
    ensures bytes { take result buffer.new ≡ take result (drop given slot.now) }
{
    let Some(rest) = slot.get(given..) else {
        return 0;
    };
    let n = rest.len().min(buffer.len());
    buffer[..n].copy_from_slice(&rest[..n]);
    n
}

// The slot of the record in a line, the number of which is counted from 0.
fn slot_of_line(alloc: Global, number: usize, line: &[u8], slot_len: u16) -> Result<Vec<u8>, Failed>
    ensures { IfOk result (λ slot. (bytes : List ℕ) × (bytes_in line.now ≡ Some bytes)
        × (slot.items ≡ slot_of slot_len bytes)) }
{
    let Ok(text) = str::from_utf8(line) else {
        return Err(bad_line(alloc, number, "a byte that is no character of a line"));
    };
    let bytes = record_of_line(alloc, number, text, usize::from(slot_len))?;
    let mut slot = vec![in alloc; 0; usize::from(slot_len)]?;
    fill_slot(&bytes, &mut slot);
    Ok(slot)
}
