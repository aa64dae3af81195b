//! The lines of an import.

ghost use Rattle.std.specs.Prelude.{◌≡◌, IfOk, IfSome, MatchOption, None, Some, ◌<◌, length};
ghost use Rattle.std.specs.Prelude.{position};
ghost use Rattle.publisher_drafts.specs.Lines.{IsLine, IsTarget, is_mark, words_in};

use crate::judging::Target;
use command_words::{decimal, record_bytes};
use std::alloc::{AllocError, Global};
use std::str;

/// What a line asks for.
#[derive(Drop)]
pub struct ImportLine {
    /// What is to be changed.
    pub target: Target,
    /// The bytes of the record.
    pub bytes: Vec<u8>,
}

/// What a first line may be, if it says what the others have.
const TITLE: &[u8] = b"index,hex";

/// Whether a line, the number of which is counted from 0, says what the others have.
pub fn is_title(number: u64, line: &[u8]) -> bool {
    number == 0 && line == TITLE
}

/// Reads a line: an index in decimal digits or `+`, one space or comma, and the record in hex, or
/// `-` if it has no bytes. `None` if the line is none of these.
///
/// # Errors
///
/// `AllocError` when memory was refused.
pub fn read_line(alloc: Global, line: &[u8]) -> Result<Option<ImportLine>, AllocError>
    ensures { IfOk result (λ found. IfSome found (λ it.
        IsLine line.now it.target it.bytes.items)) }
{
    let Some((first, hex)) = words_of(line) else {
        return Ok(None);
    };
    let Ok(first) = str::from_utf8(first) else {
        return Ok(None);
    };
    let Ok(hex) = str::from_utf8(hex) else {
        return Ok(None);
    };
    let Some(target) = target_of(first) else {
        return Ok(None);
    };
    match record_bytes(alloc, hex)? {
        Some(bytes) => Ok(Some(ImportLine { target, bytes })),
        None => Ok(None),
    }
}

// The two words of a line.
fn words_of(line: &[u8]) -> Option<(&[u8], &[u8])>
    ensures { MatchOption result (words_in line.now ≡ None)
        (λ words. words_in line.now ≡ Some (words.0.now, words.1.now)) }
{
    let at = mark_at(line)?;
    Some((&line[..at], &line[at + 1..]))
}

// Where the byte between the words of a line is.
fn mark_at(line: &[u8]) -> Option<usize>
    ensures at { result ≡ position is_mark line.now }
    ensures within { IfSome result (λ at. at < length line.now) }
{
    line.iter().position(|b| *b == b' ' || *b == b',')
}

// What a word names.
fn target_of(word: &str) -> Option<Target>
    ensures { IfSome result (IsTarget word.now) }
{
    if word == "+" {
        return Some(Target::End);
    }
    match decimal(word) {
        Some(index) if index <= u64::from(u32::MAX) => Some(Target::At(index as u32)),
        _ => None,
    }
}
