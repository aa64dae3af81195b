//! The file of a hint, as it is written.

ghost use Rattle.std.specs.Prelude.{◌≡◌, ◌++◌, length, IfOk, OnOk};
ghost use Rattle.std.specs.Io.KnownBytes.{Appends};
ghost use Rattle.frame_codec.specs.Numbers.{word_bytes};
ghost use Rattle.client_core.specs.declared.state.ServerInfo.{ServerInfo};
ghost use Rattle.hint_file.specs.Files.{fields_of, hint_bytes};

use crate::digests::{PART_LEN, digests_of_words};
use crate::heads::{FRONT_LEN, HintFields, head_bytes};
use crate::sealing::DIGEST_LEN;
use crate::word_bytes::add_words;
use byteorder::{ByteOrder, LittleEndian};
use client_core::{Hint, ServerInfo};
use pir_schemes::PART_WORDS;
use std::alloc::{AllocError, Global};
use std::io::Write;
use thiserror::Error;

/// A hint that was kept, and what the server had reported last.
#[derive(Drop)]
pub struct KeptHint {
    pub known: ServerInfo,
    pub hint: Hint,
}

/// The file of a hint: its head, and the hint's words, whose bytes are made part by part as they
/// are written.
#[derive(Drop)]
pub struct HintFile<'a> {
    pub head: Vec<u8>,
    pub words: &'a [u32],
}

/// Why a file was not written as a whole.
#[derive(Clone, Copy, Debug, PartialEq, Eq, Error)]
pub enum HintWriteFault {
    /// A write failed, or took no byte.
    #[error("a write failed")]
    Write,
    /// Memory was refused.
    #[error("out of memory")]
    Memory,
}

impl From<AllocError> for HintWriteFault {
    ghost use Rattle.hint_file.specs.declared.hints.HintWriteFault.TheVariants.{Memory};

    ghost from_gives = { λ _ fault. fault ≡ Memory };

    fn from(_refused: AllocError) -> Self {
        HintWriteFault::Memory
    }
}

impl HintFile<'_> {
    /// Writes all bytes of the file, part by part.
    ///
    /// # Errors
    ///
    /// `Write` when a write failed, `Memory` when memory was refused. How many bytes went out is
    /// not said.
    pub fn write_to<W: Write>(&self, alloc: Global, writer: &mut W) -> Result<(), HintWriteFault>
        ensures { OnOk result (Appends (W.contents writer.old) (W.contents writer.new)
            (self.now.head.items ++ word_bytes self.now.words.now)) }
    {
        if writer.write_all(&self.head).is_err() {
            return Err(HintWriteFault::Write);
        }
        write_words(alloc, self.words, writer)
    }

    /// How many bytes the file has.
    pub fn len(&self) -> usize
        ensures { result ≡ length (self.now.head.items ++ word_bytes self.now.words.now) }
    {
        self.head.len() + 4 * self.words.len()
    }

    /// Writes all bytes of the file into a slice of as many.
    pub fn write_into(&self, out: &mut [u8])
        requires { length out.old ≡
            length (self.now.head.items ++ word_bytes self.now.words.now) }
        ensures { out.new ≡ self.now.head.items ++ word_bytes self.now.words.now }
    {
        let (head, words) = out.split_at_mut(self.head.len());
        head.copy_from_slice(&self.head);
        LittleEndian::write_u32_into(self.words, words);
    }
}

// Writes four bytes for each word. No more than the bytes of one part are in memory at once.
fn write_words<W: Write>(alloc: Global, words: &[u32], writer: &mut W) -> Result<(), HintWriteFault>
    ensures { OnOk result
        (Appends (W.contents writer.old) (W.contents writer.new) (word_bytes words.now)) }
{
    let mut bytes = Vec::with_capacity(alloc, 4 * words.len().min(PART_WORDS))?;
    let mut rest = words;
    while !rest.is_empty() {
        let (part, beyond) = rest.split_at(rest.len().min(PART_WORDS));
        bytes.clear();
        add_words(&mut bytes, part)?;
        if writer.write_all(&bytes).is_err() {
            return Err(HintWriteFault::Write);
        }
        rest = beyond;
    }
    Ok(())
}

// Which hint this is, and what the server had reported last.
fn fields_of(known: &ServerInfo, hint: &Hint) -> HintFields
    ensures { result ≡ fields_of known.now hint.now }
{
    HintFields {
        known: *known,
        scheme: hint.scheme,
        version: hint.version,
        rows: hint.matrix.rows(),
        cols: hint.matrix.cols(),
    }
}

/// The file of a hint: what the server had reported last, and the hint, whose words are borrowed.
///
/// # Errors
///
/// `AllocError` when memory was refused.
pub fn hint_file<'a>(
    alloc: Global,
    known: &ServerInfo,
    hint: &'a Hint,
) -> Result<HintFile<'a>, AllocError>
    ensures { IfOk result (λ file.
        file.head.items ++ word_bytes file.words.now ≡ hint_bytes known.now hint.now) }
{
    let words = hint.matrix.words();
    let digests = digests_of_words(alloc, words)?;
    let head = head_bytes(alloc, &fields_of(known, hint), &digests)?;
    Ok(HintFile { head, words })
}

/// How many bytes the file of a hint has, whatever the server had reported.
pub fn hint_file_len(hint: &Hint) -> usize
    ensures { (known : ServerInfo) → length known.plan.seed ≡ 32 →
        result ≡ length (hint_bytes known hint.now) }
{
    let len = 4 * hint.matrix.words().len();
    FRONT_LEN + DIGEST_LEN * ((len + PART_LEN - 1) / PART_LEN) + DIGEST_LEN + len
}
