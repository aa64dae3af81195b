//! How an answer is read.

ghost use Rattle.std.specs.Prelude.{◌≡◌, ◌+◌, ◌^◌, ◌<◌, ◌≤◌, IfOk, All, length, slice_index};
ghost use Rattle.matrix_u32.specs.Sum.{list_of};
ghost use Rattle.matrix_u32.specs.Matrix.{row};
ghost use Rattle.regev_core.specs.Encryption.{nearest, stripped};
ghost use Rattle.digit_pack.specs.Layout.{digit_rows, digits_per_record};
ghost use Rattle.simple_scheme.specs.Simple.{simple_reading};
ghost use Rattle.simple_scheme.specs.Recovery.{GivesBytes, SimpleReadsRecord};
ghost use Rattle.simple_scheme.specs.Recovery.{SimpleGivesQuietRecord};

use crate::laws;
use crate::retrieval::Retrieval;
use digit_pack::{Layout, unpack};
use matrix_u32::{Kernel, Matrix};
use seed_expand::stream_words;
use std::alloc::{AllocError, Global};
use thiserror::Error;

/// Why an answer gives no record.
#[derive(Clone, Copy, Debug, PartialEq, Eq, Error)]
pub enum RecoverError {
    /// The answer hasn't a word for each digit row.
    #[error("the answer has another number of words than the layout wants")]
    BadLength,
    /// The digits that the answer reads as set a bit past the record's last byte.
    #[error("the answer's digits set a bit past the record's last byte")]
    BadDigits,
    /// Out of memory for the secret, the digits or the record.
    #[error("out of memory")]
    Memory,
}

impl From<AllocError> for RecoverError {
    ghost use Rattle.simple_scheme.specs.declared.records.RecoverError.TheVariants.{Memory};

    ghost from_gives = { λ _ fault. fault ≡ Memory };

    fn from(_refused: AllocError) -> Self {
        RecoverError::Memory
    }
}

// The digits that an answer reads as.
fn read_all<K: Kernel>(
    alloc: Global,
    kernel: K,
    asked: &Retrieval<'_>,
    hint: &Matrix,
    layout: &Layout,
    answer: &[u32],
) -> Result<Vec<u32>, AllocError>
    requires number { asked.now.number < 2 ^ 62 }
    requires rows { hint.now.rows ≡ digit_rows layout.now }
    requires record { asked.now.i < layout.now.count }
    requires words { length answer.now ≡ digit_rows layout.now }
    ensures { IfOk result (λ digits.
        (digits.items ≡ simple_reading layout.now hint.now
        asked.now.seed.now asked.now.number asked.now.i answer.now)
        × All (λ d. d < 2 ^ layout.now.width) digits.items
        × (length digits.items ≡ digits_per_record layout.now)) }
{
    let s = stream_words(alloc, asked.seed, 4 * asked.number, 0, hint.cols())?;
    let mut digits = vec![in alloc; 0; layout.digits_per_record()]?;
    let (first, _) = layout.place(asked.i);
    read_digits(kernel, layout.width(), hint, &s, first, answer, &mut digits);
    Ok(digits)
}

/// The record that digits write, in a buffer of its length.
///
/// # Errors
///
/// `BadDigits` exactly when they set a bit past the record's last byte, and never `Memory`.
pub fn record_of_digits(
    layout: &Layout,
    digits: &[u32],
    mut bytes: Vec<u8>,
) -> Result<Vec<u8>, RecoverError>
    requires digits { length digits.now ≡ digits_per_record layout.now }
    requires small { All (λ d. d < 2 ^ layout.now.width) digits.now }
    requires room { length bytes.items ≡ layout.now.record_len }
    ensures { GivesBytes layout.now digits.now result }
{
    match unpack(layout, digits, &mut bytes) {
        Ok(()) => Ok(bytes),
        Err(_) => Err(RecoverError::BadDigits),
    }
}

// The record that an answer reads as.
fn read_record<K: Kernel>(
    alloc: Global,
    kernel: K,
    asked: &Retrieval<'_>,
    hint: &Matrix,
    layout: &Layout,
    answer: &[u32],
) -> Result<Vec<u8>, RecoverError>
    requires number { asked.now.number < 2 ^ 62 }
    requires rows { hint.now.rows ≡ digit_rows layout.now }
    requires record { asked.now.i < layout.now.count }
    ensures { SimpleReadsRecord layout.now hint.now
        asked.now.seed.now asked.now.number asked.now.i answer.now result }
{
    if answer.len() != layout.rows() {
        return Err(RecoverError::BadLength);
    }
    let digits = read_all(alloc, kernel, asked, hint, layout, answer)?;
    let bytes = vec![in alloc; 0; layout.record_len()]?;
    record_of_digits(layout, &digits, bytes)
}

/// The record that the answer to the query for record i gives, with the client's seed and the
/// number of the retrieval. If the hint and the answer are those of some records and the retrieval
/// is quiet, the bytes are the record's.
///
/// # Errors
///
/// `BadLength` exactly when the answer hasn't a word for each row; else `Memory`, or the bytes that
/// the answer's reading writes, `BadDigits` exactly when the digits read set a bit past the
/// record's last byte.
pub fn recover<K: Kernel>(
    alloc: Global,
    kernel: K,
    seed: &[u8; 32],
    number: u64,
    hint: &Matrix,
    layout: &Layout,
    i: usize,
    answer: &[u32],
) -> Result<Vec<u8>, RecoverError>
    requires number { number < 2 ^ 62 }
    requires rows { hint.now.rows ≡ digit_rows layout.now }
    requires record { i < layout.now.count }
    ensures reading { SimpleReadsRecord layout.now hint.now seed.now number i answer.now result }
    ensures quiet { SimpleGivesQuietRecord layout.now hint.now seed.now number i answer.now result }
{
    laws::quiet_retrieval_reads_the_record();
    digit_pack::laws::pack_unpacks();
    let _width = layout.width();
    let asked = Retrieval { seed, number, i };
    let record = read_record(alloc, kernel, &asked, hint, layout, answer);
    record
}

/// The digits that words of an answer read as, from row `first` of the hint on: one for each place
/// of `out`.
pub fn read_digits<K: Kernel>(
    kernel: K,
    w: u32,
    hint: &Matrix,
    s: &[u32],
    first: usize,
    answer: &[u32],
    out: &mut [u32],
)
    requires width { (6 ≤ w) × (w ≤ 10) }
    requires secret { length s.now ≡ hint.now.cols }
    requires rows { first + length out.old ≤ hint.now.rows }
    requires words { length answer.now ≡ hint.now.rows }
    ensures { out.new ≡
        list_of (length out.old) (λ d. nearest w (stripped (slice_index answer.now (first + d))
        (row hint.now (first + d)) s.now)) }
{
    for d in 0..out.len() {
        let word = regev_core::strip(kernel, answer[first + d], hint.row(first + d), s);
        out[d] = regev_core::round(word, w);
    }
}
