//! How an answer is read.

ghost use Rattle.std.specs.Prelude.{◌≡◌, ◌≢◌, ◌+◌, ◌*◌, ◌^◌, ◌<◌, ◌≤◌, ◌↔◌, ℕ, IfOk, IsTrue, All};
ghost use Rattle.std.specs.Prelude.{length, drop};
ghost use Rattle.matrix_u32.specs.Sum.{list_of};
ghost use Rattle.matrix_u32.specs.Matrix.{entry, row};
ghost use Rattle.regev_core.specs.Encryption.{nearest, stripped};
ghost use Rattle.lane_kernels.specs.Digit.{split_count};
ghost use Rattle.digit_pack.specs.Layout.{digits_per_record};
ghost use Rattle.double_scheme.specs.Double.{answer_part_count, double_answer_count, answer_hint};
ghost use Rattle.double_scheme.specs.Double.{answer_part, server_hint_words, second_word, row_read};
ghost use Rattle.double_scheme.specs.Double.{word_read, double_reading};
ghost use Rattle.double_scheme.specs.Recovery.{DoubleReadsRecord, DoubleGivesQuietRecord};

use crate::answers::{answer_count, chunk_of};
use crate::laws;
use crate::secrets::{part_secrets, zero_products};
use digit_pack::{Layout, join_word, split_count};
use matrix_u32::{Kernel, Matrix};
use seed_expand::stream_words;
use simple_scheme::{RecoverError, Retrieval, read_digits, record_of_digits};
use std::alloc::{AllocError, Global};

// What the parts of an answer are read from: the bits of a digit, the words of the answer, and the
// secret of each part, a row for each.
#[derive(Clone, Copy)]
struct Reading<'a> {
    w: u32,
    answer: &'a [u32],
    secrets: &'a Matrix,
}

// What the first layer's answer is read with: its hint and its secret.
#[derive(Clone, Copy)]
struct FirstReading<'a> {
    hint: &'a Matrix,
    secret: &'a [u32],
}

// The word whose digits the second layer's words give from row k κ of its hint on.
fn read_word<K: Kernel>(
    kernel: K,
    w: u32,
    hint: &Matrix,
    s: &[u32],
    words: &[u32],
    k: usize,
    digits: &mut [u32],
) -> u32
    requires width { (6 ≤ w) × (w ≤ 10) }
    requires secret { length s.now ≡ hint.now.cols }
    requires words { length words.now ≡ hint.now.rows }
    requires inside { k * split_count w + split_count w ≤ hint.now.rows }
    requires scratch { length digits.old ≡ split_count w }
    ensures { result ≡ second_word w hint.now s.now words.now k }
{
    let _rows = hint.rows();
    let first = k * split_count(w);
    read_digits(kernel, w, hint, s, first, words, digits);
    join_word(digits, w)
}

// Word k of the row of D A1 that each part of an answer gives, in its row of `out`.
fn read_column<K: Kernel>(
    kernel: K,
    reading: &Reading<'_>,
    client_hint: &Matrix,
    k: usize,
    digits: &mut [u32],
    out: &mut Matrix,
)
    requires width { (6 ≤ reading.now.w) × (reading.now.w ≤ 10) }
    requires rows { client_hint.now.rows ≡ client_hint.now.cols * split_count reading.now.w }
    requires inside { k < client_hint.now.cols }
    requires secrets { reading.now.secrets.now.cols ≡ client_hint.now.cols }
    requires words { client_hint.now.cols * split_count reading.now.w + reading.now.secrets.now.rows
        * answer_part_count reading.now.w client_hint.now.cols ≤ length reading.now.answer.now }
    requires scratch { length digits.old ≡ split_count reading.now.w }
    requires out_rows { out.old.rows ≡ reading.now.secrets.now.rows }
    requires out_cols { out.old.cols ≡ client_hint.now.cols }
    ensures here { (d : ℕ) → d < reading.now.secrets.now.rows → entry out.new d k
        ≡ second_word reading.now.w client_hint.now (row reading.now.secrets.now d)
        (server_hint_words reading.now.w client_hint.now.cols
        (answer_part reading.now.w client_hint.now.cols reading.now.answer.now d)) k }
    ensures others { (d j : ℕ) → d < out.old.rows → j < out.old.cols → j ≢ k →
        entry out.new d j ≡ entry out.old d j }
    ensures rows { out.new.rows ≡ out.old.rows }
    ensures cols { out.new.cols ≡ out.old.cols }
{
    let Reading { w, answer, secrets } = *reading;
    let _rows = out.rows();
    let prefix = client_hint.rows();
    let count = prefix + split_count(w);
    for d in 0..secrets.rows() {
        let words = chunk_of(answer, prefix + d * count, prefix);
        let word = read_word(kernel, w, client_hint, secrets.row(d), words, k, digits);
        out.set(d, k, word);
    }
}

// The row of D A1 that each part of an answer gives, in its row of `out`: in one pass over the
// client's hint.
fn read_rows<K: Kernel>(
    kernel: K,
    reading: &Reading<'_>,
    client_hint: &Matrix,
    digits: &mut [u32],
    out: &mut Matrix,
)
    requires width { (6 ≤ reading.now.w) × (reading.now.w ≤ 10) }
    requires rows { client_hint.now.rows ≡ client_hint.now.cols * split_count reading.now.w }
    requires secrets { reading.now.secrets.now.cols ≡ client_hint.now.cols }
    requires words { client_hint.now.cols * split_count reading.now.w + reading.now.secrets.now.rows
        * answer_part_count reading.now.w client_hint.now.cols ≤ length reading.now.answer.now }
    requires scratch { length digits.old ≡ split_count reading.now.w }
    requires out_rows { out.old.rows ≡ reading.now.secrets.now.rows }
    requires out_cols { out.old.cols ≡ client_hint.now.cols }
    ensures rows { (d : ℕ) → d < reading.now.secrets.now.rows → row out.new d
        ≡ row_read reading.now.w client_hint.now.cols client_hint.now
        (row reading.now.secrets.now d)
        (answer_part reading.now.w client_hint.now.cols reading.now.answer.now d) }
    ensures count { out.new.rows ≡ out.old.rows }
    ensures cols { out.new.cols ≡ out.old.cols }
{
    for k in 0..client_hint.cols() {
        read_column(kernel, reading, client_hint, k, digits, out);
    }
}

// The words from a place on.
fn rest_of(words: &[u32], start: usize) -> &[u32]
    requires { start ≤ length words.now }
    ensures value { result.now ≡ drop start words.now }
    ensures count { start + length result.now ≡ length words.now }
{
    &words[start..]
}

// The digit that a part of an answer reads as, with the row of D A1 that it gives and the secrets
// of both layers.
fn read_part<K: Kernel>(
    kernel: K,
    w: u32,
    row: &[u32],
    first: &FirstReading<'_>,
    part_secret: &[u32],
    part: &[u32],
    digits: &mut [u32],
) -> u32
    requires width { (6 ≤ w) × (w ≤ 10) }
    requires first_rows { first.now.hint.now.rows ≡ split_count w }
    requires row { length row.now ≡ first.now.hint.now.cols }
    requires first_words { length first.now.secret.now ≡ first.now.hint.now.cols }
    requires part_words { length part_secret.now ≡ first.now.hint.now.cols }
    requires part { length part.now ≡ answer_part_count w first.now.hint.now.cols }
    requires scratch { length digits.old ≡ split_count w }
    ensures { result ≡ nearest w (stripped
        (word_read w first.now.hint.now.cols first.now.hint.now part_secret.now part.now)
        row.now first.now.secret.now) }
{
    let rest = rest_of(part, first.hint.cols() * split_count(w));
    let word = read_word(kernel, w, first.hint, part_secret, rest, 0, digits);
    let stripped = regev_core::strip(kernel, word, row, first.secret);
    regev_core::round(stripped, w)
}

// The prefix of an answer: the hint of the first answer.
fn first_hint(alloc: Global, w: u32, n: usize, answer: &[u32]) -> Result<Matrix, AllocError>
    requires width { (6 ≤ w) × (w ≤ 10) }
    requires cols { n ≤ 1024 }
    requires words { n * split_count w ≤ length answer.now }
    ensures { IfOk result (λ h. h ≡ answer_hint w n answer.now) }
{
    let count = split_count(w);
    let words = chunk_of(answer, 0, n * count).to_vec(alloc)?;
    let Ok(hint) = Matrix::from_words(count, n, words) else {
        return Err(AllocError);
    };
    Ok(hint)
}

// The digits that an answer reads as: one for each place of `out`.
fn read_parts<K: Kernel>(
    alloc: Global,
    kernel: K,
    asked: &Retrieval<'_>,
    client_hint: &Matrix,
    layout: &Layout,
    answer: &[u32],
    out: &mut [u32],
) -> Result<(), AllocError>
    requires number { asked.now.number < 2 ^ 62 }
    requires rows { client_hint.now.rows ≡ client_hint.now.cols * split_count layout.now.width }
    requires cols { client_hint.now.cols ≤ 1024 }
    requires words { length answer.now ≡ double_answer_count layout.now client_hint.now.cols }
    requires room { length out.old ≡ digits_per_record layout.now }
    ensures { IfOk result (λ _. out.new ≡
        double_reading layout.now client_hint.now asked.now.seed.now asked.now.number answer.now) }
{
    let w = layout.width();
    let n = client_hint.cols();
    let parts = layout.digits_per_record();
    let hint = first_hint(alloc, w, n, answer)?;
    let s = stream_words(alloc, asked.seed, 4 * asked.number, 0, n)?;
    let mut digits = vec![in alloc; 0; split_count(w)]?;
    let mut rows = zero_products(alloc, parts, n)?;
    let room = vec![in alloc; 0; parts * n]?;
    let secrets = part_secrets(asked.seed, asked.number, parts, n, room);
    let reading = Reading {
        w,
        answer,
        secrets: &secrets,
    };
    read_rows(kernel, &reading, client_hint, &mut digits, &mut rows);
    let first = FirstReading {
        hint: &hint,
        secret: &s,
    };
    read_digits_of_parts(kernel, &reading, &rows, &first, &mut digits, out);
    Ok(())
}

// The digits of all parts, from the row of D A1 that each gives.
fn read_digits_of_parts<K: Kernel>(
    kernel: K,
    reading: &Reading<'_>,
    rows: &Matrix,
    first: &FirstReading<'_>,
    digits: &mut [u32],
    out: &mut [u32],
)
    requires width { (6 ≤ reading.now.w) × (reading.now.w ≤ 10) }
    requires cols { first.now.hint.now.cols ≤ 1024 }
    requires first_rows { first.now.hint.now.rows ≡ split_count reading.now.w }
    requires row_cols { rows.now.cols ≡ first.now.hint.now.cols }
    requires first_words { length first.now.secret.now ≡ first.now.hint.now.cols }
    requires secrets { reading.now.secrets.now.cols ≡ first.now.hint.now.cols }
    requires parts { (rows.now.rows ≡ length out.old)
        × (reading.now.secrets.now.rows ≡ length out.old) }
    requires words { first.now.hint.now.cols * split_count reading.now.w
        + length out.old * answer_part_count reading.now.w first.now.hint.now.cols
        ≤ length reading.now.answer.now }
    requires scratch { length digits.old ≡ split_count reading.now.w }
    ensures { out.new ≡ list_of (length out.old) (λ d. nearest reading.now.w (stripped
        (word_read reading.now.w first.now.hint.now.cols first.now.hint.now
        (row reading.now.secrets.now d)
        (answer_part reading.now.w first.now.hint.now.cols reading.now.answer.now d))
        (row rows.now d) first.now.secret.now)) }
{
    let Reading { w, answer, secrets } = *reading;
    let prefix = first.hint.cols() * split_count(w);
    let count = prefix + split_count(w);
    for d in 0..out.len() {
        let part = chunk_of(answer, prefix + d * count, count);
        out[d] = read_part(kernel, w, rows.row(d), first, secrets.row(d), part, digits);
    }
}

// The digits that an answer reads as.
fn read_all<K: Kernel>(
    alloc: Global,
    kernel: K,
    asked: &Retrieval<'_>,
    client_hint: &Matrix,
    layout: &Layout,
    answer: &[u32],
) -> Result<Vec<u32>, AllocError>
    requires number { asked.now.number < 2 ^ 62 }
    requires rows { client_hint.now.rows ≡ client_hint.now.cols * split_count layout.now.width }
    requires cols { client_hint.now.cols ≤ 1024 }
    requires words { length answer.now ≡ double_answer_count layout.now client_hint.now.cols }
    ensures { IfOk result (λ digits.
        (digits.items ≡ double_reading layout.now client_hint.now
        asked.now.seed.now asked.now.number answer.now)
        × All (λ d. d < 2 ^ layout.now.width) digits.items
        × (length digits.items ≡ digits_per_record layout.now)) }
{
    let _width = layout.width();
    let mut digits = vec![in alloc; 0; layout.digits_per_record()]?;
    read_parts(
        alloc,
        kernel,
        asked,
        client_hint,
        layout,
        answer,
        &mut digits,
    )?;
    Ok(digits)
}

// Whether an answer has the layout's count of words.
fn is_whole(layout: &Layout, client_hint: &Matrix, answer: &[u32]) -> bool
    requires rows { client_hint.now.rows ≡ client_hint.now.cols * split_count layout.now.width }
    requires cols { client_hint.now.cols ≤ 1024 }
    ensures { IsTrue result ↔
        (length answer.now ≡ double_answer_count layout.now client_hint.now.cols) }
{
    answer.len() == answer_count(layout, client_hint.cols())
}

// The record that an answer reads as.
fn read_record<K: Kernel>(
    alloc: Global,
    kernel: K,
    asked: &Retrieval<'_>,
    client_hint: &Matrix,
    layout: &Layout,
    answer: &[u32],
) -> Result<Vec<u8>, RecoverError>
    requires number { asked.now.number < 2 ^ 62 }
    requires rows { client_hint.now.rows ≡ client_hint.now.cols * split_count layout.now.width }
    requires cols { client_hint.now.cols ≤ 1024 }
    ensures { DoubleReadsRecord layout.now client_hint.now
        asked.now.seed.now asked.now.number answer.now result }
{
    if !is_whole(layout, client_hint, answer) {
        return Err(RecoverError::BadLength);
    }
    let digits = read_all(alloc, kernel, asked, client_hint, layout, answer)?;
    let bytes = vec![in alloc; 0; layout.record_len()]?;
    record_of_digits(layout, &digits, bytes)
}

/// The record that the answer to the query for record i gives, with the client's hint, seed and
/// number of the retrieval. The hint has κ rows to a column, κ being the digits of a word, and at
/// most 1024 columns. Which record was asked for is in the query alone: the reading is the same for
/// every i. If the hint and the answer are those of some records and the retrieval is quiet in both
/// layers, the bytes are the record's.
///
/// # Errors
///
/// `BadLength` exactly when the answer hasn't κ n + K κ (n + 1) words, for a hint of n columns and
/// records of K digits; else `Memory`, or the bytes that the answer's reading writes, `BadDigits`
/// exactly when the digits read set a bit past the record's last byte.
pub fn recover<K: Kernel>(
    alloc: Global,
    kernel: K,
    seed: &[u8; 32],
    number: u64,
    client_hint: &Matrix,
    layout: &Layout,
    i: usize,
    answer: &[u32],
) -> Result<Vec<u8>, RecoverError>
    requires number { number < 2 ^ 62 }
    requires rows { client_hint.now.rows ≡ client_hint.now.cols * split_count layout.now.width }
    requires cols { client_hint.now.cols ≤ 1024 }
    requires record { i < layout.now.count }
    ensures reading { DoubleReadsRecord layout.now client_hint.now seed.now number answer.now
        result }
    ensures quiet { DoubleGivesQuietRecord layout.now client_hint.now seed.now number i
        answer.now result }
{
    laws::quiet_retrieval_reads_the_record();
    digit_pack::laws::pack_unpacks();
    let _width = layout.width();
    let asked = Retrieval { seed, number, i };
    let record = read_record(alloc, kernel, &asked, client_hint, layout, answer);
    record
}
