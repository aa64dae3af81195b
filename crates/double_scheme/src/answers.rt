//! The server's answer to a query: the first layer's answer in digits, times the second layer's
//! query.

ghost use Rattle.std.specs.Prelude.{◌≡◌, ◌+◌, ◌*◌, ◌≤◌, ◌++◌, IfOk, length, take, drop};
ghost use Rattle.matrix_u32.specs.Matrix.{product, transpose, zero_matrix};
ghost use Rattle.lane_kernels.specs.Digit.{split_count};
ghost use Rattle.digit_pack.specs.Digits.{decomposed};
ghost use Rattle.digit_pack.specs.Layout.{digit_rows, digit_cols, digits_per_record};
ghost use Rattle.double_scheme.specs.Double.{one_column, first_answer_of, part_answer_of};
ghost use Rattle.double_scheme.specs.Double.{part_answers_of, double_query_count};
ghost use Rattle.double_scheme.specs.Double.{double_answer_count, double_answer};

use digit_pack::{DigitStore, Layout, split_count};
use lane_kernels::split_row;
use matrix_u32::{Kernel, Matrix};
use std::alloc::{AllocError, Global};
use std::marker::Model;

/// How many words an answer has, under public matrices of `dimension` columns: κ n + K κ (n + 1).
pub fn answer_count(layout: &Layout, dimension: usize) -> usize
    requires { dimension ≤ 1024 }
    ensures { result ≡ double_answer_count layout.now dimension }
{
    let digits = split_count(layout.width());
    let first = dimension * digits;
    first + layout.digits_per_record() * (first + digits)
}

/// The memory that an answer is made in, taken by sizes alone: if it is refused, no word of a query
/// was looked at.
///
/// A contract sees it as these sizes.
#[derive(Drop)]
pub struct AnswerBuffers {
    layout: Layout,
    column: Vec<u32>,
    first: Matrix,
    hint: Matrix,
    words: Vec<u32>,
}

impl Model for AnswerBuffers {
    ghost use Rattle.simple_scheme.specs.Buffers.{BufferSizes};
    ghost use Rattle.double_scheme.specs.Buffers.{HasAnswerBuffers};

    ghost Value = { BufferSizes };

    ghost view = { λ r. record { layout = r.layout; dimension = r.hint.cols } };

    ghost invariant = { λ r. HasAnswerBuffers r.layout r.column.items r.first r.hint r.words.items };
}

impl AnswerBuffers {
    /// Memory for an answer on a layout, under public matrices of `dimension` columns.
    pub fn new(
        alloc: Global,
        layout: &Layout,
        dimension: usize,
    ) -> Result<AnswerBuffers, AllocError>
        requires { dimension ≤ 1024 }
        ensures { IfOk result (λ room.
            room ≡ record { layout = layout.now; dimension = dimension }) }
    {
        let rows = layout.rows();
        let digits = split_count(layout.width());
        Ok(AnswerBuffers {
            layout: *layout,
            column: vec![in alloc; 0; rows]?,
            first: zeros(alloc, digits, rows)?,
            hint: zeros(alloc, digits, dimension)?,
            words: vec![in alloc; 0; answer_count(layout, dimension)]?,
        })
    }

    /// The answer to the words of a query, as [`answer`] says it. Takes no memory.
    pub fn fill<K: Kernel, S: DigitStore>(
        self,
        kernel: K,
        digits: &S,
        server_hint: &S,
        a2: &Matrix,
        words: &[u32],
    ) -> Vec<u32>
        requires words { length words.now ≡ double_query_count self.layout }
        requires rows { (S.digits digits.now).rows ≡ digit_rows self.layout }
        requires cols { (S.digits digits.now).cols ≡ digit_cols self.layout }
        requires server_rows { (S.digits server_hint.now).rows ≡
            self.dimension * split_count self.layout.width }
        requires server_cols { (S.digits server_hint.now).cols ≡ digit_rows self.layout }
        requires second_rows { a2.now.rows ≡ digit_rows self.layout }
        requires second_cols { a2.now.cols ≡ self.dimension }
        ensures words { result.items ≡ double_answer self.layout (S.digits digits.now)
            (S.digits server_hint.now) a2.now words.now }
        ensures count { length result.items ≡ double_answer_count self.layout self.dimension }
    {
        let AnswerBuffers {
            layout,
            mut column,
            mut first,
            mut hint,
            words: mut out,
        } = self;
        let prefix = chunk_of(words, 0, layout.cols());
        put_first_answer(
            kernel,
            digits,
            layout.width(),
            prefix,
            &mut column,
            &mut first,
        );
        put_answer(
            kernel,
            &layout,
            server_hint,
            &first,
            a2,
            words,
            &mut hint,
            &mut out,
        );
        out
    }
}

// A matrix of zeros, of sizes that a matrix may have.
pub(crate) fn zeros(alloc: Global, rows: usize, cols: usize) -> Result<Matrix, AllocError>
    ensures { IfOk result (λ m. m ≡ zero_matrix rows cols) }
{
    match Matrix::zeros(alloc, rows, cols) {
        Ok(matrix) => Ok(matrix),
        Err(_) => Err(AllocError),
    }
}

// Writes the digits of words, row t with digit t of each word.
pub(crate) fn put_digits(words: &[u32], w: u32, out: &mut Matrix)
    requires width { (6 ≤ w) × (w ≤ 10) }
    requires rows { out.old.rows ≡ split_count w }
    requires cols { out.old.cols ≡ length words.now }
    ensures { out.new ≡ decomposed w (transpose (one_column words.now)) }
{
    // Called for what it says of the matrix: it is whole.
    out.rows();
    for t in 0..split_count(w) {
        split_row(words, w, t as u32, out.row_mut(t));
    }
}

// Writes the first layer's answer to the words of a first query, and its digits.
fn put_first_answer<K: Kernel, S: DigitStore>(
    kernel: K,
    digits: &S,
    w: u32,
    words: &[u32],
    column: &mut [u32],
    out: &mut Matrix,
)
    requires width { (6 ≤ w) × (w ≤ 10) }
    requires words { length words.now ≡ (S.digits digits.now).cols }
    requires column { length column.old ≡ (S.digits digits.now).rows }
    requires rows { out.old.rows ≡ split_count w }
    requires cols { out.old.cols ≡ (S.digits digits.now).rows }
    ensures { out.new ≡ first_answer_of w (S.digits digits.now) words.now }
{
    digits.mul_vec(kernel, words, column);
    put_digits(column, w, out);
}

// Writes the answer, from the digits of the first layer's answer: their hint, and the answers to
// the parts.
fn put_answer<K: Kernel, S: DigitStore>(
    kernel: K,
    layout: &Layout,
    server_hint: &S,
    first: &Matrix,
    a2: &Matrix,
    words: &[u32],
    hint: &mut Matrix,
    out: &mut [u32],
)
    requires words { length words.now ≡ double_query_count layout.now }
    requires server_cols { (S.digits server_hint.now).cols ≡ digit_rows layout.now }
    requires first_cols { first.now.cols ≡ digit_rows layout.now }
    requires second_rows { a2.now.rows ≡ digit_rows layout.now }
    requires hint_rows { hint.old.rows ≡ first.now.rows }
    requires hint_cols { hint.old.cols ≡ a2.now.cols }
    requires room { length out.old ≡ first.now.rows * a2.now.cols +
        digits_per_record layout.now * ((S.digits server_hint.now).rows + first.now.rows) }
    ensures { out.new ≡ (product first.now a2.now).words ++ part_answers_of layout.now
        (S.digits server_hint.now) first.now words.now }
{
    kernel.mul_into(first, a2, hint);
    let hint = hint.words();
    let (prefix, parts) = out.split_at_mut(hint.len());
    // A product is made in a matrix of its own, so these κ n words, and no others, are copied.
    prefix.copy_from_slice(hint);
    put_part_answers(kernel, layout, server_hint, first, words, parts);
}

// Writes the answers to all parts of a query: two by two, and the last of an odd number alone.
fn put_part_answers<K: Kernel, S: DigitStore>(
    kernel: K,
    layout: &Layout,
    server_hint: &S,
    first: &Matrix,
    words: &[u32],
    out: &mut [u32],
)
    requires words { length words.now ≡ double_query_count layout.now }
    requires server_cols { (S.digits server_hint.now).cols ≡ digit_rows layout.now }
    requires first_cols { first.now.cols ≡ digit_rows layout.now }
    requires room { length out.old ≡
        digits_per_record layout.now * ((S.digits server_hint.now).rows + first.now.rows) }
    ensures { out.new ≡ part_answers_of layout.now (S.digits server_hint.now) first.now words.now }
{
    let cols = layout.cols();
    let rows = layout.rows();
    let parts = layout.digits_per_record();
    let count = server_hint.rows() + first.rows();
    let mut d = 0;
    while d < parts {
        let x = chunk_of(words, cols + d * rows, rows);
        let at = d * count;
        if d + 1 < parts {
            let y = chunk_of(words, cols + (d + 1) * rows, rows);
            let two = &mut out[at..at + 2 * count];
            put_two_part_answers(kernel, server_hint, first, x, y, two);
            d += 2;
        } else {
            put_part_answer(kernel, server_hint, first, x, &mut out[at..at + count]);
            d += 1;
        }
    }
}

// Writes the answers to two parts of a query, for which the server's hint is read once.
fn put_two_part_answers<K: Kernel, S: DigitStore>(
    kernel: K,
    server_hint: &S,
    first: &Matrix,
    x: &[u32],
    y: &[u32],
    out: &mut [u32],
)
    requires x_server { length x.now ≡ (S.digits server_hint.now).cols }
    requires x_first { length x.now ≡ first.now.cols }
    requires y_server { length y.now ≡ (S.digits server_hint.now).cols }
    requires y_first { length y.now ≡ first.now.cols }
    requires room { length out.old ≡ 2 * ((S.digits server_hint.now).rows + first.now.rows) }
    ensures { out.new ≡ part_answer_of (S.digits server_hint.now) first.now x.now
        ++ part_answer_of (S.digits server_hint.now) first.now y.now }
{
    let rows = server_hint.rows();
    let (x_out, y_out) = out.split_at_mut(rows + first.rows());
    let (x_hint, x_first) = x_out.split_at_mut(rows);
    let (y_hint, y_first) = y_out.split_at_mut(rows);
    server_hint.mul_two(kernel, x, y, x_hint, y_hint);
    kernel.mul_vec(first, x, x_first);
    kernel.mul_vec(first, y, y_first);
}

// Writes the answer to one part of a query.
fn put_part_answer<K: Kernel, S: DigitStore>(
    kernel: K,
    server_hint: &S,
    first: &Matrix,
    part: &[u32],
    out: &mut [u32],
)
    requires server { length part.now ≡ (S.digits server_hint.now).cols }
    requires first { length part.now ≡ first.now.cols }
    requires room { length out.old ≡ (S.digits server_hint.now).rows + first.now.rows }
    ensures { out.new ≡ part_answer_of (S.digits server_hint.now) first.now part.now }
{
    let (hint_words, first_words) = out.split_at_mut(server_hint.rows());
    server_hint.mul_vec(kernel, part, hint_words);
    kernel.mul_vec(first, part, first_words);
}

// Words from a place on.
pub(crate) fn chunk_of(words: &[u32], start: usize, count: usize) -> &[u32]
    requires { start + count ≤ length words.now }
    ensures value { result.now ≡ take count (drop start words.now) }
    ensures count { length result.now ≡ count }
{
    &words[start..start + count]
}

/// The answer to the words of a query: first h, the digits of the first layer's answer times A2,
/// row by row; then for each digit of the record the server's hint, and after it the digits of the
/// first layer's answer, times the query's words for that digit. The first layer is answered once.
///
/// `digits` and `a2` have the layout's rows, and the server's hint has a column for each of them
/// and κ rows for each column of `a2`, of which there are at most 1024; the query has m + K ℓ
/// words.
///
/// # Errors
///
/// Only refused memory gives an `Err`.
pub fn answer<K: Kernel, S: DigitStore>(
    alloc: Global,
    kernel: K,
    layout: &Layout,
    digits: &S,
    server_hint: &S,
    a2: &Matrix,
    words: &[u32],
) -> Result<Vec<u32>, AllocError>
    requires words { length words.now ≡ double_query_count layout.now }
    requires rows { (S.digits digits.now).rows ≡ digit_rows layout.now }
    requires cols { (S.digits digits.now).cols ≡ digit_cols layout.now }
    requires server_rows { (S.digits server_hint.now).rows ≡
        a2.now.cols * split_count layout.now.width }
    requires server_cols { (S.digits server_hint.now).cols ≡ digit_rows layout.now }
    requires second_rows { a2.now.rows ≡ digit_rows layout.now }
    requires second_cols { a2.now.cols ≤ 1024 }
    ensures words { IfOk result (λ v. v.items ≡
        double_answer layout.now (S.digits digits.now)
        (S.digits server_hint.now) a2.now words.now) }
    ensures count { IfOk result (λ v. length v.items ≡ double_answer_count layout.now a2.now.cols) }
{
    let room = AnswerBuffers::new(alloc, layout, a2.cols())?;
    Ok(room.fill(kernel, digits, server_hint, a2, words))
}
