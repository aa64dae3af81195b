//! An answer that is made in steps, each of which reads a bounded part of the digits.

ghost use Rattle.std.specs.Prelude.{◌≡◌, ◌+◌, ◌*◌, ◌≤◌, ◌<◌, ◌⊎◌, ◌↔◌, ◌++◌, ℕ, List, IfOk, IsTrue};
ghost use Rattle.std.specs.Prelude.{length, take, drop};
ghost use Rattle.matrix_u32.specs.Matrix.{WordMatrix, product, times_vector, transpose};
ghost use Rattle.digit_pack.specs.Digits.{decomposed};
ghost use Rattle.lane_kernels.specs.Digit.{split_count};
ghost use Rattle.digit_pack.specs.Layout.{digit_rows, digit_cols, digits_per_record};
ghost use Rattle.double_scheme.specs.Double.{one_column, first_answer_of, part_answer_of};
ghost use Rattle.double_scheme.specs.Double.{part_answers_of, part_of_query, answer_part_count};
ghost use Rattle.double_scheme.specs.Double.{double_query_count, double_answer};
ghost use Rattle.double_scheme.specs.Steps.{HasColumn, HasFirst, HasParts, HasPartRows};
ghost use Rattle.double_scheme.specs.Steps.{HasStepsBuffers, IsMadeSoFar, IsMadeUntil, IsWholeAt};
ghost use Rattle.double_scheme.specs.Steps.{rows_made};

use crate::answers::{answer_count, chunk_of, put_digits, zeros};
use digit_pack::{DigitStore, Layout, split_count};
use matrix_u32::{Kernel, Matrix};
use std::alloc::{AllocError, Global};

/// How many digits a step reads, unless one row has more: 2^25, which a processor of today
/// multiplies in some 10 milliseconds, also by two words each.
pub const STEP_DIGITS: usize = 33_554_432;

/// How far an answer is.
#[derive(Clone, Copy)]
pub(crate) enum AnswerStage {
    /// So many rows of the first layer's answer are there.
    Column(usize),
    /// The answer is there up to a part, and of that part and the next one so many rows of the
    /// server's hint.
    Parts(usize, usize),
}

/// An answer of which some steps were made, with its memory from the beginning on.
#[derive(Drop)]
pub struct AnswerSteps {
    layout: Layout,
    stage: AnswerStage,
    column: Vec<u32>,
    first: Matrix,
    hint: Matrix,
    // The words of a part, and those of the one after it.
    x: Vec<u32>,
    y: Vec<u32>,
    words: Vec<u32>,
}

/// How many rows of digits are made, of so many that are left: at least one, and otherwise no more
/// than the digits that may be read allow.
pub fn rows_in_step(most_digits: usize, cols: usize, left: usize) -> usize
    requires { 0 < left }
    ensures some { 0 < result }
    ensures within { result ≤ left }
    ensures bounded { result ≡ 1 ⊎ result * cols ≤ most_digits }
{
    let most = most_digits / cols.max(1);
    if most < 2 {
        return 1;
    }
    left.min(most)
}

// How many digits were read from one count of rows to another one.
fn digits_read(before: usize, now: usize, cols: usize) -> usize {
    now.saturating_sub(before).saturating_mul(cols)
}

/// Writes the words of some more rows of digits times x, after those that are there.
pub fn put_rows<K: Kernel, S: DigitStore>(
    kernel: K,
    digits: &S,
    x: &[u32],
    first: usize,
    count: usize,
    out: &mut [u32],
)
    requires x_fits { length x.now ≡ (S.digits digits.now).cols }
    requires inside { first + count ≤ (S.digits digits.now).rows }
    requires room { (S.digits digits.now).rows ≤ length out.old }
    requires so_far { HasFirst first (times_vector (S.digits digits.now) x.now) out.old }
    ensures so_far { HasFirst (first + count) (times_vector (S.digits digits.now) x.now) out.new }
    ensures len { length out.new ≡ length out.old }
{
    digits.mul_rows(kernel, first, x, &mut out[first..first + count]);
}

/// The same for two vectors, for which the rows are read once.
pub fn put_two_rows<K: Kernel, S: DigitStore>(
    kernel: K,
    digits: &S,
    x: &[u32],
    y: &[u32],
    first: usize,
    count: usize,
    x_out: &mut [u32],
    y_out: &mut [u32],
)
    requires x_fits { length x.now ≡ (S.digits digits.now).cols }
    requires y_fits { length y.now ≡ (S.digits digits.now).cols }
    requires inside { first + count ≤ (S.digits digits.now).rows }
    requires x_room { (S.digits digits.now).rows ≤ length x_out.old }
    requires y_room { (S.digits digits.now).rows ≤ length y_out.old }
    requires x_so_far { HasFirst first (times_vector (S.digits digits.now) x.now) x_out.old }
    requires y_so_far { HasFirst first (times_vector (S.digits digits.now) y.now) y_out.old }
    ensures x { HasFirst (first + count) (times_vector (S.digits digits.now) x.now) x_out.new }
    ensures y { HasFirst (first + count) (times_vector (S.digits digits.now) y.now) y_out.new }
    ensures x_len { length x_out.new ≡ length x_out.old }
    ensures y_len { length y_out.new ≡ length y_out.old }
{
    let end = first + count;
    digits.mul_two_rows(
        kernel,
        first,
        x,
        y,
        &mut x_out[first..end],
        &mut y_out[first..end],
    );
}

// Writes the words of a part after those of the server's hint, which are there: the first layer's
// answer times the part.
fn finish_part<K: Kernel, S: DigitStore>(
    kernel: K,
    server_hint: &S,
    first: &Matrix,
    part: &[u32],
    words: &mut [u32],
)
    requires first { length part.now ≡ first.now.cols }
    requires room { length words.old ≡ (S.digits server_hint.now).rows + first.now.rows }
    requires so_far { HasFirst (S.digits server_hint.now).rows
        (times_vector (S.digits server_hint.now) part.now) words.old }
    ensures { words.new ≡ part_answer_of (S.digits server_hint.now) first.now part.now }
{
    let (_, first_words) = words.split_at_mut(server_hint.rows());
    kernel.mul_vec(first, part, first_words);
}

// A part of a query on a layout, by its place among the parts.
#[derive(Clone, Copy)]
struct QueryPart<'a> {
    layout: &'a Layout,
    query: &'a [u32],
    part: usize,
}

// The words of a part.
fn words_of_query_part<'a>(of: &QueryPart<'a>) -> &'a [u32]
    requires query { length of.now.query.now ≡ double_query_count of.now.layout.now }
    requires part { of.now.part < digits_per_record of.now.layout.now }
    ensures value { result.now ≡ part_of_query of.now.layout.now of.now.query.now of.now.part }
    ensures count { length result.now ≡ digit_rows of.now.layout.now }
{
    let rows = of.layout.rows();
    chunk_of(of.query, of.layout.cols() + of.part * rows, rows)
}

// Writes the words of a part into the answer, in which there are those of all parts before.
fn join_part(place: usize, part: &[u32], words: &mut [u32])
    requires { place + length part.now ≤ length words.old }
    ensures joined { (whole : List ℕ) → HasFirst place whole words.old →
        part.now ≡ take (length part.now) (drop place whole) →
        HasFirst (place + length part.now) whole words.new }
    ensures len { length words.new ≡ length words.old }
{
    words[place..place + part.len()].copy_from_slice(part);
}

// Ends a part of which all rows of the server's hint are there, and writes its words into the
// answer.
fn end_part<K: Kernel, S: DigitStore>(
    kernel: K,
    of: &QueryPart<'_>,
    server_hint: &S,
    first: &Matrix,
    made: &mut [u32],
    words: &mut [u32],
)
    requires query { length of.now.query.now ≡ double_query_count of.now.layout.now }
    requires part { of.now.part < digits_per_record of.now.layout.now }
    requires first_cols { first.now.cols ≡ digit_rows of.now.layout.now }
    requires room { length made.old ≡ (S.digits server_hint.now).rows + first.now.rows }
    requires answer { length words.old ≡ (S.digits server_hint.now).rows
        + digits_per_record of.now.layout.now * length made.old }
    requires made { HasFirst (S.digits server_hint.now).rows (times_vector
        (S.digits server_hint.now)
        (part_of_query of.now.layout.now of.now.query.now of.now.part)) made.old }
    ensures joined { (prefix : List ℕ) → length prefix ≡ (S.digits server_hint.now).rows →
        HasFirst ((S.digits server_hint.now).rows + of.now.part * length made.old) (prefix ++
        part_answers_of of.now.layout.now (S.digits server_hint.now) first.now of.now.query.now)
        words.old →
        HasFirst ((S.digits server_hint.now).rows + (of.now.part + 1) * length made.old) (prefix ++
        part_answers_of of.now.layout.now (S.digits server_hint.now) first.now of.now.query.now)
        words.new }
    ensures made_len { length made.new ≡ length made.old }
    ensures words_len { length words.new ≡ length words.old }
{
    finish_part(kernel, server_hint, first, words_of_query_part(of), made);
    join_part(server_hint.rows() + of.part * made.len(), made, words);
}

// Ends a part and, if there is one, the part after it, of which all rows of the server's hint are
// there. Returns the part that is next.
fn end_both<K: Kernel, S: DigitStore>(
    kernel: K,
    of: &QueryPart<'_>,
    server_hint: &S,
    first: &Matrix,
    x: &mut [u32],
    y: &mut [u32],
    words: &mut [u32],
) -> usize
    requires query { length of.now.query.now ≡ double_query_count of.now.layout.now }
    requires part { of.now.part < digits_per_record of.now.layout.now }
    requires first_cols { first.now.cols ≡ digit_rows of.now.layout.now }
    requires x_room { length x.old ≡ (S.digits server_hint.now).rows + first.now.rows }
    requires y_room { length y.old ≡ length x.old }
    requires answer { length words.old ≡ (S.digits server_hint.now).rows
        + digits_per_record of.now.layout.now * length x.old }
    requires x_made { HasFirst (S.digits server_hint.now).rows (times_vector
        (S.digits server_hint.now)
        (part_of_query of.now.layout.now of.now.query.now of.now.part)) x.old }
    requires y_made { of.now.part + 1 < digits_per_record of.now.layout.now →
        HasFirst (S.digits server_hint.now).rows (times_vector
        (S.digits server_hint.now)
        (part_of_query of.now.layout.now of.now.query.now (of.now.part + 1))) y.old }
    ensures next { result ≤ digits_per_record of.now.layout.now }
    ensures further { of.now.part < result }
    ensures joined { (prefix : List ℕ) → length prefix ≡ (S.digits server_hint.now).rows →
        HasFirst ((S.digits server_hint.now).rows + of.now.part * length x.old) (prefix ++
        part_answers_of of.now.layout.now (S.digits server_hint.now) first.now of.now.query.now)
        words.old →
        HasFirst ((S.digits server_hint.now).rows + result * length x.old) (prefix ++
        part_answers_of of.now.layout.now (S.digits server_hint.now) first.now of.now.query.now)
        words.new }
    ensures x_len { length x.new ≡ length x.old }
    ensures y_len { length y.new ≡ length y.old }
    ensures words_len { length words.new ≡ length words.old }
{
    let parts = of.layout.digits_per_record();
    end_part(kernel, of, server_hint, first, x, words);
    let next = QueryPart {
        part: of.part + 1,
        ..*of
    };
    if next.part >= parts {
        return next.part;
    }
    end_part(kernel, &next, server_hint, first, y, words);
    next.part + 1
}

// Makes the hint of the digits of the first layer's answer, and writes its words to the beginning
// of the answer.
fn put_first_hint<K: Kernel>(
    kernel: K,
    first: &Matrix,
    a2: &Matrix,
    hint: &mut Matrix,
    words: &mut [u32],
)
    requires fits { first.now.cols ≡ a2.now.rows }
    requires rows { hint.old.rows ≡ first.now.rows }
    requires cols { hint.old.cols ≡ a2.now.cols }
    requires room { first.now.rows * a2.now.cols ≤ length words.old }
    ensures hint { hint.new ≡ product first.now a2.now }
    ensures words { HasFirst (length (product first.now a2.now).words)
        (product first.now a2.now).words words.new }
    ensures len { length words.new ≡ length words.old }
{
    kernel.mul_into(first, a2, hint);
    let hint = hint.words();
    let (prefix, _) = words.split_at_mut(hint.len());
    prefix.copy_from_slice(hint);
}

// Writes the words of some more rows of the first layer's answer, if any is left, and returns how
// many are there then.
fn put_column_rows<K: Kernel, S: DigitStore>(
    kernel: K,
    digits: &S,
    query: &[u32],
    most_digits: usize,
    made: usize,
    column: &mut [u32],
) -> usize
    requires cols { (S.digits digits.now).cols ≤ length query.now }
    requires within { made ≤ (S.digits digits.now).rows }
    requires room { length column.old ≡ (S.digits digits.now).rows }
    requires so_far { HasFirst made (times_vector (S.digits digits.now)
        (take (S.digits digits.now).cols query.now)) column.old }
    ensures so_far { HasFirst result (times_vector (S.digits digits.now)
        (take (S.digits digits.now).cols query.now)) column.new }
    ensures within { result ≤ (S.digits digits.now).rows }
    ensures len { length column.new ≡ length column.old }
    ensures forward { (S.digits digits.now).rows ≤ result ⊎ made < result }
{
    let left = column.len() - made;
    if left == 0 {
        return made;
    }
    let count = rows_in_step(most_digits, digits.cols(), left);
    put_rows(
        kernel,
        digits,
        chunk_of(query, 0, digits.cols()),
        made,
        count,
        column,
    );
    made + count
}

// Writes the words of some more rows of the server's hint, if any is left, for a part and, if there
// is one, for the part after it, and returns how many are there then.
fn put_part_rows<K: Kernel, S: DigitStore>(
    kernel: K,
    of: &QueryPart<'_>,
    server_hint: &S,
    most_digits: usize,
    made: usize,
    x_out: &mut [u32],
    y_out: &mut [u32],
) -> usize
    requires query { length of.now.query.now ≡ double_query_count of.now.layout.now }
    requires server_cols { (S.digits server_hint.now).cols ≡ digit_rows of.now.layout.now }
    requires part { of.now.part < digits_per_record of.now.layout.now }
    requires within { made ≤ (S.digits server_hint.now).rows }
    requires x_room { (S.digits server_hint.now).rows ≤ length x_out.old }
    requires y_room { (S.digits server_hint.now).rows ≤ length y_out.old }
    requires x_so_far { HasFirst made (times_vector (S.digits server_hint.now)
        (part_of_query of.now.layout.now of.now.query.now of.now.part)) x_out.old }
    requires y_so_far { of.now.part + 1 < digits_per_record of.now.layout.now →
        HasFirst made (times_vector (S.digits server_hint.now)
        (part_of_query of.now.layout.now of.now.query.now (of.now.part + 1))) y_out.old }
    ensures x { HasFirst result (times_vector (S.digits server_hint.now)
        (part_of_query of.now.layout.now of.now.query.now of.now.part)) x_out.new }
    ensures y { of.now.part + 1 < digits_per_record of.now.layout.now →
        HasFirst result (times_vector (S.digits server_hint.now)
        (part_of_query of.now.layout.now of.now.query.now (of.now.part + 1))) y_out.new }
    ensures within { result ≤ (S.digits server_hint.now).rows }
    ensures x_len { length x_out.new ≡ length x_out.old }
    ensures y_len { length y_out.new ≡ length y_out.old }
    ensures forward { (S.digits server_hint.now).rows ≤ result ⊎ made < result }
{
    let left = server_hint.rows() - made;
    if left == 0 {
        return made;
    }
    let count = rows_in_step(most_digits, server_hint.cols(), left);
    let parts = of.layout.digits_per_record();
    let x = words_of_query_part(of);
    let next = QueryPart {
        part: of.part + 1,
        ..*of
    };
    if next.part < parts {
        let y = words_of_query_part(&next);
        put_two_rows(kernel, server_hint, x, y, made, count, x_out, y_out);
    } else {
        put_rows(kernel, server_hint, x, made, count, x_out);
    }
    made + count
}

impl AnswerSteps {
    /// The memory of an answer on a layout, under public matrices of `dimension` columns, with no
    /// step made: taken by sizes alone.
    pub fn new(alloc: Global, layout: &Layout, dimension: usize) -> Result<AnswerSteps, AllocError>
        requires { dimension ≤ 1024 }
        ensures so_far { IfOk result (λ s. (digits server_hint a2 : WordMatrix) (query : List ℕ) →
            a2.cols ≡ dimension → IsMadeSoFar layout.now digits server_hint a2 query s) }
        ensures begun { IfOk result (λ s. s.stage ≡ AnswerStage.Column 0) }
    {
        let rows = layout.rows();
        let digits = split_count(layout.width());
        let count = dimension * digits + digits;
        Ok(AnswerSteps {
            layout: *layout,
            stage: AnswerStage::Column(0),
            column: vec![in alloc; 0; rows]?,
            first: zeros(alloc, digits, rows)?,
            hint: zeros(alloc, digits, dimension)?,
            x: vec![in alloc; 0; count]?,
            y: vec![in alloc; 0; count]?,
            words: vec![in alloc; 0; answer_count(layout, dimension)]?,
        })
    }

    /// Makes one more step of the answer to the words of a query, and returns whether no step is
    /// left: then it is whole. The digits, the server's hint, the second public matrix and the
    /// query are the same in all steps. Each step makes a row more at least, so that the steps come
    /// to an end.
    pub fn step<K: Kernel, S: DigitStore>(
        &mut self,
        kernel: K,
        digits: &S,
        server_hint: &S,
        a2: &Matrix,
        query: &[u32],
    ) -> bool
        requires query { length query.now ≡ double_query_count self.old.layout }
        requires rows { (S.digits digits.now).rows ≡ digit_rows self.old.layout }
        requires cols { (S.digits digits.now).cols ≡ digit_cols self.old.layout }
        requires server_rows { (S.digits server_hint.now).rows ≡
            a2.now.cols * split_count self.old.layout.width }
        requires server_cols { (S.digits server_hint.now).cols ≡ digit_rows self.old.layout }
        requires second_rows { a2.now.rows ≡ digit_rows self.old.layout }
        requires so_far { IsMadeSoFar self.old.layout (S.digits digits.now)
            (S.digits server_hint.now) a2.now query.now self.old }
        ensures so_far { IsMadeSoFar self.old.layout (S.digits digits.now)
            (S.digits server_hint.now) a2.now query.now self.new }
        ensures whole { IsTrue result ↔ IsWholeAt self.old.layout self.new.stage }
        ensures forward { IsWholeAt self.old.layout self.old.stage ⊎
            rows_made self.old.layout (S.digits server_hint.now).rows self.old.stage <
            rows_made self.old.layout (S.digits server_hint.now).rows self.new.stage }
    {
        let mut left = STEP_DIGITS;
        let mut is_whole = self.is_whole();
        while left > 0 && !is_whole {
            let read = self.advance(kernel, digits, server_hint, a2, query, left);
            left = left.saturating_sub(read.max(1));
            is_whole = self.is_whole();
        }
        is_whole
    }

    // Whether no step is left.
    fn is_whole(&self) -> bool
        ensures { IsTrue result ↔ IsWholeAt self.now.layout self.now.stage }
    {
        match self.stage {
            AnswerStage::Column(_) => false,
            AnswerStage::Parts(part, _) => part >= self.layout.digits_per_record(),
        }
    }

    // Makes some more rows, which have so many digits at most, unless one has more, and returns how
    // many were read.
    fn advance<K: Kernel, S: DigitStore>(
        &mut self,
        kernel: K,
        digits: &S,
        server_hint: &S,
        a2: &Matrix,
        query: &[u32],
        most_digits: usize,
    ) -> usize
        requires query { length query.now ≡ double_query_count self.old.layout }
        requires rows { (S.digits digits.now).rows ≡ digit_rows self.old.layout }
        requires cols { (S.digits digits.now).cols ≡ digit_cols self.old.layout }
        requires server_rows { (S.digits server_hint.now).rows ≡
            a2.now.cols * split_count self.old.layout.width }
        requires server_cols { (S.digits server_hint.now).cols ≡ digit_rows self.old.layout }
        requires second_rows { a2.now.rows ≡ digit_rows self.old.layout }
        requires so_far { IsMadeSoFar self.old.layout (S.digits digits.now)
            (S.digits server_hint.now) a2.now query.now self.old }
        ensures so_far { IsMadeSoFar self.old.layout (S.digits digits.now)
            (S.digits server_hint.now) a2.now query.now self.new }
        ensures forward { IsWholeAt self.old.layout self.old.stage ⊎
            rows_made self.old.layout (S.digits server_hint.now).rows self.old.stage <
            rows_made self.old.layout (S.digits server_hint.now).rows self.new.stage }
        ensures layout { self.new.layout ≡ self.old.layout }
    {
        match self.stage {
            AnswerStage::Column(made) => self.make_column(
                kernel,
                digits,
                a2,
                query,
                most_digits,
                made,
            ),
            AnswerStage::Parts(part, made) => {
                self.make_parts(kernel, server_hint, query, most_digits, part, made)
            }
        }
    }

    /// The words of an answer, which is whole.
    pub fn into_words(self) -> Vec<u32>
        ensures { (digits server_hint a2 : WordMatrix) (query : List ℕ) →
            IsMadeSoFar self.layout digits server_hint a2 query self →
            server_hint.rows ≡ a2.cols * split_count self.layout.width →
            IsWholeAt self.layout self.stage →
            result.items ≡ double_answer self.layout digits server_hint a2 query }
    {
        self.words
    }

    // Makes some more rows of the first layer's answer and, if all are there then, its digits and
    // their hint.
    fn make_column<K: Kernel, S: DigitStore>(
        &mut self,
        kernel: K,
        digits: &S,
        a2: &Matrix,
        query: &[u32],
        most_digits: usize,
        made: usize,
    ) -> usize
        requires query { length query.now ≡ double_query_count self.old.layout }
        requires rows { (S.digits digits.now).rows ≡ digit_rows self.old.layout }
        requires cols { (S.digits digits.now).cols ≡ digit_cols self.old.layout }
        requires second_rows { a2.now.rows ≡ digit_rows self.old.layout }
        requires room { HasStepsBuffers self.old.layout a2.now.cols self.old }
        requires column { HasColumn self.old.layout (S.digits digits.now) query.now self.old made }
        ensures so_far { (server_hint : WordMatrix) →
            IsMadeSoFar self.old.layout (S.digits digits.now) server_hint a2.now query.now
            self.new }
        ensures forward { (hint_rows : ℕ) →
            rows_made self.old.layout hint_rows (AnswerStage.Column made) <
            rows_made self.old.layout hint_rows self.new.stage }
        ensures layout { self.new.layout ≡ self.old.layout }
    {
        let column = &mut self.column;
        let now_made = put_column_rows(kernel, digits, query, most_digits, made, column);
        let read = digits_read(made, now_made, digits.cols());
        if now_made < self.layout.rows() {
            self.stage = AnswerStage::Column(now_made);
            return read;
        }
        self.make_first(kernel, a2);
        read
    }

    // Makes the digits of the first layer's answer, of which all rows are there, and their hint.
    fn make_first<K: Kernel>(&mut self, kernel: K, a2: &Matrix)
        requires second_rows { a2.now.rows ≡ digit_rows self.old.layout }
        requires room { HasStepsBuffers self.old.layout a2.now.cols self.old }
        ensures room { HasStepsBuffers self.old.layout a2.now.cols self.new }
        ensures stage { self.new.stage ≡ AnswerStage.Parts 0 0 }
        ensures first { self.new.first ≡ decomposed self.old.layout.width
            (transpose (one_column self.old.column.items)) }
        ensures hint { HasFirst (length (product self.new.first a2.now).words)
            (product self.new.first a2.now).words self.new.words.items }
        ensures layout { self.new.layout ≡ self.old.layout }
    {
        put_digits(&self.column, self.layout.width(), &mut self.first);
        put_first_hint(kernel, &self.first, a2, &mut self.hint, &mut self.words);
        self.stage = AnswerStage::Parts(0, 0);
    }

    // Makes some more rows of a part and of the one after it and, if all are there then, ends them.
    fn make_parts<K: Kernel, S: DigitStore>(
        &mut self,
        kernel: K,
        server_hint: &S,
        query: &[u32],
        most_digits: usize,
        part: usize,
        made: usize,
    ) -> usize
        requires query { length query.now ≡ double_query_count self.old.layout }
        requires server_rows { (S.digits server_hint.now).rows ≡
            self.old.hint.cols * split_count self.old.layout.width }
        requires server_cols { (S.digits server_hint.now).cols ≡ digit_rows self.old.layout }
        requires room { HasStepsBuffers self.old.layout self.old.hint.cols self.old }
        requires stage { self.old.stage ≡ AnswerStage.Parts part made }
        requires rows { HasPartRows self.old.layout (S.digits server_hint.now) query.now self.old
            part made }
        ensures so_far { (digits a2 : WordMatrix) → a2.cols ≡ self.old.hint.cols →
            HasParts self.old.layout digits (S.digits server_hint.now) a2 query.now self.old part
            made →
            IsMadeSoFar self.old.layout digits (S.digits server_hint.now) a2 query.now self.new }
        ensures forward { digits_per_record self.old.layout ≤ part ⊎
            rows_made self.old.layout (S.digits server_hint.now).rows (AnswerStage.Parts part made) <
            rows_made self.old.layout (S.digits server_hint.now).rows self.new.stage }
        ensures layout { self.new.layout ≡ self.old.layout }
    {
        if part >= self.layout.digits_per_record() {
            return 0;
        }
        let (layout, x, y) = (&self.layout, &mut self.x, &mut self.y);
        let of = QueryPart {
            layout,
            query,
            part,
        };
        let now_made = put_part_rows(kernel, &of, server_hint, most_digits, made, x, y);
        let read = digits_read(made, now_made, server_hint.cols());
        if now_made < server_hint.rows() {
            self.stage = AnswerStage::Parts(part, now_made);
            return read;
        }
        self.end_parts(kernel, server_hint, query, part, now_made);
        read
    }

    // Ends a part and the one after it, of which all rows are there.
    fn end_parts<K: Kernel, S: DigitStore>(
        &mut self,
        kernel: K,
        server_hint: &S,
        query: &[u32],
        part: usize,
        made: usize,
    )
        requires query { length query.now ≡ double_query_count self.old.layout }
        requires server_rows { (S.digits server_hint.now).rows ≡
            self.old.hint.cols * split_count self.old.layout.width }
        requires server_cols { (S.digits server_hint.now).cols ≡ digit_rows self.old.layout }
        requires part { part < digits_per_record self.old.layout }
        requires made { (S.digits server_hint.now).rows ≤ made }
        requires room { HasStepsBuffers self.old.layout self.old.hint.cols self.old }
        requires rows { HasPartRows self.old.layout (S.digits server_hint.now) query.now self.old
            part made }
        ensures so_far { (digits a2 : WordMatrix) → a2.cols ≡ self.old.hint.cols →
            self.old.first ≡ first_answer_of self.old.layout.width digits
            (take (digit_cols self.old.layout) query.now) →
            HasFirst (a2.cols * split_count self.old.layout.width
            + part * answer_part_count self.old.layout.width a2.cols)
            (double_answer self.old.layout digits (S.digits server_hint.now) a2 query.now)
            self.old.words.items →
            IsMadeSoFar self.old.layout digits (S.digits server_hint.now) a2 query.now self.new }
        ensures forward { (d : ℕ) → d ≤ (S.digits server_hint.now).rows →
            rows_made self.old.layout (S.digits server_hint.now).rows (AnswerStage.Parts part d) <
            rows_made self.old.layout (S.digits server_hint.now).rows self.new.stage }
        ensures layout { self.new.layout ≡ self.old.layout }
    {
        let (layout, first, words) = (&self.layout, &self.first, &mut self.words);
        let (x, y) = (&mut self.x, &mut self.y);
        let of = QueryPart {
            layout,
            query,
            part,
        };
        let next = end_both(kernel, &of, server_hint, first, x, y, words);
        self.stage = AnswerStage::Parts(next, 0);
    }
}
