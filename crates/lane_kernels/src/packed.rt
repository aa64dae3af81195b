//! Products with digits that are packed three in a word, with no masks.
//!
//! Let a word be `d + 2^10 e + 2^20 f`, with digits below 2^10, and let `b = y - 2^10 x` and
//! `c = z - 2^10 y` modulo 2^32. Then `word x + (word >> 10) b + (word >> 20) c` is
//! `d x + e y + f z` modulo 2^32: what is above a digit in one term is taken off by the next. So
//! only the vector is prepared, once for all rows.

ghost use Rattle.std.specs.Prelude.{◌≡◌, ℕ, ◌<◌, ◌≤◌, ◌+◌, ◌*◌, ◌/◌, ◌%◌, ◌^◌, length};
ghost use Rattle.std.specs.Prelude.{map, drop, slice_index, slice_range, List, [], ◌∷◌, All};
ghost use Rattle.std.specs.Simd.Lanes.{fold_l};
ghost use Rattle.matrix_u32.specs.Sum.{list_of};
ghost use Rattle.matrix_u32.specs.Matrix.{times_vector};
ghost use Rattle.lane_kernels.specs.Packed.{packed_cols, unpacked};
ghost use Rattle.lane_kernels.specs.Carried.{lane_products, shifted_sum, plus_part};

use std::simd::prelude::*;

// As many words of a row as are taken at a time: the prepared vector of so many words is on the
// stack. Rows of 32,832 columns or fewer are done in one part, since memory is read ahead of need
// only as far as a row is taken.
pub(crate) const PART: usize = 10944;

// Part of a vector, as a product without masks takes it: for each word of a row what the word, the
// word without its first digit and the word without its first two are multiplied with.
#[derive(Clone, Copy)]
pub(crate) struct Prepared<'a> {
    pub(crate) a: &'a [u32],
    pub(crate) b: &'a [u32],
    pub(crate) c: &'a [u32],
}

/// Writes the product of a packed matrix of digits and `x` into `out`, whatever it held.
///
/// The matrix has a row for each word of `out` and a column for each word of `x`. A row is cols / 3
/// words, rounded up; digit 3 t + u is in bits 10 u to 10 u + 9 of its word t. Bits 30 and 31 of
/// each word are 0; digits of the last word past the last column count for nothing.
pub fn packed_mul_vec(packed: &[u32], cols: usize, x: &[u32], out: &mut [u32])
    requires x_fits { length x.now ≡ cols }
    requires rows_fit { length packed.now ≡ length out.old * packed_cols cols }
    requires three_digits { All (λ word. word < 2 ^ 30) packed.now }
    ensures { out.new ≡ times_vector (unpacked (length out.old) cols packed.now) x.now }
{
    let words = row_words(cols);
    out.fill(0);
    let mut start = 0;
    while start < words {
        let count = PART.min(words - start);
        add_part(packed, words, start, count, x, out);
        start += count;
    }
}

// Adds to each word of out the products of `count` words of its row from start on.
fn add_part(packed: &[u32], words: usize, start: usize, count: usize, x: &[u32], out: &mut [u32])
    requires rows_fit { length packed.now ≡ length out.old * words }
    requires inside { start + count ≤ words }
    requires most { count ≤ 10944 }
    requires room { 3 * start + 1 < 2 ^ 63 }
    ensures { out.new ≡ plus_part out.old packed.now x.now words start count }
{
    let eights = out.len() / 8;
    let a_part = part(x, 3 * start, count);
    let b_part = carried(x, 3 * start, count);
    let c_part = carried(x, 3 * start + 1, count);
    let prepared = Prepared {
        a: &a_part[..count],
        b: &b_part[..count],
        c: &c_part[..count],
    };
    for t in 0..eights {
        let row = t * 8;
        let eight = eight_sums(packed, row, words, start, &prepared);
        let sum = u32x8::from_slice(&out[row..]) + u32x8::from_array(eight);
        sum.copy_to_slice(&mut out[row..]);
    }
    add_part_singly(packed, words, start, eights * 8, &prepared, out);
}

// The rows from one on, one by one, with the prepared vector.
pub(crate) fn add_part_singly(
    packed: &[u32],
    words: usize,
    start: usize,
    from: usize,
    x: &Prepared<'_>,
    out: &mut [u32],
)
    requires rows_fit { length packed.now ≡ length out.old * words }
    requires inside { start + length x.now.a.now ≤ words }
    requires b { length x.now.b.now ≡ length x.now.a.now }
    requires c { length x.now.c.now ≡ length x.now.a.now }
    ensures count { length out.new ≡ length out.old }
    ensures kept { (q : ℕ) → q < from → slice_index out.new q ≡ slice_index out.old q }
    ensures done { (q : ℕ) → from ≤ q → q < length out.old → slice_index out.new q
        ≡ (slice_index out.old q + shifted_sum
        (slice_range packed.now (q * words + start) (q * words + start + length x.now.a.now))
        x.now.a.now x.now.b.now x.now.c.now) % 2 ^ 32 }
{
    for r in from..out.len() {
        let sum = row_sum(piece(packed, r, words, start, x.a.len()), x);
        out[r] = out[r].wrapping_add(sum);
    }
}

pub(crate) fn row_words(cols: usize) -> usize
    ensures { result ≡ packed_cols cols }
{
    cols.div_ceil(3)
}

// Each third word of x from a place on, `count` of them, and 0 past its end.
pub(crate) fn part(x: &[u32], first: usize, count: usize) -> [u32; PART]
    requires first { first < 2 ^ 63 }
    requires most { count ≤ 10944 }
    ensures long { length result ≡ 10944 }
    ensures words { (t : ℕ) → t < count →
        slice_index result t ≡ slice_index x.now (first + 3 * t) }
{
    let mut out = [0u32; PART];
    for t in 0..count {
        out[t] = word_or_zero(x, first + 3 * t);
    }
    out
}

// Each third word of x from the next place on, `count` of them, less 2^10 times the word before it.
pub(crate) fn carried(x: &[u32], first: usize, count: usize) -> [u32; PART]
    requires first { first < 2 ^ 63 }
    requires most { count ≤ 10944 }
    ensures long { length result ≡ 10944 }
    ensures words { (t : ℕ) → t < count →
        (slice_index result t + 1024 * slice_index x.now (first + 3 * t)) % 2 ^ 32
        ≡ slice_index x.now (first + 3 * t + 1) % 2 ^ 32 }
{
    let mut out = [0u32; PART];
    for t in 0..count {
        let j = first + 3 * t;
        let before = word_or_zero(x, j);
        let here = word_or_zero(x, j + 1);
        out[t] = here.wrapping_sub(before.wrapping_mul(1024));
    }
    out
}

fn word_or_zero(x: &[u32], j: usize) -> u32
    ensures { result ≡ slice_index x.now j }
{
    if j < x.len() { x[j] } else { 0 }
}

// Part of a row.
pub(crate) fn piece(packed: &[u32], row: usize, words: usize, start: usize, count: usize) -> &[u32]
    requires { row * words + start + count ≤ length packed.now }
    ensures words { result.now
        ≡ slice_range packed.now (row * words + start) (row * words + start + count) }
    ensures count { length result.now ≡ count }
{
    let at = row * words + start;
    &packed[at..at + count]
}

// Eight rows from one on at once: memory is read in eight places then, which is quicker than in
// fewer, and the prepared vector once for all of them.
fn eight_sums(packed: &[u32], row: usize, words: usize, start: usize, x: &Prepared<'_>) -> [u32; 8]
    requires room { row + 8 < 2 ^ 64 }
    requires rows { (row + 8) * words ≤ length packed.now }
    requires inside { start + length x.now.a.now ≤ words }
    requires b { length x.now.b.now ≡ length x.now.a.now }
    requires c { length x.now.c.now ≡ length x.now.a.now }
    ensures { result ≡ list_of 8 (λ j. shifted_sum
        (slice_range packed.now ((row + j) * words + start)
        ((row + j) * words + start + length x.now.a.now))
        x.now.a.now x.now.b.now x.now.c.now) }
{
    let count = x.a.len();
    let p = piece(packed, row, words, start, count);
    let q = piece(packed, row + 1, words, start, count);
    let r = piece(packed, row + 2, words, start, count);
    let s = piece(packed, row + 3, words, start, count);
    let t = piece(packed, row + 4, words, start, count);
    let u = piece(packed, row + 5, words, start, count);
    let v = piece(packed, row + 6, words, start, count);
    let w = piece(packed, row + 7, words, start, count);
    eight_pieces(p, q, r, s, t, u, v, w, x)
}

// Pieces of eight rows, each with the prepared vector.
fn eight_pieces(
    p: &[u32],
    q: &[u32],
    r: &[u32],
    s: &[u32],
    t: &[u32],
    u: &[u32],
    v: &[u32],
    w: &[u32],
    x: &Prepared<'_>,
) -> [u32; 8]
    requires p { length p.now ≡ length x.now.a.now }
    requires q { length q.now ≡ length x.now.a.now }
    requires r { length r.now ≡ length x.now.a.now }
    requires s { length s.now ≡ length x.now.a.now }
    requires t { length t.now ≡ length x.now.a.now }
    requires u { length u.now ≡ length x.now.a.now }
    requires v { length v.now ≡ length x.now.a.now }
    requires w { length w.now ≡ length x.now.a.now }
    requires b { length x.now.b.now ≡ length x.now.a.now }
    requires c { length x.now.c.now ≡ length x.now.a.now }
    ensures { result ≡ map (λ ws. shifted_sum ws x.now.a.now x.now.b.now x.now.c.now)
        (p.now ∷ q.now ∷ r.now ∷ s.now ∷ t.now ∷ u.now ∷ v.now ∷ w.now ∷ []) }
{
    let (p_all, _) = p.as_chunks::<8>();
    let (q_all, _) = q.as_chunks::<8>();
    let (r_all, _) = r.as_chunks::<8>();
    let (s_all, _) = s.as_chunks::<8>();
    let (t_all, _) = t.as_chunks::<8>();
    let (u_all, _) = u.as_chunks::<8>();
    let (v_all, _) = v.as_chunks::<8>();
    let (w_all, _) = w.as_chunks::<8>();
    let (a_all, _) = x.a.as_chunks::<8>();
    let (b_all, _) = x.b.as_chunks::<8>();
    let (c_all, _) = x.c.as_chunks::<8>();
    let zero = u32x8::splat(0);
    let (mut ps, mut qs, mut rs, mut ss) = (zero, zero, zero, zero);
    let (mut ts, mut us, mut vs, mut ws) = (zero, zero, zero, zero);
    for i in 0..a_all.len() {
        let a = u32x8::from_array(a_all[i]);
        let b = u32x8::from_array(b_all[i]);
        let c = u32x8::from_array(c_all[i]);
        ps += products(p_all[i], a, b, c);
        qs += products(q_all[i], a, b, c);
        rs += products(r_all[i], a, b, c);
        ss += products(s_all[i], a, b, c);
        ts += products(t_all[i], a, b, c);
        us += products(u_all[i], a, b, c);
        vs += products(v_all[i], a, b, c);
        ws += products(w_all[i], a, b, c);
    }
    [
        row_total(ps, p, x),
        row_total(qs, q, x),
        row_total(rs, r, x),
        row_total(ss, s, x),
        row_total(ts, t, x),
        row_total(us, u, x),
        row_total(vs, v, x),
        row_total(ws, w, x),
    ]
}

// Eight words of a row, each times its words of the prepared vector.
pub(crate) fn products(words: [u32; 8], a: u32x8, b: u32x8, c: u32x8) -> u32x8
    ensures { result ≡ lane_products words a b c }
{
    let w = u32x8::from_array(words);
    w * a + (w >> 10) * b + (w >> 20) * c
}

// A sum of eight lanes, with the products of the words that are left.
pub(crate) fn total(sum: u32x8, words: &[u32], a: &[u32], b: &[u32], c: &[u32]) -> u32
    requires first { length a.now ≡ length words.now }
    requires second { length b.now ≡ length words.now }
    requires third { length c.now ≡ length words.now }
    ensures { result ≡ (fold_l (λ a x. (a + x) % 2 ^ 32) 0 sum
        + shifted_sum words.now a.now b.now c.now) % 2 ^ 32 }
{
    sum.reduce_sum().wrapping_add(rest_sum(words, a, b, c))
}

// A sum of eight lanes, with the products of what is left of a row after its last whole vector.
pub(crate) fn row_total(sum: u32x8, words: &[u32], x: &Prepared<'_>) -> u32
    requires first { length x.now.a.now ≡ length words.now }
    requires second { length x.now.b.now ≡ length words.now }
    requires third { length x.now.c.now ≡ length words.now }
    ensures { result ≡ (fold_l (λ a x. (a + x) % 2 ^ 32) 0 sum + shifted_sum
        (drop (length words.now / 8 * 8) words.now)
        (drop (length words.now / 8 * 8) x.now.a.now)
        (drop (length words.now / 8 * 8) x.now.b.now)
        (drop (length words.now / 8 * 8) x.now.c.now)) % 2 ^ 32 }
{
    let (_, w_rest) = words.as_chunks::<8>();
    let (_, a_rest) = x.a.as_chunks::<8>();
    let (_, b_rest) = x.b.as_chunks::<8>();
    let (_, c_rest) = x.c.as_chunks::<8>();
    total(sum, w_rest, a_rest, b_rest, c_rest)
}

fn row_sum(words: &[u32], x: &Prepared<'_>) -> u32
    requires first { length x.now.a.now ≡ length words.now }
    requires second { length x.now.b.now ≡ length words.now }
    requires third { length x.now.c.now ≡ length words.now }
    ensures { result ≡ shifted_sum words.now x.now.a.now x.now.b.now x.now.c.now }
{
    let (w, _) = words.as_chunks::<8>();
    let (a_all, _) = x.a.as_chunks::<8>();
    let (b_all, _) = x.b.as_chunks::<8>();
    let (c_all, _) = x.c.as_chunks::<8>();
    let mut sum = u32x8::splat(0);
    for i in 0..a_all.len() {
        let a = u32x8::from_array(a_all[i]);
        let b = u32x8::from_array(b_all[i]);
        let c = u32x8::from_array(c_all[i]);
        sum += products(w[i], a, b, c);
    }
    row_total(sum, words, x)
}

// Word by word, for what is left after the last whole vector.
fn rest_sum(words: &[u32], a: &[u32], b: &[u32], c: &[u32]) -> u32
    requires first { length a.now ≡ length words.now }
    requires second { length b.now ≡ length words.now }
    requires third { length c.now ≡ length words.now }
    ensures { result ≡ shifted_sum words.now a.now b.now c.now }
{
    let mut total = 0u32;
    for t in 0..words.len() {
        let w = words[t];
        let low = w.wrapping_mul(a[t]);
        let middle = (w >> 10).wrapping_mul(b[t]);
        let high = (w >> 20).wrapping_mul(c[t]);
        total = total
            .wrapping_add(low)
            .wrapping_add(middle)
            .wrapping_add(high);
    }
    total
}
