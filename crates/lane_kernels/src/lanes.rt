//! The kernel over lanes.

ghost use Rattle.std.specs.Prelude.{◌≡◌, ℕ, ◌<◌, ◌≤◌, ◌+◌, ◌*◌, ◌%◌, ◌^◌, ◌∷◌, [], length};
ghost use Rattle.std.specs.Prelude.{slice_index};
ghost use Rattle.matrix_u32.specs.Sum.{dot};
ghost use Rattle.matrix_u32.specs.Matrix.{IsWhole, row, product, times_vector, plus_scaled};
ghost use Rattle.matrix_u32.specs.Matrix.{zero_matrix};
ghost use Rattle.matrix_u32.specs.Blocks.{plus_rows};
ghost use Rattle.lane_kernels.specs.Rows.{plus_four, plus_products};

use crate::two_rows::add_pairs;
use matrix_u32::{Kernel, Matrix, Plain};
use std::simd::prelude::*;

/// The kernel that takes several words at once. Its words are those of every other kernel.
#[derive(Clone, Copy, Debug)]
pub struct Lanes;

impl Kernel for Lanes {
    fn dot(self, x: &[u32], y: &[u32]) -> u32 {
        dot(x, y)
    }

    fn mul_vec(self, a: &Matrix, x: &[u32], out: &mut [u32]) {
        mul_vec(a, x, out);
    }

    fn mul_into(self, a: &Matrix, b: &Matrix, out: &mut Matrix) {
        mul_into(a, b, out);
    }

    fn add_scaled(self, out: &mut [u32], x: &[u32], k: u32) {
        add_scaled(out, x, k);
    }

    fn add_rows(self, out: &mut [u32], factors: &[u32], b: &Matrix, start: usize) {
        let _rows = b.rows();
        add_rows(out, factors, b, start);
    }
}

fn dot(x: &[u32], y: &[u32]) -> u32
    requires { length x.now ≡ length y.now }
    ensures { result ≡ dot x.now y.now }
{
    let (xs, x_rest) = x.as_chunks::<8>();
    let (ys, y_rest) = y.as_chunks::<8>();
    let mut sum = u32x8::splat(0);
    for i in 0..xs.len() {
        sum += u32x8::from_array(xs[i]) * u32x8::from_array(ys[i]);
    }
    sum.reduce_sum().wrapping_add(Plain.dot(x_rest, y_rest))
}

// The products of four rows with one vector, which is then read once for all of them.
fn dot_four(p: &[u32], q: &[u32], r: &[u32], s: &[u32], x: &[u32]) -> [u32; 4]
    requires first { length p.now ≡ length x.now }
    requires second { length q.now ≡ length x.now }
    requires third { length r.now ≡ length x.now }
    requires fourth { length s.now ≡ length x.now }
    ensures { result ≡ dot p.now x.now ∷ dot q.now x.now ∷ dot r.now x.now ∷ dot s.now x.now ∷ [] }
{
    let (ps, p_rest) = p.as_chunks::<8>();
    let (qs, q_rest) = q.as_chunks::<8>();
    let (rs, r_rest) = r.as_chunks::<8>();
    let (ss, s_rest) = s.as_chunks::<8>();
    let (xs, x_rest) = x.as_chunks::<8>();
    let mut a = u32x8::splat(0);
    let mut b = u32x8::splat(0);
    let mut c = u32x8::splat(0);
    let mut d = u32x8::splat(0);
    for i in 0..xs.len() {
        let x = u32x8::from_array(xs[i]);
        a += u32x8::from_array(ps[i]) * x;
        b += u32x8::from_array(qs[i]) * x;
        c += u32x8::from_array(rs[i]) * x;
        d += u32x8::from_array(ss[i]) * x;
    }
    [
        a.reduce_sum().wrapping_add(Plain.dot(p_rest, x_rest)),
        b.reduce_sum().wrapping_add(Plain.dot(q_rest, x_rest)),
        c.reduce_sum().wrapping_add(Plain.dot(r_rest, x_rest)),
        d.reduce_sum().wrapping_add(Plain.dot(s_rest, x_rest)),
    ]
}

fn mul_vec(a: &Matrix, x: &[u32], out: &mut [u32])
    requires x_fits { length x.now ≡ a.now.cols }
    requires out_fits { length out.old ≡ a.now.rows }
    ensures { out.new ≡ times_vector a.now x.now }
{
    let fours = out.len() / 4;
    for t in 0..fours {
        let i = t * 4;
        let four = dot_four(a.row(i), a.row(i + 1), a.row(i + 2), a.row(i + 3), x);
        u32x4::from_array(four).copy_to_slice(&mut out[i..]);
    }
    rest_of_rows(a, x, fours * 4, out);
}

// The rows from one on, one by one.
fn rest_of_rows(a: &Matrix, x: &[u32], from: usize, out: &mut [u32])
    requires x_fits { length x.now ≡ a.now.cols }
    requires out_fits { length out.old ≡ a.now.rows }
    ensures count { length out.new ≡ length out.old }
    ensures kept { (q : ℕ) → q < from → slice_index out.new q ≡ slice_index out.old q }
    ensures done { (q : ℕ) → from ≤ q → q < length out.old
        → slice_index out.new q ≡ dot (row a.now q) x.now }
{
    for i in from..out.len() {
        out[i] = dot(a.row(i), x);
    }
}

fn add_scaled(out: &mut [u32], x: &[u32], k: u32)
    requires { length x.now ≡ length out.old }
    ensures { out.new ≡ plus_scaled out.old x.now k }
{
    let (xs, _) = x.as_chunks::<16>();
    let ks = u32x16::splat(k);
    for i in 0..xs.len() {
        let at = i * 16;
        let sum = u32x16::from_slice(&out[at..]) + ks * u32x16::from_array(xs[i]);
        sum.copy_to_slice(&mut out[at..]);
    }
    add_scaled_rest(out, x, k, xs.len() * 16);
}

// The words from one on, one by one.
fn add_scaled_rest(out: &mut [u32], x: &[u32], k: u32, from: usize)
    requires { length x.now ≡ length out.old }
    ensures count { length out.new ≡ length out.old }
    ensures kept { (q : ℕ) → q < from → slice_index out.new q ≡ slice_index out.old q }
    ensures done { (q : ℕ) → from ≤ q → q < length out.old → slice_index out.new q
        ≡ (slice_index out.old q + k * slice_index x.now q) % 2 ^ 32 }
{
    for j in from..out.len() {
        out[j] = out[j].wrapping_add(k.wrapping_mul(x[j]));
    }
}

// Adds four rows at once, p times f, q times g, r times h and s times e, so that out is read and
// written once for them.
fn add_four(
    out: &mut [u32],
    p: &[u32],
    q: &[u32],
    r: &[u32],
    s: &[u32],
    f: u32,
    g: u32,
    h: u32,
    e: u32,
)
    requires first { length p.now ≡ length out.old }
    requires second { length q.now ≡ length out.old }
    requires third { length r.now ≡ length out.old }
    requires fourth { length s.now ≡ length out.old }
    ensures { out.new ≡ plus_four out.old p.now q.now r.now s.now f g h e }
{
    let (ps, _) = p.as_chunks::<16>();
    let (qs, _) = q.as_chunks::<16>();
    let (rs, _) = r.as_chunks::<16>();
    let (ss, _) = s.as_chunks::<16>();
    let fs = u32x16::splat(f);
    let gs = u32x16::splat(g);
    let hs = u32x16::splat(h);
    let es = u32x16::splat(e);
    for i in 0..ps.len() {
        let at = i * 16;
        let sum = u32x16::from_slice(&out[at..])
            + fs * u32x16::from_array(ps[i])
            + gs * u32x16::from_array(qs[i])
            + hs * u32x16::from_array(rs[i])
            + es * u32x16::from_array(ss[i]);
        sum.copy_to_slice(&mut out[at..]);
    }
    add_four_rest(out, p, q, r, s, f, g, h, e, ps.len() * 16);
}

// The words from one on, one by one.
pub(crate) fn add_four_rest(
    out: &mut [u32],
    p: &[u32],
    q: &[u32],
    r: &[u32],
    s: &[u32],
    f: u32,
    g: u32,
    h: u32,
    e: u32,
    from: usize,
)
    requires first { length p.now ≡ length out.old }
    requires second { length q.now ≡ length out.old }
    requires third { length r.now ≡ length out.old }
    requires fourth { length s.now ≡ length out.old }
    ensures count { length out.new ≡ length out.old }
    ensures kept { (i : ℕ) → i < from → slice_index out.new i ≡ slice_index out.old i }
    ensures done { (i : ℕ) → from ≤ i → i < length out.old → slice_index out.new i
        ≡ (slice_index out.old i + f * slice_index p.now i + g * slice_index q.now i
        + h * slice_index r.now i + e * slice_index s.now i) % 2 ^ 32 }
{
    for j in from..out.len() {
        let first = f.wrapping_mul(p[j]);
        let second = g.wrapping_mul(q[j]);
        let third = h.wrapping_mul(r[j]);
        let fourth = e.wrapping_mul(s[j]);
        out[j] = out[j]
            .wrapping_add(first)
            .wrapping_add(second)
            .wrapping_add(third)
            .wrapping_add(fourth);
    }
}

// Adds the rows of b from start on, each times its factor.
fn add_rows(out: &mut [u32], factors: &[u32], b: &Matrix, start: usize)
    requires width { length out.old ≡ b.now.cols }
    requires inside { start + length factors.now ≤ b.now.rows }
    requires room { b.now.rows < 2 ^ 64 }
    ensures { out.new
        ≡ plus_rows out.old (length factors.now) (λ k. slice_index factors.now k) b.now start }
{
    let fours = factors.len() / 4;
    for t in 0..fours {
        let k = t * 4;
        let row = start + k;
        add_four(
            out,
            b.row(row),
            b.row(row + 1),
            b.row(row + 2),
            b.row(row + 3),
            factors[k],
            factors[k + 1],
            factors[k + 2],
            factors[k + 3],
        );
    }
    let done = fours * 4;
    add_rows_singly(out, &factors[done..], b, start + done);
}

// The same, one row after the other.
pub(crate) fn add_rows_singly(out: &mut [u32], factors: &[u32], b: &Matrix, start: usize)
    requires width { length out.old ≡ b.now.cols }
    requires inside { start + length factors.now ≤ b.now.rows }
    requires room { b.now.rows < 2 ^ 64 }
    ensures { out.new
        ≡ plus_rows out.old (length factors.now) (λ k. slice_index factors.now k) b.now start }
{
    for k in 0..factors.len() {
        add_scaled(out, b.row(start + k), factors[k]);
    }
}

// Makes all words 0.
fn clear(m: &mut Matrix)
    ensures { m.new ≡ zero_matrix m.old.rows m.old.cols }
{
    for i in 0..m.rows() {
        m.row_mut(i).fill(0);
    }
}

// The most rows of out that stay near the processor while all rows of b pass.
const NEAR_ROWS: usize = 64;

// How many inner places are taken at a time in a product of so many rows. If out stays near, four:
// their rows of b then stay nearest while all rows of out pass. Otherwise as many as keep their
// rows of b near, so that out is read and written less often.
fn block_of(rows: usize) -> usize
    ensures { 0 < result }
{
    if rows <= NEAR_ROWS { 4 } else { 128 }
}

fn mul_into(a: &Matrix, b: &Matrix, out: &mut Matrix)
    requires fits { a.now.cols ≡ b.now.rows }
    requires rows { out.old.rows ≡ a.now.rows }
    requires cols { out.old.cols ≡ b.now.cols }
    ensures { out.new ≡ product a.now b.now }
{
    clear(out);
    let inner = a.cols();
    let block = block_of(a.rows());
    let mut start = 0;
    while start < inner {
        let count = block.min(inner - start);
        add_block(a, b, start, count, out);
        start += count;
    }
}

// Adds to each word of out the products of `count` inner places from start on.
fn add_block(a: &Matrix, b: &Matrix, start: usize, count: usize, out: &mut Matrix)
    requires fits { a.now.cols ≡ b.now.rows }
    requires inside { start + count ≤ a.now.cols }
    requires room { a.now.cols < 2 ^ 64 }
    requires rows { out.old.rows ≡ a.now.rows }
    requires cols { out.old.cols ≡ b.now.cols }
    requires whole { IsWhole out.old }
    ensures { out.new ≡ plus_products out.old a.now b.now start count }
{
    add_pairs(a, b, start, count, out);
    // The last row, if it has no other beside it.
    for i in a.rows() / 2 * 2..a.rows() {
        let factors = &a.row(i)[start..start + count];
        add_rows(out.row_mut(i), factors, b, start);
    }
}
