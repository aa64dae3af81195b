//! Products of two neighbouring rows at once, for which the rows of the right matrix are read once.

ghost use Rattle.std.specs.Prelude.{◌≡◌, ◌<◌, ◌≤◌, ◌+◌, ◌*◌, ◌/◌, ◌^◌, ◌++◌, length, take, drop};
ghost use Rattle.std.specs.Prelude.{slice_index};
ghost use Rattle.matrix_u32.specs.Matrix.{IsWhole};
ghost use Rattle.matrix_u32.specs.Blocks.{plus_rows};
ghost use Rattle.lane_kernels.specs.Rows.{AddedBelow, plus_four};

use crate::lanes::{add_four_rest, add_rows_singly};
use matrix_u32::Matrix;
use std::simd::prelude::*;

/// Adds to each word of out, except those of an odd last row, the products of `count` inner places
/// from start on.
pub(crate) fn add_pairs(a: &Matrix, b: &Matrix, start: usize, count: usize, out: &mut Matrix)
    requires fits { a.now.cols ≡ b.now.rows }
    requires inside { start + count ≤ a.now.cols }
    requires room { a.now.cols < 2 ^ 64 }
    requires rows { out.old.rows ≡ a.now.rows }
    requires cols { out.old.cols ≡ b.now.cols }
    requires whole { IsWhole out.old }
    ensures { AddedBelow out.old a.now b.now start count (a.now.rows / 2 * 2) out.new }
{
    let pairs = a.rows() / 2;
    for t in 0..pairs {
        let i = t * 2;
        let first = &a.row(i)[start..start + count];
        let second = &a.row(i + 1)[start..start + count];
        add_rows_to_pair(out.two_rows_mut(i), first, second, b, start);
    }
}

// Adds the rows of b from start on to two rows, one after the other, each times its factor for
// either.
fn add_rows_to_pair(both: &mut [u32], first: &[u32], second: &[u32], b: &Matrix, start: usize)
    requires width { length both.old ≡ b.now.cols + b.now.cols }
    requires same_factors { length second.now ≡ length first.now }
    requires inside { start + length first.now ≤ b.now.rows }
    requires room { b.now.rows < 2 ^ 64 }
    ensures { both.new
        ≡ plus_rows (take b.now.cols both.old) (length first.now)
        (λ k. slice_index first.now k) b.now start
        ++ plus_rows (drop b.now.cols both.old) (length first.now)
        (λ k. slice_index second.now k) b.now start }
{
    let (x, y) = both.split_at_mut(b.cols());
    add_rows_to_two(x, y, first, second, b, start);
}

// The same with the two rows apart, four rows of b at once.
fn add_rows_to_two(
    x: &mut [u32],
    y: &mut [u32],
    first: &[u32],
    second: &[u32],
    b: &Matrix,
    start: usize,
)
    requires x_width { length x.old ≡ b.now.cols }
    requires y_width { length y.old ≡ b.now.cols }
    requires same_factors { length second.now ≡ length first.now }
    requires inside { start + length first.now ≤ b.now.rows }
    requires room { b.now.rows < 2 ^ 64 }
    ensures x { x.new
        ≡ plus_rows x.old (length first.now) (λ k. slice_index first.now k) b.now start }
    ensures y { y.new
        ≡ plus_rows y.old (length first.now) (λ k. slice_index second.now k) b.now start }
{
    let fours = first.len() / 4;
    for t in 0..fours {
        let k = t * 4;
        let row = start + k;
        let (p, q) = (b.row(row), b.row(row + 1));
        let (r, s) = (b.row(row + 2), b.row(row + 3));
        let f = [first[k], first[k + 1], first[k + 2], first[k + 3]];
        let g = [second[k], second[k + 1], second[k + 2], second[k + 3]];
        add_four_to_two(x, y, p, q, r, s, f, g);
    }
    let done = fours * 4;
    add_rows_singly(x, &first[done..], b, start + done);
    add_rows_singly(y, &second[done..], b, start + done);
}

// Adds four rows to two lists, each times its factor for either, so that they are read once for
// both. Eight words at a time leave room in the registers for the eight factors, the four rows and
// the two sums.
fn add_four_to_two(
    x: &mut [u32],
    y: &mut [u32],
    p: &[u32],
    q: &[u32],
    r: &[u32],
    s: &[u32],
    f: [u32; 4],
    g: [u32; 4],
)
    requires same { length y.old ≡ length x.old }
    requires first { length p.now ≡ length x.old }
    requires second { length q.now ≡ length x.old }
    requires third { length r.now ≡ length x.old }
    requires fourth { length s.now ≡ length x.old }
    ensures x { x.new ≡ plus_four x.old p.now q.now r.now s.now
        (slice_index f 0) (slice_index f 1) (slice_index f 2) (slice_index f 3) }
    ensures y { y.new ≡ plus_four y.old p.now q.now r.now s.now
        (slice_index g 0) (slice_index g 1) (slice_index g 2) (slice_index g 3) }
{
    let (ps, _) = p.as_chunks::<8>();
    let (qs, _) = q.as_chunks::<8>();
    let (rs, _) = r.as_chunks::<8>();
    let (ss, _) = s.as_chunks::<8>();
    let f0 = u32x8::splat(f[0]);
    let f1 = u32x8::splat(f[1]);
    let f2 = u32x8::splat(f[2]);
    let f3 = u32x8::splat(f[3]);
    let g0 = u32x8::splat(g[0]);
    let g1 = u32x8::splat(g[1]);
    let g2 = u32x8::splat(g[2]);
    let g3 = u32x8::splat(g[3]);
    for i in 0..ps.len() {
        let at = i * 8;
        let p = u32x8::from_array(ps[i]);
        let q = u32x8::from_array(qs[i]);
        let r = u32x8::from_array(rs[i]);
        let s = u32x8::from_array(ss[i]);
        let x_sum = u32x8::from_slice(&x[at..]) + f0 * p + f1 * q + f2 * r + f3 * s;
        let y_sum = u32x8::from_slice(&y[at..]) + g0 * p + g1 * q + g2 * r + g3 * s;
        x_sum.copy_to_slice(&mut x[at..]);
        y_sum.copy_to_slice(&mut y[at..]);
    }
    let done = ps.len() * 8;
    add_four_rest(x, p, q, r, s, f[0], f[1], f[2], f[3], done);
    add_four_rest(y, p, q, r, s, g[0], g[1], g[2], g[3], done);
}
