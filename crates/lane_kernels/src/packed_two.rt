//! Products of packed digits with two vectors, for which the digits are read once.

ghost use Rattle.std.specs.Prelude.{◌≡◌, ◌<◌, ◌≤◌, ◌+◌, ◌*◌, ◌^◌, length, map, slice_range};
ghost use Rattle.std.specs.Prelude.{List, [], ◌∷◌, All};
ghost use Rattle.matrix_u32.specs.Sum.{list_of};
ghost use Rattle.matrix_u32.specs.Matrix.{times_vector};
ghost use Rattle.lane_kernels.specs.Packed.{packed_cols, unpacked};
ghost use Rattle.lane_kernels.specs.Carried.{shifted_sum, plus_part};

use crate::packed::{
    PART, Prepared, add_part_singly, carried, part, piece, products, row_total, row_words,
};
use std::simd::prelude::*;

/// Writes the products of a packed matrix of digits with `x` and with `y` into `x_out` and `y_out`,
/// whatever they held: what two calls of [`packed_mul_vec`](crate::packed_mul_vec) write. The
/// digits are read once for both.
pub fn packed_mul_two(
    packed: &[u32],
    cols: usize,
    x: &[u32],
    y: &[u32],
    x_out: &mut [u32],
    y_out: &mut [u32],
)
    requires x_fits { length x.now ≡ cols }
    requires y_fits { length y.now ≡ cols }
    requires rows_fit { length packed.now ≡ length x_out.old * packed_cols cols }
    requires same_rows { length y_out.old ≡ length x_out.old }
    requires three_digits { All (λ word. word < 2 ^ 30) packed.now }
    ensures x { x_out.new ≡ times_vector (unpacked (length x_out.old) cols packed.now) x.now }
    ensures y { y_out.new ≡ times_vector (unpacked (length x_out.old) cols packed.now) y.now }
{
    let words = row_words(cols);
    x_out.fill(0);
    y_out.fill(0);
    let mut start = 0;
    while start < words {
        let count = PART.min(words - start);
        add_part_two(packed, words, start, count, x, y, x_out, y_out);
        start += count;
    }
}

// Adds to each word of both lists the products of `count` words of its row from start on.
fn add_part_two(
    packed: &[u32],
    words: usize,
    start: usize,
    count: usize,
    x: &[u32],
    y: &[u32],
    x_out: &mut [u32],
    y_out: &mut [u32],
)
    requires rows_fit { length packed.now ≡ length x_out.old * words }
    requires same_rows { length y_out.old ≡ length x_out.old }
    requires inside { start + count ≤ words }
    requires most { count ≤ 10944 }
    requires room { 3 * start + 1 < 2 ^ 63 }
    ensures x { x_out.new ≡ plus_part x_out.old packed.now x.now words start count }
    ensures y { y_out.new ≡ plus_part y_out.old packed.now y.now words start count }
{
    let a_part = part(x, 3 * start, count);
    let b_part = carried(x, 3 * start, count);
    let c_part = carried(x, 3 * start + 1, count);
    let d_part = part(y, 3 * start, count);
    let e_part = carried(y, 3 * start, count);
    let f_part = carried(y, 3 * start + 1, count);
    let first = Prepared {
        a: &a_part[..count],
        b: &b_part[..count],
        c: &c_part[..count],
    };
    let second = Prepared {
        a: &d_part[..count],
        b: &e_part[..count],
        c: &f_part[..count],
    };
    let fours = x_out.len() / 4;
    for t in 0..fours {
        let row = t * 4;
        let (x_four, y_four) = four_by_two(packed, row, words, start, &first, &second);
        let x_sum = u32x4::from_slice(&x_out[row..]) + u32x4::from_array(x_four);
        let y_sum = u32x4::from_slice(&y_out[row..]) + u32x4::from_array(y_four);
        x_sum.copy_to_slice(&mut x_out[row..]);
        y_sum.copy_to_slice(&mut y_out[row..]);
    }
    add_part_singly(packed, words, start, fours * 4, &first, x_out);
    add_part_singly(packed, words, start, fours * 4, &second, y_out);
}

// Four rows from one on with two prepared vectors, so that these are read once for all four rows,
// and the rows once for both vectors.
fn four_by_two(
    packed: &[u32],
    row: usize,
    words: usize,
    start: usize,
    x: &Prepared<'_>,
    y: &Prepared<'_>,
) -> ([u32; 4], [u32; 4])
    requires room { row + 4 < 2 ^ 64 }
    requires rows { (row + 4) * words ≤ length packed.now }
    requires inside { start + length x.now.a.now ≤ words }
    requires x_b { length x.now.b.now ≡ length x.now.a.now }
    requires x_c { length x.now.c.now ≡ length x.now.a.now }
    requires y_a { length y.now.a.now ≡ length x.now.a.now }
    requires y_b { length y.now.b.now ≡ length x.now.a.now }
    requires y_c { length y.now.c.now ≡ length x.now.a.now }
    ensures x { result.0 ≡ list_of 4 (λ j. shifted_sum
        (slice_range packed.now ((row + j) * words + start)
        ((row + j) * words + start + length x.now.a.now))
        x.now.a.now x.now.b.now x.now.c.now) }
    ensures y { result.1 ≡ list_of 4 (λ j. shifted_sum
        (slice_range packed.now ((row + j) * words + start)
        ((row + j) * words + start + length x.now.a.now))
        y.now.a.now y.now.b.now y.now.c.now) }
{
    let count = x.a.len();
    let p = piece(packed, row, words, start, count);
    let q = piece(packed, row + 1, words, start, count);
    let r = piece(packed, row + 2, words, start, count);
    let s = piece(packed, row + 3, words, start, count);
    four_pieces_by_two(p, q, r, s, x, y)
}

// Pieces of four rows, each with both prepared vectors.
fn four_pieces_by_two(
    p: &[u32],
    q: &[u32],
    r: &[u32],
    s: &[u32],
    x: &Prepared<'_>,
    y: &Prepared<'_>,
) -> ([u32; 4], [u32; 4])
    requires p { length p.now ≡ length x.now.a.now }
    requires q { length q.now ≡ length x.now.a.now }
    requires r { length r.now ≡ length x.now.a.now }
    requires s { length s.now ≡ length x.now.a.now }
    requires x_b { length x.now.b.now ≡ length x.now.a.now }
    requires x_c { length x.now.c.now ≡ length x.now.a.now }
    requires y_a { length y.now.a.now ≡ length x.now.a.now }
    requires y_b { length y.now.b.now ≡ length x.now.a.now }
    requires y_c { length y.now.c.now ≡ length x.now.a.now }
    ensures x { result.0 ≡ map (λ ws. shifted_sum ws x.now.a.now x.now.b.now x.now.c.now)
        (p.now ∷ q.now ∷ r.now ∷ s.now ∷ []) }
    ensures y { result.1 ≡ map (λ ws. shifted_sum ws y.now.a.now y.now.b.now y.now.c.now)
        (p.now ∷ q.now ∷ r.now ∷ s.now ∷ []) }
{
    let (p_all, q_all) = (p.as_chunks::<8>().0, q.as_chunks::<8>().0);
    let (r_all, s_all) = (r.as_chunks::<8>().0, s.as_chunks::<8>().0);
    let (a_all, b_all) = (x.a.as_chunks::<8>().0, x.b.as_chunks::<8>().0);
    let (c_all, d_all) = (x.c.as_chunks::<8>().0, y.a.as_chunks::<8>().0);
    let (e_all, f_all) = (y.b.as_chunks::<8>().0, y.c.as_chunks::<8>().0);
    let zero = u32x8::splat(0);
    let (mut px, mut qx, mut rx, mut sx) = (zero, zero, zero, zero);
    let (mut py, mut qy, mut ry, mut sy) = (zero, zero, zero, zero);
    for i in 0..a_all.len() {
        let a = u32x8::from_array(a_all[i]);
        let b = u32x8::from_array(b_all[i]);
        let c = u32x8::from_array(c_all[i]);
        let d = u32x8::from_array(d_all[i]);
        let e = u32x8::from_array(e_all[i]);
        let f = u32x8::from_array(f_all[i]);
        let (p_i, q_i, r_i, s_i) = (p_all[i], q_all[i], r_all[i], s_all[i]);
        px += products(p_i, a, b, c);
        py += products(p_i, d, e, f);
        qx += products(q_i, a, b, c);
        qy += products(q_i, d, e, f);
        rx += products(r_i, a, b, c);
        ry += products(r_i, d, e, f);
        sx += products(s_i, a, b, c);
        sy += products(s_i, d, e, f);
    }
    let x_four = [
        row_total(px, p, x),
        row_total(qx, q, x),
        row_total(rx, r, x),
        row_total(sx, s, x),
    ];
    let y_four = [
        row_total(py, p, y),
        row_total(qy, q, y),
        row_total(ry, r, y),
        row_total(sy, s, y),
    ];
    (x_four, y_four)
}
