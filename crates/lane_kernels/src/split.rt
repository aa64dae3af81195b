//! The digits of words.

ghost use Rattle.std.specs.Prelude.{◌≡◌, ℕ, ◌<◌, ◌≤◌, ◌/◌, ◌^◌, length, slice_index, bit_and};
ghost use Rattle.lane_kernels.specs.Digit.{split_count, split_words};

use std::simd::prelude::*;

/// Writes digit k of each word of `x` into `out`: with digits of w bits, w in 6..=10, it is the
/// word divided by 2^(w k), modulo 2^w. A word has 32 / w digits, rounded up; the last can be
/// shorter.
pub fn split_row(x: &[u32], w: u32, k: u32, out: &mut [u32])
    requires room { length out.old ≡ length x.now }
    requires width { (6 ≤ w) × (w ≤ 10) }
    requires digit { k < split_count w }
    ensures { out.new ≡ split_words w k x.now }
{
    let shift = w * k;
    let mask = (1u32 << w) - 1;
    let (xs, _) = x.as_chunks::<8>();
    let shifts = u32x8::splat(shift);
    let masks = u32x8::splat(mask);
    for i in 0..xs.len() {
        let digits = (u32x8::from_array(xs[i]) >> shifts) & masks;
        digits.copy_to_slice(&mut out[i * 8..]);
    }
    split_rest(x, shift, mask, xs.len() * 8, out);
}

// The words from one on, one by one.
fn split_rest(x: &[u32], shift: u32, mask: u32, from: usize, out: &mut [u32])
    requires room { length out.old ≡ length x.now }
    requires inside { shift < 32 }
    ensures count { length out.new ≡ length out.old }
    ensures kept { (q : ℕ) → q < from → slice_index out.new q ≡ slice_index out.old q }
    ensures done { (q : ℕ) → from ≤ q → q < length out.old
        → slice_index out.new q ≡ bit_and (slice_index x.now q / 2 ^ shift) mask }
{
    for j in from..out.len() {
        out[j] = (x[j] >> shift) & mask;
    }
}
