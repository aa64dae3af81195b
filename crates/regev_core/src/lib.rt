//! One layer of Regev encryption over words: encrypt a unit vector, strip a product of the hint,
//! round to a digit ('One Server for the Price of Two', USENIX Security 2023, section 3).
//!
//! A digit has w bits, w in 6..=10; the plaintext modulus is 2^w and delta, the distance of
//! neighbouring digits among the 2^32 words, is 2^(32 - w). All arithmetic is modulo 2^32.
//!
//! Its tests are in tests/long/regev_core.
#![tactic(auto)]

ghost use Rattle.std.specs.Prelude.{◌≡◌, ◌≤◌, ◌<◌, length};
ghost use Rattle.noise_table.specs.Margin.{delta};
ghost use Rattle.regev_core.specs.Encryption.{cipher, with_noise, stripped, nearest, IsNearest};

use matrix_u32::{Kernel, Matrix};

pub mod laws;

/// Delta, the distance of neighbouring digits of w bits: 2^(32 - w).
#[tactic(auto, using(std::proofs::lemmas::Nat::one_shl), unfolding(noise_table::specs::Margin::delta))]
pub fn delta(w: u32) -> u32
    requires { (6 ≤ w) × (w ≤ 10) }
    ensures { result ≡ delta w }
{
    1 << (32 - w)
}

/// Encrypts the unit vector with its 1 at `place` into `out`, whatever it held: word j is row j of
/// `a` times the secret `s`, and the noise `e[j]`, and at `place` delta more.
///
/// `a` has a row for each word of `out` and a column for each word of the secret.
pub fn encrypt<K: Kernel>(
    kernel: K,
    a: &Matrix,
    s: &[u32],
    e: &[i32],
    place: usize,
    w: u32,
    out: &mut [u32],
)
    requires width { (6 ≤ w) × (w ≤ 10) }
    requires place { place < a.now.rows }
    requires secret { length s.now ≡ a.now.cols }
    requires noise { length e.now ≡ a.now.rows }
    requires room { length out.old ≡ a.now.rows }
    ensures { out.new ≡ cipher w a.now s.now e.now place }
{
    kernel.mul_vec(a, s, out);
    add_noise(e, place, w, out);
}

/// Adds the noise `e`, word by word, and delta at `place`: what makes the products of a matrix and
/// a secret an encryption.
pub fn add_noise(e: &[i32], place: usize, w: u32, out: &mut [u32])
    requires width { (6 ≤ w) × (w ≤ 10) }
    requires place { place < length out.old }
    requires noise { length e.now ≡ length out.old }
    ensures { out.new ≡ with_noise w out.old e.now place }
{
    for j in 0..out.len() {
        out[j] = out[j].wrapping_add_signed(e[j]);
    }
    out[place] = out[place].wrapping_add(delta(w));
}

/// A word of an answer without the secret's part: the word minus the hint's row times the secret.
pub fn strip<K: Kernel>(kernel: K, word: u32, hint_row: &[u32], s: &[u32]) -> u32
    requires { length hint_row.now ≡ length s.now }
    ensures { result ≡ stripped word hint_row.now s.now }
{
    word.wrapping_sub(kernel.dot(hint_row, s))
}

/// The digit that is nearest to a word on the circle of all words: exactly half of delta above a
/// digit goes to the next one, exactly half below stays.
#[tactic(auto, unfolding(crate::specs::Encryption::nearest))]
pub fn round(word: u32, w: u32) -> u32
    requires { (6 ≤ w) × (w ≤ 10) }
    ensures value { result ≡ nearest w word }
    ensures nearest { IsNearest w word result }
{
    let step = delta(w);
    word.wrapping_add(step / 2) / step
}
