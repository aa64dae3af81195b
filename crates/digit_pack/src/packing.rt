//! Bytes as digits, and digits as bytes.

ghost use Rattle.std.specs.Prelude.{◌≡◌, ℕ, ◌+◌, ◌*◌, ◌%◌, ◌/◌, ◌^◌, ◌≤◌, ◌<◌, length, slice_index};
ghost use Rattle.std.specs.Prelude.{All};
ghost use Rattle.lane_kernels.specs.Digit.{digit, split_count};
ghost use Rattle.digit_pack.specs.Digits.{digits_of, number_of, joined};
ghost use Rattle.digit_pack.specs.Windows.{window};

// The byte at a place, and 0 past the end.
fn byte_at(bytes: &[u8], i: usize) -> u32
    ensures value { result ≡ slice_index bytes.now i }
    ensures small { result < 256 }
{
    match bytes.get(i) {
        Some(b) => u32::from(*b),
        None => 0,
    }
}

// Three bytes from a place on.
#[tactic(auto, unfolding(crate::specs::Windows::window))]
fn byte_window(bytes: &[u8], first: usize) -> u32
    requires { first < 65536 }
    ensures { result ≡ window 8 bytes.now first }
{
    byte_at(bytes, first) + byte_at(bytes, first + 1) * 256 + byte_at(bytes, first + 2) * 65536
}

/// Writes the first digits, of w bits, of the number that bytes write into `out`: least significant
/// first, as many as `out` has places.
pub fn pack_bytes(w: u32, bytes: &[u8], out: &mut [u32])
    requires width { (6 ≤ w) × (w ≤ 10) }
    requires room { length out.old ≤ 32768 }
    ensures { out.new ≡ digits_of w (length out.old) (number_of 8 bytes.now) }
{
    for t in 0..out.len() {
        let bit = w as usize * t;
        let part = byte_window(bytes, bit / 8) >> (bit % 8);
        out[t] = part % (1 << w);
    }
}

/// How many digits of w bits a word has: 32 divided by w, rounded up.
#[tactic(auto, unfolding(lane_kernels::specs::Digit::split_count))]
pub fn split_count(w: u32) -> usize
    requires { (6 ≤ w) × (w ≤ 10) }
    ensures { result ≡ split_count w }
{
    (31 + w as usize) / w as usize
}

/// Digit t of a word, to base 2^w.
pub fn word_digit(x: u32, w: u32, t: usize) -> u32
    requires width { (6 ≤ w) × (w ≤ 10) }
    requires place { t < split_count w }
    ensures value { result ≡ digit w x t }
    ensures small { result < 2 ^ w }
{
    (x >> (w as usize * t)) % (1 << w)
}

/// Writes the digits of a word, to base 2^w, into `out`, least significant first.
pub fn split_word(x: u32, w: u32, out: &mut [u32])
    requires width { (6 ≤ w) × (w ≤ 10) }
    requires room { length out.old ≡ split_count w }
    ensures { out.new ≡ digits_of w (split_count w) x }
{
    let mut rest = x;
    for t in 0..out.len() {
        out[t] = rest % (1 << w);
        rest >>= w;
    }
}

/// The word that digits to base 2^w write, least significant first: their sum modulo 2^32.
#[tactic(auto, using(crate::proofs::DigitSums::top_place, matrix_u32::proofs::Sums::sum_below_more, matrix_u32::proofs::Sums::sum_below_none), unfolding(crate::specs::Digits::number_of))]
pub fn join_word(digits: &[u32], w: u32) -> u32
    requires width { (6 ≤ w) × (w ≤ 10) }
    requires count { length digits.now ≡ split_count w }
    ensures { result ≡ joined w digits.now }
{
    let mut word: u32 = 0;
    for t in 0..digits.len() {
        word = word.wrapping_add(digits[t].wrapping_mul(1 << (w * t as u32)));
    }
    word
}
