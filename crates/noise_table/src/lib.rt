//! The noise that a word gives, and the margin that sums of noise have to keep.
//!
//! Its tests are in tests/long/noise_table and in `tests_scheme::sources`.
#![tactic(auto)]

ghost use Rattle.std.specs.Prelude.{◌≡◌, ◌≤◌, ◌<◌, ◌^◌, ◌↔◌, pos, length, unsigned_abs, IsTrue};
ghost use Rattle.matrix_u32.specs.Sum.{list_of};
ghost use Rattle.seed_expand.specs.Words.{source_word, further};
ghost use Rattle.noise_table.specs.Noise.{is_ascending, magnitude, noise, noise_limits};
ghost use Rattle.noise_table.specs.Margin.{IsCertain};
ghost use Rattle.noise_table.specs.Laws.{NoiseIsBounded, CertainIsQuiet};

use seed_expand::WordSource;

// The table and its largest magnitude are the code's own: the definitions have theirs
// (`specs/Noise`), and the contract of `noise_of` holds for these words only if both agree.

/// The largest magnitude of noise.
pub const NOISE_MAX: i32 = 27;

/// The noise table: the magnitude of a number below 2^15 is how many of these are at most that
/// number. The numbers are those of a Gaussian of standard deviation 6.4 over the whole numbers;
/// nothing is proved of that.
pub const LIMITS: [u32; 28] = [
    2043, 6079, 9970, 13630, 16990, 20001, 22633, 24879, 26749, 28269, 29474, 30407, 31111, 31630,
    32003, 32265, 32445, 32565, 32643, 32693, 32724, 32743, 32754, 32760, 32764, 32766, 32767,
    32768,
];

/// The noise of a word: the low 15 bits give the magnitude, at most `NOISE_MAX`, and bit 15 the
/// sign, 1 for a negative number. Bits 16 to 31 are ignored.
#[tactic(auto, unfolding(crate::specs::Noise::noise))]
pub fn noise_of(word: u32) -> i32
    ensures value { result ≡ noise word }
    ensures bound { unsigned_abs result ≤ 27 }
{
    let magnitude = magnitude_of(word % 32768);
    if (word >> 15) % 2 == 1 {
        -magnitude
    } else {
        magnitude
    }
}

// The magnitude of 15 bits.
#[tactic(auto, using(crate::proofs::Bound::magnitude_le))]
fn magnitude_of(bits: u32) -> i32
    requires { bits < 2 ^ 15 }
    ensures value { result ≡ pos (magnitude bits) }
    ensures bound { magnitude bits ≤ 27 }
{
    limits_up_to(bits) as i32
}

// How many limits are at most `bits`.
#[tactic(auto, unfolding(crate::specs::Noise::magnitude))]
fn limits_up_to(bits: u32) -> usize
    ensures { result ≡ magnitude bits }
{
    LIMITS.iter().filter(|limit| **limit <= bits).count()
}

/// Fills a slice with the noise of a source's next words, in order.
pub fn fill_noise(source: &mut WordSource, out: &mut [i32])
    ensures noise { out.new ≡ list_of (length out.old) (λ k. noise (source_word source.old k)) }
    ensures source { source.new ≡ further source.old (length out.old) }
{
    seed_expand::places_run_on();
    // Called for its bound: a place below 2^68 stays where it is when the slice is empty.
    source.place();
    for noise in out.iter_mut() {
        *noise = noise_of(source.next());
    }
}

/// Whether a sum of `terms` digits of w bits, each times some noise, stays below half of delta
/// (2^32 divided by 2^w) whatever the noise is. Exact for every number of terms.
pub fn is_certain(w: u32, terms: usize) -> bool
    requires { (6 ≤ w) × (w ≤ 10) }
    ensures { IsTrue result ↔ IsCertain w terms }
{
    let largest_digit = (1_u128 << w) - 1;
    let half_delta = (1_u128 << (32 - w)) / 2;
    (NOISE_MAX as u128) * largest_digit * (terms as u128) < half_delta
}

/// The noise table has the numbers of the definition, and each is below the next.
pub fn limits_ascend()
    ensures numbers { LIMITS ≡ noise_limits }
    ensures ascending { IsTrue (is_ascending noise_limits) }
{}

/// The noise of every word is at most 27 either way.
pub fn noise_is_bounded()
    ensures { NoiseIsBounded }
{}

/// If a number of terms is certain, every row of that many digits is quiet, whatever the noise is.
pub fn certain_is_quiet()
    ensures { CertainIsQuiet }
{}
