//! How long things took.

ghost use Rattle.std.specs.Prelude.{◌≡◌, ◌+◌, ◌++◌, ◌∷◌, ◌<◌, ◌≤◌, [], ℕ, List, count_by, length};
ghost use Rattle.std.specs.Prelude.{sum, take, slice_index, slice_set};
ghost use Rattle.service_watch.specs.Counts.{saturating};
ghost use Rattle.service_watch.specs.Durations.{IsSpread, bin_of, is_below};

/// How many bounds there are.
pub const BOUND_COUNT: usize = 12;

/// The bounds of the bins in microseconds: a bin has what took no more than its bound, and more
/// than that before.
const BOUNDS: [u64; BOUND_COUNT] = [
    1_000, 2_500, 5_000, 10_000, 25_000, 50_000, 100_000, 250_000, 500_000, 1_000_000, 2_500_000,
    10_000_000,
];

/// How many times were in each bin, the last one for those past all bounds, and what they come to.
/// What a word can't say stays at the most that it can.
#[derive(Clone, Copy)]
pub struct Histogram {
    bins: [u64; 13],
    sum: u64,
}

impl Histogram {
    /// Nothing was observed.
    pub fn new() -> Histogram
        ensures { IsSpread result.bins result.sum [] }
    {
        Histogram {
            bins: [0; 13],
            sum: 0,
        }
    }

    /// Observes that a thing took so many microseconds.
    pub fn observe(&mut self, micros: u64)
        ensures spread { (times : List ℕ) → IsSpread self.old.bins self.old.sum times →
            IsSpread self.new.bins self.new.sum (times ++ micros ∷ []) }
        ensures exactly { self.new.bins ≡ slice_set self.old.bins (bin_of micros)
            (saturating (slice_index self.old.bins (bin_of micros) + 1)) }
    {
        let bin = bin_at(micros);
        self.bins[bin] = self.bins[bin].saturating_add(1);
        self.sum = self.sum.saturating_add(micros);
    }

    /// How many took no more than the bound of a number, or, past the last bound, how many there
    /// were.
    pub fn at_most(&self, bound: usize) -> u64
        requires { bound ≤ 12 }
        ensures { result ≡ saturating (sum (take (bound + 1) self.now.bins)) }
    {
        let mut count: u64 = 0;
        for at in 0..bound + 1 {
            count = count.saturating_add(self.bins[at]);
        }
        count
    }

    /// How many microseconds all took together.
    pub fn total(&self) -> u64
        ensures { result ≡ self.now.sum }
    {
        self.sum
    }
}

// The bin of a time: as many bounds are below it.
#[tactic(auto, unfolding(crate::specs::Durations::bin_of))]
fn bin_at(micros: u64) -> usize
    ensures bin { result ≡ bin_of micros }
    ensures within { result < 13 }
{
    count_below(&BOUNDS, micros)
}

// How many bounds are below a time.
fn count_below(bounds: &[u64], micros: u64) -> usize
    ensures count { result ≡ count_by (is_below micros) bounds.now }
    ensures within { result ≤ length bounds.now }
{
    let mut count = 0;
    for bound in bounds {
        if *bound < micros {
            count += 1;
        }
    }
    count
}
