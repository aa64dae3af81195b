//! How rarely noise causes a digit to be misread.
//!
//! Odds are given in bits: b bits are odds of 2^-b at most. The numbers are those of the
//! definitions in `specs/Odds`; that no odds are greater is Chernoff's bound, of which nothing is
//! proved here (docs/DECISIONS.md, 'Odds').
//!
//! Its tests are in `tests_scheme::sources` and tests/odds.
#![tactic(auto)]

ghost use Rattle.std.specs.Prelude.{◌≡◌, ◌≤◌, ◌<◌, ◌^◌};
ghost use Rattle.noise_odds.specs.Odds.{double_odds, even_bits, even_from, greatest, less_excess};
ghost use Rattle.noise_odds.specs.Odds.{margin_squared, mean_from, simple_odds, spread, worst_bits};
ghost use Rattle.noise_odds.specs.Odds.{worst_from};

// Bits are rounded down, so that odds are never said to be better than they are by the definitions.

/// Bits of the odds of one thing.
#[derive(Clone, Copy, Debug, PartialEq, Eq)]
pub struct Odds {
    /// If digits are drawn evenly.
    pub even: u64,
    /// Whatever the digits are.
    pub worst: u64,
}

/// Bits of the odds that a digit of a SimplePIR retrieval is misread, in a store with digits of
/// `width` bits in so many columns.
pub fn of_simple(width: u32, columns: usize) -> Odds
    requires width { (6 ≤ width) × (width ≤ 10) }
    requires columns { (0 < columns) × (columns ≤ 2 ^ 15) }
    ensures even { result.even ≡ simple_odds (even_bits width columns) }
    ensures worst { result.worst ≡ simple_odds (worst_bits width columns) }
{
    let sum = of_sum(width, columns);
    Odds {
        even: sum.even.saturating_sub(1),
        worst: sum.worst.saturating_sub(1),
    }
}

/// Bits of the odds that a digit of a DoublePIR retrieval is misread, in a store with digits of
/// `width` bits in so many rows and columns.
pub fn of_double(width: u32, columns: usize, rows: usize) -> Odds
    requires width { (6 ≤ width) × (width ≤ 10) }
    requires columns { (0 < columns) × (columns ≤ 2 ^ 15) }
    requires rows { (0 < rows) × (rows ≤ 2 ^ 15) }
    ensures even { result.even ≡ double_odds (even_bits width columns) (even_bits width rows) }
    ensures worst { result.worst ≡ double_odds (worst_bits width columns) (worst_bits width rows) }
{
    let first = of_sum(width, columns);
    let second = of_sum(width, rows);
    Odds {
        even: of_layers(first.even, second.even),
        worst: of_layers(first.worst, second.worst),
    }
}

// Those of a digit that is read from one sum over columns, and from many over rows.
fn of_layers(columns: u64, rows: u64) -> u64
    ensures { result ≡ double_odds columns rows }
{
    columns.saturating_sub(2).min(rows.saturating_sub(15))
}

// Bits of the odds that a sum over so many digits, each times some noise, reaches half of delta on
// one side.
fn of_sum(width: u32, terms: usize) -> Odds
    requires width { (6 ≤ width) × (width ≤ 10) }
    requires terms { (0 < terms) × (terms ≤ 2 ^ 15) }
    ensures even { result.even ≡ even_bits width terms }
    ensures worst { result.worst ≡ worst_bits width terms }
{
    let margin = margin_of(width);
    let greatest = greatest_of(width);
    let worst = worst_of(margin, greatest, terms as u64);
    Odds {
        even: even_of(margin, greatest, terms as u64, worst),
        worst,
    }
}

// The square of half of delta.
fn margin_of(width: u32) -> u64
    requires { (6 ≤ width) × (width ≤ 10) }
    ensures value { result ≡ margin_squared width }
    ensures few { result ≤ 2 ^ 50 }
{
    let half = 1_u64 << (31 - width);
    half * half
}

// The greatest digit.
fn greatest_of(width: u32) -> u64
    requires { (6 ≤ width) × (width ≤ 10) }
    ensures value { result ≡ greatest width }
    ensures some { 1 ≤ result }
    ensures few { result ≤ 1023 }
{
    (1_u64 << width) - 1
}

// Bits of a sum of the greatest digits.
fn worst_of(margin: u64, greatest: u64, terms: u64) -> u64
    requires margin { margin ≤ 2 ^ 50 }
    requires some { 1 ≤ greatest }
    requires few { greatest ≤ 1023 }
    requires terms { (0 < terms) × (terms ≤ 2 ^ 15) }
    ensures { result ≡ worst_from margin greatest terms }
{
    margin * 18 / (1025 * (terms * (greatest * greatest)))
}

// Bits of a sum of digits that are drawn evenly, before what is taken off.
fn mean_of(margin: u64, greatest: u64, terms: u64) -> u64
    requires margin { margin ≤ 2 ^ 50 }
    requires some { 1 ≤ greatest }
    requires few { greatest ≤ 1023 }
    requires terms { (0 < terms) × (terms ≤ 2 ^ 15) }
    ensures value { result ≡ mean_from margin greatest terms }
    ensures few { result ≤ 2 ^ 57 }
{
    margin * 108 / (1025 * (terms * (greatest * (2 * greatest + 1))))
}

// The square of `terms` times 2 x + 1.
fn spread_of(greatest: u64, terms: u64) -> u64
    requires few { greatest ≤ 1023 }
    requires terms { (0 < terms) × (terms ≤ 2 ^ 15) }
    ensures value { result ≡ spread greatest terms }
    ensures some { 0 < result }
    ensures few { result ≤ 2 ^ 52 }
{
    let root = terms * (2 * greatest + 1);
    root * root
}

// Bits of a sum of digits that are drawn evenly, from those of the worst ones.
fn even_of(margin: u64, greatest: u64, terms: u64, worst: u64) -> u64
    requires margin { margin ≤ 2 ^ 50 }
    requires some { 1 ≤ greatest }
    requires few { greatest ≤ 1023 }
    requires terms { (0 < terms) × (terms ≤ 2 ^ 15) }
    ensures { result ≡ even_from margin greatest terms worst }
{
    let spread = spread_of(greatest, terms);
    if 41 * spread < 36 * margin {
        return worst;
    }
    let mean = mean_of(margin, greatest, terms);
    worst.max(less_excess(mean, margin, spread))
}

// Bits less what is taken off, since the squares of digits are not all at their mean.
fn less_excess(mean: u64, margin: u64, spread: u64) -> u64
    requires mean { mean ≤ 2 ^ 57 }
    requires margin { margin ≤ 2 ^ 50 }
    requires spread { (0 < spread) × (spread ≤ 2 ^ 52) }
    ensures { result ≡ less_excess mean margin spread }
{
    let excess = u128::from(mean) * u128::from(54 * margin) / u128::from(205 * spread) + 1;
    u128::from(mean).saturating_sub(excess) as u64
}
