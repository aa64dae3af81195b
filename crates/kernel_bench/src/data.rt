//! Words to work on: those of a linear congruential generator, so that another program has the
//! same.

ghost use Rattle.std.specs.Prelude.{◌≡◌, length, IfSome};

use matrix_u32::Matrix;
use std::alloc::Global;

/// A matrix of words, of which the bits outside the mask are 0. None if memory for it is refused.
pub fn filled(alloc: Global, rows: usize, cols: usize, seed: u32, mask: u32) -> Option<Matrix>
    ensures { IfSome result (λ m. (m.rows ≡ rows) × (m.cols ≡ cols)) }
{
    let mut m = Matrix::zeros(alloc, rows, cols).ok()?;
    fill_rows(&mut m, seed, mask);
    Some(m)
}

fn fill_rows(m: &mut Matrix, seed: u32, mask: u32)
    ensures rows { m.new.rows ≡ m.old.rows }
    ensures cols { m.new.cols ≡ m.old.cols }
{
    let mut state = seed;
    for i in 0..m.rows() {
        state = fill(m.row_mut(i), state, mask);
    }
}

/// As many words as are asked for.
pub fn vector(alloc: Global, count: usize, seed: u32) -> Option<Vec<u32>>
    ensures { IfSome result (λ words. length words.items ≡ count) }
{
    let mut words = Vec::from_elem(alloc, 0u32, count).ok()?;
    fill(words.as_mut_slice(), seed, u32::MAX);
    Some(words)
}

// Fills `out` from a state of the generator on, and returns the state after it.
fn fill(out: &mut [u32], seed: u32, mask: u32) -> u32 {
    let mut state = seed;
    for word in out.iter_mut() {
        state = state.wrapping_mul(1_664_525).wrapping_add(1_013_904_223);
        *word = (state ^ (state >> 13)) & mask;
    }
    state
}
