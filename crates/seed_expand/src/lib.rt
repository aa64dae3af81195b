//! Public words and matrices from a seed.
//!
//! A seed of 32 bytes gives 2^64 streams of 2^68 words each, by ChaCha20 (RFC 8439, section 2.3)
//! with a 64-bit block counter and a 64-bit nonce: the seed is the key, the stream's number is the
//! nonce, and a place counts the 32-bit words of a stream from block 0 on, sixteen to a block.
//!
//! Its tests are in tests/long/seed_expand and in `tests_scheme::sources`.
#![tactic(auto)]

ghost use Rattle.std.specs.Prelude.{◌≡◌, ℕ, ◌+◌, ◌%◌, ◌^◌, ◌<◌, ◌≤◌, IfOk, length};
ghost use Rattle.matrix_u32.specs.Sum.{list_of};
ghost use Rattle.matrix_u32.specs.Matrix.{times_vector};
ghost use Rattle.seed_expand.specs.Words.{source_at, further, word_here, source_word, words_from};
ghost use Rattle.seed_expand.specs.Words.{public_rows, source_rows};
ghost use Rattle.seed_expand.specs.Laws.{SourceGivesWords, SourceGivesRows, PlacesRunOn, RowsRunOn};

use matrix_u32::{Kernel, Matrix};
use rand_chacha::ChaCha20Rng;
use rand_core::SeedableRng;
use rand_core::utils::NextWord;
use std::alloc::{AllocError, Global};
use std::marker::Model;

// A source is a generator of the library's: what is proved of it here is which word each place
// gives, and that the places of a stream run on from block to block.

/// The words of one stream of a seed, read one after another from a place on.
///
/// Contracts see a source as its key, its stream and the place of its next word.
#[derive(Drop)]
pub struct WordSource {
    rng: ChaCha20Rng,
}

impl Model for WordSource {
    ghost use Rattle.rand_chacha.specs.ChaCha.{ChaCha};

    ghost Value = { ChaCha };

    ghost view = { λ s. s.rng };

    ghost use Rattle.std.specs.Prelude.{◌<◌, ◌^◌};

    ghost invariant = { λ s. s.rng.word_pos < 2 ^ 68 };
}

impl WordSource {
    /// The words of a seed's stream from a place on.
    pub fn at(seed: &[u8; 32], stream: u64, place: u64) -> WordSource
        ensures { result ≡ source_at seed.now stream place }
    {
        WordSource::at_wide(seed, stream, u128::from(place))
    }

    // The same for every place that a stream has: `at` itself can't name one from 2^64 on.
    fn at_wide(seed: &[u8; 32], stream: u64, place: u128) -> WordSource
        ensures { result ≡ source_at seed.now stream (place % 2 ^ 68) }
    {
        let mut rng = ChaCha20Rng::from_seed(*seed);
        rng.set_stream(stream);
        rng.set_word_pos(place);
        WordSource { rng }
    }

    /// The place of the next word, below 2^68.
    pub fn place(&self) -> u128
        ensures value { result ≡ self.now.word_pos }
        ensures bound { self.now.word_pos < 2 ^ 68 }
    {
        self.rng.get_word_pos()
    }

    /// The word at the source's place, which moves on by one: from the last place, 2^68 - 1, to 0.
    #[tactic(auto, unfolding(crate::specs::Words::word_here))]
    pub fn next(&mut self) -> u32
        ensures word { result ≡ word_here self.old }
        ensures source { self.new ≡ further self.old 1 }
    {
        self.rng.next_word()
    }
}

/// Fills a slice with a source's next words, in order.
pub fn fill_words(source: &mut WordSource, out: &mut [u32])
    ensures words { out.new ≡ list_of (length out.old) (source_word source.old) }
    ensures source { source.new ≡ further source.old (length out.old) }
{
    // Called for its bound: a place below 2^68 stays where it is when the slice is empty.
    source.place();
    for word in out.iter_mut() {
        *word = source.next();
    }
}

/// `count` words of a seed's stream from a place on.
///
/// Only refused memory gives an `Err`.
pub fn stream_words(
    alloc: Global,
    seed: &[u8; 32],
    stream: u64,
    place: u64,
    count: usize,
) -> Result<Vec<u32>, AllocError>
    ensures words { IfOk result (λ v. v.items ≡ words_from seed.now stream place count) }
    ensures count { IfOk result (λ v. length v.items ≡ count) }
{
    let mut words = vec![in alloc; 0; count]?;
    fill_words(&mut WordSource::at(seed, stream, place), &mut words);
    Ok(words)
}

/// Rows `first_row` to `first_row + rows - 1` of the public matrix of a stream, which has n words a
/// row: its word (i, j) is the stream's word at place i n + j.
///
/// Only refused memory gives an `Err`. The words are made in place, with no second copy of them.
pub fn expand(
    alloc: Global,
    seed: &[u8; 32],
    stream: u64,
    first_row: usize,
    rows: usize,
    n: usize,
) -> Result<Matrix, AllocError>
    requires rows { first_row + rows ≤ 32768 }
    requires cols { (1 ≤ n) × (n ≤ 1024) }
    ensures { IfOk result (λ m. m ≡ public_rows seed.now stream first_row rows n) }
{
    let words = stream_words(alloc, seed, stream, (first_row * n) as u64, rows * n)?;
    // There are rows * n words, and at most 32768 * 1024 of them: this can't fail.
    Ok(Matrix::from_words(rows, n, words).unwrap())
}

/// The matrix whose words a source gives, row by row, times a vector: a word for each row, of which
/// there are as many as `out` has words; a row has as many words as `x`. The rows are made one
/// after another in the memory of one, which is `row`.
pub fn expand_times<K: Kernel>(
    kernel: K,
    mut source: WordSource,
    x: &[u32],
    row: &mut [u32],
    out: &mut [u32],
)
    requires { length row.old ≡ length x.now }
    ensures words { out.new ≡
        times_vector (source_rows source (length out.old) (length x.now)) x.now }
    ensures row { length row.new ≡ length row.old }
{
    // Called for its bound: a place below 2^68 stays where it is when there are no rows.
    source.place();
    for word in out.iter_mut() {
        fill_words(&mut source, row);
        *word = kernel.dot(row, x);
    }
}

/// A source that was opened at a place gives the seed's words from that place on.
pub fn source_gives_words()
    ensures { SourceGivesWords }
{}

/// A source that was opened at the start of a stream gives the rows of its public matrix.
pub fn source_gives_rows()
    ensures { SourceGivesRows }
{}

/// Places run on: a source that was read on is read on from there, and after the last place, 2^68 -
/// 1, a stream begins anew.
pub fn places_run_on()
    ensures { PlacesRunOn }
{}

/// Rows run on: rows of a public matrix and those after them, made apart, are the rows made at
/// once.
pub fn rows_run_on()
    ensures { RowsRunOn }
{}
