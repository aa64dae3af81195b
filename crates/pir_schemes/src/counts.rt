//! How many words hints, queries and answers have. `n` is the dimension of the public matrices, at
//! most 1024.

ghost use Rattle.std.specs.Prelude.{◌≡◌, ◌≤◌, ◌*◌};
ghost use Rattle.lane_kernels.specs.Digit.{split_count as digits_in_word};
ghost use Rattle.pir_schemes.specs.Retrievals.{
  hint_rows as rows_of_hint,
  hint_len as words_of_hint,
  query_count as words_of_query,
  answer_count as words_of_answer,
};

use crate::scheme::Scheme;
use digit_pack::{Layout, split_count};

// How many digits n words have.
fn digits_in_words(layout: &Layout, n: usize) -> usize
    requires { n ≤ 1024 }
    ensures value { result ≡ n * digits_in_word layout.now.width }
    ensures small { result ≤ 6144 }
{
    n * split_count(layout.width())
}

/// How many rows a hint has, of n words each.
pub fn hint_rows(scheme: Scheme, layout: &Layout, n: usize) -> usize
    requires { n ≤ 1024 }
    ensures value { result ≡ rows_of_hint scheme layout.now n }
    ensures small { result ≤ 32768 }
{
    match scheme {
        Scheme::Simple => layout.rows(),
        Scheme::Double => digits_in_words(layout, n),
    }
}

/// How many words a hint has: at most 33,554,432, which a matrix can hold.
pub fn hint_len(scheme: Scheme, layout: &Layout, n: usize) -> usize
    requires { n ≤ 1024 }
    ensures value { result ≡ words_of_hint scheme layout.now n }
    ensures small { result ≤ 33554432 }
{
    hint_rows(scheme, layout, n) * n
}

/// How many words a query has.
pub fn query_count(scheme: Scheme, layout: &Layout) -> usize
    ensures { result ≡ words_of_query scheme layout.now }
{
    match scheme {
        Scheme::Simple => layout.cols(),
        Scheme::Double => layout.cols() + layout.digits_per_record() * layout.rows(),
    }
}

/// How many words an answer has.
pub fn answer_count(scheme: Scheme, layout: &Layout, n: usize) -> usize
    requires { n ≤ 1024 }
    ensures { result ≡ words_of_answer scheme layout.now n }
{
    match scheme {
        Scheme::Simple => layout.rows(),
        Scheme::Double => double_scheme::answer_count(layout, n),
    }
}
