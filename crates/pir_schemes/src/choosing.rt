//! Which scheme moves fewer words.

ghost use Rattle.std.specs.Prelude.{◌≡◌, ◌≤◌, ◌↔◌};
ghost use Rattle.pir_schemes.specs.Costs.{words_moved as words_of_retrievals};

use crate::counts::{answer_count, hint_len, query_count};
use crate::scheme::Scheme;
use digit_pack::Layout;

/// Of which schemes a client holds the hint that it needs, or one that few changes turn into it.
#[derive(Clone, Copy, Debug, PartialEq, Eq)]
pub struct HintsHeld {
    pub simple: bool,
    pub double: bool,
}

// How many words so many retrievals move: those of the hint, unless it is held, and for each
// retrieval those of its query and of its answer. `n` is the dimension of the public matrices, at
// most 1024.
fn words_moved(scheme: Scheme, layout: &Layout, n: usize, times: u32, is_held: bool) -> u128
    requires { n ≤ 1024 }
    ensures { result ≡ words_of_retrievals scheme layout.now n times is_held }
{
    let hint = if is_held {
        0
    } else {
        hint_len(scheme, layout, n)
    };
    let query = query_count(scheme, layout) as u128;
    let answer = answer_count(scheme, layout, n) as u128;
    hint as u128 + u128::from(times) * (query + answer)
}

/// The scheme by which so many retrievals move fewer words; SimplePIR, if both move as many. `n` is
/// the dimension of the public matrices, at most 1024. Which records are asked for plays no part.
pub fn cheaper_scheme(layout: &Layout, n: usize, times: u32, held: HintsHeld) -> Scheme
    requires { n ≤ 1024 }
    ensures { result ≡ Scheme.Simple ↔
        words_of_retrievals Scheme.Simple layout.now n times held.simple ≤
        words_of_retrievals Scheme.Double layout.now n times held.double }
{
    let simple = words_moved(Scheme::Simple, layout, n, times, held.simple);
    let double = words_moved(Scheme::Double, layout, n, times, held.double);
    if simple <= double {
        Scheme::Simple
    } else {
        Scheme::Double
    }
}
