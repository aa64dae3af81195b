//! Products of words over lanes: a kernel that takes several words at once, products with digits
//! that are packed three in a word, and the digits of words.
//!
//! Everything here gives the very words of the definitions, at every length and shape, and nothing
//! takes memory. The loops go over vectors of 8 or 16 words by `std::simd`; what is left after the
//! last whole vector is done word by word.
//!
//! Its tests are in `tests_scheme::lanes`; those of products with two vectors at once are in
//! `tests_scheme::double`.
#![tactic(auto)]

mod lanes;
mod packed;
mod packed_two;
mod split;
mod two_rows;

pub use lanes::Lanes;
pub use packed::packed_mul_vec;
pub use packed_two::packed_mul_two;
pub use split::split_row;
