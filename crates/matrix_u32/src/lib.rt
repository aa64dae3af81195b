//! Matrices of 32-bit words, and the products that a kernel makes of them.
//!
//! A word is a whole number below 2^32, and all arithmetic is modulo 2^32. `specs/` says what a
//! matrix, a dot product and a matrix product are; the contracts here cite it. The functions of
//! [`laws`] have empty bodies: their contracts are the laws of these definitions.
//!
//! Its tests are in tests/long/matrix_u32.
#![tactic(auto)]

mod kernel;
pub mod laws;
mod matrix;

pub use kernel::{Kernel, Plain};
pub use matrix::{MAX_WORDS, Matrix, MatrixError};
