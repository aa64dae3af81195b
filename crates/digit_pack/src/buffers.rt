//! Memory on the stack for one record.
//!
//! No contract says what is in it: otherwise hundreds of zeros would be in the proofs of all
//! callers, who write it before they read it.

use crate::layout::MAX_RECORD_LEN;

/// The most digits that a record has: 256 bytes in digits of 6 bits.
pub const MOST_DIGITS: usize = 342;

/// Memory for the digits of a record. What it holds is unspecified.
pub fn digit_buffer() -> [u32; MOST_DIGITS] {
    [0; MOST_DIGITS]
}

/// Memory for the bytes that a record has in its digits. What it holds is unspecified.
pub fn record_buffer() -> [u8; MAX_RECORD_LEN] {
    [0; MAX_RECORD_LEN]
}
