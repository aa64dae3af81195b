//! Where the digits of records are in a matrix, how records and words are written in digits, and
//! the stores that keep a matrix of digits.
//!
//! A digit has w bits, w in 6..=10. A record is the whole number of its bytes, least significant
//! first, written in digits of w bits, least significant first; `groups` records are below one
//! another in a column. `specs/` defines all of it; the functions of [`laws`] have empty bodies,
//! and their contracts are the laws of these definitions.
//!
//! Its tests are in `tests_scheme::digits` and `tests_scheme::wide`.
#![tactic(auto)]

mod buffers;
mod filling;
mod forms;
mod holding;
pub mod laws;
mod layout;
mod packed3;
mod packing;
mod slots;
mod store;
mod widening;

pub use buffers::{MOST_DIGITS, digit_buffer, record_buffer};
pub use filling::{digits_of_records, nth_record, write_digits, write_record};
pub use forms::{is_form, is_slotted, is_wide};
pub use holding::copy_record;
pub use layout::{
    BadDigits, Layout, LayoutError, MAX_COLS, MAX_PART_WORDS, MAX_RECORD_LEN, MAX_ROWS, WIDE_SIDE,
    pack, unpack,
};
pub use packed3::{Packed3, PackedDigits, Wide3};
pub use packing::{join_word, pack_bytes, split_count, split_word, word_digit};
pub use slots::{BadSlot, are_slots, fill_slot, read_slot, slot_record, write_slot};
pub use store::{DigitStore, Flat};
