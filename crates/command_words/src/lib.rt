//! Words of command lines as values, and how a command that was not done says so.
//!
//! Its tests are in tests/long/command_words and in `tests_world::words`, and those of the words
//! themselves in `tests/command_line`.
#![tactic(auto)]

mod arguments;
mod bad_line;
mod command_text;
mod descriptors;
mod failed;
mod failure;
mod options;
mod secrets;
mod words;

pub use arguments::program_words;
pub use bad_line::BadLine;
pub use command_text::{Argument, CommandText, with_command};
pub use descriptors::open_standard_descriptors;
pub use failed::{Failed, file_failed, printed};
pub use failure::Failure;
pub use options::{number_at, option, text_at, verbose_flag, word};
pub use secrets::{Secret, SecretFiles, key_at, seed_at};
pub use words::{
    bytes_from_hex, bytes32_from_hex, decimal, publisher_key, record_bytes, shown_bytes,
};
