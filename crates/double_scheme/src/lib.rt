//! DoublePIR over a matrix of digits ('One Server for the Price of Two', USENIX Security 2023,
//! section 5): the hints of both sides, the query for a record, its answer, and how an answer is
//! read.
//!
//! A digit has w bits, and a word has κ of them, 32 divided by w, rounded up. With D the digit
//! matrix (ℓ rows, m columns), A1 (m rows, n columns) and A2 (ℓ rows, n columns) the public
//! matrices, H the κ n rows of digits of A1^T D^T, a word's digits one below the other, least
//! significant first: the server keeps D and H, the client keeps H A2.
//!
//! A query is c1, the encryption of the record's column under A1, and for each digit d of the
//! record c2_d, the encryption of the digit's row under A2. The answer is h = a1 A2, where a1 is
//! the κ rows of digits of c1^T D^T, and for each d the words H c2_d and a1 c2_d. Without the
//! hints' rows times the secret of c2_d, these round to digits of the digit's row of D A1 and of D
//! c1; from these the digit is read as in SimplePIR.
//!
//! Retrieval `number` of a client takes from the client's seed the secret and the noise of c1 from
//! streams 4 number and 4 number + 1, those of every c2_d from streams 4 number + 2, from place d n
//! on, and 4 number + 3, from place d ℓ on.
//!
//! Its tests are in `tests_scheme::double` and `tests/long/tests_scheme`.
#![tactic(auto)]

mod answers;
mod hints;
pub mod laws;
mod queries;
mod records;
mod secrets;
mod steps;

pub use answers::{AnswerBuffers, answer, answer_count};
pub use hints::{setup, setup_watched};
pub use queries::{QueryBuffers, query};
pub use records::recover;
pub use simple_scheme::RecoverError;
pub use steps::{AnswerSteps, STEP_DIGITS, put_rows, put_two_rows, rows_in_step};
