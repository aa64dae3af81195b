//! SimplePIR over a matrix of digits ('One Server for the Price of Two', USENIX Security 2023,
//! section 4): the hint, the query for a record, its answer, and how an answer is read.
//!
//! With D the digit matrix and A1 the public matrix, the hint is D A1; the query encrypts the
//! record's column under A1; the answer is D times the query; digit d of the record is what the
//! answer's word in its row rounds to, without the hint's row times the secret. Retrieval `number`
//! of a client takes its secret from stream 4 number of the client's seed and its noise from stream
//! 4 number + 1.
//!
//! Its tests are in `tests_scheme::simple`.
#![tactic(auto)]

mod hints;
pub mod laws;
mod mask;
mod masks;
mod queries;
mod records;
mod retrieval;

pub use hints::{HintWatcher, Unwatched, setup, setup_watched};
pub use mask::{Mask, draw_noise};
pub use masks::{MaskBuffers, QueryMasks};
pub use queries::{QueryBuffers, answer, put_masked_query, put_query, put_query_under, query};
pub use records::{RecoverError, read_digits, record_of_digits, recover};
pub use retrieval::Retrieval;
