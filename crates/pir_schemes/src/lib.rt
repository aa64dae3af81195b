//! What SimplePIR and DoublePIR have in common, for the server and for the client: the schemes by
//! name, the plan that stays the same in every version, how many words hints, queries and answers
//! have, the parts in which hints are sent, and queries and readings by scheme.
//!
//! A plan and a count of records give a shape; a plan and the records of a version give its digit
//! matrix, its hints and its answers. Only the definitions in `specs/Plans` and `specs/Retrievals`
//! say what a version's words are, once for both schemes.
//!
//! Its tests are those of both cores, which call it for both schemes: `client` and `server` in
//! tests/long/tests_session.
#![tactic(auto)]

mod certainty;
mod choosing;
mod counts;
pub mod laws;
mod parts;
mod plan;
mod query_buffers;
mod query_masks;
mod retrievals;
mod scheme;
mod slots;

pub use certainty::is_certain;
pub use choosing::{HintsHeld, cheaper_scheme};
pub use counts::{answer_count, hint_len, hint_rows, query_count};
pub use parts::{DELTA_ROWS, PART_WORDS, part_len, part_words};
pub use plan::{Plan, SecretSeed};
pub use query_buffers::QueryBuffers;
pub use query_masks::{MAX_MASKS, QueryMasks};
pub use retrievals::recover;
pub use scheme::{CLIENT_PROFILE, Scheme, WIDE_PROFILE, client_profile};
pub use simple_scheme::RecoverError;
