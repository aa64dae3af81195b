//! Tests that the gate proves and then runs. The proof of a test stands on what the contracts of
//! its calls promise.
//!
//! The gate proves a crate that has tests twice, once with them. The tests of most crates make
//! public calls alone, so they stand in five groups above these crates: a module here, and a folder
//! in `tests/long`, whose tests the gate only runs, and `tests/long/run --prove` proves.
//! docs/ARCHITECTURE.md, 'Tests', says which crates a group is for.
#![tactic(auto)]

#[cfg(test)]
mod tests_frame;
#[cfg(test)]
mod tests_scheme;
#[cfg(test)]
mod tests_session;
#[cfg(test)]
mod tests_store;
#[cfg(test)]
mod tests_world;
