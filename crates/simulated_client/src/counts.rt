//! What a run counts.

/// How often something went on in another way than usual.
#[derive(Clone, Copy, Debug, Default, PartialEq, Eq)]
pub struct RunCounts {
    /// Hints kept that were damaged or could not be read, and records whose rows were.
    pub damaged: u32,
    /// Hints kept that were of another store with an equal plan.
    pub of_another_store: u32,
    /// Hints, or changes beside them, that could not be kept.
    pub not_kept: u32,
    /// Answers that could not be read, though the rows were sound.
    pub unreadable: u32,
    /// Replies that another version is current.
    pub stale: u32,
}

/// Counts one more.
pub(crate) fn count(counter: &mut u32) {
    *counter = counter.saturating_add(1);
}
