//! What a run awaits.

use client_state::PartialFile;
use safe_files::FileSystem;

/// What a run awaits.
#[derive(Drop)]
pub enum State<'a, R: FileSystem> {
    /// To be let in.
    Greeting,
    /// Which records have changed since the version of the hint kept.
    Changes,
    /// The next part of a hint, for this file.
    Part(PartialFile<'a, R>),
    /// The hint, or what changed of it, by a sync.
    Sync,
    /// A record, of whose hint only the rows are held. Damaged rows are zeros.
    AskOverRows { are_sound: bool },
    /// A record, over the hint held.
    Ask,
    /// Nothing: the run is over.
    Over,
}
