//! Laws of what logs make of stores and of snapshots, over the definitions alone.

ghost use Rattle.log_replay.specs.Laws.{
  ReplayedIsPublished,
  DraftIsReplayed,
  RecordsReplayAlike,
  LastSixteenSuffice,
};

/// What a store keeps after [`replay`](crate::replay) is its own publication of a draft with the
/// changes.
pub fn replayed_is_published()
    ensures { ReplayedIsPublished }
{}

/// What [`draft_publication`](crate::draft_publication) makes, replayed on the store without its
/// draft, gives what the store's own publication gives.
pub fn draft_is_replayed()
    ensures { DraftIsReplayed }
{}

/// Opening after [`replay_records`](crate::replay_records) gives what replaying after opening
/// gives, but the rows and the old bytes that the publications changed.
pub fn records_replay_alike()
    ensures { RecordsReplayAlike }
{}

/// With 16 publications or more after a later snapshot nothing is missing, not even the rows and
/// the old bytes that the latest 16 changed.
pub fn last_sixteen_suffice()
    ensures { LastSixteenSuffice }
{}
