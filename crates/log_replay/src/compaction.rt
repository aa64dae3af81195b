//! What of a log a later snapshot takes up: all publications but the latest 16.

ghost use Rattle.std.specs.Prelude.{◌≡◌, ◌-◌, ℕ, List, OnOk, length, take};
ghost use Rattle.publication_log.specs.Publications.{Published};
ghost use Rattle.publication_log.specs.Entries.{chain_bytes};
ghost use Rattle.publication_log.specs.Logs.{bodies_of, AreNext};
ghost use Rattle.version_store.specs.Openings.{IsSound};
ghost use Rattle.log_replay.specs.Laws.{AreRecordsReplayedAll};

use crate::held::RecordHolder;
use crate::records::replay_records;
use crate::replaying::ReplayFault;
use publication_log::Publications;

/// Of how many publications a store knows the rows that changed.
const LATEST: usize = 16;

/// How many publications of a log a later snapshot takes up: all but the latest 16, with which
/// nothing is missing.
pub fn earlier_count(publications: Publications<'_>) -> usize
    ensures { (link : List ℕ) (version : ℕ) (ps : List Published) → AreNext version ps →
        publications.entry.rest.now ≡ chain_bytes link (bodies_of ps) → result ≡ length ps - 16 }
{
    publications.count().saturating_sub(LATEST)
}

/// Makes the first `n` publications of a log on a snapshot's records, or all if there are no more.
///
/// # Errors
///
/// As [`replay_records`] of the first that it refuses. The snapshot is of no further use then.
pub fn replay_first<H: RecordHolder>(
    held: &mut H,
    publications: Publications<'_>,
    n: usize,
) -> Result<(), ReplayFault>
    requires { IsSound (H.header held.old) (H.bytes held.old) }
    ensures sound { OnOk result (IsSound (H.header held.new) (H.bytes held.new)) }
    ensures replayed { (link : List ℕ) (version : ℕ) (ps : List Published) → AreNext version ps →
        publications.entry.rest.now ≡ chain_bytes link (bodies_of ps) → OnOk result
        (AreRecordsReplayedAll (H.header held.old) (H.bytes held.old) (take n ps)
        (H.header held.new) (H.bytes held.new)) }
{
    let mut left = publications;
    for i in 0..n {
        let Some((publication, rest)) = left.split_first() else {
            return Ok(());
        };
        if let Err(fault) = replay_records(held, publication) {
            return Err(fault);
        }
        left = rest;
    }
    Ok(())
}
