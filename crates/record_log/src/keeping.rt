//! How many publications a log keeps.

ghost use Rattle.std.specs.Prelude.{◌≡◌, ◌<◌, ℕ, false, length, vec_capacity};
ghost use Rattle.record_log.specs.Logs.{are_within};
ghost use Rattle.record_log.specs.Steps.{AreKept, HaveLen, olds_of};

use crate::old_records::OldRecords;

// How many publications a log keeps at most.
pub(crate) const MOST_LISTS: usize = 16;

// Removes the oldest, while they are too many or have too many bytes together.
pub(crate) fn drop_oldest(lists: &mut Vec<OldRecords>, most: usize)
    ensures kept { (len : ℕ) → HaveLen len lists.old.items →
        AreKept len most lists.old.items lists.new.items }
    ensures capacity { vec_capacity lists.new ≡ vec_capacity lists.old }
{
    while !are_within(lists, most) {
        lists.remove(0);
    }
}

// Whether these are few enough, and have so many bytes together at most.
fn are_within(lists: &[OldRecords], most: usize) -> bool
    ensures value { (len : ℕ) → HaveLen len lists.now →
        result ≡ are_within len most (olds_of lists.now) }
    ensures some { result ≡ false → 0 < length lists.now }
{
    if lists.len() > MOST_LISTS {
        return false;
    }
    let mut room = most;
    for list in lists {
        let size = list.byte_len();
        if size > room {
            return false;
        }
        room -= size;
    }
    true
}
