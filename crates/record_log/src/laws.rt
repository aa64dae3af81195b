//! Laws of what publications changed, over the definitions alone. A caller that calls one of these
//! functions has its law at hand in its proof; the call costs nothing.

ghost use Rattle.record_log.specs.Laws.{EntriesMoveTheHint, EntriesSayTheChanges};
ghost use Rattle.record_log.specs.Laws.{KeptListsAreTheNewest, LogsLeadBack};
ghost use Rattle.record_log.specs.Laws.{OldBytesStayWithBlanks, OldBytesUndo};

/// The records after a publication, with the old bytes of all that it changed, are those before it.
pub fn old_bytes_undo()
    ensures { OldBytesUndo }
{}

/// Changes that are written as entries are read again as they were.
pub fn entries_say_the_changes()
    ensures { EntriesSayTheChanges }
{}

/// The old records of the newest n publications lead back from the newest version to the one before
/// these publications.
pub fn logs_lead_back()
    ensures { LogsLeadBack }
{}

/// What a log keeps is what the newest publications changed, and so the newest n of these are the
/// newest n of all that there were.
pub fn kept_lists_are_the_newest()
    ensures { KeptListsAreTheNewest }
{}

/// The old records of a publication stay those of it, if the same records are put after those
/// before it and those after it: blanks, if records were appended since.
pub fn old_bytes_stay_with_blanks()
    ensures { OldBytesStayWithBlanks }
{}

/// The hint of some records, moved by the entries of what differs between them and others, is the
/// one that is made from scratch of the others.
pub fn entries_move_the_hint()
    ensures { EntriesMoveTheHint }
{}
