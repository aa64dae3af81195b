//! Laws of hints that are moved, over the definitions alone. A caller that calls one of these
//! functions has its law at hand in its proof; the call costs nothing.

ghost use Rattle.hint_changes.specs.Laws.{ChangesAreMadeOneByOne, ChangesBetweenLead};
ghost use Rattle.hint_changes.specs.Laws.{ChangesMoveTheHint, ListedChangesAreAll};
ghost use Rattle.hint_changes.specs.Laws.{MovedHintIsMadeFromScratch, OtherPlacesStay};

/// The hint of some records, moved by changes of them one after another, is the one that is made
/// from scratch of the records after these changes.
pub fn moved_hint_is_made_from_scratch()
    ensures { MovedHintIsMadeFromScratch }
{}

/// The hint of some records, moved in any order by changes that lead to others, is the one that is
/// made from scratch of the others.
pub fn changes_move_the_hint()
    ensures { ChangesMoveTheHint }
{}

/// A hint is moved by several changes as by the first of them and then by the others.
pub fn changes_are_made_one_by_one()
    ensures { ChangesAreMadeOneByOne }
{}

/// The changes between two lists of records of equal length, of each record that differs, lead from
/// the one to the other.
pub fn changes_between_lead()
    ensures { ChangesBetweenLead }
{}

/// A change of a record leaves the rows of the records in another place of their columns.
pub fn other_places_stay()
    ensures { OtherPlacesStay }
{}

/// The changes of the records in an ascending list that names each record that differs are all that
/// there are.
pub fn listed_changes_are_all()
    ensures { ListedChangesAreAll }
{}
