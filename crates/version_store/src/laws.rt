//! Laws of versions, over the definitions alone. A caller that calls one of these functions has its
//! law at hand in its proof; the call costs nothing.

ghost use Rattle.version_store.specs.Laws.{ChangesSinceMoveTheHint, EachRunStands};
ghost use Rattle.version_store.specs.Laws.{MigratedRecordsStay};
ghost use Rattle.version_store.specs.Laws.{UnchangedRowsStay, WidenedRecordsStay};

/// A store that represents a history represents, after any accepted edits, appends and
/// publications, that history after them.
pub fn each_run_stands()
    ensures { EachRunStands }
{}

/// A row that is not among the rows since a version is the same in that version's SimplePIR hint
/// and in the current one: so the rows since a version bring its hint forward.
pub fn unchanged_rows_stay()
    ensures { UnchangedRowsStay }
{}

/// What a store returns of the changes since a version moves that version's SimplePIR hint to the
/// current one.
pub fn changes_move_the_hint()
    ensures { ChangesSinceMoveTheHint }
{}

/// A snapshot whose records were moved into slots opens a store, which has the same records.
pub fn migrated_records_stay()
    ensures { MigratedRecordsStay }
{}

/// A wide snapshot made of an ordinary one opens a store, which has the same records.
pub fn widened_records_stay()
    ensures { WidenedRecordsStay }
{}
