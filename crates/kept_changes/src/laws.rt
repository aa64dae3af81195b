//! Laws of rows that are moved by a file of changes, over the definitions alone. A caller that
//! calls one of these functions has its law at hand in its proof; the call costs nothing.

ghost use Rattle.kept_changes.specs.Laws.{MovedRowsAreOfTheWhole, MovedRowsAreTheHints};
ghost use Rattle.kept_changes.specs.Laws.{RowsMoveAlike, TrueMovesMakeTheHint};

/// What the rows of a record are after moves depends on those rows before alone.
pub fn rows_move_alike()
    ensures { RowsMoveAlike }
{}

/// Rows of a record that were those of a whole hint are those of that hint after its moves, if they
/// were moved on: so a client asks for the record with them as with the whole hint
/// (`client_core::laws::rows_of_the_record_suffice`).
pub fn moved_rows_are_the_hints()
    ensures { MovedRowsAreTheHints }
{}

/// Rows of a record that were moved on (`rows_after`) are those of the hint that was moved as a
/// whole (`hint_after`).
pub fn rows_are_of_the_whole()
    ensures { MovedRowsAreOfTheWhole }
{}

/// Moves whose entries are the true changes between versions make of the hint of the first version
/// that of the last, as it is made from scratch.
pub fn true_moves_make_the_hint()
    ensures { TrueMovesMakeTheHint }
{}
