//! Laws of products, over the definitions alone. A caller that calls one of these functions has its
//! law at hand in its proof; the call costs nothing.

ghost use Rattle.matrix_u32.specs.Laws.{
  ProductIsAssociative,
  ProductTransposes,
  ChangedWordChangesItsRow,
  ZeroColumnsAddNothing,
  FurtherRowsAddNothing,
  GrowthLeavesProduct,
};

/// (A B) s = A (B s), for every vector s.
pub fn product_is_associative()
    ensures { ProductIsAssociative }
{}

/// (D A)^T = A^T D^T.
pub fn product_transposes()
    ensures { ProductTransposes }
{}

/// A changed word of D changes its row of D A by the difference times a row of A, and no other row.
pub fn changed_word_changes_its_row()
    ensures { ChangedWordChangesItsRow }
{}

/// Columns of zeros after the last of D leave D A unchanged.
pub fn zero_columns_add_nothing()
    ensures { ZeroColumnsAddNothing }
{}

/// Rows of A past the number of D's columns leave D A unchanged.
pub fn further_rows_add_nothing()
    ensures { FurtherRowsAddNothing }
{}

/// D A stays the same when D is given columns of zeros and A further rows.
pub fn growth_leaves_product()
    ensures { GrowthLeavesProduct }
{}
