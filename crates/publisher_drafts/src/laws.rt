//! Laws of merged drafts, over the definitions alone.

ghost use Rattle.publisher_drafts.specs.Laws.{MergedAlike};

/// One publication of a draft's merged changes can be made if its entries can, one after another,
/// and gives the same records.
pub fn merged_alike()
    ensures { MergedAlike }
{}
