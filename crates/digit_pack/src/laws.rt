//! Laws of digits and layouts, over the definitions alone. A caller that calls one of these
//! functions has its law at hand in its proof; the call costs nothing.

ghost use Rattle.digit_pack.specs.Held.{DigitsHoldTheirRecords};
ghost use Rattle.digit_pack.specs.Laws.{
  SplitJoins,
  DecomposedRecomposes,
  DecomposedStandsBelow,
  PackUnpacks,
  RecordStandsInItsColumn,
  RecordStandsInside,
  UnusedSlotsAreZero,
  ReplacedRecordChangesItsPlace,
  OrdinaryPartsAreFew,
  WideStoreHasRoom,
  DigitsAreSmall,
  SlotsAreThoseFilled,
};

/// The digits of a word write the word.
pub fn split_joins()
    ensures { SplitJoins }
{}

/// The words that the digits of a matrix of words write are the matrix again.
pub fn decomposed_recomposes()
    ensures { DecomposedRecomposes }
{}

/// Digit t of the word in row k is in row k κ + t of the decomposed matrix, κ digits to a word.
pub fn decomposed_stands_below()
    ensures { DecomposedStandsBelow }
{}

/// `unpack` accepts the digits that `pack` makes of a record, and gives the record back.
pub fn pack_unpacks()
    ensures { PackUnpacks }
{}

/// Digit d of record i is in its column, d rows below its first row.
pub fn record_stands_in_its_column()
    ensures { RecordStandsInItsColumn }
{}

/// That place is inside the digit matrix.
pub fn record_stands_inside()
    ensures { RecordStandsInside }
{}

/// Where there is no record, the digit matrix is 0.
pub fn unused_slots_are_zero()
    ensures { UnusedSlotsAreZero }
{}

/// Another record in the place of record i changes its digits, and no other entry of the digit
/// matrix.
pub fn replaced_record_changes_its_place()
    ensures { ReplacedRecordChangesItsPlace }
{}

/// An ordinary layout is judged by its rows and columns alone: the parts of a query are always few
/// enough.
pub fn ordinary_parts_are_few()
    ensures { OrdinaryPartsAreFew }
{}

/// A wide store has room for the digits of every layout.
pub fn wide_store_has_room()
    ensures { WideStoreHasRoom }
{}

/// Digits are below two to their width.
pub fn digits_are_small()
    ensures { DigitsAreSmall }
{}

/// `read_slot` accepts exactly the slots that `fill_slot` writes: a record is read from a slot
/// exactly when it fills the slot.
pub fn slots_are_those_filled()
    ensures { SlotsAreThoseFilled }
{}

/// A digit matrix holds the records that it was made of: they are read out of it as they were,
/// bytes of a record's length each.
pub fn digits_hold_their_records()
    ensures { DigitsHoldTheirRecords }
{}
