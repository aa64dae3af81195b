//! Laws of snapshots, over the definitions alone. A caller that calls one of these functions has
//! its law at hand in its proof; the call does nothing.

ghost use Rattle.snapshot_file.specs.Laws.{OneNumber, LengthOfSnapshot, OneSnapshot, OneVerdict};

/// The bytes that are read as a number are its only encoding in so many bytes.
pub fn one_number()
    ensures { OneNumber }
{}

/// A header has 91 bytes, and a snapshot 123 and those of its records; in a wide form each has one
/// more.
pub fn length_of_snapshot()
    ensures { LengthOfSnapshot }
{}

/// No snapshot begins another, and no two have the same bytes.
pub fn one_snapshot()
    ensures { OneSnapshot }
{}

/// No input has two verdicts: it is a snapshot of one header and one list of records, or has one
/// fault.
pub fn one_verdict()
    ensures { OneVerdict }
{}
