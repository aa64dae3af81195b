//! Laws of the file of a hint, over the definitions alone. A caller that calls one of these
//! functions has its law at hand in its proof; the call costs nothing.

ghost use Rattle.hint_file.specs.Laws.{EachRecordAlike, RecordRowsAreRead};

/// When the bytes at the place of a record's parts are those of a hint's file, they are not
/// refused, and what is read of them has the rows of the record that the hint has: all that
/// `client_core::laws::rows_of_the_record_suffice` needs.
pub fn record_rows_are_read()
    ensures { RecordRowsAreRead }
{}

/// Whether a kept hint has the rows of a record is the same for each existing record. So what a
/// client sends because of a kept hint is the same whichever record it wants.
pub fn each_record_alike()
    ensures { EachRecordAlike }
{}
