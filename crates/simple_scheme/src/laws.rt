//! Laws of SimplePIR, over the definitions alone. A caller that calls one of these functions has
//! its law at hand in its proof; the call costs nothing.

ghost use Rattle.simple_scheme.specs.Laws.{QuietSimpleRetrievalReadsTheRecord};
ghost use Rattle.simple_scheme.specs.Laws.{SimpleCertainShapeIsQuiet};

/// Under the records' own hint, the answer to the query for a record reads as the record's digits,
/// if the retrieval is quiet.
pub fn quiet_retrieval_reads_the_record()
    ensures { QuietSimpleRetrievalReadsTheRecord }
{
    regev_core::laws::quiet_matrix_row_gives_its_entry();
    digit_pack::laws::record_stands_in_its_column();
    digit_pack::laws::record_stands_inside();
    digit_pack::laws::digits_are_small();
}

/// On a certain shape every retrieval is quiet, for every list of records, seed and number.
pub fn certain_shape_is_quiet()
    ensures { SimpleCertainShapeIsQuiet }
{
    noise_table::certain_is_quiet();
    noise_table::noise_is_bounded();
    digit_pack::laws::digits_are_small();
}
