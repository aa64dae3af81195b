//! Laws of DoublePIR, over the definitions alone. A caller that calls one of these functions has
//! its law at hand in its proof; the call costs nothing.

ghost use Rattle.double_scheme.specs.Laws.{QuietPartGivesItsRow};
ghost use Rattle.double_scheme.specs.Laws.{QuietDoubleRetrievalReadsTheRecord};
ghost use Rattle.double_scheme.specs.Laws.{DoubleCertainShapeIsQuiet};

/// Under the records' own hints, if the retrieval is quiet in both layers, the second layer's words
/// of part d round, each to its digit, to a column of the server's hint and of the first answer's
/// digits: that of the row in which digit d of the record is. Joined to words they are this row of
/// the first layer's hint and this word of the first layer's answer.
pub fn quiet_part_gives_its_row()
    ensures { QuietPartGivesItsRow }
{
    regev_core::laws::quiet_matrix_row_gives_its_entry();
    digit_pack::laws::record_stands_inside();
    digit_pack::laws::digits_are_small();
    digit_pack::laws::split_joins();
    digit_pack::laws::decomposed_stands_below();
}

/// Under the records' own hints, the answer to the query for a record reads as the record's digits,
/// if the retrieval is quiet in both layers.
pub fn quiet_retrieval_reads_the_record()
    ensures { QuietDoubleRetrievalReadsTheRecord }
{
    quiet_part_gives_its_row();
    regev_core::laws::quiet_matrix_row_gives_its_entry();
    digit_pack::laws::record_stands_in_its_column();
    digit_pack::laws::record_stands_inside();
    digit_pack::laws::digits_are_small();
}

/// On a shape that is certain by its columns and by its rows every retrieval is quiet in both
/// layers, for every list of records, seed and number.
pub fn certain_shape_is_quiet()
    ensures { DoubleCertainShapeIsQuiet }
{
    noise_table::certain_is_quiet();
    noise_table::noise_is_bounded();
    digit_pack::laws::digits_are_small();
    simple_scheme::laws::certain_shape_is_quiet();
}
