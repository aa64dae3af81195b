//! Laws of both schemes, over the definitions alone. A caller that calls one of these functions has
//! its law at hand in its proof; the call costs nothing.

ghost use Rattle.pir_schemes.specs.Laws.{
  HintsHaveTheirSizes,
  QueriesHaveTheirLength,
  AnswersHaveTheirLength,
  RetrievalGivesTheRecord,
  CertainShapeIsQuiet,
  QueriesDifferAtTheirPlaces,
};

/// A hint made from scratch has the rows and columns that its scheme expects, and a word for each
/// place.
pub fn hints_have_their_sizes()
    ensures { HintsHaveTheirSizes }
{}

/// A query has as many words as its scheme expects.
pub fn queries_have_their_length()
    ensures { QueriesHaveTheirLength }
{}

/// Two queries of one seed and number, on one layout and one public seed, differ at the places of
/// their records alone, in words that differ by delta.
pub fn queries_differ_at_their_places()
    ensures { QueriesDifferAtTheirPlaces }
{}

/// An answer has as many words as its scheme expects.
pub fn answers_have_their_length()
    ensures { AnswersHaveTheirLength }
{}

/// The answer to the query for a record of a version, read under the version's hint, gives the
/// record, if the retrieval is quiet; on a certain shape it always is.
pub fn retrieval_gives_the_record()
    ensures { RetrievalGivesTheRecord }
{
    simple_scheme::laws::quiet_retrieval_reads_the_record();
    double_scheme::laws::quiet_retrieval_reads_the_record();
    digit_pack::laws::pack_unpacks();
    certain_shape_is_quiet();
}

/// On a certain shape every retrieval is quiet, for every list of records, seed and number.
pub fn certain_shape_is_quiet()
    ensures { CertainShapeIsQuiet }
{
    simple_scheme::laws::certain_shape_is_quiet();
    double_scheme::laws::certain_shape_is_quiet();
}
