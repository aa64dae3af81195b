//! Laws of one layer of encryption, over the definitions alone. A caller that calls one of these
//! functions has its law at hand in its proof; the call costs nothing.

ghost use Rattle.regev_core.specs.Laws.{
  QuietRowGivesItsDigit,
  QuietMatrixRowGivesItsEntry,
  NearestIsTheOnly,
  CiphersDifferAtTheirPlaces,
};

/// A row of digits times a ciphertext, stripped and rounded, is the row's digit at the encrypted
/// place, if the row's noise sum stays below half of delta.
pub fn quiet_row_gives_its_digit()
    ensures { QuietRowGivesItsDigit }
{}

/// The same for a row of a matrix of digits, its hint being the matrix times the public one.
pub fn quiet_matrix_row_gives_its_entry()
    ensures { QuietMatrixRowGivesItsEntry }
{}

/// Each word has one nearest digit.
pub fn nearest_is_the_only()
    ensures { NearestIsTheOnly }
{}

/// Two encryptions under one secret and noise differ at their two places alone, in words that
/// differ by delta.
pub fn ciphers_differ_at_their_places()
    ensures { CiphersDifferAtTheirPlaces }
{}
