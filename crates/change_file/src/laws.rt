//! Laws of files of changes, over the definitions alone. A caller that calls one of these functions
//! has its law at hand in its proof; the call costs nothing.

ghost use Rattle.change_file.specs.Laws.{AppendAddsAMove, CutFileIsRead, MovesAreMadeInTurn};
ghost use Rattle.change_file.specs.Laws.{MovesAreReadOneByOne, OneReading, ReadMovesAreThere};
ghost use Rattle.change_file.specs.Laws.{WrittenBlockIsRead, WrittenMovesAreReadFirst};

/// A block that was written is read, whatever is after it.
pub fn written_block_is_read()
    ensures { WrittenBlockIsRead }
{}

/// Blocks that were written are read first, and then those that go on from them.
pub fn written_moves_are_read_first()
    ensures { WrittenMovesAreReadFirst }
{}

/// A file that is cut anywhere is read as its blocks that are whole before the cut.
pub fn cut_file_is_read()
    ensures { CutFileIsRead }
{}

/// What is read is there: each block with the digest of all before as its link. No block is after
/// the last.
pub fn read_moves_are_there()
    ensures { ReadMovesAreThere }
{}

/// Bytes have one reading.
pub fn one_reading()
    ensures { OneReading }
{}

/// Moves are read one by one.
pub fn moves_are_read_one_by_one()
    ensures { MovesAreReadOneByOne }
{}

/// A block that is written at the end of the whole blocks of a file adds its move.
pub fn append_adds_a_move()
    ensures { AppendAddsAMove }
{}

/// A hint is moved by the moves of two lists as by those of the first and then by those of the
/// second.
pub fn moves_are_made_in_turn()
    ensures { MovesAreMadeInTurn }
{}
