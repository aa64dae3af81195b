//! Laws of connections. Each function does nothing: its clause is the law.

ghost use Rattle.connection_turns.specs.Connections.{ConnectionsAwait, ConnectionsKeep};
ghost use Rattle.connection_turns.specs.Runs.{DeedsAreOneRun};
ghost use Rattle.connection_turns.specs.Saving.{TurnsSaveBeforeWriting};
ghost use Rattle.connection_turns.specs.Turns.{OwedIsBounded, ServedFramesAreDeeds};
ghost use Rattle.connection_turns.specs.Turns.{ServedFramesAreMoves};

/// After any moves of a connection, in any order, what came is what was served and then what is not
/// yet served, and what was replied is what was written and then what is owed.
pub fn connections_keep()
    ensures { ConnectionsKeep }
{}

/// After any moves of a connection, something is awaited exactly while something is owed: so
/// whoever takes nothing, or some bytes now and then, has the idle time for what was owed at the
/// last progress.
pub fn connections_await()
    ensures { ConnectionsAwait }
{}

/// What all connections do to a server, in the order in which they do it, is one run over one
/// history: each piece of a stream is served on the history of its moment, whichever connection it
/// is of.
pub fn deeds_are_one_run()
    ensures { DeedsAreOneRun }
{}

/// A frame that a turn serves is a move of its connection and a deed of the one run, and what is
/// owed after it is at most 65,535 bytes and one reply.
pub fn served_frames_are_moves()
    ensures moves { ServedFramesAreMoves }
    ensures deeds { ServedFramesAreDeeds }
    ensures bounded { OwedIsBounded }
{
    server_core::laws::firsts_are_pieces();
}

/// In a turn no byte is written while the version that is served is not the one that is there after
/// a crash: so no write comes between an append and the publication, or the taking back of it.
/// After the turn it is there, unless none may follow.
pub fn turns_save_before_writing()
    ensures { TurnsSaveBeforeWriting }
{}
