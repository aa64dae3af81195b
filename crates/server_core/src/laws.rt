//! Laws of replies. Each function does nothing: its clause is the law.

ghost use Rattle.std.specs.Prelude.{◌≡◌, List, false};
ghost use Rattle.frame_codec.specs.declared.frame.Frame.{Frame};
ghost use Rattle.version_store.specs.Histories.{History};
ghost use Rattle.server_core.specs.declared.standing.Standing.{Standing};
ghost use Rattle.server_core.specs.Laws.{
  ForeseenArePublished,
  PiecesDecide,
  FirstsArePieces,
  StopsArePieces,
  PiecesAgree,
  SessionsNeverMeet,
  FeedsAreAlike,
  FeedsHadMemory,
  ReplicasReplyAlike,
  RepliesHaveKnownKinds,
  RepliesHoldNoIndex,
  RepliesHoldNoLength,
  AnswersHaveTheirLayoutsLength,
};
ghost use Rattle.server_core.specs.Courses.{course_of, lacks_memory};
ghost use Rattle.server_core.specs.Serving.{Setting, ServesAll};

/// If no frame is refused for lack of memory, the replies, the standing and the history after
/// them are determined by the setting, the history, the standing before and the frames, whatever
/// other sessions do.
pub fn frames_decide()
    ensures { (x : Setting) (h : History) (st : Standing) (frames : List Frame) (h2 : History)
        (st2 : Standing) (replies : List Frame) →
        ServesAll x h st frames h2 st2 replies → lacks_memory replies ≡ false →
        record { history = h2; standing = st2; replies = replies } ≡ course_of x h st frames }
{}

/// What a feed leads to is decided by the setting, the history, this session and the piece, if
/// memory isn't refused: the frames that the session's stream completes are served in order, and
/// then a fault of the stream is reported. A closed session's bytes matter no more.
pub fn pieces_decide()
    ensures decided { PiecesDecide }
    ensures alike { PiecesAgree }
{
    frame_codec::laws::feeds_decide();
}

/// One frame at a time is the same session: what `feed_frame` does with a piece is what `feed` does
/// with the bytes that it took.
pub fn firsts_are_pieces()
    ensures served { FirstsArePieces }
    ensures stopped { StopsArePieces }
{}

/// A publication that was foreseen is made, with Done and the next version, or memory is refused to
/// it.
pub fn foreseen_are_published()
    ensures { ForeseenArePublished }
{}

/// Sessions don't meet: all that a session is answered is decided by its own pieces and by the
/// histories on which they are served, whatever other sessions send between them.
pub fn sessions_never_meet()
    ensures { SessionsNeverMeet }
{
    pieces_decide();
}

/// Replicas reply alike: two servers whose histories are equal, in one setting, and whose sessions
/// were alike before, give the same replies to the same pieces of streams, of however many
/// sessions, and have equal histories after them, if memory is refused to neither. (A server that
/// was started from a later snapshot has a shorter history, and may reply NoDelta or name no
/// changes if another still knows them.)
pub fn replicas_reply_alike()
    ensures { ReplicasReplyAlike }
{
    pieces_decide();
}

/// If memory isn't refused, what a feed writes, and the session's standing and unfinished bytes
/// after it, a closed session's, too, are decided by the piece, by that session's standing and
/// unfinished bytes before it, by the history and by the setting (`same`). Of a piece that was
/// served to its end either no memory was refused, or a refusal can be named (`either`).
/// `ServerCore::feed` itself says that every other session stays.
pub fn feeds_are_alike()
    ensures same { FeedsAreAlike }
    ensures either { FeedsHadMemory }
{
    frame_codec::laws::feeds_decide();
}

/// No reply has a kind of frame that the session's stream doesn't have: an ordinary session gets
/// none of those of a wide store.
pub fn replies_have_known_kinds()
    ensures { RepliesHaveKnownKinds }
{}

/// The kind, the version, the count and the length of the reply to a query are decided by the
/// setting, the history, the standing, and the query's scheme, version and word count.
pub fn replies_hold_no_index()
    ensures { RepliesHoldNoIndex }
{}

/// The lengths of the records, in which those of form 2 differ, change no reply to a query: its
/// kind, its version, its count and its length are the same on two histories of as many records in
/// the same version (`alike`), and an answer has as many words as the layout gives (`answered`).
pub fn replies_hold_no_length()
    ensures alike { RepliesHoldNoLength }
    ensures answered { AnswersHaveTheirLayoutsLength }
{}
