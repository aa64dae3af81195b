//! Laws of pushes, over the definitions alone. Each function does nothing: its clause is the law.

ghost use Rattle.publication_push.specs.Laws.{PushedIsReplayed, DonesNameTheLog, PushesAddUp};
ghost use Rattle.publication_push.specs.Laws.{SessionIsReplayed, CallsSendTheirFrames};
ghost use Rattle.publication_push.specs.Laws.{DonesAreReplies};

/// A server that has no draft, and of which each reply to the orders of some publications was a
/// Done, has the history that these publications make of its own, and is at the version of the last
/// of them (`replayed`). So a server that had the history of a log's earlier publications, and was
/// sent the later ones, has that of the log (`whole`). The versions that these Dones name are the
/// ones that are awaited (`named`). The same holds of the first frames of a session too, after
/// whatever greeting (`session`).
pub fn pushed_is_replayed()
    ensures replayed { PushedIsReplayed }
    ensures whole { PushesAddUp }
    ensures session { SessionIsReplayed }
    ensures named { DonesNameTheLog }
{}

/// What a [`Push`](crate::Push) sends for an order is the order's frame (`sent`), and what it takes
/// as a Done is a Done frame, which names that version (`replied`).
pub fn orders_are_sent()
    ensures sent { CallsSendTheirFrames }
    ensures replied { DonesAreReplies }
{}
