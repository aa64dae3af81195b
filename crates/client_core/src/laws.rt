//! Laws of clients, over the definitions alone. A caller that calls one of these functions has its
//! law at hand in its proof; the call costs nothing.

ghost use Rattle.client_core.specs.Endings.{
  FirstEventEndsTheCall,
  FeedingSpendsNoNumber,
  OnlySyncsChangeTheHint,
};
ghost use Rattle.client_core.specs.Laws.{
  NoNumberTwice,
  SyncedHintIsMadeOfParts,
  PartsOfAHintMakeIt,
  DeltaMakesTheHint,
  ChangesMakeTheHint,
};
ghost use Rattle.client_core.specs.Resuming.{
  ResumedIsTheSaved,
  AnotherPlanDropsTheHint,
  RowsOfTheRecordSuffice,
};
ghost use Rattle.client_core.specs.Shapes.{EqualShapes, ClientsHappen};

/// The numbers of the queries that a client sends grow, whatever calls and replies come: no number
/// is used twice, and none below the first.
pub fn no_number_twice()
    ensures { NoNumberTwice }
{}

/// After a sync the hint held is made of the parts that came, in order, all of the version asked.
pub fn synced_hint_is_made_of_parts()
    ensures { SyncedHintIsMadeOfParts }
{}

/// If these are the parts of a hint of the right size, it is that hint.
pub fn parts_of_a_hint_make_it()
    ensures { PartsOfAHintMakeIt }
{}

/// A Delta with a hint's rows, which names each row in which the hint held is another, makes the
/// hint held that hint.
pub fn delta_makes_the_hint()
    ensures { DeltaMakesTheHint }
{}

/// Changes whose entries are what differs between two lists of records make the hint of the one, if
/// it is held, that of the other.
pub fn changes_make_the_hint()
    ensures { ChangesMakeTheHint }
{}

/// The first event that comes of a piece is one that the outstanding call can end with: of the
/// record, the version and the scheme that were asked for.
pub fn first_event_ends_the_call()
    ensures { FirstEventEndsTheCall }
{}

/// What a client is fed spends none of its numbers.
pub fn feeding_spends_no_number()
    ensures { FeedingSpendsNoNumber }
{}

/// What a client is fed leaves the hint as it is if no sync is outstanding, unless the client
/// fails.
pub fn only_syncs_change_the_hint()
    ensures { OnlySyncsChangeTheHint }
{}

/// The frames that a client sends have the kinds and lengths that its calls without their indices,
/// and the replies without their words, give. So no index changes the lengths or the order of its
/// frames; and whether a call is refused doesn't depend on its index, if that is below the count
/// known.
pub fn shapes_hold_no_index()
    ensures { EqualShapes }
{}

/// All that a client writes, if no feed was refused memory, are the frames of what happens to
/// it: of accepted calls, and of the replies that the pieces fed make whole, one after another; and
/// the events that it reports are those of these replies, in their order. So the law of equal
/// shapes speaks of each byte that calls and such feeds give.
pub fn clients_happen()
    ensures { ClientsHappen }
{}

/// A new client of the same seed and number that is let in goes on as the client that was saved: it
/// has exactly that state, with what the server reports now; and it asks at once if the hint is
/// of this version.
pub fn resumed_is_the_saved()
    ensures { ResumedIsTheSaved }
{}

/// A hint of another plan is dropped.
pub fn another_plan_drops_the_hint()
    ensures { AnotherPlanDropsTheHint }
{}

/// A client that holds of a SimplePIR hint the rows of one record alone asks for that record as one
/// that holds the whole hint: it is refused alike, sends the same frame, and of all replies that
/// come then reports the same.
pub fn rows_of_the_record_suffice()
    ensures { RowsOfTheRecordSuffice }
{}
