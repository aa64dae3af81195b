//! What is seen of the streams of connections.

ghost use Rattle.std.specs.Prelude.{◌≡◌, ◌-◌, None, Some, length, unwrap_or};
ghost use Rattle.connection_table.specs.Drafting.{edited_after, is_done};
ghost use Rattle.connection_table.specs.Judging.{HasMore};
ghost use Rattle.connection_table.specs.Timing.{time_of};
ghost use Rattle.connection_table.specs.Watching.{seen_reply};

use crate::connection::TurnResult;
use crate::tallies::TurnTimes;
use service_watch::{FrameScan, ReplyHead, head_of_reply};

/// The kind of the reply that says that what was asked for is done.
const DONE: u8 = 0x87;

/// What was seen of a connection's streams.
#[derive(Clone, Copy)]
pub struct Watch {
    /// How many of the bytes that are owed were looked at.
    pub seen: usize,
    /// The reply that was made in this turn.
    pub reply: Option<ReplyHead>,
    /// Where in the stream of frames the next byte is.
    pub scan: FrameScan,
    /// How many microseconds the append of a publication took in this turn; 0 if there was none.
    pub saved: u64,
    /// The version that was published in this turn.
    pub published: Option<u64>,
    /// The version whose draft its session has edited last, if it has edited any.
    pub edited: Option<u64>,
    /// When its last turn ended, in microseconds since the start, if that left more to do. If the
    /// frame of that turn was put off, this is when that frame began to wait.
    pub left_more: Option<u64>,
    /// How many microseconds the turns that put its frame off took.
    pub spent: u64,
}

impl Watch {
    /// Nothing was seen.
    pub fn new() -> Watch {
        Watch {
            seen: 0,
            reply: None,
            scan: FrameScan::new(),
            saved: 0,
            published: None,
            edited: None,
            left_more: None,
            spent: 0,
        }
    }

    /// The times of a turn that began and ended at these moments, in a round whose events were
    /// reported at a moment before; all are in microseconds since the start.
    pub fn times(&self, polled: u64, began: u64, ended: u64) -> TurnTimes
        ensures { result ≡ record {
          waits_since = unwrap_or self.now.left_more polled;
          began = began;
          ended = ended;
          spent = self.now.spent;
        } }
    {
        TurnTimes {
            waits_since: self.left_more.unwrap_or(polled),
            began,
            ended,
            spent: self.spent,
        }
    }

    /// Notes since when the frame at hand after a turn has waited, and how long the turns that put
    /// it off took.
    pub fn note_end(&mut self, turn: TurnTimes, outcome: TurnResult)
        ensures put_off { outcome ≡ TurnResult.PutOff →
            (self.new.left_more ≡ Some turn.waits_since) × (self.new.spent ≡ time_of turn) }
        ensures busy { outcome ≡ TurnResult.Busy →
            (self.new.left_more ≡ Some turn.ended) × (self.new.spent ≡ 0) }
        ensures waits { (HasMore outcome → ⊥) →
            (self.new.left_more ≡ None) × (self.new.spent ≡ 0) }
        ensures rest { self.new ≡ record self.old {
          left_more = self.new.left_more;
          spent = self.new.spent;
        } }
    {
        match outcome {
            TurnResult::PutOff => {
                self.left_more = Some(turn.waits_since);
                self.spent = turn.took();
            }
            TurnResult::Busy => {
                self.left_more = Some(turn.ended);
                self.spent = 0;
            }
            TurnResult::Waits | TurnResult::Over | TurnResult::Closed(_) => {
                self.left_more = None;
                self.spent = 0;
            }
        }
    }

    /// Notes after a turn on the draft of a version whether its session has edited that: the turn
    /// replied Done, and published nothing.
    pub fn note_edit(&mut self, version: u64)
        ensures { self.new ≡ record self.old {
          edited = edited_after self.old.edited self.old.reply self.old.published version;
        } }
    {
        if is_done(self.reply) && self.published.is_none() {
            self.edited = Some(version);
        }
    }

    /// Looks at what is owed: what was not there before is a reply.
    pub fn look(&mut self, owed: &[u8])
        ensures reply { self.new.reply ≡ seen_reply self.old.seen owed.now self.old.reply }
        ensures seen { self.new.seen ≡ length owed.now }
        ensures scan { self.new.scan ≡ self.old.scan }
    {
        if self.seen < owed.len() {
            self.reply = head_of_reply(&owed[self.seen..]);
        }
        self.seen = owed.len();
    }

    /// The first of the bytes that are owed were written.
    pub fn wrote(&mut self, count: usize)
        ensures { self.new ≡ record self.old { seen = self.old.seen - count } }
    {
        self.seen = self.seen.saturating_sub(count);
    }
}

// Whether a reply says that what was asked for is done.
fn is_done(reply: Option<ReplyHead>) -> bool
    ensures { result ≡ is_done reply }
{
    match reply {
        Some(reply) => reply.kind == DONE,
        None => false,
    }
}
