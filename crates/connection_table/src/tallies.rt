//! What was counted of a service, and how long its turns took.

ghost use Rattle.std.specs.Prelude.{◌≡◌, ◌≢◌, ◌++◌, ◌∷◌, ◌-◌, [], ℕ, List, None, IfSome};
ghost use Rattle.service_watch.specs.Counts.{Amount, IsTally, counter_slot};
ghost use Rattle.service_watch.specs.Durations.{IsSpread};
ghost use Rattle.connection_table.specs.Timing.{time_of};

use service_watch::{Counted, Counters, Histogram, ReplyHead};

/// The kind of a reply to a query.
const ANSWER: u8 = 0x85;

/// A turn that is over; its moments are in microseconds since the start.
#[derive(Clone, Copy)]
pub struct TurnTimes {
    /// When its frame began to wait.
    pub waits_since: u64,
    /// When it began.
    pub began: u64,
    /// When it ended.
    pub ended: u64,
    /// How many microseconds the turns before it that put its frame off took.
    pub spent: u64,
}

impl TurnTimes {
    /// How many microseconds it took, with the turns before it that put its frame off.
    pub fn took(self) -> u64
        ensures { result ≡ time_of self }
    {
        self.ended
            .saturating_sub(self.began)
            .saturating_add(self.spent)
    }
}

/// What was counted, and how long things took.
#[derive(Clone, Copy)]
pub struct Tallies {
    /// What was counted of connections.
    pub counts: Counters,
    /// How long the turns took in which a query was answered, each with those before that put it
    /// off.
    pub answered: Histogram,
    /// How long frames waited for the turn in which their reply was made.
    pub waited: Histogram,
    /// When the events of this round were reported, in microseconds since the start.
    pub polled: u64,
    /// When the last publication was made, in seconds since 1970 began in UTC; 0 if none was.
    pub published_at: u64,
    /// How many microseconds it took but for its append to the log.
    pub prepared: u64,
    /// How many microseconds its append to the log took.
    pub saved: u64,
}

impl Tallies {
    /// Nothing has happened.
    pub fn new() -> Tallies
        ensures counts { IsTally result.counts.counts [] }
        ensures answered { IsSpread result.answered.bins result.answered.sum [] }
        ensures waited { IsSpread result.waited.bins result.waited.sum [] }
    {
        Tallies {
            counts: Counters::new(),
            answered: Histogram::new(),
            waited: Histogram::new(),
            polled: 0,
            published_at: 0,
            prepared: 0,
            saved: 0,
        }
    }

    /// Counts a thing that happened, or so much of it.
    pub fn add(&mut self, what: Counted, amount: u64)
        ensures tally { (events : List Amount) → IsTally self.old.counts.counts events →
            IsTally self.new.counts.counts
            (events ++ record { slot = counter_slot what; much = amount } ∷ []) }
        ensures rest { self.new ≡ record self.old { counts = self.new.counts } }
    {
        self.counts.add(what, amount);
    }

    /// Notes the reply of a turn, if it made one: counts it, and notes how long its frame had
    /// waited, with the turns that put it off, and, if it is an answer, how long the turn took,
    /// with those.
    pub fn note_turn(&mut self, turn: TurnTimes, reply: Option<ReplyHead>)
        ensures none { reply ≡ None → self.new ≡ self.old }
        ensures counts { IfSome reply (λ r. (events : List Amount) →
            IsTally self.old.counts.counts events → IsTally self.new.counts.counts
            (events ++
            record { slot = counter_slot (Counted.Reply r.kind r.first); much = 1 } ∷ [])) }
        ensures waited { IfSome reply (λ r. (times : List ℕ) →
            IsSpread self.old.waited.bins self.old.waited.sum times →
            IsSpread self.new.waited.bins self.new.waited.sum
            (times ++ (turn.began - turn.waits_since) ∷ [])) }
        ensures answered { IfSome reply (λ r. r.kind ≡ 0x85 → (times : List ℕ) →
            IsSpread self.old.answered.bins self.old.answered.sum times →
            IsSpread self.new.answered.bins self.new.answered.sum (times ++ time_of turn ∷ [])) }
        ensures others { IfSome reply (λ r. r.kind ≢ 0x85 →
            self.new.answered ≡ self.old.answered) }
        ensures rest { self.new ≡ record self.old {
          counts = self.new.counts;
          answered = self.new.answered;
          waited = self.new.waited;
        } }
    {
        let Some(ReplyHead { kind, first }) = reply else {
            return;
        };
        self.counts.add(Counted::Reply(kind, first), 1);
        let waited = turn.began.saturating_sub(turn.waits_since);
        self.waited.observe(waited);
        note_answer(&mut self.answered, kind, turn.took());
    }

    /// Notes a publication that a turn made, at a moment in seconds since 1970 began.
    pub fn note_publication(&mut self, turn: TurnTimes, saved: u64, at: u64)
        ensures { self.new ≡ record self.old {
          published_at = at;
          saved = saved;
          prepared = turn.ended - turn.began - saved;
        } }
    {
        self.published_at = at;
        self.saved = saved;
        let took = turn.ended.saturating_sub(turn.began);
        self.prepared = took.saturating_sub(saved);
    }
}

// Notes how long a turn took, if its reply is an answer.
fn note_answer(answered: &mut Histogram, kind: u8, took: u64)
    ensures answer { kind ≡ 0x85 → (times : List ℕ) →
        IsSpread answered.old.bins answered.old.sum times →
        IsSpread answered.new.bins answered.new.sum (times ++ took ∷ []) }
    ensures other { kind ≢ 0x85 → answered.new ≡ answered.old }
{
    if kind == ANSWER {
        answered.observe(took);
    }
}
