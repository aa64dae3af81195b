//! Counts of what happened.

ghost use Rattle.std.specs.Prelude.{◌≡◌, ◌+◌, ◌++◌, ◌∷◌, ◌<◌, [], List, slice_index, slice_set};
ghost use Rattle.service_watch.specs.Counts.{Amount, IsTally, cause_slot, frame_slot, refusal_slot};
ghost use Rattle.service_watch.specs.Counts.{reply_slot, saturating, scheme_offset, counter_slot};

/// How many things are counted apart.
pub const SLOTS: usize = 48;

/// Why a connection is over.
#[derive(Clone, Copy, Debug, PartialEq, Eq)]
pub enum Cause {
    /// The connection came to its end.
    End,
    /// No connection could be accepted.
    Connect,
    /// A read failed.
    Read,
    /// A write failed.
    Write,
    /// There was no progress for too long.
    Idle,
    /// Memory was refused, or too many bytes were held for all.
    Memory,
    /// Its peer had too many.
    TooMany,
}

/// What is counted.
#[derive(Clone, Copy, Debug, PartialEq, Eq)]
pub enum Counted {
    /// A connection was accepted.
    Accepted,
    /// A connection is over.
    Closed(Cause),
    /// A frame of this kind came.
    Frame(u8),
    /// A reply of this kind was made, whose payload begins with this byte: an answer's scheme, a
    /// refusal's code.
    Reply(u8, u8),
    /// So many bytes were read.
    BytesIn,
    /// So many bytes were written.
    BytesOut,
}

/// How often each thing happened, or how much of it. A count that a word can't say stays at the
/// most that it can.
#[derive(Clone, Copy)]
pub struct Counters {
    counts: [u64; SLOTS],
}

impl Counters {
    /// Nothing has happened.
    pub fn new() -> Counters
        ensures { IsTally result.counts [] }
    {
        Counters { counts: [0; SLOTS] }
    }

    /// Counts a thing that happened, or so much of it.
    pub fn add(&mut self, what: Counted, amount: u64)
        ensures tally { (events : List Amount) → IsTally self.old.counts events →
            IsTally self.new.counts
            (events ++ record { slot = counter_slot what; much = amount } ∷ []) }
        ensures exactly { self.new.counts ≡ slice_set self.old.counts (counter_slot what)
            (saturating (slice_index self.old.counts (counter_slot what) + amount)) }
    {
        let slot = what.slot();
        self.counts[slot] = self.counts[slot].saturating_add(amount);
    }

    /// How often a thing happened, or how much of it.
    pub fn of(&self, what: Counted) -> u64
        ensures { result ≡ slice_index self.now.counts (counter_slot what) }
    {
        self.counts[what.slot()]
    }
}

impl Counted {
    // Where it is counted.
    fn slot(self) -> usize
        ensures slot { result ≡ counter_slot self }
        ensures within { result < 48 }
    {
        match self {
            Counted::Accepted => 0,
            Counted::Closed(cause) => cause.slot(),
            Counted::Frame(kind) => frame_slot(kind),
            Counted::Reply(kind, first) => reply_slot(kind, first),
            Counted::BytesIn => 18,
            Counted::BytesOut => 19,
        }
    }
}

impl Cause {
    // Where connections that are over for it are counted.
    fn slot(self) -> usize
        ensures slot { result ≡ cause_slot self }
        ensures within { result < 48 }
    {
        match self {
            Cause::End => 1,
            Cause::Connect => 2,
            Cause::Read => 3,
            Cause::Write => 4,
            Cause::Idle => 5,
            Cause::Memory => 6,
            Cause::TooMany => 7,
        }
    }
}

// Where frames of a kind are counted: those that no client sends are counted together.
fn frame_slot(kind: u8) -> usize
    ensures slot { result ≡ frame_slot kind }
    ensures within { result < 48 }
{
    match kind {
        0..=9 => 8 + kind as usize,
        0x0a => 45,
        _ => 8,
    }
}

// Where replies are counted: those that no server makes are counted together.
fn reply_slot(kind: u8, first: u8) -> usize
    ensures slot { result ≡ reply_slot kind first }
    ensures within { result < 48 }
{
    match kind {
        0x82 => 21,
        0x83 => 22 + scheme_offset(first),
        0x84 => 24,
        0x85 => 25 + scheme_offset(first),
        0x86 => 27,
        0x87 => 28,
        0x88 => 29,
        0x8a => 46,
        0x8f => refusal_slot(first),
        _ => 44,
    }
}

// 1 for DoublePIR.
fn scheme_offset(scheme: u8) -> usize
    ensures { result ≡ scheme_offset scheme }
{
    if scheme == 1 { 1 } else { 0 }
}

// Where refusals of a code are counted. No server makes code 0, which would be counted as NoDelta.
fn refusal_slot(code: u8) -> usize
    ensures slot { result ≡ refusal_slot code }
    ensures within { result < 48 }
{
    if code <= 14 { 29 + code as usize } else { 44 }
}
