//! What a client holds, and what it reports.

ghost use Rattle.std.specs.Prelude.{◌≡◌};
ghost use Rattle.digit_pack.specs.Layout.{IsLayout};
ghost use Rattle.client_core.specs.States.{IsKnown, shape_known};
ghost use Rattle.client_core.specs.Names.{call_fault_name, client_fault_name};

use crate::parts::Parts;
use digit_pack::Layout;
use frame_codec::Bytes;
use matrix_u32::Matrix;
use pir_schemes::{Plan, Scheme};
use thiserror::Error;

/// What the server reported of its store: the last version known, how many records that version
/// has, and the plan, which is the same in every version.
#[derive(Clone, Copy, Debug, PartialEq, Eq)]
pub struct ServerInfo {
    pub version: u64,
    pub count: u32,
    pub plan: Plan,
}

impl ServerInfo {
    /// The sizes of the last version known.
    pub(crate) fn layout(&self) -> Layout
        requires { IsKnown self.now }
        ensures shape { result ≡ shape_known self.now }
        ensures limits { IsLayout result }
    {
        // The sizes were judged when the server reported them: no refusal is left.
        self.plan.layout(self.count as usize).unwrap()
    }

    /// The dimension n of the public matrices.
    pub fn dimension(&self) -> usize
        ensures { result ≡ self.now.plan.dimension }
    {
        usize::from(self.plan.dimension)
    }
}

/// A whole hint of a version: the rows that its scheme wants, of n words each.
#[derive(Drop)]
pub struct Hint {
    pub scheme: Scheme,
    pub version: u64,
    pub matrix: Matrix,
}

/// The outstanding call, with what a reply to it is judged by.
#[derive(Drop)]
pub enum Call {
    /// There is none.
    Idle,
    /// Hello was sent.
    Hello,
    /// Part `part` of the version's hint was asked for.
    Sync {
        scheme: Scheme,
        version: u64,
        part: u32,
    },
    /// The rows of the SimplePIR hint held that have changed since its version were asked for.
    Delta {
        since: u64,
    },
    /// The records that have changed since the version of the SimplePIR hint held were asked for.
    Changes {
        since: u64,
    },
    /// The query for record `index` was sent, in the scheme of the hint held; `number` is that of
    /// the retrieval under the seed.
    Ask {
        index: u32,
        version: u64,
        number: u64,
    },
    /// Other bytes were sent for a record.
    Edit,
    /// The bytes of one record more were sent.
    Append,
    /// Publish was sent.
    Publish,
}

/// All that a client holds but for the bytes of an unfinished frame.
#[derive(Drop)]
pub struct ClientState {
    /// The profile of its greeting: 130 if the store is to be a wide one, else 2.
    pub profile: u16,
    /// The secret seed, which secrets and noise are drawn from.
    pub seed: [u8; 32],
    /// The number of the next retrieval.
    pub number: u64,
    /// What the server reported last: none before the Welcome.
    pub known: Option<ServerInfo>,
    /// The hint held.
    pub hint: Option<Hint>,
    /// The words of an unfinished hint that have come.
    pub parts: Parts,
    /// The outstanding call.
    pub call: Call,
    /// A reply was bad, or memory was refused while one was taken: nothing more is taken or sent.
    pub failed: bool,
}

/// What the server's reply to a call says. Each ends the call.
#[derive(Drop)]
pub enum Event {
    /// The server's current version.
    Welcomed(u64),
    /// The hint of this version is held now.
    Synced(Scheme, u64),
    /// Record `index` of the version.
    Retrieved {
        index: u32,
        version: u64,
        bytes: Bytes,
    },
    /// The answer's digits set a bit past the record's last byte, or their bytes are no slot, if
    /// the store has slots.
    Unreadable {
        index: u32,
        version: u64,
    },
    /// The version asked isn't current; this one is.
    Stale(u64),
    /// An edit, a record appended or a publication is done; this version is current.
    Done(u64),
    /// The server refused the call, for the reason that the code names.
    Refused(u8),
}

/// Why a call is refused.
#[derive(Clone, Copy, Debug, PartialEq, Eq, Error)]
pub enum CallFault {
    /// No Welcome came yet; or `ask` has no hint of the last version known.
    #[error("there is no welcome or no hint of the last version known")]
    NotReady,
    /// Another call is outstanding.
    #[error("another call is outstanding")]
    Busy,
    /// The last version known has no such record.
    #[error("there is no such record")]
    BadIndex,
    /// All 2^62 retrieval numbers of the seed are spent.
    #[error("the seed's numbers are used up")]
    SeedUsedUp,
    /// Memory was refused.
    #[error("out of memory")]
    Memory,
    /// An earlier reply was bad, or memory was refused while it was taken.
    #[error("the client had failed")]
    Failed,
    /// The Welcome came already.
    #[error("the client is welcome already")]
    AlreadyWelcome,
}

impl CallFault {
    /// Its name, as programs print it.
    #[tactic(auto, unfolding(crate::specs::Names::call_fault_name))]
    pub fn name(self) -> &'static str
        ensures { result.now ≡ call_fault_name self }
    {
        match self {
            CallFault::NotReady => "NotReady",
            CallFault::Busy => "Busy",
            CallFault::BadIndex => "BadIndex",
            CallFault::SeedUsedUp => "SeedUsedUp",
            CallFault::Memory => "Memory",
            CallFault::Failed => "Failed",
            CallFault::AlreadyWelcome => "AlreadyWelcome",
        }
    }
}

/// Why a client stopped.
#[derive(Clone, Copy, Debug, PartialEq, Eq, Error)]
pub enum ClientFault {
    /// A Welcome of the other kind of store than the greeting's (wide or ordinary), with a form or
    /// sizes beyond the limits, or with version 0.
    #[error("a bad welcome")]
    BadWelcome,
    /// A reply that the outstanding call can't have, or no frame at all.
    #[error("a bad reply")]
    BadReply,
    /// Memory was refused.
    #[error("out of memory")]
    Memory,
    /// An earlier feed had a fault.
    #[error("the client had failed")]
    Failed,
}

impl ClientFault {
    /// Its name, as programs print it.
    #[tactic(auto, unfolding(crate::specs::Names::client_fault_name))]
    pub fn name(self) -> &'static str
        ensures { result.now ≡ client_fault_name self }
    {
        match self {
            ClientFault::BadWelcome => "BadWelcome",
            ClientFault::BadReply => "BadReply",
            ClientFault::Memory => "Memory",
            ClientFault::Failed => "Failed",
        }
    }
}

/// What comes of a reply: the next part is asked for, the call ends with an event, or the reply is
/// bad.
#[derive(Drop)]
pub enum Reaction {
    Asks {
        scheme: Scheme,
        version: u64,
        part: u32,
    },
    Reports(Event),
    Fails(ClientFault),
}
