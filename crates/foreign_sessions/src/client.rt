//! A client together with the bytes that wait to be sent and the events that wait to be taken, for
//! programs that take both when it suits them.
//!
//! [`ClientCore`] hands over what comes of each call. A [`ClientSession`] keeps it until it is
//! taken, and refuses what would overwrite it.

ghost use Rattle.std.specs.Prelude.{◌≡◌, ◌≤◌, ◌^◌, [], true, None, Some, OnOk, OnErr, length};
ghost use Rattle.std.specs.Slice.{IsItemAt};
ghost use Rattle.pir_schemes.specs.Plans.{client_profile};
ghost use Rattle.client_core.specs.States.{fresh, fresh_in};
ghost use Rattle.client_core.specs.Calls.{ClientCall};
ghost use Rattle.hint_file.specs.Files.{plan_bytes};
ghost use Rattle.foreign_sessions.specs.Clients.{CallsClient, FeedsClientSession, Resumes};
ghost use Rattle.foreign_sessions.specs.Clients.{hint_file_of, plan_bytes_of};
ghost use Rattle.foreign_sessions.specs.Clients.{record_given, later_events};

use client_core::{
    CallFault, ClientCore, ClientFault, Event, Plan, SavedClient, Scheme, ServerInfo,
};
use hint_file::{HintError, hint_file, hint_file_len, read_hint};
use lane_kernels::Lanes;
use std::alloc::{AllocError, Global};
use thiserror::Error;

/// How many bytes say which store a server's is.
pub const STORE_LEN: usize = 41;

/// Why a call was not made.
#[derive(Clone, Copy, Debug, PartialEq, Eq, Error)]
pub enum SessionFault {
    /// The bytes of an earlier call wait.
    #[error("bytes of an earlier call wait to be taken")]
    Untaken,
    /// The client refuses it.
    #[error("the client refuses the call")]
    Call(CallFault),
}

/// Why a piece was not taken, or what ended the client while it was.
#[derive(Clone, Copy, Debug, PartialEq, Eq, Error)]
pub enum FeedFault {
    /// Bytes or events of an earlier call wait.
    #[error("bytes or events of an earlier call wait to be taken")]
    Untaken,
    /// The client stopped.
    #[error("the client stopped")]
    Client(ClientFault),
}

/// Why a client doesn't go on with a hint's file.
#[derive(Clone, Copy, Debug, PartialEq, Eq, Error)]
pub enum ResumeFault {
    /// The bytes are no file of a hint, or memory for it was refused.
    #[error(transparent)]
    File(HintError),
    /// The client refuses it.
    #[error("the client refuses it")]
    Call(CallFault),
}

/// A client over lanes, the bytes that wait to be sent, and the events that wait to be taken.
#[derive(Drop)]
pub struct ClientSession {
    pub core: ClientCore<Lanes>,
    pub waiting: Vec<u8>,
    pub events: Vec<Event>,
}

impl ClientSession {
    /// A client as [`ClientCore::new`] makes it, with nothing waiting. No memory is taken.
    pub fn new(alloc: Global, seed: [u8; 32], first_number: u64) -> ClientSession
        requires { first_number ≤ 2 ^ 62 }
        ensures core { result.core ≡ record { state = fresh seed first_number; reader = Some [] } }
        ensures waiting { result.waiting.items ≡ [] }
        ensures events { result.events.items ≡ [] }
    {
        ClientSession {
            core: ClientCore::new(alloc, Lanes, seed, first_number),
            waiting: Vec::new(alloc),
            events: Vec::new(alloc),
        }
    }

    /// The same client, of wide stores, as [`ClientCore::wide`] makes it.
    pub fn wide(alloc: Global, seed: [u8; 32], first_number: u64) -> ClientSession
        requires { first_number ≤ 2 ^ 62 }
        ensures core { result.core ≡
            record { state = fresh_in (client_profile true) seed first_number; reader = Some [] } }
        ensures waiting { result.waiting.items ≡ [] }
        ensures events { result.events.items ≡ [] }
    {
        ClientSession {
            core: ClientCore::wide(alloc, Lanes, seed, first_number),
            waiting: Vec::new(alloc),
            events: Vec::new(alloc),
        }
    }

    /// [`ClientCore::hello`], whose bytes wait from then on. `Untaken` exactly if bytes wait
    /// already, and then nothing changes; else what the client returns. What waits stays if the
    /// client refuses.
    pub fn hello(&mut self, key: [u8; 32]) -> Result<(), SessionFault>
        ensures { CallsClient self.old (ClientCall.Hello key) result self.new }
    {
        if !self.waiting.is_empty() {
            return Err(SessionFault::Untaken);
        }
        match self.core.hello(key) {
            Ok(bytes) => {
                self.waiting = bytes;
                Ok(())
            }
            Err(fault) => Err(SessionFault::Call(fault)),
        }
    }

    /// [`ClientCore::sync`], whose bytes wait from then on. `Untaken` as in
    /// [`ClientSession::hello`].
    pub fn sync(&mut self, scheme: Scheme) -> Result<(), SessionFault>
        ensures { CallsClient self.old (ClientCall.Sync scheme) result self.new }
    {
        if !self.waiting.is_empty() {
            return Err(SessionFault::Untaken);
        }
        match self.core.sync(scheme) {
            Ok(bytes) => {
                self.waiting = bytes;
                Ok(())
            }
            Err(fault) => Err(SessionFault::Call(fault)),
        }
    }

    /// [`ClientCore::ask`], whose bytes wait from then on. `Untaken` as in
    /// [`ClientSession::hello`].
    pub fn ask(&mut self, index: u32) -> Result<(), SessionFault>
        ensures { CallsClient self.old (ClientCall.Ask index) result self.new }
    {
        if !self.waiting.is_empty() {
            return Err(SessionFault::Untaken);
        }
        match self.core.ask(index) {
            Ok(bytes) => {
                self.waiting = bytes;
                Ok(())
            }
            Err(fault) => Err(SessionFault::Call(fault)),
        }
    }

    /// [`ClientCore::edit`], whose bytes wait from then on. `Untaken` as in
    /// [`ClientSession::hello`].
    pub fn edit(&mut self, index: u32, bytes: &[u8]) -> Result<(), SessionFault>
        requires { length bytes.now ≤ 65535 }
        ensures { CallsClient self.old (ClientCall.Edit index bytes.now) result self.new }
    {
        if !self.waiting.is_empty() {
            return Err(SessionFault::Untaken);
        }
        match self.core.edit(index, bytes) {
            Ok(sent) => {
                self.waiting = sent;
                Ok(())
            }
            Err(fault) => Err(SessionFault::Call(fault)),
        }
    }

    /// [`ClientCore::append`], whose bytes wait from then on. `Untaken` as in
    /// [`ClientSession::hello`].
    pub fn append(&mut self, bytes: &[u8]) -> Result<(), SessionFault>
        requires { length bytes.now ≤ 65535 }
        ensures { CallsClient self.old (ClientCall.Append bytes.now) result self.new }
    {
        if !self.waiting.is_empty() {
            return Err(SessionFault::Untaken);
        }
        match self.core.append(bytes) {
            Ok(sent) => {
                self.waiting = sent;
                Ok(())
            }
            Err(fault) => Err(SessionFault::Call(fault)),
        }
    }

    /// [`ClientCore::publish`], whose bytes wait from then on. `Untaken` as in
    /// [`ClientSession::hello`].
    pub fn publish(&mut self) -> Result<(), SessionFault>
        ensures { CallsClient self.old ClientCall.Publish result self.new }
    {
        if !self.waiting.is_empty() {
            return Err(SessionFault::Untaken);
        }
        match self.core.publish() {
            Ok(bytes) => {
                self.waiting = bytes;
                Ok(())
            }
            Err(fault) => Err(SessionFault::Call(fault)),
        }
    }

    /// [`ClientCore::feed`], of which the bytes and the events wait from then on. `Untaken` exactly
    /// if bytes or events wait already, and then nothing changes; else what the client returns, and
    /// what it gives waits also if it stops.
    pub fn feed(&mut self, piece: &[u8]) -> Result<(), FeedFault>
        ensures { FeedsClientSession self.old piece.now result self.new }
    {
        if !self.waiting.is_empty() || !self.events.is_empty() {
            return Err(FeedFault::Untaken);
        }
        let fed = self.core.feed(piece);
        self.waiting = fed.out;
        self.events = fed.events;
        match fed.fault {
            None => Ok(()),
            Some(fault) => Err(FeedFault::Client(fault)),
        }
    }

    /// The bytes that say which store the server's is, by which files of hints are told apart:
    /// `None` before it let the client in.
    pub fn store(&self) -> Option<[u8; STORE_LEN]>
        ensures { result ≡ plan_bytes_of self.now.core.state.known }
    {
        let ServerInfo { plan, .. } = self.core.known()?;
        Some(store_bytes(&plan))
    }

    /// How many bytes the file of the hint held has: 0 when the client holds none.
    pub fn hint_len(&self) -> usize
        ensures { result ≡ length (hint_file_of self.now.core.state) }
    {
        let (Some(known), Some(hint)) = (self.core.known(), self.core.hint()) else {
            return 0;
        };
        let _ = seed_len(&known.plan.seed);
        hint_file_len(hint)
    }

    /// Writes the file of the hint held, with what the server reported last; no byte when the
    /// client holds none. Only refused memory gives an `Err`, and then nothing is written.
    pub fn copy_hint(&self, alloc: Global, out: &mut [u8]) -> Result<(), AllocError>
        requires { length out.old ≡ length (hint_file_of self.now.core.state) }
        ensures written { OnOk result (out.new ≡ hint_file_of self.now.core.state) }
        ensures refused { OnErr result (out.new ≡ out.old) }
    {
        let (Some(known), Some(hint)) = (self.core.known(), self.core.hint()) else {
            return Ok(());
        };
        let file = hint_file(alloc, &known, hint)?;
        file.write_into(out);
        Ok(())
    }

    /// [`ClientCore::resume`] with the hint of a file, of which these are all bytes. Returns
    /// whether its hint is held now.
    ///
    /// The file's faults come first, `Damaged` exactly when the bytes are no file of a hint; then
    /// those of the client. What waits stays.
    pub fn resume(&mut self, alloc: Global, bytes: &[u8]) -> Result<bool, ResumeFault>
        ensures { Resumes self.old bytes.now result self.new }
    {
        let mut left = bytes;
        let kept = match read_hint(alloc, &mut left) {
            Ok(kept) => kept,
            Err(fault) => return Err(ResumeFault::File(fault)),
        };
        let saved = SavedClient {
            number: self.core.next_number(),
            known: Some(kept.known),
            hint: Some(kept.hint),
        };
        match self.core.resume(saved) {
            Ok(held) => Ok(held),
            Err(fault) => Err(ResumeFault::Call(fault)),
        }
    }

    /// How many bytes wait to be sent.
    pub fn waiting_len(&self) -> usize
        ensures { result ≡ length self.now.waiting.items }
    {
        self.waiting.len()
    }

    /// Copies the bytes that wait to be sent, and forgets them.
    pub fn take_waiting(&mut self, out: &mut [u8])
        requires { length out.old ≡ length self.old.waiting.items }
        ensures bytes { out.new ≡ self.old.waiting.items }
        ensures none { self.new.waiting.items ≡ [] }
        ensures core { self.new.core ≡ self.old.core }
        ensures events { self.new.events ≡ self.old.events }
    {
        out.copy_from_slice(&self.waiting);
        self.waiting.clear();
    }

    /// The first event that waits to be taken.
    pub fn first_event(&self) -> Option<&Event>
        ensures { IsItemAt self.now.events.items 0 result }
    {
        self.events.first()
    }

    /// How many bytes the record has that the first event gives: 0 if it gives none.
    pub fn first_record_len(&self) -> usize
        ensures { result ≡ length (record_given self.now.events.items) }
    {
        match self.events.first() {
            Some(Event::Retrieved { bytes, .. }) => bytes.as_slice().len(),
            _ => 0,
        }
    }

    /// Copies the bytes of the record that the first event gives.
    pub fn copy_first_record(&self, out: &mut [u8])
        requires { length out.old ≡ length (record_given self.now.events.items) }
        ensures { out.new ≡ record_given self.now.events.items }
    {
        if let Some(Event::Retrieved { bytes, .. }) = self.events.first() {
            out.copy_from_slice(bytes.as_slice());
        }
    }

    /// Forgets the first event, if there is one.
    pub fn forget_first_event(&mut self)
        ensures events { self.new.events.items ≡ later_events self.old.events.items }
        ensures core { self.new.core ≡ self.old.core }
        ensures waiting { self.new.waiting ≡ self.old.waiting }
    {
        if !self.events.is_empty() {
            let _told = self.events.remove(0);
        }
    }

    /// The number of the next retrieval.
    pub fn next_number(&self) -> u64
        ensures { result ≡ self.now.core.state.number }
    {
        self.core.next_number()
    }

    /// What the server reported of its store: `None` before it let the client in.
    pub fn known(&self) -> Option<ServerInfo>
        ensures { result ≡ self.now.core.state.known }
    {
        self.core.known()
    }
}

// The bytes that say which store this is the plan of. No memory is taken.
#[tactic(auto, unfolding(hint_file::specs::Files::plan_bytes, frame_codec::specs::Numbers::number_bytes))]
fn store_bytes(plan: &Plan) -> [u8; STORE_LEN]
    ensures { result ≡ plan_bytes plan.now }
{
    let mut bytes = [0; STORE_LEN];
    let (form, rest) = bytes.split_at_mut(2);
    form.copy_from_slice(&plan.form.to_le_bytes());
    let (width, rest) = rest.split_at_mut(1);
    width.copy_from_slice(&[plan.width]);
    let (record_len, rest) = rest.split_at_mut(2);
    record_len.copy_from_slice(&plan.record_len.to_le_bytes());
    let (groups, rest) = rest.split_at_mut(2);
    groups.copy_from_slice(&plan.groups.to_le_bytes());
    let (dimension, seed) = rest.split_at_mut(2);
    dimension.copy_from_slice(&plan.dimension.to_le_bytes());
    seed.copy_from_slice(&plan.seed);
    bytes
}

// How many bytes a public seed has.
fn seed_len(seed: &[u8]) -> usize
    requires { length seed.now ≡ 32 }
    ensures count { result ≡ 32 }
    ensures len { length seed.now ≡ 32 }
{
    seed.len()
}
