//! The client.

ghost use Rattle.std.specs.Prelude.{◌≡◌, ◌≤◌, ◌<◌, ◌^◌, [], List, ℕ, true, None, Some, IfOk, IfErr};
ghost use Rattle.std.specs.Prelude.{MatchOption, MatchResult, length, max};
ghost use Rattle.frame_codec.specs.Frames.{IsFrame, encoding};
ghost use Rattle.frame_codec.specs.declared.frame.Frame.{Frame};
ghost use Rattle.pir_schemes.specs.Schemes.{scheme_byte};
ghost use Rattle.pir_schemes.specs.Plans.{client_profile};
ghost use Rattle.pir_schemes.specs.Retrievals.{query_words};
ghost use Rattle.client_core.specs.declared.state.ServerInfo.{ServerInfo};
ghost use Rattle.client_core.specs.States.{IsKnown, fresh, fresh_in, scheme_held, shape_known};
ghost use Rattle.client_core.specs.Calls.{ClientCall, Accepts, Refuses};
ghost use Rattle.client_core.specs.Feeding.{Client, FeedsClient};
ghost use Rattle.client_core.specs.Resuming.{IsDropped, IsResumed, saved_of};

use crate::calls::{
    AskedRecord, append_bytes, ask_buffers, base_of, begin_sync, edit_bytes, encoded, hello_bytes,
    may_ask, may_change, may_hello, query_bytes, scheme_of, spend_number, sync_bytes,
};
use crate::parts::Parts;
use crate::preparing::{next_masks, serve_next};
use crate::resuming::{SavedClient, may_hold};
use crate::state::{Call, CallFault, ClientFault, ClientState, Event, Hint, ServerInfo};
use crate::taking::take_replies;
use digit_pack::is_wide;
use frame_codec::{Frame, Reader};
use matrix_u32::Kernel;
use pir_schemes::{QueryMasks, Scheme, SecretSeed, client_profile};
use std::alloc::{AllocError, Global};
use std::marker::Model;

/// What comes of a piece of the server's stream: the bytes to send next, the events in order, and
/// the fault that made the client stop. With a fault, the bytes and the events are those of the
/// frames before it.
#[derive(Drop)]
pub struct Fed {
    pub out: Vec<u8>,
    pub events: Vec<Event>,
    pub fault: Option<ClientFault>,
}

/// A client of one server. Contracts see its state and the bytes of an unfinished frame.
#[derive(Drop)]
pub struct ClientCore<K: Kernel> {
    alloc: Global,
    kernel: K,
    reader: Reader,
    state: ClientState,
    // What was prepared of queries, of which contracts see nothing.
    masks: Option<QueryMasks>,
}

impl<K: Kernel> Model for ClientCore<K> {
    ghost use Rattle.client_core.specs.States.{IsState};
    ghost use Rattle.client_core.specs.Feeding.{Client};

    ghost Value = { Client };

    ghost view = { λ c. record { state = c.state; reader = c.reader } };

    ghost invariant = { λ c. IsState c.state };
}

impl<K: Kernel> ClientCore<K> {
    /// A client of ordinary stores, whose secrets and noise come from `seed`, and whose first
    /// retrieval has number `first_number`, at most 2^62. The numbers below it are left alone. It
    /// takes no memory.
    pub fn new(alloc: Global, kernel: K, seed: [u8; 32], first_number: u64) -> ClientCore<K>
        requires { first_number ≤ 2 ^ 62 }
        ensures { result ≡ record { state = fresh seed first_number; reader = Some [] } }
    {
        ClientCore::of_profile(alloc, kernel, client_profile(false), seed, first_number)
    }

    /// The same client, of wide stores: each kind refuses the other's greeting, and a client the
    /// other's Welcome.
    pub fn wide(alloc: Global, kernel: K, seed: [u8; 32], first_number: u64) -> ClientCore<K>
        requires { first_number ≤ 2 ^ 62 }
        ensures { result ≡
            record { state = fresh_in (client_profile true) seed first_number; reader = Some [] } }
    {
        ClientCore::of_profile(alloc, kernel, client_profile(true), seed, first_number)
    }

    /// Makes the next greeting one of wide stores or of ordinary ones: a client that a store
    /// refused for its profile greets it again, in the same session, with the other. Nothing else
    /// changes, and no number is spent.
    pub fn speak(&mut self, wide: bool)
        ensures state { self.new.state ≡
            record self.old.state { profile = client_profile wide } }
        ensures reader { self.new.reader ≡ self.old.reader }
    {
        self.state.profile = client_profile(wide);
    }

    // A client that greets in this profile.
    fn of_profile(
        alloc: Global,
        kernel: K,
        profile: u16,
        seed: [u8; 32],
        first_number: u64,
    ) -> ClientCore<K>
        requires { first_number ≤ 2 ^ 62 }
        ensures { result ≡
            record { state = fresh_in profile seed first_number; reader = Some [] } }
    {
        ClientCore {
            alloc,
            kernel,
            reader: Reader::new(alloc),
            state: ClientState {
                profile,
                seed,
                number: first_number,
                known: None,
                hint: None,
                parts: Parts::none(alloc),
                call: Call::Idle,
                failed: false,
            },
            masks: None,
        }
    }

    /// The number of the next retrieval.
    pub fn next_number(&self) -> u64
        ensures number { result ≡ self.now.state.number }
        ensures limit { result ≤ 2 ^ 62 }
    {
        self.state.number
    }

    /// What the server reported of its store: `None` before the Welcome.
    pub fn known(&self) -> Option<ServerInfo>
        ensures { result ≡ self.now.state.known }
    {
        self.state.known
    }

    /// The hint held, lent.
    pub fn hint(&self) -> Option<&Hint>
        ensures { MatchOption result (self.now.state.hint ≡ None)
            (λ hint. self.now.state.hint ≡ Some hint.now) }
    {
        self.state.hint.as_ref()
    }

    /// Leaves the numbers below `next` alone, at most 2^62: the next retrieval has that number, or
    /// the one that it would have had if that is larger.
    pub fn skip_to(&mut self, next: u64)
        requires { next ≤ 2 ^ 62 }
        ensures state { self.new.state ≡
            record self.old.state { number = max self.old.state.number next } }
        ensures reader { self.new.reader ≡ self.old.reader }
    {
        if self.state.number < next {
            self.state.number = next;
        }
    }

    /// What lasts of the client, but for its seed. A hint is moved, not copied.
    pub fn into_saved(self) -> SavedClient
        ensures { result ≡ saved_of self.state }
    {
        let ClientCore { state, .. } = self;
        let ClientState {
            number,
            known,
            hint,
            ..
        } = state;
        SavedClient {
            number,
            known,
            hint,
        }
    }

    /// Goes on with what was saved of another client, once this one was let in. Returns whether its
    /// hint is held now. That is so if the plan is equal, neither the version known then nor the
    /// hint's is later than the server's, the records were no more, and as many if the version is
    /// the same, and the hint has the rows and columns that its scheme wants. Else the hint saved
    /// is dropped, and all is as it was. The number saved is left alone:
    /// [`new`](ClientCore::new) takes it.
    ///
    /// What no comparison shows: other records under an equal plan, with its public seed, and an
    /// equal version. The hint is wrong for these.
    ///
    /// # Errors
    ///
    /// In this order: `Failed`, `NotReady` (no Welcome came yet), `Busy`. A refusal changes
    /// nothing.
    pub fn resume(&mut self, saved: SavedClient) -> Result<bool, CallFault>
        ensures resumed { IsResumed self.old.state saved result self.new.state }
        ensures reader { self.new.reader ≡ self.old.reader }
    {
        let known = may_change(&self.state)?;
        if !may_hold(&known, &saved.known, &saved.hint) {
            return Ok(false);
        }
        self.state.hint = saved.hint;
        Ok(true)
    }

    /// Drops the hint held, if there is one: the next sync goes by parts.
    ///
    /// # Errors
    ///
    /// In this order: `Failed`, `NotReady` (no Welcome came yet), `Busy`. A refusal changes
    /// nothing.
    pub fn drop_hint(&mut self) -> Result<(), CallFault>
        ensures dropped { IsDropped self.old.state result self.new.state }
        ensures reader { self.new.reader ≡ self.old.reader }
    {
        may_change(&self.state)?;
        let _dropped = self.state.hint.take();
        Ok(())
    }

    /// Asks to be let in: with a key of 32 zero bytes as a reader, with the publisher's key as the
    /// publisher. Gives the bytes to send. A client that isn't let in yet holds no hint.
    ///
    /// # Errors
    ///
    /// In this order: `Failed`, `AlreadyWelcome`, `Busy`, `Memory`. A refusal changes nothing.
    pub fn hello(&mut self, key: [u8; 32]) -> Result<Vec<u8>, CallFault>
        ensures accepted { IfOk result (λ bytes. Accepts self.old.state
            (ClientCall.Hello key) self.new.state bytes.items) }
        ensures refused { IfErr result
            (λ e. Refuses self.old.state (ClientCall.Hello key) e self.new.state) }
        ensures hint { IfOk result (λ _. self.new.state.hint ≡ None) }
        ensures reader { self.new.reader ≡ self.old.reader }
    {
        may_hello(&self.state)?;
        let bytes = hello_bytes(self.alloc, self.state.profile, &key)?;
        self.state.call = Call::Hello;
        Ok(bytes)
    }

    /// Asks for a scheme's hint of the last version known, part by part, and drops the hint held. A
    /// sync of SimplePIR by a client that holds a SimplePIR hint asks for what changed since, and
    /// keeps the hint meanwhile: for the rows of the hint, or, of a wide store, for the records, by
    /// which it moves the hint itself. If the server doesn't have these, the parts are asked for.
    /// Gives the bytes to send; `feed` gives those that ask for the further parts.
    ///
    /// # Errors
    ///
    /// In this order: `Failed`, `NotReady` (no Welcome came yet), `Busy`, `Memory`. A refusal
    /// changes nothing.
    pub fn sync(&mut self, scheme: Scheme) -> Result<Vec<u8>, CallFault>
        ensures accepted { IfOk result (λ bytes. Accepts self.old.state
            (ClientCall.Sync scheme) self.new.state bytes.items) }
        ensures refused { IfErr result
            (λ e. Refuses self.old.state (ClientCall.Sync scheme) e self.new.state) }
        ensures reader { self.new.reader ≡ self.old.reader }
    {
        let known = may_change(&self.state)?;
        let since = base_of(scheme, &self.state.hint);
        let bytes = sync_bytes(self.alloc, &self.state, scheme, since, known.version)?;
        begin_sync(self.alloc, &mut self.state, scheme, since, known.version);
        Ok(bytes)
    }

    /// Prepares the next `count` retrievals, at most 16: their secrets are drawn, and each row of
    /// the first public matrix is made once for all of them, before any record is named. What comes
    /// of it is kept until other retrievals are prepared. An `ask` makes its query of it, if it was
    /// made for the number of that and the number of columns known then; else as if nothing were
    /// prepared. Nothing is done before the Welcome, nor if the next retrieval is prepared.
    ///
    /// No call and no reply is another for it, and no number is spent. Only refused memory gives an
    /// `Err`, and then nothing is prepared.
    pub fn prepare_queries(&mut self, count: usize) -> Result<(), AllocError>
        ensures { self.new ≡ self.old }
    {
        let Some(known) = self.state.known else {
            return Ok(());
        };
        let seed = SecretSeed::new(self.state.seed);
        let number = self.state.number;
        if serve_next(&self.masks, &known, &seed, number) {
            return Ok(());
        }
        // Given up first, so that no two are held at once.
        self.masks = None;
        let masks = next_masks(self.alloc, self.kernel, &known, &seed, number, count)?;
        self.masks = Some(masks);
        Ok(())
    }

    /// Asks for record `index` of the version whose hint is held, by a query of the hint's scheme
    /// that hides which. Gives the bytes to send.
    ///
    /// # Errors
    ///
    /// In this order: `Failed`; `NotReady` (no Welcome came yet, no hint is held, or its version is
    /// not the last version known); `Busy`; `BadIndex` (the last version known has no such record);
    /// `SeedUsedUp` (the next number is 2^62); `Memory`. The number is spent if only `Memory` is
    /// left, and nothing else changes by a refusal.
    pub fn ask(&mut self, index: u32) -> Result<Vec<u8>, CallFault>
        ensures accepted { IfOk result (λ bytes. Accepts self.old.state
            (ClientCall.Ask index) self.new.state bytes.items) }
        ensures query { IfOk result (λ bytes. (k : ServerInfo) × (self.old.state.known ≡ Some k)
            × (bytes.items ≡ encoding
            (Frame.Query (scheme_byte (scheme_held self.old.state.hint)) k.version
            (query_words (scheme_held self.old.state.hint) (shape_known k) k.plan.dimension
            k.plan.seed self.old.state.seed self.old.state.number index)))) }
        ensures refused { IfErr result
            (λ e. Refuses self.old.state (ClientCall.Ask index) e self.new.state) }
        ensures reader { self.new.reader ≡ self.old.reader }
    {
        let known = may_ask(&self.state, index)?;
        // Spent before memory is asked for, so that no number serves two queries.
        let number = spend_number(&mut self.state);
        let version = known.version;
        let asked = AskedRecord {
            index,
            version,
            number,
        };
        let bytes = self.query(&known, asked)?;
        self.state.call = Call::Ask {
            index,
            version,
            number,
        };
        Ok(bytes)
    }

    // The bytes of the query of a retrieval, in the scheme of the hint held.
    fn query(&self, known: &ServerInfo, asked: AskedRecord) -> Result<Vec<u8>, CallFault>
        requires known { IsKnown known.now }
        requires number { asked.number < 2 ^ 62 }
        requires record { asked.index < known.now.count }
        ensures bytes { IfOk result (λ v. v.items ≡ encoding
            (Frame.Query (scheme_byte (scheme_held self.now.state.hint)) asked.version
            (query_words (scheme_held self.now.state.hint) (shape_known known.now)
            known.now.plan.dimension known.now.plan.seed self.now.state.seed asked.number
            asked.index))) }
        ensures frame { IfOk result (λ _. IsFrame
            (Frame.Query (scheme_byte (scheme_held self.now.state.hint)) asked.version
            (query_words (scheme_held self.now.state.hint) (shape_known known.now)
            known.now.plan.dimension known.now.plan.seed self.now.state.seed asked.number
            asked.index))) }
        ensures memory { IfErr result (λ e. e ≡ CallFault.Memory) }
    {
        let scheme = scheme_of(&self.state.hint);
        let room = ask_buffers(self.alloc, scheme, known)?;
        let seed = &self.state.seed;
        Ok(query_bytes(self.kernel, room, &self.masks, scheme, known, seed, asked))
    }

    /// Gives the server these bytes, at most 65,535, for record `index` of the next version. It
    /// judges the index and the length. Gives the bytes to send.
    ///
    /// # Errors
    ///
    /// In this order: `Failed`, `NotReady` (no Welcome came yet), `Busy`, `Memory`. A refusal
    /// changes nothing.
    pub fn edit(&mut self, index: u32, bytes: &[u8]) -> Result<Vec<u8>, CallFault>
        requires { length bytes.now ≤ 65535 }
        ensures accepted { IfOk result (λ sent. Accepts self.old.state
            (ClientCall.Edit index bytes.now) self.new.state sent.items) }
        ensures refused { IfErr result
            (λ e. Refuses self.old.state (ClientCall.Edit index bytes.now) e self.new.state) }
        ensures reader { self.new.reader ≡ self.old.reader }
    {
        may_change(&self.state)?;
        let sent = edit_bytes(self.alloc, index, bytes)?;
        self.state.call = Call::Edit;
        Ok(sent)
    }

    /// Gives the server these bytes, at most 65,535, as one record more of the next version. It
    /// judges the length and whether it has room. Gives the bytes to send.
    ///
    /// # Errors
    ///
    /// In this order: `Failed`, `NotReady` (no Welcome came yet), `Busy`, `Memory`. A refusal
    /// changes nothing.
    pub fn append(&mut self, bytes: &[u8]) -> Result<Vec<u8>, CallFault>
        requires { length bytes.now ≤ 65535 }
        ensures accepted { IfOk result (λ sent. Accepts self.old.state
            (ClientCall.Append bytes.now) self.new.state sent.items) }
        ensures refused { IfErr result
            (λ e. Refuses self.old.state (ClientCall.Append bytes.now) e self.new.state) }
        ensures reader { self.new.reader ≡ self.old.reader }
    {
        may_change(&self.state)?;
        let sent = append_bytes(self.alloc, bytes)?;
        self.state.call = Call::Append;
        Ok(sent)
    }

    /// Asks the server to make its edits and the records appended the next version. Gives the bytes
    /// to send.
    ///
    /// # Errors
    ///
    /// In this order: `Failed`, `NotReady` (no Welcome came yet), `Busy`, `Memory`. A refusal
    /// changes nothing.
    pub fn publish(&mut self) -> Result<Vec<u8>, CallFault>
        ensures accepted { IfOk result
            (λ bytes. Accepts self.old.state ClientCall.Publish self.new.state bytes.items) }
        ensures refused { IfErr result
            (λ e. Refuses self.old.state ClientCall.Publish e self.new.state) }
        ensures reader { self.new.reader ≡ self.old.reader }
    {
        may_change(&self.state)?;
        let bytes = encoded(self.alloc, &Frame::Publish)?;
        self.state.call = Call::Publish;
        Ok(bytes)
    }

    /// Takes the next piece of the server's stream.
    ///
    /// Each frame that is whole now is taken as the reply to the outstanding call. `BadWelcome`
    /// if a Welcome is of the other kind of store (wide or ordinary) than the greeting, or has a
    /// profile that is no form of these records, sizes beyond the limits or version 0; `BadReply`
    /// if a reply is none that the outstanding call can have, if no call is outstanding, and if
    /// the bytes are no frame; `Memory` if memory was refused; `Failed` if an earlier feed had a
    /// fault. After each of them every call returns `Failed`.
    pub fn feed(&mut self, piece: &[u8]) -> Fed
        ensures { FeedsClient self.old piece.now result.out.items result.events.items result.fault
            self.new }
    {
        let mut out = Vec::new(self.alloc);
        let mut events = Vec::new(self.alloc);
        if self.state.failed {
            return Fed {
                out,
                events,
                fault: Some(ClientFault::Failed),
            };
        }
        let mut frames = Vec::new(self.alloc);
        let wide = is_wide(self.state.profile);
        let answer = self.reader.feed(wide, piece, &mut frames);
        let fault = take_replies(
            self.alloc,
            self.kernel,
            &mut self.state,
            frames.as_slice(),
            answer,
            &mut out,
            &mut events,
        );
        Fed { out, events, fault }
    }
}
