//! Sessions over one store.

ghost use Rattle.std.specs.Prelude.{◌≡◌, ◌≢◌, ◌⊎◌, ◌≤◌, ◌<◌, ◌^◌, ◌+◌, ◌↔◌, ℕ, length, IsTrue};
ghost use Rattle.std.specs.Prelude.{OnOk, OnErr, IfOk, IfSome, IsSome, Some, None, IsErrOf};
ghost use Rattle.std.specs.Prelude.{is_some, slice_set, true, false};
ghost use Rattle.digit_pack.specs.Layout.{is_layout};
ghost use Rattle.pir_schemes.specs.Plans.{fits, shape_at};
ghost use Rattle.pir_schemes.specs.Retrievals.{query_count};
ghost use Rattle.version_store.specs.Editions.{version_shape};
ghost use Rattle.version_store.specs.Histories.{History, StandsFor, after_edit, after_append};
ghost use Rattle.version_store.specs.Histories.{published, undrafted, held_appended};
ghost use Rattle.version_store.specs.Histories.{held_published, without_draft};
ghost use Rattle.server_core.specs.Cores.{session_of, is_open, IsComingIn, MayWait, PublishesNext};
ghost use Rattle.server_core.specs.Cores.{FeedsCore, FeedsCoreFirst, IsFirstUnreadBy, OnMemory};
ghost use Rattle.server_core.specs.Cores.{OnNoSession, unfinished_in};
ghost use Rattle.server_core.specs.Serving.{setting_of, IsFull, PublishesIf};
ghost use Rattle.server_core.specs.Sessions as sessions;

use crate::passes::{Passes, WaitingQuery};
use crate::serve::has_wide_frames;
use crate::session::{Coming, Session};
use matrix_u32::Kernel;
use pir_schemes::Scheme;
use std::alloc::Global;
use std::collections::BTreeMap;
use std::marker::Model;
use thiserror::Error;
use version_store::{AppendError, EditError, PublishError, Store};

/// Why no session was opened: the first cause in the order of the variants.
#[derive(Clone, Copy, Debug, PartialEq, Eq, Error)]
pub enum SessionError {
    /// There is a session of this number.
    #[error("there is a session of this number")]
    IdInUse,
    /// There is no memory for it.
    #[error("out of memory")]
    Memory,
}

/// Why a piece wasn't served to its end: the first cause in the order of the variants.
#[derive(Clone, Copy, Debug, PartialEq, Eq, Error)]
pub enum FeedError {
    /// There is no session of this number.
    #[error("there is no session of this number")]
    NoSession,
    /// There is no memory for a frame or for a reply. The session is closed.
    #[error("out of memory")]
    Memory,
}

/// A store and the sessions of those that ask it, by their numbers.
///
/// Contracts see it as what the store keeps and the list of the sessions. They say what a call does
/// to every history that the store stands for.
#[derive(Drop)]
pub struct ServerCore<K: Kernel> {
    alloc: Global,
    store: Store<K>,
    sessions: BTreeMap<u64, Session>,
    // Whose long answers are made, and whose queries wait for the end of that.
    passes: Passes,
    // A session that waits for that end, to publish.
    publishing: Option<u64>,
}

impl<K: Kernel> Model for ServerCore<K> {
    ghost use Rattle.server_core.specs.Cores.{Core};

    ghost Value = { Core };

    ghost view = { λ c. record { store = c.store; sessions = c.sessions.entries } };
}

impl<K: Kernel> ServerCore<K> {
    /// A server with no sessions.
    pub fn new(alloc: Global, store: Store<K>) -> ServerCore<K>
        ensures store { result.store ≡ store }
        ensures none { (id : ℕ) → session_of result.sessions id ≡ None }
    {
        ServerCore {
            alloc,
            store,
            sessions: BTreeMap::new(alloc),
            passes: Passes::new(alloc),
            publishing: None,
        }
    }

    /// Opens a session: its stream is empty so far, and no greeting was accepted.
    ///
    /// # Errors
    ///
    /// `IdInUse` exactly when there is one of this number, also a closed one; else it is opened, or
    /// `Memory`. A refused opening changes nothing.
    pub fn open_session(&mut self, id: u64) -> Result<(), SessionError>
        ensures opened { OnOk result (session_of self.new.sessions id ≡ Some sessions.new_session) }
        ensures in_use { IsErrOf result SessionError.IdInUse ↔ IsSome
            (session_of self.old.sessions id) }
        ensures others { (other : ℕ) → other ≢ id →
            session_of self.new.sessions other ≡ session_of self.old.sessions other }
        ensures store { self.new.store ≡ self.old.store }
        ensures refused { OnErr result (self.new ≡ self.old) }
    {
        if self.sessions.contains_key(&id) {
            return Err(SessionError::IdInUse);
        }
        match self.sessions.insert(id, Session::new(self.alloc)) {
            Ok(_) => Ok(()),
            Err(_) => Err(SessionError::Memory),
        }
    }

    /// Takes a session away, and returns whether there was one of this number.
    pub fn close_session(&mut self, id: u64) -> bool
        ensures was { result ≡ is_some (session_of self.old.sessions id) }
        ensures gone { session_of self.new.sessions id ≡ None }
        ensures others { (other : ℕ) → other ≢ id →
            session_of self.new.sessions other ≡ session_of self.old.sessions other }
        ensures store { self.new.store ≡ self.old.store }
    {
        self.forget_answer(id);
        self.forget_publication(id);
        self.sessions.remove(&id).is_some()
    }

    /// Whether there is a session of this number, also a closed one.
    pub fn has_session(&self, id: u64) -> bool
        ensures { result ≡ is_some (session_of self.now.sessions id) }
    {
        self.sessions.contains_key(&id)
    }

    /// Whether there is a session of this number that is not closed.
    pub fn is_open(&self, id: u64) -> bool
        ensures { result ≡ is_open (session_of self.now.sessions id) }
    {
        match self.sessions.get(&id) {
            Some(session) => !session.is_closed(),
            None => false,
        }
    }

    /// How many bytes of an unfinished frame the session of this number keeps, and 0 if there is
    /// none.
    pub fn unfinished_len(&self, id: u64) -> usize
        ensures { result ≡ unfinished_in (session_of self.now.sessions id) }
    {
        match self.sessions.get(&id) {
            Some(session) => session.unfinished_len(),
            None => 0,
        }
    }

    /// Whether a piece of the stream of this number's session makes its next frame a publication
    /// that is made unless memory is refused: the session is open and the publisher's, the bytes
    /// that it keeps and then the piece begin with the frame Publish, there is something to
    /// publish, and a number is left for one more version. So `feed_frame` of the piece publishes
    /// nothing if this is false; `feed` may, by a later frame. Takes no memory.
    pub fn publishes_next(&self, id: u64, piece: &[u8]) -> bool
        ensures { IsTrue result ↔ PublishesNext self.now id piece.now }
    {
        match self.sessions.get(&id) {
            Some(session) => session.publishes_next(&self.store, piece),
            None => false,
        }
    }

    /// Whether a piece of the stream of this number's session may be fed now, as far as long
    /// answers are concerned. One that is made in steps is begun and made here, one step a call,
    /// and the feed that follows gives it.
    ///
    /// As long as this returns false the same piece is to come here again, after the other sessions
    /// have had their turns. A piece may not be fed
    ///
    /// - when its next frame is a query whose answer lacks a step, is not begun while those of
    ///   other sessions are not all given, or would be begun while a publication waits;
    /// - when its next frame publishes, and another session's answer is begun, which the
    ///   publication would give up.
    ///
    /// All other pieces may be fed. Queries of SimplePIR that could not be begun, three at most,
    /// are begun together with the next one that is, and their answers made with it: two in one
    /// pass over the digits. No query waits for others to come.
    ///
    /// Contracts see no more of this: fed at once each piece is answered the same, only that the
    /// whole answer is made in the feed.
    pub fn prepare(&mut self, id: u64, piece: &[u8]) -> bool
        ensures same { self.new ≡ self.old }
        ensures only { result ≡ false → MayWait self.old id piece.now }
    {
        self.forget_closed();
        match self.coming(id, piece) {
            Coming::Short => {
                self.forget_answer(id);
                self.forget_publication(id);
                true
            }
            Coming::LongAnswer(scheme) => {
                self.forget_publication(id);
                self.prepare_answer(id, piece, scheme)
            }
            Coming::Publication => {
                self.forget_answer(id);
                self.prepare_publication(id)
            }
        }
    }

    /// What feeding a piece would do first. Without a session nothing takes long.
    fn coming(&self, id: u64, piece: &[u8]) -> Coming
        ensures { IsComingIn result (session_of self.now.sessions id) piece.now self.now.store }
    {
        match self.sessions.get(&id) {
            Some(session) => session.coming(&self.store, piece),
            None => Coming::Short,
        }
    }

    /// Whether a session may publish now. If it may not it is remembered, so that no more answers
    /// are begun before.
    fn prepare_publication(&mut self, id: u64) -> bool
        ensures { self.new ≡ self.old }
    {
        if self.passes.is_busy() {
            self.publishing = Some(id);
            return false;
        }
        self.forget_publication(id);
        // Queries that wait are of the version that ends here.
        self.passes.forget_all();
        true
    }

    /// Makes a step of the answer to a session's next query and of those that are begun with it,
    /// and returns whether this query may be fed now.
    fn prepare_answer(&mut self, id: u64, piece: &[u8], scheme: Scheme) -> bool
        ensures { self.new ≡ self.old }
    {
        if self.passes.has_begun(id) {
            return self.make_step(id);
        }
        if self.passes.is_busy() || self.publishing.is_some() {
            self.put_off(id, piece, scheme);
            return false;
        }
        // Without memory to begin it the query is fed, and answered or refused at once.
        if !self.begin_answer(id, piece, scheme) {
            return true;
        }
        self.make_step(id)
    }

    /// Has a session's next query wait, if it is one of SimplePIR and there is room.
    fn put_off(&mut self, id: u64, piece: &[u8], scheme: Scheme)
        ensures { self.new ≡ self.old }
    {
        if scheme != Scheme::Simple || !self.passes.may_wait(id) {
            return;
        }
        if let Some(words) = self.next_words(id, piece, scheme) {
            self.passes.wait(id, words);
        }
    }

    /// The words of a session's next query, if it is one of a scheme, unless memory is refused.
    fn next_words(&self, id: u64, piece: &[u8], scheme: Scheme) -> Option<Vec<u32>>
        ensures { IfSome result (λ words. length words.items ≡
            query_count scheme (version_shape self.now.store.edition)) }
    {
        let Some(session) = self.sessions.get(&id) else {
            return None;
        };
        session.next_words(
            has_wide_frames(&self.store),
            piece,
            self.store.query_words(scheme),
        )
    }

    /// Begins the answer to a session's next query, and those to the queries that wait, and returns
    /// whether there was memory for the first.
    fn begin_answer(&mut self, id: u64, piece: &[u8], scheme: Scheme) -> bool
        ensures { self.new ≡ self.old }
    {
        let Some(words) = self.next_words(id, piece, scheme) else {
            return false;
        };
        if self.store.begin_answer(scheme, words).is_err() {
            return false;
        }
        self.passes.begin(id);
        self.passes.forget(id);
        if scheme == Scheme::Simple {
            self.begin_waiting();
        }
        true
    }

    /// Begins the answers to the queries that wait, of which there are three at most.
    fn begin_waiting(&mut self)
        ensures { self.new ≡ self.old }
    {
        self.begin_next();
        self.begin_next();
        self.begin_next();
    }

    /// Begins the answer to the query that has waited longest, if there is memory for it and the
    /// layout is still that of the query.
    fn begin_next(&mut self)
        ensures { self.new ≡ self.old }
    {
        let Some(WaitingQuery { id, words }) = self.passes.next() else {
            return;
        };
        if words.len() != self.store.query_words(Scheme::Simple) {
            return;
        }
        if self.store.add_answer(Scheme::Simple, words).is_ok() {
            self.passes.add(id);
        }
    }

    /// Makes a step of the answers that are begun, unless they are whole, and returns whether they
    /// are; then this session's is to be given.
    fn make_step(&mut self, id: u64) -> bool
        ensures { self.new ≡ self.old }
    {
        if !self.passes.is_whole() && self.store.step_answers() {
            self.passes.end();
        }
        if !self.passes.is_whole() {
            return false;
        }
        self.passes.remove(id);
        true
    }

    /// Gives up the answer of one session that is closed, if there is one; the next call takes the
    /// next one. Forgets a publication that waits, if its session is closed.
    fn forget_closed(&mut self)
        ensures { self.new ≡ self.old }
    {
        if let Some(id) = self.closed_one() {
            self.forget_answer(id);
        }
        if let Some(id) = self.publishing {
            if !self.is_open(id) {
                self.forget_publication(id);
            }
        }
    }

    /// A session whose answer is begun, and that is closed.
    fn closed_one(&self) -> Option<u64> {
        let begun = self.passes.begun();
        for k in 0..begun.len() {
            if let Some(id) = begun[k] {
                if !self.is_open(id) {
                    return Some(id);
                }
            }
        }
        None
    }

    /// Gives up the answer of a session that is begun, and its query that waits.
    fn forget_answer(&mut self, id: u64)
        ensures { self.new ≡ self.old }
    {
        self.passes.forget(id);
        if !self.passes.has_begun(id) {
            return;
        }
        self.passes.remove(id);
        if !self.passes.is_busy() {
            self.store.drop_answers();
        }
    }

    /// Waits no more for a publication, if it is this session's.
    fn forget_publication(&mut self, id: u64)
        ensures { self.new ≡ self.old }
    {
        if self.publishing == Some(id) {
            self.publishing = None;
        }
    }

    /// The store.
    pub fn store(&self) -> &Store<K>
        ensures { result.now ≡ self.now.store }
    {
        &self.store
    }

    /// Replaces record i of the draft, as [`Store::edit`] does. No session changes.
    ///
    /// # Errors
    ///
    /// Those of [`Store::edit`]: nothing changes then.
    pub fn edit(&mut self, i: usize, bytes: &[u8]) -> Result<(), EditError>
        ensures accepted { OnOk result (self.new.store ≡ record self.old.store {
          draft = slice_set self.old.store.draft i bytes.now;
          marked = true;
        }) }
        ensures history { OnOk result ((h : History) → StandsFor self.old.store h →
            StandsFor self.new.store (after_edit i bytes.now h)) }
        ensures bad_index { IsErrOf result EditError.BadIndex ↔ (length self.old.store.draft ≤ i) }
        ensures bad_length { IsErrOf result EditError.BadLength ↔
            (i < length self.old.store.draft) ×
            (fits self.old.store.edition.plan bytes.now ≡ false) }
        ensures refused { OnErr result (self.new.store ≡ self.old.store) }
        ensures sessions { self.new.sessions ≡ self.old.sessions }
    {
        self.store.edit(i, bytes)
    }

    /// Puts a record after those of the draft, as [`Store::append`] does. No session changes.
    ///
    /// # Errors
    ///
    /// Those of [`Store::append`]: nothing changes then.
    pub fn append(&mut self, bytes: &[u8]) -> Result<(), AppendError>
        ensures accepted { OnOk result
            (self.new.store ≡ held_appended bytes.now self.old.store) }
        ensures history { OnOk result ((h : History) → StandsFor self.old.store h →
            StandsFor self.new.store (after_append bytes.now h)) }
        ensures bad_length { IsErrOf result AppendError.BadLength ↔
            (fits self.old.store.edition.plan bytes.now ≡ false) }
        ensures full { IsErrOf result AppendError.Full ↔
            (fits self.old.store.edition.plan bytes.now ≡ true)
            × (is_layout (shape_at self.old.store.edition.plan
            (length self.old.store.draft + 1)) ≡ false) }
        ensures refused { OnErr result (self.new.store ≡ self.old.store) }
        ensures sessions { self.new.sessions ≡ self.old.sessions }
    {
        self.store.append(bytes)
    }

    /// Drops the draft, as [`Store::drop_draft`] does. No session changes.
    pub fn drop_draft(&mut self)
        ensures dropped { self.new.store ≡ without_draft self.old.store }
        ensures history { (h : History) → StandsFor self.old.store h →
            StandsFor self.new.store (undrafted h) }
        ensures sessions { self.new.sessions ≡ self.old.sessions }
    {
        self.store.drop_draft();
    }

    /// Makes the draft the current version and returns its number, as [`Store::publish`] does. No
    /// session changes.
    ///
    /// # Errors
    ///
    /// Those of [`Store::publish`]: nothing changes then.
    pub fn publish(&mut self) -> Result<u64, PublishError>
        ensures version { IfOk result (λ v. (v ≡ self.old.store.version + 1) × (v < 2 ^ 64)) }
        ensures done { OnOk result (self.new.store ≡ held_published self.old.store) }
        ensures history { OnOk result ((h : History) → StandsFor self.old.store h →
            StandsFor self.new.store (published h)) }
        ensures nothing { IsErrOf result PublishError.NothingToPublish ↔ (self.old.store.marked ≡
            false) }
        ensures used_up { IsErrOf result PublishError.VersionsUsedUp ↔ (self.old.store.marked ≡
            true) × (self.old.store.version + 1 ≡ 2 ^ 64) }
        ensures refused { OnErr result (self.new.store ≡ self.old.store) }
        ensures sessions { self.new.sessions ≡ self.old.sessions }
    {
        self.store.publish()
    }

    /// Takes the next piece of a session's stream, and adds to `out` the replies to the frames that
    /// are whole now, each served against the version that is current then. A closed session takes
    /// bytes and replies nothing. No other session changes.
    ///
    /// # Errors
    ///
    /// `NoSession` exactly when there is no session of this number: nothing changes. At `Memory`
    /// the session is closed and `out` has gained the whole replies to the frames before the one at
    /// hand, which isn't served: there was no room in `out` for a reply, or the reading was refused
    /// memory after just these frames.
    pub fn feed(&mut self, id: u64, piece: &[u8], out: &mut Vec<u8>) -> Result<(), FeedError>
        ensures fed { (h : History) → StandsFor self.old.store h → (old : sessions.Session) →
            session_of self.old.sessions id ≡ Some old →
            (new : sessions.Session) × (session_of self.new.sessions id ≡ Some new)
            × FeedsCore (setting_of self.old.store) h old piece.now result self.new.store new
            out.old.items out.new.items }
        ensures no_session { IsErrOf result FeedError.NoSession ↔
            (session_of self.old.sessions id ≡ None) }
        ensures full { OnMemory result ((h : History) → StandsFor self.old.store h →
            (old : sessions.Session) → session_of self.old.sessions id ≡ Some old →
            (new : sessions.Session) × (session_of self.new.sessions id ≡ Some new)
            × (IsFull out.new ⊎ sessions.IsUnread (setting_of self.old.store) h old piece.now
            self.new.store new out.old.items out.new.items)) }
        ensures unchanged { OnNoSession result ((self.new ≡ self.old) ×
            (out.new.items ≡ out.old.items)) }
        ensures others { (other : ℕ) → other ≢ id →
            session_of self.new.sessions other ≡ session_of self.old.sessions other }
    {
        let Some(session) = self.sessions.get_mut(&id) else {
            return Err(FeedError::NoSession);
        };
        if session
            .feed(self.alloc, &mut self.store, piece, out)
            .is_err()
        {
            return Err(FeedError::Memory);
        }
        Ok(())
    }

    /// Takes the next piece of a session's stream up to the end of the first frame that is whole
    /// then, adds to `out` the reply to it, and returns how many bytes it took: what
    /// [`ServerCore::feed`] of just these bytes does. If no frame is whole it takes all, also if a
    /// fault stands in the frame's place. A closed session takes all and replies nothing. No other
    /// session changes.
    ///
    /// # Errors
    ///
    /// `NoSession` exactly when there is no session of this number: nothing changes. At `Memory`
    /// the session is closed, and nothing was served.
    pub fn feed_frame(
        &mut self,
        id: u64,
        piece: &[u8],
        out: &mut Vec<u8>,
    ) -> Result<usize, FeedError>
        ensures fed { (h : History) → StandsFor self.old.store h → (old : sessions.Session) →
            session_of self.old.sessions id ≡ Some old →
            (new : sessions.Session) × (session_of self.new.sessions id ≡ Some new)
            × FeedsCoreFirst (setting_of self.old.store) h old piece.now result self.new.store new
            out.old.items out.new.items }
        ensures within { IfOk result (λ count. count ≤ length piece.now) }
        ensures some { IfOk result (λ count. 0 < length piece.now → 0 < count) }
        ensures refused { OnErr result ((self.new.store ≡ self.old.store) ×
            (out.new.items ≡ out.old.items)) }
        ensures no_session { IsErrOf result FeedError.NoSession ↔
            (session_of self.old.sessions id ≡ None) }
        ensures full { IsErrOf result FeedError.Memory → IsFull out.new ⊎ IsFirstUnreadBy
            (setting_of self.old.store) (session_of self.old.sessions id) piece.now
            (session_of self.new.sessions id) }
        ensures unchanged { OnNoSession result ((self.new ≡ self.old) ×
            (out.new.items ≡ out.old.items)) }
        ensures version { PublishesIf (PublishesNext self.old id piece.now) self.old.store.version
            self.new.store.version }
        ensures others { (other : ℕ) → other ≢ id →
            session_of self.new.sessions other ≡ session_of self.old.sessions other }
    {
        let Some(found) = self.sessions.get_mut(&id) else {
            return Err(FeedError::NoSession);
        };
        match found.feed_frame(self.alloc, &mut self.store, piece, out) {
            Ok(count) => Ok(count),
            Err(_) => return Err(FeedError::Memory),
        }
    }
}
