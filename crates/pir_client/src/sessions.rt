//! A client with a folder of hints, over one connection.
//!
//! Which frames are sent depends on the head of the hint kept and the changes beside it, on the
//! scheme and on what the server says, and not on the records: if the parts with a record's rows
//! are damaged, its query and all later ones are sent all the same.

ghost use Rattle.client_commands.specs.Transcripts.{IsRecordAsked};

use crate::choosing::SchemeChoice;
use crate::delta_only::{DeltaOnly, DeltaReader, DeltaWriter};
use crate::failures::failure_of;
use crate::fetching::fetch;
use crate::kept_hints::{Moved, MovedHint};
use crate::older::older_than;
use crate::server::{Address, Server};
use crate::warnings::Warnings;
use client_commands::{
    CommandError, Retrieved, ask, ask_with_rows, check_dimension, greet_either, sync,
};
use client_state::Folder;
use command_words::{Failed, Failure};
use hint_file::{HintError, KeptHint};
use session_core::{CallFault, ClientCore, Event, Hint, Lanes, SavedClient, Scheme, ServerInfo};
use std::alloc::AllocError;

/// How often an answer may be stale before a retrieval is given up.
const STALE_ANSWERS: u32 = 3;

/// Why a record was not retrieved.
#[derive(Clone, Copy, Debug, PartialEq, Eq)]
pub enum RetrieveError {
    /// A call failed.
    Command(CommandError),
    /// The hint kept is damaged at the record's rows. The record was asked for all the same, but
    /// its answer can't be read.
    DamagedHint,
}

impl From<CommandError> for RetrieveError {
    fn from(fault: CommandError) -> Self {
        RetrieveError::Command(fault)
    }
}

// The rows of one record.
#[derive(Drop)]
struct RecordRows {
    saved: SavedClient,
    // Whether the rows are those that were kept; else they are zeros.
    are_sound: bool,
}

/// A client with a folder, and its connection.
#[derive(Drop)]
pub struct FolderSession<'a> {
    rt: &'a HostRuntime,
    folder: Folder<'a>,
    client: ClientCore<Lanes>,
    server: Server,
    scheme: Scheme,
    // The hint kept, which the client doesn't hold: of SimplePIR's the rows of a record are read
    // when it is asked for.
    kept: Option<MovedHint<'a>>,
    warnings: Warnings,
    // Whether it is said how much of a hint has come.
    says: bool,
}

impl<'a> FolderSession<'a> {
    /// Connects, asks to be let in, and judges the length of the server's secrets. Of the hint kept
    /// for this store the head is read. The seed is one that no other run has.
    pub fn begin(
        rt: &'a HostRuntime,
        folder: Folder<'a>,
        address: &Address<'_>,
        seed: [u8; 32],
        least: usize,
        choice: SchemeChoice,
    ) -> Result<FolderSession<'a>, Failed> {
        let server = Server::connect(rt, address)?;
        let client = match let_in(rt, &server, seed, least) {
            Ok(client) => client,
            Err(fault) => return Err(server.failed(address, failure_of(fault))),
        };
        let scheme = match scheme_for(&folder, &client, choice) {
            Ok(scheme) => scheme,
            Err(fault) => {
                // A call keeps the prover from taking apart here all that a client owns.
                drop(client);
                return Err(Failed::from(fault));
            }
        };
        let mut session = FolderSession {
            rt,
            folder,
            client,
            server,
            scheme,
            kept: None,
            warnings: Warnings::default(),
            says: false,
        };
        match session.look_up() {
            Ok(()) => Ok(session),
            Err(fault) => {
                drop(session);
                Err(Failed::from(fault))
            }
        }
    }

    /// From now on it is said how much of a hint has come.
    pub fn say_progress(&mut self) {
        self.says = true;
    }

    /// How a command of this session failed.
    pub fn failed(&self, address: &Address<'_>, failure: Failure) -> Failed {
        self.server.failed(address, failure)
    }

    /// What is to be said beside the records.
    pub fn warnings(&self) -> Warnings {
        self.warnings
    }

    // Opens the hint that is kept for the store, and notes whether its server had reported a later
    // version.
    fn look_up(&mut self) -> Result<(), AllocError> {
        let Some(now) = self.client.known() else {
            return Ok(());
        };
        let kept = self.kept_hint(self.scheme, &now)?;
        self.have_kept(kept);
        let other = match self.scheme {
            Scheme::Simple => Scheme::Double,
            Scheme::Double => Scheme::Simple,
        };
        let beside = self.kept_hint(other, &now)?;
        let seen = version_seen(&self.kept).max(version_seen(&beside));
        self.warnings.older = older_than(seen, now.version);
        Ok(())
    }

    // From now on this is the hint kept.
    fn have_kept(&mut self, kept: Option<MovedHint<'a>>) {
        self.kept = kept;
    }

    // The hint kept of a scheme for the store. One that is damaged, or can't be read, is none.
    fn kept_hint(
        &mut self,
        scheme: Scheme,
        now: &ServerInfo,
    ) -> Result<Option<MovedHint<'a>>, AllocError> {
        match MovedHint::of(self.rt, &self.folder, scheme, &now.plan) {
            Ok(kept) => Ok(kept),
            Err(HintError::Memory) => Err(AllocError),
            Err(HintError::Damaged | HintError::Read) => {
                self.warnings.is_damaged = true;
                Ok(None)
            }
        }
    }

    /// Prepares so many retrievals at once, if they are more than one. Their records have no part
    /// in it. If memory for it is refused, each is made by itself.
    pub fn prepare(&mut self, count: usize) {
        if count > 1 {
            let _ = self.client.prepare_queries(count);
        }
    }

    /// Retrieves a record: again under a new number, with the hint of the next version, if the
    /// answer is stale.
    pub fn retrieve(&mut self, index: u32) -> Result<Retrieved, RetrieveError> {
        for _ in 0..STALE_ANSWERS {
            match self.attempt(index) {
                Err(RetrieveError::Command(CommandError::Stale(_))) => {}
                ended => return ended,
            }
        }
        self.attempt(index)
    }

    /// Drops the hint kept. The file that is open stays as it was until the session ends.
    pub fn discard(&self) {
        if let Some(now) = self.client.known() {
            // One that stays is found damaged again.
            let _ = self.folder.discard(self.scheme, &now.plan);
        }
    }

    // Asks for a record: over its rows of the hint kept, or once the hint of the version known is
    // held.
    fn attempt(&mut self, index: u32) -> Result<Retrieved, RetrieveError> {
        self.move_kept()?;
        if let Some(rows) = self.rows_kept(index)? {
            if let Some(record) = self.ask_over(rows, index)? {
                return Ok(record);
            }
        }
        self.hold_hint()?;
        match ask(
            self.rt.alloc(),
            &mut self.client,
            &mut &self.server,
            &mut &self.server,
            index,
        ) {
            Ok(event) => Ok(retrieved(index, event)),
            Err(fault) => Err(RetrieveError::Command(fault)),
        }
    }

    // Moves the hint kept to the version known, if the server says which records have changed. One
    // that it can't move is of no further use.
    fn move_kept(&mut self) -> Result<(), CommandError> {
        let (Some(kept), Some(now)) = (&mut self.kept, self.client.known()) else {
            return Ok(());
        };
        match kept.move_on(&self.folder, &self.server, &now)? {
            Moved::On => {}
            Moved::NotKept => self.warnings.is_not_kept = true,
            Moved::Full => self.fold()?,
            Moved::Nowhere => self.have_kept(None),
        }
        Ok(())
    }

    // Writes the hint kept anew, as its changes have moved it. One that is damaged is of no further
    // use.
    fn fold(&mut self) -> Result<(), CommandError> {
        let Some(kept) = &self.kept else {
            return Ok(());
        };
        match kept.whole() {
            Ok(whole) => {
                if self.folder.keep(&whole.known, &whole.hint).is_err() {
                    self.warnings.is_not_kept = true;
                }
                Ok(())
            }
            Err(HintError::Memory) => Err(CommandError::Call(CallFault::Memory)),
            Err(HintError::Damaged | HintError::Read) => {
                self.warnings.is_damaged = true;
                self.have_kept(None);
                Ok(())
            }
        }
    }

    // The rows of a record in the hint kept, if that is one of SimplePIR and of the version known.
    // Damaged rows are zeros.
    fn rows_kept(&self, index: u32) -> Result<Option<RecordRows>, CommandError> {
        let (Some(kept), Some(now)) = (&self.kept, self.client.known()) else {
            return Ok(None);
        };
        let Some(span) = kept.parts_for(&now, index) else {
            return Ok(None);
        };
        let known = kept.fields().known;
        match kept.rows(&now, span, index) {
            Ok(hint) => Ok(Some(rows_of(&self.client, known, hint, true))),
            Err(HintError::Memory) => Err(CommandError::Call(CallFault::Memory)),
            Err(HintError::Damaged | HintError::Read) => match kept.zeros(&now) {
                Ok(zeros) => Ok(Some(rows_of(&self.client, known, zeros, false))),
                Err(_) => Err(CommandError::Call(CallFault::Memory)),
            },
        }
    }

    // Asks for a record over its rows, which the client doesn't hold any more then. None if the
    // hint is of another store: then nothing was asked, and the hint is of no further use.
    fn ask_over(
        &mut self,
        rows: RecordRows,
        index: u32,
    ) -> Result<Option<Retrieved>, RetrieveError> {
        let RecordRows { saved, are_sound } = rows;
        let asked = ask_with_rows(
            self.rt.alloc(),
            &mut self.client,
            &mut &self.server,
            &mut &self.server,
            saved,
            index,
        );
        match asked {
            Ok(None) => {
                self.warnings.is_of_another_store = true;
                self.have_kept(None);
                Ok(None)
            }
            Ok(Some(_)) | Err(CommandError::Unreadable { .. }) if !are_sound => {
                Err(RetrieveError::DamagedHint)
            }
            Ok(Some(event)) => Ok(Some(retrieved(index, event))),
            Err(fault) => Err(RetrieveError::Command(fault)),
        }
    }

    // Sees to it that the client holds the hint of the version known: the one kept, read as a
    // whole, or as a sync has moved or brought it.
    fn hold_hint(&mut self) -> Result<(), CommandError> {
        if let Some(kept) = self.kept.take() {
            self.take_up(kept.whole())?;
        }
        match (self.client.known(), self.client.hint()) {
            (Some(known), Some(hint))
                if hint.scheme == self.scheme && hint.version == known.version => { Ok(()) }
            _ => self.move_hint(),
        }
    }

    // Takes up the hint kept, which was read as a whole.
    fn take_up(&mut self, kept: Result<KeptHint, HintError>) -> Result<(), CommandError> {
        match kept {
            Ok(whole) => {
                let saved = saved(&self.client, whole.known, whole.hint);
                let is_held = self.client.resume(saved).map_err(CommandError::Call)?;
                if !is_held && self.warnings.older.is_none() {
                    self.warnings.is_of_another_store = true;
                }
                Ok(())
            }
            Err(HintError::Memory) => Err(CommandError::Call(CallFault::Memory)),
            Err(HintError::Damaged | HintError::Read) => {
                self.warnings.is_damaged = true;
                Ok(())
            }
        }
    }

    // Moves the hint to the version known, and keeps it: by delta, or part by part through the
    // folder, or else without it.
    fn move_hint(&mut self) -> Result<(), CommandError> {
        if self.move_by_delta()? || self.fetch_parts()? {
            return Ok(());
        }
        sync(
            self.rt.alloc(),
            &mut self.client,
            &mut &self.server,
            &mut &self.server,
            self.scheme,
        )?;
        self.keep();
        Ok(())
    }

    // Moves the hint by delta, if one of SimplePIR is held and the server has a delta. Else the
    // client holds no hint then.
    fn move_by_delta(&mut self) -> Result<bool, CommandError> {
        match self.client.hint() {
            Some(hint) if hint.scheme == Scheme::Simple && self.scheme == Scheme::Simple => {}
            _ => return Ok(false),
        }
        let only = DeltaOnly::new();
        let moved = sync(
            self.rt.alloc(),
            &mut self.client,
            &mut DeltaReader::new(&self.server, &only),
            &mut DeltaWriter::new(&self.server, &only),
            self.scheme,
        );
        if only.has_refused() {
            return Ok(false);
        }
        moved?;
        self.keep();
        Ok(true)
    }

    // Fetches the hint through the folder, and takes it up. Returns whether that could be done.
    fn fetch_parts(&mut self) -> Result<bool, CommandError> {
        let Some(known) = self.client.known() else {
            return Ok(false);
        };
        let fetched = fetch(
            self.rt,
            &self.server,
            &self.folder,
            &known,
            self.scheme,
            self.says,
        )?;
        let Some(fetched) = fetched else {
            return Ok(false);
        };
        if !fetched.could_keep {
            self.warnings.is_not_kept = true;
        }
        self.take_up(fetched.file.whole())?;
        let Some(hint) = self.client.hint() else {
            return Ok(false);
        };
        Ok(hint.scheme == self.scheme && hint.version == known.version)
    }

    // Keeps the hint held.
    fn keep(&mut self) {
        if let (Some(known), Some(hint)) = (self.client.known(), self.client.hint()) {
            if self.folder.keep(&known, hint).is_err() {
                self.warnings.is_not_kept = true;
            }
        }
    }
}

// A client that the server has let in, if its secrets have no fewer words than the least.
fn let_in(
    rt: &HostRuntime,
    server: &Server,
    seed: [u8; 32],
    least: usize,
) -> Result<ClientCore<Lanes>, CommandError> {
    let mut client = ClientCore::new(rt.alloc(), Lanes, seed, 0);
    match greet(rt, server, &mut client, least) {
        Ok(()) => Ok(client),
        Err(fault) => {
            drop(client);
            Err(fault)
        }
    }
}

// Has the server let a client in, and judges the length of its secrets.
fn greet(
    rt: &HostRuntime,
    server: &Server,
    client: &mut ClientCore<Lanes>,
    least: usize,
) -> Result<(), CommandError> {
    greet_either(rt.alloc(), client, &mut &*server, &mut &*server)?;
    check_dimension(client, least)?;
    Ok(())
}

// The scheme for a client that was let in.
fn scheme_for(
    folder: &Folder<'_>,
    client: &ClientCore<Lanes>,
    choice: SchemeChoice,
) -> Result<Scheme, AllocError> {
    match client.known() {
        Some(now) => choice.scheme(folder, &now),
        None => Ok(Scheme::Simple),
    }
}

// The version that a server had reported last beside a hint kept; 0 if there is none.
fn version_seen(kept: &Option<MovedHint<'_>>) -> u64 {
    match kept {
        Some(kept) => kept.fields().known.version,
        None => 0,
    }
}

// The record that came of an ask for it.
fn retrieved(index: u32, event: Event) -> Retrieved
    requires { IsRecordAsked index event }
{
    match event {
        Event::Retrieved { version, bytes, .. } => Retrieved {
            index,
            version,
            bytes,
        },
        _ => unreachable!(),
    }
}

// The rows of a record, as a client takes them up.
fn rows_of(
    client: &ClientCore<Lanes>,
    known: ServerInfo,
    hint: Hint,
    are_sound: bool,
) -> RecordRows {
    RecordRows {
        saved: saved(client, known, hint),
        are_sound,
    }
}

// What is saved of a client, with a hint that was kept.
fn saved(client: &ClientCore<Lanes>, known: ServerInfo, hint: Hint) -> SavedClient {
    SavedClient {
        number: client.next_number(),
        known: Some(known),
        hint: Some(hint),
    }
}
