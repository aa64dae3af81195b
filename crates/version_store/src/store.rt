//! The store: the current version, a draft, and their publication.

ghost use Rattle.std.specs.Prelude.{All, ℕ, List, [], ◌≡◌, ◌≢◌, ◌+◌, ◌*◌, ◌/◌, ◌^◌, ◌<◌, ◌≤◌, ◌↔◌};
ghost use Rattle.std.specs.Prelude.{length};
ghost use Rattle.std.specs.Prelude.{true, false, OnOk, OnErr, IfErr, IfOk, IfSome, IfNone, IsNone};
ghost use Rattle.std.specs.Prelude.{IsSome, option_map, take, slice_set, IsErrOf, IsTrue};
ghost use Rattle.matrix_u32.specs.Matrix.{row};
ghost use Rattle.digit_pack.specs.Layout.{is_wide, digit_rows, is_layout};
ghost use Rattle.digit_pack.specs.Layout.{record_at, records_in};
ghost use Rattle.digit_pack.specs.Packed.{packed};
ghost use Rattle.pir_schemes.specs.Plans.{IsPlan, fits, records_held, shape_at, slots, digits_at};
ghost use Rattle.digit_pack.specs.Slots.{is_form};
ghost use Rattle.pir_schemes.specs.Parts.{part_of};
ghost use Rattle.pir_schemes.specs.Retrievals.{hint_matrix, server_hint, query_count, answer_words};
ghost use Rattle.hint_update.specs.Logs.{ReachesBack, lists_since, AreRowsOf};
ghost use Rattle.version_store.specs.Editions.{version_shape};
ghost use Rattle.snapshot_file.specs.Snapshots.{header_of, shape_of, snapshot_bytes};
ghost use Rattle.version_store.specs.HeldRecords.{bytes_held_by};
ghost use Rattle.version_store.specs.Openings.{IsSound, IsOpenFault, IsRead, held_of, plan_held};
ghost use Rattle.version_store.specs.Openings.{records_for, header_of_held, bytes_of_records};
ghost use Rattle.version_store.specs.Openings.{snapshot_of};
ghost use Rattle.version_store.specs.HeldFor.{IsHeldFor};
ghost use Rattle.version_store.specs.Buffers.{scheme_answered, IsAnswerBuffers};
ghost use Rattle.std.specs.Io.KnownBytes.{Appends, Consumes, IsAtEnd};
ghost use Rattle.snapshot_file.specs.declared.snapshot.Header.{Header};
ghost use Rattle.snapshot_file.specs.Verdicts.{MayRefuse, StopsReadingAt};
ghost use Rattle.version_store.specs.Histories.{StoreState, History, StandsFor, opened, after_edit};
ghost use Rattle.version_store.specs.Histories.{after_append, undrafted, held_edited};
ghost use Rattle.version_store.specs.Histories.{held_appended, without_draft};
ghost use Rattle.version_store.specs.Histories.{delta_rows, kept_log, changes_since, reaches_olds};
ghost use Rattle.version_store.specs.DraftChanges.{IsNextChange, HasNoChange};
ghost use Rattle.version_store.specs.Names.{append_fault_name, edit_fault_name, publish_fault_name};

mod answers;
mod publishing;

use crate::answer_buffers::AnswerBuffers;
use crate::drafts::{Changes, first_change};
use crate::edition::Edition;
use crate::held_records::HeldRecords;
use crate::old_bytes::olds_log;
use crate::opening::{OpenError, plan_of, sizes_of};
use crate::unopened::Opening;
use digit_pack::{Layout, is_wide};
use hint_update::DeltaLog;
use matrix_u32::Kernel;
use pir_schemes::{Plan, Scheme, part_words};
use record_log::RecordLog;
use simple_scheme::{HintWatcher, Unwatched};
use snapshot_file::{
    Header, Snapshot, SnapshotFault, WriteFault, write_snapshot_bytes, write_snapshot_from,
};
use std::alloc::{AllocError, Global};
use std::collections::BTreeMap;
use std::io::{Read, Write};
use std::marker::Model;
use thiserror::Error;

/// Why an edit is refused: the first cause in the order of the variants.
#[derive(Clone, Copy, Debug, PartialEq, Eq, Error)]
pub enum EditError {
    /// There is no such record.
    #[error("there is no such record")]
    BadIndex,
    /// The bytes are not as many as a record has, or in the forms 2 and 130 more than its slot has
    /// room for.
    #[error("a record can't have this number of bytes")]
    BadLength,
    /// Out of memory for the change.
    #[error("out of memory")]
    Memory,
}

impl EditError {
    /// Its name, as programs print it.
    #[tactic(auto, unfolding(crate::specs::Names::edit_fault_name))]
    pub fn name(self) -> &'static str
        ensures { result.now ≡ edit_fault_name self }
    {
        match self {
            EditError::BadIndex => "BadIndex",
            EditError::BadLength => "BadLength",
            EditError::Memory => "Memory",
        }
    }
}

/// Why an append is refused: the first cause in the order of the variants.
#[derive(Clone, Copy, Debug, PartialEq, Eq, Error)]
pub enum AppendError {
    /// The bytes are not as many as a record has, or in the forms 2 and 130 more than its slot has
    /// room for.
    #[error("a record can't have this number of bytes")]
    BadLength,
    /// The draft has as many records as its layout allows.
    #[error("there is no room for a further record")]
    Full,
    /// Out of memory for the change.
    #[error("out of memory")]
    Memory,
}

impl AppendError {
    /// Its name, as programs print it.
    #[tactic(auto, unfolding(crate::specs::Names::append_fault_name))]
    pub fn name(self) -> &'static str
        ensures { result.now ≡ append_fault_name self }
    {
        match self {
            AppendError::BadLength => "BadLength",
            AppendError::Full => "Full",
            AppendError::Memory => "Memory",
        }
    }
}

/// Why a publication is refused: the first cause in the order of the variants.
#[derive(Clone, Copy, Debug, PartialEq, Eq, Error)]
pub enum PublishError {
    /// No edit and no append was accepted since the last publication.
    #[error("nothing was edited or appended since the last publication")]
    NothingToPublish,
    /// The current version is 2^64 - 1, the last that there is.
    #[error("there is no further version number")]
    VersionsUsedUp,
    /// Out of memory for the publication.
    #[error("out of memory")]
    Memory,
}

impl PublishError {
    /// Its name, as programs print it.
    #[tactic(auto, unfolding(crate::specs::Names::publish_fault_name))]
    pub fn name(self) -> &'static str
        ensures { result.now ≡ publish_fault_name self }
    {
        match self {
            PublishError::NothingToPublish => "NothingToPublish",
            PublishError::VersionsUsedUp => "VersionsUsedUp",
            PublishError::Memory => "Memory",
        }
    }
}

impl From<AllocError> for EditError {
    ghost use Rattle.version_store.specs.declared.store.EditError.TheVariants.{Memory};

    ghost from_gives = { λ _ fault. fault ≡ Memory };

    fn from(_refused: AllocError) -> Self {
        EditError::Memory
    }
}

impl From<AllocError> for AppendError {
    ghost use Rattle.version_store.specs.declared.store.AppendError.TheVariants.{Memory};

    ghost from_gives = { λ _ fault. fault ≡ Memory };

    fn from(_refused: AllocError) -> Self {
        AppendError::Memory
    }
}

impl From<AllocError> for PublishError {
    ghost use Rattle.version_store.specs.declared.store.PublishError.TheVariants.{Memory};

    ghost from_gives = { λ _ fault. fault ≡ Memory };

    fn from(_refused: AllocError) -> Self {
        PublishError::Memory
    }
}

/// The current version of the records, its hints, the draft of the next, and a log of changed rows;
/// for a wide store also the old bytes of the records that the newest publications changed.
///
/// The draft is kept as its changes alone, with the count of its records: those appended are
/// changes of blanks after the records of the version. Contracts see a store as what it holds,
/// `StoreState`, and say what a call does to every history that the store represents.
#[derive(Drop)]
pub struct Store<K: Kernel> {
    alloc: Global,
    edition: Edition<K>,
    count: usize,
    changes: Changes,
    log: DeltaLog,
    olds: RecordLog,
    publisher: [u8; 32],
}

impl<K: Kernel> Model for Store<K> {
    ghost use Rattle.version_store.specs.Histories.{StoreState};
    ghost use Rattle.version_store.specs.Drafts.{draft_of, is_some_change, grown_to, IsHeld};
    ghost use Rattle.version_store.specs.OldRecords.{IsOldsLog};

    ghost Value = { StoreState };

    ghost view = { λ s. record {
      version = s.log.version;
      edition = s.edition;
      draft = draft_of (grown_to s.count s.edition).records s.changes.entries;
      marked = is_some_change s.changes.entries;
      publisher = s.publisher;
      log = s.log.lists;
      olds = s.olds.lists;
    } };

    ghost invariant = { λ s. IsHeld s.edition s.count s.changes.entries s.log.lists
        × IsOldsLog s.edition s.olds };
}

impl<K: Kernel> Store<K> {
    /// The store of a snapshot's records, with an empty draft. The store keeps the allocator.
    ///
    /// # Errors
    ///
    /// `BadLayout` exactly when there is no such form, or it is 2 or 130 for records of one byte,
    /// the layout is refused or the dimension is not in 1 to 1024; else `BadVersion` exactly when
    /// the version is 0; else `BadRecords` exactly when the bytes are not as many as the records
    /// have, or in the forms 2 and 130 those of a record are no slot; else the store is opened, or
    /// `Memory`.
    pub fn open(alloc: Global, kernel: K, snapshot: Snapshot) -> Result<Store<K>, OpenError>
        ensures held { IfOk result (λ s. s ≡ held_of (header_of snapshot) snapshot.records.items) }
        ensures history { IfOk result
            (λ s. StandsFor s
            (opened snapshot.version
            (records_held (plan_held (header_of snapshot)) snapshot.count
            snapshot.records.items))) }
        ensures sound { OnOk result (IsSound (header_of snapshot) snapshot.records.items) }
        ensures refused { IfErr result (IsOpenFault (header_of snapshot) snapshot.records.items) }
    {
        let layout = sizes_of(&snapshot)?;
        let header = snapshot.header();
        let form = u16::from(header.form);
        let held = HeldRecords::from_bytes(alloc, form, layout, snapshot.records)?;
        Ok(Store::hold(alloc, kernel, &header, held, &mut Unwatched)?)
    }

    /// The store of the records that are held for the fields of a snapshot; its hints are watched
    /// while their rows are made. Only refused memory gives an `Err`.
    pub(crate) fn hold<W: HintWatcher>(
        alloc: Global,
        kernel: K,
        header: &Header,
        held: HeldRecords,
        watcher: &mut W,
    ) -> Result<Store<K>, AllocError>
        requires { IsHeldFor header.now held }
        ensures held { IfOk result (λ s. s ≡ held_of header.now (bytes_held_by held)) }
        ensures history { IfOk result (λ s. StandsFor s
            (opened header.now.version (records_for header.now (bytes_held_by held)))) }
    {
        let plan = plan_of(header);
        // The sizes are within the limits: this can't fail.
        let layout = header.layout().unwrap();
        let edition = Edition::open(alloc, kernel, plan, layout, held, watcher)?;
        Store::of(alloc, edition, header.version, header.publisher)
    }

    // The store of an edition, with an empty draft, that has published nothing yet. Only refused
    // memory gives an `Err`.
    fn of(
        alloc: Global,
        edition: Edition<K>,
        version: u64,
        publisher: [u8; 32],
    ) -> Result<Store<K>, AllocError>
        ensures { IfOk result (λ s. s ≡ record {
          version = version;
          edition = edition;
          draft = edition.records;
          marked = false;
          publisher = publisher;
          log = [];
          olds = [];
        }) }
    {
        let dimension = edition.plan().dimension;
        let layout = edition.layout();
        let count = layout.count();
        let (log, olds) = empty_logs(alloc, layout, dimension, version)?;
        Ok(Store {
            alloc,
            edition,
            count,
            changes: Changes::new(alloc),
            log,
            olds,
            publisher,
        })
    }

    /// The store of the snapshot that a reader has, which must be the whole input, and the
    /// snapshot's digest, by which a log of publications names it.
    ///
    /// # Errors
    ///
    /// Those of `read_snapshot`, each with the byte that makes it; else `Memory` alone.
    pub fn open_from<R: Read>(
        alloc: Global,
        kernel: K,
        reader: &mut R,
    ) -> Result<(Store<K>, [u8; 32]), SnapshotFault>
        ensures read { IfOk result (λ s. (h : Header) × (records : List ℕ)
            × IsRead h records s.0 s.1
            × Consumes (R.remaining reader.old) (R.remaining reader.new) (snapshot_bytes h records)
            × IsAtEnd (R.remaining reader.new)) }
        ensures history { IfOk result
            (λ s. StandsFor s.0 (opened s.0.version s.0.edition.records)) }
        ensures refused { IfErr result (λ fault. IfSome (R.remaining reader.old)
            (λ bytes. MayRefuse fault bytes)) }
        ensures stops { IfErr result (λ fault. (read : List ℕ) ×
            Consumes (R.remaining reader.old) (R.remaining reader.new) read
            × StopsReadingAt fault read (R.remaining reader.new)) }
    {
        let (opening, digest) = Opening::read(alloc, reader)?;
        let store = opening.open(alloc, kernel)?;
        Ok((store, digest))
    }

    /// The fields of a snapshot of the current version, but its records.
    pub fn header(&self) -> Header
        ensures { result ≡ header_of_held self.now }
    {
        let plan = self.edition.plan();
        Header {
            form: self.form(),
            width: plan.width,
            record_len: plan.record_len,
            groups: plan.groups,
            count: self.edition.layout().count() as u32,
            dimension: plan.dimension,
            version: self.version(),
            seed: plan.seed,
            publisher: self.publisher,
        }
    }

    /// The bytes that all records of an ordinary store's current version have in the digits: in
    /// form 2 those of their slots. A wide store keeps none; [`Store::copy_record`] reads both.
    pub fn bytes(&self) -> &[u8]
        requires { is_wide self.now.edition.plan.form ≡ false }
        ensures { result.now ≡
            bytes_of_records (slots self.now.edition.plan self.now.edition.records) }
    {
        self.edition.bytes()
    }

    /// How many bytes all records of the current version have in the digits, slots as they are.
    pub fn bytes_len(&self) -> usize
        ensures value { result ≡
            length (bytes_of_records (slots self.now.edition.plan self.now.edition.records)) }
        ensures few { result ≤ 2 ^ 38 }
    {
        self.edition.layer().bytes_len()
    }

    /// The number of the current version.
    pub fn version(&self) -> u64
        ensures { result ≡ self.now.version }
    {
        self.log.version()
    }

    /// The sizes of the records.
    pub fn layout(&self) -> &Layout
        ensures value { result.now ≡ version_shape self.now.edition }
        ensures plan { IsPlan self.now.edition.plan (length self.now.edition.records) }
    {
        self.edition.layout()
    }

    /// What stays the same in every version.
    pub fn plan(&self) -> &Plan
        ensures { result.now ≡ self.now.edition.plan }
    {
        self.edition.plan()
    }

    /// The form: 1 if all records have one length, 2 if each has its own; in a wide store 129 and
    /// 130.
    pub fn form(&self) -> u8
        ensures value { result ≡ self.now.edition.plan.form }
        ensures there { is_form self.now.edition.plan.form self.now.edition.plan.record_len ≡ true }
    {
        // Called for what it says of the plan.
        self.edition.layout();
        self.edition.plan().form as u8
    }

    /// The dimension n of the public matrices, 1 to 1024.
    pub fn dimension(&self) -> usize
        ensures value { result ≡ self.now.edition.plan.dimension }
        ensures low { 1 ≤ self.now.edition.plan.dimension }
        ensures high { self.now.edition.plan.dimension ≤ 1024 }
    {
        self.edition.layout();
        usize::from(self.edition.plan().dimension)
    }

    /// The public seed.
    pub fn seed(&self) -> &[u8; 32]
        ensures { result.now ≡ self.now.edition.plan.seed }
    {
        &self.edition.plan().seed
    }

    /// The SHA-256 of the publisher's key.
    pub fn publisher(&self) -> &[u8; 32]
        ensures { result.now ≡ self.now.publisher }
    {
        &self.publisher
    }

    /// The bytes of record i in the current version of an ordinary store.
    pub fn bytes_of(&self, i: usize) -> &[u8]
        requires index { i < length self.now.edition.records }
        requires ordinary { is_wide self.now.edition.plan.form ≡ false }
        ensures { result.now ≡ record_at self.now.edition.records i }
    {
        self.edition.record(i)
    }

    /// Writes the bytes of record i to the beginning of `out`, and returns how many they are: in
    /// forms of slots fewer than `out` has, and anything may follow them. Takes no memory.
    pub fn copy_record(&self, i: usize, out: &mut [u8]) -> usize
        requires index { i < length self.now.edition.records }
        requires room { length out.old ≡ self.now.edition.plan.record_len }
        ensures record { take result out.new ≡ record_at self.now.edition.records i }
        ensures len { result ≡ length (record_at self.now.edition.records i) }
    {
        let layer = self.edition.layer();
        layer.copy_slot(i, out);
        layer.plan().move_content(out)
    }

    /// How many words a query of a scheme has.
    pub fn query_words(&self, scheme: Scheme) -> usize
        ensures { result ≡ query_count scheme (version_shape self.now.edition) }
    {
        pir_schemes::query_count(scheme, self.edition.layout())
    }

    /// Part `part` of a scheme's hint of the current version: its words from 65,536 part on, row by
    /// row, at most 65,536 of them. `None` exactly when there is no such part.
    pub fn hint_words(&self, scheme: Scheme, part: usize) -> Option<&[u32]>
        ensures none { IsNone result ↔
            (length (hint_matrix scheme self.now.edition.plan self.now.edition.records).words ≤
            65536 * part) }
        ensures words { IfSome result (λ words.
            words.now ≡ part_of (hint_matrix scheme self.now.edition.plan
            self.now.edition.records).words part) }
    {
        part_words(self.edition.hint(scheme).words(), part)
    }

    /// Row r of the SimplePIR hint of the current version.
    pub fn hint_row(&self, r: usize) -> &[u32]
        requires { r < digit_rows (version_shape self.now.edition) }
        ensures value { result.now ≡
            row (hint_matrix Scheme.Simple self.now.edition.plan self.now.edition.records) r }
        ensures count { length result.now ≡ self.now.edition.plan.dimension }
    {
        self.edition.hint(Scheme::Simple).row(r)
    }

    /// The digits of the current version as they are kept, three in a word: row by row, a row in as
    /// many words as its digits divided by 3, rounded up; digit 3 t + u of a row is in bits 10 u to
    /// 10 u + 9 of its word t, and the other bits are 0. Takes no memory.
    pub fn digit_words(&self) -> &[u32]
        ensures { result.now ≡
            packed (digits_at self.now.edition.plan self.now.edition.records) }
    {
        self.edition.digit_words()
    }

    /// DoublePIR's server hint of the current version, kept and lent in the same way: κ n rows of
    /// digits, one digit of a row for each row of the records' digits. Takes no memory.
    pub fn server_words(&self) -> &[u32]
        ensures { result.now ≡
            packed (server_hint self.now.edition.plan self.now.edition.records) }
    {
        self.edition.server_words()
    }

    /// The rows of digits, ascending, in which some two consecutive versions from `version` to the
    /// current one differ: a SimplePIR hint of that version is brought forward by these rows of the
    /// current one. There are none if no publication since has changed the digits.
    ///
    /// `None` exactly when `version` is neither the current one nor one of the 16 before it that
    /// this store has seen. Only refused memory gives an `Err`.
    pub fn delta_since(&self, version: u64) -> Result<Option<Vec<u32>>, AllocError>
        ensures none { IfOk result (λ found. IsNone found ↔
            ¬ ReachesBack (kept_log self.now) version) }
        ensures rows { IfOk result (λ found. IfSome found (λ rows.
            AreRowsOf (lists_since (kept_log self.now) version) rows.items)) }
        ensures history { (h : History) → StandsFor self.now h → IfOk result (λ found.
            option_map (λ rows. rows.items) found ≡ delta_rows self.now.edition.plan h version) }
        ensures inside { IfOk result (λ found. IfSome found (λ rows.
            All (λ r. r < digit_rows (version_shape self.now.edition)) rows.items)) }
    {
        self.log.rows_since(version)
    }

    /// What differs between an earlier version and the current one, as ascending entries: of each
    /// record its index in four bytes, the bytes that it had in the digits and those that it has. A
    /// record appended since had a blank. Only a wide store keeps what this needs.
    ///
    /// `None` if the version is neither current nor one of the 16 before, if old bytes since were
    /// dropped, or for more than `most` bytes. Only refused memory gives an `Err`.
    pub fn changes_since(&self, version: u64, most: usize) -> Result<Option<Vec<u8>>, AllocError>
        ensures history { (h : History) → StandsFor self.now h → IfOk result (λ made.
            option_map (λ v. v.items) made ≡ changes_since self.now.edition.plan h version most) }
        ensures len { IfOk result (λ made. IfSome made (λ v. length v.items ≤ most)) }
    {
        let Some(n) = self.olds_since(version) else {
            return Ok(None);
        };
        let layer = self.edition.layer();
        // Called for what it says of the bytes.
        layer.bytes_len();
        let count = layer.layout().count();
        self.olds.changes_since(self.alloc, n, layer, count, most)
    }

    // How many publications there were since a version, if old bytes of all of them are kept.
    fn olds_since(&self, version: u64) -> Option<usize>
        ensures some { IfSome result (λ n. version + n ≡ self.now.version) }
        ensures few { IfSome result (λ n. n ≤ length self.now.olds) }
        ensures none { IsNone result ↔
            (reaches_olds self.now.version (length self.now.olds) version ≡ false) }
    {
        let now = self.version();
        if version > now || now - version > self.olds.len() as u64 {
            return None;
        }
        Some((now - version) as usize)
    }

    /// Memory for the answer to a scheme's query on the current version, taken by sizes alone,
    /// before a query is looked at. Only refused memory gives an `Err`.
    pub fn answer_buffers(&self, scheme: Scheme) -> Result<AnswerBuffers, AllocError>
        ensures scheme { IfOk result (λ room. scheme_answered room ≡ scheme) }
        ensures sizes { IfOk result (λ room.
            IsAnswerBuffers (version_shape self.now.edition) self.now.edition.plan.dimension room) }
    {
        self.edition.answer_buffers(self.alloc, scheme)
    }

    /// Whether an answer of a scheme is so long that it is made in more than one step. No clause
    /// says so.
    pub fn has_steps(&self, scheme: Scheme) -> bool {
        self.edition.has_steps(scheme)
    }

    /// The answer to the words of a query, in the scheme of the buffers. Takes no memory.
    pub fn answer_in(&self, room: AnswerBuffers, words: &[u32]) -> Vec<u32>
        requires words { length words.now ≡
            query_count (scheme_answered room) (version_shape self.now.edition) }
        requires sizes { IsAnswerBuffers (version_shape self.now.edition)
            self.now.edition.plan.dimension room }
        ensures { result.items ≡ answer_words (scheme_answered room) self.now.edition.plan
            self.now.edition.records words.now }
    {
        self.edition.answer_in(room, words)
    }

    /// The answer to the words of a scheme's query on the current version. Only refused memory
    /// gives an `Err`, and then no word was looked at.
    pub fn answer(&self, scheme: Scheme, words: &[u32]) -> Result<Vec<u32>, AllocError>
        requires { length words.now ≡ query_count scheme (version_shape self.now.edition) }
        ensures { IfOk result (λ v.
            v.items ≡ answer_words scheme self.now.edition.plan self.now.edition.records
            words.now) }
    {
        let room = self.answer_buffers(scheme)?;
        Ok(self.answer_in(room, words))
    }

    /// The answer to the words of a SimplePIR query: a word for each digit row.
    pub fn answer_simple(&self, words: &[u32]) -> Result<Vec<u32>, AllocError>
        requires { length words.now ≡ query_count Scheme.Simple (version_shape self.now.edition) }
        ensures { IfOk result (λ v.
            v.items ≡ answer_words Scheme.Simple self.now.edition.plan self.now.edition.records
            words.now) }
    {
        self.answer(Scheme::Simple, words)
    }

    /// The answer to a DoublePIR query's words: κ n words, and κ (n + 1) a digit of a record.
    pub fn answer_double(&self, words: &[u32]) -> Result<Vec<u32>, AllocError>
        requires { length words.now ≡ query_count Scheme.Double (version_shape self.now.edition) }
        ensures { IfOk result (λ v.
            v.items ≡ answer_words Scheme.Double self.now.edition.plan self.now.edition.records
            words.now) }
    {
        self.answer(Scheme::Double, words)
    }

    /// Replaces record i of the draft, which no reader sees before its publication.
    ///
    /// # Errors
    ///
    /// `BadIndex` exactly when the draft has no record i; else `BadLength` exactly when the bytes
    /// can't be a record; else it is accepted, or `Memory`. A refused edit changes nothing.
    pub fn edit(&mut self, i: usize, bytes: &[u8]) -> Result<(), EditError>
        ensures accepted { OnOk result (self.new ≡ held_edited i bytes.now self.old) }
        ensures history { OnOk result ((h : History) →
            StandsFor self.old h → StandsFor self.new (after_edit i bytes.now h)) }
        ensures bad_index { IsErrOf result EditError.BadIndex ↔ (length self.old.draft ≤ i) }
        ensures bad_length { IsErrOf result EditError.BadLength ↔
            (i < length self.old.draft) × (fits self.old.edition.plan bytes.now ≡ false) }
        ensures refused { OnErr result (self.new ≡ self.old) }
    {
        if !self.has_record(i) {
            return Err(EditError::BadIndex);
        }
        if !self.fits(bytes) {
            return Err(EditError::BadLength);
        }
        let copy = copy_of(self.alloc, bytes)?;
        match self.changes.insert(i, copy) {
            Ok(_) => Ok(()),
            Err(_) => Err(EditError::Memory),
        }
    }

    // Whether the draft has a record i.
    fn has_record(&self, i: usize) -> bool
        ensures { IsTrue result ↔ (i < length self.now.draft) }
    {
        i < self.count
    }

    /// Puts a record after those of the draft. Until its publication it can be edited like others.
    ///
    /// # Errors
    ///
    /// `BadLength` exactly when the bytes can't be a record; else `Full` exactly when no layout has
    /// one record more than the draft; else accepted, or `Memory`. A refused append changes
    /// nothing.
    pub fn append(&mut self, bytes: &[u8]) -> Result<(), AppendError>
        ensures accepted { OnOk result (self.new ≡ held_appended bytes.now self.old) }
        ensures history { OnOk result ((h : History) →
            StandsFor self.old h → StandsFor self.new (after_append bytes.now h)) }
        ensures bad_length { IsErrOf result AppendError.BadLength ↔
            (fits self.old.edition.plan bytes.now ≡ false) }
        ensures full { IsErrOf result AppendError.Full ↔
            (fits self.old.edition.plan bytes.now ≡ true)
            × (is_layout (shape_at self.old.edition.plan (length self.old.draft + 1)) ≡ false) }
        ensures refused { OnErr result (self.new ≡ self.old) }
    {
        if !self.fits(bytes) {
            return Err(AppendError::BadLength);
        }
        if !self.has_room() {
            return Err(AppendError::Full);
        }
        let copy = copy_of(self.alloc, bytes)?;
        match self.changes.insert(self.count, copy) {
            Ok(_) => {
                self.count += 1;
                Ok(())
            }
            Err(_) => Err(AppendError::Memory),
        }
    }

    // Whether there is a layout with one record more than the draft.
    fn has_room(&self) -> bool
        ensures { result ≡
            is_layout (shape_at self.now.edition.plan (length self.now.draft + 1)) }
    {
        self.edition.plan().has_layout(self.count + 1)
    }

    // Whether bytes can be a record.
    fn fits(&self, bytes: &[u8]) -> bool
        ensures { result ≡ fits self.now.edition.plan bytes.now }
    {
        self.edition.plan().fits(bytes)
    }

    /// The first change of the draft at or after a place: the place of a record, and the bytes that
    /// it has from the next publication on. A place at or past the count of the current version is
    /// an append. `None` when there is no such change; from place 0 on there is one exactly when an
    /// edit or an append was accepted since the last publication.
    pub fn draft_change(&self, from: usize) -> Option<(usize, &[u8])>
        ensures some { IfSome result (λ it. IsNextChange self.now from it.0 it.1.now) }
        ensures none { IfNone result (HasNoChange self.now from) }
        ensures first { from ≡ 0 → (IsSome result ↔ (self.now.marked ≡ true)) }
    {
        first_change(&self.changes, from)
    }

    /// Whether an edit or an append was accepted since the last publication.
    pub fn is_marked(&self) -> bool
        ensures { result ≡ self.now.marked }
    {
        !self.changes.is_empty()
    }

    /// Drops the draft: no edit and no append since the last publication is left of it.
    pub fn drop_draft(&mut self)
        ensures dropped { self.new ≡ without_draft self.old }
        ensures history { (h : History) → StandsFor self.old h →
            StandsFor self.new (undrafted h) }
    {
        self.changes = Changes::new(self.alloc);
        self.count = self.edition.layout().count();
    }
}

/// Writes the snapshot of the current version. Records of a wide store are read out of their
/// digits, as many at a time as 64 KiB have; no other memory is taken but the header's.
///
/// # Errors
///
/// After `Write` a part of it went out, and not the whole; `Memory` comes before the first byte.
pub fn write_snapshot<K: Kernel, W: Write>(
    alloc: Global,
    store: &Store<K>,
    writer: &mut W,
) -> Result<(), WriteFault>
    ensures whole { OnOk result (Appends (W.contents writer.old) (W.contents writer.new)
        (snapshot_of store.now)) }
    ensures part { IfErr result (λ fault. (n : ℕ) × (n < length (snapshot_of store.now))
        × Appends (W.contents writer.old) (W.contents writer.new) (take n (snapshot_of store.now))
        × (fault ≡ WriteFault.Memory → n ≡ 0)) }
{
    let header = store.header();
    if !is_wide(u16::from(header.form)) {
        return write_snapshot_bytes(alloc, &header, store.bytes(), writer);
    }
    let layer = store.edition.layer();
    // Called for what it says of the bytes.
    layer.bytes_len();
    write_snapshot_from(alloc, &header, layer, writer)
}

// The logs of a store that has published nothing yet: of the rows that changed, and of old bytes.
fn empty_logs(
    alloc: Global,
    layout: &Layout,
    dimension: u16,
    version: u64,
) -> Result<(DeltaLog, RecordLog), AllocError>
    requires { dimension ≤ 1024 }
    ensures rows { IfOk result (λ logs. logs.0 ≡ record { version = version; lists = [] }) }
    ensures olds { IfOk result (λ logs. logs.1 ≡ record {
      record_len = layout.now.record_len;
      most = digit_rows layout.now * dimension / 2;
      lists = [];
    }) }
{
    let log = DeltaLog::new(alloc, version)?;
    let olds = olds_log(alloc, layout, dimension)?;
    Ok((log, olds))
}

fn copy_of(alloc: Global, bytes: &[u8]) -> Result<Vec<u8>, AllocError>
    ensures { IfOk result (λ v. v.items ≡ bytes.now) }
{
    bytes.to_vec(alloc)
}
