//! What a store is opened with: a snapshot that was read to its end, before any hint is made.

ghost use Rattle.std.specs.Prelude.{◌≡◌, ◌≤◌, ◌<◌, ◌+◌, ◌++◌, ◌∷◌, [], ℕ, List, true, IfOk, IfErr};
ghost use Rattle.std.specs.Prelude.{IfSome, OnOk, OnErr, length, slice_set};
ghost use Rattle.std.specs.Io.KnownBytes.{Consumes, IsAtEnd};
ghost use Rattle.sha2.specs.Sha256.{sha256};
ghost use Rattle.digit_pack.specs.Layout.{IsLayout};
ghost use Rattle.pir_schemes.specs.Plans.{fits, shape_at};
ghost use Rattle.snapshot_file.specs.Snapshots.{header_bytes, hashed_bytes, snapshot_bytes};
ghost use Rattle.snapshot_file.specs.Snapshots.{IsHeader, IsAccepted, IsSnapshot};
ghost use Rattle.snapshot_file.specs.Verdicts.{MayRefuse, StopsReadingAt};
ghost use Rattle.version_store.specs.Histories.{StandsFor, opened};
ghost use Rattle.version_store.specs.HeldRecords.{bytes_held_by};
ghost use Rattle.version_store.specs.HeldFor.{IsHeldFor};
ghost use Rattle.version_store.specs.Openings.{IsSound, held_of, plan_held, records_for};

use crate::digit_records::DigitRecords;
use crate::held_records::HeldRecords;
use crate::opening::plan_of;
use crate::store::Store;
use digit_pack::{Layout, is_wide, record_buffer};
use matrix_u32::Kernel;
use pir_schemes::Plan;
use simple_scheme::{HintWatcher, Unwatched};
use snapshot_file::{
    Header, RecordSource, SnapshotFault, read_after_header, read_header, read_records_into,
};
use std::alloc::{AllocError, Global};
use std::io::Read;
use std::marker::Model;

/// Of how many columns the records are read at a time: as many as have their digits, three in a
/// word of four bytes, in four lines of a processor's cache.
const COLUMNS: usize = 192;

/// What a store is opened with: a snapshot that was read to its end, with the changes that were
/// made in its records since, before any hint is made. A wide one keeps its records in their digits
/// alone.
#[derive(Drop)]
pub struct Opening {
    header: Header,
    held: HeldRecords,
}

impl Model for Opening {
    ghost use Rattle.version_store.specs.HeldRecords.{bytes_held_by};
    ghost use Rattle.version_store.specs.Openings.{Unopened};
    ghost use Rattle.version_store.specs.HeldFor.{IsHeldFor};

    ghost Value = { Unopened };

    ghost view = { λ o. record { header = o.header; bytes = bytes_held_by o.held } };

    ghost invariant = { λ o. IsHeldFor o.header o.held };
}

impl RecordSource for Opening {
    ghost bytes = { λ o. o.bytes };

    ghost record_len = { λ o. o.header.record_len };

    fn copy_record(&self, i: usize, out: &mut [u8]) {
        // The sizes are within the limits: this can't fail.
        let layout = self.header.layout().unwrap();
        self.held.copy_record(&layout, i, out);
    }
}

impl Opening {
    /// Reads a snapshot, which must be the whole input, and returns it with its digest.
    ///
    /// # Errors
    ///
    /// Those of `read_snapshot`, each with the byte that makes it.
    pub fn read<R: Read>(
        alloc: Global,
        reader: &mut R,
    ) -> Result<(Opening, [u8; 32]), SnapshotFault>
        ensures read { IfOk result (λ o. IsSnapshot o.0.header o.0.bytes
            × (o.1 ≡ sha256 (hashed_bytes o.0.header o.0.bytes))
            × Consumes (R.remaining reader.old) (R.remaining reader.new)
            (snapshot_bytes o.0.header o.0.bytes)
            × IsAtEnd (R.remaining reader.new)) }
        ensures refused { IfErr result (λ fault. IfSome (R.remaining reader.old)
            (λ bytes. MayRefuse fault bytes)) }
        ensures stops { IfErr result (λ fault. (read : List ℕ) ×
            Consumes (R.remaining reader.old) (R.remaining reader.new) read
            × StopsReadingAt fault read (R.remaining reader.new)) }
    {
        let header = read_header(reader)?;
        let (held, digest) = read_held(alloc, reader, &header)?;
        Ok((Opening { header, held }, digest))
    }

    /// The fields of the snapshot, but its records.
    pub fn header(&self) -> Header
        ensures value { result ≡ self.now.header }
        ensures sound { IsSound self.now.header self.now.bytes }
    {
        self.header
    }

    /// What stays the same in every version.
    pub fn plan(&self) -> Plan
        ensures { result ≡ plan_held self.now.header }
    {
        plan_of(&self.header)
    }

    /// How many records there are.
    pub fn count(&self) -> usize
        ensures { result ≡ self.now.header.count }
    {
        self.header.count as usize
    }

    /// The version of the records.
    pub fn version(&self) -> u64
        ensures { result ≡ self.now.header.version }
    {
        self.header.version
    }

    /// Changes the version.
    pub fn set_version(&mut self, version: u64)
        requires { 1 ≤ version }
        ensures { self.new ≡ record self.old {
          header = record self.old.header { version = version };
        } }
    {
        self.header.version = version;
    }

    /// Puts another record in the place of record i. Takes no memory.
    pub fn replace(&mut self, i: usize, bytes: &[u8])
        requires index { i < self.old.header.count }
        requires fits { fits (plan_held self.old.header) bytes.now ≡ true }
        ensures header { self.new.header ≡ self.old.header }
        ensures records { records_for self.new.header self.new.bytes ≡
            slice_set (records_for self.old.header self.old.bytes) i bytes.now }
    {
        let plan = self.plan();
        // The sizes are within the limits: this can't fail.
        let layout = self.header.layout().unwrap();
        let mut room = record_buffer();
        let slot = &mut room[..usize::from(plan.record_len)];
        plan.fill(bytes, slot);
        self.held.replace(&layout, i, slot);
    }

    /// Puts a record after the last one. Only refused memory gives an `Err`, and then nothing has
    /// changed.
    pub fn append(&mut self, bytes: &[u8]) -> Result<(), AllocError>
        requires fits { fits (plan_held self.old.header) bytes.now ≡ true }
        requires layout { IsLayout (shape_at (plan_held self.old.header)
            (self.old.header.count + 1)) }
        ensures header { OnOk result (self.new.header ≡
            record self.old.header { count = self.old.header.count + 1 }) }
        ensures records { OnOk result (records_for self.new.header self.new.bytes ≡
            records_for self.old.header self.old.bytes ++ bytes.now ∷ []) }
        ensures refused { OnErr result (self.new ≡ self.old) }
    {
        let plan = self.plan();
        let count = self.count();
        // There is a layout of one more: this can't fail.
        let layout = plan.layout(count + 1).unwrap();
        let mut room = record_buffer();
        let slot = &mut room[..usize::from(plan.record_len)];
        plan.fill(bytes, slot);
        self.held.push(layout, count, slot)?;
        self.header.count += 1;
        Ok(())
    }

    /// The store of the records, with an empty draft; its hints are made by the schemes' `setup`.
    /// The store keeps the allocator. Only refused memory gives an `Err`.
    pub fn open<K: Kernel>(self, alloc: Global, kernel: K) -> Result<Store<K>, AllocError>
        ensures held { IfOk result (λ s. s ≡ held_of self.header self.bytes) }
        ensures history { IfOk result (λ s. StandsFor s
            (opened self.header.version (records_for self.header self.bytes))) }
    {
        self.open_watched(alloc, kernel, &mut Unwatched)
    }

    /// The same store, with each hint watched while its rows are made: first SimplePIR's, and then
    /// DoublePIR's.
    pub fn open_watched<K: Kernel, W: HintWatcher>(
        self,
        alloc: Global,
        kernel: K,
        watcher: &mut W,
    ) -> Result<Store<K>, AllocError>
        ensures held { IfOk result (λ s. s ≡ held_of self.header self.bytes) }
        ensures history { IfOk result (λ s. StandsFor s
            (opened self.header.version (records_for self.header self.bytes))) }
    {
        let Opening { header, held } = self;
        Store::hold(alloc, kernel, &header, held, watcher)
    }
}

// Reads what follows an accepted header: in a wide form each record into its digits, some columns
// at a time.
fn read_held<R: Read>(
    alloc: Global,
    reader: &mut R,
    header: &Header,
) -> Result<(HeldRecords, [u8; 32]), SnapshotFault>
    requires header { IsHeader header.now }
    requires accepted { IsAccepted header.now }
    ensures held { IfOk result (λ r. IsHeldFor header.now r.0) }
    ensures ok { IfOk result (λ r. IsSnapshot header.now (bytes_held_by r.0)
        × Consumes (R.remaining reader.old) (R.remaining reader.new)
        (bytes_held_by r.0 ++ sha256 (hashed_bytes header.now (bytes_held_by r.0)))
        × IsAtEnd (R.remaining reader.new)) }
    ensures digest { IfOk result (λ r. r.1 ≡ sha256 (hashed_bytes header.now (bytes_held_by r.0))) }
    ensures err { IfErr result (λ fault. (read : List ℕ) ×
        Consumes (R.remaining reader.old) (R.remaining reader.new) read
        × StopsReadingAt fault (header_bytes header.now ++ read) (R.remaining reader.new)) }
{
    if !is_wide(u16::from(header.form)) {
        let (snapshot, digest) = read_after_header(alloc, reader, *header)?;
        return Ok((HeldRecords::Bytes(snapshot.records), digest));
    }
    // The sizes are within the limits: this can't fail.
    let layout = header.layout().unwrap();
    let mut buffer = columns_buffer(alloc, &layout)?;
    let mut records = DigitRecords::new(alloc, layout)?;
    let digest = read_records_into(alloc, reader, header, &mut buffer, &mut records)?;
    Ok((HeldRecords::Digits(records), digest))
}

// Room for the records of some columns, or for all if they have fewer: those that come one after
// another are below one another, each digit in another row, and writing some columns takes hardly
// more time than writing one.
fn columns_buffer(alloc: Global, layout: &Layout) -> Result<Vec<u8>, AllocError>
    ensures { IfOk result (λ buffer. layout.now.record_len ≤ length buffer.items) }
{
    let most = (COLUMNS * layout.groups()).min(layout.count());
    vec![in alloc; 0; most * layout.record_len()]
}
