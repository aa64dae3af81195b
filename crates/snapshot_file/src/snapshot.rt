//! What a snapshot holds, and why one can't be read or written.

ghost use Rattle.std.specs.Prelude.{◌≡◌, ◌↔◌, IsTrue, IfOk, IfErr, length};
ghost use Rattle.digit_pack.specs.Layout.{IsLayout, IsLayoutFault};
ghost use Rattle.digit_pack.specs.Slots.{is_form};
ghost use Rattle.snapshot_file.specs.Snapshots.{header_of, shape_of, records_len, has_slots};
ghost use Rattle.snapshot_file.specs.Snapshots.{IsAccepted};
ghost use Rattle.snapshot_file.specs.Names.{snapshot_fault_name};

use connection_io::WriteFailed;
use digit_pack::{Layout, LayoutError, are_slots, is_form, is_slotted};
use std::alloc::AllocError;
use thiserror::Error;

/// The greatest dimension: how many words a secret has.
pub const MAX_DIMENSION: u16 = 1024;

/// The fields of a snapshot but its records.
#[derive(Clone, Copy, Debug, PartialEq, Eq)]
pub struct Header {
    /// 1 if all records have one length, 2 if each has its own and is in a slot; 129 and 130
    /// likewise, with a wide digit matrix.
    pub form: u8,
    /// How many bits a digit has, 6 to 10 in a snapshot that is read.
    pub width: u8,
    /// How many bytes a record has.
    pub record_len: u16,
    /// How many records a column of the digit matrix has.
    pub groups: u16,
    /// How many records there are.
    pub count: u32,
    /// How many words a secret has, 1 to [`MAX_DIMENSION`] in a snapshot that is read.
    pub dimension: u16,
    /// The version of the records, counted from 1.
    pub version: u64,
    /// The public seed, which the words of the public matrices come from.
    pub seed: [u8; 32],
    /// The SHA-256 digest of the publisher's key.
    pub publisher: [u8; 32],
}

/// A store at rest: one version of its records, and what it takes to serve them. The fields are
/// those of [`Header`], and the bytes of the records one after another, record 0 first.
#[derive(Drop)]
pub struct Snapshot {
    /// 1 if all records have one length, 2 if each has its own and is in a slot; 129 and 130
    /// likewise, with a wide digit matrix.
    pub form: u8,
    /// How many bits a digit has.
    pub width: u8,
    /// How many bytes a record has.
    pub record_len: u16,
    /// How many records a column of the digit matrix has.
    pub groups: u16,
    /// How many records there are.
    pub count: u32,
    /// How many words a secret has.
    pub dimension: u16,
    /// The version of the records, counted from 1.
    pub version: u64,
    /// The public seed, which the words of the public matrices come from.
    pub seed: [u8; 32],
    /// The SHA-256 digest of the publisher's key.
    pub publisher: [u8; 32],
    /// The bytes of the records, `count` times `record_len` in a snapshot that was read.
    pub records: Vec<u8>,
}

/// Why an input is no snapshot, or could not be read.
#[derive(Clone, Copy, Debug, PartialEq, Eq, Error)]
pub enum SnapshotFault {
    /// The first 8 bytes are none of `PIRSNAP1`, `PIRSNAP2` and `PIRWIDE1`.
    #[error("not a snapshot")]
    NotSnapshot,
    /// The header's layout is refused, its records have one byte in a form of slots, its dimension
    /// is not in 1 to [`MAX_DIMENSION`], or its version is 0; or a wide header names a form other
    /// than 129 and 130.
    #[error("the snapshot's layout, dimension or version is outside the limits")]
    BadLayout,
    /// The input ends in the header, the records or the digest.
    #[error("the snapshot is cut short")]
    Short,
    /// The digest is not that of the header and the records.
    #[error("the snapshot's digest is wrong")]
    BadDigest,
    /// There is a byte after the digest.
    #[error("there are bytes after the snapshot")]
    TrailingBytes,
    /// A read failed.
    #[error("the snapshot could not be read")]
    Read,
    /// Memory, which is asked for only after an accepted header, was refused.
    #[error("out of memory")]
    Memory,
    /// The bytes of a record are no slot, in a form of slots. All else is as it should be.
    #[error("a record of the snapshot is no slot")]
    BadSlot,
}

impl From<AllocError> for SnapshotFault {
    ghost use Rattle.snapshot_file.specs.declared.snapshot.SnapshotFault.TheVariants.{Memory};

    ghost from_gives = { λ _ fault. fault ≡ Memory };

    fn from(_refused: AllocError) -> Self {
        SnapshotFault::Memory
    }
}

impl SnapshotFault {
    /// Its name, as programs print it.
    #[tactic(auto, unfolding(crate::specs::Names::snapshot_fault_name))]
    pub fn name(self) -> &'static str
        ensures { result.now ≡ snapshot_fault_name self }
    {
        match self {
            SnapshotFault::NotSnapshot => "NotSnapshot",
            SnapshotFault::BadLayout => "BadLayout",
            SnapshotFault::Short => "Short",
            SnapshotFault::BadDigest => "BadDigest",
            SnapshotFault::TrailingBytes => "TrailingBytes",
            SnapshotFault::Read => "Read",
            SnapshotFault::Memory => "Memory",
            SnapshotFault::BadSlot => "BadSlot",
        }
    }
}

/// Why a snapshot was not written, or not as a whole.
#[derive(Clone, Copy, Debug, PartialEq, Eq, Error)]
pub enum WriteFault {
    /// A write failed, or took no byte.
    #[error("the snapshot could not be written")]
    Write,
    /// Memory for the header was refused.
    #[error("out of memory")]
    Memory,
}

impl From<AllocError> for WriteFault {
    ghost use Rattle.snapshot_file.specs.declared.snapshot.WriteFault.TheVariants.{Memory};

    ghost from_gives = { λ _ fault. fault ≡ Memory };

    fn from(_refused: AllocError) -> Self {
        WriteFault::Memory
    }
}

impl From<WriteFailed> for WriteFault {
    ghost use Rattle.snapshot_file.specs.declared.snapshot.WriteFault.TheVariants.{Write};

    ghost from_gives = { λ _ fault. fault ≡ Write };

    fn from(_failed: WriteFailed) -> Self {
        WriteFault::Write
    }
}

impl Header {
    /// The snapshot of this header and these records.
    pub fn with_records(self, records: Vec<u8>) -> Snapshot
        ensures header { header_of result ≡ self }
        ensures records { result.records ≡ records }
    {
        let seed = self.seed;
        let publisher = self.publisher;
        Snapshot {
            form: self.form,
            width: self.width,
            record_len: self.record_len,
            groups: self.groups,
            count: self.count,
            dimension: self.dimension,
            version: self.version,
            seed,
            publisher,
            records,
        }
    }

    /// How many bytes its records have together.
    pub fn records_len(&self) -> usize
        ensures { result ≡ records_len self.now }
    {
        self.count as usize * self.record_len as usize
    }

    /// The sizes of its records, accepted exactly within the limits; else the first cause is named,
    /// in the order of [`LayoutError`].
    pub fn layout(&self) -> Result<Layout, LayoutError>
        ensures accepted { IfOk result (λ l. (l ≡ shape_of self.now) × IsLayout l) }
        ensures refused { IfErr result (IsLayoutFault (shape_of self.now)) }
    {
        Layout::of_form(
            u16::from(self.form),
            u32::from(self.width),
            usize::from(self.record_len),
            usize::from(self.groups),
            self.count as usize,
        )
    }

    /// Whether there is such a form, of records of so many bytes: 1 and 129; 2 and 130 if a record
    /// has two bytes at least.
    pub fn has_form(&self) -> bool
        ensures { result ≡ is_form self.now.form self.now.record_len }
    {
        is_form(u16::from(self.form), self.record_len)
    }

    /// Whether the bytes of each record are a slot, if the form has slots.
    #[tactic(auto, unfolding(crate::specs::Snapshots::has_slots))]
    pub fn has_slots(&self, records: &[u8]) -> bool
        requires layout { IsLayout (shape_of self.now) }
        requires len { length records.now ≡ records_len self.now }
        ensures { result ≡ has_slots self.now records.now }
    {
        if !is_slotted(u16::from(self.form)) {
            return true;
        }
        // The sizes are within the limits: no refusal is left.
        let layout = self.layout().unwrap();
        are_slots(&layout, records)
    }

    /// Whether a reader takes it: an existing form, a layout within its limits, a dimension in 1 to
    /// [`MAX_DIMENSION`], and a version that is not 0.
    pub fn is_accepted(&self) -> bool
        ensures { IsTrue result ↔ IsAccepted self.now }
    {
        self.has_form()
            && self.layout().is_ok()
            && self.dimension >= 1
            && self.dimension <= MAX_DIMENSION
            && self.version != 0
    }
}

impl Snapshot {
    /// Its fields but the records.
    pub fn header(&self) -> Header
        ensures { result ≡ header_of self.now }
    {
        Header {
            form: self.form,
            width: self.width,
            record_len: self.record_len,
            groups: self.groups,
            count: self.count,
            dimension: self.dimension,
            version: self.version,
            seed: self.seed,
            publisher: self.publisher,
        }
    }
}
