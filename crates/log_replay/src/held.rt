//! What holds a snapshot's records while the publications of a log are made on them.

ghost use Rattle.std.specs.Prelude.{◌≡◌, ◌≤◌, ◌<◌, ◌+◌, ◌++◌, ◌∷◌, [], ℕ, List, OnOk, OnErr};
ghost use Rattle.std.specs.Prelude.{slice_set, true};
ghost use Rattle.digit_pack.specs.Layout.{IsLayout};
ghost use Rattle.pir_schemes.specs.Plans.{fits, shape_at};
ghost use Rattle.snapshot_file.specs.declared.snapshot.Header.{Header};
ghost use Rattle.version_store.specs.Openings.{IsSound, plan_held, records_for};
ghost use Rattle.log_replay.specs.Records.{with_record_count, with_version};

use digit_pack::record_buffer;
use pir_schemes::Plan;
use snapshot_file::Snapshot;
use std::alloc::AllocError;
use version_store::{Opening, plan_in};

/// The records of a snapshot, however their bytes are kept, and its fields.
pub trait RecordHolder: Sized + Drop {
    /// The fields of the snapshot.
    ghost header: { Self → Header };

    /// The bytes of its records, one after another.
    ghost bytes: { Self → List ℕ };

    /// What the snapshot says of every version.
    fn plan(&self) -> Plan
        ensures { result ≡ plan_held (header self.now) };

    /// How many records there are.
    fn count(&self) -> usize
        ensures { result ≡ (header self.now).count };

    /// The version of the records.
    fn version(&self) -> u64
        ensures { result ≡ (header self.now).version };

    /// Puts another record in the place of record `i`.
    fn replace(&mut self, i: usize, record_bytes: &[u8])
        requires sound { IsSound (header self.old) (bytes self.old) }
        requires index { i < (header self.old).count }
        requires fits { fits (plan_held (header self.old)) record_bytes.now ≡ true }
        ensures sound { IsSound (header self.new) (bytes self.new) }
        ensures header { header self.new ≡ header self.old }
        ensures records { records_for (header self.new) (bytes self.new) ≡
            slice_set (records_for (header self.old) (bytes self.old)) i record_bytes.now };

    /// Puts a record after the last one.
    ///
    /// # Errors
    ///
    /// `AllocError` only if memory was refused: nothing has changed then.
    fn append(&mut self, record_bytes: &[u8]) -> Result<(), AllocError>
        requires sound { IsSound (header self.old) (bytes self.old) }
        requires fits { fits (plan_held (header self.old)) record_bytes.now ≡ true }
        requires layout { IsLayout
            (shape_at (plan_held (header self.old)) ((header self.old).count + 1)) }
        ensures sound { OnOk result (IsSound (header self.new) (bytes self.new)) }
        ensures header { OnOk result
            (header self.new ≡ with_record_count (header self.old) ((header self.old).count + 1)) }
        ensures records { OnOk result (records_for (header self.new) (bytes self.new) ≡
            records_for (header self.old) (bytes self.old) ++ record_bytes.now ∷ []) }
        ensures refused { OnErr result
            ((header self.new ≡ header self.old) × (bytes self.new ≡ bytes self.old)) };

    /// Says that the records are those of this version.
    fn set_version(&mut self, version: u64)
        requires { 1 ≤ version }
        ensures header { header self.new ≡ with_version (header self.old) version }
        ensures bytes { bytes self.new ≡ bytes self.old };
}

impl RecordHolder for Snapshot {
    ghost use Rattle.snapshot_file.specs.Snapshots.{header_of};

    ghost header = { header_of };

    ghost bytes = { λ it. it.records.items };

    fn plan(&self) -> Plan {
        plan_in(self)
    }

    fn count(&self) -> usize {
        self.count as usize
    }

    fn version(&self) -> u64 {
        self.version
    }

    fn replace(&mut self, i: usize, record_bytes: &[u8]) {
        let plan = plan_in(self);
        // The sizes are within the limits: no refusal is left.
        let layout = plan.layout(self.count as usize).unwrap();
        plan.write(&layout, &mut self.records, i, record_bytes);
    }

    fn append(&mut self, record_bytes: &[u8]) -> Result<(), AllocError> {
        let plan = plan_in(self);
        // Called for what it says of the count: there is room for one more.
        plan.layout(self.count as usize + 1).unwrap();
        let mut room = record_buffer();
        let slot = &mut room[..usize::from(plan.record_len)];
        plan.fill(record_bytes, slot);
        self.records.extend_from_slice(slot)?;
        self.count += 1;
        Ok(())
    }

    fn set_version(&mut self, version: u64) {
        self.version = version;
    }
}

impl RecordHolder for Opening {
    ghost header = { λ it. it.header };

    ghost bytes = { λ it. it.bytes };

    fn plan(&self) -> Plan {
        Opening::plan(self)
    }

    fn count(&self) -> usize {
        Opening::count(self)
    }

    fn version(&self) -> u64 {
        Opening::version(self)
    }

    fn replace(&mut self, i: usize, record_bytes: &[u8]) {
        Opening::replace(self, i, record_bytes);
        // Called for what it says of the bytes.
        self.header();
    }

    fn append(&mut self, record_bytes: &[u8]) -> Result<(), AllocError> {
        Opening::append(self, record_bytes)?;
        // Called for what it says of the bytes.
        self.header();
        Ok(())
    }

    fn set_version(&mut self, version: u64) {
        Opening::set_version(self, version);
    }
}
