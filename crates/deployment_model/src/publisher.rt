//! The publisher's folder, and what it may hold after the commands that were run.

ghost use Rattle.snapshot_file.specs.Snapshots.{header_of};
ghost use Rattle.version_store.specs.Openings.{IsSound};

use crate::broken::Broken;
use crate::records::{Records, Truth};
use command_words::Failure;
use publisher_drafts::Target;
use publisher_files::{Draft, FolderVersion, draft_one, publish_draft, read_folder};
use server_files::compact_pair;
use simulated_host::{Dice, SimulatedFiles};
use std::alloc::{AllocError, Global};
use std::mem;

/// How many records a store comes to have at most.
const MOST_RECORDS: usize = 24;

/// How many states there may be before the folder is looked at with no faults.
const MOST_STATES: usize = 4;

/// The faults of a command that was refused, and changed nothing.
const REFUSALS: [&str; 5] = [
    "BadIndex",
    "BadLength",
    "Full",
    "NothingToPublish",
    "TooLong",
];

/// The faults of a folder whose files are damaged.
const DAMAGES: [&str; 8] = [
    "BadLog",
    "BadDraft",
    "NotSnapshot",
    "BadLayout",
    "Short",
    "BadDigest",
    "TrailingBytes",
    "BadSlot",
];

/// Whether a fault says that files are damaged.
pub fn is_damage(fault: &str) -> bool {
    DAMAGES.iter().any(|name| *name == fault)
}

/// The name of a failure.
pub fn name_of(failure: Failure) -> &'static str {
    match failure {
        Failure::Fault(name) => name,
        Failure::Memory => "Memory",
        _ => "Other",
    }
}

// What a folder may hold.
#[derive(Drop)]
struct Possible {
    version: u64,
    // The records of the version, and those of the version with the draft.
    records: Records,
    draft: Records,
}

impl Possible {
    fn copy(&self, alloc: Global) -> Result<Possible, AllocError> {
        Ok(Possible {
            version: self.version,
            records: self.records.copy(alloc)?,
            draft: self.draft.copy(alloc)?,
        })
    }

    fn is(&self, other: &Possible) -> bool {
        self.version == other.version
            && self.records.are(&other.records)
            && self.draft.are(&other.draft)
    }
}

/// What a command came to.
#[derive(Clone, Copy, Debug, PartialEq, Eq)]
pub enum Command {
    /// A change was drafted.
    Drafted,
    /// The draft was published, as this version.
    Published(u64),
    /// The log was made shorter.
    Compacted,
    /// The command was refused, or failed, with this fault.
    Failed(&'static str),
}

/// The publisher's folder.
#[derive(Drop)]
pub struct Publisher<'a> {
    alloc: Global,
    files: &'a SimulatedFiles<'a>,
    dir: &'a str,
    records: &'a str,
    // The longest record.
    most: usize,
    // All records are that long.
    fixed: bool,
    // One, unless a command has failed.
    states: Vec<Possible>,
}

impl<'a> Publisher<'a> {
    /// The publisher of a folder that has version 1 alone.
    ///
    /// # Errors
    ///
    /// `AllocError` when memory was refused.
    pub fn new(
        alloc: Global,
        files: &'a SimulatedFiles<'a>,
        names: (&'a str, &'a str),
        lengths: (usize, bool),
        first: &Records,
    ) -> Result<Publisher<'a>, AllocError> {
        let (dir, records) = names;
        let (most, fixed) = lengths;
        let mut states = Vec::new(alloc);
        states.push(Possible {
            version: 1,
            records: first.copy(alloc)?,
            draft: first.copy(alloc)?,
        })?;
        Ok(Publisher {
            alloc,
            files,
            dir,
            records,
            most,
            fixed,
            states,
        })
    }

    /// The machine's disk.
    pub fn files(&self) -> &'a SimulatedFiles<'a> {
        self.files
    }

    /// The name of the folder's snapshot.
    pub fn records_name(&self) -> &'a str {
        self.records
    }

    /// Whether the folder is to be looked at with no faults.
    pub fn is_unclear(&self) -> bool {
        self.states.len() >= MOST_STATES
    }

    /// Runs a command, chosen at random.
    ///
    /// # Errors
    ///
    /// What is broken.
    pub fn command(&mut self, dice: &mut Dice, truth: &mut Truth) -> Result<Command, Broken> {
        match dice.below(8) {
            0 => self.compact(),
            1..=3 if !self.may_have_published(truth) => self.publish(truth),
            _ => self.draft(dice, truth),
        }
    }

    // Whether a publication that failed may be there: another one comes once that is clear, so that
    // the model has each version's records.
    fn may_have_published(&self, truth: &Truth) -> bool {
        self.states.iter().any(|state| state.version > truth.last())
    }

    // Makes the log shorter.
    fn compact(&mut self) -> Result<Command, Broken> {
        match compact_pair(self.files, self.records) {
            Ok(_) => Ok(Command::Compacted),
            Err(failure) => failed(failure),
        }
    }

    // Drafts a change.
    fn draft(&mut self, dice: &mut Dice, truth: &mut Truth) -> Result<Command, Broken> {
        let count = match self.states.first() {
            Some(state) => state.draft.count(),
            None => 0,
        };
        let appends = count < MOST_RECORDS && dice.one_in(6);
        let place = if appends { count } else { dice.below(count) };
        let bytes = self.record(dice)?;
        let target = if appends {
            Target::End
        } else {
            Target::At(u32::try_from(place).unwrap_or(u32::MAX))
        };
        let after = self.drafted(appends, place, &bytes)?;
        match draft_one(self.files, self.dir, target, bytes) {
            Ok(_) => self.done(after, truth, Command::Drafted),
            Err(failure) => self.may_be(failure, after),
        }
    }

    // Publishes the draft.
    fn publish(&mut self, truth: &mut Truth) -> Result<Command, Broken> {
        let after = self.published()?;
        match self.version_published() {
            Ok(version) => self.done(after, truth, Command::Published(version)),
            Err(failure) if self.cannot_be(failure) => Err(self.other_folder()),
            Err(failure) => self.may_be(failure, after),
        }
    }

    // Publishes the draft, and gives the number of the version.
    fn version_published(&self) -> Result<u64, Failure> {
        Ok(publish_draft(self.files, self.dir)?.number())
    }

    // Whether a publication failed because it had no changes though the draft has some.
    fn cannot_be(&self, failure: Failure) -> bool {
        name_of(failure) == "NothingToPublish" && !self.may_have_no_draft()
    }

    // A command was done, after which the folder is in one of these states.
    fn done(
        &mut self,
        after: Vec<Possible>,
        truth: &mut Truth,
        command: Command,
    ) -> Result<Command, Broken> {
        self.states = after;
        self.settle(truth)?;
        Ok(command)
    }

    // Whether the draft may change nothing.
    fn may_have_no_draft(&self) -> bool {
        self.states
            .iter()
            .any(|state| state.records.are(&state.draft))
    }

    // The folder is in a state that no command left.
    fn other_folder(&self) -> Broken {
        let version = match self.states.first() {
            Some(state) => state.version,
            None => 0,
        };
        Broken::OtherFolder { version }
    }

    // A command failed: what it was to do may have been done.
    fn may_be(&mut self, failure: Failure, others: Vec<Possible>) -> Result<Command, Broken> {
        let name = name_of(failure);
        if !REFUSALS.iter().any(|refusal| *refusal == name) {
            for other in others.into_iter() {
                self.add(other)?;
            }
        }
        failed(failure)
    }

    // One more state, if there is none like it.
    fn add(&mut self, other: Possible) -> Result<(), AllocError> {
        if !self.states.iter().any(|state| state.is(&other)) {
            self.states.push(other)?;
        }
        Ok(())
    }

    // A record of random bytes.
    fn record(&self, dice: &mut Dice) -> Result<Vec<u8>, AllocError> {
        let len = if self.fixed {
            self.most
        } else {
            dice.below(self.most.saturating_add(1))
        };
        let mut bytes = Vec::from_elem(self.alloc, 0u8, len)?;
        dice.fill(&mut bytes);
        Ok(bytes)
    }

    // The states after a change.
    fn drafted(
        &self,
        appends: bool,
        place: usize,
        bytes: &[u8],
    ) -> Result<Vec<Possible>, AllocError> {
        let mut after = Vec::new(self.alloc);
        for state in self.states.iter() {
            let mut next = state.copy(self.alloc)?;
            let place = if appends { next.draft.count() } else { place };
            if place <= next.draft.count() {
                next.draft.put(self.alloc, place, bytes)?;
            }
            after.push(next)?;
        }
        Ok(after)
    }

    // The states after the publication of a draft.
    fn published(&self) -> Result<Vec<Possible>, AllocError> {
        let mut after = Vec::new(self.alloc);
        for state in self.states.iter() {
            after.push(Possible {
                version: state.version.saturating_add(1),
                records: state.draft.copy(self.alloc)?,
                draft: state.draft.copy(self.alloc)?,
            })?;
        }
        Ok(after)
    }

    /// Looks at the folder after a command that was done, or after a crash: what is seen then is
    /// there from now on. Returns whether it could be looked at.
    ///
    /// # Errors
    ///
    /// `OtherFolder` when it is in no state that the commands left, `BadFolder` when its files are
    /// damaged.
    pub fn settle(&mut self, truth: &mut Truth) -> Result<bool, Broken> {
        let Some(seen) = self.look()? else {
            return Ok(false);
        };
        if !self.states.iter().any(|state| state.is(&seen)) {
            return Err(Broken::OtherFolder {
                version: seen.version,
            });
        }
        self.states = Vec::new(self.alloc);
        if seen.version > truth.last() {
            truth.publish(seen.records.copy(self.alloc)?)?;
        }
        self.states.push(seen)?;
        Ok(true)
    }

    /// The folder's version is pushed: it is there from now on.
    ///
    /// # Errors
    ///
    /// `OtherFolder` when no command left it.
    pub fn push(&mut self, version: &FolderVersion, truth: &mut Truth) -> Result<(), Broken>
        requires { IsSound (header_of version.now.snapshot) version.now.snapshot.records.items }
    {
        let number = version.number();
        let records = records_of(self.alloc, version)?;
        let mut left = Vec::new(self.alloc);
        for state in mem::replace(&mut self.states, Vec::new(self.alloc)).into_iter() {
            if state.version == number && state.records.are(&records) {
                left.push(state)?;
            }
        }
        if left.is_empty() {
            return Err(Broken::OtherFolder { version: number });
        }
        if number > truth.last() {
            truth.publish(records)?;
        }
        self.states = left;
        Ok(())
    }

    // What the folder holds, if it can be read.
    fn look(&self) -> Result<Option<Possible>, Broken> {
        match read_folder(self.files, self.dir) {
            Ok((version, draft)) => Ok(Some(self.seen(&version, &draft)?)),
            Err(failure) => match name_of(failure) {
                fault if is_damage(fault) => Err(Broken::BadFolder { fault }),
                _ => Ok(None),
            },
        }
    }

    // What was read of it.
    fn seen(&self, version: &FolderVersion, draft: &Draft) -> Result<Possible, AllocError>
        requires { IsSound (header_of version.now.snapshot) version.now.snapshot.records.items }
    {
        let records = records_of(self.alloc, version)?;
        let mut with_draft = records.copy(self.alloc)?;
        for (place, bytes) in draft.changes.iter() {
            with_draft.put(self.alloc, *place as usize, bytes)?;
        }
        Ok(Possible {
            version: version.number(),
            records,
            draft: with_draft,
        })
    }
}

// A command that failed, unless what it found is broken.
fn failed(failure: Failure) -> Result<Command, Broken> {
    match name_of(failure) {
        fault if is_damage(fault) => Err(Broken::BadFolder { fault }),
        fault => Ok(Command::Failed(fault)),
    }
}

/// The records of a folder's version.
///
/// # Errors
///
/// `AllocError` when memory was refused.
pub fn records_of(alloc: Global, version: &FolderVersion) -> Result<Records, AllocError>
    requires { IsSound (header_of version.now.snapshot) version.now.snapshot.records.items }
{
    let mut records = Records::none(alloc);
    for index in 0..version.count() {
        records.put(alloc, index, version.record(index))?;
    }
    Ok(records)
}
