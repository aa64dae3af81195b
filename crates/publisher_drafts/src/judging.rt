//! Whether a change can be made.

ghost use Rattle.std.specs.Prelude.{◌≡◌};
ghost use Rattle.publisher_drafts.specs.Judging.{edit_verdict, append_verdict, verdict};

use pir_schemes::Plan;
use thiserror::Error;

/// What is to be changed.
#[derive(Clone, Copy, Debug, PartialEq, Eq)]
pub enum Target {
    /// The record of this index.
    At(u32),
    /// A record after the last one.
    End,
}

/// Why a change can't be made: the first cause.
#[derive(Clone, Copy, Debug, PartialEq, Eq, Error)]
pub enum EditFault {
    /// There is no record of this index.
    #[error("there is no record of this index")]
    BadIndex,
    /// A record of the store can't have this number of bytes.
    #[error("a record of the store can't have this number of bytes")]
    BadLength,
    /// The store has room for no further record.
    #[error("the store has room for no further record")]
    Full,
}

impl EditFault {
    /// Its name, as programs print it.
    pub fn name(self) -> &'static str {
        match self {
            EditFault::BadIndex => "BadIndex",
            EditFault::BadLength => "BadLength",
            EditFault::Full => "Full",
        }
    }
}

/// The place of a change of so many records.
///
/// # Errors
///
/// The first cause why the change can't be made.
pub fn judge(plan: &Plan, count: usize, target: Target, bytes: &[u8]) -> Result<u32, EditFault>
    ensures { result ≡ verdict plan.now count target bytes.now }
{
    match target {
        Target::At(index) => judge_edit(plan, count, index, bytes),
        Target::End => judge_append(plan, count, bytes),
    }
}

// The place of a record that is replaced by these bytes.
fn judge_edit(plan: &Plan, count: usize, index: u32, bytes: &[u8]) -> Result<u32, EditFault>
    ensures { result ≡ edit_verdict plan.now count index bytes.now }
{
    if index as usize >= count {
        return Err(EditFault::BadIndex);
    }
    if !plan.fits(bytes) {
        return Err(EditFault::BadLength);
    }
    Ok(index)
}

// The place of a record of these bytes after the last one.
fn judge_append(plan: &Plan, count: usize, bytes: &[u8]) -> Result<u32, EditFault>
    ensures { result ≡ append_verdict plan.now count bytes.now }
{
    if !plan.fits(bytes) {
        return Err(EditFault::BadLength);
    }
    if count > u32::MAX as usize || !plan.has_layout(count + 1) {
        return Err(EditFault::Full);
    }
    Ok(count as u32)
}
