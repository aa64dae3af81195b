//! A wide snapshot of the records of an ordinary one.

ghost use Rattle.std.specs.Prelude.{◌≡◌, IfOk, IfErr};
ghost use Rattle.digit_pack.specs.Layout.{IsLayout};
ghost use Rattle.snapshot_file.specs.Names.{widen_error_name};
ghost use Rattle.snapshot_file.specs.Snapshots.{header_of, shape_of};
ghost use Rattle.snapshot_file.specs.Widenings.{IsWidened, IsWidenFault};

use crate::snapshot::{Header, Snapshot};
use std::alloc::{AllocError, Global};
use thiserror::Error;

/// Why no wide snapshot is made.
#[derive(Clone, Copy, Debug, PartialEq, Eq, Error)]
pub enum WidenError {
    /// The snapshot is a wide one, or has a form that doesn't exist.
    #[error("the snapshot is not of form 1 or 2")]
    NotOrdinary,
    /// Digits have 10 bits, which a wide store's noise leaves no room for.
    #[error("a wide store has digits of at most 9 bits")]
    BadWidth,
    /// Memory was refused.
    #[error("out of memory")]
    Memory,
}

impl WidenError {
    /// What the error is called when it is printed.
    #[tactic(auto, unfolding(crate::specs::Names::widen_error_name))]
    pub fn name(self) -> &'static str
        ensures { result.now ≡ widen_error_name self }
    {
        match self {
            WidenError::NotOrdinary => "NotOrdinary",
            WidenError::BadWidth => "BadWidth",
            WidenError::Memory => "Memory",
        }
    }
}

impl From<AllocError> for WidenError {
    ghost use Rattle.snapshot_file.specs.declared.widening.WidenError.TheVariants.{Memory};

    ghost from_gives = { λ _ fault. fault ≡ Memory };

    fn from(_refused: AllocError) -> Self {
        WidenError::Memory
    }
}

/// The same records in the wide form of the snapshot's, 129 for 1 and 130 for 2. Only the form and
/// the public seed change: the hints of the wide store are others, so it needs a seed that no other
/// store has.
///
/// # Errors
///
/// `NotOrdinary` exactly when the form is neither 1 nor 2; `BadWidth` exactly when it is one of
/// these and digits have 10 bits; `Memory`, in no other case, when memory for the records was
/// refused.
#[tactic(auto, using(digit_pack::proofs::FormLemmas::wide_layout))]
pub fn widen(alloc: Global, snapshot: &Snapshot, seed: [u8; 32]) -> Result<Snapshot, WidenError>
    requires { IsLayout (shape_of (header_of snapshot.now)) }
    ensures widened { IfOk result
        (IsWidened (header_of snapshot.now) seed snapshot.now.records.items) }
    ensures refused { IfErr result (IsWidenFault (header_of snapshot.now)) }
{
    let header = snapshot.header();
    if header.form != 1 && header.form != 2 {
        return Err(WidenError::NotOrdinary);
    }
    if header.width > 9 {
        return Err(WidenError::BadWidth);
    }
    let mut records = Vec::with_capacity(alloc, snapshot.records.len())?;
    records.extend_from_slice(&snapshot.records)?;
    let wide = Header {
        form: header.form + 128,
        seed,
        ..header
    };
    Ok(wide.with_records(records))
}
